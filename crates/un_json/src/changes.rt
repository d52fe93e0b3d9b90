//! Queries for changes of the kept topology.
ghost use Rattle.std.specs.Prelude.{◌≡◌, Ok, IfOk, IfErr};
ghost use Rattle.serde_json.specs.View.{view};
ghost use Rattle.un_json.specs.Rows.{Blames};
ghost use Rattle.un_json.specs.Forms.{most_of};
ghost use Rattle.un_json.specs.Table.{changes_answer};

use crate::fault::ReadFault;
use crate::form::{Form, OrNull, no_others, optional, required};
use crate::list::PointForm;
use crate::scalar::{Base, count_from_to};
use serde_json::Value;
use std::alloc::{AllocError, Global};
use un_ask::{ChangesQuery, Place};

/// The most changes of an answer, unless the query says another number.
const USUAL_MOST: u64 = 500;

/// The greatest number that it may say.
const GREATEST_MOST: u64 = 1_000;

/// The members of a query for changes.
const MEMBERS: [Place; 6] = [
    Place::Ask,
    Place::Since,
    Place::Upto,
    Place::After,
    Place::Most,
    Place::Seen,
];

/// How many changes are asked for.
struct Most;

impl Form for Most {
    ghost use Rattle.un_json.specs.Forms.{most_of};

    type Out = u64;

    ghost form = { most_of };

    fn read(_alloc: Global, value: &Value) -> Result<Option<u64>, AllocError> {
        Ok(count_from_to(1, GREATEST_MOST, value))
    }
}

/// Reads an object as a query for changes.
pub(crate) fn read_changes(alloc: Global, object: &Value) -> Result<ChangesQuery, ReadFault>
    ensures ok { IfOk result (λ query. changes_answer (view object.now) ≡ Ok query) }
    ensures err { IfErr result (λ e. Blames e (changes_answer (view object.now))) }
{
    let since = required::<Base>(alloc, object, Place::Since)?;
    let upto = optional::<OrNull<Base>>(alloc, object, Place::Upto, None)?;
    let after = optional::<OrNull<PointForm>>(alloc, object, Place::After, None)?;
    let most = optional::<Most>(alloc, object, Place::Most, USUAL_MOST)?;
    let seen = optional::<Base>(alloc, object, Place::Seen, 0)?;
    no_others(object, &MEMBERS)?;
    Ok(ChangesQuery {
        seen,
        since,
        upto,
        after,
        most,
    })
}
