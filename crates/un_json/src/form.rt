ghost use Rattle.std.specs.Prelude.{◌≡◌, Ok, IfOk, IfErr, OnOk, false};
ghost use Rattle.serde_json.specs.View.{view};
ghost use Rattle.un_json.specs.Rows.{required_member, optional_member, required_member_when, optional_member_when, no_others, is_named, is_other, some_other, Blames};
ghost use Rattle.serde_json.specs.View.{members_view};

use crate::fault::ReadFault;
use serde_json::{Map, Value};
use std::alloc::{AllocError, Global};
use std::marker::PhantomData;
use un_schema::Place;

/// A form that a member's value may have.
pub trait Form {
    ghost use Rattle.std.specs.Prelude.{Option};
    ghost use Rattle.serde_json.specs.Data.{Data};

    type Out: Drop;

    ghost form: { Data → Option Self.Out };

    fn read(alloc: Global, value: &Value) -> Result<Option<Self::Out>, AllocError>
        ensures { IfOk result (λ out. out ≡ form (view value.now)) };
}

/// A value of another form, or null for none.
pub struct OrNull<F> {
    of: PhantomData<F>,
}

impl<F: Form> Form for OrNull<F> {
    ghost use Rattle.un_json.specs.Forms.{or_null};

    type Out = Option<F::Out>;

    ghost form = { or_null F.form };

    fn read(alloc: Global, value: &Value) -> Result<Option<Option<F::Out>>, AllocError> {
        if value.is_null() {
            return Ok(Some(None));
        }
        match F::read(alloc, value)? {
            Some(out) => Ok(Some(Some(out))),
            None => Ok(None),
        }
    }
}

/// The value of a member that must be there.
#[tactic(auto, unfolding(crate::specs::Rows::required_member))]
pub fn required<F: Form>(alloc: Global, object: &Value, place: Place) -> Result<F::Out, ReadFault>
    ensures ok { IfOk result (λ out. required_member place F.form (view object.now) ≡ Ok out) }
    ensures err { IfErr result (λ e. Blames e (required_member place F.form (view object.now))) }
{
    let Some(value) = object.get(place.text()) else {
        return Err(ReadFault::BadRequest { place });
    };
    match F::read(alloc, value)? {
        Some(out) => Ok(out),
        None => Err(ReadFault::BadRequest { place }),
    }
}

/// The value of a member that may be absent, and is the default then.
#[tactic(auto, unfolding(crate::specs::Rows::optional_member))]
pub fn optional<F: Form>(
    alloc: Global,
    object: &Value,
    place: Place,
    default: F::Out,
) -> Result<F::Out, ReadFault>
    ensures ok { IfOk result (λ out. optional_member place F.form default (view object.now) ≡ Ok out) }
    ensures err { IfErr result (λ e. Blames e (optional_member place F.form default (view object.now))) }
{
    let Some(value) = object.get(place.text()) else {
        return Ok(default);
    };
    match F::read(alloc, value)? {
        Some(out) => Ok(out),
        None => Err(ReadFault::BadRequest { place }),
    }
}

/// The value of a member that must be there where it is taken; where it is not, the other value.
#[tactic(auto, unfolding(crate::specs::Rows::required_member_when))]
pub fn required_when<F: Form>(
    taken: bool,
    alloc: Global,
    object: &Value,
    place: Place,
    other: F::Out,
) -> Result<F::Out, ReadFault>
    ensures ok { IfOk result
        (λ out. required_member_when taken place F.form other (view object.now) ≡ Ok out) }
    ensures err { IfErr result
        (λ e. Blames e (required_member_when taken place F.form other (view object.now))) }
{
    if taken {
        required::<F>(alloc, object, place)
    } else {
        Ok(other)
    }
}

/// The value of a member that may be absent, where it is taken; the default in every other case.
#[tactic(auto, unfolding(crate::specs::Rows::optional_member_when))]
pub fn optional_when<F: Form>(
    taken: bool,
    alloc: Global,
    object: &Value,
    place: Place,
    default: F::Out,
) -> Result<F::Out, ReadFault>
    ensures ok { IfOk result
        (λ out. optional_member_when taken place F.form default (view object.now) ≡ Ok out) }
    ensures err { IfErr result
        (λ e. Blames e (optional_member_when taken place F.form default (view object.now))) }
{
    if taken {
        optional::<F>(alloc, object, place, default)
    } else {
        Ok(default)
    }
}

/// Refuses an object that has a member with another name than these.
#[tactic(auto, unfolding(crate::specs::Rows::no_others))]
pub fn no_others(object: &Value, places: &[Place]) -> Result<(), ReadFault>
    ensures ok { OnOk result (no_others places.now (view object.now) ≡ Ok tt) }
    ensures err { IfErr result (λ e. Blames e (no_others places.now (view object.now))) }
{
    match object.as_object() {
        Some(members) if some_other(members, places) => {
            Err(ReadFault::BadRequest {
                place: Place::Extra,
            })
        }
        _ => Ok(()),
    }
}

/// Whether some member has another name than these.
#[tactic(auto, using(crate::proofs::Others::looked_on, crate::proofs::Others::found, crate::proofs::Others::none_found))]
pub fn some_other(members: &Map<String, Value>, places: &[Place]) -> bool
    ensures { result ≡ some_other places.now (members_view members.now.entries) }
{
    for (name, _) in members.iter() {
        if is_other(name.as_str(), places) {
            return true;
        }
    }
    false
}

/// Whether the name is none of these.
fn is_other(name: &str, places: &[Place]) -> bool
    ensures { result ≡ is_other places.now name.now }
{
    !places.iter().any(|place| is_named(place, name))
}

/// Whether the member of the place has this name.
#[tactic(auto, unfolding(crate::specs::Rows::is_named))]
fn is_named(place: &Place, name: &str) -> bool
    ensures { result ≡ is_named name.now place.now }
{
    place.text() == name
}
