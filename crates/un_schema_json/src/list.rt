//! Texts, and lists that are not too long.
ghost use Rattle.std.specs.Prelude.{◌≡◌, IfOk};
ghost use Rattle.serde_json.specs.Find.{as_str};
ghost use Rattle.serde_json.specs.View.{view};
ghost use Rattle.un_json.specs.Forms.{list_from_to};
ghost use Rattle.un_schema_json.specs.Parts.{texts};

use serde_json::Value;
use std::alloc::{AllocError, Global};
use un_conds::Text;
use un_json::form::Form;
use un_json::list::read_list;
use un_schema::Items;

/// A text.
pub(crate) fn read_text(alloc: Global, value: &Value) -> Result<Option<Text>, AllocError>
    ensures { IfOk result (λ text. text ≡ as_str (view value.now)) }
{
    match value.as_str() {
        Some(text) => Ok(Some(Text::new(String::from_str(alloc, text)?))),
        None => Ok(None),
    }
}

/// A text.
pub(crate) struct TextForm;

impl Form for TextForm {
    ghost use Rattle.serde_json.specs.Find.{as_str};

    type Out = Text;

    ghost form = { as_str };

    fn read(alloc: Global, value: &Value) -> Result<Option<Text>, AllocError> {
        read_text(alloc, value)
    }
}

/// A list of at most `most` values that have the form. No value of a longer list is read.
#[tactic(auto, using(crate::proofs::Lengths::too_long, crate::proofs::Lengths::short))]
pub(crate) fn read_up_to<F: Form>(
    alloc: Global,
    most: usize,
    value: &Value,
) -> Result<Option<Items<F::Out>>, AllocError>
    ensures { IfOk result (λ items. items ≡ list_from_to 0 most F.form (view value.now)) }
{
    let Some(values) = value.as_array() else {
        return Ok(None);
    };
    if values.as_slice().len() > most {
        return Ok(None);
    }
    match read_list::<F>(alloc, value)? {
        Some(items) => Ok(Some(Items::new(items))),
        None => Ok(None),
    }
}

/// At most this many texts.
pub(crate) fn read_texts(
    alloc: Global,
    most: usize,
    value: &Value,
) -> Result<Option<Items<Text>>, AllocError>
    ensures { IfOk result (λ items. items ≡ texts most (view value.now)) }
{
    read_up_to::<TextForm>(alloc, most, value)
}
