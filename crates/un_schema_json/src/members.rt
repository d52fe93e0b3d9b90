//! A schema that is given by its members.
ghost use Rattle.std.specs.Prelude.{◌≡◌, IfOk, IfErr, OnOk, Ok, Err};
ghost use Rattle.serde_json.specs.View.{view};
ghost use Rattle.un_json.specs.Forms.{list_from_to};
ghost use Rattle.un_json.specs.Rows.{no_others};
ghost use Rattle.un_schema.specs.SchemaFaults.{OnBadSchema};
ghost use Rattle.un_schema_json.specs.Table.{member_of, given, given_places};
ghost use Rattle.un_schema_json.specs.Lines.{catalog_of, given_in};

use crate::config::ConfigForm;
use crate::kind::KindForm;
use crate::list::{TextForm, read_up_to};
use crate::rule::RawRuleForm;
use crate::tier::read_tiers;
use serde_json::Value;
use std::alloc::{AllocError, Global};
use un_json::form::{Form, some_other};
use un_schema::{Format, Items, Place, RawSchema, Schema, SchemaFault};
use un_tiers::Tiers;

/// The list in a member, if it is there, is not too long and has the form.
fn list_at<F: Form>(
    alloc: Global,
    object: &Value,
    place: Place,
    most: usize,
) -> Result<Option<Items<F::Out>>, AllocError>
    ensures { IfOk result (λ items. items ≡ member_of place (list_from_to 0 most F.form) (view object.now)) }
{
    match object.get(place.text()) {
        Some(value) => read_up_to::<F>(alloc, most, value),
        None => Ok(None),
    }
}

/// The members but the tiers, of which only the forms are looked at.
fn raw_schema(alloc: Global, format: Format, object: &Value) -> Result<RawSchema, AllocError>
    ensures { IfOk result (λ raw. raw ≡ given format (view object.now)) }
{
    Ok(RawSchema {
        format,
        attributes: list_at::<TextForm>(alloc, object, Place::Attributes, 32)?,
        categories: list_at::<TextForm>(alloc, object, Place::Categories, 32)?,
        configs: list_at::<ConfigForm>(alloc, object, Place::Configs, 64)?,
        kinds: list_at::<KindForm>(alloc, object, Place::Kinds, 256)?,
        rules: list_at::<RawRuleForm>(alloc, object, Place::Rules, 4096)?,
    })
}

fn schema_of(alloc: Global, format: Format, object: &Value) -> Result<Schema, SchemaFault>
    ensures ok { IfOk result (λ schema. catalog_of (given format (view object.now)) ≡ Ok schema) }
    ensures bad { IfErr result
        (λ fault. OnBadSchema fault (λ place. catalog_of (given format (view object.now)) ≡ Err place)) }
{
    let raw = raw_schema(alloc, format, object)?;
    Schema::new(alloc, &raw)
}

/// Refuses an object that has a member with another name than these.
#[tactic(auto, unfolding(un_json::specs::Rows::no_others))]
pub(crate) fn refuse_others(object: &Value, places: &[Place]) -> Result<(), SchemaFault>
    ensures ok { OnOk result (no_others places.now (view object.now) ≡ Ok tt) }
    ensures bad { IfErr result
        (λ fault. OnBadSchema fault (λ place. no_others places.now (view object.now) ≡ Err place)) }
{
    match object.as_object() {
        Some(members) if some_other(members, places) => {
            Err(SchemaFault::BadSchema {
                place: Place::Extra,
            })
        }
        _ => Ok(()),
    }
}

/// The schema and the tiers that the members of an object give, by their order.
pub(crate) fn read_given(
    alloc: Global,
    format: Format,
    object: &Value,
) -> Result<(Schema, Tiers), SchemaFault>
    ensures ok { IfOk result (λ both. given_in format (view object.now) ≡ Ok both) }
    ensures bad { IfErr result
        (λ fault. OnBadSchema fault (λ place. given_in format (view object.now) ≡ Err place)) }
{
    let schema = schema_of(alloc, format, object)?;
    let tiers = read_tiers(alloc, object, &schema)?;
    refuse_others(
        object,
        &[
            Place::Schema,
            Place::Attributes,
            Place::Categories,
            Place::Configs,
            Place::Kinds,
            Place::Rules,
            Place::Tiers,
        ],
    )?;
    Ok((schema, tiers))
}
