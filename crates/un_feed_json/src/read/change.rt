//! Changes of a page.
ghost use Rattle.std.specs.Prelude.{◌≡◌, IfOk, IfSome, is_some, map, option_map};
ghost use Rattle.std.specs.Arc.{arc_value};
ghost use Rattle.serde_json.specs.View.{view, items_view};
ghost use Rattle.serde_json.specs.Find.{as_null};
ghost use Rattle.un_feed.specs.Differences.{change_shown};
ghost use Rattle.un_json.specs.Forms.{each_item, list_of, point_of};
ghost use Rattle.un_feed_json.specs.Fits.{HaveNames};
ghost use Rattle.un_feed_json.specs.Forms.{change_from, change_of, entry_of, error_of, field, star_from, star_part};

use crate::read::entry::read_spots;
use crate::read::fields::has_length;
use crate::read::link::Fault;
use serde_json::Value;
use std::alloc::{AllocError, Global};
use std::sync::Arc;
use un_defs::Star;
use un_defs::star::{Spots, TopoErrors};
use un_feed::{Change, Pairs};
use un_geom::Point;
use un_json::list::{read_list, read_point};
use un_schema::Schema;
use un_tiers::Tiers;

fn spots_at(
    alloc: Global,
    schema: &Schema,
    tiers: &Tiers,
    place: usize,
    value: &Value,
) -> Result<Option<Spots>, AllocError>
    ensures { IfOk result
        (λ spots. spots ≡ field place (list_of (entry_of schema.now tiers.now)) (view value.now)) }
{
    match value.get(place) {
        Some(value) => read_spots(alloc, schema, tiers, value),
        None => Ok(None),
    }
}

fn read_errors(alloc: Global, value: &Value) -> Result<Option<TopoErrors>, AllocError>
    ensures { IfOk result (λ errors. errors ≡ list_of error_of (view value.now)) }
{
    match read_list::<Fault>(alloc, value)? {
        Some(items) => Ok(Some(TopoErrors::new(items))),
        None => Ok(None),
    }
}

fn errors_at(alloc: Global, place: usize, value: &Value) -> Result<Option<TopoErrors>, AllocError>
    ensures { IfOk result (λ errors. errors ≡ field place (list_of error_of) (view value.now)) }
{
    match value.get(place) {
        Some(value) => read_errors(alloc, value),
        None => Ok(None),
    }
}

fn star_from(
    alloc: Global,
    schema: &Schema,
    tiers: &Tiers,
    value: &Value,
) -> Result<Option<Star>, AllocError>
    ensures { IfOk result (λ star. star ≡ star_from schema.now tiers.now (view value.now)) }
{
    let Some(spots) = spots_at(alloc, schema, tiers, 1, value)? else {
        return Ok(None);
    };
    let Some(errors) = errors_at(alloc, 2, value)? else {
        return Ok(None);
    };
    Ok(Some(Star { spots, errors }))
}

fn is_null_at(place: usize, value: &Value) -> bool
    ensures { result ≡ is_some (field place as_null (view value.now)) }
{
    match value.get(place) {
        Some(value) => value.is_null(),
        None => false,
    }
}

// The star of a change, or none where both values are null.
fn star_part(
    alloc: Global,
    schema: &Schema,
    tiers: &Tiers,
    value: &Value,
) -> Result<Option<Option<Arc<Star>>>, AllocError>
    ensures { IfOk result (λ part. option_map (option_map arc_value) part
        ≡ star_part schema.now tiers.now (view value.now)) }
{
    if is_null_at(1, value) && is_null_at(2, value) {
        return Ok(Some(None));
    }
    match star_from(alloc, schema, tiers, value)? {
        Some(star) => Ok(Some(Some(Arc::new(alloc, star)?))),
        None => Ok(None),
    }
}

fn point_at(place: usize, value: &Value) -> Option<Point>
    ensures { result ≡ field place point_of (view value.now) }
{
    read_point(value.get(place)?)
}

fn read_change(
    alloc: Global,
    schema: &Schema,
    tiers: &Tiers,
    value: &Value,
) -> Result<Option<Change>, AllocError>
    ensures { IfOk result (λ change. option_map change_shown change
        ≡ change_of schema.now tiers.now (view value.now)) }
{
    if !has_length(3, value) {
        return Ok(None);
    }
    let Some(at) = point_at(0, value) else {
        return Ok(None);
    };
    match star_part(alloc, schema, tiers, value)? {
        Some(star) => Ok(Some(Change { at, star })),
        None => Ok(None),
    }
}

// The changes, if all values are changes.
#[tactic(auto, using(crate::proofs::ReadChanges::read_first, crate::proofs::ReadChanges::read_on, crate::proofs::ReadChanges::read_none, crate::proofs::ReadChanges::read_all))]
fn read_all(
    alloc: Global,
    schema: &Schema,
    tiers: &Tiers,
    values: &[Value],
) -> Result<Option<Vec<Change>>, AllocError>
    ensures { IfOk result (λ items. option_map (λ v. map change_shown v.items) items
        ≡ each_item (change_of schema.now tiers.now) (items_view values.now)) }
{
    let mut items = Vec::with_capacity(alloc, values.len())?;
    for value in values {
        match read_change(alloc, schema, tiers, value)? {
            Some(item) => items.push(item)?,
            None => return Ok(None),
        }
    }
    Ok(Some(items))
}

/// The changes of a page.
#[tactic(auto, using(crate::proofs::Known::pairs_known))]
pub(crate) fn read_pairs(
    alloc: Global,
    schema: &Schema,
    tiers: &Tiers,
    value: &Value,
) -> Result<Option<Pairs>, AllocError>
    ensures same { IfOk result (λ pairs. option_map (map change_shown) pairs
        ≡ list_of (change_of schema.now tiers.now) (view value.now)) }
    ensures names { IfOk result (λ pairs. IfSome pairs (λ ps. HaveNames schema.now tiers.now ps)) }
{
    let Some(values) = value.as_array() else {
        return Ok(None);
    };
    match read_all(alloc, schema, tiers, values.as_slice())? {
        Some(items) => Ok(Some(Pairs::new(items))),
        None => Ok(None),
    }
}
