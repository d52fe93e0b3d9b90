//! Entries of a star.
ghost use Rattle.std.specs.Prelude.{◌≡◌, ◌<◌, All, IfOk, IfSome, length, option_map, string_bytes};
ghost use Rattle.serde_json.specs.View.{view, items_view, members_view};
ghost use Rattle.un_attrs.specs.Attributes.{known};
ghost use Rattle.un_json.specs.Forms.{each_item, list_of};
ghost use Rattle.un_feed_json.specs.Forms.{attrs_of, controller_from, controller_of, each_numbered, entry_from, entry_of, field, head_of, ids_of, kind_of, numbered_of, spot, tail_of, tie_of, tier_of};

use crate::read::fields::{field, has_length, port_at};
use crate::read::link::{Link, base_at};
use serde_json::{Map, Value};
use std::alloc::{AllocError, Global};
use un_attrs::Attrs;
use un_defs::link::{TieList, Ties};
use un_defs::star::Spots;
use un_defs::{Controller, Ids, PackedSpot, Port, Spot};
use un_json::form::Form;
use un_json::list::read_list;
use un_json::scalar::{Id, Named};
use un_schema::Schema;
use un_tiers::Tiers;

// The number of the kind whose name stands at a place of a list.
fn kind_at(schema: &Schema, place: usize, value: &Value) -> Option<u16>
    ensures { result ≡ field place (kind_of schema.now) (view value.now) }
{
    schema.kind(value.get(place)?.as_str()?)
}

// The number of the tier whose name stands at a place of a list.
fn tier_at(tiers: &Tiers, place: usize, value: &Value) -> Option<u8>
    ensures { result ≡ field place (tier_of tiers.now) (view value.now) }
{
    tiers.find(value.get(place)?.as_str()?)
}

// A member as the number of an attribute, if the schema has one with its name, and a whole number.
fn numbered(schema: &Schema, name: &String, value: &Value) -> Option<(Option<u8>, i64)>
    ensures pair { result ≡ numbered_of schema.now (string_bytes name.now) (view value.now) }
    ensures few { IfSome result (λ pair. IfSome pair.0 (λ n. n < 32)) }
{
    let number = value.as_i64()?;
    Some((schema.attribute(name.as_str()), number))
}

// The attributes as numbers of the schema with their values.
#[tactic(auto, using(crate::proofs::Numbered::read_first, crate::proofs::Numbered::read_on, crate::proofs::Numbered::read_none, crate::proofs::Numbered::read_all))]
fn read_numbered(
    alloc: Global,
    schema: &Schema,
    members: &Map<String, Value>,
) -> Result<Option<Vec<(Option<u8>, i64)>>, AllocError>
    ensures same { IfOk result (λ pairs. option_map (λ v. v.items) pairs
        ≡ each_numbered schema.now (members_view members.now.entries)) }
    ensures few { IfOk result (λ pairs. IfSome pairs (λ v. All (λ pair. pair.0 < 32) (known v.items))) }
{
    let mut pairs = Vec::with_capacity(alloc, members.len())?;
    for (name, value) in members.iter() {
        match numbered(schema, name, value) {
            Some(pair) => pairs.push(pair)?,
            None => return Ok(None),
        }
    }
    Ok(Some(pairs))
}

// The attributes of an entry.
fn read_attrs(alloc: Global, schema: &Schema, value: &Value) -> Result<Option<Attrs>, AllocError>
    ensures { IfOk result (λ attrs. attrs ≡ attrs_of schema.now (view value.now)) }
{
    let Some(members) = value.as_object() else {
        return Ok(None);
    };
    let Some(pairs) = read_numbered(alloc, schema, members)? else {
        return Ok(None);
    };
    Ok(Attrs::new(pairs.as_slice()).ok())
}

fn attrs_at(
    alloc: Global,
    schema: &Schema,
    place: usize,
    value: &Value,
) -> Result<Option<Attrs>, AllocError>
    ensures { IfOk result (λ attrs. attrs ≡ field place (attrs_of schema.now) (view value.now)) }
{
    match value.get(place) {
        Some(value) => read_attrs(alloc, schema, value),
        None => Ok(None),
    }
}

fn controller_from(
    alloc: Global,
    tiers: &Tiers,
    port: Port,
    value: &Value,
) -> Result<Option<Controller>, AllocError>
    ensures { IfOk result (λ out. out ≡ controller_from tiers.now port (view value.now)) }
{
    let Some(tier) = tier_at(tiers, 0, value) else {
        return Ok(None);
    };
    let Some(subnet) = field::<Named>(alloc, 1, value)? else {
        return Ok(None);
    };
    Ok(Some(Controller { port, tier, subnet }))
}

// The controller of a port, or none for null.
fn read_controller(
    alloc: Global,
    tiers: &Tiers,
    port: Port,
    value: &Value,
) -> Result<Option<Option<Controller>>, AllocError>
    ensures { IfOk result (λ out. out ≡ controller_of tiers.now port (view value.now)) }
{
    if value.is_null() {
        return Ok(Some(None));
    }
    if !has_length(2, value) {
        return Ok(None);
    }
    match controller_from(alloc, tiers, port, value)? {
        Some(controller) => Ok(Some(Some(controller))),
        None => Ok(None),
    }
}

fn controller_at(
    alloc: Global,
    tiers: &Tiers,
    port: Port,
    place: usize,
    value: &Value,
) -> Result<Option<Option<Controller>>, AllocError>
    ensures { IfOk result (λ out. out ≡ field place (controller_of tiers.now port) (view value.now)) }
{
    match value.get(place) {
        Some(value) => read_controller(alloc, tiers, port, value),
        None => Ok(None),
    }
}

// The values that have a form, at a place of a list.
fn list_at<F: Form>(
    alloc: Global,
    place: usize,
    value: &Value,
) -> Result<Option<Vec<F::Out>>, AllocError>
    ensures { IfOk result
        (λ items. option_map (λ v. v.items) items ≡ field place (list_of F.form) (view value.now)) }
{
    match value.get(place) {
        Some(value) => read_list::<F>(alloc, value),
        None => Ok(None),
    }
}

fn ids_at(alloc: Global, place: usize, value: &Value) -> Result<Option<Ids>, AllocError>
    ensures { IfOk result (λ ids. ids ≡ field place ids_of (view value.now)) }
{
    match list_at::<Id>(alloc, place, value)? {
        Some(items) => Ok(Some(Ids::new(items))),
        None => Ok(None),
    }
}

fn ties_at(alloc: Global, place: usize, value: &Value) -> Result<Option<Ties>, AllocError>
    ensures { IfOk result (λ ties. ties ≡ field place (list_of tie_of) (view value.now)) }
{
    match list_at::<Link>(alloc, place, value)? {
        Some(items) => Ok(Some(Ties::new(TieList::from_vec(items)))),
        None => Ok(None),
    }
}

/// An entry's port and its kind.
#[derive(Clone, Copy)]
struct Head {
    port: Port,
    kind: u16,
}

fn read_head(schema: &Schema, value: &Value) -> Option<Head>
    ensures { result ≡ head_of schema.now (view value.now) }
{
    Some(Head {
        port: port_at(0, 1, value)?,
        kind: kind_at(schema, 2, value)?,
    })
}

/// An entry's container, contents and structures.
#[derive(Drop)]
struct Tail {
    container: u64,
    contents: Ids,
    structures: Ids,
}

fn read_tail(alloc: Global, value: &Value) -> Result<Option<Tail>, AllocError>
    ensures { IfOk result (λ tail. tail ≡ tail_of (view value.now)) }
{
    let Some(container) = base_at(6, value) else {
        return Ok(None);
    };
    let Some(contents) = ids_at(alloc, 7, value)? else {
        return Ok(None);
    };
    let Some(structures) = ids_at(alloc, 8, value)? else {
        return Ok(None);
    };
    Ok(Some(Tail {
        container,
        contents,
        structures,
    }))
}

// The entry with these parts, with the class and the categories of its kind.
fn spot(
    schema: &Schema,
    head: Head,
    attrs: Attrs,
    ties: Ties,
    controller: Option<Controller>,
    tail: Tail,
) -> Spot
    requires { head.kind < length schema.now.kinds }
    ensures { result ≡ spot schema.now head attrs ties controller tail }
{
    let Tail {
        container,
        contents,
        structures,
    } = tail;
    Spot {
        port: head.port,
        kind: head.kind,
        class: schema.kind_at(head.kind).class,
        cats: schema.cats(head.kind),
        attrs,
        ties,
        controller,
        container,
        contents,
        structures,
    }
}

// The entry in a list of nine values.
#[tactic(auto, using(crate::proofs::Known::head_known))]
fn entry_from(
    alloc: Global,
    schema: &Schema,
    tiers: &Tiers,
    value: &Value,
) -> Result<Option<PackedSpot>, AllocError>
    ensures { IfOk result (λ spot. spot ≡ entry_from schema.now tiers.now (view value.now)) }
{
    let Some(head) = read_head(schema, value) else {
        return Ok(None);
    };
    let Some(attrs) = attrs_at(alloc, schema, 3, value)? else {
        return Ok(None);
    };
    let Some(ties) = ties_at(alloc, 4, value)? else {
        return Ok(None);
    };
    let Some(controller) = controller_at(alloc, tiers, head.port, 5, value)? else {
        return Ok(None);
    };
    match read_tail(alloc, value)? {
        Some(tail) => {
            let spot = spot(schema, head, attrs, ties, controller, tail);
            let packed = PackedSpot::new(alloc, spot)?;
            Ok(Some(packed))
        }
        None => Ok(None),
    }
}

fn read_entry(
    alloc: Global,
    schema: &Schema,
    tiers: &Tiers,
    value: &Value,
) -> Result<Option<PackedSpot>, AllocError>
    ensures { IfOk result (λ spot. spot ≡ entry_of schema.now tiers.now (view value.now)) }
{
    if !has_length(9, value) {
        return Ok(None);
    }
    entry_from(alloc, schema, tiers, value)
}

// The entries, if all values are entries.
#[tactic(auto, using(un_json::proofs::Items::read_on, un_json::proofs::Items::read_none, un_json::proofs::Items::read_all))]
fn read_entries(
    alloc: Global,
    schema: &Schema,
    tiers: &Tiers,
    values: &[Value],
) -> Result<Option<Vec<PackedSpot>>, AllocError>
    ensures { IfOk result (λ items. option_map (λ v. v.items) items
        ≡ each_item (entry_of schema.now tiers.now) (items_view values.now)) }
{
    let mut items = Vec::with_capacity(alloc, values.len())?;
    for value in values {
        match read_entry(alloc, schema, tiers, value)? {
            Some(item) => items.push(item)?,
            None => return Ok(None),
        }
    }
    Ok(Some(items))
}

/// The entries of a star.
pub(crate) fn read_spots(
    alloc: Global,
    schema: &Schema,
    tiers: &Tiers,
    value: &Value,
) -> Result<Option<Spots>, AllocError>
    ensures { IfOk result (λ spots. spots ≡ list_of (entry_of schema.now tiers.now) (view value.now)) }
{
    let Some(values) = value.as_array() else {
        return Ok(None);
    };
    match read_entries(alloc, schema, tiers, values.as_slice())? {
        Some(items) => Ok(Some(Spots::new(items))),
        None => Ok(None),
    }
}
