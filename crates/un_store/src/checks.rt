//! What may refuse an edit, each as a function that answers the refusal.
ghost use Rattle.std.specs.Prelude.{◌≡◌, ◌≢◌, ◌<◌, ◌≤◌, ◌==◌, length, slice_get, map, All, Some, None, IfOk, OnOk, IfErr, IfSome, IsTrue};
ghost use Rattle.std.specs.List.{list_all};
ghost use Rattle.std.specs.Option.{option_map};
ghost use Rattle.un_attrs.specs.Attributes.{known};
ghost use Rattle.un_geom.specs.Places.{point_of};
ghost use Rattle.un_schema.specs.Catalog.{kind_named, path_named, place_of};
ghost use Rattle.un_defs.specs.declared.refusal.Refusal.TheVariants.{Memory};
ghost use Rattle.un_defs.specs.Change.{numbered};
ghost use Rattle.un_defs.specs.Sound.{least_points, most_points};
ghost use Rattle.un_defs.specs.Refusing.{Refuses};
ghost use Rattle.un_store.specs.Refusals.{no_kind, not_plain, bad_shape, bad_attribute, numbers_of, no_room, no_line, no_path, other_class, same_class};

use crate::store::Store;
use std::alloc::{AllocError, Global};
use un_attrs::Attrs;
use un_defs::{Flow, Limit, NamedAttrs, Refusal, Row};
use un_geom::{Shape, ShapeFault, Triples};
use un_schema::{Class, Kind, Name, Schema};

// The number of the kind with a name.
pub(crate) fn kind_number(alloc: Global, schema: &Schema, name: &Name) -> Result<u16, Refusal>
    ensures kind { IfOk result (λ kind. kind_named schema.now name.now ≡ Some kind) }
    ensures known { IfOk result (λ kind. kind < length schema.now.kinds) }
    ensures good { OnOk result (no_kind schema.now name.now ≡ None) }
    ensures bad { Refuses result (no_kind schema.now name.now) }
{
    match schema.kind(name.text()) {
        Some(kind) => Ok(kind),
        None => Err(Refusal::NoSuchKind {
            kind: name.copy(alloc)?,
        }),
    }
}

// Only a line may have a flow one way, and terminals chosen at its ends.
pub(crate) fn check_plain(class: Class, flow: Flow, ends: &[u8; 2]) -> Result<(), Refusal>
    ensures good { OnOk result (not_plain class flow ends.now ≡ None) }
    ensures bad { IfErr result (λ refusal. not_plain class flow ends.now ≡ Some refusal) }
{
    if class != Class::Line && !(flow == Flow::Both && has_no_ends(ends)) {
        return Err(Refusal::WrongKind);
    }
    Ok(())
}

// Whether no terminal is chosen.
fn has_no_ends(ends: &[u8; 2]) -> bool
    ensures { result ≡ list_all (λ terminal. terminal == 0) ends.now }
{
    ends.iter().all(|terminal| *terminal == 0)
}

// The least and the greatest count of points of a class.
fn counts(class: Class) -> (usize, usize)
    ensures least { result.0 ≡ least_points class }
    ensures most { result.1 ≡ most_points class }
{
    match class {
        Class::Device | Class::Junction | Class::Assembly => (1, 1),
        Class::Line => (2, 64),
        Class::Structure => (1, 64),
    }
}

// The shape of a feature of a class.
pub(crate) fn shape_of(alloc: Global, class: Class, points: &Triples) -> Result<Shape, Refusal>
    ensures shape { IfOk result (λ shape. shape ≡ map point_of points.now) }
    ensures enough { OnOk result (least_points class ≤ length points.now) }
    ensures few { OnOk result (length points.now ≤ most_points class) }
    ensures good { OnOk result (bad_shape class points.now ≡ None) }
    ensures bad { Refuses result (bad_shape class points.now) }
{
    let (least, most) = counts(class);
    match Shape::new(alloc, least, most, points.as_slice()) {
        Ok(shape) => Ok(shape),
        Err(ShapeFault::BadShape { place }) => Err(Refusal::BadShape { place }),
        Err(ShapeFault::Memory) => Err(Refusal::Memory),
    }
}

// The attributes by number.
pub(crate) fn attrs_of(alloc: Global, schema: &Schema, attrs: &NamedAttrs) -> Result<Attrs, Refusal>
    ensures attrs { IfOk result (λ given. given ≡ numbered schema.now attrs.now) }
    ensures good { OnOk result (bad_attribute schema.now attrs.now ≡ None) }
    ensures bad { Refuses result (bad_attribute schema.now attrs.now) }
{
    let named = attrs.as_slice();
    let pairs = numbers_of(alloc, schema, named)?;
    match Attrs::new(pairs.as_slice()) {
        Ok(given) => Ok(given),
        Err(bad) => Err(bad_at(alloc, named, bad.place)),
    }
}

// The refusal of the attribute at a place.
fn bad_at(alloc: Global, named: &[(Name, i64)], place: usize) -> Refusal
    requires { place < length named.now }
    ensures { result ≢ Memory
        → option_map (λ pair. Refusal.BadAttribute pair.0) (slice_get named.now place) ≡ Some result }
{
    match named[place].0.copy(alloc) {
        Ok(attribute) => Refusal::BadAttribute { attribute },
        Err(AllocError) => Refusal::Memory,
    }
}

// Each attribute by number, none for a name that the schema has not.
fn numbers_of(
    alloc: Global,
    schema: &Schema,
    named: &[(Name, i64)],
) -> Result<Vec<(Option<u8>, i64)>, AllocError>
    ensures numbers { IfOk result (λ pairs. pairs.items ≡ numbers_of schema.now named.now) }
    ensures few { IfOk result (λ pairs. All (λ pair. pair.0 < 32) (known pairs.items)) }
{
    let mut pairs = Vec::with_capacity(alloc, named.len())?;
    for pair in named {
        pairs.push(number_of(schema, pair))?;
    }
    Ok(pairs)
}

// An attribute by number.
fn number_of(schema: &Schema, pair: &(Name, i64)) -> (Option<u8>, i64)
    ensures pair { result ≡ (place_of pair.now.0 schema.now.attributes, pair.now.1) }
    ensures few { IfSome result.0 (λ number. number < 32) }
{
    let value = pair.1;
    (schema.attribute(pair.0.text()), value)
}

// Only a line has a flow and ends.
pub(crate) fn check_line(row: &Row) -> Result<(), Refusal>
    ensures good { OnOk result (no_line row.now ≡ None) }
    ensures bad { IfErr result (λ refusal. no_line row.now ≡ Some refusal) }
{
    if row.class != Class::Line {
        return Err(Refusal::WrongKind);
    }
    Ok(())
}

// A row goes over to a kind of its own class alone.
pub(crate) fn check_class(kind: &Kind, row: &Row) -> Result<(), Refusal>
    ensures class { OnOk result (kind.now.class ≡ row.now.class) }
    ensures good { OnOk result (other_class kind.now row.now ≡ None) }
    ensures bad { IfErr result (λ refusal. other_class kind.now row.now ≡ Some refusal) }
{
    if !is_same(kind.class, row.class) {
        return Err(Refusal::WrongKind);
    }
    Ok(())
}

// Whether two classes are one.
fn is_same(a: Class, b: Class) -> bool
    ensures test { result ≡ same_class a b }
    ensures same { IsTrue result → a ≡ b }
{
    a == b
}

// The number of the path with a name, of a device with a configuration that has it.
pub(crate) fn path_of(schema: &Schema, row: &Row, name: &Name) -> Result<usize, Refusal>
    ensures path { IfOk result (λ path. path_named schema.now row.now.kind name.now ≡ Some path) }
    ensures good { OnOk result (no_path schema.now name.now row.now ≡ None) }
    ensures bad { IfErr result (λ refusal. no_path schema.now name.now row.now ≡ Some refusal) }
{
    if row.class != Class::Device {
        return Err(Refusal::BadPath);
    }
    match schema.path(row.kind, name.text()) {
        Some(path) => Ok(path),
        None => Err(Refusal::BadPath),
    }
}

// The most live features.
const MOST_ROWS: u64 = 100_000;

// One more row is within the greatest count.
pub(crate) fn check_room(rows: &Store) -> Result<(), Refusal>
    ensures good { OnOk result (no_room rows.now ≡ None) }
    ensures bad { IfErr result (λ refusal. no_room rows.now ≡ Some refusal) }
{
    if rows.len() >= MOST_ROWS {
        return Err(Refusal::Full {
            what: Limit::Features,
        });
    }
    Ok(())
}
