//! Lists of a fixed length, and the numbers in them.
ghost use Rattle.std.specs.Prelude.{◌≡◌, IfOk};
ghost use Rattle.serde_json.specs.View.{view};
ghost use Rattle.un_json.specs.Forms.{id_of};
ghost use Rattle.un_feed_json.specs.Forms.{coordinate_of, field, has_length, number_of, port_at};

use serde_json::Value;
use std::alloc::{AllocError, Global};
use un_defs::Port;
use un_geom::point::LIMIT;
use un_json::form::Form;
use un_json::scalar::{number_of as id_of, small_from_to};

/// Whether the value is a list of so many values.
#[tactic(auto, using(crate::proofs::Fields::length_of))]
pub(crate) fn has_length(count: usize, value: &Value) -> bool
    ensures { result ≡ has_length count (view value.now) }
{
    match value.as_array() {
        Some(values) => values.len() == count,
        None => false,
    }
}

/// What the value at a place of a list is, by its form.
pub(crate) fn field<F: Form>(
    alloc: Global,
    place: usize,
    value: &Value,
) -> Result<Option<F::Out>, AllocError>
    ensures { IfOk result (λ out. out ≡ field place F.form (view value.now)) }
{
    match value.get(place) {
        Some(value) => F::read(alloc, value),
        None => Ok(None),
    }
}

/// The number of a port, a terminal or a vertex at a place of a list.
pub(crate) fn number_at(place: usize, value: &Value) -> Option<u8>
    ensures { result ≡ field place number_of (view value.now) }
{
    small_from_to(0, 63, value.get(place)?)
}

/// The id at a place of a list.
pub(crate) fn id_at(place: usize, value: &Value) -> Option<u64>
    ensures { result ≡ field place id_of (view value.now) }
{
    id_of(value.get(place)?)
}

/// The feature and the number of a port, at two places of a list.
pub(crate) fn port_at(feature: usize, number: usize, value: &Value) -> Option<Port>
    ensures { result ≡ port_at feature number (view value.now) }
{
    Some(Port {
        feature: id_at(feature, value)?,
        number: number_at(number, value)?,
    })
}

fn coordinate(value: &Value) -> Option<i32>
    ensures { result ≡ coordinate_of (view value.now) }
{
    match value.as_i64() {
        Some(n) if -LIMIT <= n && n <= LIMIT => Some(n as i32),
        _ => None,
    }
}

/// The coordinate at a place of a list.
pub(crate) fn coordinate_at(place: usize, value: &Value) -> Option<i32>
    ensures { result ≡ field place coordinate_of (view value.now) }
{
    coordinate(value.get(place)?)
}
