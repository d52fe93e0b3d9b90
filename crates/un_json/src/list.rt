//! Forms of lists.
ghost use Rattle.std.specs.Prelude.{◌≡◌, [], ◌∷◌, None, Some, IfOk, option_map, if◌then◌else◌};
ghost use Rattle.un_geom.specs.Places.{in_range};
ghost use Rattle.serde_json.specs.View.{view, items_view};
ghost use Rattle.un_json.specs.Forms.{each_item, list_of, list_from_to, numbers_of, point_from, point_of, extent_of, ends_of, port_of};

use crate::form::Form;
use crate::scalar::{number_of, small_from_to};
use serde_json::Value;
use std::alloc::{AllocError, Global};
use un_defs::Port;
use un_defs::port::Ports;
use un_geom::point::LIMIT;
use un_geom::{Point, Rect, Triples};

/// The values read by the form, if all of them have it.
#[tactic(auto, using(crate::proofs::Items::read_on, crate::proofs::Items::read_none, crate::proofs::Items::read_all))]
fn read_items<F: Form>(alloc: Global, values: &[Value]) -> Result<Option<Vec<F::Out>>, AllocError>
    ensures { IfOk result
        (λ items. option_map (λ v. v.items) items ≡ each_item F.form (items_view values.now)) }
{
    let mut items = Vec::with_capacity(alloc, values.len())?;
    for value in values {
        match F::read(alloc, value)? {
            Some(item) => items.push(item)?,
            None => return Ok(None),
        }
    }
    Ok(Some(items))
}

/// A list of values that have the form.
pub fn read_list<F: Form>(alloc: Global, value: &Value) -> Result<Option<Vec<F::Out>>, AllocError>
    ensures { IfOk result
        (λ items. option_map (λ v. v.items) items ≡ list_of F.form (view value.now)) }
{
    match value.as_array() {
        Some(values) => read_items::<F>(alloc, values.as_slice()),
        None => Ok(None),
    }
}

/// A list of values that have the form, with a length in range.
pub(crate) fn read_list_from_to<F: Form>(
    alloc: Global,
    low: usize,
    high: usize,
    value: &Value,
) -> Result<Option<Vec<F::Out>>, AllocError>
    ensures { IfOk result
        (λ items. option_map (λ v. v.items) items ≡ list_from_to low high F.form (view value.now)) }
{
    match read_list::<F>(alloc, value)? {
        Some(items) if low <= items.len() && items.len() <= high => Ok(Some(items)),
        _ => Ok(None),
    }
}

/// Three whole numbers.
#[tactic(auto, using(crate::proofs::Items::not_numbers))]
fn read_triple(value: &Value) -> Option<[i64; 3]>
    ensures { result ≡ numbers_of 3 (view value.now) }
{
    let [x, y, z] = value.as_array()?.as_slice() else {
        return None;
    };
    Some([x.as_i64()?, y.as_i64()?, z.as_i64()?])
}

/// Three whole numbers.
pub(crate) struct Triple;

impl Form for Triple {
    ghost use Rattle.un_json.specs.Forms.{numbers_of};

    type Out = [i64; 3];

    ghost form = { numbers_of 3 };

    fn read(_alloc: Global, value: &Value) -> Result<Option<[i64; 3]>, AllocError> {
        Ok(read_triple(value))
    }
}

/// A coordinate, if the number is in their range.
fn coordinate(n: i64) -> Option<i32>
    ensures { result ≡ (if in_range n then Some n else None) }
{
    if -LIMIT <= n && n <= LIMIT {
        Some(n as i32)
    } else {
        None
    }
}

// The point with these coordinates, if they are in their range.
#[tactic(auto, using(crate::proofs::Points::all_placed, crate::proofs::Points::first_off, crate::proofs::Points::second_off, crate::proofs::Points::third_off))]
fn placed(x: i64, y: i64, z: i64) -> Option<Point>
    ensures { result ≡ point_from (x ∷ y ∷ z ∷ []) }
{
    Some(Point {
        x: coordinate(x)?,
        y: coordinate(y)?,
        z: coordinate(z)?,
    })
}

/// A point in the range of coordinates.
pub fn read_point(value: &Value) -> Option<Point>
    ensures { result ≡ point_of (view value.now) }
{
    let [x, y, z] = read_triple(value)?;
    placed(x, y, z)
}

/// A point in the range of coordinates.
pub struct PointForm;

impl Form for PointForm {
    ghost use Rattle.un_json.specs.Forms.{point_of};

    type Out = Point;

    ghost form = { point_of };

    fn read(_alloc: Global, value: &Value) -> Result<Option<Point>, AllocError> {
        Ok(read_point(value))
    }
}

/// A list of lists of three whole numbers.
pub(crate) struct Vertices;

impl Form for Vertices {
    ghost use Rattle.un_json.specs.Forms.{points_of};

    type Out = Triples;

    ghost form = { points_of };

    fn read(alloc: Global, value: &Value) -> Result<Option<Triples>, AllocError> {
        match read_list::<Triple>(alloc, value)? {
            Some(items) => Ok(Some(Triples::new(items))),
            None => Ok(None),
        }
    }
}

/// Four whole numbers.
#[tactic(auto, using(crate::proofs::Items::not_numbers))]
fn read_sides(value: &Value) -> Option<[i64; 4]>
    ensures { result ≡ numbers_of 4 (view value.now) }
{
    let [x0, y0, x1, y1] = value.as_array()?.as_slice() else {
        return None;
    };
    Some([x0.as_i64()?, y0.as_i64()?, x1.as_i64()?, y1.as_i64()?])
}

/// An extent.
pub(crate) struct Extent;

impl Form for Extent {
    ghost use Rattle.un_json.specs.Forms.{extent_of};

    type Out = Rect;

    ghost form = { extent_of };

    fn read(_alloc: Global, value: &Value) -> Result<Option<Rect>, AllocError> {
        Ok(read_extent(value))
    }
}

fn read_extent(value: &Value) -> Option<Rect>
    ensures { result ≡ extent_of (view value.now) }
{
    let [x0, y0, x1, y1] = read_sides(value)?;
    Rect::new(x0, y0, x1, y1)
}

/// The terminals at the two ends of a line.
pub(crate) struct Ends;

impl Form for Ends {
    ghost use Rattle.un_json.specs.Forms.{ends_of};

    type Out = [u8; 2];

    ghost form = { ends_of };

    fn read(_alloc: Global, value: &Value) -> Result<Option<[u8; 2]>, AllocError> {
        Ok(read_ends(value))
    }
}

#[tactic(auto, using(crate::proofs::Items::not_ends))]
fn read_ends(value: &Value) -> Option<[u8; 2]>
    ensures { result ≡ ends_of (view value.now) }
{
    let [first, last] = value.as_array()?.as_slice() else {
        return None;
    };
    Some([small_from_to(0, 8, first)?, small_from_to(0, 8, last)?])
}

/// A port.
pub(crate) struct PortForm;

impl Form for PortForm {
    ghost use Rattle.un_json.specs.Forms.{port_of};

    type Out = Port;

    ghost form = { port_of };

    fn read(_alloc: Global, value: &Value) -> Result<Option<Port>, AllocError> {
        Ok(read_port(value))
    }
}

#[tactic(auto, using(crate::proofs::Items::not_port))]
fn read_port(value: &Value) -> Option<Port>
    ensures { result ≡ port_of (view value.now) }
{
    let [feature, number] = value.as_array()?.as_slice() else {
        return None;
    };
    Some(Port {
        feature: number_of(feature)?,
        number: small_from_to(0, 63, number)?,
    })
}

/// The ports from which a trace starts.
pub(crate) struct Starts;

impl Form for Starts {
    ghost use Rattle.un_json.specs.Forms.{starts_of};

    type Out = Ports;

    ghost form = { starts_of };

    fn read(alloc: Global, value: &Value) -> Result<Option<Ports>, AllocError> {
        match read_list_from_to::<PortForm>(alloc, 1, 64, value)? {
            Some(items) => Ok(Some(Ports::new(items))),
            None => Ok(None),
        }
    }
}

/// The ports at which a trace stops.
pub(crate) struct Stops;

impl Form for Stops {
    ghost use Rattle.un_json.specs.Forms.{stops_of};

    type Out = Ports;

    ghost form = { stops_of };

    fn read(alloc: Global, value: &Value) -> Result<Option<Ports>, AllocError> {
        match read_list_from_to::<PortForm>(alloc, 0, 64, value)? {
            Some(items) => Ok(Some(Ports::new(items))),
            None => Ok(None),
        }
    }
}

/// No ports.
pub(crate) fn no_ports(alloc: Global) -> Ports
    ensures { result ≡ [] }
{
    Ports::new(Vec::new(alloc))
}
