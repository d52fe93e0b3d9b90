//! Links and errors.
ghost use Rattle.std.specs.Prelude.{◌≡◌, option_and_then};
ghost use Rattle.serde_json.specs.View.{view};
ghost use Rattle.serde_json.specs.Find.{as_bool};
ghost use Rattle.un_json.specs.Forms.{base_of};
ghost use Rattle.un_feed_json.specs.Forms.{association_of, coincidence_of, error_from, error_kind_of, error_named, field, link_name_by, link_name_of, node_of_link, path_of, point_of_link, segment_of, tie_from, error_of, tie_of};

use crate::read::fields::{coordinate_at, has_length, id_at, number_at, port_at};
use serde_json::Value;
use std::alloc::{AllocError, Global};
use un_defs::{ErrorKind, LinkName, Node, PackedTie, Tie, TopoError};
use un_geom::Point;
use un_json::form::Form;
use un_json::scalar::count_from_to;

/// The greatest id of an association.
const GREATEST_ID: u64 = 9_007_199_254_740_991;

fn segment(value: &Value) -> Option<LinkName>
    ensures { result ≡ segment_of (view value.now) }
{
    let port = port_at(1, 2, value)?;
    Some(LinkName::Seg {
        line: port.feature,
        index: port.number,
    })
}

fn path(value: &Value) -> Option<LinkName>
    ensures { result ≡ path_of (view value.now) }
{
    let port = port_at(1, 2, value)?;
    Some(LinkName::Path {
        device: port.feature,
        low: port.number,
        high: number_at(3, value)?,
    })
}

fn coincidence(value: &Value) -> Option<LinkName>
    ensures { result ≡ coincidence_of (view value.now) }
{
    let joint = port_at(1, 2, value)?;
    let vertex = port_at(3, 4, value)?;
    Some(LinkName::Coin {
        junction: joint.feature,
        terminal: joint.number,
        line: vertex.feature,
        vertex: vertex.number,
    })
}

fn association(value: &Value) -> Option<LinkName>
    ensures { result ≡ association_of (view value.now) }
{
    Some(LinkName::Assoc {
        id: id_at(1, value)?,
    })
}

// The name of a link with this word.
fn link_name_by(word: &str, value: &Value) -> Option<LinkName>
    ensures { result ≡ link_name_by word.now (view value.now) }
{
    if word == "seg" {
        return if has_length(3, value) {
            segment(value)
        } else {
            None
        };
    }
    if word == "path" {
        return if has_length(4, value) {
            path(value)
        } else {
            None
        };
    }
    if word == "coin" {
        return if has_length(5, value) {
            coincidence(value)
        } else {
            None
        };
    }
    if word == "assoc" && has_length(2, value) {
        return association(value);
    }
    None
}

fn link_name(value: &Value) -> Option<LinkName>
    ensures { result ≡ link_name_of (view value.now) }
{
    let word = value.get(0)?.as_str()?;
    link_name_by(word, value)
}

fn point_of_link(value: &Value) -> Option<Point>
    ensures { result ≡ point_of_link (view value.now) }
{
    Some(Point {
        x: coordinate_at(3, value)?,
        y: coordinate_at(4, value)?,
        z: coordinate_at(5, value)?,
    })
}

fn node_of_link(value: &Value) -> Option<Node>
    ensures { result ≡ node_of_link (view value.now) }
{
    Some(Node {
        port: port_at(1, 2, value)?,
        at: point_of_link(value)?,
    })
}

fn name_at(place: usize, value: &Value) -> Option<LinkName>
    ensures { result ≡ field place link_name_of (view value.now) }
{
    link_name(value.get(place)?)
}

fn truth_at(place: usize, value: &Value) -> Option<bool>
    ensures { result ≡ field place as_bool (view value.now) }
{
    value.get(place)?.as_bool()
}

fn tie(value: &Value) -> Option<PackedTie>
    ensures { result ≡ tie_from (view value.now) }
{
    Some(PackedTie::new(Tie {
        name: name_at(0, value)?,
        to: node_of_link(value)?,
        out: truth_at(6, value)?,
        back: truth_at(7, value)?,
    }))
}

/// A link.
pub(crate) struct Link;

impl Form for Link {
    ghost use Rattle.un_feed_json.specs.Forms.{tie_of};

    type Out = PackedTie;

    ghost form = { tie_of };

    fn read(_alloc: Global, value: &Value) -> Result<Option<PackedTie>, AllocError> {
        Ok(if has_length(8, value) {
            tie(value)
        } else {
            None
        })
    }
}

fn error_named(text: &str) -> Option<ErrorKind>
    ensures { result ≡ error_named text.now }
{
    if text == "Stacked" {
        Some(ErrorKind::Stacked)
    } else if text == "MissingJunction" {
        Some(ErrorKind::MissingJunction)
    } else if text == "NoRule" {
        Some(ErrorKind::NoRule)
    } else if text == "BadTerminal" {
        Some(ErrorKind::BadTerminal)
    } else if text == "MidspanTerminal" {
        Some(ErrorKind::MidspanTerminal)
    } else if text == "AssociationRule" {
        Some(ErrorKind::AssociationRule)
    } else {
        None
    }
}

fn error_kind_at(place: usize, value: &Value) -> Option<ErrorKind>
    ensures { result ≡ field place error_kind_of (view value.now) }
{
    error_named(value.get(place)?.as_str()?)
}

/// The id of an association, or 0 for none, at a place of a list. A version has the same range.
pub(crate) fn base_at(place: usize, value: &Value) -> Option<u64>
    ensures { result ≡ field place base_of (view value.now) }
{
    count_from_to(0, GREATEST_ID, value.get(place)?)
}

fn topo_error(value: &Value) -> Option<TopoError>
    ensures { result ≡ error_from (view value.now) }
{
    let kind = error_kind_at(0, value)?;
    let port = port_at(1, 2, value)?;
    Some(TopoError {
        kind,
        feature: port.feature,
        number: port.number,
        assoc: base_at(3, value)?,
    })
}

/// An error.
pub(crate) struct Fault;

impl Form for Fault {
    ghost use Rattle.un_feed_json.specs.Forms.{error_of};

    type Out = TopoError;

    ghost form = { error_of };

    fn read(_alloc: Global, value: &Value) -> Result<Option<TopoError>, AllocError> {
        Ok(if has_length(4, value) {
            topo_error(value)
        } else {
            None
        })
    }
}
