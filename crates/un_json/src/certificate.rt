//! What a check takes: the ports of a walk, and the labels of ports.
ghost use Rattle.std.specs.Prelude.{◌≡◌};
ghost use Rattle.serde_json.specs.View.{view};
ghost use Rattle.un_json.specs.Forms.{cost_of, label_of};

use crate::form::Form;
use crate::list::{PortForm, read_list_from_to};
use crate::scalar::{number_of, small_from_to};
use serde_json::Value;
use std::alloc::{AllocError, Global};
use un_ask::{Label, Labels};
use un_defs::Port;
use un_defs::port::Ports;

/// The most ports of a walk, and the most labels.
const MOST_NODES: usize = 65_536;

/// The ports of a walk.
pub(crate) struct WalkNodes;

impl Form for WalkNodes {
    ghost use Rattle.un_json.specs.Forms.{nodes_of};

    type Out = Ports;

    ghost form = { nodes_of };

    fn read(alloc: Global, value: &Value) -> Result<Option<Ports>, AllocError> {
        match read_list_from_to::<PortForm>(alloc, 0, MOST_NODES, value)? {
            Some(items) => Ok(Some(Ports::new(items))),
            None => Ok(None),
        }
    }
}

/// The labels of ports.
pub(crate) struct PortLabels;

impl Form for PortLabels {
    ghost use Rattle.un_json.specs.Forms.{labels_of};

    type Out = Labels;

    ghost form = { labels_of };

    fn read(alloc: Global, value: &Value) -> Result<Option<Labels>, AllocError> {
        match read_list_from_to::<LabelForm>(alloc, 0, MOST_NODES, value)? {
            Some(items) => Ok(Some(Labels::new(items))),
            None => Ok(None),
        }
    }
}

/// A label.
struct LabelForm;

impl Form for LabelForm {
    ghost use Rattle.un_json.specs.Forms.{label_of};

    type Out = Label;

    ghost form = { label_of };

    fn read(_alloc: Global, value: &Value) -> Result<Option<Label>, AllocError> {
        Ok(read_label(value))
    }
}

#[tactic(auto, using(crate::proofs::Labels::not_label))]
fn read_label(value: &Value) -> Option<Label>
    ensures { result ≡ label_of (view value.now) }
{
    let [feature, number, cost] = value.as_array()?.as_slice() else {
        return None;
    };
    let port = Port {
        feature: number_of(feature)?,
        number: small_from_to(0, 63, number)?,
    };
    Some(Label {
        port,
        cost: read_cost(cost)?,
    })
}

/// A whole number that is not negative.
fn read_cost(value: &Value) -> Option<u128>
    ensures { result ≡ cost_of (view value.now) }
{
    match value.as_i64() {
        Some(cost) if 0 <= cost => Some(cost as u128),
        _ => None,
    }
}
