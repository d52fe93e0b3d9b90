//! What a link costs.

ghost use Rattle.std.specs.Prelude.{◌≡◌};
ghost use Rattle.un_path.specs.Costs.{is_segment, cost_of_value, segment_cost};
ghost use Rattle.un_path.specs.Hops.{cost_by};

use un_ask::Weight;
use un_defs::{LinkName, PackedSpot, PackedTie};

fn is_segment(name: LinkName) -> bool
    ensures { result ≡ is_segment name }
{
    matches!(name, LinkName::Seg { .. })
}

fn cost_of_value(value: i64) -> u64
    ensures { result ≡ cost_of_value value }
{
    if value < 0 { 0 } else { value as u64 }
}

/// What a segment costs, given the entry of the node that it is left from.
fn segment_cost(weight: Weight, spot: &PackedSpot) -> u64
    ensures { result ≡ segment_cost weight spot.now.attrs }
{
    match weight {
        Weight::Steps => 1,
        Weight::Attribute(number) => match spot.attribute(number) {
            Some(value) => cost_of_value(value),
            None => 0,
        },
        Weight::Unknown => 0,
    }
}

/// What a link costs, given the entry of the node that it is left from.
pub(crate) fn link_cost(weight: Weight, spot: &PackedSpot, tie: &PackedTie) -> u64
    ensures { result ≡ cost_by weight spot.now tie.now }
{
    if is_segment(tie.name()) {
        segment_cost(weight, spot)
    } else {
        0
    }
}
