//! What the entries of reached nodes tell.

ghost use Rattle.std.specs.Prelude.{◌≡◌};
ghost use Rattle.un_defs.specs.Links.{is_device};
ghost use Rattle.un_isolate.specs.Isolation.{isolates};
ghost use Rattle.un_isolate.specs.Entries.{isolates_by, controls_by, has_controller};

use un_conds::{Cond, holds};
use un_defs::PackedSpot;
use un_schema::Class;
use un_walk::Seen;

fn is_device(class: Class) -> bool
    ensures { result ≡ is_device class }
{
    matches!(class, Class::Device)
}

/// The entry is that of a device that meets the condition.
fn isolates(isolators: &Option<Cond>, spot: &PackedSpot) -> bool
    ensures { result ≡ isolates isolators.now spot.now }
{
    match isolators {
        Some(condition) => {
            is_device(spot.class()) && holds(condition, spot.attrs(), spot.cats().0)
        }
        None => false,
    }
}

fn has_controller(tier: u8, spot: &PackedSpot) -> bool
    ensures { result ≡ has_controller tier spot.now }
{
    match spot.controller() {
        Some(controller) => controller.tier == tier,
        None => false,
    }
}

/// The node isolates: it is one of a device that meets the condition.
pub(crate) fn is_isolating(isolators: &Option<Cond>, one: &Seen) -> bool
    ensures { result ≡ isolates_by isolators.now one.now }
{
    match one.spot {
        Some(spot) => isolates(isolators, spot),
        None => false,
    }
}

/// A controller of the tier sits at the node.
pub(crate) fn controls(tier: u8, one: &Seen) -> bool
    ensures { result ≡ controls_by tier one.now }
{
    match one.spot {
        Some(spot) => has_controller(tier, spot),
        None => false,
    }
}
