//! What a walk asks of the entries of a star.

ghost use Rattle.std.specs.Prelude.{◌≡◌};
ghost use Rattle.un_walk.specs.Entries.{controlled_in};

use un_defs::{Port, Star};

/// The star has an entry for the port, with a controller of the tier.
pub(crate) fn is_controlled(star: &Star, port: Port, tier: u8) -> bool
    ensures { result ≡ controlled_in star.now port tier }
{
    match star.entry(port) {
        Some(spot) => match spot.controller() {
            Some(controller) => controller.tier == tier,
            None => false,
        },
        None => false,
    }
}
