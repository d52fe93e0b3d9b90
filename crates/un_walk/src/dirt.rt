//! The dirt that a walk has met: the least area, and the least port under it.

ghost use Rattle.std.specs.Prelude.{◌≡◌};
ghost use Rattle.std.specs.Ordering.{is_lt};
ghost use Rattle.un_walk.specs.Dirt.{dirt_cmp, dirt_after};

use un_defs::{Dirt, Port};

fn is_before(a: Dirt, b: Dirt) -> bool
    ensures { result ≡ is_lt (dirt_cmp a b) }
{
    a.area.cmp(&b.area).then(a.port.cmp(&b.port)).is_lt()
}

/// The least of the dirt so far and of a node's, whose port and least area are given.
pub(crate) fn dirt_after(least: Option<Dirt>, area: Option<u64>, port: Port) -> Option<Dirt>
    ensures { result ≡ dirt_after least area port }
{
    let Some(area) = area else {
        return least;
    };
    let here = Dirt { area, port };
    match least {
        Some(least) if !is_before(here, least) => Some(least),
        _ => Some(here),
    }
}
