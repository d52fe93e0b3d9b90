//! In which order a walk follows links.

ghost use Rattle.std.specs.Prelude.{◌≡◌};
ghost use Rattle.un_walk.specs.Aways.{at_once};

use crate::traversal::is_same_point;
use un_geom::Point;

/// In which order a walk follows links.
#[derive(Clone, Copy, Debug, PartialEq, Eq)]
pub enum Order {
    /// At once, when the node from which they lead is visited. The walk reads a star when it finds a node there, and visits the node some time
    /// later. Meanwhile it goes on elsewhere, so memory may fetch many stars side by side.
    Breadth,
    /// Those to a node at the same point at once, and the others when nothing is left to visit, the last one first. So all that is reached at a
    /// point is visited in one go, while its star is at hand, and the walk goes along pipes, whose stars mostly stand near each other in memory.
    Depth,
}

/// Whether a link from a node at `here` to one at `at` is followed at once, and is not put off.
pub(crate) fn at_once(order: Order, at: Point, here: Point) -> bool
    ensures { result ≡ at_once order at here }
{
    match order {
        Order::Breadth => true,
        Order::Depth => is_same_point(at, here),
    }
}
