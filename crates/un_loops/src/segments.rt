//! The segments that lie on a loop of the open nodes.

ghost use Rattle.std.specs.Prelude.{◌≡◌, ◌↔◌, Contains, IfOk};
ghost use Rattle.std.specs.List.Sorted.{IsStrictlySortedBy};
ghost use Rattle.un_defs.specs.declared.link.LinkName.TheVariants.{Seg};
ghost use Rattle.un_defs.specs.declared.walk.Mode.TheVariants.{Any};
ghost use Rattle.un_walk.specs.Found.{nodes, IsFoundOver};
ghost use Rattle.un_walk.specs.Traced.{IsTraced};
ghost use Rattle.un_ask.specs.declared.results.Segment.{Segment};
ghost use Rattle.un_loops.specs.Loops.{segment_cmp};
ghost use Rattle.un_loops.specs.Named.{IsOnLoop};
ghost use Rattle.un_loops.specs.Network.{IsJoined, AreWellLinked};

use crate::cycles::on_cycles;
use crate::graph::graph_of;
use std::alloc::{AllocError, Global};
use un_ask::Segment;
use un_defs::order::rising;
use un_defs::{Barriers, Ground};
use un_walk::Found;

/// The segments that lie on a loop of the open nodes, rising.
pub(crate) fn loop_segments<G: Ground>(
    alloc: Global,
    over: &G,
    found: &Found,
    barriers: &Barriers,
) -> Result<Vec<Segment>, AllocError>
    requires over { IsFoundOver (G.stars_and_areas over.now) found.now }
    requires traced { IsTraced (G.stars_and_areas over.now) barriers.now Any found.now }
    requires linked { AreWellLinked (G.stars_and_areas over.now) barriers.now (nodes found.now) }
    ensures exact { IfOk result (λ segments. (s : Segment) → Contains segments.items s
        ↔ IsOnLoop (IsJoined (G.stars_and_areas over.now) barriers.now (nodes found.now)) (Seg s.line s.index)) }
    ensures rising { IfOk result (λ segments. IsStrictlySortedBy segment_cmp segments.items) }
{
    let graph = graph_of(alloc, over, found, barriers)?;
    let marks = on_cycles(alloc, &graph.links, &graph.parents)?;
    let marked = graph.names.marked_segments(alloc, &marks)?;
    rising(alloc, &marked)
}
