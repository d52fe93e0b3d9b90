//! The trace itself.

ghost use Rattle.std.specs.Prelude.{◌≡◌, ◌≤◌, ◌+◌, None, IfOk, OnOk};
ghost use Rattle.un_defs.specs.declared.walk.Mode.TheVariants.{Any};
ghost use Rattle.un_defs.specs.Reach.{dirt};
ghost use Rattle.un_defs.specs.Linked.{AreLinked};
ghost use Rattle.un_walk.specs.Found.{IsFoundOver};
ghost use Rattle.un_walk.specs.Traced.{IsTraced};
ghost use Rattle.un_loops.specs.Answer.{reached_of, IsReachOf, OnReachCount, IsForLoops, AreLinkedOnCleanGround, loops_given_dirt, IsAnswer};

use crate::segments::loop_segments;
use std::alloc::{AllocError, Global};
use un_ask::{Reply, Segments, TypedAsk};
use un_defs::{Ground, Mode};
use un_steps::Steps;
use un_walk::{Found, Order, reach_found};

/// The loop segments among the nodes that the trace reached, where no dirt was met.
fn loops_among<G: Ground>(
    alloc: Global,
    over: &G,
    ask: &TypedAsk,
    found: &Found,
) -> Result<Reply, AllocError>
    requires reach { IsReachOf (G.stars_and_areas over.now) ask.now (reached_of found.now) }
    requires over { IsFoundOver (G.stars_and_areas over.now) found.now }
    requires traced { IsTraced (G.stars_and_areas over.now) ask.now.barriers Any found.now }
    requires clean { dirt (G.stars_and_areas over.now) (reached_of found.now) ≡ None }
    requires linked { AreLinked (G.stars_and_areas over.now) (reached_of found.now) }
    ensures { IfOk result (λ reply. reply
        ≡ loops_given_dirt None (G.stars_and_areas over.now) ask.now (reached_of found.now)) }
{
    let segments = loop_segments(alloc, over, found, &ask.barriers)?;
    Ok(Reply::Loops {
        segments: Segments::new(segments),
        version: 0,
    })
}

/// Answers a trace for loops over the ground: the segments of lines that lie on a loop.
///
/// The version in the reply is 0: the caller puts in its own. `steps` counts the stars that are looked up. It answers an error only for
/// want of memory; the count may then have risen.
pub fn loops<G: Ground, L>(
    alloc: Global,
    over: &G,
    ask: &TypedAsk,
    steps: &mut Steps<L>,
) -> Result<Reply, AllocError>
    requires kind { IsForLoops ask.now }
    requires linked { AreLinkedOnCleanGround (G.stars_and_areas over.now) ask.now }
    // A refusal where the walks met dirt, and else exactly the loop segments.
    ensures answer { IfOk result (IsAnswer (G.stars_and_areas over.now) ask.now) }

    // No more stars are looked up than nodes are reached.
    ensures ticks { OnReachCount (G.stars_and_areas over.now) ask.now
        (λ count. OnOk result (steps.new ≤ steps.old + count)) }
    ensures never_falls { steps.old ≤ steps.new }
{
    let reached = reach_found(
        alloc,
        over,
        ask.starts.as_slice(),
        Mode::Any,
        &ask.barriers,
        Order::Depth,
        steps,
    )?;
    match reached.dirt {
        Some(dirt) => Ok(Reply::on_dirty_ground(dirt)),
        None => loops_among(alloc, over, ask, &reached.found),
    }
}
