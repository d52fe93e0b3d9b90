//! The search for the best walks from one place to all.

ghost use Rattle.std.specs.Prelude.{◌≡◌, ◌≤◌, ◌+◌, ◌*◌, ◌<◌, ◌^◌, ℕ, length, Contains, IfOk, OnOk, IfNone, IfSome};
ghost use Rattle.std.specs.Bool.{MatchBool};
ghost use Rattle.std.specs.BinaryHeap.{IsHeap, heap_items};
ghost use Rattle.un_defs.specs.declared.port.Node.{Node};
ghost use Rattle.un_defs.specs.declared.walk.Mode.TheVariants.{Any};
ghost use Rattle.un_defs.specs.Reach.{leads};
ghost use Rattle.un_path.specs.Costs.{step_cost};
ghost use Rattle.un_path.specs.Hops.{AreReached};
ghost use Rattle.un_path.specs.declared.hops.Hop.{Hop};
ghost use Rattle.un_path.specs.declared.search.Coming.{Coming};
ghost use Rattle.un_path.specs.Search.{turned_cmp, IsPendingIn, arrival_of, HasArrival, IsSettledAt, IsFree, free_count, first_arrival, PushesHops, TakesFirst, IsUnderWay, IsNext, IsDone};

use crate::hops::{Hop, hops_from};
use std::alloc::{AllocError, Global};
use std::cmp::Reverse;
use std::collections::BinaryHeap;
use un_ask::Weight;
use un_defs::{Barriers, Ground, Node};
use un_walk::Seen;

/// A walk that comes to a place: what it costs, how many steps it takes, and the place before the last. They compare as they stand here.
#[derive(Clone, Copy, Debug, PartialEq, Eq, PartialOrd, Ord)]
pub(crate) struct Coming {
    pub(crate) cost: u128,
    pub(crate) steps: usize,
    pub(crate) from: usize,
    pub(crate) place: usize,
}

/// The best walk to a place: what it costs, how many steps it takes, and the place before the last, its own for the first place.
#[derive(Clone, Copy)]
pub(crate) struct Arrival {
    pub(crate) cost: u128,
    pub(crate) steps: usize,
    pub(crate) from: usize,
}

impl Coming {
    fn arrival(self) -> Arrival
        ensures { result ≡ arrival_of self }
    {
        Arrival {
            cost: self.cost,
            steps: self.steps,
            from: self.from,
        }
    }
}

fn is_free(arrivals: &[Option<Arrival>], place: usize) -> bool
    requires { place < length arrivals.now }
    ensures { MatchBool result (IsFree arrivals.now place) (IsSettledAt arrivals.now place) }
{
    arrivals[place].is_none()
}

/// Adds what the hops from a settled place lead to, unless that is settled.
fn push_hops(
    pending: &mut BinaryHeap<Reverse<Coming>>,
    arrivals: &[Option<Arrival>],
    hops: &[Hop],
    place: usize,
    arrival: Arrival,
) -> Result<(), AllocError>
    requires heap { IsHeap turned_cmp (heap_items pending.old) }
    requires inside { (h : Hop) → Contains hops.now h → h.to < length arrivals.now }
    requires few { arrival.steps < length arrivals.now }
    requires small { arrival.cost ≤ arrival.steps * 2 ^ 64 }
    ensures heap { OnOk result (IsHeap turned_cmp (heap_items pending.new)) }
    ensures pushed { OnOk result (PushesHops arrivals.now hops.now place arrival
        (heap_items pending.old) (heap_items pending.new)) }
{
    for hop in hops {
        if is_free(arrivals, hop.to) {
            pending.push(Reverse(Coming {
                cost: arrival.cost + hop.price(),
                steps: arrival.steps + 1,
                from: place,
                place: hop.to,
            }))?;
        }
    }
    Ok(())
}

/// Takes the first of what is pending whose place is not settled.
fn take_first(
    pending: &mut BinaryHeap<Reverse<Coming>>,
    arrivals: &[Option<Arrival>],
) -> Option<Coming>
    requires heap { IsHeap turned_cmp (heap_items pending.old) }
    requires inside { (e : Coming) → IsPendingIn (heap_items pending.old) e → e.place < length arrivals.now }
    ensures heap { IsHeap turned_cmp (heap_items pending.new) }
    ensures none { IfNone result ((e : Coming) → IsPendingIn (heap_items pending.old) e
        → IsSettledAt arrivals.now e.place) }
    ensures some { IfSome result (TakesFirst arrivals.now (heap_items pending.old) (heap_items pending.new)) }
{
    while let Some(Reverse(coming)) = pending.pop() {
        if is_free(arrivals, coming.place) {
            return Some(coming);
        }
    }
    None
}

/// Settles a place, and adds what the hops from there lead to.
fn settle<G: Ground>(
    alloc: Global,
    over: &G,
    barriers: &Barriers,
    weight: Weight,
    seen: &[Seen],
    nodes: &[Node],
    _start: usize,
    arrivals: &mut [Option<Arrival>],
    pending: &mut BinaryHeap<Reverse<Coming>>,
    coming: Coming,
) -> Result<(), AllocError>
    requires reached { AreReached (G.stars_and_areas over.now) barriers.now seen.now nodes.now }
    requires heap { IsHeap turned_cmp (heap_items pending.old) }
    requires next { IsNext (leads (G.stars_and_areas over.now) barriers.now Any)
        (step_cost (G.stars_and_areas over.now) barriers.now weight) nodes.now _start
        arrivals.old (IsPendingIn (heap_items pending.old)) coming }
    ensures heap { OnOk result (IsHeap turned_cmp (heap_items pending.new)) }
    ensures begun { OnOk result (HasArrival arrivals.new _start (first_arrival _start)) }
    ensures way { OnOk result (IsUnderWay (leads (G.stars_and_areas over.now) barriers.now Any)
        (step_cost (G.stars_and_areas over.now) barriers.now weight) nodes.now _start
        arrivals.new (IsPendingIn (heap_items pending.new))) }
    ensures fewer { OnOk result (free_count arrivals.new + 1 ≡ free_count arrivals.old) }
{
    arrivals[coming.place] = Some(coming.arrival());
    let hops = hops_from(alloc, over, barriers, weight, seen, nodes, coming.place)?;
    push_hops(pending, arrivals, &hops, coming.place, coming.arrival())
}

/// As many free places.
fn free_places(alloc: Global, count: usize) -> Result<Vec<Option<Arrival>>, AllocError>
    ensures count { IfOk result (λ arrivals. length arrivals.items ≡ count) }
    ensures free { IfOk result (λ arrivals. (i : ℕ) → IsSettledAt arrivals.items i → ⊥) }
    ensures free_count { IfOk result (λ arrivals. free_count arrivals.items ≡ count) }
{
    let mut arrivals = Vec::with_capacity(alloc, count)?;
    for _place in 0..count {
        arrivals.push(None)?;
    }
    Ok(arrivals)
}

/// The best walks from the place to all.
pub(crate) fn best_arrivals<G: Ground>(
    alloc: Global,
    over: &G,
    barriers: &Barriers,
    weight: Weight,
    seen: &[Seen],
    nodes: &[Node],
    start: usize,
) -> Result<Vec<Option<Arrival>>, AllocError>
    requires reached { AreReached (G.stars_and_areas over.now) barriers.now seen.now nodes.now }
    requires inside { start < length nodes.now }
    ensures { IfOk result (λ arrivals. IsDone (leads (G.stars_and_areas over.now) barriers.now Any)
        (step_cost (G.stars_and_areas over.now) barriers.now weight) nodes.now start arrivals.items) }
{
    let mut arrivals = free_places(alloc, nodes.len())?;
    let mut pending = BinaryHeap::new(alloc);
    let first = Coming {
        cost: 0,
        steps: 0,
        from: start,
        place: start,
    };
    settle(
        alloc,
        over,
        barriers,
        weight,
        seen,
        nodes,
        start,
        &mut arrivals,
        &mut pending,
        first,
    )?;
    while let Some(coming) = take_first(&mut pending, &arrivals) {
        settle(
            alloc,
            over,
            barriers,
            weight,
            seen,
            nodes,
            start,
            &mut arrivals,
            &mut pending,
            coming,
        )?;
    }
    Ok(arrivals)
}
