//! The links by which a walk goes on from a node.

ghost use Rattle.std.specs.Prelude.{◌≡◌, ◌≤◌, ◌+◌, ◌&&◌, ◌⊎◌, not, true, length, slice_get, Some, None, IsTrue, OnOk};
ghost use Rattle.std.specs.List.{list_any};
ghost use Rattle.un_geom.specs.Places.{same_point};
ghost use Rattle.un_defs.specs.Ground.{entry, ties};
ghost use Rattle.un_defs.specs.Reach.{mode_takes, is_path, is_shut, controls, goes_by, is_open};
ghost use Rattle.un_walk.specs.Found.{nodes, IsFoundOver};
ghost use Rattle.un_walk.specs.Growth.{GrowsBy};
ghost use Rattle.un_walk.specs.Aways.{FollowsAll};
ghost use Rattle.un_walk.specs.Ticks.{TiesStay, TieStays};

use crate::entries::is_controlled;
use crate::found::Found;
use crate::order::{Order, at_once};
use std::alloc::{AllocError, Global};
use un_defs::{Barriers, Ground, LinkName, Mode, Node, PackedSpot, PackedTie, Star};
use un_geom::Point;
use un_steps::Steps;

/// A link that a walk met and put off, with the place of the node from which it leads. The node to
/// which it leads stands beside it, so that the link need not be read again: it may be in no cache.
#[derive(Clone, Copy)]
pub(crate) struct Away<'a> {
    pub(crate) from: usize,
    pub(crate) to: Node,
    pub(crate) tie: &'a PackedTie,
}

/// Where a walk stands: a node, its number among those found, the star at its point, and the entry that the star has for it.
#[derive(Clone, Copy)]
pub(crate) struct Place<'a> {
    pub(crate) node: Node,
    pub(crate) number: usize,
    pub(crate) star: &'a Star,
    pub(crate) spot: &'a PackedSpot,
}

fn mode_takes(mode: Mode, tie: &PackedTie) -> bool
    ensures { result ≡ mode_takes mode tie.now }
{
    match mode {
        Mode::Any => true,
        Mode::Along => tie.out(),
        Mode::Against => tie.back(),
    }
}

fn is_path(name: LinkName) -> bool
    ensures { result ≡ is_path name }
{
    matches!(name, LinkName::Path { .. })
}

/// The two points are the same.
pub(crate) fn is_same_point(a: Point, b: Point) -> bool
    ensures { result ≡ same_point a b }
{
    a == b
}

/// The node at the other end of a link has a controller of the tier. A node at the same point is in the same star.
fn is_far_end_controlled<G: Ground, L>(
    over: &G,
    place: &Place,
    to: Node,
    tier: u8,
    steps: &mut Steps<L>,
) -> bool
    requires { place.now.star.now ≡ (G.stars_and_areas over.now).stars place.now.node.at }
    ensures controlled { result ≡ controls (G.stars_and_areas over.now) tier to }
    ensures here { to.at ≡ place.now.node.at → steps.new ≡ steps.old }
    ensures never_falls { steps.old ≤ steps.new }
{
    if is_same_point(to.at, place.node.at) {
        return is_controlled(place.star, to.port, tier);
    }
    steps.tick();
    match over.star(to.at) {
        Some(star) => is_controlled(star, to.port, tier),
        None => false,
    }
}

/// The link is a path, and one of its two terminals has a controller of the tier.
fn is_shut<G: Ground, L>(
    over: &G,
    place: &Place,
    tie: &PackedTie,
    barriers: &Barriers,
    steps: &mut Steps<L>,
) -> bool
    requires { place.now.star.now ≡ (G.stars_and_areas over.now).stars place.now.node.at }
    ensures shut { result ≡ is_shut (G.stars_and_areas over.now) barriers.now place.now.node tie.now }
    ensures once { TieStays barriers.now place.now.node tie.now → steps.new ≡ steps.old }
    ensures never_falls { steps.old ≤ steps.new }
{
    match barriers.tier {
        Some(tier) if is_path(tie.name()) => {
            is_controlled(place.star, place.node.port, tier)
                || is_far_end_controlled(over, place, tie.to(), tier, steps)
        }
        _ => false,
    }
}

/// A walk may go by the link: the mode takes it, and it is not shut.
fn goes_by<G: Ground, L>(
    over: &G,
    place: &Place,
    tie: &PackedTie,
    mode: Mode,
    barriers: &Barriers,
    steps: &mut Steps<L>,
) -> bool
    requires { place.now.star.now ≡ (G.stars_and_areas over.now).stars place.now.node.at }
    ensures goes { result ≡ (mode_takes mode tie.now
        && not (is_shut (G.stars_and_areas over.now) barriers.now place.now.node tie.now)) }
    ensures once { TieStays barriers.now place.now.node tie.now → steps.new ≡ steps.old }
    ensures never_falls { steps.old ≤ steps.new }
{
    mode_takes(mode, tie) && !is_shut(over, place, tie, barriers, steps)
}

/// Follows the links of an open node, or puts them off, as the order says. It begins with the last link: of those that are put off the last is
/// followed first, so a walk in depth goes by the first link first.
pub(crate) fn follow<'a, G: Ground, L>(
    alloc: Global,
    over: &'a G,
    place: &Place<'a>,
    mode: Mode,
    barriers: &Barriers,
    order: Order,
    found: &mut Found<'a>,
    aways: &mut Vec<Away<'a>>,
    steps: &mut Steps<L>,
) -> Result<(), AllocError>
    requires over { IsFoundOver (G.stars_and_areas over.now) found.old }
    requires found { slice_get (nodes found.old) place.now.number ≡ Some place.now.node }
    requires opened { is_open (G.stars_and_areas over.now) barriers.now place.now.node ≡ true }
    requires star { place.now.star.now ≡ (G.stars_and_areas over.now).stars place.now.node.at }
    requires entry { entry (G.stars_and_areas over.now) place.now.node ≡ Some place.now.spot.now }
    ensures over { OnOk result (IsFoundOver (G.stars_and_areas over.now) found.new) }
    ensures next { OnOk result (GrowsBy (nodes found.old) (nodes found.new)
        (λ m. list_any (goes_by (G.stars_and_areas over.now) barriers.now mode place.now.node m)
        (ties (G.stars_and_areas over.now) place.now.node))) }
    ensures follows { OnOk result (FollowsAll (G.stars_and_areas over.now) barriers.now mode
        found.old found.new aways.old.items aways.new.items place.now.node place.now.number) }
    ensures once { TiesStay (G.stars_and_areas over.now) barriers.now place.now.node
        → OnOk result (steps.new + length (nodes found.old) ≤ steps.old + length (nodes found.new)) }
    ensures never_falls { steps.old ≤ steps.new }
{
    let ties = place.spot.ties();
    for index in (0..ties.len()).rev() {
        let tie = &ties[index];
        if goes_by(over, place, tie, mode, barriers, steps) {
            let to = tie.to();
            if at_once(order, to.at, place.node.at) {
                found.add(alloc, over, to, place.number, Some(tie), steps)?;
            } else if !found.was_found_from(place.number, to) {
                aways.push(Away {
                    from: place.number,
                    to,
                    tie,
                })?;
            }
        }
    }
    Ok(())
}
