//! The controllers of other subnetworks that a walk reached.

ghost use Rattle.std.specs.Prelude.{◌≡◌, ◌≤◌, ◌+◌, length, IfOk, OnOk};
ghost use Rattle.std.specs.Option.{option_copied};
ghost use Rattle.un_subnet.specs.Refusals.{is_foreign, conflict_with, controller_of, conflict_at, conflict_refusal};

use std::alloc::{AllocError, Global};
use un_defs::{Controller, Ground, Node, Port, Refusal};
use un_schema::Name;
use un_steps::Steps;

/// Whether the controller is of another subnetwork of the tier.
fn is_foreign(tier: u8, subnet: &Name, controller: &Controller) -> bool
    ensures { result ≡ is_foreign tier subnet.now controller.now }
{
    controller.tier == tier && subnet.text() != controller.subnet.text()
}

/// The controller that the entry of a node has. One star is looked up.
fn controller_of<G: Ground>(over: &G, node: Node) -> Option<&Controller>
    ensures { option_copied result ≡ controller_of (G.stars_and_areas over.now) node }
{
    over.star(node.at)?.entry(node.port)?.controller()
}

/// The refusal for the controller of a port, if it is of another subnetwork.
fn conflict_with(
    alloc: Global,
    tier: u8,
    subnet: &Name,
    port: Port,
    controller: &Controller,
) -> Result<Option<Refusal>, AllocError>
    ensures { IfOk result (λ refusal. refusal ≡ conflict_with tier subnet.now port controller.now) }
{
    if !is_foreign(tier, subnet, controller) {
        return Ok(None);
    }
    Ok(Some(Refusal::Conflict {
        subnet: controller.subnet.copy(alloc)?,
        feature: port.feature,
        port: port.number,
    }))
}

/// The refusal for the controller that the entry of a node has.
fn conflict_at<G: Ground>(
    alloc: Global,
    over: &G,
    tier: u8,
    subnet: &Name,
    node: Node,
) -> Result<Option<Refusal>, AllocError>
    ensures { IfOk result (λ refusal. refusal
        ≡ conflict_at (G.stars_and_areas over.now) tier subnet.now node) }
{
    match controller_of(over, node) {
        Some(controller) => conflict_with(alloc, tier, subnet, node.port, controller),
        None => Ok(None),
    }
}

/// The refusal for the least reached port with a controller of another subnetwork. It looks up at most one star for each reached node.
pub(crate) fn conflict_refusal<G: Ground, L>(
    alloc: Global,
    over: &G,
    tier: u8,
    subnet: &Name,
    reached: &[Node],
    steps: &mut Steps<L>,
) -> Result<Option<Refusal>, AllocError>
    ensures refusal { IfOk result (λ refusal. refusal
        ≡ conflict_refusal (G.stars_and_areas over.now) tier subnet.now reached.now) }
    ensures ticks { OnOk result (steps.new ≤ steps.old + length reached.now) }
    ensures never_falls { steps.old ≤ steps.new }
{
    for node in reached {
        steps.tick();
        let refusal = conflict_at(alloc, over, tier, subnet, *node)?;
        if refusal.is_some() {
            return Ok(refusal);
        }
    }
    Ok(None)
}
