//! What may refuse an edit, each as a function that answers the refusal.
//!
//! Each check has the same two clauses: where it lets the edit pass nothing is due, and a refusal that it answers is the one that is due.
ghost use Rattle.std.specs.Prelude.{◌≡◌, ◌≢◌, ◌<◌, ◌==◌, find, length, map, true, false, Some, None, IfOk, OnOk, IfErr};
ghost use Rattle.un_schema.specs.Catalog.{place_of};
ghost use Rattle.un_schema.specs.Classes.{is_structure};
ghost use Rattle.un_defs.specs.Features.{row as row_of};
ghost use Rattle.un_assoc.specs.Links.{only_links};
ghost use Rattle.un_assoc.specs.Containing.{container_of};
ghost use Rattle.un_assoc.specs.Refusals.{no_feature, not_joints, no_terminal, not_containing, not_attaching, may_control, not_controlling, no_tier, in_itself, in_another, no_room, no_room_in, no_association, no_room_to_control, is_controlled, no_controller};

use crate::assocs::Assocs;
use un_defs::ports::is_joint;
use un_defs::{Assoc, Limit, Lookup, Port, Refusal, Row};
use un_schema::{Name, Schema};
use un_tiers::Tiers;

// ---- of rows

// The row with this id.
pub(crate) fn found<K: Lookup>(rows: &K, id: u64) -> Result<&Row, Refusal>
    ensures row { IfOk result (λ row. row_of (K.features rows.now) id ≡ Some row.now) }
    ensures good { OnOk result (no_feature (K.features rows.now) id ≡ None) }
    ensures bad { IfErr result (λ refusal. no_feature (K.features rows.now) id ≡ Some refusal) }
{
    match rows.row(id) {
        Some(row) => Ok(row),
        None => Err(Refusal::NoSuchFeature { id }),
    }
}

// Two devices or junctions connect, and never one with itself.
pub(crate) fn check_joints(from: &Port, to: &Port, a: &Row, b: &Row) -> Result<(), Refusal>
    ensures apart { OnOk result (from.now.feature ≢ to.now.feature) }
    ensures good { OnOk result (not_joints from.now to.now a.now b.now ≡ None) }
    ensures bad { IfErr result (λ refusal. not_joints from.now to.now a.now b.now ≡ Some refusal) }
{
    if !(is_joint(a.class) && is_joint(b.class)) || from.feature == to.feature {
        return Err(Refusal::WrongKind);
    }
    Ok(())
}

// The row has the terminal.
pub(crate) fn check_terminal(port: &Port, row: &Row) -> Result<(), Refusal>
    ensures good { OnOk result (no_terminal port.now row.now ≡ None) }
    ensures bad { IfErr result (λ refusal. no_terminal port.now row.now ≡ Some refusal) }
{
    if !row.has_terminal(port.number) {
        return Err(Refusal::BadTerminal {
            feature: port.feature,
        });
    }
    Ok(())
}

// Assemblies and structures have contents.
pub(crate) fn check_container(row: &Row) -> Result<(), Refusal>
    ensures good { OnOk result (not_containing row.now ≡ None) }
    ensures bad { IfErr result (λ refusal. not_containing row.now ≡ Some refusal) }
{
    if !row.class.is_container() {
        return Err(Refusal::WrongKind);
    }
    Ok(())
}

// Something other than a structure hangs on a structure.
pub(crate) fn check_attaching(structure: &Row, content: &Row) -> Result<(), Refusal>
    ensures first { OnOk result (is_structure structure.now.class ≡ true) }
    ensures second { OnOk result (is_structure content.now.class ≡ false) }
    ensures good { OnOk result (not_attaching structure.now content.now ≡ None) }
    ensures bad { IfErr result (λ refusal. not_attaching structure.now content.now ≡ Some refusal) }
{
    if !structure.class.is_structure() || content.class.is_structure() {
        return Err(Refusal::WrongKind);
    }
    Ok(())
}

// ---- of associations

// The most live associations, contents of one container, and controllers.
const MOST_ASSOCIATIONS: u64 = 200_000;

const MOST_CONTENTS: u64 = 4096;

const MOST_CONTROLLERS: u64 = 4096;

// A content is not its container, nor one of those above it.
pub(crate) fn check_chain(links: &Assocs, container: u64, content: u64) -> Result<(), Refusal>
    ensures apart { OnOk result (container ≢ content) }
    ensures good { OnOk result (in_itself links.now.associations container content ≡ None) }
    ensures bad { IfErr result (λ refusal. in_itself links.now.associations container content
        ≡ Some refusal) }
{
    if container == content || links.is_above(container, content) {
        return Err(Refusal::ContainsItself);
    }
    Ok(())
}

// A content is in no other container.
pub(crate) fn check_alone(links: &Assocs, content: u64) -> Result<(), Refusal>
    ensures alone { OnOk result (container_of links.now.associations content ≡ None) }
    ensures good { OnOk result (in_another links.now.associations content ≡ None) }
    ensures bad { IfErr result (λ refusal. in_another links.now.associations content ≡ Some refusal) }
{
    match links.container(content) {
        Some(by) => Err(Refusal::AlreadyContained { by }),
        None => Ok(()),
    }
}

// One more association is within the greatest count.
pub(crate) fn check_room(links: &Assocs) -> Result<(), Refusal>
    ensures good { OnOk result (no_room links.now.associations ≡ None) }
    ensures bad { IfErr result (λ refusal. no_room links.now.associations ≡ Some refusal) }
{
    if links.len() >= MOST_ASSOCIATIONS {
        return Err(Refusal::Full {
            what: Limit::Associations,
        });
    }
    Ok(())
}

// One more content is within the greatest count.
pub(crate) fn check_room_in(links: &Assocs, container: u64) -> Result<(), Refusal>
    ensures good { OnOk result (no_room_in links.now.associations container ≡ None) }
    ensures bad { IfErr result (λ refusal. no_room_in links.now.associations container ≡ Some refusal) }
{
    if links.contents(container) >= MOST_CONTENTS {
        return Err(Refusal::Full {
            what: Limit::Contents,
        });
    }
    Ok(())
}

// The association with this id.
pub(crate) fn alive(links: &Assocs, id: u64) -> Result<Assoc, Refusal>
    ensures alive { IfOk result (λ a. find (λ b. b.id == a.id) links.now.associations ≡ Some a) }
    ensures id { IfOk result (λ a. a.id ≡ id) }
    ensures good { OnOk result (no_association (only_links links.now) id ≡ None) }
    ensures bad { IfErr result (λ refusal. no_association (only_links links.now) id ≡ Some refusal) }
{
    match links.get(id).copied() {
        Some(assoc) => Ok(assoc),
        None => Err(Refusal::NoSuchAssociation),
    }
}

// ---- of controllers

// Features of the row's kind may be controllers.
pub(crate) fn check_kind(schema: &Schema, row: &Row) -> Result<(), Refusal>
    requires { row.now.kind < length schema.now.kinds }
    ensures good { OnOk result (not_controlling schema.now row.now ≡ None) }
    ensures bad { IfErr result (λ refusal. not_controlling schema.now row.now ≡ Some refusal) }
{
    if !may_control(schema, row) {
        return Err(Refusal::NotController);
    }
    Ok(())
}

fn may_control(schema: &Schema, row: &Row) -> bool
    requires { row.now.kind < length schema.now.kinds }
    ensures { result ≡ may_control schema.now row.now }
{
    schema.kind_at(row.kind).controller
}

// The number of the tier with a name.
pub(crate) fn tier_number(tiers: &Tiers, name: &Name) -> Result<u8, Refusal>
    ensures tier { IfOk result (λ tier. place_of name.now (map (λ t. t.name) tiers.now) ≡ Some tier) }
    ensures good { OnOk result (no_tier (map (λ t. t.name) tiers.now) name.now ≡ None) }
    ensures bad { IfErr result (λ refusal. no_tier (map (λ t. t.name) tiers.now) name.now ≡ Some refusal) }
{
    match tier_of(tiers, name) {
        Some(tier) => Ok(tier),
        None => Err(Refusal::NoSuchTier),
    }
}

fn tier_of(tiers: &Tiers, name: &Name) -> Option<u8>
    ensures { result ≡ place_of name.now (map (λ t. t.name) tiers.now) }
{
    tiers.find(name.text())
}

// The port has no controller.
pub(crate) fn check_free(links: &Assocs, port: Port) -> Result<(), Refusal>
    ensures good { OnOk result (is_controlled (only_links links.now) port ≡ None) }
    ensures bad { IfErr result (λ refusal. is_controlled (only_links links.now) port ≡ Some refusal) }
{
    if links.controller_at(port).is_some() {
        return Err(Refusal::ControllerExists);
    }
    Ok(())
}

// The port has a controller.
pub(crate) fn check_controlled(links: &Assocs, port: Port) -> Result<(), Refusal>
    ensures good { OnOk result (no_controller (only_links links.now) port ≡ None) }
    ensures bad { IfErr result (λ refusal. no_controller (only_links links.now) port ≡ Some refusal) }
{
    if links.controller_at(port).is_none() {
        return Err(Refusal::NoSuchController);
    }
    Ok(())
}

// One more controller is within the greatest count.
pub(crate) fn check_room_to_control(links: &Assocs) -> Result<(), Refusal>
    ensures good { OnOk result (no_room_to_control links.now.controllers ≡ None) }
    ensures bad { IfErr result (λ refusal. no_room_to_control links.now.controllers ≡ Some refusal) }
{
    if links.controllers_len() >= MOST_CONTROLLERS {
        return Err(Refusal::Full {
            what: Limit::Controllers,
        });
    }
    Ok(())
}
