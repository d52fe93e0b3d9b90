//! The replies to queries.
ghost use Rattle.std.specs.Prelude.{◌≡◌, [], ◌∷◌, ◌++◌, codes, decimal, OnOk};
ghost use Rattle.json.specs.Token.{begin_object, end_object, key, string, number};
ghost use Rattle.json.specs.Tree.{json_tokens};
ghost use Rattle.serde_json.specs.Written.{outline};
ghost use Rattle.un_ask.specs.declared.reply.Reply.TheVariants as reply;
ghost use Rattle.un_replies.specs.Commands.{IsOfCommand, IsOfReach};
ghost use Rattle.un_replies.specs.Replies.{reply_value, status_text, port};
ghost use Rattle.un_values.specs.Values.{counts, list};

use crate::feature::show_feature;
use crate::to_json::{ToJson, list_member};
use json::Writer;
use std::alloc::AllocError;
use un_ask::results::{Controllers, Edges, Labels, Pieces};
use un_ask::{Areas, PlacedErrors, Reply, Status};
use un_defs::Ids;
use un_defs::port::Ports;
use un_schema::Name;
use un_values::member::{count_member, string_member};

fn show_version(version: u64, out: &mut Writer) -> Result<(), AllocError>
    ensures ok { OnOk result (out.new.tokens
        ≡ out.old.tokens ++ json_tokens (outline (reply_value (reply.Version version)))) }
    ensures before { out.new.before ≡ out.old.before }
{
    out.begin_object()?;
    string_member("ok", "version", out)?;
    count_member("version", version, out)?;
    out.end_object()
}

fn show_dirty(areas: &Areas, version: u64, out: &mut Writer) -> Result<(), AllocError>
    ensures ok { OnOk result (out.new.tokens
        ≡ out.old.tokens ++ json_tokens (outline (reply_value (reply.Dirty areas.now version)))) }
    ensures before { out.new.before ≡ out.old.before }
{
    out.begin_object()?;
    list_member("areas", areas.as_slice(), out)?;
    string_member("ok", "dirty", out)?;
    count_member("version", version, out)?;
    out.end_object()
}

fn show_errors(errors: &PlacedErrors, version: u64, out: &mut Writer) -> Result<(), AllocError>
    ensures ok { OnOk result (out.new.tokens
        ≡ out.old.tokens ++ json_tokens (outline (reply_value (reply.Errors errors.now version)))) }
    ensures before { out.new.before ≡ out.old.before }
{
    out.begin_object()?;
    list_member("errors", errors.as_slice(), out)?;
    string_member("ok", "errors", out)?;
    count_member("version", version, out)?;
    out.end_object()
}

fn status_text(status: Status) -> &'static str
    ensures { result.now ≡ status_text status }
{
    match status {
        Status::Clean => "clean",
        Status::Dirty => "dirty",
    }
}

fn show_controllers(
    controllers: &Controllers,
    version: u64,
    out: &mut Writer,
) -> Result<(), AllocError>
    ensures ok { OnOk result (out.new.tokens
        ≡ out.old.tokens
        ++ json_tokens (outline (reply_value (reply.Controllers controllers.now version)))) }
    ensures before { out.new.before ≡ out.old.before }
{
    out.begin_object()?;
    list_member("controllers", controllers.as_slice(), out)?;
    string_member("ok", "controllers", out)?;
    count_member("version", version, out)?;
    out.end_object()
}

fn show_path(
    cost: &Option<u128>,
    labels: &Labels,
    nodes: &Ports,
    version: u64,
    out: &mut Writer,
) -> Result<(), AllocError>
    ensures ok { OnOk result (out.new.tokens
        ≡ out.old.tokens ++ json_tokens (outline (reply_value (reply.Path cost.now labels.now nodes.now version)))) }
    ensures before { out.new.before ≡ out.old.before }
{
    out.begin_object()?;
    out.key("cost")?;
    cost.show(out)?;
    list_member("labels", labels.as_slice(), out)?;
    list_member("nodes", nodes.as_slice(), out)?;
    string_member("ok", "path", out)?;
    count_member("version", version, out)?;
    out.end_object()
}

fn show_check(valid: bool, version: u64, out: &mut Writer) -> Result<(), AllocError>
    ensures ok { OnOk result (out.new.tokens
        ≡ out.old.tokens ++ json_tokens (outline (reply_value (reply.Check valid version)))) }
    ensures before { out.new.before ≡ out.old.before }
{
    out.begin_object()?;
    string_member("ok", "check", out)?;
    out.key("valid")?;
    out.boolean(valid)?;
    count_member("version", version, out)?;
    out.end_object()
}

fn show_diagram(
    edges: &Edges,
    kept: &Ports,
    pieces: &Pieces,
    version: u64,
    out: &mut Writer,
) -> Result<(), AllocError>
    ensures ok { OnOk result (out.new.tokens
        ≡ out.old.tokens ++ json_tokens (outline (reply_value (reply.Diagram edges.now kept.now pieces.now version)))) }
    ensures before { out.new.before ≡ out.old.before }
{
    out.begin_object()?;
    list_member("edges", edges.as_slice(), out)?;
    list_member("kept", kept.as_slice(), out)?;
    string_member("ok", "diagram", out)?;
    list_member("pieces", pieces.as_slice(), out)?;
    count_member("version", version, out)?;
    out.end_object()
}

// The first members of a stored subnetwork: its controllers and members, by id.
fn show_found(controllers: &Ports, members: &Ids, out: &mut Writer) -> Result<(), AllocError>
    ensures ok { OnOk result (out.new.tokens ≡ out.old.tokens
        ++ begin_object ∷ key (codes "controllers") ∷ (json_tokens (outline (list port controllers.now))
        ++ key (codes "members") ∷ json_tokens (outline (counts members.now)))) }
    ensures before { out.new.before ≡ out.old.before }
{
    out.begin_object()?;
    list_member("controllers", controllers.as_slice(), out)?;
    list_member("members", members.as_slice(), out)
}

// The last members of a stored subnetwork: its status, its names and its versions.
fn show_stored(
    status: Status,
    subnet: &Name,
    tier: &Name,
    updated: u64,
    version: u64,
    out: &mut Writer,
) -> Result<(), AllocError>
    ensures ok { OnOk result (out.new.tokens ≡ out.old.tokens
        ++ key (codes "ok") ∷ string (codes "subnet") ∷ key (codes "status") ∷ string (status_text status)
        ∷ key (codes "subnet") ∷ string subnet.now ∷ key (codes "tier") ∷ string tier.now
        ∷ key (codes "updated") ∷ number (decimal updated) ∷ key (codes "version") ∷ number (decimal version) ∷ end_object ∷ []) }
    ensures before { out.new.before ≡ out.old.before }
{
    string_member("ok", "subnet", out)?;
    string_member("status", status_text(status), out)?;
    string_member("subnet", subnet.text(), out)?;
    string_member("tier", tier.text(), out)?;
    count_member("updated", updated, out)?;
    count_member("version", version, out)?;
    out.end_object()
}

/// Writes the reply to a query that tells no whole network.
#[tactic(auto, using(crate::proofs::Commands::other_query))]
pub(crate) fn show_query(reply: &Reply, out: &mut Writer) -> Result<(), AllocError>
    requires query { ¬ IsOfCommand reply.now }
    requires short { ¬ IsOfReach reply.now }
    ensures ok { OnOk result (out.new.tokens
        ≡ out.old.tokens ++ json_tokens (outline (reply_value reply.now))) }
    ensures before { out.new.before ≡ out.old.before }
{
    match reply {
        Reply::Version { version } => show_version(*version, out),
        Reply::Feature { feature, version } => show_feature(feature, *version, out),
        Reply::Dirty { areas, version } => show_dirty(areas, *version, out),
        Reply::Errors { errors, version } => show_errors(errors, *version, out),
        Reply::Subnet {
            controllers,
            members,
            status,
            subnet,
            tier,
            updated,
            version,
        } => {
            show_found(controllers, members, out)?;
            show_stored(*status, subnet, tier, *updated, *version, out)
        }
        Reply::Controllers {
            controllers,
            version,
        } => show_controllers(controllers, *version, out),
        Reply::Path {
            cost,
            labels,
            nodes,
            version,
        } => show_path(cost, labels, nodes, *version, out),
        Reply::Check { valid, version } => show_check(*valid, *version, out),
        Reply::Diagram {
            edges,
            kept,
            pieces,
            version,
        } => show_diagram(edges, kept, pieces, *version, out),
        _ => Ok(()),
    }
}
