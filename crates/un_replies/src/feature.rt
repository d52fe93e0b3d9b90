//! A feature in the reply to a query.
ghost use Rattle.std.specs.Prelude.{◌≡◌, [], ◌∷◌, ◌++◌, OnOk, map};
ghost use Rattle.json.specs.Token.{end_object};
ghost use Rattle.json.specs.Tree.{json_tokens, members_tokens};
ghost use Rattle.serde_json.specs.Written.{outline, members_outline};
ghost use Rattle.un_defs.specs.NamedAttributes.{IsNamedAttrs};
ghost use Rattle.un_values.specs.Values.{attribute, members_of, object_of};
ghost use Rattle.un_replies.specs.Replies.{feature_value, flow_text, path_text};

use crate::to_json::{ToJson, list_member};
use json::Writer;
use std::alloc::AllocError;
use un_ask::FeatureReply;
use un_defs::Flow;
use un_schema::Name;
use un_values::member::{count_member, string_member};

// Writes the members of the attributes.
#[tactic(auto, using(crate::proofs::Shows::attribute_one, crate::proofs::Shows::attribute_all))]
fn show_pairs(pairs: &[(Name, i64)], out: &mut Writer) -> Result<(), AllocError>
    ensures ok { OnOk result (out.new.tokens ++ end_object ∷ []
        ≡ out.old.tokens ++ members_tokens (members_outline (members_of (map attribute pairs.now)))) }
    ensures before { out.new.before ≡ out.old.before }
{
    for (name, value) in pairs {
        out.key(name.text())?;
        value.show(out)?;
    }
    Ok(())
}

// Writes the attributes, whose names are sorted and distinct.

fn show_attributes(pairs: &[(Name, i64)], out: &mut Writer) -> Result<(), AllocError>
    requires { IsNamedAttrs pairs.now }
    ensures ok { OnOk result (out.new.tokens
        ≡ out.old.tokens ++ json_tokens (outline (object_of (map attribute pairs.now)))) }
    ensures before { out.new.before ≡ out.old.before }
{
    out.begin_object()?;
    show_pairs(pairs, out)?;
    out.end_object()
}

fn flow_text(flow: Flow) -> &'static str
    ensures { result.now ≡ flow_text flow }
{
    match flow {
        Flow::With => "with",
        Flow::Against => "against",
        Flow::Both => "both",
    }
}

// The name of a path, or the empty text if there is none.
fn path_text(path: &Option<Name>) -> &str
    ensures { result.now ≡ path_text path.now }
{
    match path {
        Some(name) => name.text(),
        None => "",
    }
}

/// Writes a stored feature.
pub(crate) fn show_feature(
    feature: &FeatureReply,
    version: u64,
    out: &mut Writer,
) -> Result<(), AllocError>
    ensures ok { OnOk result (out.new.tokens
        ≡ out.old.tokens ++ json_tokens (outline (feature_value feature.now version))) }
    ensures before { out.new.before ≡ out.old.before }
{
    out.begin_object()?;
    out.key("attrs")?;
    show_attributes(feature.attrs.as_slice(), out)?;
    count_member("base", feature.base, out)?;
    list_member("ends", &feature.ends, out)?;
    string_member("flow", flow_text(feature.flow), out)?;
    count_member("id", feature.id, out)?;
    string_member("kind", feature.kind.text(), out)?;
    string_member("note", feature.note.text(), out)?;
    string_member("ok", "feature", out)?;
    string_member("path", path_text(&feature.path), out)?;
    list_member("points", feature.points.as_slice(), out)?;
    count_member("version", version, out)?;
    out.end_object()
}
