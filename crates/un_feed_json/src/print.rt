//! Pages and stars, as the compact text of their values.
ghost use Rattle.std.specs.Prelude.{◌≡◌, [], ◌∷◌, ◌++◌, ◌+◌, ◌<◌, ◌≤◌, IfOk, OnOk, OnErr, IfSome, codes, decimal, map, vec_len, vec_capacity};
ghost use Rattle.std.specs.Option.{option_copied};
ghost use Rattle.json.specs.Token.{end_object, key, string, boolean, number};
ghost use Rattle.json.specs.Tree.{json_tokens};
ghost use Rattle.serde_json.specs.Written.{outline};
ghost use Rattle.un_feed.specs.Differences.{change_shown, changes_shown};
ghost use Rattle.un_feed_json.specs.Shown.{change, changes_text, changes_value, place, star_or_null, star_text, star_value, text_of_changes, text_of_star};
ghost use Rattle.un_values.specs.Values.{list};

use crate::change::show_star;
use crate::parts::show_place;
use crate::show::show_list;
use json::Writer;
use std::alloc::{AllocError, Global};
use un_defs::Star;
use un_feed::{Changes, Page};
use un_geom::Point;
use un_schema::Schema;
use un_tiers::Tiers;
use un_values::member::{count_member, string_member};

// Appends a text, and leaves room for a line end after it.
fn add(text: &[u8], out: &mut Vec<u8>) -> Result<(), AllocError>
    ensures ok { OnOk result (out.new.items ≡ out.old.items ++ text.now) }
    ensures room { OnOk result (vec_len out.new < vec_capacity out.new) }
    ensures err { OnErr result (out.new.items ≡ out.old.items) }
    ensures capacity { vec_capacity out.old ≤ vec_capacity out.new }
{
    out.reserve(text.len() + 1)?;
    let _ = out.extend_from_slice(text);
    Ok(())
}

// Writes the changes of a page, and whether there are more.
fn show_page(
    alloc: Global,
    schema: &Schema,
    tiers: &Tiers,
    page: &Page,
    out: &mut Writer,
) -> Result<(), AllocError>
    ensures ok { OnOk result (out.new.tokens ≡ out.old.tokens ++ key (codes "changes")
        ∷ (json_tokens (outline (list (change schema.now tiers.now) (map change_shown page.now.pairs)))
        ++ key (codes "more") ∷ boolean page.now.more ∷ [])) }
    ensures before { out.new.before ≡ out.old.before }
{
    out.key("changes")?;
    show_list(alloc, schema, tiers, page.pairs.as_slice(), out)?;
    out.key("more")?;
    out.boolean(page.more)
}

// Writes the versions of a reply.
fn show_versions(reply: &Changes, out: &mut Writer) -> Result<(), AllocError>
    ensures ok { OnOk result (out.new.tokens ≡ out.old.tokens
        ++ key (codes "ok") ∷ string (codes "changes") ∷ key (codes "since") ∷ number (decimal reply.now.since)
        ∷ key (codes "upto") ∷ number (decimal reply.now.upto) ∷ key (codes "version") ∷ number (decimal reply.now.version)
        ∷ end_object ∷ []) }
    ensures before { out.new.before ≡ out.old.before }
{
    string_member("ok", "changes", out)?;
    count_member("since", reply.since, out)?;
    count_member("upto", reply.upto, out)?;
    count_member("version", reply.version, out)?;
    out.end_object()
}

// Writes a reply to a query for changes.
fn show_changes(
    alloc: Global,
    schema: &Schema,
    tiers: &Tiers,
    reply: &Changes,
    out: &mut Writer,
) -> Result<(), AllocError>
    ensures ok { OnOk result (out.new.tokens ≡ out.old.tokens
        ++ json_tokens (outline (changes_value schema.now tiers.now (changes_shown reply.now)))) }
    ensures before { out.new.before ≡ out.old.before }
{
    out.begin_object()?;
    out.key("after")?;
    show_place(reply.after, out)?;
    show_page(alloc, schema, tiers, &reply.page, out)?;
    show_versions(reply, out)
}

// The text of a reply to a query for changes.
fn changes_text(
    alloc: Global,
    schema: &Schema,
    tiers: &Tiers,
    reply: &Changes,
) -> Result<Vec<u8>, AllocError>
    ensures { IfOk result (λ text. text.items ≡ changes_text schema.now tiers.now (changes_shown reply.now)) }
{
    let mut writer = Writer::new(Vec::new(alloc));
    show_changes(alloc, schema, tiers, reply, &mut writer)?;
    Ok(writer.into_inner())
}

/// Appends the text of the reply to a query for changes, and leaves room for a line end after it. The kinds, attributes and tiers
/// of its stars are written by name. Running out of memory changes nothing.
pub fn print_changes(
    alloc: Global,
    schema: &Schema,
    tiers: &Tiers,
    reply: &Changes,
    out: &mut Vec<u8>,
) -> Result<(), AllocError>
    ensures ok { OnOk result (out.new.items
        ≡ out.old.items ++ text_of_changes schema.now tiers.now reply.now) }
    ensures room { OnOk result (vec_len out.new < vec_capacity out.new) }
    ensures err { OnErr result (out.new.items ≡ out.old.items) }
    ensures capacity { vec_capacity out.old ≤ vec_capacity out.new }
{
    let text = changes_text(alloc, schema, tiers, reply)?;
    add(text.as_slice(), out)
}

// Writes the star of a point, or null if it has none.
fn show_some_star(
    alloc: Global,
    schema: &Schema,
    tiers: &Tiers,
    at: Point,
    star: Option<&Star>,
    out: &mut Writer,
) -> Result<(), AllocError>
    ensures ok { OnOk result (out.new.tokens ≡ out.old.tokens
        ++ json_tokens (outline (star_or_null schema.now tiers.now at (option_copied star.entry)))) }
    ensures before { out.new.before ≡ out.old.before }
{
    match star {
        Some(star) => show_star(alloc, schema, tiers, at, star, out),
        None => out.null(),
    }
}

// Writes the reply to a question for the star of a point.
fn show_found(
    alloc: Global,
    schema: &Schema,
    tiers: &Tiers,
    at: Point,
    star: Option<&Star>,
    version: u64,
    out: &mut Writer,
) -> Result<(), AllocError>
    ensures ok { OnOk result (out.new.tokens ≡ out.old.tokens
        ++ json_tokens (outline (star_value schema.now tiers.now at (option_copied star.entry) version))) }
    ensures before { out.new.before ≡ out.old.before }
{
    out.begin_object()?;
    string_member("ok", "star", out)?;
    out.key("star")?;
    show_some_star(alloc, schema, tiers, at, star, out)?;
    count_member("version", version, out)?;
    out.end_object()
}

// The text of the reply to a question for the star of a point.
fn star_text(
    alloc: Global,
    schema: &Schema,
    tiers: &Tiers,
    at: Point,
    star: Option<&Star>,
    version: u64,
) -> Result<Vec<u8>, AllocError>
    ensures { IfOk result (λ text. text.items
        ≡ star_text schema.now tiers.now at (option_copied star.entry) version) }
{
    let mut writer = Writer::new(Vec::new(alloc));
    show_found(alloc, schema, tiers, at, star, version, &mut writer)?;
    Ok(writer.into_inner())
}

/// Appends the text of the reply to a question for the star of a point, at this version of the copy, and leaves room for a line end
/// after it. Running out of memory changes nothing.
pub fn print_star(
    alloc: Global,
    schema: &Schema,
    tiers: &Tiers,
    at: Point,
    star: Option<&Star>,
    version: u64,
    out: &mut Vec<u8>,
) -> Result<(), AllocError>
    ensures ok { OnOk result (out.new.items
        ≡ out.old.items ++ text_of_star schema.now tiers.now at star.entry version) }
    ensures room { OnOk result (vec_len out.new < vec_capacity out.new) }
    ensures err { OnErr result (out.new.items ≡ out.old.items) }
    ensures capacity { vec_capacity out.old ≤ vec_capacity out.new }
{
    let text = star_text(alloc, schema, tiers, at, star, version)?;
    add(text.as_slice(), out)
}
