//! The entries of a star, written as tokens of JSON.
ghost use Rattle.std.specs.Prelude.{◌≡◌, [], ◌∷◌, ◌++◌, OnOk, decimal};
ghost use Rattle.std.specs.Option.{option_copied};
ghost use Rattle.json.specs.Token.{begin_array, end_array, number, string};
ghost use Rattle.json.specs.Tree.{json_tokens};
ghost use Rattle.serde_json.specs.Written.{outline};
ghost use Rattle.un_feed_json.specs.Names.{kind_name, tier_name};
ghost use Rattle.un_feed_json.specs.Shown.{attributes, controller, entry, link};
ghost use Rattle.un_values.specs.Values.{count, counts, list};

use crate::named::show_attributes;
use crate::show::{Show, show_list};
use json::Writer;
use std::alloc::{AllocError, Global};
use un_defs::{Controller, PackedSpot};
use un_schema::Schema;
use un_tiers::Tiers;

// The name of a kind, or the empty text for a number that the schema does not have.
fn kind_text(schema: &Schema, kind: u16) -> &str
    ensures { result.now ≡ kind_name schema.now kind }
{
    match schema.kinds().get(usize::from(kind)) {
        Some(kind) => kind.name.text(),
        None => "",
    }
}

// The name of a tier, or the empty text for a number that there is not.
fn tier_text(tiers: &Tiers, tier: u8) -> &str
    ensures { result.now ≡ tier_name tiers.now tier }
{
    if usize::from(tier) < tiers.len() {
        tiers.name(tier)
    } else {
        ""
    }
}

// Writes the controller of an entry, or null if it has none.
fn show_controller(
    tiers: &Tiers,
    held: Option<&Controller>,
    out: &mut Writer,
) -> Result<(), AllocError>
    ensures ok { OnOk result (out.new.tokens
        ≡ out.old.tokens ++ json_tokens (outline (controller tiers.now (option_copied held.entry)))) }
    ensures before { out.new.before ≡ out.old.before }
{
    let Some(held) = held else {
        return out.null();
    };
    out.begin_array()?;
    out.string(tier_text(tiers, held.tier))?;
    out.string(held.subnet.text())?;
    out.end_array()
}

// Writes the beginning of an entry: its port, its kind and its attributes.
fn show_head(
    alloc: Global,
    schema: &Schema,
    spot: &PackedSpot,
    out: &mut Writer,
) -> Result<(), AllocError>
    ensures ok { OnOk result (out.new.tokens ≡ out.old.tokens
        ++ begin_array ∷ number (decimal spot.now.port.feature) ∷ number (decimal spot.now.port.number)
        ∷ string (kind_name schema.now spot.now.kind)
        ∷ json_tokens (outline (attributes schema.now spot.now.attrs))) }
    ensures before { out.new.before ≡ out.old.before }
{
    out.begin_array()?;
    let port = spot.port();
    out.u64(port.feature)?;
    out.u64(port.number as u64)?;
    out.string(kind_text(schema, spot.kind()))?;
    show_attributes(alloc, schema, spot.attrs(), out)
}

// Writes the end of an entry: its container, its contents and its structures.
fn show_associations(
    alloc: Global,
    schema: &Schema,
    tiers: &Tiers,
    spot: &PackedSpot,
    out: &mut Writer,
) -> Result<(), AllocError>
    ensures ok { OnOk result (out.new.tokens ≡ out.old.tokens
        ++ number (decimal spot.now.container) ∷ (json_tokens (outline (counts spot.now.contents))
        ++ (json_tokens (outline (counts spot.now.structures)) ++ end_array ∷ []))) }
    ensures before { out.new.before ≡ out.old.before }
{
    out.u64(spot.container())?;
    show_list(alloc, schema, tiers, spot.contents(), out)?;
    show_list(alloc, schema, tiers, spot.structures(), out)?;
    out.end_array()
}

impl Show for PackedSpot {
    ghost use Rattle.un_feed_json.specs.Shown.{entry};

    ghost json_value = { entry };

    fn show(
        &self,
        alloc: Global,
        schema: &Schema,
        tiers: &Tiers,
        out: &mut Writer,
    ) -> Result<(), AllocError> {
        show_head(alloc, schema, self, out)?;
        show_list(alloc, schema, tiers, self.ties(), out)?;
        show_controller(tiers, self.controller(), out)?;
        show_associations(alloc, schema, tiers, self, out)
    }
}
