//! What holds of each schema with its tiers by their types.
ghost use Rattle.std.specs.Prelude.{All, IsUtf8};
ghost use Rattle.un_feed_json.specs.Sound.{IsSetup};

use un_schema::{Kind, Name, Schema};
use un_tiers::Tiers;

// The names are UTF-8, as each name is.
fn read_names(names: &[Name])
    ensures { All IsUtf8 names.now }
{
    for name in names {
        // For the proof alone.
        let _text = name.text();
    }
}

// The same of the names of kinds.
fn read_kinds(kinds: &[Kind])
    ensures { All (λ kind. IsUtf8 kind.name) kinds.now }
{
    for kind in kinds {
        // For the proof alone.
        let _text = kind.name.text();
    }
}

// The same of the names of tiers.
fn read_tiers(tiers: &Tiers)
    ensures { All (λ tier. IsUtf8 tier.name) tiers.now }
{
    for tier in 0..tiers.len() {
        // For the proof alone.
        let _text = tiers.name(tier as u8);
    }
}

/// Each schema with its tiers is a setup in which pages are read back, since a `Name` is UTF-8. Nothing but a proof needs the call.
pub fn setup_is_sound(schema: &Schema, tiers: &Tiers)
    ensures { IsSetup schema.now tiers.now }
{
    // For the proof alone.
    let _rules = schema.rules();
    read_names(schema.attributes());
    read_kinds(schema.kinds());
    let _count = tiers.len();
    read_tiers(tiers);
}
