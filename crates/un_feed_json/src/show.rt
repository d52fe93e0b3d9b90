//! Values of the topology, written as tokens of JSON.
ghost use Rattle.std.specs.Prelude.{◌≡◌, [], ◌∷◌, ◌++◌, OnOk, All};
ghost use Rattle.json.specs.Token.{end_array};
ghost use Rattle.json.specs.Tree.{json_tokens, items_tokens};
ghost use Rattle.serde_json.specs.Written.{outline, items_outline};
ghost use Rattle.un_values.specs.Values.{items_of, list};

use json::Writer;
use std::alloc::{AllocError, Global};
use un_schema::Schema;
use un_tiers::Tiers;

/// A value that is written with the names of a schema and of its tiers.
pub(crate) trait Show {
    ghost use Rattle.std.specs.Prelude.{List};
    ghost use Rattle.serde_json.specs.Data.{Data};
    ghost use Rattle.serde_json.specs.Written.{outline};
    ghost use Rattle.json.specs.Tree.{json_tokens};
    ghost use Rattle.un_schema.specs.Catalog.{Catalog};
    ghost use Rattle.un_tiers.specs.declared.tier.Tier.{Tier};

    ghost json_value: { Catalog → List Tier → Self → Data };

    /// Writes the value. If memory runs out, part of it may be missing.
    fn show(
        &self,
        alloc: Global,
        schema: &Schema,
        tiers: &Tiers,
        out: &mut Writer,
    ) -> Result<(), AllocError>
        ensures ok { OnOk result (out.new.tokens
            ≡ out.old.tokens ++ json_tokens (outline (json_value schema.now tiers.now self.now))) }
        ensures before { out.new.before ≡ out.old.before };
}

// Writes the elements of a list.
#[tactic(auto, using(un_values::proofs::Shows::show_one, un_values::proofs::Shows::show_all))]
fn show_items<T: Show>(
    alloc: Global,
    schema: &Schema,
    tiers: &Tiers,
    values: &[T],
    out: &mut Writer,
) -> Result<(), AllocError>
    ensures ok { OnOk result (out.new.tokens ++ end_array ∷ [] ≡ out.old.tokens
        ++ items_tokens (items_outline (items_of (T.json_value schema.now tiers.now) values.now))) }
    ensures before { out.new.before ≡ out.old.before }
{
    for value in values {
        value.show(alloc, schema, tiers, out)?;
    }
    Ok(())
}

/// Writes a list.
#[tactic(auto, using(un_values::proofs::Shows::list_steps))]
pub(crate) fn show_list<T: Show>(
    alloc: Global,
    schema: &Schema,
    tiers: &Tiers,
    values: &[T],
    out: &mut Writer,
) -> Result<(), AllocError>
    ensures ok { OnOk result (out.new.tokens ≡ out.old.tokens
        ++ json_tokens (outline (list (T.json_value schema.now tiers.now) values.now))) }
    ensures before { out.new.before ≡ out.old.before }
{
    out.begin_array()?;
    show_items(alloc, schema, tiers, values, out)?;
    out.end_array()
}
