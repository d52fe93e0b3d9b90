//! Attributes with the names that the schema gives them.
ghost use Rattle.std.specs.Prelude.{◌≡◌, [], ◌∷◌, ◌++◌, OnOk, IfOk, map, option_map};
ghost use Rattle.json.specs.Token.{end_object};
ghost use Rattle.json.specs.Tree.{json_tokens, members_tokens};
ghost use Rattle.serde_json.specs.Written.{outline, members_outline};
ghost use Rattle.un_feed_json.specs.Names.{with_name, named};
ghost use Rattle.un_feed_json.specs.Sorting.{pair_of};
ghost use Rattle.un_feed_json.specs.Shown.{attributes};
ghost use Rattle.un_values.specs.Values.{attribute, members_of};

use crate::parts::show_whole;
use json::Writer;
use std::alloc::{AllocError, Global};
use std::collections::BTreeSet;
use un_schema::Schema;

/// An attribute with its name, by which it compares.
#[derive(Clone, Copy)]
#[derive_where(PartialEq, Eq, PartialOrd, Ord)]
struct NamedValue<'a> {
    name: &'a str,
    #[derive_where(skip(EqHashOrd))]
    value: i64,
}

/// An attribute with its name, if the schema has it.
fn with_name<'a>(schema: &'a Schema, pair: &(u8, i64)) -> Option<NamedValue<'a>>
    ensures { option_map pair_of result ≡ with_name schema.now pair.now }
{
    let name = schema.attributes().get(usize::from(pair.0))?;
    let value = pair.1;
    Some(NamedValue {
        name: name.text(),
        value,
    })
}

/// The attributes with their names, in byte order of these.
fn in_order<'a>(
    alloc: Global,
    schema: &'a Schema,
    attrs: &[(u8, i64)],
) -> Result<Vec<NamedValue<'a>>, AllocError>
    ensures { IfOk result (λ all. map pair_of all.items ≡ named schema.now attrs.now) }
{
    let mut set = BTreeSet::new(alloc);
    let count = attrs.len();
    for done in 0..count {
        if let Some(named) = with_name(schema, &attrs[count - 1 - done]) {
            set.insert(named)?;
        }
    }
    let all: Vec<_> = set.into_iter().collect(alloc)?;
    Ok(all)
}

// Writes attributes as the members of an object.
#[tactic(auto, using(crate::proofs::Sorted::attribute_one, crate::proofs::Sorted::attribute_all))]
fn show_pairs(pairs: &[NamedValue<'_>], out: &mut Writer) -> Result<(), AllocError>
    ensures ok { OnOk result (out.new.tokens ++ end_object ∷ [] ≡ out.old.tokens
        ++ members_tokens (members_outline (members_of (map attribute (map pair_of pairs.now))))) }
    ensures before { out.new.before ≡ out.old.before }
{
    for pair in pairs {
        out.key(pair.name)?;
        show_whole(pair.value, out)?;
    }
    Ok(())
}

/// Writes attributes as an object from names to values.
pub(crate) fn show_attributes(
    alloc: Global,
    schema: &Schema,
    attrs: &[(u8, i64)],
    out: &mut Writer,
) -> Result<(), AllocError>
    ensures ok { OnOk result (out.new.tokens
        ≡ out.old.tokens ++ json_tokens (outline (attributes schema.now attrs.now))) }
    ensures before { out.new.before ≡ out.old.before }
{
    let pairs = in_order(alloc, schema, attrs)?;
    out.begin_object()?;
    show_pairs(pairs.as_slice(), out)?;
    out.end_object()
}
