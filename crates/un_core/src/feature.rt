//! A feature as a query tells it.
ghost use Rattle.std.specs.Prelude.{◌≡◌, ◌<◌, length, map, Some, IfOk, IfSome};
ghost use Rattle.un_schema.specs.Catalog.{path_names};
ghost use Rattle.un_core.specs.Feature.{with_name, named, path_name, feature_of_row};
ghost use Rattle.un_facts.specs.Attributes.{HasAttributes, HasNames};
ghost use Rattle.un_core.specs.Named.{pair_of};
ghost use Rattle.un_core.specs.Answers.{feature_reply};

use crate::net::Net;
use std::alloc::{AllocError, Global};
use std::collections::BTreeSet;
use un_ask::{FeatureReply, Points, Reply};
use un_defs::{NamedAttrs, Refusal, Row};
use un_schema::{Name, Schema};

/// An attribute with its name, by which it compares.
#[derive(Clone, Copy)]
#[derive_where(PartialEq, Eq, PartialOrd, Ord)]
struct NamedValue<'a> {
    name: &'a str,
    #[derive_where(skip(EqHashOrd))]
    value: i64,
}

/// An attribute with its name.
fn with_name<'a>(schema: &'a Schema, pair: &(u8, i64)) -> NamedValue<'a>
    requires { pair.now.0 < length schema.now.attributes }
    ensures { Some (pair_of result) ≡ with_name schema.now pair.now }
{
    let value = pair.1;
    NamedValue {
        name: schema.attribute_name(pair.0),
        value,
    }
}

/// The attributes with their names, in byte order of these.
fn in_order<'a>(
    alloc: Global,
    schema: &'a Schema,
    attrs: &[(u8, i64)],
) -> Result<Vec<NamedValue<'a>>, AllocError>
    requires { HasAttributes schema.now attrs.now }
    ensures { IfOk result (λ all. map pair_of all.items ≡ named schema.now attrs.now) }
{
    let mut set = BTreeSet::new(alloc);
    let count = attrs.len();
    for done in 0..count {
        set.insert(with_name(schema, &attrs[count - 1 - done]))?;
    }
    let all: Vec<_> = set.into_iter().collect(alloc)?;
    Ok(all)
}

/// The name with this text of a schema. It is one, but the schema's look-ups do not say so.
fn name_of(alloc: Global, text: &str) -> Result<Name, AllocError>
    ensures { IfOk result (λ name. name ≡ text.now) }
{
    match Name::new(String::from_str(alloc, text)?) {
        Some(name) => Ok(name),
        None => Err(AllocError),
    }
}

/// The pairs of name and value, in the same order.
fn pairs_of(alloc: Global, all: &[NamedValue<'_>]) -> Result<Vec<(Name, i64)>, AllocError>
    ensures { IfOk result (λ pairs. pairs.items ≡ map pair_of all.now) }
{
    let mut pairs = Vec::with_capacity(alloc, all.len())?;
    for named in all {
        pairs.push((name_of(alloc, named.name)?, named.value))?;
    }
    Ok(pairs)
}

/// The attributes by name.
fn named_attrs(
    alloc: Global,
    schema: &Schema,
    attrs: &[(u8, i64)],
) -> Result<NamedAttrs, AllocError>
    requires { HasAttributes schema.now attrs.now }
    ensures { IfOk result (λ given. given ≡ named schema.now attrs.now) }
{
    let all = in_order(alloc, schema, attrs)?;
    let pairs = pairs_of(alloc, all.as_slice())?;
    Ok(NamedAttrs::new(pairs))
}

/// The name of the row's current path, if it has one.
fn path_name(alloc: Global, schema: &Schema, row: &Row) -> Result<Option<Name>, AllocError>
    requires { IfSome row.now.path (λ path. path < length (path_names schema.now row.now.kind)) }
    ensures { IfOk result (λ name. name ≡ path_name schema.now row.now) }
{
    match row.path {
        Some(path) => Ok(Some(name_of(alloc, schema.path_name(row.kind, path))?)),
        None => Ok(None),
    }
}

/// The row as it stands.
fn feature_of_row(alloc: Global, schema: &Schema, row: &Row) -> Result<FeatureReply, AllocError>
    requires { HasNames schema.now row.now }
    ensures { IfOk result (λ feature. feature ≡ feature_of_row schema.now row.now) }
{
    Ok(FeatureReply {
        attrs: named_attrs(alloc, schema, row.attrs.pairs())?,
        base: row.moment,
        ends: row.ends,
        flow: row.flow,
        id: row.id,
        kind: schema.kind_at(row.kind).name.copy(alloc)?,
        note: row.note.copy(alloc)?,
        path: path_name(alloc, schema, row)?,
        points: Points::new(row.shape.points().to_vec(alloc)?),
    })
}

impl Net {
    /// The feature with the id as it stands, or the refusal where none is live.
    pub(crate) fn feature(&self, alloc: Global, id: u64) -> Result<Reply, AllocError>
        ensures { IfOk result (λ reply. reply ≡ feature_reply self.now id) }
    {
        // For the proof alone.
        let _rules = self.facts.setup().schema.rules();
        let Some(row) = self.facts.row(id) else {
            return Ok(self.refused(Refusal::NoSuchFeature { id }));
        };
        Ok(Reply::Feature {
            feature: feature_of_row(alloc, &self.facts.setup().schema, row)?,
            version: self.version,
        })
    }
}
