//! Rules, by the schema's names.

ghost use Rattle.std.specs.Prelude.{◌≡◌, ◌∷◌, [], IsTrue, Some, None, IfOk, OnOk};
ghost use Rattle.un_defs.specs.Refusing.{first_refusal, Refuses};
ghost use Rattle.un_schema.specs.Catalog.{kind_named};
ghost use Rattle.un_schema.specs.Fits.{has_classes};
ghost use Rattle.un_resolve.specs.Rules.{both, no_kind, numbered, unknown_kind, naming_refusal};

use std::alloc::Global;
use un_ask::NamedRule;
use un_defs::Refusal;
use un_schema::{Name, Rule, Schema};

// The number of the kind with a name.
fn kind_of(alloc: Global, schema: &Schema, name: &Name) -> Result<u16, Refusal>
    ensures number { IfOk result (λ k. kind_named schema.now name.now ≡ Some k) }
    ensures good { OnOk result (no_kind schema.now name.now ≡ None) }
    ensures bad { Refuses result (no_kind schema.now name.now) }
{
    match schema.kind(name.text()) {
        Some(kind) => Ok(kind),
        None => Err(Refusal::NoSuchKind {
            kind: name.copy(alloc)?,
        }),
    }
}

// The numbers of two kinds, whose names are looked up one after the other.
fn both(alloc: Global, schema: &Schema, first: &Name, second: &Name) -> Result<(u16, u16), Refusal>
    ensures numbers { IfOk result (λ k. both schema.now first.now second.now ≡ Some k) }
    ensures good { OnOk result
        (first_refusal (no_kind schema.now first.now ∷ no_kind schema.now second.now ∷ []) ≡ None) }
    ensures bad { Refuses result (first_refusal (no_kind schema.now first.now ∷ no_kind schema.now second.now ∷ [])) }
{
    let first = kind_of(alloc, schema, first)?;
    let second = kind_of(alloc, schema, second)?;
    Ok((first, second))
}

// The rule with its kinds by number.
fn numbered(alloc: Global, schema: &Schema, rule: &NamedRule) -> Result<Rule, Refusal>
    ensures numbers { IfOk result (λ r. numbered schema.now rule.now ≡ Some r) }
    ensures good { OnOk result (unknown_kind schema.now rule.now ≡ None) }
    ensures bad { Refuses result (unknown_kind schema.now rule.now) }
{
    match rule {
        NamedRule::JunctionEdge {
            junction,
            terminal,
            line,
        } => {
            let (junction, line) = both(alloc, schema, junction, line)?;
            Ok(Rule::JunctionEdge {
                junction,
                terminal: *terminal,
                line,
            })
        }
        NamedRule::JunctionJunction {
            first,
            first_terminal,
            second,
            second_terminal,
        } => {
            let (first, second) = both(alloc, schema, first, second)?;
            Ok(Rule::JunctionJunction {
                first,
                first_terminal: *first_terminal,
                second,
                second_terminal: *second_terminal,
            })
        }
        NamedRule::Containment { container, content } => {
            let (container, content) = both(alloc, schema, container, content)?;
            Ok(Rule::Containment { container, content })
        }
        NamedRule::Attachment { structure, content } => {
            let (structure, content) = both(alloc, schema, structure, content)?;
            Ok(Rule::Attachment { structure, content })
        }
        NamedRule::EdgeJunctionEdge {
            line,
            terminal,
            junction,
            other_line,
            other_terminal,
        } => {
            let line = kind_of(alloc, schema, line)?;
            let (junction, other_line) = both(alloc, schema, junction, other_line)?;
            Ok(Rule::EdgeJunctionEdge {
                line,
                terminal: *terminal,
                junction,
                other_line,
                other_terminal: *other_terminal,
            })
        }
    }
}

/// The rule with its kinds by number.
///
/// It is refused by `NoSuchKind` for the first name in the rule's list that no kind has, and by `WrongKind` where a kind has another class than
/// the form of the rule needs.
pub fn resolve_rule(alloc: Global, schema: &Schema, rule: &NamedRule) -> Result<Rule, Refusal>
    ensures numbers { IfOk result (λ r. numbered schema.now rule.now ≡ Some r) }
    ensures classes { IfOk result (λ r. IsTrue (has_classes schema.now r)) }
    ensures good { OnOk result (naming_refusal schema.now rule.now ≡ None) }
    ensures bad { Refuses result (naming_refusal schema.now rule.now) }
{
    let rule = numbered(alloc, schema, rule)?;
    if !schema.has_classes(&rule) {
        return Err(Refusal::WrongKind);
    }
    Ok(rule)
}
