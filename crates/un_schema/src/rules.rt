//! The rules of a schema, looked up over its kinds.

ghost use Rattle.std.specs.Prelude.{◌≡◌, ◌≤◌, true, false, length, All, IsTrue, IfOk, OnOk, IsErrOf, is_some};
ghost use Rattle.std.specs.List.{list_all, filter_map};
ghost use Rattle.un_schema.specs.Fits.{fits};
ghost use Rattle.un_schema.specs.Lists.{items_of, has};
ghost use Rattle.un_schema.specs.Raw.{both, numbered, is_allowed, rule_from, are_rules};

use crate::items::Items;
use crate::raw::{Format, RawRule};
use crate::rule::Rule;
use crate::rule_list::RuleList;
use crate::schema::Schema;
use crate::schema_fault::MemberFault;
use std::alloc::{AllocError, Global};
use un_conds::Text;

fn both(schema: &Schema, first: &Text, second: &Text) -> Option<(u16, u16)>
    ensures { result ≡ both schema.now first.now second.now }
{
    let first = schema.kind(first.as_str())?;
    let second = schema.kind(second.as_str())?;
    Some((first, second))
}

fn numbered(schema: &Schema, raw: &RawRule) -> Option<Rule>
    ensures { result ≡ numbered schema.now raw.now }
{
    match raw {
        RawRule::JunctionEdge {
            junction,
            terminal,
            line,
        } => {
            let (junction, line) = both(schema, junction, line)?;
            Some(Rule::JunctionEdge {
                junction,
                terminal: *terminal,
                line,
            })
        }
        RawRule::JunctionJunction {
            first,
            first_terminal,
            second,
            second_terminal,
        } => {
            let (first, second) = both(schema, first, second)?;
            Some(Rule::JunctionJunction {
                first,
                first_terminal: *first_terminal,
                second,
                second_terminal: *second_terminal,
            })
        }
        RawRule::Containment { container, content } => {
            let (container, content) = both(schema, container, content)?;
            Some(Rule::Containment { container, content })
        }
        RawRule::Attachment { structure, content } => {
            let (structure, content) = both(schema, structure, content)?;
            Some(Rule::Attachment { structure, content })
        }
        RawRule::EdgeJunctionEdge {
            line,
            terminal,
            junction,
            other_line,
            other_terminal,
        } => {
            let line = schema.kind(line.as_str())?;
            let (junction, other_line) = both(schema, junction, other_line)?;
            Some(Rule::EdgeJunctionEdge {
                line,
                terminal: *terminal,
                junction,
                other_line,
                other_terminal: *other_terminal,
            })
        }
    }
}

fn is_allowed(format: Format, raw: &RawRule) -> bool
    ensures { result ≡ is_allowed format raw.now }
{
    match raw {
        RawRule::EdgeJunctionEdge { .. } => matches!(format, Format::Two),
        _ => true,
    }
}

fn fits(schema: &Schema, rule: &Rule) -> bool
    ensures { result ≡ fits schema.now rule.now }
{
    schema.has_classes(rule) && schema.bad_terminal(rule).is_none()
}

// The rule by numbers, if it may stand over the kinds of the schema.
fn rule_from(schema: &Schema, format: Format, raw: &RawRule) -> Option<Rule>
    ensures { result ≡ rule_from format schema.now raw.now }
{
    if !is_allowed(format, raw) {
        return None;
    }
    let rule = numbered(schema, raw)?;
    if fits(schema, &rule) {
        Some(rule)
    } else {
        None
    }
}

fn own_rules(
    alloc: Global,
    schema: &Schema,
    format: Format,
    raws: &[RawRule],
) -> Result<Vec<Rule>, MemberFault>
    ensures ok { IfOk result (λ rules. rules.items ≡ filter_map (rule_from format schema.now) raws.now) }
    ensures good { OnOk result (list_all (λ raw. is_some (rule_from format schema.now raw)) raws.now ≡ true) }
    ensures bad { IsErrOf result MemberFault.Bad
        → list_all (λ raw. is_some (rule_from format schema.now raw)) raws.now ≡ false }
{
    let mut rules = Vec::with_capacity(alloc, raws.len())?;
    for raw in raws {
        match rule_from(schema, format, raw) {
            Some(rule) => rules.push(rule)?,
            None => return Err(MemberFault::Bad),
        }
    }
    Ok(rules)
}

fn fitting(
    alloc: Global,
    schema: &Schema,
    format: Format,
    raws: &[RawRule],
    rules: Vec<Rule>,
) -> Result<RuleList, AllocError>
    requires made { rules.items ≡ filter_map (rule_from format schema.now) raws.now }
    requires few { length raws.now ≤ 4096 }
    ensures ok { IfOk result (λ rules. rules ≡ filter_map (rule_from format schema.now) raws.now) }
    ensures few { IfOk result (λ rules. length rules ≤ 4096) }
    ensures fit { IfOk result (λ rules. All (λ rule. IsTrue (fits schema.now rule)) rules) }
{
    let list = RuleList::new(alloc, rules)?;
    Ok(list)
}

/// At most 4,096 rules over the kinds of the schema.
pub(crate) fn rule_list(
    alloc: Global,
    schema: &Schema,
    format: Format,
    member: &Option<Items<RawRule>>,
) -> Result<RuleList, MemberFault>
    ensures ok { IfOk result (λ rules. rules
        ≡ filter_map (rule_from format schema.now) (items_of member.now)) }
    ensures few { IfOk result (λ rules. length rules ≤ 4096) }
    ensures fit { IfOk result (λ rules. All (λ rule. IsTrue (fits schema.now rule)) rules) }
    ensures good { OnOk result (has (are_rules format schema.now) member.now ≡ true) }
    ensures bad { IsErrOf result MemberFault.Bad → has (are_rules format schema.now) member.now ≡ false }
{
    let Some(raws) = member else {
        return Err(MemberFault::Bad);
    };
    let raws = raws.as_slice();
    if raws.len() > 4096 {
        return Err(MemberFault::Bad);
    }
    let rules = own_rules(alloc, schema, format, raws)?;
    Ok(fitting(alloc, schema, format, raws, rules)?)
}
