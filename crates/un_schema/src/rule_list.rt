//! The rules in force, and whether one of them allows what is asked.
//!
//! A rule names a terminal or, by 0, each. So what allows lines of a kind at a terminal is one of two rules: the one with this
//! terminal, and the one with 0. Two terminals make four rules, and eight where the two sides may be exchanged. Beside the list, in
//! the order in which the rules came and with their repeats, stands the set of its rules, and a question looks up two, four or eight
//! of them there: it takes the same time however many rules there are, and no memory.

ghost use Rattle.std.specs.Prelude.{◌≡◌, ◌↔◌, ◌∷◌, ◌++◌, [], length, position, IsTrue, IfOk};
ghost use Rattle.std.specs.List.{list_any};
ghost use Rattle.un_schema.specs.Rules.{edge, through, pair, content as has_content, attach};
ghost use Rattle.un_schema.specs.RuleTests.{same_rule};

use crate::rule::Rule;
use std::alloc::{AllocError, Global};
use std::collections::HashSet;
use std::marker::Model;

/// The rules in force, in order. A rule may stand there more than once. Contracts see the list.
#[derive(Drop)]
pub struct RuleList {
    list: Vec<Rule>,
    index: HashSet<Rule>,
}

impl Model for RuleList {
    ghost use Rattle.std.specs.Prelude.{◌≡◌, List};
    ghost use Rattle.std.specs.List.{list_any};
    ghost use Rattle.std.specs.HashSet.{contains};
    ghost use Rattle.un_schema.specs.declared.rule.Rule.{Rule};
    ghost use Rattle.un_schema.specs.RuleTests.{same_rule};

    ghost Value = { List Rule };

    ghost view = { λ r. r.list.items };

    ghost invariant = { λ r. (q : Rule) → contains same_rule r.index q ≡ list_any (same_rule q) r.list.items };
}

impl RuleList {
    /// These rules, in this order.
    pub fn new(alloc: Global, list: Vec<Rule>) -> Result<RuleList, AllocError>
        ensures { IfOk result (λ rules. rules ≡ list.items) }
    {
        let index: HashSet<Rule> = list.iter().copied().collect(alloc)?;
        Ok(RuleList { list, index })
    }

    /// These rules and one more at the end. The old list is as before.
    pub fn with(&self, alloc: Global, rule: Rule) -> Result<RuleList, AllocError>
        ensures { IfOk result (λ rules. rules ≡ self.now ++ rule ∷ []) }
    {
        let mut list = self.list.as_slice().to_vec(alloc)?;
        list.push(rule)?;
        RuleList::new(alloc, list)
    }

    /// How many rules there are, repeats among them.
    pub fn len(&self) -> usize
        ensures { result ≡ length self.now }
    {
        self.list.len()
    }

    /// Whether there is no rule.
    pub fn is_empty(&self) -> bool
        ensures { IsTrue result ↔ (self.now ≡ []) }
    {
        self.list.is_empty()
    }

    /// The least place of an equal rule.
    pub fn place(&self, rule: &Rule) -> Option<usize>
        ensures { result ≡ position (same_rule rule.now) self.now }
    {
        self.list.iter().position(|known| rule == known)
    }

    /// The rules, in order.
    pub fn as_slice(&self) -> &[Rule]
        ensures { result.now ≡ self.now }
    {
        self.list.as_slice()
    }

    /// Whether the rule is in force.
    pub fn has(&self, rule: Rule) -> bool
        ensures { result ≡ list_any (same_rule rule) self.now }
    {
        self.index.contains(&rule)
    }

    // Whether one of these rules is in force.
    fn has_any(&self, rules: &[Rule]) -> bool
        ensures { result ≡ list_any (λ rule. list_any (same_rule rule) self.now) rules.now }
    {
        rules.iter().any(|rule| self.has(*rule))
    }

    /// Whether lines of a kind may end at a terminal of a kind.
    #[tactic(auto, using(crate::proofs::RuleLookups::edge_by_rules))]
    pub fn allows_edge(&self, junction: u16, terminal: u8, line: u16) -> bool
        ensures { result ≡ edge self.now junction terminal line }
    {
        self.has_any(&[ending(junction, 0, line), ending(junction, terminal, line)])
    }

    /// Whether two kinds may be joined at two terminals.
    #[tactic(auto, using(crate::proofs::RuleLookups::pair_by_rules))]
    pub fn allows_pair(&self, a: (u16, u8), b: (u16, u8)) -> bool
        ensures { result ≡ pair self.now a b }
    {
        let (any_a, any_b) = ((a.0, 0), (b.0, 0));
        self.has_any(&[
            joining(a, b),
            joining(any_a, b),
            joining(a, any_b),
            joining(any_a, any_b),
            joining(b, a),
            joining(any_b, a),
            joining(b, any_a),
            joining(any_b, any_a),
        ])
    }

    /// Whether a container of a kind may have content of a kind.
    #[tactic(auto, using(crate::proofs::RuleLookups::content_by_rule))]
    pub fn allows_content(&self, container: u16, content: u16) -> bool
        ensures { result ≡ has_content self.now container content }
    {
        self.has(Rule::Containment { container, content })
    }

    /// Whether a feature of a kind may be attached to a structure of a kind.
    #[tactic(auto, using(crate::proofs::RuleLookups::attach_by_rule))]
    pub fn allows_attach(&self, structure: u16, content: u16) -> bool
        ensures { result ≡ attach self.now structure content }
    {
        self.has(Rule::Attachment { structure, content })
    }

    /// Whether lines of two kinds may meet at two terminals of a kind.
    #[tactic(auto, using(crate::proofs::RuleLookups::through_by_rules))]
    pub fn allows_through(&self, junction: u16, line: (u16, u8), other: (u16, u8)) -> bool
        ensures { result ≡ through self.now junction line other }
    {
        let (any_line, any_other) = ((line.0, 0), (other.0, 0));
        self.has_any(&[
            passing(junction, line, other),
            passing(junction, any_line, other),
            passing(junction, line, any_other),
            passing(junction, any_line, any_other),
            passing(junction, other, line),
            passing(junction, any_other, line),
            passing(junction, other, any_line),
            passing(junction, any_other, any_line),
        ])
    }
}

fn ending(junction: u16, terminal: u8, line: u16) -> Rule
    ensures { result ≡ Rule.JunctionEdge junction terminal line }
{
    Rule::JunctionEdge {
        junction,
        terminal,
        line,
    }
}

fn joining(first: (u16, u8), second: (u16, u8)) -> Rule
    ensures { result ≡ Rule.JunctionJunction first.0 first.1 second.0 second.1 }
{
    Rule::JunctionJunction {
        first: first.0,
        first_terminal: first.1,
        second: second.0,
        second_terminal: second.1,
    }
}

fn passing(junction: u16, line: (u16, u8), other: (u16, u8)) -> Rule
    ensures { result ≡ Rule.EdgeJunctionEdge line.0 line.1 junction other.0 other.1 }
{
    Rule::EdgeJunctionEdge {
        line: line.0,
        terminal: line.1,
        junction,
        other_line: other.0,
        other_terminal: other.1,
    }
}
