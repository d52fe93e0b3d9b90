//! Rules.
ghost use Rattle.std.specs.Prelude.{◌≡◌, IfOk};
ghost use Rattle.un_schema_json.specs.Parts.{raw_rule};

use serde_json::Value;
use std::alloc::{AllocError, Global};
use un_ask::NamedRule;
use un_conds::Text;
use un_json::form::Form;
use un_json::rule::RuleForm;
use un_schema::{Name, RawRule};

/// A rule in one of the five forms.
pub(crate) struct RawRuleForm;

impl Form for RawRuleForm {
    ghost use Rattle.un_schema_json.specs.Parts.{rule_of};

    type Out = RawRule;

    ghost form = { rule_of };

    fn read(alloc: Global, value: &Value) -> Result<Option<RawRule>, AllocError> {
        match RuleForm::read(alloc, value)? {
            Some(rule) => Ok(Some(raw_rule(alloc, &rule)?)),
            None => Ok(None),
        }
    }
}

fn text_of(alloc: Global, name: &Name) -> Result<Text, AllocError>
    ensures { IfOk result (λ text. text ≡ name.now) }
{
    Ok(Text::new(String::from_str(alloc, name.text())?))
}

/// The rule as a schema gives it.
fn raw_rule(alloc: Global, rule: &NamedRule) -> Result<RawRule, AllocError>
    ensures { IfOk result (λ raw. raw ≡ raw_rule rule.now) }
{
    match rule {
        NamedRule::JunctionEdge {
            junction,
            terminal,
            line,
        } => Ok(RawRule::JunctionEdge {
            junction: text_of(alloc, junction)?,
            terminal: *terminal,
            line: text_of(alloc, line)?,
        }),
        NamedRule::JunctionJunction {
            first,
            first_terminal,
            second,
            second_terminal,
        } => Ok(RawRule::JunctionJunction {
            first: text_of(alloc, first)?,
            first_terminal: *first_terminal,
            second: text_of(alloc, second)?,
            second_terminal: *second_terminal,
        }),
        NamedRule::Containment { container, content } => Ok(RawRule::Containment {
            container: text_of(alloc, container)?,
            content: text_of(alloc, content)?,
        }),
        NamedRule::Attachment { structure, content } => Ok(RawRule::Attachment {
            structure: text_of(alloc, structure)?,
            content: text_of(alloc, content)?,
        }),
        NamedRule::EdgeJunctionEdge {
            line,
            terminal,
            junction,
            other_line,
            other_terminal,
        } => Ok(RawRule::EdgeJunctionEdge {
            line: text_of(alloc, line)?,
            terminal: *terminal,
            junction: text_of(alloc, junction)?,
            other_line: text_of(alloc, other_line)?,
            other_terminal: *other_terminal,
        }),
    }
}
