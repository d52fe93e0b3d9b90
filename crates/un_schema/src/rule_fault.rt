ghost use Rattle.un_schema.specs.declared.rule_fault.RuleFault.TheVariants.{Memory};
ghost use Rattle.std.specs.Prelude.{◌≡◌};

use std::alloc::AllocError;
use thiserror::Error;

/// Why a rule was not added.
#[derive(Clone, Copy, Debug, PartialEq, Eq, Hash, Error)]
pub enum RuleFault {
    /// A terminal is not 0 and its kind has it not. The place is that of the first such in the rule as a list: after the word at 0
    /// come kinds and terminals in the order of the form.
    #[error("the terminal at place {place} is not there")]
    BadRuleTerminal { place: usize },
    /// An equal rule is in force, at this place among the rules.
    #[error("the rule at place {place} is equal")]
    RuleExists { place: usize },
    /// 4,096 rules are in force.
    #[error("no rule can be added")]
    Full,
    #[error("out of memory")]
    Memory,
}

impl From<AllocError> for RuleFault {
    ghost from_gives = { λ _ e. e ≡ Memory };

    fn from(_failed: AllocError) -> RuleFault {
        RuleFault::Memory
    }
}
