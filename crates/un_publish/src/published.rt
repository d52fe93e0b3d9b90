//! What readers find at a board, and the rule that every step at the board keeps.
//!
//! A board has one published value: a state, with the prefix of the log that leads to it. Each place at the board, the
//! writer's or a reader's, knows two prefixes of the log: what it has seen, and what it was told. The rule says that
//! the published log begins with both, for every place at once. There are five kinds of step, and each of them keeps
//! the rule:
//!
//! | Step | What changes |
//! |---|---|
//! | a reader's place is made | one more place, which knows nothing |
//! | the writer publishes | the published log grows, and the writer has seen it |
//! | a reader enters | the reader has seen the published log, which begins with all that it knew |
//! | the writer tells | nothing: it hands over what it has seen |
//! | a reader learns | it was told what is handed over, so the next time it enters it finds no less |
//!
//! So whatever threads do between two steps of a session, what it sees never goes back, and never falls behind what it
//! was told. The rule speaks of states and entries as contracts see them, so it is proved once for every machine.
ghost use Rattle.std.specs.Prelude.{◌≡◌, IfOk};
ghost use Rattle.std.specs.Arc.{arc_value};
ghost use Rattle.un_machine.specs.Logs.{Reaches};

use crate::prefix::{LogName, Prefix};
use atomic_table::{Join, Split};
use crossbeam_utils::rule::{Outcome, Protocol};
use left_right::Absorb;
use std::alloc::AllocError;
use std::collections::LinkedList;
use std::marker::{Brand, Model};
use std::sync::Arc;
use un_machine::{Entry, Machine};

/// The name of one board: its log, and the list of the one state at its opening. As with a log's name, a program or a
/// test picks it at the one call that passes `Brand`.
pub trait BoardName<M>: LogName {
    ghost use Rattle.std.specs.Prelude.{List};

    ghost opening: { List M };
}

impl<M> BoardName<M> for Brand {
    ghost use Rattle.std.specs.Prelude.{[]};

    ghost opening = { [] };
}

/// A state, and the prefix of the log that leads to it. Contracts see the two.
#[derive(Drop)]
pub struct Published<M: Machine, J: BoardName<M>> {
    state: Arc<M>,
    prefix: Prefix<Entry<M>, J>,
}

impl<M: Machine, J: BoardName<M>> Model for Published<M, J> {
    ghost use Rattle.std.specs.Prelude.{List};
    ghost use Rattle.std.specs.Arc.{arc_value};
    ghost use Rattle.un_machine.specs.declared.Entry.{Entry};
    ghost use Rattle.un_machine.specs.Logs.{Reaches};

    ghost Value = { M × List (Entry M M.Cmd M.Reply M.Hint M.Mark) };

    ghost view = { λ s. (arc_value s.state, s.prefix) };

    ghost invariant = { λ s. Reaches M.step J.opening s.prefix (arc_value s.state) };
}

impl<M: Machine, J: BoardName<M>> Published<M, J> {
    pub(crate) fn new(state: Arc<M>, prefix: Prefix<Entry<M>, J>) -> Published<M, J>
        requires { Reaches M.step J.opening prefix (arc_value state) }
        ensures { result ≡ (arc_value state, prefix) }
    {
        Published { state, prefix }
    }

    /// The state, shared.
    pub(crate) fn state(&self) -> Result<Arc<M>, AllocError>
        ensures { IfOk result (λ s. arc_value s ≡ self.now.0) }
    {
        Arc::try_clone(&self.state)
    }

    /// The log that leads to the state, shared.
    pub(crate) fn prefix(&self) -> Prefix<Entry<M>, J>
        ensures prefix { result ≡ self.now.1 }
        ensures reaches { Reaches M.step J.opening self.now.1 self.now.0 }
    {
        self.prefix.copy()
    }

    /// A copy, which shares the state and the log.
    pub(crate) fn copy(&self) -> Result<Published<M, J>, AllocError>
        ensures { IfOk result (λ s. s ≡ self.now) }
    {
        Ok(Published {
            state: Arc::try_clone(&self.state)?,
            prefix: self.prefix.copy(),
        })
    }
}

impl<M: Machine, J: BoardName<M>> Absorb<Published<M, J>> for Published<M, J> {
    type State = Published<M, J>;

    ghost state = { λ s. s };

    // the last value handed over counts, so one that was left over does no harm
    ghost applied = { λ s o. o };

    fn absorb_first(
        &mut self,
        operation: &Published<M, J>,
        _other: &Published<M, J>,
    ) -> Result<(), AllocError> {
        self.state = Arc::try_clone(&operation.state)?;
        self.prefix = operation.prefix.copy();
        Ok(())
    }
}

/// What a place at the board knows. It exists in the proofs alone.
pub struct Known<M: Machine> {
    /// The log as it was published when this place last entered or published.
    pub seen: LinkedList<Entry<M>>,
    /// The log as the writer had seen it when this place last learned.
    pub told: LinkedList<Entry<M>>,
}

/// The rule of a board: the published log begins with all that each place knows.
pub struct BoardRule;

impl<M: Machine, J: BoardName<M>> Protocol<Published<M, J>, Known<M>> for BoardRule {
    ghost use Rattle.un_publish.specs.Rule.{Keeps, newcomer};

    ghost holds = { λ x views. Keeps x views };

    ghost first = { newcomer };
}

/// The outcome of entering and of publishing: the log that is then published was seen, and begins with all that was known.
pub struct Looks;

impl<M: Machine, J: BoardName<M>> Outcome<Published<M, J>, Known<M>> for Looks {
    ghost use Rattle.un_publish.specs.Rule.{Sees};

    ghost then = { λ v x y w. Sees v y w };
}

/// The writer tells what it has seen, and a reader learns it.
pub struct Notes;

impl<M: Machine> Split<Known<M>> for Notes {
    ghost left = { λ v. v };

    ghost right = { λ v. v };
}

impl<M: Machine> Join<Known<M>> for Notes {
    ghost use Rattle.un_publish.specs.Rule.{informed, newcomer};

    ghost both = { informed };

    ghost spent = { newcomer };
}

/// A value that is published whole: of several that were handed over only the last one counts, and values that differ
/// have different states.
pub trait Snapshot: Absorb<Self> + Sized + Drop {
    ghost use Rattle.std.specs.Prelude.{◌≡◌};

    ghost last_counts: { (s : Self.State) (o : Self) → Self.applied s o ≡ Self.state o };

    ghost tells_apart: { (x y : Self) → Self.state x ≡ Self.state y → x ≡ y };
}

impl<M: Machine, J: BoardName<M>> Snapshot for Published<M, J> {
    ghost use Rattle.std.specs.Prelude.{refl};

    ghost last_counts = { λ s o. refl };

    ghost tells_apart = { λ x y e. e };
}
