//! Queries about the states of a machine, and work for its commands that can be done in advance.

use crate::request::Span;
use std::alloc::{AllocError, Global};
use std::thread::Threads;
use un_desk::span::Gathers;
use un_machine::Machine;

/// Queries about the states of a machine and their answers, and work for its commands that can be done in advance.
pub trait Answers<M: Machine> {
    ghost use Rattle.std.specs.Prelude.{◌≡◌, ℕ, [], IfOk, IfSome};
    ghost use Rattle.std.specs.Thread.{IsSync};
    ghost use Rattle.un_turns.specs.declared.request.Span.{Span as SpanModel};
    ghost use Rattle.un_turns.specs.Spans.{HasEntries};

    /// A question about a state. It may ask that the state comes after a number of entries of the log at least.
    type Query: Drop;

    /// What a query is answered.
    type Answer: Drop;

    // How many entries of the log a query asks for at least.
    ghost least: { Self.Query → ℕ };

    // The answer of a query at a state.
    ghost answer: { M → Self.Query → Self.Answer };

    /// How many entries of the log a query asks for at least.
    fn least(query: &Self::Query) -> u64
        ensures { result ≡ least query.now };

    /// The answer of a query at a state.
    fn answer(alloc: Global, state: &M, query: &Self::Query) -> Result<Self::Answer, AllocError>
        ensures { IfOk result (λ a. a ≡ answer state.now query.now) };

    /// What is gathered of the entries between two versions, by which the states at them are compared.
    type Gathered: Gathers<M>;

    // The answer of a query about two states.
    ghost between: { SpanModel → M → M → Self.Query → Self.Answer };

    /// Nothing gathered yet. It takes no memory.
    fn start_gathering(alloc: Global) -> Self::Gathered
        ensures { Self.Gathered.stands result [] };

    /// The answer of a query about two states, of which the first leads to the second by the entries of which it was
    /// gathered.
    fn compare(
        alloc: Global,
        span: Span,
        old: &M,
        new: &M,
        gathered: &Self::Gathered,
        query: &Self::Query,
    ) -> Result<Self::Answer, AllocError>
        requires { HasEntries M.step Self.Gathered.stands old.now new.now gathered.now }
        ensures { IfOk result (λ a. a ≡ between span old.now new.now query.now) };

    /// Whether work may be done in advance for the command.
    fn may_prepare(cmd: &M::Cmd) -> bool;

    /// Work for the command, done at a state on threads of the runtime, or `None` where there is none.
    fn prepare<R: Threads + Sync>(
        rt: &R,
        alloc: Global,
        state: &M,
        cmd: &M::Cmd,
    ) -> Result<Option<M::Hint>, AllocError>
        requires { IsSync R.row }
        ensures { IfOk result (λ hint. IfSome hint (λ h. M.prepared h state.now)) };
}
