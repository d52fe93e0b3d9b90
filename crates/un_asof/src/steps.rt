//! The steps of some entries of a log, made again.
ghost use Rattle.std.specs.Prelude.{◌≡◌, ◌<◌, length, IfOk, None};
ghost use Rattle.std.proofs.Common.{inl};
ghost use Rattle.std.specs.Arc.{arc_value};
ghost use Rattle.un_machine.specs.Logs.{Leads};

use std::alloc::{AllocError, Global};
use std::sync::Arc;
use un_machine::{Applied, Entry, Machine};

// No hint, as a reference that could live as long as the entries.
fn no_hint<M: Machine>(_entries: &[Entry<M>]) -> Option<&M::Hint>
    ensures { result ≡ None }
{
    None
}

// The step of an entry's command at the state before the entry. `entries` is any list, since no hint is given.
fn step_again<M: Machine>(
    alloc: Global,
    state: &M,
    entry: &Entry<M>,
    entries: &[Entry<M>],
) -> Result<M, AllocError>
    requires { (m : M) × (M.step state.now entry.now.cmd ≡ inl (m, (entry.now.reply, entry.now.mark))) }
    ensures { IfOk result (λ m. M.step state.now entry.now.cmd ≡ inl (m, (entry.now.reply, entry.now.mark))) }
{
    match state.apply(alloc, &entry.cmd, no_hint(entries), entries)? {
        Applied::Done {
            next,
            reply: _,
            mark: _,
        } => Ok(next),
        Applied::Refused { reply: _ } => unreachable!(),
    }
}

/// The state to which these entries lead from this one. There is at least one entry, and the entries lead from the state
/// to some state, as those of a log do from the state before them.
pub fn replay<M: Machine>(
    alloc: Global,
    state: &M,
    entries: &[Entry<M>],
) -> Result<Arc<M>, AllocError>
    requires some { 0 < length entries.now }
    requires leads { (t : M) × Leads M.step state.now entries.now t }
    ensures { IfOk result (λ t. Leads M.step state.now entries.now (arc_value t)) }
{
    let first = &entries[0];
    let rest = &entries[1..];
    let mut reached = step_again(alloc, state, first, entries)?;
    for entry in rest {
        reached = step_again(alloc, &reached, entry, entries)?;
    }
    Ok(Arc::new(alloc, reached)?)
}
