//! Views at two versions of one log, with what is gathered from the entries between them.
//!
//! To tell what changed between two versions, a caller needs both states, and something that says where to look: the
//! rows that the commands between them name, for example. Otherwise it would have to compare all that the two states
//! hold. What is gathered, and how, is up to the caller: a value that implements [`Gathers`] is given the entries in
//! their order, batch by batch.
//!
//! The view at the newer version comes first, by [`Desk::past`]. After that the session has seen at least as many
//! entries as this version says. The entries after the older version are then gathered in rounds. Each round locks the
//! journal, gathers at most 1,024 entries, and releases the lock, so that others need not wait long for it.
//!
//! Why that is enough: other threads may add entries between two rounds, but a log only grows at its end, so the entries
//! between the two versions are the same in each round. An entry is in the log only because its command was done at the
//! state before it. Since a step is a function of the state and the command, the entries lead from the older state to
//! one state only, and that is the state of the newer view.
//!
//! The cost is that of the newer view, and of gathering the entries between the two versions. Nothing depends on the
//! length of the log or on the size of a state.
ghost use Rattle.std.specs.Prelude.{◌≡◌, ◌≤◌, ◌<◌, ◌+◌, [], length, take, drop, IfOk, IfErr, OnOk};
ghost use mathlib.Core.List.{IsPrefix};
ghost use Rattle.std.specs.Arc.{arc_value};
ghost use Rattle.un_asof.specs.Pasts.{IsAfter, pair_of, StandsFor};
ghost use Rattle.un_desk.specs.Desks.{SeesMore, counted};
ghost use Rattle.un_desk.specs.Pasts.{IsPastFault};
ghost use Rattle.un_desk.specs.Spans.{IsGatheredTo, StandsForMore};

use crate::desk::Desk;
use crate::past::PastFault;
use std::alloc::{AllocError, Global};
use std::sync::Wait;
use un_asof::Past;
use un_asof::laws::stands_for_longer;
use un_machine::{Entry, Machine};
use un_publish::published::{BoardName, Published, Snapshot};
use un_publish::session::{Session, View};

/// The most entries that are gathered under one taking of the lock.
const ROUND: u64 = 1024;

/// Something that is gathered from the entries of a log, batch by batch.
pub trait Gathers<M: Machine>: Drop {
    ghost use Rattle.std.specs.Prelude.{List, OnOk};
    ghost use Rattle.un_machine.specs.declared.Entry.{Entry};
    ghost use Rattle.un_desk.specs.Spans.{StandsForMore};

    /// What has been gathered stands for these entries.
    ghost stands: { Self → List (Entry M M.Cmd M.Reply M.Hint M.Mark) → Type 0 };

    /// Gathers from the entries that follow. It fails only if memory runs out, and then nothing is known of what has been
    /// gathered.
    fn gather(&mut self, alloc: Global, entries: &[Entry<M>]) -> Result<(), AllocError>
        ensures { OnOk result (StandsForMore (stands self.old) (stands self.new) entries.now) };
}

impl<M: Machine, J: BoardName<M>> Desk<M, J>
where
    Published<M, J>: Snapshot<State = Published<M, J>>,
{
    /// The view at version `upto`, as `past` gives it, and in `gathered` what is gathered from the entries after version
    /// `since.version` up to it. `since` is the state after as many first entries of the log as its version says, and
    /// nothing has been gathered before. After an `Err` nothing is known of what has been gathered.
    ///
    /// It may wait, and it counts one wait. At most 1,024 entries are gathered under one taking of the lock. Each error
    /// comes as from `past`, and `Memory` also if the gathering runs out of memory.
    pub fn span<R: Wait, G: Gathers<M>>(
        &self,
        rt: &R,
        alloc: Global,
        session: &mut Session<M, J>,
        past: &mut Past<M, J>,
        since: &View<M>,
        upto: u64,
        gathered: &mut G,
    ) -> Result<View<M>, PastFault>
        requires stands { StandsFor M.step J.opening past.old session.old.seen }
        requires since { IsAfter M.step J.opening session.old.seen (pair_of since.now) }
        requires order { since.now.version ≤ upto }
        requires empty { G.stands gathered.old [] }
        ensures version { IfOk result (λ v. v.version ≡ upto) }
        ensures state { IfOk result (λ v.
            IsAfter M.step J.opening session.new.seen (upto, arc_value v.state)) }
        ensures between { IfOk result
            (IsGatheredTo M.step G.stands session.new.seen since.now upto gathered.new) }
        ensures kept { OnOk result (SeesMore (counted session.old) session.new) }
        ensures fault { IfErr result (IsPastFault (counted session.old) session.new upto) }
        ensures seen { IsPrefix session.old.seen session.new.seen }
        ensures stands { StandsFor M.step J.opening past.new session.new.seen }
    {
        stands_for_longer::<M, J>();
        let reached = self.past(rt, alloc, session, past, upto)?;
        let mut from = since.version;
        'rounds: while from < upto {
            let count = self.gather_on(rt, alloc, session, from, upto, gathered)?;
            from += count;
        }
        Ok(reached)
    }

    // Gathers from at most 1,024 entries after the first `from`, but not past the first `upto`, and returns how many.
    fn gather_on<R: Wait, G: Gathers<M>>(
        &self,
        rt: &R,
        alloc: Global,
        session: &mut Session<M, J>,
        from: u64,
        upto: u64,
        gathered: &mut G,
    ) -> Result<u64, PastFault>
        requires before { from < upto }
        requires within { upto ≤ length session.old.seen }
        ensures some { IfOk result (λ n. (0 < n) × (from + n ≤ upto)) }
        ensures gathered { IfOk result (λ n. StandsForMore (G.stands gathered.old) (G.stands gathered.new)
            (take n (drop from session.new.seen))) }
        ensures kept { OnOk result (SeesMore session.old session.new) }
        ensures fault { IfErr result (IsPastFault session.old session.new upto) }
        ensures seen { IsPrefix session.old.seen session.new.seen }
    {
        let mut journal = self.journal.lock(rt);
        if let Err(denied) = journal.teach(session) {
            return Err(PastFault::Denied(denied));
        }
        let rest = journal.entries(from);
        let count = (upto - from).min(ROUND);
        match gathered.gather(alloc, &rest[..count as usize]) {
            Ok(()) => Ok(count),
            Err(_) => Err(PastFault::Memory),
        }
    }
}
