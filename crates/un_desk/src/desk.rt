//! The desk: what threads share. Edits are serialized by one lock, and reads need no lock.
//!
//! Each call of a desk locks the journal, so it may wait, and it counts one wait for each session that it is given.
//! Reading needs no desk: a session reads by itself, without the lock. A clause can't name what the lock protects,
//! since other threads change it before and after the call. But a journal's type says that its log is legal and leads
//! to its state, and a session holds a prefix of that one log. So a clause says that there is a journal whose legal log
//! begins with all that the session had seen, and for which the answer is right.
ghost use Rattle.std.specs.Prelude.{◌≡◌, ◌⊎◌, ◌≤◌, ◌<◌, ◌∷◌, [], length, IfOk, IfErr, OnOk, OnErr};
ghost use mathlib.Core.List.{IsPrefix};
ghost use Rattle.std.specs.Arc.{arc_value};
ghost use Rattle.un_machine.specs.Logs.{Reaches};
ghost use Rattle.un_publish.specs.Models.{AreFresh};
ghost use Rattle.un_journal.specs.Books.{IsPrepared};
ghost use Rattle.un_desk.specs.Desks.{IsDeskFault, IsMeetFault, IsSubmitted, SeesMore, counted};
ghost use Rattle.un_desk.specs.Views.{IsViewFault};

use crate::past::Opening;
use core::mem::ManuallyDrop;
use std::alloc::{AllocError, Global};
use std::sync::{Arc, Mutex, Wait};
use un_journal::journal::Journal;
use un_journal::receipt::{Ahead, Receipt};
use un_machine::{Entry, Machine};
use un_publish::board::Board;
use un_publish::prefix::NewLog;
use un_publish::published::{BoardName, Published, Snapshot};
use un_publish::session::{Denied, Session, SessionFault, View};

/// A journal that threads share. It is not `Drop`: end it by `close`.
pub struct Desk<M: Machine, J: BoardName<M>>
where
    Published<M, J>: Snapshot<State = Published<M, J>>,
{
    pub(crate) journal: Mutex<ManuallyDrop<Journal<M, J>>>,
    pub(crate) opening: Opening<M, J>,
}

/// Why a call returns no view.
#[derive(Drop)]
pub enum ViewFault {
    /// The log has fewer entries than were asked for. The session has then seen all of them.
    Ahead(Ahead),
    /// The session could not be taught: `NoCopy` or `Long`.
    Denied(Denied),
    Memory,
}

impl<M: Machine, J: BoardName<M>> Desk<M, J>
where
    Published<M, J>: Snapshot<State = Published<M, J>>,
{
    /// A desk with an empty log, and this many sessions at it, numbered from 0. It waits for readers.
    pub fn open<R: Wait>(
        rt: &R,
        alloc: Global,
        new_log: NewLog<Entry<M>>,
        state: M,
        sessions: u32,
    ) -> Result<(Desk<M, J>, Vec<Session<M, J>>), AllocError>
        requires count { (0 < sessions) × (sessions ≤ 64) }
        requires book { new_log.seen.book ≡ J.book }
        requires opening { J.opening ≡ state ∷ [] }
        ensures { IfOk result (λ r. AreFresh sessions r.1.items) }
    {
        let Ok(state) = Arc::new(alloc, state) else {
            return Err(AllocError);
        };
        let (Ok(other), Ok(first)) = (Arc::try_clone(&state), Arc::try_clone(&state)) else {
            return Err(AllocError);
        };
        let opening = Opening::new(first);
        let (board, all) = Board::<M, J>::open(rt, alloc, new_log, other, sessions)?;
        match Journal::<M, J>::open(alloc, board, state) {
            Ok(journal) => {
                // A journal can't be dropped, so `close` takes it out and closes it.
                let journal = unsafe { ManuallyDrop::new_unchecked(journal) };
                let desk = Desk {
                    journal: Mutex::new(journal),
                    opening,
                };
                Ok((desk, all))
            }
            Err((_, board)) => {
                board.close(rt);
                Err(AllocError)
            }
        }
    }

    /// Decides a command at the end of the log, and adds it to the log if the machine's step is done. Either way the session
    /// has then seen the whole log. On `Memory` and `Denied` nothing was committed, and the session may have seen more.
    pub fn submit<R: Wait>(
        &self,
        rt: &R,
        alloc: Global,
        session: &mut Session<M, J>,
        cmd: M::Cmd,
    ) -> Result<Receipt<M>, SessionFault>
        ensures receipt { IfOk result (IsSubmitted M.step J.opening session.old session.new cmd) }
        ensures fault { IfErr result (IsDeskFault (counted session.old) session.new) }
        ensures seen { IsPrefix session.old.seen session.new.seen }
    {
        session.count_wait();
        let mut journal = self.journal.lock(rt);
        journal.commit(rt, alloc, session, cmd, None)
    }

    /// The same, with a hint: work for this command that was done in advance, at a state that the session has seen.
    pub fn submit_prepared<R: Wait>(
        &self,
        rt: &R,
        alloc: Global,
        session: &mut Session<M, J>,
        cmd: M::Cmd,
        hint: M::Hint,
    ) -> Result<Receipt<M>, SessionFault>
        requires { IsPrepared M.step M.prepared M.place J.opening session.old.seen hint }
        ensures receipt { IfOk result (IsSubmitted M.step J.opening session.old session.new cmd) }
        ensures fault { IfErr result (IsDeskFault (counted session.old) session.new) }
        ensures seen { IsPrefix session.old.seen session.new.seen }
    {
        session.count_wait();
        let mut journal = self.journal.lock(rt);
        if let Err(denied) = journal.teach(session) {
            return Err(SessionFault::Denied(denied));
        }
        journal.commit(rt, alloc, session, cmd, Some(hint))
    }

    /// Lets both sessions see the whole log at the same moment. It allocates nothing. `Denied` is `NoCopy` or `Long`.
    pub fn meet<R: Wait>(
        &self,
        rt: &R,
        a: &mut Session<M, J>,
        b: &mut Session<M, J>,
    ) -> Result<(), Denied>
        ensures same { OnOk result (a.new.seen ≡ b.new.seen) }
        ensures one { OnOk result (SeesMore (counted a.old) a.new) }
        ensures other { OnOk result (SeesMore (counted b.old) b.new) }
        ensures denied { IfErr result (IsMeetFault (counted a.old) a.new (counted b.old) b.new) }
        ensures seen { IsPrefix a.old.seen a.new.seen }
        ensures seen_by_other { IsPrefix b.old.seen b.new.seen }
    {
        a.count_wait();
        b.count_wait();
        let mut journal = self.journal.lock(rt);
        journal.teach(a)?;
        journal.teach(b)
    }

    /// A view after the whole log, if that has at least `seen` entries; the session has then seen all of it. It returns `Ahead`
    /// if the log has fewer.
    pub fn read_at_least<R: Wait>(
        &self,
        rt: &R,
        session: &mut Session<M, J>,
        seen: u64,
    ) -> Result<View<M>, ViewFault>
        ensures version { IfOk result (λ v. (v.version ≡ length session.new.seen) × (seen ≤ v.version)) }
        ensures state { IfOk result (λ v. Reaches M.step J.opening session.new.seen (arc_value v.state)) }
        ensures kept { OnOk result (SeesMore (counted session.old) session.new) }
        ensures fault { IfErr result (IsViewFault (counted session.old) session.new seen) }
        ensures seen { IsPrefix session.old.seen session.new.seen }
    {
        session.count_wait();
        let mut journal = self.journal.lock(rt);
        if let Err(denied) = journal.teach(session) {
            return Err(ViewFault::Denied(denied));
        }
        if let Err(ahead) = journal.check_seen(seen) {
            return Err(ViewFault::Ahead(ahead));
        }
        match journal.view() {
            Ok(view) => Ok(view),
            Err(_) => Err(ViewFault::Memory),
        }
    }

    /// Ends the desk. It waits for readers. Views and sessions may be kept.
    pub fn close<R: Wait>(self, rt: &R) {
        let Desk {
            journal,
            opening: _,
        } = self;
        ManuallyDrop::into_inner(journal.into_inner()).close(rt);
    }
}
