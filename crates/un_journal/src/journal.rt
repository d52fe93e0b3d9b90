//! The journal: the one value behind the lock, which decides commands one after another.
//!
//! A commit has to give each command one place in one log, return to its session the reply of the step at that place,
//! and leave everything unchanged if it fails. The journal keeps the entries, the last state, and for each session
//! the book, which is the number of the session's entries. A commit goes in this order:
//!
//! 1. it compares the session's book with the number of entries that the session counts as its own;
//! 2. it lets the session learn the whole log;
//! 3. it asks the machine for its step at the last state;
//! 4. if the step is done, it allocates all the memory that the rest needs, adds the entry, and publishes the next state;
//! 5. it records the entry and the book, and lets the session learn the new log.
//!
//! Publishing is the last step that can fail, so a failed commit has changed nothing but what the session has seen. The
//! book is there because the log alone doesn't say which of its entries a session knows as its own: if the two numbers
//! agree, the log has no entry of this session that the session doesn't know of.
//!
//! A commit costs the machine's step and a few atomic operations, however long the log is. It waits for readers of the
//! copy that it replaces.
ghost use Rattle.std.specs.Prelude.{◌≡◌, ◌⊎◌, ◌+◌, ◌≤◌, ◌<◌, ◌++◌, ◌∷◌, [], true, false, length, drop, IfOk, IfErr, IfSome, OnOk, OnErr};
ghost use Rattle.std.proofs.Common.{inl};
ghost use Rattle.std.specs.Arc.{arc_value};
ghost use mathlib.Core.List.{IsPrefix};
ghost use Rattle.un_machine.specs.Logs.{answer_of, entries_of, Reaches};
ghost use Rattle.un_publish.specs.Faults.{IsTeachFault};
ghost use Rattle.un_publish.specs.Models.{with_own_entry};
ghost use Rattle.un_journal.specs.Books.{IsAhead, IsPrepared, entry};
ghost use Rattle.un_journal.specs.Commits.{IsCommitDenial, IsCommitFault, IsReceipt};

use crate::receipt::{Ahead, Receipt};
use std::alloc::{AllocError, Global};
use std::marker::Model;
use std::sync::{Arc, Wait};
use un_machine::{Applied, Entry, Machine};
use un_publish::board::Board;
use un_publish::published::{BoardName, Published, Snapshot};
use un_publish::session::{Denied, Session, SessionFault, View};

/// How many sessions a board may have.
const SESSIONS: usize = 64;

/// A log that is kept, with its last state and the book of each session. Contracts see the log and the state. It is not
/// `Drop`: end it by `close`.
pub struct Journal<M: Machine, J: BoardName<M>>
where
    Published<M, J>: Snapshot<State = Published<M, J>>,
{
    board: Board<M, J>,
    state: Arc<M>,
    entries: Vec<Entry<M>>,
    books: Vec<u64>,
}

impl<M: Machine, J: BoardName<M>> Model for Journal<M, J>
where
    Published<M, J>: Snapshot<State = Published<M, J>>,
{
    ghost use Rattle.std.specs.Prelude.{◌≡◌};
    ghost use Rattle.std.specs.Arc.{arc_value};
    ghost use Rattle.un_journal.specs.Books.{JournalModel, AreBooks};
    ghost use Rattle.un_machine.specs.Logs.{Reaches};

    ghost Value = { JournalModel M M.Cmd M.Reply M.Hint M.Mark };

    ghost view = { λ j. record { log = j.board.log; state = j.board.state } };

    ghost invariant = { λ j. (j.entries.items ≡ j.board.log) × (arc_value j.state ≡ j.board.state) × AreBooks j.books.items j.board.log × Reaches M.step J.opening j.board.log j.board.state };
}

impl<M: Machine, J: BoardName<M>> Journal<M, J>
where
    Published<M, J>: Snapshot<State = Published<M, J>>,
{
    /// The journal of a board that was just opened with this state. On an error the board is returned unchanged.
    pub fn open(
        alloc: Global,
        board: Board<M, J>,
        state: Arc<M>,
    ) -> Result<Journal<M, J>, (AllocError, Board<M, J>)>
        requires log { board.log ≡ [] }
        requires state { board.state ≡ arc_value state }
        ensures ok { IfOk result (λ j. j ≡ record { log = []; state = arc_value state }) }
        ensures memory { IfErr result (λ e. e.1 ≡ board) }
    {
        let version = board.version();
        prove!(version == 0);
        let Ok(books) = Vec::from_elem(alloc, 0u64, SESSIONS) else {
            return Err((AllocError, board));
        };
        Ok(Journal {
            board,
            state,
            entries: Vec::new(alloc),
            books,
        })
    }

    /// How many entries the log has.
    pub fn len(&self) -> u64
        ensures { result ≡ length self.now.log }
    {
        self.entries.len() as u64
    }

    /// The entries of the log after the first `from`. The log is legal.
    pub fn entries(&self, from: u64) -> &[Entry<M>]
        requires { from ≤ length self.now.log }
        ensures entries { result.now ≡ drop from self.now.log }
        ensures reaches { Reaches M.step J.opening self.now.log self.now.state }
    {
        &self.entries.as_slice()[from as usize..]
    }

    /// Checks that the log has at least `seen` entries, and returns `Ahead` if it has fewer.
    pub fn check_seen(&self, seen: u64) -> Result<(), Ahead>
        ensures ok { OnOk result (seen ≤ length self.now.log) }
        ensures ahead { IfErr result (IsAhead self.now.log seen) }
    {
        let latest = self.len();
        if seen <= latest {
            return Ok(());
        }
        Err(Ahead::new(seen, latest))
    }

    /// The state after the whole log.
    pub fn view(&self) -> Result<View<M>, AllocError>
        ensures version { IfOk result (λ v. v.version ≡ length self.now.log) }
        ensures state { IfOk result (λ v. arc_value v.state ≡ self.now.state) }
        ensures reaches { IfOk result (λ _. Reaches M.step J.opening self.now.log self.now.state) }
    {
        let Ok(state) = Arc::try_clone(&self.state) else {
            return Err(AllocError);
        };
        Ok(View {
            version: self.len(),
            state,
        })
    }

    /// Lets the session learn the whole log, by `teach` of the journal's board. It waits for nobody and takes no memory.
    pub fn teach(&mut self, session: &mut Session<M, J>) -> Result<(), Denied>
        ensures journal { self.new ≡ self.old }
        ensures seen { IsPrefix session.old.seen session.new.seen }
        ensures ok { OnOk result (session.new ≡ record session.old { seen = self.old.log }) }
        ensures denied { IfErr result (IsTeachFault self.old.log session.old session.new) }
    {
        self.board.teach(session)
    }

    /// Decides a command at the end of the log, and adds it to the log if the machine's step is done. Either way the
    /// session has then seen the whole log. A hint is work that was done in advance for this command, at the state after
    /// some first entries of this log. It waits for readers.
    ///
    /// It returns `Book` exactly if the session's book isn't the number of its own entries, which is checked before
    /// anything else; each other `Denied` comes from teaching the session.
    pub fn commit<R: Wait>(
        &mut self,
        rt: &R,
        alloc: Global,
        session: &mut Session<M, J>,
        cmd: M::Cmd,
        hint: Option<M::Hint>,
    ) -> Result<Receipt<M>, SessionFault>
        requires { IfSome hint (λ h. IsPrepared M.step M.prepared M.place J.opening self.old.log h) }
        ensures ok { IfOk result (λ r. IsReceipt M.step self.old self.new session.old session.new cmd r) }
        ensures reaches { IfOk result (λ _. Reaches M.step J.opening self.new.log self.new.state) }
        ensures same { OnErr result (self.new ≡ self.old) }
        ensures fault { IfErr result (λ f. IsCommitFault self.old session.old session.new f) }
        ensures seen { IsPrefix session.old.seen session.new.seen }
    {
        let number = session.number();
        if let Err(denied) = self.bring_up(session) {
            return Err(SessionFault::Denied(denied));
        }
        let Ok(applied) = self.decide(alloc, &cmd, hint.as_ref()) else {
            return Err(SessionFault::Memory);
        };
        match applied {
            Applied::Refused { reply } => match self.refuse(reply) {
                Ok(receipt) => {
                    let _ = &self.board;
                    Ok(receipt)
                }
                Err(_) => Err(SessionFault::Memory),
            },
            Applied::Done { next, reply, mark } => {
                let Ok(receipt) = self.accept(rt, alloc, number, cmd, next, reply, mark) else {
                    return Err(SessionFault::Memory);
                };
                self.teach_committed(rt, session);
                let _ = &self.board;
                Ok(receipt)
            }
        }
    }

    /// Ends the journal and its board. It waits for readers. Views and sessions may be kept.
    pub fn close<R: Wait>(self, rt: &R) {
        let Journal {
            board,
            state: _,
            entries: _,
            books: _,
        } = self;
        board.close(rt);
    }

    // Compares the book of the session, and lets the session learn the log.
    fn bring_up(&mut self, session: &mut Session<M, J>) -> Result<(), Denied>
        ensures journal { self.new ≡ self.old }
        ensures ok { OnOk result ((length (entries_of session.old.number self.old.log) ≡ session.old.own)
            × (session.new ≡ record session.old { seen = self.old.log })) }
        ensures denied { IfErr result (IsCommitDenial self.old session.old session.new) }
        ensures seen { IsPrefix session.old.seen session.new.seen }
    {
        let book = self.books[session.number() as usize];
        self.board.check_book(session, book)?;
        self.board.teach(session)
    }

    // The machine's step at the last state, using the hint if there is one.
    fn decide(
        &self,
        alloc: Global,
        cmd: &M::Cmd,
        hint: Option<&M::Hint>,
    ) -> Result<Applied<M>, AllocError>
        requires { IfSome hint (λ h. IsPrepared M.step M.prepared M.place J.opening self.now.log h.now) }
        ensures { IfOk result (λ a. answer_of a ≡ M.step self.now.state cmd.now) }
    {
        let state: &M = &self.state;
        let entries = self.entries.as_slice();
        let Some(given) = hint else {
            return state.apply(alloc, cmd, hint, entries);
        };
        let since = &entries[M::prepared_at(given) as usize..];
        state.apply(alloc, cmd, hint, since)
    }

    // The receipt of a refused commit, once the session has seen the log.
    fn refuse(&self, reply: M::Reply) -> Result<Receipt<M>, AllocError>
        ensures { IfOk result (λ r. (r.version ≡ length self.now.log) × (r.accepted ≡ false)
            × (r.reply ≡ reply) × (r.view.version ≡ r.version)
            × (arc_value r.view.state ≡ self.now.state)) }
    {
        let view = self.view()?;
        Ok(Receipt {
            version: view.version,
            accepted: false,
            reply,
            view,
        })
    }

    // Allocates everything, adds the entry and publishes; after that nothing can fail. On an error nothing has changed.
    fn accept<R: Wait>(
        &mut self,
        rt: &R,
        alloc: Global,
        number: u32,
        cmd: M::Cmd,
        next: M,
        reply: M::Reply,
        mark: M::Mark,
    ) -> Result<Receipt<M>, AllocError>
        requires number { number < 64 }
        requires steps { M.step self.old.state cmd ≡ inl (next, (reply, mark)) }
        ensures ok { IfOk result (λ r.
            (self.new ≡ record { log = self.old.log ++ entry self.old.log number cmd reply mark ∷ []; state = next })
            × (r.version ≡ length self.new.log) × (r.accepted ≡ true) × (r.reply ≡ reply)
            × (r.view.version ≡ r.version) × (arc_value r.view.state ≡ next)) }
        ensures memory { OnErr result (self.new ≡ self.old) }
    {
        let (Ok(copy), Ok(next)) = (M::copy_reply(alloc, &reply), Arc::new(alloc, next)) else {
            return Err(AllocError);
        };
        let (Ok(staged), Ok(state)) = (Arc::try_clone(&next), Arc::try_clone(&next)) else {
            return Err(AllocError);
        };
        if self.entries.reserve(1).is_err() || self.board.stage(alloc, staged).is_err() {
            return Err(AllocError);
        }
        let Some(n) = self.books[number as usize].checked_add(1) else {
            return Err(AllocError);
        };
        let entry = Entry {
            session: number,
            n,
            cmd,
            reply: copy,
            mark,
        };
        if self.board.publish(rt, &entry).is_err() {
            return Err(AllocError);
        }
        self.entries.push_reserved(entry);
        self.books[number as usize] = n;
        self.state = next;
        let version = self.len();
        Ok(Receipt {
            version,
            accepted: true,
            reply,
            view: View { version, state },
        })
    }

    fn teach_committed<R: Wait>(&mut self, rt: &R, session: &mut Session<M, J>)
        requires { session.old.own < length (entries_of session.old.number self.old.log) }
        ensures journal { self.new ≡ self.old }
        ensures session { session.new ≡ with_own_entry self.old.log session.old }
    {
        self.board.teach_committed(rt, session);
    }
}
