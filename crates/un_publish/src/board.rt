//! The board: one writer beside many sessions.
//!
//! A board keeps the log as it stands, the published value, whose state is the last one of the log, and a state that
//! is staged. Publishing adds an entry to the log by one exchange, and then shows the staged state to readers by
//! another: from then on each reader that enters finds the longer log. All memory is allocated before the first
//! exchange. The second one waits until nobody reads the copy that it replaces.
//!
//! A session that has to see the whole log is taught: it gets a new reader that was told the log, and enters with it.
//! The board has one more place than sessions, so one is always free to give; the session's old one is then free.
ghost use Rattle.std.specs.Prelude.{◌≡◌, ◌+◌, ◌≤◌, ◌<◌, ◌^◌, ◌++◌, ◌∷◌, [], length, Some, None, IfOk, IfErr, OnErr, OnOk};
ghost use mathlib.Core.List.{IsPrefix};
ghost use Rattle.std.specs.Arc.{arc_value};
ghost use Rattle.left_right.specs.Sides.{view};
ghost use Rattle.un_machine.specs.Logs.{Reaches, entries_of};
ghost use Rattle.un_publish.specs.Faults.{IsBookFault, IsTeachFault};
ghost use Rattle.un_publish.specs.Models.{AreFresh, BoardModel, LeadsToStaged, risen, with_own_entry};

use crate::prefix::{LogLength, NewLog, Prefix};
use crate::published::{BoardName, BoardRule, Known, Looks, Notes, Published, Snapshot};
use crate::publisher::{
    Publisher, informed_reader, informed_reader_at_last, publish_or_end, publish_whole_in,
};
use crate::session::{Denied, Session, sessions_at};
use std::alloc::{AllocError, Global};
use std::marker::Model;
use std::sync::{Arc, Wait};
use un_machine::{Entry, Machine};

type BoardPublisher<M, J> = Publisher<Published<M, J>, Known<M>, BoardRule>;

/// A log with its last state, which sessions read while the log grows. Contracts see the log, the state that it leads
/// to, and the staged state. It is not `Drop`: end it by `close`.
pub struct Board<M: Machine, J: BoardName<M>>
where
    Published<M, J>: Snapshot<State = Published<M, J>>,
{
    writer: BoardPublisher<M, J>,
    length: LogLength<Entry<M>, J>,
    prefix: Prefix<Entry<M>, J>,
    staged: Option<Arc<M>>,
}

impl<M: Machine, J: BoardName<M>> Model for Board<M, J>
where
    Published<M, J>: Snapshot<State = Published<M, J>>,
{
    ghost use Rattle.std.specs.Prelude.{◌≡◌};
    ghost use Rattle.std.specs.Arc.{arc_value};
    ghost use Rattle.left_right.specs.Sides.{view as known_by};
    ghost use Rattle.un_machine.specs.Logs.{Reaches};
    ghost use Rattle.un_publish.specs.Models.{BoardModel, staged_of};

    ghost Value = { BoardModel M M.Cmd M.Reply M.Hint M.Mark };

    ghost view = { λ b. record { log = b.prefix; state = b.writer.desk.shown.value.0; staged = staged_of b.staged } };

    ghost invariant = { λ b. (b.writer.desk.shown.value.1 ≡ b.prefix) × ((known_by b.writer.desk.place).seen ≡ b.prefix) × Reaches M.step J.opening b.prefix b.writer.desk.shown.value.0 };
}

// A writer that shows this value, with room for `readers` readers. It waits for readers.
fn writer_of<M: Machine, J: BoardName<M>, R: Wait>(
    rt: &R,
    alloc: Global,
    first: Published<M, J>,
    readers: usize,
) -> Result<BoardPublisher<M, J>, AllocError>
where
    Published<M, J>: Snapshot<State = Published<M, J>>,
    requires readers { (0 < readers) × (readers < 2 ^ 32) }
    requires log { first.1 ≡ [] }
    ensures { IfOk result (λ w. (w.desk.shown.value ≡ first) × ((view w.desk.place).seen ≡ first.1)) }
{
    let Ok(next) = first.copy() else {
        return Err(AllocError);
    };
    let Ok(second) = first.copy() else {
        return Err(AllocError);
    };
    let Ok(writer) = BoardPublisher::<M, J>::new(alloc, first, second, readers) else {
        return Err(AllocError);
    };
    // The writer's list gets its final size here, so that no later publishing has to grow it after the log has grown.
    publish_or_end::<Published<M, J>, Known<M>, BoardRule, Looks, R>(writer, rt, next)
}

impl<M: Machine, J: BoardName<M>> Board<M, J>
where
    Published<M, J>: Snapshot<State = Published<M, J>>,
{
    /// A board with an empty log, and this many sessions at it, numbered from 0. It waits for readers. The error also
    /// means that there is no room for the readers' places, since the two cannot be told apart.
    pub fn open<R: Wait>(
        rt: &R,
        alloc: Global,
        new_log: NewLog<Entry<M>>,
        state: Arc<M>,
        sessions: u32,
    ) -> Result<(Board<M, J>, Vec<Session<M, J>>), AllocError>
        requires count { (0 < sessions) × (sessions ≤ 64) }
        requires book { new_log.seen.book ≡ J.book }
        requires opening { J.opening ≡ arc_value state ∷ [] }
        ensures board { IfOk result (λ r. r.0 ≡ record { log = []; state = arc_value state; staged = None }) }
        ensures sessions { IfOk result (λ r. AreFresh sessions r.1.items) }
    {
        let (length, prefix) = new_log.named::<J>();
        let first = Published::new(state, prefix.copy());
        let writer = writer_of(rt, alloc, first, sessions as usize + 1)?;
        match sessions_at(alloc, writer.factory(), &prefix, sessions) {
            Ok(all) => {
                let board = Board {
                    writer,
                    length,
                    prefix,
                    staged: None,
                };
                Ok((board, all))
            }
            Err(_) => {
                drop(writer.take(rt));
                Err(AllocError)
            }
        }
    }

    /// How many entries the log has.
    pub fn version(&self) -> u64
        ensures version { result ≡ length self.now.log }
        ensures reaches { Reaches M.step J.opening self.now.log self.now.state }
    {
        self.prefix.len()
    }

    /// Stages the state that is to be published next. It replaces one that was staged before.
    pub fn stage(&mut self, _alloc: Global, next: Arc<M>) -> Result<(), AllocError>
        ensures ok { OnOk result (self.new ≡ record self.old { staged = Some (arc_value next) }) }
        ensures memory { OnErr result (self.new ≡ self.old) }
    {
        self.staged = Some(next);
        Ok(())
    }

    // A further reference to the staged state.
    fn staged(&self) -> Result<Arc<M>, AllocError>
        ensures { IfOk result (λ state. Some (arc_value state) ≡ self.now.staged) }
    {
        let Some(state) = &self.staged else {
            return Err(AllocError);
        };
        Arc::try_clone(state).map_err(|_| AllocError)
    }

    // Adds the entry to the log, and pairs the staged state with the log. On an error nothing was added.
    fn advance(&self, entry: &Entry<M>) -> Result<Published<M, J>, AllocError>
        requires number { entry.now.n ≡ length (entries_of entry.now.session self.now.log) + 1 }
        requires steps { LeadsToStaged M.step self.now entry.now }
        ensures log { IfOk result (λ next. next.1 ≡ self.now.log ++ entry.now ∷ []) }
        ensures state { IfOk result (λ next. Some next.0 ≡ self.now.staged) }
    {
        let state = self.staged()?;
        let mut prefix = self.prefix.copy();
        if prefix.add(&self.length, entry) {
            Ok(Published::new(state, prefix))
        } else {
            Err(AllocError)
        }
    }

    /// Adds the entry to the log and publishes the staged state, to which the entry leads. It waits for readers.
    pub fn publish<R: Wait>(&mut self, rt: &R, entry: &Entry<M>) -> Result<(), AllocError>
        requires number { entry.now.n ≡ length (entries_of entry.now.session self.old.log) + 1 }
        requires steps { LeadsToStaged M.step self.old entry.now }
        ensures log { OnOk result (self.new.log ≡ self.old.log ++ entry.now ∷ []) }
        ensures state { OnOk result (Some self.new.state ≡ self.old.staged) }
        ensures staged { OnOk result (self.new.staged ≡ None) }
        ensures memory { OnErr result (self.new ≡ self.old) }
    {
        let next = self.advance(entry)?;
        let prefix = next.prefix();
        publish_whole_in::<Published<M, J>, Known<M>, BoardRule, Looks, R>(
            &mut self.writer,
            rt,
            next,
        )?;
        self.prefix = prefix;
        self.staged = None;
        Ok(())
    }

    /// The session learns the whole log and enters the published copy, so that what it has then seen begins with the
    /// log and with all that it had seen. It never waits and allocates nothing. It returns `NoCopy` if there was no copy
    /// to enter, and `Long` if the session has then seen more entries than the log has.
    pub fn teach(&mut self, session: &mut Session<M, J>) -> Result<(), Denied>
        ensures board { self.new ≡ self.old }
        ensures seen { IsPrefix session.old.seen session.new.seen }
        ensures ok { OnOk result (session.new ≡ record session.old { seen = self.old.log }) }
        ensures denied { IfErr result (IsTeachFault self.old.log session.old session.new) }
    {
        let Some(reader) = informed_reader::<Published<M, J>, Known<M>, BoardRule, Notes>(
            &mut self.writer,
        ) else {
            session.count_denied();
            return Err(Denied::NoCopy);
        };
        session.learn_log(reader, &self.prefix)
    }

    /// The session learns the whole log, to which its own entry was just added. Only a journal should call it, once for
    /// each entry that it publishes. It waits while no reader's place is free.
    pub fn teach_committed<R: Wait>(&mut self, rt: &R, session: &mut Session<M, J>)
        requires { session.old.own < length (entries_of session.old.number self.old.log) }
        ensures board { self.new ≡ self.old }
        ensures session { session.new ≡ with_own_entry self.old.log session.old }
    {
        let reader = informed_reader_at_last::<Published<M, J>, Known<M>, BoardRule, Notes, R>(
            &mut self.writer,
            rt,
        );
        session.add_own_entry(reader, &self.prefix);
    }

    /// Compares the number of the log's entries with the session's number, the book, with the number of entries that the
    /// session counts as its own. It returns `Book`, with both numbers, exactly if they differ. It never waits and
    /// allocates nothing.
    pub fn check_book(&self, session: &mut Session<M, J>, book: u64) -> Result<(), Denied>
        requires { book ≡ length (entries_of session.old.number self.now.log) }
        ensures ok { OnOk result ((book ≡ session.old.own) × (session.new ≡ session.old)) }
        ensures denied { IfErr result (IsBookFault book session.old session.new) }
    {
        let own = session.own();
        if own == book {
            return Ok(());
        }
        session.count_denied();
        Err(Denied::Book { book, own })
    }

    /// Ends the board. It waits for readers. Views and sessions may be kept.
    pub fn close<R: Wait>(self, rt: &R) {
        let Board {
            writer,
            length: _,
            prefix: _,
            staged: _,
        } = self;
        drop(writer.take(rt));
    }
}
