//! A session: one caller's place at a board, from which it reads without waiting.
//!
//! A read has to give a state that is whole, and no older than what the caller has seen or was told of, and it may not
//! wait for a writer that is about to publish. So a session enters the copy that is published at that moment, by one
//! exchange of a word, takes a reference to the state and the prefix of the log beside it, and leaves. The session keeps
//! that prefix as what it has seen. By the rule of the board the next read finds a log that begins with it.
//!
//! A read takes a few atomic operations and copies no state.
ghost use Rattle.std.specs.Prelude.{◌≡◌, ◌+◌, ◌≤◌, ◌<◌, ◌^◌, [], length, IfOk, IfErr, OnOk, MatchBool, MatchOption};
ghost use mathlib.Core.List.{IsPrefix};
ghost use Rattle.std.specs.Arc.{arc_value};
ghost use Rattle.left_right.specs.Sides.{view};
ghost use Rattle.un_machine.specs.Logs.{Reaches, entries_of};
ghost use Rattle.un_publish.specs.Rule.{Finds};
ghost use Rattle.un_publish.specs.Models.{AreFresh, fresh, risen, SessionModel, with_own_entry};
ghost use Rattle.un_publish.specs.Faults.{IsReadFault, IsTeachFault};

use crate::prefix::Prefix;
use crate::published::{BoardName, BoardRule, Known, Looks, Published};
use core::mem::replace_with;
use left_right::reader::{Factory, Reader};
use std::alloc::{AllocError, Global};
use std::marker::Model;
use std::sync::Arc;
use un_machine::{Entry, Machine};

/// A state of the machine after the first `version` entries of the log. It never changes, whatever is committed while it is held.
#[derive(Drop)]
pub struct View<M> {
    /// How many entries of the log lead to the state.
    pub version: u64,
    pub state: Arc<M>,
}

/// Why a session can't go on, other than running out of memory. None of these is expected; the session counts each one.
#[derive(Clone, Copy, Debug, PartialEq, Eq)]
pub enum Denied {
    /// There was no copy to enter.
    NoCopy,
    /// The log has `book` entries with the session's number, but the session counts `own` as its own.
    Book { book: u64, own: u64 },
    /// The session has seen more entries than the log has.
    Long { seen: u64, log: u64 },
}

/// Why a call of a session has no result.
#[derive(Clone, Copy, Debug, PartialEq, Eq)]
pub enum SessionFault {
    Denied(Denied),
    Memory,
}

pub(crate) type BoardReader<M, J> = Reader<Published<M, J>, Known<M>, BoardRule>;

// What an entering found. `state` is `None` if no reference to it could be taken.
#[derive(Drop)]
pub(crate) struct Found<M: Machine, J: BoardName<M>> {
    pub(crate) prefix: Prefix<Entry<M>, J>,
    pub(crate) state: Option<Arc<M>>,
}

// Enters, looks and leaves.
pub(crate) fn enter<M: Machine, J: BoardName<M>>(
    reader: BoardReader<M, J>,
) -> (BoardReader<M, J>, Option<Found<M, J>>)
    ensures { MatchOption result.1 (view result.0.place ≡ view reader.place)
        (λ f. Finds M.step J.opening (view reader.place) f.prefix f.state (view result.0.place)) }
{
    match reader.enter_as::<Looks>() {
        Ok(reading) => {
            let shown = reading.get();
            let prefix = shown.prefix();
            let state = shown.state().ok();
            (reading.leave(), Some(Found { prefix, state }))
        }
        Err(reader) => (reader, None),
    }
}

// The same in place.
fn enter_in<M: Machine, J: BoardName<M>>(reader: &mut BoardReader<M, J>) -> Option<Found<M, J>>
    ensures { MatchOption result (view reader.new.place ≡ view reader.old.place)
        (λ f. Finds M.step J.opening (view reader.old.place) f.prefix f.state
        (view reader.new.place)) }
{
    replace_with(reader, (), |reader, _| enter(reader))
}

/// One caller's place at a board. Contracts see its number, the prefix of the log that it has seen, how many of these
/// entries are its own, and its two counts. Its own entries are the first `own` of those with its number.
#[derive(Drop)]
pub struct Session<M: Machine, J: BoardName<M>> {
    reader: BoardReader<M, J>,
    prefix: Prefix<Entry<M>, J>,
    number: u32,
    own: u64,
    denied: u64,
    waits: u64,
}

impl<M: Machine, J: BoardName<M>> Model for Session<M, J> {
    ghost use Rattle.std.specs.Prelude.{◌≤◌, ◌<◌, length};
    ghost use Rattle.left_right.specs.Sides.{view as known_by};
    ghost use Rattle.un_machine.specs.Logs.{entries_of};
    ghost use Rattle.un_publish.specs.Models.{SessionModel};
    ghost use Rattle.un_publish.specs.Rule.{IsReady};

    ghost Value = { SessionModel M M.Cmd M.Reply M.Hint M.Mark };

    ghost view = { λ s. record { number = s.number; seen = s.prefix; own = s.own; denied = s.denied; waits = s.waits } };

    ghost invariant = { λ s. IsReady (known_by s.reader.place) s.prefix × (s.own ≤ length (entries_of s.number s.prefix)) × (s.number < 64) };
}

// Makes the readers of a board.
pub(crate) type ReaderFactory<M, J> = Factory<Published<M, J>, Known<M>, BoardRule>;

// `count` sessions, which are numbered from 0 and have seen nothing.
pub(crate) fn sessions_at<M: Machine, J: BoardName<M>>(
    alloc: Global,
    readers: &ReaderFactory<M, J>,
    prefix: &Prefix<Entry<M>, J>,
    count: u32,
) -> Result<Vec<Session<M, J>>, AllocError>
    requires prefix { prefix.now ≡ [] }
    requires count { count ≤ 64 }
    ensures { IfOk result (λ v. AreFresh count v.items) }
{
    let mut all = Vec::new(alloc);
    for number in 0..count {
        let Ok(reader) = readers.reader() else {
            return Err(AllocError);
        };
        if all.reserve(1).is_err() {
            return Err(AllocError);
        }
        all.push_reserved(Session::fresh(reader, prefix.copy(), number));
    }
    Ok(all)
}

impl<M: Machine, J: BoardName<M>> Session<M, J> {
    fn fresh(reader: BoardReader<M, J>, prefix: Prefix<Entry<M>, J>, number: u32) -> Session<M, J>
        requires { ((view reader.place).seen ≡ []) × (prefix ≡ []) × (number < 64) }
        ensures { result ≡ fresh number }
    {
        Session {
            reader,
            prefix,
            number,
            own: 0,
            denied: 0,
            waits: 0,
        }
    }

    /// How many entries of the log the session has seen.
    pub fn seen(&self) -> u64
        ensures { result ≡ length self.now.seen }
    {
        self.prefix.len()
    }

    /// The session's number, from 0 to 63.
    pub fn number(&self) -> u32
        ensures number { result ≡ self.now.number }
        ensures below { result < 64 }
    {
        self.number
    }

    /// How many of the entries that it has seen are the session's own.
    pub fn own(&self) -> u64
        ensures own { result ≡ self.now.own }
        ensures within { result ≤ length (entries_of self.now.number self.now.seen) }
    {
        self.own
    }

    /// How many calls were denied: each `Denied` that a read returns, or a board that teaches the session or checks its
    /// book, adds one. The count saturates at `u64::MAX`.
    pub fn denied(&self) -> u64
        ensures { result ≡ self.now.denied }
    {
        self.denied
    }

    /// How many calls of the session may have waited for another thread.
    pub fn waits(&self) -> u64
        ensures { result ≡ self.now.waits }
    {
        self.waits
    }

    /// Counts one call that may wait. The count saturates at `u64::MAX`.
    pub fn count_wait(&mut self)
        ensures { self.new ≡ record self.old { waits = risen self.old.waits } }
    {
        self.waits = self.waits.saturating_add(1);
    }

    // Counts one call that was denied.
    pub(crate) fn count_denied(&mut self)
        ensures { self.new ≡ record self.old { denied = risen self.old.denied } }
    {
        self.denied = self.denied.saturating_add(1);
    }

    /// The state after a prefix of the log, which begins with all that the session had seen, and which it has then
    /// seen. It never waits. `NoCopy` is the only `Denied`. On `Memory` no further reference to the state could be taken,
    /// and the session may have seen more.
    pub fn read(&mut self) -> Result<View<M>, SessionFault>
        ensures version { IfOk result (λ v. v.version ≡ length self.new.seen) }
        ensures state { IfOk result (λ v. Reaches M.step J.opening self.new.seen (arc_value v.state)) }
        ensures seen { IsPrefix self.old.seen self.new.seen }
        ensures kept { OnOk result (self.new ≡ record self.old { seen = self.new.seen }) }
        ensures fault { IfErr result (IsReadFault self.old self.new) }
    {
        match enter_in(&mut self.reader) {
            Some(Found { prefix, state }) => {
                let version = prefix.len();
                self.prefix = prefix;
                match state {
                    Some(state) => Ok(View { version, state }),
                    None => Err(SessionFault::Memory),
                }
            }
            None => {
                self.denied = self.denied.saturating_add(1);
                Err(SessionFault::Denied(Denied::NoCopy))
            }
        }
    }

    // Enters with another reader, and keeps what it finds, unless the session has seen more. Returns whether there was
    // a copy to enter.
    fn enter_with(&mut self, mut reader: BoardReader<M, J>) -> bool
        ensures entered { MatchBool result (IsPrefix (view reader.place).told self.new.seen)
            (self.new ≡ self.old) }
        ensures seen { IsPrefix self.old.seen self.new.seen }
        ensures kept { self.new ≡ record self.old { seen = self.new.seen } }
    {
        let Some(Found { prefix, state: _ }) = enter_in(&mut reader) else {
            return false;
        };
        if self.prefix.begins(&prefix) {
            self.reader = reader;
            self.prefix = prefix;
        }
        true
    }

    // Enters with a new reader that was told the whole log.
    pub(crate) fn learn_log(
        &mut self,
        reader: BoardReader<M, J>,
        log: &Prefix<Entry<M>, J>,
    ) -> Result<(), Denied>
        requires { (view reader.place).told ≡ log.now }
        ensures seen { IsPrefix self.old.seen self.new.seen }
        ensures ok { OnOk result (self.new ≡ record self.old { seen = log.now }) }
        ensures denied { IfErr result (IsTeachFault log.now self.old self.new) }
    {
        if !self.enter_with(reader) {
            self.count_denied();
            return Err(Denied::NoCopy);
        }
        if self.seen() > log.len() {
            return Err(self.denied_as_long(log));
        }
        Ok(())
    }

    // Counts one call that was denied because the session has seen more entries than the log has.
    fn denied_as_long(&mut self, log: &Prefix<Entry<M>, J>) -> Denied
        ensures counted { self.new ≡ record self.old { denied = risen self.old.denied } }
        ensures long { result ≡ Denied.Long (length self.old.seen) (length log.now) }
    {
        self.count_denied();
        Denied::Long {
            seen: self.seen(),
            log: log.len(),
        }
    }

    // The session's own entry was added to the log, which the session has then seen. Its next read finds no less.
    pub(crate) fn add_own_entry(&mut self, informed: BoardReader<M, J>, log: &Prefix<Entry<M>, J>)
        requires told { (view informed.place).told ≡ log.now }
        requires own { self.old.own < length (entries_of self.old.number log.now) }
        ensures { self.new ≡ with_own_entry log.now self.old }
    {
        // For the proof alone.
        let _most = log.len();
        self.reader = informed;
        self.prefix = log.copy();
        self.own += 1;
    }
}
