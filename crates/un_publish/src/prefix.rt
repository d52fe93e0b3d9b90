//! The log of a board as threads share it: each of them has seen a prefix of it.
//!
//! Sessions and the board have to agree on one log without a lock between them. When the program runs, the log that
//! they share is one word, its length; its entries exist in the proofs alone. A `Prefix` is a count of entries, with a
//! zero-sized token that the log begins with these entries. Two prefixes of one log are prefixes of one list, so their
//! counts say which of them is a prefix of the other. An entry is added by one exchange of the word, from the count that
//! was seen to one more: if it succeeds, nobody else has added an entry since.
//!
//! Copying, comparing and adding take a few instructions, allocate nothing and never wait.
ghost use Rattle.std.specs.Prelude.{◌≡◌, ◌+◌, ◌==◌, ◌<◌, ◌≤◌, ◌^◌, [], length, MatchBool};
ghost use mathlib.Core.List.{IsPrefix};
ghost use Rattle.un_publish.specs.LogWord.{head_of, AddsEntry, IsLonger};

use logbook::{Gain, Offer, Plain, Play, Rule, Seen, Start, Word};
use std::marker::{Brand, Model, PhantomData};

/// The most entries that a log may have.
const MOST: u64 = 1 << 62;

/// The rule between the word and the log: the word is the log's length.
pub struct LogRule;

impl<E> Rule<E, u64> for LogRule {
    ghost use Rattle.std.specs.Prelude.{[]};
    ghost use base.Fml.{ftrue};
    ghost use Rattle.un_publish.specs.LogWord.{IsKept};

    ghost holds = { λ cells log. IsKept cells log };

    ghost first = { [] };

    ghost hinted = { λ n log. Unit {0} };

    ghost shows = { λ log. [] };

    ghost keeps = { λ names log. ftrue };

    ghost moves = { λ ask before after answer. Unit {0} };
}

/// What the caller of a step gains from it besides what was seen: nothing.
pub struct NoGain;

impl<E> Gain<E, u64> for NoGain {
    ghost use base.Fml.{ftrue};

    ghost after = { λ names about answer. ftrue };
}

/// The step that adds an entry.
pub struct Add;

impl<E> Play<E, u64> for Add {
    ghost use Rattle.un_publish.specs.LogWord.{Adds};

    ghost then = { Adds };
}

/// What a step asks for: the entry.
impl<E> Plain<E, E, u64> for Add {
    ghost use Rattle.std.specs.Prelude.{None};

    ghost ask = { λ entry. entry };

    ghost state = { λ entry. None };
}

/// The name of one log. It exists in the proofs alone: a program or a test picks it at the one call that passes
/// `Brand`, and every function below takes it as a type parameter.
pub trait LogName {
    ghost use Rattle.logbook.specs.Pages.{Book};

    ghost book: { Book };
}

impl LogName for Brand {
    ghost use Rattle.un_publish.specs.LogWord.{no_book};

    ghost book = { no_book };
}

/// A prefix of the log that was seen. Contracts see its entries.
#[derive(Drop)]
pub struct Prefix<E, J: LogName> {
    count: u64,
    seen: Seen<E, u64, LogRule>,
    of: PhantomData<J>,
}

impl<E, J: LogName> Model for Prefix<E, J> {
    ghost use Rattle.std.specs.Prelude.{◌≡◌, List, length};

    ghost Value = { List E };

    ghost view = { λ f. f.seen.log };

    ghost invariant = { λ f. (f.count ≡ length f.seen.log) × (f.seen.book ≡ J.book) };
}

impl<E, J: LogName> Prefix<E, J> {
    /// The number of its entries.
    pub fn len(&self) -> u64
        ensures { result ≡ length self.now }
    {
        self.count
    }

    /// A copy of the prefix.
    pub fn copy(&self) -> Prefix<E, J>
        ensures { result ≡ self.now }
    {
        Prefix {
            count: self.count,
            seen: self.seen.again(),
            of: PhantomData,
        }
    }
}

/// The word that stands for the log. Whoever has it may add entries.
#[derive(Drop)]
pub struct LogLength<E, J: LogName> {
    head: Word<E, u64, LogRule>,
    of: PhantomData<J>,
    ghost head_is: { head ≡ head_of J.book },
}

/// An empty log that has no name yet. It is made before the call that picks the name, since the name says which log it is.
#[derive(Drop)]
pub struct NewLog<E> {
    head: Word<E, u64, LogRule>,
    seen: Seen<E, u64, LogRule>,
    pub ghost empty: { seen.log ≡ [] },
    pub ghost head_is: { head ≡ head_of seen.book },
}

impl<E> NewLog<E> {
    /// An empty log.
    pub fn new() -> NewLog<E>
        ensures { result.seen.log ≡ [] }
    {
        let (seen, mut first, _second) = Seen::open(Start::alone(), 0, 0);
        NewLog {
            head: Word::tracked(0, &mut first),
            seen,
        }
    }

    /// The log under its name: the word that stands for it, and the empty prefix.
    pub fn named<J: LogName>(self) -> (LogLength<E, J>, Prefix<E, J>)
        requires { self.seen.book ≡ J.book }
        ensures { result.1 ≡ [] }
    {
        let NewLog { head, seen } = self;
        (
            LogLength {
                head,
                of: PhantomData,
            },
            Prefix {
                count: 0,
                seen,
                of: PhantomData,
            },
        )
    }
}

impl<E, J: LogName> Prefix<E, J> {
    /// Whether this is a prefix of the other one. If not, the other one is a shorter prefix of this.
    pub fn begins(&self, other: &Prefix<E, J>) -> bool
        ensures { MatchBool result (IsPrefix self.now other.now) (IsLonger other.now self.now) }
    {
        let mut both = self.seen.again();
        both.learn(&other.seen);
        self.count <= other.count
    }

    /// Adds an entry to the log if this is the whole log and there is room for one more, and says whether it did. If
    /// not, then either the log was longer, and this becomes a longer prefix of it, or the log is full.
    pub fn add(&mut self, word: &LogLength<E, J>, entry: &E) -> bool
        ensures { AddsEntry self.old self.new entry.now result }
    {
        if self.count >= MOST {
            return false;
        }
        let mut offer: Offer<E, u64, LogRule, NoGain> = self.seen.plain::<NoGain, E, Add>(entry);
        let mut pen = self.seen.no_pen();
        let count = self.count;
        let found = word
            .head
            .compare_exchange::<Add, NoGain>(
                count,
                count + 1,
                &mut self.seen,
                &mut offer,
                &mut pen,
            );
        self.count = if found == count { count + 1 } else { found };
        found == count
    }
}
