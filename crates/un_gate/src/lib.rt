//! A door that several workers share.
//!
//! Links arrive at a door one after another. Workers take turns at it, each under a lock, so the door is kept here with how
//! it ended, if it has: after that no worker asks it again. What the workers did between opening and end is not known to
//! whoever opened the door, but the type says what holds whenever the lock is taken: the door's count of faults is at least
//! what it was at the opening, and an end has its cause.
#![tactic(auto)]

ghost use Rattle.std.specs.Prelude.{◌≡◌, ℕ, None};
ghost use Rattle.un_gate.specs.Gates.{IsSince, NextOf};

use std::marker::{Brand, Model, PhantomData};
use un_io::{Came, Door};

/// How a door ended.
#[derive(Clone, Copy, Debug, PartialEq, Eq)]
pub enum DoorEnd {
    /// It answered that no more links will come.
    Closed,
    /// It failed, and has counted it.
    Failed,
}

/// The name of one opening of a door: its count of faults then. A program or a test picks it at the one call that passes
/// `Brand`.
pub trait DoorCount {
    ghost count: { ℕ };
}

impl DoorCount for Brand {
    ghost count = { 0 };
}

/// A door and how it ended, if it has.
#[derive(Drop)]
pub struct Gate<D: Door, N: DoorCount> {
    door: D,
    end: Option<DoorEnd>,
    opening: PhantomData<N>,
}

impl<D: Door, N: DoorCount> Model for Gate<D, N> {
    ghost use Rattle.un_gate.specs.Gates.{Gated, IsSince};

    ghost Value = { Gated D };

    ghost view = { λ g. record { door = g.door; end = g.end } };

    ghost invariant = { λ g. IsSince N.count (D.faults g.door) (D.closed g.door) g.end };
}

impl<D: Door, N: DoorCount> Gate<D, N> {
    /// The gate of a door at its opening.
    pub fn new(door: D) -> Gate<D, N>
        requires { N.count ≡ D.faults door }
        ensures { result ≡ record { door = door; end = None } }
    {
        Gate {
            door,
            end: None,
            opening: PhantomData,
        }
    }

    /// The next link, or `None` once the door has ended.
    pub fn next(&mut self) -> Option<D::Line>
        ensures { NextOf self.new.end result }
    {
        if self.end.is_some() {
            return None;
        }
        match self.door.next() {
            Came::Line(link) => Some(link),
            Came::Closed => {
                self.end = Some(DoorEnd::Closed);
                None
            }
            Came::Failed => {
                self.end = Some(DoorEnd::Failed);
                None
            }
        }
    }

    /// The door and how it ended.
    pub fn into_parts(self) -> (D, Option<DoorEnd>)
        ensures door { result.0 ≡ self.door }
        ensures end { result.1 ≡ self.end }
        ensures since { IsSince N.count (D.faults result.0) (D.closed result.0) result.1 }
    {
        (self.door, self.end)
    }
}
