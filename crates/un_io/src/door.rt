//! Doors: what links arrive at, such as TCP listeners.
ghost use Rattle.std.specs.Prelude.{◌≡◌, ℕ, Bool, false};
ghost use Rattle.un_io.specs.Doors.{CountsCame, Closes, new_door, next_came, door_behind};

use crate::link::{Link, MemLink, StreamLink};
use crate::plan::Plan;
use std::marker::Model;
use std::net::{OpenListener, TcpListener, TcpStream};

/// What came to a door.
#[derive(Drop)]
pub enum Came<L> {
    /// A link.
    Line(L),
    /// No more links will come.
    Closed,
    /// A fault, which the door has counted.
    Failed,
}

/// Gives the links that arrive, and counts its faults. After `Closed` or `Failed` it is not asked again.
pub trait Door {
    ghost use Rattle.un_io.specs.Doors.{CountsCame, Closes};

    /// The links that arrive at it.
    type Line: Link + Drop;

    // How many calls have failed, saturating at `u64::MAX`.
    ghost faults: { Self → ℕ };

    // Whether it has answered `Closed`. Once true, it stays true.
    ghost closed: { Self → Bool };

    /// The next link.
    fn next(&mut self) -> Came<Self::Line>
        ensures cause { CountsCame (faults self.old) (faults self.new) result }
        ensures closes { Closes (closed self.old) (closed self.new) result };
}

/// A door in memory: the given links arrive in order, the given calls fail, and after the last link it is closed.
#[derive(Drop)]
pub struct MemDoor {
    links: Vec<MemLink>,
    plan: Plan,
    calls: usize,
    faults: u64,
    closed: bool,
}

impl Model for MemDoor {
    ghost use Rattle.un_io.specs.States.{Queue};

    ghost Value = { Queue };

    ghost view = { λ d. record {
      links = d.links.items;
      plan = d.plan;
      calls = d.calls;
      faults = d.faults;
      closed = d.closed;
    } };
}

impl MemDoor {
    /// Gives these links. The plan says which calls fail; its sizes are not used.
    pub fn new(links: Vec<MemLink>, plan: Plan) -> MemDoor
        ensures { result ≡ new_door links.items plan }
    {
        MemDoor {
            links,
            plan,
            calls: 0,
            faults: 0,
            closed: false,
        }
    }
}

impl Door for MemDoor {
    type Line = MemLink;

    ghost faults = { λ d. d.faults };

    ghost closed = { λ d. d.closed };

    fn next(&mut self) -> Came<MemLink>
        ensures cause { CountsCame self.old.faults self.new.faults result }
        ensures closes { Closes self.old.closed self.new.closed result }
        ensures came { result ≡ next_came self.old }
        ensures behind { self.new ≡ door_behind self.old result }
    {
        let call = self.calls;
        self.calls = call.saturating_add(1);
        if self.plan.fails(call) {
            self.faults = self.faults.saturating_add(1);
            return Came::Failed;
        }
        if self.links.is_empty() {
            self.closed = true;
            return Came::Closed;
        }
        Came::Line(self.links.remove(0))
    }
}

/// A link over a TCP stream.
pub type TcpLink = StreamLink<TcpStream>;

/// A door over a TCP listener. It is never closed.
#[derive(Drop)]
pub struct TcpDoor {
    listener: TcpListener,
    faults: u64,
}

impl TcpDoor {
    /// Gives the links that arrive at this listener.
    pub fn new(listener: TcpListener) -> TcpDoor
        ensures { result.faults ≡ 0 }
    {
        TcpDoor {
            listener,
            faults: 0,
        }
    }
}

impl Door for TcpDoor {
    type Line = TcpLink;

    ghost faults = { λ d. d.faults };

    ghost closed = { λ _. false };

    fn next(&mut self) -> Came<TcpLink> {
        match self.listener.accept() {
            Ok((stream, _)) => {
                // Without it a response in two writes waits for the client's delayed acknowledgement. A link works either way.
                let _ = stream.set_nodelay(true);
                Came::Line(StreamLink::new(stream))
            }
            Err(_) => {
                self.faults = self.faults.saturating_add(1);
                Came::Failed
            }
        }
    }
}
