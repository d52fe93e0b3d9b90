//! A door over TCP that gives a number of links, and then is closed or fails.

use un_io::{Came, Door, TcpDoor, TcpLink};

/// What a door answers after its last link.
#[derive(Clone, Copy)]
pub(super) enum Last {
    Closed,
    Failed,
}

/// A door over TCP that gives so many links.
#[derive(Drop)]
pub(super) struct ShortDoor {
    door: TcpDoor,
    left: u32,
    last: Last,
    faults: u64,
    closed: bool,
}

impl ShortDoor {
    /// A door that gives the next `left` links.
    pub(super) fn new(door: TcpDoor, left: u32, last: Last) -> ShortDoor {
        ShortDoor {
            door,
            left,
            last,
            faults: 0,
            closed: false,
        }
    }
}

impl Door for ShortDoor {
    type Line = TcpLink;

    ghost faults = { λ d. d.faults };

    ghost closed = { λ d. d.closed };

    fn next(&mut self) -> Came<TcpLink> {
        if self.left == 0 {
            return match self.last {
                Last::Closed => {
                    self.closed = true;
                    Came::Closed
                }
                Last::Failed => {
                    self.faults = self.faults.saturating_add(1);
                    Came::Failed
                }
            };
        }
        self.left -= 1;
        match self.door.next() {
            Came::Line(link) => Came::Line(link),
            Came::Failed | Came::Closed => {
                self.faults = self.faults.saturating_add(1);
                Came::Failed
            }
        }
    }
}
