//! What a response says: its status and its body.
ghost use Rattle.std.specs.Prelude.{◌≡◌};

use crate::status::Status;
use std::marker::Model;

/// The status of a response and its body.
#[derive(Drop)]
pub struct Page {
    status: Status,
    body: Vec<u8>,
}

impl Model for Page {
    ghost use Rattle.un_exchange.specs.Pages.{PageModel};

    ghost Value = { PageModel };

    ghost view = { λ p. record { status = p.status; body = p.body.items } };
}

impl Page {
    /// The page with this status and this body.
    pub fn new(status: Status, body: Vec<u8>) -> Page
        ensures { result ≡ record { status = status; body = body.items } }
    {
        Page { status, body }
    }

    /// Its status.
    pub fn status(&self) -> Status
        ensures { result ≡ self.now.status }
    {
        self.status
    }

    /// Its body.
    pub fn body(&self) -> &[u8]
        ensures { result.now ≡ self.now.body }
    {
        self.body.as_slice()
    }
}
