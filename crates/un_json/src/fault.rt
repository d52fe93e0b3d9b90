//! Why a text is no request.
ghost use Rattle.std.specs.Prelude.{◌≡◌, ◌≢◌, IfOk, OnOk, OnErr};
ghost use Rattle.un_ask.specs.Replies.{IsOfCommand, HasFewIds};
ghost use Rattle.un_json.specs.Requests.{fault_reply};

use std::alloc::AllocError;
use un_ask::{Refusal, Reply};
use un_schema::Place;

/// Why a text is not a request.
#[derive(Clone, Copy, Debug, PartialEq, Eq)]
pub enum ReadFault {
    /// It is not a JSON value in UTF-8.
    NotJson,
    /// It is a JSON value but not a request. `place` is the first bad place.
    BadRequest { place: Place },
    /// Out of memory.
    Memory,
}

impl From<AllocError> for ReadFault {
    ghost use Rattle.un_json.specs.declared.fault.ReadFault.TheVariants.{Memory};

    ghost from_gives = { λ _ fault. fault ≡ Memory };

    fn from(_error: AllocError) -> ReadFault {
        ReadFault::Memory
    }
}

impl ReadFault {
    /// The reply to a text that is no request. Want of memory is the one error.
    pub fn reply(self) -> Result<Reply, AllocError>
        ensures reply { IfOk result (λ reply. reply ≡ fault_reply self) }
        ensures command { IfOk result (λ reply. IsOfCommand reply × HasFewIds reply) }
        ensures fault { OnOk result (self ≢ ReadFault.Memory) }
        ensures memory { OnErr result (self ≡ ReadFault.Memory) }
    {
        let refusal = match self {
            ReadFault::NotJson => Refusal::NotJson,
            ReadFault::BadRequest { place } => Refusal::BadRequest { place },
            ReadFault::Memory => return Err(AllocError),
        };
        Ok(Reply::Refused {
            refusal,
            edit: None,
            version: 0,
        })
    }
}
