//! A machine for tests.
use std::alloc::{AllocError, Global};
use un_machine::{Applied, Entry, Machine};

/// A total, to which commands add. What would make it more than 100 is refused. A reply is the total.
#[derive(Clone, Copy)]
pub struct Counter {
    pub total: u64,
}

impl Machine for Counter {
    ghost use Rattle.std.specs.Prelude.{◌+◌, nat_le, if◌then◌else◌};
    ghost use Rattle.std.proofs.Common.{inl, inr};

    type Cmd = u64;

    type Reply = u64;

    type Hint = ();

    type Mark = ();

    ghost step = { λ s n. if nat_le (s.total + n) 100 then inl (record { total = s.total + n }, (s.total + n, tt)) else inr s.total };

    ghost prepared = { λ h s. Unit {0} };

    ghost place = { λ h. 0 };

    fn apply(
        &self,
        _alloc: Global,
        cmd: &u64,
        _hint: Option<&()>,
        _since: &[Entry<Counter>],
    ) -> Result<Applied<Counter>, AllocError> {
        let Some(total) = self.total.checked_add(*cmd) else {
            return Ok(Applied::Refused { reply: self.total });
        };
        if total <= 100 {
            return Ok(Applied::Done {
                next: Counter { total },
                reply: total,
                mark: (),
            });
        }
        Ok(Applied::Refused { reply: self.total })
    }

    fn prepared_at(_hint: &()) -> u64 {
        0
    }

    fn copy_reply(_alloc: Global, reply: &u64) -> Result<u64, AllocError> {
        Ok(*reply)
    }
}
