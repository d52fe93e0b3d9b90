ghost use Rattle.un_conds.specs.declared.fault.CondFault.TheVariants.{Memory};
ghost use Rattle.std.specs.Prelude.{◌≡◌};

use std::alloc::AllocFailed;
use thiserror::Error;

/// Why a condition was not taken.
#[derive(Clone, Copy, Debug, PartialEq, Eq, Hash, Error)]
pub enum CondFault {
    /// It names an attribute or a category that is not there, is more than 16 deep, or has more than 64 parts.
    #[error("the condition names what is not there, is too deep or too large")]
    BadCondition,
    #[error("out of memory")]
    Memory,
}

impl<T: Drop> From<AllocFailed<T>> for CondFault {
    ghost from_gives = { λ _ e. e ≡ Memory };

    fn from(_failed: AllocFailed<T>) -> CondFault {
        CondFault::Memory
    }
}
