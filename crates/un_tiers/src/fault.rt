ghost use Rattle.un_tiers.specs.declared.fault.TierFault.TheVariants.{Memory};
ghost use Rattle.std.specs.Prelude.{◌≡◌};

use std::alloc::{AllocError, AllocFailed};
use thiserror::Error;

/// Why tiers were not taken.
#[derive(Clone, Copy, Debug, PartialEq, Eq, Hash, Error)]
pub enum TierFault {
    /// The first tier whose name has not the form of a name or stands before, whose condition names what is not there or is too deep
    /// or too large, or that is the seventeenth.
    #[error("the tier at place {place} is bad")]
    BadTier { place: usize },
    #[error("out of memory")]
    Memory,
}

impl<T: Drop> From<AllocFailed<T>> for TierFault {
    ghost from_gives = { λ _ e. e ≡ Memory };

    fn from(_failed: AllocFailed<T>) -> TierFault {
        TierFault::Memory
    }
}

impl From<AllocError> for TierFault {
    ghost from_gives = { λ _ e. e ≡ Memory };

    fn from(_failed: AllocError) -> TierFault {
        TierFault::Memory
    }
}
