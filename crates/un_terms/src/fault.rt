ghost use Rattle.un_terms.specs.declared.fault.TermFault.TheVariants.{Memory};
ghost use Rattle.std.specs.Prelude.{◌≡◌};

use std::alloc::AllocError;
use thiserror::Error;

/// Why a configuration was not taken.
#[derive(Clone, Copy, Debug, PartialEq, Eq, Hash, Error)]
pub enum TermFault {
    /// The first path that has a pair of one terminal, of a terminal that is not there, in the wrong order, or a pair twice.
    #[error("path {path} has a bad pair")]
    BadPair { path: usize },
    #[error("out of memory")]
    Memory,
}

impl From<AllocError> for TermFault {
    ghost from_gives = { λ _ e. e ≡ Memory };

    fn from(_failed: AllocError) -> TermFault {
        TermFault::Memory
    }
}
