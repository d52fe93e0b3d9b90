use crate::place::Place;
use std::alloc::{AllocError, AllocFailed};
use thiserror::Error;
use un_terms::TermFault;

/// Why a schema was not taken.
#[derive(Clone, Copy, Debug, PartialEq, Eq, Hash, Error)]
pub enum SchemaFault {
    /// The first member that is missing or bad.
    #[error("the schema is bad at {place:?}")]
    BadSchema { place: Place },
    #[error("out of memory")]
    Memory,
}

/// Why a member of a schema was not taken.
#[derive(Clone, Copy, Debug, PartialEq, Eq, Hash)]
pub(crate) enum MemberFault {
    /// It is missing or bad.
    Bad,
    Memory,
}

impl<T: Drop> From<AllocFailed<T>> for SchemaFault {
    ghost use Rattle.un_schema.specs.declared.schema_fault.SchemaFault.TheVariants.{Memory};
    ghost use Rattle.std.specs.Prelude.{◌≡◌};

    ghost from_gives = { λ _ e. e ≡ Memory };

    fn from(_failed: AllocFailed<T>) -> SchemaFault {
        SchemaFault::Memory
    }
}

impl From<AllocError> for SchemaFault {
    ghost use Rattle.un_schema.specs.declared.schema_fault.SchemaFault.TheVariants.{Memory};
    ghost use Rattle.std.specs.Prelude.{◌≡◌};

    ghost from_gives = { λ _ e. e ≡ Memory };

    fn from(_failed: AllocError) -> SchemaFault {
        SchemaFault::Memory
    }
}

impl<T: Drop> From<AllocFailed<T>> for MemberFault {
    ghost use Rattle.un_schema.specs.declared.schema_fault.MemberFault.TheVariants.{Memory};
    ghost use Rattle.std.specs.Prelude.{◌≡◌};

    ghost from_gives = { λ _ e. e ≡ Memory };

    fn from(_failed: AllocFailed<T>) -> MemberFault {
        MemberFault::Memory
    }
}

impl From<AllocError> for MemberFault {
    ghost use Rattle.un_schema.specs.declared.schema_fault.MemberFault.TheVariants.{Memory};
    ghost use Rattle.std.specs.Prelude.{◌≡◌};

    ghost from_gives = { λ _ e. e ≡ Memory };

    fn from(_failed: AllocError) -> MemberFault {
        MemberFault::Memory
    }
}

impl From<TermFault> for MemberFault {
    ghost use Rattle.std.specs.Prelude.{◌≡◌};
    ghost use Rattle.un_schema.specs.SchemaFaults.{of_terms};

    ghost from_gives = { λ fault e. e ≡ of_terms fault };

    fn from(fault: TermFault) -> MemberFault {
        match fault {
            TermFault::BadPair { .. } => MemberFault::Bad,
            TermFault::Memory => MemberFault::Memory,
        }
    }
}
