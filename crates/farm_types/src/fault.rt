//! Why a word is not read.
use crate::refusal::{NO_MEMORY, Refusal};
use std::alloc::{AllocError, AllocFailed};
use thiserror::Error;

/// Why a word is not read: its text is refused, or there is no memory to keep it.
#[derive(Debug, Drop, Error)]
pub enum WordFault {
    #[error("{0}")]
    Refused(Refusal),
    #[error("{}", Refusal {code: NO_MEMORY})]
    NoMemory,
}

impl From<Refusal> for WordFault {
    ghost use Rattle.std.specs.Prelude.{◌≡◌};
    ghost use Rattle.farm_types.specs.declared.fault.WordFault.TheVariants.{Refused};

    ghost from_gives = { λ refusal e. e ≡ Refused refusal };

    fn from(refusal: Refusal) -> WordFault {
        WordFault::Refused(refusal)
    }
}

impl From<AllocError> for WordFault {
    ghost use Rattle.std.specs.Prelude.{◌≡◌};
    ghost use Rattle.farm_types.specs.declared.fault.WordFault.TheVariants.{NoMemory};

    ghost from_gives = { λ _ e. e ≡ NoMemory };

    fn from(_e: AllocError) -> WordFault {
        WordFault::NoMemory
    }
}

impl<T: Drop> From<AllocFailed<T>> for WordFault {
    ghost use Rattle.std.specs.Prelude.{◌≡◌};
    ghost use Rattle.farm_types.specs.declared.fault.WordFault.TheVariants.{NoMemory};

    ghost from_gives = { λ _ e. e ≡ NoMemory };

    fn from(_e: AllocFailed<T>) -> WordFault {
        WordFault::NoMemory
    }
}
