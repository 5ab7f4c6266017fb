//! Why no request was read, or no answer written.
ghost use Rattle.std.specs.Prelude.{◌≡◌};

use farm_types::{NO_MEMORY, READ, Refusal, WRITE};
use thiserror::Error;

/// Why no request was read, or no answer written.
#[derive(Clone, Copy, Debug, PartialEq, Eq, Error)]
pub enum WireFault {
    /// The room for a request was refused, and nothing was read.
    #[error("{}", Refusal {code: NO_MEMORY})]
    NoMemory,
    /// The reader failed, or gave no request in 80,000 calls.
    #[error("{}", Refusal {code: READ})]
    Read,
    /// The writer failed, took no byte or was interrupted.
    #[error("{}", Refusal {code: WRITE})]
    Write,
    /// The bytes that came are no request that the desk reads.
    #[error("{0}")]
    Refused(Refusal),
}

impl From<Refusal> for WireFault {
    ghost use Rattle.farm_http.specs.declared.fault.WireFault.TheVariants.{Refused as refused};

    ghost from_gives = { λ r e. e ≡ refused r };

    fn from(refusal: Refusal) -> WireFault {
        WireFault::Refused(refusal)
    }
}
