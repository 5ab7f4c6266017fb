//! Why a conversation or an import ended without an answer of the farm.
ghost use Rattle.std.specs.Prelude.{◌≡◌};
ghost use Rattle.farm_serve.specs.Faults.{desk_fault_code};

use farm_jobfile::FileFault;
use farm_keep::{KeepFault, Unkept};
use farm_types::{NO_MEMORY, READ, Refusal, WRITE};
use sqlite::Alter;
use thiserror::Error;

/// Why a conversation or an import ended without an answer of the farm. The texts are those of the
/// table of refusals.
#[derive(Clone, Copy, Debug, PartialEq, Eq, Error)]
pub enum DeskFault {
    /// There was no memory to read the request, to understand it or to answer it.
    #[error("{}", Refusal {code: NO_MEMORY})]
    NoMemory,
    /// The reader failed, or returned no request in 80,000 calls.
    #[error("{}", Refusal {code: READ})]
    Read,
    /// The writer failed, took no byte or was interrupted.
    #[error("{}", Refusal {code: WRITE})]
    Write,
    /// The keeper returned a fault, and is closed.
    #[error("{0}")]
    Keep(KeepFault),
    /// The file of an import is bad, or there was no memory to read it.
    #[error("{0}")]
    File(FileFault),
}

impl From<KeepFault> for DeskFault {
    ghost use Rattle.farm_serve.specs.declared.fault.DeskFault.TheVariants.{Keep};

    ghost from_gives = { λ fault e. e ≡ Keep fault };

    fn from(fault: KeepFault) -> DeskFault {
        DeskFault::Keep(fault)
    }
}

impl<S: Alter + Drop> From<Unkept<S>> for DeskFault {
    ghost use Rattle.farm_serve.specs.declared.fault.DeskFault.TheVariants.{Keep};

    ghost from_gives = { λ unkept e. e ≡ Keep unkept.fault };

    fn from(unkept: Unkept<S>) -> DeskFault {
        DeskFault::Keep(unkept.fault())
    }
}

impl DeskFault {
    /// Its number in the table of refusals.
    pub fn code(self) -> u16
        ensures { result ≡ desk_fault_code self }
    {
        match self {
            DeskFault::NoMemory => NO_MEMORY,
            DeskFault::Read => READ,
            DeskFault::Write => WRITE,
            DeskFault::Keep(fault) => fault.code(),
            DeskFault::File(fault) => fault.code(),
        }
    }
}
