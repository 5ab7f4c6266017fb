//! Why a keeper gave no answer.
ghost use Rattle.std.specs.Prelude.{◌≡◌};
ghost use Rattle.farm_keep.specs.Faults.{keep_fault_code};

use farm_core::BadRows;
use farm_store::StoreFault;
use farm_types::{BAD_STORE, CLOSED, NEW_SCHEMA, NO_MEMORY, OLD_SCHEMA, Refusal, STORE};
use thiserror::Error;

/// Why a keeper gave no answer. The texts are those of the table of refusals.
#[derive(Clone, Copy, Debug, PartialEq, Eq, Error)]
pub enum KeepFault {
    /// There was no memory, and nothing was stored.
    #[error("{}", Refusal {code: NO_MEMORY})]
    NoMemory,
    /// A call of the store was refused: the command is stored, or it isn't.
    #[error("{}", Refusal {code: STORE})]
    Store,
    /// An earlier fault closed the keeper.
    #[error("{}", Refusal {code: CLOSED})]
    Closed,
    /// The tables are those of no sound farm.
    #[error("{}", Refusal {code: BAD_STORE})]
    BadStore,
    /// The tables are those of an earlier edition.
    #[error("{}", Refusal {code: OLD_SCHEMA})]
    OldSchema,
    /// The tables are those of this edition, where those of the earlier one are wanted.
    #[error("{}", Refusal {code: NEW_SCHEMA})]
    NewSchema,
}

impl KeepFault {
    /// The number that callers get.
    pub fn code(self) -> u16
        ensures { result ≡ keep_fault_code self }
    {
        match self {
            KeepFault::NoMemory => NO_MEMORY,
            KeepFault::Store => STORE,
            KeepFault::Closed => CLOSED,
            KeepFault::BadStore => BAD_STORE,
            KeepFault::OldSchema => OLD_SCHEMA,
            KeepFault::NewSchema => NEW_SCHEMA,
        }
    }
}

impl From<BadRows> for KeepFault {
    ghost use Rattle.std.specs.Prelude.{◌≡◌};
    ghost use Rattle.farm_keep.specs.Faults.{rows_fault};

    ghost from_gives = { λ cause fault. fault ≡ rows_fault cause };

    fn from(cause: BadRows) -> KeepFault {
        match cause {
            BadRows::Unsound => KeepFault::BadStore,
            BadRows::NoMemory => KeepFault::NoMemory,
        }
    }
}

impl From<StoreFault> for KeepFault {
    ghost use Rattle.std.specs.Prelude.{◌≡◌};
    ghost use Rattle.farm_keep.specs.Faults.{fault_of_store};

    ghost from_gives = { λ cause fault. fault ≡ fault_of_store cause };

    fn from(cause: StoreFault) -> KeepFault {
        match cause {
            StoreFault::NoMemory => KeepFault::NoMemory,
            StoreFault::Store => KeepFault::Store,
            StoreFault::BadStore => KeepFault::BadStore,
            StoreFault::OldSchema => KeepFault::OldSchema,
            StoreFault::NewSchema => KeepFault::NewSchema,
        }
    }
}
