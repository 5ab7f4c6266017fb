//! Why a call of the store was not done.
ghost use Rattle.std.specs.Prelude.{◌≡◌};
ghost use Rattle.farm_store.specs.Faults.{store_fault_code};

use farm_types::{BAD_STORE, NEW_SCHEMA, NO_MEMORY, OLD_SCHEMA, Refusal, STORE, WordFault};
use sqlite::Error as SqlError;
use std::alloc::AllocError;
use thiserror::Error;

/// A call of the store was not done. The texts are those of the table of refusals.
#[derive(Clone, Copy, Debug, PartialEq, Eq, Error)]
pub enum StoreFault {
    /// A growth of this crate's own was refused.
    #[error("{}", Refusal {code: NO_MEMORY})]
    NoMemory,
    /// The store failed, or had no memory of its own.
    #[error("{}", Refusal {code: STORE})]
    Store,
    /// The tables hold what is no row of a farm.
    #[error("{}", Refusal {code: BAD_STORE})]
    BadStore,
    /// The tables are those of an earlier edition.
    #[error("{}", Refusal {code: OLD_SCHEMA})]
    OldSchema,
    /// The tables are those of this edition, where those of the earlier one are wanted.
    #[error("{}", Refusal {code: NEW_SCHEMA})]
    NewSchema,
}

impl StoreFault {
    /// The number that callers get.
    pub fn code(self) -> u16
        ensures { result ≡ store_fault_code self }
    {
        match self {
            StoreFault::NoMemory => NO_MEMORY,
            StoreFault::Store => STORE,
            StoreFault::BadStore => BAD_STORE,
            StoreFault::OldSchema => OLD_SCHEMA,
            StoreFault::NewSchema => NEW_SCHEMA,
        }
    }
}

impl From<AllocError> for StoreFault {
    ghost use Rattle.std.specs.Prelude.{◌≡◌};
    ghost use Rattle.farm_store.specs.declared.fault.StoreFault.TheVariants.{NoMemory};

    ghost from_gives = { λ _ fault. fault ≡ NoMemory };

    fn from(_: AllocError) -> StoreFault {
        StoreFault::NoMemory
    }
}

impl From<WordFault> for StoreFault {
    ghost use Rattle.std.specs.Prelude.{◌≡◌};
    ghost use Rattle.farm_store.specs.Faults.{fault_of_word};

    ghost from_gives = { λ cause fault. fault ≡ fault_of_word cause };

    fn from(cause: WordFault) -> StoreFault {
        match cause {
            WordFault::NoMemory => StoreFault::NoMemory,
            WordFault::Refused(_) => StoreFault::BadStore,
        }
    }
}

impl From<Refusal> for StoreFault {
    ghost use Rattle.std.specs.Prelude.{◌≡◌};
    ghost use Rattle.farm_store.specs.declared.fault.StoreFault.TheVariants.{BadStore};

    ghost from_gives = { λ _ fault. fault ≡ BadStore };

    fn from(_: Refusal) -> StoreFault {
        StoreFault::BadStore
    }
}

impl From<SqlError> for StoreFault {
    ghost use Rattle.std.specs.Prelude.{◌≡◌};
    ghost use Rattle.farm_store.specs.declared.fault.StoreFault.TheVariants.{Store};

    ghost from_gives = { λ _ fault. fault ≡ Store };

    fn from(_: SqlError) -> StoreFault {
        StoreFault::Store
    }
}
