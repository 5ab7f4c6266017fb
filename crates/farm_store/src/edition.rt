//! The two editions of the tables.
ghost use Rattle.std.specs.Prelude.{◌≡◌};
ghost use Rattle.farm_store.specs.Editions.{other_edition, schema_of, version_fault};

use crate::fault::StoreFault;
use crate::schema::{FIRST_SCHEMA, SCHEMA};

/// An edition of the tables: which codes the states of jobs have, and whether a number says which
/// group collects.
#[derive(Clone, Copy, Debug)]
pub(crate) enum Edition {
    First,
    Second,
}

impl Edition {
    /// The version of its tables, that of the other edition's, and how these are refused where its
    /// own are wanted.
    pub(crate) fn versions(self) -> (u64, u64, StoreFault)
        ensures { result ≡ (
          schema_of self,
          schema_of (other_edition self),
          version_fault (other_edition self),
        ) }
    {
        match self {
            Edition::First => (FIRST_SCHEMA, SCHEMA, StoreFault::NewSchema),
            Edition::Second => (SCHEMA, FIRST_SCHEMA, StoreFault::OldSchema),
        }
    }
}
