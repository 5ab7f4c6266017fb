//! Why there is no report.
use farm_types::{BAD_MOMENT, NO_MEMORY, Refusal};
use std::alloc::AllocError;
use thiserror::Error;

/// Why there is no report.
#[derive(Clone, Copy, Debug, PartialEq, Eq, Error)]
pub enum ReportFault {
    #[error("{}", Refusal {code: NO_MEMORY})]
    NoMemory,
    /// A moment lies behind the year 9999, where the calendar ends. No sound farm has one.
    #[error("{}", Refusal {code: BAD_MOMENT})]
    BadMoment,
}

impl From<AllocError> for ReportFault {
    ghost use Rattle.std.specs.Prelude.{◌≡◌};
    ghost use Rattle.farm_report.specs.declared.fault.ReportFault.TheVariants.{NoMemory};

    ghost from_gives = { λ _ e. e ≡ NoMemory };

    fn from(_e: AllocError) -> ReportFault {
        ReportFault::NoMemory
    }
}
