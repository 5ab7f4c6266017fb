//! Why words give no order.
ghost use Rattle.clap.specs.Words.{kind_of};
ghost use Rattle.farm_cli.specs.Faults.{IsOfKind};

use clap::error::ErrorKind;
use std::alloc::{AllocError, Global};
use thiserror::Error;

/// Why words give no order.
#[derive(Debug, Drop, Error)]
pub enum OrderFault {
    /// Help, or the version, was asked for: the text to print on the output.
    #[error("help")]
    Help(String),
    /// The words are refused: the text to print beside the output.
    #[error("words")]
    Words(String),
    #[error("no memory")]
    NoMemory,
}

impl From<AllocError> for OrderFault {
    ghost use Rattle.std.specs.Prelude.{◌≡◌};
    ghost use Rattle.farm_cli.specs.declared.fault.OrderFault.TheVariants.{NoMemory};

    ghost from_gives = { λ _ e. e ≡ NoMemory };

    fn from(_e: AllocError) -> OrderFault {
        OrderFault::NoMemory
    }
}

/// The fault that the reader of words found, with its text.
pub(crate) fn fault_of(alloc: Global, error: &clap::Error) -> OrderFault
    ensures { IsOfKind (kind_of error.now) result }
{
    match (error.kind(), error.to_string(alloc)) {
        (ErrorKind::OutOfMemory, _) | (_, Err(_)) => OrderFault::NoMemory,
        (ErrorKind::DisplayHelp | ErrorKind::DisplayVersion, Ok(text)) => OrderFault::Help(text),
        (_, Ok(text)) => OrderFault::Words(text),
    }
}
