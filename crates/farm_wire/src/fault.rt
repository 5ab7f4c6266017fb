//! The errors of reading what a request asks: a refusal, a wrong method, or no memory.
ghost use Rattle.std.specs.Prelude.{◌≡◌};

use crate::answers::Allowed;
use farm_types::{NO_MEMORY, Refusal, WRONG_METHOD, WordFault};
use thiserror::Error;

/// Why a request asks nothing.
#[derive(Clone, Copy, Debug, PartialEq, Eq, Error)]
pub enum AskFault {
    /// A refusal, which is the answer.
    #[error("{0}")]
    Refused(Refusal),
    /// The path has other methods, these.
    #[error("{}", Refusal {code: WRONG_METHOD})]
    Method(Allowed),
    /// Memory ran out, and nothing is known of the request.
    #[error("{}", Refusal {code: NO_MEMORY})]
    NoMemory,
}

impl From<WordFault> for AskFault {
    ghost use Rattle.farm_wire.specs.Reading.{fault_of_word};

    ghost from_gives = { λ fault e. e ≡ fault_of_word fault };

    fn from(fault: WordFault) -> AskFault {
        match fault {
            WordFault::Refused(refusal) => AskFault::Refused(refusal),
            WordFault::NoMemory => AskFault::NoMemory,
        }
    }
}
