//! Why a file spells nothing.
ghost use Rattle.std.specs.Prelude.{◌≡◌};

use farm_types::{BAD_JOB_FILE, BAD_LAB_FILE, NO_MEMORY, Refusal, WordFault};
use std::alloc::{AllocError, AllocFailed};
use thiserror::Error;

/// The two kinds of files.
#[derive(Clone, Copy, Debug, PartialEq, Eq)]
pub enum FileKind {
    JobFile,
    LabFile,
}

/// What is wrong with a file.
#[derive(Clone, Copy, Debug, PartialEq, Eq)]
pub enum Reason {
    /// It has more bytes than such a file may have.
    TooLong,
    /// It is no UTF-8, or no TOML 1.1.
    NotToml,
    /// A key that must be there is absent, or the job's name is empty.
    Missing,
    /// A value is of another kind than its key asks for.
    WrongKind,
    /// A job asks for one board and for roles.
    Both,
}

/// What is wrong with a text, whatever memory there is.
#[derive(Clone, Copy)]
pub enum Fault {
    /// The file is bad.
    Bad(FileKind, Reason),
    /// A word of it is refused, or a count.
    Word(Refusal),
}

/// Why a file spells nothing.
#[derive(Clone, Copy, Debug, PartialEq, Eq, Error)]
pub enum FileFault {
    /// The file is bad.
    #[error("{}", Refusal {code: .kind.code()})]
    Bad { kind: FileKind, reason: Reason },
    /// A word of it is refused, or a count.
    #[error("{0}")]
    Word(Refusal),
    /// Memory ran out, and nothing is known of the file.
    #[error("{}", Refusal {code: NO_MEMORY})]
    NoMemory,
}

/// What reading a file gives.
pub(crate) type FileResult<T> = Result<T, FileFault>;

impl FileKind {
    ghost use Rattle.farm_jobfile.specs.Reading.{code_of_kind};
    ghost use Rattle.farm_jobfile.specs.declared.fault.FileFault.{FileFault};

    /// The fault of a file of this kind.
    pub fn bad(self, reason: Reason) -> FileFault
        ensures { result ≡ FileFault.Bad self reason }
    {
        FileFault::Bad { kind: self, reason }
    }

    /// The number of the refusal of such a file.
    pub fn code(self) -> u16
        ensures { result ≡ code_of_kind self }
    {
        match self {
            FileKind::JobFile => BAD_JOB_FILE,
            FileKind::LabFile => BAD_LAB_FILE,
        }
    }
}

impl FileFault {
    ghost use Rattle.farm_jobfile.specs.Reading.{file_fault_code};

    /// The number of the fault in the one table of refusals.
    pub fn code(self) -> u16
        ensures { result ≡ file_fault_code self }
    {
        match self {
            FileFault::Bad { kind, .. } => kind.code(),
            FileFault::Word(refusal) => refusal.code,
            FileFault::NoMemory => NO_MEMORY,
        }
    }
}

impl From<Fault> for FileFault {
    ghost use Rattle.std.specs.Prelude.{◌≡◌, Some};
    ghost use Rattle.farm_jobfile.specs.Reading.{text_fault};

    ghost from_gives = { λ fault e. text_fault e ≡ Some fault };

    fn from(fault: Fault) -> FileFault {
        match fault {
            Fault::Bad(kind, reason) => FileFault::Bad { kind, reason },
            Fault::Word(refusal) => FileFault::Word(refusal),
        }
    }
}

impl From<AllocError> for FileFault {
    ghost use Rattle.std.specs.Prelude.{◌≡◌};
    ghost use Rattle.farm_jobfile.specs.declared.fault.FileFault.TheVariants.{NoMemory};

    ghost from_gives = { λ _ e. e ≡ NoMemory };

    fn from(_e: AllocError) -> FileFault {
        FileFault::NoMemory
    }
}

impl<T: Drop> From<AllocFailed<T>> for FileFault {
    ghost use Rattle.std.specs.Prelude.{◌≡◌};
    ghost use Rattle.farm_jobfile.specs.declared.fault.FileFault.TheVariants.{NoMemory};

    ghost from_gives = { λ _ e. e ≡ NoMemory };

    fn from(_e: AllocFailed<T>) -> FileFault {
        FileFault::NoMemory
    }
}

impl From<WordFault> for FileFault {
    ghost use Rattle.std.specs.Prelude.{◌≡◌};
    ghost use Rattle.farm_jobfile.specs.Reading.{of_word};

    ghost from_gives = { λ w e. e ≡ of_word w };

    fn from(fault: WordFault) -> FileFault {
        match fault {
            WordFault::Refused(refusal) => FileFault::Word(refusal),
            WordFault::NoMemory => FileFault::NoMemory,
        }
    }
}
