//! Lab files: opening one, and reading its text.
ghost use Rattle.std.specs.Prelude.{◌≡◌, ◌⊎◌, ◌↔◌, List, None, Option, IfOk, ℕ};
ghost use Rattle.std.specs.IoError.{error_kind};
ghost use Rattle.std.specs.declared.io.ErrorKind.TheVariants.{OutOfMemory};
ghost use Rattle.farm_desk.specs.Orders.{IsTextOf};

use farm_serve::DeskFault;
use farm_types::LONGEST_LAB_FILE;
use std::alloc::Global;
use std::fs::File;
use std::io::{self, ErrorKind, Read};

/// Where the lab file at a path is opened.
pub trait LabFiles {
    /// What its bytes are read from.
    type Reader: Read + Drop;

    /// The bytes of the file at a path, where they are known.
    ghost contents: { Self → List ℕ → Option (List ℕ) };

    /// Opens the file at a path, or returns the system's error.
    fn open(&self, path: &str) -> io::Result<Self::Reader>
        ensures { IfOk result (λ reader. Self.Reader.remaining reader ≡ contents self.now path.now) };
}

/// The system's files: of them nothing is known.
impl LabFiles for HostRuntime {
    type Reader = File;

    ghost contents = { λ _ _. None };

    fn open(&self, path: &str) -> io::Result<File> {
        File::open(self, path)
    }
}

/// The bytes of the lab file at a path; of one that is too long so many that they show it.
pub(crate) fn read_lab<L: LabFiles>(alloc: Global, labs: &L, path: &str) -> io::Result<Vec<u8>>
    ensures { IfOk result (λ bytes. IsTextOf (L.contents labs.now path.now) bytes.items) }
{
    read_lab_from(alloc, labs.open(path)?)
}

/// The first bytes of a reader, one more than a lab file may have.
fn read_lab_from<R: Read + Drop>(alloc: Global, reader: R) -> io::Result<Vec<u8>>
    ensures { IfOk result (λ bytes. IsTextOf (R.remaining reader) bytes.items) }
{
    let mut bytes = Vec::new(alloc);
    let mut start = reader.take(LONGEST_LAB_FILE as u64 + 1);
    start.read_to_end(&mut bytes)?;
    Ok(bytes)
}

/// What it is that no lab file could be read.
pub(crate) fn lab_fault(error: &io::Error) -> DeskFault
    ensures fault { (result ≡ DeskFault.NoMemory) ⊎ (result ≡ DeskFault.Read) }
    ensures memory { (result ≡ DeskFault.NoMemory) ↔ (error_kind error.now ≡ OutOfMemory) }
{
    match error.kind() {
        ErrorKind::OutOfMemory => DeskFault::NoMemory,
        _ => DeskFault::Read,
    }
}
