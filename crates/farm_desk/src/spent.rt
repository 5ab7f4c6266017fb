//! Values with which nothing more is done.
//!
//! No clause can speak of what was let go. So a farm is spent where it is used last, under a clause
//! that says what it is then: who has it from there on can let it go, or close its files, and do
//! nothing else with it.
ghost use Rattle.std.specs.Prelude.{◌≡◌, IfErr, IfOk};
ghost use Rattle.sqlite.specs.Closing.{IsCopied};
ghost use Rattle.sqlite.specs.Files.{IsClosed};
ghost use Rattle.sqlite_wal.specs.Reads.{AreClean};

use sqlite::{Connection, Error, FileStore, Files};
use sqlite_disk::Disk;

/// A value that nobody can use again.
#[derive(Drop)]
pub(crate) struct Spent<T> {
    it: T,
}

/// The two files of a store that was closed; or the store, and why its log isn't in its file.
pub(crate) type Closed<D> = Result<Files<D>, (Error, FileStore<D>)>;

impl<T> Spent<T> {
    /// This value, which nobody uses again.
    pub(crate) fn of(it: T) -> Spent<T>
        ensures { result.it ≡ it }
    {
        Spent { it }
    }
}

/// Copies the log into the file, and closes the store. The log is as good where that fails.
pub(crate) fn close<D: Disk + Drop>(spent: Spent<Connection<FileStore<D>>>) -> Spent<Closed<D>>
    // The file alone holds the last commit, now and after a stop.
    ensures copied { IfOk result.it (λ files. AreClean D.Disk files.log files.db
        → IsCopied spent.it files) }

    // A stop leaves what it left before.
    ensures left { IfErr result.it (λ e. IsClosed spent.it e.1) }
{
    Spent::of(spent.it.close_files())
}
