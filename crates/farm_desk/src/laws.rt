//! What is proved of farms in files, and of the exit statuses.
ghost use Rattle.farm_desk.specs.Faults.{ExitStatusesAgree};
ghost use Rattle.farm_desk.specs.InFiles.{LeavesFiles, LeavesImportedFiles, LeavesServedFiles};
ghost use Rattle.farm_desk.specs.InFiles.{LeavesEitherFile};

use farm_keep::Keeper;
use farm_serve::Clients;
use sqlite::{Connection, FileStore};
use sqlite_disk::Disk;

/// The crash prefix in files: whatever a stop leaves of the files of a keeper after a run, however
/// the run ended, they hold the farm after the calls that were answered or, where a fault of the
/// store ended it, perhaps after one call more. `open_farm` says that a keeper which is opened on
/// files that hold a farm has exactly that farm.
pub fn stopped_files_hold<D: Disk + Drop>(keeper: Keeper<FileStore<D>>) -> FileStore<D>
    ensures { LeavesFiles keeper result }
{
    keeper.into_connection().into_store()
}

/// The crash prefix of what the program does, in files: whatever a stop leaves of the files of a
/// keeper once clients were served, by whatever ended it, they hold the farm after calls that the
/// clients' bytes ask, in their order, with every one that was answered whole. `AreServedInTurn` is
/// what `farm_serve::serve` ensures of its clients, and holds of each front of them too.
pub fn served_files_hold<D: Disk + Drop, K: Clients>(keeper: Keeper<FileStore<D>>) -> FileStore<D>
    ensures { LeavesServedFiles K.Reader.never_fails keeper result }
{
    keeper.into_connection().into_store()
}

/// And of an import, by `IsImport`, which `farm_serve::import` ensures.
pub fn imported_files_hold<D: Disk + Drop>(keeper: Keeper<FileStore<D>>) -> FileStore<D>
    ensures { LeavesImportedFiles keeper result }
{
    keeper.into_connection().into_store()
}

/// The same of an upgrade: where a stop leaves no more of a connection than a farm's tables of the
/// first edition or of this one, as `farm_keep::migrate` says of its own at every exit, then
/// whatever it leaves of the files holds that farm, in the one edition or the other.
pub fn upgraded_files_hold<D: Disk + Drop>(conn: Connection<FileStore<D>>) -> FileStore<D>
    ensures { LeavesEitherFile conn result }
{
    conn.into_store()
}

/// The exit statuses of the code are those of the definitions.
pub fn statuses_agree()
    ensures { ExitStatusesAgree }
{}
