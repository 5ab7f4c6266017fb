//! Carrying a farm's log into its file before the farm is used.
//!
//! After a sync that failed Linux counts pages of the log as written that the disk doesn't have, and
//! shows them to whoever opens the log again. A desk that answered commands behind such pages would
//! lose them with the next power cut. So a log that may have pages is copied into the file at opening,
//! which writes each of its pages anew, and syncs. Before that it is looked whether the files hold a
//! farm: where they hold none they stay as they are.
ghost use Rattle.std.specs.Prelude.{◌≡◌, false, IfErr, IfOk};
ghost use Rattle.sqlite.specs.Files.{over_files};
ghost use Rattle.sqlite_wal.specs.Recovery.{Image};
ghost use Rattle.farm_desk.specs.InFiles.{BeginsAlone, FindsFarm, IsCarried, IsFoundAgain};
ghost use Rattle.farm_desk.specs.InFiles.{IsOpenFault, OpensFiles};

use crate::at_hand::{find_in, find_on};
use farm_keep::{KeepFault, Keeper};
use farm_serve::DeskFault;
use sqlite::{Connection, FileStore, Options};
use sqlite_disk::Disk;
use std::alloc::Global;

/// A store over files that were just opened, and whether their log was too short for a page.
pub(crate) type Opened<D> = (Connection<FileStore<D>>, bool);

/// A keeper of the farm that files hold which were just opened; where their log may have pages, once
/// these are in the file.
pub(crate) fn find_carried<D: Disk + Drop>(
    alloc: Global,
    opened: Opened<D>,
    options: Options,
) -> Result<Keeper<FileStore<D>>, DeskFault>
    requires { opened.0.in_transaction ≡ false }
    ensures found { IfOk result (λ k. (image : Image) → OpensFiles image opened
        → FindsFarm image k) }
    ensures alone { IfOk result (λ k. (image : Image) → OpensFiles image opened
        → BeginsAlone image k) }
    ensures fault { IfErr result IsOpenFault }
{
    let (conn, is_short) = opened;
    match find_on(alloc, conn) {
        Ok(keeper) if is_short => Ok(keeper),
        Ok(keeper) => carry(alloc, keeper, options),
        Err(unkept) => Err(DeskFault::Keep(unkept.fault())),
    }
}

/// A keeper of the same farm over the same files, whose log is in the file then.
fn carry<D: Disk + Drop>(
    alloc: Global,
    keeper: Keeper<FileStore<D>>,
    options: Options,
) -> Result<Keeper<FileStore<D>>, DeskFault>
    ensures again { IfOk result (IsFoundAgain keeper) }
    ensures fault { IfErr result IsOpenFault }
{
    let conn = reopen(alloc, keeper.into_connection(), options)?;
    match find_in(alloc, conn) {
        Ok(again) => Ok(again),
        Err(unkept) => Err(DeskFault::Keep(unkept.fault())),
    }
}

/// Closes a store, which copies its log into its file, and opens the same files again.
fn reopen<D: Disk + Drop>(
    alloc: Global,
    conn: Connection<FileStore<D>>,
    options: Options,
) -> Result<Connection<FileStore<D>>, DeskFault>
    ensures carried { IfOk result (IsCarried conn) }
    ensures mode { IfOk result (λ opened. opened.in_transaction ≡ false) }
    ensures fault { IfErr result (λ fault. fault ≡ DeskFault.Keep KeepFault.Store) }
{
    let files = match conn.close_files() {
        Ok(files) => files,
        Err((_, store)) => {
            drop(store.close());
            return Err(DeskFault::Keep(KeepFault::Store));
        }
    };
    match Connection::open_files(alloc, files, options) {
        Ok(opened) => Ok(opened),
        Err(_) => Err(DeskFault::Keep(KeepFault::Store)),
    }
}
