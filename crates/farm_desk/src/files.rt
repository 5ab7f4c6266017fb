//! Farms in files: opening one, making one, and bringing one of the first edition to this one.
ghost use Rattle.std.specs.Prelude.{◌≡◌, false, IfOk, IfErr, IfSome, IsTrue};
ghost use Rattle.sqlite.specs.Files.{image_of};
ghost use Rattle.sqlite_wal.specs.Files.{image_at};
ghost use Rattle.sqlite_wal.specs.Recovery.{Image};
ghost use Rattle.farm_desk.specs.InFiles.{BeginsAlone, FindsFarm, MakesTables, MakesFarm, OpensFiles};
ghost use Rattle.farm_desk.specs.InFiles.{ShowsFiles};
ghost use Rattle.farm_desk.specs.InFiles.{IsOpenFault, handed_on, IsUpgradeFault, RaisesFarm};
ghost use Rattle.farm_desk.specs.Orders.{MakesNewFarm};

use crate::at_hand::raise_on;
use crate::carry::{Opened, find_carried};
use crate::new_file::NewFile;
use crate::preflight::Preflight;
use farm_keep::{KeepFault, Keeper, Unkept};
use farm_serve::DeskFault;
use farm_store::opened_stands;
use sqlite::{Alter, Connection, FileFrom, FileStore, Files, Options, Start};
use sqlite_disk::Disk;
use std::alloc::Global;
use std::hash::{BuildHasher, RandomState};

/// A log of fewer bytes has no page: its own head has 32, and that of a page 24.
const SHORT: usize = 56;

/// The keeper of a farm in a file, and of the log beside it. `S` stands for what the two held.
pub type FileKeeper<S> = Keeper<FileStore<FileFrom<S>>>;

/// Opens a store at a path that was looked at, and says whether its log was too short for a page. What
/// is refused, memory too, is a fault of the store; then what was made is taken away, once what is
/// left of the store is closed.
fn open<S: Start>(
    rt: &HostRuntime,
    preflight: &Preflight<'_>,
    start: S,
) -> Result<Opened<FileFrom<S>>, DeskFault>
    ensures mode { IfOk result (λ opened. opened.0.in_transaction ≡ false) }
    ensures opens { IfOk result (OpensFiles (image_at S.Start)) }
    ensures fault { IfErr result (λ fault. fault ≡ DeskFault.Keep KeepFault.Store) }
{
    match open_at(rt, preflight.file, start) {
        Some(opened) => Ok(opened),
        None => {
            preflight.clean_up(rt);
            Err(DeskFault::Keep(KeepFault::Store))
        }
    }
}

/// The same of a path, and none where anything is refused. As of `Connection::open_from`, a path that
/// SQLite's programs take for something else than a file's is refused.
fn open_at<S: Start>(rt: &HostRuntime, path: &str, start: S) -> Option<Opened<FileFrom<S>>>
    ensures mode { IfSome result (λ opened. opened.0.in_transaction ≡ false) }
    ensures opens { IfSome result (OpensFiles (image_at S.Start)) }
{
    if path == ":memory:" || path.starts_with("file:") {
        return None;
    }
    let options = options(rt)?;
    let Ok(files) = sqlite_std_file::open(rt, path, start) else {
        return None;
    };
    open_over(rt.alloc(), files, options)
}

/// The same of files.
fn open_over<D: Disk + Drop>(
    alloc: Global,
    mut files: Files<D>,
    options: Options,
) -> Option<Opened<D>>
    requires log { IsTrue (D.Disk.is_usable files.log) }
    requires db { IsTrue (D.Disk.is_usable files.db) }
    ensures mode { IfSome result (λ opened. opened.0.in_transaction ≡ false) }
    ensures opens { IfSome result (OpensFiles (image_of D.Disk files)) }
{
    let Ok(length) = files.log.len() else {
        return None;
    };
    let Ok(conn) = Connection::open_files(alloc, files, options) else {
        return None;
    };
    Some((conn, length < SHORT))
}

/// How a store is opened: its logs begin by chance.
fn options(rt: &HostRuntime) -> Option<Options> {
    let seed = RandomState::new(rt).ok()?.hash_one(&0u8);
    Some(Options::new(seed))
}

/// A keeper of the farm in the file at a path. Where there is no database, or one without the
/// farm's tables, that is a fault of the store, and one with the tables of no sound farm is bad.
/// Nothing is made where there is nothing. What a fault leaves of a store the clauses of
/// `farm_keep::found` say, which borrows the connection.
///
/// Before it is used, the log beside the file is copied into it, where that log may have a page: so
/// nothing rests on pages of a log that the system shows and the disk doesn't have. Files without a
/// farm stay as they are.
///
/// Costs one reading of the file, and two where there was a log.
pub fn open_farm<S: Start>(
    rt: &HostRuntime,
    alloc: Global,
    path: &str,
    start: S,
) -> Result<FileKeeper<S>, DeskFault>
    ensures found { IfOk result (FindsFarm (image_at S.Start)) }
    ensures alone { IfOk result (BeginsAlone (image_at S.Start)) }
    ensures fault { IfErr result IsOpenFault }
{
    let looked = Preflight::of_farm(rt, path);
    let preflight = looked.ok_or(DeskFault::Keep(KeepFault::Store))?;
    let options = options(rt).ok_or(DeskFault::Keep(KeepFault::Store))?;
    let opened = open(rt, &preflight, start)?;
    find_carried(alloc, opened, options).inspect_err(|_| preflight.clean_up(rt))
}

/// A keeper of the empty farm in the file at a path, which is made where there is nothing. A file
/// that has a table of these names is refused by the store, and stays as it is; so does a file that
/// is neither empty nor a database, and a log without its file. What was made for a store that
/// fails is taken away again where it holds nothing. What else a fault leaves of one the clauses
/// of `farm_store::create` say, which borrows the connection.
pub fn make_farm<S: Start>(
    rt: &HostRuntime,
    alloc: Global,
    path: &str,
    start: S,
) -> Result<FileKeeper<S>, DeskFault>
    ensures made { IfOk result (MakesFarm (image_at S.Start)) }
    ensures fault { IfErr result (λ fault. fault ≡ DeskFault.Keep KeepFault.Store) }
{
    let looked = Preflight::of_new_farm(rt, path);
    let preflight = looked.ok_or(DeskFault::Keep(KeepFault::Store))?;
    make_at(rt, alloc, &preflight, start)
}

/// A keeper of the empty farm in a new file at a path, whose pages are short; none where there is a
/// file already, or a log that isn't empty, or where no file can be made. What was made for a store
/// that fails is taken away again.
pub fn make_new_farm(
    rt: &HostRuntime,
    alloc: Global,
    path: &str,
) -> Option<Result<FileKeeper<NewFile>, DeskFault>>
    ensures { IfSome result (MakesNewFarm (image_at ⟦<NewFile as Start>⟧)) }
{
    let preflight = Preflight::of_new_file(rt, path)?;
    Some(make_at(rt, alloc, &preflight, NewFile))
}

/// A keeper of the empty farm in files that were looked at.
fn make_at<S: Start>(
    rt: &HostRuntime,
    alloc: Global,
    preflight: &Preflight<'_>,
    start: S,
) -> Result<FileKeeper<S>, DeskFault>
    ensures made { IfOk result (MakesFarm (image_at S.Start)) }
    ensures fault { IfErr result (λ fault. fault ≡ DeskFault.Keep KeepFault.Store) }
{
    let (conn, _) = open(rt, preflight, start)?;
    new_farm_on(alloc, conn).inspect_err(|_| preflight.clean_up(rt))
}

/// A keeper of the empty farm over files that were just opened; its one call is of any store too.
fn new_farm_on<D: Disk + Drop>(
    alloc: Global,
    conn: Connection<FileStore<D>>,
) -> Result<Keeper<FileStore<D>>, DeskFault>
    requires { conn.in_transaction ≡ false }
    ensures made { IfOk result (λ k. (image : Image) → ShowsFiles image conn → MakesFarm image k) }
    ensures fault { IfErr result (λ fault. fault ≡ DeskFault.Keep KeepFault.Store) }
{
    make(alloc, conn)
}

/// A keeper of the empty farm, whose tables are made in a store that was just opened.
fn make<S: Alter + Drop>(alloc: Global, conn: Connection<S>) -> Result<Keeper<S>, DeskFault>
    requires { conn.in_transaction ≡ false }
    ensures made { IfOk result (MakesTables S.Store conn) }
    ensures fault { IfErr result (λ fault. fault ≡ DeskFault.Keep KeepFault.Store) }
{
    opened_stands(&conn);
    let keeper = Keeper::fresh(alloc, conn)?;
    Ok(keeper)
}

/// Makes the first edition's tables of the farm in the file at a path those of this edition, in
/// their place, and returns the store that has them. Where there is no database, or one without the
/// farm's tables, that is a fault of the store; one with the tables of no sound farm of the first
/// edition is bad, and one of this edition is new. What a fault or a stop leaves the clauses of
/// `farm_keep::migrate` say, which borrows the connection. Nothing is made where there is nothing.
///
/// Costs one reading of the file, and one writing of its jobs.
pub fn migrate_farm<S: Start>(
    rt: &HostRuntime,
    alloc: Global,
    path: &str,
    start: S,
) -> Result<Connection<FileStore<FileFrom<S>>>, DeskFault>
    ensures raised { IfOk result (RaisesFarm (image_at S.Start)) }
    ensures fault { IfErr result IsUpgradeFault }
{
    let looked = Preflight::of_farm(rt, path);
    let preflight = looked.ok_or(DeskFault::Keep(KeepFault::Store))?;
    let (conn, _) = open(rt, &preflight, start)?;
    hand_on(raise_on(alloc, conn)).inspect_err(|_| preflight.clean_up(rt))
}

/// What was made of a connection; or why nothing was, once the connection is let go.
fn hand_on<S: Alter + Drop, T>(made: Result<T, Unkept<S>>) -> Result<T, DeskFault>
    ensures { result ≡ handed_on made }
{
    match made {
        Ok(it) => Ok(it),
        Err(unkept) => Err(DeskFault::Keep(unkept.fault())),
    }
}
