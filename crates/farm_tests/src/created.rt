//! The making of the tables, stopped at each call of each of the two files of a store.
use farm_core::Farm;
use farm_fakes::{make, opened, stopping};
use farm_keep::{KeepFault, found};
use farm_store::StoreFault;
use sqlite::{Alter, Connection, FileStore, Files};
use sqlite_disk::{Crash, Disk, Fuse, Memory};
use std::alloc::{AllocError, Global};
use std::test::Fail;

/// More calls than the making of the tables needs.
pub(crate) const MANY: u64 = 10_000;

/// A farm in words, all that it holds among them.
fn in_words(alloc: Global, farm: &Farm) -> Result<String, AllocError> {
    format!(in alloc; "{farm:?}")
}

/// Whether a farm is empty; false where memory is refused.
fn is_empty(alloc: Global, farm: &Farm) -> bool {
    match (in_words(alloc, farm), in_words(alloc, &Farm::empty(alloc))) {
        (Ok(words), Ok(wanted)) => words == wanted,
        _ => false,
    }
}

/// Whether the farm whose tables are there is empty.
fn finds_empty<S: Alter>(alloc: Global, conn: &mut Connection<S>) -> Result<bool, KeepFault> {
    if !conn.is_autocommit() {
        return Err(KeepFault::Closed);
    }
    Ok(is_empty(alloc, &found(alloc, conn)?))
}

/// Whether the tables of the empty farm are found, and can't be made again. Where there are none,
/// they can be made. None where it is otherwise.
fn is_found<S: Alter>(alloc: Global, conn: &mut Connection<S>) -> Option<bool> {
    match finds_empty(alloc, conn) {
        Ok(empty) => (empty && make(conn) == Err(StoreFault::Store)).then_some(true),
        Err(KeepFault::Store) => make(conn).is_ok().then_some(false),
        Err(_) => None,
    }
}

/// Whether the tables are made, or found; and the store of the connection.
fn made_or_found<S: Alter + Drop>(
    alloc: Global,
    mut conn: Connection<S>,
    makes: bool,
) -> (Option<bool>, S) {
    let end = if makes {
        Some(make(&mut conn).is_ok())
    } else {
        is_found(alloc, &mut conn)
    };
    (end, conn.into_store())
}

/// Whether a call of the file has failed or would fail now.
fn is_blown<D: Disk>(file: &mut D) -> bool {
    !file.may_be_used() || file.len().is_err()
}

/// What a store's files are after a crash, and whether one was stopped.
pub(crate) fn crashed<D: Disk + Crash>(store: FileStore<D>) -> (Files<D>, bool) {
    let Files { mut log, mut db } = store.close();
    let was_stopped = is_blown(&mut log) || is_blown(&mut db);
    log.crash();
    db.crash();
    (Files { log, db }, was_stopped)
}

/// What a store of these files gives: where they are to be made, whether the tables were made, and
/// else whether they are found; what files are left after a crash, and whether one was stopped.
/// None where a stop came before the store was open.
fn used<D: Disk + Crash + Drop>(
    alloc: Global,
    files: Files<D>,
    makes: bool,
) -> Option<(Option<bool>, Files<D>, bool)> {
    let (end, store) = made_or_found(alloc, opened(alloc, files)?, makes);
    let (files, was_stopped) = crashed(store);
    Some((end, files, was_stopped))
}

/// New files, of which one is stopped after so many calls: the log, or that of the tables.
pub(crate) fn files(alloc: Global, is_log: bool, calls: u64) -> Files<Fuse<Memory>> {
    let (log, db) = if is_log {
        (calls, u64::MAX)
    } else {
        (u64::MAX, calls)
    };
    let (log, db) = (stopping(alloc, log), stopping(alloc, db));
    Files { log, db }
}

/// How a making of the tables ends.
pub(crate) enum End {
    Whole,
    Stopped,
    Wrong,
}

/// The end of a making, by whether the tables were made, are found, and a file was stopped.
pub(crate) fn end_of(made: bool, found: bool, was_stopped: bool) -> End {
    match (made, found, was_stopped) {
        (true, true, false) => End::Whole,
        (true, true, true) | (false, _, true) => End::Stopped,
        _ => End::Wrong,
    }
}

/// Whether the tables are found when the files are opened again.
fn is_found_in<D: Disk + Crash + Drop>(alloc: Global, files: Files<D>) -> Option<bool> {
    let (found, _left, _was_stopped) = used(alloc, files, false)?;
    found
}

/// The making of the tables where one file stops after so many calls.
fn stopped_at(alloc: Global, is_log: bool, calls: u64) -> End {
    let Some((made, left, was_stopped)) = used(alloc, files(alloc, is_log, calls), true) else {
        return End::Stopped;
    };
    match (made, is_found_in(alloc, left)) {
        (Some(made), Some(found)) => end_of(made, found, was_stopped),
        _ => End::Wrong,
    }
}

/// Stops the making of the tables at each call of one file, until a run meets no stop.
fn stop_create(alloc: Global, is_log: bool) -> Result<(), Fail> {
    for calls in 0..MANY {
        match stopped_at(alloc, is_log, calls) {
            End::Whole => return Ok(()),
            End::Stopped => {}
            End::Wrong => return Err(Fail::new(calls)),
        }
    }
    Err(Fail::new("every run was stopped"))
}

#[test]
fn create_stopped_at_each_call(rt: HostRuntime) -> Result<(), Fail> {
    stop_create(rt.alloc(), true)?;
    stop_create(rt.alloc(), false)
}
