//! Tables made anew with other rows, also where a store stops at each call of each of its two files.
ghost use Rattle.farm_types.specs.Small.{AreSmall};

use crate::created::{End, MANY, crashed, end_of, files};
use crate::puts::{numbers, numbers_in, write};
use crate::tables::{in_words, one_of_each};
use farm_fakes::{make, opened, read};
use farm_store::{StoreFault, rebuild};
use farm_types::Rows;
use sqlite::{Alter, Connection, Files};
use sqlite_disk::{Crash, Disk};
use std::alloc::Global;
use std::test::Fail;

/// Makes the tables anew, where no transaction is begun.
fn anew<S: Alter>(alloc: Global, conn: &mut Connection<S>, rows: &Rows) -> Result<(), StoreFault>
    requires { AreSmall rows.now }
{
    if !conn.is_autocommit() {
        return Err(StoreFault::Store);
    }
    rebuild(alloc, conn, rows)
}

/// What new tables hold once they were made anew with these rows, and then with those.
fn rebuilt_twice<S: Alter + Drop>(
    alloc: Global,
    mut conn: Connection<S>,
    first: &Rows,
    second: &Rows,
) -> Result<String, Fail>
    requires first { AreSmall first.now }
    requires second { AreSmall second.now }
{
    make(&mut conn)?;
    anew(alloc, &mut conn, first)?;
    anew(alloc, &mut conn, second)?;
    Ok(in_words(alloc, &read(alloc, &mut conn)?)?)
}

#[test]
fn rows_of_before_are_gone(rt: HostRuntime) -> Result<(), Fail> {
    let alloc = rt.alloc();
    let rows = one_of_each(alloc)?;
    let found = rebuilt_twice(
        alloc,
        Connection::open_in_memory(alloc)?,
        &rows,
        &numbers(alloc),
    )?;
    let wanted = in_words(alloc, &numbers(alloc))?;
    assert_eq!(rt; found.as_str(), wanted.as_str());
    Ok(())
}

#[test]
fn rows_are_rebuilt(rt: HostRuntime) -> Result<(), Fail> {
    let alloc = rt.alloc();
    let rows = one_of_each(alloc)?;
    let found = rebuilt_twice(
        alloc,
        Connection::open_in_memory(alloc)?,
        &numbers(alloc),
        &rows,
    )?;
    let wanted = in_words(alloc, &rows)?;
    assert_eq!(rt; found.as_str(), wanted.as_str());
    Ok(())
}

/// Whether a store without tables refuses to make them anew, and takes new ones afterwards.
fn stays_empty<S: Alter + Drop>(alloc: Global, mut conn: Connection<S>) -> bool {
    anew(alloc, &mut conn, &numbers(alloc)) == Err(StoreFault::Store) && make(&mut conn).is_ok()
}

#[test]
fn no_tables_stay_none(rt: HostRuntime) -> Result<(), Fail> {
    let alloc = rt.alloc();
    assert!(rt; stays_empty(alloc, Connection::open_in_memory(alloc)?));
    Ok(())
}

/// Puts numbers into new tables, and makes the tables anew with others: whether that was done, none
/// where the first numbers aren't there; and the store of the connection.
fn put_and_anew<S: Alter + Drop>(alloc: Global, mut conn: Connection<S>) -> (Option<bool>, S) {
    let is_put = make(&mut conn).is_ok() && write(alloc, &mut conn, &numbers(alloc)).is_ok();
    let is_done = anew(alloc, &mut conn, &others(alloc)).is_ok();
    (is_put.then_some(is_done), conn.into_store())
}

/// The same in a store of these files: whether the tables were made anew, what files are left after
/// a crash, and whether one was stopped. None where a stop came before.
fn used<D: Disk + Crash + Drop>(alloc: Global, files: Files<D>) -> Option<(bool, Files<D>, bool)> {
    let (end, store) = put_and_anew(alloc, opened(alloc, files)?);
    let (files, was_stopped) = crashed(store);
    Some((end?, files, was_stopped))
}

/// The numbers of a store.
fn found<S: Alter + Drop>(alloc: Global, mut conn: Connection<S>) -> Option<(u64, u64, u64)> {
    numbers_in(alloc, &mut conn).ok()
}

/// The numbers that are found when the files are opened again.
fn found_in<D: Disk + Crash + Drop>(alloc: Global, files: Files<D>) -> Option<(u64, u64, u64)> {
    found(alloc, opened(alloc, files)?)
}

/// Where one file stops after so many calls: the old numbers are found then, or the new ones.
fn stopped_at(alloc: Global, is_log: bool, calls: u64) -> End {
    let Some((done, left, was_stopped)) = used(alloc, files(alloc, is_log, calls)) else {
        return End::Stopped;
    };
    match found_in(alloc, left) {
        Some((20, 3, 4)) => end_of(done, true, was_stopped),
        Some((10, 1, 2)) if !done => end_of(false, false, was_stopped),
        _ => End::Wrong,
    }
}

/// Other numbers than `numbers`.
fn others(alloc: Global) -> Rows
    ensures { AreSmall result }
{
    let mut rows = numbers(alloc);
    (rows.meta.clock, rows.meta.count, rows.meta.next) = (20, 3, 4);
    rows
}

/// Stops at each call of one file, until a run meets no stop.
fn stop_rebuild(alloc: Global, is_log: bool) -> Result<(), Fail> {
    for calls in 0..MANY {
        match stopped_at(alloc, is_log, calls) {
            End::Whole => return Ok(()),
            End::Stopped => {}
            End::Wrong => return Err(Fail::new(calls)),
        }
    }
    Err(Fail::new("every run was stopped"))
}

#[test]
fn rebuild_stopped_at_each_call(rt: HostRuntime) -> Result<(), Fail> {
    stop_rebuild(rt.alloc(), true)?;
    stop_rebuild(rt.alloc(), false)
}
