//! Changes that are put into the tables straight, and found there.
ghost use Rattle.farm_types.specs.Small.{AreSmall};

use farm_fakes::{make, read};
use farm_store::{StoreFault, put};
use farm_types::{Changes, MetaRow};
use sqlite::{Alter, Connection, Error};
use std::alloc::Global;
use std::process::Abort;
use std::test::Fail;

/// Puts changes, where no transaction is begun.
pub(crate) fn write<S: Alter>(
    alloc: Global,
    conn: &mut Connection<S>,
    changes: &Changes,
) -> Result<(), StoreFault>
    requires { AreSmall changes.now }
{
    if !conn.is_autocommit() {
        return Err(StoreFault::Store);
    }
    put(alloc, conn, changes)
}

/// Changes of the farm's numbers alone.
pub(crate) fn numbers(alloc: Global) -> Changes
    ensures { AreSmall result }
{
    let meta = MetaRow {
        clock: 10,
        collector: 0,
        count: 1,
        next: 2,
    };
    Changes {
        types: Vec::new(alloc),
        boards: Vec::new(alloc),
        jobs: Vec::new(alloc),
        reservations: Vec::new(alloc),
        kept: Vec::new(alloc),
        meta,
    }
}

/// How many tables there are.
fn tables<S: Alter>(conn: &mut Connection<S>) -> Result<i64, Error> {
    let sql = "SELECT count(*) FROM sqlite_master WHERE type = 'table'";
    conn.query_row(sql, &[])?.get(0)
}

/// The farm's numbers as the tables have them: its clock, its count and its next number.
pub(crate) fn numbers_in<S: Alter>(
    alloc: Global,
    conn: &mut Connection<S>,
) -> Result<(u64, u64, u64), StoreFault> {
    let meta = read(alloc, conn)?.meta;
    Ok((meta.clock, meta.count, meta.next))
}

/// The numbers are put. Where memory is refused to `put` or to the store, the six tables are as
/// they were.
fn expect_all_or_nothing<S: Alter + Drop>(
    rt: &impl Abort,
    alloc: Global,
    mut conn: Connection<S>,
) -> Result<(), Fail> {
    make(&mut conn)?;
    assert_eq!(rt; numbers_in(alloc, &mut conn)?, (0, 0, 1));
    let is_put = write(alloc, &mut conn, &numbers(alloc)).is_ok();
    let wanted = if is_put { (10, 1, 2) } else { (0, 0, 1) };
    assert_eq!(rt; numbers_in(alloc, &mut conn)?, wanted);
    assert_eq!(rt; tables(&mut conn)?, 6);
    Ok(())
}

#[test]
fn refused_memory(rt: HostRuntime) -> Result<(), Fail> {
    let alloc = rt.alloc();
    expect_all_or_nothing(&rt, alloc, Connection::open_in_memory(alloc)?)
}
