//! Tables made anew, with the rows of a farm, in the place of those that stand there.
ghost use Rattle.std.specs.Prelude.{◌≡◌, ◌⊎◌, false, IsTrue, Err, IfErr, OnOk};
ghost use Rattle.sqlite.specs.Held.{state};
ghost use Rattle.sqlite.specs.State.{HasCleanDisk};
ghost use Rattle.sqlite.specs.Tree.{Trees};
ghost use Rattle.farm_types.specs.Farm.{empty_farm, put_rows};
ghost use Rattle.farm_types.specs.Small.{AreSmall};
ghost use Rattle.farm_store.specs.Columns.{rows_of};
ghost use Rattle.farm_store.specs.Edits.{GoesOn};
ghost use Rattle.farm_store.specs.Holds.{Holds, IsInside, KeepsDoubt, SeesSixTables, Stands};
ghost use Rattle.farm_store.specs.Schema.{no_schema};

use crate::fault::StoreFault;
use crate::schema::{make_all, put_first_numbers, run};
use crate::upserts::{TaggedRows, put_all};
use farm_types::Rows;
use sqlite::{Alter, Connection, Error, Transaction};
use std::alloc::Global;

/// Takes away the six tables, whatever columns and rows they have.
fn drop_all<S: Alter>(tx: &mut Transaction<'_, S>) -> Result<(), Error>
    ensures goes_on { GoesOn S.Store tx.old tx.new }
    ensures dropped { HasCleanDisk (state S.Store tx.new.conn.now)
        → OnOk result (IsTrue (state S.Store tx.old.conn.now).in_transaction
        → SeesSixTables (state S.Store tx.old.conn.now)
        → IsTrue (state S.Store tx.new.conn.now).in_transaction
        × ((state S.Store tx.new.conn.now).now.schema ≡ no_schema)) }
{
    run(tx, "DROP TABLE types")?;
    run(tx, "DROP TABLE boards")?;
    run(tx, "DROP TABLE jobs")?;
    run(tx, "DROP TABLE reservations")?;
    run(tx, "DROP TABLE kept")?;
    run(tx, "DROP TABLE meta")
}

/// The six tables anew, with these rows.
fn rebuild_all<S: Alter>(tx: &mut Transaction<'_, S>, tagged: &TaggedRows<'_>) -> Result<(), Error>
    requires small { AreSmall tagged.now.rows.now }
    ensures goes_on { GoesOn S.Store tx.old tx.new }
    ensures rebuilt { HasCleanDisk (state S.Store tx.new.conn.now)
        → OnOk result (IsTrue (state S.Store tx.old.conn.now).in_transaction
        → SeesSixTables (state S.Store tx.old.conn.now)
        → IsInside (state S.Store tx.new.conn.now)
        (rows_of (put_rows empty_farm tagged.now.rows.now))
        × IsTrue (state S.Store tx.new.conn.now).is_open) }
{
    drop_all(tx)?;
    make_all(tx)?;
    put_first_numbers(tx)?;
    put_all(tx, tagged)
}

/// Puts these rows into the farm's six tables made anew, in the place of the six that stand there,
/// whatever columns and rows these have, in one transaction. Its commit is the last call of the
/// store: where the store failed, a stop leaves the old tables or the new ones. The texts of tags
/// are made before the first call of the store, so where memory is refused nothing has changed.
///
/// It writes each row once, by a statement, and holds the texts of all tags in memory. The log grows
/// by about the size of the file.
pub fn rebuild<S: Alter>(
    alloc: Global,
    conn: &mut Connection<S>,
    rows: &Rows,
) -> Result<(), StoreFault>
    requires autocommit { conn.old.in_transaction ≡ false }
    requires small { AreSmall rows.now }
    ensures autocommit { conn.new.in_transaction ≡ false }
    ensures clean { KeepsDoubt (state S.Store conn.old) (state S.Store conn.new) }
    ensures ok { HasCleanDisk (state S.Store conn.new)
        → OnOk result (SeesSixTables (state S.Store conn.old)
        → Stands (state S.Store conn.new) (rows_of (put_rows empty_farm rows.now))) }
    ensures stop { HasCleanDisk (state S.Store conn.new)
        → SeesSixTables (state S.Store conn.old)
        → (db : Trees) → (state S.Store conn.new).may_leave db
        → (state S.Store conn.old).may_leave db
        ⊎ Holds db (rows_of (put_rows empty_farm rows.now)) }
    ensures memory { result ≡ Err StoreFault.NoMemory → conn.new ≡ conn.old }
    ensures fault { IfErr result (λ fault. (fault ≡ StoreFault.NoMemory)
        ⊎ (fault ≡ StoreFault.Store)) }
{
    let tagged = TaggedRows::of(alloc, rows)?;
    let mut tx = conn.transaction();
    rebuild_all(&mut tx, &tagged)?;
    Ok(tx.commit()?)
}
