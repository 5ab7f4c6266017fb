//! The tables of the empty farm.
ghost use Rattle.std.specs.Prelude.{◌≡◌, ◌⊎◌, false, IsTrue, IfErr, OnOk};
ghost use Rattle.sqlite.specs.Held.{state};
ghost use Rattle.sqlite.specs.State.{HasCleanDisk, KeepsCommit};
ghost use Rattle.sqlite.specs.Tree.{Trees};
ghost use Rattle.farm_types.specs.Farm.{empty_farm};
ghost use Rattle.farm_store.specs.Columns.{TableRows, no_rows, rows_of};
ghost use Rattle.farm_store.specs.Edits.{GoesOn, HasRun, StaysOpen};
ghost use Rattle.farm_store.specs.Holds.{IsInside, IsMadeIn, KeepsDoubt, Stands};
ghost use Rattle.farm_store.specs.Reading.{CommitShows};
ghost use Rattle.farm_store.specs.Schema.{no_schema};

use crate::fault::StoreFault;
use crate::meta::put_number;
use crate::tables::is_no_schema;
use crate::{boards, jobs, kept, meta, reservations, types};
use sqlite::{Alter, Connection, Error, Transaction};

/// The version of the tables, which is one of their numbers.
pub const SCHEMA: u64 = 2;

/// The version of the first edition's tables: no job in them is Scheduling, the later states have
/// codes less by one, and no number says which group collects.
pub const FIRST_SCHEMA: u64 = 1;

/// Runs a statement that has no parameters.
pub(crate) fn run<S: Alter>(tx: &mut Transaction<'_, S>, sql: &str) -> Result<(), Error>
    ensures goes_on { GoesOn S.Store tx.old tx.new }
    ensures ran { HasCleanDisk (state S.Store tx.new.conn.now)
        → OnOk result (IsTrue (state S.Store tx.old.conn.now).in_transaction
        → HasRun sql.now (state S.Store tx.old.conn.now) (state S.Store tx.new.conn.now)) }
    ensures kept { HasCleanDisk (state S.Store tx.new.conn.now)
        → IsTrue (state S.Store tx.old.conn.now).in_transaction
        → KeepsCommit (state S.Store tx.old.conn.now) (state S.Store tx.new.conn.now) }
{
    tx.execute(sql, &[]).map(|_| ())
}

pub(crate) fn make_all<S: Alter>(tx: &mut Transaction<'_, S>) -> Result<(), Error>
    ensures goes_on { GoesOn S.Store tx.old tx.new }
    ensures made { HasCleanDisk (state S.Store tx.new.conn.now)
        → OnOk result (IsTrue (state S.Store tx.old.conn.now).in_transaction
        → (state S.Store tx.old.conn.now).now.schema ≡ no_schema
        → IsInside (state S.Store tx.new.conn.now) no_rows) }
    ensures refused { HasCleanDisk (state S.Store tx.new.conn.now)
        → OnOk result ((T : TableRows) → ¬ IsInside (state S.Store tx.old.conn.now) T) }
    ensures kept { HasCleanDisk (state S.Store tx.new.conn.now) → (T : TableRows)
        → IsInside (state S.Store tx.old.conn.now) T
        → CommitShows (state S.Store tx.old.conn.now) T
        → CommitShows (state S.Store tx.new.conn.now) T }
{
    run(tx, types::MAKE)?;
    run(tx, boards::MAKE)?;
    run(tx, jobs::MAKE)?;
    run(tx, reservations::MAKE)?;
    run(tx, kept::MAKE)?;
    run(tx, meta::MAKE)
}

/// No command was accepted at moment 0, no group collects, and the first number is 1.
pub(crate) fn put_first_numbers<S: Alter>(tx: &mut Transaction<'_, S>) -> Result<(), Error>
    ensures goes_on { GoesOn S.Store tx.old tx.new }
    ensures put { HasCleanDisk (state S.Store tx.new.conn.now)
        → OnOk result (IsInside (state S.Store tx.old.conn.now) no_rows
        → IsInside (state S.Store tx.new.conn.now) (rows_of empty_farm)) }
    ensures stays_open { StaysOpen result (state S.Store tx.old.conn.now)
        (state S.Store tx.new.conn.now) }
{
    put_number(tx, "clock", 0)?;
    put_number(tx, "collector", 0)?;
    put_number(tx, "count", 0)?;
    put_number(tx, "next", 1)?;
    put_number(tx, "schema", SCHEMA)
}

/// Makes the six tables of the empty farm in one transaction, whose commit is the last call of the
/// store. A store that has a table, an index or a view is refused, and stays as it is, so a store
/// that stands for tables stands for them as before. Where a call of the store was refused, a stop
/// leaves what it left before, or all that it makes.
///
/// It runs eleven statements, whatever else the store holds.
pub fn create<S: Alter>(conn: &mut Connection<S>) -> Result<(), StoreFault>
    requires autocommit { conn.old.in_transaction ≡ false }
    ensures autocommit { conn.new.in_transaction ≡ false }
    ensures clean { KeepsDoubt (state S.Store conn.old) (state S.Store conn.new) }
    ensures ok { HasCleanDisk (state S.Store conn.new)
        → OnOk result (Stands (state S.Store conn.new) (rows_of empty_farm)) }
    ensures refused { HasCleanDisk (state S.Store conn.new)
        → OnOk result ((T : TableRows) → ¬ Stands (state S.Store conn.old) T) }
    ensures bare { OnOk result ((state S.Store conn.old).now.schema ≡ no_schema) }
    ensures stands { HasCleanDisk (state S.Store conn.new) → (T : TableRows)
        → Stands (state S.Store conn.old) T → Stands (state S.Store conn.new) T }
    ensures stop { HasCleanDisk (state S.Store conn.new) → (db : Trees)
        → (state S.Store conn.new).may_leave db
        → (state S.Store conn.old).may_leave db ⊎ IsMadeIn (state S.Store conn.old) db }
    ensures fault { IfErr result (λ fault. fault ≡ StoreFault.Store) }
{
    if !is_no_schema(conn.schema()) {
        return Err(StoreFault::Store);
    }
    let mut tx = conn.transaction();
    make_all(&mut tx)?;
    put_first_numbers(&mut tx)?;
    Ok(tx.commit()?)
}
