//! Tables of the first edition made those of the second.
ghost use Rattle.std.specs.Prelude.{◌≡◌, ◌⊎◌, false, IsTrue, Err, IfErr, OnOk};
ghost use Rattle.std.specs.List.{AllByRecursion};
ghost use Rattle.sqlite.specs.Held.{state};
ghost use Rattle.sqlite.specs.State.{HasCleanDisk};
ghost use Rattle.farm_types.specs.Farm.{farm_of};
ghost use Rattle.farm_types.specs.Small.{IsSmallJob};
ghost use Rattle.farm_store.specs.Columns.{first_rows_of, rows_of};
ghost use Rattle.farm_store.specs.Edits.{GoesOn};
ghost use Rattle.farm_store.specs.Holds.{IsInside, KeepsDoubt, Stands, LeavesEither};

use crate::fault::StoreFault;
use crate::jobs::raise_jobs;
use crate::meta::put_number;
use crate::schema::SCHEMA;
use farm_types::Rows;
use sqlite::{Alter, Connection, Error, Transaction};

/// The rows of jobs, and then the two numbers.
fn raise_all<S: Alter>(tx: &mut Transaction<'_, S>, rows: &Rows) -> Result<(), Error>
    requires small { AllByRecursion IsSmallJob rows.now.jobs.items }
    requires none { rows.now.meta.collector ≡ 0 }
    ensures goes_on { GoesOn S.Store tx.old tx.new }
    ensures raised { HasCleanDisk (state S.Store tx.new.conn.now)
        → OnOk result (IsInside (state S.Store tx.old.conn.now) (first_rows_of (farm_of rows.now))
        → IsInside (state S.Store tx.new.conn.now) (rows_of (farm_of rows.now))
        × IsTrue (state S.Store tx.new.conn.now).is_open) }
{
    raise_jobs(tx, &rows.jobs)?;
    put_number(tx, "collector", 0)?;
    put_number(tx, "schema", SCHEMA)
}

/// Makes tables of the first edition, whose rows these are, the same farm's tables of the second,
/// in one transaction, whose commit is the last call of the store: where the store failed, a stop
/// leaves the first edition's tables or the second's.
///
/// A statement for each hundred jobs, in order of their numbers, writes those whose state has
/// another code, and two more write a number each. Each reads its own rows alone, and holds them in
/// memory until it is done. Each page of the jobs' table may change, so the log grows by about the
/// size of that table.
pub fn raise<S: Alter>(conn: &mut Connection<S>, rows: &Rows) -> Result<(), StoreFault>
    requires autocommit { conn.old.in_transaction ≡ false }
    requires small { AllByRecursion IsSmallJob rows.now.jobs.items }
    requires none { rows.now.meta.collector ≡ 0 }
    ensures autocommit { conn.new.in_transaction ≡ false }
    ensures clean { KeepsDoubt (state S.Store conn.old) (state S.Store conn.new) }
    ensures ok { HasCleanDisk (state S.Store conn.new)
        → OnOk result (Stands (state S.Store conn.old) (first_rows_of (farm_of rows.now))
        → Stands (state S.Store conn.new) (rows_of (farm_of rows.now))) }
    ensures stop { HasCleanDisk (state S.Store conn.new)
        → Stands (state S.Store conn.old) (first_rows_of (farm_of rows.now))
        → LeavesEither (state S.Store conn.new) (first_rows_of (farm_of rows.now))
        (rows_of (farm_of rows.now)) }
    ensures memory { result ≡ Err StoreFault.NoMemory → conn.new ≡ conn.old }
    ensures fault { IfErr result (λ fault. (fault ≡ StoreFault.NoMemory)
        ⊎ (fault ≡ StoreFault.Store)) }
{
    let mut tx = conn.transaction();
    raise_all(&mut tx, rows)?;
    Ok(tx.commit()?)
}
