//! The farm that a store's tables hold: found, or brought to this edition.
ghost use Rattle.std.specs.Prelude.{◌≡◌, false, IfErr, IfOk, OnOk};
ghost use Rattle.sqlite.specs.Held.{state};
ghost use Rattle.sqlite.specs.State.{HasCleanDisk};
ghost use Rattle.farm_types.specs.Sound.{IsSound};
ghost use Rattle.farm_store.specs.Holds.{ReadsOnly};
ghost use Rattle.farm_store.specs.Schema.{farm_schema};
ghost use Rattle.farm_keep.specs.Faults.{IsFindFault};
ghost use Rattle.farm_keep.specs.First.{Migrates};
ghost use Rattle.farm_keep.specs.Found.{Finds};

use crate::fault::KeepFault;
use farm_core::Farm;
use farm_sound::is_sound;
use farm_store::{load, load_first, raise};
use sqlite::{Alter, Connection};
use std::alloc::Global;

/// The farm whose tables the connection shows; `BadStore` where they are those of no sound farm, as
/// where the store has a column, a table, an index or a view that the farm's schema lacks. It
/// changes nothing. `Keeper::adopt` is this call, and a keeper of what it gives. Each table is read
/// once, in order of its key, and n rows are tested in O(n log n).
pub fn found<S: Alter>(alloc: Global, conn: &mut Connection<S>) -> Result<Farm, KeepFault>
    requires { conn.old.in_transaction ≡ false }
    ensures only { ReadsOnly (state S.Store conn.old) (state S.Store conn.new) }

    // The farm works and is sound, and the store has the farm's six tables, and no other table,
    // column, index or view.
    ensures working { IfOk result (λ f. (f.failed ≡ false) × IsSound f.farm) }
    ensures ours { OnOk result ((state S.Store conn.old).now.schema ≡ farm_schema) }
    ensures finds { HasCleanDisk (state S.Store conn.new)
        → Finds result (state S.Store conn.old) }
    ensures fault { IfErr result IsFindFault }
{
    let rows = load(alloc, conn)?;
    Ok(Farm::from_rows(rows)?)
}

/// Makes the first edition's tables of a sound farm those of the same farm in this edition, in one
/// transaction whose commit is the last call of the store. What stood there is refused as bad where
/// it is no sound farm's, and as new where it is of this edition already, whatever else stands
/// there; it then stays as it is. After a fault of the store a stop leaves the old tables or the
/// new ones: open the store again, and call this again.
///
/// Each table is read once, n rows are tested in O(n log n), and each job's row is written once, a
/// hundred by a statement; `farm_store::raise` says what that costs.
pub fn migrate<S: Alter>(alloc: Global, conn: &mut Connection<S>) -> Result<(), KeepFault>
    requires { conn.old.in_transaction ≡ false }
    ensures { Migrates (state S.Store conn.old) (state S.Store conn.new) result }
{
    let rows = load_first(alloc, conn)?;
    if !is_sound(&rows) {
        return Err(KeepFault::BadStore);
    }
    raise(conn, &rows)?;
    Ok(())
}
