//! The premises of laws over keepers, their stops and their lives, met in memory.
ghost use Rattle.std.specs.Prelude.{◌≡◌, false, IfSome};
ghost use Rattle.sqlite.specs.Held.{state};
ghost use Rattle.sqlite.specs.Steps.{over_memory};
ghost use Rattle.farm_types.specs.Farm.{empty_farm};
ghost use Rattle.farm_keep.specs.Lives.{OpensOn};
ghost use Rattle.farm_premises.specs.Keepers.{IsAdopted, IsLeftByLife, IsOnFarm, IsStopped};
ghost use Rattle.farm_premises.specs.Keepers.{IsUpgradable};

use farm_keep::Keeper;
use farm_store::opened_stands;
use sqlite::{Connection, MemStore};
use std::alloc::Global;

/// A keeper of the empty farm ran no call, and its store was opened again on what a stop leaves: the
/// premises of `opened_stands`, `found_after_stop` and `found_after_upgrade`.
pub fn stops_can_be_met(alloc: Global) -> Option<Connection<MemStore>>
    ensures opens { IfSome result (λ conn. IsOnFarm over_memory conn empty_farm) }
    ensures stop { IfSome result (λ conn. IsStopped over_memory conn) }
    ensures upgrade { IfSome result (λ conn. IsUpgradable over_memory conn) }
    ensures autocommit { IfSome result (λ conn. conn.in_transaction ≡ false) }
{
    let Ok(conn) = Connection::open_in_memory(alloc) else {
        return None;
    };
    let Ok(mut keeper) = Keeper::fresh(alloc, conn) else {
        return None;
    };
    let _end = keeper.run(&[]);
    reopened(alloc, keeper)
}

/// A life resumed on such a store and was stopped, and the store was opened once more: the premises
/// of `restarts_find_a_prefix`.
pub fn lives_can_be_met(alloc: Global) -> Option<Connection<MemStore>>
    ensures { IfSome result (λ conn. IsLeftByLife over_memory conn) }
{
    let conn = stops_can_be_met(alloc)?;
    let Ok((keeper, _end)) = Keeper::resume(alloc, conn, &[]) else {
        return None;
    };
    reopened(alloc, keeper)
}

/// A keeper of the empty farm, which it adopted from a store that was opened on what a stop left.
pub(crate) fn adopted(alloc: Global) -> Option<Keeper<MemStore>>
    ensures { IfSome result (λ k. IsAdopted over_memory k) }
{
    let conn = stops_can_be_met(alloc)?;
    opened_stands(&conn);
    match Keeper::adopt(alloc, conn) {
        Ok(keeper) => Some(keeper),
        Err(_) => None,
    }
}

/// The store of a keeper in memory, opened again on what a stop leaves of it.
pub(crate) fn reopened(alloc: Global, keeper: Keeper<MemStore>) -> Option<Connection<MemStore>>
    ensures opens { IfSome result (λ conn. OpensOn (state over_memory conn)
        (state over_memory keeper.conn).committed.trees) }
    ensures autocommit { IfSome result (λ conn. conn.in_transaction ≡ false) }
{
    match Connection::over(alloc, keeper.into_connection().into_store()) {
        Ok(conn) => Some(conn),
        Err(_) => None,
    }
}
