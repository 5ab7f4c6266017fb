//! Laws over runs and restarts.
ghost use Rattle.std.specs.Prelude.{◌≡◌, ◌++◌, List, true, false};
ghost use Rattle.sqlite.specs.Held.{state};
ghost use Rattle.sqlite.specs.State.{HasCleanDisk};
ghost use Rattle.sqlite.specs.Steps.{over_memory};
ghost use Rattle.sqlite.specs.Tree.{Trees};
ghost use Rattle.farm_store.specs.Columns.{rows_of};
ghost use Rattle.farm_store.specs.Holds.{Holds};
ghost use Rattle.farm_types.specs.Farm.{Farm as Plain, empty_farm, farm_of, put_rows};
ghost use Rattle.farm_types.specs.Small.{AreSmall};
ghost use Rattle.farm_types.specs.Sound.{IsSound};
ghost use Rattle.farm_keep.specs.First.{HoldsEitherEdition, IsSoundFirst, Migrates};
ghost use Rattle.farm_keep.specs.Headline.{IsAlwaysClean, Runs, answers_of};
ghost use Rattle.farm_keep.specs.KeeperState.{KeeperState, KeepsOwnFarm};
ghost use Rattle.farm_keep.specs.Lives.{Life, AreLived, GivesFarm, GivesRestarts, GivesRun};
ghost use Rattle.farm_keep.specs.Lives.{OpensOn};
ghost use Rattle.farm_keep.specs.declared.keeper.run.RunEnd.{RunEnd as End};
ghost use Rattle.farm_types.specs.Machine.{run};
ghost use Rattle.farm_types.specs.declared.calls.Call.{Call};
ghost use Rattle.farm_types.specs.declared.calls.Rows.{Rows};
ghost use Rattle.farm_keep.specs.Restarts.{Restart, run_all, calls_of_restarts, AnswersAgain, ActsOnce};

use crate::fault::KeepFault;
use crate::reading::{found, migrate};
use farm_core::Farm;
use farm_sound::is_sound;
use farm_store::{load_first, opened_stands, rebuild};
use sqlite::{Alter, Connection};
use std::alloc::Global;

/// A run over one list and then over another is the run over their joining, and so are its answers.
pub fn runs_join()
    ensures farm { (F : Plain) (first second : List Call)
        → run F (first ++ second) ≡ run (run F first) second }
    ensures answers { (F : Plain) (first second : List Call)
        → answers_of F (first ++ second) ≡ answers_of F first ++ answers_of (run F first) second }
{}

/// Restarts one after another are one run over the calls that were done.
pub fn restarts_join()
    ensures { (F : Plain) (restarts : List Restart) → run_all F restarts ≡ run F (calls_of_restarts restarts) }
{}

/// A store in memory always returns what was written: whatever else is said of a clean disk holds
/// of it.
pub fn memory_is_clean()
    ensures { IsAlwaysClean over_memory }
{}

/// A command that is repeated under its key, after any restarts, acts at most once: a client that
/// gets no answer may send it again until it gets one.
pub fn acts_once()
    ensures again { AnswersAgain }
    ensures once { ActsOnce }
{}

/// A sound farm's rows have numbers that a store can keep and, put into the tables of the empty
/// farm, are that farm's: so they may be given to `farm_store`'s `rebuild`, which leaves the farm
/// that they spell.
#[tactic(auto, using(crate::proofs::PutLemmas::rows_are, crate::proofs::PutLemmas::small_rows))]
pub fn rows_put_are_the_farm()
    ensures farm { (rows : Rows) → IsSound (farm_of rows) → put_rows empty_farm rows ≡ farm_of rows }
    ensures small { (rows : Rows) → IsSound (farm_of rows) → AreSmall rows }
{}

/// The crash prefix: what a stop leaves after a run, however the run ended, is found again as
/// exactly the farm after the calls that were answered or, where a fault of the store ended it,
/// perhaps after one call more. It is `found`, on a store that was opened on what was left.
pub fn found_after_stop<S: Alter>(
    alloc: Global,
    conn: &mut Connection<S>,
) -> Result<Farm, KeepFault>
    requires { conn.old.in_transaction ≡ false }
    ensures { HasCleanDisk (state S.Store conn.new)
        → (old new : KeeperState S) (end : End) (calls : List Call)
        → KeepsOwnFarm S.Store old → old.is_open ≡ true → Runs S.Store old new end calls
        → HasCleanDisk (state S.Store new.conn)
        → (left : Trees) → (state S.Store new.conn).may_leave left
        → OpensOn (state S.Store conn.old) left
        → GivesRun result old.farm.farm end calls }
{
    opened_stands(conn);
    found(alloc, conn)
}

/// The crash prefix over any list of lives: each opens the store on what the stop before it left,
/// and is stopped while it looks for the farm, or resumes, runs its calls and is stopped. What the
/// last one left is found again as exactly the farm after the calls that were done, life by life;
/// `acts_once` speaks of the same list of restarts.
pub fn restarts_find_a_prefix<S: Alter>(
    alloc: Global,
    conn: &mut Connection<S>,
) -> Result<Farm, KeepFault>
    requires { conn.old.in_transaction ≡ false }
    ensures { HasCleanDisk (state S.Store conn.new)
        → (F : Plain) (lives : List (Life S)) (first last : Trees)
        → IsSound F → Holds first (rows_of F) → AreLived S.Store lives first last
        → OpensOn (state S.Store conn.old) last
        → GivesRestarts result F lives }
{
    opened_stands(conn);
    found(alloc, conn)
}

/// `migrate` by `farm_store`'s `rebuild` in the place of `raise`: it makes all six tables anew, and so
/// takes tables of any columns, but writes each row. Its contract is that of `migrate`, so a version
/// whose tables have other columns needs a reader of the version before, and nothing else.
pub fn rebuild_migrates<S: Alter>(alloc: Global, conn: &mut Connection<S>) -> Result<(), KeepFault>
    requires { conn.old.in_transaction ≡ false }
    ensures { Migrates (state S.Store conn.old) (state S.Store conn.new) result }
{
    let rows = load_first(alloc, conn)?;
    if !is_sound(&rows) {
        return Err(KeepFault::BadStore);
    }
    rebuild(alloc, conn, &rows)?;
    Ok(())
}

/// An upgrade that was stopped anywhere and is begun again, on a store that was opened on what the
/// stop left: the farm's tables of the first edition, or those of this one. The very farm is found,
/// memory and the store's own faults aside; and a stop at any moment leaves the ones or the others.
pub fn found_after_upgrade<S: Alter>(
    alloc: Global,
    conn: &mut Connection<S>,
) -> Result<Farm, KeepFault>
    requires { conn.old.in_transaction ≡ false }
    ensures gives { HasCleanDisk (state S.Store conn.new) → (F : Plain) (left : Trees)
        → IsSoundFirst F → HoldsEitherEdition left F → OpensOn (state S.Store conn.old) left
        → GivesFarm result F }
    ensures left { HasCleanDisk (state S.Store conn.new) → (F : Plain) (left : Trees)
        → IsSoundFirst F → HoldsEitherEdition left F → OpensOn (state S.Store conn.old) left
        → (db : Trees) → (state S.Store conn.new).may_leave db → HoldsEitherEdition db F }
{
    opened_stands(conn);
    match migrate(alloc, conn) {
        Ok(()) => found(alloc, conn),
        Err(fault) => match fault {
            KeepFault::NewSchema => found(alloc, conn),
            _ => Err(fault),
        },
    }
}
