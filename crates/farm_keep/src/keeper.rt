//! A farm and the store that keeps it.
ghost use Rattle.std.specs.Prelude.{◌≡◌, ◌≤◌, ◌↔◌, true, false, Err, OnOk, IfOk, IfErr};
ghost use Rattle.std.specs.Prelude.{MatchOption};
ghost use Rattle.sqlite.specs.Held.{state};
ghost use Rattle.sqlite.specs.State.{HasCleanDisk};
ghost use Rattle.sqlite_trees.specs.View.{doubt};
ghost use Rattle.farm_types.specs.Machine.{answer, step};
ghost use Rattle.farm_types.specs.Sound.{IsSound};
ghost use Rattle.farm_core.specs.Answers.{answer_of, IsChange, ChangesLead};
ghost use Rattle.farm_store.specs.Columns.{rows_of};
ghost use Rattle.farm_store.specs.Holds.{LeavesEither, StandsFor};
ghost use Rattle.farm_keep.specs.Faults.{IsActFault, IsOwnFault};
ghost use Rattle.farm_keep.specs.KeeperState.{KeepsOwnFarm, KeepsEither, IfNoChange};

mod opening;
mod run;

use crate::fault::KeepFault;
use farm_core::Farm;
use farm_store::put;
use farm_types::{Answer, Call};
pub use opening::{Unkept, upgrade};
pub use run::RunEnd;
use sqlite::{Alter, Connection};
use std::alloc::Global;
use std::marker::Model;

/// A farm and the store that keeps it. A fault closes the keeper: it keeps its connection, and the
/// store has to be opened and adopted anew.
#[derive(Drop)]
pub struct Keeper<S: Alter> {
    conn: Connection<S>,
    farm: Farm,
    alloc: Global,
    is_open: bool,
}

impl<S: Alter> Model for Keeper<S> {
    ghost use Rattle.farm_keep.specs.KeeperState.{KeeperState, keeper_code, KeeperInvariant};

    ghost Value = { KeeperState S };

    ghost coded = { keeper_code S.code };

    ghost view = { λ k. record { conn = k.conn; farm = k.farm; is_open = k.is_open } };

    ghost invariant = { λ k. KeeperInvariant k.conn k.farm k.is_open };
}

impl<S: Alter> Keeper<S> {
    /// The farm of an open keeper.
    pub fn farm(&self) -> Option<&Farm>
        ensures { MatchOption result (self.now.is_open ≡ false)
            (λ f. (self.now.is_open ≡ true) × (f.now ≡ self.now.farm) × (f.now.failed ≡ false)
            × IsSound self.now.farm.farm) }
    {
        if self.is_open { Some(&self.farm) } else { None }
    }

    /// The connection, as the keeper had it, open or closed.
    pub fn into_connection(self) -> Connection<S>
        ensures conn { result ≡ self.conn }
        ensures autocommit { result.in_transaction ≡ false }
    {
        self.conn
    }

    /// One command, made durable before it is answered. A change costs one transaction over the
    /// rows that it changed, and its answer has these rows; a kept reply and a refusal ask nothing
    /// of the store.
    pub fn act(&mut self, call: &Call) -> Result<Answer, KeepFault>
        // The answer is the machine's, and so is the farm, which the store then keeps.
        ensures answer { IfOk result (λ a. answer_of a ≡ answer self.old.farm.farm call.entry.now) }
        ensures farm { OnOk result (self.new.farm.farm ≡ step self.old.farm.farm call.entry.now) }
        ensures opened { OnOk result ((self.old.is_open ≡ true) × (self.new.is_open ≡ true)) }
        ensures stands { OnOk result
            (KeepsOwnFarm S.Store self.old → KeepsOwnFarm S.Store self.new) }

        // The changed rows of the answer are those that were put.
        ensures changes { IfOk result (λ a. ChangesLead a self.old.farm.farm self.new.farm.farm) }

        // A kept reply and a refusal leave the very keeper.
        ensures rests { IfOk result (λ a. IfNoChange a (self.new ≡ self.old)) }

        // Without memory for a change the keeper is closed, and its store is as it was.
        ensures memory { result ≡ Err KeepFault.NoMemory → (self.new.is_open ≡ false)
            × (self.new.conn ≡ self.old.conn)
            × IsChange (answer self.old.farm.farm call.entry.now) }

        // After a fault of the store the keeper is closed, and a stop leaves the old farm or the
        // new one.
        ensures store { result ≡ Err KeepFault.Store → (self.new.is_open ≡ false)
            × IsChange (answer self.old.farm.farm call.entry.now)
            × (KeepsOwnFarm S.Store self.old → KeepsEither S.Store self.new self.old.farm.farm
            (step self.old.farm.farm call.entry.now)) }

        // A closed keeper stays as it is.
        ensures closed { (result ≡ Err KeepFault.Closed) ↔ (self.old.is_open ≡ false) }
        ensures still { result ≡ Err KeepFault.Closed → self.new ≡ self.old }
        ensures fault { IfErr result IsActFault }
        ensures clean { doubt (state S.Store self.old.conn).is_clean ≤ doubt
            (state S.Store self.new.conn).is_clean }
    {
        if !self.is_open {
            return Err(KeepFault::Closed);
        }
        // A `?` from here on leaves a closed keeper.
        self.is_open = false;
        let answer = step_and_put(self.alloc, &mut self.conn, &mut self.farm, call)?;
        self.is_open = true;
        Ok(answer)
    }
}

/// One step of a farm that works, and its changed rows put into the store that keeps it.
fn step_and_put<S: Alter>(
    alloc: Global,
    conn: &mut Connection<S>,
    farm: &mut Farm,
    call: &Call,
) -> Result<Answer, KeepFault>
    requires autocommit { conn.old.in_transaction ≡ false }
    requires working { farm.old.failed ≡ false }
    ensures autocommit { conn.new.in_transaction ≡ false }
    ensures clean { doubt (state S.Store conn.old).is_clean ≤ doubt
        (state S.Store conn.new).is_clean }
    ensures answer { IfOk result (λ a. answer_of a ≡ answer farm.old.farm call.entry.now) }
    ensures farm { OnOk result (farm.new.farm ≡ step farm.old.farm call.entry.now) }
    ensures working { OnOk result ((farm.new.failed ≡ false) × IsSound farm.new.farm) }
    ensures changes { IfOk result (λ a. ChangesLead a farm.old.farm farm.new.farm) }
    ensures stands { OnOk result (StandsFor (state S.Store conn.old) farm.old.farm
        → StandsFor (state S.Store conn.new) farm.new.farm) }
    ensures rests { IfOk result (λ a. IfNoChange a ((conn.new ≡ conn.old)
        × (farm.new ≡ farm.old))) }
    ensures change { IfErr result (λ _. IsChange (answer farm.old.farm call.entry.now)) }
    ensures memory { result ≡ Err KeepFault.NoMemory → conn.new ≡ conn.old }
    ensures store { result ≡ Err KeepFault.Store → StandsFor (state S.Store conn.old) farm.old.farm
        → HasCleanDisk (state S.Store conn.new)
        → LeavesEither (state S.Store conn.new) (rows_of farm.old.farm)
        (rows_of (step farm.old.farm call.entry.now)) }
    ensures fault { IfErr result IsOwnFault }
{
    let answer = farm.step(call).map_err(|_| KeepFault::NoMemory)?;
    let Answer::Did(_, changes) = &answer else {
        return Ok(answer);
    };
    put(alloc, conn, changes)?;
    Ok(answer)
}
