//! The making of a keeper, and the upgrade of a store.
//!
//! No clause can speak of a connection that was dropped. These functions have no `Drop` of it, so
//! they can't let go of it: where they fail they give it back, and their clauses say what it is
//! like. Whoever lets it go then can do nothing else with it.
ghost use Rattle.std.specs.Prelude.{◌≡◌, ◌≤◌, ◌⊎◌, ⊤, true, false, Some, None, Ok, Err, OnOk};
ghost use Rattle.std.specs.Prelude.{IfOk, IfErr, MatchResult};
ghost use Rattle.sqlite.specs.Held.{state};
ghost use Rattle.sqlite.specs.State.{HasCleanDisk};
ghost use Rattle.sqlite.specs.Tree.{Trees};
ghost use Rattle.sqlite_trees.specs.View.{doubt};
ghost use Rattle.farm_types.specs.Farm.{empty_farm};
ghost use Rattle.farm_store.specs.Columns.{TableRows};
ghost use Rattle.farm_store.specs.Holds.{IsMadeIn, ReadsOnly, Stands};
ghost use Rattle.farm_store.specs.Schema.{no_schema};
ghost use Rattle.farm_keep.specs.Faults.{IsFindFault};
ghost use Rattle.farm_keep.specs.First.{Migrates};
ghost use Rattle.farm_keep.specs.Headline.{Adopts, GivesNoKeeper};
ghost use Rattle.farm_keep.specs.KeeperState.{KeepsOwnFarm};
ghost use Rattle.farm_keep.specs.Found.{LooksForFarm};

use crate::fault::KeepFault;
use crate::keeper::Keeper;
use crate::reading::{found, migrate};
use farm_core::Farm;
use farm_store::create;
use sqlite::{Alter, Connection};
use std::alloc::Global;
use std::marker::Model;

/// A connection that a call didn't take, and why. It can be let go, and nothing else: so no row of
/// its store changes after the call.
#[derive(Drop)]
pub struct Unkept<S: Alter> {
    conn: Connection<S>,
    fault: KeepFault,
}

impl<S: Alter> Model for Unkept<S> {
    ghost use Rattle.farm_keep.specs.KeeperState.{UnkeptState, unkept_code};

    ghost Value = { UnkeptState S };

    ghost coded = { unkept_code S.code };

    ghost view = { λ u. record { conn = u.conn; fault = u.fault } };
}

impl<S: Alter> Unkept<S> {
    /// Why the connection wasn't taken.
    pub fn fault(&self) -> KeepFault
        ensures { result ≡ self.now.fault }
    {
        self.fault
    }
}

impl<S: Alter> Keeper<S> {
    /// A keeper of the empty farm, in a store without tables; a store that stands for tables is
    /// refused as a fault of the store. At a fault the store stands for its tables as before, and a
    /// stop leaves no more than before, or the tables of the empty farm.
    pub fn fresh(alloc: Global, mut conn: Connection<S>) -> Result<Keeper<S>, Unkept<S>>
        requires { conn.in_transaction ≡ false }
        ensures opened { IfOk result (λ k. (k.is_open ≡ true) × (k.farm.farm ≡ empty_farm)) }
        ensures keeps { IfOk result (λ k. (state S.Store conn).now.schema ≡ no_schema
            → KeepsOwnFarm S.Store k) }
        ensures refused { IfOk result (λ k. HasCleanDisk (state S.Store k.conn) → (T : TableRows)
            → ¬ Stands (state S.Store conn) T) }
        ensures bare { OnOk result ((state S.Store conn).now.schema ≡ no_schema) }
        ensures clean { IfOk result (λ k. doubt (state S.Store conn).is_clean ≤ doubt
            (state S.Store k.conn).is_clean) }
        ensures fault { IfErr result (λ u. u.fault ≡ KeepFault.Store) }
        ensures autocommit { IfErr result (λ u. u.conn.in_transaction ≡ false) }
        ensures doubted { IfErr result (λ u. doubt (state S.Store conn).is_clean ≤ doubt
            (state S.Store u.conn).is_clean) }
        ensures stands { IfErr result (λ u. HasCleanDisk (state S.Store u.conn) → (T : TableRows)
            → Stands (state S.Store conn) T → Stands (state S.Store u.conn) T) }
        ensures left { IfErr result (λ u. HasCleanDisk (state S.Store u.conn) → (db : Trees)
            → (state S.Store u.conn).may_leave db
            → (state S.Store conn).may_leave db ⊎ IsMadeIn (state S.Store conn) db) }
    {
        match create(&mut conn) {
            Ok(()) => Ok(Keeper {
                conn,
                farm: Farm::empty(alloc),
                alloc,
                is_open: true,
            }),
            Err(_) => Err(Unkept {
                conn,
                fault: KeepFault::Store,
            }),
        }
    }

    /// A keeper of the farm whose tables the store holds. At a fault the store stands for its
    /// tables as before. While its disk has returned what was written, bad store is the answer only
    /// where no sound farm stands there, and old schema only where tables of the first edition do.
    pub fn adopt(alloc: Global, mut conn: Connection<S>) -> Result<Keeper<S>, Unkept<S>>
        requires { conn.in_transaction ≡ false }
        ensures adopted { IfOk result (λ k. Adopts S.Store conn k) }
        ensures fault { IfErr result (λ u. IsFindFault u.fault) }
        ensures denied { IfErr result (λ u. HasCleanDisk (state S.Store u.conn)
            → GivesNoKeeper (state S.Store conn) u.fault) }
        ensures version { MatchResult result
            (λ k. HasCleanDisk (state S.Store k.conn)
            → LooksForFarm None (state S.Store conn).now)
            (λ u. HasCleanDisk (state S.Store u.conn)
            → LooksForFarm (Some u.fault) (state S.Store conn).now) }
        ensures only { IfErr result (λ u. ReadsOnly (state S.Store conn) (state S.Store u.conn)) }
    {
        match found(alloc, &mut conn) {
            Ok(farm) => Ok(Keeper {
                conn,
                farm,
                alloc,
                is_open: true,
            }),
            Err(fault) => Err(Unkept { conn, fault }),
        }
    }
}

/// `migrate` of a connection that is given up: the store with the farm's tables of this edition, or
/// as the fault left it.
pub fn upgrade<S: Alter>(alloc: Global, mut conn: Connection<S>) -> Result<Connection<S>, Unkept<S>>
    requires { conn.in_transaction ≡ false }
    ensures raised { IfOk result (λ new. Migrates {A = ⊤} (state S.Store conn)
        (state S.Store new) (Ok tt)) }
    ensures refused { IfErr result (λ u. Migrates {A = ⊤} (state S.Store conn)
        (state S.Store u.conn) (Err u.fault)) }
{
    match migrate(alloc, &mut conn) {
        Ok(()) => Ok(conn),
        Err(fault) => Err(Unkept { conn, fault }),
    }
}
