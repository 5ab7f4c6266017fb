//! Opening a farm in a store, or bringing it to this edition, with the connection at hand whatever
//! comes of it.
//!
//! No clause can speak of a connection that was dropped. These functions have no `Drop` of it, so
//! they can't let go of it: where they fail they give it back, and their clauses say why, on a disk
//! that has so far returned what was written. `open_farm` and `migrate_farm` are one call of them,
//! and let it go.
ghost use Rattle.std.specs.Prelude.{◌≡◌, ◌≤◌, false, Some, None, IfOk, IfErr, MatchResult};
ghost use Rattle.sqlite.specs.Files.{file_state, over_files};
ghost use Rattle.sqlite.specs.Held.{state};
ghost use Rattle.sqlite.specs.State.{HasCleanDisk};
ghost use Rattle.sqlite_trees.specs.View.{doubt};
ghost use Rattle.sqlite_wal.specs.Recovery.{Image};
ghost use Rattle.farm_store.specs.Holds.{ReadsOnly};
ghost use Rattle.farm_keep.specs.Faults.{IsFindFault, IsMigrateFault};
ghost use Rattle.farm_keep.specs.Found.{LooksForFarm, LooksForFirst};
ghost use Rattle.farm_serve.specs.declared.fault.DeskFault as fault;
ghost use Rattle.farm_desk.specs.InFiles.{DeniesFarm, FindsFarm, FindsTables, HoldsTables};
ghost use Rattle.farm_desk.specs.InFiles.{LooksAtFiles, OpensTables, ShowsFiles, DeniesUpgrade};
ghost use Rattle.farm_desk.specs.InFiles.{RaisesFarm, RaisesTables};

use farm_keep::{Keeper, Unkept, upgrade};
use farm_store::opened_stands;
use sqlite::{Alter, Connection, FileStore};
use sqlite_disk::Disk;
use std::alloc::Global;

/// A keeper of the farm that files hold which were just opened, or the connection, and why. That
/// its one call is of any store keeps its proof short.
pub(crate) fn find_on<D: Disk>(
    alloc: Global,
    conn: Connection<FileStore<D>>,
) -> Result<Keeper<FileStore<D>>, Unkept<FileStore<D>>>
    requires { conn.in_transaction ≡ false }
    ensures made { IfOk result (FindsTables over_files conn) }
    ensures found { IfOk result (λ k. (image : Image) → ShowsFiles image conn → FindsFarm image k) }

    // The files are reported as bad only where they hold no sound farm, and as of an old schema
    // only where their tables are of the first edition.
    ensures denied { IfErr result (λ u. HasCleanDisk (file_state u.conn) → (image : Image)
        → ShowsFiles image conn
        → DeniesFarm (HoldsTables image) (fault.DeskFault.Keep u.fault)) }

    // Whatever else they hold, they are reported to be of an old schema only where their `meta` may
    // have 1, and are reported so where it has; where it has neither 1 nor 2 they are bad.
    ensures version { MatchResult result
        (λ k. HasCleanDisk (file_state k.conn) → (image : Image) → ShowsFiles image conn
        → LooksAtFiles image (LooksForFarm None))
        (λ u. HasCleanDisk (file_state u.conn) → (image : Image) → ShowsFiles image conn
        → LooksAtFiles image (LooksForFarm (Some u.fault))) }

    // Where there is none, the store represents its tables as before.
    ensures only { IfErr result (λ u. ReadsOnly (file_state conn) (file_state u.conn)) }
    ensures fault { IfErr result (λ u. IsFindFault u.fault) }
{
    find_in(alloc, conn)
}

/// A keeper of the farm whose tables a connection holds that was just opened, or the connection,
/// and why.
pub(crate) fn find_in<S: Alter>(alloc: Global, conn: Connection<S>) -> Result<Keeper<S>, Unkept<S>>
    requires { conn.in_transaction ≡ false }
    ensures found { IfOk result (FindsTables S.Store conn) }
    ensures denied { IfErr result (λ u. HasCleanDisk (state S.Store u.conn)
        → DeniesFarm (OpensTables S.Store conn) (fault.DeskFault.Keep u.fault)) }
    ensures version { MatchResult result
        (λ k. HasCleanDisk (state S.Store k.conn) → LooksForFarm None (state S.Store conn).now)
        (λ u. HasCleanDisk (state S.Store u.conn)
        → LooksForFarm (Some u.fault) (state S.Store conn).now) }
    ensures only { IfErr result (λ u. ReadsOnly (state S.Store conn) (state S.Store u.conn)) }
    ensures fault { IfErr result (λ u. IsFindFault u.fault) }
{
    opened_stands(&conn);
    Keeper::adopt(alloc, conn)
}

/// The store over files that were just opened, once the farm in it is brought to this edition, or
/// as it is, and why. That its one call is of any store keeps its proof short.
pub(crate) fn raise_on<D: Disk>(
    alloc: Global,
    conn: Connection<FileStore<D>>,
) -> Result<Connection<FileStore<D>>, Unkept<FileStore<D>>>
    requires { conn.in_transaction ≡ false }
    ensures raised { IfOk result (λ new. (image : Image) → ShowsFiles image conn
        → RaisesFarm image new) }

    // The files are reported as bad only where they hold no sound farm of the first edition, and as
    // new only where their tables are of this one.
    ensures denied { IfErr result (λ u. HasCleanDisk (file_state u.conn) → (image : Image)
        → ShowsFiles image conn
        → DeniesUpgrade (HoldsTables image) (fault.DeskFault.Keep u.fault)) }

    // Whatever else they hold, they are reported to be of a new schema only where their `meta` may
    // have 2, and are reported so where it has; where it has neither 1 nor 2 they are bad.
    ensures version { MatchResult result
        (λ new. HasCleanDisk (file_state new) → (image : Image) → ShowsFiles image conn
        → LooksAtFiles image (LooksForFirst None))
        (λ u. HasCleanDisk (file_state u.conn) → (image : Image) → ShowsFiles image conn
        → LooksAtFiles image (LooksForFirst (Some u.fault))) }
    ensures clean { IfErr result (λ u. doubt (file_state conn).is_clean ≤ doubt
        (file_state u.conn).is_clean) }
    ensures fault { IfErr result (λ u. IsMigrateFault u.fault) }
{
    raise_in(alloc, conn)
}

/// A store that was just opened, once the farm in it is brought to this edition, or as it is, and
/// why.
fn raise_in<S: Alter>(alloc: Global, conn: Connection<S>) -> Result<Connection<S>, Unkept<S>>
    requires { conn.in_transaction ≡ false }
    ensures raised { IfOk result (RaisesTables S.Store conn) }
    ensures denied { IfErr result (λ u. HasCleanDisk (state S.Store u.conn)
        → DeniesUpgrade (OpensTables S.Store conn) (fault.DeskFault.Keep u.fault)) }
    ensures version { MatchResult result
        (λ new. HasCleanDisk (state S.Store new) → LooksForFirst None (state S.Store conn).now)
        (λ u. HasCleanDisk (state S.Store u.conn)
        → LooksForFirst (Some u.fault) (state S.Store conn).now) }
    ensures clean { IfErr result (λ u. doubt (state S.Store conn).is_clean ≤ doubt
        (state S.Store u.conn).is_clean) }
    ensures fault { IfErr result (λ u. IsMigrateFault u.fault) }
{
    opened_stands(&conn);
    upgrade(alloc, conn)
}
