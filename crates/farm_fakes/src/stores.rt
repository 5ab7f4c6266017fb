//! Stores with the tables of a farm, and stores in files that are stopped.
use farm_keep::Keeper;
use farm_store::{StoreFault, create, load};
use farm_types::Rows;
use sqlite::{Alter, Connection, FileStore, Files, Options};
use sqlite_disk::{Disk, Fuse, Memory};
use std::alloc::Global;

// These have no clause, so that the proof of a test doesn't carry what a connection shows. Each
// asks the connection that no transaction is begun.

/// Makes the tables of the empty farm.
pub fn make<S: Alter>(conn: &mut Connection<S>) -> Result<(), StoreFault> {
    if !conn.is_autocommit() {
        return Err(StoreFault::Store);
    }
    create(conn)
}

/// The rows that the tables hold.
pub fn read<S: Alter>(alloc: Global, conn: &mut Connection<S>) -> Result<Rows, StoreFault> {
    if !conn.is_autocommit() {
        return Err(StoreFault::Store);
    }
    load(alloc, conn)
}

/// A keeper of an empty farm; none where the store fails.
pub fn made<S: Alter + Drop>(alloc: Global, conn: Connection<S>) -> Option<Keeper<S>> {
    if !conn.is_autocommit() {
        return None;
    }
    Keeper::fresh(alloc, conn).ok()
}

/// A store in two files, with a small cache, and a log that is soon copied into the tables' file;
/// none where a file fails.
pub fn opened<D: Disk + Drop>(alloc: Global, files: Files<D>) -> Option<Connection<FileStore<D>>> {
    if !files.may_be_used() {
        return None;
    }
    let options = Options {
        cache_pages: 64,
        spill_pages: 64,
        checkpoint_frames: 8,
        seed: 200,
    };
    Connection::open_files(alloc, files, options).ok()
}

/// A new file that is stopped after so many calls.
pub fn stopping(alloc: Global, calls: u64) -> Fuse<Memory> {
    Fuse::new(Memory::new(alloc), calls)
}
