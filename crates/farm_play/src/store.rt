//! Stores in two files in memory, each of which may stop at a call.
use sqlite::{Connection, FileStore, Files, Options};
use sqlite_disk::{Crash, Disk, Fuse, Memory};
use std::alloc::Global;
use std::io;

/// The two files.
pub type Disks = Files<Fuse<Memory>>;

/// The store in them.
pub type DiskStore = FileStore<Fuse<Memory>>;

/// Which file stops.
#[derive(Clone, Copy)]
pub enum Failing {
    Log,
    Tables,
}

/// A connection to a store `S` in two files, as a player opens and ends it. All else that plays is
/// for any store, so that little is proved of this one.
pub trait InFiles<S> {
    /// With a small cache, and a log that is soon copied into the tables' file; None where a stop
    /// comes before the store is open.
    fn opened(alloc: Global, files: Disks) -> Option<Self>;

    /// The files of a store that ends in order: its log is copied into the tables' file.
    fn closed(self) -> Option<Disks>;

    /// What the files of a store are after a crash, and whether one of them was stopped.
    fn crashed(store: S) -> (Disks, bool);
}

impl InFiles<DiskStore> for Connection<DiskStore> {
    fn opened(alloc: Global, files: Disks) -> Option<Connection<DiskStore>> {
        opened(alloc, files)
    }

    fn closed(self) -> Option<Disks> {
        closed(self)
    }

    fn crashed(store: DiskStore) -> (Disks, bool) {
        crashed(store)
    }
}

fn opened<D: Disk + Drop>(alloc: Global, files: Files<D>) -> Option<Connection<FileStore<D>>> {
    if !files.may_be_used() {
        return None;
    }
    let options = Options {
        cache_pages: 64,
        spill_pages: 64,
        checkpoint_frames: 8,
        seed: 200,
    };
    match Connection::open_files(alloc, files, options) {
        Ok(conn) => Some(conn),
        Err(_) => None,
    }
}

fn closed<D: Disk + Drop>(conn: Connection<FileStore<D>>) -> Option<Files<D>> {
    match conn.close_files() {
        Ok(files) => Some(files),
        Err((_, store)) => {
            drop(store.close());
            None
        }
    }
}

/// Leaves of a file what a crash does; whether a call of it has failed or would fail now.
fn crash<D: Crash>(file: &mut D) -> bool {
    let was_stopped = !file.may_be_used() || file.len().is_err();
    file.crash();
    was_stopped
}

fn crashed<D: Crash + Drop>(store: FileStore<D>) -> (Files<D>, bool) {
    let mut files = store.close();
    let log = crash(&mut files.log);
    let tables = crash(&mut files.db);
    (files, log || tables)
}

/// Files without a byte, which never stop.
pub fn no_files(alloc: Global) -> Disks {
    Files {
        log: Fuse::new(Memory::new(alloc), u64::MAX),
        db: Fuse::new(Memory::new(alloc), u64::MAX),
    }
}

/// A copy that stops after so many calls.
fn fuse(alloc: Global, bytes: &[u8], calls: u64) -> io::Result<Fuse<Memory>> {
    let mut copy = Memory::new(alloc);
    copy.write_at(0, bytes)?;
    copy.sync()?;
    Ok(Fuse::new(copy, calls))
}

/// Copies of two files, of which one stops after so many calls.
pub fn with_fuse(alloc: Global, files: &Disks, failing: Failing, calls: u64) -> io::Result<Disks> {
    let (log_calls, db_calls) = match failing {
        Failing::Log => (calls, u64::MAX),
        Failing::Tables => (u64::MAX, calls),
    };
    let log = fuse(alloc, files.log.inner().bytes(), log_calls)?;
    let db = fuse(alloc, files.db.inner().bytes(), db_calls)?;
    Ok(Files { log, db })
}
