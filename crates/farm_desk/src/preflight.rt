//! Checks of the paths of a farm's file and of its log before a store is opened there, and the
//! removal of what an open made in vain. An open makes what is missing, and where the file has no
//! byte it takes the log beside it for no log; so what must not be lost is looked at first. Nothing
//! is known of a path, so the clauses say what is made of a look, and none what it sees. What
//! another program does to a path between the look and the open isn't seen.
ghost use Rattle.std.specs.Prelude.{◌≡◌, ◌≢◌, ◌↔◌, true, Some, IfOk, IfSome, IsErrAnd, IsNone};
ghost use Rattle.std.specs.Prelude.{IsOkAnd, IsTrue, string_bytes};
ghost use Rattle.std.specs.Fs.{asks_create_new, asks_write};
ghost use Rattle.std.specs.IoError.{error_kind};
ghost use Rattle.std.specs.declared.io.ErrorKind.TheVariants.{NotFound};
ghost use Rattle.farm_desk.specs.NewFile.{database_text};
ghost use Rattle.farm_desk.specs.Preflight.{HasBytes, HasNoTable, HasPage, IsEmptyFile, IsLogPath};
ghost use Rattle.farm_desk.specs.Preflight.{IsNoLog, MayBeNew, log_path_of};
ghost use Rattle.farm_desk.specs.declared.preflight.PathState.TheVariants.{Database, Empty, Nothing};

use crate::new_file::write_first_page;
use os::{RangeLock, errno, try_lock_range};
use std::fs::{self, File, Metadata, OpenOptions};
use std::io::{self, ErrorKind, Read};
use std::os::fd::AsRawFd;
use std::os::unix::fs::OpenOptionsExt;

/// The bytes with which each database begins.
const FIRST_BYTES: [u8; 16] = *b"SQLite format 3\0";

/// A new farm's file may be written by its owner, and read by all.
const MODE: u32 = 0o644;

/// The place of the bytes on which SQLite's programs lock a file that they have open, and how many
/// these are.
const LOCKED: (u64, u64) = (1 << 30, 512);

/// The head of a log and that of its first page, up to its two salts.
const LOG_HEADS: usize = 48;

/// Where the root page of the list of tables has its head: in one byte that it is a leaf, and
/// behind two others, in two bytes, the number of its rows.
const ROOT: usize = 100;

/// A leaf of a table.
const LEAF: u8 = 13;

/// What there is at a path.
#[derive(Clone, Copy, PartialEq, Eq)]
enum PathState {
    /// No file and no folder.
    Nothing,
    /// A file without a byte.
    Empty,
    /// A file that begins as each database does.
    Database,
    /// Another file, a folder, or what can't be read.
    Other,
}

/// The paths of a farm's file and of its log, and what there was before the store was opened.
#[derive(Drop)]
pub(crate) struct Preflight<'a> {
    /// The path of the file.
    pub(crate) file: &'a str,
    file_state: PathState,
    log: String,
    log_state: PathState,
}

impl<'a> Preflight<'a> {
    /// Looks at both paths; none where that of the log isn't known.
    fn of_paths(rt: &HostRuntime, file: &'a str) -> Option<Self>
        ensures { IfSome result (λ it. it.file.now ≡ file.now) }
    {
        let log = log_path(rt, file).ok()?;
        let log_state = state_at(rt, log.as_str());
        Some(Preflight {
            file,
            file_state: state_at(rt, file),
            log,
            log_state,
        })
    }

    /// The check of a farm that is there; none where its file is no database. A log that was left
    /// over stays then: it may have all that there is of a farm.
    pub(crate) fn of_farm(rt: &HostRuntime, file: &'a str) -> Option<Self>
        ensures path { IfSome result (λ it. it.file.now ≡ file.now) }
        ensures database { IfSome result (λ it. it.file_state ≡ Database) }
    {
        let preflight = Preflight::of_paths(rt, file)?;
        (preflight.file_state == PathState::Database).then_some(preflight)
    }

    /// The check of a new farm, whose file is made where there was nothing; none where a file is
    /// neither empty nor a database, where it is seen to have a table, or where a log that isn't
    /// empty is left over without one.
    pub(crate) fn of_new_farm(rt: &HostRuntime, file: &'a str) -> Option<Self>
        ensures path { IfSome result (λ it. it.file.now ≡ file.now) }
        ensures new { IfSome result (λ it. MayBeNew it.file_state it.log_state) }
    {
        let preflight = Preflight::of_paths(rt, file)?;
        let has_no_log = matches!(preflight.log_state, PathState::Nothing | PathState::Empty);
        let is_free = match preflight.file_state {
            PathState::Nothing => has_no_log && make_file(rt, file).is_ok(),
            PathState::Empty => has_no_log,
            PathState::Database => !preflight.has_table(rt),
            PathState::Other => false,
        };
        if is_free { Some(preflight) } else { None }
    }

    /// The check of a farm in a new file, which is made with its first page; none where there is a
    /// file, or a log that isn't empty, or where none can be made.
    pub(crate) fn of_new_file(rt: &HostRuntime, file: &'a str) -> Option<Self>
        ensures path { IfSome result (λ it. it.file.now ≡ file.now) }
        ensures new { IfSome result (λ it. it.file_state ≡ Nothing × IsNoLog it.log_state) }
    {
        let preflight = Preflight::of_paths(rt, file)?;
        let is_free = preflight.file_state == PathState::Nothing
            && matches!(preflight.log_state, PathState::Nothing | PathState::Empty);
        (is_free && make_new_file(rt, file).is_ok()).then_some(preflight)
    }

    /// Whether a database is seen to have a table: its list of tables isn't an empty leaf, and no page
    /// of a log could make it one. Its store isn't opened then, which would begin its log anew.
    fn has_table(&self, rt: &HostRuntime) -> bool {
        let Ok(mut file) = File::open(rt, self.file) else {
            return false;
        };
        matches!(has_no_page(rt, self.log.as_str()), Ok(true))
            && matches!(has_no_table(&mut file), Ok(false))
    }

    /// Takes away what this order made of a store that is closed again: a log that wasn't there
    /// before and has no page, and the file that was made for a new farm, where it has no table.
    /// Both stay where another program has the file open; it is locked meanwhile. Where nothing can
    /// be locked, what was made for a new farm goes all the same. Where nothing was made, nothing is
    /// locked: whoever makes a farm there just then would be refused.
    pub(crate) fn clean_up(&self, rt: &HostRuntime) {
        let log = self.log.as_str();
        let is_new = self.file_state == PathState::Nothing;
        let is_log_new = self.log_state == PathState::Nothing
            && state_at(rt, log) != PathState::Nothing;
        if is_new || is_log_new {
            self.remove_unused(rt, is_new, is_log_new);
        }
    }

    /// Removes of a new file and a new log what holds nothing.
    fn remove_unused(&self, rt: &HostRuntime, is_new: bool, is_log_new: bool) {
        let Ok(mut file) = OpenOptions::new()
            .read(true)
            .write(true)
            .open(rt, self.file)
        else {
            return;
        };
        let locked = lock(&file);
        if is_held(&locked) || (locked.is_err() && !is_new) {
            return;
        }
        let log = self.log.as_str();
        if is_log_new && matches!(has_no_page(rt, log), Ok(true)) {
            let _ = fs::remove_file(rt, log);
        }
        let is_alone = state_at(rt, log) == PathState::Nothing;
        if is_new && is_alone && matches!(has_no_table(&mut file), Ok(true)) {
            let _ = fs::remove_file(rt, self.file);
        }
    }
}

/// Locks a file as SQLite's programs do while they have it open.
fn lock(file: &File) -> io::Result<()> {
    if try_lock_range(file.as_raw_fd(), RangeLock::Exclusive, LOCKED.0, LOCKED.1) == 0 {
        Ok(())
    } else {
        Err(io::Error::from_raw_os_error(errno()))
    }
}

/// Whether a file wasn't locked since another program has it open.
fn is_held(locked: &io::Result<()>) -> bool {
    matches!(locked, Err(error) if error.kind() == ErrorKind::WouldBlock)
}

fn state_at(rt: &HostRuntime, path: &str) -> PathState {
    if let Some(state) = seen_state(&fs::metadata(rt, path)) {
        return state;
    }
    match begins_as_database(rt, path) {
        Ok(true) => PathState::Database,
        _ => PathState::Other,
    }
}

/// What a look at a path saw; none of a file with bytes, which has to be read.
fn seen_state(found: &io::Result<Metadata>) -> Option<PathState>
    ensures nothing { (result ≡ Some Nothing) ↔ IsErrAnd found.now (λ e. error_kind e ≡ NotFound) }
    ensures empty { (result ≡ Some Empty) ↔ IsOkAnd found.now IsEmptyFile }
    ensures database { result ≢ Some Database }
    ensures bytes { IsNone result ↔ IsOkAnd found.now HasBytes }
{
    match found {
        Ok(found) if !found.is_file() => Some(PathState::Other),
        Ok(found) if found.len() == 0 => Some(PathState::Empty),
        Ok(_) => None,
        Err(error) if error.kind() == ErrorKind::NotFound => Some(PathState::Nothing),
        Err(_) => Some(PathState::Other),
    }
}

fn begins_as_database(rt: &HostRuntime, path: &str) -> io::Result<bool> {
    let mut first = [0u8; 16];
    File::open(rt, path)?.read_exact(&mut first)?;
    Ok(is_database_text(&first))
}

/// Whether these are the bytes with which each database begins.
fn is_database_text(first: &[u8; 16]) -> bool
    ensures { IsTrue result ↔ (first.now ≡ database_text) }
{
    *first == FIRST_BYTES
}

/// Whether a path has a log without a page that counts.
fn has_no_page(rt: &HostRuntime, path: &str) -> io::Result<bool> {
    let found = fs::metadata(rt, path)?;
    if found.len() < LOG_HEADS as u64 || !found.is_file() {
        return Ok(found.is_file());
    }
    let mut heads = [0u8; LOG_HEADS];
    File::open(rt, path)?.read_exact(&mut heads)?;
    Ok(!has_page(&heads))
}

/// Whether a log's first page counts. It has the log's salts, which are eight bytes: a page of
/// others is none, and no page behind it counts.
fn has_page(heads: &[u8; LOG_HEADS]) -> bool
    ensures { IsTrue result ↔ HasPage heads.now }
{
    heads[16..24] == heads[40..48]
}

/// Whether a file that is read from its first byte on has none, or is a database without a table.
fn has_no_table(file: &mut File) -> io::Result<bool> {
    if file.metadata()?.len() == 0 {
        return Ok(true);
    }
    let mut first = [0u8; ROOT + 5];
    file.read_exact(&mut first)?;
    Ok(is_without_table(&first))
}

/// Whether a file of these first bytes is a database without a table: it begins as each database
/// does, and its list of tables is a leaf without a row. The first byte may lack, since an open
/// writes it last.
fn is_without_table(first: &[u8; ROOT + 5]) -> bool
    ensures { IsTrue result ↔ HasNoTable first.now }
{
    first[1..16] == FIRST_BYTES[1..]
        && first[ROOT] == LEAF
        && first[ROOT + 3] == 0
        && first[ROOT + 4] == 0
}

/// The path of the log beside a file, or beside the file to which a link leads.
pub(crate) fn log_path(rt: &HostRuntime, file: &str) -> io::Result<String>
    ensures { IfOk result (λ log. IsLogPath (string_bytes log)) }
{
    match fs::canonicalize(rt, file) {
        Ok(real) => path_beside(rt, real.as_str()),
        Err(error) if error.kind() == ErrorKind::NotFound => path_beside(rt, file),
        Err(error) => Err(error),
    }
}

/// The path of a log as SQLite makes it of the file's.
fn path_beside(rt: &HostRuntime, file: &str) -> io::Result<String>
    ensures { IfOk result (λ log. string_bytes log ≡ log_path_of file.now) }
{
    Ok(format!(in rt.alloc(); "{file}-wal")?)
}

/// Makes a file where there is nothing.
fn make_file(rt: &HostRuntime, path: &str) -> io::Result<File> {
    new_file_options().open(rt, path)
}

/// How a file is made: where there is one, an open fails.
fn new_file_options() -> OpenOptions
    ensures write { asks_write result ≡ true }
    ensures new { asks_create_new result ≡ true }
{
    let mut options = OpenOptions::new();
    options.mode(MODE);
    options.write(true).create_new(true);
    options
}

/// Makes a file with its first page where there is nothing. That is on the disk before a store is
/// opened there, since an open takes the log beside a file without a byte for no log. The file is
/// locked meanwhile, so that no other program opens half a page; where one has the file open
/// already, it is that program's.
fn make_new_file(rt: &HostRuntime, path: &str) -> io::Result<()> {
    let mut file = make_file(rt, path)?;
    let locked = lock(&file);
    if is_held(&locked) {
        return locked;
    }
    let written = write_to_disk(&mut file);
    if written.is_err() {
        let _ = fs::remove_file(rt, path);
    }
    written
}

fn write_to_disk(file: &mut File) -> io::Result<()> {
    write_first_page(file)?;
    file.sync_all()
}
