//! A farm's two files while they are served: whether somebody moved, removed or cut one. Nothing is
//! known of a path, so the clauses say which paths are looked at, and what is made of a look.
ghost use Rattle.std.specs.Prelude.{◌≡◌, ◌≢◌, ◌↔◌, ◌≤◌, IfErr, IfOk, IfSome, IsTrue, string_bytes};
ghost use Rattle.std.specs.IoError.{error_kind};
ghost use Rattle.std.specs.declared.io.ErrorKind.TheVariants.{NotADirectory, NotFound};
ghost use Rattle.farm_desk.specs.Preflight.{IsLogPath};

use crate::preflight::log_path;
use std::cell::Cell;
use std::io::ErrorKind;
use std::os::unix::fs::MetadataExt;
use std::{fs, io};

/// Which file it is: its device, and its node there.
type Identity = (u64, u64);

/// A path, the file that it named once that was open, and how long the file was at the last look.
#[derive(Drop)]
struct OpenFile {
    path: String,
    identity: Identity,
    length: Cell<u64>,
}

/// A farm's file and the log beside it, which the desk has open. Where a path names another file,
/// or none, or a file got shorter, somebody took it away: what the desk writes from then on is
/// lost. Neither gets shorter by what the desk does: nothing is vacuumed, and a log that was copied
/// into the file is written from its beginning on.
#[derive(Drop)]
pub(crate) struct OpenFiles<'a> {
    rt: &'a HostRuntime,
    file: OpenFile,
    log: OpenFile,
    are_lost: Cell<bool>,
}

impl<'a> OpenFiles<'a> {
    /// The files of a farm that was just opened; none where a path names no file, or where the
    /// system returns another error.
    pub(crate) fn new(rt: &'a HostRuntime, file: &str) -> Option<OpenFiles<'a>>
        ensures file { IfSome result (λ it. string_bytes it.file.path ≡ file.now) }
        ensures log { IfSome result (λ it. IsLogPath (string_bytes it.log.path)) }
    {
        let log = log_path(rt, file).ok()?;
        Some(OpenFiles {
            rt,
            file: OpenFile::new(rt, String::from_str(rt.alloc(), file).ok()?)?,
            log: OpenFile::new(rt, log)?,
            are_lost: Cell::new(false),
        })
    }

    /// Looks at both: whether neither was taken away, now or at a look before.
    pub(crate) fn are_present(&self) -> bool {
        if !self.file.is_present(self.rt) || !self.log.is_present(self.rt) {
            self.are_lost.set(true);
        }
        !self.are_lost()
    }

    /// Whether a look found that one was taken away.
    pub(crate) fn are_lost(&self) -> bool {
        self.are_lost.get()
    }
}

impl OpenFile {
    fn new(rt: &HostRuntime, path: String) -> Option<OpenFile>
        ensures { IfSome result (λ it. it.path ≡ path) }
    {
        let (identity, length) = look_up(rt, path.as_str()).ok()?;
        Some(OpenFile {
            path,
            identity,
            length: Cell::new(length),
        })
    }

    /// Whether the path names the file, which didn't get shorter, as far as the system says.
    fn is_present(&self, rt: &HostRuntime) -> bool {
        let found = look_up(rt, self.path.as_str());
        let length = self.length.get();
        if let Ok((_, length)) = found {
            self.length.set(length);
        }
        self.is_at(&found, length)
    }

    /// Whether a look found the file, no shorter than it was.
    fn is_at(&self, found: &io::Result<(Identity, u64)>, length: u64) -> bool
        ensures found { IfOk found.now (λ it. IsTrue result
            ↔ ((it.0 ≡ self.now.identity) × (length ≤ it.1))) }
        ensures failed { IfErr found.now (λ error. IsTrue result
            ↔ ((error_kind error ≢ NotFound) × (error_kind error ≢ NotADirectory))) }
    {
        match found {
            Ok((identity, longer)) => *identity == self.identity && length <= *longer,
            Err(error) => !matches!(error.kind(), ErrorKind::NotFound | ErrorKind::NotADirectory),
        }
    }
}

/// The file that a path names, and how long it is.
fn look_up(rt: &HostRuntime, path: &str) -> io::Result<(Identity, u64)> {
    let found = fs::metadata(rt, path)?;
    Ok(((found.dev(), found.ino()), found.len()))
}
