//! Steps, played on a farm.
use crate::desk::{Desk, executed};
use crate::reporter::Reporter;
use crate::script::{Deed, Step};
use crate::store::{Disks, Failing, InFiles, no_files, with_fuse};
use crate::text::{first_word, shown};
use crate::upgrade::{upgrade, upgrade_stopped};
use farm_keep::KeepFault;
use sqlite::{Alter, Connection};
use std::alloc::{AllocError, Global};
use std::io;

/// What a step gives that can't be done.
const NOT_DONE: &[u8] = b"not done\n";

/// A farm that steps are played on, or the files of its store.
#[derive(Drop)]
pub struct Player<S: Alter> {
    alloc: Global,
    desk: Option<Desk<S>>,
    files: Option<Disks>,
}

/// The empty farm in new files.
fn made<S: Alter + Drop>(alloc: Global) -> Option<Desk<S>>
where
    Connection<S>: InFiles<S>,
{
    Desk::fresh(alloc, Connection::<S>::opened(alloc, no_files(alloc))?)
}

/// The farm that these files hold.
pub fn found<S: Alter + Drop>(alloc: Global, files: Disks) -> Result<Desk<S>, KeepFault>
where
    Connection<S>: InFiles<S>,
{
    match Connection::<S>::opened(alloc, files) {
        Some(conn) => Desk::adopt(alloc, conn),
        None => Err(KeepFault::Store),
    }
}

/// Which file stops, and after how many calls.
fn fuse_of(words: &str) -> Option<(Failing, u64)> {
    let (file, calls) = first_word(words);
    let calls = calls.parse::<u64>().ok()?;
    match file {
        "log" => Some((Failing::Log, calls)),
        "tables" => Some((Failing::Tables, calls)),
        _ => None,
    }
}

impl<S: Alter + Drop> Player<S>
where
    Connection<S>: InFiles<S>,
{
    /// The empty farm in new files.
    pub fn new(alloc: Global) -> Player<S> {
        Player {
            alloc,
            desk: made(alloc),
            files: None,
        }
    }

    /// The files of the store, which ends in order.
    fn take_files(&mut self) -> Option<Disks> {
        match self.desk.take() {
            Some(desk) => desk.into_connection().closed(),
            None => self.files.take(),
        }
    }

    fn sql(&mut self, statement: &str) -> Option<String> {
        let conn = Connection::<S>::opened(self.alloc, self.take_files()?)?;
        let (conn, text) = executed(self.alloc, conn, statement)?;
        self.files = Some(conn.closed()?);
        Some(text)
    }

    /// The store ends by a crash.
    fn crash(&mut self) -> Option<&'static str> {
        let (files, was_stopped) = Connection::<S>::crashed(self.desk.take()?.into_store());
        self.files = Some(files);
        Some(if was_stopped { "stopped\n" } else { "" })
    }

    /// The farm is found in the files of its store, or the fault says why not.
    fn find(&mut self) -> Result<(), KeepFault> {
        let Some(files) = self.files.take() else {
            return Err(KeepFault::Closed);
        };
        self.desk = Some(found(self.alloc, files)?);
        Ok(())
    }

    fn open(&mut self) -> Result<String, AllocError> {
        match self.find() {
            Ok(()) => String::from_str(self.alloc, "open\n"),
            Err(fault) => {
                let code = fault.code();
                format!(in self.alloc; "{code} {fault}\n")
            }
        }
    }

    /// The farm in words.
    pub fn in_words(&self) -> Result<String, AllocError> {
        match &self.desk {
            Some(desk) => desk.in_words(self.alloc),
            None => String::from_str(self.alloc, "no farm"),
        }
    }

    /// The store ends in order, and the farm is found in it again; a copy of its files.
    pub fn copy(&mut self) -> Option<Disks> {
        let files = self.take_files()?;
        self.files = Some(with_fuse(self.alloc, &files, Failing::Log, u64::MAX).ok()?);
        self.find().ok()?;
        Some(files)
    }

    /// The store ends in order, and one of its files will stop after so many calls.
    fn fuse(&mut self, failing: Failing, calls: u64) -> Option<&'static str> {
        let files = self.take_files()?;
        self.files = Some(with_fuse(self.alloc, &files, failing, calls).ok()?);
        Some("")
    }

    /// The store ends in order, and its tables of the first edition are made this one's.
    fn migrate(&mut self) -> Option<String> {
        let (files, text) = upgrade::<S>(self.alloc, self.take_files()?)?;
        self.files = Some(files);
        Some(text)
    }

    /// The same, stopped at each call at first.
    fn migrate_stopped(&mut self) -> Option<String> {
        let (files, text) = upgrade_stopped::<S>(self.alloc, self.take_files()?)?;
        self.files = Some(files);
        Some(text)
    }

    /// What a step on the store gives; None where it can't be done.
    fn work(&mut self, deed: Deed, words: &str) -> Option<String> {
        let text = match deed {
            Deed::Say => "",
            Deed::Close => self.fuse(Failing::Log, u64::MAX)?,
            Deed::Crash => self.crash()?,
            Deed::Fuse => {
                let (failing, calls) = fuse_of(words)?;
                self.fuse(failing, calls)?
            }
            Deed::Sql => return self.sql(words),
            Deed::Migrate => return self.migrate(),
            Deed::MigrateStopped => return self.migrate_stopped(),
            Deed::Open => return self.open().ok(),
            _ => return None,
        };
        String::from_str(self.alloc, text).ok()
    }

    /// What a step gives.
    fn does(&mut self, step: &Step) -> Result<Vec<u8>, AllocError> {
        if step.deed.is_asked() {
            return match &mut self.desk {
                Some(desk) => desk.does(self.alloc, step),
                None => Vec::from_slice(self.alloc, NOT_DONE),
            };
        }
        match self.work(step.deed, shown(step.head.as_slice())) {
            Some(text) => Ok(text.into_bytes()),
            None => Vec::from_slice(self.alloc, NOT_DONE),
        }
    }

    /// Plays a step, and reports whether it gave what is wanted of it.
    pub fn plays(&mut self, reporter: &Reporter<'_>, step: &Step) -> io::Result<bool> {
        let output = self.does(step)?;
        reporter.judge(step, output.as_slice())
    }
}
