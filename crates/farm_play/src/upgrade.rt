//! Files of the first edition, made this one's.
use crate::player::found;
use crate::store::{Disks, Failing, InFiles, with_fuse};
use farm_keep::{KeepFault, migrate};
use sqlite::{Alter, Connection};
use std::alloc::{AllocError, Global};

/// More calls than any upgrade needs.
const MANY: u64 = 10_000;

fn migrated<S: Alter>(alloc: Global, conn: &mut Connection<S>) -> Result<(), KeepFault> {
    if !conn.is_autocommit() {
        return Err(KeepFault::Store);
    }
    migrate(alloc, conn)
}

/// How an upgrade went, in words.
fn in_words(alloc: Global, end: Result<(), KeepFault>) -> Result<String, AllocError> {
    match end {
        Ok(()) => String::from_str(alloc, "migrated\n"),
        Err(fault) => {
            let code = fault.code();
            format!(in alloc; "{code} {fault}\n")
        }
    }
}

/// Files after an upgrade, and how it went.
fn upgraded<S: Alter + Drop>(alloc: Global, files: Disks) -> Option<(Disks, Result<(), KeepFault>)>
where
    Connection<S>: InFiles<S>,
{
    let mut conn = Connection::<S>::opened(alloc, files)?;
    let end = migrated(alloc, &mut conn);
    Some((conn.closed()?, end))
}

/// Files after an upgrade, and how it went, in words.
pub fn upgrade<S: Alter + Drop>(alloc: Global, files: Disks) -> Option<(Disks, String)>
where
    Connection<S>: InFiles<S>,
{
    let (files, end) = upgraded::<S>(alloc, files)?;
    Some((files, in_words(alloc, end).ok()?))
}

/// Whether an upgrade after a crash has to end so, where the one before it ended like that.
fn follows(first: Result<(), KeepFault>, again: Result<(), KeepFault>) -> bool {
    match (first, again) {
        (Ok(()), Err(KeepFault::NewSchema)) => true,
        (Err(KeepFault::Store), Ok(()) | Err(KeepFault::NewSchema)) => true,
        _ => false,
    }
}

/// The farm in words that files hold.
fn farm_in<S: Alter + Drop>(alloc: Global, files: Disks) -> Option<String>
where
    Connection<S>: InFiles<S>,
{
    match found::<S>(alloc, files) {
        Ok(desk) => desk.in_words(alloc).ok(),
        Err(_) => None,
    }
}

/// An upgrade, a crash, and another upgrade; whether the store was stopped. None where one went
/// wrong, or another farm is found in the end.
fn upgraded_twice<S: Alter + Drop>(alloc: Global, files: Disks, farm: &str) -> Option<bool>
where
    Connection<S>: InFiles<S>,
{
    let Some(mut conn) = Connection::<S>::opened(alloc, files) else {
        return Some(true);
    };
    let first = migrated(alloc, &mut conn);
    let (files, was_stopped) = Connection::<S>::crashed(conn.into_store());
    let (files, again) = upgraded::<S>(alloc, files)?;
    let words = farm_in::<S>(alloc, files)?;
    (follows(first, again) && words.as_str() == farm).then_some(was_stopped)
}

/// Upgrades that are stopped at each call of one of the files, until no stop is met; None where one
/// went wrong.
fn stops_each<S: Alter + Drop>(
    alloc: Global,
    files: &Disks,
    failing: Failing,
    farm: &str,
) -> Option<()>
where
    Connection<S>: InFiles<S>,
{
    for calls in 0..MANY {
        let copy = with_fuse(alloc, files, failing, calls).ok()?;
        if !upgraded_twice::<S>(alloc, copy, farm)? {
            return Some(());
        }
    }
    None
}

/// The same with either file, and with the farm that was found in the files of an upgrade that
/// wasn't stopped.
fn stops_in_both<S: Alter + Drop>(alloc: Global, files: &Disks, upgraded: &Disks) -> Option<()>
where
    Connection<S>: InFiles<S>,
{
    let copy = with_fuse(alloc, upgraded, Failing::Log, u64::MAX).ok()?;
    let farm = farm_in::<S>(alloc, copy)?;
    stops_each::<S>(alloc, files, Failing::Log, farm.as_str())?;
    stops_each::<S>(alloc, files, Failing::Tables, farm.as_str())
}

/// Upgrades that are stopped at each call; the files of one that isn't stopped, and how it went.
pub fn upgrade_stopped<S: Alter + Drop>(alloc: Global, files: Disks) -> Option<(Disks, String)>
where
    Connection<S>: InFiles<S>,
{
    let copy = with_fuse(alloc, &files, Failing::Log, u64::MAX).ok()?;
    let (upgraded, text) = upgrade::<S>(alloc, copy)?;
    stops_in_both::<S>(alloc, &files, &upgraded)?;
    Some((upgraded, text))
}
