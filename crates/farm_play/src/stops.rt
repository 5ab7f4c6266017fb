//! Steps, stopped at each call of the store.
use crate::desk::Desk;
use crate::player::{Player, found};
use crate::reporter::{Reporter, is_wanted};
use crate::script::Step;
use crate::store::{Disks, Failing, InFiles, with_fuse};
use farm_keep::KeepFault;
use sqlite::{Alter, Connection};
use std::alloc::Global;
use std::io;

/// More calls than any run needs.
const MANY: u64 = 10_000;

/// With what an answer ends that says that a call of the store failed.
const STORE_FAULT: &str = "{\"code\":60,\"text\":\"store fault\"}";

/// Steps, and the farm in words before the first and after each, as it is in memory.
#[derive(Drop)]
struct Run<'a> {
    alloc: Global,
    reporter: &'a Reporter<'a>,
    steps: &'a [Step],
    farms: &'a [String],
}

/// How far a run came, and how it ended.
#[derive(Clone, Copy)]
enum End {
    /// All steps were answered.
    Whole,
    /// So many were, and the next one met a fault of the store.
    Fault(usize),
    /// A step was answered otherwise.
    Wrong,
}

/// Whether an answer ends with that text.
fn ends_with(output: &[u8], text: &str) -> bool {
    output.ends_with(text.as_bytes())
}

impl<'a> Run<'a> {
    /// Plays the steps from a place on, up to the store's fault.
    fn play<S: Alter + Drop>(&self, desk: &mut Desk<S>, from: usize) -> io::Result<End> {
        for (place, step) in self.steps.iter().enumerate().skip(from) {
            let output = desk.does(self.alloc, step)?;
            if ends_with(output.as_slice(), STORE_FAULT) && !is_wanted(step, output.as_slice()) {
                return Ok(End::Fault(place));
            }
            if !self.reporter.judge(step, output.as_slice())? {
                return Ok(End::Wrong);
            }
        }
        Ok(End::Whole)
    }

    /// After how many steps the farm stood: those that were answered or, after a fault,
    /// perhaps one more.
    fn place_of<S: Alter + Drop>(&self, end: End, desk: &Desk<S>) -> io::Result<Option<usize>> {
        let (done, most) = match end {
            End::Whole => (self.steps.len(), self.steps.len()),
            End::Fault(done) => (done, done.saturating_add(1)),
            End::Wrong => return Ok(None),
        };
        let words = desk.in_words(self.alloc)?;
        for (place, farm) in self.farms.iter().enumerate() {
            if done <= place && place <= most && *farm == words {
                return Ok(Some(place));
            }
        }
        Ok(None)
    }

    /// Plays the rest, where the farm is that of the steps that were answered; how that ended.
    fn rest<S: Alter + Drop>(&self, desk: &mut Desk<S>, end: End) -> io::Result<Option<End>> {
        match self.place_of(end, desk)? {
            Some(place) => {
                let end = self.play(desk, place)?;
                Ok(Some(end))
            }
            None => {
                self.reporter.fails("another farm is found")?;
                Ok(None)
            }
        }
    }

    /// Whether all steps were answered, and the farm is that of the end.
    fn is_at_end<S: Alter + Drop>(&self, desk: &Desk<S>, end: End) -> io::Result<bool> {
        if matches!(end, End::Whole) && self.place_of(end, desk)?.is_some() {
            return Ok(true);
        }
        self.reporter.fails("the rest leads to another farm")
    }

    /// Whether these files hold the farm of the end.
    fn ends_in<S: Alter + Drop>(&self, files: Disks, end: End) -> io::Result<bool>
    where
        Connection<S>: InFiles<S>,
    {
        match found::<S>(self.alloc, files) {
            Ok(desk) => self.is_at_end(&desk, end),
            Err(_) => self.reporter.fails("no farm is found after the rest"),
        }
    }

    /// The farm is that of the steps that were answered, and the rest leads to the end, which is
    /// found after one more crash.
    fn goes_on<S: Alter + Drop>(&self, mut desk: Desk<S>, end: End) -> io::Result<bool>
    where
        Connection<S>: InFiles<S>,
    {
        let end = self.rest(&mut desk, end);
        let (files, _) = Connection::<S>::crashed(desk.into_store());
        match end? {
            Some(end) => self.ends_in::<S>(files, end),
            None => Ok(false),
        }
    }

    /// Plays the steps up to the store's fault, which closes the keeper; how that ended.
    fn first<S: Alter + Drop>(&self, desk: &mut Desk<S>) -> io::Result<End> {
        let end = self.play(desk, 0)?;
        if matches!(end, End::Fault(_)) && desk.is_open() {
            self.reporter.fails("a fault left the farm open")?;
            return Ok(End::Wrong);
        }
        Ok(end)
    }

    /// Goes on with the farm that is found.
    fn second<S: Alter + Drop>(
        &self,
        found: Result<Desk<S>, KeepFault>,
        end: End,
    ) -> io::Result<bool>
    where
        Connection<S>: InFiles<S>,
    {
        match found {
            Ok(desk) => self.goes_on(desk, end),
            Err(_) => self.reporter.fails("no farm is found"),
        }
    }

    /// Plays the steps up to the store's fault, and goes on with what is found after a crash.
    /// Whether the store was stopped; None where it went wrong, which is reported.
    fn is_stopped<S: Alter + Drop>(&self, files: Disks) -> io::Result<Option<bool>>
    where
        Connection<S>: InFiles<S>,
    {
        let Ok(mut desk) = found::<S>(self.alloc, files) else {
            return Ok(Some(true));
        };
        let end = self.first(&mut desk);
        let (files, was_stopped) = Connection::<S>::crashed(desk.into_store());
        let is_well = match end? {
            End::Wrong => false,
            End::Fault(_) if !was_stopped => self.reporter.fails("a fault without a stop")?,
            end => self.second(found::<S>(self.alloc, files), end)?,
        };
        Ok(is_well.then_some(was_stopped))
    }

    /// Runs stopped at each call of one of the files, until no stop is met; whether all is well.
    fn stops_each<S: Alter + Drop>(&self, files: &Disks, failing: Failing) -> io::Result<bool>
    where
        Connection<S>: InFiles<S>,
    {
        for calls in 0..MANY {
            match self.is_stopped::<S>(with_fuse(self.alloc, files, failing, calls)?)? {
                Some(true) => {}
                Some(false) => return Ok(true),
                None => return self.reporter.fails_after(calls),
            }
        }
        self.reporter.fails("each run was stopped")
    }
}

/// Adds the farms in words before the first step and after each, as they are in memory, in a run that
/// isn't stopped. Whether each step gives what is wanted.
fn add_farms<S: Alter + Drop>(
    reporter: &Reporter<'_>,
    player: &mut Player<S>,
    steps: &[Step],
    farms: &mut Vec<String>,
) -> io::Result<bool>
where
    Connection<S>: InFiles<S>,
{
    farms.push(player.in_words()?)?;
    for step in steps {
        if !player.plays(reporter, step)? {
            return Ok(false);
        }
        farms.push(player.in_words()?)?;
    }
    Ok(true)
}

/// Plays steps stopped at each call of the log and then of the tables' file, from a copy of the
/// files that they begin with.
fn plays_from<S: Alter + Drop>(
    alloc: Global,
    reporter: &Reporter<'_>,
    player: &mut Player<S>,
    steps: &[Step],
    files: &Disks,
) -> io::Result<bool>
where
    Connection<S>: InFiles<S>,
{
    let mut farms = Vec::new(alloc);
    if !add_farms(reporter, player, steps, &mut farms)? {
        return Ok(false);
    }
    let run = Run {
        alloc,
        reporter: &reporter.quiet(),
        steps,
        farms: farms.as_slice(),
    };
    Ok(run.stops_each::<S>(files, Failing::Log)? && run.stops_each::<S>(files, Failing::Tables)?)
}

/// Plays steps that ask, stopped at each call of the log and then of the tables' file; leaves the
/// farm of a run that isn't stopped. Whether all is well.
pub fn plays_stops<S: Alter + Drop>(
    alloc: Global,
    reporter: &Reporter<'_>,
    player: &mut Player<S>,
    steps: &[Step],
) -> io::Result<bool>
where
    Connection<S>: InFiles<S>,
{
    match player.copy() {
        Some(files) => plays_from(alloc, reporter, player, steps, &files),
        None => reporter.fails("no farm to stop"),
    }
}
