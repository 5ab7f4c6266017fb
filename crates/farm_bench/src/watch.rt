//! A watch.
use anyhow::bail;
use std::alloc::Global;
use std::time::Instant;

/// How often everything is timed.
const ROUNDS: u64 = 7;

/// A watch. Where it isn't asked to take times it shows what was done alone, so that such a run
/// always prints the same.
#[derive(Clone, Copy)]
pub struct Watch<'a> {
    pub rt: &'a HostRuntime,
    pub timed: bool,
}

impl Watch<'_> {
    pub fn alloc(&self) -> Global {
        self.rt.alloc()
    }

    /// How often a measure is taken.
    pub fn rounds(&self) -> u64 {
        if self.timed { ROUNDS } else { 1 }
    }

    pub fn start(&self) -> anyhow::Result<Instant> {
        match Instant::now(self.rt) {
            Ok(start) => Ok(start),
            Err(_) => bail!("no clock"),
        }
    }

    /// The nanoseconds since a start.
    pub fn stop(&self, start: Instant) -> anyhow::Result<u64> {
        match start.elapsed(self.rt) {
            Ok(time) => Ok(u64::try_from(time.as_nanos()).unwrap_or(u64::MAX)),
            Err(_) => bail!("no clock"),
        }
    }

    /// Prints what the next measures have in common.
    pub fn begin(&self, heading: &str) -> anyhow::Result<()> {
        println!(self.rt; "{heading}")?;
        Ok(())
    }

    /// Prints what was done, and of its times in nanoseconds the median, the least and the
    /// greatest.
    pub fn show(&self, what: &str, mut nanos: Vec<u64>) -> anyhow::Result<()> {
        if !self.timed {
            println!(self.rt; "  {what}")?;
            return Ok(());
        }
        nanos.sort_unstable();
        let median = nanos.get(nanos.len() / 2).copied().unwrap_or(0);
        let least = nanos.first().copied().unwrap_or(0);
        let most = nanos.last().copied().unwrap_or(0);
        println!(self.rt; "  {what}: {median} ns ({least} to {most})")?;
        Ok(())
    }
}
