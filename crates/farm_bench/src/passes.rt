//! The farms that take their rows, pass and list their queues.
use crate::measures::{Deed, measure};
use crate::rows::{Front, LEASE, NOW, Shape};
use crate::watch::Watch;

const PASS: Deed = Deed::Pass(NOW);

/// Passes over claims of a shape: boards fit; no free board fits, since each claim asks for the tag
/// of the boards in maintenance; three boards with that tag are free; no board is free.
fn run_claims(watch: &Watch<'_>, heading: &str, shape: &Shape) -> anyhow::Result<()> {
    watch.begin(heading)?;
    measure(watch, "boards fit", shape, PASS)?;
    measure(watch, "no free board fits", &shape.unfit(), PASS)?;
    measure(watch, "three boards fit", &shape.scarce(), PASS)?;
    measure(watch, "no board is free", &shape.busy(), PASS)
}

/// Passes over single jobs behind a group of four of which one board is in maintenance, and behind
/// four jobs in its place.
fn run_collector(watch: &Watch<'_>, claims: u64) -> anyhow::Result<()> {
    let heading = format!(in watch.alloc(); "{claims} jobs behind four")?;
    watch.begin(heading.as_str())?;
    let group = Shape::behind(Front::Group, claims);
    measure(watch, "a group of four collects", &group, PASS)?;
    let jobs = Shape::behind(Front::Jobs, claims);
    measure(watch, "four jobs in its place", &jobs, PASS)
}

/// Passes over so many single jobs.
fn run_singles(watch: &Watch<'_>, claims: u64) -> anyhow::Result<()> {
    let heading = format!(in watch.alloc(); "{claims} jobs")?;
    run_claims(watch, heading.as_str(), &Shape::waiting(claims, 1, 0))
}

/// Passes over so many groups of four.
fn run_fours(watch: &Watch<'_>, fours: u64) -> anyhow::Result<()> {
    let heading = format!(in watch.alloc(); "{fours} groups of four")?;
    run_claims(watch, heading.as_str(), &Shape::waiting(fours, 4, 0))
}

/// Passes over so many reservations, and one in which all end.
fn run_reservations(watch: &Watch<'_>, claims: u64) -> anyhow::Result<()> {
    let heading = format!(in watch.alloc(); "{claims} reservations")?;
    let shape = Shape::waiting(0, 1, claims);
    run_claims(watch, heading.as_str(), &shape)?;
    measure(watch, "all end", &shape, Deed::Pass(NOW + LEASE))
}

/// Passes over so many single jobs, groups of four, and reservations.
fn run_passes(watch: &Watch<'_>, claims: u64, fours: u64) -> anyhow::Result<()> {
    run_singles(watch, claims)?;
    run_fours(watch, fours)?;
    run_reservations(watch, claims)
}

/// A pass over so many finished jobs and canceled reservations, and the pass after it, which finds
/// the boards in the processor's cache; and taking them, and as many that wait.
fn run_rows(watch: &Watch<'_>, rows: u64) -> anyhow::Result<()> {
    watch.begin("rows")?;
    let ended = Shape::ended(rows);
    measure(watch, "pass over what has ended", &ended, PASS)?;
    measure(watch, "the pass after it", &ended, Deed::PassAgain(NOW))?;
    measure(watch, "what has ended", &ended, Deed::Take)?;
    let waiting = Shape::waiting(rows, 1, rows);
    measure(watch, "what waits", &waiting, Deed::Take)
}

/// The queue of claims, half of them groups of four, alone and behind finished jobs.
fn run_queue(watch: &Watch<'_>, finished: u64, claims: u64) -> anyhow::Result<()> {
    watch.begin("queue")?;
    let half = claims / 2;
    let mut shape = Shape::waiting(half, 4, half);
    measure(watch, "alone", &shape, Deed::Queue)?;
    shape.finished = finished;
    measure(watch, "behind finished jobs", &shape, Deed::Queue)
}

/// The measures on the scale of a full farm where the watch takes times, else on a small scale.
pub fn run(watch: &Watch<'_>) -> anyhow::Result<()> {
    if watch.timed {
        run_passes(watch, 1_000, 1_000)?;
        run_passes(watch, 100_000, 25_000)?;
        run_collector(watch, 1_000)?;
        run_rows(watch, 1_000)?;
        run_rows(watch, 100_000)?;
        run_queue(watch, 97_000, 1_000)
    } else {
        run_passes(watch, 20, 20)?;
        run_collector(watch, 20)?;
        run_rows(watch, 40)?;
        run_queue(watch, 40, 10)
    }
}
