//! What is done with a farm, and how long it takes.
ghost use Rattle.std.specs.Prelude.{IsTrue};
ghost use Rattle.farm_types.specs.Proper.{is_proper_cmd};

use crate::boards;
use crate::rows::{self, Shape};
use crate::watch::Watch;
use anyhow::bail;
use farm_core::{Farm, StepFault};
use farm_types::{Answer, Call, Cmd, Reply, Rows};
use std::alloc::Global;
use std::time::Instant;

/// What is done with the rows of a farm.
#[derive(Clone, Copy)]
pub enum Deed {
    /// The farm takes them.
    Take,
    /// A farm that has them passes, at a moment.
    Pass(u64),
    /// A farm that has them passes twice at a moment; the second pass is timed.
    PassAgain(u64),
    /// A farm that has them lists its queue.
    Queue,
}

/// What came of a deed, and how many nanoseconds it took.
#[derive(Drop)]
struct Done {
    what: String,
    nanos: u64,
}

/// A farm that takes these rows.
fn farm_of(rows: Rows) -> anyhow::Result<Farm> {
    match Farm::from_rows(rows) {
        Ok(farm) => Ok(farm),
        Err(_) => bail!("unsound rows"),
    }
}

/// A farm of a shape.
pub fn farm_in(alloc: Global, shape: &Shape) -> anyhow::Result<Farm> {
    farm_of(rows::rows(alloc, shape)?)
}

/// How many jobs and reservations a farm holds.
fn counts(farm: &Farm) -> (u64, u64) {
    let status = farm.status();
    (status.jobs, status.reservations)
}

/// What a farm took since a start, and how long that was.
fn taken(watch: &Watch<'_>, farm: &Farm, start: Instant) -> anyhow::Result<Done> {
    let nanos = watch.stop(start)?;
    let (jobs, reservations) = counts(farm);
    let what = format!(in watch.alloc(); "{jobs} jobs and {reservations} reservations taken")?;
    Ok(Done { what, nanos })
}

/// The command of a pass, with the fact that it is proper.
#[tactic(auto, unfolding(farm_types::specs::Proper::is_proper_cmd))]
fn proper_pass() -> Cmd
    ensures { IsTrue (is_proper_cmd result) }
{
    Cmd::Pass
}

/// A pass at a moment.
pub fn pass_at(alloc: Global, now: u64) -> anyhow::Result<Call> {
    let caller = boards::name("dispatcher")?;
    Ok(Call::new(caller, None, now, proper_pass()))
}

/// The reply to a call that was done.
fn reply_in(answer: Result<Answer, StepFault>) -> anyhow::Result<Reply> {
    match answer {
        Ok(Answer::Did(reply, _)) => Ok(reply),
        _ => bail!("refused"),
    }
}

/// The reply to a call, and how long it took.
fn timed(watch: &Watch<'_>, farm: &mut Farm, call: &Call) -> anyhow::Result<(Reply, u64)> {
    let start = watch.start()?;
    let answer = farm.step(call);
    let nanos = watch.stop(start);
    let reply = reply_in(answer)?;
    let nanos = nanos?;
    Ok((reply, nanos))
}

/// What a pass came to, in words, and how long it took.
fn timed_pass(watch: &Watch<'_>, farm: &mut Farm, call: &Call) -> anyhow::Result<Done> {
    let (Reply(_, ended, served), nanos) = timed(watch, farm, call)?;
    let what = format!(in watch.alloc(); "{ended} ended, {served} served")?;
    Ok(Done { what, nanos })
}

/// Passes so often, and times the last pass.
fn repeat_pass(
    watch: &Watch<'_>,
    farm: &mut Farm,
    call: &Call,
    passes: u32,
) -> anyhow::Result<Done> {
    for _ in 1..passes {
        timed_pass(watch, farm, call)?;
    }
    timed_pass(watch, farm, call)
}

/// Passes at a moment so often, and times the last pass.
fn pass_often(watch: &Watch<'_>, farm: &mut Farm, now: u64, passes: u32) -> anyhow::Result<Done> {
    let call = pass_at(watch.alloc(), now)?;
    repeat_pass(watch, farm, &call, passes)
}

/// How many claims a farm lists.
fn length_of_queue(farm: &Farm) -> anyhow::Result<usize> {
    let claims = farm.queue()?;
    Ok(claims.len())
}

/// How many claims a farm lists, and how long it took.
fn timed_queue(watch: &Watch<'_>, farm: &Farm) -> anyhow::Result<Done> {
    let start = watch.start()?;
    let count = length_of_queue(farm)?;
    let nanos = watch.stop(start)?;
    let what = format!(in watch.alloc(); "{count} claims")?;
    Ok(Done { what, nanos })
}

/// What is done with a farm that was taken since a start.
fn with_farm(
    watch: &Watch<'_>,
    farm: &mut Farm,
    deed: Deed,
    start: Instant,
) -> anyhow::Result<Done> {
    match deed {
        Deed::Take => taken(watch, farm, start),
        Deed::Pass(now) => pass_often(watch, farm, now, 1),
        Deed::PassAgain(now) => pass_often(watch, farm, now, 2),
        Deed::Queue => timed_queue(watch, farm),
    }
}

fn perform(watch: &Watch<'_>, shape: &Shape, deed: Deed) -> anyhow::Result<Done> {
    let rows = rows::rows(watch.alloc(), shape)?;
    let start = watch.start()?;
    let mut farm = farm_of(rows)?;
    with_farm(watch, &mut farm, deed, start)
}

/// Does a deed once, and adds its time; what came of it.
fn add_time(
    watch: &Watch<'_>,
    shape: &Shape,
    deed: Deed,
    times: &mut Vec<u64>,
) -> anyhow::Result<String> {
    let done = perform(watch, shape, deed)?;
    times.push(done.nanos)?;
    Ok(done.what)
}

/// Does a deed with the rows of a shape as often as the watch says, and shows what came of it.
pub fn measure(watch: &Watch<'_>, name: &str, shape: &Shape, deed: Deed) -> anyhow::Result<()> {
    let alloc = watch.alloc();
    let mut what = String::new(alloc);
    let mut times = Vec::new(alloc);
    for _ in 0..watch.rounds() {
        what = add_time(watch, shape, deed, &mut times)?;
    }
    let what = format!(in alloc; "{name}, {what}")?;
    watch.show(what.as_str(), times)
}
