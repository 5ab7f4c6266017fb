//! The pass of a farm that has room for no job more, and a step that is refused memory.
use crate::asked::call;
use crate::rows::{board, job, no_rows, type_row};
use farm_core::{Farm, StepFault};
use farm_types::{
    Answer, BoardRow, Call, Check, Health, Holder, JobRow, JobState, Outcome, Priority, Reply,
    Rows, TypeRow, WordFault,
};
use std::alloc::Global;
use std::process::Abort;
use std::test::Fail;

/// The boards of that farm.
const BOARDS: [&str; 3] = ["b1", "b2", "b3"];

/// A type with a check.
fn types(alloc: Global) -> Result<Vec<TypeRow>, Fail> {
    let row = type_row("bbb", Check::Hours(24))?;
    Ok(vec![in alloc; row]?)
}

/// A board whose health is Unknown.
fn unknown(alloc: Global, called: &str) -> Result<BoardRow, WordFault> {
    let mut row = board(alloc, called, "")?;
    row.health = Health::Unknown;
    Ok(row)
}

fn boards(alloc: Global) -> Result<Vec<BoardRow>, Fail> {
    let mut rows = Vec::new(alloc);
    for called in BOARDS {
        rows.push(unknown(alloc, called)?)?;
    }
    Ok(rows)
}

/// A Finished job.
fn finished(alloc: Global, number: u64, priority: Priority) -> Result<JobRow, WordFault> {
    let mut row = job(alloc, number, number, priority, JobState::Finished)?;
    row.outcome = Some(Outcome::Complete);
    Ok(row)
}

/// As many Finished jobs as a farm may have.
fn jobs(alloc: Global) -> Result<Vec<JobRow>, Fail> {
    let medium = Priority::of(50)?;
    let mut rows = Vec::new(alloc);
    for number in 1..100_001 {
        rows.push(finished(alloc, number, medium)?)?;
    }
    Ok(rows)
}

/// The farm of these rows.
fn farm_of(rows: Rows) -> Result<Farm, Fail> {
    Ok(Farm::from_rows(rows)?)
}

fn full_farm(alloc: Global) -> Result<Farm, Fail> {
    let types = types(alloc)?;
    let boards = boards(alloc)?;
    let jobs = jobs(alloc)?;
    let mut rows = no_rows(alloc, 100_001);
    rows.types = types;
    rows.boards = boards;
    rows.jobs = jobs;
    farm_of(rows)
}

/// The reply where the call is done.
fn reply_to(farm: &mut Farm, call: &Call) -> Option<Reply> {
    match farm.step(call) {
        Ok(Answer::Did(reply, _)) => Some(reply),
        _ => None,
    }
}

/// Whether nobody holds a board.
fn are_free(farm: &Farm) -> bool {
    farm.boards()
        .iter()
        .all(|board| board.holder == Holder::Nobody)
}

/// How many boards and jobs there are, and how many commands were accepted.
fn counts(farm: &Farm) -> (u64, u64, u64) {
    let status = farm.status();
    (status.boards, status.jobs, status.count)
}

/// A pass is accepted, and makes no check.
fn expect_no_check(rt: &impl Abort, farm: &mut Farm, pass: &Call) {
    assert_eq!(rt; reply_to(farm, pass), Some(Reply(0, 0, 0)));
    assert_eq!(rt; counts(farm), (3, 100_000, 1));
    assert!(rt; are_free(farm));
}

/// Where there is no room for a check a pass is accepted all the same.
#[test]
fn farm_full_of_jobs(rt: HostRuntime) -> Result<(), Fail> {
    let pass = call(rt.alloc(), 1000, "dispatcher", "POST /pass", "")?;
    let mut farm = full_farm(rt.alloc())?;
    expect_no_check(&rt, &mut farm, &pass);
    Ok(())
}

/// How a step ends: done, with memory refused, on a farm that has failed, or otherwise.
#[derive(Clone, Copy, PartialEq, Eq)]
enum End {
    Done,
    Refused,
    Failed,
    Other,
}

fn end_of(farm: &mut Farm, call: &Call) -> End {
    match farm.step(call) {
        Ok(Answer::Did(_, _)) => End::Done,
        Ok(_) => End::Other,
        Err(StepFault::NoMemory) => End::Refused,
        Err(StepFault::Failed) => End::Failed,
    }
}

/// The call is done, or the farm has failed, and says so from then on.
fn expect_done_or_failed(rt: &impl Abort, farm: &mut Farm, call: &Call) {
    let end = end_of(farm, call);
    assert_eq!(rt; farm.is_failed(), end == End::Refused);
    if farm.is_failed() {
        assert!(rt; end_of(farm, call) == End::Failed);
    } else {
        assert!(rt; end == End::Done);
    }
}

/// Where memory is refused for a change, the farm has failed, and says so from then on.
#[test]
fn refused_memory(rt: HostRuntime) -> Result<(), Fail> {
    let call = call(rt.alloc(), 1, "admin", "POST /types", "{\"name\":\"bbb\"}")?;
    expect_done_or_failed(&rt, &mut Farm::empty(rt.alloc()), &call);
    Ok(())
}
