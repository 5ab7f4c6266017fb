//! All fourteen commands in one run of the keeper, and in a run that a store is opened for.
use crate::asked::call;
use farm_core::Farm;
use farm_fakes::{made, make};
use farm_keep::{Keeper, RunEnd};
use farm_types::{Answer, Call, Holder, JobState, Outcome, Reply, ResRow, ResState, State};
use sqlite::{Alter, Connection};
use std::alloc::Global;
use std::process::Abort;
use std::test::Fail;

/// Each command: its moment, who gives it, its line and its body, and its reply. Each pass serves
/// one claim.
const COMMANDS: [(u64, &str, &str, &str, Reply); 15] = [
    (
        10,
        "admin",
        "POST /types",
        "{\"name\":\"bbb\"}",
        Reply(0, 0, 0),
    ),
    (
        10,
        "admin",
        "POST /boards",
        "{\"name\":\"b1\",\"type\":\"bbb\"}",
        Reply(0, 0, 0),
    ),
    (
        10,
        "admin",
        "POST /boards/b1/tags",
        "{\"tags\":[\"hdmi\"]}",
        Reply(0, 0, 0),
    ),
    (
        10,
        "admin",
        "POST /boards/b1/health",
        "{\"health\":\"Good\"}",
        Reply(0, 0, 0),
    ),
    (20, "ann", "POST /jobs", JOB, Reply(1, 0, 0)),
    (
        20,
        "ann",
        "POST /reservations",
        "{\"tags\":[]}",
        Reply(2, 0, 0),
    ),
    (30, "admin", "POST /pass", "", Reply(0, 0, 1)),
    (35, "admin", "POST /jobs/1/start", "", Reply(1, 0, 0)),
    (36, "admin", "POST /jobs/1/cancel", "", Reply(1, 0, 0)),
    (
        37,
        "admin",
        "POST /jobs/1/finish",
        "{\"outcome\":\"Complete\"}",
        Reply(1, 0, 0),
    ),
    (
        40,
        "ann",
        "POST /reservations/2/refresh",
        "",
        Reply(2, 0, 0),
    ),
    (50, "admin", "POST /pass", "", Reply(0, 0, 1)),
    (
        60,
        "ann",
        "POST /reservations/2/acquire",
        "",
        Reply(2, 0, 0),
    ),
    (
        70,
        "ann",
        "POST /reservations/2/release",
        "",
        Reply(2, 0, 0),
    ),
    (80, "ann", "POST /reservations/2/cancel", "", Reply(2, 0, 0)),
];

/// A job of priority 50 for a board of the type `bbb` with the tag `hdmi`.
const JOB: &str = "job_name = \"boot\"\ndevice_type = \"bbb\"\ntags = [\"hdmi\"]\n";

fn calls(alloc: Global) -> Result<Vec<Call>, Fail> {
    let mut calls = Vec::new(alloc);
    for (now, who, line, body, _) in &COMMANDS {
        calls.push(call(alloc, *now, who, line, body)?)?;
    }
    Ok(calls)
}

/// Whether a call was done, with this reply.
fn is_done(answer: &Answer, wanted: Reply) -> bool {
    match answer {
        Answer::Did(reply, _) => *reply == wanted,
        _ => false,
    }
}

/// Demands that a run did all commands, and met no fault.
fn expect_end(rt: &impl Abort, end: &RunEnd) {
    assert_eq!(rt; (end.done, end.answers.len(), end.fault), (15, 15, None));
    for (answer, command) in end.answers.iter().zip(&COMMANDS) {
        assert!(rt; is_done(answer, command.4), "{} {}", command.0, command.2);
    }
}

/// How many commands were accepted, when the last, and the next number.
fn numbers(farm: &Farm) -> (u64, u64, u64) {
    let status = farm.status();
    (status.count, status.clock, status.next)
}

/// Whether the job was canceled.
fn is_canceled(farm: &Farm) -> bool {
    match farm.job(1) {
        Some(job) => job.state == JobState::Finished && job.outcome == Some(Outcome::Canceled),
        None => false,
    }
}

/// Whether there is one board, and it is free.
fn is_free(farm: &Farm) -> bool {
    match farm.boards() {
        [board] => board.state == State::Idle && board.holder == Holder::Nobody,
        _ => false,
    }
}

/// Whether a reservation that had the board was given up.
fn has_ended(lease: &ResRow) -> bool {
    let had_board = match &lease.board {
        Some(board) => board.as_str() == "b1",
        None => false,
    };
    had_board && lease.number == 2 && lease.state == ResState::Canceled && lease.deadline == 130
}

/// Whether there is one reservation, which had the board and was given up.
fn is_given_up(farm: &Farm) -> bool {
    match farm.reservations() {
        [lease] => has_ended(lease),
        _ => false,
    }
}

/// Demands that the job was canceled, that its board is free, and that the reservation was given
/// up.
fn expect_rows(rt: &impl Abort, farm: &Farm) {
    assert_eq!(rt; numbers(farm), (15, 80, 3));
    assert!(rt; is_canceled(farm));
    assert!(rt; is_free(farm));
    assert!(rt; is_given_up(farm));
}

/// Demands the same of a keeper and its farm.
fn expect_kept<S: Alter>(rt: &impl Abort, keeper: &Keeper<S>, end: &RunEnd) -> Result<(), Fail> {
    expect_end(rt, end);
    match keeper.farm() {
        Some(farm) => expect_rows(rt, farm),
        None => return Err(Fail::new("closed")),
    }
    Ok(())
}

/// How a keeper's run over these calls ends.
fn run_end<S: Alter>(keeper: &mut Keeper<S>, calls: &[Call]) -> RunEnd {
    keeper.run(calls)
}

/// A run over a new store.
fn run<S: Alter + Drop>(
    rt: &impl Abort,
    alloc: Global,
    conn: Connection<S>,
    calls: &[Call],
) -> Result<(), Fail> {
    let mut keeper = made(alloc, conn).ok_or("no farm")?;
    let end = run_end(&mut keeper, calls);
    expect_kept(rt, &keeper, &end)
}

#[test]
fn all_fourteen_commands(rt: HostRuntime) -> Result<(), Fail> {
    let alloc = rt.alloc();
    let calls = calls(alloc)?;
    run(
        &rt,
        alloc,
        Connection::open_in_memory(alloc)?,
        calls.as_slice(),
    )
}

/// A keeper that a store is opened for, and how its run ends; none where the store fails.
fn resumed<S: Alter + Drop>(
    alloc: Global,
    conn: Connection<S>,
    calls: &[Call],
) -> Option<(Keeper<S>, RunEnd)> {
    if !conn.is_autocommit() {
        return None;
    }
    Keeper::resume(alloc, conn, calls).ok()
}

/// A run over a store that has the tables of the empty farm.
fn resume<S: Alter + Drop>(
    rt: &impl Abort,
    alloc: Global,
    mut conn: Connection<S>,
    calls: &[Call],
) -> Result<(), Fail> {
    make(&mut conn)?;
    let (keeper, end) = resumed(alloc, conn, calls).ok_or("no farm")?;
    expect_kept(rt, &keeper, &end)
}

#[test]
fn all_fourteen_resumed(rt: HostRuntime) -> Result<(), Fail> {
    let alloc = rt.alloc();
    let calls = calls(alloc)?;
    resume(
        &rt,
        alloc,
        Connection::open_in_memory(alloc)?,
        calls.as_slice(),
    )
}
