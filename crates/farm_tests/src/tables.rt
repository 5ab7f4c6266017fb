//! A row of each table that is put straight into a store, and read back as it was.
ghost use Rattle.std.specs.Prelude.{IfOk};
ghost use Rattle.std.specs.List.{AllByRecursion};
ghost use Rattle.farm_types.specs.Small.{IsSmallType, IsSmallBoard, IsSmallJob, IsSmallRes};
ghost use Rattle.farm_types.specs.Small.{IsSmallKept, AreSmall};

use crate::puts::write;
use crate::rows::{board, job, name, tags, type_row};
use farm_fakes::{make, read};
use farm_types::{
    BoardRow, Body, Changes, Check, Health, Holder, JobRow, JobState, KeptRow, Key, MetaRow,
    Outcome, Priority, Reply, ResRow, ResState, Rows, State, TypeRow, Want,
};
use sqlite::{Alter, Connection};
use std::alloc::{AllocError, Global};
use std::process::Abort;
use std::test::Fail;

fn types(alloc: Global) -> Result<Vec<TypeRow>, Fail>
    ensures { IfOk result (λ rows. AllByRecursion IsSmallType rows.items) }
{
    let mut row = type_row("bbb", Check::Never)?;
    row.check = Check::Hours(24);
    Ok(vec![in alloc; row]?)
}

/// A board that a job holds.
fn boards(alloc: Global) -> Result<Vec<BoardRow>, Fail>
    ensures { IfOk result (λ rows. AllByRecursion IsSmallBoard rows.items) }
{
    let mut row = board(alloc, "b2", "hdmi,soc=rk3399")?;
    row.health = Health::Bad;
    row.state = State::Reserved;
    row.holder = Holder::Job(3);
    row.jobs_since = 4;
    row.last_check = 1_700_000_000;
    Ok(vec![in alloc; row]?)
}

/// A job without a type, a tag, a role, an outcome and a board, and with a text.
fn first_job(alloc: Global) -> Result<JobRow, Fail>
    ensures { IfOk result IsSmallJob }
{
    let text = String::from_str(alloc, "job_name = \"grüße 🔌\"")?;
    let mut row = job(alloc, 1, 1, Priority::of(0)?, JobState::Submitted)?;
    row.want.kind = None;
    row.body = Body::of(text);
    Ok(row)
}

/// A job with all that the first is without.
fn second_job(alloc: Global) -> Result<JobRow, Fail>
    ensures { IfOk result IsSmallJob }
{
    let tags = tags(alloc, "usb")?;
    let role = name("client")?;
    let board = name("b2")?;
    let mut row = job(alloc, 4, 2, Priority::of(100)?, JobState::Canceling)?;
    row.checking = true;
    row.want.tags = tags;
    row.role = Some(role);
    row.outcome = Some(Outcome::Infra);
    row.board = Some(board);
    Ok(row)
}

fn jobs(alloc: Global) -> Result<Vec<JobRow>, Fail>
    ensures { IfOk result (λ rows. AllByRecursion IsSmallJob rows.items) }
{
    let first = first_job(alloc)?;
    let second = second_job(alloc)?;
    Ok(vec![in alloc; first, second]?)
}

fn reservations(alloc: Global) -> Result<Vec<ResRow>, Fail>
    ensures { IfOk result (λ rows. AllByRecursion IsSmallRes rows.items) }
{
    let owner = name("ann")?;
    let priority = Priority::of(50)?;
    let tags = tags(alloc, "usb")?;
    let board = Some(name("b3")?);
    let row = ResRow {
        number: 8,
        owner,
        priority,
        want: Want { kind: None, tags },
        state: ResState::Acquired,
        deadline: 1_700_000_060,
        board,
    };
    Ok(vec![in alloc; row]?)
}

fn kept(alloc: Global) -> Result<Vec<KeptRow>, Fail>
    ensures { IfOk result (λ rows. AllByRecursion IsSmallKept rows.items) }
{
    let caller = name("ann")?;
    let key = Key::parse(b"j2")?;
    let row = KeptRow {
        caller,
        key,
        kind: 14,
        reply: Reply(1, 2, 3),
    };
    Ok(vec![in alloc; row]?)
}

pub(crate) fn one_of_each(alloc: Global) -> Result<Changes, Fail>
    ensures { IfOk result AreSmall }
{
    let types = types(alloc)?;
    let boards = boards(alloc)?;
    let jobs = jobs(alloc)?;
    let reservations = reservations(alloc)?;
    let kept = kept(alloc)?;
    let meta = MetaRow {
        clock: 1_700_000_000,
        collector: 0,
        count: 20,
        next: 11,
    };
    Ok(Changes {
        types,
        boards,
        jobs,
        reservations,
        kept,
        meta,
    })
}

/// Each field of each row.
pub(crate) fn in_words(alloc: Global, rows: &Rows) -> Result<String, AllocError> {
    format!(in alloc; "{rows:?}")
}

/// The rows that a new store gives once these were put.
fn put_and_read<S: Alter + Drop>(
    alloc: Global,
    mut conn: Connection<S>,
    changes: &Changes,
) -> Result<String, Fail>
    requires { AreSmall changes.now }
{
    make(&mut conn)?;
    write(alloc, &mut conn, changes)?;
    Ok(in_words(alloc, &read(alloc, &mut conn)?)?)
}

#[test]
fn rows_put_and_read(rt: HostRuntime) -> Result<(), Fail> {
    let alloc = rt.alloc();
    let changes = one_of_each(alloc)?;
    let found = put_and_read(alloc, Connection::open_in_memory(alloc)?, &changes)?;
    let wanted = in_words(alloc, &changes)?;
    assert_eq!(rt; found.as_str(), wanted.as_str());
    Ok(())
}
