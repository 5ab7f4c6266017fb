//! The farms that are measured, as rows.
use crate::boards;
use farm_types::{
    BoardRow, Body, JobRow, JobState, MetaRow, Outcome, Priority, ResRow, ResState, Rows, TypeRow,
    Want, WordFault,
};
use std::alloc::Global;

/// The clock of a farm, in seconds since 1970.
pub const NOW: u64 = 1_700_000_000;

/// For how long a reservation lives without a refresh, in seconds.
pub const LEASE: u64 = 60;

/// The four jobs in front of all others, if there are any: they want the boards with the rare tag,
/// one of each type.
#[derive(Clone, Copy, PartialEq, Eq)]
pub enum Front {
    Nobody,
    /// They are one group.
    Group,
    /// Each is a group of its own.
    Jobs,
}

/// What stands in a farm beside its 256 boards.
#[derive(Clone, Copy)]
pub struct Shape {
    /// How many of the last boards are in maintenance.
    pub away: u64,
    /// Jobs that are finished.
    pub finished: u64,
    /// Groups of jobs that wait.
    pub groups: u64,
    /// How many jobs are in each group.
    pub members: u64,
    /// Reservations that were canceled.
    pub canceled: u64,
    /// Reservations that wait.
    pub waiting: u64,
    /// Whether those that wait ask for the tag that four boards have.
    pub rare: bool,
    /// Who waits in front of them.
    pub front: Front,
}

impl Shape {
    /// So many groups of so many jobs, and so many reservations, which all wait.
    pub fn waiting(groups: u64, members: u64, waiting: u64) -> Shape {
        Shape {
            away: 0,
            finished: 0,
            groups,
            members,
            canceled: 0,
            waiting,
            rare: false,
            front: Front::Nobody,
        }
    }

    /// So many finished jobs and as many canceled reservations.
    pub fn ended(rows: u64) -> Shape {
        let mut shape = Shape::waiting(0, 1, 0);
        shape.finished = rows;
        shape.canceled = rows;
        shape
    }

    /// So many single jobs behind others, where one board is in maintenance.
    pub fn behind(front: Front, jobs: u64) -> Shape {
        let mut shape = Shape::waiting(jobs, 1, 0);
        shape.away = 1;
        shape.front = front;
        shape
    }

    /// The same where claims want the rare tag, and so many boards are in maintenance.
    fn rare(mut self, away: u64) -> Shape {
        self.rare = true;
        self.away = away;
        self
    }

    /// The same where no free board fits: each claim wants the tag of the boards in maintenance.
    pub fn unfit(self) -> Shape {
        self.rare(boards::RARE)
    }

    /// The same where three boards fit.
    pub fn scarce(self) -> Shape {
        self.rare(1)
    }

    /// The same where no board is free.
    pub fn busy(mut self) -> Shape {
        self.away = boards::MOST;
        self
    }
}

/// The next free number, which is taken.
fn take_number(rows: &mut Rows) -> u64 {
    let number = rows.meta.next;
    rows.meta.next = number.saturating_add(1);
    number
}

/// The priority of what has a number: 0, 50 and 100 in turn.
fn priority_of(number: u64) -> anyhow::Result<Priority> {
    Ok(Priority::of(number % 3 * 50).map_err(WordFault::Refused)?)
}

/// A job that waits for a board of a type; the first of its group has a text of 300 bytes.
fn job(alloc: Global, number: u64, group: u64, rare: bool) -> anyhow::Result<JobRow> {
    let owner = boards::name("ann")?;
    let priority = priority_of(group)?;
    let kind = Some(boards::name(boards::kind_at(group))?);
    let tags = boards::asked_tags(alloc, rare)?;
    let length = if number == group { 300 } else { 0 };
    let text = format!(in alloc; "{:x>length$}", "")?;
    let mut row = JobRow::new(alloc, number, group, owner, priority, Want { kind, tags });
    row.body = Body::of(text);
    Ok(row)
}

/// A reservation for a board of any type.
fn reservation(alloc: Global, number: u64, state: ResState, rare: bool) -> anyhow::Result<ResRow> {
    let owner = boards::name("ann")?;
    let priority = priority_of(number)?;
    let tags = boards::asked_tags(alloc, rare)?;
    Ok(ResRow {
        number,
        owner,
        priority,
        want: Want { kind: None, tags },
        state,
        deadline: NOW + LEASE,
        board: None,
    })
}

fn add_finished(alloc: Global, rows: &mut Rows) -> anyhow::Result<()> {
    let number = take_number(rows);
    let board = boards::board_name(alloc, number % boards::MOST)?;
    let mut row = job(alloc, number, number, false)?;
    row.state = JobState::Finished;
    row.outcome = Some(Outcome::Complete);
    row.board = Some(board);
    rows.jobs.push(row)?;
    Ok(())
}

/// A group that waits, for boards of one type.
fn add_group(alloc: Global, rows: &mut Rows, shape: &Shape) -> anyhow::Result<()> {
    let group = rows.meta.next;
    for _ in 0..shape.members {
        let number = take_number(rows);
        let row = job(alloc, number, group, shape.rare)?;
        rows.jobs.push(row)?;
    }
    Ok(())
}

/// Four jobs of the highest priority, for the boards with the rare tag.
fn add_front(alloc: Global, rows: &mut Rows, together: bool) -> anyhow::Result<()> {
    let highest = Priority::of(100).map_err(WordFault::Refused)?;
    let first = rows.meta.next;
    for _ in 0..boards::RARE {
        let number = take_number(rows);
        let group = if together { first } else { number };
        let kind = boards::name(boards::kind_at(number))?;
        let mut row = job(alloc, number, group, true)?;
        row.priority = highest;
        row.want.kind = Some(kind);
        rows.jobs.push(row)?;
    }
    Ok(())
}

fn add_reservation(
    alloc: Global,
    rows: &mut Rows,
    state: ResState,
    rare: bool,
) -> anyhow::Result<()> {
    let number = take_number(rows);
    let row = reservation(alloc, number, state, rare)?;
    rows.reservations.push(row)?;
    Ok(())
}

/// The rows of a farm of these types and boards alone.
fn idle(alloc: Global, types: Vec<TypeRow>, boards: Vec<BoardRow>) -> Rows {
    Rows {
        types,
        boards,
        jobs: Vec::new(alloc),
        reservations: Vec::new(alloc),
        kept: Vec::new(alloc),
        meta: MetaRow {
            clock: NOW,
            collector: 0,
            count: 0,
            next: 1,
        },
    }
}

/// Adds what has ended.
fn add_ended(alloc: Global, rows: &mut Rows, shape: &Shape) -> anyhow::Result<()> {
    for _ in 0..shape.finished {
        add_finished(alloc, rows)?;
    }
    for _ in 0..shape.canceled {
        add_reservation(alloc, rows, ResState::Canceled, false)?;
    }
    Ok(())
}

/// Adds what waits.
fn add_waiting(alloc: Global, rows: &mut Rows, shape: &Shape) -> anyhow::Result<()> {
    if shape.front != Front::Nobody {
        add_front(alloc, rows, shape.front == Front::Group)?;
    }
    for _ in 0..shape.groups {
        add_group(alloc, rows, shape)?;
    }
    for _ in 0..shape.waiting {
        add_reservation(alloc, rows, ResState::Waiting, shape.rare)?;
    }
    Ok(())
}

/// The rows of a farm of this shape: first what ended, then what waits.
pub fn rows(alloc: Global, shape: &Shape) -> anyhow::Result<Rows> {
    let types = boards::types(alloc)?;
    let boards = boards::boards(alloc, boards::RARE, shape.away)?;
    let mut rows = idle(alloc, types, boards);
    add_ended(alloc, &mut rows, shape)?;
    add_waiting(alloc, &mut rows, shape)?;
    Ok(rows)
}
