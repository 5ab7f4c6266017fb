//! The edits of jobs and reservations, and of the boards that they hold: rows are changed in their
//! places, and logged.
ghost use Rattle.std.specs.Prelude.{◌≡◌, false, None, ◌==◌, OnOk, IfSome};
ghost use Rattle.farm_types.specs.Change.{is_unstarted};
ghost use Rattle.farm_types.specs.declared.rows.JobRow.{JobRow};
ghost use Rattle.farm_types.specs.Pass.{is_dead, change_jobs, change_res};
ghost use Rattle.farm_types.specs.declared.rows.ResRow.{ResRow};
ghost use Rattle.farm_types.specs.Small.{IsSmall};
ghost use Rattle.farm_table.specs.Near.{IsNear};
ghost use Rattle.farm_core.specs.Edits.{first_of, job_passes, IsSmallEffect};
ghost use Rattle.farm_core.specs.Edits.{board_after, job_changed, res_changed};
ghost use Rattle.farm_core.specs.declared.edits.Placement.{Placement};
ghost use Rattle.farm_core.specs.Came.{CameTo, seen, seen_at};
ghost use Rattle.farm_core.specs.Plain.{plain_farm};

use crate::board_effect::BoardEffect;
use crate::job_table::{edit_jobs, passes};
use crate::res_table::ResTable;
use crate::tables::Tables;
use farm_table::{Edit, Table};
use farm_types::{BoardRow, Holder, JobRow, JobState, MOST_WANTS, Name, Outcome, ResRow, ResState};
use std::alloc::AllocError;

/// How far the numbers of a group's members reach.
pub const GROUP_REACH: u64 = MOST_WANTS as u64;

/// Which jobs: members of a group, or one job by its number.
#[derive(Clone, Copy, Debug)]
pub enum JobFilter {
    /// The members of the group.
    Members(u64),
    /// Those that have not been started.
    Unstarted(u64),
    /// Those that run.
    Running(u64),
    /// Those that are Scheduling, since the group collects.
    Scheduling(u64),
    /// The job of the number.
    Numbered(u64),
}

/// What becomes of the board that a job's row names.
#[derive(Clone, Copy, Debug)]
pub enum Placement<'a> {
    /// It stays.
    Stays,
    /// None is named.
    Leaves,
    /// It is the board of that name.
    On(&'a Name),
}

/// A change of the jobs that pass.
#[derive(Clone, Copy, Debug)]
pub struct JobEdit<'a> {
    pub jobs: JobFilter,
    pub state: JobState,
    /// The outcome, if it changes.
    pub outcome: Option<Outcome>,
    pub placement: Placement<'a>,
}

impl<'a> JobEdit<'a> {
    /// The jobs that pass come into a state, with an outcome if one is given, and their rows name
    /// the same boards.
    pub fn to_state(jobs: JobFilter, state: JobState, outcome: Option<Outcome>) -> JobEdit<'a>
        ensures { result ≡ record {
          jobs = jobs;
          state = state;
          outcome = outcome;
          placement = Placement.Stays;
        } }
    {
        JobEdit {
            jobs,
            state,
            outcome,
            placement: Placement::Stays,
        }
    }
}

impl JobFilter {
    /// The least number of a job that passes.
    pub fn first(&self) -> u64
        ensures { result ≡ first_of self.now }
    {
        match *self {
            JobFilter::Members(first)
            | JobFilter::Unstarted(first)
            | JobFilter::Running(first)
            | JobFilter::Scheduling(first)
            | JobFilter::Numbered(first) => first,
        }
    }

    /// Whether a job of that number may pass. A no costs no look at its row, so contracts say what
    /// it means.
    pub fn reaches(&self, number: u64) -> bool
        ensures { result ≡ false → (j : JobRow) → IsNear j → j.number ≡ number
            → job_passes self.now j ≡ false }
    {
        let first = self.first();
        first <= number && number - first < GROUP_REACH
    }

    /// Whether a job passes.
    pub fn accepts(&self, row: &JobRow) -> bool
        ensures { result ≡ job_passes self.now row.now }
    {
        match *self {
            JobFilter::Members(group) => row.group == group,
            JobFilter::Unstarted(group) => row.group == group && is_unstarted(row),
            JobFilter::Running(group) => row.group == group && row.state == JobState::Running,
            JobFilter::Scheduling(group) => row.group == group && row.state == JobState::Scheduling,
            JobFilter::Numbered(number) => row.number == number,
        }
    }
}

/// Whether a job has not been started.
pub fn is_unstarted(row: &JobRow) -> bool
    ensures { result ≡ is_unstarted row.now }
{
    matches!(
        row.state,
        JobState::Submitted | JobState::Scheduling | JobState::Scheduled
    )
}

impl Edit<JobRow> for JobEdit<'_> {
    ghost use Rattle.farm_core.specs.Edits.{job_passes, job_changed};

    ghost passes = { λ e. job_passes e.jobs };

    ghost changed = { job_changed };

    fn passes(&self, row: &JobRow) -> bool {
        self.jobs.accepts(row)
    }

    fn change(&self, row: &mut JobRow) {
        match self.placement {
            Placement::Stays => {}
            Placement::Leaves => row.board = None,
            Placement::On(name) => row.board = Some(name.copy()),
        }
        row.state = self.state;
        row.outcome = self.outcome.or(row.outcome);
    }
}

/// A change of one reservation, by its number: each field that is given.
#[derive(Clone, Copy, Debug)]
pub struct ResEdit<'a> {
    pub number: u64,
    pub state: Option<ResState>,
    pub deadline: Option<u64>,
    pub board: Option<&'a Name>,
}

/// Whether a reservation waits or has been allocated, and its deadline has come.
pub fn is_dead(now: u64, row: &ResRow) -> bool
    ensures { result ≡ is_dead now row.now }
{
    matches!(row.state, ResState::Waiting | ResState::Allocated) && row.deadline <= now
}

impl<'a> ResEdit<'a> {
    /// The reservation of a number comes into a state and has a deadline, each if it is given.
    pub fn new(number: u64, state: Option<ResState>, deadline: Option<u64>) -> ResEdit<'a>
        ensures { result ≡ record {
          number = number;
          state = state;
          deadline = deadline;
          board = None;
        } }
    {
        ResEdit {
            number,
            state,
            deadline,
            board: None,
        }
    }
}

impl Edit<ResRow> for ResEdit<'_> {
    ghost use Rattle.std.specs.Prelude.{◌==◌};
    ghost use Rattle.farm_core.specs.Edits.{res_changed};

    ghost passes = { λ e r. r.number == e.number };

    ghost changed = { res_changed };

    fn passes(&self, row: &ResRow) -> bool {
        row.number == self.number
    }

    fn change(&self, row: &mut ResRow) {
        if let Some(name) = self.board {
            row.board = Some(name.copy());
        }
        row.state = self.state.unwrap_or(row.state);
        row.deadline = self.deadline.unwrap_or(row.deadline);
    }
}

/// Rows that may hold boards: the jobs that pass, the reservation of a number, or those that are
/// dead at a moment.
#[derive(Drop)]
pub enum Holders<'a> {
    Jobs(&'a Table<JobRow>, JobFilter),
    Res(&'a ResTable, u64),
    Dead(&'a ResTable, u64),
}

/// What becomes of the boards that they hold.
#[derive(Drop)]
pub struct Held<'a> {
    pub holders: Holders<'a>,
    pub effect: BoardEffect,
}

impl Edit<BoardRow> for Held<'_> {
    ghost use Rattle.farm_core.specs.Edits.{are_held_by, board_after};

    ghost passes = { λ e b. are_held_by e.holders b.holder };

    ghost changed = { λ e b. board_after e.effect b };

    fn passes(&self, row: &BoardRow) -> bool {
        match (&self.holders, row.holder) {
            (Holders::Jobs(jobs, filter), Holder::Job(number)) => passes(jobs, filter, number),
            (Holders::Res(rows, one), Holder::Res(number)) => rows.has(*one, number),
            (Holders::Dead(rows, now), Holder::Res(number)) => rows.is_dead_at(number, *now),
            _ => false,
        }
    }

    fn change(&self, row: &mut BoardRow) {
        self.effect.change(row);
    }
}

impl Tables {
    /// Changes the jobs that pass and the boards that they hold. Each board is looked at, in name
    /// order, and a job that holds one is looked up where its number may pass: with B boards and J
    /// jobs it costs O(B + log J).
    pub fn edit_jobs_and_boards(
        &mut self,
        edit: JobEdit<'_>,
        effect: BoardEffect,
    ) -> Result<(), AllocError>
        requires first { IsSmall (first_of edit.jobs) }
        requires small { IsSmallEffect effect }
        ensures { OnOk result (CameTo self.old (seen_at (change_jobs (job_passes edit.entry.jobs)
            (job_changed edit.entry) (board_after effect) (plain_farm self.old))
            (seen self.old)) self.new) }
    {
        // The boards first: the jobs as they were say which change.
        let holders = Holders::Jobs(&self.jobs, edit.jobs);
        self.boards.change_where(&Held { holders, effect })?;
        edit_jobs(&mut self.jobs, edit)
    }

    /// Changes one reservation, and the board that it holds. Each board is looked at, in name
    /// order: with B boards and R reservations it costs O(B + log R).
    pub fn edit_reservation_and_board(
        &mut self,
        edit: ResEdit<'_>,
        effect: BoardEffect,
    ) -> Result<(), AllocError>
        requires deadline { IfSome edit.deadline IsSmall }
        requires small { IsSmallEffect effect }
        ensures { OnOk result (CameTo self.old (seen_at (change_res
            (λ r. r.number == edit.entry.number) (res_changed edit.entry) (board_after effect)
            (plain_farm self.old)) (seen self.old)) self.new) }
    {
        // The board first, as above.
        let holders = Holders::Res(&self.reservations, edit.number);
        self.boards.change_where(&Held { holders, effect })?;
        self.reservations.edit(edit)
    }
}
