//! The commands on jobs that are there: Cancel, Start and Finish.
ghost use Rattle.std.specs.Prelude.{◌≡◌, ◌≤◌, ◌==◌, ◌||◌, [], length};
ghost use Rattle.std.specs.Prelude.{IfOk, IfSome, if◌then◌else◌};
ghost use Rattle.std.specs.List.{AllByRecursion, filter, list_any};
ghost use Rattle.std.specs.Option.{option_copied};
ghost use Rattle.farm_types.specs.Limits.{most_wants};
ghost use Rattle.farm_types.specs.Farm.{job_of, members};
ghost use Rattle.farm_types.specs.Refuse.{first_code, owned_by, can_cancel, cancel_reasons};
ghost use Rattle.farm_types.specs.Refuse.{start_reasons, finish_reasons};
ghost use Rattle.farm_types.specs.Small.{IsSmall, IsSmallJob};
ghost use Rattle.farm_types.specs.declared.calls.Cmd.{Cmd};
ghost use Rattle.farm_types.specs.declared.rows.JobState.{JobState};
ghost use Rattle.farm_table.specs.Near.{IsFitJob};
ghost use Rattle.farm_core.specs.Edits.{outcome_of};
ghost use Rattle.farm_core.specs.Came.{Acts, CameTo, seen, seen_at};
ghost use Rattle.farm_core.specs.Plain.{plain_farm};

use crate::board_effect::BoardEffect;
use crate::edits::{JobEdit, JobFilter, is_unstarted};
use crate::job_table::{edit_jobs, place_of};
use crate::refusal::is_admin;
use crate::tables::Tables;
use farm_types::{
    FORBIDDEN, JobRow, JobState, MOST_WANTS, NO_JOB, Name, Outcome, State, WRONG_STATE,
};
use std::alloc::AllocError;

/// Whether a row's owner or the admin calls.
pub fn owned_by(caller: &Name, owner: &Name) -> bool
    ensures { result ≡ owned_by caller.now owner.now }
{
    caller.is(owner) || is_admin(caller)
}

/// Whether a job can be canceled.
fn can_cancel(row: &JobRow) -> bool
    ensures { result ≡ can_cancel row.now }
{
    is_unstarted(row) || matches!(row.state, JobState::Running)
}

/// Whether some member of a group, among some rows, can be canceled.
fn some_can_cancel(rows: &[JobRow], group: u64) -> bool
    ensures { result ≡ list_any can_cancel (filter (λ j. j.group == group) rows.now) }
{
    rows.iter().filter(|row| row.group == group).any(can_cancel)
}

/// The outcome of a job: one that is being canceled ends as canceled, whatever is named.
fn outcome_of(row: &JobRow, named: Outcome) -> Outcome
    ensures { result ≡ outcome_of row.now named }
{
    if matches!(row.state, JobState::Canceling) {
        return Outcome::Canceled;
    }
    named
}

impl Tables {
    /// The job of that number, by binary search.
    pub fn find_job(&self, number: u64) -> Option<&JobRow>
        ensures found { option_copied result ≡ job_of (plain_farm self.now) number }
        ensures small { IfSome result (λ job. (job.now.number ≡ number) × IsSmallJob job.now) }
    {
        self.jobs.find(&number)
    }

    /// The few rows that stand where the members of a group do: no other row is a member.
    pub fn member_rows(&self, group: u64) -> &[JobRow]
        ensures members { filter (λ j. j.group == group) result.now
            ≡ members (plain_farm self.now) group }
        ensures few { length result.now ≤ most_wants }
        ensures fit { AllByRecursion IsFitJob result.now }
    {
        let start = place_of(&self.jobs, group);
        let rows = self.jobs.rows();
        let end = rows.len().min(start.saturating_add(MOST_WANTS));
        &rows[start..end]
    }

    /// Whether some member of a group can be canceled.
    fn can_cancel_some(&self, group: u64) -> bool
        ensures { result ≡ list_any can_cancel (members (plain_farm self.now) group) }
    {
        some_can_cancel(self.member_rows(group), group)
    }

    /// Why a job isn't canceled.
    pub fn refuse_cancel(&self, caller: &Name, number: u64) -> Option<u16>
        ensures { result ≡ first_code (cancel_reasons (plain_farm self.now) caller.now number) }
    {
        match self.find_job(number) {
            None => Some(NO_JOB),
            Some(job) if !owned_by(caller, &job.owner) => Some(FORBIDDEN),
            Some(job) if !self.can_cancel_some(job.group) => Some(WRONG_STATE),
            Some(_) => None,
        }
    }

    /// Why a job's group isn't started.
    pub fn refuse_start(&self, number: u64) -> Option<u16>
        ensures { result ≡ first_code (start_reasons (plain_farm self.now) number) }
    {
        match self.find_job(number) {
            None => Some(NO_JOB),
            Some(job) if matches!(job.state, JobState::Scheduled) => None,
            Some(_) => Some(WRONG_STATE),
        }
    }

    /// Why a job isn't finished.
    pub fn refuse_finish(&self, number: u64) -> Option<u16>
        ensures { result ≡ first_code (finish_reasons (plain_farm self.now) number) }
    {
        match self.find_job(number) {
            None => Some(NO_JOB),
            Some(job) if matches!(job.state, JobState::Running | JobState::Canceling) => None,
            Some(_) => Some(WRONG_STATE),
        }
    }

    /// The group collects no more, if it did.
    fn stop_collecting(&mut self, group: u64)
        ensures { CameTo self.old (seen_at (record (plain_farm self.old) {
          collector = if self.old.collector == group then 0 else self.old.collector;
        }) (seen self.old)) self.new }
    {
        if self.collector == group {
            self.collector = 0;
        }
    }

    /// Cancels a job's whole group: the members that were not started end, and their boards are
    /// free; those that run are being canceled; it collects no more. Gives the group's number.
    pub fn cancel(&mut self, number: u64) -> Result<u64, AllocError>
        ensures { IfOk result (λ n. Acts self.old [] (Cmd.Cancel number) n self.new) }
    {
        let group = match self.find_job(number) {
            None => return Ok(0),
            Some(job) => job.group,
        };
        let canceled = Some(Outcome::Canceled);
        let end = JobEdit::to_state(JobFilter::Unstarted(group), JobState::Finished, canceled);
        self.edit_jobs_and_boards(end, BoardEffect::Free)?;
        self.stop_collecting(group);
        let stop = JobEdit::to_state(JobFilter::Running(group), JobState::Canceling, None);
        edit_jobs(&mut self.jobs, stop)?;
        self.queues.take_claim(group);
        Ok(group)
    }

    /// Starts a job's whole group: its members run, and so do their boards. Gives the group's
    /// number.
    pub fn start(&mut self, number: u64) -> Result<u64, AllocError>
        ensures { IfOk result (λ n. Acts self.old [] (Cmd.Start number) n self.new) }
    {
        let group = match self.find_job(number) {
            None => return Ok(0),
            Some(job) => job.group,
        };
        let run = JobEdit::to_state(JobFilter::Members(group), JobState::Running, None);
        self.edit_jobs_and_boards(run, BoardEffect::State(State::Running))?;
        Ok(group)
    }

    /// Finishes a job: it ends, and its board is free and has the health that the outcome of a job
    /// or a check leaves. Gives the job's number.
    pub fn finish(&mut self, number: u64, named: Outcome) -> Result<u64, AllocError>
        requires { IsSmall self.old.clock }
        ensures { IfOk result (λ n. Acts self.old [] (Cmd.Finish number named) n self.new) }
    {
        let (checking, outcome) = match self.find_job(number) {
            None => return Ok(0),
            Some(job) => (job.checking, outcome_of(job, named)),
        };
        let jobs = JobFilter::Numbered(number);
        let end = JobEdit::to_state(jobs, JobState::Finished, Some(outcome));
        let effect = BoardEffect::End {
            checking,
            outcome,
            now: self.clock,
        };
        self.edit_jobs_and_boards(end, effect)?;
        Ok(number)
    }
}
