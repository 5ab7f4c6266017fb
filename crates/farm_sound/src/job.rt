//! The test of job rows: each by itself, against the rows that it names, and as one of its group.
ghost use Rattle.std.specs.Prelude.{◌≡◌, ◌≤◌, ◌==◌, ◌↔◌, IsTrue, length};
ghost use Rattle.std.specs.List.{filter, AllByRecursion};
ghost use Rattle.farm_types.specs.Farm.{farm_of};
ghost use Rattle.farm_types.specs.Sound.{IsJobRow, IsCheck, IsCollecting, Follows, job_gives};
ghost use Rattle.farm_types.specs.Sound.{phase};
ghost use Rattle.farm_sound.specs.ByRows.{IsJobNumbered, IsJobWorded, IsJobPlaced};
ghost use Rattle.farm_sound.specs.ByRows.{IsJobGrouped, IsInStep, IsShownOfJob};

use crate::ordered::OrderedRows;
use crate::want::{is_shown, names_board, names_type, prove_role, prove_want};
use farm_types::{HIGHEST_PRIORITY, Holder, JobRow, JobState, MOST_WANTS, Rows, State};

/// The state that a job gives the board that it holds, if it holds one.
pub fn job_gives(state: JobState) -> Option<State>
    ensures { result ≡ job_gives state }
{
    match state {
        JobState::Scheduling | JobState::Scheduled => Some(State::Reserved),
        JobState::Running | JobState::Canceling => Some(State::Running),
        _ => None,
    }
}

/// 0 while a group waits for boards, 1 when all its members have boards, 2 from the start on.
fn phase(state: JobState) -> u8
    ensures { result ≡ phase state }
{
    match state {
        JobState::Submitted | JobState::Scheduling => 0,
        JobState::Scheduled => 1,
        _ => 2,
    }
}

/// The lines on a job's numbers.
fn is_numbered(ordered: &OrderedRows<'_>, row: &JobRow) -> bool
    ensures { IsTrue result ↔ IsJobNumbered (farm_of ordered.now) row.now }
{
    1 <= row.number
        && row.number < ordered.rows().meta.next
        && ordered.res_of(row.number).is_none()
        && row.group <= row.number
        && row.number - row.group < MOST_WANTS as u64
}

/// The lines on a job's words.
fn is_worded(ordered: &OrderedRows<'_>, row: &JobRow) -> bool
    ensures { IsTrue result ↔ IsJobWorded (farm_of ordered.now) row.now }
{
    let (_owner, _priority) = (row.owner.as_str(), row.priority.get());
    prove_want(&row.want);
    prove_role(&row.role);
    names_type(ordered, &row.want.kind) && row.is_within_limits()
}

/// The lines on a job's state, outcome and board.
fn is_placed(ordered: &OrderedRows<'_>, row: &JobRow) -> bool
    ensures { IsTrue result ↔ IsJobPlaced (farm_of ordered.now) row.now }
{
    names_board(ordered, &row.board)
        && match row.state {
            JobState::Submitted => row.outcome.is_none() && row.board.is_none(),
            JobState::Finished => row.outcome.is_some(),
            _ => row.outcome.is_none() && row.board.is_some(),
        }
}

/// Whether a member but the first follows another.
fn follows(ordered: &OrderedRows<'_>, row: &JobRow) -> bool
    requires { 1 ≤ row.now.number }
    ensures { IsTrue result ↔ Follows (farm_of ordered.now) row.now }
{
    ordered.job_of(row.number - 1).is_some_and(|previous| {
        previous.group == row.group
            && previous.owner.is(&row.owner)
            && previous.priority.get() == row.priority.get()
            && !previous.checking
            && row.body.is_empty()
    })
}

/// The lines on a check.
fn is_check(row: &JobRow) -> bool
    ensures { IsTrue result ↔ IsCheck row.now }
{
    row.number == row.group
        && row.owner.as_str() == "admin"
        && row.priority.get() == HIGHEST_PRIORITY
        && phase(row.state) != 0
        && row.want.tags.is_empty()
        && row.role.is_none()
        && row.body.is_empty()
}

/// The lines on a job's group.
fn is_grouped(ordered: &OrderedRows<'_>, row: &JobRow) -> bool
    requires { 1 ≤ row.now.number }
    ensures { IsTrue result ↔ IsJobGrouped (farm_of ordered.now) row.now }
{
    (row.number == row.group || follows(ordered, row)) && (!row.checking || is_check(row))
}

/// The lines on a job.
pub fn is_job_row(ordered: &OrderedRows<'_>, row: &JobRow) -> bool
    ensures { IsTrue result ↔ IsJobRow (farm_of ordered.now) row.now }
{
    is_numbered(ordered, row)
        && is_worded(ordered, row)
        && is_placed(ordered, row)
        && is_grouped(ordered, row)
}

/// Whether a member but the first is in the phase of the one before it.
pub fn is_in_step(ordered: &OrderedRows<'_>, row: &JobRow) -> bool
    requires { 1 ≤ row.now.number }
    ensures { IsTrue result ↔ IsInStep (farm_of ordered.now) row.now }
{
    let in_phase = |previous: &JobRow| phase(previous.state) == phase(row.state);
    row.number == row.group || ordered.job_of(row.number - 1).is_some_and(in_phase)
}

/// Whether the board that a job holds says so.
pub fn is_shown_of_job(ordered: &OrderedRows<'_>, row: &JobRow) -> bool
    ensures { IsTrue result ↔ IsShownOfJob (farm_of ordered.now) row.now }
{
    let holder = Holder::Job(row.number);
    is_shown(ordered, job_gives(row.state), &row.board, holder)
}

/// How many jobs are of the group.
fn size_of(jobs: &[JobRow], group: u64) -> usize
    ensures { result ≡ length (filter (λ r. r.group == group) jobs.now) }
{
    jobs.iter().filter(|row| row.group == group).count()
}

/// Whether each Scheduling job is of the collector's group.
fn only_collector(jobs: &[JobRow], collector: u64) -> bool
    ensures { IsTrue result ↔ AllByRecursion (λ j. j.state ≡ JobState.Scheduling
        → (1 ≤ collector) × (j.group ≡ collector)) jobs.now }
{
    jobs.iter().all(|row| row.state != JobState::Scheduling
        || 1 <= collector && row.group == collector)
}

/// Whether each member of the group waits for boards.
fn all_wait(jobs: &[JobRow], group: u64) -> bool
    ensures { IsTrue result ↔ AllByRecursion (λ j. j.group ≡ group → phase j.state ≡ 0) jobs.now }
{
    jobs.iter()
        .all(|row| row.group != group || phase(row.state) == 0)
}

/// Whether only the collector's members are Scheduling, and it is a group of two or more members
/// that wait.
pub fn is_collecting(rows: &Rows) -> bool
    ensures { IsTrue result ↔ IsCollecting rows.now.meta.collector rows.now.jobs.items }
{
    let jobs = rows.jobs.as_slice();
    let collector = rows.meta.collector;
    only_collector(jobs, collector)
        && (collector == 0 || size_of(jobs, collector) >= 2 && all_wait(jobs, collector))
}
