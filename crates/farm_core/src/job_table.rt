//! The jobs in order of number: where they stand, and how they change.
ghost use Rattle.std.specs.Prelude.{◌≡◌, ◌≤◌, false, length, OnOk};
ghost use Rattle.std.specs.Option.{option_map_or};
ghost use Rattle.farm_types.specs.Small.{IsSmall};
ghost use Rattle.farm_types.specs.Table.{change_where, job_cmp};
ghost use Rattle.farm_types.specs.declared.rows.JobRow.{JobRow};
ghost use Rattle.farm_sound.specs.Keys.{job_in};
ghost use Rattle.farm_table.specs.Tabled.{Leads};
ghost use Rattle.farm_core.specs.Edits.{job_passes, job_changed, first_of, IsPartitionPoint};

use crate::edits::{GROUP_REACH, JobEdit, JobFilter};
use farm_table::Table;
use farm_types::JobRow;
use std::alloc::AllocError;

/// How many places from a guess on are looked at before a search.
const GUESS_REACH: usize = 5;

/// How many jobs have a smaller number: where the job of that number is one of the few from a guess
/// on it is seen there, else it costs a binary search.
fn place_near(jobs: &Table<JobRow>, guess: usize, number: u64) -> usize
    ensures within { result ≤ length jobs.now.rows }
    ensures place { IsPartitionPoint (λ (r : JobRow). r.number) jobs.now.rows number result }
{
    let rows = jobs.rows();
    for place in guess..guess.saturating_add(GUESS_REACH) {
        if let Some(row) = rows.get(place) {
            if row.number == number {
                return place;
            }
        }
    }
    match jobs.place_of(&number) {
        Ok(at) => at,
        Err(at) => at,
    }
}

/// How many jobs have a smaller number. Jobs and reservations draw their numbers from one counter,
/// so while no reservation has drawn one since the first job a job's number says its place; else it
/// costs a binary search.
pub fn place_of(jobs: &Table<JobRow>, number: u64) -> usize
    ensures within { result ≤ length jobs.now.rows }
    ensures place { IsPartitionPoint (λ (r : JobRow). r.number) jobs.now.rows number result }
{
    let first = jobs.rows().first().map_or(0, |row| row.number);
    place_near(jobs, number.saturating_sub(first) as usize, number)
}

/// Whether the job of a number passes, by binary search where one of that number may.
pub fn passes(jobs: &Table<JobRow>, filter: &JobFilter, number: u64) -> bool
    ensures { result ≡ option_map_or (job_passes filter.now) (job_in jobs.now.rows number) false }
{
    // no row is read: it tells proofs that they fit
    let _rows = jobs.rows();
    filter.reaches(number) && jobs.find(&number).is_some_and(|row| filter.accepts(row))
}

/// Changes the jobs that pass. Only the few rows where these can stand are looked at, so with J
/// jobs it costs O(log J). Where memory runs out the first ones are changed.
pub fn edit_jobs(jobs: &mut Table<JobRow>, edit: JobEdit<'_>) -> Result<(), AllocError>
    requires { IsSmall (first_of edit.jobs) }
    ensures rows { OnOk result (jobs.new.rows ≡ change_where (job_passes edit.entry.jobs)
        (job_changed edit.entry) jobs.old.rows) }
    ensures leads { Leads job_cmp jobs.old jobs.new }
{
    // no row is read: it tells proofs that they fit
    let _rows = jobs.rows();
    let first = edit.jobs.first();
    let start = place_of(jobs, first);
    let end = place_near(jobs, start, first + GROUP_REACH);
    jobs.change_between(start, end, &edit)
}
