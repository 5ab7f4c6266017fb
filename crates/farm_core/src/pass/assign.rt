//! Boards are assigned to jobs and reservations. No board moves in a pass, so each is given by its
//! place.
ghost use Rattle.std.specs.Prelude.{◌≡◌, ◌<◌, ◌≤◌, OnOk, get_or, length};
ghost use Rattle.std.specs.List.{All, AllByRecursion, fold, zip};
ghost use Rattle.std.specs.Str.{bytes_eq};
ghost use Rattle.farm_types.specs.Limits.{last_moment};
ghost use Rattle.farm_types.specs.Table.{change_where};
ghost use Rattle.farm_types.specs.Pass.{held_board};
ghost use Rattle.farm_types.specs.Small.{IsSmall, held_by};
ghost use Rattle.farm_types.specs.declared.rows.BoardRow.{BoardRow};
ghost use Rattle.farm_types.specs.declared.rows.JobState.{JobState};
ghost use Rattle.farm_types.specs.declared.rows.State.{State};
ghost use Rattle.farm_core.specs.Came.{CameTo, seen, seen_at};
ghost use Rattle.farm_core.specs.Plain.{plain_farm};
ghost use Rattle.farm_core.specs.Serving.{assign_named, assign_first, names_at};

use crate::board_effect::BoardEffect;
use crate::edits::{JobEdit, JobFilter, Placement, ResEdit};
use crate::job_table::edit_jobs;
use crate::tables::Tables;
use farm_types::{Holder, JobState, LEASE, ResState};
use std::alloc::AllocError;

impl Tables {
    /// The board at a place is reserved for a holder.
    pub fn reserve_board(&mut self, at: usize, holder: Holder) -> Result<(), AllocError>
        requires within { at < length (plain_farm self.old).boards }
        requires small { IsSmall (held_by holder) }
        ensures { OnOk result ((b : BoardRow) → b ≡ get_or (plain_farm self.old).boards at b
            → CameTo self.old (seen_at (record (plain_farm self.old) {
              boards = change_where (λ c. bytes_eq c.name b.name)
                  (held_board holder State.Reserved) (plain_farm self.old).boards;
            }) (seen self.old)) self.new) }
    {
        // no row is read: it gives proofs that they are in order
        let _rows = self.boards.rows();
        self.boards.change_at(at, &BoardEffect::Reserve(holder))?;
        Ok(())
    }

    /// A job is in that state and holds the board at a place.
    pub fn assign_job(&mut self, state: JobState, number: u64, at: usize) -> Result<(), AllocError>
        requires within { at < length (plain_farm self.old).boards }
        requires small { IsSmall number }
        ensures { OnOk result ((b : BoardRow) → b ≡ get_or (plain_farm self.old).boards at b
            → CameTo self.old (seen_at (assign_named state (plain_farm self.old) (number, b.name))
            (seen self.old)) self.new) }
    {
        let name = &self.boards.rows()[at].name;
        let hold = JobEdit {
            jobs: JobFilter::Numbered(number),
            state,
            outcome: None,
            placement: Placement::On(name),
        };
        edit_jobs(&mut self.jobs, hold)?;
        self.reserve_board(at, Holder::Job(number))?;
        Ok(())
    }

    /// Each job is Scheduled on the board at its place among the places.
    pub fn assign_jobs(&mut self, numbers: &[u64], places: &[usize]) -> Result<(), AllocError>
        requires within { All (λ at. at < length (plain_farm self.old).boards) places.now }
        requires small { AllByRecursion IsSmall numbers.now }
        ensures { OnOk result (CameTo self.old (seen_at (fold (assign_named JobState.Scheduled)
            (plain_farm self.old) (zip numbers.now (names_at (plain_farm self.old).boards places.now)))
            (seen self.old)) self.new) }
    {
        let count = numbers.len().min(places.len());
        for at in 0..count {
            self.assign_job(JobState::Scheduled, numbers[at], places[at])?;
        }
        Ok(())
    }

    /// A reservation is assigned the board at the first of some places, for a lease from now on.
    pub fn assign_reservation(&mut self, number: u64, places: &[usize]) -> Result<(), AllocError>
        requires within { All (λ at. at < length (plain_farm self.old).boards) places.now }
        requires small { IsSmall number }
        requires clock { self.old.clock ≤ last_moment }
        ensures { OnOk result (CameTo self.old (seen_at (assign_first (plain_farm self.old) number
            (names_at (plain_farm self.old).boards places.now)) (seen self.old)) self.new) }
    {
        let Some(at) = places.first() else {
            return Ok(());
        };
        let name = &self.boards.rows()[*at].name;
        self.reservations.edit(ResEdit {
            number,
            state: Some(ResState::Allocated),
            deadline: Some(self.clock + LEASE),
            board: Some(name),
        })?;
        self.reserve_board(*at, Holder::Res(number))?;
        Ok(())
    }
}
