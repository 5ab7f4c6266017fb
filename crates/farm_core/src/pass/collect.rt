//! A group that can't begin collects boards, and gives them back when the next pass begins.
ghost use Rattle.std.specs.Prelude.{◌≡◌, ◌<◌, ◌==◌, IfSome, OnOk, length, option_and_then, slice_get};
ghost use Rattle.farm_types.specs.Pass.{giving_back, collect, first_free};
ghost use Rattle.farm_types.specs.Small.{IsSmall};
ghost use Rattle.farm_types.specs.Sound.{IsSound};
ghost use Rattle.farm_types.specs.declared.rows.JobRow.{JobRow};
ghost use Rattle.farm_pick.specs.Queued.{idle_boards};
ghost use Rattle.farm_core.specs.Came.{CameTo, LeadOn, seen, seen_at};
ghost use Rattle.farm_core.specs.Serving.{Collects, HasWant};
ghost use Rattle.farm_core.specs.Plain.{plain_farm};

use crate::board_effect::BoardEffect;
use crate::edits::{JobEdit, JobFilter, Placement};
use crate::pass::serve::numbers_in;
use crate::tables::Tables;
use farm_types::JobState;
use std::alloc::AllocError;

impl Tables {
    /// The place of the first free board, in name order, that fits what a job wants. At most one
    /// test a free board.
    fn pick_for_job(&self, number: u64) -> Option<usize>
        requires free { self.now.queues.boards ≡ idle_boards (plain_farm self.now) }
        ensures first { (j : JobRow) → HasWant (plain_farm self.now) number j
            → option_and_then (slice_get (plain_farm self.now).boards) result
            ≡ first_free (plain_farm self.now) j.want }
        ensures within { IfSome result (λ at. at < length (plain_farm self.now).boards) }
    {
        let row = self.find_job(number)?;
        let picked = self.pick(&[&row.want])?;
        Some(picked.places()[0])
    }

    /// The group that collects gives back what its members hold: they are Submitted, their boards
    /// free, and none collects. Where none did it costs nothing; else one look at each board.
    pub fn give_back(&mut self) -> Result<(), AllocError>
        requires { IsSound (plain_farm self.old) }
        ensures { OnOk result (CameTo self.old (seen_at (giving_back (plain_farm self.old))
            (seen self.old)) self.new) }
    {
        let group = self.collector;
        if group == 0 {
            return Ok(());
        }
        let back = JobEdit {
            jobs: JobFilter::Scheduling(group),
            state: JobState::Submitted,
            outcome: None,
            placement: Placement::Leaves,
        };
        self.edit_jobs_and_boards(back, BoardEffect::Free)?;
        self.collector = 0;
        Ok(())
    }

    /// A member takes the first free board that fits what it wants, if there is one: it is
    /// Scheduling then, and holds the board.
    fn collect_member(&mut self, number: u64) -> Result<(), AllocError>
        requires small { IsSmall number }
        requires free { self.old.queues.boards ≡ idle_boards (plain_farm self.old) }
        ensures collects { OnOk result ((j : JobRow) → HasWant (plain_farm self.old) number j
            → Collects (seen self.old) j (seen self.new)) }
        ensures logs { OnOk result (LeadOn self.old self.new) }
    {
        if let Some(at) = self.pick_for_job(number) {
            self.queues.take_board(&self.boards.rows()[at].name);
            self.assign_job(JobState::Scheduling, number, at)?;
        }
        Ok(())
    }

    /// The group collects: each member in turn takes the first free board that fits what it wants.
    /// With F free boards it costs a test of each for each of at most four members.
    pub fn collect_group(&mut self, group: u64) -> Result<(), AllocError>
        requires sound { IsSound (plain_farm self.old) }
        requires small { IsSmall group }
        requires free { self.old.queues.boards ≡ idle_boards (plain_farm self.old) }
        ensures { OnOk result (CameTo self.old (record {
          farm = collect (plain_farm self.old) group;
          queues = record self.old.queues {
            boards = idle_boards (collect (plain_farm self.old) group);
          };
        }) self.new) }
    {
        let numbers = numbers_in(self.member_rows(group), group);
        let members = numbers.as_slice();
        for at in 0..members.len() {
            self.collect_member(members[at])?;
        }
        self.collector = group;
        Ok(())
    }
}
