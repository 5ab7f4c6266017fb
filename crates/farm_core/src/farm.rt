//! The farm.
ghost use Rattle.std.specs.Prelude.{◌≡◌, ◌≤◌, ◌↔◌, true, false, map, Err, IsOk, IfOk, OnOk};
ghost use Rattle.std.specs.Option.{option_copied};
ghost use Rattle.farm_types.specs.Farm.{empty_farm, farm_of, job_of, status_of};
ghost use Rattle.farm_types.specs.Machine.{answer, step};
ghost use Rattle.farm_types.specs.Pick.{queue, shown_claim};
ghost use Rattle.farm_types.specs.Sound.{IsSound};
ghost use Rattle.farm_core.specs.Answers.{answer_of, ChangesLead, Rests, AreSmallChanges, IsChange};

use crate::refusal::repeated_reply;
use crate::tables::Tables;
use farm_sound::is_sound;
use farm_types::{
    Answer, BAD_STORE, BoardRow, Call, Claim, JobRow, NO_MEMORY, Refusal, ResRow, Rows, Status,
    TypeRow,
};
use std::alloc::{AllocError, Global};
use std::marker::Model;
use thiserror::Error;

/// Why a step gave no answer.
#[derive(Clone, Copy, Debug, PartialEq, Eq, Error)]
pub enum StepFault {
    /// There is no memory for the change: from now on the farm has failed.
    #[error("{}", Refusal {code: NO_MEMORY})]
    NoMemory,
    /// The farm failed at an earlier step.
    #[error("failed")]
    Failed,
}

/// Why rows make no farm.
#[derive(Clone, Copy, Debug, PartialEq, Eq, Error)]
pub enum BadRows {
    /// The rows are no sound farm's.
    #[error("{}", Refusal {code: BAD_STORE})]
    Unsound,
    /// There is no memory for the kept replies, the queues or the leases.
    #[error("{}", Refusal {code: NO_MEMORY})]
    NoMemory,
}

impl From<AllocError> for BadRows {
    ghost use Rattle.std.specs.Prelude.{◌≡◌};
    ghost use Rattle.farm_core.specs.declared.farm.BadRows.TheVariants.{NoMemory};

    ghost from_gives = { λ _ e. e ≡ NoMemory };

    fn from(_error: AllocError) -> BadRows {
        BadRows::NoMemory
    }
}

impl From<AllocError> for StepFault {
    ghost use Rattle.std.specs.Prelude.{◌≡◌};
    ghost use Rattle.farm_core.specs.declared.farm.StepFault.TheVariants.{NoMemory};

    ghost from_gives = { λ _ e. e ≡ NoMemory };

    fn from(_error: AllocError) -> StepFault {
        StepFault::NoMemory
    }
}

/// The board farm: types, boards, jobs, reservations, kept replies and four numbers, the queues of
/// those who wait, and the leases that may end. A farm that has not failed is sound, its queues are
/// its claims and its free boards, and each lease that may end is noted.
#[derive(Debug, Drop)]
pub struct Farm {
    tables: Tables,
    failed: bool,
}

impl Model for Farm {
    ghost use Rattle.farm_core.specs.Shown.{Shown, IsConsistentUnlessFailed};
    ghost use Rattle.farm_core.specs.Plain.{plain_farm};

    ghost Value = { Shown };

    ghost view = { λ f. record { failed = f.failed; farm = plain_farm f.tables } };

    ghost invariant = { λ f. IsConsistentUnlessFailed f.failed
        (plain_farm f.tables) f.tables.queues };
}

impl Farm {
    /// The farm that nothing was asked of.
    pub fn empty(alloc: Global) -> Farm
        ensures farm { result.farm ≡ empty_farm }
        ensures working { result.failed ≡ false }
    {
        Farm {
            tables: Tables::new(alloc),
            failed: false,
        }
    }

    /// The farm of these rows; refused where they are no sound farm's, or for want of memory. With
    /// n rows it costs O(n log n): each looks up a few others by binary search. It takes memory for
    /// the kept replies, for the queues, of the claims that wait and of the free boards, and for
    /// the leases.
    pub fn from_rows(rows: Rows) -> Result<Farm, BadRows>
        ensures farm { IfOk result (λ f. f.farm ≡ farm_of rows) }
        ensures working { IfOk result (λ f. f.failed ≡ false) }
        ensures taken { IsOk result → IsSound (farm_of rows) }
        ensures refused { result ≡ Err BadRows.Unsound ↔ (IsSound (farm_of rows) → ⊥) }
    {
        if !is_sound(&rows) {
            return Err(BadRows::Unsound);
        }
        let mut tables = Tables::of(rows)?;
        tables.fill_queues()?;
        Ok(Farm {
            tables,
            failed: false,
        })
    }

    /// Whether memory has run out in the middle of a change. What a failed farm shows is open.
    pub fn is_failed(&self) -> bool
        ensures failed { result ≡ self.now.failed }
        ensures sound { result ≡ false → IsSound self.now.farm }
    {
        self.failed
    }

    /// The types in name order.
    pub fn types(&self) -> &[TypeRow]
        ensures { result.now ≡ self.now.farm.types }
    {
        self.tables.types.rows()
    }

    /// The boards in name order.
    pub fn boards(&self) -> &[BoardRow]
        ensures { result.now ≡ self.now.farm.boards }
    {
        self.tables.boards.rows()
    }

    /// The reservations in order of number.
    pub fn reservations(&self) -> &[ResRow]
        ensures { result.now ≡ self.now.farm.reservations }
    {
        self.tables.reservations.rows()
    }

    /// The job of that number, by binary search. What a failed farm shows is open.
    pub fn job(&self, number: u64) -> Option<&JobRow>
        ensures { self.now.failed ≡ false → option_copied result ≡ job_of self.now.farm number }
    {
        if self.failed {
            return None;
        }
        self.tables.find_job(number)
    }

    /// How many rows there are, and the farm's four numbers.
    pub fn status(&self) -> Status
        ensures { result ≡ status_of self.now.farm }
    {
        Status {
            boards: self.tables.boards.len() as u64,
            clock: self.tables.clock,
            collector: self.tables.collector,
            count: self.tables.count,
            jobs: self.tables.jobs.len() as u64,
            next: self.tables.next,
            reservations: self.tables.reservations.len() as u64,
            types: self.tables.types.len() as u64,
        }
    }

    /// The claims that wait, in the order in which they are served. What a failed farm shows is
    /// open. With C claims in the queues of K types it costs O(C log K), whatever else the farm has
    /// lived through.
    pub fn queue(&self) -> Result<Vec<Claim>, AllocError>
        ensures { IfOk result (λ claims. self.now.failed ≡ false
            → claims.items ≡ map shown_claim (queue self.now.farm)) }
    {
        let claims = self.tables.queues.claims()?;
        Ok(claims)
    }

    /// One step of the machine: the answer, and where the command is accepted the changed rows.
    pub fn step(&mut self, call: &Call) -> Result<Answer, StepFault>
        // The answer is the machine's, and so is the farm.
        ensures answer { IfOk result (λ a. answer_of a ≡ answer self.old.farm call.entry.now) }
        ensures farm { OnOk result (self.new.farm ≡ step self.old.farm call.entry.now) }

        // The changed rows, put by their keys, lead from the old farm to the new one, and a store
        // can keep them.
        ensures rows { IfOk result (λ a. ChangesLead a self.old.farm self.new.farm) }
        ensures small { IfOk result AreSmallChanges }

        // A kept reply and a refusal leave the very farm.
        ensures rests { IfOk result (λ a. Rests a self.old self.new) }
        ensures sound { OnOk result (IsSound self.new.farm) }
        ensures working { OnOk result (self.new.failed ≡ false) }

        // Memory is wanted only for a change, and then the farm has failed.
        ensures memory { result ≡ Err StepFault.NoMemory
            → IsChange (answer self.old.farm call.entry.now) }
        ensures fails { result ≡ Err StepFault.NoMemory → self.new.failed ≡ true }

        // A failed farm stays as it is.
        ensures failed { (result ≡ Err StepFault.Failed) ↔ (self.old.failed ≡ true) }
        ensures stays { result ≡ Err StepFault.Failed → self.new ≡ self.old }
    {
        if self.failed {
            return Err(StepFault::Failed);
        }
        let kept = self.tables.find_kept(call);
        if let Some(reply) = repeated_reply(call, kept) {
            return Ok(Answer::Kept(reply));
        }
        if let Some(code) = self.tables.refusal(call, kept) {
            return Ok(Answer::Refused(Refusal { code }));
        }
        // A `?` in the middle leaves a farm that has failed.
        self.failed = true;
        let (reply, changes) = self.tables.change(call)?;
        self.failed = false;
        Ok(Answer::Did(reply, changes))
    }
}
