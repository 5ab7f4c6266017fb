//! The queues follow the rows: which boards are free, which claims were given boards, and what is
//! noted of rows that were read.
ghost use Rattle.std.specs.Prelude.{◌≡◌, ◌<◌, ◌==◌, length, not, OnOk, []};
ghost use Rattle.std.specs.List.{All, filter, fold};
ghost use Rattle.farm_types.specs.Table.{put};
ghost use Rattle.farm_types.specs.Sound.{IsSound};
ghost use Rattle.farm_pick.specs.Queued.{idle_boards, queue_lists};
ghost use Rattle.farm_pick.specs.Index.{queued_cmp};
ghost use Rattle.farm_core.specs.Came.{CameTo, seen};
ghost use Rattle.farm_core.specs.Following.{FollowsLog, free_boards_with, without_boards, IsFresh};
ghost use Rattle.farm_core.specs.Following.{kind_in};
ghost use Rattle.farm_core.specs.Plain.{plain_farm};
ghost use Rattle.farm_core.specs.Serving.{names_at};

use crate::tables::Tables;
use farm_pick::Queues;
use farm_table::Table;
use farm_types::{BoardRow, Claim, ClaimKind, JobRow, TypeRow};
use std::alloc::AllocError;

/// A board stands among the free ones exactly where its row says that it is free.
fn note_board(queues: &mut Queues, types: &[TypeRow], row: &BoardRow) -> Result<(), AllocError>
    ensures { OnOk result (queues.new ≡ record queues.old {
      boards = free_boards_with types.now queues.old.boards row.now;
    }) }
{
    if farm_pick::is_free(types, row) {
        return queues.put_board(row.name.copy(), &row.kind);
    }
    queues.take_board(&row.name);
    Ok(())
}

/// The free boards follow some rows, one after the other. With B free boards each costs a binary
/// search and a move of those behind it.
fn note_boards(queues: &mut Queues, types: &[TypeRow], rows: &[BoardRow]) -> Result<(), AllocError>
    ensures { OnOk result (queues.new ≡ record queues.old {
      boards = fold (free_boards_with types.now) queues.old.boards rows.now;
    }) }
{
    for row in rows {
        note_board(queues, types, row)?;
    }
    Ok(())
}

/// The boards at some places are free no more.
fn take_boards(queues: &mut Queues, boards: &[BoardRow], places: &[usize])
    requires { All (λ at. at < length boards.now) places.now }
    ensures { queues.new ≡ record queues.old {
      boards = without_boards (names_at boards.now places.now) queues.old.boards;
    } }
{
    for at in places {
        queues.take_board(&boards[*at].name);
    }
}

/// Puts a claim into its queue: that of its first member's type, or of the reservations.
fn put_waiting(queues: &mut Queues, jobs: &Table<JobRow>, claim: Claim) -> Result<(), AllocError>
    requires { IsFresh claim.number queues.old.claims }
    ensures { OnOk result (queues.new ≡ record queues.old {
      claims = put queued_cmp queues.old.claims
          (record { claim = claim; kind = kind_in jobs.now.rows claim });
    }) }
{
    match claim.kind {
        ClaimKind::Reservation => queues.put_claim(claim, &None),
        ClaimKind::Group => match jobs.find(&claim.number) {
            Some(job) => queues.put_claim(claim, &job.want.kind),
            None => queues.put_claim(claim, &None),
        },
    }
}

impl Tables {
    /// The free boards follow the boards that are logged.
    pub fn refresh_free_boards(&mut self) -> Result<(), AllocError>
        requires { FollowsLog self.old }
        ensures { OnOk result (CameTo self.old (record (seen self.old) {
          queues = record self.old.queues { boards = idle_boards (plain_farm self.old) };
        }) self.new) }
    {
        note_boards(&mut self.queues, self.types.rows(), self.boards.log())?;
        Ok(())
    }

    /// The claim of a number gets the boards at some places: it waits no more, and they are free no
    /// more.
    pub fn take_assigned(&mut self, number: u64, places: &[usize])
        requires { All (λ at. at < length (plain_farm self.old).boards) places.now }
        ensures { CameTo self.old (record (seen self.old) {
          queues = record {
            claims = filter (λ x. not (x.claim.number == number)) self.old.queues.claims;
            boards = without_boards (names_at (plain_farm self.old).boards places.now)
                self.old.queues.boards;
          };
        }) self.new }
    {
        self.queues.take_claim(number);
        take_boards(&mut self.queues, self.boards.rows(), places);
    }

    /// Fills the empty queues: the free boards, and the claims of the rows, the last one first.
    /// With J jobs, R reservations and C claims it costs O(J + R + C log C).
    pub fn fill_queues(&mut self) -> Result<(), AllocError>
        requires sound { IsSound (plain_farm self.old) }
        requires empty { self.old.queues ≡ record { claims = []; boards = [] } }
        ensures farm { plain_farm self.new ≡ plain_farm self.old }
        ensures queues { OnOk result (self.new.queues ≡ queue_lists (plain_farm self.old)) }
    {
        note_boards(&mut self.queues, self.types.rows(), self.boards.rows())?;
        let alloc = *self.boards.allocator();
        let mut claims = farm_pick::queue_of(alloc, self.jobs.rows(), self.reservations.rows())?;
        while let Some(claim) = claims.pop() {
            put_waiting(&mut self.queues, &self.jobs, claim)?;
        }
        Ok(())
    }
}
