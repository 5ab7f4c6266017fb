//! The rows of a farm whose tables stand in order, so that each look-up is a binary search: it
//! costs O(log n) comparisons of keys, and no memory.
ghost use Rattle.std.specs.Prelude.{◌≡◌, ◌↔◌, IsTrue, MatchOption};
ghost use Rattle.std.specs.Option.{option_copied};
ghost use Rattle.farm_types.specs.Farm.{farm_of, type_of, board_of, job_of, res_of};
ghost use Rattle.farm_sound.specs.ByRows.{IsOrdered, IsFew, IsInBounds};

use farm_types::{
    BoardRow, JobRow, LAST_MOMENT, MOST_BOARDS, MOST_COMMANDS, MOST_JOBS, MOST_REPLIES,
    MOST_RESERVATIONS, MOST_TYPES, NUMBERS_END, Name, ResRow, Rows, TypeRow, is_sorted,
};
use std::marker::Model;

/// Rows of which no table has more than a farm may have, and each stands in strict order of its
/// keys.
#[derive(Drop)]
pub(crate) struct OrderedRows<'a> {
    rows: &'a Rows,
}

impl<'a> Model for OrderedRows<'a> {
    ghost use Rattle.farm_types.specs.Farm.{farm_of};
    ghost use Rattle.farm_types.specs.declared.calls.Rows.{Rows};
    ghost use Rattle.farm_sound.specs.ByRows.{IsInBounds};

    ghost Value = { Rows };

    ghost view = { λ o. o.rows.now };

    ghost invariant = { λ o. IsInBounds (farm_of o.rows.now) };
}

fn is_ordered(rows: &Rows) -> bool
    ensures { IsTrue result ↔ IsOrdered (farm_of rows.now) }
{
    is_sorted(rows.types.as_slice())
        && is_sorted(rows.boards.as_slice())
        && is_sorted(rows.jobs.as_slice())
        && is_sorted(rows.reservations.as_slice())
        && is_sorted(rows.kept.as_slice())
}

fn is_few(rows: &Rows) -> bool
    ensures { IsTrue result ↔ IsFew (farm_of rows.now) }
{
    rows.types.len() <= MOST_TYPES
        && rows.boards.len() <= MOST_BOARDS
        && rows.jobs.len() <= MOST_JOBS
        && rows.reservations.len() <= MOST_RESERVATIONS
        && rows.kept.len() <= MOST_REPLIES
        && rows.meta.clock <= LAST_MOMENT
        && rows.meta.count <= MOST_COMMANDS
        && 1 <= rows.meta.next
        && rows.meta.next <= NUMBERS_END
}

impl<'a> OrderedRows<'a> {
    /// These rows, where they are few and in order.
    pub(crate) fn of(rows: &'a Rows) -> Option<OrderedRows<'a>>
        ensures { MatchOption result (IsInBounds (farm_of rows.now) → ⊥) (λ o. (o ≡ rows.now)
            × IsInBounds (farm_of rows.now)) }
    {
        if is_few(rows) && is_ordered(rows) {
            Some(OrderedRows { rows })
        } else {
            None
        }
    }

    /// The rows.
    pub(crate) fn rows(&self) -> &'a Rows
        ensures rows { result.now ≡ self.now }
        ensures bounds { IsInBounds (farm_of self.now) }
    {
        self.rows
    }

    /// The type with that name, if there is one.
    pub(crate) fn type_of(&self, name: &Name) -> Option<&'a TypeRow>
        ensures { option_copied result ≡ type_of (farm_of self.now) name.now }
    {
        let types = self.rows.types.as_slice();
        match types.binary_search_by(|kind| kind.name.order(name)) {
            Ok(at) => Some(&types[at]),
            Err(_gap) => None,
        }
    }

    /// The board with that name, if there is one.
    pub(crate) fn board_of(&self, name: &Name) -> Option<&'a BoardRow>
        ensures { option_copied result ≡ board_of (farm_of self.now) name.now }
    {
        let boards = self.rows.boards.as_slice();
        match boards.binary_search_by(|board| board.name.order(name)) {
            Ok(at) => Some(&boards[at]),
            Err(_gap) => None,
        }
    }

    /// The job with that number, if there is one.
    pub(crate) fn job_of(&self, number: u64) -> Option<&'a JobRow>
        ensures { option_copied result ≡ job_of (farm_of self.now) number }
    {
        let jobs = self.rows.jobs.as_slice();
        match jobs.binary_search_by(|job| job.number.cmp(&number)) {
            Ok(at) => Some(&jobs[at]),
            Err(_gap) => None,
        }
    }

    /// The reservation with that number, if there is one.
    pub(crate) fn res_of(&self, number: u64) -> Option<&'a ResRow>
        ensures { option_copied result ≡ res_of (farm_of self.now) number }
    {
        let reservations = self.rows.reservations.as_slice();
        match reservations.binary_search_by(|row| row.number.cmp(&number)) {
            Ok(at) => Some(&reservations[at]),
            Err(_gap) => None,
        }
    }
}
