//! The test of reservation rows: each by itself, and against the board that it names.
ghost use Rattle.std.specs.Prelude.{◌≡◌, ◌↔◌, IsTrue};
ghost use Rattle.farm_types.specs.Farm.{farm_of};
ghost use Rattle.farm_types.specs.Sound.{IsResRow, res_gives};
ghost use Rattle.farm_sound.specs.ByRows.{IsShownOfRes};

use crate::ordered::OrderedRows;
use crate::want::{is_shown, names_board, prove_want};
use farm_types::{Holder, LEASE, ResRow, ResState, State};

/// The state that a reservation gives the board that it holds, if it holds one.
pub fn res_gives(state: ResState) -> Option<State>
    ensures { result ≡ res_gives state }
{
    match state {
        ResState::Allocated => Some(State::Reserved),
        ResState::Acquired => Some(State::Running),
        _ => None,
    }
}

/// The lines on a reservation.
pub fn is_res_row(ordered: &OrderedRows<'_>, row: &ResRow) -> bool
    ensures { IsTrue result ↔ IsResRow (farm_of ordered.now) row.now }
{
    let meta = &ordered.rows().meta;
    let (_owner, _priority) = (row.owner.as_str(), row.priority.get());
    prove_want(&row.want);
    1 <= row.number
        && row.number < meta.next
        && row.want.kind.is_none()
        && row.deadline <= meta.clock + LEASE
        && names_board(ordered, &row.board)
        && match row.state {
            ResState::Waiting => row.board.is_none(),
            ResState::Allocated | ResState::Acquired => row.board.is_some(),
            _ => true,
        }
}

/// Whether the board that a reservation holds says so.
pub fn is_shown_of_res(ordered: &OrderedRows<'_>, row: &ResRow) -> bool
    ensures { IsTrue result ↔ IsShownOfRes (farm_of ordered.now) row.now }
{
    let holder = Holder::Res(row.number);
    is_shown(ordered, res_gives(row.state), &row.board, holder)
}
