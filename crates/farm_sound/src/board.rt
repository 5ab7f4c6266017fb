//! The test of board rows: each by itself, and against the rows that it names.
ghost use Rattle.std.specs.Prelude.{◌≡◌, ◌↔◌, IsTrue, length};
ghost use Rattle.std.specs.List.{filter};
ghost use Rattle.std.specs.Str.{bytes_eq};
ghost use Rattle.farm_types.specs.Farm.{farm_of};
ghost use Rattle.farm_types.specs.Sound.{IsBoardRow};
ghost use Rattle.farm_sound.specs.ByRows.{IsOfFew, IsNamedBy};

use crate::job::job_gives;
use crate::ordered::OrderedRows;
use crate::reservation::res_gives;
use crate::want::is_named;
use farm_types::{BoardRow, Health, Holder, MOST_BOARDS_OF_TYPE, Name, State};

/// The lines on a board.
pub fn is_board_row(ordered: &OrderedRows<'_>, row: &BoardRow) -> bool
    ensures { IsTrue result ↔ IsBoardRow (farm_of ordered.now) row.now }
{
    let (_name, _tags) = (row.name.as_str(), row.tags.items());
    ordered.type_of(&row.kind).is_some()
        && row.tags.has_no_name_tag()
        && row.is_within_limits()
        && row.last_check <= ordered.rows().meta.clock
        && (!matches!(row.health, Health::Retired) || matches!(row.holder, Holder::Nobody))
}

/// How many boards are of a type.
fn count_kind(boards: &[BoardRow], kind: &Name) -> usize
    ensures { result ≡ length (filter (λ b. bytes_eq b.kind kind.now) boards.now) }
{
    boards.iter().filter(|row| row.kind.is(kind)).count()
}

/// Whether the boards of a board's type are few. Of at most 256 boards each is compared with each.
pub fn is_of_few(ordered: &OrderedRows<'_>, row: &BoardRow) -> bool
    ensures { IsTrue result ↔ IsOfFew (farm_of ordered.now) row.now }
{
    count_kind(&ordered.rows().boards, &row.kind) <= MOST_BOARDS_OF_TYPE
}

/// Whether the board's holder names the board, and gives it its state.
pub fn is_held(ordered: &OrderedRows<'_>, row: &BoardRow) -> bool
    ensures { IsTrue result ↔ IsNamedBy (farm_of ordered.now) row.now row.now.holder }
{
    match row.holder {
        Holder::Nobody => matches!(row.state, State::Idle),
        Holder::Job(number) => ordered.job_of(number).is_some_and(|job| {
            is_named(&job.board, &row.name) && job_gives(job.state) == Some(row.state)
        }),
        Holder::Res(number) => ordered.res_of(number).is_some_and(|res| {
            is_named(&res.board, &row.name) && res_gives(res.state) == Some(row.state)
        }),
    }
}
