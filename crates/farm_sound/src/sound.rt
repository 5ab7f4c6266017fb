//! Whether rows are those of a sound farm.
ghost use Rattle.std.specs.Prelude.{◌≡◌, ◌↔◌, IsTrue};
ghost use Rattle.std.specs.List.{AllByRecursion};
ghost use Rattle.farm_types.specs.Farm.{farm_of};
ghost use Rattle.farm_types.specs.Sound.{IsSound};
ghost use Rattle.farm_sound.specs.ByRows.{IsSoundByRows};

use crate::board::{is_board_row, is_held, is_of_few};
use crate::job::{is_collecting, is_in_step, is_job_row, is_shown_of_job};
use crate::ordered::OrderedRows;
use crate::reservation::{is_res_row, is_shown_of_res};
use farm_types::{BoardRow, JobRow, KeptRow, LAST_KIND, NUMBERS_END, ResRow, Rows, TypeRow};

/// A row of a table.
trait SoundRow {
    ghost use Rattle.farm_types.specs.Farm.{Farm, farm_of};

    /// What the row says, and what the others say of it.
    ghost IsIn: { Farm → Self → Type 0 };

    /// Whether the row is one of a sound farm.
    fn is_sound_among(&self, ordered: &OrderedRows<'_>) -> bool
        ensures { IsTrue result ↔ IsIn (farm_of ordered.now) self.now };
}

impl SoundRow for TypeRow {
    ghost use Rattle.farm_types.specs.Sound.{IsTypeRow};

    ghost IsIn = { λ _ row. IsTypeRow row };

    fn is_sound_among(&self, _ordered: &OrderedRows<'_>) -> bool {
        let _name = self.name.as_str();
        self.check.is_frequency()
    }
}

impl SoundRow for BoardRow {
    ghost use Rattle.farm_sound.specs.ByRows.{IsSoundBoard};

    ghost IsIn = { IsSoundBoard };

    fn is_sound_among(&self, ordered: &OrderedRows<'_>) -> bool {
        is_board_row(ordered, self) && is_of_few(ordered, self) && is_held(ordered, self)
    }
}

impl SoundRow for JobRow {
    ghost use Rattle.farm_sound.specs.ByRows.{IsSoundJob};

    ghost IsIn = { IsSoundJob };

    fn is_sound_among(&self, ordered: &OrderedRows<'_>) -> bool {
        is_job_row(ordered, self) && is_in_step(ordered, self) && is_shown_of_job(ordered, self)
    }
}

impl SoundRow for ResRow {
    ghost use Rattle.farm_sound.specs.ByRows.{IsSoundRes};

    ghost IsIn = { IsSoundRes };

    fn is_sound_among(&self, ordered: &OrderedRows<'_>) -> bool {
        is_res_row(ordered, self) && is_shown_of_res(ordered, self)
    }
}

impl SoundRow for KeptRow {
    ghost use Rattle.farm_types.specs.Sound.{IsKeptRow};

    ghost IsIn = { λ _ row. IsKeptRow row };

    fn is_sound_among(&self, _ordered: &OrderedRows<'_>) -> bool {
        let (_caller, _key) = (self.caller.as_str(), self.key.as_str());
        1 <= self.kind
            && self.kind <= LAST_KIND
            && self.reply.0 <= NUMBERS_END
            && self.reply.1 <= NUMBERS_END
            && self.reply.2 <= NUMBERS_END
    }
}

/// Whether each row is one of a sound farm.
fn are_sound_among<R: SoundRow>(ordered: &OrderedRows<'_>, list: &[R]) -> bool
    ensures { IsTrue result ↔ AllByRecursion (R.IsIn (farm_of ordered.now)) list.now }
{
    list.iter().all(|row| row.is_sound_among(ordered))
}

/// Whether rows in order are those of a sound farm, row by row.
fn is_sound_by_rows(ordered: &OrderedRows<'_>) -> bool
    ensures { IsTrue result ↔ IsSoundByRows (farm_of ordered.now) }
{
    let rows = ordered.rows();
    are_sound_among(ordered, rows.types.as_slice())
        && are_sound_among(ordered, rows.boards.as_slice())
        && are_sound_among(ordered, rows.jobs.as_slice())
        && are_sound_among(ordered, rows.reservations.as_slice())
        && are_sound_among(ordered, rows.kept.as_slice())
        && is_collecting(rows)
}

/// Whether the rows are those of a sound farm, exactly. It takes no memory. With n rows it costs
/// O(n log n): each row is looked at once and looks up a few others by binary search.
pub fn is_sound(rows: &Rows) -> bool
    ensures { IsTrue result ↔ IsSound (farm_of rows.now) }
{
    match OrderedRows::of(rows) {
        Some(ordered) => is_sound_by_rows(&ordered),
        None => false,
    }
}
