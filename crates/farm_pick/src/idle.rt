//! The free boards, in name order, and the least list out of them alone.
ghost use Rattle.std.specs.Prelude.{◌≡◌, ◌≢◌, ◌==◌, ◌||◌, ◌<◌, ◌≤◌, ℕ, true, false, not, OnOk, OnErr};
ghost use Rattle.std.specs.Prelude.{All, AllPairs, length, map, None, IfNone, IfSome, option_map};
ghost use Rattle.std.specs.List.{filter, find};
ghost use Rattle.std.specs.List.Sorted.{IsStrictlySortedBy};
ghost use Rattle.std.specs.Str.{bytes_eq};
ghost use Rattle.farm_types.specs.Limits.{most_wants};
ghost use Rattle.farm_types.specs.Pick.{is_free, least};
ghost use Rattle.farm_types.specs.Table.{board_cmp, put};
ghost use Rattle.farm_pick.specs.Choice.{IsShortlist, candidate_at, is_named, named_at};
ghost use Rattle.farm_pick.specs.Heads.{queue_open};
ghost use Rattle.farm_pick.specs.Index.{AreIdle, IsPlace, idle_cmp, shown_idle};
ghost use Rattle.farm_pick.specs.Least.{boards_at};
ghost use Rattle.farm_pick.specs.Queued.{idle_board};

use crate::picked::Picked;
use crate::{fit, kind, search};
use farm_types::{BoardRow, Name, TypeRow, Want};
use std::alloc::AllocError;
use std::collections::VecDeque;

/// A free board, and the queue of its type.
#[derive(Debug, Drop)]
pub struct IdleRow {
    /// The board's name.
    pub name: Name,
    /// The queue of its type, 1 or more.
    pub queue: usize,
}

/// How many rows or boards are looked at one by one before a binary search.
const NEARBY: usize = 8;

/// How many boards are looked at before the place where the first free one is thought to stand.
const EARLIER: usize = 2;

/// The place of the row of a board, or the place at which such a one is to be inserted. The first
/// few rows are looked at before a binary search: claims mostly get one of the first free boards.
fn row_at(rows: &VecDeque<IdleRow>, name: &Name) -> Result<usize, usize>
    requires { IsStrictlySortedBy idle_cmp rows.now.items }
    ensures { IsPlace idle_cmp (λ r. r.name ≡ name.now) rows.now.items
        (find (λ r. bytes_eq r.name name.now) rows.now.items) result }
{
    for at in 0..rows.len().min(NEARBY) {
        if rows[at].name.is(name) {
            return Ok(at);
        }
    }
    rows.binary_search_by(|row| row.name.order(name))
}

/// Puts a row in the place of the one of its board, or adds it in name order. A refused growth
/// changes nothing. To add one moves the rows before it or those behind it, whichever are fewer.
pub fn put_row(rows: &mut VecDeque<IdleRow>, row: IdleRow) -> Result<(), AllocError>
    requires { IsStrictlySortedBy idle_cmp rows.old.items }
    ensures rows { OnOk result (rows.new.items ≡ put idle_cmp rows.old.items row) }
    ensures err { OnErr result (rows.new.items ≡ rows.old.items) }
{
    match row_at(rows, &row.name) {
        Ok(at) => {
            rows[at] = row;
            Ok(())
        }
        Err(at) => Ok(rows.insert(at, row)?),
    }
}

/// Takes the row of a board, if there is one. That moves the rows before it or those behind it,
/// whichever are fewer: a pass takes rows near the front, with few before them.
pub fn take_row(rows: &mut VecDeque<IdleRow>, name: &Name)
    requires { IsStrictlySortedBy idle_cmp rows.old.items }
    ensures { rows.new.items ≡ filter (λ r. not (bytes_eq r.name name.now)) rows.old.items }
{
    if let Ok(at) = row_at(rows, name) {
        let _row = rows.remove(at);
    }
}

/// Whether a board of the queue's type is free; for the reservations' queue any board.
pub fn is_open(rows: &VecDeque<IdleRow>, queue: usize) -> bool
    ensures { result ≡ queue_open rows.now.items queue }
{
    rows.iter().any(|row| queue == 0 || row.queue == queue)
}

/// The place of the board of a name: one of the next few from a place on, or else by binary search.
/// For names that come in their order, each asked for behind the one before it, it costs as many
/// comparisons as boards were passed, and at most those few and a binary search.
fn place_of(boards: &[BoardRow], name: &Name, from: usize) -> Option<usize>
    requires { IsStrictlySortedBy board_cmp boards.now }
    ensures within { IfSome result (λ p. p < length boards.now) }
    ensures found { IfSome result (λ p. is_named boards.now name.now p ≡ true) }
    ensures none { IfNone result (find (λ b. bytes_eq b.name name.now) boards.now ≡ None) }
{
    let end = from.saturating_add(NEARBY).min(boards.len());
    for at in from..end {
        if boards[at].name.is(name) {
            return Some(at);
        }
    }
    match boards.binary_search_by(|board| board.name.order(name)) {
        Ok(at) => Some(at),
        Err(_gap) => None,
    }
}

/// The place of a free board, if it is of the queue's type and fits the want. A board of another
/// type isn't looked up; the others are looked for behind the one that was looked up last.
fn fitting_place(
    row: &IdleRow,
    queue: usize,
    boards: &[BoardRow],
    want: &Want,
    behind: &mut usize,
) -> Option<usize>
    requires { IsStrictlySortedBy board_cmp boards.now }
    ensures found { IfSome result (λ p. named_at boards.now row.now.name want.now p ≡ true) }
    ensures none { IfNone result (((queue == 0) || (row.now.queue == queue)) ≡ true
        → (p : ℕ) → named_at boards.now row.now.name want.now p ≡ false) }
{
    if queue != 0 && row.queue != queue {
        return None;
    }
    let place = place_of(boards, &row.name, *behind)?;
    *behind = place + 1;
    let fits = fit::fits(&boards[place], want);
    if fits { Some(place) } else { None }
}

/// The first places of free boards for the want: all of them, or as many as the limit. The free
/// boards and the rows of all boards are walked side by side, in name order: each free board of the
/// want's type costs a test, and a comparison for each board since the last one; where these are
/// more than a few, a binary search. The boards are walked from a little before where the first free
/// one stands if none that is held stands behind one that is free: served claims take the first
/// boards that fit, those of several types nearly in order.
fn shortlist(
    kinds: &[Name],
    rows: &VecDeque<IdleRow>,
    boards: &[BoardRow],
    types: &[TypeRow],
    want: &Want,
    limit: usize,
) -> Picked
    requires few { limit ≤ most_wants }
    requires ordered { IsStrictlySortedBy board_cmp boards.now }
    requires idle { AreIdle kinds.now rows.now.items }
    requires free { map (shown_idle kinds.now) rows.now.items ≡ map idle_board
        (filter (is_free types.now) boards.now) }
    ensures { IsShortlist (candidate_at boards.now (is_free types.now) want.now) limit result }
{
    let queue = kind::asked_queue(kinds, &want.kind);
    let mut found = Picked::new();
    let held = boards.len().saturating_sub(rows.len());
    let mut behind = held.saturating_sub(EARLIER);
    for at in 0..rows.len() {
        if found.len() >= limit {
            break;
        }
        if let Some(place) = fitting_place(&rows[at], queue, boards, want, &mut behind) {
            found = found.with(place);
        }
    }
    found
}

/// The places of the least list of free boards that meets the wants, as `search::least_of` gives it
/// for boards that serve and that nobody holds; the rows are those of these boards.
pub fn least_of(
    kinds: &[Name],
    rows: &VecDeque<IdleRow>,
    boards: &[BoardRow],
    types: &[TypeRow],
    wants: &[&Want],
) -> Option<Picked>
    requires ordered { IsStrictlySortedBy board_cmp boards.now }
    requires few { length wants.now ≤ most_wants }
    requires idle { AreIdle kinds.now rows.now.items }
    requires free { map (shown_idle kinds.now) rows.now.items ≡ map idle_board
        (filter (is_free types.now) boards.now) }
    ensures least { option_map (boards_at boards.now) result ≡ least boards.now (is_free types.now)
        (map (λ w. w.now) wants.now) }
    ensures len { IfSome result (λ places. length places ≡ length wants.now) }
    ensures within { IfSome result (λ places. All (λ i. i < length boards.now) places) }
    ensures different { IfSome result (λ places. AllPairs (λ i j. i ≢ j) places) }
{
    let mut lists = [Picked::new(), Picked::new(), Picked::new(), Picked::new()];
    for (i, want) in wants.iter().enumerate() {
        let places = shortlist(kinds, rows, boards, types, want, wants.len());
        if places.len() == 0 {
            return None;
        }
        lists[i] = places;
    }
    search::choose(&lists[..wants.len()], Picked::new())
}
