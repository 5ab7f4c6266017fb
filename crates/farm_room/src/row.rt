//! Rows of connections, in the order of their numbers and of when they began.
ghost use Rattle.std.specs.Prelude.{◌≡◌, ◌-◌, ◌^◌, ◌↔◌, ◌<◌, ◌⊎◌, ◌++◌, ◌∷◌, [], min, IsTrue};
ghost use Rattle.std.specs.Duration.{as_nanos};
ghost use Rattle.std.specs.Option.{option_map};
ghost use Rattle.std.specs.VecDeque.{deque_capacity, deque_items, deque_len};
ghost use Rattle.farm_room.specs.Waiting.{held_by, CutsOldest, CutsOverdue, Fits, IsOverdue};
ghost use Rattle.farm_room.specs.Waiting.{limit_left};

use crate::connection::Connection;
use crate::deadline::{has_timed_out, time_left};
use std::collections::VecDeque;
use std::time::Duration;

/// The most answers that wait aside.
pub(crate) const MOST_ANSWERS: usize = 256;

/// The most bytes that wait aside for all clients: half a dozen of the longest answers.
const MOST_HELD: usize = 64 << 20;

/// Whether the time of the first is over, or isn't known.
pub(crate) fn is_first_overdue(row: &VecDeque<Connection>, now: Option<Duration>) -> bool
    ensures { IsTrue result ↔ IsOverdue now (deque_items row.now) }
{
    match row.front() {
        Some(first) => has_timed_out(first.since, now),
        None => false,
    }
}

/// How long until the time of the first is over.
pub(crate) fn time_of_first(row: &VecDeque<Connection>, now: Duration) -> Option<Duration>
    ensures { option_map as_nanos result ≡ limit_left (as_nanos now) (deque_items row.now) }
{
    let first = row.front()?;
    Some(time_left(first.since, now))
}

/// Where the connection of a number is.
pub(crate) fn place_of(row: &VecDeque<Connection>, number: usize) -> Option<usize> {
    let place = row.partition_point(|it| it.number < number);
    match row.get(place) {
        Some(one) if one.number == number => Some(place),
        _ => None,
    }
}

/// Lets go those whose time is over.
pub(crate) fn cut_overdue(row: &mut VecDeque<Connection>, now: Option<Duration>)
    ensures { CutsOverdue now (deque_items row.old) (deque_items row.new) }
{
    while is_first_overdue(row, now) {
        let _ = row.pop_front();
    }
}

/// Adds one, and lets go the oldest as far as they, or their answers, are too many.
pub(crate) fn put_aside(row: &mut VecDeque<Connection>, one: Connection)
    // Where there is a place it is added.
    ensures place { deque_len row.old < deque_capacity row.old
        → CutsOldest (deque_items row.old ++ one ∷ []) (deque_items row.new) }
    ensures cuts { CutsOldest (deque_items row.old) (deque_items row.new)
        ⊎ CutsOldest (deque_items row.old ++ one ∷ []) (deque_items row.new) }
{
    let _ = row.push_back(one);
    cut_oldest(row);
}

/// Lets go the oldest as far as they, or their answers, are too many.
fn cut_oldest(row: &mut VecDeque<Connection>)
    ensures { CutsOldest (deque_items row.old) (deque_items row.new) }
{
    while !fits(row) {
        let _ = row.pop_front();
    }
}

/// Whether no more wait than may.
fn fits(row: &VecDeque<Connection>) -> bool
    ensures { IsTrue result ↔ Fits (deque_items row.now) }
{
    row.len() <= MOST_ANSWERS && held(row) <= MOST_HELD
}

/// How many bytes wait aside.
fn held(row: &VecDeque<Connection>) -> usize
    ensures { result ≡ min (held_by (deque_items row.now)) (2 ^ 64 - 1) }
{
    let mut sum = 0usize;
    for one in row.iter() {
        sum = sum.saturating_add(one.outbox.held());
    }
    sum
}
