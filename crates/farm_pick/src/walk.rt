//! The claims of the queues, lent one after the other: the first one of each queue, or all in the
//! order of the whole queue.
ghost use Rattle.std.specs.Prelude.{◌≡◌, ◌≤◌, ◌||◌, ◌+◌, IfOk, length, option_map};
ghost use Rattle.std.specs.Iterator.{YieldsFirstRef, item_count};
ghost use Rattle.std.specs.Option.{option_copied};
ghost use Rattle.farm_pick.specs.Heads.{AreHeads, head_in, queue_open};
ghost use Rattle.farm_pick.specs.Walked.{AreCursors, IsCursor, IsLeastOf, StandsIn, StepsTo};
ghost use Rattle.farm_pick.specs.Walked.{earlier_place};

use crate::idle;
use crate::index::Index;
use crate::queue::before;
use crate::spot::Spot;
use farm_types::Claim;
use std::alloc::AllocError;
use std::collections::BTreeMap;
use std::collections::btree_map::Range;
use std::marker::Model;
use std::ops::Bound;

/// Where a walk stands in a queue: at a claim, and behind it what is left of the map.
#[derive(Drop)]
pub struct Cursor<'a> {
    /// The claim that comes next.
    pub claim: &'a Claim,
    /// What is left of the map behind it.
    pub rest: Range<'a, Spot, Claim>,
}

/// The next claim of a queue among what is left of the map.
fn step<'a>(mut rest: Range<'a, Spot, Claim>, queue: usize) -> Option<Cursor<'a>>
    ensures { StepsTo rest.entry queue result }
{
    let (spot, claim) = rest.next()?;
    if spot.queue != queue {
        return None;
    }
    Some(Cursor { claim, rest })
}

/// Where a walk begins in the queue of a spot: at its first claim after the spot.
fn cursor_after<'a>(claims: &'a BTreeMap<Spot, Claim>, last: Spot) -> Option<Cursor<'a>>
    ensures { StandsIn claims.now.entries last result }
{
    let behind = claims.range((Bound::Excluded(last), Bound::Unbounded));
    step(behind, last.queue)
}

/// Where a walk begins in the queue of a spot: in a closed one at no claim, unless all are asked
/// for.
fn open_cursor(index: &Index, last: Spot, all: bool) -> Option<Cursor<'_>>
    ensures { IsCursor index.now.claims.entries
        (λ q. all || queue_open index.now.idle.items q) last result }
{
    if !all && !idle::is_open(&index.idle, last.queue) {
        return None;
    }
    cursor_after(&index.claims, last)
}

/// Where a walk begins in each queue.
pub fn cursors_after(index: &Index, last: Spot) -> Result<Vec<Option<Cursor<'_>>>, AllocError>
    ensures { IfOk result (λ cursors. AreCursors index.now.claims.entries
        (queue_open index.now.idle.items) last (length index.now.kinds.items + 1) cursors.items) }
{
    let mut cursors = Vec::with_capacity(*index.kinds.allocator(), index.kinds.len() + 1)?;
    for queue in 0..index.kinds.len() + 1 {
        cursors.push(open_cursor(index, Spot { queue, ..last }, false))?;
    }
    Ok(cursors)
}

/// Of a place and that of a cursor the one whose claim goes first.
fn earlier<'a>(
    first: Option<(usize, &'a Claim)>,
    place: usize,
    cursor: &Option<Cursor<'a>>,
) -> Option<(usize, &'a Claim)>
    ensures { option_map (λ f. (f.0, f.1.now)) result
        ≡ earlier_place (option_map (λ f. (f.0, f.1.now)) first.entry) place cursor.now }
{
    match (first, cursor) {
        (first, None) => first,
        (Some((_, claim)), Some(cursor)) if !before(cursor.claim, claim) => first,
        (_, Some(cursor)) => Some((place, cursor.claim)),
    }
}

/// The place of the cursor whose claim goes first.
fn first_of(cursors: &[Option<Cursor<'_>>]) -> Option<usize>
    ensures { IsLeastOf cursors.now result }
{
    let mut first = None;
    for place in 0..cursors.len() {
        first = earlier(first, place, &cursors[place]);
    }
    first.map(|(place, _claim)| place)
}

/// Lends the claims of the open queues that come after a spot, in the order `before`. Contracts see
/// the list of those that are left.
///
/// With K types each turn costs a comparison a queue, and no search.
#[derive(Drop)]
pub struct Walk<'a> {
    pub(crate) index: &'a Index,
    /// The spot after which claims are lent, whatever its queue.
    pub(crate) last: Spot,
    /// Where the walk stands in each queue.
    pub(crate) cursors: Vec<Option<Cursor<'a>>>,
}

impl<'a> Model for Walk<'a> {
    ghost use Rattle.std.specs.Prelude.{List};
    ghost use Rattle.farm_types.specs.declared.claims.Claim.{Claim};
    ghost use Rattle.farm_pick.specs.Walked.{IsWalk, walk_from};

    ghost Value = { List Claim };

    ghost view = { λ w. walk_from w.index.now.kinds.items w.index.now.claims.entries
        w.index.now.idle.items w.last };

    ghost invariant = { λ w. IsWalk w.index.now.kinds.items w.index.now.claims.entries
        w.index.now.idle.items w.last w.cursors.items };
}

impl<'a> Iterator for Walk<'a> {
    type Item = &'a Claim;

    ghost next_gives = { YieldsFirstRef (λ s. s) };

    ghost remaining = { item_count (λ s. s) };

    fn next(&mut self) -> Option<&'a Claim> {
        let queue = first_of(&self.cursors)?;
        let cursor = self.cursors[queue].take()?;
        self.last = Spot {
            queue,
            priority: cursor.claim.priority.get(),
            number: cursor.claim.number,
        };
        self.cursors[queue] = step(cursor.rest, queue);
        Some(cursor.claim)
    }
}

/// The first claim that comes after a spot in the spot's queue, if the queue is open or all are
/// asked for.
fn seen_head(index: &Index, last: Spot, all: bool) -> Option<&Claim>
    requires well { AreHeads index.now.kinds.items index.now.claims.entries index.now.idle.items }
    requires queue { last.queue ≤ length index.now.kinds.items }
    ensures { option_copied result ≡ head_in index.now.kinds.items index.now.claims.entries
        index.now.idle.items all last }
{
    let cursor = open_cursor(index, last, all)?;
    Some(cursor.claim)
}

/// Lends the first claim of each queue that comes after a spot, the reservations' queue first; of
/// queues that are closed only where all are asked for. Contracts see the list of those that are
/// left. It takes no memory. With C claims each turn costs O(log C).
#[derive(Drop)]
pub struct Heads<'a> {
    pub(crate) index: &'a Index,
    /// The queue that is looked at next.
    pub(crate) queue: usize,
    /// The spot after which claims are lent, whatever its queue.
    pub(crate) last: Spot,
    pub(crate) all: bool,
}

impl<'a> Model for Heads<'a> {
    ghost use Rattle.std.specs.Prelude.{List};
    ghost use Rattle.farm_types.specs.declared.claims.Claim.{Claim};
    ghost use Rattle.farm_pick.specs.Heads.{AreHeads, heads_from};

    ghost Value = { List Claim };

    ghost view = { λ h. heads_from h.index.now.kinds.items h.index.now.claims.entries
        h.index.now.idle.items h.all h.last h.queue };

    ghost invariant = { λ h. AreHeads h.index.now.kinds.items h.index.now.claims.entries
        h.index.now.idle.items };
}

impl<'a> Iterator for Heads<'a> {
    type Item = &'a Claim;

    ghost next_gives = { YieldsFirstRef (λ s. s) };

    ghost remaining = { item_count (λ s. s) };

    fn next(&mut self) -> Option<&'a Claim> {
        while self.queue <= self.index.kinds.len() {
            let queue = self.queue;
            self.queue += 1;
            if let Some(claim) = seen_head(self.index, Spot { queue, ..self.last }, self.all) {
                return Some(claim);
            }
        }
        None
    }
}
