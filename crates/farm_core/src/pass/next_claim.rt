//! Which claim a pass tries next: claims that want the same as one that was found unmet are passed
//! over.
ghost use Rattle.std.specs.Prelude.{◌≡◌, ◌↔◌, true, map, IsTrue, OnOk, ◌≤◌, [], take};
ghost use Rattle.std.specs.Prelude.{option_copied, IfOk, IfNone, IfSome};
ghost use Rattle.farm_types.specs.Farm.{Farm};
ghost use Rattle.farm_types.specs.Limits.{most_wants};
ghost use Rattle.farm_types.specs.Sound.{IsSound};
ghost use Rattle.farm_pick.specs.Heads.{earlier_of};
ghost use Rattle.farm_pick.specs.Queued.{queue_lists};
ghost use Rattle.farm_core.specs.Serving.{AreMisses, IsMissed, IsRemembered, IsNext};
ghost use Rattle.farm_core.specs.Serving.{IsNextCandidate, wants_of};
ghost use Rattle.farm_core.specs.Plain.{plain_farm};

use crate::pass::serve::wants_in;
use crate::tables::Tables;
use farm_types::{Claim, ClaimKind, MOST_WANTS, Name, Priority, Want};
use std::alloc::AllocError;
use std::collections::VecDeque;

/// How many are remembered.
const MOST: usize = 8;

/// The wants of the last eight claims that were found unmet, those of the newest first.
pub type Misses = VecDeque<Vec<Want>>;

/// Whether two types are one, or neither is named.
fn same_type(first: &Option<Name>, second: &Option<Name>) -> bool
    ensures { IsTrue result ↔ (first.now ≡ second.now) }
{
    match (first, second) {
        (None, None) => true,
        (Some(first), Some(second)) => first.is(second),
        _ => false,
    }
}

/// Whether two wants ask for the same type and the same tags.
fn same_want(first: &Want, second: &Want) -> bool
    ensures { IsTrue result ↔ (first.now ≡ second.now) }
{
    same_type(&first.kind, &second.kind) && first.tags.is(&second.tags)
}

/// Whether some wants are others, one for one.
fn same_wants(first: &[Want], second: &[&Want]) -> bool
    ensures { IsTrue result ↔ (first.now ≡ map (λ w. w.now) second.now) }
{
    if first.len() != second.len() {
        return false;
    }
    for place in 0..first.len() {
        if !same_want(&first[place], second[place]) {
            return false;
        }
    }
    true
}

/// Whether a claim that wants this is known to be unmet.
fn is_known(misses: &Misses, wants: &[&Want]) -> bool
    ensures { result ≡ true → (F : Farm) → AreMisses F misses.now.items
        → IsMissed F (map (λ w. w.now) wants.now) }
{
    misses.iter().any(|miss| same_wants(miss, wants))
}

/// Remembers what a claim wants, and forgets the oldest of eight.
fn remember(misses: &mut Misses, wants: &[&Want]) -> Result<(), AllocError>
    ensures { OnOk result (IsRemembered misses.old.items (map (λ w. w.now) wants.now)
        misses.new.items) }
{
    let mut copy = Vec::with_capacity(*misses.allocator(), wants.len())?;
    for want in wants {
        copy.push(want.copy()?)?;
    }
    misses.truncate(MOST - 1);
    misses.push_front(copy)?;
    Ok(())
}

/// An equal priority and number.
fn copied(last: &Option<(Priority, u64)>) -> Option<(Priority, u64)>
    ensures { result ≡ last.now }
{
    last.as_ref().map(|(priority, number)| (*priority, *number))
}

/// Of two claims the one that goes first; of one alone this one.
fn earlier<'a>(first: Option<&'a Claim>, second: Option<&'a Claim>) -> Option<&'a Claim>
    ensures { option_copied result
        ≡ earlier_of (option_copied first.entry) (option_copied second.entry) }
{
    match (first, second) {
        (Some(first), Some(second)) if farm_pick::before(second, first) => Some(second),
        (first, second) => first.or(second),
    }
}

impl Tables {
    /// What a claim wants, by its kind and its number, and how many wants these are; behind them
    /// another fills the places. None where no row is the claim's.
    pub fn wants_of(&self, kind: ClaimKind, number: u64) -> Option<([&Want; MOST_WANTS], usize)>
        ensures none { IfNone result (wants_of (plain_farm self.now) kind number ≡ []) }
        ensures few { IfSome result (λ r. r.1 ≤ most_wants) }
        ensures wants { IfSome result (λ r. map (λ w. w.now) (take r.1 r.0)
            ≡ wants_of (plain_farm self.now) kind number) }
    {
        match kind {
            ClaimKind::Group => {
                let rows = self.member_rows(number);
                Some(wants_in(rows, number, &rows.first()?.want))
            }
            ClaimKind::Reservation => {
                let want = &self.reservations.find(number)?.want;
                Some(([want; MOST_WANTS], 1))
            }
        }
    }

    /// Whether a claim wants the same as one that was found unmet, so that no free boards meet it
    /// either. With J jobs and R reservations its rows are found in O(log (J + R)), where one was
    /// found unmet, and its wants compared with those of up to eight.
    fn is_known_miss(&self, misses: &Misses, kind: ClaimKind, number: u64) -> bool
        requires { AreMisses (plain_farm self.now) misses.now.items }
        ensures { result ≡ true
            → IsMissed (plain_farm self.now) (wants_of (plain_farm self.now) kind number) }
    {
        if misses.is_empty() {
            return false;
        }
        match self.wants_of(kind, number) {
            None => false,
            Some(found) => is_known(misses, &found.0[..found.1]),
        }
    }

    /// Remembers what a claim wants, by its kind and its number, as unmet.
    pub fn note_miss(
        &self,
        misses: &mut Misses,
        kind: ClaimKind,
        number: u64,
    ) -> Result<(), AllocError>
        ensures { OnOk result ((F : Farm) → AreMisses F misses.old.items
            → IsMissed F (wants_of (plain_farm self.now) kind number)
            → AreMisses F misses.new.items) }
    {
        if let Some(found) = self.wants_of(kind, number) {
            remember(misses, &found.0[..found.1])?;
        }
        Ok(())
    }

    /// The first claim of the open queues after a priority and a number, if they are given, that
    /// isn't known to be unmet.
    ///
    /// With K queues and C claims in open ones it costs O(K log C) to begin, and then for each
    /// claim that is passed over a comparison a queue, and one for each of the eight that were
    /// found unmet.
    fn next_open(
        &self,
        misses: &Misses,
        last: Option<(Priority, u64)>,
    ) -> Result<Option<&Claim>, AllocError>
        requires sound { IsSound (plain_farm self.now) }
        requires fits { self.now.queues ≡ queue_lists (plain_farm self.now) }
        requires miss { AreMisses (plain_farm self.now) misses.now.items }
        ensures { IfOk result
            (λ claim. IsNextCandidate (plain_farm self.now) last (option_copied claim)) }
    {
        for claim in self.queues.walk(last)? {
            if !self.is_known_miss(misses, claim.kind, claim.number) {
                return Ok(Some(claim));
            }
        }
        Ok(None)
    }

    /// The first claim after a priority and a number, if they are given, that may be served or may
    /// collect: to serve those before it would change nothing. While nobody collects that is a
    /// group of two members or more of any queue, or a claim of an open queue that doesn't want the
    /// same as one that was found unmet; else the latter alone.
    ///
    /// Besides a search of the open queues it costs a look at the first claim of two boards or
    /// more, in O(log C).
    pub fn next_claim(
        &self,
        misses: &Misses,
        last: Option<(Priority, u64)>,
    ) -> Result<Option<&Claim>, AllocError>
        requires sound { IsSound (plain_farm self.now) }
        requires fits { self.now.queues ≡ queue_lists (plain_farm self.now) }
        requires miss { AreMisses (plain_farm self.now) misses.now.items }
        ensures { IfOk result (λ claim. IsNext (plain_farm self.now) last (option_copied claim)) }
    {
        let open = self.next_open(misses, copied(&last))?;
        if self.collector != 0 {
            return Ok(open);
        }
        Ok(earlier(open, self.queues.next_several(last)))
    }
}
