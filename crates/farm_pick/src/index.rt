//! The index of the queues: the claims of all of them in one ordered map, one queue behind the other,
//! and beside it the claims of two boards or more.
ghost use Rattle.std.specs.Prelude.{◌≡◌, ◌&&◌, ◌||◌, ℕ, cond, nat_le, not, Some, None, IfOk};
ghost use Rattle.std.specs.Prelude.{OnOk, OnErr};
ghost use Rattle.std.proofs.Common.{rules};
ghost use Rattle.std.specs.List.Sorted.{IsPermutation, IsSortedBy};
ghost use Rattle.std.specs.BTreeMap.{insert_entry, values};
ghost use Rattle.std.specs.Cmp.{partial_order_from_own_ties};
ghost use Rattle.std.specs.Cmp.Rules.{comparing};
ghost use Rattle.std.specs.Option.{option_copied};
ghost use Rattle.std.specs.Ordering.{is_eq, is_lt, nat_cmp, on, flip_args, then_cmp, as_partial_cmp};
ghost use Rattle.farm_types.specs.Pick.{shown_cmp};
ghost use Rattle.farm_pick.specs.Index.{spot_cmp, claim_at, place_at, TakesOrStays};
ghost use Rattle.farm_pick.specs.Several.{AreSeveral, IsFirstSeveral, IsNextSpot, has_spot, spots_cmp};

use crate::idle::IdleRow;
use crate::queue::queue_order;
use crate::spot::{Place, Spot};
use farm_types::{Claim, Name};
use std::alloc::{AllocError, Global};
use std::cmp::Ordering;
use std::collections::{BTreeMap, BTreeSet, VecDeque};
use std::ops::Bound;

/// A spot in the order of claims: the higher priority first, then the smaller number. Of one
/// number, which has no two spots among the claims, the later queue goes first.
#[derive(Clone, Copy, Debug, PartialEq, Eq)]
pub struct Rank {
    /// The claim's spot.
    pub spot: Spot,
}

impl Ord for Rank {
    ghost cmp = { then_cmp (flip_args (on (λ r. r.spot.priority) nat_cmp))
        (then_cmp (on (λ r. r.spot.number) nat_cmp)
        (flip_args (on (λ r. r.spot.queue) nat_cmp))) };

    ghost total = { Prim.search (comparing, rules) depth 9 };

    ghost matches_partial_cmp = { Prim.search (comparing, rules) depth 9 };

    ghost matches_eq = { Prim.search (comparing, rules) depth 9 };

    fn cmp(&self, other: &Rank) -> Ordering {
        let by_priority = other.spot.priority.cmp(&self.spot.priority);
        let by_number = self.spot.number.cmp(&other.spot.number);
        by_priority.then(by_number.then(other.spot.queue.cmp(&self.spot.queue)))
    }
}

impl PartialOrd for Rank {
    ghost partial_cmp = { as_partial_cmp (then_cmp (flip_args (on (λ r. r.spot.priority) nat_cmp))
        (then_cmp (on (λ r. r.spot.number) nat_cmp)
        (flip_args (on (λ r. r.spot.queue) nat_cmp)))) };

    ghost laws = { partial_order_from_own_ties (Prim.search (comparing, rules) depth 9)
        (Prim.search (comparing, rules) depth 9) };

    fn partial_cmp(&self, other: &Rank) -> Option<Ordering> {
        Some(self.cmp(other))
    }
}

/// Notes the spot of a claim that wants two boards or more. A refused growth changes nothing.
fn note(several: &mut BTreeSet<Rank>, spot: Spot, boards: u64) -> Result<(), AllocError>
    ensures ok { OnOk result ((s : Spot) → has_spot several.new.keys s
        ≡ (has_spot several.old.keys s || (nat_le 2 boards && is_eq (spots_cmp spot s)))) }
    ensures err { OnErr result ((s : Spot) → has_spot several.new.keys s
        ≡ has_spot several.old.keys s) }
{
    if boards >= 2 {
        let _new = several.insert(Rank { spot })?;
    }
    Ok(())
}

/// Forgets a spot.
fn forget(several: &mut BTreeSet<Rank>, spot: Spot)
    ensures { (s : Spot) → has_spot several.new.keys s
        ≡ (not (is_eq (spots_cmp spot s)) && has_spot several.old.keys s) }
{
    let _there = several.remove(&Rank { spot });
}

/// An equal claim.
fn copied(claim: &Claim) -> Claim
    ensures { result ≡ claim.now }
{
    let owner = claim.owner.copy();
    Claim { owner, ..*claim }
}

/// Copies of the claims in the order `before`. Each queue is in that order already, so the sort has
/// no more to do than to merge them.
pub fn in_order(alloc: Global, claims: &BTreeMap<Spot, Claim>) -> Result<Vec<Claim>, AllocError>
    ensures claims { IfOk result (λ sorted. IsPermutation (values claims.now) sorted.items) }
    ensures order { IfOk result
        (λ sorted. IsSortedBy (λ a b. is_lt (shown_cmp a b)) sorted.items) }
{
    let mut sorted = Vec::new(alloc);
    for claim in claims.values() {
        sorted.push(copied(claim))?;
    }
    sorted.sort_by(queue_order)?;
    Ok(sorted)
}

/// The first spot behind a spot.
fn next_spot(several: &BTreeSet<Rank>, last: Spot) -> Option<Spot>
    ensures { IsNextSpot several.now.keys last result }
{
    let last = Rank { spot: last };
    let after = (Bound::Excluded(last), Bound::Unbounded);
    let rank = several.range(after).next()?;
    Some(rank.spot)
}

/// In what the queues are looked up: their types, their claims and the free boards.
#[derive(Debug, Drop)]
pub struct Index {
    /// The types that have a queue, each once, in the order in which they were first used.
    pub kinds: Vec<Name>,
    /// Each claim at its spot.
    pub claims: BTreeMap<Spot, Claim>,
    /// Where each claim's number stands.
    pub places: BTreeMap<u64, Place>,
    /// The spots of the claims of two boards or more.
    pub several: BTreeSet<Rank>,
    /// The free boards in name order, each with the queue of its type. A pass gives claims the
    /// first that fit, and a deque takes a board near the front without a move of all behind it.
    pub idle: VecDeque<IdleRow>,
}

impl Index {
    /// Puts a claim at its spot, and notes where its number stands. A refused growth changes
    /// nothing.
    fn put_at(&mut self, spot: Spot, claim: Claim) -> Result<(), AllocError>
        requires claim { claim_at self.old.claims.entries spot ≡ None }
        requires place { place_at self.old.places.entries spot.number ≡ None }
        ensures claims { OnOk result
            (self.new.claims.entries ≡ insert_entry spot_cmp self.old.claims.entries spot claim) }
        ensures claim { OnOk result ((s : Spot) → claim_at self.new.claims.entries s
            ≡ cond (is_eq (spot_cmp spot s)) (Some claim) (claim_at self.old.claims.entries s)) }
        ensures place { OnOk result ((n : ℕ) → place_at self.new.places.entries n
            ≡ cond (is_eq (nat_cmp spot.number n))
            (Some (record { queue = spot.queue; priority = spot.priority }))
            (place_at self.old.places.entries n)) }
        ensures claims_stay { OnErr result (self.new.claims.entries ≡ self.old.claims.entries) }
        ensures places_stay { OnErr result (self.new.places.entries ≡ self.old.places.entries) }
        ensures several { self.new.several ≡ self.old.several }
        ensures kinds { self.new.kinds ≡ self.old.kinds }
        ensures idle { self.new.idle ≡ self.old.idle }
    {
        let (queue, priority) = (spot.queue, spot.priority);
        let _none = self.places.insert(spot.number, Place { queue, priority })?;
        if let Err(_refused) = self.claims.insert(spot, claim) {
            let _place = self.places.remove(&spot.number);
            return Err(AllocError);
        }
        Ok(())
    }

    /// Puts a claim at its spot, notes where its number stands, and its spot if it wants two boards
    /// or more. A refused growth changes nothing.
    pub fn put(&mut self, spot: Spot, claim: Claim) -> Result<(), AllocError>
        requires claim { claim_at self.old.claims.entries spot ≡ None }
        requires place { place_at self.old.places.entries spot.number ≡ None }
        ensures claims { OnOk result
            (self.new.claims.entries ≡ insert_entry spot_cmp self.old.claims.entries spot claim) }
        ensures claim { OnOk result ((s : Spot) → claim_at self.new.claims.entries s
            ≡ cond (is_eq (spot_cmp spot s)) (Some claim) (claim_at self.old.claims.entries s)) }
        ensures place { OnOk result ((n : ℕ) → place_at self.new.places.entries n
            ≡ cond (is_eq (nat_cmp spot.number n))
            (Some (record { queue = spot.queue; priority = spot.priority }))
            (place_at self.old.places.entries n)) }
        ensures claims_stay { OnErr result (self.new.claims.entries ≡ self.old.claims.entries) }
        ensures places_stay { OnErr result (self.new.places.entries ≡ self.old.places.entries) }
        ensures several { AreSeveral self.old.claims.entries self.old.several.keys
            → AreSeveral self.new.claims.entries self.new.several.keys }
        ensures kinds { self.new.kinds ≡ self.old.kinds }
        ensures idle { self.new.idle ≡ self.old.idle }
    {
        note(&mut self.several, spot, claim.boards)?;
        let put = self.put_at(spot, claim);
        if put.is_err() {
            forget(&mut self.several, spot);
        }
        put
    }

    /// Takes the claim of a number from its spot, if there is one, and forgets the spot.
    pub fn take(&mut self, number: u64)
        ensures taken { TakesOrStays self.old.claims.entries self.new.claims.entries
            self.old.places.entries self.new.places.entries number
            (place_at self.old.places.entries number) }
        ensures several { AreSeveral self.old.claims.entries self.old.several.keys
            → AreSeveral self.new.claims.entries self.new.several.keys }
        ensures kinds { self.new.kinds ≡ self.old.kinds }
        ensures idle { self.new.idle ≡ self.old.idle }
    {
        if let Some(place) = self.places.remove(&number) {
            let spot = Spot {
                queue: place.queue,
                priority: place.priority,
                number,
            };
            let _claim = self.claims.remove(&spot);
            forget(&mut self.several, spot);
        }
    }

    /// The first claim of two boards or more that comes after a spot of queue 0, whatever its own
    /// queue.
    pub fn first_several(&self, last: Spot) -> Option<&Claim>
        requires several { AreSeveral self.now.claims.entries self.now.several.keys }
        requires queue { last.queue ≡ 0 }
        ensures { IsFirstSeveral self.now.claims.entries last (option_copied result) }
    {
        self.claims.get(&next_spot(&self.several, last)?)
    }
}
