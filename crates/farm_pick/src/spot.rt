//! Where claims stand in the queues.
ghost use Rattle.std.specs.Prelude.{◌≡◌};
ghost use Rattle.std.proofs.Common.{rules};
ghost use Rattle.std.specs.Cmp.{partial_order_from_own_ties};
ghost use Rattle.std.specs.Cmp.Rules.{comparing};
ghost use Rattle.std.specs.Ordering.{nat_cmp, on, flip_args, then_cmp, as_partial_cmp};
ghost use Rattle.farm_pick.specs.Heads.{last_spot};

use farm_types::{HIGHEST_PRIORITY, Priority};
use std::cmp::Ordering;

/// A priority above that of each claim.
const ABOVE_ALL: u64 = HIGHEST_PRIORITY + 1;

/// The spot of a claim: its queue, and in it the higher priority first, then the smaller number.
#[derive(Clone, Copy, Debug, PartialEq, Eq)]
pub struct Spot {
    /// Which queue: that of the reservations is 0, and that of a type one more than its place.
    pub queue: usize,
    /// The claim's priority.
    pub priority: u64,
    /// The claim's number.
    pub number: u64,
}

impl Ord for Spot {
    ghost cmp = { then_cmp (on (λ s. s.queue) nat_cmp)
        (then_cmp (flip_args (on (λ s. s.priority) nat_cmp)) (on (λ s. s.number) nat_cmp)) };

    ghost total = { Prim.search (comparing, rules) depth 9 };

    ghost matches_partial_cmp = { Prim.search (comparing, rules) depth 9 };

    ghost matches_eq = { Prim.search (comparing, rules) depth 9 };

    fn cmp(&self, other: &Spot) -> Ordering {
        (self.queue, other.priority, self.number).cmp(&(other.queue, self.priority, other.number))
    }
}

impl PartialOrd for Spot {
    ghost partial_cmp = { as_partial_cmp (then_cmp (on (λ s. s.queue) nat_cmp)
        (then_cmp (flip_args (on (λ s. s.priority) nat_cmp)) (on (λ s. s.number) nat_cmp))) };

    ghost laws = { partial_order_from_own_ties (Prim.search (comparing, rules) depth 9)
        (Prim.search (comparing, rules) depth 9) };

    fn partial_cmp(&self, other: &Spot) -> Option<Ordering> {
        Some(self.cmp(other))
    }
}

/// Where a number stands: its spot without the number.
#[derive(Clone, Copy, Debug, PartialEq, Eq)]
pub struct Place {
    /// Which queue, as in a spot.
    pub queue: usize,
    /// The claim's priority.
    pub priority: u64,
}

/// The spot of a claim that was tried, in whichever queue; without one, a spot above all claims.
pub fn last_spot(after: Option<(Priority, u64)>) -> Spot
    ensures { result ≡ last_spot after }
{
    let (priority, number) = match after {
        None => (ABOVE_ALL, 0),
        Some((priority, number)) => (priority.get(), number),
    };
    Spot {
        queue: 0,
        priority,
        number,
    }
}
