//! The places of the boards that a search found.
ghost use Rattle.std.specs.Prelude.{◌≡◌, ◌+◌, ◌<◌, ◌≤◌, [], ◌∷◌, ◌++◌, length};
ghost use Rattle.farm_types.specs.Limits.{most_wants};

use farm_types::MOST_WANTS;
use std::marker::Model;

/// Up to four places in a list, counted from 0. Contracts see the list of these places.
#[derive(Drop)]
pub struct Picked {
    /// How many places there are.
    pub len: usize,
    /// The places first, and then numbers that mean nothing.
    pub at: [usize; MOST_WANTS],
}

impl Model for Picked {
    ghost use Rattle.std.specs.Prelude.{List, ℕ, ◌≤◌, take};
    ghost use Rattle.farm_types.specs.Limits.{most_wants};

    ghost Value = { List ℕ };

    ghost view = { λ p. take p.len p.at };

    ghost invariant = { λ p. p.len ≤ most_wants };
}

impl Picked {
    /// No places.
    pub fn new() -> Picked
        ensures { result ≡ [] }
    {
        let at = [0; MOST_WANTS];
        Picked { len: 0, at }
    }

    /// How many places there are.
    pub fn len(&self) -> usize
        ensures len { result ≡ length self.now }
        ensures bound { result ≤ most_wants }
    {
        self.len
    }

    /// The places, in the order of the wants that they are for.
    pub fn places(&self) -> &[usize]
        ensures { result.now ≡ self.now }
    {
        &self.at[..self.len]
    }

    /// These places and one more.
    pub fn with(&self, place: usize) -> Picked
        requires { length self.now < most_wants }
        ensures { result ≡ self.now ++ place ∷ [] }
    {
        let mut at = self.at;
        at[self.len] = place;
        let len = self.len + 1;
        Picked { len, at }
    }
}
