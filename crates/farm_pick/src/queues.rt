//! The queues of the claims, and the sets of free boards.
ghost use Rattle.std.specs.Prelude.{◌≡◌, ◌≢◌, ◌<◌, ◌≤◌, ◌==◌, ◌&&◌, ◌||◌, [], ℕ, List, Option, not};
ghost use Rattle.std.specs.Prelude.{All, AllPairs, length, map, IfOk, IfSome, OnOk, OnErr};
ghost use Rattle.std.specs.Prelude.{option_map, nat_le};
ghost use Rattle.std.specs.List.{AllByRecursion, filter, filter_map, find};
ghost use Rattle.std.specs.Option.{option_copied};
ghost use Rattle.std.specs.Str.{bytes_eq};
ghost use Rattle.std.specs.List.Sorted.{IsStrictlySortedBy};
ghost use Rattle.farm_types.specs.Limits.{most_wants};
ghost use Rattle.farm_types.specs.Pick.{is_free, least};
ghost use Rattle.farm_types.specs.Table.{board_cmp, put};
ghost use Rattle.farm_pick.specs.Least.{boards_at};
ghost use Rattle.farm_pick.specs.Heads.{is_later, last_spot};
ghost use Rattle.farm_pick.specs.Queued.{AreKindsOf, head_of, idle_board, is_open};
ghost use Rattle.farm_pick.specs.Walked.{claims_after};
ghost use Rattle.farm_pick.specs.Index.{queued_cmp, named_cmp};

use crate::idle::{self, IdleRow};
use crate::index::{self, Index};
use crate::kind;
use crate::picked::Picked;
use crate::spot::{self, Spot};
use crate::walk::{self, Heads, Walk};
use farm_types::{BoardRow, Claim, Name, Priority, TypeRow, Want, Wants};
use std::alloc::{AllocError, Global};
use std::collections::{BTreeMap, BTreeSet, VecDeque};
use std::marker::Model;

/// The claims that wait and the free boards, indexed so that a pass finds the next claim that may be
/// met without a look at the others. Contracts see two plain lists: the claims in the order
/// `before`, each with the type in whose queue it stands, and the free boards in name order, each
/// with its type.
///
/// There is one queue for the reservations and one for each type; the claims of all stand in one
/// ordered map, one queue behind the other, so that each queue is a range of it. A second map says
/// where each number stands, and a set holds the spots of the claims of two boards or more. A queue
/// is open where a board of its type is free, and that of the reservations where any board is.
///
/// With C claims a put or a take of one costs O(log C). A claim takes about 130 bytes.
#[derive(Debug, Drop)]
pub struct Queues {
    index: Index,
}

impl Model for Queues {
    ghost use Rattle.std.specs.Prelude.{map};
    ghost use Rattle.farm_pick.specs.Queued.{QueueLists};
    ghost use Rattle.farm_pick.specs.Index.{shown_claims, shown_idle};
    ghost use Rattle.farm_pick.specs.Several.{QueuesInvariant};

    ghost Value = { QueueLists };

    ghost view = { λ q. record {
      claims = shown_claims q.index.kinds.items q.index.claims.entries;
      boards = map (shown_idle q.index.kinds.items) q.index.idle.items;
    } };

    ghost invariant = { λ q. QueuesInvariant q.index.kinds.items q.index.claims.entries q.index.places.entries
        q.index.several.keys q.index.idle.items };
}

impl Queues {
    /// No claims and no boards.
    pub fn new(alloc: Global) -> Queues
        ensures claims { result.claims ≡ [] }
        ensures boards { result.boards ≡ [] }
    {
        let index = Index {
            kinds: Vec::new(alloc),
            claims: BTreeMap::new(alloc),
            places: BTreeMap::new(alloc),
            several: BTreeSet::new(alloc),
            idle: VecDeque::new(alloc),
        };
        Queues { index }
    }

    /// Puts a claim into the queue of a type, or into that of the reservations, where no type is
    /// given. No claim of its number may be there. A refused growth changes nothing.
    ///
    /// With C claims it costs O(log C).
    pub fn put_claim(&mut self, claim: Claim, kind: &Option<Name>) -> Result<(), AllocError>
        requires { AllByRecursion (λ x. x.claim.number ≡ claim.number → ⊥) self.old.claims }
        ensures ok { OnOk result (self.new ≡ record self.old {
          claims = put queued_cmp self.old.claims (record { claim = claim; kind = kind.now });
        }) }
        ensures err { OnErr result (self.new ≡ self.old) }
    {
        let queue = kind::made_queue(&mut self.index.kinds, kind)?;
        let spot = Spot {
            queue,
            priority: claim.priority.get(),
            number: claim.number,
        };
        self.index.put(spot, claim)
    }

    /// Takes the claim of a number; of a number that isn't there it changes nothing.
    ///
    /// With C claims it costs O(log C).
    pub fn take_claim(&mut self, number: u64)
        ensures { self.new
            ≡ record self.old {
              claims = filter (λ x. not (x.claim.number == number))
                  self.old.claims;
            } }
    {
        self.index.take(number);
    }

    /// Puts a free board of a type, in the place of one of its name if there is one. A refused
    /// growth changes nothing.
    ///
    /// With B free boards it costs a look at the first few, then a binary search, and a move of
    /// those before it or of those behind it, whichever are fewer.
    pub fn put_board(&mut self, name: Name, kind: &Name) -> Result<(), AllocError>
        ensures ok { OnOk result (self.new ≡ record self.old {
          boards = put named_cmp self.old.boards (record { name = name; kind = kind.now });
        }) }
        ensures err { OnErr result (self.new ≡ self.old) }
    {
        let queue = kind::made_type(&mut self.index.kinds, kind)?;
        idle::put_row(&mut self.index.idle, IdleRow { name, queue })
    }

    /// Takes a free board; of a name that isn't there it changes nothing.
    ///
    /// With B free boards it costs a look at the first few and, where it is none of them, a binary
    /// search, and a move of those before it or of those behind it, whichever are fewer: a pass
    /// takes one of the first, and few stand before it.
    pub fn take_board(&mut self, name: &Name)
        ensures { self.new
            ≡ record self.old {
              boards = filter (λ b. not (bytes_eq b.name name.now))
                  self.old.boards;
            } }
    {
        idle::take_row(&mut self.index.idle, name);
    }

    /// How many boards are free.
    pub fn free_count(&self) -> usize
        ensures { result ≡ length self.now.boards }
    {
        self.index.idle.len()
    }

    /// All claims in the order `before`, each with a copy of its owner's name. With C claims and K
    /// types it costs O(C log K): the queues, each in its order, are merged.
    pub fn claims(&self) -> Result<Vec<Claim>, AllocError>
        ensures { IfOk result (λ claims. claims.items ≡ map (λ x. x.claim) self.now.claims) }
    {
        let claims = index::in_order(*self.index.kinds.allocator(), &self.index.claims)?;
        Ok(claims)
    }

    /// Lends from each queue its first claim that comes after a priority and a number, if they are
    /// given, in the order `before`; without `all` only from queues that are open. It takes no
    /// memory. With C claims and K types it costs O(K log C) to lend them all.
    pub fn heads(&self, after: Option<(Priority, u64)>, all: bool) -> Heads<'_>
        ensures { (kinds : List (Option (List ℕ))) × AreKindsOf self.now.claims kinds
            × (result ≡ filter_map (head_of (is_later (last_spot after))
            (λ k. all || is_open self.now.boards k) self.now.claims) kinds) }
    {
        Heads {
            index: &self.index,
            queue: 0,
            last: spot::last_spot(after),
            all,
        }
    }

    /// Lends the claims that come after a priority and a number, if they are given, in the order
    /// `before`, of the queues that are open. It takes memory for one place in each queue.
    ///
    /// With C claims and K types it costs O(K log C) to begin, and then a comparison a queue for
    /// each claim that is lent, and no search.
    pub fn walk(&self, after: Option<(Priority, u64)>) -> Result<Walk<'_>, AllocError>
        ensures { IfOk result (λ walk. walk ≡ claims_after (is_open self.now.boards)
            (last_spot after) self.now.claims) }
    {
        let last = spot::last_spot(after);
        Ok(Walk {
            index: &self.index,
            last,
            cursors: walk::cursors_after(&self.index, last)?,
        })
    }

    /// The first claim of two boards or more that comes after a priority and a number, if they are
    /// given, in the order `before`; of all queues, open or not: while no group collects, a group
    /// of a closed queue may begin to. It takes no memory.
    ///
    /// With C claims it costs O(log C), by a look-up each in the set of their spots and in the map.
    pub fn next_several(&self, after: Option<(Priority, u64)>) -> Option<&Claim>
        ensures { option_copied result ≡ option_map (λ x. x.claim)
            (find (λ x. is_later (last_spot after) x.claim && nat_le 2 x.claim.boards)
            self.now.claims) }
    {
        self.index.first_several(spot::last_spot(after))
    }

    /// The places of the least list of boards that meets the wants, out of the free boards that are
    /// here, or None where no list does: what `farm_pick::least_of` gives with ServingIdle, without
    /// a look at boards that aren't free. The boards here are the free ones of `boards`, each with
    /// its type. It takes no memory.
    ///
    /// The free boards and the rows of all boards are walked side by side: each want costs a
    /// number's comparison a free board, and for those of its type a test and a name's comparison
    /// for each board since the last of them, at most a few and a binary search; it ends at as many
    /// boards that fit as there are wants.
    pub fn least_of(
        &self,
        boards: &[BoardRow],
        types: &[TypeRow],
        wants: &[&Want],
    ) -> Option<Picked>
        requires ordered { IsStrictlySortedBy board_cmp boards.now }
        requires few { length wants.now ≤ most_wants }
        requires free { self.now.boards ≡ map idle_board (filter (is_free types.now) boards.now) }
        ensures least { option_map (boards_at boards.now) result ≡ least boards.now
            (is_free types.now) (map (λ w. w.now) wants.now) }
        ensures len { IfSome result (λ places. length places ≡ length wants.now) }
        ensures within { IfSome result (λ places. All (λ i. i < length boards.now) places) }
        ensures different { IfSome result (λ places. AllPairs (λ i j. i ≢ j) places) }
    {
        idle::least_of(&self.index.kinds, &self.index.idle, boards, types, wants)
    }

    /// The places of the least list of free boards that meets the wants, at the cost of `least_of`.
    pub fn least(&self, boards: &[BoardRow], types: &[TypeRow], wants: &Wants) -> Option<Picked>
        requires ordered { IsStrictlySortedBy board_cmp boards.now }
        requires free { self.now.boards ≡ map idle_board (filter (is_free types.now) boards.now) }
        ensures least { option_map (boards_at boards.now) result ≡ least boards.now
            (is_free types.now) wants.now }
        ensures len { IfSome result (λ places. length places ≡ length wants.now) }
        ensures within { IfSome result (λ places. All (λ i. i < length boards.now) places) }
        ensures different { IfSome result (λ places. AllPairs (λ i j. i ≢ j) places) }
    {
        match wants.items() {
            [a] => self.least_of(boards, types, &[a]),
            [a, b] => self.least_of(boards, types, &[a, b]),
            [a, b, c] => self.least_of(boards, types, &[a, b, c]),
            [a, b, c, d] => self.least_of(boards, types, &[a, b, c, d]),
            _ => unreachable!(),
        }
    }
}
