//! The least list of boards that meets some wants, searched among all boards: the first candidates
//! of each want, and the least choice among them.
ghost use Rattle.std.specs.Prelude.{◌≡◌, ◌≢◌, ◌+◌, ◌<◌, ◌≤◌, ◌++◌, ℕ, List, All, AllPairs, length};
ghost use Rattle.std.specs.Prelude.{map, IfNone, IfSome, option_map};
ghost use Rattle.std.specs.List.{AllByRecursion};
ghost use Rattle.std.specs.List.Sorted.{IsStrictlySortedBy};
ghost use Rattle.farm_types.specs.Limits.{most_wants};
ghost use Rattle.farm_types.specs.Table.{board_cmp};
ghost use Rattle.farm_types.specs.Pick.{least};
ghost use Rattle.farm_pick.specs.Choice.{passes, has, Ascends, Chooses, IsLeastChoice, IsShortlist};
ghost use Rattle.farm_pick.specs.Choice.{candidate_at};
ghost use Rattle.farm_pick.specs.Least.{boards_at};

use crate::fit::{self, Free};
use crate::picked::Picked;
use farm_types::{BoardRow, TypeRow, Want, Wants};

/// The places of the least list of boards that meets the wants, or None where no list does. This
/// form takes wants that are lent one by one, as those of a group's job rows; one want is
/// `&[&want]`.
///
/// LAVA looks at devices in a random order. Here the answer is always the first list in name order,
/// so that a run can be repeated, and a board that fits two wants goes to the one that needs it.
///
/// With k wants the least list uses for each want one of its first k candidates: of these k the
/// other wants use k - 1 at most, so a later one could be exchanged for an earlier one. So each
/// want costs one scan up to its k-th candidate, k * n tests of a board at most for n boards, and
/// the search over at most 4 lists of 4 places costs at most 340 steps, however large n is.
pub fn least_of(
    boards: &[BoardRow],
    types: &[TypeRow],
    wants: &[&Want],
    free: Free,
) -> Option<Picked>
    requires ordered { IsStrictlySortedBy board_cmp boards.now }
    requires few { length wants.now ≤ most_wants }
    ensures least { option_map (boards_at boards.now) result
        ≡ least boards.now (passes types.now free) (map (λ w. w.now) wants.now) }
    ensures len { IfSome result (λ places. length places ≡ length wants.now) }
    ensures within { IfSome result (λ places. All (λ i. i < length boards.now) places) }
    ensures different { IfSome result (λ places. AllPairs (λ i j. i ≢ j) places) }
{
    let mut lists = [Picked::new(), Picked::new(), Picked::new(), Picked::new()];
    for (i, want) in wants.iter().enumerate() {
        let places = shortlist(boards, types, want, free, wants.len());
        if places.len() == 0 {
            return None;
        }
        lists[i] = places;
    }
    choose(&lists[..wants.len()], Picked::new())
}

/// The places of the least list of boards that meets the wants, or None where no list does, at the
/// cost of `least_of`.
pub fn least(boards: &[BoardRow], types: &[TypeRow], wants: &Wants, free: Free) -> Option<Picked>
    requires { IsStrictlySortedBy board_cmp boards.now }
    ensures least { option_map (boards_at boards.now) result ≡ least boards.now
        (passes types.now free) wants.now }
    ensures len { IfSome result (λ places. length places ≡ length wants.now) }
    ensures within { IfSome result (λ places. All (λ i. i < length boards.now) places) }
    ensures different { IfSome result (λ places. AllPairs (λ i j. i ≢ j) places) }
{
    match wants.items() {
        [a] => least_of(boards, types, &[a], free),
        [a, b] => least_of(boards, types, &[a, b], free),
        [a, b, c] => least_of(boards, types, &[a, b, c], free),
        [a, b, c, d] => least_of(boards, types, &[a, b, c, d], free),
        _ => unreachable!(),
    }
}

/// The first places of candidates for the want: all of them, or as many as the limit. At most one
/// test a board.
fn shortlist(
    boards: &[BoardRow],
    types: &[TypeRow],
    want: &Want,
    free: Free,
    limit: usize,
) -> Picked
    requires { limit ≤ most_wants }
    ensures { IsShortlist (candidate_at boards.now (passes types.now free) want.now) limit result }
{
    let mut found = Picked::new();
    for place in 0..boards.len() {
        if found.len() >= limit {
            break;
        }
        if fit::is_candidate(types, want, free, &boards[place]) {
            found = found.with(place);
        }
    }
    found
}

/// The least choice of different places, one of each list, that are not in use: those in use and
/// then these. Four lists of four places cost at most 4 + 16 + 64 + 256 = 340 steps.
pub fn choose(lists: &[Picked], used: Picked) -> Option<Picked>
    requires room { length used + length lists.now ≤ most_wants }
    requires ascend { AllByRecursion Ascends lists.now }
    ensures found { IfSome result (λ r. ((ps : List ℕ) × (r ≡ used ++ ps)
        × IsLeastChoice has used lists.now ps)) }
    ensures none { IfNone result ((ps : List ℕ) → Chooses has used lists.now ps → ⊥) }
{
    let Some((first, others)) = lists.split_first() else {
        return Some(used);
    };
    for place in first.places() {
        if used.places().contains(place) {
            continue;
        }
        if let Some(chosen) = choose(others, used.with(*place)) {
            return Some(chosen);
        }
    }
    None
}
