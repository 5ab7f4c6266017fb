//! The types that have a queue: that of the type at place i is queue i + 1.
ghost use Rattle.std.specs.Prelude.{List, [], ◌≡◌, ◌≤◌, ◌<◌, ◌==◌, ◌||◌, ◌++◌, ℕ, length};
ghost use Rattle.std.specs.Prelude.{unwrap_or, Some, true, IfOk};
ghost use Rattle.std.specs.List.{position};
ghost use Rattle.std.specs.Option.{option_map_or};
ghost use Rattle.std.specs.Str.{bytes_eq};
ghost use Rattle.farm_pick.specs.Index.{kind_at, AreKinds};

use farm_types::Name;
use std::alloc::AllocError;

/// The place of a type, if it is there. A scan of 64 types at most.
fn place_of(kinds: &[Name], kind: &Name) -> Option<usize>
    ensures { result ≡ position (λ k. bytes_eq k kind.now) kinds.now }
{
    kinds.iter().position(|own| own.is(kind))
}

/// The queue of a type; one that isn't there yet is added behind the others, with a copy of its
/// name.
pub fn made_type(kinds: &mut Vec<Name>, kind: &Name) -> Result<usize, AllocError>
    ensures queue { IfOk result (λ q. (q ≤ length kinds.new.items)
        × (kind_at kinds.new.items q ≡ Some kind.now)) }
    ensures low { IfOk result (λ q. 1 ≤ q) }
    ensures grows { (more : List (List ℕ)) × (kinds.new.items ≡ kinds.old.items ++ more) }
    ensures apart { AreKinds kinds.old.items → AreKinds kinds.new.items }
{
    if let Some(at) = place_of(kinds, kind) {
        return Ok(at + 1);
    }
    let own = kind.copy();
    kinds.push(own)?;
    Ok(kinds.len())
}

/// The queue of a type, or that of the reservations, which have no type: 0.
pub fn made_queue(kinds: &mut Vec<Name>, kind: &Option<Name>) -> Result<usize, AllocError>
    ensures queue { IfOk result (λ q. (q ≤ length kinds.new.items)
        × (kind_at kinds.new.items q ≡ kind.now)) }
    ensures grows { (more : List (List ℕ)) × (kinds.new.items ≡ kinds.old.items ++ more) }
    ensures apart { AreKinds kinds.old.items → AreKinds kinds.new.items }
{
    match kind {
        None => Ok(0),
        Some(kind) => made_type(kinds, kind),
    }
}

/// The queue of the boards that a want may be given: 0, that is any, where it names no type; for a
/// type that has no queue the one behind the last, in which no board is.
pub fn asked_queue(kinds: &[Name], kind: &Option<Name>) -> usize
    requires { AreKinds kinds.now }
    ensures { (q : ℕ) → 1 ≤ q → q ≤ length kinds.now
        → ((result == 0) || (q == result)) ≡ option_map_or
        (λ k. bytes_eq (unwrap_or (kind_at kinds.now q) []) k) kind.now true }
{
    match kind {
        None => 0,
        Some(kind) => place_of(kinds, kind).unwrap_or(kinds.len()) + 1,
    }
}
