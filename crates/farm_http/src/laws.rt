//! Laws over what is taken of an input and written to an output.
ghost use Rattle.std.specs.Prelude.{◌≡◌, ◌≢◌, ℕ, ◌+◌, ◌≤◌, ◌++◌, List, IfErr, IsOk, OnErr, OnOk, Result};
ghost use Rattle.std.specs.Prelude.{Some, length, vec_capacity};
ghost use Rattle.httparse.specs.Grammar.{RequestHead, ReadsRequest, print_request};
ghost use Rattle.farm_types.specs.Limits.{longest_head, most_fields};
ghost use Rattle.farm_http.specs.declared.fault.WireFault.{WireFault};
ghost use Rattle.farm_http.specs.declared.taken.Taken.{Taken};
ghost use Rattle.farm_http.specs.Heads.{HasNoHead};
ghost use Rattle.farm_http.specs.Requests.{IsRequest};
ghost use Rattle.farm_http.specs.Faults.{TakesBytes, IsTaken, TakesFrom, WritesPrefix};

use crate::fault::WireFault;
use crate::request::read_request;
use crate::taken::Taken;
use crate::writing::write_whole;
use std::alloc::Global;

/// Where a head stands at the front of the input, nothing is refused for want of a head.
pub fn head_is_found()
    ensures { (used more rest : List ℕ) (h : RequestHead) (code : ℕ)
        → ReadsRequest (used ++ more) h rest
        → length h.fields ≤ most_fields → length (print_request h) ≤ longest_head
        → HasNoHead used (used ≡ used ++ more) code → ⊥ }
{}

/// Where a request stands at the front of the input, it is what reading takes, whatever follows:
/// `used` left the reader, `more` is still in it.
pub fn request_is_taken()
    ensures { (request rest used more : List ℕ) (head : ℕ) (taken : Result Taken WireFault)
        → IsRequest request head → request ++ rest ≡ used ++ more
        → TakesBytes (request ++ rest) used taken → IsTaken request head taken }
{}

/// Reads a request of bytes in memory as `read_request` does. They never fail, so the fault is never
/// Read: it is a refusal of these bytes, or want of memory before the first.
pub fn read_from_memory(alloc: Global, input: &mut &[u8]) -> Result<Taken, WireFault>
    ensures takes { TakesFrom input.old.now (Some input.new.now) result }
    ensures sure { IfErr result (λ e. e ≢ WireFault.Read) }
{
    read_request(alloc, input)
}

/// Writes bytes behind those of a vector as `write_whole` does. With the fault Write a part of them
/// from their front is written. Where they fit the vector's capacity, all of them are.
pub fn write_to_memory(held: &mut Vec<u8>, bytes: &[u8]) -> Result<(), WireFault>
    ensures fits { length held.old.items + length bytes.now ≤ vec_capacity held.old → IsOk result }
    ensures whole { OnOk result (held.new.items ≡ held.old.items ++ bytes.now) }
    ensures fault { IfErr result (λ e. e ≡ WireFault.Write) }
    ensures prefix { OnErr result
        (WritesPrefix (Some held.old.items) (Some held.new.items) bytes.now) }
{
    write_whole(held, bytes)
}
