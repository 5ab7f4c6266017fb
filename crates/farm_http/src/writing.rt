//! Writing bytes whole.
ghost use Rattle.std.specs.Prelude.{◌≡◌, ◌<◌, ◌≤◌, length, take, Ok, IfErr, IfOk, IsOk, OnErr, OnOk};
ghost use Rattle.std.specs.Io.KnownBytes.{Appends, Keeps};
ghost use Rattle.farm_http.specs.Turns.{FailsAtTurn, FailsWithin, TakesAtMost, TakesTurn};
ghost use Rattle.farm_http.specs.Room.{KeepsRoom};
ghost use Rattle.farm_http.specs.Faults.{WritesPrefix};

use crate::fault::WireFault;
use crate::output::Output;

/// Writes all the bytes, or a prefix of them where the writer fails. A write that fails, takes no
/// byte or is interrupted ends it, so there are at most as many writes as bytes; where the writer
/// takes them whole, there is one. It takes no memory.
pub fn write_whole<W: Output>(writer: &mut W, bytes: &[u8]) -> Result<(), WireFault>
    ensures ok { OnOk result (Appends (W.contents writer.old) (W.contents writer.new) bytes.now) }
    ensures fault { IfErr result (λ e. e ≡ WireFault.Write) }
    ensures prefix { OnErr result
        (WritesPrefix (W.contents writer.old) (W.contents writer.new) bytes.now) }

    // The fault comes only of a writer that failed, and of one that failed nothing else comes.
    ensures turns { OnOk result
        (TakesAtMost (length bytes.now) (W.turns writer.old) (W.turns writer.new)) }
    ensures failed { OnErr result
        (FailsWithin (length bytes.now) (W.turns writer.old) (W.turns writer.new)) }

    // A writer with room for them, as a vector, takes them all, and its room gets less by them.
    ensures sure { W.has_room writer.old (length bytes.now) → IsOk result }
    ensures room { KeepsRoom (W.has_room writer.old) (W.has_room writer.new)
        (W.contents writer.old) (W.contents writer.new) }
{
    let mut done = 0usize;
    while done < bytes.len() {
        done += write_some(writer, &bytes[done..])?;
    }
    Ok(())
}

/// Calls the writer once, to take one of the bytes at least.
fn write_some<W: Output>(writer: &mut W, bytes: &[u8]) -> Result<usize, WireFault>
    requires { 0 < length bytes.now }
    ensures within { IfOk result (λ n. (0 < n) × (n ≤ length bytes.now)) }
    ensures ok { IfOk result
        (λ n. Appends (W.contents writer.old) (W.contents writer.new) (take n bytes.now)) }
    ensures kept { OnErr result (Keeps (W.contents writer.old) (W.contents writer.new)) }
    ensures fault { IfErr result (λ e. e ≡ WireFault.Write) }
    ensures turn { OnOk result (TakesTurn (W.turns writer.old) (W.turns writer.new)) }
    ensures failed { OnErr result (FailsAtTurn (W.turns writer.old) (W.turns writer.new)) }

    // A writer with room takes all.
    ensures sure { W.has_room writer.old (length bytes.now) → result ≡ Ok (length bytes.now) }
    ensures room { KeepsRoom (W.has_room writer.old) (W.has_room writer.new)
        (W.contents writer.old) (W.contents writer.new) }
{
    match writer.write_once(bytes) {
        Ok(count) if count > 0 => Ok(count),
        _ => Err(WireFault::Write),
    }
}
