//! Reading some bytes.
ghost use Rattle.std.specs.Prelude.{◌≡◌, ◌+◌, ◌<◌, ◌≤◌, length, take, IfOk, IfErr, IsOk, OnErr};
ghost use Rattle.std.specs.Io.{StopsAt};
ghost use Rattle.std.specs.Io.KnownBytes.{Consumes, IsAtEnd, Keeps};
ghost use Rattle.httparse.specs.Ascii.{line_feed};
ghost use Rattle.farm_http.specs.Turns.{SpendsTurns};

use crate::fault::WireFault;
use crate::input::Input;
use std::io::ErrorKind;

/// How far a call reads: as far as there is room, or no further than a line.
#[derive(Clone, Copy)]
pub(crate) enum Reach {
    Room,
    Line,
}

/// Reads some bytes, none only at the end of the input, and takes one of the turns that are left for
/// each call. An interrupted read is tried again. The fault Read says that no byte came: the reader
/// failed, or no turn is left.
#[tactic(auto, using(crate::proofs::TurnLemmas::leaves_all))]
pub(crate) fn read_some<R: Input>(
    reader: &mut R,
    left: &mut u32,
    buf: &mut [u8],
    reach: Reach,
) -> Result<usize, WireFault>
    requires { 0 < length buf.old }
    ensures within { IfOk result (λ n. n ≤ length buf.new) }
    ensures ok { IfOk result
        (λ n. Consumes (R.remaining reader.old) (R.remaining reader.new) (take n buf.new)) }
    ensures line { reach ≡ Reach.Line → IfOk result (λ n. StopsAt (take n buf.new) line_feed) }
    ensures end { IfOk result (λ n. n ≡ 0 → IsAtEnd (R.remaining reader.new)) }
    ensures kept { OnErr result (Keeps (R.remaining reader.old) (R.remaining reader.new)) }
    ensures fault { IfErr result (λ e. e ≡ WireFault.Read) }
    ensures turns { SpendsTurns left.old left.new (R.turns reader.old) (R.turns reader.new) result }

    // Of a reader that never fails one call gives them, where one is left.
    ensures sure { R.never_fails → 0 < left.old → IsOk result }
    ensures once { R.never_fails → left.old ≤ left.new + 1 }
{
    while *left > 0 {
        *left -= 1;
        let read = match reach {
            Reach::Room => reader.read_once(buf),
            Reach::Line => reader.read_in_line(buf),
        };
        match read {
            Ok(count) => return Ok(count),
            Err(error) if error.kind() == ErrorKind::Interrupted => {}
            Err(_) => return Err(WireFault::Read),
        }
    }
    Err(WireFault::Read)
}
