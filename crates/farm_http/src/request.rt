//! Reading one request.
ghost use Rattle.std.specs.Prelude.{◌≡◌, ◌≢◌, ℕ, ◌+◌, ◌-◌, ◌<◌, ◌≤◌, ◌++◌, length, [], take, is_some};
ghost use Rattle.std.specs.Prelude.{vec_capacity, List, IfOk, IfErr, IfSome, OnOk, OnErr};
ghost use Rattle.std.specs.Io.{StopsAt};
ghost use Rattle.std.specs.Io.KnownBytes.{Consumes, IsAtEnd, Keeps};
ghost use Rattle.httparse.specs.Ascii.{line_feed};
ghost use Rattle.httparse.specs.Grammar.{RequestHead};
ghost use Rattle.farm_types.specs.Limits.{longest_body, longest_head, most_fields, most_reads};
ghost use Rattle.farm_types.specs.Reads.{by_code};
ghost use Rattle.farm_http.specs.Fields.{body_length};
ghost use Rattle.farm_http.specs.Faults.{HeadFails, BodyFails, FailsAfter, TakesFrom};
ghost use Rattle.farm_http.specs.Heads.{IsHead, IsHopeless, IsOpenBelow, FindsHead, AreSpansOf};
ghost use Rattle.farm_http.specs.Requests.{IsRequest};
ghost use Rattle.farm_http.specs.Turns.{SpendsTurns};

use crate::fault::WireFault;
use crate::fields::declared_among;
use crate::input::Input;
use crate::reading::{Reach, read_some};
use crate::taken::Taken;
use farm_types::{
    BAD_REQUEST, LONGEST_BODY, LONGEST_HEAD, MOST_FIELDS, MOST_READS, Refusal, TOO_LARGE,
};
use httparse::Status;
use httparse::spans::{EMPTY_HEADER_SPAN, HeaderSpan, RequestSpans, parse_request};
use std::alloc::Global;

/// The most bytes of a head that are read by one call.
const LONGEST_RUN: usize = 256;

/// Reads one request, and leaves the bytes behind it unread.
///
/// The head is the first prefix that the parser takes for one; it is tried at each line feed. A
/// refusal comes after the first bytes that rule a request out: 50 for a head that can't be one,
/// for more than 64 fields, for a wrong `content-length` and for an input that ends too early, 51
/// for a head above 8,192 bytes or a body above 65,536, 54 for any `transfer-encoding`.
///
/// Costs one growth of 73,728 bytes, as few calls of the reader as it allows, for the head one for
/// each byte at most, and at each line feed of the head a parse of what came so far: its bytes times
/// its lines. The dearest head that can come is 8,192 empty lines.
pub fn read_request<R: Input>(alloc: Global, reader: &mut R) -> Result<Taken, WireFault>
    ensures taken { IfOk result
        (λ taken. Consumes (R.remaining reader.old) (R.remaining reader.new) taken.bytes.items) }
    ensures fault { IfErr result (FailsAfter (R.remaining reader.old) (R.remaining reader.new)) }

    // The fault Read comes only of a reader that failed or took all its turns, and of one that
    // failed nothing else comes.
    ensures turns { (left : ℕ)
        × SpendsTurns most_reads left (R.turns reader.old) (R.turns reader.new) result }

    // Of a reader whose bytes are known, its end is the end of the input.
    ensures known { IfSome (R.remaining reader.old)
        (λ input. TakesFrom input (R.remaining reader.new) result) }

    // One that never fails, as bytes in memory, is never blamed.
    ensures sure { R.never_fails → IfErr result (λ e. e ≢ WireFault.Read) }
{
    let Ok(mut bytes) = Vec::with_capacity(alloc, LONGEST_HEAD + LONGEST_BODY) else {
        return Err(WireFault::NoMemory);
    };
    let mut headers = [EMPTY_HEADER_SPAN; MOST_FIELDS];
    let (head, spans) = fill(reader, &mut bytes, &mut headers)?;
    Ok(Taken {
        bytes,
        head,
        spans,
        headers,
    })
}

/// Reads a request into bytes that have room for it, and gives the length of its head and where the
/// head's parts are. Only as many bytes are cleared as the body has.
fn fill<R: Input>(
    reader: &mut R,
    bytes: &mut Vec<u8>,
    headers: &mut [HeaderSpan],
) -> Result<(usize, RequestSpans), WireFault>
    requires empty { bytes.old.items ≡ [] }
    requires fields { length headers.old ≡ most_fields }
    requires room { longest_head + longest_body ≤ vec_capacity bytes.old }
    ensures request { IfOk result (λ found. IsRequest bytes.new.items found.0) }
    ensures spans { IfOk result
        (λ found. AreSpansOf (take found.0 bytes.new.items) headers.new found.1) }
    ensures taken { OnOk result
        (Consumes (R.remaining reader.old) (R.remaining reader.new) bytes.new.items) }
    ensures fault { IfErr result (FailsAfter (R.remaining reader.old) (R.remaining reader.new)) }
    ensures turns { (left : ℕ)
        × SpendsTurns most_reads left (R.turns reader.old) (R.turns reader.new) result }
    ensures sure { R.never_fails → IfErr result (λ e. e ≢ WireFault.Read) }
{
    let mut left = MOST_READS;
    let spans = read_head(reader, &mut left, bytes, headers)?;
    let head = bytes.len();
    let body = length_after(bytes.as_slice(), headers, spans)?;
    let Ok(()) = bytes.resize(head + body, 0) else {
        return Err(WireFault::NoMemory);
    };
    read_body(reader, &mut left, &mut bytes[head..])?;
    Ok((head, spans))
}

/// Reads a head into bytes that have room for it, and gives where its parts are.
#[tactic(auto, using(crate::proofs::TurnLemmas::leaves_all))]
fn read_head<R: Input>(
    reader: &mut R,
    left: &mut u32,
    bytes: &mut Vec<u8>,
    headers: &mut [HeaderSpan],
) -> Result<RequestSpans, WireFault>
    requires empty { bytes.old.items ≡ [] }
    requires room { longest_head ≤ vec_capacity bytes.old }
    requires fields { length headers.old ≡ most_fields }
    ensures capacity { vec_capacity bytes.old ≤ vec_capacity bytes.new }
    ensures within { OnOk result (length bytes.new.items ≤ longest_head) }
    ensures head { OnOk result ((h : RequestHead) × IsHead bytes.new.items h) }
    ensures spans { IfOk result (AreSpansOf bytes.new.items headers.new) }
    ensures bytes { OnOk result
        (Consumes (R.remaining reader.old) (R.remaining reader.new) bytes.new.items) }
    ensures fault { IfErr result (λ e. (used : List ℕ)
        × Consumes (R.remaining reader.old) (R.remaining reader.new) used
        × HeadFails used (IsAtEnd (R.remaining reader.new)) e) }
    ensures turns { SpendsTurns left.old left.new (R.turns reader.old) (R.turns reader.new) result }
    ensures sure { R.never_fails → longest_head ≤ left.old
        → IfErr result (λ e. e ≢ WireFault.Read) }
    ensures quick { R.never_fails → left.old ≤ left.new + longest_head }
{
    while bytes.len() < LONGEST_HEAD {
        read_run(reader, left, bytes)?;
        if let Some(spans) = spans_of(bytes.as_slice(), headers)? {
            return Ok(spans);
        }
    }
    Err(WireFault::Refused(Refusal { code: TOO_LARGE }))
}

/// Reads what is at hand of a line behind bytes that have room for a head.
fn read_run<R: Input>(reader: &mut R, left: &mut u32, bytes: &mut Vec<u8>) -> Result<(), WireFault>
    requires short { length bytes.old.items < longest_head }
    requires room { longest_head ≤ vec_capacity bytes.old }
    ensures capacity { vec_capacity bytes.old ≤ vec_capacity bytes.new }
    ensures within { OnOk result (length bytes.new.items ≤ longest_head) }
    ensures some { OnOk result (length bytes.old.items < length bytes.new.items) }
    ensures run { OnOk result ((run : List ℕ) × (bytes.new.items ≡ bytes.old.items ++ run)
        × StopsAt run line_feed × Consumes (R.remaining reader.old) (R.remaining reader.new) run) }
    ensures kept { OnErr result (Keeps (R.remaining reader.old) (R.remaining reader.new)) }
    ensures fault { IfErr result (BodyFails 1 [] (IsAtEnd (R.remaining reader.new))) }
    ensures turns { SpendsTurns left.old left.new (R.turns reader.old) (R.turns reader.new) result }
    ensures sure { R.never_fails → 0 < left.old → IfErr result (λ e. e ≢ WireFault.Read) }
    ensures once { R.never_fails → left.old ≤ left.new + 1 }
{
    let mut run = [0u8; LONGEST_RUN];
    let room = LONGEST_RUN.min(LONGEST_HEAD - bytes.len());
    let count = read_some(reader, left, &mut run[..room], Reach::Line)?;
    if count == 0 {
        return Err(WireFault::Refused(Refusal { code: BAD_REQUEST }));
    }
    // There is room for it.
    let _ = bytes.extend_from_slice(&run[..count]);
    Ok(())
}

/// Where the parts of a head are, if the bytes are one, where no line before their last ends one.
/// Refused are bytes that no head begins with.
fn spans_of(bytes: &[u8], headers: &mut [HeaderSpan]) -> Result<Option<RequestSpans>, Refusal>
    requires fields { length headers.old ≡ most_fields }
    requires some { 0 < length bytes.now }
    requires short { length bytes.now ≤ longest_head }
    requires open_lines { IsOpenBelow (length bytes.now - 1) bytes.now }
    ensures found { IfOk result (λ found. FindsHead bytes.now (is_some found)) }
    ensures spans { IfOk result (λ found. IfSome found (AreSpansOf bytes.now headers.new)) }
    ensures refused { IfErr result (λ refusal. IsHopeless bytes.now refusal.code) }
{
    if bytes[bytes.len() - 1] != b'\n' {
        return Ok(None);
    }
    match parse_request(bytes, headers) {
        Ok(Status::Complete(spans)) => Ok(Some(spans)),
        Ok(Status::Partial) => Ok(None),
        Err(_) => Err(Refusal { code: BAD_REQUEST }),
    }
}

/// How long the body is that follows a head with these parts.
pub(crate) fn length_after(
    head: &[u8],
    headers: &[HeaderSpan],
    spans: RequestSpans,
) -> Result<usize, Refusal>
    requires { AreSpansOf head.now headers.now spans }
    ensures length { (h : RequestHead) → IsHead head.now h → by_code result ≡ body_length h }
    ensures small { IfOk result (λ n. n ≤ longest_body) }
{
    declared_among(head, &headers[..spans.headers])
}

/// Reads a body of a known length.
#[tactic(auto, using(crate::proofs::TurnLemmas::leaves_all))]
fn read_body<R: Input>(reader: &mut R, left: &mut u32, body: &mut [u8]) -> Result<(), WireFault>
    ensures ok { OnOk result
        (Consumes (R.remaining reader.old) (R.remaining reader.new) body.new) }
    ensures fault { IfErr result (λ e. (used : List ℕ)
        × Consumes (R.remaining reader.old) (R.remaining reader.new) used
        × BodyFails (length body.old) used (IsAtEnd (R.remaining reader.new)) e) }
    ensures turns { SpendsTurns left.old left.new (R.turns reader.old) (R.turns reader.new) result }
    ensures sure { R.never_fails → length body.old ≤ left.old
        → IfErr result (λ e. e ≢ WireFault.Read) }
{
    let mut at = 0usize;
    while at < body.len() {
        let count = read_some(reader, left, &mut body[at..], Reach::Room)?;
        if count == 0 {
            return Err(WireFault::Refused(Refusal { code: BAD_REQUEST }));
        }
        at += count;
    }
    Ok(())
}
