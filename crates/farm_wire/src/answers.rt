//! Answers as bytes.
ghost use Rattle.std.specs.Prelude.{◌≡◌, IfOk, map, string_bytes};
ghost use Rattle.serde_json.specs.Written.{compact_text};
ghost use Rattle.farm_types.specs.Refusals.{no_memory, store_fault, closed};
ghost use Rattle.farm_wire.specs.Routes.{allow_text};
ghost use Rattle.farm_wire.specs.Replies.{head_text, reply_bytes, answer_text, method_text};
ghost use Rattle.farm_wire.specs.Replies.{plain_answer, status_or, ok_status};
ghost use Rattle.farm_wire.specs.Shown.{listing, refusal_data};
ghost use Rattle.farm_wire.specs.declared.answers.Out.{Out};

use crate::rows_shown::ReplyTo;
use crate::shown::{Listing, ToJson};
use crate::text::Counter;
use farm_types::{
    BoardRow, Claim, JobRow, Refusal, Reply, ResRow, Status, TypeRow, WRONG_METHOD, reason_of,
};
use std::alloc::{AllocError, Global};

/// The status of an answer that is no refusal.
pub const OK: u16 = 200;

/// The status of a wrong method.
pub const METHOD_NOT_ALLOWED: u16 = 405;

/// The status of a fault that the table gives none.
pub const UNAVAILABLE: u16 = 503;

/// The methods that a path has.
#[derive(Clone, Copy, Debug, PartialEq, Eq)]
pub enum Allowed {
    Get,
    Post,
    GetPost,
}

impl Allowed {
    /// The value of the field `allow`.
    pub fn text(self) -> &'static str
        ensures { result.now ≡ allow_text self }
    {
        match self {
            Allowed::Get => "GET",
            Allowed::Post => "POST",
            Allowed::GetPost => "GET, POST",
        }
    }
}

/// An answer, whose rows are lent.
#[derive(Drop)]
pub enum Out<'a> {
    /// The reply to the command of that number.
    Reply(u64, Reply),
    Refused(Refusal),
    /// The path has other methods, these.
    Method(Allowed),
    Types(&'a [TypeRow]),
    Boards(&'a [BoardRow]),
    /// The claims in queue order.
    Queue(&'a [Claim]),
    Reservations(&'a [ResRow]),
    Job(&'a JobRow),
    Status(Status),
}

/// The bytes of an answer, or of a part of it.
type Bytes = Result<Vec<u8>, AllocError>;

/// The head of an answer, with further fields and the length of its body.
fn head(alloc: Global, status: u16, more: &str, length: usize) -> Result<String, AllocError>
    ensures { IfOk result (λ text. string_bytes text ≡ head_text status more.now length) }
{
    let reason = reason_of(status);
    format!(in alloc;
        "HTTP/1.1 {status} {reason}\r\ncontent-type: application/json\r\ncontent-length: {length}\r\nconnection: close\r\n{more}\r\n"
    )
}

/// A head and the JSON of what is shown behind it: one pass reckons the length, one prints.
fn answer_of<T: ToJson>(alloc: Global, status: u16, more: &str, shown: &T) -> Bytes
    ensures { IfOk result (λ b. b.items ≡ answer_text status more.now
        (compact_text (T.json shown.now))) }
{
    let mut counter = Counter { count: 0 };
    shown.print(&mut counter)?;
    let mut bytes = head(alloc, status, more, counter.count)?.into_bytes();
    bytes.reserve(counter.count)?;
    shown.print(&mut bytes)?;
    Ok(bytes)
}

/// The answer with all rows.
fn listing_answer<R: ToJson>(alloc: Global, key: &str, rows: &[R]) -> Bytes
    ensures { IfOk result (λ b. b.items ≡ plain_answer ok_status (listing key.now (map R.json rows.now))) }
{
    answer_of(alloc, OK, "", &Listing { key, rows })
}

/// The answer of a refusal.
fn refusal_answer(alloc: Global, refusal: Refusal) -> Bytes
    ensures { IfOk result (λ b. b.items ≡ plain_answer (status_or refusal.code)
        (refusal_data refusal.code)) }
{
    let status = refusal.status().unwrap_or(UNAVAILABLE);
    answer_of(alloc, status, "", &refusal)
}

/// The answer of a wrong method, which names the right ones.
fn method_answer(alloc: Global, allowed: Allowed) -> Bytes
    ensures { IfOk result (λ b. b.items ≡ method_text allowed) }
{
    let text = allowed.text();
    let more = format!(in alloc; "allow: {text}\r\n")?;
    let refusal = Refusal { code: WRONG_METHOD };
    answer_of(alloc, METHOD_NOT_ALLOWED, more.as_str(), &refusal)
}

/// The bytes of an answer: a status line, fields, and JSON, printed into one buffer. It costs two
/// passes over the bytes of the rows: one reckons their length, one prints.
#[tactic(auto, unfolding(crate::specs::Replies::reply_bytes))]
pub fn answer_bytes(alloc: Global, out: &Out<'_>) -> Result<Vec<u8>, AllocError>
    ensures { IfOk result (λ b. b.items ≡ reply_bytes out.now) }
{
    match out {
        Out::Reply(kind, reply) => answer_of(alloc, OK, "", &ReplyTo(*kind, *reply)),
        Out::Refused(refusal) => refusal_answer(alloc, *refusal),
        Out::Method(allowed) => method_answer(alloc, *allowed),
        Out::Types(rows) => listing_answer(alloc, "types", *rows),
        Out::Boards(rows) => listing_answer(alloc, "boards", *rows),
        Out::Queue(claims) => listing_answer(alloc, "queue", *claims),
        Out::Reservations(rows) => listing_answer(alloc, "reservations", *rows),
        Out::Job(row) => answer_of(alloc, OK, "", *row),
        Out::Status(status) => answer_of(alloc, OK, "", status),
    }
}

/// The answer where memory ran out.
pub fn no_memory_answer() -> &'static [u8]
    ensures { result.now ≡ reply_bytes (Out.Refused (record { code = no_memory })) }
{
    b"HTTP/1.1 503 Service Unavailable\r\ncontent-type: application/json\r\ncontent-length: 29\r\nconnection: close\r\n\r\n{\"code\":1,\"text\":\"no memory\"}"
}

/// The answer where a call of the store was refused.
pub fn store_answer() -> &'static [u8]
    ensures { result.now ≡ reply_bytes (Out.Refused (record { code = store_fault })) }
{
    b"HTTP/1.1 503 Service Unavailable\r\ncontent-type: application/json\r\ncontent-length: 32\r\nconnection: close\r\n\r\n{\"code\":60,\"text\":\"store fault\"}"
}

/// The answer of a desk that an earlier fault closed.
pub fn closed_answer() -> &'static [u8]
    ensures { result.now ≡ reply_bytes (Out.Refused (record { code = closed })) }
{
    b"HTTP/1.1 503 Service Unavailable\r\ncontent-type: application/json\r\ncontent-length: 27\r\nconnection: close\r\n\r\n{\"code\":61,\"text\":\"closed\"}"
}
