//! The words of a request's head: the parameter of its path, which is the first segment behind what
//! each path of a group begins with, who sends it, and under which key its reply is kept.
ghost use Rattle.std.specs.Prelude.{◌≡◌, ◌==◌, drop, position};
ghost use Rattle.std.specs.List.{before_first};
ghost use Rattle.farm_types.specs.Reads.{by_code};
ghost use Rattle.farm_wire.specs.Parameters.{parameter, is_number_text, number_in, board_in};
ghost use Rattle.farm_wire.specs.Parameters.{job_in, reservation_in};
ghost use Rattle.farm_wire.specs.Sender.{caller_in, key_in};

use crate::fields::BAD;
use farm_http::{Parts, is_digits, number_within};
use farm_types::{Key, NUMBERS_END, Name, Refusal};

/// What stands behind the first bytes.
fn behind(path: &[u8], count: usize) -> &[u8]
    ensures { result.now ≡ drop count path.now }
{
    path.get(count..).unwrap_or(&[])
}

/// Where the first slash is.
fn slash_in(rest: &[u8]) -> Option<usize>
    ensures { result ≡ position (λ b. b == 47) rest.now }
{
    rest.iter().position(|byte| *byte == b'/')
}

/// What stands before the first slash.
fn first_segment(rest: &[u8]) -> &[u8]
    ensures { result.now ≡ before_first (λ b. b == 47) rest.now }
{
    &rest[..slash_in(rest).unwrap_or(rest.len())]
}

/// The first segment behind the front of a path.
fn parameter<'p>(front: &str, path: &'p str) -> &'p [u8]
    ensures { result.now ≡ parameter front.now path.now }
{
    first_segment(behind(path.as_bytes(), front.len()))
}

/// Whether a text is digits that begin with 1 to 9.
fn is_number_text(text: &[u8]) -> bool
    ensures { result ≡ is_number_text text.now }
{
    !text.is_empty() && text[0] != b'0' && is_digits(text)
}

/// The number that a segment writes: one to nine digits that begin with 1 to 9.
#[tactic(auto, unfolding(crate::specs::Parameters::number_in))]
fn number_of(text: &[u8]) -> Result<u64, Refusal>
    ensures { by_code result ≡ number_in text.now }
{
    if !is_number_text(text) {
        return Err(BAD);
    }
    number_within(text, (NUMBERS_END - 1) as u32).ok_or(BAD)
}

/// The board that a path names.
#[tactic(auto, unfolding(crate::specs::Parameters::board_in))]
pub(crate) fn board_of(path: &str) -> Result<Name, Refusal>
    ensures { by_code result ≡ board_in path.now }
{
    Name::parse(parameter("/boards/", path))
}

/// The job that a path names.
#[tactic(auto, unfolding(crate::specs::Parameters::job_in))]
pub(crate) fn job_of(path: &str) -> Result<u64, Refusal>
    ensures { by_code result ≡ job_in path.now }
{
    number_of(parameter("/jobs/", path))
}

/// The reservation that a path names.
#[tactic(auto, unfolding(crate::specs::Parameters::reservation_in))]
pub(crate) fn reservation_of(path: &str) -> Result<u64, Refusal>
    ensures { by_code result ≡ reservation_in path.now }
{
    number_of(parameter("/reservations/", path))
}

/// The name in the field `x-user`, which must stand there once.
#[tactic(auto, unfolding(crate::specs::Sender::caller_in))]
pub(crate) fn caller_of(parts: &Parts<'_>) -> Result<Name, Refusal>
    ensures { by_code result ≡ caller_in parts.now.fields }
{
    let value = parts.field(b"x-user").ok().flatten();
    Name::parse(value.ok_or(BAD)?)
}

/// The key in the field `x-key`, which may stand there once.
#[tactic(auto, unfolding(crate::specs::Sender::key_in))]
pub(crate) fn key_of(parts: &Parts<'_>) -> Result<Option<Key>, Refusal>
    ensures { by_code result ≡ key_in parts.now.fields }
{
    let value = parts.field(b"x-key").map_err(|_| BAD)?;
    value.map(|value| Key::parse(value)).transpose()
}
