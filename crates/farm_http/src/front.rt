//! What the first bytes of a request say of it, before all of them came.
ghost use Rattle.std.specs.Prelude.{◌≡◌, ◌-◌, ◌<◌, ◌≤◌, length};
ghost use Rattle.farm_types.specs.Limits.{longest_head, most_fields};
ghost use Rattle.farm_http.specs.Heads.{IsOpenBelow};
ghost use Rattle.farm_http.specs.Fronts.{IsFront};

use crate::request::length_after;
use farm_types::{LONGEST_HEAD, MOST_FIELDS};
use httparse::Status;
use httparse::spans::{EMPTY_HEADER_SPAN, HeaderSpan, parse_request};

/// What is known of a request by its first bytes.
#[derive(Clone, Copy, Debug, PartialEq, Eq)]
pub enum Front {
    /// Its head isn't there, and may come.
    Open,
    /// Its head is there, and with its body it has so many bytes.
    Whole(usize),
    /// No request begins so, or none that is read.
    Refused,
}

/// What is known of a request by its first bytes, where nothing is by the first `seen` of them.
///
/// Costs a look at each further byte, and at each further line feed a parse of what comes before it.
pub fn front_of(bytes: &[u8], seen: usize) -> Front
    ensures { IsOpenBelow seen bytes.now → IsFront bytes.now result }
{
    let mut headers = [EMPTY_HEADER_SPAN; MOST_FIELDS];
    let end = bytes.len().min(LONGEST_HEAD);
    let mut at = seen;
    while at < end {
        match front_at(&bytes[..=at], &mut headers) {
            Front::Open => at += 1,
            Front::Whole(len) => return Front::Whole(len),
            Front::Refused => return Front::Refused,
        }
    }
    if end == LONGEST_HEAD {
        return Front::Refused;
    }
    Front::Open
}

/// What is known by bytes, where nothing is by the lines before the last byte.
fn front_at(bytes: &[u8], headers: &mut [HeaderSpan]) -> Front
    requires fields { length headers.old ≡ most_fields }
    requires some { 0 < length bytes.now }
    requires short { length bytes.now ≤ longest_head }
    ensures front { IsOpenBelow (length bytes.now - 1) bytes.now → IsFront bytes.now result }
    ensures fields { length headers.new ≡ most_fields }
{
    if bytes[bytes.len() - 1] != b'\n' {
        return Front::Open;
    }
    match parse_request(bytes, headers) {
        Ok(Status::Complete(spans)) => match length_after(bytes, headers, spans) {
            Ok(body) => Front::Whole(bytes.len() + body),
            Err(_) => Front::Refused,
        },
        Ok(Status::Partial) => Front::Open,
        Err(_) => Front::Refused,
    }
}
