//! The fields of a head (RFC 9112, section 5): one by its name, and how long the body is.
ghost use Rattle.std.specs.Prelude.{◌≡◌, ◌≤◌, length, map, All, IfOk};
ghost use Rattle.std.specs.Str.{str_eq_ignore_ascii_case};
ghost use Rattle.httparse.specs.Spans.{IsHeaderWithin, header_bytes};
ghost use Rattle.farm_types.specs.Limits.{longest_body};
ghost use Rattle.farm_types.specs.Reads.{by_code};
ghost use Rattle.farm_http.specs.Fields.{called_lookup, field_of, declared_length, length_among};

use crate::digits::{is_digits, number_within};
use farm_types::{BAD_CODING, BAD_REQUEST, LONGEST_BODY, Refusal, TOO_LARGE};
use httparse::spans::HeaderSpan;

/// More than one field has the name.
#[derive(Clone, Copy, Debug, PartialEq, Eq)]
pub struct Repeated;

/// The value of the only field of that name, whatever the case of its letters, without the spaces
/// and tabs at both ends. Looks at each field of the head once.
pub(crate) fn find<'b>(
    buf: &'b [u8],
    headers: &[HeaderSpan],
    name: &[u8],
) -> Result<Option<&'b [u8]>, Repeated>
    requires { All (IsHeaderWithin (length buf.now)) headers.now }
    ensures { called_lookup result ≡ field_of name.now (map (header_bytes buf.now) headers.now) }
{
    let mut found: Option<&'b [u8]> = None;
    for header in headers {
        if is_named(buf, header, name) {
            if found.is_some() {
                return Err(Repeated);
            }
            found = Some(header.value.of(buf));
        }
    }
    Ok(found)
}

/// Whether a field has that name.
fn is_named(buf: &[u8], header: &HeaderSpan, name: &[u8]) -> bool
    requires { IsHeaderWithin (length buf.now) header.now }
    ensures { result ≡ str_eq_ignore_ascii_case (header_bytes buf.now header.now).0 name.now }
{
    header.name.of(buf).eq_ignore_ascii_case(name)
}

/// How long the body is that follows a head with these fields, at most 65,536 bytes. Refused are
/// any transfer coding, and a `content-length` that stands twice, is no number or is above that.
pub(crate) fn declared_among(head: &[u8], headers: &[HeaderSpan]) -> Result<usize, Refusal>
    requires { All (IsHeaderWithin (length head.now)) headers.now }
    ensures length { by_code result ≡ length_among (map (header_bytes head.now) headers.now) }
    ensures small { IfOk result (λ n. n ≤ longest_body) }
{
    let Ok(None) = find(head, headers, b"transfer-encoding") else {
        return Err(Refusal { code: BAD_CODING });
    };
    let length = find(head, headers, b"content-length");
    let value = length.map_err(|_| Refusal { code: BAD_REQUEST })?;
    value.map_or(Ok(0), declared)
}

/// The number that a `content-length` declares: decimal digits alone, leading zeros too.
fn declared(value: &[u8]) -> Result<usize, Refusal>
    ensures number { by_code result ≡ declared_length value.now }
    ensures small { IfOk result (λ n. n ≤ longest_body) }
{
    if value.is_empty() || !is_digits(value) {
        return Err(Refusal { code: BAD_REQUEST });
    }
    let number = number_within(value, LONGEST_BODY as u32).ok_or(Refusal { code: TOO_LARGE })?;
    Ok(number as usize)
}
