//! What was taken of an input, and its parts, for whoever asks what it means.
ghost use Rattle.std.specs.Prelude.{take, ◌≡◌, ◌+◌, ◌<◌, ◌≤◌, map};
ghost use Rattle.farm_http.specs.Heads.{AreSpansOf};
ghost use Rattle.farm_http.specs.Requests.{IsRequest, ParsesTo};
ghost use Rattle.httparse.specs.Spans.{IsRequestWithin, span_bytes, header_bytes};
ghost use Rattle.farm_http.specs.Fields.{called_lookup, field_of};
ghost use Rattle.farm_http.specs.Request.{Request};

use crate::fields::{Repeated, find};
use farm_types::MOST_FIELDS;
use httparse::spans::{HeaderSpan, RequestSpans};
use std::marker::Model;

/// One request as it came: a head, and the body that its fields declare. `parts_of` lends its
/// parts.
#[derive(Debug, Drop)]
pub struct Taken {
    /// The head and the body.
    pub bytes: Vec<u8>,
    /// How many of the bytes are the head, at most 8,192.
    pub head: usize,
    /// Where the parts of the head are.
    pub(crate) spans: RequestSpans,
    /// Where its fields are; `spans` says how many there are.
    pub(crate) headers: [HeaderSpan; MOST_FIELDS],
    pub ghost whole: { ∥ IsRequest bytes.items head ∥₁ },
    pub ghost placed: { ∥ AreSpansOf (take head bytes.items) headers spans ∥₁ },
}

/// A request by its parts, each lent from the bytes that were taken.
#[derive(Drop)]
pub struct Parts<'a> {
    head: &'a [u8],
    body: &'a [u8],
    spans: RequestSpans,
    headers: &'a [HeaderSpan],
}

impl<'a> Model for Parts<'a> {
    ghost use Rattle.std.specs.Prelude.{take, map};
    ghost use Rattle.httparse.specs.Spans.{IsRequestWithin, span_bytes, header_bytes};
    ghost use Rattle.farm_http.specs.Request.{Request};

    ghost Value = { Request };

    ghost view = { λ p. record {
      method = span_bytes p.head.now p.spans.method;
      target = span_bytes p.head.now p.spans.path;
      fields = map (header_bytes p.head.now) (take p.spans.headers p.headers.now);
      body = p.body.now;
    } };

    ghost invariant = { λ p. IsRequestWithin p.head.now p.headers.now p.spans };
}

/// The parts of what was taken. Reads none of its bytes.
pub fn parts_of(taken: &Taken) -> Parts<'_>
    ensures { (request : Request) → ParsesTo taken.now.bytes.items taken.now.head request
        → result ≡ request }
{
    let (head, body) = taken.bytes.as_slice().split_at(taken.head);
    Parts {
        head,
        body,
        spans: taken.spans,
        headers: &taken.headers[..],
    }
}

impl<'a> Parts<'a> {
    /// The method, as it was sent: its case matters.
    pub fn method(&self) -> &'a [u8]
        ensures { result.now ≡ self.now.method }
    {
        self.spans.method.of(self.head)
    }

    /// The target of the request line, undecoded.
    pub fn target(&self) -> &'a [u8]
        ensures { result.now ≡ self.now.target }
    {
        self.spans.path.of(self.head)
    }

    /// The value of the only field of that name, whatever the case of its letters, without the
    /// spaces and tabs at both ends. Looks at each field once.
    pub fn field(&self, name: &[u8]) -> Result<Option<&'a [u8]>, Repeated>
        ensures { called_lookup result ≡ field_of name.now self.now.fields }
    {
        find(self.head, &self.headers[..self.spans.headers], name)
    }

    /// The body, which is empty where no length was declared.
    pub fn body(&self) -> &'a [u8]
        ensures { result.now ≡ self.now.body }
    {
        self.body
    }
}
