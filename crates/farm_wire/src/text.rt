//! Texts as JSON (RFC 8259), and what takes their bytes: a counter of them, and then a buffer.
ghost use Rattle.std.specs.Prelude.{◌≡◌, ◌<◌, OnOk, IsTrue};
ghost use Rattle.std.specs.Char.{digit_char};
ghost use Rattle.std.specs.List.{list_all};
ghost use Rattle.json.specs.Print.{escape_byte, escape, quoted};
ghost use Rattle.farm_wire.specs.Plain.{is_plain};

use std::alloc::AllocError;

/// What takes bytes, a piece after the other.
pub(crate) trait Sink {
    ghost use Rattle.std.specs.Prelude.{ℕ, List, [], ◌++◌, OnOk};

    /// What was taken between two moments.
    ghost Takes: { Self → Self → List ℕ → Type 0 };

    /// Takes a piece.
    fn put(&mut self, piece: &[u8]) -> Result<(), AllocError>
        ensures { OnOk result (Takes self.old self.new piece.now) };

    ghost nothing: { (a : Self) → Takes a a [] };

    ghost joins: { (a b c : Self) (x y : List ℕ) → Takes a b x → Takes b c y
        → Takes a c (x ++ y) };
}

impl Sink for Vec<u8> {
    ghost use Rattle.std.specs.Prelude.{◌≡◌, ◌++◌};
    ghost use Rattle.std.proofs.Common.{rules};
    ghost use Rattle.farm_wire.specs.Joins.{join_items};

    ghost Takes = { λ a b x. b.items ≡ a.items ++ x };

    fn put(&mut self, piece: &[u8]) -> Result<(), AllocError> {
        self.extend_from_slice(piece)
    }

    ghost nothing = { λ a. Prim.search rules };

    ghost joins = { λ a b c x y. join_items a.items b.items c.items x y };
}

/// A counter of bytes.
#[derive(Debug, Drop)]
pub(crate) struct Counter {
    pub count: usize,
}

impl Sink for Counter {
    ghost use Rattle.std.specs.Prelude.{◌≡◌, ◌+◌, length};
    ghost use Rattle.std.proofs.Common.{rules};
    ghost use Rattle.farm_wire.specs.Joins.{join_counts};

    ghost Takes = { λ a b x. b.count ≡ a.count + length x };

    /// Counts a piece. No memory holds more bytes than can be counted.
    fn put(&mut self, piece: &[u8]) -> Result<(), AllocError> {
        self.count = self.count.checked_add(piece.len()).ok_or(AllocError)?;
        Ok(())
    }

    ghost nothing = { λ a. Prim.search rules };

    ghost joins = { λ a b c x y. join_counts a.count b.count c.count x y };
}

/// Whether a byte shows as it is.
fn is_plain(byte: u8) -> bool
    ensures { result ≡ is_plain byte }
{
    byte >= 32 && byte != b'"' && byte != b'\\'
}

/// A digit of base sixteen.
fn hex_digit(digit: u8) -> u8
    requires { digit < 16 }
    ensures { result ≡ digit_char digit }
{
    b"0123456789abcdef"[digit as usize]
}

/// Puts a byte as it stands between quotes.
#[tactic(auto, unfolding(json::specs::Print::escape_byte))]
fn put_byte<S: Sink>(sink: &mut S, byte: u8) -> Result<(), AllocError>
    ensures { OnOk result (S.Takes sink.old sink.new (escape_byte byte)) }
{
    match byte {
        b'"' => sink.put(b"\\\""),
        b'\\' => sink.put(b"\\\\"),
        8 => sink.put(b"\\b"),
        9 => sink.put(b"\\t"),
        10 => sink.put(b"\\n"),
        12 => sink.put(b"\\f"),
        13 => sink.put(b"\\r"),
        0..=31 => {
            let (high, low) = (hex_digit(byte / 16), hex_digit(byte % 16));
            sink.put(&[b'\\', b'u', b'0', b'0', high, low])
        }
        _ => sink.put(&[byte]),
    }
}

/// Puts each byte as it stands between quotes.
fn put_bytes<S: Sink>(sink: &mut S, text: &[u8]) -> Result<(), AllocError>
    ensures { OnOk result (S.Takes sink.old sink.new (escape text.now)) }
{
    for byte in text {
        put_byte(sink, *byte)?;
    }
    Ok(())
}

/// Whether a text shows as it is.
fn are_plain(text: &[u8]) -> bool
    ensures { result ≡ list_all is_plain text.now }
{
    text.iter().all(|byte| is_plain(*byte))
}

/// Puts a text as it stands between quotes.
pub(crate) fn put_escaped<S: Sink>(sink: &mut S, text: &[u8]) -> Result<(), AllocError>
    ensures { OnOk result (S.Takes sink.old sink.new (escape text.now)) }
{
    if are_plain(text) {
        sink.put(text)
    } else {
        put_bytes(sink, text)
    }
}

/// Puts a word between quotes, whose bytes all show as they are: none is looked at.
pub(crate) fn put_word<S: Sink>(sink: &mut S, word: &str) -> Result<(), AllocError>
    requires { IsTrue (list_all is_plain word.now) }
    ensures { OnOk result (S.Takes sink.old sink.new (quoted word.now)) }
{
    sink.put(b"\"")?;
    sink.put(word.as_bytes())?;
    sink.put(b"\"")
}

/// Puts a text between quotes.
pub(crate) fn put_text<S: Sink>(sink: &mut S, text: &str) -> Result<(), AllocError>
    ensures { OnOk result (S.Takes sink.old sink.new (quoted text.now)) }
{
    sink.put(b"\"")?;
    put_escaped(sink, text.as_bytes())?;
    sink.put(b"\"")
}
