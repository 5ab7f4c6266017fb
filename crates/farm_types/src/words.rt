//! Words: texts and numbers that keep a rule of their own.
ghost use Rattle.std.specs.Prelude.{◌≡◌, ◌↔◌, ◌≤◌, ◌<◌, [], length, IsTrue, IfOk, MatchResult};
ghost use Rattle.std.specs.List.{list_all};
ghost use Rattle.std.specs.Str.{bytes_eq};
ghost use Rattle.std.specs.String.{string_bytes};
ghost use Rattle.farm_types.specs.Words.{IsText, is_word, is_name_byte, text_cmp};
ghost use Rattle.farm_types.specs.Words.{word_or};
ghost use Rattle.farm_types.specs.Reads.{by_code};
ghost use Rattle.farm_types.specs.Limits.{highest_priority, is_priority};
ghost use Rattle.farm_types.specs.Called.{medium_priority, priority_called};

use crate::limits::{HIGHEST_PRIORITY, LONGEST_KEY, LONGEST_NAME};
use crate::refusal::{BAD_KEY, BAD_NAME, BAD_PRIORITY, Refusal};
pub use crate::tags::{Tag, Tags};
use arrayvec::ArrayString;
use std::alloc::{AllocError, Global};
use std::cmp::Ordering;
use std::marker::Model;

/// Whether a byte may stand in a word: a letter, a digit, `-`, `_` or `.`.
pub fn is_name_byte(byte: u8) -> bool
    ensures { result ≡ is_name_byte byte }
{
    matches!(byte, b'a'..=b'z' | b'A'..=b'Z' | b'0'..=b'9' | b'-' | b'_' | b'.')
}

fn are_name_bytes(text: &[u8]) -> bool
    ensures { result ≡ list_all is_name_byte text.now }
{
    text.iter().all(|byte| is_name_byte(*byte))
}

/// Whether a text is one up to `most` bytes that may stand in a word.
#[tactic(auto, unfolding(crate::specs::Words::is_word))]
pub fn is_word(most: usize, text: &[u8]) -> bool
    ensures { result ≡ is_word most text.now }
{
    1 <= text.len() && text.len() <= most && are_name_bytes(text)
}

/// A word of at most `MOST` bytes: letters, digits, `-`, `_` or `.`. A text that is none is refused
/// by the number `CODE`. Its bytes lie in the value, so neither reading nor copying one takes memory.
#[derive(Debug, Drop)]
pub struct Word<const MOST: usize, const CODE: u16> {
    text: ArrayString<MOST>,
}

/// A name of a type, a board, a person or a role: 1 to 48 letters, digits, `-`, `_` or `.`.
pub type Name = Word<LONGEST_NAME, BAD_NAME>;

/// A key under which a reply is kept: 1 to 64 letters, digits, `-`, `_` or `.`.
pub type Key = Word<LONGEST_KEY, BAD_KEY>;

impl<const MOST: usize, const CODE: u16> Model for Word<MOST, CODE> {
    ghost use Rattle.std.specs.Prelude.{List, ℕ, IsTrue};
    ghost use Rattle.farm_types.specs.Words.{is_word};

    ghost Value = { List ℕ };

    ghost view = { λ w. w.text.bytes };

    ghost invariant = { λ w. IsTrue (is_word MOST w.text.bytes) };
}

impl<const MOST: usize, const CODE: u16> Word<MOST, CODE> {
    /// The word of a text that is one.
    #[tactic(auto, using(crate::proofs::WordLemmas::IsUtf8_of_word), unfolding(crate::specs::Words::is_word))]
    pub fn of(text: &[u8]) -> Word<MOST, CODE>
        requires { IsTrue (is_word MOST text.now) }
        ensures { result ≡ text.now }
    {
        let mut word = ArrayString::new();
        word.push_str(std::str::from_utf8(text).unwrap());
        Word { text: word }
    }

    /// The word that a text spells; refused where it spells none.
    pub fn parse(text: &[u8]) -> Result<Word<MOST, CODE>, Refusal>
        ensures { by_code result ≡ word_or (is_word MOST text.now) text.now CODE }
    {
        Refusal::unless(is_word(MOST, text), CODE)?;
        Ok(Word::of(text))
    }

    /// The bytes of the word.
    pub fn as_str(&self) -> &str
        ensures text { result.now ≡ self.now }
        ensures word { IsTrue (is_word MOST self.now) }
    {
        self.text.as_str()
    }

    /// An equal word.
    pub fn copy(&self) -> Word<MOST, CODE>
        ensures { result ≡ self.now }
    {
        Word { text: self.text }
    }

    /// Whether two words are equal.
    pub fn is(&self, other: &Word<MOST, CODE>) -> bool
        ensures { result ≡ bytes_eq self.now other.now }
    {
        self.text.as_str() == other.text.as_str()
    }

    /// The byte order of words.
    pub fn order(&self, other: &Word<MOST, CODE>) -> Ordering
        ensures { result ≡ text_cmp self.now other.now }
    {
        self.text.as_str().cmp(other.text.as_str())
    }
}

/// A text that is carried and never read: the job file of a group's first member.
#[derive(Debug, Drop)]
pub struct Body {
    text: String,
}

impl Model for Body {
    ghost use Rattle.std.specs.Prelude.{List, ℕ};
    ghost use Rattle.std.specs.String.{string_bytes};
    ghost use Rattle.farm_types.specs.Words.{IsText};

    ghost Value = { List ℕ };

    ghost view = { λ n. string_bytes n.text };

    ghost invariant = { λ n. IsText (string_bytes n.text) };
}

impl Body {
    /// The text as a body.
    #[tactic(auto, using(crate::proofs::WordLemmas::is_text))]
    pub fn of(text: String) -> Body
        ensures { result ≡ string_bytes text }
    {
        let _text = text.as_str();
        Body { text }
    }

    /// No text.
    pub fn none(alloc: Global) -> Body
        ensures { result ≡ [] }
    {
        Body::of(String::new(alloc))
    }

    /// The bytes of the text.
    pub fn as_str(&self) -> &str
        ensures text { result.now ≡ self.now }
        ensures utf8 { IsText self.now }
    {
        self.text.as_str()
    }

    /// Whether there is none.
    pub fn is_empty(&self) -> bool
        ensures { IsTrue result ↔ (self.now ≡ []) }
    {
        self.text.is_empty()
    }

    /// The number of bytes.
    pub fn len(&self) -> usize
        ensures { result ≡ length self.now }
    {
        self.text.len()
    }

    /// An equal text.
    pub fn copy(&self) -> Result<Body, AllocError>
        ensures same { IfOk result (λ body. body ≡ self.now) }
    {
        let text = self.text.clone()?;
        Ok(Body { text })
    }
}

/// The priorities that LAVA calls low, medium and high. Medium is also what an absent one means.
const LOW: u64 = 0;

const MEDIUM: u64 = 50;

const HIGH: u64 = HIGHEST_PRIORITY;

/// A priority from 0 to 100; the higher goes first.
#[derive(Clone, Copy, Debug, PartialEq, Eq)]
pub struct Priority {
    number: u64,
}

impl Model for Priority {
    ghost use Rattle.std.specs.Prelude.{ℕ, IsTrue};
    ghost use Rattle.farm_types.specs.Limits.{is_priority};

    ghost Value = { ℕ };

    ghost view = { λ p. p.number };

    ghost invariant = { λ p. IsTrue (is_priority p.number) };

    ghost inverse = { λ n. record { number = n } };
}

impl Priority {
    /// The priority of that number; refused above 100.
    pub fn of(number: u64) -> Result<Priority, Refusal>
        ensures { MatchResult result (λ p. (p ≡ number) × (number ≤ highest_priority))
            (λ r. (r.code ≡ BAD_PRIORITY) × (highest_priority < number)) }
    {
        Refusal::unless(number <= HIGHEST_PRIORITY, BAD_PRIORITY)?;
        Ok(Priority { number })
    }

    /// The priority of a claim that names none.
    pub fn medium() -> Priority
        ensures { result ≡ medium_priority }
    {
        Priority { number: MEDIUM }
    }

    /// The priority that one of LAVA's words `low`, `medium` and `high` names; none for other
    /// words.
    pub fn called(text: &str) -> Option<Priority>
        ensures { result ≡ priority_called text.now }
    {
        match text {
            "low" => Some(Priority { number: LOW }),
            "medium" => Some(Priority::medium()),
            "high" => Some(Priority { number: HIGH }),
            _ => None,
        }
    }

    /// The number.
    pub fn get(self) -> u64
        ensures number { result ≡ self }
        ensures most { IsTrue (is_priority self) }
    {
        self.number
    }
}
