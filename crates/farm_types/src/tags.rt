//! Tags, as labgrid's places have them: a key alone, or a key and a value.
ghost use Rattle.std.specs.Prelude.{◌≡◌, ◌↔◌, ◌==◌, ◌&&◌, ◌+◌, ◌∷◌, [], length, take, drop};
ghost use Rattle.std.specs.Prelude.{IsTrue, IfOk, Ok, Err, codes, map};
ghost use Rattle.std.specs.Prelude.{◌<◌, ◌≤◌, if◌then◌else◌, string_bytes};
ghost use Rattle.std.specs.List.{list_any, position};
ghost use Rattle.std.specs.Str.{bytes_eq};
ghost use Rattle.farm_types.specs.Limits.{longest_tag_key, longest_tag_value};
ghost use Rattle.farm_types.specs.Words.{IsTag, IsTags, is_word, is_tag, is_tags, tag_key, rise};
ghost use Rattle.farm_types.specs.Words.{text_cmp, word_or};
ghost use Rattle.farm_types.specs.Tags.{tags_text, tags_read, tags_of, tags_among, tag_parts};
ghost use Rattle.farm_types.specs.Tags.{list_of_tags};
ghost use Rattle.farm_types.specs.Proper.{has_no_name_tag};
ghost use Rattle.farm_types.specs.Reads.{OrNoMemory, refused_code};

use crate::fault::WordFault;
use crate::limits::{LONGEST_TAG_KEY, LONGEST_TAG_VALUE, MOST_TAGS};
use crate::refusal::{BAD_COUNT, BAD_TAG, Refusal};
use crate::table::{Keyed, is_sorted, upsert};
use crate::words::is_word;
use std::alloc::{AllocError, Global};
use std::cmp::Ordering;
use std::fmt;
use std::marker::Model;
use std::rc::Rc;

/// The place of the first '=', if there is one.
fn key_end(text: &[u8]) -> Option<usize>
    ensures { result ≡ position (λ byte. byte == 61) text.now }
{
    text.iter().position(|byte| *byte == b'=')
}

/// Whether what stands before and behind a place is a key and a value.
fn is_keyed(text: &[u8], end: usize) -> bool
    requires { end < length text.now }
    ensures { result ≡ (is_word longest_tag_key (take end text.now)
        && is_word longest_tag_value (drop (end + 1) text.now)) }
{
    is_word(LONGEST_TAG_KEY, &text[..end]) && is_word(LONGEST_TAG_VALUE, &text[end + 1..])
}

/// Whether a text is a tag: a key of at most 32 bytes, or one, `=` and a value of at most 64.
pub fn is_tag(text: &[u8]) -> bool
    ensures { result ≡ is_tag text.now }
{
    match key_end(text) {
        None => is_word(LONGEST_TAG_KEY, text),
        Some(end) => is_keyed(text, end),
    }
}

/// A tag: a key, or a key, `=` and a value.
#[derive(Debug, Drop)]
pub struct Tag {
    text: String,
}

impl Model for Tag {
    ghost use Rattle.std.specs.Prelude.{List, ℕ};
    ghost use Rattle.std.specs.String.{string_bytes};
    ghost use Rattle.farm_types.specs.Words.{IsTag};

    ghost Value = { List ℕ };

    ghost view = { λ n. string_bytes n.text };

    ghost invariant = { λ n. IsTag (string_bytes n.text) };
}

impl Tag {
    /// The tag that a text spells; refused as a bad tag, or for memory where it spells one.
    #[tactic(auto, using(crate::proofs::TagLemmas::IsUtf8_of_tag))]
    pub fn parse(alloc: Global, text: &[u8]) -> Result<Tag, WordFault>
        ensures reads { OrNoMemory refused_code (λ tag. tag) result
            (word_or (is_tag text.now) text.now BAD_TAG) }
        ensures memory { result ≡ Err WordFault.NoMemory → IsTrue (is_tag text.now) }
    {
        Refusal::unless(is_tag(text), BAD_TAG)?;
        let text = String::from_str(alloc, std::str::from_utf8(text).unwrap())?;
        Ok(Tag { text })
    }

    /// The bytes of the tag.
    pub fn as_str(&self) -> &str
        ensures text { result.now ≡ self.now }
        ensures tag { IsTag self.now }
    {
        self.text.as_str()
    }

    /// The bytes of its key.
    #[tactic(auto, using(crate::proofs::TagLemmas::key_at, crate::proofs::TagLemmas::key_whole))]
    pub fn key(&self) -> &[u8]
        ensures { result.now ≡ tag_key self.now }
    {
        // What stands before the first '='.
        let text = self.text.as_bytes();
        &text[..key_end(text).unwrap_or(text.len())]
    }

    /// Whether its key is `name`, which stands for the name that each board carries by itself.
    pub fn names_a_board(&self) -> bool
        ensures { result ≡ bytes_eq (tag_key self.now) (codes "name") }
    {
        self.key() == b"name".as_slice()
    }

    /// An equal tag.
    pub fn copy(&self) -> Result<Tag, AllocError>
        ensures same { IfOk result (λ tag. tag ≡ self.now) }
    {
        let text = self.text.clone()?;
        Ok(Tag { text })
    }
}

impl Keyed for Tag {
    ghost use Rattle.farm_types.specs.Words.{text_cmp};
    ghost use Rattle.std.specs.Cmp.Lexicographic.{nat_list_cmp_total};

    ghost cmp = { text_cmp };

    fn key_cmp(&self, other: &Tag) -> Ordering {
        self.text.as_str().cmp(other.text.as_str())
    }

    ghost total = { nat_list_cmp_total };
}

/// A comma before each tag but the first.
fn comma_before(at: usize) -> &'static str
    ensures { result.now ≡ (if at == 0 then [] else 44 ∷ []) }
{
    if at > 0 { "," } else { "" }
}

/// What stands between the commas; nothing in an empty text.
fn parts_of(alloc: Global, text: &[u8]) -> Result<Vec<&[u8]>, AllocError>
    ensures { IfOk result (λ parts. map (λ part. part.now) parts.items ≡ tag_parts text.now) }
{
    if text.is_empty() {
        return Ok(Vec::new(alloc));
    }
    text.split(|byte| *byte == b',').collect(alloc)
}

/// The tag that each part spells.
fn tags_in(alloc: Global, parts: &[&[u8]]) -> Result<Vec<Tag>, WordFault>
    ensures { OrNoMemory refused_code (λ tags. tags.items) result
        (list_of_tags (map (λ part. part.now) parts.now)) }
{
    let mut items = Vec::with_capacity(alloc, parts.len())?;
    for part in parts {
        items.push(Tag::parse(alloc, part)?)?;
    }
    Ok(items)
}

/// Whether tags stand in strict byte order.
fn rise(tags: &[Tag]) -> bool
    ensures { result ≡ rise tags.now }
{
    is_sorted(tags)
}

/// Whether two tags are one.
fn same_tag(first: &Tag, second: &Tag) -> bool
    ensures { IsTrue result ↔ (first.now ≡ second.now) }
{
    first.as_str() == second.as_str()
}

/// Whether two lists have the same tags.
fn same_tags(first: &[Tag], second: &[Tag]) -> bool
    ensures { IsTrue result ↔ (first.now ≡ second.now) }
{
    match (first, second) {
        ([], []) => true,
        ([tag, first @ ..], [other, second @ ..]) => {
            same_tag(tag, other) && same_tags(first, second)
        }
        _ => false,
    }
}

/// Up to sixteen tags in byte order, without doubles. Their memory is shared by all copies.
#[derive(Drop)]
pub struct Tags {
    alloc: Global,
    shared: Option<Rc<Vec<Tag>>>,
}

impl Model for Tags {
    ghost use Rattle.std.specs.Prelude.{List, ℕ, []};
    ghost use Rattle.std.specs.Option.{option_map_or};
    ghost use Rattle.farm_types.specs.Words.{IsTags};

    ghost Value = { List (List ℕ) };

    ghost view = { λ t. option_map_or (λ tags. tags.value.items) t.shared [] };

    ghost invariant = { λ t. IsTags (option_map_or (λ tags. tags.value.items) t.shared []) };
}

// As a list alone, however it lies in memory.
impl fmt::Debug for Tags {
    fn fmt<W: fmt::Write>(&self, f: &mut fmt::Formatter<W>) -> fmt::Result {
        f.debug_struct("Tags")
            .field("items", &self.items())
            .finish()
    }
}

impl Tags {
    /// The tags in byte order.
    pub fn items(&self) -> &[Tag]
        ensures items { result.now ≡ self.now }
        ensures tags { IsTags self.now }
    {
        self.shared.as_ref().map_or(&[], |tags| tags.as_slice())
    }

    /// No tags.
    #[tactic(auto, unfolding(crate::specs::Words::is_tags))]
    pub fn none(alloc: Global) -> Tags
        ensures { result ≡ [] }
    {
        Tags {
            alloc,
            shared: None,
        }
    }

    /// The tags of a list that has them in order.
    fn sharing(alloc: Global, items: Vec<Tag>) -> Result<Tags, AllocError>
        requires { IsTags items.items }
        ensures { IfOk result (λ tags. tags ≡ items.items) }
    {
        if items.is_empty() {
            return Ok(Tags::none(alloc));
        }
        let shared = Some(Rc::new(alloc, items)?);
        Ok(Tags { alloc, shared })
    }

    /// Whether there are none.
    pub fn is_empty(&self) -> bool
        ensures { IsTrue result ↔ (self.now ≡ []) }
    {
        self.items().is_empty()
    }

    /// Whether two have the same tags.
    pub fn is(&self, other: &Tags) -> bool
        ensures { IsTrue result ↔ (self.now ≡ other.now) }
    {
        same_tags(self.items(), other.items())
    }

    fn name_a_board(&self) -> bool
        ensures { result ≡ list_any (λ tag. bytes_eq (tag_key tag) (codes "name")) self.now }
    {
        self.items().iter().any(|tag| tag.names_a_board())
    }

    /// Whether none has the key `name`, as a board's own tags must.
    pub fn has_no_name_tag(&self) -> bool
        ensures { result ≡ has_no_name_tag self.now }
    {
        !self.name_a_board()
    }

    #[tactic(auto, unfolding(crate::specs::Tags::tags_of))]
    /// The tags of a list in any order and with doubles: refused as a bad count where the list has
    /// more than sixteen items, or for memory.
    pub fn of(alloc: Global, tags: &[Tag]) -> Result<Tags, WordFault>
        ensures reads { OrNoMemory refused_code (λ tags. tags) result (tags_of tags.now) }
        ensures memory { result ≡ Err WordFault.NoMemory → length tags.now ≤ MOST_TAGS }
    {
        Refusal::unless(tags.len() <= MOST_TAGS, BAD_COUNT)?;
        let mut items = Vec::with_capacity(alloc, tags.len())?;
        for tag in tags {
            let _tag = tag.as_str();
            upsert(&mut items, tag.copy()?)?;
        }
        Ok(Tags::sharing(alloc, items)?)
    }

    /// The tags that texts spell, in any order and with doubles: refused as a bad count where there
    /// are more than sixteen texts, whatever they are, else as a bad tag, or for memory.
    #[tactic(auto, unfolding(crate::specs::Tags::tags_among))]
    pub fn among(alloc: Global, texts: &[&[u8]]) -> Result<Tags, WordFault>
        ensures { OrNoMemory refused_code (λ tags. tags) result
            (tags_among (map (λ text. text.now) texts.now)) }
    {
        Refusal::unless(texts.len() <= MOST_TAGS, BAD_COUNT)?;
        Tags::of(alloc, tags_in(alloc, texts)?.as_slice())
    }

    #[tactic(auto, unfolding(crate::specs::Tags::tags_read))]
    /// The tags that a canonical text spells: tags in byte order without doubles, joined by commas.
    /// Refused as a bad count above sixteen, else as a bad tag, or for memory.
    pub fn parse(alloc: Global, text: &[u8]) -> Result<Tags, WordFault>
        ensures { OrNoMemory refused_code (λ tags. tags) result (tags_read text.now) }
    {
        let parts = parts_of(alloc, text)?;
        Refusal::unless(parts.len() <= MOST_TAGS, BAD_COUNT)?;
        let items = tags_in(alloc, parts.as_slice())?;
        Refusal::unless(rise(items.as_slice()), BAD_TAG)?;
        Ok(Tags::sharing(alloc, items)?)
    }

    /// The canonical text: the tags in order, joined by commas.
    pub fn text(&self) -> Result<String, AllocError>
        ensures { IfOk result (λ text. string_bytes text ≡ tags_text self.now) }
    {
        let mut text = String::new(self.alloc);
        for (at, tag) in self.items().iter().enumerate() {
            text.push_str(comma_before(at))?;
            text.push_str(tag.as_str())?;
        }
        Ok(text)
    }

    /// Equal tags, in the same memory.
    pub fn copy(&self) -> Result<Tags, AllocError>
        ensures same { IfOk result (λ tags. tags ≡ self.now) }
    {
        let shared = self.shared.clone()?;
        Ok(Tags { shared, ..*self })
    }
}
