//! Kept replies in the least memory.
ghost use Rattle.std.specs.Prelude.{◌≡◌, ◌&&◌, ◌++◌, ◌∷◌, [], IsTrue, IfOk, OnOk, length, map};
ghost use Rattle.std.specs.Prelude.{take, drop, option_map};
ghost use Rattle.std.specs.List.{AllByRecursion, filter, find};
ghost use Rattle.std.specs.List.Sorted.{IsBinarySearchResult, IsSearchInRange};
ghost use Rattle.std.specs.List.Sorted.{IsStrictlySortedBy};
ghost use Rattle.std.specs.Str.{bytes_eq};
ghost use Rattle.farm_types.specs.Table.{kept_cmp};
ghost use Rattle.farm_core.specs.Replies.{LiesIn, asked_row, entry_row, is_packable, kept_reply};
ghost use Rattle.farm_core.specs.Replies.{packed_rows};

use crate::kept::KeptReply;
use farm_types::{KeptRow, Key, Name, Reply};
use std::alloc::{AllocError, Global};
use std::cmp::Ordering;

/// One packed reply: where its caller's text and then its key's begin among all texts, how long the
/// two are, the command's kind, and the reply's three numbers.
#[derive(Clone, Copy)]
pub struct Entry {
    pub start: u32,
    pub first: u32,
    pub second: u32,
    pub third: u32,
    pub caller: u8,
    pub key: u8,
    pub kind: u8,
}

/// Kept replies in order of caller and key, which stay as they are: the texts of all in one piece
/// of memory, and an entry each in another.
///
/// An entry takes 20 bytes beside its texts, so a reply with a caller of 10 bytes and a key of 20
/// takes 50, and no allocation of its own.
#[derive(Drop)]
pub struct Packed {
    pub texts: Vec<u8>,
    pub entries: Vec<Entry>,
}

/// Up to `len` bytes of a text from a place on.
fn piece(text: &[u8], from: usize, len: usize) -> &[u8]
    ensures { result.now ≡ take len (drop from text.now) }
{
    let rest = &text[from.min(text.len())..];
    &rest[..len.min(rest.len())]
}

/// The word of up to `len` bytes from a place on; where the bytes there are none, the empty text.
fn word(text: &[u8], from: usize, len: usize) -> &str {
    str::from_utf8(piece(text, from, len)).unwrap_or("")
}

impl Entry {
    /// How its caller and key compare to these.
    fn order(&self, texts: &[u8], caller: &Name, key: &Key) -> Ordering
        ensures { result
            ≡ kept_cmp (entry_row texts.now self.now) (asked_row caller.now key.now) }
    {
        let start = self.start as usize;
        let long = self.caller as usize;
        let own_caller = piece(texts, start, long);
        let own_key = piece(texts, start + long, self.key as usize);
        match own_caller.cmp(&caller.as_str().as_bytes()) {
            Ordering::Equal => own_key.cmp(&key.as_str().as_bytes()),
            apart => apart,
        }
    }

    /// What is kept in it.
    pub fn reply(&self) -> KeptReply
        ensures { result ≡ kept_reply (entry_row [] self.now) }
    {
        let kind = self.kind.into();
        let reply = Reply(self.first.into(), self.second.into(), self.third.into());
        KeptReply { kind, reply }
    }
}

/// Whether an entry can hold a row's numbers. It can hold those of every row of a sound farm.
pub fn is_packable(row: &KeptRow) -> bool
    ensures { result ≡ is_packable row.now }
{
    row.kind <= u64::from(u8::MAX)
        && row.reply.0 <= u64::from(u32::MAX)
        && row.reply.1 <= u64::from(u32::MAX)
        && row.reply.2 <= u64::from(u32::MAX)
}

/// How many bytes the texts of the rows take, to make room for them.
fn text_len(rows: &[KeptRow]) -> usize {
    rows.iter().fold(0usize, |len, row| {
        len.saturating_add(row.caller.as_str().len())
            .saturating_add(row.key.as_str().len())
    })
}

/// Adds a row behind the others. Texts of 4 GiB and more are refused like too little memory.
fn push(texts: &mut Vec<u8>, entries: &mut Vec<Entry>, row: &KeptRow) -> Result<(), AllocError>
    requires packable { IsTrue (is_packable row.now) }
    requires lie { AllByRecursion (LiesIn texts.old.items) entries.old.items }
    ensures rows { OnOk result (map (entry_row texts.new.items) entries.new.items
        ≡ map (entry_row texts.old.items) entries.old.items ++ row.now ∷ []) }
    ensures lie { OnOk result (AllByRecursion (LiesIn texts.new.items) entries.new.items) }
{
    let Ok(start) = u32::try_from(texts.len()) else {
        return Err(AllocError);
    };
    let caller = row.caller.as_str();
    let key = row.key.as_str();
    texts.extend_from_slice(caller.as_bytes())?;
    texts.extend_from_slice(key.as_bytes())?;
    entries.push(Entry {
        start,
        first: row.reply.0 as u32,
        second: row.reply.1 as u32,
        third: row.reply.2 as u32,
        caller: caller.len() as u8,
        key: key.len() as u8,
        kind: row.kind as u8,
    })?;
    Ok(())
}

/// Where the entry of a caller and a key stands among entries in order, by binary search.
fn place_of(texts: &[u8], entries: &[Entry], caller: &Name, key: &Key) -> Result<usize, usize>
    ensures within { IsSearchInRange result (length entries.now) }
    ensures searched { IsBinarySearchResult
        (λ e. kept_cmp (entry_row texts.now e) (asked_row caller.now key.now)) entries.now result }
{
    entries.binary_search_by(|entry| entry.order(texts, caller, key))
}

impl Packed {
    /// None.
    pub fn new(alloc: Global) -> Packed
        ensures { packed_rows result ≡ [] }
    {
        Packed {
            texts: Vec::new(alloc),
            entries: Vec::new(alloc),
        }
    }

    /// Those of the rows that entries can hold, at the cost of reading each, in memory of the size
    /// that they need where entries can hold them all.
    pub fn of(alloc: Global, rows: &[KeptRow]) -> Result<Packed, AllocError>
        ensures { IfOk result (λ packed. packed_rows packed ≡ filter is_packable rows.now) }
    {
        let mut texts = Vec::with_capacity(alloc, text_len(rows))?;
        let mut entries = Vec::with_capacity(alloc, rows.len())?;
        for row in rows {
            if is_packable(row) {
                push(&mut texts, &mut entries, row)?;
            }
        }
        Ok(Packed { texts, entries })
    }

    /// The caller's and the key's words in an entry.
    pub fn words(&self, entry: &Entry) -> (&str, &str) {
        let start = entry.start as usize;
        let long = entry.caller as usize;
        let caller = word(&self.texts, start, long);
        (caller, word(&self.texts, start + long, entry.key as usize))
    }

    /// What is kept here for a caller and a key. With K replies it costs O(log K).
    pub fn find(&self, caller: &Name, key: &Key) -> Option<KeptReply>
        requires { IsStrictlySortedBy kept_cmp (packed_rows self.now) }
        ensures { result ≡ option_map kept_reply (find (λ r. bytes_eq r.caller caller.now
            && bytes_eq r.key key.now) (packed_rows self.now)) }
    {
        match place_of(&self.texts, &self.entries, caller, key) {
            Ok(at) => Some(self.entries[at].reply()),
            Err(_) => None,
        }
    }
}
