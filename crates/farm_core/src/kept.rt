//! The kept replies.
ghost use Rattle.std.specs.Prelude.{◌≡◌, ◌&&◌, [], IfOk, OnOk, OnErr, length, map, not, option_map};
ghost use Rattle.std.specs.List.{AllByRecursion, filter, find};
ghost use Rattle.std.specs.List.Sorted.{IsStrictlySortedBy};
ghost use Rattle.std.specs.Str.{bytes_eq};
ghost use Rattle.farm_types.specs.Table.{put, put_all, kept_cmp};
ghost use Rattle.farm_types.specs.Small.{IsSmallKept};
ghost use Rattle.farm_types.specs.Words.{IsName};
ghost use Rattle.farm_table.specs.Tabled.{Leads};
ghost use Rattle.farm_core.specs.Replies.{AreJoined, is_packable, joined, kept_reply, kept_row};

mod packed;

use crate::kept::packed::{Packed, is_packable};
use arrayvec::ArrayString;
use farm_types::{KeptRow, Key, LONGEST_KEY, LONGEST_NAME, Name, Reply};
use std::alloc::{AllocError, Global};
use std::collections::BTreeMap;
use std::fmt;
use std::marker::Model;
use std::mem::replace;

/// The most bytes of a caller, a space and a key.
const LONGEST_JOINED: usize = LONGEST_NAME + 1 + LONGEST_KEY;

/// What is kept under a caller's key: the command's kind, and its reply.
#[derive(Clone, Copy, Debug, PartialEq, Eq)]
pub struct KeptReply {
    pub kind: u64,
    pub reply: Reply,
}

/// The kept replies in order of caller and key, and the log: each reply that was kept since it
/// began.
///
/// Those that came with the farm's rows are packed: 20 bytes each beside their texts, and nothing
/// to spare. Those kept since stand in an ordered map, in entries of 56 bytes and a text of its own
/// for each; so do those whose numbers no packed entry can hold, of which a sound farm has none.
/// With K replies a look-up costs O(log K), first in the map and then among the packed ones, and
/// takes no memory; a new one costs O(log K), and moves as many others. A packed reply never moves:
/// one that is put in its place stands in the map, and is found first.
#[derive(Drop)]
pub struct KeptReplies {
    packed: Packed,
    others: BTreeMap<String, KeptReply>,
    len: usize,
    log: Vec<KeptRow>,
}

impl Model for KeptReplies {
    ghost use Rattle.farm_types.specs.declared.rows.KeptRow.{KeptRow};
    ghost use Rattle.farm_table.specs.Tabled.{Tabled};
    ghost use Rattle.farm_core.specs.Replies.{IsKept, kept_rows};

    ghost Value = { Tabled KeptRow };

    ghost view = { λ k. record { rows = kept_rows k.packed k.others.entries; log = k.log.items } };

    ghost invariant = { λ k. IsKept k.packed k.others.entries k.len k.log.items };
}

// The rows in order of their keys, as one map; the log is no part of the farm.
impl fmt::Debug for KeptReplies {
    fn fmt<W: fmt::Write>(&self, f: &mut fmt::Formatter<W>) -> fmt::Result {
        let mut shown = f.debug_map();
        let mut packed = self.packed.entries.as_slice();
        for (text, reply) in &self.others {
            let words = text.as_str().split_once(' ').unwrap_or((text.as_str(), ""));
            while let [entry, rest @ ..] = packed
                && self.packed.words(entry) <= words
            {
                if self.packed.words(entry) != words {
                    shown.entry(&self.packed.words(entry), &entry.reply());
                }
                packed = rest;
            }
            shown.entry(&words, reply);
        }
        while let [entry, rest @ ..] = packed {
            shown.entry(&self.packed.words(entry), &entry.reply());
            packed = rest;
        }
        shown.finish()
    }
}

/// The text under which the map has a caller's key. It lies in the value itself, so that a look-up
/// takes no memory.
fn joined(caller: &Name, key: &Key) -> ArrayString<LONGEST_JOINED>
    ensures joined { result.bytes ≡ joined caller.now key.now }
    ensures name { IsName caller.now }
{
    let mut text = ArrayString::new();
    text.push_str(caller.as_str());
    text.push_str(" ");
    text.push_str(key.as_str());
    text
}

/// Puts a reply into the map. A refused growth changes nothing.
fn insert(
    alloc: Global,
    rows: &mut BTreeMap<String, KeptReply>,
    row: &KeptRow,
) -> Result<(), AllocError>
    requires { AreJoined rows.old.entries }
    ensures rows { OnOk result (map kept_row rows.new.entries
        ≡ put kept_cmp (map kept_row rows.old.entries) row.now) }
    ensures joined { OnOk result (AreJoined rows.new.entries) }
    ensures stays { OnErr result (rows.new.entries ≡ rows.old.entries) }
{
    let text = String::from_str(alloc, joined(&row.caller, &row.key).as_str())?;
    let (kind, reply) = (row.kind, row.reply);
    let _former = rows.insert(text, KeptReply { kind, reply })?;
    Ok(())
}

/// Those of the rows that no packed entry can hold.
fn others_of(alloc: Global, rows: &[KeptRow]) -> Result<BTreeMap<String, KeptReply>, AllocError>
    ensures rows { IfOk result (λ others. map kept_row others.entries
        ≡ put_all kept_cmp [] (filter (λ r. not (is_packable r)) rows.now)) }
    ensures joined { IfOk result (λ others. AreJoined others.entries) }
{
    let mut others = BTreeMap::new(alloc);
    for row in rows {
        if !is_packable(row) {
            insert(alloc, &mut others, row)?;
        }
    }
    Ok(others)
}

impl KeptReplies {
    /// No replies.
    pub fn new(alloc: Global) -> KeptReplies
        ensures { result ≡ record { rows = []; log = [] } }
    {
        KeptReplies {
            packed: Packed::new(alloc),
            others: BTreeMap::new(alloc),
            len: 0,
            log: Vec::new(alloc),
        }
    }

    /// The replies of rows, at the cost of reading each three times. The rows' memory is free once
    /// all are packed.
    pub fn of(rows: Vec<KeptRow>) -> Result<KeptReplies, AllocError>
        requires { IsStrictlySortedBy kept_cmp rows.items }
        ensures { IfOk result (λ kept. kept ≡ record { rows = rows.items; log = [] }) }
    {
        let alloc = *rows.allocator();
        let packed = Packed::of(alloc, &rows)?;
        let others = others_of(alloc, &rows)?;
        Ok(KeptReplies {
            packed,
            others,
            len: rows.len(),
            log: Vec::new(alloc),
        })
    }

    /// How many replies are kept.
    pub fn len(&self) -> usize
        ensures { result ≡ length self.now.rows }
    {
        self.len
    }

    /// What is kept for a caller and a key. With K replies it costs O(log K).
    pub fn find(&self, caller: &Name, key: &Key) -> Option<KeptReply>
        ensures { result ≡ option_map kept_reply (find (λ r. bytes_eq r.caller caller.now
            && bytes_eq r.key key.now) self.now.rows) }
    {
        match self.others.get(joined(caller, key).as_str()) {
            Some(reply) => Some(*reply),
            None => self.packed.find(caller, key),
        }
    }

    /// Keeps a reply. With K replies it costs O(log K). Where memory runs out the table is as it
    /// was.
    pub fn put(&mut self, row: KeptRow) -> Result<(), AllocError>
        requires { IsSmallKept row }
        ensures rows { OnOk result (self.new.rows ≡ put kept_cmp self.old.rows row) }
        ensures leads { Leads kept_cmp self.old self.new }
        ensures stays { OnErr result (self.new ≡ self.old) }
    {
        let more = usize::from(self.find(&row.caller, &row.key).is_none());
        let len = self.len.checked_add(more).ok_or(AllocError)?;
        self.log.reserve(1)?;
        insert(*self.log.allocator(), &mut self.others, &row)?;
        self.len = len;
        self.log.push_reserved(row);
        Ok(())
    }

    /// Gives the log away, and begins a new one.
    pub fn take_changes(&mut self) -> Vec<KeptRow>
        ensures changes { result.items ≡ self.old.log }
        ensures fit { AllByRecursion IsSmallKept result.items }
        ensures rests { self.new ≡ record { rows = self.old.rows; log = [] } }
    {
        let none = Vec::new(*self.log.allocator());
        replace(&mut self.log, none)
    }
}
