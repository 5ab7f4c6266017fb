//! The calls that a lab file asks for.
ghost use Rattle.std.specs.Prelude.{◌≡◌, ◌≤◌, length, true, IsTrue, IfOk, map, All};
ghost use Rattle.std.specs.List.{list_all};
ghost use Rattle.toml.specs.View.{view, table_view};
ghost use Rattle.toml.specs.Data.{get};
ghost use Rattle.farm_types.specs.Limits.{longest_name, is_every};
ghost use Rattle.farm_types.specs.Words.{is_word, is_name_byte};
ghost use Rattle.farm_types.specs.Proper.{is_proper_cmd, is_frequency, has_no_name_tag};
ghost use Rattle.farm_types.specs.Reads.{OrNoMemory};
ghost use Rattle.farm_jobfile.specs.Lab.{given_entry, entry_of, unit_in, every_in, check_in};
ghost use Rattle.farm_jobfile.specs.Lab.{type_in, own_tags, board_in, entry_in, entries_of};
ghost use Rattle.farm_jobfile.specs.Lab.{section, calls_in, lab, IsAddition};
ghost use Rattle.farm_jobfile.specs.Reading.{text_fault};

use crate::fault::{Fault, FileFault, FileKind, FileResult, Reason};
use crate::fields::{name_at, name_of, natural_at, table_of, tags_at, text_of, tree_of};
use farm_types::{
    BAD_TAG, Call, Check, CheckUnit, Cmd, Key, LONGEST_LAB_FILE, Name, Refusal, Tags, is_every,
};
use std::alloc::{AllocError, Global};
use toml::{Table, Value};

/// The call of an admin's command at a moment; its reply is kept under a prefix and a name.
fn call_of(alloc: Global, prefix: &str, name: &str, now: u64, cmd: Cmd) -> Result<Call, AllocError>
    requires word { is_word longest_name name.now ≡ true }
    requires short { length prefix.now ≤ 16 }
    requires bytes { list_all is_name_byte prefix.now ≡ true }
    requires proper { IsTrue (is_proper_cmd cmd) }
    ensures { IfOk result (λ call. entry_of call ≡ given_entry prefix.now name.now now cmd) }
{
    let text = format!(in alloc; "{prefix}{name}")?;
    let key = Key::of(text.as_bytes());
    Ok(Call::new(Name::of(b"admin"), Some(key), now, cmd))
}

/// The fault of a value that is no check.
const NO_CHECK: Fault = Fault::Bad(FileKind::LabFile, Reason::WrongKind);

/// The unit under the key `check`; absent means none.
#[tactic(auto, unfolding(crate::specs::Lab::unit_in))]
fn unit_of(value: &Value) -> Result<CheckUnit, Fault>
    ensures { result ≡ unit_in (view value.now) }
{
    let Some(field) = value.get("check") else {
        return Ok(CheckUnit::None);
    };
    field.as_str().and_then(CheckUnit::called).ok_or(NO_CHECK)
}

/// The frequency under the key `every`.
#[tactic(auto, unfolding(crate::specs::Lab::every_in))]
fn every_of(value: &Value) -> Result<u64, Fault>
    ensures every { result ≡ every_in (view value.now) }
    ensures range { IfOk result (λ every. IsTrue (is_every every)) }
{
    let every = natural_at(FileKind::LabFile, value, "every")?;
    every.filter(|every| is_every(*every)).ok_or(NO_CHECK)
}

/// The check that the keys `check` and `every` spell.
#[tactic(auto, unfolding(crate::specs::Lab::check_in))]
fn check_of(value: &Value) -> Result<Check, Fault>
    ensures check { result ≡ check_in (view value.now) }
    ensures frequency { IfOk result (λ check. IsTrue (is_frequency check)) }
{
    match unit_of(value)? {
        CheckUnit::None => Ok(Check::Never),
        CheckUnit::Hours => Ok(Check::Hours(every_of(value)?)),
        CheckUnit::Jobs => Ok(Check::Jobs(every_of(value)?)),
    }
}

/// The call that adds one type.
#[tactic(auto, unfolding(crate::specs::Lab::type_in))]
fn type_of(alloc: Global, name: &str, value: &Value, now: u64) -> FileResult<Call>
    ensures { OrNoMemory text_fault (λ call. entry_of call) result
        (type_in now name.now (view value.now)) }
{
    let kind = name_of(name)?;
    let _table = table_of(FileKind::LabFile, value)?;
    let check = check_of(value)?;
    let cmd = Cmd::add_type(kind, check);
    Ok(call_of(alloc, "type.", name, now, cmd)?)
}

/// The tags as a board's own, none with the key `name`.
fn own_tags(tags: Tags) -> Result<Tags, Fault>
    ensures tags { result ≡ own_tags tags }
    ensures own { IfOk result (λ tags. IsTrue (has_no_name_tag tags)) }
{
    let fault = Fault::Word(Refusal { code: BAD_TAG });
    let own = tags.has_no_name_tag();
    if own { Ok(tags) } else { Err(fault) }
}

/// The call that adds one board.
#[tactic(auto, unfolding(crate::specs::Lab::board_in))]
fn board_of(alloc: Global, name: &str, value: &Value, now: u64) -> FileResult<Call>
    ensures { OrNoMemory text_fault (λ call. entry_of call) result
        (board_in now name.now (view value.now)) }
{
    let board = name_of(name)?;
    let _table = table_of(FileKind::LabFile, value)?;
    let kind = name_at(FileKind::LabFile, value, "type")?;
    let tags = own_tags(tags_at(alloc, FileKind::LabFile, value)?)?;
    let cmd = Cmd::add_board(board, kind, tags);
    Ok(call_of(alloc, "board.", name, now, cmd)?)
}

/// The tables of a lab file.
#[derive(Clone, Copy)]
pub enum Section {
    Types,
    Boards,
}

/// The call that adds a member of a table.
fn member_of(alloc: Global, which: Section, name: &str, value: &Value, now: u64) -> FileResult<Call>
    ensures { OrNoMemory text_fault (λ call. entry_of call) result
        (entry_in which now name.now (view value.now)) }
{
    match which {
        Section::Types => type_of(alloc, name, value, now),
        Section::Boards => board_of(alloc, name, value, now),
    }
}

/// The calls that add the members of a table, which has them in byte order.
fn members_of(alloc: Global, section: Section, table: &Table, now: u64) -> FileResult<Vec<Call>>
    ensures { OrNoMemory text_fault (λ calls. map entry_of calls.items) result
        (entries_of (entry_in section now) (table_view table.now)) }
{
    let mut calls = Vec::new(alloc);
    for (name, value) in table.iter() {
        calls.push(member_of(alloc, section, name.as_str(), value, now)?)?;
    }
    Ok(calls)
}

/// The calls that add the members of the table under a key; there are none where it is absent.
fn listed(alloc: Global, tree: &Value, key: &str, which: Section, now: u64) -> FileResult<Vec<Call>>
    ensures { OrNoMemory text_fault (λ calls. map entry_of calls.items) result
        (section (entry_in which now) (get key.now (view tree.now))) }
{
    match tree.get(key) {
        Some(value) => members_of(alloc, which, table_of(FileKind::LabFile, value)?, now),
        None => Ok(Vec::new(alloc)),
    }
}

/// The calls that add the types, then those that add the boards.
#[tactic(auto, unfolding(crate::specs::Lab::calls_in))]
fn calls_of(alloc: Global, tree: &Value, now: u64) -> FileResult<Vec<Call>>
    ensures { OrNoMemory text_fault (λ calls. map entry_of calls.items) result
        (calls_in now (view tree.now)) }
{
    let mut calls = listed(alloc, tree, "types", Section::Types, now)?;
    let mut boards = listed(alloc, tree, "boards", Section::Boards, now)?;
    calls.append(&mut boards)?;
    Ok(calls)
}

/// The calls that a lab file asks for at a moment, in seconds since 1970-01-01 00:00:00 UTC.
///
/// A lab file is TOML 1.1 of at most 1,048,576 bytes, with the tables `types` and `boards`, each of
/// which may be absent. `[types.NAME]` may have `check`, one of `none`, `hours` and `jobs`, and
/// with the last two it has `every`, 1 to 10,000. `[boards.NAME]` has `type` and may have `tags`,
/// none with the key `name`. Other keys mean nothing. The first fault stands, types before boards.
///
/// The types are added in the byte order of their names, then the boards in theirs. Each command is
/// given by `admin` with a key made of its name, so that a second reading of the file adds nothing.
#[tactic(auto, unfolding(crate::specs::Lab::lab))]
pub fn lab_of(alloc: Global, text: &[u8], now: u64) -> Result<Vec<Call>, FileFault>
    ensures meaning { OrNoMemory text_fault (λ calls. map entry_of calls.items) result
        (lab text.now now) }
    ensures additions { IfOk result (λ calls. All (λ call. IsAddition call.cmd) calls.items) }
{
    let text = text_of(FileKind::LabFile, LONGEST_LAB_FILE, text)?;
    let tree = tree_of(alloc, FileKind::LabFile, text)?;
    calls_of(alloc, &tree, now)
}
