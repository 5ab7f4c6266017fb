//! The JSON value that a text spells (RFC 8259), read with a workspace that is kept from text to
//! text: each reader of `serde_json` clears one of its own.
ghost use Rattle.std.specs.Prelude.{◌≡◌, ◌==◌, ◌<◌, length, slice_index, IsTrue, true, false};
ghost use Rattle.std.specs.Prelude.{option_map, option_and_then};
ghost use Rattle.json.specs.Json.{if_last, value};
ghost use Rattle.json.specs.Lex.{tokens};
ghost use Rattle.json.specs.Value.{value_view, items_view as items_of_tree};
ghost use Rattle.json.specs.Value.{members_view as members_of_tree};
ghost use Rattle.serde_json.specs.Data.{no_members};
ghost use Rattle.serde_json.specs.Read.{max_depth, number_of, number_from, of_json, of_items};
ghost use Rattle.serde_json.specs.Read.{of_members, read};
ghost use Rattle.serde_json.specs.View.{view, number_view, items_view, members_view};
ghost use Rattle.farm_types.specs.Reads.{OrNoMemory, refused_code};
ghost use Rattle.farm_wire.specs.Fields.{there_or};

use crate::fields::{BAD, Read};
use farm_types::WordFault;
use fast_float::Numeral;
use json::{Error, Reader, Scratch, Value as Tree};
use serde_json::{Map, Number, Value};
use std::alloc::Global;

/// How deep the arrays and objects of a text nest at most.
const DEEPEST: usize = 127;

/// The value that a text spells; refused where it is no JSON, nests deeper than 127 or has a number
/// that is too large. Of a key that comes twice the last value stands.
pub(crate) fn value_of(alloc: Global, scratch: &mut Scratch, text: &str) -> Read<Value>
    ensures { OrNoMemory refused_code (λ v. view v) result (there_or (read text.now)) }
{
    let tree = tree_of(alloc, scratch, text)?;
    copy_of(alloc, &tree)
}

/// The tree of a text, whose words are the text's or the workspace's.
fn tree_of<'t>(alloc: Global, scratch: &'t mut Scratch, text: &'t str) -> Read<Tree<'t>>
    ensures { OrNoMemory refused_code (λ t. value_view t) result (there_or
        (option_and_then (λ p. if_last p.0 p.1) (value max_depth (tokens text.now)))) }
{
    let mut reader = Reader::new(text, scratch)?;
    let tree = match Tree::read(alloc, &mut reader, DEEPEST) {
        Ok(tree) => tree,
        Err(Error::OutOfMemory) => return Err(WordFault::NoMemory),
        Err(_) => return Err(WordFault::Refused(BAD)),
    };
    if reader.next().is_some() {
        return Err(WordFault::Refused(BAD));
    }
    Ok(tree)
}

/// The value that a tree stands for.
#[cycle(copies)]
fn copy_of(alloc: Global, tree: &Tree<'_>) -> Read<Value>
    ensures { OrNoMemory refused_code (λ v. view v) result
        (there_or (of_json (value_view tree.now))) }
{
    match tree {
        Tree::Null => Ok(Value::Null),
        Tree::Bool(flag) => Ok(Value::Bool(*flag)),
        Tree::Number(text) => Ok(Value::Number(number_of(text).ok_or(BAD)?)),
        Tree::String(text) => Ok(Value::String(String::from_str(alloc, text)?)),
        Tree::Array(items) => Ok(Value::Array(copies_of(alloc, items.as_slice())?)),
        Tree::Object(members) => Ok(Value::Object(map_of(alloc, members.as_slice())?)),
    }
}

/// The values that an array's items stand for.
#[cycle(copies)]
fn copies_of(alloc: Global, items: &[Tree<'_>]) -> Read<Vec<Value>>
    ensures { OrNoMemory refused_code (λ values. items_view values.items) result
        (there_or (of_items (items_of_tree items.now))) }
{
    let mut values = Vec::new(alloc);
    for item in items {
        values.push(copy_of(alloc, item)?)?;
    }
    Ok(values)
}

/// The members of an object by their keys.
#[cycle(copies)]
fn map_of(alloc: Global, members: &[(&str, Tree<'_>)]) -> Read<Map<String, Value>>
    ensures { OrNoMemory refused_code (λ map. members_view map.entries) result
        (there_or (of_members (members_of_tree members.now) no_members)) }
{
    let mut map = Map::new(alloc);
    for member in members {
        let key = String::from_str(alloc, member.0)?;
        let value = copy_of(alloc, &member.1)?;
        drop(map.insert(key, value)?);
    }
    Ok(map)
}

/// The number that a text writes, unless it is too large.
fn number_of(text: &str) -> Option<Number>
    ensures { option_map number_view result ≡ number_of text.now }
{
    let bytes = text.as_bytes();
    if has_minus(bytes) {
        number_below_zero(&Numeral::scan(&bytes[1..]))
    } else {
        number_from_zero(&Numeral::scan(bytes))
    }
}

/// Whether a minus stands first.
fn has_minus(bytes: &[u8]) -> bool
    ensures value { result ≡ (slice_index bytes.now 0 == 45) }
    ensures there { IsTrue result → 0 < length bytes.now }
{
    !bytes.is_empty() && bytes[0] == b'-'
}

/// The number of a numeral without a sign: a whole one where it fits.
fn number_from_zero(numeral: &Numeral<'_>) -> Option<Number>
    ensures { option_map number_view result ≡ number_from false numeral.now }
{
    match numeral.to_u64() {
        Some(number) => Some(Number::from(number)),
        None => Number::from_f64(numeral.to_float::<f64>(false)),
    }
}

/// The number of a numeral behind a minus: a whole one where it fits and is not zero.
fn number_below_zero(numeral: &Numeral<'_>) -> Option<Number>
    ensures { option_map number_view result ≡ number_from true numeral.now }
{
    match numeral.to_i64(true) {
        Some(number) if number < 0 => Some(Number::from(number)),
        _ => Number::from_f64(numeral.to_float::<f64>(true)),
    }
}
