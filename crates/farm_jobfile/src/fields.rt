//! The tree of a file, and the words in it.
ghost use Rattle.std.specs.Prelude.{◌≡◌, ◌≤◌, length, IfOk, map};
ghost use Rattle.toml.specs.View.{view, items_view, table_view};
ghost use Rattle.toml.specs.Data.{as_table};
ghost use Rattle.farm_types.specs.Reads.{OrNoMemory, viewed};
ghost use Rattle.farm_jobfile.specs.Reading.{text_fault, kind_or};
ghost use Rattle.farm_jobfile.specs.Document.{text_in, tree_in};
ghost use Rattle.farm_jobfile.specs.Fields.{name_or, name_from, name_in, texts_in, tags_from};
ghost use Rattle.farm_jobfile.specs.Fields.{tags_in, natural_of, natural_in};

use crate::fault::{Fault, FileFault, FileKind, FileResult, Reason};
use farm_types::{Name, Tags};
use std::alloc::Global;
use toml::{Table, Value};

/// The text of a file of at most `most` bytes, which must be UTF-8.
#[tactic(auto, unfolding(crate::specs::Document::text_in))]
pub(crate) fn text_of(file: FileKind, most: usize, bytes: &[u8]) -> Result<&str, Fault>
    ensures text { viewed (λ text. text.now) result ≡ text_in file most bytes.now }
    ensures short { IfOk result (λ text. length text.now ≤ most) }
{
    if bytes.len() > most {
        return Err(Fault::Bad(file, Reason::TooLong));
    }
    match std::str::from_utf8(bytes) {
        Ok(text) => Ok(text),
        Err(_) => Err(Fault::Bad(file, Reason::NotToml)),
    }
}

/// The tree of a text, a table. TOML 1.1 as the crate `toml` reads it: a whole number outside
/// `i64`, a float out of range and values nested beyond its limit are no TOML.
#[tactic(auto, unfolding(crate::specs::Document::tree_in))]
pub(crate) fn tree_of(alloc: Global, file: FileKind, text: &str) -> FileResult<Value>
    ensures { OrNoMemory text_fault (λ tree. view tree) result (tree_in file text.now) }
{
    match toml::table_from_str(alloc, text) {
        Ok(table) => Ok(Value::Table(table)),
        Err(e) if e.is_memory() => Err(FileFault::NoMemory),
        Err(_) => Err(file.bad(Reason::NotToml)),
    }
}

/// The table that a value is.
pub(crate) fn table_of<'v>(file: FileKind, value: &'v Value) -> Result<&'v Table, Fault>
    ensures { viewed (λ table. table_view table.now) result ≡ kind_or file
        (as_table (view value.now)) }
{
    value.as_table().ok_or(Fault::Bad(file, Reason::WrongKind))
}

/// The name that a text spells.
pub(crate) fn name_of(text: &str) -> Result<Name, Fault>
    ensures { result ≡ name_or text.now }
{
    Name::parse(text.as_bytes()).map_err(Fault::Word)
}

/// The name that a value spells, a text.
#[tactic(auto, unfolding(crate::specs::Fields::name_from))]
pub(crate) fn name_from(file: FileKind, value: &Value) -> Result<Name, Fault>
    ensures { result ≡ name_from file (view value.now) }
{
    let text = value.as_str();
    name_of(text.ok_or(Fault::Bad(file, Reason::WrongKind))?)
}

/// The name under a key, which must be there.
#[tactic(auto, unfolding(crate::specs::Fields::name_in))]
pub(crate) fn name_at(file: FileKind, value: &Value, key: &str) -> Result<Name, Fault>
    ensures { result ≡ name_in file key.now (view value.now) }
{
    let field = value.get(key);
    name_from(file, field.ok_or(Fault::Bad(file, Reason::Missing))?)
}

/// The texts of an array's items.
fn texts_of(alloc: Global, file: FileKind, items: &[Value]) -> FileResult<Vec<&[u8]>>
    ensures { OrNoMemory text_fault (λ texts. map (λ text. text.now) texts.items) result
        (texts_in file (items_view items.now)) }
{
    let mut texts = Vec::new(alloc);
    for item in items {
        let text = item.as_str().ok_or(file.bad(Reason::WrongKind))?;
        texts.push(text.as_bytes())?;
    }
    Ok(texts)
}

/// The tags that a value spells, an array of texts.
#[tactic(auto, unfolding(crate::specs::Fields::tags_from))]
pub(crate) fn tags_from(alloc: Global, file: FileKind, value: &Value) -> FileResult<Tags>
    ensures { OrNoMemory text_fault (λ tags. tags) result (tags_from file (view value.now)) }
{
    let items = value.as_array().ok_or(file.bad(Reason::WrongKind))?;
    let texts = texts_of(alloc, file, items.as_slice())?;
    Ok(Tags::among(alloc, texts.as_slice())?)
}

/// The tags under the key `tags`; absent means none.
#[tactic(auto, unfolding(crate::specs::Fields::tags_in))]
pub(crate) fn tags_at(alloc: Global, file: FileKind, value: &Value) -> FileResult<Tags>
    ensures { OrNoMemory text_fault (λ tags. tags) result (tags_in file (view value.now)) }
{
    let field = value.get("tags");
    field.map_or(Ok(Tags::none(alloc)), |field| tags_from(alloc, file, field))
}

/// The number, where it is not below zero.
pub(crate) fn natural(number: i64) -> Option<u64>
    ensures { result ≡ natural_of number }
{
    u64::try_from(number).ok()
}

/// The whole number under a key, which must be there, where it is not below zero.
#[tactic(auto, unfolding(crate::specs::Fields::natural_in))]
pub(crate) fn natural_at(file: FileKind, value: &Value, key: &str) -> Result<Option<u64>, Fault>
    ensures { result ≡ natural_in file key.now (view value.now) }
{
    let field = value.get(key).ok_or(Fault::Bad(file, Reason::Missing))?;
    let number = field.as_integer();
    Ok(natural(number.ok_or(Fault::Bad(file, Reason::WrongKind))?))
}
