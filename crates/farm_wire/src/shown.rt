//! What answers show as JSON: texts, numbers, rows, and objects by their members.
ghost use Rattle.std.specs.Prelude.{OnOk, map, decimal, ◌++◌, IsTrue};
ghost use Rattle.std.specs.List.{list_all};
ghost use Rattle.json.specs.Print.{quoted};
ghost use Rattle.serde_json.specs.Data.{array};
ghost use Rattle.serde_json.specs.View.{items_of};
ghost use Rattle.serde_json.specs.Written.{compact_text, comma_if};
ghost use Rattle.farm_types.specs.Called.{holder_text};
ghost use Rattle.farm_wire.specs.Shown.{listing, fields};
ghost use Rattle.farm_wire.specs.Parts.{member_of, part_data, has_plain_key};

use crate::text::{Sink, put_escaped, put_text, put_word};
use farm_types::{Holder, Name, Tag, Tags};
use itoa::Buffer;
use std::alloc::AllocError;

/// What answers show as JSON.
pub(crate) trait ToJson {
    ghost use Rattle.std.specs.Prelude.{OnOk};
    ghost use Rattle.serde_json.specs.Data.{Data};
    ghost use Rattle.serde_json.specs.Written.{compact_text};

    ghost json: { Self → Data };

    /// Puts its JSON, in one pass over its bytes.
    fn print<S: Sink>(&self, sink: &mut S) -> Result<(), AllocError>
        ensures { OnOk result (S.Takes sink.old sink.new (compact_text (json self.now))) };
}

/// Puts a number.
pub(crate) fn put_number<S: Sink>(sink: &mut S, number: u64) -> Result<(), AllocError>
    ensures { OnOk result (S.Takes sink.old sink.new (decimal number)) }
{
    let mut buffer = Buffer::new();
    sink.put(buffer.format(number).as_bytes())
}

/// Puts a comma where something stands before.
pub(crate) fn put_comma<S: Sink>(sink: &mut S, later: bool) -> Result<(), AllocError>
    ensures { OnOk result (S.Takes sink.old sink.new (comma_if later)) }
{
    if later { sink.put(b",") } else { Ok(()) }
}

/// Puts the array of all rows, in order. It costs one pass over them.
pub(crate) fn put_rows<S: Sink, R: ToJson>(sink: &mut S, rows: &[R]) -> Result<(), AllocError>
    ensures { OnOk result (S.Takes sink.old sink.new
        (compact_text (array (items_of (map R.json rows.now))))) }
{
    sink.put(b"[")?;
    let mut later = false;
    for row in rows {
        put_comma(sink, later)?;
        row.print(sink)?;
        later = true;
    }
    sink.put(b"]")
}

/// All rows under their key.
#[derive(Drop)]
pub(crate) struct Listing<'a, R> {
    pub key: &'a str,
    pub rows: &'a [R],
}

impl<'a, R: ToJson> ToJson for Listing<'a, R> {
    ghost use Rattle.std.specs.Prelude.{map};
    ghost use Rattle.farm_wire.specs.Shown.{listing};

    ghost json = { λ shown. listing shown.key.now (map R.json shown.rows.now) };

    fn print<S: Sink>(&self, sink: &mut S) -> Result<(), AllocError> {
        sink.put(b"{")?;
        put_text(sink, self.key)?;
        sink.put(b":")?;
        put_rows(sink, self.rows)?;
        sink.put(b"}")
    }
}

impl ToJson for Tag {
    ghost use Rattle.serde_json.specs.Data.{string};

    ghost json = { string };

    /// Puts a tag, whose bytes all show as they are.
    fn print<S: Sink>(&self, sink: &mut S) -> Result<(), AllocError> {
        put_word(sink, self.as_str())
    }
}

/// What stands behind a key.
#[derive(Clone, Copy)]
pub(crate) enum JsonValue<'a> {
    Number(u64),
    Text(&'a str),
    Name(&'a Name),
    /// A name; the empty text where there is none.
    NameOrNone(&'a Option<Name>),
    Holder(Holder),
    Tags(&'a Tags),
}

/// Puts a word and a number as one text.
fn put_numbered<S: Sink>(sink: &mut S, word: &str, number: u64) -> Result<(), AllocError>
    ensures { OnOk result (S.Takes sink.old sink.new (quoted (word.now ++ decimal number))) }
{
    let mut buffer = Buffer::new();
    sink.put(b"\"")?;
    put_escaped(sink, word.as_bytes())?;
    put_escaped(sink, buffer.format(number).as_bytes())?;
    sink.put(b"\"")
}

/// Puts who holds a board.
fn put_holder<S: Sink>(sink: &mut S, holder: Holder) -> Result<(), AllocError>
    ensures { OnOk result (S.Takes sink.old sink.new (quoted (holder_text holder))) }
{
    match holder {
        Holder::Nobody => put_text(sink, "none"),
        Holder::Job(number) => put_numbered(sink, "job ", number),
        Holder::Res(number) => put_numbered(sink, "reservation ", number),
    }
}

/// Puts a name, whose bytes all show as they are.
fn put_name<S: Sink>(sink: &mut S, name: &Name) -> Result<(), AllocError>
    ensures { OnOk result (S.Takes sink.old sink.new (quoted name.now)) }
{
    put_word(sink, name.as_str())
}

/// Puts what stands behind a key.
fn put_part<S: Sink>(sink: &mut S, part: JsonValue<'_>) -> Result<(), AllocError>
    ensures { OnOk result (S.Takes sink.old sink.new (compact_text (part_data part.entry))) }
{
    match part {
        JsonValue::Number(number) => put_number(sink, number),
        JsonValue::Text(text) => put_text(sink, text),
        JsonValue::Name(name) => put_name(sink, name),
        JsonValue::NameOrNone(Some(name)) => put_name(sink, name),
        JsonValue::NameOrNone(None) => put_word(sink, ""),
        JsonValue::Holder(holder) => put_holder(sink, holder),
        JsonValue::Tags(tags) => put_rows(sink, tags.items()),
    }
}

/// Puts an object with these members, whose keys stand in byte order and show as they are.
pub(crate) fn put_object<S: Sink>(
    sink: &mut S,
    members: &[(&str, JsonValue<'_>)],
) -> Result<(), AllocError>
    requires { IsTrue (list_all has_plain_key members.now) }
    ensures { OnOk result (S.Takes sink.old sink.new
        (compact_text (fields (map member_of members.now)))) }
{
    sink.put(b"{")?;
    let mut later = false;
    for member in members {
        put_comma(sink, later)?;
        put_word(sink, member.0)?;
        sink.put(b":")?;
        put_part(sink, member.1)?;
        later = true;
    }
    sink.put(b"}")
}
