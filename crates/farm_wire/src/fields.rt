//! The JSON object of a body, and its members.
ghost use Rattle.std.specs.Prelude.{◌≡◌, map, IsTrue, IfOk};
ghost use Rattle.serde_json.specs.View.{view, items_view};
ghost use Rattle.farm_types.specs.Proper.{has_no_name_tag};
ghost use Rattle.farm_types.specs.Reads.{OrNoMemory, by_code, refused_code, viewed};
ghost use Rattle.farm_wire.specs.Fields.{text_in, name_in, texts_in, tags_from, tags_in};
ghost use Rattle.farm_wire.specs.Fields.{board_tags, object_in};

use crate::value::value_of;
use farm_types::{BAD_REQUEST, BAD_TAG, Name, Refusal, Tags, WordFault};
use json::Scratch;
use serde_json::Value;
use std::alloc::Global;

/// What reading a word gives.
pub(crate) type Read<T> = Result<T, WordFault>;

/// The refusal of a body that is not as it should be.
pub(crate) const BAD: Refusal = Refusal { code: BAD_REQUEST };

/// The object that a body spells; refused where the body is no JSON (RFC 8259), nests deeper than
/// 127 or is no object.
#[tactic(auto, unfolding(crate::specs::Fields::object_in))]
pub(crate) fn object_of(alloc: Global, scratch: &mut Scratch, body: &[u8]) -> Read<Value>
    ensures { OrNoMemory refused_code (λ v. view v) result (object_in body.now) }
{
    let Ok(text) = std::str::from_utf8(body) else {
        return Err(WordFault::Refused(BAD));
    };
    let value = value_of(alloc, scratch, text)?;
    if value.is_object() {
        Ok(value)
    } else {
        Err(WordFault::Refused(BAD))
    }
}

/// The text under a key, which must be there.
#[tactic(auto, unfolding(crate::specs::Fields::text_in))]
pub(crate) fn text_of<'v>(value: &'v Value, key: &str) -> Result<&'v str, Refusal>
    ensures { by_code (viewed (λ text. text.now) result) ≡ text_in key.now (view value.now) }
{
    value.get(key).and_then(Value::as_str).ok_or(BAD)
}

/// The name under a key, which must be there.
#[tactic(auto, unfolding(crate::specs::Fields::name_in))]
pub(crate) fn name_of(value: &Value, key: &str) -> Result<Name, Refusal>
    ensures { by_code result ≡ name_in key.now (view value.now) }
{
    Name::parse(text_of(value, key)?.as_bytes())
}

/// The texts of an array's items.
fn texts_of(alloc: Global, items: &[Value]) -> Read<Vec<&[u8]>>
    ensures { OrNoMemory refused_code (λ texts. map (λ text. text.now) texts.items) result
        (texts_in (items_view items.now)) }
{
    let mut texts = Vec::new(alloc);
    for item in items {
        let text = item.as_str().ok_or(BAD)?;
        texts.push(text.as_bytes())?;
    }
    Ok(texts)
}

/// The tags that a value spells, an array of texts.
#[tactic(auto, unfolding(crate::specs::Fields::tags_from))]
pub(crate) fn tags_from(alloc: Global, value: &Value) -> Read<Tags>
    ensures { OrNoMemory refused_code (λ tags. tags) result (tags_from (view value.now)) }
{
    let items = value.as_array().ok_or(BAD)?;
    let texts = texts_of(alloc, items.as_slice())?;
    Tags::among(alloc, texts.as_slice())
}

/// The tags under the key `tags`, which must be there.
#[tactic(auto, unfolding(crate::specs::Fields::tags_in))]
pub(crate) fn tags_of(alloc: Global, value: &Value) -> Read<Tags>
    ensures { OrNoMemory refused_code (λ tags. tags) result (tags_in (view value.now)) }
{
    tags_from(alloc, value.get("tags").ok_or(BAD)?)
}

/// The tags as a board's own, none with the key `name`.
pub(crate) fn board_tags(tags: Tags) -> Result<Tags, Refusal>
    ensures tags { by_code result ≡ board_tags tags }
    ensures own { IfOk result (λ tags. IsTrue (has_no_name_tag tags)) }
{
    let own = tags.has_no_name_tag().then_some(tags);
    own.ok_or(Refusal { code: BAD_TAG })
}
