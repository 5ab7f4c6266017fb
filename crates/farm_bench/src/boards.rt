//! The boards that are measured: 256 of four types, as those of the plain pass in bench/pass.c.
use farm_types::{BoardRow, Check, Health, Name, Tag, Tags, TypeRow, WordFault};
use std::alloc::Global;

/// The most boards that a farm can have.
pub const MOST: u64 = 256;

/// How many of a farm's boards have the rare tag: one of each type.
pub const RARE: u64 = 4;

/// A farm's types.
const KINDS: [&str; 4] = [
    "beaglebone-black-0",
    "beaglebone-black-1",
    "beaglebone-black-2",
    "beaglebone-black-3",
];

pub fn name(text: &str) -> Result<Name, WordFault> {
    Ok(Name::parse(text.as_bytes())?)
}

/// The tag of a claim: one that each board has, or the rare one.
pub fn asked_tags(alloc: Global, rare: bool) -> anyhow::Result<Tags> {
    let text = if rare { "jtag" } else { "hdmi" };
    let tag = Tag::parse(alloc, text.as_bytes())?;
    Ok(Tags::of(alloc, &[tag])?)
}

/// The name of the board at a place.
pub fn board_name(alloc: Global, place: u64) -> anyhow::Result<Name> {
    let text = format!(in alloc; "board-{place:03}")?;
    Ok(name(text.as_str())?)
}

/// The type of the board at a place, or of what wants a board: each in its turn.
pub fn kind_at(place: u64) -> &'static str {
    let turn = place % 4;
    KINDS.get(turn as usize).copied().unwrap_or("")
}

/// The types of a farm, without checks.
pub fn types(alloc: Global) -> anyhow::Result<Vec<TypeRow>> {
    let mut rows = Vec::new(alloc);
    for text in KINDS {
        let name = name(text)?;
        let check = Check::Never;
        rows.push(TypeRow { name, check })?;
    }
    Ok(rows)
}

/// The tags of the board at a place.
fn tags_at(alloc: Global, place: u64, rare: bool) -> anyhow::Result<Tags> {
    let rack = place % 8;
    let last = if rare { ",jtag" } else { "" };
    let text = format!(in alloc; "hdmi{last},rack={rack}")?;
    Ok(Tags::parse(alloc, text.as_bytes())?)
}

/// A free board.
fn board(alloc: Global, place: u64, rare: bool) -> anyhow::Result<BoardRow> {
    let name = board_name(alloc, place)?;
    let kind = self::name(kind_at(place))?;
    let tags = tags_at(alloc, place, rare)?;
    let mut row = BoardRow::new(name, kind, tags);
    row.health = Health::Good;
    Ok(row)
}

/// 256 boards in name order, of four types in turn, with two tags each. The last `rare` have the
/// rare tag besides, and the last `away` are in maintenance.
pub fn boards(alloc: Global, rare: u64, away: u64) -> anyhow::Result<Vec<BoardRow>> {
    let mut rows = Vec::new(alloc);
    for place in 0..MOST {
        let mut row = board(alloc, place, place.saturating_add(rare) >= MOST)?;
        if place.saturating_add(away) >= MOST {
            row.health = Health::Maintenance;
        }
        rows.push(row)?;
    }
    Ok(rows)
}
