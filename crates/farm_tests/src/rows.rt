//! Rows that are made by hand.
ghost use Rattle.std.specs.Prelude.{◌≡◌, IfOk};

use farm_types::{
    BoardRow, Check, Health, JobRow, JobState, MetaRow, Name, Priority, Refusal, Rows, Tags,
    TypeRow, Want, WordFault,
};
use std::alloc::Global;

pub(crate) fn name(text: &str) -> Result<Name, Refusal> {
    Name::parse(text.as_bytes())
}

/// Tags of their canonical text.
pub(crate) fn tags(alloc: Global, text: &str) -> Result<Tags, WordFault> {
    Tags::parse(alloc, text.as_bytes())
}

/// A device type.
pub(crate) fn type_row(called: &str, check: Check) -> Result<TypeRow, Refusal> {
    let name = name(called)?;
    Ok(TypeRow { name, check })
}

/// A Good board of type `bbb` that nobody holds.
pub(crate) fn board(alloc: Global, called: &str, texts: &str) -> Result<BoardRow, WordFault> {
    let name = name(called)?;
    let kind = Name::parse(b"bbb")?;
    let tags = tags(alloc, texts)?;
    let mut row = BoardRow::new(name, kind, tags);
    row.health = Health::Good;
    Ok(row)
}

/// A want of type `bbb`.
pub(crate) fn want(alloc: Global, texts: &str) -> Result<Want, WordFault> {
    let kind = Some(name("bbb")?);
    let tags = tags(alloc, texts)?;
    Ok(Want { kind, tags })
}

/// An ordinary job of ann's for any board of type `bbb`.
pub(crate) fn job(
    alloc: Global,
    number: u64,
    group: u64,
    priority: Priority,
    state: JobState,
) -> Result<JobRow, WordFault>
    ensures number { IfOk result (λ row. row.number ≡ number) }
    ensures group { IfOk result (λ row. row.group ≡ group) }
{
    let owner = name("ann")?;
    let want = want(alloc, "")?;
    let mut row = JobRow::new(alloc, number, group, owner, priority, want);
    row.state = state;
    Ok(row)
}

/// A farm without rows.
pub(crate) fn no_rows(alloc: Global, next: u64) -> Rows {
    let meta = MetaRow {
        clock: 20,
        collector: 0,
        count: 0,
        next,
    };
    Rows {
        types: Vec::new(alloc),
        boards: Vec::new(alloc),
        jobs: Vec::new(alloc),
        reservations: Vec::new(alloc),
        kept: Vec::new(alloc),
        meta,
    }
}
