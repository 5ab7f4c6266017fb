//! Rows put into the tables.
ghost use Rattle.std.specs.Prelude.{◌≡◌, ◌⊎◌, false, IsTrue, Err, IfErr, IfOk, OnOk, map, pos};
ghost use Rattle.std.specs.Prelude.{unwrap_or, []};
ghost use Rattle.std.specs.List.{AllByRecursion};
ghost use Rattle.sqlite.specs.Held.{state};
ghost use Rattle.sqlite.specs.State.{HasCleanDisk};
ghost use Rattle.sqlite.specs.declared.types.Value.TheVariants.{Int, Text};
ghost use Rattle.sqlite_value.specs.Value.{owned};
ghost use Rattle.farm_types.specs.Farm.{Farm, put_rows};
ghost use Rattle.farm_types.specs.Small.{AreSmall, IsSmall};
ghost use Rattle.farm_store.specs.Columns.{rows_of};
ghost use Rattle.farm_store.specs.Edits.{ChangesTables, GoesOn};
ghost use Rattle.farm_store.specs.Holds.{IsInside, KeepsDoubt, Stands, LeavesEither};
ghost use Rattle.farm_store.specs.Places.{put_at};
ghost use Rattle.farm_store.specs.Texts.{untagged};
ghost use Rattle.farm_store.specs.declared.edition.Edition.{Edition};

use crate::fault::StoreFault;
use crate::meta::change_numbers;
use crate::stored::{Stored, Tagged};
use farm_types::{BoardRow, Changes, JobRow, KeptRow, ResRow, Rows, TypeRow, Word};
use sqlite::types::ValueRef;
use sqlite::{Alter, Connection, Error, Transaction};
use std::alloc::{AllocError, Global};

pub(crate) fn number<'a>(n: u64) -> ValueRef<'a>
    requires { IsSmall n }
    ensures { owned result ≡ Int (pos n) }
{
    ValueRef::Int(n as i64)
}

pub(crate) fn text(text: &str) -> ValueRef<'_>
    ensures { owned result ≡ Text text.now }
{
    ValueRef::Text(text.as_bytes())
}

pub(crate) fn word<const MOST: usize, const CODE: u16>(word: &Word<MOST, CODE>) -> ValueRef<'_>
    ensures { owned result ≡ Text word.now }
{
    text(word.as_str())
}

/// The empty text stands for no word.
pub(crate) fn word_if_any<const MOST: usize, const CODE: u16>(
    word: &Option<Word<MOST, CODE>>,
) -> ValueRef<'_>
    ensures { owned result ≡ Text (unwrap_or word.now []) }
{
    text(match word {
        Some(word) => word.as_str(),
        None => "",
    })
}

/// Puts each row, in this order.
fn put_rows<S: Alter, R: Stored>(
    tx: &mut Transaction<'_, S>,
    rows: &[Tagged<'_, R>],
) -> Result<(), Error>
    requires small { AllByRecursion R.IsSmall (untagged rows.now) }
    ensures goes_on { GoesOn S.Store tx.old tx.new }
    ensures put { ChangesTables result (state S.Store tx.old.conn.now)
        (state S.Store tx.new.conn.now)
        (λ T. put_at (R.place Edition.Second) T (map (R.columns Edition.Second) (untagged rows.now))) }
{
    for tagged in rows {
        tagged.row.put(tagged.text.as_str(), tx)?;
    }
    Ok(())
}

/// Each row beside the text of its tags.
fn tagged_rows<R: Stored>(alloc: Global, rows: &[R]) -> Result<Vec<Tagged<'_, R>>, AllocError>
    ensures { IfOk result (λ tagged. untagged tagged.items ≡ rows.now) }
{
    let mut tagged = Vec::new(alloc);
    for row in rows {
        let text = row.tags_text(alloc)?;
        tagged.push(Tagged { row, text })?;
    }
    Ok(tagged)
}

/// The rows of the tables, each beside the text of its tags.
#[derive(Drop)]
pub(crate) struct TaggedRows<'a> {
    rows: &'a Rows,
    types: Vec<Tagged<'a, TypeRow>>,
    boards: Vec<Tagged<'a, BoardRow>>,
    jobs: Vec<Tagged<'a, JobRow>>,
    reservations: Vec<Tagged<'a, ResRow>>,
    kept: Vec<Tagged<'a, KeptRow>>,
    ghost types_are: { untagged types.items ≡ rows.now.types.items },
    ghost boards_are: { untagged boards.items ≡ rows.now.boards.items },
    ghost jobs_are: { untagged jobs.items ≡ rows.now.jobs.items },
    ghost reservations_are: { untagged reservations.items ≡ rows.now.reservations.items },
    ghost kept_are: { untagged kept.items ≡ rows.now.kept.items },
}

impl<'a> TaggedRows<'a> {
    /// Makes the text of each row's tags.
    pub(crate) fn of(alloc: Global, rows: &'a Rows) -> Result<TaggedRows<'a>, AllocError>
        ensures { IfOk result (λ tagged. tagged.rows.now ≡ rows.now) }
    {
        Ok(TaggedRows {
            rows,
            types: tagged_rows(alloc, &rows.types)?,
            boards: tagged_rows(alloc, &rows.boards)?,
            jobs: tagged_rows(alloc, &rows.jobs)?,
            reservations: tagged_rows(alloc, &rows.reservations)?,
            kept: tagged_rows(alloc, &rows.kept)?,
        })
    }
}

/// Each row by its table's upsert, and the numbers that changed.
pub(crate) fn put_all<S: Alter>(
    tx: &mut Transaction<'_, S>,
    tagged: &TaggedRows<'_>,
) -> Result<(), Error>
    requires small { AreSmall tagged.now.rows.now }
    ensures goes_on { GoesOn S.Store tx.old tx.new }
    ensures put { HasCleanDisk (state S.Store tx.new.conn.now)
        → OnOk result ((F : Farm) → IsInside (state S.Store tx.old.conn.now) (rows_of F)
        → IsInside (state S.Store tx.new.conn.now) (rows_of (put_rows F tagged.now.rows.now))
        × IsTrue (state S.Store tx.new.conn.now).is_open) }
{
    put_rows(tx, &tagged.types)?;
    put_rows(tx, &tagged.boards)?;
    put_rows(tx, &tagged.jobs)?;
    put_rows(tx, &tagged.reservations)?;
    put_rows(tx, &tagged.kept)?;
    change_numbers(tx, tagged.rows.meta)
}

/// Puts the changed rows, each by its key, and the farm's four numbers in one transaction, whose
/// commit is the last call of the store. The texts of tags are made before the first call of the
/// store, so where memory is refused nothing has changed; where the store failed, a stop leaves the
/// tables as they were or with all the changes put.
///
/// It writes the rows of the changes, each by its key, reads those of the numbers, and writes the
/// ones that have another number. It reads no other row.
pub fn put<S: Alter>(
    alloc: Global,
    conn: &mut Connection<S>,
    changes: &Changes,
) -> Result<(), StoreFault>
    requires autocommit { conn.old.in_transaction ≡ false }
    requires small { AreSmall changes.now }
    ensures autocommit { conn.new.in_transaction ≡ false }
    ensures clean { KeepsDoubt (state S.Store conn.old) (state S.Store conn.new) }
    ensures ok { HasCleanDisk (state S.Store conn.new)
        → OnOk result ((F : Farm) → Stands (state S.Store conn.old) (rows_of F)
        → Stands (state S.Store conn.new) (rows_of (put_rows F changes.now))) }
    ensures stop { HasCleanDisk (state S.Store conn.new) → (F : Farm)
        → Stands (state S.Store conn.old) (rows_of F)
        → LeavesEither (state S.Store conn.new) (rows_of F) (rows_of (put_rows F changes.now)) }
    ensures memory { result ≡ Err StoreFault.NoMemory → conn.new ≡ conn.old }
    ensures fault { IfErr result (λ fault. (fault ≡ StoreFault.NoMemory)
        ⊎ (fault ≡ StoreFault.Store)) }
{
    let tagged = TaggedRows::of(alloc, changes)?;
    let mut tx = conn.transaction();
    put_all(&mut tx, &tagged)?;
    Ok(tx.commit()?)
}
