//! The rows of the tables, read.
pub(crate) mod rows;

ghost use Rattle.std.specs.Prelude.{◌≡◌, ◌≢◌, false, Err, IfErr, IfOk, IsTrue, OnOk};
ghost use Rattle.sqlite.specs.Held.{state};
ghost use Rattle.sqlite.specs.State.{HasCleanDisk};
ghost use Rattle.farm_store.specs.Columns.{TableRows};
ghost use Rattle.farm_store.specs.Editions.{IsCollectorIn, meta_rows_in, table_columns_in, version_fault};
ghost use Rattle.farm_store.specs.Holds.{ReadsOnly};
ghost use Rattle.farm_store.specs.Reading.{ReadsEdition, ReadsFarm, ReadsFirst, IsNoVersionFault};
ghost use Rattle.farm_store.specs.Reading.{StandsIn};
ghost use Rattle.farm_store.specs.Schema.{farm_schema, schema_with};
ghost use Rattle.farm_store.specs.declared.edition.Edition.TheVariants.{First, Second};

use crate::edition::Edition;
use crate::fault::StoreFault;
use crate::meta::{look_at_schema, meta_rows, numbers_of};
use crate::queries::rows::read;
use crate::tables::is_farm_schema;
use farm_types::{MOST_JOBS, MOST_REPLIES, MOST_RESERVATIONS, MetaRow, Rows};
use sqlite::{Alter, Connection};
use std::alloc::Global;

/// How many rows are expected of a table, where so many were numbered and it may have so many.
fn expected(numbered: u64, most: usize) -> usize {
    usize::try_from(numbered).unwrap_or(most).min(most)
}

/// Each table but that of the numbers by its query.
fn read_tables<S: Alter>(
    alloc: Global,
    conn: &mut Connection<S>,
    meta: MetaRow,
    edition: Edition,
) -> Result<Rows, StoreFault>
    requires autocommit { conn.old.in_transaction ≡ false }
    ensures only { ReadsOnly (state S.Store conn.old) (state S.Store conn.new) }
    ensures read { HasCleanDisk (state S.Store conn.new) → (T : TableRows)
        → StandsIn edition (state S.Store conn.old) T → IsCollectorIn edition meta.collector
        → T.meta ≡ meta_rows_in edition meta → ReadsFarm edition result T }
    ensures numbers { IfOk result (λ rows. rows.meta ≡ meta) }
    ensures fault { IfErr result IsNoVersionFault }
{
    Ok(Rows {
        types: read(alloc, conn, edition, 0)?,
        boards: read(alloc, conn, edition, 0)?,
        jobs: read(alloc, conn, edition, expected(meta.next, MOST_JOBS))?,
        reservations: read(alloc, conn, edition, expected(meta.next, MOST_RESERVATIONS))?,
        kept: read(alloc, conn, edition, expected(meta.count, MOST_REPLIES))?,
        meta,
    })
}

/// `read_edition`, whatever other columns, tables, indexes and views the store has: each table by
/// its query, that of the numbers first, whose version is looked at before all else.
fn read_any<S: Alter>(
    alloc: Global,
    conn: &mut Connection<S>,
    edition: Edition,
) -> Result<Rows, StoreFault>
    requires autocommit { conn.old.in_transaction ≡ false }
    ensures only { ReadsOnly (state S.Store conn.old) (state S.Store conn.new) }
    ensures reads { HasCleanDisk (state S.Store conn.new)
        → ReadsEdition edition result (state S.Store conn.old) }
    ensures opened { HasCleanDisk (state S.Store conn.new)
        → OnOk result (IsTrue (state S.Store conn.old).is_open) }
    ensures collector { IfOk result (λ rows. IsCollectorIn edition rows.meta.collector) }
    ensures fault { result ≢ Err (version_fault edition) }
{
    let numbers = meta_rows(conn)?;
    look_at_schema(&numbers, edition)?;
    let meta = numbers_of(&numbers, edition)?;
    read_tables(alloc, conn, meta, edition)
}

/// Reads the rows of all tables of an edition, and writes nothing.
fn read_edition<S: Alter>(
    alloc: Global,
    conn: &mut Connection<S>,
    edition: Edition,
) -> Result<Rows, StoreFault>
    requires autocommit { conn.old.in_transaction ≡ false }
    ensures only { ReadsOnly (state S.Store conn.old) (state S.Store conn.new) }
    ensures ours { OnOk result ((state S.Store conn.old).now.schema ≡ farm_schema) }
    ensures reads { HasCleanDisk (state S.Store conn.new)
        → ReadsEdition edition result (state S.Store conn.old) }
    ensures collector { IfOk result (λ rows. IsCollectorIn edition rows.meta.collector) }
    ensures fault { result ≢ Err (version_fault edition) }
{
    let is_ours = is_farm_schema(conn.schema());
    let rows = read_any(alloc, conn, edition)?;
    is_ours.then_some(rows).ok_or(StoreFault::BadStore)
}

/// Reads the rows of all tables, in order of their keys, and writes nothing. The version that `meta`
/// has is looked at before anything else, whatever else the store has: tables of the first edition
/// are refused as old, and those of an unknown one, or of none, as bad.
///
/// Refused as bad too where a column can't be read: where it is of another kind, a name or a key is
/// no word, tags are in no canonical text, a code stands for nothing, a number is below 0; where
/// the farm's numbers are not exactly its clock, collector, count and next number, with these
/// tables' version; and where the store has another column, table, index or view than the farm's.
/// Where a table is not there, a call of the store was refused. Whether the rows are those of a
/// sound farm is not looked at.
///
/// It reads each row once, and keeps one raw row at a time.
pub fn load<S: Alter>(alloc: Global, conn: &mut Connection<S>) -> Result<Rows, StoreFault>
    requires autocommit { conn.old.in_transaction ≡ false }
    ensures only { ReadsOnly (state S.Store conn.old) (state S.Store conn.new) }
    ensures reads { HasCleanDisk (state S.Store conn.new)
        → ReadsEdition Second result (state S.Store conn.old) }
    ensures ours { OnOk result ((state S.Store conn.old).now.schema ≡ farm_schema) }
    ensures never { result ≢ Err StoreFault.NewSchema }
{
    read_edition(alloc, conn, Edition::Second)
}

/// Reads the rows of all tables of the first edition, as `load` reads those of this one: each row
/// once, and nothing is written. The version in `meta` is looked at before anything else,
/// whatever else the store has: tables of this edition are refused as new, and those of an unknown
/// one, or of none, as bad.
///
/// Refused as bad too where `load` would refuse a column or a table of its own, where a job's state
/// has a number that the first edition lacked, and where the farm's numbers are not exactly its
/// clock, count and next number, with that edition's version. No group collects in what is read.
/// Whether the rows are those of a sound farm is not looked at.
pub fn load_first<S: Alter>(alloc: Global, conn: &mut Connection<S>) -> Result<Rows, StoreFault>
    requires autocommit { conn.old.in_transaction ≡ false }
    ensures only { ReadsOnly (state S.Store conn.old) (state S.Store conn.new) }
    ensures reads { HasCleanDisk (state S.Store conn.new)
        → ReadsFirst result (state S.Store conn.old) }
    ensures none { IfOk result (λ rows. rows.meta.collector ≡ 0) }
    ensures ours { OnOk result ((state S.Store conn.old).now.schema
        ≡ schema_with (table_columns_in First)) }
    ensures never { result ≢ Err StoreFault.OldSchema }
{
    read_edition(alloc, conn, Edition::First)
}
