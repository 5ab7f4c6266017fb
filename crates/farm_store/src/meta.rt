//! The table of the farm's numbers: its statements, and what its rows stand for.
ghost use Rattle.std.specs.Prelude.{◌≡◌, ◌↔◌, [], ◌∷◌, IfOk, IsTrue, OnOk};
ghost use Rattle.std.specs.Prelude.{MatchResult, false, ⊤};
ghost use Rattle.std.specs.List.{AllByRecursion, list_any};
ghost use Rattle.sqlite.specs.Held.{state};
ghost use Rattle.sqlite.specs.State.{HasCleanDisk};
ghost use Rattle.farm_types.specs.Small.{IsSmall};
ghost use Rattle.farm_store.specs.Columns.{TableRows, first_meta_rows, meta_row, meta_rows};
ghost use Rattle.farm_store.specs.Columns.{number_rows, is_version_row};
ghost use Rattle.farm_store.specs.Editions.{IsCollectorIn, meta_rows_in};
ghost use Rattle.farm_store.specs.Edits.{ChangesTables, GoesOn, StaysOpen};
ghost use Rattle.farm_store.specs.Holds.{IsInside, ReadsOnly, StandsWith};
ghost use Rattle.farm_store.specs.Places.{of_meta, put_at};
ghost use Rattle.farm_store.specs.Reading.{IsVersion, IsVersionFault, ReadsAs};
ghost use Rattle.farm_store.specs.Schema.{TableColumns, meta_table};
ghost use Rattle.farm_store.specs.Stored.{IsWide};
ghost use Rattle.farm_store.specs.Versions.{ShowsNumbers};

use crate::edition::Edition;
use crate::fault::StoreFault;
use crate::queries::rows::{BAD, number_at, text_at};
use crate::schema::{FIRST_SCHEMA, SCHEMA};
use crate::tables::{are_columns, is_keyed};
use crate::upserts::{number, text};
use farm_types::{MetaRow, Refusal};
use sqlite::{Alter, Connection, Error, Row, Transaction};
use sqlite_schema::schema::Table;

/// Its columns, in this order, and what `statement` makes of them.
macro_rules! columns {
    ($statement:ident) => {
        crate::statements::$statement!("meta" ["name"]
            "name" "TEXT", "value" "INTEGER")
    };
}

pub(crate) const MAKE: &str = columns!(create);

const READ: &str = columns!(select);

const PUT: &str = columns!(write_over);

/// Writes the four numbers over those that are there, where they are others: one statement, which
/// reads the table once.
const CHANGE: &str = "UPDATE meta SET value = CASE name WHEN 'clock' THEN ?1 \
    WHEN 'collector' THEN ?2 WHEN 'count' THEN ?3 ELSE ?4 END WHERE value <> CASE name \
    WHEN 'clock' THEN ?1 WHEN 'collector' THEN ?2 WHEN 'count' THEN ?3 \
    WHEN 'next' THEN ?4 ELSE value END";

/// Whether a table is this one.
pub(crate) fn is_numbers(table: &Table) -> bool
    ensures { IsTrue result ↔ (table.now ≡ record meta_table { tree = 8 }) }
{
    is_keyed(table, "meta", 8, &[1]) && are_columns(table.columns.as_slice(), &columns!(kinds))
}

/// Puts a number into the row with its name, or adds it.
pub(crate) fn put_number<S: Alter>(
    tx: &mut Transaction<'_, S>,
    name: &str,
    value: u64,
) -> Result<(), Error>
    requires small { IsSmall value }
    ensures goes_on { GoesOn S.Store tx.old tx.new }
    ensures put { ChangesTables result (state S.Store tx.old.conn.now)
        (state S.Store tx.new.conn.now) (λ T. put_at of_meta T (meta_row name.now value ∷ [])) }
    ensures stays_open { StaysOpen result (state S.Store tx.old.conn.now)
        (state S.Store tx.new.conn.now) }
{
    tx.execute(PUT, &[text(name), number(value)])?;
    Ok(())
}

/// Changes the numbers of a table that has them and this edition's version.
pub(crate) fn change_numbers<S: Alter>(
    tx: &mut Transaction<'_, S>,
    numbers: MetaRow,
) -> Result<(), Error>
    requires clock { IsSmall numbers.clock }
    requires collector { IsSmall numbers.collector }
    requires count { IsSmall numbers.count }
    requires next { IsSmall numbers.next }
    ensures goes_on { GoesOn S.Store tx.old tx.new }
    ensures put { HasCleanDisk (state S.Store tx.new.conn.now)
        → OnOk result ((T : TableRows) (old : MetaRow) → IsInside (state S.Store tx.old.conn.now) T
        → T.meta ≡ meta_rows old
        → IsInside (state S.Store tx.new.conn.now) (put_at of_meta T (number_rows numbers))) }
    ensures stays_open { StaysOpen result (state S.Store tx.old.conn.now)
        (state S.Store tx.new.conn.now) }
{
    let values = [
        number(numbers.clock),
        number(numbers.collector),
        number(numbers.count),
        number(numbers.next),
    ];
    tx.execute(CHANGE, &values)?;
    Ok(())
}

/// The number of the row with that name.
fn number_of(row: &Row, name: &str) -> Result<u64, Refusal>
    ensures { IsWide of_meta.width row.now
        → ReadsAs result (λ _. ⊤) (λ value. meta_row name.now value) row.now }
{
    if text_at(row, 0)? == name.as_bytes() {
        number_at(row, 1)
    } else {
        Err(BAD)
    }
}

/// The farm's numbers in the first edition, where their four rows are all that there is: no group
/// collects.
fn first_numbers_of(rows: &[Row]) -> Result<MetaRow, Refusal>
    ensures read { AllByRecursion (IsWide of_meta.width) rows.now
        → ReadsAs result (λ m. m.collector ≡ 0) first_meta_rows rows.now }
    ensures none { IfOk result (λ m. m.collector ≡ 0) }
{
    let [clock, count, next, schema] = rows else {
        return Err(BAD);
    };
    let numbers = MetaRow {
        clock: number_of(clock, "clock")?,
        collector: 0,
        count: number_of(count, "count")?,
        next: number_of(next, "next")?,
    };
    if number_of(schema, "schema")? == FIRST_SCHEMA {
        Ok(numbers)
    } else {
        Err(BAD)
    }
}

/// The farm's numbers, where their five rows are all that there is.
fn second_numbers_of(rows: &[Row]) -> Result<MetaRow, Refusal>
    ensures { AllByRecursion (IsWide of_meta.width) rows.now
        → ReadsAs result (λ _. ⊤) meta_rows rows.now }
{
    let [clock, collector, count, next, schema] = rows else {
        return Err(BAD);
    };
    let numbers = MetaRow {
        clock: number_of(clock, "clock")?,
        collector: number_of(collector, "collector")?,
        count: number_of(count, "count")?,
        next: number_of(next, "next")?,
    };
    if number_of(schema, "schema")? == SCHEMA {
        Ok(numbers)
    } else {
        Err(BAD)
    }
}

/// The farm's numbers in an edition.
pub(crate) fn numbers_of(rows: &[Row], edition: Edition) -> Result<MetaRow, Refusal>
    ensures read { AllByRecursion (IsWide of_meta.width) rows.now
        → ReadsAs result (λ m. IsCollectorIn edition m.collector) (meta_rows_in edition) rows.now }
    ensures collector { IfOk result (λ m. IsCollectorIn edition m.collector) }
{
    match edition {
        Edition::First => first_numbers_of(rows),
        Edition::Second => second_numbers_of(rows),
    }
}

/// Whether a row has this version of the tables.
fn is_version(row: &Row, version: u64) -> bool
    ensures { result ≡ is_version_row version row.now }
{
    text_at(row, 0).is_ok_and(|text| text == "schema".as_bytes())
        && number_at(row, 1).is_ok_and(|number| number == version)
}

/// Whether one of the rows has this version of the tables.
fn have_version(rows: &[Row], version: u64) -> bool
    ensures { result ≡ list_any (is_version_row version) rows.now }
{
    rows.iter().any(|row| is_version(row, version))
}

/// Refuses rows that have the other edition's version, and those that don't have this one's.
pub(crate) fn look_at_schema(rows: &[Row], edition: Edition) -> Result<(), StoreFault>
    ensures { MatchResult result (λ _. IsVersion edition rows.now)
        (λ fault. IsVersionFault edition fault rows.now) }
{
    let (own, other, refusal) = edition.versions();
    if have_version(rows, other) {
        return Err(refusal);
    }
    let is_known = have_version(rows, own);
    is_known.then_some(()).ok_or(StoreFault::BadStore)
}

/// All rows of the table.
pub(crate) fn meta_rows<S: Alter>(conn: &mut Connection<S>) -> Result<Vec<Row>, Error>
    requires autocommit { conn.old.in_transaction ≡ false }
    ensures only { ReadsOnly (state S.Store conn.old) (state S.Store conn.new) }
    ensures rows { HasCleanDisk (state S.Store conn.new)
        → IfOk result (λ rows. (columns : TableColumns) (T : TableRows)
        → StandsWith columns (state S.Store conn.old) T
        → (rows.items ≡ T.meta) × AllByRecursion (IsWide of_meta.width) rows.items) }
    ensures opened { HasCleanDisk (state S.Store conn.new)
        → OnOk result (IsTrue (state S.Store conn.old).is_open) }
    ensures shown { HasCleanDisk (state S.Store conn.new)
        → IfOk result (λ rows. ShowsNumbers (state S.Store conn.old).now rows.items) }
{
    let rows = conn.query_all(READ, &[])?;
    Ok(rows)
}
