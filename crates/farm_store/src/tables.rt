//! Whether a store's tables are the farm's.
ghost use Rattle.std.specs.Prelude.{◌≡◌, ◌↔◌, ◌∷◌, [], IsTrue, true, map};
ghost use Rattle.farm_store.specs.Schema.{IsBare, farm_indexes, farm_schema, key_index, keyed_table};
ghost use Rattle.farm_store.specs.Schema.{no_schema, numbered_table, strict_column};

use crate::boards::is_boards;
use crate::jobs::is_jobs;
use crate::kept::is_replies;
use crate::meta::is_numbers;
use crate::reservations::is_reservations;
use crate::types::is_types;
use sqlite_items::Items;
use sqlite_schema::schema::{Column, Index, Kind, Schema, Table};
use sqlite_value::keys::Collation;
use sqlite_value::value::Value;

/// Whether a column of a STRICT table is NOT NULL, and has no default.
fn is_column(column: &Column, name: &str, kind: Kind) -> bool
    ensures { IsTrue result ↔ (column.now ≡ strict_column name.now kind) }
{
    column.name.as_slice() == name.as_bytes()
        && column.kind == kind
        && column.is_strict
        && column.not_null
        && matches!(column.default, Value::Null)
        && column.collation == Collation::Binary
}

/// Whether these are the columns, in this order.
pub(crate) fn are_columns(columns: &[Column], wanted: &[(&str, Kind)]) -> bool
    ensures { IsTrue result ↔ (columns.now ≡ map (λ w. strict_column w.0.now w.1) wanted.now) }
{
    match (columns, wanted) {
        ([], []) => true,
        ([column, columns @ ..], [(name, kind), wanted @ ..]) => {
            is_column(column, name, *kind) && are_columns(columns, wanted)
        }
        _ => false,
    }
}

/// Whether a table has nothing beside its columns and its keys.
fn is_bare(table: &Table) -> bool
    ensures { IsTrue result ↔ IsBare table.now }
{
    table.checks.roots.is_empty()
        && table.references.is_empty()
        && table.computed.is_empty()
        && table.stamps.places.is_empty()
        && table.stamps.terms.roots.is_empty()
        && table.stamps.formats.is_empty()
        && !table.is_counted
}

fn has_places(key: &Items<usize>, places: &[usize]) -> bool
    ensures { IsTrue result ↔ (key.now ≡ places.now) }
{
    key.as_slice() == places
}

/// Whether a table has one UNIQUE, over these places.
fn is_unique_over(table: &Table, places: &[usize]) -> bool
    ensures { IsTrue result ↔ (table.now.uniques ≡ places.now ∷ []) }
{
    matches!(table.uniques.as_slice(), [unique] if has_places(unique, places))
}

/// Whether a table has one UNIQUE, in plain order.
fn is_ordered_plainly(table: &Table) -> bool
    ensures { IsTrue result ↔ (table.now.orders ≡ record { digits = 0 } ∷ []) }
{
    matches!(table.orders.as_slice(), [order] if order.digits == 0)
}

/// Whether a table, whatever its columns, has this name and this tree, and is keyed by the columns
/// at these places.
pub(crate) fn is_keyed(table: &Table, name: &str, tree: u32, places: &[usize]) -> bool
    ensures { IsTrue result
        ↔ (table.now ≡ record (keyed_table name.now places.now table.now.columns) { tree = tree }) }
{
    table.name.as_slice() == name.as_bytes()
        && table.tree == tree
        && table.key.is_none()
        && table.primary.as_slice() == places
        && is_unique_over(table, places)
        && is_ordered_plainly(table)
        && is_bare(table)
}

/// Whether a table, whatever its columns, has this name and this tree, and its first column is its
/// rowid.
pub(crate) fn is_numbered(table: &Table, name: &str, tree: u32) -> bool
    ensures { IsTrue result
        ↔ (table.now ≡ record (numbered_table name.now table.now.columns) { tree = tree }) }
{
    table.name.as_slice() == name.as_bytes()
        && table.tree == tree
        && table.key == Some(0)
        && table.primary.as_slice() == [0].as_slice()
        && table.uniques.is_empty()
        && table.orders.is_empty()
        && is_bare(table)
}

/// Whether an index is the one that goes with a table's key.
fn is_key(index: &Index, name: &str, table: u32, places: &[usize]) -> bool
    ensures { IsTrue result ↔ (index.now ≡ key_index name.now table places.now) }
{
    index.name.as_slice() == name.as_bytes()
        && index.table == table
        && u64::from(index.tree) == u64::from(table) + 1
        && index.columns.as_slice() == places
        && index.order.digits == 0
        && index.is_unique
}

fn are_tables(tables: &[Table]) -> bool
    ensures { IsTrue result ↔ (tables.now ≡ farm_schema.tables) }
{
    let [types, boards, jobs, reservations, replies, numbers] = tables else {
        return false;
    };
    is_types(types)
        && is_boards(boards)
        && is_jobs(jobs)
        && is_reservations(reservations)
        && is_replies(replies)
        && is_numbers(numbers)
}

/// Whether these are such indexes, in this order.
fn are_keys(indexes: &[Index], wanted: &[(&str, u32, &[usize])]) -> bool
    ensures { IsTrue result
        ↔ (indexes.now ≡ map (λ w. key_index w.0.now w.1 w.2.now) wanted.now) }
{
    match (indexes, wanted) {
        ([], []) => true,
        ([index, indexes @ ..], [(name, table, places), wanted @ ..]) => {
            is_key(index, name, *table, places) && are_keys(indexes, wanted)
        }
        _ => false,
    }
}

fn are_indexes(indexes: &[Index]) -> bool
    ensures { IsTrue result ↔ (indexes.now ≡ farm_indexes) }
{
    let wanted: [(&str, u32, &[usize]); 4] = [
        ("sqlite_autoindex_types_1", 0, &[1]),
        ("sqlite_autoindex_boards_1", 2, &[1]),
        ("sqlite_autoindex_kept_1", 6, &[1, 2]),
        ("sqlite_autoindex_meta_1", 8, &[1]),
    ];
    are_keys(indexes, &wanted)
}

#[tactic(auto, using(crate::proofs::Ours::schema_is))]
/// Whether the tables are the farm's six and no others, with no index or view beside those of their
/// keys.
pub(crate) fn is_farm_schema(schema: &Schema) -> bool
    ensures { IsTrue result ↔ (schema.now ≡ farm_schema) }
{
    are_tables(schema.tables.as_slice())
        && are_indexes(schema.indexes.as_slice())
        && schema.views.is_empty()
}

/// Whether there is no table, index or view.
pub(crate) fn is_no_schema(schema: &Schema) -> bool
    ensures { IsTrue result ↔ (schema.now ≡ no_schema) }
{
    schema.tables.is_empty() && schema.indexes.is_empty() && schema.views.is_empty()
}
