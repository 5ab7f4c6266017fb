//! The table of types: its statements, and what its rows stand for.
ghost use Rattle.std.specs.Prelude.{◌≡◌, ◌↔◌, IsTrue, MatchOption};
ghost use Rattle.sqlite.specs.Values.{bound};
ghost use Rattle.farm_types.specs.Small.{IsSmallType, every_of};
ghost use Rattle.farm_types.specs.declared.rows.Check.{Check};
ghost use Rattle.farm_store.specs.Columns.{type_columns, unit_code};
ghost use Rattle.farm_store.specs.Schema.{types_table};

use crate::edition::Edition;
use crate::queries::rows::{BAD, Reader, number_at, word_at};
use crate::stored::Stored;
use crate::tables::{are_columns, is_keyed};
use crate::upserts::{number, word};
use farm_types::{Check, TypeRow, WordFault};
use sqlite::types::ValueRef;
use sqlite::{Alter, Error, Row, Transaction};
use sqlite_schema::schema::Table;
use std::alloc::{AllocError, Global};

/// Its columns, in this order, and what `statement` makes of them.
macro_rules! columns {
    ($statement:ident) => {
        crate::statements::$statement!("types" ["name"]
            "name" "TEXT", "unit" "INTEGER", "every" "INTEGER")
    };
}

pub(crate) const MAKE: &str = columns!(create);

const READ: &str = columns!(select);

const PUT: &str = columns!(replace);

/// Whether a table is this one.
pub(crate) fn is_types(table: &Table) -> bool
    ensures { IsTrue result ↔ (table.now ≡ record types_table { tree = 0 }) }
{
    is_keyed(table, "types", 0, &[1]) && are_columns(table.columns.as_slice(), &columns!(kinds))
}

/// The unit of a check's frequency, and how many of it.
fn unit_and_every(check: Check) -> (u64, u64)
    ensures { result ≡ (unit_code check, every_of check) }
{
    match check {
        Check::Never => (0, 0),
        Check::Hours(n) => (1, n),
        Check::Jobs(n) => (2, n),
    }
}

/// The frequency with that unit and that number.
fn check_of(unit: u64, every: u64) -> Option<Check>
    ensures { MatchOption result ((check : Check)
        → ¬ ((unit ≡ unit_code check) × (every ≡ every_of check)))
        (λ check. (unit ≡ unit_code check) × (every ≡ every_of check)) }
{
    match (unit, every) {
        (0, 0) => Some(Check::Never),
        (1, hours) => Some(Check::Hours(hours)),
        (2, jobs) => Some(Check::Jobs(jobs)),
        _ => None,
    }
}

/// Its columns.
#[tactic(auto, using(crate::proofs::SmallCodes::unit_is_small))]
fn type_columns(row: &TypeRow) -> [ValueRef<'_>; 3]
    requires small { IsSmallType row.now }
    ensures { bound result ≡ type_columns row.now }
{
    let (unit, every) = unit_and_every(row.check);
    [word(&row.name), number(unit), number(every)]
}

impl Stored for TypeRow {
    ghost use Rattle.std.specs.Prelude.{refl, []};
    ghost use Rattle.farm_types.specs.Small.{IsSmallType};
    ghost use Rattle.farm_store.specs.Columns.{type_columns};
    ghost use Rattle.farm_store.specs.Editions.{table_columns_in};
    ghost use Rattle.farm_store.specs.Places.{of_types_with};
    ghost use Rattle.farm_store.specs.Readable.{IsReadableType};

    ghost place = { λ edition. of_types_with (table_columns_in edition).types };

    ghost columns = { λ _. type_columns };

    ghost tags_text_of = { λ _. [] };

    ghost IsGood = { λ _. IsReadableType };

    ghost IsSmall = { IsSmallType };

    fn query(_edition: Edition) -> &'static str {
        READ
    }

    fn of(row: &Row, _reader: &mut Reader) -> Result<TypeRow, WordFault> {
        let check = check_of(number_at(row, 1)?, number_at(row, 2)?).ok_or(BAD)?;
        let name = word_at(row, 0)?;
        Ok(TypeRow { name, check })
    }

    fn tags_text(&self, alloc: Global) -> Result<String, AllocError> {
        Ok(String::new(alloc))
    }

    fn put<S: Alter>(&self, _tags: &str, tx: &mut Transaction<'_, S>) -> Result<usize, Error> {
        tx.execute(PUT, &type_columns(self))
    }

    ghost wide = { λ _ x. refl };

    ghost is_place = { λ _. record { own = λ T rows. refl; over = λ T rows more. refl; same = λ T. refl } };
}
