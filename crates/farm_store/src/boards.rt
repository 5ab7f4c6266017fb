//! The table of boards: its statements, and what its rows stand for.
ghost use Rattle.std.specs.Prelude.{◌≡◌, ◌↔◌, IsTrue, MatchOption};
ghost use Rattle.sqlite.specs.Values.{bound};
ghost use Rattle.farm_types.specs.Small.{IsSmallBoard, held_by};
ghost use Rattle.farm_types.specs.Tags.{tags_text};
ghost use Rattle.farm_types.specs.declared.rows.Holder.{Holder};
ghost use Rattle.farm_store.specs.Columns.{board_columns, holder_of};
ghost use Rattle.farm_store.specs.Schema.{boards_table};

use crate::edition::Edition;
use crate::queries::rows::{BAD, Reader, number_at, tags_at, word_at};
use crate::stored::Stored;
use crate::tables::{are_columns, is_keyed};
use crate::upserts::{number, text, word};
use farm_types::{BoardRow, Health, Holder, State, WordFault};
use sqlite::types::ValueRef;
use sqlite::{Alter, Error, Row, Transaction};
use sqlite_schema::schema::Table;
use std::alloc::{AllocError, Global};

/// Its columns, in this order, and what `statement` makes of them.
macro_rules! columns {
    ($statement:ident) => {
        crate::statements::$statement!("boards" ["name"]
            "name" "TEXT", "kind" "TEXT", "tags" "TEXT", "health" "INTEGER", "state" "INTEGER",
            "holder" "INTEGER", "held_by" "INTEGER", "jobs_since" "INTEGER",
            "last_check" "INTEGER")
    };
}

pub(crate) const MAKE: &str = columns!(create);

const READ: &str = columns!(select);

const PUT: &str = columns!(write_over);

/// Whether a table is this one.
pub(crate) fn is_boards(table: &Table) -> bool
    ensures { IsTrue result ↔ (table.now ≡ record boards_table { tree = 2 }) }
{
    is_keyed(table, "boards", 2, &[1]) && are_columns(table.columns.as_slice(), &columns!(kinds))
}

/// What holds a board, and its number.
fn holder_and_number(holder: Holder) -> (u64, u64)
    ensures { result ≡ (holder_of holder, held_by holder) }
{
    match holder {
        Holder::Nobody => (0, 0),
        Holder::Job(n) => (1, n),
        Holder::Res(n) => (2, n),
    }
}

/// The holder of that kind, with that number.
fn holder_with(kind: u64, number: u64) -> Option<Holder>
    ensures { MatchOption result ((holder : Holder)
        → ¬ ((kind ≡ holder_of holder) × (number ≡ held_by holder)))
        (λ holder. (kind ≡ holder_of holder) × (number ≡ held_by holder)) }
{
    match (kind, number) {
        (0, 0) => Some(Holder::Nobody),
        (1, job) => Some(Holder::Job(job)),
        (2, reservation) => Some(Holder::Res(reservation)),
        _ => None,
    }
}

/// Its columns; `tags` is the text of the row's tags.
#[tactic(auto, using(crate::proofs::SmallCodes::health_is_small, crate::proofs::SmallCodes::state_is_small, crate::proofs::SmallCodes::holder_is_small))]
fn board_columns<'a>(row: &'a BoardRow, tags: &'a str) -> [ValueRef<'a>; 9]
    requires small { IsSmallBoard row.now }
    requires tags { tags.now ≡ tags_text row.now.tags }
    ensures { bound result ≡ board_columns row.now }
{
    let (holder, held_by) = holder_and_number(row.holder);
    [
        word(&row.name),
        word(&row.kind),
        text(tags),
        number(row.health.code()),
        number(row.state.code()),
        number(holder),
        number(held_by),
        number(row.jobs_since),
        number(row.last_check),
    ]
}

impl Stored for BoardRow {
    ghost use Rattle.std.specs.Prelude.{refl};
    ghost use Rattle.farm_types.specs.Small.{IsSmallBoard};
    ghost use Rattle.farm_types.specs.Tags.{tags_text};
    ghost use Rattle.farm_store.specs.Columns.{board_columns};
    ghost use Rattle.farm_store.specs.Editions.{table_columns_in};
    ghost use Rattle.farm_store.specs.Places.{of_boards_with};
    ghost use Rattle.farm_store.specs.Readable.{IsReadableBoard};

    ghost place = { λ edition. of_boards_with (table_columns_in edition).boards };

    ghost columns = { λ _. board_columns };

    ghost tags_text_of = { λ row. tags_text row.tags };

    ghost IsGood = { λ _. IsReadableBoard };

    ghost IsSmall = { IsSmallBoard };

    fn query(_edition: Edition) -> &'static str {
        READ
    }

    fn of(row: &Row, reader: &mut Reader) -> Result<BoardRow, WordFault> {
        Ok(BoardRow {
            health: Health::from_code(number_at(row, 3)?).ok_or(BAD)?,
            state: State::from_code(number_at(row, 4)?).ok_or(BAD)?,
            holder: holder_with(number_at(row, 5)?, number_at(row, 6)?).ok_or(BAD)?,
            jobs_since: number_at(row, 7)?,
            last_check: number_at(row, 8)?,
            name: word_at(row, 0)?,
            kind: word_at(row, 1)?,
            tags: tags_at(row, 2, reader)?,
        })
    }

    fn tags_text(&self, _alloc: Global) -> Result<String, AllocError> {
        self.tags.text()
    }

    fn put<S: Alter>(&self, tags: &str, tx: &mut Transaction<'_, S>) -> Result<usize, Error> {
        tx.execute(PUT, &board_columns(self, tags))
    }

    ghost wide = { λ _ x. refl };

    ghost is_place = { λ _. record { own = λ T rows. refl; over = λ T rows more. refl; same = λ T. refl } };
}
