//! The table of reservations: its statements, and what its rows stand for.
ghost use Rattle.std.specs.Prelude.{◌≡◌, ◌↔◌, IsTrue};
ghost use Rattle.sqlite.specs.Values.{bound};
ghost use Rattle.farm_types.specs.Small.{IsSmallRes};
ghost use Rattle.farm_types.specs.Tags.{tags_text};
ghost use Rattle.farm_store.specs.Columns.{res_columns};
ghost use Rattle.farm_store.specs.Schema.{reservations_table};

use crate::edition::Edition;
use crate::queries::rows::{BAD, Reader, number_at, tags_at, word_at, word_if_any_at};
use crate::stored::Stored;
use crate::tables::{are_columns, is_numbered};
use crate::upserts::{number, text, word, word_if_any};
use farm_types::{Priority, ResRow, ResState, Want, WordFault};
use sqlite::types::ValueRef;
use sqlite::{Alter, Error, Row, Transaction};
use sqlite_schema::schema::Table;
use std::alloc::{AllocError, Global};

/// Its columns, in this order, and what `statement` makes of them.
macro_rules! columns {
    ($statement:ident) => {
        crate::statements::$statement!("reservations" ["number"]
            "number" "INTEGER", "owner" "TEXT", "priority" "INTEGER", "tags" "TEXT",
            "state" "INTEGER", "deadline" "INTEGER", "board" "TEXT")
    };
}

pub(crate) const MAKE: &str = columns!(create);

const READ: &str = columns!(select);

const PUT: &str = columns!(replace);

/// Whether a table is this one.
pub(crate) fn is_reservations(table: &Table) -> bool
    ensures { IsTrue result ↔ (table.now ≡ record reservations_table { tree = 5 }) }
{
    is_numbered(table, "reservations", 5) && are_columns(table.columns.as_slice(), &columns!(kinds))
}

/// Its columns; `tags` is the text of the tags that it wants.
#[tactic(auto, using(crate::proofs::SmallCodes::priority_is_small, crate::proofs::SmallCodes::res_state_is_small))]
fn res_columns<'a>(row: &'a ResRow, tags: &'a str) -> [ValueRef<'a>; 7]
    requires small { IsSmallRes row.now }
    requires tags { tags.now ≡ tags_text row.now.want.tags }
    ensures { bound result ≡ res_columns row.now }
{
    [
        number(row.number),
        word(&row.owner),
        number(row.priority.get()),
        text(tags),
        number(row.state.code()),
        number(row.deadline),
        word_if_any(&row.board),
    ]
}

impl Stored for ResRow {
    ghost use Rattle.std.specs.Prelude.{refl};
    ghost use Rattle.farm_types.specs.Small.{IsSmallRes};
    ghost use Rattle.farm_types.specs.Tags.{tags_text};
    ghost use Rattle.farm_store.specs.Columns.{res_columns};
    ghost use Rattle.farm_store.specs.Editions.{table_columns_in};
    ghost use Rattle.farm_store.specs.Places.{of_reservations_with};
    ghost use Rattle.farm_store.specs.Readable.{IsReadableRes};

    ghost place = { λ edition. of_reservations_with (table_columns_in edition).reservations };

    ghost columns = { λ _. res_columns };

    ghost tags_text_of = { λ row. tags_text row.want.tags };

    ghost IsGood = { λ _. IsReadableRes };

    ghost IsSmall = { IsSmallRes };

    fn query(_edition: Edition) -> &'static str {
        READ
    }

    fn of(row: &Row, reader: &mut Reader) -> Result<ResRow, WordFault> {
        Ok(ResRow {
            number: number_at(row, 0)?,
            priority: Priority::of(number_at(row, 2)?)?,
            state: ResState::from_code(number_at(row, 4)?).ok_or(BAD)?,
            deadline: number_at(row, 5)?,
            owner: word_at(row, 1)?,
            want: Want {
                kind: None,
                tags: tags_at(row, 3, reader)?,
            },
            board: word_if_any_at(row, 6)?,
        })
    }

    fn tags_text(&self, _alloc: Global) -> Result<String, AllocError> {
        self.want.tags.text()
    }

    fn put<S: Alter>(&self, tags: &str, tx: &mut Transaction<'_, S>) -> Result<usize, Error> {
        tx.execute(PUT, &res_columns(self, tags))
    }

    ghost wide = { λ _ x. refl };

    ghost is_place = { λ _. record { own = λ T rows. refl; over = λ T rows more. refl; same = λ T. refl } };
}
