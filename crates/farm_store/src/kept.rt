//! The table of kept replies: its statements, and what its rows stand for.
ghost use Rattle.std.specs.Prelude.{◌≡◌, ◌↔◌, IsTrue};
ghost use Rattle.sqlite.specs.Values.{bound};
ghost use Rattle.farm_types.specs.Small.{IsSmallKept};
ghost use Rattle.farm_store.specs.Columns.{kept_columns};
ghost use Rattle.farm_store.specs.Schema.{kept_table};

use crate::edition::Edition;
use crate::queries::rows::{Reader, number_at, word_at};
use crate::stored::Stored;
use crate::tables::{are_columns, is_keyed};
use crate::upserts::{number, word};
use farm_types::{KeptRow, Reply, WordFault};
use sqlite::types::ValueRef;
use sqlite::{Alter, Error, Row, Transaction};
use sqlite_schema::schema::Table;
use std::alloc::{AllocError, Global};

/// Its columns, in this order, and what `statement` makes of them.
macro_rules! columns {
    ($statement:ident) => {
        crate::statements::$statement!("kept" ["caller", "ckey"]
            "caller" "TEXT", "ckey" "TEXT", "kind" "INTEGER", "a" "INTEGER", "b" "INTEGER",
            "c" "INTEGER")
    };
}

pub(crate) const MAKE: &str = columns!(create);

const READ: &str = columns!(select);

const PUT: &str = columns!(replace);

/// Whether a table is this one.
pub(crate) fn is_replies(table: &Table) -> bool
    ensures { IsTrue result ↔ (table.now ≡ record kept_table { tree = 6 }) }
{
    is_keyed(table, "kept", 6, &[1, 2]) && are_columns(table.columns.as_slice(), &columns!(kinds))
}

/// Its columns.
fn kept_columns(row: &KeptRow) -> [ValueRef<'_>; 6]
    requires small { IsSmallKept row.now }
    ensures { bound result ≡ kept_columns row.now }
{
    [
        word(&row.caller),
        word(&row.key),
        number(row.kind),
        number(row.reply.0),
        number(row.reply.1),
        number(row.reply.2),
    ]
}

impl Stored for KeptRow {
    ghost use Rattle.std.specs.Prelude.{refl, []};
    ghost use Rattle.farm_types.specs.Small.{IsSmallKept};
    ghost use Rattle.farm_store.specs.Columns.{kept_columns};
    ghost use Rattle.farm_store.specs.Editions.{table_columns_in};
    ghost use Rattle.farm_store.specs.Places.{of_kept_with};
    ghost use Rattle.farm_store.specs.Readable.{IsReadableKept};

    ghost place = { λ edition. of_kept_with (table_columns_in edition).kept };

    ghost columns = { λ _. kept_columns };

    ghost tags_text_of = { λ _. [] };

    ghost IsGood = { λ _. IsReadableKept };

    ghost IsSmall = { IsSmallKept };

    fn query(_edition: Edition) -> &'static str {
        READ
    }

    fn of(row: &Row, _reader: &mut Reader) -> Result<KeptRow, WordFault> {
        Ok(KeptRow {
            kind: number_at(row, 2)?,
            reply: Reply(number_at(row, 3)?, number_at(row, 4)?, number_at(row, 5)?),
            caller: word_at(row, 0)?,
            key: word_at(row, 1)?,
        })
    }

    fn tags_text(&self, alloc: Global) -> Result<String, AllocError> {
        Ok(String::new(alloc))
    }

    fn put<S: Alter>(&self, _tags: &str, tx: &mut Transaction<'_, S>) -> Result<usize, Error> {
        tx.execute(PUT, &kept_columns(self))
    }

    ghost wide = { λ _ x. refl };

    ghost is_place = { λ _. record { own = λ T rows. refl; over = λ T rows more. refl; same = λ T. refl } };
}
