//! The table of jobs: its statements, and what its rows stand for.
ghost use Rattle.std.specs.Prelude.{◌≡◌, ◌↔◌, ◌≤◌, IsTrue, pos, List, [], ◌∷◌, OnOk};
ghost use Rattle.std.specs.List.{AllByRecursion};
ghost use Rattle.sqlite.specs.declared.types.Value.TheVariants.{Int};
ghost use Rattle.sqlite.specs.Held.{state};
ghost use Rattle.sqlite.specs.State.{HasCleanDisk};
ghost use Rattle.sqlite.specs.Values.{bound};
ghost use Rattle.farm_types.specs.Small.{IsSmallJob};
ghost use Rattle.farm_types.specs.Tags.{tags_text};
ghost use Rattle.farm_store.specs.Columns.{TableRows, job_columns};
ghost use Rattle.farm_store.specs.Editions.{tables_with_jobs};
ghost use Rattle.farm_store.specs.Edits.{GoesOn};
ghost use Rattle.farm_store.specs.Holds.{IsInside};
ghost use Rattle.farm_store.specs.Raising.{raised_below};
ghost use Rattle.farm_store.specs.Schema.{jobs_table};
ghost use Rattle.farm_store.specs.declared.edition.Edition.{Edition};

use crate::edition::Edition;
use crate::queries::rows::{
    Reader, body_at, checking_at, job_state_at, number_at, outcome_at, tags_at, word_at,
    word_if_any_at,
};
use crate::stored::Stored;
use crate::tables::{are_columns, is_numbered};
use crate::upserts::{number, text, word, word_if_any};
use farm_types::{JobRow, Priority, Want, WordFault};
use sqlite::types::ValueRef;
use sqlite::{Alter, Error, Row, Transaction};
use sqlite_schema::schema::Table;
use std::alloc::{AllocError, Global};

/// Its columns, in this order, and what `statement` makes of them.
macro_rules! columns {
    ($statement:ident) => {
        crate::statements::$statement!("jobs" ["number"]
            "number" "INTEGER", "grp" "INTEGER", "checking" "INTEGER", "owner" "TEXT",
            "priority" "INTEGER", "kind" "TEXT", "tags" "TEXT", "role" "TEXT", "state" "INTEGER",
            "outcome" "INTEGER", "board" "TEXT", "body" "TEXT")
    };
}

pub(crate) const MAKE: &str = columns!(create);

const READ: &str = columns!(select);

const PUT: &str = columns!(replace);

/// Gives each state of the jobs from one number to another its code of the second edition, where
/// that is another one. The codes of the first are 0 to 4, and each but 0 grows by 1; 5, which is no
/// code there, becomes Scheduling's 1.
const RAISE: &str = "UPDATE jobs SET state = state % 5 + 1 WHERE state > 0 AND number >= ?1 \
    AND number < ?2";

/// How many jobs one such statement takes.
const WINDOW: usize = 100;

/// The number after the largest that is stored.
const END: u64 = 9_000_000_000_000_000_001;

/// Whether a table is this one.
pub(crate) fn is_jobs(table: &Table) -> bool
    ensures { IsTrue result ↔ (table.now ≡ record jobs_table { tree = 4 }) }
{
    is_numbered(table, "jobs", 4) && are_columns(table.columns.as_slice(), &columns!(kinds))
}

/// Its columns, with 0 for an outcome while it has none; `tags` is the text of the tags that it
/// wants.
#[tactic(auto, using(crate::proofs::SmallCodes::outcome_is_small, crate::proofs::SmallCodes::priority_is_small, crate::proofs::SmallCodes::job_state_is_small))]
fn job_columns<'a>(row: &'a JobRow, tags: &'a str) -> [ValueRef<'a>; 12]
    requires small { IsSmallJob row.now }
    requires tags { tags.now ≡ tags_text row.now.want.tags }
    ensures { bound result ≡ job_columns row.now }
{
    [
        number(row.number),
        number(row.group),
        number(if row.checking { 1 } else { 0 }),
        word(&row.owner),
        number(row.priority.get()),
        word_if_any(&row.want.kind),
        text(tags),
        word_if_any(&row.role),
        number(row.state.code()),
        number(row.outcome.map_or(0, |outcome| outcome.code())),
        word_if_any(&row.board),
        text(row.body.as_str()),
    ]
}

/// The two numbers as they are bound.
fn bounds<'a>(from: u64, end: u64) -> [ValueRef<'a>; 2]
    requires from { from ≤ END }
    requires end { end ≤ END }
    ensures { bound result ≡ Int (pos from) ∷ Int (pos end) ∷ [] }
{
    [ValueRef::Int(from as i64), ValueRef::Int(end as i64)]
}

/// Makes the rows of the jobs from one number to another, which is left out, those of the second
/// edition, where those below are.
fn raise_window<S: Alter>(tx: &mut Transaction<'_, S>, from: u64, end: u64) -> Result<(), Error>
    requires in_order { from ≤ end }
    requires end { end ≤ END }
    ensures goes_on { GoesOn S.Store tx.old tx.new }
    ensures raised { HasCleanDisk (state S.Store tx.new.conn.now)
        → OnOk result ((T : TableRows) (jobs : List JobRow)
        → IsInside (state S.Store tx.old.conn.now) (raised_below from jobs T)
        → IsInside (state S.Store tx.new.conn.now) (raised_below end jobs T)) }
{
    tx.execute(RAISE, &bounds(from, end))?;
    Ok(())
}

/// Makes the rows of jobs of the first edition those of the second, a hundred by a statement where
/// they come in order: it reads and writes its own rows alone, and holds no others in memory.
pub(crate) fn raise_jobs<S: Alter>(
    tx: &mut Transaction<'_, S>,
    rows: &[JobRow],
) -> Result<(), Error>
    requires small { AllByRecursion IsSmallJob rows.now }
    ensures goes_on { GoesOn S.Store tx.old tx.new }
    ensures raised { HasCleanDisk (state S.Store tx.new.conn.now)
        → OnOk result ((T : TableRows)
        → IsInside (state S.Store tx.old.conn.now) (tables_with_jobs Edition.First rows.now T)
        → IsInside (state S.Store tx.new.conn.now) (tables_with_jobs Edition.Second rows.now T)) }
{
    let mut from = 0;
    for (at, row) in rows.iter().enumerate() {
        if at % WINDOW == 0 && from < row.number {
            raise_window(tx, from, row.number)?;
            from = row.number;
        }
    }
    raise_window(tx, from, END)
}

impl Stored for JobRow {
    ghost use Rattle.std.specs.Prelude.{refl};
    ghost use Rattle.farm_types.specs.Small.{IsSmallJob};
    ghost use Rattle.farm_types.specs.Tags.{tags_text};
    ghost use Rattle.farm_store.specs.Editions.{IsReadableJobIn, job_columns_in, table_columns_in};
    ghost use Rattle.farm_store.specs.Places.{of_jobs_with};

    ghost place = { λ edition. of_jobs_with (table_columns_in edition).jobs };

    ghost columns = { job_columns_in };

    ghost tags_text_of = { λ row. tags_text row.want.tags };

    ghost IsGood = { IsReadableJobIn };

    ghost IsSmall = { IsSmallJob };

    fn query(_edition: Edition) -> &'static str {
        READ
    }

    fn of(row: &Row, reader: &mut Reader) -> Result<JobRow, WordFault> {
        Ok(JobRow {
            number: number_at(row, 0)?,
            group: number_at(row, 1)?,
            checking: checking_at(row, 2)?,
            priority: Priority::of(number_at(row, 4)?)?,
            state: job_state_at(row, 8, reader.edition)?,
            outcome: outcome_at(row, 9)?,
            owner: word_at(row, 3)?,
            want: Want {
                kind: word_if_any_at(row, 5)?,
                tags: tags_at(row, 6, reader)?,
            },
            role: word_if_any_at(row, 7)?,
            board: word_if_any_at(row, 10)?,
            body: body_at(row, 11, reader)?,
        })
    }

    fn tags_text(&self, _alloc: Global) -> Result<String, AllocError> {
        self.want.tags.text()
    }

    fn put<S: Alter>(&self, tags: &str, tx: &mut Transaction<'_, S>) -> Result<usize, Error> {
        tx.execute(PUT, &job_columns(self, tags))
    }

    ghost wide = { λ _ x. refl };

    ghost is_place = { λ _. record { own = λ T rows. refl; over = λ T rows more. refl; same = λ T. refl } };
}
