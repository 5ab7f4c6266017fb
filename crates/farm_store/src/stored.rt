//! What a row of each table stands for, and how it is read and put.
ghost use Rattle.std.specs.Prelude.{◌≡◌, string_bytes};

use crate::edition::Edition;
use crate::queries::rows::Reader;
use farm_types::WordFault;
use sqlite::{Alter, Error, Row, Transaction};
use std::alloc::{AllocError, Global};

/// A row of one of the tables.
pub(crate) trait Stored: Drop + Sized {
    ghost use Rattle.std.specs.Prelude.{◌≡◌, List, ℕ, [], ◌∷◌, IfOk, string_bytes};
    ghost use Rattle.sqlite.specs.Held.{state};
    ghost use Rattle.sqlite.specs.Order.{Row as Values};
    ghost use Rattle.farm_store.specs.Editions.{table_columns_in};
    ghost use Rattle.farm_store.specs.Edits.{ChangesTables, GoesOn};
    ghost use Rattle.farm_store.specs.Places.{IsTableSlot, TableSlot, put_at};
    ghost use Rattle.farm_store.specs.Queries.{AsksFor};
    ghost use Rattle.farm_store.specs.Reading.{ReadsRow};
    ghost use Rattle.farm_store.specs.Stored.{IsWide};
    ghost use Rattle.farm_store.specs.declared.edition.Edition.{Edition};

    ghost place: { Edition → TableSlot };

    ghost columns: { Edition → Self → Values };

    ghost tags_text_of: { Self → List ℕ };

    ghost IsGood: { Edition → Self → Type 0 };

    ghost IsSmall: { Self → Type 0 };

    /// The query of all rows of an edition's table, in order of their keys.
    fn query(edition: Edition) -> &'static str
        ensures { AsksFor (table_columns_in edition) (place edition) result.now };

    /// What a row of the table stands for in the reader's edition. It shares the tags that were seen.
    /// Numbers are read before texts, whatever the columns' order: a fault of theirs leaves nothing to
    /// drop.
    fn of(row: &Row, reader: &mut Reader) -> Result<Self, WordFault>
        ensures reads { ReadsRow result (IsGood reader.old.edition) (columns reader.old.edition)
            row.now }
        ensures edition { reader.new.edition ≡ reader.old.edition };

    /// The text of its tags; the empty one in a table without tags.
    fn tags_text(&self, alloc: Global) -> Result<String, AllocError>
        ensures { IfOk result (λ text. string_bytes text ≡ tags_text_of self.now) };

    /// Puts it in the place of the row with its key, or adds it; `tags` is the text of its tags. The
    /// store tells how many rows it wrote.
    fn put<S: Alter>(&self, tags: &str, tx: &mut Transaction<'_, S>) -> Result<usize, Error>
        requires small { IsSmall self.now }
        requires tags { tags.now ≡ tags_text_of self.now }
        ensures goes_on { GoesOn S.Store tx.old tx.new }
        ensures put { ChangesTables result (state S.Store tx.old.conn.now)
            (state S.Store tx.new.conn.now)
            (λ T. put_at (place Edition.Second) T (columns Edition.Second self.now ∷ [])) };

    /// It has as many columns as the edition's table.
    ghost wide: { (edition : Edition) (x : Self) → IsWide (place edition).width (columns edition x) };

    /// It is one of the tables' places.
    ghost is_place: { (edition : Edition) → IsTableSlot (place edition) };
}

/// A row beside the text of its tags.
#[derive(Drop)]
pub(crate) struct Tagged<'a, R: Stored> {
    pub(crate) row: &'a R,
    pub(crate) text: String,
    ghost spelled: { string_bytes text ≡ R.tags_text_of row.now },
}
