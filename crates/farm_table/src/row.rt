//! What a table asks of its rows, and of an edit of them; types and boards as rows of tables, by
//! their names; jobs and reservations, by their numbers.
use farm_types::{BoardRow, JobRow, Name, ResRow, TypeRow};
use std::alloc::AllocError;
use std::cmp::Ordering;

/// A row that is kept in a table by its key.
pub trait Row {
    ghost use Rattle.std.specs.Prelude.{◌≡◌, Bool, IfOk};
    ghost use Rattle.std.specs.Cmp.{IsTotalOrder};
    ghost use Rattle.std.specs.Ordering.{is_eq};
    ghost use Rattle.std.specs.declared.cmp.Ordering.{Ordering};

    type Key;

    ghost key: { Self → Self.Key };

    /// The order of keys.
    ghost key_cmp: { Self.Key → Self.Key → Ordering };

    /// Whether two keys are one.
    ghost same: { Self.Key → Self.Key → Bool };

    /// What is true of each row of a table.
    ghost Fits: { Self → Type 0 };

    /// The row's key.
    fn key(&self) -> &Self::Key
        ensures { result.now ≡ key self.now };

    /// Compares two keys.
    fn order(a: &Self::Key, b: &Self::Key) -> Ordering
        ensures { result ≡ key_cmp a.now b.now };

    /// An equal row.
    fn copy(&self) -> Result<Self, AllocError>
        ensures { IfOk result (λ copy. copy ≡ self.now) };

    /// Keys are in a total order.
    ghost total: { IsTotalOrder key_cmp };

    /// Keys that tie are one.
    ghost ties: { (a b : Self.Key) → same a b ≡ is_eq (key_cmp a b) };
}

/// A change of the rows that pass a test.
pub trait Edit<R> {
    ghost use Rattle.std.specs.Prelude.{◌≡◌, Bool};

    ghost passes: { Self → R → Bool };

    ghost changed: { Self → R → R };

    /// Whether the row changes.
    fn passes(&self, row: &R) -> bool
        ensures { result ≡ passes self.now row.now };

    /// Changes the row.
    fn change(&self, row: &mut R)
        ensures { row.new ≡ changed self.now row.old };
}

impl Row for TypeRow {
    ghost use Rattle.std.specs.Str.{bytes_eq};
    ghost use Rattle.std.specs.Cmp.Lexicographic.{nat_list_cmp_total};
    ghost use Rattle.farm_types.specs.Words.{text_cmp};
    ghost use Rattle.farm_types.specs.Small.{IsSmallType};
    ghost use Rattle.farm_types.proofs.Searched.{same_names};

    type Key = Name;

    ghost key = { λ r. r.name };

    ghost key_cmp = { text_cmp };

    ghost same = { bytes_eq };

    ghost Fits = { IsSmallType };

    fn key(&self) -> &Name {
        &self.name
    }

    fn order(a: &Name, b: &Name) -> Ordering {
        a.order(b)
    }

    fn copy(&self) -> Result<TypeRow, AllocError> {
        Ok(TypeRow::copy(self))
    }

    ghost total = { nat_list_cmp_total };

    ghost ties = { same_names };
}

impl Row for BoardRow {
    ghost use Rattle.std.specs.Str.{bytes_eq};
    ghost use Rattle.std.specs.Cmp.Lexicographic.{nat_list_cmp_total};
    ghost use Rattle.farm_types.specs.Words.{text_cmp};
    ghost use Rattle.farm_types.specs.Small.{IsSmallBoard};
    ghost use Rattle.farm_types.proofs.Searched.{same_names};

    type Key = Name;

    ghost key = { λ r. r.name };

    ghost key_cmp = { text_cmp };

    ghost same = { bytes_eq };

    ghost Fits = { IsSmallBoard };

    fn key(&self) -> &Name {
        &self.name
    }

    fn order(a: &Name, b: &Name) -> Ordering {
        a.order(b)
    }

    fn copy(&self) -> Result<BoardRow, AllocError> {
        BoardRow::copy(self)
    }

    ghost total = { nat_list_cmp_total };

    ghost ties = { same_names };
}

impl Row for JobRow {
    ghost use Rattle.std.specs.Prelude.{◌==◌};
    ghost use Rattle.std.specs.Cmp.{nat_cmp_total};
    ghost use Rattle.std.specs.Ordering.{nat_cmp};
    ghost use Rattle.farm_types.proofs.Searched.{same_numbers};
    ghost use Rattle.farm_table.specs.Near.{IsFitJob};

    type Key = u64;

    ghost key = { λ r. r.number };

    ghost key_cmp = { nat_cmp };

    ghost same = { λ a b. a == b };

    ghost Fits = { IsFitJob };

    fn key(&self) -> &u64 {
        &self.number
    }

    fn order(a: &u64, b: &u64) -> Ordering {
        a.cmp(b)
    }

    fn copy(&self) -> Result<JobRow, AllocError> {
        JobRow::copy(self)
    }

    ghost total = { nat_cmp_total };

    ghost ties = { same_numbers };
}

impl Row for ResRow {
    ghost use Rattle.std.specs.Prelude.{◌==◌};
    ghost use Rattle.std.specs.Cmp.{nat_cmp_total};
    ghost use Rattle.std.specs.Ordering.{nat_cmp};
    ghost use Rattle.farm_types.specs.Small.{IsSmallRes};
    ghost use Rattle.farm_types.proofs.Searched.{same_numbers};

    type Key = u64;

    ghost key = { λ r. r.number };

    ghost key_cmp = { nat_cmp };

    ghost same = { λ a b. a == b };

    ghost Fits = { IsSmallRes };

    fn key(&self) -> &u64 {
        &self.number
    }

    fn order(a: &u64, b: &u64) -> Ordering {
        a.cmp(b)
    }

    fn copy(&self) -> Result<ResRow, AllocError> {
        ResRow::copy(self)
    }

    ghost total = { nat_cmp_total };

    ghost ties = { same_numbers };
}
