//! Rows in strict order of their keys.
ghost use Rattle.std.specs.Prelude.{◌≡◌, ◌↔◌, IsTrue, OnOk};
ghost use Rattle.std.specs.List.Sorted.{IsStrictlySortedBy};
ghost use Rattle.farm_types.specs.Table.{put};

use crate::rows::{BoardRow, JobRow, KeptRow, ResRow, TypeRow};
use std::alloc::AllocError;
use std::cmp::Ordering;

/// A row that is kept in a table by its key.
pub trait Keyed {
    ghost use Rattle.std.specs.Cmp.{IsTotalOrder};
    ghost use Rattle.std.specs.declared.cmp.Ordering.{Ordering};

    ghost cmp: { Self → Self → Ordering };

    /// Compares the keys of two rows.
    fn key_cmp(&self, other: &Self) -> Ordering
        ensures { result ≡ cmp self.now other.now };

    /// The keys are in a total order.
    ghost total: { IsTotalOrder cmp };
}

impl Keyed for TypeRow {
    ghost use Rattle.farm_types.specs.Table.{type_cmp};
    ghost use Rattle.std.specs.Cmp.{on_total};
    ghost use Rattle.std.specs.Cmp.Lexicographic.{nat_list_cmp_total};

    ghost cmp = { type_cmp };

    fn key_cmp(&self, other: &TypeRow) -> Ordering {
        self.name.order(&other.name)
    }

    ghost total = { on_total (λ r. r.name) nat_list_cmp_total };
}

impl Keyed for BoardRow {
    ghost use Rattle.farm_types.specs.Table.{board_cmp};
    ghost use Rattle.std.specs.Cmp.{on_total};
    ghost use Rattle.std.specs.Cmp.Lexicographic.{nat_list_cmp_total};

    ghost cmp = { board_cmp };

    fn key_cmp(&self, other: &BoardRow) -> Ordering {
        self.name.order(&other.name)
    }

    ghost total = { on_total (λ r. r.name) nat_list_cmp_total };
}

impl Keyed for KeptRow {
    ghost use Rattle.farm_types.specs.Table.{kept_cmp};
    ghost use Rattle.std.specs.Cmp.{on_total, then_total};
    ghost use Rattle.std.specs.Cmp.Lexicographic.{nat_list_cmp_total};

    ghost cmp = { kept_cmp };

    fn key_cmp(&self, other: &KeptRow) -> Ordering {
        self.caller
            .order(&other.caller)
            .then(self.key.order(&other.key))
    }

    ghost total = { then_total (on_total (λ r. r.caller) nat_list_cmp_total)
        (on_total (λ r. r.key) nat_list_cmp_total) };
}

impl Keyed for JobRow {
    ghost use Rattle.farm_types.specs.Table.{job_cmp};
    ghost use Rattle.std.specs.Cmp.{on_total, nat_cmp_total};

    ghost cmp = { job_cmp };

    fn key_cmp(&self, other: &JobRow) -> Ordering {
        self.number.cmp(&other.number)
    }

    ghost total = { on_total (λ r. r.number) nat_cmp_total };
}

impl Keyed for ResRow {
    ghost use Rattle.farm_types.specs.Table.{res_cmp};
    ghost use Rattle.std.specs.Cmp.{on_total, nat_cmp_total};

    ghost cmp = { res_cmp };

    fn key_cmp(&self, other: &ResRow) -> Ordering {
        self.number.cmp(&other.number)
    }

    ghost total = { on_total (λ r. r.number) nat_cmp_total };
}

/// Whether rows stand in strict order of their keys.
pub fn is_sorted<R: Keyed>(rows: &[R]) -> bool
    ensures { IsTrue result ↔ IsStrictlySortedBy R.cmp rows.now }
{
    rows.is_sorted_by(|a, b| a.key_cmp(b).is_lt())
}

/// Puts a row in the place of the one with its key, or adds it in key order. It costs a binary
/// search, and a move of the rows behind a new one.
pub fn upsert<R: Keyed + Drop>(rows: &mut Vec<R>, row: R) -> Result<(), AllocError>
    requires { IsStrictlySortedBy R.cmp rows.old.items }
    ensures rows { OnOk result (rows.new.items ≡ put R.cmp rows.old.items row) }
    ensures sorted { OnOk result (IsStrictlySortedBy R.cmp rows.new.items) }
{
    match rows.binary_search_by(|r| r.key_cmp(&row)) {
        Ok(at) => rows[at] = row,
        Err(at) => rows.insert(at, row)?,
    }
    Ok(())
}
