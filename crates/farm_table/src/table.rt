//! A table: rows in strict order of their keys, and a log of the rows that changed. What may fail
//! comes first, then the edit of the row, and the log last, into room that was made for it: so a
//! call that fails leaves a table in which the log still has each change.
ghost use Rattle.std.specs.Prelude.{◌≡◌, ◌≤◌, ◌<◌, ℕ, [], false, get_or, length, set};
ghost use Rattle.std.specs.Prelude.{IfSome, OnOk, OnErr};
ghost use Rattle.std.specs.List.{AllByRecursion, find};
ghost use Rattle.std.specs.List.Sorted.{IsBinarySearchResult, IsSearchInRange, IsStrictlySortedBy};
ghost use Rattle.std.specs.Option.{option_copied};
ghost use Rattle.farm_types.specs.Table.{put, change_where};
ghost use Rattle.farm_table.specs.Tabled.{by_key, put_in, IsFoundAt, IsPartly, KeepsKeys, Leads};

use crate::row::{Edit, Row};
use std::alloc::{AllocError, Global};
use std::marker::Model;

/// Rows in strict order of their keys, and the log: each row that was put or changed since the log
/// began, as it then was.
#[derive(Drop)]
pub struct Table<R: Row + Drop> {
    rows: Vec<R>,
    log: Vec<R>,
}

impl<R: Row + Drop> Model for Table<R> {
    ghost use Rattle.farm_table.specs.Tabled.{Tabled, by_key, IsTable};

    ghost Value = { Tabled R };

    ghost view = { λ t. record { rows = t.rows.items; log = t.log.items } };

    ghost invariant = { λ t. IsTable (by_key R.key R.key_cmp) R.Fits t.rows.items t.log.items };
}

/// Puts a row where a search for its key ended.
fn put_in<R: Drop>(rows: &mut Vec<R>, place: Result<usize, usize>, row: R) -> Result<(), AllocError>
    requires { IsSearchInRange place (length rows.old.items) }
    ensures rows { OnOk result (rows.new.items ≡ put_in place row rows.old.items) }
    ensures stays { OnErr result (rows.new.items ≡ rows.old.items) }
{
    match place {
        Ok(at) => rows[at] = row,
        Err(at) => rows.insert(at, row)?,
    }
    Ok(())
}

impl<R: Row + Drop> Table<R> {
    /// No rows.
    pub fn new(alloc: Global) -> Table<R>
        ensures { result ≡ record { rows = []; log = [] } }
    {
        Table::of(Vec::new(alloc))
    }

    /// The table of rows that stand in order.
    pub fn of(rows: Vec<R>) -> Table<R>
        requires sorted { IsStrictlySortedBy (by_key R.key R.key_cmp) rows.items }
        requires fit { AllByRecursion R.Fits rows.items }
        ensures { result ≡ record { rows = rows.items; log = [] } }
    {
        let log = Vec::new(*rows.allocator());
        Table { rows, log }
    }

    /// Makes room in the log for so many rows more, so that it isn't moved as they come.
    pub fn reserve(&mut self, additional: usize) -> Result<(), AllocError>
        ensures { self.new ≡ self.old }
    {
        self.log.reserve(additional)
    }

    /// The rows in order of their keys.
    pub fn rows(&self) -> &[R]
        ensures rows { result.now ≡ self.now.rows }
        ensures sorted { IsStrictlySortedBy (by_key R.key R.key_cmp) self.now.rows }
        ensures fit { AllByRecursion R.Fits self.now.rows }
    {
        &self.rows
    }

    /// The log.
    pub fn log(&self) -> &[R]
        ensures log { result.now ≡ self.now.log }
        ensures fit { AllByRecursion R.Fits self.now.log }
    {
        &self.log
    }

    /// Where the rows' memory comes from.
    pub fn allocator(&self) -> &Global {
        self.rows.allocator()
    }

    /// How many rows there are.
    pub fn len(&self) -> usize
        ensures { result ≡ length self.now.rows }
    {
        self.rows.len()
    }

    /// The place of the row with that key, or where it would stand, by binary search.
    pub fn place_of(&self, key: &R::Key) -> Result<usize, usize>
        ensures place { IsFoundAt self.now.rows (find (λ r. R.same (R.key r) key.now) self.now.rows)
            result }
        ensures within { IsSearchInRange result (length self.now.rows) }
        ensures searched { IsBinarySearchResult (λ r. R.key_cmp (R.key r) key.now) self.now.rows
            result }
        ensures sorted { IsStrictlySortedBy (by_key R.key R.key_cmp) self.now.rows }
    {
        self.rows.binary_search_by(|row| R::order(row.key(), key))
    }

    /// The row with that key, by binary search.
    pub fn find(&self, key: &R::Key) -> Option<&R>
        ensures found { option_copied result ≡ find (λ r. R.same (R.key r) key.now) self.now.rows }
        ensures fit { IfSome result (λ r. R.Fits r.now) }
    {
        let at = self.place_of(key).ok()?;
        Some(&self.rows[at])
    }

    /// Puts a row where a search for its key ended: in the place of the one with its key, or between
    /// others. Where memory runs out the table is as it was.
    pub fn put_at(&mut self, place: Result<usize, usize>, row: R) -> Result<(), AllocError>
        requires fits { R.Fits row }
        requires within { IsSearchInRange place (length self.old.rows) }
        requires searched { IsBinarySearchResult (λ r. R.key_cmp (R.key r) (R.key row))
            self.old.rows place }
        ensures rows { OnOk result (self.new.rows ≡ put (by_key R.key R.key_cmp) self.old.rows row) }
        ensures there { OnOk result (self.new.rows ≡ put_in place row self.old.rows) }
        ensures leads { Leads (by_key R.key R.key_cmp) self.old self.new }
        ensures stays { OnErr result (self.new ≡ self.old) }
    {
        let copy = row.copy()?;
        self.log.reserve(1)?;
        put_in(&mut self.rows, place, row)?;
        self.log.push_reserved(copy);
        Ok(())
    }

    /// Puts a row in the place of the one with its key, or adds it in key order, by binary search.
    /// Where memory runs out the table is as it was.
    pub fn put(&mut self, row: R) -> Result<(), AllocError>
        requires { R.Fits row }
        ensures rows { OnOk result (self.new.rows ≡ put (by_key R.key R.key_cmp) self.old.rows row) }
        ensures leads { Leads (by_key R.key R.key_cmp) self.old self.new }
        ensures stays { OnErr result (self.new ≡ self.old) }
    {
        let place = self.place_of(row.key());
        self.put_at(place, row)
    }

    /// Changes the row at a place. Where memory runs out the table is as it was.
    pub fn change_at<E: Edit<R>>(&mut self, at: usize, edit: &E) -> Result<(), AllocError>
        requires within { at < length self.old.rows }
        requires keeps { KeepsKeys R.key R.Fits (E.changed edit.now) }
        ensures rows { OnOk result ((d : R) → self.new.rows
            ≡ set self.old.rows at (E.changed edit.now (get_or self.old.rows at d))) }
        ensures leads { Leads (by_key R.key R.key_cmp) self.old self.new }
        ensures stays { OnErr result (self.new ≡ self.old) }
    {
        let mut changed = self.rows[at].copy()?;
        self.log.reserve(1)?;
        edit.change(&mut changed);
        edit.change(&mut self.rows[at]);
        self.log.push_reserved(changed);
        Ok(())
    }

    /// Whether the row at a place passes.
    fn passes_at<E: Edit<R>>(&self, at: usize, edit: &E) -> bool
        requires { at < length self.now.rows }
        ensures { (d : R) → result ≡ E.passes edit.now (get_or self.now.rows at d) }
    {
        edit.passes(&self.rows[at])
    }

    /// Changes the rows that pass, which all stand from one place up to another: only these are
    /// looked at. Where memory runs out the first ones are changed, and the log says which.
    pub fn change_between<E: Edit<R>>(
        &mut self,
        start: usize,
        end: usize,
        edit: &E,
    ) -> Result<(), AllocError>
        requires keeps { KeepsKeys R.key R.Fits (E.changed edit.now) }
        requires start { start ≤ end }
        requires end { end ≤ length self.old.rows }
        requires before { (k : ℕ) (d : R) → k < start → E.passes edit.now (get_or self.old.rows k d)
            ≡ false }
        requires behind { (k : ℕ) (d : R) → end ≤ k → k < length self.old.rows
            → E.passes edit.now (get_or self.old.rows k d) ≡ false }
        ensures rows { OnOk result (self.new.rows
            ≡ change_where (E.passes edit.now) (E.changed edit.now) self.old.rows) }
        ensures partly { OnErr result (IsPartly (E.passes edit.now) (E.changed edit.now)
            self.old.rows self.new.rows) }
        ensures leads { Leads (by_key R.key R.key_cmp) self.old self.new }
    {
        for at in start..end {
            if self.passes_at(at, edit) {
                self.change_at(at, edit)?;
            }
        }
        Ok(())
    }

    /// Changes the rows that pass. Each is looked at. Where memory runs out the first ones are
    /// changed, and the log says which.
    pub fn change_where<E: Edit<R>>(&mut self, edit: &E) -> Result<(), AllocError>
        requires { KeepsKeys R.key R.Fits (E.changed edit.now) }
        ensures rows { OnOk result (self.new.rows
            ≡ change_where (E.passes edit.now) (E.changed edit.now) self.old.rows) }
        ensures partly { OnErr result (IsPartly (E.passes edit.now) (E.changed edit.now)
            self.old.rows self.new.rows) }
        ensures leads { Leads (by_key R.key R.key_cmp) self.old self.new }
    {
        self.change_between(0, self.len(), edit)
    }

    /// Gives the log away, and begins a new one.
    pub fn take_changes(&mut self) -> Vec<R>
        ensures changes { result.items ≡ self.old.log }
        ensures fit { AllByRecursion R.Fits result.items }
        ensures rests { self.new ≡ record { rows = self.old.rows; log = [] } }
    {
        std::mem::replace(&mut self.log, Vec::new(*self.rows.allocator()))
    }
}
