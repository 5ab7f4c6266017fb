//! The table of reservations, and the leases that may end, in the order in which they end.
ghost use Rattle.std.specs.Prelude.{◌≡◌, false, true, None, Some, OnOk, IfSome, IfNone};
ghost use Rattle.std.specs.Prelude.{if◌then◌else◌, ◌==◌, ◌<◌, ◌^◌, [], length, IfOk, OnErr};
ghost use Rattle.std.specs.List.{AllByRecursion};
ghost use Rattle.std.specs.List.Sorted.{IsStrictlySortedBy};
ghost use Rattle.std.specs.Option.{option_copied, option_map_or};
ghost use Rattle.farm_types.specs.Pass.{is_dead};
ghost use Rattle.farm_types.specs.Table.{res_cmp, put, change_where};
ghost use Rattle.farm_types.specs.Small.{IsSmall, IsSmallRes};
ghost use Rattle.farm_types.specs.declared.rows.ResRow.{ResRow};
ghost use Rattle.farm_sound.specs.Keys.{res_in};
ghost use Rattle.farm_table.specs.Tabled.{Leads};
ghost use Rattle.farm_core.specs.Leases.{may_end_in, is_dead_at, is_noted, AreNoted};
ghost use Rattle.farm_core.specs.Leases.{Grows};
ghost use Rattle.farm_core.specs.Edits.{res_changed};

use crate::edits::{ResEdit, is_dead};
use farm_table::Table;
use farm_types::{ResRow, ResState};
use std::alloc::{AllocError, Global};
use std::collections::BTreeSet;
use std::marker::Model;

/// A lease: its deadline, a moment in seconds since 1970, and the number of its reservation.
#[derive(Clone, Copy, Debug, PartialEq, Eq, PartialOrd, Ord)]
pub struct Lease {
    pub deadline: u64,
    pub number: u64,
}

/// Leases in the order in which they end.
type Leases = BTreeSet<Lease>;

/// Notes the lease of a reservation in a state, if it may end: it is dead once its lease is over
/// while it waits or has been allocated. With L leases it costs O(log L). No lease is lost, also
/// where memory runs out.
fn note(leases: &mut Leases, state: ResState, deadline: u64, number: u64) -> Result<(), AllocError>
    ensures noted { OnOk result (may_end_in state ≡ true → is_noted leases.new (record {
      deadline = deadline;
      number = number;
    }) ≡ true) }
    ensures grows { Grows leases.old leases.new }
{
    if matches!(state, ResState::Waiting | ResState::Allocated) {
        let _added = leases.insert(Lease { deadline, number })?;
    }
    Ok(())
}

/// Notes the leases of some reservations.
fn note_leases(leases: &mut Leases, rows: &[ResRow]) -> Result<(), AllocError>
    ensures noted { OnOk result (AreNoted leases.new rows.now) }
    ensures grows { OnOk result (Grows leases.old leases.new) }
{
    for row in rows {
        note(leases, row.state, row.deadline, row.number)?;
    }
    Ok(())
}

/// Whether the reservation of a number is dead, by binary search.
fn is_dead_at(table: &Table<ResRow>, number: u64, now: u64) -> bool
    ensures { result ≡ is_dead_at now table.now.rows number }
{
    table.find(&number).is_some_and(|row| is_dead(now, row))
}

/// The number of a reservation that is dead, if there is one: that of the first lease that is over,
/// where it is still its reservation's. Those that aren't, since the reservation was refreshed or
/// has ended, are forgotten on the way.
///
/// With R reservations and L leases each lease that is forgotten costs O(log R + log L).
fn first_dead(leases: &mut Leases, table: &Table<ResRow>, now: u64) -> Option<u64>
    requires { AreNoted leases.old table.now.rows }
    ensures noted { AreNoted leases.new table.now.rows }
    ensures dead { IfSome result (λ number. is_dead_at now table.now.rows number ≡ true) }
    ensures none { IfNone result (AllByRecursion (λ r. is_dead now r ≡ false) table.now.rows) }
{
    // no row is read: it tells proofs that they stand in order
    let _rows = table.rows();
    while let Some(lease) = leases.first() {
        let Lease { deadline, number } = *lease;
        if deadline > now {
            return None;
        }
        if is_dead_at(table, number, now) {
            return Some(number);
        }
        let _over = leases.pop_first();
    }
    None
}

/// The reservations in order of number, and each lease that may end, besides such as were over
/// before their time: a lease that is refreshed or released is noted anew, and what was noted
/// before is forgotten at the first pass behind its deadline. So there is one small entry for each
/// lease begun since the last pass, besides those that run. Contracts see the table.
#[derive(Drop)]
pub struct ResTable {
    table: Table<ResRow>,
    leases: Leases,
}

impl Model for ResTable {
    ghost use Rattle.farm_types.specs.declared.rows.ResRow.{ResRow};
    ghost use Rattle.farm_table.specs.Tabled.{Tabled};
    ghost use Rattle.farm_core.specs.Leases.{AreNoted};

    ghost Value = { Tabled ResRow };

    ghost view = { λ t. t.table };

    ghost invariant = { λ t. AreNoted t.leases t.table.rows };
}

impl ResTable {
    /// No reservations.
    pub fn new(alloc: Global) -> ResTable
        ensures { result ≡ record { rows = []; log = [] } }
    {
        ResTable {
            table: Table::new(alloc),
            leases: BTreeSet::new(alloc),
        }
    }

    /// The table of rows that stand in order. It takes memory for the leases; with R reservations,
    /// of which L may end, it costs O(R + L log L).
    pub fn of(alloc: Global, rows: Vec<ResRow>) -> Result<ResTable, AllocError>
        requires sorted { IsStrictlySortedBy res_cmp rows.items }
        requires fit { AllByRecursion IsSmallRes rows.items }
        ensures { IfOk result (λ table. table ≡ record { rows = rows.items; log = [] }) }
    {
        let mut leases = BTreeSet::new(alloc);
        note_leases(&mut leases, &rows)?;
        let table = Table::of(rows);
        Ok(ResTable { table, leases })
    }

    /// The rows in order of number.
    pub fn rows(&self) -> &[ResRow]
        ensures rows { result.now ≡ self.now.rows }
        ensures sorted { IsStrictlySortedBy res_cmp self.now.rows }
        ensures fit { AllByRecursion IsSmallRes self.now.rows }
    {
        self.table.rows()
    }

    /// How many reservations there are.
    pub fn len(&self) -> usize
        ensures { result ≡ length self.now.rows }
    {
        self.table.len()
    }

    /// The reservation of that number, by binary search.
    pub fn find(&self, number: u64) -> Option<&ResRow>
        ensures { option_copied result ≡ res_in self.now.rows number }
    {
        self.table.find(&number)
    }

    /// Whether a number is that of the one reservation, and it is there: by binary search, where it
    /// is the number.
    pub fn has(&self, one: u64, number: u64) -> bool
        ensures { result ≡ option_map_or (λ r. r.number == one) (res_in self.now.rows number) false }
    {
        // no row is read: it tells proofs that they fit
        let _rows = self.rows();
        number == one && self.find(number).is_some_and(|row| row.number == one)
    }

    /// Whether the reservation of a number is dead, by binary search.
    pub fn is_dead_at(&self, number: u64, now: u64) -> bool
        ensures { result ≡ is_dead_at now self.now.rows number }
    {
        is_dead_at(&self.table, number, now)
    }

    /// Puts a reservation, and notes its lease, if it may end. A row with the next number is added
    /// at the end, and moves none. With R reservations and L leases it costs O(log R + log L). Where
    /// memory runs out the table is as it was.
    pub fn put(&mut self, row: ResRow) -> Result<(), AllocError>
        requires { IsSmallRes row }
        ensures rows { OnOk result (self.new.rows ≡ put res_cmp self.old.rows row) }
        ensures leads { Leads res_cmp self.old self.new }
        ensures stays { OnErr result (self.new ≡ self.old) }
    {
        // The lease first: one more that is noted does no harm where the row can't be put.
        note(&mut self.leases, row.state, row.deadline, row.number)?;
        self.table.put(row)?;
        Ok(())
    }

    /// Changes one reservation, and notes the lease that it has then, if it may end. With R
    /// reservations and L leases it costs O(log R + log L). Where memory runs out the table is as it
    /// was.
    pub fn edit(&mut self, edit: ResEdit<'_>) -> Result<(), AllocError>
        requires { IfSome edit.deadline IsSmall }
        ensures rows { OnOk result (self.new.rows ≡ change_where (λ r. r.number == edit.entry.number)
            (res_changed edit.entry) self.old.rows) }
        ensures leads { Leads res_cmp self.old self.new }
        ensures stays { OnErr result (self.new ≡ self.old) }
    {
        let Ok(at) = self.table.place_of(&edit.number) else {
            return Ok(());
        };
        let row = &self.table.rows()[at];
        let state = edit.state.unwrap_or(row.state);
        let deadline = edit.deadline.unwrap_or(row.deadline);
        // The lease first, as in `put`.
        note(&mut self.leases, state, deadline, row.number)?;
        self.table.change_at(at, &edit)?;
        Ok(())
    }

    /// The number of a reservation that is dead at a moment, if there is one.
    pub fn first_dead(&mut self, now: u64) -> Option<u64>
        ensures stays { self.new ≡ self.old }
        ensures sorted { IsStrictlySortedBy res_cmp self.old.rows }
        ensures few { length self.old.rows < 2 ^ 63 }
        ensures dead { IfSome result (λ number. is_dead_at now self.old.rows number ≡ true) }
        ensures none { IfNone result (AllByRecursion (λ r. is_dead now r ≡ false) self.old.rows) }
    {
        // no row is read: it tells proofs that they stand in order, and are few
        let _rows = self.rows();
        first_dead(&mut self.leases, &self.table, now)
    }

    /// Gives the log away, and begins a new one.
    pub fn take_changes(&mut self) -> Vec<ResRow>
        ensures changes { result.items ≡ self.old.log }
        ensures fit { AllByRecursion IsSmallRes result.items }
        ensures rests { self.new ≡ record { rows = self.old.rows; log = [] } }
    {
        self.table.take_changes()
    }
}
