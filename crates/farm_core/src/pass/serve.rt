//! Claims are served: each is given the least list of free boards that meets it.
ghost use Rattle.std.specs.Prelude.{◌≡◌, ◌≤◌, ◌==◌, [], true, false, None, Some, map};
ghost use Rattle.std.specs.Prelude.{◌&&◌, length, take};
ghost use Rattle.std.specs.Prelude.{◌<◌, OnOk, IfOk, IfSome, option_map};
ghost use Rattle.std.specs.List.{All, filter, list_all};
ghost use Rattle.farm_types.specs.Limits.{last_moment, most_wants};
ghost use Rattle.farm_types.specs.Pass.{is_group, serve, serve_all};
ghost use Rattle.farm_types.specs.Pick.{IsAmong, Claimed, least, is_free, queue, shown_claim};
ghost use Rattle.farm_types.specs.Pick.{waits};
ghost use Rattle.farm_types.specs.Small.{IsSmall};
ghost use Rattle.farm_types.specs.Sound.{IsSound};
ghost use Rattle.farm_pick.specs.Least.{boards_at};
ghost use Rattle.farm_pick.specs.Queued.{idle_boards, queue_lists};
ghost use Rattle.farm_core.specs.Came.{CameTo, LeadOn, seen};
ghost use Rattle.farm_core.specs.Plain.{plain_farm};
ghost use Rattle.farm_core.specs.Serving.{AreMisses, MatchesRows, Begins, Serves, Tries};
ghost use Rattle.farm_core.specs.Serving.{boards_for};
ghost use Rattle.farm_core.specs.Serving.{wants_of};

use crate::pass::next_claim::Misses;
use crate::tables::Tables;
use arrayvec::ArrayVec;
use farm_pick::Picked;
use farm_types::{ClaimKind, JobRow, JobState, MOST_WANTS, Want};
use std::alloc::AllocError;
use std::collections::VecDeque;

/// The numbers of a group's members among a few rows.
pub fn numbers_in(rows: &[JobRow], group: u64) -> ArrayVec<u64, MOST_WANTS>
    requires { length rows.now ≤ most_wants }
    ensures { result.items ≡ map (λ j. j.number) (filter (λ j. j.group == group) rows.now) }
{
    let mut numbers = ArrayVec::new();
    for row in rows {
        if row.group == group {
            numbers.push(row.number);
        }
    }
    numbers
}

/// Whether a group's members all wait for boards, among some rows.
fn all_wait(rows: &[JobRow], group: u64) -> bool
    ensures { result ≡ list_all waits (filter (λ j. j.group == group) rows.now) }
{
    let mut members = rows.iter().filter(|row| row.group == group);
    members.all(|row| matches!(row.state, JobState::Submitted | JobState::Scheduling))
}

/// How many members a group has among some rows.
fn count_in(rows: &[JobRow], group: u64) -> u64
    ensures { result ≡ length (filter (λ j. j.group == group) rows.now) }
{
    rows.iter().filter(|row| row.group == group).count() as u64
}

/// What a group's members want, among a few rows, and how many these are; behind them another want
/// fills the places.
pub fn wants_in<'a>(
    rows: &'a [JobRow],
    group: u64,
    other: &'a Want,
) -> ([&'a Want; MOST_WANTS], usize)
    requires { length rows.now ≤ most_wants }
    ensures few { result.1 ≤ most_wants }
    ensures wants { map (λ w. w.now) (take result.1 result.0) ≡ map (λ j. j.want)
        (filter (λ j. j.group == group) rows.now) }
{
    let mut wants = [other; MOST_WANTS];
    let mut count = 0;
    for row in rows {
        if row.group == group {
            wants[count] = &row.want;
            count += 1;
        }
    }
    (wants, count)
}

/// Whether a claim, by its kind and its number, is that of a group.
fn is_of_group(kind: ClaimKind, number: u64, group: u64) -> bool
    ensures { (c : Claimed) → (shown_claim c).kind ≡ kind → c.number ≡ number
        → is_group group c ≡ result }
{
    matches!(kind, ClaimKind::Group) && number == group
}

impl Tables {
    /// The places of the least list of free boards that meets some wants. At most 4 tests a free
    /// board, and no memory.
    pub fn pick(&self, wants: &[&Want]) -> Option<Picked>
        requires free { self.now.queues.boards ≡ idle_boards (plain_farm self.now) }
        requires few { length wants.now ≤ most_wants }
        ensures least { option_map (boards_at (plain_farm self.now).boards) result
            ≡ least (plain_farm self.now).boards (is_free (plain_farm self.now).types)
            (map (λ w. w.now) wants.now) }
        ensures len { IfSome result (λ places. length places ≡ length wants.now) }
        ensures within { IfSome result
            (λ places. All (λ at. at < length (plain_farm self.now).boards) places) }
    {
        let (boards, types) = (self.boards.rows(), self.types.rows());
        self.queues.least_of(boards, types, wants)
    }

    /// The places of the boards for a claim, by its kind and its number.
    fn pick_for(&self, kind: ClaimKind, number: u64) -> Option<Picked>
        requires { self.now.queues.boards ≡ idle_boards (plain_farm self.now) }
        ensures least { option_map (boards_at (plain_farm self.now).boards) result
            ≡ least (plain_farm self.now).boards (is_free (plain_farm self.now).types)
            (wants_of (plain_farm self.now) kind number) }
        ensures within { IfSome result
            (λ places. All (λ at. at < length (plain_farm self.now).boards) places) }
    {
        match self.wants_of(kind, number) {
            None => self.pick(&[]),
            Some(found) => self.pick(&found.0[..found.1]),
        }
    }

    /// How many boards a group waits for, if it is a claim, and else none.
    fn waits_for(&self, group: u64) -> u64
        requires small { IsSmall group }
        ensures { result ≡ boards_for (plain_farm self.now) group }
    {
        let rows = self.member_rows(group);
        match self.find_job(group) {
            Some(job) if job.group == group && all_wait(rows, group) => count_in(rows, group),
            _ => 0,
        }
    }

    /// Gives a claim, by its kind and its number, its boards, where free ones meet it.
    fn serve_claim(&mut self, kind: ClaimKind, number: u64) -> Result<bool, AllocError>
        requires small { IsSmall number }
        requires clock { self.old.clock ≤ last_moment }
        requires free { self.old.queues.boards ≡ idle_boards (plain_farm self.old) }
        ensures tries { IfOk result (λ served. (c : Claimed) → (shown_claim c).kind ≡ kind
            → c.number ≡ number → MatchesRows c.reservation (plain_farm self.old) c
            → Tries (seen self.old) c served (seen self.new)) }
        ensures logs { OnOk result (LeadOn self.old self.new) }
    {
        let Some(picked) = self.pick_for(kind, number) else {
            return Ok(false);
        };
        let places = picked.places();
        self.take_assigned(number, places);
        match kind {
            ClaimKind::Group => {
                let numbers = numbers_in(self.member_rows(number), number);
                self.assign_jobs(&numbers, places)?;
            }
            ClaimKind::Reservation => self.assign_reservation(number, places)?,
        }
        Ok(true)
    }

    /// A claim that isn't met stays; a group of two members or more collects, where none does yet.
    fn pass_over(&mut self, kind: ClaimKind, number: u64, boards: u64) -> Result<(), AllocError>
        requires sound { IsSound (plain_farm self.old) }
        requires small { IsSmall number }
        requires free { self.old.queues.boards ≡ idle_boards (plain_farm self.old) }
        ensures serves { OnOk result ((c : Claimed) → (shown_claim c).kind ≡ kind
            → c.number ≡ number → length c.wants ≡ boards
            → least (plain_farm self.old).boards (is_free (plain_farm self.old).types) c.wants ≡ None
            → Serves (seen self.old) c false (seen self.new)) }
        ensures logs { OnOk result (LeadOn self.old self.new) }
    {
        if self.collector == 0 && kind == ClaimKind::Group && boards >= 2 {
            self.collect_group(number)?;
        }
        Ok(())
    }

    /// Tries a claim. One that isn't met is remembered, since where boards are only taken away,
    /// what was unmet stays so; and it may collect.
    fn try_claim(
        &mut self,
        misses: &mut Misses,
        kind: ClaimKind,
        number: u64,
        boards: u64,
    ) -> Result<bool, AllocError>
        requires sound { IsSound (plain_farm self.old) }
        requires waits { (c : Claimed) × IsAmong c (queue (plain_farm self.old))
            × ((shown_claim c).kind ≡ kind) × (c.number ≡ number) × (length c.wants ≡ boards) }
        requires small { IsSmall number }
        requires clock { self.old.clock ≤ last_moment }
        requires free { self.old.queues.boards ≡ idle_boards (plain_farm self.old) }
        requires miss { AreMisses (plain_farm self.old) misses.old.items }
        ensures serves { IfOk result (λ served. (c : Claimed) → (shown_claim c).kind ≡ kind
            → c.number ≡ number → IsAmong c (queue (plain_farm self.old))
            → Serves (seen self.old) c served (seen self.new)) }
        ensures miss { OnOk result (AreMisses (plain_farm self.new) misses.new.items) }
        ensures logs { OnOk result (LeadOn self.old self.new) }
    {
        let served = self.serve_claim(kind, number)?;
        if served {
            return Ok(true);
        }
        self.note_miss(misses, kind, number)?;
        self.pass_over(kind, number, boards)?;
        Ok(false)
    }

    /// Tries the group that collected before, if it is still a claim: it goes first. Gives how many
    /// were served, one or none.
    fn serve_former(&mut self, misses: &mut Misses, former: u64) -> Result<u64, AllocError>
        requires sound { IsSound (plain_farm self.old) }
        requires small { IsSmall former }
        requires fits { self.old.queues ≡ queue_lists (plain_farm self.old) }
        requires miss { AreMisses (plain_farm self.old) misses.old.items }
        ensures begun { IfOk result (λ n. Begins (seen self.old) former n (seen self.new)) }
        ensures miss { OnOk result (AreMisses (plain_farm self.new) misses.new.items) }
        ensures logs { OnOk result (LeadOn self.old self.new) }
    {
        let boards = self.waits_for(former);
        if boards == 0 {
            return Ok(0);
        }
        let served = self.try_claim(misses, ClaimKind::Group, former, boards)?;
        Ok(u64::from(served))
    }

    /// Serves the claims, first that of the group that collected before and then the others of the
    /// open queues, one after the other in the order of the whole queue, each where free boards
    /// meet it: one that waits holds up none behind it. While nobody collects, the first group of
    /// two members or more that isn't met does, be its queue open or not. Gives how many were
    /// served.
    ///
    /// A single claim whose queue has no free board isn't looked at, and one that wants the same as
    /// one of the last eight that were found unmet is passed over, unless it may collect. With K
    /// queues, C claims in open ones, J jobs and F free boards it costs O(K + log J) for each of the
    /// C claims, and O(K log C + F) more for each for which boards are searched.
    pub fn serve(&mut self, former: u64) -> Result<u64, AllocError>
        requires sound { IsSound (plain_farm self.old) }
        requires nobody { self.old.collector ≡ 0 }
        requires small { IsSmall former }
        requires fits { self.old.queues ≡ queue_lists (plain_farm self.old) }
        ensures came { OnOk result (CameTo self.old (record {
          farm = (serve_all (plain_farm self.old) former self.old.clock).farm;
          queues = queue_lists (serve_all (plain_farm self.old) former self.old.clock).farm;
        }) self.new) }
        ensures count { IfOk result
            (λ n. n ≡ (serve_all (plain_farm self.old) former self.old.clock).claims) }
    {
        let mut misses = VecDeque::new(*self.boards.allocator());
        let mut count = self.serve_former(&mut misses, former)?;
        let mut last = None;
        while let Some(claim) = self.next_claim(&misses, last)? {
            let (kind, number, boards) = (claim.kind, claim.number, claim.boards);
            last = Some((claim.priority, number));
            if !is_of_group(kind, number, former) {
                let served = self.try_claim(&mut misses, kind, number, boards)?;
                count += u64::from(served);
            }
        }
        Ok(count)
    }
}
