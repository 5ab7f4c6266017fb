//! The checks of a pass: a job of the program's own for each due board.
ghost use Rattle.std.specs.Prelude.{◌≡◌, ◌-◌, ◌<◌, codes, length, get_or, OnOk, IfOk};
ghost use Rattle.std.specs.List.{list_any};
ghost use Rattle.farm_types.specs.Limits.{highest_priority};
ghost use Rattle.farm_types.specs.Pass.{check_job, check_one, checks, is_due, is_due_by};
ghost use Rattle.farm_types.specs.Pass.{is_reached};
ghost use Rattle.farm_types.specs.Pick.{check_of, is_checked};
ghost use Rattle.farm_types.specs.declared.rows.BoardRow.{BoardRow};
ghost use Rattle.farm_core.specs.Came.{CameTo, seen, seen_at};
ghost use Rattle.farm_core.specs.Plain.{plain_farm};

use crate::tables::Tables;
use farm_types::{
    BoardRow, Check, HIGHEST_PRIORITY, Health, Holder, JobRow, JobState, Name, Priority, Tags, Want,
};
use std::alloc::{AllocError, Global};

/// The seconds of an hour.
const HOUR: u64 = 3600;

/// Whether a board has stood for so long, or been used so often, since its last check that its type
/// wants another.
fn is_reached(now: u64, board: &BoardRow, check: Check) -> bool
    ensures { result ≡ is_reached now board.now check }
{
    match check {
        Check::Never => false,
        Check::Hours(hours) => hours
            .checked_mul(HOUR)
            .is_some_and(|seconds| seconds <= now.saturating_sub(board.last_check)),
        Check::Jobs(jobs) => jobs <= board.jobs_since,
    }
}

/// Whether a free board is to be checked: one of unknown health is, and a good one when the time
/// has come.
fn is_due_by(check: Check, now: u64, board: &BoardRow) -> bool
    ensures { result ≡ is_due_by check now board.now }
{
    match board.health {
        Health::Unknown => check != Check::Never,
        Health::Good => is_reached(now, board, check),
        Health::Bad | Health::Maintenance | Health::Retired => false,
    }
}

/// The name of the admin, who owns the checks.
#[tactic(auto, unfolding(farm_types::specs::Words::is_word))]
fn admin_name() -> Name
    ensures { result ≡ codes "admin" }
{
    Name::of(b"admin")
}

/// The priority of checks.
fn highest_priority() -> Priority
    ensures { result ≡ highest_priority }
{
    Priority::of(HIGHEST_PRIORITY).unwrap_or_else(|_| unreachable!())
}

/// The row of the job that checks a board.
fn check_job(alloc: Global, number: u64, board: &BoardRow) -> JobRow
    ensures { result ≡ check_job number board.now }
{
    let kind = Some(board.kind.copy());
    let tags = Tags::none(alloc);
    let want = Want { kind, tags };
    let (owner, priority) = (admin_name(), highest_priority());
    let mut row = JobRow::new(alloc, number, number, owner, priority, want);
    row.checking = true;
    row.state = JobState::Scheduled;
    row.board = Some(board.name.copy());
    row
}

impl Tables {
    /// How often boards of a type are checked.
    fn check_of(&self, kind: &Name) -> Check
        ensures { result ≡ check_of (plain_farm self.now).types kind.now }
    {
        self.find_type(kind).map_or(Check::Never, |row| row.check)
    }

    /// Whether boards of some type are checked.
    fn has_checks(&self) -> bool
        ensures { result ≡ list_any (λ t. is_checked t.check) (plain_farm self.now).types }
    {
        let types = self.types.rows();
        types.iter().any(|row| row.check != Check::Never)
    }

    /// Whether a board is to be checked now.
    fn is_due(&self, board: &BoardRow) -> bool
        ensures { result ≡ is_due (plain_farm self.now) (plain_farm self.now).clock board.now }
    {
        matches!(board.holder, Holder::Nobody)
            && is_due_by(self.check_of(&board.kind), self.clock, board)
    }

    /// Checks the board at a place, where there is room for one more job.
    fn check_board(&mut self, at: usize) -> Result<(), AllocError>
        requires { at < length (plain_farm self.old).boards }
        ensures { OnOk result ((b : BoardRow) → b ≡ get_or (plain_farm self.old).boards at b
            → CameTo self.old (seen_at (check_one (plain_farm self.old) b) (seen self.old)) self.new) }
    {
        if !self.has_room(1) {
            return Ok(());
        }
        let number = self.next;
        let board = &self.boards.rows()[at];
        let row = check_job(*self.boards.allocator(), number, board);
        self.jobs.put(row)?;
        self.reserve_board(at, Holder::Job(number))?;
        self.next = number + 1;
        Ok(())
    }

    /// Checks each due board in name order, while there is room. Gives how many. With B boards it
    /// looks at each once, or at none where boards of no type are checked, and a check adds its row
    /// at the end of the jobs.
    pub fn checks(&mut self) -> Result<u64, AllocError>
        ensures came { OnOk result (CameTo self.old (seen_at
            (checks (plain_farm self.old) self.old.clock) (seen self.old)) self.new) }
        ensures count { IfOk result
            (λ n. n ≡ (checks (plain_farm self.old) self.old.clock).next - self.old.next) }
    {
        if !self.has_checks() {
            return Ok(0);
        }
        let (first, count) = (self.next, self.boards.len());
        for at in 0..count {
            if self.is_due(&self.boards.rows()[at]) {
                self.check_board(at)?;
            }
        }
        Ok(self.next - first)
    }
}
