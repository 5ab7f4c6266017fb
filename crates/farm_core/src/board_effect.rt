//! What becomes of a board.
ghost use Rattle.std.specs.Prelude.{◌≡◌, ◌≤◌, min};
ghost use Rattle.farm_types.specs.Change.{graded_board, after_job, after_check};
ghost use Rattle.farm_types.specs.Pass.{held_board};

use farm_table::Edit;
use farm_types::{BoardRow, Health, Holder, MOST_JOBS_SINCE, Outcome, State};

/// What becomes of a board.
#[derive(Clone, Copy, Debug, PartialEq, Eq)]
pub enum BoardEffect {
    /// It is in nobody's hands.
    Free,
    /// Its holder goes on, and it is in that state.
    State(State),
    /// It is reserved for a holder.
    Reserve(Holder),
    /// Its job, or its check, ended at a moment.
    End {
        checking: bool,
        outcome: Outcome,
        now: u64,
    },
}

/// The board is in the holder's hands.
fn set_holder(row: &mut BoardRow, holder: Holder, state: State)
    ensures { row.new ≡ held_board holder state row.old }
{
    row.holder = holder;
    row.state = state;
}

/// A Good or Unknown board has the health; others keep theirs.
fn grade(row: &mut BoardRow, health: Health)
    ensures { row.new ≡ graded_board health row.old }
{
    if matches!(row.health, Health::Good | Health::Unknown) {
        row.health = health;
    }
}

/// What an ordinary job leaves: one more job, and a health to be checked after trouble of the lab.
fn finish_job(row: &mut BoardRow, outcome: Outcome)
    ensures { row.new ≡ after_job outcome row.old }
{
    row.jobs_since = row.jobs_since.saturating_add(1).min(MOST_JOBS_SINCE);
    if matches!(outcome, Outcome::Infra) {
        grade(row, Health::Unknown);
    }
}

/// What a check leaves: its outcome grades the board.
fn finish_check(row: &mut BoardRow, outcome: Outcome, now: u64)
    ensures { row.new ≡ after_check outcome now row.old }
{
    match outcome {
        Outcome::Complete => {
            row.jobs_since = 0;
            row.last_check = now;
            grade(row, Health::Good);
        }
        Outcome::Incomplete | Outcome::Infra => grade(row, Health::Bad),
        Outcome::Canceled => {}
    }
}

impl Edit<BoardRow> for BoardEffect {
    ghost use Rattle.std.specs.Prelude.{true};
    ghost use Rattle.farm_core.specs.Edits.{board_after};

    ghost passes = { λ e b. true };

    ghost changed = { board_after };

    fn passes(&self, _row: &BoardRow) -> bool {
        true
    }

    fn change(&self, row: &mut BoardRow) {
        match *self {
            BoardEffect::Free => set_holder(row, Holder::Nobody, State::Idle),
            BoardEffect::State(state) => row.state = state,
            BoardEffect::Reserve(holder) => set_holder(row, holder, State::Reserved),
            BoardEffect::End {
                checking,
                outcome,
                now,
            } => {
                if checking {
                    finish_check(row, outcome, now);
                } else {
                    finish_job(row, outcome);
                }
                set_holder(row, Holder::Nobody, State::Idle);
            }
        }
    }
}
