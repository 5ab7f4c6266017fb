//! The numbers in tables of what is one of a few things, and the words that files, requests, answers
//! and reports share.
ghost use Rattle.std.specs.Prelude.{◌≡◌, IfOk, IfSome, false, string_bytes};
ghost use Rattle.farm_types.specs.Limits.{is_every};
ghost use Rattle.farm_types.specs.Called.{health_called, outcome_called, unit_of, unit_word};
ghost use Rattle.farm_types.specs.Called.{unit_called, holder_text, claim_word};
ghost use Rattle.farm_types.specs.Codes.{health_code, health_with, health_word, state_code};
ghost use Rattle.farm_types.specs.Codes.{state_with, state_word, job_state_code, job_state_with};
ghost use Rattle.farm_types.specs.Codes.{job_state_word, outcome_code, outcome_with, outcome_word};
ghost use Rattle.farm_types.specs.Codes.{res_state_code, res_state_with, res_state_word};
ghost use Rattle.farm_types.specs.Codes.{same_outcome};
ghost use Rattle.farm_types.specs.Proper.{is_frequency};
ghost use Rattle.farm_types.specs.declared.rows.Outcome.{Outcome};

use crate::claims::ClaimKind;
use crate::limits::LONGEST_EVERY;
use crate::rows::{Check, Health, Holder, JobState, Outcome, ResState, State};
use std::alloc::{AllocError, Global};

/// Whether a check's frequency may be that number, 1 to 10,000.
pub fn is_every(number: u64) -> bool
    ensures { result ≡ is_every number }
{
    1 <= number && number <= LONGEST_EVERY
}

/// What a check's frequency counts.
#[derive(Clone, Copy, Debug, PartialEq, Eq)]
pub enum CheckUnit {
    None,
    Hours,
    Jobs,
}

impl CheckUnit {
    /// The unit that a word names; none for other words.
    pub fn called(text: &str) -> Option<CheckUnit>
        ensures { result ≡ unit_called text.now }
    {
        let units = [CheckUnit::None, CheckUnit::Hours, CheckUnit::Jobs];
        units.into_iter().find(|unit| text == unit.word())
    }

    /// Its word.
    pub fn word(self) -> &'static str
        ensures { result.now ≡ unit_word self }
    {
        ["none", "hours", "jobs"][self as usize]
    }
}

impl Check {
    /// What its frequency counts.
    pub fn unit(self) -> CheckUnit
        ensures { result ≡ unit_of self }
    {
        match self {
            Check::Never => CheckUnit::None,
            Check::Hours(_) => CheckUnit::Hours,
            Check::Jobs(_) => CheckUnit::Jobs,
        }
    }

    /// Whether its frequency, if it has one, is 1 to 10,000.
    pub fn is_frequency(self) -> bool
        ensures { result ≡ is_frequency self }
    {
        match self {
            Check::Never => true,
            Check::Hours(n) | Check::Jobs(n) => is_every(n),
        }
    }
}

impl Holder {
    /// Who holds a board: `none`, `job 1` or `reservation 1`.
    pub fn text(self, alloc: Global) -> Result<String, AllocError>
        ensures { IfOk result (λ text. string_bytes text ≡ holder_text self) }
    {
        match self {
            Holder::Nobody => String::from_str(alloc, "none"),
            Holder::Job(number) => format!(in alloc; "job {number}"),
            Holder::Res(number) => format!(in alloc; "reservation {number}"),
        }
    }
}

impl ClaimKind {
    /// The word for who waits.
    pub fn word(self) -> &'static str
        ensures { result.now ≡ claim_word self }
    {
        ["group", "reservation"][self as usize]
    }
}

impl Health {
    /// Its number in the tables.
    pub fn code(self) -> u64
        ensures { result ≡ health_code self }
    {
        self as u64 // Good is 0, Retired is 4
    }

    /// The one with that number; none for other numbers.
    pub fn from_code(code: u64) -> Option<Health>
        ensures { result ≡ health_with code }
    {
        use Health::{Bad, Good, Maintenance, Retired, Unknown};
        let by_number = [Good, Bad, Unknown, Maintenance, Retired];
        by_number.get(code as usize).copied()
    }

    /// Its word in answers and reports.
    pub fn word(self) -> &'static str
        ensures { result.now ≡ health_word self }
    {
        ["Good", "Bad", "Unknown", "Maintenance", "Retired"][self as usize]
    }

    /// The health that a word names; none for other words.
    pub fn called(text: &str) -> Option<Health>
        ensures { result ≡ health_called text.now }
    {
        match text {
            "Good" => Some(Health::Good),
            "Bad" => Some(Health::Bad),
            "Unknown" => Some(Health::Unknown),
            "Maintenance" => Some(Health::Maintenance),
            "Retired" => Some(Health::Retired),
            _ => None,
        }
    }
}

impl State {
    /// Its number in the tables.
    pub fn code(self) -> u64
        ensures { result ≡ state_code self }
    {
        self as u64 // Idle is 0, Running is 2
    }

    /// The one with that number; none for other numbers.
    pub fn from_code(code: u64) -> Option<State>
        ensures { result ≡ state_with code }
    {
        use State::{Idle, Reserved, Running};
        [Idle, Reserved, Running].get(code as usize).copied()
    }

    /// Its word in answers and reports.
    pub fn word(self) -> &'static str
        ensures { result.now ≡ state_word self }
    {
        ["Idle", "Reserved", "Running"][self as usize]
    }
}

impl JobState {
    /// Its number in the tables.
    pub fn code(self) -> u64
        ensures { result ≡ job_state_code self }
    {
        self as u64 // Submitted is 0, Finished is 5
    }

    /// The one with that number; none for other numbers.
    pub fn from_code(code: u64) -> Option<JobState>
        ensures { result ≡ job_state_with code }
    {
        use JobState::{Canceling, Finished, Running, Scheduled, Scheduling, Submitted};
        let by_number = [
            Submitted, Scheduling, Scheduled, Running, Canceling, Finished,
        ];
        by_number.get(code as usize).copied()
    }

    /// Its word in answers and reports.
    pub fn word(self) -> &'static str
        ensures { result.now ≡ job_state_word self }
    {
        match self {
            JobState::Submitted => "Submitted",
            JobState::Scheduling => "Scheduling",
            JobState::Scheduled => "Scheduled",
            JobState::Running => "Running",
            JobState::Canceling => "Canceling",
            JobState::Finished => "Finished",
        }
    }
}

impl Outcome {
    /// Its number in the tables.
    pub fn code(self) -> u64
        ensures { result ≡ outcome_code self }
    {
        self as u64 + 1 // Complete is 1, Canceled is 4
    }

    /// The one with that number; none for other numbers.
    pub fn from_code(code: u64) -> Option<Outcome>
        ensures { result ≡ outcome_with code }
    {
        use Outcome::{Canceled, Complete, Incomplete, Infra};
        let all = [Complete, Incomplete, Infra, Canceled];
        all.into_iter().find(|outcome| outcome.code() == code)
    }

    /// Its word in answers and reports.
    pub fn word(self) -> &'static str
        ensures { result.now ≡ outcome_word self }
    {
        ["Complete", "Incomplete", "Infra", "Canceled"][self as usize]
    }

    /// The outcome of a job's end that a word names; none for other words. A job is canceled by a
    /// command of its own, and not by its end.
    pub fn called(text: &str) -> Option<Outcome>
        ensures called { result ≡ outcome_called text.now }
        ensures ended { IfSome result (λ outcome. same_outcome outcome Outcome.Canceled ≡ false) }
    {
        use Outcome::{Complete, Incomplete, Infra};
        let all = [Complete, Incomplete, Infra];
        all.into_iter().find(|outcome| text == outcome.word())
    }
}

impl ResState {
    /// Its number in the tables.
    pub fn code(self) -> u64
        ensures { result ≡ res_state_code self }
    {
        self as u64 // Waiting is 0, Canceled is 4
    }

    /// The one with that number; none for other numbers.
    pub fn from_code(code: u64) -> Option<ResState>
        ensures { result ≡ res_state_with code }
    {
        use ResState::{Acquired, Allocated, Canceled, Expired, Waiting};
        let by_number = [Waiting, Allocated, Acquired, Expired, Canceled];
        by_number.get(code as usize).copied()
    }

    /// Its word in answers and reports.
    pub fn word(self) -> &'static str
        ensures { result.now ≡ res_state_word self }
    {
        ["waiting", "allocated", "acquired", "expired", "canceled"][self as usize]
    }
}
