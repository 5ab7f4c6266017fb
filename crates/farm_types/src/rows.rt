//! The rows of the six tables.
ghost use Rattle.std.specs.Prelude.{◌≡◌, ◌↔◌, [], None, IfOk, IsTrue};
ghost use Rattle.std.specs.List.{AllByRecursion};
ghost use Rattle.farm_types.specs.Change.{new_board};
ghost use Rattle.farm_types.specs.Pass.{new_job};
ghost use Rattle.farm_types.specs.Sound.{IsJobText, IsWithin, counts_of, texts_of};

use crate::limits::{LONGEST_TEXT, MOST_JOBS_SINCE};
use crate::words::{Body, Key, Name, Priority, Tags};
use std::alloc::{AllocError, Global};

/// How often a type's boards are checked.
#[derive(Clone, Copy, Debug, PartialEq, Eq)]
pub enum Check {
    Never,
    Hours(u64),
    Jobs(u64),
}

/// A board's health, after LAVA's device health.
#[derive(Clone, Copy, Debug, PartialEq, Eq)]
pub enum Health {
    Good,
    Bad,
    Unknown,
    Maintenance,
    Retired,
}

/// A board's state: in nobody's hands, given, or in use.
#[derive(Clone, Copy, Debug, PartialEq, Eq)]
pub enum State {
    Idle,
    Reserved,
    Running,
}

/// Who holds a board: a job or a reservation, by its number.
#[derive(Clone, Copy, Debug, PartialEq, Eq)]
pub enum Holder {
    Nobody,
    Job(u64),
    Res(u64),
}

/// A job's state, after LAVA's job states.
#[derive(Clone, Copy, Debug, PartialEq, Eq)]
pub enum JobState {
    Submitted,
    Scheduling,
    Scheduled,
    Running,
    Canceling,
    Finished,
}

/// How a job ended.
#[derive(Clone, Copy, Debug, PartialEq, Eq)]
pub enum Outcome {
    Complete,
    Incomplete,
    Infra,
    Canceled,
}

/// A reservation's state, after labgrid's reservations.
#[derive(Clone, Copy, Debug, PartialEq, Eq)]
pub enum ResState {
    Waiting,
    Allocated,
    Acquired,
    Expired,
    Canceled,
}

/// What a claim asks of one board.
#[derive(Debug, Drop)]
pub struct Want {
    /// The type that the board is to have; a reservation asks for no type.
    pub kind: Option<Name>,
    /// The tags that the board is to carry.
    pub tags: Tags,
}

/// A device type, and how often its boards are checked.
#[derive(Debug, Drop)]
pub struct TypeRow {
    /// Its name, which no other type has.
    pub name: Name,
    /// How often its boards are checked.
    pub check: Check,
}

/// A board: one device and one place.
#[derive(Debug, Drop)]
pub struct BoardRow {
    /// Its name, which no other board has.
    pub name: Name,
    /// The name of its type.
    pub kind: Name,
    /// What it carries, beside its own name.
    pub tags: Tags,
    /// Its health, by which it may be given to claims or not.
    pub health: Health,
    /// Whether it is free, given or in use.
    pub state: State,
    /// The job or the reservation that has it.
    pub holder: Holder,
    /// How many ordinary jobs it had since its last good check, up to `MOST_JOBS_SINCE`.
    pub jobs_since: u64,
    /// The moment of that check, in seconds since 1970; 0 before the first one.
    pub last_check: u64,
}

/// A job. Members of a group have consecutive numbers that begin with the group's.
#[derive(Debug, Drop)]
pub struct JobRow {
    /// Its number, which no other job or reservation has.
    pub number: u64,
    /// The number of its group, which is the first member's.
    pub group: u64,
    /// Whether it is a health check, which the farm made by itself.
    pub checking: bool,
    /// Who submitted it; of a health check `admin`.
    pub owner: Name,
    /// Its group's priority.
    pub priority: Priority,
    /// What it asks of its board.
    pub want: Want,
    /// Its part in the group, where its submission names one.
    pub role: Option<Name>,
    /// How far it is.
    pub state: JobState,
    /// How it ended; none before that.
    pub outcome: Option<Outcome>,
    /// The board that it was given, also after its end.
    pub board: Option<Name>,
    /// The text that it came with, which the farm never reads.
    pub body: Body,
}

/// A reservation of one board.
#[derive(Debug, Drop)]
pub struct ResRow {
    /// Its number, which no other job or reservation has.
    pub number: u64,
    /// Who asked for it.
    pub owner: Name,
    /// Its priority in the queue.
    pub priority: Priority,
    /// What it asks of its board.
    pub want: Want,
    /// How far it is.
    pub state: ResState,
    /// The moment at which a waiting or allocated one ends, in seconds since 1970.
    pub deadline: u64,
    /// The board that it was given.
    pub board: Option<Name>,
}

/// The three numbers of a reply.
#[derive(Clone, Copy, Debug, PartialEq, Eq)]
pub struct Reply(pub u64, pub u64, pub u64);

/// A reply that is kept under a caller's key, for the command of that kind.
#[derive(Debug, Drop)]
pub struct KeptRow {
    /// Who gave the command.
    pub caller: Name,
    /// The key that the command came with.
    pub key: Key,
    /// The command's number, 1 to 14, as `Cmd::kind` gives it.
    pub kind: u64,
    /// What it was answered.
    pub reply: Reply,
}

/// The farm's four numbers.
#[derive(Clone, Copy, Debug, PartialEq, Eq)]
pub struct MetaRow {
    /// The latest moment of an accepted command, in seconds since 1970.
    pub clock: u64,
    /// The group that collects boards; 0 where none does.
    pub collector: u64,
    /// How many commands were accepted.
    pub count: u64,
    /// The number of the next job or reservation.
    pub next: u64,
}

/// An equal name, if there is one.
pub fn copy_name(name: &Option<Name>) -> Option<Name>
    ensures { result ≡ name.now }
{
    name.as_ref().map(|name| name.copy())
}

impl Want {
    /// An equal want.
    pub fn copy(&self) -> Result<Want, AllocError>
        ensures { IfOk result (λ copy. copy ≡ self.now) }
    {
        let kind = copy_name(&self.kind);
        let tags = self.tags.copy()?;
        Ok(Want { kind, tags })
    }
}

impl TypeRow {
    /// An equal row.
    pub fn copy(&self) -> TypeRow
        ensures { result ≡ self.now }
    {
        let name = self.name.copy();
        TypeRow { name, ..*self }
    }
}

impl KeptRow {
    /// An equal row.
    pub fn copy(&self) -> KeptRow
        ensures { result ≡ self.now }
    {
        KeptRow {
            caller: self.caller.copy(),
            key: self.key.copy(),
            ..*self
        }
    }
}

impl BoardRow {
    /// A new board: in maintenance, idle, in nobody's hands, never checked.
    pub fn new(name: Name, kind: Name, tags: Tags) -> BoardRow
        ensures { result ≡ new_board name kind tags }
    {
        BoardRow {
            name,
            kind,
            tags,
            health: Health::Maintenance,
            state: State::Idle,
            holder: Holder::Nobody,
            jobs_since: 0,
            last_check: 0,
        }
    }

    /// Whether its numbers are within their limits.
    pub fn is_within_limits(&self) -> bool
        ensures { IsTrue result ↔ AllByRecursion IsWithin (counts_of self.now) }
    {
        self.jobs_since <= MOST_JOBS_SINCE
    }

    /// An equal row.
    pub fn copy(&self) -> Result<BoardRow, AllocError>
        ensures { IfOk result (λ copy. copy ≡ self.now) }
    {
        Ok(BoardRow {
            name: self.name.copy(),
            kind: self.kind.copy(),
            tags: self.tags.copy()?,
            ..*self
        })
    }
}

impl JobRow {
    /// A new job, which waits for its board: no check, without role and text.
    pub fn new(
        alloc: Global,
        number: u64,
        group: u64,
        owner: Name,
        priority: Priority,
        want: Want,
    ) -> JobRow
        ensures { result ≡ new_job number group owner priority want None [] }
    {
        JobRow {
            number,
            group,
            checking: false,
            owner,
            priority,
            want,
            role: None,
            state: JobState::Submitted,
            outcome: None,
            board: None,
            body: Body::none(alloc),
        }
    }

    /// Whether the texts that it carries are within their limit.
    pub fn is_within_limits(&self) -> bool
        ensures { IsTrue result ↔ AllByRecursion IsJobText (texts_of self.now) }
    {
        let _body = self.body.as_str();
        self.body.len() <= LONGEST_TEXT
    }

    /// An equal row.
    pub fn copy(&self) -> Result<JobRow, AllocError>
        ensures { IfOk result (λ copy. copy ≡ self.now) }
    {
        Ok(JobRow {
            owner: self.owner.copy(),
            want: self.want.copy()?,
            role: copy_name(&self.role),
            board: copy_name(&self.board),
            body: self.body.copy()?,
            ..*self
        })
    }
}

impl ResRow {
    /// An equal row.
    pub fn copy(&self) -> Result<ResRow, AllocError>
        ensures { IfOk result (λ copy. copy ≡ self.now) }
    {
        Ok(ResRow {
            owner: self.owner.copy(),
            want: self.want.copy()?,
            board: copy_name(&self.board),
            ..*self
        })
    }
}
