//! What a caller asks, and what the farm answers.
ghost use Rattle.std.specs.Prelude.{◌≡◌, ◌≤◌, length, IsTrue, IfOk, MatchResult, false};
ghost use Rattle.farm_types.specs.Limits.{are_few_wants, most_wants};
ghost use Rattle.farm_types.specs.Proper.{is_proper};

use crate::limits::MOST_WANTS;
use crate::refusal::{BAD_COUNT, Refusal};
use crate::rows::{
    BoardRow, Check, Health, JobRow, KeptRow, MetaRow, Outcome, Reply, ResRow, TypeRow, Want,
};
use crate::words::{Body, Key, Name, Priority, Tags};
use std::alloc::AllocError;
use std::marker::Model;

/// One up to four wants.
#[derive(Debug, Drop)]
pub struct Wants {
    items: Vec<Want>,
}

impl Model for Wants {
    ghost use Rattle.std.specs.Prelude.{List, ℕ, IsTrue};
    ghost use Rattle.farm_types.specs.declared.rows.Want.{Want};

    ghost Value = { List Want };

    ghost use Rattle.farm_types.specs.Limits.{are_few_wants};

    ghost view = { λ t. t.items.items };

    ghost invariant = { λ t. IsTrue (are_few_wants t.items.items) };
}

impl Wants {
    /// The wants of a list; refused as a bad count where there is none, or more than four.
    pub fn of(items: Vec<Want>) -> Result<Wants, Refusal>
        ensures { MatchResult result (λ wants. (wants ≡ items.items)
            × IsTrue (are_few_wants items.items)) (λ refusal. (refusal.code ≡ BAD_COUNT)
            × (are_few_wants items.items ≡ false)) }
    {
        Refusal::unless(1 <= items.len() && items.len() <= MOST_WANTS, BAD_COUNT)?;
        Ok(Wants { items })
    }

    /// The wants in order.
    pub fn items(&self) -> &[Want]
        ensures items { result.now ≡ self.now }
        ensures some { 1 ≤ length self.now }
        ensures few { length self.now ≤ most_wants }
    {
        self.items.as_slice()
    }

    /// Equal wants.
    pub fn copy(&self) -> Result<Wants, AllocError>
        ensures { IfOk result (λ wants. wants ≡ self.now) }
    {
        let mut items = Vec::new(*self.items.allocator());
        for want in self.items.as_slice() {
            items.push(want.copy()?)?;
        }
        Ok(Wants { items })
    }
}

/// A role, or none, for each want.
#[derive(Debug, Drop)]
pub struct Roles {
    items: Vec<Option<Name>>,
}

impl Model for Roles {
    ghost use Rattle.std.specs.Prelude.{List, ℕ, Option};

    ghost Value = { List (Option (List ℕ)) };

    ghost view = { λ t. t.items.items };
}

impl Roles {
    /// The roles of a list.
    pub fn of(items: Vec<Option<Name>>) -> Roles
        ensures { result ≡ items.items }
    {
        Roles { items }
    }

    /// The roles in order.
    pub fn items(&self) -> &[Option<Name>]
        ensures { result.now ≡ self.now }
    {
        self.items.as_slice()
    }
}

/// One of the fourteen commands.
#[derive(Debug, Drop)]
pub enum Cmd {
    AddType(Name, Check),
    AddBoard(Name, Name, Tags),
    SetTags(Name, Tags),
    SetHealth(Name, Health),
    Submit(Priority, Wants, Roles, Body),
    Cancel(u64),
    Start(u64),
    Finish(u64, Outcome),
    Reserve(Priority, Tags),
    Acquire(u64),
    Release(u64),
    Refresh(u64),
    CancelRes(u64),
    Pass,
}

// Each word is read before it goes into a command or a call: what `as_str`, `items` and `get` ensure is
// how its rule is known there.
impl Cmd {
    ghost use Rattle.farm_types.specs.Proper.{is_proper_cmd, is_frequency, has_no_name_tag};
    ghost use Rattle.farm_types.specs.Refuse.{kind_of};
    ghost use Rattle.farm_types.specs.declared.calls.Cmd.{Cmd};

    /// The number of the command.
    pub fn kind(&self) -> u64
        ensures { result ≡ kind_of self.now }
    {
        match self {
            Cmd::AddType(_, _) => 1,
            Cmd::AddBoard(_, _, _) => 2,
            Cmd::SetTags(_, _) => 3,
            Cmd::SetHealth(_, _) => 4,
            Cmd::Submit(_, _, _, _) => 5,
            Cmd::Cancel(_) => 6,
            Cmd::Start(_) => 7,
            Cmd::Finish(_, _) => 8,
            Cmd::Reserve(_, _) => 9,
            Cmd::Acquire(_) => 10,
            Cmd::Release(_) => 11,
            Cmd::Refresh(_) => 12,
            Cmd::CancelRes(_) => 13,
            Cmd::Pass => 14,
        }
    }

    /// The command that adds a type; its check's frequency is 1 to 10,000.
    #[tactic(auto, unfolding(crate::specs::Proper::is_proper_cmd))]
    pub fn add_type(name: Name, check: Check) -> Cmd
        requires { IsTrue (is_frequency check) }
        ensures cmd { result ≡ Cmd.AddType name check }
        ensures proper { IsTrue (is_proper_cmd result) }
    {
        let _name = name.as_str();
        Cmd::AddType(name, check)
    }

    /// The command that adds a board; none of its tags has the key `name`.
    #[tactic(auto, unfolding(crate::specs::Proper::is_proper_cmd))]
    pub fn add_board(name: Name, kind: Name, tags: Tags) -> Cmd
        requires { IsTrue (has_no_name_tag tags) }
        ensures cmd { result ≡ Cmd.AddBoard name kind tags }
        ensures proper { IsTrue (is_proper_cmd result) }
    {
        let (_name, _kind, _tags) = (name.as_str(), kind.as_str(), tags.items());
        Cmd::AddBoard(name, kind, tags)
    }

    /// The command that gives a board other tags, none with the key `name`.
    #[tactic(auto, unfolding(crate::specs::Proper::is_proper_cmd))]
    pub fn set_tags(name: Name, tags: Tags) -> Cmd
        requires { IsTrue (has_no_name_tag tags) }
        ensures cmd { result ≡ Cmd.SetTags name tags }
        ensures proper { IsTrue (is_proper_cmd result) }
    {
        let (_name, _tags) = (name.as_str(), tags.items());
        Cmd::SetTags(name, tags)
    }

    /// The command that gives a board another health.
    #[tactic(auto, unfolding(crate::specs::Proper::is_proper_cmd))]
    pub fn set_health(name: Name, health: Health) -> Cmd
        ensures cmd { result ≡ Cmd.SetHealth name health }
        ensures proper { IsTrue (is_proper_cmd result) }
    {
        let _name = name.as_str();
        Cmd::SetHealth(name, health)
    }

    /// The command that reserves a board with these tags.
    #[tactic(auto, unfolding(crate::specs::Proper::is_proper_cmd))]
    pub fn reserve(priority: Priority, tags: Tags) -> Cmd
        ensures cmd { result ≡ Cmd.Reserve priority tags }
        ensures proper { IsTrue (is_proper_cmd result) }
    {
        let (_priority, _tags) = (priority.get(), tags.items());
        Cmd::Reserve(priority, tags)
    }
}

/// A command, and who gives it when.
#[derive(Debug, Drop)]
pub struct Call {
    /// Who gives it.
    pub caller: Name,
    /// The key under which its reply is kept; without one it is kept nowhere.
    pub key: Option<Key>,
    /// The moment, in seconds since 1970.
    pub now: u64,
    /// What is asked.
    pub cmd: Cmd,
    ghost proper: { IsTrue (is_proper caller key cmd) },
}

impl Call {
    ghost use Rattle.farm_types.specs.Proper.{is_proper_cmd};

    /// The call of a proper command.
    pub fn new(caller: Name, key: Option<Key>, now: u64, cmd: Cmd) -> Call
        requires { IsTrue (is_proper_cmd cmd) }
        ensures caller { result.caller ≡ caller }
        ensures key { result.key ≡ key }
        ensures now { result.now ≡ now }
        ensures cmd { result.cmd ≡ cmd }
    {
        let _caller = caller.as_str();
        let _key = key.as_ref().map(|key| key.as_str());
        Call {
            caller,
            key,
            now,
            cmd,
        }
    }
}

/// The rows of the six tables.
#[derive(Debug, Drop)]
pub struct Rows {
    /// Device types, by name.
    pub types: Vec<TypeRow>,
    /// Boards, by name.
    pub boards: Vec<BoardRow>,
    /// Jobs, by number.
    pub jobs: Vec<JobRow>,
    /// Reservations, by number.
    pub reservations: Vec<ResRow>,
    /// Kept replies, by caller and key.
    pub kept: Vec<KeptRow>,
    /// The farm's four numbers.
    pub meta: MetaRow,
}

/// Whole rows, to be put one after another by their keys. The four numbers are put whole.
pub type Changes = Rows;

/// What the farm answers to a call.
#[derive(Debug, Drop)]
pub enum Answer {
    Did(Reply, Changes),
    Kept(Reply),
    Refused(Refusal),
}
