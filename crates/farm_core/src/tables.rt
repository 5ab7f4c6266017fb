//! The tables of a farm, and what is looked up in them.
ghost use Rattle.std.specs.Prelude.{◌≡◌, [], IfOk, option_map};
ghost use Rattle.std.specs.Option.{option_copied};
ghost use Rattle.farm_types.specs.Farm.{empty_farm, farm_of, type_of};
ghost use Rattle.farm_types.specs.Refuse.{kept_for};
ghost use Rattle.farm_types.specs.Sound.{IsSound};
ghost use Rattle.farm_pick.specs.Queued.{queue_lists};
ghost use Rattle.farm_core.specs.Plain.{plain_farm};
ghost use Rattle.farm_core.specs.Replies.{kept_reply};

use crate::kept::{KeptReplies, KeptReply};
use crate::res_table::ResTable;
use farm_pick::Queues;
use farm_table::Table;
use farm_types::{BoardRow, Call, JobRow, Name, Rows, TypeRow};
use std::alloc::{AllocError, Global};
use std::fmt;

/// The nine things of a farm, and its queues. Types and boards stand in name order, jobs and
/// reservations in order of number.
#[derive(Drop)]
pub struct Tables {
    pub types: Table<TypeRow>,
    pub boards: Table<BoardRow>,
    pub jobs: Table<JobRow>,
    pub reservations: ResTable,
    pub kept: KeptReplies,
    /// Who waits, and which boards are free.
    pub queues: Queues,
    pub clock: u64,
    /// The number of the group that collects boards, 0 while none does.
    pub collector: u64,
    pub count: u64,
    pub next: u64,
}

// The queues and the leases follow from the rows; in which order they were made is no part of the
// farm.
impl fmt::Debug for Tables {
    fn fmt<W: fmt::Write>(&self, f: &mut fmt::Formatter<W>) -> fmt::Result {
        f.debug_struct("Tables")
            .field("types", &self.types.rows())
            .field("boards", &self.boards.rows())
            .field("jobs", &self.jobs.rows())
            .field("reservations", &self.reservations.rows())
            .field("kept", &self.kept)
            .field("clock", &self.clock)
            .field("collector", &self.collector)
            .field("count", &self.count)
            .field("next", &self.next)
            .finish()
    }
}

impl Tables {
    /// No rows.
    pub fn new(alloc: Global) -> Tables
        ensures farm { plain_farm result ≡ empty_farm }
        ensures queues { result.queues ≡ queue_lists empty_farm }
    {
        Tables {
            types: Table::new(alloc),
            boards: Table::new(alloc),
            jobs: Table::new(alloc),
            reservations: ResTable::new(alloc),
            kept: KeptReplies::new(alloc),
            queues: Queues::new(alloc),
            clock: 0,
            collector: 0,
            count: 0,
            next: 1,
        }
    }

    /// The tables of a sound farm's rows, with empty queues. It takes memory for the kept replies
    /// and for the leases.
    pub fn of(rows: Rows) -> Result<Tables, AllocError>
        requires { IsSound (farm_of rows) }
        ensures farm { IfOk result (λ t. plain_farm t ≡ farm_of rows) }
        ensures queues { IfOk result (λ t. t.queues ≡ record { claims = []; boards = [] }) }
    {
        let alloc = *rows.types.allocator();
        Ok(Tables {
            types: Table::of(rows.types),
            boards: Table::of(rows.boards),
            jobs: Table::of(rows.jobs),
            reservations: ResTable::of(alloc, rows.reservations)?,
            kept: KeptReplies::of(rows.kept)?,
            queues: Queues::new(alloc),
            clock: rows.meta.clock,
            collector: rows.meta.collector,
            count: rows.meta.count,
            next: rows.meta.next,
        })
    }

    /// The type of that name, by binary search.
    pub fn find_type(&self, name: &Name) -> Option<&TypeRow>
        ensures { option_copied result ≡ type_of (plain_farm self.now) name.now }
    {
        self.types.find(name)
    }

    /// What is kept for the call's caller and key, if the call has a key.
    pub fn find_kept(&self, call: &Call) -> Option<KeptReply>
        ensures { result ≡ option_map kept_reply (kept_for (plain_farm self.now) call.entry.now) }
    {
        let key = call.key.as_ref()?;
        self.kept.find(&call.caller, key)
    }
}
