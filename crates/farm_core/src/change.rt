//! A whole change: the clock moves, the command acts, its reply is kept, and it is counted.
ghost use Rattle.std.specs.Prelude.{◌≡◌, ◌≢◌, ◌≤◌, [], None, OnOk, IfOk};
ghost use Rattle.farm_types.specs.Limits.{last_moment, numbers_end};
ghost use Rattle.farm_types.specs.Farm.{put_rows};
ghost use Rattle.farm_types.specs.Refuse.{refusal};
ghost use Rattle.farm_types.specs.Change.{act, farm_at_call, keep, change};
ghost use Rattle.farm_types.specs.Sound.{IsSound};
ghost use Rattle.farm_types.specs.declared.calls.Cmd.{Cmd};
ghost use Rattle.farm_pick.specs.Queued.{queue_lists};
ghost use Rattle.farm_core.specs.Came.{Acts, AreLogged, CameTo, IsAtRest, seen, seen_at};
ghost use Rattle.farm_core.specs.Following.{FollowsIn, IsFresh};
ghost use Rattle.farm_core.specs.Plain.{plain_farm};
ghost use Rattle.farm_core.specs.Came.{AreSmallRows, IsSmallReply};

use crate::tables::Tables;
use farm_types::{Call, Changes, Cmd, KeptRow, MetaRow, Reply};
use std::alloc::AllocError;

impl Tables {
    /// The command is done, its reply kept, the clock moved and the command counted.
    #[tactic(auto, unfolding(farm_types::specs::Change::change))]
    pub fn change(&mut self, call: &Call) -> Result<(Reply, Changes), AllocError>
        requires sound { IsSound (plain_farm self.old) }
        requires accepted { None ≡ refusal (plain_farm self.old) call.now }
        requires fits { self.old.queues ≡ queue_lists (plain_farm self.old) }
        ensures farm { OnOk result
            (plain_farm self.new ≡ (change (plain_farm self.old) call.entry.now).farm) }
        ensures reply { IfOk result (λ r. r.0 ≡ (change (plain_farm self.old) call.entry.now).reply) }
        ensures queues { OnOk result (self.new.queues ≡ queue_lists (plain_farm self.new)) }
        ensures rows { IfOk result (λ r. put_rows (plain_farm self.old) r.1 ≡ plain_farm self.new) }
        ensures small { IfOk result (λ r. AreSmallRows r.1) }
        ensures meta { IfOk result (λ r. r.1.meta ≡ record {
          clock = self.new.clock;
          collector = self.new.collector;
          count = self.new.count;
          next = self.new.next;
        }) }
    {
        let count = self.count + 1;
        self.begin(call);
        let reply = self.act(call)?;
        self.keep(call, reply)?;
        self.count = count;
        let changes = self.take_changes();
        Ok((reply, changes))
    }

    /// The clock moves, and each log begins.
    fn begin(&mut self, call: &Call)
        ensures farm { plain_farm self.new ≡ farm_at_call (plain_farm self.old) call.entry.now }
        ensures queues { self.new.queues ≡ self.old.queues }
        ensures rests { IsAtRest self.new }
    {
        self.clock = self.clock.max(call.now);
        let _former = self.take_changes();
    }

    /// Gives the logs away, with the four numbers, and begins new ones.
    fn take_changes(&mut self) -> Changes
        ensures farm { plain_farm self.new ≡ plain_farm self.old }
        ensures queues { self.new.queues ≡ self.old.queues }
        ensures rests { IsAtRest self.new }
        ensures logged { AreLogged self.old result }
        ensures small { AreSmallRows result }
    {
        Changes {
            types: self.types.take_changes(),
            boards: self.boards.take_changes(),
            jobs: self.jobs.take_changes(),
            reservations: self.reservations.take_changes(),
            kept: self.kept.take_changes(),
            meta: MetaRow {
                clock: self.clock,
                collector: self.collector,
                count: self.count,
                next: self.next,
            },
        }
    }

    /// What the command does.
    fn act(&mut self, call: &Call) -> Result<Reply, AllocError>
        requires sound { IsSound (plain_farm self.old) }
        requires clock { self.old.clock ≤ last_moment }
        requires next { self.old.next ≤ numbers_end }
        requires begun { self.old.boards.log ≡ [] }
        requires fits { self.old.queues ≡ queue_lists (plain_farm self.old) }
        requires follow { FollowsIn (plain_farm self.old) call.now.caller call.now.cmd }
        ensures came { OnOk result (CameTo self.old (record {
          farm = (act (plain_farm self.old) call.entry.now.caller call.entry.now.cmd).farm;
          queues = queue_lists
              (act (plain_farm self.old) call.entry.now.caller call.entry.now.cmd).farm;
        }) self.new) }
        ensures reply { IfOk result (λ r. r
            ≡ (act (plain_farm self.old) call.entry.now.caller call.entry.now.cmd).reply) }
    {
        match &call.cmd {
            Cmd::Pass => self.pass(),
            _ => {
                let number = self.act_numbered(call)?;
                self.refresh_free_boards()?;
                Ok(Reply(number, 0, 0))
            }
        }
    }

    /// What a command other than a pass does. Gives the number of its reply.
    fn act_numbered(&mut self, call: &Call) -> Result<u64, AllocError>
        requires numbered { call.now.cmd ≢ Cmd.Pass }
        requires clock { self.old.clock ≤ last_moment }
        requires next { self.old.next ≤ numbers_end }
        requires fresh { IsFresh self.old.next self.old.queues.claims }
        ensures { IfOk result
            (λ n. Acts self.old call.entry.now.caller call.entry.now.cmd n self.new) }
    {
        match &call.cmd {
            Cmd::AddType(name, check) => self.add_type(name, *check).and(Ok(0)),
            Cmd::AddBoard(name, kind, tags) => self.add_board(name, kind, tags).and(Ok(0)),
            Cmd::SetTags(name, tags) => self.set_tags(name, tags).and(Ok(0)),
            Cmd::SetHealth(name, health) => self.set_health(name, *health).and(Ok(0)),
            Cmd::Submit(priority, wants, roles, body) => {
                self.submit(&call.caller, *priority, wants, roles, body)
            }
            Cmd::Reserve(priority, tags) => self.reserve(&call.caller, *priority, tags),
            Cmd::Cancel(number) => self.cancel(*number),
            Cmd::Start(number) => self.start(*number),
            Cmd::Finish(number, outcome) => self.finish(*number, *outcome),
            Cmd::Acquire(number) => self.acquire(*number),
            Cmd::Release(number) => self.release(*number),
            Cmd::Refresh(number) => self.refresh(*number),
            Cmd::CancelRes(number) => self.cancel_reservation(*number),
            Cmd::Pass => unreachable!(),
        }
    }

    /// Keeps the reply under the call's key, if it has one.
    fn keep(&mut self, call: &Call, reply: Reply) -> Result<(), AllocError>
        requires { IsSmallReply reply }
        ensures { OnOk result (CameTo self.old (seen_at (keep call.entry.now reply
            (plain_farm self.old)) (seen self.old)) self.new) }
    {
        if let Some(key) = &call.key {
            self.kept.put(KeptRow {
                caller: call.caller.copy(),
                key: key.copy(),
                kind: call.cmd.kind(),
                reply,
            })?;
        }
        Ok(())
    }
}
