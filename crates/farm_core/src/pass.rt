//! Pass: leases end, due boards are checked, and claims are served.
ghost use Rattle.std.specs.Prelude.{◌≡◌, [], OnOk, IfOk};
ghost use Rattle.farm_types.specs.Change.{act};
ghost use Rattle.farm_types.specs.Sound.{IsSound};
ghost use Rattle.farm_types.specs.declared.calls.Cmd.{Cmd};
ghost use Rattle.farm_pick.specs.Queued.{queue_lists};
ghost use Rattle.farm_core.specs.Came.{CameTo, seen};
ghost use Rattle.farm_core.specs.Plain.{plain_farm};

pub(crate) mod assign;
pub(crate) mod checks;
pub(crate) mod collect;
pub(crate) mod expire;
pub(crate) mod next_claim;
pub(crate) mod serve;

use crate::tables::Tables;
use farm_types::Reply;
use std::alloc::AllocError;

impl Tables {
    /// Makes room in the logs for the boards that are free and as many jobs: in a pass no more are
    /// given, so the rows that have changed aren't moved as they become more.
    fn make_room(&mut self) -> Result<(), AllocError>
        ensures { OnOk result (CameTo self.old (seen self.old) self.new) }
    {
        let free = self.queues.free_count();
        self.boards.reserve(free)?;
        self.jobs.reserve(free)?;
        Ok(())
    }

    /// A pass: the group that collects gives its boards back, leases that have come to their ends
    /// are over, each due board is checked while there is room, and then the claims are served in
    /// turn, that group first. Gives how many boards were checked, how many leases ended and how
    /// many claims were served.
    pub fn pass(&mut self) -> Result<Reply, AllocError>
        requires sound { IsSound (plain_farm self.old) }
        requires begun { self.old.boards.log ≡ [] }
        requires fits { self.old.queues ≡ queue_lists (plain_farm self.old) }
        ensures came { OnOk result (CameTo self.old (record {
          farm = (act (plain_farm self.old) [] Cmd.Pass).farm;
          queues = queue_lists (act (plain_farm self.old) [] Cmd.Pass).farm;
        }) self.new) }
        ensures reply { IfOk result (λ r. r ≡ (act (plain_farm self.old) [] Cmd.Pass).reply) }
    {
        let former = self.collector;
        self.give_back()?;
        let ended = self.expire()?;
        let checked = self.checks()?;
        self.refresh_free_boards()?;
        self.make_room()?;
        let served = self.serve(former)?;
        Ok(Reply(checked, ended, served))
    }
}
