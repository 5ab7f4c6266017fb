//! The end of leases: reservations that are dead when a pass comes.
ghost use Rattle.std.specs.Prelude.{◌≡◌, ◌==◌, ◌<◌, ◌^◌, length};
ghost use Rattle.std.specs.Prelude.{IfOk, OnOk};
ghost use Rattle.std.specs.List.{filter};
ghost use Rattle.farm_types.specs.Table.{change_where};
ghost use Rattle.farm_types.specs.Pass.{expire, is_dead};
ghost use Rattle.farm_types.specs.declared.rows.ResState.{ResState};
ghost use Rattle.farm_core.specs.Came.{CameTo};
ghost use Rattle.farm_core.specs.Following.{without_all, without_claim};
ghost use Rattle.farm_core.specs.Plain.{plain_farm};

use crate::board_effect::BoardEffect;
use crate::edits::{Held, Holders, ResEdit};
use crate::tables::Tables;
use farm_types::ResState;
use std::alloc::AllocError;

impl Tables {
    /// The reservation of a number is expired, and its claim waits no more.
    fn end_reservation(&mut self, number: u64) -> Result<(), AllocError>
        ensures { OnOk result (CameTo self.old (record {
          farm = record (plain_farm self.old) {
            reservations = change_where (λ r. r.number == number)
                (λ r. record r { state = ResState.Expired }) (plain_farm self.old).reservations;
          };
          queues = without_claim number self.old.queues;
        }) self.new) }
    {
        let end = ResEdit::new(number, Some(ResState::Expired), None);
        self.reservations.edit(end)?;
        self.queues.take_claim(number);
        Ok(())
    }

    /// Expires the reservations whose deadline has come; their claims wait no more. Gives how many.
    fn expire_reservations(&mut self) -> Result<u64, AllocError>
        ensures left { OnOk result (CameTo self.old (record {
          farm = record (plain_farm self.old) {
            reservations = change_where (is_dead self.old.clock)
                (λ r. record r { state = ResState.Expired }) (plain_farm self.old).reservations;
          };
          queues = record self.old.queues {
            claims = without_all (filter (is_dead self.old.clock) (plain_farm self.old).reservations)
                self.old.queues.claims;
          };
        }) self.new) }
        ensures count { IfOk result (λ n. n
            ≡ length (filter (is_dead self.old.clock) (plain_farm self.old).reservations)) }
    {
        let mut count = 0;
        while let Some(number) = self.reservations.first_dead(self.clock) {
            self.end_reservation(number)?;
            count += 1;
        }
        Ok(count)
    }

    /// Ends each reservation that waits or has been allocated and whose deadline has come, and
    /// frees the board that it holds. Gives how many. With R reservations, B boards, C claims and L
    /// leases, of which D are over, it costs O(B log R + D (log R + log L + log C)): no reservation
    /// is looked at whose lease runs on, and none that ended before.
    pub fn expire(&mut self) -> Result<u64, AllocError>
        ensures left { OnOk result (CameTo self.old (record {
          farm = expire (plain_farm self.old) self.old.clock;
          queues = record self.old.queues {
            claims = without_all (filter (is_dead self.old.clock) (plain_farm self.old).reservations)
                self.old.queues.claims;
          };
        }) self.new) }
        ensures count { IfOk result (λ n. n
            ≡ length (filter (is_dead self.old.clock) (plain_farm self.old).reservations)) }
    {
        // The boards first: the reservations as they were say which are freed.
        let holders = Holders::Dead(&self.reservations, self.clock);
        let effect = BoardEffect::Free;
        self.boards.change_where(&Held { holders, effect })?;
        let count = self.expire_reservations()?;
        Ok(count)
    }
}
