//! The commands on reservations: Reserve, Acquire, Release, Refresh and CancelRes.
ghost use Rattle.std.specs.Prelude.{◌≡◌, ◌≤◌, ◌&&◌, None, IfOk, ◌+◌, ◌||◌, ◌∷◌, [], not};
ghost use Rattle.std.specs.List.{list_any};
ghost use Rattle.farm_types.specs.Limits.{last_moment, numbers_end};
ghost use Rattle.farm_types.specs.Pick.{not_retired, fits};
ghost use Rattle.farm_types.specs.Refuse.{first_code, reserve_reasons, owned_by, is_alive};
ghost use Rattle.farm_types.specs.Refuse.{acquire_reasons, release_reasons, alive_reasons};
ghost use Rattle.farm_types.specs.declared.calls.Cmd.{Cmd};
ghost use Rattle.farm_types.specs.Codes.{same_res_state};
ghost use Rattle.farm_types.specs.Pass.{is_dead};
ghost use Rattle.farm_types.specs.Refusals.{forbidden, reservation_expired};
ghost use Rattle.farm_types.specs.Refusals.{wrong_reservation_state};
ghost use Rattle.farm_types.specs.declared.rows.ResRow.{ResRow};
ghost use Rattle.farm_types.specs.declared.rows.ResState.{ResState};
ghost use Rattle.farm_core.specs.Came.{Acts};
ghost use Rattle.farm_core.specs.Following.{IsFresh};
ghost use Rattle.farm_core.specs.Plain.{plain_farm};

use crate::board_effect::BoardEffect;
use crate::command::jobs::owned_by;
use crate::edits::{ResEdit, is_dead};
use crate::tables::Tables;
use farm_types::{
    BoardRow, Claim, ClaimKind, EXPIRED, FORBIDDEN, Health, LEASE, NO_RESERVATION, NO_SUCH_BOARDS,
    Name, Priority, ResRow, ResState, State, Tags, WRONG_RESERVATION_STATE, Want,
};
use std::alloc::AllocError;

/// Whether a board that isn't retired has each of the tags.
fn may_serve(board: &BoardRow, tags: &Tags) -> bool
    ensures { result ≡ (fits board.now (record { kind = None; tags = tags.now })
        && not_retired board.now) }
{
    !matches!(board.health, Health::Retired) && farm_pick::carries_all(board, tags.items())
}

/// Whether a reservation waits, or has been allocated or acquired: it has not ended.
fn is_alive(row: &ResRow) -> bool
    ensures { result ≡ is_alive row.now }
{
    !matches!(row.state, ResState::Expired | ResState::Canceled)
}

/// Why a command on a reservation is refused, where it is there: it is another's, its deadline has
/// come, or its state is wrong.
fn refuse_row(row: &ResRow, now: u64, mine: bool, right: bool) -> Option<u16>
    ensures { result ≡ first_code ((not mine, forbidden) ∷ (
      same_res_state row.now.state ResState.Expired
          || is_dead now row.now,
      reservation_expired,
    ) ∷ (not right, wrong_reservation_state) ∷ []) }
{
    if !mine {
        return Some(FORBIDDEN);
    }
    if matches!(row.state, ResState::Expired) || is_dead(now, row) {
        return Some(EXPIRED);
    }
    (!right).then_some(WRONG_RESERVATION_STATE)
}

impl Tables {
    /// Whether some board may ever serve a reservation with these tags.
    fn can_serve(&self, tags: &Tags) -> bool
        ensures { result ≡ list_any (λ b. fits b (record { kind = None; tags = tags.now })
            && not_retired b) (plain_farm self.now).boards }
    {
        let boards = self.boards.rows();
        boards.iter().any(|board| may_serve(board, tags))
    }

    /// Why a reservation isn't made. With B boards it costs O(B), and no memory.
    #[tactic(auto, using(crate::proofs::OneWant::least_one))]
    pub fn refuse_reserve(&self, tags: &Tags) -> Option<u16>
        ensures { result ≡ first_code (reserve_reasons (plain_farm self.now) tags.now) }
    {
        (!self.can_serve(tags)).then_some(NO_SUCH_BOARDS)
    }

    /// Makes a reservation that waits for a lease from now on. Gives its number.
    pub fn reserve(
        &mut self,
        owner: &Name,
        priority: Priority,
        tags: &Tags,
    ) -> Result<u64, AllocError>
        requires next { self.old.next ≤ numbers_end }
        requires clock { self.old.clock ≤ last_moment }
        requires fresh { IsFresh self.old.next self.old.queues.claims }
        ensures { IfOk result (λ n. Acts self.old owner.now (Cmd.Reserve priority tags.now) n self.new) }
    {
        let number = self.next;
        let tags = tags.copy()?;
        let row = ResRow {
            number,
            owner: owner.copy(),
            priority,
            want: Want { kind: None, tags },
            state: ResState::Waiting,
            deadline: self.clock + LEASE,
            board: None,
        };
        let claim = Claim {
            kind: ClaimKind::Reservation,
            number,
            owner: owner.copy(),
            priority,
            boards: 1,
        };
        self.reservations.put(row)?;
        self.queues.put_claim(claim, &None)?;
        self.next = number + 1;
        Ok(number)
    }

    /// Why a reservation isn't acquired: its owner alone may.
    pub fn refuse_acquire(&self, caller: &Name, now: u64, number: u64) -> Option<u16>
        ensures { result ≡ first_code (acquire_reasons (plain_farm self.now) now caller.now number) }
    {
        let Some(row) = self.reservations.find(number) else {
            return Some(NO_RESERVATION);
        };
        let right = matches!(row.state, ResState::Allocated);
        refuse_row(row, now, caller.is(&row.owner), right)
    }

    /// Why a reservation isn't released.
    pub fn refuse_release(&self, caller: &Name, now: u64, number: u64) -> Option<u16>
        ensures { result ≡ first_code (release_reasons (plain_farm self.now) now caller.now number) }
    {
        let Some(row) = self.reservations.find(number) else {
            return Some(NO_RESERVATION);
        };
        let right = matches!(row.state, ResState::Acquired);
        refuse_row(row, now, owned_by(caller, &row.owner), right)
    }

    /// Why a reservation isn't refreshed, or canceled.
    pub fn refuse_alive(&self, caller: &Name, now: u64, number: u64) -> Option<u16>
        ensures { result ≡ first_code (alive_reasons (plain_farm self.now) now caller.now number) }
    {
        match self.reservations.find(number) {
            None => Some(NO_RESERVATION),
            Some(row) => refuse_row(row, now, owned_by(caller, &row.owner), is_alive(row)),
        }
    }

    /// The reservation is acquired, and its board runs.
    pub fn acquire(&mut self, number: u64) -> Result<u64, AllocError>
        ensures { IfOk result (λ n. Acts self.old [] (Cmd.Acquire number) n self.new) }
    {
        let edit = ResEdit::new(number, Some(ResState::Acquired), None);
        self.edit_reservation_and_board(edit, BoardEffect::State(State::Running))?;
        Ok(number)
    }

    /// The reservation is allocated again for a lease from now on, and its board reserved.
    pub fn release(&mut self, number: u64) -> Result<u64, AllocError>
        requires { self.old.clock ≤ last_moment }
        ensures { IfOk result (λ n. Acts self.old [] (Cmd.Release number) n self.new) }
    {
        let edit = ResEdit::new(number, Some(ResState::Allocated), Some(self.clock + LEASE));
        self.edit_reservation_and_board(edit, BoardEffect::State(State::Reserved))?;
        Ok(number)
    }

    /// The reservation lives for a lease from now on.
    pub fn refresh(&mut self, number: u64) -> Result<u64, AllocError>
        requires { self.old.clock ≤ last_moment }
        ensures { IfOk result (λ n. Acts self.old [] (Cmd.Refresh number) n self.new) }
    {
        let edit = ResEdit::new(number, None, Some(self.clock + LEASE));
        self.reservations.edit(edit)?;
        Ok(number)
    }

    /// The reservation is canceled, and its board free.
    pub fn cancel_reservation(&mut self, number: u64) -> Result<u64, AllocError>
        ensures { IfOk result (λ n. Acts self.old [] (Cmd.CancelRes number) n self.new) }
    {
        let edit = ResEdit::new(number, Some(ResState::Canceled), None);
        self.edit_reservation_and_board(edit, BoardEffect::Free)?;
        self.queues.take_claim(number);
        Ok(number)
    }
}
