//! Submit: a new group of jobs.
ghost use Rattle.std.specs.Prelude.{◌≡◌, ◌≤◌, ◌+◌, false, is_none, length};
ghost use Rattle.std.specs.Prelude.{IfOk, OnOk};
ghost use Rattle.std.specs.List.{list_any};
ghost use Rattle.std.specs.Option.{option_map_or};
ghost use Rattle.farm_types.specs.Limits.{most_wants, numbers_end};
ghost use Rattle.farm_types.specs.Farm.{type_of, put_jobs};
ghost use Rattle.farm_types.specs.Pick.{least};
ghost use Rattle.farm_types.specs.Refuse.{first_code, submit_reasons};
ghost use Rattle.farm_types.specs.Change.{new_members};
ghost use Rattle.farm_types.specs.declared.calls.Cmd.{Cmd};
ghost use Rattle.farm_core.specs.Edits.{text_at};
ghost use Rattle.farm_core.specs.Came.{Acts, CameTo, seen, seen_at};
ghost use Rattle.farm_core.specs.Following.{IsFresh};
ghost use Rattle.farm_core.specs.Plain.{plain_farm};

use crate::tables::Tables;
use farm_pick::Free;
use farm_types::{
    Body, Claim, ClaimKind, JobRow, NO_SUCH_BOARDS, NO_TYPE, Name, Priority, Roles, Want, Wants,
    copy_name,
};
use std::alloc::{AllocError, Global};

/// The text of the member at a place: the first carries it.
fn member_text(alloc: Global, place: usize, body: &Body) -> Result<Body, AllocError>
    ensures { IfOk result (λ text. text ≡ text_at place body.now) }
{
    if place == 0 {
        return body.copy();
    }
    Ok(Body::none(alloc))
}

impl Tables {
    /// Whether a type is named that isn't there.
    fn lacks_type(&self, kind: &Option<Name>) -> bool
        ensures { result ≡ option_map_or (λ kind. is_none (type_of (plain_farm self.now) kind)) kind.now
            false }
    {
        kind.as_ref()
            .is_some_and(|name| self.find_type(name).is_none())
    }

    /// Whether some want names a type that isn't there.
    fn lacks_types(&self, wants: &[Want]) -> bool
        ensures { result
            ≡ list_any (λ w. option_map_or (λ kind. is_none (type_of (plain_farm self.now) kind)) w.kind
            false) wants.now }
    {
        wants.iter().any(|want| self.lacks_type(&want.kind))
    }

    /// Why a group isn't submitted. With B boards and at most four wants it costs O(B).
    pub fn refuse_submit(&self, wants: &Wants) -> Option<u16>
        ensures { result ≡ first_code (submit_reasons (plain_farm self.now) wants.now) }
    {
        if self.lacks_types(wants.items()) {
            return Some(NO_TYPE);
        }
        let (boards, types) = (self.boards.rows(), self.types.rows());
        let least = farm_pick::least(boards, types, wants, Free::NotRetired);
        least.is_none().then_some(NO_SUCH_BOARDS)
    }

    /// Adds the members of a group, numbered from the group's number on; the first carries the
    /// text.
    fn add_members(
        &mut self,
        group: u64,
        owner: &Name,
        priority: Priority,
        wants: &[Want],
        roles: &[Option<Name>],
        body: &Body,
    ) -> Result<(), AllocError>
        requires few { length wants.now ≤ most_wants }
        requires roles { length roles.now ≡ length wants.now }
        requires group { group ≤ numbers_end }
        ensures { OnOk result (CameTo self.old (seen_at (put_jobs (plain_farm self.old)
            (new_members group group owner.now priority wants.now roles.now body.now))
            (seen self.old)) self.new) }
    {
        let alloc = *self.boards.allocator();
        for at in 0..wants.len() {
            let owner = owner.copy();
            let want = wants[at].copy()?;
            let mut row = JobRow::new(alloc, group + at as u64, group, owner, priority, want);
            row.role = copy_name(&roles[at]);
            row.body = member_text(alloc, at, body)?;
            self.jobs.put(row)?;
        }
        Ok(())
    }

    /// Submits a group of jobs, one for each want. Gives the group's number.
    pub fn submit(
        &mut self,
        owner: &Name,
        priority: Priority,
        wants: &Wants,
        roles: &Roles,
        body: &Body,
    ) -> Result<u64, AllocError>
        requires roles { length roles.now ≡ length wants.now }
        requires next { self.old.next ≤ numbers_end }
        requires fresh { IsFresh self.old.next self.old.queues.claims }
        ensures { IfOk result (λ n. Acts self.old owner.now
            (Cmd.Submit priority wants.now roles.now body.now) n self.new) }
    {
        let group = self.next;
        let claim = Claim {
            kind: ClaimKind::Group,
            number: group,
            owner: owner.copy(),
            priority,
            boards: wants.items().len() as u64,
        };
        self.add_members(group, owner, priority, wants.items(), roles.items(), body)?;
        // the group stands in the queue of its first want's type
        self.queues.put_claim(claim, &wants.items()[0].kind)?;
        self.next = group + wants.items().len() as u64;
        Ok(group)
    }
}
