//! Why a call is refused: the first reason that applies.
ghost use Rattle.std.specs.Prelude.{◌≡◌, ◌≤◌, ◌&&◌, option_map};
ghost use Rattle.farm_types.specs.Farm.{Farm};
ghost use Rattle.farm_types.specs.Limits.{most_wants};
ghost use Rattle.farm_types.specs.Pass.{has_room};
ghost use Rattle.farm_types.specs.Refuse.{is_admin, is_dispatcher, may_give, is_full, is_full_for};
ghost use Rattle.farm_types.specs.Refuse.{is_reused, early_refusal, kept_for, own_refusal, refusal};
ghost use Rattle.farm_types.specs.Machine.{repeated_reply};
ghost use Rattle.farm_core.specs.Plain.{plain_farm};
ghost use Rattle.farm_core.specs.Replies.{kept_reply};

use crate::kept::KeptReply;
use crate::tables::Tables;
use farm_types::{
    BAD_MOMENT, Call, Cmd, FORBIDDEN, FULL, KEY_REUSED, LAST_MOMENT, MOST_BOARDS,
    MOST_BOARDS_OF_TYPE, MOST_COMMANDS, MOST_JOBS, MOST_REPLIES, MOST_RESERVATIONS, MOST_TYPES,
    NUMBERS_END, Name, Reply,
};

/// Whether the admin calls.
pub fn is_admin(caller: &Name) -> bool
    ensures { result ≡ is_admin caller.now }
{
    caller.as_str() == "admin"
}

/// Whether the dispatcher calls.
fn is_dispatcher(caller: &Name) -> bool
    ensures { result ≡ is_dispatcher caller.now }
{
    caller.as_str() == "dispatcher"
}

/// Whether the caller may give the command, owners aside.
fn may_give(caller: &Name, cmd: &Cmd) -> bool
    ensures { result ≡ may_give caller.now cmd.now }
{
    match cmd {
        Cmd::AddType(_, _) | Cmd::AddBoard(_, _, _) => is_admin(caller),
        Cmd::SetTags(_, _) | Cmd::SetHealth(_, _) => is_admin(caller),
        Cmd::Submit(_, _, _, _) | Cmd::Reserve(_, _) => !is_dispatcher(caller),
        Cmd::Start(_) | Cmd::Finish(_, _) | Cmd::Pass => is_dispatcher(caller) || is_admin(caller),
        Cmd::Cancel(_) | Cmd::CancelRes(_) => true,
        Cmd::Acquire(_) | Cmd::Release(_) | Cmd::Refresh(_) => true,
    }
}

/// The reply of what is kept for a call's key, if it is kept for the same command and the moment is
/// good.
pub fn repeated_reply(call: &Call, kept: Option<KeptReply>) -> Option<Reply>
    ensures { (F : Farm) → kept ≡ option_map kept_reply (kept_for F call.entry.now)
        → result ≡ repeated_reply F call.entry.now }
{
    if call.now > LAST_MOMENT {
        return None;
    }
    let kept = kept?;
    (kept.kind == call.cmd.kind()).then_some(kept.reply)
}

/// Whether what is kept for a call's key is kept for another command.
fn is_reused(call: &Call, kept: Option<KeptReply>) -> bool
    ensures { (F : Farm) → kept ≡ option_map kept_reply (kept_for F call.entry.now)
        → result ≡ is_reused F call.entry.now }
{
    kept.is_some_and(|kept| kept.kind != call.cmd.kind())
}

/// The reasons that come first, of a call and of what is kept for its key.
#[tactic(auto, unfolding(farm_types::specs::Refuse::early_refusal))]
fn early_refusal(call: &Call, kept: Option<KeptReply>) -> Option<u16>
    ensures { (F : Farm) → kept ≡ option_map kept_reply (kept_for F call.entry.now)
        → result ≡ early_refusal F call.entry.now }
{
    if call.now > LAST_MOMENT {
        return Some(BAD_MOMENT);
    }
    if is_reused(call, kept) {
        return Some(KEY_REUSED);
    }
    (!may_give(&call.caller, &call.cmd)).then_some(FORBIDDEN)
}

impl Tables {
    /// Whether the farm has room for more jobs, and numbers for them.
    pub fn has_room(&self, jobs: usize) -> bool
        requires { jobs ≤ most_wants }
        ensures { result ≡ has_room (plain_farm self.now) jobs }
    {
        self.jobs.len() <= MOST_JOBS - jobs && self.next <= NUMBERS_END - jobs as u64
    }

    /// Whether the command would go beyond a limit of its own.
    fn is_full_for(&self, cmd: &Cmd) -> bool
        ensures { result ≡ is_full_for (plain_farm self.now) cmd.now }
    {
        match cmd {
            Cmd::AddType(_, _) => self.types.len() >= MOST_TYPES,
            Cmd::AddBoard(_, kind, _) => {
                self.boards.len() >= MOST_BOARDS || self.count_kind(kind) >= MOST_BOARDS_OF_TYPE
            }
            Cmd::Submit(_, wants, _, _) => !self.has_room(wants.items().len()),
            Cmd::Reserve(_, _) => {
                self.reservations.len() >= MOST_RESERVATIONS || self.next >= NUMBERS_END
            }
            _ => false,
        }
    }

    /// Whether the call would go beyond a limit.
    fn is_full(&self, call: &Call) -> bool
        ensures { result ≡ is_full (plain_farm self.now) call.entry.now }
    {
        self.is_full_for(&call.cmd)
            || call.key.is_some() && self.kept.len() >= MOST_REPLIES
            || self.count >= MOST_COMMANDS
    }

    /// The command's own reasons.
    #[tactic(auto, unfolding(farm_types::specs::Refuse::own_refusal))]
    fn own_refusal(&self, call: &Call) -> Option<u16>
        ensures { result ≡ own_refusal (plain_farm self.now) call.entry.now }
    {
        let now = self.clock.max(call.now);
        match &call.cmd {
            Cmd::AddType(name, _) => self.refuse_add_type(name),
            Cmd::AddBoard(name, kind, _) => self.refuse_add_board(name, kind),
            Cmd::SetTags(name, _) => self.refuse_set_tags(name),
            Cmd::SetHealth(name, health) => self.refuse_set_health(name, *health),
            Cmd::Submit(_, wants, _, _) => self.refuse_submit(wants),
            Cmd::Reserve(_, tags) => self.refuse_reserve(tags),
            Cmd::Cancel(number) => self.refuse_cancel(&call.caller, *number),
            Cmd::Start(number) => self.refuse_start(*number),
            Cmd::Finish(number, _) => self.refuse_finish(*number),
            Cmd::Acquire(number) => self.refuse_acquire(&call.caller, now, *number),
            Cmd::Release(number) => self.refuse_release(&call.caller, now, *number),
            Cmd::Refresh(number) | Cmd::CancelRes(number) => {
                self.refuse_alive(&call.caller, now, *number)
            }
            Cmd::Pass => None,
        }
    }

    /// The first code that applies, of a call and of what is kept for its key.
    #[tactic(auto, unfolding(farm_types::specs::Refuse::refusal))]
    pub fn refusal(&self, call: &Call, kept: Option<KeptReply>) -> Option<u16>
        requires { kept ≡ option_map kept_reply (kept_for (plain_farm self.now) call.now) }
        ensures { result ≡ refusal (plain_farm self.now) call.entry.now }
    {
        early_refusal(call, kept)
            .or_else(|| self.own_refusal(call))
            .or_else(|| self.is_full(call).then_some(FULL))
    }
}
