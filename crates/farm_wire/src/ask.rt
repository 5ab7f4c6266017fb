//! What requests ask.
ghost use Rattle.std.specs.Prelude.{◌≡◌, ◌==◌, IsTrue, IfOk};
ghost use Rattle.std.specs.List.{before_first};
ghost use Rattle.farm_types.specs.Proper.{is_proper_cmd};
ghost use Rattle.farm_types.specs.Reads.{OrNoMemory, by_code, refused_code, viewed};
ghost use Rattle.farm_http.specs.Request.{Request};
ghost use Rattle.farm_http.specs.Requests.{ParsesTo};
ghost use Rattle.farm_wire.specs.Asked.{ask, shown_ask, asked_at, call_in, view_in};
ghost use Rattle.farm_wire.specs.Commands.{command_in};
ghost use Rattle.farm_wire.specs.Routes.{rows, path_in, route_in};
ghost use Rattle.farm_wire.specs.Reading.{denial_of};

use crate::bodies;
use crate::fault::AskFault;
use crate::fields::{BAD, Read};
use crate::head::{caller_of, job_of, key_of, reservation_of};
use crate::router::{CommandKind, Endpoint, Route, ViewKind, all_paths};
use farm_http::{Parts, Taken, parts_of};
use farm_types::{Call, Cmd, NO_ROUTE, Refusal};
use json::Scratch;
use matchit::Router;
use std::alloc::{AllocError, Global};

/// What a request asks: a call of the farm, or one of its views.
#[derive(Debug, Drop)]
pub enum Ask {
    Call(Call),
    View(View),
}

/// A view of the farm: one of its tables, its queue, its numbers, or the job of a number.
#[derive(Clone, Copy, Debug, PartialEq, Eq)]
pub enum View {
    Types,
    Boards,
    Queue,
    Reservations,
    Status,
    Job(u64),
}

/// The router of the paths, and the workspace that bodies are read with: built once and lent to each
/// request.
#[derive(Drop)]
pub struct Routes {
    router: Router<Route>,
    /// It keeps as much memory as the longest body had bytes.
    scratch: Scratch,
    ghost table: { ∥ router ≡ rows ∥₁ },
}

impl Routes {
    /// Builds the router of the paths: seventeen routes, each compared with those before it.
    pub fn new(alloc: Global) -> Result<Routes, AllocError> {
        let router = all_paths(alloc)?;
        let scratch = Scratch::new(alloc);
        Ok(Routes { router, scratch })
    }

    /// What a request asks at a moment, or the first refusal. A POST costs what its body is long, a
    /// GET what its path is; memory is taken for the body alone, its JSON and its words.
    pub fn ask(&mut self, alloc: Global, taken: &Taken, now: u64) -> Result<Ask, AskFault>
        ensures { (request : Request) → ParsesTo taken.now.bytes.items taken.now.head request
            → OrNoMemory denial_of shown_ask result (ask request now) }
    {
        self.meaning(alloc, &parts_of(taken), now)
    }

    /// What the parts of a request ask.
    #[tactic(auto, unfolding(crate::specs::Asked::ask, crate::specs::Asked::endpoint_in))]
    fn meaning(&mut self, alloc: Global, parts: &Parts<'_>, now: u64) -> Result<Ask, AskFault>
        ensures { OrNoMemory denial_of shown_ask result (ask parts.now now) }
    {
        let path = path_of(parts.target()).map_err(AskFault::Refused)?;
        let route = self.route(path).map_err(AskFault::Refused)?;
        let Some(endpoint) = route.endpoint(parts.method()) else {
            return Err(AskFault::Method(route.allowed()));
        };
        Ok(asked_at(alloc, &mut self.scratch, endpoint, path, parts, now)?)
    }

    /// Where a path leads.
    #[tactic(auto, unfolding(crate::specs::Routes::route_in))]
    fn route(&self, path: &str) -> Result<Route, Refusal>
        ensures { by_code result ≡ route_in path.now }
    {
        match self.router.at(path) {
            Ok(found) => Ok(*found.value),
            Err(_) => Err(Refusal { code: NO_ROUTE }),
        }
    }
}

impl Ask {
    /// What one request asks, by a router of its own. To build it costs many times what a request
    /// without a body does: for more than one request build `Routes` once and call `Routes::ask`.
    pub fn of(alloc: Global, taken: &Taken, now: u64) -> Result<Ask, AskFault>
        ensures { (request : Request) → ParsesTo taken.now.bytes.items taken.now.head request
            → OrNoMemory denial_of shown_ask result (ask request now) }
    {
        let mut routes = Routes::new(alloc).map_err(|_| AskFault::NoMemory)?;
        routes.ask(alloc, taken, now)
    }
}

/// The path of a target: what stands before the first `?`.
fn path_of(target: &[u8]) -> Result<&str, Refusal>
    ensures { by_code (viewed (λ path. path.now) result) ≡ path_in target.now }
{
    match std::str::from_utf8(target) {
        Ok(text) => Ok(before_query(text)),
        Err(_) => Err(BAD),
    }
}

/// What stands before the first `?`.
fn before_query(target: &str) -> &str
    ensures { result.now ≡ before_first (λ b. b == 63) target.now }
{
    target.split_once('?').map_or(target, |(path, _)| path)
}

/// What a request asks of a path whose method leads there.
#[tactic(auto, unfolding(crate::specs::Asked::asked_at))]
fn asked_at(
    alloc: Global,
    scratch: &mut Scratch,
    endpoint: Endpoint,
    path: &str,
    parts: &Parts<'_>,
    now: u64,
) -> Read<Ask>
    ensures { OrNoMemory refused_code shown_ask result (asked_at endpoint path.now parts.now now) }
{
    match endpoint {
        Endpoint::View(kind) => Ok(Ask::View(view_of(kind, path)?)),
        Endpoint::Command(kind) => call_of(alloc, scratch, kind, path, parts, now),
    }
}

/// The view at a path.
#[tactic(auto, unfolding(crate::specs::Asked::view_in))]
fn view_of(kind: ViewKind, path: &str) -> Result<View, Refusal>
    ensures { by_code result ≡ view_in kind path.now }
{
    Ok(match kind {
        ViewKind::Types => View::Types,
        ViewKind::Boards => View::Boards,
        ViewKind::Queue => View::Queue,
        ViewKind::Reservations => View::Reservations,
        ViewKind::Status => View::Status,
        ViewKind::Job => View::Job(job_of(path)?),
    })
}

/// The call of a request, its caller looked at first and its body last.
#[tactic(auto, unfolding(crate::specs::Asked::call_in))]
fn call_of(
    alloc: Global,
    scratch: &mut Scratch,
    kind: CommandKind,
    path: &str,
    parts: &Parts<'_>,
    now: u64,
) -> Read<Ask>
    ensures { OrNoMemory refused_code shown_ask result (call_in kind path.now parts.now now) }
{
    let caller = caller_of(parts)?;
    let key = key_of(parts)?;
    let cmd = command_of(alloc, scratch, kind, path, parts.body())?;
    Ok(Ask::Call(Call::new(caller, key, now, cmd)))
}

/// The command of a kind that a path and a body spell.
#[tactic(auto, unfolding(crate::specs::Commands::command_in, farm_types::specs::Proper::is_proper_cmd))]
fn command_of(
    alloc: Global,
    scratch: &mut Scratch,
    kind: CommandKind,
    path: &str,
    body: &[u8],
) -> Read<Cmd>
    ensures meaning { OrNoMemory refused_code (λ cmd. cmd) result
        (command_in kind path.now body.now) }
    ensures proper { IfOk result (λ cmd. IsTrue (is_proper_cmd cmd)) }
{
    match kind {
        CommandKind::AddType => bodies::add_type_of(alloc, scratch, body),
        CommandKind::AddBoard => bodies::add_board_of(alloc, scratch, body),
        CommandKind::SetTags => bodies::set_tags_of(alloc, scratch, path, body),
        CommandKind::SetHealth => bodies::set_health_of(alloc, scratch, path, body),
        CommandKind::Submit => bodies::submit_of(alloc, body),
        CommandKind::Cancel => Ok(Cmd::Cancel(job_of(path)?)),
        CommandKind::Start => Ok(Cmd::Start(job_of(path)?)),
        CommandKind::Finish => bodies::finish_of(alloc, scratch, path, body),
        CommandKind::Reserve => bodies::reserve_of(alloc, scratch, body),
        CommandKind::Acquire => Ok(Cmd::Acquire(reservation_of(path)?)),
        CommandKind::Release => Ok(Cmd::Release(reservation_of(path)?)),
        CommandKind::Refresh => Ok(Cmd::Refresh(reservation_of(path)?)),
        CommandKind::CancelReservation => Ok(Cmd::CancelRes(reservation_of(path)?)),
        CommandKind::Pass => Ok(Cmd::Pass),
    }
}
