//! The paths: where each leads, and which methods it has (RFC 9110, section 9.1).
ghost use Rattle.std.specs.Prelude.{◌≡◌, IfOk, map, []};
ghost use Rattle.farm_wire.specs.Routes.{allowed_at, endpoint_at, is_get, is_post, rows};
ghost use Rattle.farm_wire.specs.Routes.{with_routes};

use crate::answers::Allowed;
use Route::{Get, GetPost, Post};
use matchit::Router;
use std::alloc::{AllocError, Global};

/// What a GET of a path shows.
#[derive(Clone, Copy, Debug, PartialEq, Eq)]
pub enum ViewKind {
    Types,
    Boards,
    Queue,
    Reservations,
    Status,
    Job,
}

/// Which command a POST to a path is.
#[derive(Clone, Copy, Debug, PartialEq, Eq)]
pub enum CommandKind {
    AddType,
    AddBoard,
    SetTags,
    SetHealth,
    Submit,
    Cancel,
    Start,
    Finish,
    Reserve,
    Acquire,
    Release,
    Refresh,
    CancelReservation,
    Pass,
}

/// Where a path leads: a view for GET, a command for POST, or both.
#[derive(Clone, Copy, Debug, PartialEq, Eq)]
pub enum Route {
    Get(ViewKind),
    Post(CommandKind),
    GetPost(ViewKind, CommandKind),
}

/// What a method of a path leads to.
#[derive(Clone, Copy, Debug, PartialEq, Eq)]
pub enum Endpoint {
    View(ViewKind),
    Command(CommandKind),
}

impl Route {
    /// The methods of its path.
    pub fn allowed(self) -> Allowed
        ensures { result ≡ allowed_at self }
    {
        match self {
            Route::Get(_) => Allowed::Get,
            Route::Post(_) => Allowed::Post,
            Route::GetPost(_, _) => Allowed::GetPost,
        }
    }

    /// What the method of these bytes leads to, if its path has that method. A method's case
    /// matters.
    pub fn endpoint(self, method: &[u8]) -> Option<Endpoint>
        ensures { result ≡ endpoint_at self method.now }
    {
        match self {
            Route::Get(view) if is_get(method) => Some(Endpoint::View(view)),
            Route::Post(command) if is_post(method) => Some(Endpoint::Command(command)),
            Route::GetPost(view, _) if is_get(method) => Some(Endpoint::View(view)),
            Route::GetPost(_, command) if is_post(method) => Some(Endpoint::Command(command)),
            _ => None,
        }
    }
}

/// Whether the bytes name GET.
fn is_get(method: &[u8]) -> bool
    ensures { result ≡ is_get method.now }
{
    method == b"GET".as_slice()
}

/// Whether the bytes name POST.
fn is_post(method: &[u8]) -> bool
    ensures { result ≡ is_post method.now }
{
    method == b"POST".as_slice()
}

/// Each path with its route. A parameter is one segment of at least one byte.
#[rattlefmt::skip]
const TABLE: [(&str, Route); 17] = [
    ("/types", GetPost(ViewKind::Types, CommandKind::AddType)),
    ("/boards", GetPost(ViewKind::Boards, CommandKind::AddBoard)),
    ("/boards/{name}/tags", Post(CommandKind::SetTags)),
    ("/boards/{name}/health", Post(CommandKind::SetHealth)),
    ("/jobs", Post(CommandKind::Submit)),
    ("/jobs/{n}", Get(ViewKind::Job)),
    ("/jobs/{n}/cancel", Post(CommandKind::Cancel)),
    ("/jobs/{n}/start", Post(CommandKind::Start)),
    ("/jobs/{n}/finish", Post(CommandKind::Finish)),
    ("/reservations", GetPost(ViewKind::Reservations, CommandKind::Reserve)),
    ("/reservations/{n}/acquire", Post(CommandKind::Acquire)),
    ("/reservations/{n}/release", Post(CommandKind::Release)),
    ("/reservations/{n}/refresh", Post(CommandKind::Refresh)),
    ("/reservations/{n}/cancel", Post(CommandKind::CancelReservation)),
    ("/pass", Post(CommandKind::Pass)),
    ("/queue", Get(ViewKind::Queue)),
    ("/status", Get(ViewKind::Status)),
];

/// A router of these paths. No two paths of the table conflict, so that only memory can be wanting.
fn router_of(alloc: Global, paths: &[(&str, Route)]) -> Result<Router<Route>, AllocError>
    ensures { IfOk result (λ r. r ≡ with_routes (map (λ x. (x.0.now, x.1)) paths.now) []) }
{
    let mut router = Router::new(alloc);
    for path in paths {
        router.insert(path.0, path.1).map_err(|_| AllocError)?;
    }
    Ok(router)
}

/// The router of all the paths.
#[tactic(auto, unfolding(crate::specs::Routes::rows))]
pub(crate) fn all_paths(alloc: Global) -> Result<Router<Route>, AllocError>
    ensures { IfOk result (λ r. r ≡ rows) }
{
    router_of(alloc, &TABLE)
}
