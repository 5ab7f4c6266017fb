//! The premises of laws over serving and importing, met in memory.
ghost use Rattle.std.specs.Prelude.{◌≡◌, IfSome, ⊤, length};
ghost use Rattle.sqlite.specs.Steps.{over_memory};
ghost use Rattle.farm_serve.specs.Scripts.{client_list_of};
ghost use Rattle.farm_premises.specs.Desks.{IsImported, IsLeftByDesk, IsServed};

use crate::keepers::{adopted, reopened};
use farm_serve::{ScriptedClient, ScriptedClients, import, serve_in_memory};
use sqlite::{Connection, MemStore};
use std::alloc::Global;

/// What the client sends.
const REQUEST: &[u8] = b"GET /status HTTP/1.1\r\n\r\n";

/// What is imported.
const LAB: &[u8] = b"[types.rpi4]\n";

/// A desk adopted an empty farm, served one client and was stopped, and its store was opened again:
/// the premises of `found_after_serving` and `desk_lives_keep_what_was_answered`.
pub fn serving_can_be_met(alloc: Global) -> Option<Connection<MemStore>>
    ensures served { IfSome result (λ conn. IsServed over_memory ⊤ conn) }
    ensures lives { IfSome result (λ conn. IsLeftByDesk over_memory ⊤ conn) }
{
    let mut keeper = adopted(alloc)?;
    let mut clients = one_client(alloc)?;
    let Ok(()) = serve_in_memory(alloc, &mut keeper, &mut clients, 1) else {
        return None;
    };
    reopened(alloc, keeper)
}

/// One client, with no room for its answer.
fn one_client(alloc: Global) -> Option<ScriptedClients<'static>>
    ensures { IfSome result (λ clients. length (client_list_of clients).waiting ≡ 1) }
{
    let Ok(mut all) = Vec::with_capacity(alloc, 1) else {
        return None;
    };
    all.push_reserved(ScriptedClient {
        now: 1,
        bytes: REQUEST,
        answer: Vec::new(alloc),
    });
    match ScriptedClients::new(alloc, all) {
        Ok(clients) => Some(clients),
        Err(_) => None,
    }
}

/// A keeper of the empty farm imported a text with a type and was stopped, and its store was opened
/// again: the premises of `found_after_import`.
pub fn imports_can_be_met(alloc: Global) -> Option<Connection<MemStore>>
    ensures { IfSome result (λ conn. IsImported over_memory conn) }
{
    let mut keeper = adopted(alloc)?;
    if import(alloc, &mut keeper, LAB, 1).accepted == 0 {
        return None;
    }
    reopened(alloc, keeper)
}
