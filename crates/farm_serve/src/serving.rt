//! Serving one client after another.
ghost use Rattle.std.specs.Prelude.{◌≡◌, ◌≤◌, ◌↔◌, true, false, Err, IsOk, Result};
ghost use Rattle.sqlite.specs.Held.{state};
ghost use Rattle.sqlite_trees.specs.View.{doubt};
ghost use Rattle.farm_serve.specs.Names.{PassesOn, ServesInTurn, ServesUntil};

use crate::clients::Clients;
use crate::conversation::Context;
use crate::fault::DeskFault;
use farm_keep::{KeepFault, Keeper};
use farm_wire::Routes;
use sqlite::Alter;
use std::alloc::Global;

/// Serves that many clients in turn: of each it reads one request at the moment that comes with it,
/// answers it as `converse` does, and closes it.
///
/// A client that couldn't be accepted counts as one. A fault that leaves the keeper open ends its
/// conversation alone: a client that goes away or is too slow, want of memory outside the keeper. A
/// keeper that is closed ends the serving with its fault, 1 or 60, once its client was answered;
/// one that was closed before ends it with 61 at once, and nobody is answered.
///
/// Costs building a router of seventeen paths, once, and what each client's command or view costs.
pub fn serve<S: Alter, K: Clients>(
    alloc: Global,
    keeper: &mut Keeper<S>,
    clients: &mut K,
    max: u64,
) -> Result<(), DeskFault>
    // The next clients, as far as they are known, were conversed with in their order, each at its
    // moment, over what it sent and what it was written. Where readers never fail each is received,
    // and one whose writer has room for its answer gets it whole.
    ensures connections { ServesInTurn S.Store K.Reader.never_fails (K.client_list clients.old)
        (K.client_list clients.new) keeper.old keeper.new max (IsOk result) }

    // The farm is the machine's after some calls, at most one a client, and the store keeps it.
    // The fault is the keeper's: with 1 the store keeps the farm before the call that closed it,
    // with 60 a stop leaves that farm or the one after it.
    ensures serves { ServesUntil S.Store keeper.old keeper.new max result }

    // 61 comes where the keeper was closed before, and only there.
    ensures closed { (result ≡ Err (DeskFault.Keep KeepFault.Closed))
        ↔ (keeper.old.is_open ≡ false) }
    ensures clean { doubt (state S.Store keeper.old.conn).is_clean ≤ doubt
        (state S.Store keeper.new.conn).is_clean }
{
    if keeper.farm().is_none() {
        return Err(DeskFault::Keep(KeepFault::Closed));
    }
    let mut context = Context::new(alloc, Routes::new(alloc).ok());
    for _ in 0..max {
        if clients.is_over() {
            return Ok(());
        }
        context.serve_next(keeper, clients)?;
    }
    Ok(())
}

impl Context {
    /// Serves the next client, if there is one, and returns the keeper's fault where that closed it,
    /// also where the answer was lost.
    fn serve_next<S: Alter, K: Clients>(
        &mut self,
        keeper: &mut Keeper<S>,
        clients: &mut K,
    ) -> Result<(), DeskFault>
        requires { keeper.old.is_open ≡ true }
        ensures connections { ServesInTurn S.Store K.Reader.never_fails (K.client_list clients.old)
            (K.client_list clients.new) keeper.old keeper.new 1 (IsOk result) }
        ensures serves { ServesUntil S.Store keeper.old keeper.new 1 result }
        ensures clean { doubt (state S.Store keeper.old.conn).is_clean ≤ doubt
            (state S.Store keeper.new.conn).is_clean }
    {
        let Some(mut client) = clients.next() else {
            return Ok(());
        };
        let ended = self.converse(keeper, &mut client.reader, &mut client.writer, client.now);
        clients.close(client.reader, client.writer);
        pass_on(ended.due)
    }
}

/// The keeper's fault, where a conversation ended with one.
fn pass_on(end: Result<u16, DeskFault>) -> Result<(), DeskFault>
    ensures { PassesOn end result }
{
    match end {
        Err(DeskFault::Keep(fault)) => Err(DeskFault::Keep(fault)),
        _ => Ok(()),
    }
}
