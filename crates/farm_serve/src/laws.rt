//! Conversations one after another, and the laws over them.
ghost use Rattle.std.specs.Prelude.{◌≡◌, ◌≢◌, ◌≤◌, ◌+◌, ◌++◌, ◌↔◌, List, length, Some, Err, IsOk};
ghost use Rattle.std.specs.Prelude.{OnOk, IfErr, vec_capacity, false, ⊤, ℕ, Result};
ghost use Rattle.sqlite.specs.Held.{state};
ghost use Rattle.sqlite.specs.State.{HasCleanDisk};
ghost use Rattle.sqlite.specs.Tree.{Trees};
ghost use Rattle.sqlite_trees.specs.View.{doubt};
ghost use Rattle.farm_types.specs.Sound.{IsSound};
ghost use Rattle.farm_keep.specs.KeeperState.{KeeperState, KeepsOwnFarm};
ghost use Rattle.farm_keep.specs.Lives.{GivesFarm, OpensOn};
ghost use Rattle.farm_serve.specs.Names.{all_connections, AnsweredActAsRun, AnswersAll};
ghost use Rattle.farm_serve.specs.Names.{AreDeskLives, AreServedInTurn, client_list_of};
ghost use Rattle.farm_serve.specs.Names.{ClosedKeepsPrefix, Connection as Link, Conversation};
ghost use Rattle.farm_serve.specs.Names.{ConverseApart, ConverseInTurn, Desk, desk, DeskLife};
ghost use Rattle.farm_serve.specs.Names.{EndsWritten, GivesImported, GivesServed};
ghost use Rattle.farm_serve.specs.Names.{HasNoRoom, IsAnswered, IsAnsweredAgain, IsImport};
ghost use Rattle.farm_serve.specs.Names.{IsResponse, IsUnwritten, OpenKeepsDone, ServesInTurn};
ghost use Rattle.farm_serve.specs.Names.{ServesUntil, StopsAt};
ghost use Rattle.farm_store.specs.Columns.{rows_of};
ghost use Rattle.farm_store.specs.Holds.{Holds};
ghost use Rattle.farm_types.specs.Farm.{Farm as Plain};
ghost use Rattle.farm_serve.specs.declared.fault.DeskFault.{DeskFault};
ghost use Rattle.farm_serve.specs.declared.lab_import.ImportEnd.{ImportEnd};

use crate::clients::Clients;
use crate::conversation::converse;
use crate::fault::DeskFault;
use crate::scripted_clients::ScriptedClients;
use crate::serving::serve;
use farm_core::Farm;
use farm_http::{Input, Output};
use farm_keep::{KeepFault, Keeper, found};
use farm_store::opened_stands;
use sqlite::{Alter, Connection};
use std::alloc::Global;

/// Converses once at each moment, one conversation after another over one reader and one writer,
/// and stops at the first that isn't answered. The laws below say what that amounts to. Costs what
/// the conversations cost.
pub fn converse_in_turn<R: Input, W: Output, S: Alter>(
    alloc: Global,
    keeper: &mut Keeper<S>,
    reader: &mut R,
    writer: &mut W,
    moments: &[u64],
) -> Result<(), DeskFault>
    ensures answered { OnOk result (AnswersAll S.Store
        (desk keeper.old (R.remaining reader.old) (W.contents writer.old))
        (desk keeper.new (R.remaining reader.new) (W.contents writer.new)) moments.now) }
    ensures fault { IfErr result (λ fault. StopsAt S.Store
        (desk keeper.old (R.remaining reader.old) (W.contents writer.old))
        (desk keeper.new (R.remaining reader.new) (W.contents writer.new)) moments.now
        R.never_fails (W.has_room writer.old) fault) }
    ensures received { R.never_fails → result ≢ Err DeskFault.Read }
    ensures clean { doubt (state S.Store keeper.old.conn).is_clean ≤ doubt
        (state S.Store keeper.new.conn).is_clean }
{
    for now in moments {
        if let Err(fault) = converse(alloc, keeper, reader, writer, *now) {
            return Err(fault);
        }
    }
    Ok(())
}

/// Converses over bytes in memory, which never fail, and a vector, which takes what fits its
/// capacity: so an answer is written whole, or there is no room for the one that is due.
pub fn converse_in_memory<S: Alter>(
    alloc: Global,
    keeper: &mut Keeper<S>,
    reader: &mut &[u8],
    writer: &mut Vec<u8>,
    now: u64,
) -> Result<u16, DeskFault>
    ensures received { result ≢ Err DeskFault.Read }
    ensures answered { EndsWritten result → IsAnswered
        (IsResponse S.Store keeper.old keeper.new (Some reader.old.now) (Some reader.new.now) now)
        (Some writer.old.items) (Some writer.new.items) result }
    ensures unwritten { result ≡ Err DeskFault.Write → IsUnwritten
        (IsResponse S.Store keeper.old keeper.new (Some reader.old.now) (Some reader.new.now) now)
        (Some writer.old.items) (Some writer.new.items) }
    ensures taken { result ≡ Err DeskFault.Write → HasNoRoom
        (IsResponse S.Store keeper.old keeper.new (Some reader.old.now) (Some reader.new.now) now)
        (λ n. length writer.old.items + n ≤ vec_capacity writer.old) }
{
    converse(alloc, keeper, reader, writer, now)
}

/// Serves scripted clients: no conversation ends with the fault Read, and none whose answer
/// fits what it is answered in ends as unanswered.
pub fn serve_in_memory<S: Alter>(
    alloc: Global,
    keeper: &mut Keeper<S>,
    clients: &mut ScriptedClients<'_>,
    max: u64,
) -> Result<(), DeskFault>
    ensures connections { ServesInTurn S.Store ⊤ (Some (client_list_of clients.old))
        (Some (client_list_of clients.new)) keeper.old keeper.new max (IsOk result) }
    ensures serves { ServesUntil S.Store keeper.old keeper.new max result }
    ensures closed { (result ≡ Err (DeskFault.Keep KeepFault.Closed))
        ↔ (keeper.old.is_open ≡ false) }
{
    serve(alloc, keeper, clients, max)
}

/// Conversations over one list and then over another are the conversations over their joining.
pub fn conversations_join<S: Alter>()
    ensures { (first second : List Conversation) (old new : Desk S)
        → ConverseInTurn S.Store (first ++ second) old new
        ↔ ConverseApart S.Store first second old new }
{}

/// Conversations that are all answered act as one run over the calls that they ask, in the order of
/// the requests: what left the reader are the requests, one behind another, what was written are
/// the answers, each the machine's at its place, and the store keeps the farm after the run.
pub fn answered_act_as_run<S: Alter>()
    ensures { AnsweredActAsRun S.Store }
{}

/// A request that is sent again under its key gets the kept reply, or is refused for its key or
/// its moment: a client that gets no answer may send it again until it gets one.
pub fn request_answered_again()
    ensures { IsAnsweredAgain }
{}

/// However conversations end, the store keeps the farm after the calls that were done. Where one of
/// them closes the keeper, a stop leaves that farm or, unless it was for want of memory, perhaps
/// the one after the call that it asked: that is the crash prefix of conversations.
pub fn conversations_keep_a_prefix<S: Alter>()
    ensures opened { OpenKeepsDone S.Store }
    ensures closed { ClosedKeepsPrefix S.Store }
{}

/// The crash prefix of what the program does: after any clients were served, by whatever ended it,
/// what a stop leaves is found again as exactly the farm after calls that the clients' bytes ask,
/// in their order, with every one that was answered whole. `AreServedInTurn` is what `serve`
/// ensures of its clients, and farm_desk's `serve_on` of a listener's, whose bytes are known once
/// they came; it holds of each front of them too: so a stop between two of them is meant as well.
/// It is `found`, on a store that was opened on what was left.
pub fn found_after_serving<S: Alter, K: Clients>(
    alloc: Global,
    conn: &mut Connection<S>,
) -> Result<Farm, KeepFault>
    requires { conn.old.in_transaction ≡ false }
    ensures { HasCleanDisk (state S.Store conn.new)
        → (connections : List Link) (old new : KeeperState S)
        → IsSound old.farm.farm → KeepsOwnFarm S.Store old
        → AreServedInTurn S.Store K.Reader.never_fails connections old new
        → HasCleanDisk (state S.Store new.conn)
        → (left : Trees) → (state S.Store new.conn).may_leave left
        → OpensOn (state S.Store conn.old) left
        → GivesServed result old.farm.farm connections }
{
    opened_stands(conn);
    found(alloc, conn)
}

/// The crash prefix of an import: what a stop leaves after one, however it ended, is found again as
/// exactly the farm after the calls of the text that were done or, where a fault of the store ended
/// it, perhaps after one call more. `IsImport` is what `import` ensures.
pub fn found_after_import<S: Alter>(
    alloc: Global,
    conn: &mut Connection<S>,
) -> Result<Farm, KeepFault>
    requires { conn.old.in_transaction ≡ false }
    ensures { HasCleanDisk (state S.Store conn.new)
        → (old new : KeeperState S) (text : List ℕ) (now : ℕ) (end : ImportEnd)
        → IsSound old.farm.farm → KeepsOwnFarm S.Store old
        → IsImport S.Store old new text now end → HasCleanDisk (state S.Store new.conn)
        → (left : Trees) → (state S.Store new.conn).may_leave left
        → OpensOn (state S.Store conn.old) left
        → GivesImported (GivesFarm result) old.farm.farm text now end end.fault }
{
    opened_stands(conn);
    found(alloc, conn)
}

/// The crash prefix over any list of lives of the desk: each opens the store on what the stop
/// before it left, and is stopped while it looks for the farm, or adopts it, serves clients and is
/// stopped. What the last one left is found again as exactly the farm after calls that the clients
/// of all lives asked, in their order, with every one that was answered whole.
pub fn desk_lives_keep_what_was_answered<S: Alter, K: Clients>(
    alloc: Global,
    conn: &mut Connection<S>,
) -> Result<Farm, KeepFault>
    requires { conn.old.in_transaction ≡ false }
    ensures { HasCleanDisk (state S.Store conn.new)
        → (F : Plain) (lives : List (DeskLife S)) (first last : Trees)
        → IsSound F → Holds first (rows_of F)
        → AreDeskLives S.Store K.Reader.never_fails lives first last
        → OpensOn (state S.Store conn.old) last
        → GivesServed result F (all_connections lives) }
{
    opened_stands(conn);
    found(alloc, conn)
}
