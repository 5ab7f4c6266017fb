//! A conversation: one request is received, parsed as what it asks, and one answer written.
ghost use Rattle.std.specs.Prelude.{◌≡◌, ◌≢◌, ◌≤◌, ℕ, false, Err, IsOk, IfOk, IfErr};
ghost use Rattle.sqlite.specs.Held.{state};
ghost use Rattle.sqlite_trees.specs.View.{doubt};
ghost use Rattle.farm_types.specs.Limits.{most_reads};
ghost use Rattle.farm_types.specs.Reads.{OrNoMemory};
ghost use Rattle.farm_http.specs.Request.{Request};
ghost use Rattle.farm_http.specs.Requests.{ParsesTo};
ghost use Rattle.farm_http.specs.Room.{KeepsRoom};
ghost use Rattle.farm_http.specs.Turns.{IsSpent, FailsBehind, TakesTurns};
ghost use Rattle.farm_wire.specs.Asked.{ask, shown_ask};
ghost use Rattle.farm_wire.specs.Reading.{denial_of};
ghost use Rattle.farm_serve.specs.Names.{bytes_in, CountsLoss, EndsWritten, HasNoRoom, IsAnswered};
ghost use Rattle.farm_serve.specs.Names.{IsResponse, IsUnread, IsUnwritten, WritesAnswer};

use crate::answer::{Response, response_to};
use crate::fault::DeskFault;
use farm_http::{Input, Output, Taken, WireFault, read_request, write_whole};
use farm_keep::Keeper;
use farm_wire::{Ask, AskFault, Routes};
use sqlite::Alter;
use std::alloc::Global;

/// What conversations share: where their memory comes from, and the router of what they ask.
/// Without a router each request has one of its own.
#[derive(Drop)]
pub(crate) struct Context {
    /// Where memory comes from.
    pub(crate) alloc: Global,
    /// The router of all conversations, where one was built.
    pub(crate) routes: Option<Routes>,
}

/// Reads one request, acts on the farm or looks at it, and writes one answer; returns the HTTP
/// status that was written.
///
/// A refused request is answered with its refusal. Where memory is wanted outside the keeper's own
/// work, the constant answer of code 1 is written and the keeper stays open; where the keeper
/// returns a fault, that of 1, 60 or 61, and the keeper is closed. An answer of 1 or 60 doesn't say
/// whether the command was done: the client repeats it with its key.
///
/// Costs what its parts cost: one read of the request, a router of seventeen paths, one command or
/// view, and one write where the writer takes the answer whole. `serve_on` builds the router once.
pub fn converse<R: Input, W: Output, S: Alter>(
    alloc: Global,
    keeper: &mut Keeper<S>,
    reader: &mut R,
    writer: &mut W,
    now: u64,
) -> Result<u16, DeskFault>
    // The answer that is due was written whole.
    ensures answered { EndsWritten result → IsAnswered
        (IsResponse S.Store keeper.old keeper.new (R.remaining reader.old)
        (R.remaining reader.new) now)
        (W.contents writer.old) (W.contents writer.new) result }

    // The writer failed in the middle of it.
    ensures unwritten { result ≡ Err DeskFault.Write → IsUnwritten
        (IsResponse S.Store keeper.old keeper.new (R.remaining reader.old)
        (R.remaining reader.new) now)
        (W.contents writer.old) (W.contents writer.new) }

    // The reader returned no request.
    ensures unread { result ≡ Err DeskFault.Read → IsUnread keeper.old keeper.new
        (W.contents writer.old) (W.contents writer.new) }

    // A reader that never fails, as bytes in memory, returns a request or bytes that are refused; a
    // writer with room for the answer that is due, as a vector, takes it.
    ensures received { R.never_fails → result ≢ Err DeskFault.Read }
    ensures taken { result ≡ Err DeskFault.Write → HasNoRoom
        (IsResponse S.Store keeper.old keeper.new (R.remaining reader.old)
        (R.remaining reader.new) now) (W.has_room writer.old) }

    // Then it has room for less by what it was written.
    ensures room { KeepsRoom (W.has_room writer.old) (W.has_room writer.new)
        (W.contents writer.old) (W.contents writer.new) }

    // The faults Read and Write come only of a reader that failed or took all its turns, and of a
    // writer that failed; and where the writer failed nothing else comes.
    ensures spent { result ≡ Err DeskFault.Read
        → IsSpent most_reads (R.turns reader.old) (R.turns reader.new) }
    ensures failed { result ≡ Err DeskFault.Write
        → (n : ℕ) × FailsBehind n (W.turns writer.old) (W.turns writer.new) }
    ensures alive { result ≢ Err DeskFault.Write
        → (n : ℕ) × TakesTurns n (W.turns writer.old) (W.turns writer.new) }
    ensures clean { doubt (state S.Store keeper.old.conn).is_clean ≤ doubt
        (state S.Store keeper.new.conn).is_clean }
{
    let ending = Context::new(alloc, None).converse(keeper, reader, writer, now);
    if ending.is_lost {
        return Err(DeskFault::Write);
    }
    ending.due
}

/// How a conversation ended.
#[derive(Clone, Copy)]
pub(crate) struct Ending {
    /// As the answer that was due ends it; Read where the reader returned no request.
    pub(crate) due: Result<u16, DeskFault>,
    /// Whether that answer was lost: the writer failed.
    pub(crate) is_lost: bool,
}

impl Context {
    /// The context of conversations that share this router.
    pub(crate) fn new(alloc: Global, routes: Option<Routes>) -> Context
        ensures { result.routes ≡ routes }
    {
        Context { alloc, routes }
    }

    /// Converses as `converse` does, and returns how the answer that was due ends it also where
    /// that answer was lost: so a keeper's fault is known in each case.
    pub(crate) fn converse<R: Input, W: Output, S: Alter>(
        &mut self,
        keeper: &mut Keeper<S>,
        reader: &mut R,
        writer: &mut W,
        now: u64,
    ) -> Ending
        // The answer that is due was written, or where the writer failed a part of it.
        ensures writes { result.due ≢ Err DeskFault.Read → WritesAnswer
            (IsResponse S.Store keeper.old keeper.new (R.remaining reader.old)
            (R.remaining reader.new) now) (W.has_room writer.old) result.is_lost
            (W.contents writer.old) (W.contents writer.new) result.due }

        // The reader returned no request.
        ensures unread { result.due ≡ Err DeskFault.Read → IsUnread keeper.old keeper.new
            (W.contents writer.old) (W.contents writer.new)
            × IsSpent most_reads (R.turns reader.old) (R.turns reader.new)
            × (result.is_lost ≡ false) }
        ensures received { R.never_fails → result.due ≢ Err DeskFault.Read }
        ensures lost { CountsLoss (W.turns writer.old) (W.turns writer.new) result.is_lost }
        ensures room { KeepsRoom (W.has_room writer.old) (W.has_room writer.new)
            (W.contents writer.old) (W.contents writer.new) }
        ensures clean { doubt (state S.Store keeper.old.conn).is_clean ≤ doubt
            (state S.Store keeper.new.conn).is_clean }
    {
        match self.response(keeper, reader, now) {
            Ok(response) => Ending {
                is_lost: write_whole(writer, response.bytes()).is_err(),
                due: response.end,
            },
            Err(fault) => Ending {
                due: Err(fault),
                is_lost: false,
            },
        }
    }

    /// The answer that is due, unless the reader returned no request.
    fn response<R: Input, S: Alter>(
        &mut self,
        keeper: &mut Keeper<S>,
        reader: &mut R,
        now: u64,
    ) -> Result<Response, DeskFault>
        ensures response { IfOk result (λ response. IsResponse S.Store keeper.old keeper.new
            (R.remaining reader.old) (R.remaining reader.new) now (bytes_in response.bytes)
            response.end) }
        ensures unread { IfErr result (λ fault. (fault ≡ DeskFault.Read)
            × IsSpent most_reads (R.turns reader.old) (R.turns reader.new)
            × (keeper.new ≡ keeper.old)) }
        ensures sure { R.never_fails → IsOk result }
        ensures clean { doubt (state S.Store keeper.old.conn).is_clean ≤ doubt
            (state S.Store keeper.new.conn).is_clean }
    {
        let taken = match read_request(self.alloc, reader) {
            Ok(taken) => taken,
            Err(WireFault::NoMemory) => return Ok(Response::no_memory()),
            Err(WireFault::Refused(refusal)) => {
                return Ok(Response::denial(self.alloc, AskFault::Refused(refusal)));
            }
            Err(WireFault::Read) => return Err(DeskFault::Read),
            Err(WireFault::Write) => unreachable!(),
        };
        match self.ask_of(&taken, now) {
            Ok(ask) => Ok(response_to(self.alloc, keeper, &ask)),
            Err(fault) => Ok(Response::denial(self.alloc, fault)),
        }
    }

    /// What a request asks at a moment.
    fn ask_of(&mut self, taken: &Taken, now: u64) -> Result<Ask, AskFault>
        ensures { (request : Request) → ParsesTo taken.now.bytes.items taken.now.head request
            → OrNoMemory denial_of shown_ask result (ask request now) }
    {
        match &mut self.routes {
            Some(routes) => routes.ask(self.alloc, taken, now),
            None => Ask::of(self.alloc, taken, now),
        }
    }
}
