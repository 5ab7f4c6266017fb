//! What is answered to a call or a view, a call being done and a view shown: its bytes, and how the
//! conversation ends once they are written.
ghost use Rattle.std.specs.Prelude.{◌≡◌, ◌≤◌, false, Err, Ok};
ghost use Rattle.sqlite.specs.Held.{state};
ghost use Rattle.sqlite_trees.specs.View.{doubt};
ghost use Rattle.farm_types.specs.Refusals.{no_memory};
ghost use Rattle.farm_types.specs.Refuse.{kind_of};
ghost use Rattle.farm_core.specs.Answers.{answer_of};
ghost use Rattle.farm_keep.specs.Faults.{IsActFault, keep_fault_code};
ghost use Rattle.farm_wire.specs.Replies.{reply_bytes};
ghost use Rattle.farm_serve.specs.Names.{bytes_in, http_status, IsDenialEncoded, IsEncoded};
ghost use Rattle.farm_serve.specs.Names.{IsEncodedOne, IsResponseTo, IsView, out_of_answer};
ghost use Rattle.farm_serve.specs.Names.{out_of_refusal};

use crate::fault::DeskFault;
use farm_core::Farm;
use farm_keep::{KeepFault, Keeper};
use farm_types::{Answer, Call, NO_JOB, Refusal};
use farm_wire::{Ask, AskFault, METHOD_NOT_ALLOWED, OK, Out, UNAVAILABLE, View, answer_bytes};
use sqlite::Alter;
use std::alloc::Global;

/// The bytes of an answer.
#[derive(Debug, Drop)]
pub(crate) enum Bytes {
    /// Encoded for this answer.
    Encoded(Vec<u8>),
    /// The same for all answers of a code.
    Constant(&'static [u8]),
}

/// The answer that is due, and how the conversation ends once it is written.
#[derive(Debug, Drop)]
pub(crate) struct Response {
    /// What is to be written.
    pub(crate) bytes: Bytes,
    /// The HTTP status, or the fault that the answer shows.
    pub(crate) end: Result<u16, DeskFault>,
}

impl Response {
    /// An answer, or the constant one where there is no memory for it.
    pub(crate) fn of(alloc: Global, out: &Out<'_>) -> Response
        ensures { IsEncoded out.now (bytes_in result.bytes) result.end }
    {
        match answer_bytes(alloc, out) {
            Ok(bytes) => Response {
                bytes: Bytes::Encoded(bytes),
                end: Ok(http_status(out)),
            },
            Err(_) => Response::no_memory(),
        }
    }

    /// The answer to a request that asks nothing: the refusal, or the methods that the path has.
    pub(crate) fn denial(alloc: Global, fault: AskFault) -> Response
        ensures { IsDenialEncoded fault (bytes_in result.bytes) result.end }
    {
        match fault {
            AskFault::Refused(refusal) => Response::of(alloc, &Out::Refused(refusal)),
            AskFault::Method(allowed) => Response::of(alloc, &Out::Method(allowed)),
            AskFault::NoMemory => Response::no_memory(),
        }
    }

    /// The constant answer where there is no memory for another.
    pub(crate) fn no_memory() -> Response
        ensures bytes { bytes_in result.bytes ≡ reply_bytes (out_of_refusal no_memory) }
        ensures end { result.end ≡ Err DeskFault.NoMemory }
    {
        Response {
            bytes: Bytes::Constant(farm_wire::no_memory_answer()),
            end: Err(DeskFault::NoMemory),
        }
    }

    /// The constant answer of a keeper's fault.
    pub(crate) fn closing(fault: KeepFault) -> Response
        requires { IsActFault fault }
        ensures bytes { bytes_in result.bytes ≡ reply_bytes (out_of_refusal (keep_fault_code fault)) }
        ensures end { result.end ≡ Err (DeskFault.Keep fault) }
    {
        let bytes = match fault {
            KeepFault::NoMemory => farm_wire::no_memory_answer(),
            KeepFault::Store => farm_wire::store_answer(),
            KeepFault::Closed => farm_wire::closed_answer(),
            KeepFault::BadStore | KeepFault::OldSchema | KeepFault::NewSchema => unreachable!(),
        };
        Response {
            bytes: Bytes::Constant(bytes),
            end: Err(DeskFault::Keep(fault)),
        }
    }

    /// The bytes of the answer.
    pub(crate) fn bytes(&self) -> &[u8]
        ensures { result.now ≡ bytes_in self.now.bytes }
    {
        match &self.bytes {
            Bytes::Encoded(bytes) => bytes.as_slice(),
            Bytes::Constant(bytes) => bytes,
        }
    }
}

/// The HTTP status of an answer.
fn http_status(out: &Out<'_>) -> u16
    ensures { result ≡ http_status out.now }
{
    match out {
        Out::Refused(refusal) => refusal.status().unwrap_or(UNAVAILABLE),
        Out::Method(_) => METHOD_NOT_ALLOWED,
        _ => OK,
    }
}

/// The answer due to what was asked: a call is done, a view is shown.
pub(crate) fn response_to<S: Alter>(alloc: Global, keeper: &mut Keeper<S>, ask: &Ask) -> Response
    ensures response { IsResponseTo S.Store keeper.old keeper.new (Ok ask.now)
        (bytes_in result.bytes) result.end }
    ensures clean { doubt (state S.Store keeper.old.conn).is_clean ≤ doubt
        (state S.Store keeper.new.conn).is_clean }
{
    match ask {
        Ask::Call(call) => match keeper.act(call) {
            Ok(answer) => Response::of(alloc, &reply_of(call, &answer)),
            Err(fault) => Response::closing(fault),
        },
        Ask::View(view) => match keeper.farm() {
            Some(farm) => show(alloc, farm, *view),
            None => Response::closing(KeepFault::Closed),
        },
    }
}

/// The machine's answer as it is shown to a caller.
fn reply_of(call: &Call, answer: &Answer) -> Out<'static>
    ensures { result ≡ out_of_answer (kind_of call.entry.now.cmd) (answer_of answer.now) }
{
    match answer {
        Answer::Did(reply, _) | Answer::Kept(reply) => Out::Reply(call.cmd.kind(), *reply),
        Answer::Refused(refusal) => Out::Refused(*refusal),
    }
}

/// What a view shows of a farm.
fn show(alloc: Global, farm: &Farm, view: View) -> Response
    requires { farm.now.failed ≡ false }
    ensures { IsEncodedOne (IsView view farm.now.farm) (bytes_in result.bytes) result.end }
{
    match view {
        View::Types => Response::of(alloc, &Out::Types(farm.types())),
        View::Boards => Response::of(alloc, &Out::Boards(farm.boards())),
        View::Status => Response::of(alloc, &Out::Status(farm.status())),
        View::Reservations => Response::of(alloc, &Out::Reservations(farm.reservations())),
        View::Job(number) => match farm.job(number) {
            Some(row) => Response::of(alloc, &Out::Job(row)),
            None => Response::of(alloc, &Out::Refused(Refusal { code: NO_JOB })),
        },
        View::Queue => match farm.queue() {
            Ok(claims) => Response::of(alloc, &Out::Queue(claims.as_slice())),
            Err(_) => Response::no_memory(),
        },
    }
}
