//! Serving scripted clients: what each is answered, byte by byte, and the farm afterwards.
use crate::answered::DONE;
use farm_desk::{DeskFault, ScriptedClient, ScriptedClients, serve};
use farm_fakes::{FIRST_TYPE, made};
use farm_keep::Keeper;
use sqlite::{Alter, Connection};
use std::alloc::{AllocError, Global};
use std::process::Abort;
use std::test::Fail;

/// The request for the first type, and bytes behind it.
const TYPE_AND_MORE: &[u8] =
    b"POST /types HTTP/1.1\r\nx-user: admin\r\ncontent-length: 14\r\n\r\n{\"name\":\"bbb\"}and more";

/// What an answer here fits.
const ROOM: usize = 512;

/// Five clients, and when they come; the last finds no room that was made for its answer.
fn five(alloc: Global) -> Result<Vec<ScriptedClient<'static>>, AllocError> {
    let mut all = Vec::with_capacity(alloc, 5)?;
    all.push(scripted(alloc, 1_700_000_000, FIRST_TYPE)?)?;
    all.push(scripted(alloc, 1_700_000_007, TYPE_AND_MORE)?)?;
    all.push(scripted(alloc, 1_700_000_008, b"GET /status\r\n\r\n")?)?;
    all.push(scripted(alloc, 1_700_000_009, b"GET /status HTTP/1.1\r\n\r\n")?)?;
    all.push(ScriptedClient {
        now: 1_700_000_010,
        bytes: FIRST_TYPE,
        answer: Vec::new(alloc),
    })?;
    Ok(all)
}

fn scripted(
    alloc: Global,
    now: u64,
    bytes: &'static [u8],
) -> Result<ScriptedClient<'static>, AllocError> {
    let answer = Vec::with_capacity(alloc, ROOM)?;
    Ok(ScriptedClient { now, bytes, answer })
}

const EXISTS: &[u8] =
    b"HTTP/1.1 409 Conflict\r\ncontent-type: application/json\r\ncontent-length: 32\r\nconnection: close\r\n\r\n{\"code\":11,\"text\":\"type exists\"}";

const BAD: &[u8] =
    b"HTTP/1.1 400 Bad Request\r\ncontent-type: application/json\r\ncontent-length: 32\r\nconnection: close\r\n\r\n{\"code\":50,\"text\":\"bad request\"}";

/// The farm with one type, whose command came first.
const STATUS: &[u8] =
    b"HTTP/1.1 200 OK\r\ncontent-type: application/json\r\ncontent-length: 100\r\nconnection: close\r\n\r\n{\"boards\":0,\"clock\":1700000000,\"collector\":0,\"count\":1,\"jobs\":0,\"next\":1,\"reservations\":0,\"types\":1}";

/// The clients that were served are these: what each was answered, and what stayed of what it sent.
fn expect_served(rt: &impl Abort, clients: &ScriptedClients<'_>, wanted: &[(&[u8], &[u8])]) {
    let served = clients.served();
    assert_eq!(rt; served.len(), wanted.len());
    for (client, (answer, rest)) in served.iter().zip(wanted) {
        assert!(rt; client.answer.as_slice() == *answer);
        assert!(rt; client.rest == *rest);
    }
}

/// How many commands were accepted, and when the last; none where the keeper is closed.
fn count_and_clock<S: Alter>(keeper: &Keeper<S>) -> Option<(u64, u64)> {
    match keeper.farm() {
        Some(farm) => {
            let status = farm.status();
            Some((status.count, status.clock))
        }
        None => None,
    }
}

/// Serves so many of the scripted clients.
fn serve_some<S: Alter>(
    alloc: Global,
    keeper: &mut Keeper<S>,
    clients: &mut ScriptedClients<'_>,
    max: u64,
) -> Result<(), DeskFault> {
    serve(alloc, keeper, clients, max)
}

/// What the first four clients were answered: a head is refused at its first line, and what follows
/// that stays unread.
const FOUR: [(&[u8], &[u8]); 4] = [
    (DONE, b""),
    (EXISTS, b"and more"),
    (BAD, b"\r\n"),
    (STATUS, b""),
];

/// And all five.
const ALL: [(&[u8], &[u8]); 5] = [
    (DONE, b""),
    (EXISTS, b"and more"),
    (BAD, b"\r\n"),
    (STATUS, b""),
    (EXISTS, b""),
];

/// Four are served, then the last, and then nobody is left.
fn serve_scripted<S: Alter>(
    rt: &impl Abort,
    alloc: Global,
    keeper: &mut Keeper<S>,
    clients: &mut ScriptedClients<'_>,
) -> Result<(), Fail> {
    serve_some(alloc, keeper, clients, 4)?;
    expect_served(rt, clients, &FOUR);
    assert_eq!(rt; count_and_clock(keeper), Some((1, 1_700_000_000)));
    serve_some(alloc, keeper, clients, 9)?;
    expect_served(rt, clients, &ALL);
    Ok(())
}

/// The same by a keeper of an empty farm.
fn serve_all<S: Alter + Drop>(
    rt: &impl Abort,
    alloc: Global,
    conn: Connection<S>,
) -> Result<(), Fail> {
    let all = five(alloc)?;
    let mut keeper = made(alloc, conn).ok_or("no farm")?;
    let mut clients = ScriptedClients::new(alloc, all)?;
    serve_scripted(rt, alloc, &mut keeper, &mut clients)
}

#[test]
fn scripted_clients(rt: HostRuntime) -> Result<(), Fail> {
    let alloc = rt.alloc();
    serve_all(&rt, alloc, Connection::open_in_memory(alloc)?)
}
