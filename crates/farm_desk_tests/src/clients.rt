//! Serving connections: clients on 127.0.0.1, whose connections wait in the system's queue until
//! the desk takes them.
use crate::answered::DONE;
use farm_desk::{DeskFault, serve_on};
use farm_fakes::{FIRST_TYPE, made, opened, stopping};
use farm_keep::{KeepFault, Keeper};
use sqlite::{Alter, Connection, Files};
use sqlite_disk::Disk;
use std::alloc::Global;
use std::cell::Cell;
use std::io;
use std::io::{Error, ErrorKind, Read, Write};
use std::net::{Net, SocketAddr, TcpListener, TcpStream};
use std::process::Abort;
use std::test::Fail;
use std::time::{Clock, Duration};

/// A clock that gives one moment, or none; how long it runs it gives at so many looks, each of
/// which takes so many seconds.
#[derive(Drop)]
struct Hands {
    moment: Option<u64>,
    ran: Cell<u64>,
    step: u64,
    looks: Cell<u64>,
}

impl Hands {
    /// A clock that stands still.
    fn standing(moment: u64) -> Hands {
        Hands {
            moment: Some(moment),
            ran: Cell::new(0),
            step: 0,
            looks: Cell::new(u64::MAX),
        }
    }
}

impl Clock for Hands {
    fn monotonic(&self) -> io::Result<Duration> {
        let (ran, looks) = (self.ran.get(), self.looks.get());
        if looks == 0 {
            return Err(Error::from(ErrorKind::Other));
        }
        self.looks.set(looks - 1);
        self.ran.set(ran.saturating_add(self.step));
        Ok(Duration::from_secs(ran))
    }

    fn since_1970(&self) -> io::Result<Duration> {
        match self.moment {
            Some(moment) => Ok(Duration::from_secs(moment)),
            None => Err(Error::from(ErrorKind::Other)),
        }
    }
}

/// It reaches no network: what waits for connections asks the system itself.
impl Net for Hands {
    type Stream = TcpStream;

    type Listener = TcpListener;

    fn bind(&self, _addr: SocketAddr) -> io::Result<TcpListener> {
        Err(Error::from(ErrorKind::Unsupported))
    }

    fn connect(&self, _addr: SocketAddr) -> io::Result<TcpStream> {
        Err(Error::from(ErrorKind::Unsupported))
    }
}

/// A client that has sent this and waits.
fn client(rt: &HostRuntime, listener: &TcpListener, sent: &[u8]) -> io::Result<TcpStream> {
    let mut stream = TcpStream::connect(rt, listener.local_addr()?)?;
    stream.write_all(sent)?;
    Ok(stream)
}

/// All that a client is answered, up to the end of its connection.
fn answered(alloc: Global, mut stream: TcpStream) -> io::Result<Vec<u8>> {
    let mut bytes = Vec::new(alloc);
    stream.read_to_end(&mut bytes)?;
    Ok(bytes)
}

/// Serves so many connections.
fn serve<S: Alter>(
    alloc: Global,
    keeper: &mut Keeper<S>,
    listener: &TcpListener,
    max: u64,
    clock: &Hands,
) -> Result<(), DeskFault> {
    serve_on(alloc, keeper, listener, max, clock)
}

/// How many commands were accepted; none where the keeper is closed.
fn count<S: Alter>(keeper: &Keeper<S>) -> Option<u64> {
    match keeper.farm() {
        Some(farm) => Some(farm.status().count),
        None => None,
    }
}

const LOOK: &[u8] = b"GET /status HTTP/1.1\r\n\r\n";

/// The farm with one type, whose command's moment was the clock's.
const STATUS: &[u8] =
    b"HTTP/1.1 200 OK\r\ncontent-type: application/json\r\ncontent-length: 100\r\nconnection: close\r\n\r\n{\"boards\":0,\"clock\":1700000000,\"collector\":0,\"count\":1,\"jobs\":0,\"next\":1,\"reservations\":0,\"types\":1}";

/// Serves so many clients by that clock; how many commands were accepted.
fn count_served<S: Alter>(
    alloc: Global,
    keeper: &mut Keeper<S>,
    listener: &TcpListener,
    max: u64,
    clock: &Hands,
) -> Result<Option<u64>, Fail> {
    serve(alloc, keeper, listener, max, clock)?;
    Ok(count(keeper))
}

/// The same by a keeper of an empty farm.
fn serve_on_new<S: Alter + Drop>(
    alloc: Global,
    conn: Connection<S>,
    listener: &TcpListener,
    max: u64,
    clock: &Hands,
) -> Result<Option<u64>, Fail> {
    let mut keeper = made(alloc, conn).ok_or("no farm")?;
    count_served(alloc, &mut keeper, listener, max, clock)
}

/// Two clients that wait: one adds a type, the other looks at the farm.
fn two_waiting(rt: &HostRuntime, listener: &TcpListener) -> io::Result<(TcpStream, TcpStream)> {
    let first = client(rt, listener, FIRST_TYPE)?;
    let second = client(rt, listener, LOOK)?;
    Ok((first, second))
}

/// Whether a client is answered these bytes.
fn is_answered(alloc: Global, stream: TcpStream, wanted: &[u8]) -> io::Result<bool> {
    Ok(answered(alloc, stream)?.as_slice() == wanted)
}

#[test]
fn two_clients(rt: HostRuntime) -> Result<(), Fail> {
    let alloc = rt.alloc();
    let listener = TcpListener::bind(&rt, "127.0.0.1:0")?;
    let (first, second) = two_waiting(&rt, &listener)?;
    let clock = Hands::standing(1_700_000_000);
    let conn = Connection::open_in_memory(alloc)?;
    assert_eq!(rt; serve_on_new(alloc, conn, &listener, 2, &clock)?, Some(1));
    assert!(rt; is_answered(alloc, first, DONE)?);
    assert!(rt; is_answered(alloc, second, STATUS)?);
    Ok(())
}

/// The answer to a type that is there.
const EXISTS: &[u8] =
    b"HTTP/1.1 409 Conflict\r\ncontent-type: application/json\r\ncontent-length: 32\r\nconnection: close\r\n\r\n{\"code\":11,\"text\":\"type exists\"}";

/// Serves in turns: so many connections by that clock, and then so many commands were accepted.
fn serve_each<S: Alter>(
    rt: &impl Abort,
    alloc: Global,
    keeper: &mut Keeper<S>,
    listener: &TcpListener,
    turns: &[(u64, Hands, u64)],
) -> Result<(), Fail> {
    for (max, clock, wanted) in turns {
        let found = count_served(alloc, keeper, listener, *max, clock)?;
        assert_eq!(rt; found, Some(*wanted));
    }
    Ok(())
}

/// The same by one keeper of an empty farm.
fn serve_in_turns<S: Alter + Drop>(
    rt: &impl Abort,
    alloc: Global,
    conn: Connection<S>,
    listener: &TcpListener,
    turns: &[(u64, Hands, u64)],
) -> Result<(), Fail> {
    let mut keeper = made(alloc, conn).ok_or("no farm")?;
    serve_each(rt, alloc, &mut keeper, listener, turns)
}

/// None, then one, then one more.
fn turns() -> [(u64, Hands, u64); 3] {
    [
        (0, Hands::standing(10), 0),
        (1, Hands::standing(10), 1),
        (1, Hands::standing(10), 1),
    ]
}

/// As many are served as is asked for: the second client waits on, and is served by the same
/// keeper.
#[test]
fn as_many_as_asked(rt: HostRuntime) -> Result<(), Fail> {
    let alloc = rt.alloc();
    let listener = TcpListener::bind(&rt, "127.0.0.1:0")?;
    let first = client(&rt, &listener, FIRST_TYPE)?;
    let second = client(&rt, &listener, FIRST_TYPE)?;
    let conn = Connection::open_in_memory(alloc)?;
    serve_in_turns(&rt, alloc, conn, &listener, &turns())?;
    assert!(rt; is_answered(alloc, first, DONE)?);
    assert!(rt; is_answered(alloc, second, EXISTS)?);
    Ok(())
}

/// A clock that is eleven seconds on at each look.
fn running() -> Hands {
    let mut clock = Hands::standing(10);
    clock.step = 11;
    clock
}

/// A clock that can't be read, and one whose time is over at the second look: so the request isn't
/// answered, or isn't there in time.
fn clocks() -> [(Hands, &'static [u8], u64); 2] {
    let mut blank = Hands::standing(10);
    blank.moment = None;
    [(blank, FIRST_TYPE, 0), (running(), &FIRST_TYPE[..40], 0)]
}

#[test]
fn clocks_that_fail(rt: HostRuntime) -> Result<(), Fail> {
    let alloc = rt.alloc();
    for (clock, sent, wanted) in &clocks() {
        let listener = TcpListener::bind(&rt, "127.0.0.1:0")?;
        let first = client(&rt, &listener, sent)?;
        let conn = Connection::open_in_memory(alloc)?;
        let found = serve_on_new(alloc, conn, &listener, 1, clock)?;
        assert_eq!(rt; found, Some(*wanted));
        // Where the request stays unread, its connection may be reset.
        if let Ok(bytes) = answered(alloc, first) {
            assert!(rt; bytes.is_empty());
        }
    }
    Ok(())
}

/// Once the desk gave up a client that waits, the same keeper serves the next.
#[test]
fn served_after_a_slow_one(rt: HostRuntime) -> Result<(), Fail> {
    let alloc = rt.alloc();
    let listener = TcpListener::bind(&rt, "127.0.0.1:0")?;
    let slow = client(&rt, &listener, &FIRST_TYPE[..40])?;
    let next = client(&rt, &listener, FIRST_TYPE)?;
    let conn = Connection::open_in_memory(alloc)?;
    let turns = [(1, running(), 0), (1, Hands::standing(10), 1)];
    serve_in_turns(&rt, alloc, conn, &listener, &turns)?;
    assert!(rt; is_answered(alloc, slow, b"")?);
    assert!(rt; is_answered(alloc, next, DONE)?);
    Ok(())
}

/// Serves a client by a store that fails at its command, and whose answer is lost: the serving ends
/// with the fault, and from then on nobody is taken. None where the farm isn't made.
fn serve_failing<S: Alter + Drop>(
    rt: &impl Abort,
    alloc: Global,
    conn: Connection<S>,
    listener: &TcpListener,
) -> Option<Result<(), DeskFault>> {
    let mut keeper = made(alloc, conn)?;
    let clock = Hands::standing(10);
    let end = serve(alloc, &mut keeper, listener, 9, &clock);
    let again = serve(alloc, &mut keeper, listener, 9, &clock);
    assert_eq!(rt; again, Err(DeskFault::Keep(KeepFault::Closed)));
    Some(end)
}

/// The same over two files; none where the store isn't opened.
fn serve_files<D: Disk + Drop>(
    rt: &impl Abort,
    alloc: Global,
    files: Files<D>,
    listener: &TcpListener,
) -> Option<Result<(), DeskFault>> {
    serve_failing(rt, alloc, opened(alloc, files)?, listener)
}

#[test]
fn fault_of_a_lost_answer(rt: HostRuntime) -> Result<(), Fail> {
    let alloc = rt.alloc();
    let listener = TcpListener::bind(&rt, "127.0.0.1:0")?;
    // It goes away before it is answered.
    drop(client(&rt, &listener, FIRST_TYPE)?);
    for calls in 0..1000 {
        let (log, db) = (stopping(alloc, calls), stopping(alloc, u64::MAX));
        let Some(end) = serve_files(&rt, alloc, Files { log, db }, &listener) else {
            continue;
        };
        assert_eq!(rt; end, Err(DeskFault::Keep(KeepFault::Store)));
        return Ok(());
    }
    Err(Fail::new("no desk was opened"))
}
