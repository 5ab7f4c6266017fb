//! The clients that a listener accepts: their requests and answers are in memory, and what they
//! will send and take isn't known.
ghost use Rattle.std.specs.Prelude.{◌≡◌, ◌≤◌, ◌↔◌, ◌/◌, ◌^◌, false, None, ⊤, Err, IsOk, IsSome};
ghost use Rattle.std.specs.Duration.{as_nanos};
ghost use Rattle.sqlite.specs.Held.{state};
ghost use Rattle.sqlite_trees.specs.View.{doubt};
ghost use Rattle.farm_serve.specs.Connections.{ServesInTurn};
ghost use Rattle.farm_serve.specs.Serving.{ServesUntil};

use crate::open_files::OpenFiles;
use farm_keep::{KeepFault, Keeper};
use farm_room::{Connection, Connections, Inbox, Outbox};
use farm_serve::{Client, Clients, DeskFault, serve};
use farm_wire::{no_memory_answer, store_answer};
use sqlite::Alter;
use std::alloc::Global;
use std::mem;
use std::net::{Net, TcpListener};
use std::time::{Clock, Duration, SystemTime, UNIX_EPOCH};

/// The room for an answer from the start: a usual one takes no more memory.
const USUAL_ANSWER: usize = 512;

/// The clients of a listener, as long as nobody takes away the files under the farm that is served,
/// where these are given. One at a time is conversed with, the `served` one.
#[derive(Drop)]
pub(crate) struct SocketClients<'a, 'c, C: Clock> {
    alloc: Global,
    listener: &'a TcpListener,
    clock: &'c C,
    connections: Option<Connections>,
    served: Option<Connection>,
    files: Option<&'a OpenFiles<'c>>,
}

impl<'a, 'c, C: Clock + Net> SocketClients<'a, 'c, C> {
    /// The first `max` clients of a listener, none of whom was accepted yet; nobody where the system
    /// or the memory refuses what waiting for them takes.
    pub(crate) fn new(
        alloc: Global,
        listener: &'a TcpListener,
        max: u64,
        clock: &'c C,
        files: Option<&'a OpenFiles<'c>>,
    ) -> SocketClients<'a, 'c, C> {
        SocketClients {
            alloc,
            listener,
            clock,
            connections: Connections::new(alloc, clock, listener, max, no_memory_answer()),
            served: None,
            files,
        }
    }

    /// Waits until the clients that were served took their answers, or their time is over. Nobody is
    /// accepted any more.
    pub(crate) fn send_rest(&mut self) {
        if let Some(connections) = &mut self.connections {
            connections.send_rest(self.clock);
        }
        let _ = self.listener.set_nonblocking(false);
    }
}

impl<C: Clock> Clients for SocketClients<'_, '_, C> {
    type Reader = Inbox;

    type Writer = Vec<u8>;

    ghost client_list = { λ _. None };

    ghost has_open = { λ _. ⊤ };

    /// Whether nobody can be waited for, or the files were taken away.
    fn is_over(&self) -> bool
        ensures { IsSome self.now.connections → self.now.files ≡ None → result ≡ false }
    {
        self.connections.is_none() || self.files.is_some_and(|files| files.are_lost())
    }

    /// The next connection whose request is there, as far as it came: what it sent, and room for a
    /// usual answer. Without memory for that the client is answered so, and without the files that
    /// the store failed.
    fn next(&mut self) -> Option<Client<Inbox, Vec<u8>>> {
        let connections = self.connections.as_mut()?;
        let mut connection = connections.next_connection(self.listener, self.clock)?;
        let since = SystemTime::now(self.clock).ok()?.duration_since(UNIX_EPOCH);
        let now = moment_of(since.ok()?);
        if self.files.is_some_and(|files| !files.are_present()) {
            connection.refuse(store_answer());
            return None;
        }
        let writer = Vec::with_capacity(self.alloc, USUAL_ANSWER)
            .map_err(|_| connection.refuse(no_memory_answer()))
            .ok()?;
        let reader = mem::replace(&mut connection.inbox, Inbox::new(self.alloc));
        self.served = Some(connection);
        Some(Client {
            now,
            reader,
            writer,
        })
    }

    /// Sends the answer, or where there was no memory for it says that, and closes the connection;
    /// what the client doesn't take at once waits aside.
    fn close(&mut self, _reader: Inbox, writer: Vec<u8>) {
        let (Some(connections), Some(mut connection)) = (&mut self.connections, self.served.take())
        else {
            return;
        };
        if writer.is_empty() {
            connection.refuse(no_memory_answer());
            return;
        }
        connection.outbox = Outbox::of(writer);
        connections.send(connection, self.clock);
    }
}

/// The moment of a time since 1970-01-01 00:00:00 UTC: its whole seconds.
fn moment_of(since: Duration) -> u64
    ensures { result ≡ as_nanos since / 10 ^ 9 }
{
    since.as_secs()
}

/// Takes that many connections in turn; of each it reads one request, answers it as `converse`
/// does, and closes it. The moment of a request is the clock's once it is there, in whole seconds
/// since 1970-01-01 00:00:00 UTC. It is `serve` over the listener's clients: a failed accept counts
/// as a connection, as does one whose request isn't there in time, and a clock that fails ends its
/// connection alone. Where the system or the memory refuses what waiting for them takes, nobody is
/// served.
///
/// Connections are served one at a time, those first whose requests are there, in the order in which
/// they came. Up to 1,024 wait until all bytes of their requests came, for `LIMIT_SECONDS` at most,
/// and keep nobody waiting; where all places are taken the oldest of them goes for the next. What
/// came of a request waits in memory, 73,728 bytes at most. What a client doesn't take of its answer
/// at once waits as long, up to 256 answers and 64 MB, beyond which the oldest is cut; the serving
/// ends once these were taken, or their time is over. The network of the clock's runtime is asked
/// which connections are ready, and for nothing else.
///
/// The clauses say what becomes of the farm and of its store, and that each client whose request
/// came was conversed with. That anybody took an answer they don't say.
///
/// Costs what `serve` does, and for each connection an accept, a read for each time that bytes of
/// its request came, one write where the answer is taken whole, and half a dozen short calls of the
/// system.
pub fn serve_on<'a, S: Alter, C: Clock + Net>(
    alloc: Global,
    keeper: &mut Keeper<S>,
    listener: &'a TcpListener,
    max: u64,
    clock: &'a C,
) -> Result<(), DeskFault>
    // What came of a request is in memory: so whoever was accepted was conversed with over it.
    ensures connections { ServesInTurn S.Store ⊤ None None keeper.old keeper.new max
        (IsOk result) }

    // The farm and its store are then as `serve` says.
    ensures serves { ServesUntil S.Store keeper.old keeper.new max result }
    ensures closed { (result ≡ Err (DeskFault.Keep KeepFault.Closed))
        ↔ (keeper.old.is_open ≡ false) }
    ensures clean { doubt (state S.Store keeper.old.conn).is_clean ≤ doubt
        (state S.Store keeper.new.conn).is_clean }
{
    let mut clients = SocketClients::new(alloc, listener, max, clock, None);
    let ended = serve(alloc, keeper, &mut clients, max);
    clients.send_rest();
    ended
}
