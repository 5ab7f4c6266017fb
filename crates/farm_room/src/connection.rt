//! A client's connection: what came of its request, and what is left of its answer.
ghost use Rattle.std.specs.Prelude.{◌≡◌};

use crate::inbox::{Inbox, Look};
use crate::outbox::Outbox;
use std::alloc::Global;
use std::io::{Read, Write};
use std::net::{Shutdown, TcpStream};
use std::time::Duration;

/// The most reads that `shut_down` makes, of `READ_BYTES` bytes each.
const MOST_READS: u32 = 256;

const READ_BYTES: usize = 512;

/// A connection, its number, and when its request or its answer began.
#[derive(Drop)]
pub struct Connection {
    pub(crate) number: usize,
    pub(crate) stream: TcpStream,
    pub(crate) since: Duration,
    pub inbox: Inbox,
    pub outbox: Outbox,
}

impl Connection {
    /// A connection of which nothing came yet.
    pub(crate) fn new(
        alloc: Global,
        number: usize,
        stream: TcpStream,
        since: Duration,
    ) -> Connection
        ensures stream { result.stream ≡ stream }
        ensures number { result.number ≡ number }
        ensures since { result.since ≡ since }
    {
        Connection {
            number,
            stream,
            since,
            inbox: Inbox::new(alloc),
            outbox: Outbox::new(alloc),
        }
    }

    /// Takes in what came, by one read; `room` has room for a request. Without memory for it the
    /// client is answered that.
    pub(crate) fn take_in(&mut self, room: &mut [u8], no_memory: &[u8]) -> Look
        ensures number { self.new.number ≡ self.old.number }
        ensures since { self.new.since ≡ self.old.since }
        ensures outbox { self.new.outbox ≡ self.old.outbox }
    {
        let look = self.inbox.take_in(&mut &self.stream, room);
        if look == Look::NoMemory {
            self.refuse(no_memory);
        }
        look
    }

    /// Sends as much of its answer as the client takes at once. Returns whether it may take more
    /// later.
    pub(crate) fn send(&mut self) -> bool
        ensures number { self.new.number ≡ self.old.number }
        ensures since { self.new.since ≡ self.old.since }
    {
        self.outbox.send(&mut &self.stream)
    }

    /// Answers a request that isn't read, or whose answer was lost.
    pub fn refuse(&self, answer: &[u8]) {
        // The first bytes that are sent to a client wait for nothing.
        let _ = (&self.stream).write(answer);
        self.shut_down();
    }

    /// Ends an answer, and drops what has come and was not asked for. A close over unread bytes
    /// would reset the connection, and the client could lose its answer (RFC 9112, section 9.6). It
    /// waits for nothing.
    pub(crate) fn shut_down(&self) {
        let mut stream = &self.stream;
        if stream.shutdown(Shutdown::Write).is_err() {
            return;
        }
        let mut room = [0u8; READ_BYTES];
        for _ in 0..MOST_READS {
            match stream.read(&mut room) {
                Ok(count) if count > 0 => {}
                _ => return,
            }
        }
    }
}
