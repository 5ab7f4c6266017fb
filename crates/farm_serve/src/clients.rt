//! Where clients come from: a trait over sockets and over scripted clients.
ghost use Rattle.std.specs.Prelude.{◌≡◌, Option, MatchOption, IfSome, IsSome, IsTrue};
ghost use Rattle.farm_serve.specs.Clients.{ClientList, Accepts, Departs, IsOver};

use farm_http::{Input, Output};

/// A client that was accepted.
#[derive(Drop)]
pub struct Client<R, W> {
    /// The moment of its request, in seconds since 1970-01-01 00:00:00 UTC.
    pub now: u64,
    /// What it is read by.
    pub reader: R,
    /// What it is answered by.
    pub writer: W,
}

/// Clients that are accepted, served and closed one after another.
pub trait Clients {
    /// What a client's request is read from.
    type Reader: Input + Drop;

    /// What a client's answer is written to.
    type Writer: Output + Drop;

    /// The clients that wait and those that were served, where they are known.
    ghost client_list: { Self → Option ClientList };

    /// A client that was accepted isn't closed.
    ghost has_open: { Self → Type 0 };

    /// Whether no client comes any more.
    fn is_over(&self) -> bool
        ensures { IsTrue result → IsOver (client_list self.now) };

    /// Accepts the next client; none where nobody came, or where the one that came can't be served.
    fn next(&mut self) -> Option<Client<Self::Reader, Self::Writer>>
        ensures arrives { MatchOption result ((client_list self.new ≡ client_list self.old)
            × IsOver (client_list self.old))
            (λ client. Accepts (client_list self.old) (client_list self.new) client.now
            (Self.Reader.remaining client.reader) (Self.Writer.contents client.writer)
            (Self.Writer.has_room client.writer)) }
        ensures has_open { IsSome result → has_open self.new }

        // Of a reader that never fails it is known what it has.
        ensures heard { Self.Reader.never_fails
            → IfSome result (λ client. IsSome (Self.Reader.remaining client.reader)) };

    /// Closes the client that was accepted last.
    fn close(&mut self, reader: Self::Reader, writer: Self::Writer)
        requires { has_open self.old }
        ensures { Departs (client_list self.old) (client_list self.new) (record {
          input = Self.Reader.remaining reader;
          output = Self.Writer.contents writer;
        }) };
}
