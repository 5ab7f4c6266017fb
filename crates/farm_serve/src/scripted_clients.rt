//! Clients in memory, each with the bytes that it sends and room for its answer: contracts name
//! what they send and what they are answered.
ghost use Rattle.std.specs.Prelude.{◌≡◌, ◌↔◌, ◌+◌, ◌<◌, IfOk, IsTrue, [], map, length, vec_capacity};
ghost use Rattle.std.specs.Prelude.{Some};
ghost use Rattle.std.specs.Vec.Iter.{into_iter_items};
ghost use Rattle.farm_serve.specs.Clients.{IsOver};
ghost use Rattle.farm_serve.specs.Scripts.{arrival_of, client_list_of};

mod list;

use crate::clients::{Client, Clients};
pub use list::ScriptedClients;
use std::alloc::{AllocError, Global};

/// A client that is to be served.
#[derive(Debug, Drop)]
pub struct ScriptedClient<'a> {
    /// The moment of its request, in seconds since 1970-01-01 00:00:00 UTC.
    pub now: u64,
    /// What it sends.
    pub bytes: &'a [u8],
    /// What it is answered in: an answer that fits its capacity is written whole.
    pub answer: Vec<u8>,
}

/// A client that was served.
#[derive(Debug, Drop)]
pub struct ServedClient<'a> {
    /// What it sent beyond its request.
    pub rest: &'a [u8],
    /// What it was answered.
    pub answer: Vec<u8>,
}

impl<'a> ScriptedClients<'a> {
    /// Clients that are served in this order, none of them yet. Fails where there is no memory for
    /// the list of the served ones.
    pub fn new(
        alloc: Global,
        all: Vec<ScriptedClient<'a>>,
    ) -> Result<ScriptedClients<'a>, AllocError>
        ensures { IfOk result (λ clients. client_list_of clients ≡ record {
          waiting = map arrival_of all.entry.items;
          served = [];
        }) }
    {
        let served = Vec::with_capacity(alloc, all.len())?;
        Ok(ScriptedClients {
            waiting: all.into_iter(),
            served,
        })
    }

    /// Those that were served, in the order in which they were.
    pub fn served(&self) -> &[ServedClient<'a>]
        ensures { result.now ≡ self.now.served.items }
    {
        self.served.as_slice()
    }
}

impl<'a> Clients for ScriptedClients<'a> {
    type Reader = &'a [u8];

    type Writer = Vec<u8>;

    ghost client_list = { λ clients. Some (client_list_of clients) };

    ghost has_open = { λ clients. length (into_iter_items clients.waiting) + length clients.served.items
        < vec_capacity clients.served };

    fn is_over(&self) -> bool
        ensures { IsTrue result ↔ IsOver (Some (client_list_of self.now)) }
    {
        self.waiting.len() == 0
    }

    fn next(&mut self) -> Option<Client<&'a [u8], Vec<u8>>> {
        let client = self.waiting.next()?;
        Some(Client {
            now: client.now,
            reader: client.bytes,
            writer: client.answer,
        })
    }

    fn close(&mut self, reader: &'a [u8], writer: Vec<u8>) {
        self.served.push_reserved(ServedClient {
            rest: reader,
            answer: writer,
        });
    }
}
