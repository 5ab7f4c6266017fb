//! What is left of an answer whose client doesn't take it yet.
ghost use Rattle.std.specs.Prelude.{◌≡◌, ◌≢◌, [], IsTrue};
ghost use Rattle.farm_room.specs.Waiting.{held, SendsSome, unsent};

use std::alloc::Global;
use std::io::{ErrorKind, Write};

/// The bytes of an answer, of which the first may be sent already.
#[derive(Drop)]
pub struct Outbox {
    bytes: Vec<u8>,
    sent: usize,
}

impl Outbox {
    /// Nothing is left.
    pub(crate) fn new(alloc: Global) -> Outbox
        ensures { unsent result ≡ [] }
    {
        Outbox::of(Vec::new(alloc))
    }

    /// All of an answer is left.
    pub fn of(bytes: Vec<u8>) -> Outbox
        ensures { unsent result ≡ bytes.items }
    {
        Outbox { bytes, sent: 0 }
    }

    /// How many bytes are held, those too that were sent.
    pub(crate) fn held(&self) -> usize
        ensures { result ≡ held self.now }
    {
        self.bytes.len()
    }

    /// Sends as much of what is left as a writer takes at once. Returns whether it may take more
    /// later: not where all was sent, or where it failed.
    pub(crate) fn send<W: Write>(&mut self, writer: &mut W) -> bool
        ensures sends { SendsSome (W.contents writer.old) (W.contents writer.new)
            (unsent self.old) (unsent self.new) }
        ensures more { IsTrue result → unsent self.new ≢ [] }
    {
        while self.sent < self.bytes.len() {
            match writer.write(&self.bytes[self.sent..]) {
                Ok(count) if count > 0 => self.sent += count,
                Ok(_) => return false,
                Err(error) => return error.kind() == ErrorKind::WouldBlock,
            }
        }
        false
    }
}
