//! What came of a client's request.
ghost use Rattle.std.specs.Prelude.{◌≡◌, ◌≢◌, ℕ, ◌<◌, ◌≤◌, ◌++◌, [], ⊤, List, Ok, OnOk, OnErr, IfOk};
ghost use Rattle.std.specs.Prelude.{IsErr, IsErrAnd, Some, drop, length, take};
ghost use Rattle.std.specs.IoError.{error_kind};
ghost use Rattle.std.specs.declared.io.ErrorKind.TheVariants.{WouldBlock};
ghost use Rattle.std.specs.Io.KnownBytes.{Consumes};
ghost use Rattle.farm_http.specs.Fronts.{IsFront};
ghost use Rattle.farm_room.specs.Came.{Finds, IsAwaited, IsKnown};

use farm_http::{Front, Input, front_of};
use farm_types::{LONGEST_BODY, LONGEST_HEAD};
use std::alloc::{AllocError, Global};
use std::io::{self, ErrorKind, Read};

/// The most bytes that a request has.
pub(crate) const LONGEST_REQUEST: usize = LONGEST_HEAD + LONGEST_BODY;

/// The bytes that came of a request, and how many of them were read; at how many was looked, and how
/// long the request is, where its head came. It is read as far as it came: what comes later it
/// hasn't. Each byte is looked at once while the head comes.
#[derive(Drop)]
pub struct Inbox {
    bytes: Vec<u8>,
    read: usize,
    seen: usize,
    whole: Option<usize>,
    ghost within: { read ≤ length bytes.items },
    ghost known: { ∥ IsKnown bytes.items seen whole ∥₁ },
}

/// What is made of bytes that came.
#[derive(Clone, Copy, Debug, PartialEq, Eq)]
pub(crate) enum Look {
    /// More is awaited.
    Open,
    /// Nothing is: the request is there, or what is none, or the end of the connection.
    Done,
    /// There is no memory for them.
    NoMemory,
    /// The connection failed.
    Failed,
}

impl Inbox {
    /// Nothing came.
    pub fn new(alloc: Global) -> Inbox
        ensures { result.bytes.items ≡ [] }
    {
        Inbox {
            bytes: Vec::new(alloc),
            read: 0,
            seen: 0,
            whole: None,
        }
    }

    /// Takes in what a reader has at hand, by one call, but no more than a request may have. `room`
    /// has room for that.
    pub(crate) fn take_in<R: Read>(&mut self, reader: &mut R, room: &mut [u8]) -> Look
        // It is put behind what came before, unless there is no memory for it.
        ensures came { result ≢ Look.NoMemory → (came : List ℕ)
            × Consumes (R.remaining reader.old) (R.remaining reader.new) came
            × (self.new.bytes.items ≡ self.old.bytes.items ++ came) }
        ensures kept { result ≡ Look.NoMemory → self.new.bytes.items ≡ self.old.bytes.items }
    {
        let most = self.room().min(room.len());
        let part = &mut room[..most];
        let read = reader.read(part);
        self.take_after(part, &read)
    }

    /// How many more bytes the request may have.
    fn room(&self) -> usize {
        let most = self.whole.unwrap_or(LONGEST_REQUEST);
        most.saturating_sub(self.bytes.len())
    }

    /// Takes in the bytes that a read gave, where it gave some.
    fn take_after(&mut self, bytes: &[u8], read: &io::Result<usize>) -> Look
        ensures none { IsErrAnd read.now (λ error. error_kind error ≡ WouldBlock)
            → result ≡ Look.Open }
        ensures failed { IsErrAnd read.now (λ error. error_kind error ≢ WouldBlock)
            → result ≡ Look.Failed }
        ensures end { read.now ≡ Ok 0 → result ≡ Look.Done }
        ensures finds { IfOk read.now (λ count. 0 < count
            → ∥ Finds self.new.bytes.items result ∥₁) }
        ensures put { IfOk read.now (λ count. count ≤ length bytes.now → result ≢ Look.NoMemory
            → self.new.bytes.items ≡ self.old.bytes.items ++ take count bytes.now) }
        ensures unread { IsErr read.now → self.new.bytes.items ≡ self.old.bytes.items }
        ensures kept { result ≡ Look.NoMemory → self.new.bytes.items ≡ self.old.bytes.items }
    {
        match read {
            Ok(count) if *count > 0 => self.add(&bytes[..(*count).min(bytes.len())]),
            Err(error) if error.kind() == ErrorKind::WouldBlock => Look::Open,
            Ok(_) => Look::Done,
            Err(_) => Look::Failed,
        }
    }

    /// Puts bytes behind those that came before, and looks at them.
    fn add(&mut self, came: &[u8]) -> Look
        ensures put { result ≢ Look.NoMemory
            → self.new.bytes.items ≡ self.old.bytes.items ++ came.now }
        ensures kept { result ≡ Look.NoMemory → self.new.bytes.items ≡ self.old.bytes.items }
        ensures finds { ∥ Finds self.new.bytes.items result ∥₁ }
    {
        match self.put(came) {
            Ok(()) if self.is_awaited() => Look::Open,
            Ok(()) => Look::Done,
            Err(_) => Look::NoMemory,
        }
    }

    /// Puts bytes behind those that came before.
    fn put(&mut self, came: &[u8]) -> Result<(), AllocError>
        ensures ok { OnOk result (self.new.bytes.items ≡ self.old.bytes.items ++ came.now) }
        ensures kept { OnErr result (self.new.bytes.items ≡ self.old.bytes.items) }
    {
        self.bytes.extend_from_slice(came)
    }

    /// Whether more is awaited. Once the head is there the rest has room.
    fn is_awaited(&mut self) -> bool
        ensures awaited { ∥ IsAwaited self.new.bytes.items result ∥₁ }
        ensures bytes { self.new.bytes.items ≡ self.old.bytes.items }
    {
        let came = self.bytes.len();
        match self.front() {
            Front::Open => true,
            Front::Whole(whole) if came < whole => {
                // So it grows once; where there is no memory for it now, later.
                let _ = self.bytes.reserve_exact(whole - came);
                true
            }
            Front::Whole(_) | Front::Refused => false,
        }
    }

    /// What is known by what came.
    fn front(&mut self) -> Front
        ensures front { ∥ IsFront self.new.bytes.items result ∥₁ }
        ensures bytes { self.new.bytes.items ≡ self.old.bytes.items }
    {
        if let Some(whole) = self.whole {
            return Front::Whole(whole);
        }
        let front = front_of(self.bytes.as_slice(), self.seen);
        match front {
            Front::Open => self.seen = self.bytes.len(),
            Front::Whole(whole) => self.whole = Some(whole),
            Front::Refused => {}
        }
        front
    }

    /// What came and wasn't read yet.
    fn rest(&self) -> &[u8]
        ensures { result.now ≡ drop self.now.read self.now.bytes.items }
    {
        &self.bytes[self.read..]
    }
}

impl Read for Inbox {
    ghost remaining = { λ it. Some (drop it.read it.bytes.items) };

    fn read(&mut self, buf: &mut [u8]) -> io::Result<usize> {
        let mut rest = self.rest();
        let count = rest.read(buf)?;
        self.read += count;
        Ok(count)
    }
}

/// What came is in memory, so reading it never fails.
impl Input for Inbox {
    ghost never_fails = { ⊤ };

    fn read_once(&mut self, buf: &mut [u8]) -> io::Result<usize> {
        let mut rest = self.rest();
        let count = rest.read_once(buf)?;
        self.read += count;
        Ok(count)
    }

    fn read_in_line(&mut self, buf: &mut [u8]) -> io::Result<usize> {
        let mut rest = self.rest();
        let count = rest.read_in_line(buf)?;
        self.read += count;
        Ok(count)
    }
}
