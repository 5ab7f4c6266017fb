//! Readers and writers that give and take little, or fail.
ghost use Rattle.std.specs.Prelude.{Some};

use farm_http::{Input, Output};
use std::alloc::Global;
use std::io;
use std::io::{Error, ErrorKind, Read, Write};

/// Counts the calls of a reader or a writer, and those at which it failed, for itself.
#[derive(Drop)]
pub struct Tally<T> {
    pub of: T,
    pub calls: usize,
    pub failures: usize,
}

impl<T> Tally<T> {
    pub fn new(of: T) -> Tally<T> {
        Tally {
            of,
            calls: 0,
            failures: 0,
        }
    }
}

impl<R: Read> Read for Tally<R> {
    fn read(&mut self, buf: &mut [u8]) -> io::Result<usize> {
        self.read_once(buf)
    }
}

impl<R: Read> Input for Tally<R> {
    ghost turns = { λ tally. Some (record { taken = tally.calls; failed = tally.failures }) };

    fn read_once(&mut self, buf: &mut [u8]) -> io::Result<usize> {
        self.calls = self.calls.saturating_add(1);
        match self.of.read(buf) {
            Err(error) if error.kind() != ErrorKind::Interrupted => {
                self.failures = self.failures.saturating_add(1);
                Err(error)
            }
            result => result,
        }
    }
}

impl<W: Write> Write for Tally<W> {
    fn write(&mut self, buf: &[u8]) -> io::Result<usize> {
        self.write_once(buf)
    }

    fn flush(&mut self) -> io::Result<()> {
        self.of.flush()
    }
}

impl<W: Write> Output for Tally<W> {
    ghost turns = { λ tally. Some (record { taken = tally.calls; failed = tally.failures }) };

    fn write_once(&mut self, bytes: &[u8]) -> io::Result<usize> {
        self.calls = self.calls.saturating_add(1);
        let result = self.of.write(bytes);
        if !result.as_ref().is_ok_and(|count| *count > 0) {
            self.failures = self.failures.saturating_add(1);
        }
        result
    }
}

/// Gives one byte a call, and is interrupted once before each of the first so many. At so many
/// bytes it fails, once or for good.
#[derive(Drop)]
pub struct Slow<'a> {
    rest: &'a [u8],
    stalls: usize,
    ready: bool,
    left: usize,
    fails: u32,
}

impl<'a> Slow<'a> {
    /// Gives all bytes, and is interrupted so often.
    pub fn whole(rest: &'a [u8], stalls: usize) -> Slow<'a> {
        Slow {
            rest,
            stalls,
            ready: false,
            left: 0,
            fails: 0,
        }
    }

    /// Fails so many times behind so many bytes.
    pub fn failing(rest: &'a [u8], left: usize, fails: u32) -> Slow<'a> {
        Slow {
            rest,
            stalls: 0,
            ready: false,
            left,
            fails,
        }
    }
}

impl Read for Slow<'_> {
    fn read(&mut self, buf: &mut [u8]) -> io::Result<usize> {
        if self.stalls > 0 && !self.ready {
            self.ready = true;
            self.stalls -= 1;
            return Err(Error::from(ErrorKind::Interrupted));
        }
        if self.left == 0 && self.fails > 0 {
            self.fails -= 1;
            return Err(Error::from(ErrorKind::Other));
        }
        self.left = self.left.saturating_sub(1);
        self.ready = false;
        let Some((first, rest)) = self.rest.split_first() else {
            return Ok(0);
        };
        if buf.is_empty() {
            return Ok(0);
        }
        buf[0] = *first;
        self.rest = rest;
        Ok(1)
    }
}

impl Input for Slow<'_> {
    fn read_once(&mut self, buf: &mut [u8]) -> io::Result<usize> {
        self.read(buf)
    }
}

/// Each call is interrupted.
#[derive(Drop)]
pub struct Interrupted;

impl Read for Interrupted {
    fn read(&mut self, _buf: &mut [u8]) -> io::Result<usize> {
        Err(Error::from(ErrorKind::Interrupted))
    }
}

impl Input for Interrupted {
    fn read_once(&mut self, buf: &mut [u8]) -> io::Result<usize> {
        self.read(buf)
    }
}

/// A head, and then a body that never ends, of which it counts what was taken.
#[derive(Drop)]
pub struct Endless<'a> {
    pub head: &'a [u8],
    pub given: usize,
}

impl Read for Endless<'_> {
    fn read(&mut self, buf: &mut [u8]) -> io::Result<usize> {
        if !self.head.is_empty() {
            return self.head.read(buf);
        }
        self.given = self.given.saturating_add(buf.len());
        Ok(buf.len())
    }
}

impl Input for Endless<'_> {
    fn read_once(&mut self, buf: &mut [u8]) -> io::Result<usize> {
        self.read(buf)
    }
}

/// Takes one byte a call, but after so many for some calls none: it is interrupted, or takes
/// nothing.
#[derive(Drop)]
pub struct Narrow {
    pub held: Vec<u8>,
    room: usize,
    stops: u32,
    fails: bool,
}

impl Narrow {
    /// Takes all bytes.
    pub fn whole(alloc: Global) -> Narrow {
        Narrow::stopping(alloc, 0, 0, false)
    }

    /// Stops so often behind so many bytes.
    pub fn stopping(alloc: Global, room: usize, stops: u32, fails: bool) -> Narrow {
        Narrow {
            held: Vec::new(alloc),
            room,
            stops,
            fails,
        }
    }
}

impl Write for Narrow {
    fn write(&mut self, buf: &[u8]) -> io::Result<usize> {
        let Some(first) = buf.first() else {
            return Ok(0);
        };
        if self.held.len() != self.room || self.stops == 0 {
            self.held.push(*first)?;
            return Ok(1);
        }
        self.stops -= 1;
        if self.fails {
            Err(Error::from(ErrorKind::Interrupted))
        } else {
            Ok(0)
        }
    }

    fn flush(&mut self) -> io::Result<()> {
        Ok(())
    }
}

impl Output for Narrow {
    fn write_once(&mut self, bytes: &[u8]) -> io::Result<usize> {
        self.write(bytes)
    }
}
