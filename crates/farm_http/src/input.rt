//! What requests are read from.
ghost use Rattle.std.specs.Prelude.{◌≢◌, ◌-◌, ◌<◌, ◌≤◌, ⊤, length, take, None, Option, All, IfOk, IsOk};
ghost use Rattle.std.specs.Io.{ReadsAtMost, StopsAt};
ghost use Rattle.std.specs.Io.KnownBytes.{ReadConsumes};
ghost use Rattle.httparse.specs.Ascii.{line_feed};
ghost use Rattle.farm_http.specs.Turns.{CountsRead, Turns};

use std::alloc::Allocator;
use std::io::{self, BufRead, BufReader, Read, Stdin};

/// A reader, and what `Read` does not say of it: that it never fails, where that is so, and how
/// often it was called and failed, where it counts that.
pub trait Input: Read {
    /// It never fails and is never interrupted.
    ghost never_fails: { Type 0 } = { ⊥ };

    /// How often it was called and how often it failed, where it counts that.
    ghost turns: { Self → Option Turns } = { λ _. None };

    /// Calls `read` once.
    fn read_once(&mut self, buf: &mut [u8]) -> io::Result<usize>
        ensures bound { ReadsAtMost result buf.new }
        ensures bytes { ReadConsumes (Self.remaining self.old) (Self.remaining self.new)
            result buf.new }
        ensures sure { never_fails → IsOk result }
        ensures once { CountsRead (turns self.old) (turns self.new) result };

    /// Reads what is at hand of a line, as by one call of `read`: no byte before the last is a line
    /// feed. A reader that can't tell gives one byte.
    fn read_in_line(&mut self, buf: &mut [u8]) -> io::Result<usize>
        requires room { 0 < length buf.old }
        ensures bound { ReadsAtMost result buf.new }
        ensures bytes { ReadConsumes (Self.remaining self.old) (Self.remaining self.new)
            result buf.new }
        ensures line { IfOk result (λ n. StopsAt (take n buf.new) line_feed) }
        ensures sure { never_fails → IsOk result }
        ensures once { CountsRead (turns self.old) (turns self.new) result }
    {
        self.read_once(&mut buf[..1])
    }
}

/// How many bytes are of the first line: all up to the first line feed and with it.
fn line_len(bytes: &[u8]) -> usize
    ensures within { result ≤ length bytes.now }
    ensures line { All (λ byte. byte ≢ line_feed) (take (result - 1) bytes.now) }
    ensures some { 0 < length bytes.now → 0 < result }
{
    let feed = bytes.iter().position(|byte| *byte == b'\n');
    feed.map_or(bytes.len(), |at| at + 1)
}

/// Bytes in memory never fail.
impl Input for &[u8] {
    ghost never_fails = { ⊤ };

    fn read_once(&mut self, buf: &mut [u8]) -> io::Result<usize> {
        self.read(buf)
    }

    fn read_in_line(&mut self, buf: &mut [u8]) -> io::Result<usize> {
        let room = line_len(self).min(buf.len());
        self.read(&mut buf[..room])
    }
}

/// Any reader may be lent: of it no more is known than `Read` says.
impl<R: Read> Input for &mut R {
    fn read_once(&mut self, buf: &mut [u8]) -> io::Result<usize> {
        self.read(buf)
    }
}

impl<R: Read, A: Allocator> Input for BufReader<R, A> {
    fn read_once(&mut self, buf: &mut [u8]) -> io::Result<usize> {
        self.read(buf)
    }

    /// Takes what is held of a line. Where nothing is, the buffer is filled for one byte.
    fn read_in_line(&mut self, buf: &mut [u8]) -> io::Result<usize> {
        let count = line_len(self.buffer()).min(buf.len());
        if count == 0 {
            return self.read(&mut buf[..1]);
        }
        buf[..count].copy_from_slice(&self.buffer()[..count]);
        self.consume(count);
        Ok(count)
    }
}

impl Input for Stdin {
    fn read_once(&mut self, buf: &mut [u8]) -> io::Result<usize> {
        self.read(buf)
    }
}
