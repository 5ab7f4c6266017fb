//! What answers are written to.
ghost use Rattle.std.specs.Prelude.{◌≡◌, ℕ, ◌+◌, ◌≤◌, length, None, Ok, Option, vec_capacity};
ghost use Rattle.std.specs.Io.{WritesAtMost};
ghost use Rattle.std.specs.Io.KnownBytes.{WriteAppends};
ghost use Rattle.farm_http.specs.Turns.{CountsWrite, Turns};
ghost use Rattle.farm_http.specs.Room.{KeepsRoom};

use std::io::{self, Stderr, Stdout, Write};

/// A writer, and what `Write` does not say of it: that it takes so many bytes in one call, where
/// that is known, and how often it was called and failed, where it counts that.
pub trait Output: Write {
    /// It takes so many bytes in one call.
    ghost has_room: { Self → ℕ → Type 0 } = { λ _ _. ⊥ };

    /// How often it was called and how often it failed, where it counts that.
    ghost turns: { Self → Option Turns } = { λ _. None };

    /// Calls `write` once.
    fn write_once(&mut self, bytes: &[u8]) -> io::Result<usize>
        ensures bound { WritesAtMost result bytes.now }
        ensures bytes { WriteAppends (Self.contents self.old) (Self.contents self.new)
            result bytes.now }
        ensures sure { has_room self.old (length bytes.now) → result ≡ Ok (length bytes.now) }

        // Its room gets less by what it takes, and by no more.
        ensures room { KeepsRoom (has_room self.old) (has_room self.new)
            (Self.contents self.old) (Self.contents self.new) }
        ensures once { CountsWrite (turns self.old) (turns self.new) result };
}

/// A vector takes the bytes that fit its capacity; for more it asks for memory.
impl Output for Vec<u8> {
    ghost has_room = { λ held n. length held.items + n ≤ vec_capacity held };

    fn write_once(&mut self, bytes: &[u8]) -> io::Result<usize> {
        self.extend_from_slice(bytes)?;
        Ok(bytes.len())
    }
}

/// Any writer may be lent: of it no more is known than `Write` says.
impl<W: Write> Output for &mut W {
    fn write_once(&mut self, bytes: &[u8]) -> io::Result<usize> {
        self.write(bytes)
    }
}

impl Output for Stdout {
    fn write_once(&mut self, bytes: &[u8]) -> io::Result<usize> {
        self.write(bytes)
    }
}

impl Output for Stderr {
    fn write_once(&mut self, bytes: &[u8]) -> io::Result<usize> {
        self.write(bytes)
    }
}
