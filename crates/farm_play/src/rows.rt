//! Rows of answers in short: `(board; name=b2; holder=job 1)` is a board's row, whose other members
//! have their usual values. The file of the kinds of rows has each kind's members in their order.
use crate::text::{first_word, unread};
use std::alloc::Global;
use std::io;

/// A kind of rows: its name, and a line a member, TEXT USUAL: the text with `*` where the value
/// stands, and the usual value.
#[derive(Drop)]
struct Kind {
    name: String,
    members: String,
}

/// The kinds of rows that were read.
#[derive(Drop)]
pub struct Kinds {
    alloc: Global,
    kinds: Vec<Kind>,
}

/// The value that a short row gives the member of a name.
fn value_in<'a>(row: &'a str, name: &str) -> Option<&'a str> {
    for part in row.split("; ").skip(1) {
        match part.split_once("=") {
            Some((word, value)) if word == name => return Some(value),
            _ => {}
        }
    }
    None
}

/// Adds a member, whose name is in its first quotes, with its value in a short row, or the usual
/// one; whether the row names it.
fn push_member(whole: &mut String, line: &str, row: &str) -> io::Result<bool> {
    let (text, usual) = first_word(line);
    let (before, behind) = text.split_once("*").ok_or(unread())?;
    let name = before.split("\"").nth(1).ok_or(unread())?;
    let value = value_in(row, name);
    whole.push_str(before)?;
    whole.push_str(value.unwrap_or(usual))?;
    whole.push_str(behind)?;
    Ok(value.is_some())
}

impl Kind {
    /// Adds a row whose parts follow the kind's name; each names a member.
    fn push_row(&self, whole: &mut String, row: &str) -> io::Result<()> {
        let mut unnamed = row.split("; ").count();
        whole.push_str("{")?;
        for (place, line) in self.members.lines().enumerate() {
            if place > 0 {
                whole.push_str(",")?;
            }
            unnamed = unnamed.saturating_sub(usize::from(push_member(whole, line, row)?));
        }
        whole.push_str("}")?;
        if unnamed == 1 { Ok(()) } else { Err(unread()) }
    }
}

impl Kinds {
    pub fn new(alloc: Global) -> Kinds {
        let kinds = Vec::new(alloc);
        Kinds { alloc, kinds }
    }

    /// A new kind, whose members follow.
    pub fn begin(&mut self, name: &str) -> io::Result<()> {
        let name = String::from_str(self.alloc, name)?;
        let members = String::new(self.alloc);
        self.kinds.push(Kind { name, members })?;
        Ok(())
    }

    /// The next member of the kind that was begun last.
    pub fn member(&mut self, line: &str) -> io::Result<()> {
        let kind = self.kinds.last_mut().ok_or(unread())?;
        kind.members.push_str(line)?;
        kind.members.push_str("\n")?;
        Ok(())
    }

    /// The kind whose name a short row begins with.
    fn kind_of(&self, row: &str) -> io::Result<&Kind> {
        let (name, _) = row.split_once(";").unwrap_or((row, ""));
        for kind in &self.kinds {
            if kind.name.as_str() == name {
                return Ok(kind);
            }
        }
        Err(unread())
    }

    /// Adds a text with its short rows written out: what follows each `(` up to `)`.
    fn push_text(&self, whole: &mut String, text: &str) -> io::Result<()> {
        for (place, part) in text.split("(").enumerate() {
            if place == 0 {
                whole.push_str(part)?;
                continue;
            }
            let (row, rest) = part.split_once(")").ok_or(unread())?;
            self.kind_of(row)?.push_row(whole, row)?;
            whole.push_str(rest)?;
        }
        Ok(())
    }

    /// A text with its short rows written out.
    pub fn written_out(&self, text: &str) -> io::Result<String> {
        let mut whole = String::new(self.alloc);
        self.push_text(&mut whole, text)?;
        Ok(whole)
    }
}
