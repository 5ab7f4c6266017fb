//! What is printed of the steps of a transcript.
use crate::script::{Deed, Step};
use crate::text::shown;
use std::io;

/// How many bytes of a difference are shown.
const SHOWN: usize = 32;

/// Prints what is reported of one transcript.
#[derive(Drop)]
pub struct Reporter<'a> {
    pub rt: &'a HostRuntime,
    pub name: &'a str,
    /// Whether each step is shown.
    pub shows: bool,
}

/// Whether a step gives what is wanted of it: where nothing is, it has to give nothing.
pub fn is_wanted(step: &Step, output: &[u8]) -> bool {
    if step.wanted.is_empty() {
        return output.is_empty();
    }
    for wanted in &step.wanted {
        if wanted.as_slice() == output {
            return true;
        }
    }
    false
}

/// The first place where two texts differ.
fn place_of_difference(one: &[u8], other: &[u8]) -> usize {
    for (place, byte) in one.iter().enumerate() {
        match other.get(place) {
            Some(found) if *found == *byte => {}
            _ => return place,
        }
    }
    one.len()
}

/// Some bytes from a place on, as a message shows them.
fn part(bytes: &[u8], from: usize) -> &str {
    let rest = bytes.get(from..).unwrap_or(&[]);
    shown(rest.get(..SHOWN).unwrap_or(rest))
}

impl<'a> Reporter<'a> {
    /// Reports the same transcript, but shows no step.
    pub fn quiet(&self) -> Reporter<'a> {
        Reporter {
            rt: self.rt,
            name: self.name,
            shows: false,
        }
    }

    /// Shows a step, and what it gave.
    fn show(&self, step: &Step, output: &[u8]) -> io::Result<()> {
        if !self.shows {
            return Ok(());
        }
        let (head, body) = (shown(step.head.as_slice()), shown(step.body.as_slice()));
        if matches!(step.deed, Deed::Say) {
            return println!(self.rt; "\n== {head}\n");
        }
        let (now, word, output) = (step.now, step.deed.word(), shown(output));
        println!(self.rt; "[{now}] {word} {head}\n{body}\n{output}")
    }

    /// Shows a step, and reports whether it gave what was wanted, and the difference if not.
    pub fn judge(&self, step: &Step, output: &[u8]) -> io::Result<bool> {
        self.show(step, output)?;
        if is_wanted(step, output) {
            return Ok(true);
        }
        let (name, line) = (self.name, step.line);
        let wanted = match step.wanted.first() {
            Some(wanted) => wanted.as_slice(),
            None => &[],
        };
        let place = place_of_difference(output, wanted);
        let (got, wanted) = (part(output, place), part(wanted, place));
        println!(self.rt; "{name}: line {line}, byte {place}: got {got:?}, wanted {wanted:?}")?;
        Ok(false)
    }

    /// Reports why the stops of a transcript failed.
    pub fn fails(&self, text: &str) -> io::Result<bool> {
        let name = self.name;
        println!(self.rt; "{name}: {text}")?;
        Ok(false)
    }

    /// Reports at which stop.
    pub fn fails_after(&self, calls: u64) -> io::Result<bool> {
        let name = self.name;
        println!(self.rt; "{name}: stopped after {calls} calls")?;
        Ok(false)
    }
}
