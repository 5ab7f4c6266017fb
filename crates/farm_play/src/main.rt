//! Plays transcripts: what a farm is asked, and what it has to answer. The words name their files;
//! behind the word `show` each step is shown as it is played. The program prints a line a
//! transcript, and its status is 1 where one failed.
//!
//! The transcripts of data/wrong have to fail, so that it stays shown that a wrong expectation
//! does: the lines that they print are in `stdout`, and the program's status is 1.
#![tactic(auto)]

mod desk;
mod player;
mod reporter;
mod rows;
mod script;
mod stops;
mod store;
mod text;
mod upgrade;

use player::Player;
use reporter::Reporter;
use script::{Deed, Reading, Step, Transcript};
use sqlite::{Alter, Connection};
use std::process::ExitCode;
use std::{env, fs, io};
use stops::plays_stops;
use store::{DiskStore, InFiles};

/// The steps before the end of the stops.
fn stopped(steps: &[Step]) -> &[Step] {
    for (place, step) in steps.iter().enumerate() {
        if matches!(step.deed, Deed::End) {
            return steps.get(..place).unwrap_or(&[]);
        }
    }
    &[]
}

/// Plays steps; whether all give what is wanted of them.
fn plays<S: Alter + Drop>(
    reporter: &Reporter<'_>,
    player: &mut Player<S>,
    steps: &[Step],
) -> io::Result<bool>
where
    Connection<S>: InFiles<S>,
{
    let mut passed = 0;
    for (place, step) in steps.iter().enumerate() {
        if place < passed {
            continue;
        }
        let is_well = if matches!(step.deed, Deed::Stops) {
            let rest = stopped(steps.get(place..).unwrap_or(&[]));
            passed = place.saturating_add(rest.len()).saturating_add(1);
            plays_stops(
                reporter.rt.alloc(),
                reporter,
                player,
                rest.get(1..).unwrap_or(&[]),
            )?
        } else {
            player.plays(reporter, step)?
        };
        if !is_well {
            return Ok(false);
        }
    }
    Ok(true)
}

/// Plays a transcript behind those that go before it.
fn plays_whole<S: Alter + Drop>(
    reporter: &Reporter<'_>,
    player: &mut Player<S>,
    all: &[Transcript],
    one: &Transcript,
) -> io::Result<bool>
where
    Connection<S>: InFiles<S>,
{
    for place in &one.after {
        if let Some(first) = all.get(*place) {
            if !plays(reporter, player, first.steps.as_slice())? {
                return Ok(false);
            }
        }
    }
    plays(reporter, player, one.steps.as_slice())
}

/// Plays a transcript on a new farm.
fn plays_anew<S: Alter + Drop>(
    reporter: &Reporter<'_>,
    all: &[Transcript],
    one: &Transcript,
) -> io::Result<bool>
where
    Connection<S>: InFiles<S>,
{
    let mut player: Player<S> = Player::new(reporter.rt.alloc());
    plays_whole(reporter, &mut player, all, one)
}

/// Plays all transcripts; whether all passed.
fn play<S: Alter + Drop>(rt: &HostRuntime, all: &[Transcript], shows: bool) -> io::Result<bool>
where
    Connection<S>: InFiles<S>,
{
    let mut passed = true;
    for one in all {
        let name = one.name.as_str();
        let reporter = Reporter { rt, name, shows };
        if plays_anew::<S>(&reporter, all, one)? {
            println!(rt; "{name}: ok")?;
        } else {
            passed = false;
        }
    }
    Ok(passed)
}

/// Plays them in files in memory. This is the one place that names the store.
fn play_in_memory(rt: &HostRuntime, all: &[Transcript], shows: bool) -> io::Result<bool> {
    play::<DiskStore>(rt, all, shows)
}

/// Reads the transcripts of a file's text.
fn read_lines(rt: &HostRuntime, reading: &mut Reading, file: &str, text: &str) -> io::Result<()> {
    for (number, line) in (1..).zip(text.lines()) {
        if let Err(error) = reading.line(number, line) {
            println!(rt; "{file}, line {number}: {error}")?;
            return Err(error);
        }
    }
    Ok(())
}

/// Reads a file's transcripts.
fn read(rt: &HostRuntime, reading: &mut Reading, file: &str) -> io::Result<()> {
    let text = fs::read_to_string(rt, file)?;
    read_lines(rt, reading, file, text.as_str())
}

/// Reads the files that the words name; whether each step is shown.
fn read_all(rt: &HostRuntime, reading: &mut Reading, words: &[String]) -> io::Result<bool> {
    let mut shows = false;
    for word in words.iter().skip(1) {
        match word.as_str() {
            "show" => shows = true,
            file => read(rt, reading, file)?,
        }
    }
    Ok(shows)
}

/// Plays the transcripts of the files that the words name.
fn run(rt: &HostRuntime, words: &[String]) -> io::Result<bool> {
    let mut reading = Reading::new(rt.alloc());
    let shows = read_all(rt, &mut reading, words)?;
    play_in_memory(rt, reading.done.as_slice(), shows)
}

fn main(rt: HostRuntime) -> io::Result<ExitCode> {
    let words: Vec<String> = env::args(&rt)?.collect(rt.alloc())?;
    if run(&rt, words.as_slice())? {
        Ok(ExitCode::SUCCESS)
    } else {
        Ok(ExitCode::FAILURE)
    }
}
