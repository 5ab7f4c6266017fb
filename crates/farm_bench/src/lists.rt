//! What the least list costs.
use crate::boards;
use crate::watch::Watch;
use farm_pick::{Free, Picked, least};
use farm_types::{BoardRow, Want, Wants, WordFault, is_sorted};
use std::alloc::Global;

/// Boards that fit: none, too few for four wants, just enough and behind all others, all.
const FITTING: [u64; 5] = [0, 1, 3, 4, boards::MOST];

/// How many looks are timed together.
const LOOKS: u64 = 1000;

/// Four wants of a tag.
fn wants(alloc: Global) -> anyhow::Result<Wants> {
    let mut items = Vec::new(alloc);
    for _ in 0..4 {
        let tags = boards::asked_tags(alloc, true)?;
        items.push(Want { kind: None, tags })?;
    }
    Ok(Wants::of(items).map_err(WordFault::Refused)?)
}

/// Looks a thousand times, and gives what was found last.
fn look(boards: &[BoardRow], wants: &Wants) -> Option<Picked> {
    let mut found = None;
    if is_sorted(boards) {
        for _ in 0..LOOKS {
            found = least(boards, &[], wants, Free::ServingIdle);
        }
    }
    found
}

fn measure(watch: &Watch<'_>, fitting: u64) -> anyhow::Result<()> {
    let alloc = watch.alloc();
    let boards = boards::boards(alloc, fitting, 0)?;
    let wants = wants(alloc)?;
    let mut found = None;
    let mut times = Vec::new(alloc);
    for _ in 0..watch.rounds() {
        let start = watch.start()?;
        found = look(boards.as_slice(), &wants);
        times.push(watch.stop(start)? / LOOKS)?;
    }
    let what = match found {
        None => format!(in alloc; "{fitting} fit: none")?,
        Some(picked) => format!(in alloc; "{fitting} fit: {:?}", picked.places())?,
    };
    watch.show(what.as_str(), times)
}

pub fn run(watch: &Watch<'_>) -> anyhow::Result<()> {
    watch.begin("least list, four wants, 256 boards")?;
    for fitting in FITTING {
        measure(watch, fitting)?;
    }
    Ok(())
}
