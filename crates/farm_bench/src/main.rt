//! What the desk's decisions cost where no request shows it: the least list, passes, the queue, and
//! taking the rows of a farm. Without a word the program does each once on a small scale and prints
//! what came of it; with a word (`time`) it does each on the scale of a full farm, seven times, and
//! prints the times too. With `answers` or `pass`, a shape and a number of claims it makes one pass.
#![tactic(auto)]

mod boards;
mod lists;
mod measures;
mod one_pass;
mod passes;
mod rows;
mod watch;

use one_pass::Words;
use std::env;
use watch::Watch;

/// Does what the words say.
fn run(rt: &HostRuntime, words: &[String]) -> anyhow::Result<()> {
    if let Some(wanted) = Words::of(words) {
        return one_pass::run(rt, &wanted);
    }
    let timed = words.len() > 1;
    let watch = Watch { rt, timed };
    lists::run(&watch)?;
    passes::run(&watch)
}

fn main(rt: HostRuntime) -> anyhow::Result<()> {
    let words: Vec<String> = env::args(&rt)?.collect(rt.alloc())?;
    run(&rt, words.as_slice())
}
