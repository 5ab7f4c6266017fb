//! One pass over single jobs, which is held against the passes in C over the same boards and claims
//! (bench/claims.h has the same words).
use crate::measures::{farm_in, pass_at};
use crate::rows::{NOW, Shape};
use anyhow::bail;
use farm_core::{Farm, StepFault};
use farm_types::{Answer, JobRow};
use std::alloc::Global;

/// What is wanted of one pass.
#[derive(Clone, Copy)]
pub struct Words<'a> {
    /// `answers`, or `pass`.
    deed: &'a str,
    /// `fit`, `nofit` or `busy`.
    shape: &'a str,
    /// How many single jobs wait.
    claims: &'a str,
    /// How many passes are made: 0, so that what stands before a pass can be measured alone, or 1.
    passes: Option<&'a str>,
}

/// The word at a place.
fn word(words: &[String], place: usize) -> Option<&str> {
    match words.get(place) {
        Some(word) => Some(word.as_str()),
        None => None,
    }
}

impl<'a> Words<'a> {
    /// What the program's words want of one pass, if they are enough for one.
    pub fn of(words: &'a [String]) -> Option<Words<'a>> {
        let deed = word(words, 1)?;
        let shape = word(words, 2)?;
        let claims = word(words, 3)?;
        let passes = word(words, 4);
        Some(Words {
            deed,
            shape,
            claims,
            passes,
        })
    }
}

/// Single jobs in a farm of a shape.
fn shape_of(name: &str, claims: u64) -> anyhow::Result<Shape> {
    let fit = Shape::waiting(claims, 1, 0);
    if name == "fit" {
        Ok(fit)
    } else if name == "nofit" {
        Ok(fit.unfit())
    } else if name == "busy" {
        Ok(fit.busy())
    } else {
        bail!("no such shape")
    }
}

/// The number of claims in a word.
fn number_of(word: &str) -> anyhow::Result<u64> {
    match word.parse::<u64>() {
        Ok(number) => Ok(number),
        Err(_) => bail!("no number of claims"),
    }
}

/// The farm that the words want.
fn farm_at(alloc: Global, words: &Words<'_>) -> anyhow::Result<Farm> {
    let claims = number_of(words.claims)?;
    let shape = shape_of(words.shape, claims)?;
    farm_in(alloc, &shape)
}

/// The jobs that changed in a call that was done.
fn jobs_in(answer: Result<Answer, StepFault>) -> anyhow::Result<Vec<JobRow>> {
    match answer {
        Ok(Answer::Did(_, changes)) => Ok(changes.jobs),
        _ => bail!("refused"),
    }
}

/// The jobs that changed in a pass.
fn jobs_of_pass(alloc: Global, farm: &mut Farm) -> anyhow::Result<Vec<JobRow>> {
    let call = pass_at(alloc, NOW)?;
    jobs_in(farm.step(&call))
}

/// Prints the number of a job that has a board, and the board's name.
fn show_job(rt: &HostRuntime, job: &JobRow) -> anyhow::Result<()> {
    if let Some(board) = &job.board {
        println!(rt; "{} {}", job.number, board.as_str())?;
    }
    Ok(())
}

/// Shows each job that has a board.
fn show(rt: &HostRuntime, jobs: &[JobRow]) -> anyhow::Result<()> {
    for job in jobs {
        show_job(rt, job)?;
    }
    Ok(())
}

/// Passes, and shows what came of it where that is asked for.
fn pass(rt: &HostRuntime, words: &Words<'_>, farm: &mut Farm) -> anyhow::Result<()> {
    let jobs = jobs_of_pass(rt.alloc(), farm)?;
    if words.deed == "answers" {
        show(rt, jobs.as_slice())?;
    }
    Ok(())
}

/// Passes, unless no pass is wanted.
fn pass_or_not(rt: &HostRuntime, words: &Words<'_>, farm: &mut Farm) -> anyhow::Result<()> {
    match words.passes {
        Some("0") => Ok(()),
        _ => pass(rt, words, farm),
    }
}

/// Does what the words say.
pub fn run(rt: &HostRuntime, words: &Words<'_>) -> anyhow::Result<()> {
    let mut farm = farm_at(rt.alloc(), words)?;
    pass_or_not(rt, words, &mut farm)
}
