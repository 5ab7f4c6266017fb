//! The program `farm`: the desk of a board farm.
#![tactic(auto)]

use farm_desk::{DeskFault, WRONG_WORDS, print_fault, program};
use std::io::{ErrorKind, Write};
use std::process::ExitCode;
use std::{env, io};

/// What is printed where a word is no text: the words of `clap` for it, which is given texts alone.
const NO_TEXT: &str = "\
error: invalid UTF-8 was detected in one or more arguments

Usage: farm <COMMAND>

For more information, try '--help'.
";

fn main(rt: HostRuntime) -> ExitCode {
    let alloc = rt.alloc();
    let (mut input, mut output, mut errors) = (rt.stdin(), rt.stdout(), rt.stderr());
    let words: Vec<String> = match env::args(&rt) {
        Ok(given) => match given.collect(alloc) {
            Ok(words) => words,
            Err(_) => return ExitCode::from(print_fault(&mut errors, DeskFault::NoMemory)),
        },
        Err(error) => return ExitCode::from(refuse_words(&mut errors, &error)),
    };
    let words = words.as_slice();
    let status = program(&rt, alloc, words, &mut input, &mut output, &mut errors);
    ExitCode::from(status)
}

/// Prints to `errors` why there are no words, and returns the exit status: one of them is no UTF-8, or
/// there is no memory for them.
fn refuse_words<E: Write>(errors: &mut E, error: &io::Error) -> u8 {
    if error.kind() == ErrorKind::InvalidData {
        let _ = errors.write_all(NO_TEXT.as_bytes());
        return WRONG_WORDS;
    }
    print_fault(errors, DeskFault::NoMemory)
}
