//! The program: one reply to standard output for each line of standard input, or what a command says of the whole input.
#![tactic(auto)]

mod choice;
mod streams;

use choice::pick;
use forms::RunEnd;
use std::alloc::Global;
use std::env::{Env, args};
use std::io;
use std::process::ExitCode;
use streams::{Input, Output};

/// Words that name nothing, in place of words that can't be read.
const UNREADABLE: &str = "?";

fn main(rt: HostRuntime) -> ExitCode {
    let alloc = rt.alloc();
    let mut input = Input::new(rt.stdin());
    let mut output = Output::new(rt.stdout());
    let status = match joined_words(&rt, alloc) {
        Ok(words) => pick(alloc, words.as_str(), &mut input, &mut output),
        Err(error) if error.kind() == io::ErrorKind::OutOfMemory => RunEnd::NoMemory.status(),
        Err(_) => pick(alloc, UNREADABLE, &mut input, &mut output),
    };
    ExitCode::from(status)
}

/// The words of the command line behind the program's name, joined by one space each.
fn joined_words<R: Env + AllocGlobal>(rt: &R, alloc: Global) -> io::Result<String> {
    let mut joined = String::new(alloc);
    for (index, word) in args(rt)?.enumerate() {
        if index > 1 {
            joined.push(' ')?;
        }
        if index > 0 {
            joined.push_str(word.as_str())?;
        }
    }
    Ok(joined)
}
