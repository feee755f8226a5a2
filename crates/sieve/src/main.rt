//! The program: the words of its command line, standard input and standard output, given to the top call.
#![tactic(auto)]

use std::alloc::AllocGlobal;
use std::env::{self, Env};
use std::io::{self, ErrorKind, Input, Print};
use std::process::ExitCode;
use std::sync::Wait;
use std::thread::Threads;
use sv_io::{StdSink, StdSource};
use sv_tool::{Words, top};
use sv_value::NoMemory;

/// The status where there is no memory for the words.
const NO_MEMORY: u8 = 5;

/// The words behind the program's name. If one of them is no text, they are a word that is no command.
fn words_of<R: Env + AllocGlobal>(rt: &R) -> Result<Words, NoMemory> {
    let mut words = Words::new(rt.alloc());
    match env::args(rt) {
        Ok(args) => {
            for word in args.skip(1) {
                words.push(&word)?;
            }
        }
        Err(error) if error.kind() == ErrorKind::OutOfMemory => return Err(NoMemory),
        Err(_) => words.push("")?,
    }
    Ok(words)
}

fn status_of<R: Env + Input + Print + AllocGlobal + Threads + Wait + Sync>(rt: &R) -> u8 {
    let Ok(words) = words_of(rt) else {
        return NO_MEMORY;
    };
    let mut input = StdSource::new(rt.reader());
    let mut out = StdSink::new(io::writer(rt));
    top(rt, rt.alloc(), &words, &mut input, &mut out)
}

fn main(rt: HostRuntime) -> ExitCode {
    ExitCode::from(status_of(&rt))
}
