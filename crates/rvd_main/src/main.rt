//! The program: takes the command words, runs the command on real files and standard output, prints
//! one line about a fault to standard error, and ends with the status.
#![tactic(auto)]

mod parts;
mod report;

ghost use Rattle.std.specs.Prelude.{◌≡◌, ◌≤◌, IfOk, vec_len};

use crate::report::report;
use rvd_io::{FileCabinet, OpenGate, WriteSink};
use rvd_top::{Ending, run};
use std::alloc::{AllocError, Global};
use std::process::ExitCode;
use std::rt::Env;
use std::{env, io};

// The words after the program's name.
fn words_of<R: Env + AllocGlobal>(rt: &R) -> io::Result<Vec<String>> {
    let mut words = Vec::new(rt.alloc());
    for word in env::args(rt)?.skip(1) {
        words.push(word)?;
    }
    Ok(words)
}

fn open_gates(alloc: Global) -> Result<Vec<OpenGate>, AllocError>
    ensures { IfOk result (λ gates. vec_len gates ≡ 8) }
{
    Vec::from_slice(alloc, &[OpenGate; 8])
}

// How the program ends whose words can't be read: words that are no text are no command.
fn ending_without_words(error: &io::Error) -> Ending {
    match error.kind() {
        io::ErrorKind::OutOfMemory => Ending::Memory,
        _ => Ending::Usage,
    }
}

fn main(rt: HostRuntime) -> ExitCode {
    let words = match words_of(&rt) {
        Ok(words) => words,
        Err(error) => {
            let ending = ending_without_words(&error);
            let _ = report(&rt, &[], &ending);
            return ExitCode::from(ending.status());
        }
    };
    let ending = match open_gates(rt.alloc()) {
        Ok(gates) => {
            let mut files = FileCabinet::new(&rt);
            let mut out = WriteSink::new(io::writer(&rt));
            run(&rt, rt.alloc(), &words, &mut files, &mut out, gates)
        }
        Err(_) => Ending::Memory,
    };
    let _ = report(&rt, &words, &ending);
    ExitCode::from(ending.status())
}
