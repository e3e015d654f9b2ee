//! The program `rq`: an object as a stream of RaptorQ packets, and back. It is called as `rq send
//! SIZE REPAIR`, with the object on standard input, or `rq receive`, with the stream there; the
//! other one comes on standard output.
#![tactic(auto)]

use rq_streams::{Counted, Outcome, Stop, report, run_words};
use std::alloc::AllocError;
use std::env;
use std::io::ErrorKind;
use std::process::ExitCode;

fn main(rt: HostRuntime) -> ExitCode {
    let ended = match words(&rt) {
        Ok(words) => run(&rt, words.as_slice()),
        Err(refused) => Some(Err(Stop::from(refused))),
    };
    ExitCode::from(report(ended.as_ref(), &mut rt.stderr()))
}

// The words after the program's name: none, and so no job, where one of them isn't text.
fn words(rt: &HostRuntime) -> Result<Vec<String>, AllocError> {
    match env::args(rt) {
        Ok(words) => words.skip(1).collect(rt.alloc()),
        Err(error) if error.kind() == ErrorKind::OutOfMemory => Err(AllocError),
        Err(_) => Ok(Vec::new(rt.alloc())),
    }
}

// Does what the words ask for, from standard input to standard output.
fn run(rt: &HostRuntime, words: &[String]) -> Option<Result<(Outcome, u64), Stop>> {
    let mut reader = Counted::new(rt.stdin());
    let mut writer = Counted::new(rt.stdout());
    run_words(rt.alloc(), words, &mut reader, &mut writer)
}
