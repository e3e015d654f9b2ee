//! The program `rqcast`: a file as cells that are read alone, and back from any bytes among which they
//! stand. `rqcast --help` says how it is called.
#![tactic(auto)]

mod apart;
mod aside;
mod beside;
mod failure;
mod keeping;
mod report;
mod shards;
mod shelf;
mod source;
mod system;
mod target;
mod words;

use crate::apart::clash_of;
use crate::failure::Failure;
use crate::report::tell_shards;
use crate::system::System;
use crate::words::{Words, read_words};
use rq_command::{End, Job, Telling, job, run, write_end, write_findings, write_standings};
use rq_watch::Watch;
use std::cell::{Cell, OnceCell};
use std::io;
use std::io::IsTerminal;
use std::process::ExitCode;

// The status where the words are wrong, and after a fault of the system.
const WRONG: u8 = 64;

const FAULT: u8 = 1;

fn main(rt: HostRuntime) -> ExitCode {
    let words = match read_words(&rt) {
        Words::Texts(words) => words,
        Words::NoText(number) => {
            let _ = eprintln!(rt; "error: the word number {number} isn't UTF-8");
            return ExitCode::from(WRONG);
        }
        Words::NoMemory => return ExitCode::from(without_memory(&rt)),
    };
    let (beside, guard, shard) = (OnceCell::new(), OnceCell::new(), OnceCell::new());
    let (failure, kept) = (Cell::new(None), Cell::new(None));
    let system = System {
        rt: &rt,
        failure: &failure,
        beside: &beside,
        guard: &guard,
        kept: &kept,
        file: None,
        mends_by: None,
        shard: &shard,
        joined: None,
        finds_cells: false,
        key: None,
    };
    ExitCode::from(match admitted(system, words.as_slice()) {
        Ok(system) => done(system, words.as_slice()),
        Err(status) => status,
    })
}

// Says that there is too little memory. Answers the status.
fn without_memory(rt: &HostRuntime) -> u8 {
    let _ = eprintln!(rt; "rqcast: there is too little memory");
    FAULT
}

// The devices of a job: of which file a guard is, or where cells are looked for.
fn knowing<'c, 'w>(system: System<'c, 'w>, job: &Job<'w>) -> System<'c, 'w> {
    let mut system = system;
    match job {
        Job::Protect(job) => system.file = Some(job.file),
        Job::Repair(job) => {
            system.file = Some(job.file);
            system.mends_by = system.guard_path(job.file, job.guard).ok();
        }
        Job::Receive(job) => system = system.finding(job.key),
        Job::Follow(job) => system = system.finding(job.key),
        Job::Info(job) => system = system.finding(job.key),
        Job::Join(job) => {
            system = system.finding(job.key);
            system.joined = job.files.first().copied();
            system.file = match system.joined {
                Some(folder) => system.first_shard(folder),
                None => None,
            };
        }
        _ => {}
    }
    system
}

// Looks, before anything is opened, whether what is read is apart from what is written. Answers the devices that know
// of the job, and else the status.
fn admitted<'c, 'w>(system: System<'c, 'w>, words: &'w [String]) -> Result<System<'c, 'w>, u8> {
    let rt = system.rt;
    let Ok(job) = job(rt.alloc(), words) else {
        return Ok(system);
    };
    match clash_of(system, &job) {
        Ok(None) => {}
        Ok(Some(clash)) => {
            let _ = clash.write(&mut rt.stderr());
            return Err(WRONG);
        }
        Err(_) => return Err(without_memory(rt)),
    }
    Ok(knowing(system, &job))
}

// Does what the words ask for, and says how that ended. Answers the status.
fn done<'w>(system: System<'_, 'w>, words: &'w [String]) -> u8 {
    let (rt, failure) = (system.rt, system.failure);
    let mut system = system;
    let mut watch = Watch::new(rt, rt.stderr(), rt.stderr().is_terminal());
    let ended = run(rt.alloc(), words, &mut system, &mut watch);
    watch.end(&ended);
    say_shards(system, &ended, watch.telling());
    if let Some(failure) = failure.get() {
        let _ = failure.write(rt.alloc(), &mut rt.stderr());
    }
    match say(system, &ended, watch.telling()) {
        Ok(()) => ended.status(),
        Err(error) => {
            let failure = Failure {
                tried: "writing to",
                place: "standard output",
                error,
            };
            let _ = failure.write(rt.alloc(), &mut rt.stderr());
            FAULT
        }
    }
}

// Says what is lost of shards, where some were joined. That it can't be said is no fault of the run.
fn say_shards(system: System<'_, '_>, ended: &End, telling: Telling) {
    let End::Received(Ok(ending), _) = ended else {
        return;
    };
    if telling != Telling::Quiet
        && let Some(folder) = system.joined
    {
        let _ = tell_shards(system, folder, *ending, telling == Telling::Json);
    }
}

// Says how the program ended. What is asked for goes to standard output, and an error comes of that alone.
fn say(system: System<'_, '_>, ended: &End, telling: Telling) -> io::Result<()> {
    let rt = system.rt;
    let _ = write_end(ended, system.joined.is_some(), &mut rt.stderr());
    match ended {
        End::Unasked(error) if error.use_stderr() => {
            let _ = error.print(rt);
            Ok(())
        }
        End::Unasked(error) => error.print(rt),
        End::Surveyed(standings) => {
            let is_json = telling == Telling::Json;
            write_standings(standings.as_slice(), is_json, &mut rt.stdout())
        }
        End::Checked(Some(found)) => {
            let is_json = telling == Telling::Json;
            write_findings(found, is_json, &mut rt.stdout())
        }
        _ => Ok(()),
    }
}
