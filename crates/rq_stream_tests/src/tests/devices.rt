//! Readers and writers that move few bytes a call, and of which one call fails.
use super::streams::{OBJECT, STREAM, run};
use crate::compare::{holds, same};
use raptorq::error::Error;
use rq_streams::{Outcome, Stop, report};
use std::alloc::Global;
use std::io;
use std::io::{ErrorKind, Read, Write};
use std::process::Abort;
use std::test::Fail;

// A reader that gives at most `most` bytes a call, and fails after `calls` calls.
#[derive(Drop)]
struct Source<'a> {
    rest: &'a [u8],
    most: usize,
    calls: usize,
}

impl<'a> Read for Source<'a> {
    fn read(&mut self, buf: &mut [u8]) -> io::Result<usize> {
        if self.calls == 0 {
            return Err(io::Error::from(ErrorKind::Other));
        }
        self.calls -= 1;
        let count = self.most.min(buf.len());
        self.rest.read(&mut buf[..count])
    }
}

// A writer that takes at most `most` bytes a call, and fails after `calls` calls: with an error,
// or, where it is full, by taking none. A flush is a call too.
#[derive(Drop)]
struct Sink {
    bytes: Vec<u8>,
    most: usize,
    calls: usize,
    is_full: bool,
}

impl Write for Sink {
    fn write(&mut self, buf: &[u8]) -> io::Result<usize> {
        if self.calls == 0 && self.is_full {
            return Ok(0);
        }
        if self.calls == 0 {
            return Err(io::Error::from(ErrorKind::Interrupted));
        }
        self.calls -= 1;
        let count = self.most.min(buf.len());
        self.bytes.write(&buf[..count])
    }

    fn flush(&mut self) -> io::Result<()> {
        if self.calls == 0 {
            return Err(io::Error::from(ErrorKind::Other));
        }
        self.calls -= 1;
        Ok(())
    }
}

// What goes in and what comes out.
const RUNS: [(&str, &[u8], &[u8]); 2] = [
    ("send 2 0", &OBJECT, &STREAM),
    ("receive", &STREAM, &OBJECT),
];

// A run ends with a fault, which is said, or writes its output without a failed call.
fn ends(
    rt: &impl Abort,
    alloc: Global,
    ended: Option<Result<(Outcome, u64), Stop>>,
    failed: u64,
    is_fault: bool,
) -> Result<(), Error> {
    let mut said: Vec<u8> = Vec::new(alloc);
    let status = report(ended.as_ref(), &mut said);
    if is_fault {
        holds!(rt; ended == Some(Err(Stop::Fault)));
        holds!(rt; failed == 1);
        holds!(rt; status == 1);
        same!(rt; said.as_slice(), b"fault\n".as_slice());
    } else {
        holds!(rt; ended == Some(Ok((Outcome::Written, 0))));
        holds!(rt; failed == 0);
        holds!(rt; status == 0);
        holds!(rt; said.is_empty());
    }
    Ok(())
}

// One call more than the input takes finds its end.
#[test]
fn each_read_fails_in_turn(rt: HostRuntime) -> Result<(), Fail> {
    let alloc = rt.alloc();
    for (line, input, output) in RUNS {
        for most in [1usize, 5, 4096] {
            let needed = input.len().div_ceil(most).saturating_add(1);
            for calls in 0..needed.saturating_add(1) {
                let rest = input;
                let mut out: Vec<u8> = Vec::new(alloc);
                let (ended, failed) = run(alloc, line, Source { rest, most, calls }, &mut out)?;
                ends(&rt, alloc, ended, failed, calls < needed)?;
                let written: &[u8] = if calls < needed { &[] } else { output };
                same!(rt; out.as_slice(), written, (line, most, calls));
            }
        }
    }
    Ok(())
}

// A run over a sink that fails after its `calls`. The last call is the flush.
fn fails_at(
    rt: &impl Abort,
    alloc: Global,
    run_of: (&str, &[u8], &[u8]),
    sink: Sink,
) -> Result<(), Error> {
    let (line, input, output) = run_of;
    let mut sink = sink;
    let (most, calls) = (sink.most.max(1), sink.calls);
    let (ended, failed) = run(alloc, line, input, &mut sink)?;
    let needed = output.len().div_ceil(most).saturating_add(1);
    ends(rt, alloc, ended, failed, calls < needed)?;
    let written = most.saturating_mul(calls).min(output.len());
    same!(rt; sink.bytes.as_slice(), &output[..written], (line, most, calls));
    Ok(())
}

#[test]
fn each_write_and_the_flush_fail_in_turn(rt: HostRuntime) -> Result<(), Fail> {
    let alloc = rt.alloc();
    for run_of in RUNS {
        for most in [1usize, 5, 4096] {
            for calls in 0..run_of.2.len().saturating_add(2) {
                for is_full in [false, true] {
                    let bytes = Vec::new(alloc);
                    let sink = Sink {
                        bytes,
                        most,
                        calls,
                        is_full,
                    };
                    fails_at(&rt, alloc, run_of, sink)?;
                }
            }
        }
    }
    Ok(())
}
