//! Cells that are lost, damaged, mixed and cut, as reads bring them.
use crate::compare::same;
use crate::tests::receiving::{Ended, received};
use crate::tests::stored_runs::RUNS;
use raptorq::error::Error;
use raptorq::systematic_constants::SystematicTable;
use rq_cast::Seen;
use std::alloc::Global;
use std::io;
use std::io::{ErrorKind, Read};

/// How a run ends.
#[derive(Clone, Copy, Debug, PartialEq, Eq)]
pub enum Ending {
    /// With the stream that is received.
    Written,
    /// With so many parts, and so many packets missing of the next one.
    Incomplete { parts: u32, missing: Option<u64> },
}

/// A run, and what it makes of its bytes.
pub struct Run {
    /// What the stream begins with.
    pub name: &'static [u8],
    /// How many parts are kept at once.
    pub window: u32,
    /// What each read brings. The last one is needed, or the input ends behind it.
    pub pieces: &'static [&'static [u8]],
    /// How it ends.
    pub ending: Ending,
    /// What was seen.
    pub seen: Seen,
    /// What is written.
    pub written: &'static [u8],
}

// A reader that brings a piece a call. Behind the last one it is at its end, or stays open: then no
// further call may come.
#[derive(Drop)]
struct Pieces<'a> {
    pieces: &'a [&'a [u8]],
    next: usize,
    is_open: bool,
}

impl Read for Pieces<'_> {
    fn read(&mut self, buf: &mut [u8]) -> io::Result<usize> {
        let Some(piece) = self.pieces.get(self.next) else {
            return if self.is_open {
                Err(io::Error::from(ErrorKind::Other))
            } else {
                Ok(0)
            };
        };
        self.next += 1;
        let mut piece = *piece;
        piece.read(buf)
    }
}

// The same without the stream.
fn ending_of(ending: rq_cast::Ending) -> Ending {
    match ending {
        rq_cast::Ending::Written { .. } => Ending::Written,
        rq_cast::Ending::Incomplete { parts, missing }
        | rq_cast::Ending::GivenUp { parts, missing, .. } => Ending::Incomplete { parts, missing },
    }
}

// How a run ends, what it has seen, and what it writes.
fn ended(alloc: Global, table: &SystematicTable, run: &Run) -> Ended {
    let reader = Pieces {
        pieces: run.pieces,
        next: 0,
        is_open: !matches!(run.ending, Ending::Incomplete { .. }),
    };
    received(alloc, table, run.name, run.window, reader)
}

#[test]
fn runs_end_as_by_the_model(rt: HostRuntime) -> Result<(), Error> {
    let alloc = rt.alloc();
    let table = SystematicTable::built_in(alloc)?;
    for (number, run) in RUNS.iter().enumerate() {
        let written = Vec::from_slice(alloc, run.written)?;
        let (ended, seen, out) = ended(alloc, &table, run);
        let ending = ended.map(ending_of);
        same!(rt; (ending, seen, out), (Ok(run.ending), run.seen, written), number);
    }
    Ok(())
}
