//! Runs where memory is refused: first all of it, then less and less of it.
use super::streams::{OBJECT, STREAM};
use crate::compare::{holds, same};
use raptorq::error::Error;
use raptorq::systematic_constants::SystematicTable;
use rq_memory_kit::{Ending, Endings, add_all, is_swept};
use rq_streams::{Counted, Outcome, Stop, run_receive, run_send};
use std::alloc::Global;
use std::io;
use std::io::Write;
use std::test::Fail;

// A writer that takes no memory.
#[derive(Drop)]
struct Room {
    bytes: [u8; 32],
    len: usize,
}

impl Write for Room {
    fn write(&mut self, buf: &[u8]) -> io::Result<usize> {
        if self.len >= 32 || buf.is_empty() {
            return Ok(0);
        }
        self.bytes[self.len] = buf[0];
        self.len += 1;
        Ok(1)
    }

    fn flush(&mut self) -> io::Result<()> {
        Ok(())
    }
}

// Of a run that is refused memory nothing is written.
fn ending(ended: Result<Outcome, Stop>, room: &Room, wanted: &[u8]) -> Ending {
    match ended {
        Ok(Outcome::Written) if &room.bytes[..room.len.min(32)] == wanted => Ending::Answered,
        Err(Stop::Refused(Error::OutOfMemory)) if room.len == 0 => Ending::Refused,
        _ => Ending::Other,
    }
}

fn sends(alloc: Global, table: &SystematicTable) -> Ending {
    let mut room = Room {
        bytes: [0; 32],
        len: 0,
    };
    let mut reader = Counted::new(OBJECT.as_slice());
    let ended = run_send(
        alloc,
        table,
        &mut reader,
        &mut Counted::new(&mut room),
        2,
        0,
    );
    ending(ended, &room, &STREAM)
}

fn receives(alloc: Global, table: &SystematicTable) -> Ending {
    let mut room = Room {
        bytes: [0; 32],
        len: 0,
    };
    let mut reader = Counted::new(STREAM.as_slice());
    let ended = run_receive(alloc, table, &mut reader, &mut Counted::new(&mut room));
    ending(ended.map(|(outcome, _)| outcome), &room, &OBJECT)
}

#[test]
fn runs_are_refused_memory_in_turn(rt: HostRuntime) -> Result<(), Fail> {
    let alloc = rt.alloc();
    let table = SystematicTable::built_in(alloc)?;
    let mut endings = [Endings::new(); 2];
    let is_swept = is_swept(alloc, &mut endings, |endings| {
        add_all(endings, &[sends(alloc, &table), receives(alloc, &table)]);
    })?;
    holds!(rt; is_swept, endings.as_slice());
    same!(rt; sends(alloc, &table), Ending::Answered);
    same!(rt; receives(alloc, &table), Ending::Answered);
    Ok(())
}
