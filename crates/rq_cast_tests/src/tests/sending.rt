//! What is sent of a stream.
ghost use Rattle.std.specs.Prelude.{◌<◌};

use crate::tests::stored_cells::{FIRST, OBJECT, SECOND, joined};
use crate::tests::stored_parts::{OF_FIVE, OF_THREE};
use raptorq::error::Error;
use rq_cast::{
    Halt, Ids, Known, Order, Output, Pace, Repair, Sender, Sent, check_length, send_stream,
};
use rq_cells::Key;
use rq_streams::{Counted, Stop};
use std::alloc::Global;
use std::io;
use std::io::{ErrorKind, Write};

// A writer that takes at most so many bytes a call, and of whose calls the one of a number fails, if
// it isn't 0. A flush is a call too.
#[derive(Drop)]
struct Link {
    bytes: Vec<u8>,
    most: usize,
    failing: usize,
    kind: ErrorKind,
}

impl Link {
    fn call(&mut self) -> io::Result<()> {
        let failing = self.failing;
        self.failing = failing.saturating_sub(1);
        if failing == 1 {
            return Err(io::Error::from(self.kind));
        }
        Ok(())
    }
}

impl Write for Link {
    fn write(&mut self, buf: &[u8]) -> io::Result<usize> {
        self.call()?;
        let count = self.most.min(buf.len());
        self.bytes.write(&buf[..count])
    }

    fn flush(&mut self) -> io::Result<()> {
        self.call()
    }
}

// What it was told of parts, and for how many bytes it was to wait.
#[derive(Drop)]
struct Waits {
    parts: u32,
    cells: u64,
    bytes: usize,
}

impl Pace for Waits {
    fn begin_part(&mut self, sender: &Sender<'_>) {
        self.parts = sender.index().saturating_add(1);
        self.cells = self.cells.saturating_add(sender.cells());
    }

    fn wait(&mut self, bytes: usize) {
        self.bytes = self.bytes.saturating_add(bytes);
    }

    fn tell_call(&mut self, _cell: &[u8], _is_lost: bool) {}
}

/// An order for source symbols of 24 bytes whose ids these are, in parts of so many bytes.
pub(super) fn order(part: u64, first: u32, step: u32) -> Order
    ensures part { 0 < result.part }
    ensures step { 0 < result.ids.step }
{
    Order {
        part: part.max(1),
        symbol_size: 24,
        repair: Repair::Packets(0),
        ids: Ids {
            first,
            step: step.max(1),
            round: 0,
        },
    }
}

/// How a stream of some bytes ends that is sent to a writer.
pub(super) fn sent_to<W: Write, P: Pace>(
    alloc: Global,
    order: &Order,
    bytes: &[u8],
    link: &mut W,
    pace: &mut P,
) -> Result<Sent, Halt>
    requires part { 0 < order.now.part }
    requires step { 0 < order.now.ids.step }
{
    let mut reader = Counted::new(bytes);
    let mut output = Output::new(Counted::new(link));
    let known = Known::new(alloc, false);
    let (sent, _known) = send_stream(
        alloc,
        order,
        &Key::none(),
        known,
        &mut reader,
        &mut output,
        pace,
    )?;
    Ok(sent)
}

// How a run ends, what it writes, and what it was told.
fn sent(
    alloc: Global,
    order: &Order,
    bytes: &[u8],
    link: Link,
) -> (Result<Sent, Halt>, Vec<u8>, Waits)
    requires part { 0 < order.now.part }
    requires step { 0 < order.now.ids.step }
{
    let mut link = link;
    let mut waits = Waits {
        parts: 0,
        cells: 0,
        bytes: 0,
    };
    let ended = sent_to(alloc, order, bytes, &mut link, &mut waits);
    (ended, link.bytes, waits)
}

fn whole_link(alloc: Global) -> Link {
    Link {
        bytes: Vec::new(alloc),
        most: 88,
        failing: 0,
        kind: ErrorKind::Other,
    }
}

#[test]
fn lost_cells_are_counted_and_others_written(rt: HostRuntime) {
    let alloc = rt.alloc();
    let both = joined(alloc, &[&FIRST, &SECOND]).expect(&rt, "bytes");
    let all = both.as_slice();
    let (lost, other) = (ErrorKind::ConnectionRefused, ErrorKind::BrokenPipe);
    // What a call takes at most, which one fails and how; how many are lost, or that it fails, what it wrote,
    // and for how many bytes it waited, those of the cell that failed among them.
    let cases: [(usize, usize, ErrorKind, Option<u64>, &[u8], usize); 8] = [
        (88, 0, other, Some(0), all, 176),
        (7, 0, other, Some(0), all, 176),
        (88, 1, lost, Some(1), &SECOND, 176),
        (88, 2, lost, Some(1), &FIRST, 176),
        (7, 2, lost, None, &FIRST[..7], 88),
        (88, 2, other, None, &FIRST, 176),
        (88, 3, lost, None, all, 176),
        (0, 0, other, None, &[], 88),
    ];
    for (most, failing, kind, lost, wanted, waits) in cases {
        let link = Link {
            bytes: Vec::new(alloc),
            most,
            failing,
            kind,
        };
        let (ended, out, waited) = sent(alloc, &order(1000, 0, 1), &OBJECT, link);
        let ending = match lost {
            Some(lost) => Ok(Sent {
                parts: 1,
                cells: 2,
                lost,
            }),
            None => Err(Halt::By(Stop::Fault)),
        };
        assert_eq!(rt; ended, ending);
        assert_eq!(rt; out.as_slice(), wanted);
        assert_eq!(rt; waited.bytes, waits);
    }
}

#[test]
fn ids_of_a_share_are_sent(rt: HostRuntime) {
    let alloc = rt.alloc();
    let cases: [(u32, u32, &[u8]); 4] = [
        (0, 2, &FIRST),
        (1, 2, &SECOND),
        (1, 16777215, &SECOND),
        (2, 1, &[]),
    ];
    for (first, step, wanted) in cases {
        let order = order(1000, first, step);
        let (ended, out, waited) = sent(alloc, &order, &OBJECT, whole_link(alloc));
        let cells = wanted.len() as u64 / 88;
        let ending = Sent {
            parts: 1,
            cells,
            lost: 0,
        };
        assert_eq!(rt; ended, Ok(ending));
        assert_eq!(rt; out.as_slice(), wanted);
        assert_eq!(rt; (waited.bytes, waited.cells), (wanted.len(), cells));
    }
}

#[test]
fn parts_are_sent_one_behind_another(rt: HostRuntime) {
    let alloc = rt.alloc();
    let cases: [(&[u8], &[u8]); 2] = [(&[7, 8, 9, 10, 11], &OF_FIVE), (&OBJECT, &OF_THREE)];
    for (bytes, wanted) in cases {
        let (ended, out, told) = sent(alloc, &order(3, 0, 1), bytes, whole_link(alloc));
        let ending = Sent {
            parts: 2,
            cells: 3,
            lost: 0,
        };
        assert_eq!(rt; ended, Ok(ending));
        assert_eq!(rt; out.as_slice(), wanted);
        assert_eq!(rt; (told.parts, told.cells), (2, 3));
    }
}

#[test]
fn lengths_are_refused_before_they_are_read(rt: HostRuntime) {
    let alloc = rt.alloc();
    let large = 942574504275;
    let cases: [(u64, u64, Result<(), Error>); 6] = [
        (1000, 0, Ok(())),
        (1000, 1 << 39, Ok(())),
        (1000, u64::MAX, Err(Error::TransferTooLong)),
        (1 << 30, (1 << 60) - 1, Err(Error::TooManyBlocks)),
        (large + 1, large - 32, Err(Error::TooManyBlocks)),
        (large + 1, large - 31, Err(Error::TransferTooLong)),
    ];
    for (part, length, wanted) in cases {
        assert_eq!(rt; check_length(alloc, &order(part, 0, 1), length), wanted);
    }
}
