//! Runs over memory, and what the program says.
use crate::compare::{holds, same};
use raptorq::error::Error;
use rq_streams::{Counted, Job, Outcome, Stop, job, report, run_words};
use std::alloc::Global;
use std::io;
use std::io::{ErrorKind, Read, Write};
use std::process::Abort;
use std::test::Fail;

pub(super) const OBJECT: [u8; 3] = [7, 8, 9];

// The stream of that object at two bytes a symbol.
pub(super) const STREAM: [u8; 24] = [
    0, 0, 0, 0, 3, 0, 0, 2, 1, 0, 1, 1, 0, 0, 0, 0, 7, 8, 0, 0, 0, 1, 9, 0,
];

// A writer that takes nothing, and whose flush fails.
#[derive(Drop)]
struct Full;

impl Write for Full {
    fn write(&mut self, _buf: &[u8]) -> io::Result<usize> {
        Ok(0)
    }

    fn flush(&mut self) -> io::Result<()> {
        Err(io::Error::from(ErrorKind::Other))
    }
}

// The words of a line.
fn words(alloc: Global, line: &str) -> Result<Vec<String>, Error> {
    let mut words = Vec::new(alloc);
    for word in line.split_whitespace() {
        words.push(String::from_str(alloc, word)?)?;
    }
    Ok(words)
}

// Runs the program of a line. Answers how it ended, and how many calls failed.
pub(super) fn run<R: Read, W: Write>(
    alloc: Global,
    line: &str,
    reader: R,
    writer: W,
) -> Result<(Option<Result<(Outcome, u64), Stop>>, u64), Error>
where
    R: Drop,
    W: Drop,
{
    let words = words(alloc, line)?;
    let mut reader = Counted::new(reader);
    let mut writer = Counted::new(writer);
    let ended = run_words(alloc, words.as_slice(), &mut reader, &mut writer);
    Ok((ended, reader.failed().saturating_add(writer.failed())))
}

// What a run reads, how it ends, with how many skipped frames, and what it writes.
type RunCase<'a> = (&'a [u8], Result<(Outcome, u64), Stop>, &'a [u8]);

// A run over memory ends and writes as a case says, and meets no failed call.
fn run_ends(
    rt: &impl Abort,
    alloc: Global,
    line: &str,
    (input, wanted, written): RunCase<'_>,
) -> Result<(), Error> {
    let mut out: Vec<u8> = Vec::new(alloc);
    let (ended, failed) = run(alloc, line, input, &mut out)?;
    holds!(rt; ended == Some(wanted), (line, input, ended));
    same!(rt; out.as_slice(), written);
    same!(rt; failed, 0);
    Ok(())
}

fn all_received(rt: &impl Abort, alloc: Global, cases: &[RunCase<'_>]) -> Result<(), Fail> {
    for case in cases {
        run_ends(rt, alloc, "receive", *case)?;
    }
    Ok(())
}

#[test]
fn sends(rt: HostRuntime) -> Result<(), Fail> {
    let cases: [(&str, &[u8], Result<(Outcome, u64), Stop>, &[u8]); 4] = [
        ("send 2 0", &OBJECT, Ok((Outcome::Written, 0)), &STREAM),
        (
            "send 2 0",
            &[],
            Err(Stop::Refused(Error::TransferLengthZero)),
            &[],
        ),
        (
            "send 0 1",
            &OBJECT,
            Err(Stop::Refused(Error::PacketSizeZero)),
            &[],
        ),
        (
            "send 2 16777215",
            &OBJECT,
            Err(Stop::Refused(Error::EsiTooLarge)),
            &[],
        ),
    ];
    for (line, input, wanted, written) in cases {
        run_ends(&rt, rt.alloc(), line, (input, wanted, written))?;
    }
    Ok(())
}

#[test]
fn receives(rt: HostRuntime) -> Result<(), Fail> {
    let shuffled: [u8; 30] = [
        0, 0, 0, 0, 3, 0, 0, 2, 1, 0, 1, 1, 0, 0, 0, 1, 9, 0, 0, 0, 0, 0, 7, 8, 0, 0, 0, 1, 9, 0,
    ];
    let repeated: [u8; 30] = [
        0, 0, 0, 0, 3, 0, 0, 2, 1, 0, 1, 1, 0, 0, 0, 0, 7, 8, 0, 0, 0, 1, 9, 0, 0, 0, 0, 1, 9, 0,
    ];
    let cases: [RunCase<'_>; 6] = [
        (&STREAM, Ok((Outcome::Written, 0)), &OBJECT),
        (&shuffled, Ok((Outcome::Written, 0)), &OBJECT),
        (&repeated, Ok((Outcome::Written, 0)), &OBJECT),
        (
            &STREAM[..11],
            Err(Stop::Refused(Error::HeaderTooShort)),
            &[],
        ),
        (&STREAM[..12], Ok((Outcome::Incomplete, 0)), &[]),
        (&STREAM[..18], Ok((Outcome::Incomplete, 0)), &[]),
    ];
    all_received(&rt, rt.alloc(), &cases)
}

// Frames of a block that the object doesn't have, and a last frame that isn't whole.
#[test]
fn skips(rt: HostRuntime) -> Result<(), Fail> {
    let damaged: [u8; 42] = [
        0, 0, 0, 0, 3, 0, 0, 2, 1, 0, 1, 1, 1, 0, 0, 0, 170, 187, 0, 0, 0, 0, 7, 8, 1, 0, 0, 0,
        170, 187, 0, 0, 0, 1, 9, 0, 1, 0, 0, 0, 170, 187,
    ];
    let longer: [u8; 25] = [
        0, 0, 0, 0, 3, 0, 0, 2, 1, 0, 1, 1, 0, 0, 0, 0, 7, 8, 0, 0, 0, 1, 9, 0, 0,
    ];
    let other_block: [u8; 18] = [0, 0, 0, 0, 3, 0, 0, 2, 1, 0, 1, 1, 1, 0, 0, 0, 7, 8];
    let cases: [RunCase<'_>; 6] = [
        (&damaged, Ok((Outcome::Written, 3)), &OBJECT),
        (&longer, Ok((Outcome::Written, 1)), &OBJECT),
        (&STREAM[..15], Ok((Outcome::Incomplete, 1)), &[]),
        (&STREAM[..17], Ok((Outcome::Incomplete, 1)), &[]),
        (&STREAM[..23], Ok((Outcome::Incomplete, 1)), &[]),
        (&other_block, Ok((Outcome::Incomplete, 1)), &[]),
    ];
    all_received(&rt, rt.alloc(), &cases)
}

// Objects of two blocks: one in packets, one of no bytes, the longest ones and a longer one.
#[test]
fn receives_two_blocks(rt: HostRuntime) -> Result<(), Fail> {
    let packets: [u8; 30] = [
        0, 0, 0, 0, 3, 0, 0, 2, 2, 0, 1, 1, 1, 0, 0, 0, 9, 0, 0, 0, 0, 0, 7, 8, 2, 0, 0, 0, 7, 8,
    ];
    let empty: [u8; 12] = [0, 0, 0, 0, 0, 0, 0, 2, 2, 0, 1, 1];
    let longest: [u8; 12] = [0, 0, 0, 3, 226, 0, 0, 1, 2, 0, 1, 1];
    let longer: [u8; 12] = [0, 0, 0, 3, 227, 0, 0, 1, 2, 0, 1, 1];
    let cases: [RunCase<'_>; 6] = [
        (&packets[..24], Ok((Outcome::Written, 0)), &OBJECT),
        (&packets[..18], Ok((Outcome::Incomplete, 0)), &[]),
        (&packets, Ok((Outcome::Written, 1)), &OBJECT),
        (&empty, Ok((Outcome::Written, 0)), &[]),
        (&longest, Ok((Outcome::Incomplete, 0)), &[]),
        (&longer, Err(Stop::Refused(Error::BlockOverTable)), &[]),
    ];
    all_received(&rt, rt.alloc(), &cases)
}

// Of one source symbol: repair symbol 133 is zero, whatever that is.
#[test]
fn contradicts(rt: HostRuntime) -> Result<(), Fail> {
    let fitting: [u8; 22] = [
        0, 0, 0, 0, 1, 0, 0, 1, 1, 0, 1, 1, 0, 0, 0, 133, 0, 0, 0, 0, 0, 7,
    ];
    let forged: [u8; 22] = [
        0, 0, 0, 0, 1, 0, 0, 1, 1, 0, 1, 1, 0, 0, 0, 133, 1, 0, 0, 0, 0, 7,
    ];
    let cases: [RunCase<'_>; 3] = [
        (&fitting, Ok((Outcome::Written, 0)), &[7]),
        (&forged, Err(Stop::Refused(Error::Contradiction)), &[]),
        (&forged[..17], Ok((Outcome::Incomplete, 0)), &[]),
    ];
    all_received(&rt, rt.alloc(), &cases)
}

#[test]
fn asks(rt: HostRuntime) -> Result<(), Fail> {
    let cases: [(&str, Option<Job>); 9] = [
        (
            "send 1400 7",
            Some(Job::Send {
                size: 1400,
                repair: 7,
            }),
        ),
        (
            "send 65535 4294967295",
            Some(Job::Send {
                size: 65535,
                repair: 4294967295,
            }),
        ),
        ("receive", Some(Job::Receive)),
        ("send 65536 0", None),
        ("send 2 4294967296", None),
        ("send 2", None),
        ("receive 2", None),
        ("give", None),
        ("", None),
    ];
    for (line, wanted) in cases {
        let words = words(rt.alloc(), line)?;
        holds!(rt; job(words.as_slice()) == wanted, line);
    }
    Ok(())
}

// What a run's end prints on standard error, and the status; a writer that is full changes neither.
fn is_reported(
    rt: &impl Abort,
    alloc: Global,
    ended: Option<Result<(Outcome, u64), Stop>>,
    line: &str,
    status: u8,
) -> Result<(), Fail> {
    let mut out: Vec<u8> = Vec::new(alloc);
    same!(rt; report(ended.as_ref(), &mut out), status);
    same!(rt; out.as_slice(), line.as_bytes());
    same!(rt; report(ended.as_ref(), &mut Full), status);
    Ok(())
}

#[test]
fn reports(rt: HostRuntime) -> Result<(), Fail> {
    let cases: [(Option<Result<(Outcome, u64), Stop>>, &str, u8); 6] = [
        (Some(Ok((Outcome::Written, 0))), "", 0),
        (Some(Ok((Outcome::Written, 3))), "skipped 3\n", 0),
        (Some(Err(Stop::Fault)), "fault\n", 1),
        (Some(Ok((Outcome::Incomplete, 0))), "incomplete\n", 2),
        (
            Some(Ok((Outcome::Incomplete, 1))),
            "skipped 1\nincomplete\n",
            2,
        ),
        (None, "usage: rq send SIZE REPAIR | rq receive\n", 4),
    ];
    for (ended, line, status) in cases {
        is_reported(&rt, rt.alloc(), ended, line, status)?;
    }
    Ok(())
}

#[test]
fn reports_refusals(rt: HostRuntime) -> Result<(), Fail> {
    for (refusal, line) in [
        (Error::PacketTooShort, "refused 12\n"),
        (Error::WrongPayloadSize, "refused 13\n"),
        (Error::OutOfMemory, "refused 21\n"),
        (Error::Contradiction, "refused 22\n"),
        (Error::HeaderTooShort, "refused 23\n"),
    ] {
        is_reported(&rt, rt.alloc(), Some(Err(Stop::Refused(refusal))), line, 3)?;
    }
    Ok(())
}
