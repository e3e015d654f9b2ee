//! The program from its words to its end, over memory.
use crate::tests::stored_cells::{
    FIRST, FIRST_KEYED, FIRST_MISNAMED, FOURTH, KEY, OBJECT, SECOND, SECOND_KEYED, SECOND_MISNAMED,
    THIRD, joined,
};
use crate::tests::stored_parts::OF_THREE;
use raptorq::Decoder;
use raptorq::error::Error;
use rq_cast::{Ending, Pace, Progress, Seen, Sender};
use rq_cells::STREAM_LENGTH;
use rq_command::{Devices, End, Place, Teller, Telling, run};
use rq_streams::{Counted, Stop};
use std::alloc::{AllocError, Global};
use std::io;
use std::io::{Read, Write};
use std::test::Fail;

#[derive(Drop)]
struct Bytes<'a> {
    rest: &'a [u8],
}

impl Read for Bytes<'_> {
    fn read(&mut self, buf: &mut [u8]) -> io::Result<usize> {
        self.rest.read(buf)
    }
}

#[derive(Drop)]
struct Written {
    bytes: Vec<u8>,
}

impl Write for Written {
    fn write(&mut self, buf: &[u8]) -> io::Result<usize> {
        self.bytes.write(buf)
    }

    fn flush(&mut self) -> io::Result<()> {
        Ok(())
    }
}

// KEY has a key, EMPTY has nothing, and all other files, and standard input, have the same bytes, LOG when it is read
// first. A file that is written holds some before.
#[derive(Drop)]
struct Memory<'a> {
    alloc: Global,
    input: &'a [u8],
    is_terminal: bool,
    placed: Vec<u8>,
    // How many files were read.
    read: usize,
}

impl<'w, 'a> Devices<'w> for Memory<'a> {
    ghost use Rattle.std.specs.Prelude.{None, Some};

    type Reader = Bytes<'a>;

    type Writer = Written;

    ghost stands = { λ _ _. None };

    ghost placed = { λ _ _. None };

    ghost blank = { λ _. None };

    ghost terminal = { λ m. Some m.is_terminal };

    fn shows_output(&self) -> bool {
        self.is_terminal
    }

    fn open(&mut self, files: Vec<&'w str>) -> Result<Bytes<'a>, Stop> {
        self.read = self.read.saturating_add(files.len());
        let rest: &'a [u8] = match files.first() {
            Some(file) if *file == "KEY" => &KEY,
            Some(file) if *file == "EMPTY" => &[],
            Some(file) if *file == "LOG" && self.read > 1 => &KEY,
            _ => self.input,
        };
        Ok(Bytes { rest })
    }

    fn open_keeping(&mut self, _state: &'w str, files: Vec<&'w str>) -> Result<Bytes<'a>, Stop> {
        self.open(files)
    }

    fn forget(&mut self, _state: &'w str) -> Result<(), Stop> {
        Ok(())
    }

    fn open_if_there(&mut self, file: &'w str) -> Result<(Bytes<'a>, bool), Stop> {
        let files = Vec::from_slice(self.alloc, &[file]).map_err(|_| Stop::Fault)?;
        Ok((self.open(files)?, true))
    }

    fn open_guard(&mut self, file: &'w str, said: Option<&'w str>) -> Result<Bytes<'a>, Stop> {
        let files = Vec::from_slice(self.alloc, &[said.unwrap_or(file)])?;
        self.open(files)
    }

    // No row makes a guard.
    fn guard_of(&mut self, _file: &'w str) -> Result<&'w str, Stop> {
        Err(Stop::Fault)
    }

    fn is_newer(&self, _file: &'w str, _said: Option<&'w str>) -> bool {
        false
    }

    fn length(&self, reader: &Bytes<'a>) -> Option<u64> {
        Some(reader.rest.len() as u64)
    }

    fn count<X>(&mut self, _calls: &Counted<X>) {}

    fn create(&mut self, _place: Place<'w>) -> Result<Written, Stop> {
        Ok(Written {
            bytes: Vec::new(self.alloc),
        })
    }

    fn finish(&mut self, place: Place<'w>, writer: Written, is_whole: bool) -> Result<(), Stop> {
        let Written { bytes } = writer;
        if is_whole || matches!(place, Place::Output) {
            self.placed = bytes;
        }
        Ok(())
    }

    fn create_in(&mut self, _folder: &'w str) -> Result<Written, Stop> {
        self.create(Place::Output)
    }

    // All files of a folder are put one behind another, each behind its name.
    fn finish_in(
        &mut self,
        _folder: &'w str,
        writer: Written,
        stream: Option<[u8; STREAM_LENGTH]>,
    ) -> Result<(), Stop> {
        let Some(stream) = stream else {
            return Ok(());
        };
        for bytes in [stream.as_slice(), writer.bytes.as_slice()] {
            if self.placed.extend_from_slice(bytes).is_err() {
                return Err(Stop::Fault);
            }
        }
        Ok(())
    }
}

#[derive(Drop)]
struct Nobody;

impl Pace for Nobody {
    fn begin_part(&mut self, _sender: &Sender<'_>) {}

    fn wait(&mut self, _bytes: usize) {}

    fn tell_call(&mut self, _cell: &[u8], _is_lost: bool) {}
}

impl Progress for Nobody {
    fn tell(&mut self, _bytes: usize, _seen: &Seen, _decoder: Option<&Decoder>) {}

    fn is_silent(&mut self, seconds: u64, seen: &Seen) -> bool {
        seconds == 5 && seen.others > 0
    }
}

impl Teller for Nobody {
    fn begin(&mut self, _telling: Telling, _rate: Option<u64>, _length: Option<u64>) {}

    fn tell_stream(&mut self, _stream: &[u8; STREAM_LENGTH], _ending: Ending, _seen: &Seen) {}
}

// What a run does: its status, what it placed, and how many files it read.
type Done = (u8, Vec<u8>, usize);

// The program with the words of a line, over bytes.
fn done(alloc: Global, line: &str, input: &[u8], is_terminal: bool) -> Result<Done, AllocError> {
    let words: Vec<&str> = line.split_whitespace().collect(alloc)?;
    let mut memory = Memory {
        alloc,
        input,
        is_terminal,
        placed: Vec::from_slice(alloc, b"old")?,
        read: 0,
    };
    let ended: End = run(alloc, words.as_slice(), &mut memory, &mut Nobody);
    let Memory { placed, read, .. } = memory;
    Ok((ended.status(), placed, read))
}

// Bytes in two parts, one behind the other.
type Two = (&'static [u8], &'static [u8]);

// Words, input, status, what is placed, and how many files are read.
type Row = (&'static str, Two, u8, Two, usize);

const NOTHING: Two = (b"", b"");

const CELLS: Two = (&FIRST, &SECOND);

const FILE: Two = (&OBJECT, b"");

const PARTS: Two = (&OF_THREE, b"");

const KEYED: Two = (&FIRST_KEYED, &SECOND_KEYED);

const MISNAMED: Two = (&FIRST_MISNAMED, &SECOND_MISNAMED);

const OLD: Two = (b"old", b"");

// What the program does by a row, and what is wanted.
fn both(alloc: Global, row: &Row) -> Result<(Done, Done), Error> {
    let (line, input, status, placed, read) = *row;
    let input = joined(alloc, &[input.0, input.1])?;
    let placed = joined(alloc, &[placed.0, placed.1])?;
    let found = done(alloc, line, input.as_slice(), false)?;
    Ok((found, (status, placed, read)))
}

#[test]
fn words_are_done(rt: HostRuntime) {
    let rows: [Row; 21] = [
        ("send --cell 88 --repair 0 FILE", FILE, 0, CELLS, 1),
        ("send --cell=88 -r0 --share 0/2", FILE, 0, (&FIRST, b""), 0),
        ("send -c88 -r 0 --from 1 -q", FILE, 0, (&SECOND, b""), 0),
        ("send --repair 0 --from 2", FILE, 0, NOTHING, 0),
        ("send -c88 -r0 --part 3 FILE", FILE, 0, PARTS, 1),
        (
            "send -c88 -r0 --share 0/2 --rounds 2 FILE",
            FILE,
            0,
            (&FIRST, &THIRD),
            2,
        ),
        (
            "send -c88 -r0 --share 1/16777215 --rounds 2 FILE",
            FILE,
            0,
            (&SECOND, &SECOND),
            2,
        ),
        (
            "send -c88 -r0 --share 0/2 --rounds 2 LOG",
            FILE,
            1,
            (&FIRST, b""),
            2,
        ),
        ("receive", (&THIRD, &FOURTH), 0, FILE, 0),
        ("receive --window 1", PARTS, 0, FILE, 0),
        ("receive", CELLS, 0, FILE, 0),
        ("receive -o FILE --name 895c A B", CELLS, 0, FILE, 2),
        ("receive -o FILE --name 895d", CELLS, 2, OLD, 0),
        ("receive -o FILE --not 895d --not 88", CELLS, 0, FILE, 0),
        ("receive -o FILE --name 89 --not 895c", CELLS, 2, OLD, 0),
        ("receive -o FILE", (&FIRST, &SECOND[..87]), 2, OLD, 0),
        ("receive -o FILE", MISNAMED, 2, OLD, 0),
        ("receive", MISNAMED, 2, NOTHING, 0),
        ("info A", CELLS, 0, OLD, 1),
        ("check A", FILE, 2, OLD, 1),
        ("repair A GUARD", FILE, 2, OLD, 1),
    ];
    for row in rows {
        let (found, wanted) = both(rt.alloc(), &row).expect(&rt, "memory");
        assert_eq!(rt; found, wanted, "{}", row.0);
    }
}

// Whether streams that come in one read are followed to this status, and these are put in the folder.
fn follows(
    alloc: Global,
    line: &str,
    input: &[&[u8]],
    status: u8,
    placed: &[&[u8]],
) -> Result<bool, Error> {
    let input = joined(alloc, input)?;
    let placed = joined(alloc, placed)?;
    let found = done(alloc, line, input.as_slice(), false)?;
    Ok(found == (status, placed, 0))
}

#[test]
fn streams_are_followed(rt: HostRuntime) -> Result<(), Fail> {
    let alloc = rt.alloc();
    let line = "receive --follow -o FOLDER --window 1";
    assert!(rt; follows(alloc, line, &[], 2, &[b"old"])?);
    let taken = follows(
        alloc,
        line,
        &[&FIRST, &SECOND, &FIRST, &OF_THREE],
        0,
        &[b"old", &FIRST[4..12], &OBJECT, &OF_THREE[4..12], &OBJECT],
    )?;
    assert!(rt; taken);
    let lacking = &[b"old", &OF_THREE[4..12], &OBJECT];
    assert!(rt; follows(alloc, line, &[&OF_THREE, &FIRST], 2, lacking)?);
    assert!(rt; follows(alloc, line, &[&FIRST, &OF_THREE], 2, &[b"old"])?);
    Ok(())
}

// The first stream lacks a cell, and is said to be silent by a timeout of 5 seconds.
#[test]
fn silent_streams_are_given_up(rt: HostRuntime) -> Result<(), Fail> {
    let alloc = rt.alloc();
    let patient = "receive --follow -o FOLDER --timeout 4";
    assert!(rt; follows(alloc, patient, &[&FIRST, &OF_THREE], 2, &[b"old"])?);
    let line = "receive --follow -o FOLDER --timeout 5";
    let left = &[b"old", &OF_THREE[4..12], &OBJECT];
    assert!(rt; follows(alloc, line, &[&FIRST, &OF_THREE], 2, left)?);
    Ok(())
}

#[test]
fn keys_are_used(rt: HostRuntime) {
    let rows: [Row; 11] = [
        ("send -c88 -r0 -k KEY FILE", FILE, 0, KEYED, 2),
        ("receive --key KEY -o FILE", KEYED, 0, FILE, 1),
        ("receive -o FILE", KEYED, 2, OLD, 0),
        ("receive -kKEY -o FILE", CELLS, 2, OLD, 1),
        ("receive -k OTHER -o FILE", KEYED, 2, OLD, 1),
        ("info -k KEY A", KEYED, 0, OLD, 2),
        ("info -k KEY A", CELLS, 2, OLD, 2),
        ("info A", KEYED, 2, OLD, 1),
        ("send -k EMPTY FILE", FILE, 64, OLD, 1),
        ("receive -k EMPTY A B", KEYED, 64, OLD, 1),
        ("info -k EMPTY A", KEYED, 64, OLD, 1),
    ];
    for row in rows {
        let (found, wanted) = both(rt.alloc(), &row).expect(&rt, "memory");
        assert_eq!(rt; found, wanted, "{}", row.0);
    }
}

#[test]
fn other_words_do_nothing(rt: HostRuntime) {
    let alloc = rt.alloc();
    for (line, status) in [
        ("--help", 0),
        ("send --version", 0),
        ("", 64),
        ("send -x", 64),
    ] {
        let found = done(alloc, line, &OBJECT, false).expect(&rt, "memory");
        assert_eq!(rt;
            (found.0, found.1.as_slice(), found.2),
            (status, b"old".as_slice(), 0),
            "{line}"
        );
    }
    let found = done(alloc, "send FILE", &OBJECT, true).expect(&rt, "memory");
    assert_eq!(rt;
        (found.0, found.1.as_slice(), found.2),
        (64, b"old".as_slice(), 0)
    );
}
