//! What a receiver makes of cells among other bytes.
use crate::tests::stored_cells::{
    FIRST, FIRST_MISNAMED, OBJECT, OF_NO_BLOCK, SECOND, SECOND_MISNAMED, joined,
};
use raptorq::error::Error;
use raptorq::systematic_constants::SystematicTable;
use raptorq::{EncodingPacket, PayloadId};
use rq_cast::{Ending, Input, Seen, Silent, run_receive};
use rq_cells::{Cell, Key, Wanted};
use rq_streams::{Counted, Stop};
use std::alloc::Global;
use std::io;
use std::io::{ErrorKind, Read};

// A reader that gives at most so many bytes a call, and fails behind the last.
#[derive(Drop)]
struct Open<'a> {
    rest: &'a [u8],
    most: usize,
}

impl<'a> Read for Open<'a> {
    fn read(&mut self, buf: &mut [u8]) -> io::Result<usize> {
        if self.rest.is_empty() {
            return Err(io::Error::from(ErrorKind::Other));
        }
        let count = self.most.min(buf.len());
        self.rest.read(&mut buf[..count])
    }
}

/// How a run ends, what it has seen, and what it writes.
pub type Ended = (Result<Ending, Stop>, Seen, Vec<u8>);

/// The end of a run that received it.
pub const WRITTEN: Ending = Ending::Written {
    stream: [137, 92, 45, 10, 94, 179, 13, 50],
};

/// Receives over a table, by a window of so many parts, what a reader brings of streams that begin so.
pub fn received<R: Read + Drop>(
    alloc: Global,
    table: &SystematicTable,
    name: &[u8],
    window: u32,
    reader: R,
) -> Ended {
    let mut input = Input::new(Counted::new(reader));
    let mut out: Vec<u8> = Vec::new(alloc);
    let mut writer = Counted::new(&mut out);
    let key = Key::none();
    let wanted = Wanted {
        key: &key,
        table,
        name,
        passed: &[],
    };
    let mut seen = Seen::default();
    let ended = run_receive(
        alloc,
        &wanted,
        window.max(1),
        None,
        &mut input,
        &mut writer,
        &mut seen,
        &mut Silent,
    );
    drop(writer);
    (ended, seen, out)
}

#[test]
fn cells_among_other_bytes_are_received(rt: HostRuntime) {
    let alloc = rt.alloc();
    let table = SystematicTable::built_in(alloc).expect(&rt, "a table");
    let mut damaged = FIRST;
    damaged[60] ^= 1;
    let parts = [
        &FIRST_MISNAMED[..87],
        b"RQC",
        &FIRST,
        &OF_NO_BLOCK,
        &damaged,
        &FIRST_MISNAMED,
        &SECOND,
    ];
    let bytes = joined(alloc, &parts).expect(&rt, "bytes");
    let seen = Seen {
        cells: 3,
        damaged: 1,
        others: 2,
        restarted: 0,
        ..Seen::default()
    };
    for most in [1, 7, 88, 65536] {
        let reader = Open {
            rest: bytes.as_slice(),
            most,
        };
        let (ended, told, out) = received(alloc, &table, &[137, 92], 2, reader);
        assert_eq!(rt; (ended, told), (Ok(WRITTEN), seen));
        assert_eq!(rt; out.as_slice(), OBJECT.as_slice());
    }
}

#[test]
fn other_runs_write_nothing(rt: HostRuntime) {
    let alloc = rt.alloc();
    let table = SystematicTable::built_in(alloc).expect(&rt, "a table");
    let misnamed = joined(alloc, &[&FIRST_MISNAMED, &SECOND_MISNAMED]).expect(&rt, "bytes");
    let mut damaged = FIRST;
    damaged[60] ^= 1;
    let lacking = |missing| Ending::Incomplete { parts: 0, missing };
    let (nothing, one, both) = (lacking(None), lacking(Some(1)), lacking(Some(2)));
    let cases: [(&[u8], &[u8], Ending, [u64; 4]); 5] = [
        (b"", b"", nothing, [0, 0, 0, 0]),
        (b"", &FIRST, one, [1, 0, 0, 0]),
        (b"", &damaged, nothing, [0, 1, 0, 0]),
        (&[1], &FIRST, nothing, [0, 0, 1, 0]),
        (b"", misnamed.as_slice(), both, [2, 0, 0, 1]),
    ];
    for (name, bytes, ending, [cells, damaged, others, restarted]) in cases {
        let (ended, told, out) = received(alloc, &table, name, 2, bytes);
        let seen = Seen {
            cells,
            damaged,
            others,
            restarted,
            ..Seen::default()
        };
        assert_eq!(rt; (ended, told), (Ok(ending), seen));
        assert!(rt; out.is_empty());
    }
}

// The first cell as somebody forges it: under another name, or with another symbol.
fn forged(alloc: Global, name: u8, symbol: u8) -> Result<Vec<u8>, Error> {
    let mut cell = Cell::read(alloc, &Key::none(), &FIRST)?.ok_or(Error::PacketTooShort)?;
    cell.head.name[0] ^= name;
    let mut payload = [0; 24];
    payload.copy_from_slice(&FIRST[56..80]);
    payload[0] ^= symbol;
    cell.packet = EncodingPacket::new(PayloadId::new(0, 0)?, Vec::from_slice(alloc, &payload)?);
    cell.serialize(alloc, &Key::none())
}

#[test]
fn forged_cells_delay_a_run(rt: HostRuntime) {
    let alloc = rt.alloc();
    let table = SystematicTable::built_in(alloc).expect(&rt, "a table");
    let seen = Seen {
        cells: 4,
        damaged: 0,
        others: 0,
        restarted: 1,
        ..Seen::default()
    };
    for (name, symbol) in [(1, 0), (0, 1)] {
        let first = forged(alloc, name, symbol).expect(&rt, "a cell");
        let parts: [&[u8]; 4] = [first.as_slice(), &SECOND, &FIRST, &SECOND];
        let bytes = joined(alloc, &parts).expect(&rt, "bytes");
        let (ended, told, out) = received(alloc, &table, b"", 2, bytes.as_slice());
        assert_eq!(rt; (ended, told), (Ok(WRITTEN), seen));
        assert_eq!(rt; out.as_slice(), OBJECT.as_slice());
    }
}

#[test]
fn runs_that_are_stopped_say_what_they_saw(rt: HostRuntime) {
    let alloc = rt.alloc();
    let table = SystematicTable::built_in(alloc).expect(&rt, "a table");
    let mut damaged = FIRST;
    damaged[60] ^= 1;
    let bytes = joined(alloc, &[&FIRST_MISNAMED, &damaged, &FIRST]).expect(&rt, "bytes");
    let seen = Seen {
        cells: 1,
        damaged: 1,
        others: 1,
        restarted: 0,
        ..Seen::default()
    };
    for most in [1, 9, 65536] {
        let reader = Open {
            rest: bytes.as_slice(),
            most,
        };
        let (ended, told, out) = received(alloc, &table, &[137], 2, reader);
        assert_eq!(rt; (ended, told), (Err(Stop::Fault), seen));
        assert!(rt; out.is_empty());
    }
}
