//! Cells as they are written, read and found.
use crate::tests::stored_cells::{FIRST, FIRST_KEYED, KEY, SECOND};
use raptorq::systematic_constants::SystematicTable;
use rq_base::base::{EncodingPacket, ObjectTransmissionInformation, PayloadId};
use rq_bytes::error::Error;
use rq_cells::{
    Cell, CellScanner, DIGEST_LENGTH, Head, Heads, Key, LAST_PART, Search, Wanted, digest_of,
    first_wanted, part_name,
};
use std::alloc::Global;

const SYMBOLS: [[u8; 24]; 2] = [
    [
        7, 8, 9, 207, 131, 225, 53, 126, 239, 184, 189, 241, 84, 40, 80, 214, 109, 128, 7, 214, 32,
        228, 5, 11,
    ],
    [
        87, 21, 220, 131, 244, 169, 33, 211, 108, 233, 206, 0, 0, 0, 0, 0, 0, 0, 0, 0, 0, 0, 0, 0,
    ],
];

fn head() -> Result<Head, Error> {
    let configuration = ObjectTransmissionInformation::new(35, 24, 1, 1, 1)?;
    let digests: [[u8; DIGEST_LENGTH]; 2] = [digest_of(&SYMBOLS[0]), digest_of(&SYMBOLS[1])];
    let name = part_name(LAST_PART, &configuration, &digests);
    let mut stream = [0; 8];
    stream.copy_from_slice(&name[..8]);
    Ok(Head {
        stream,
        number: LAST_PART,
        name,
        configuration,
    })
}

fn cell(alloc: Global, id: u32) -> Result<Cell, Error> {
    let symbol = Vec::from_slice(alloc, &SYMBOLS[id as usize % 2])?;
    Ok(Cell {
        head: head()?,
        packet: EncodingPacket::new(PayloadId::new(0, id)?, symbol),
    })
}

fn key(alloc: Global) -> Result<Key, Error> {
    Ok(Key::new(Vec::from_slice(alloc, &KEY)?))
}

#[test]
fn cells_are_written_and_read(rt: HostRuntime) {
    let alloc = rt.alloc();
    let (none, key) = (Key::none(), key(alloc).expect(&rt, "a key"));
    let first = cell(alloc, 0).expect(&rt, "a cell");
    for (key, bytes, other) in [(&none, FIRST, &key), (&key, FIRST_KEYED, &none)] {
        let written = first.serialize(alloc, key).expect(&rt, "its bytes");
        assert_eq!(rt; written.as_slice(), bytes.as_slice());
        let read = Cell::read(alloc, key, &bytes).expect(&rt, "memory");
        assert_eq!(rt; read, Some(cell(alloc, 0).expect(&rt, "a cell")));
        assert_eq!(rt; Cell::read(alloc, other, &bytes), Ok(None));
    }
}

// A damaged cell behind other bytes, the head of another stream, the second cell, and the beginning of the
// first.
fn stream(alloc: Global) -> Result<Vec<u8>, Error> {
    let mut bytes = Vec::from_slice(alloc, &[82, 81])?;
    bytes.extend_from_slice(&FIRST)?;
    bytes[60] ^= 1;
    let mut other = head()?;
    other.stream = [0; 8];
    bytes.extend_from_slice(other.serialize(alloc, &Key::none())?.as_slice())?;
    bytes.extend_from_slice(&SECOND)?;
    bytes.extend_from_slice(&FIRST[..60])?;
    Ok(bytes)
}

#[test]
fn cells_are_found_among_other_bytes(rt: HostRuntime) {
    let alloc = rt.alloc();
    let bytes = stream(alloc).expect(&rt, "bytes");
    let head = head().expect(&rt, "a head");
    let mut scanner = CellScanner::new(Key::none(), &head);
    assert!(rt; scanner.is_of(&head));
    let scan = scanner.scan(alloc, bytes.as_slice()).expect(&rt, "a scan");
    let second = cell(alloc, 1).expect(&rt, "a cell");
    assert_eq!(rt; scan.cells.len(), 1);
    assert_eq!(rt; scan.cells[0].cell, second);
    assert_eq!(rt; scan.cells[0].digest, digest_of(&SYMBOLS[1]));
    assert_eq!(rt; (scan.places, scan.damaged, scan.others), (230, 1, 1));
    assert_eq!(rt; scanner.count_others(bytes.as_slice()), 1);
}

#[test]
fn first_wanted_cell_is_found(rt: HostRuntime) {
    let alloc = rt.alloc();
    let table = SystematicTable::built_in(alloc).expect(&rt, "a table");
    let bytes = stream(alloc).expect(&rt, "bytes");
    let head = head().expect(&rt, "a head");
    let (none, key) = (Key::none(), key(alloc).expect(&rt, "a key"));
    let found = |damaged, others| Search::Found {
        at: 142,
        head,
        before: Heads { damaged, others },
    };
    let not_yet = |damaged, others| {
        let heads = Heads { damaged, others };
        Search::NotYet {
            from: 239,
            before: heads,
            all: heads,
        }
    };
    let rows: [(&Key, &[u8], u8, Search); 6] = [
        (&none, &[], 1, found(2, 0)),
        (&none, &[], 0, found(1, 1)),
        (&none, &[137, 92], 1, found(1, 1)),
        (&none, &[1], 1, not_yet(0, 4)),
        (&none, &[], 137, not_yet(1, 3)),
        (&key, &[], 1, not_yet(0, 0)),
    ];
    for (key, name, passed, wanted) in rows {
        let passed = [Vec::from_slice(alloc, &[passed]).expect(&rt, "a beginning")];
        let wish = Wanted {
            key,
            table: &table,
            name,
            passed: &passed,
        };
        let search = first_wanted(alloc, &wish, bytes.as_slice()).expect(&rt, "a search");
        assert_eq!(rt; search, wanted);
    }
}
