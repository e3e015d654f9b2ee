//! The first wanted cell among bytes that come in pieces.
use crate::compare::same;
use crate::tests::stored_cells::{FIRST, SECOND, joined};
use raptorq::systematic_constants::SystematicTable;
use rq_base::base::{EncodingPacket, ObjectTransmissionInformation, PayloadId};
use rq_bytes::error::Error;
use rq_cells::{Cell, CellSearch, Head, Key, Search, Wanted};
use std::alloc::Global;

// The first cell stands in the symbol of this one, from byte 56 of 264 on.
fn long_cell(alloc: Global) -> Result<Vec<u8>, Error> {
    let mut symbol = Vec::from_slice(alloc, &FIRST)?;
    symbol.extend_from_slice(&[0; 112])?;
    let cell = Cell {
        head: Head {
            stream: [1; 8],
            number: 0,
            name: [1; 16],
            configuration: ObjectTransmissionInformation::new(200, 200, 1, 1, 1)?,
        },
        packet: EncodingPacket::new(PayloadId::new(0, 0)?, symbol),
    };
    cell.serialize(alloc, &Key::none())
}

// The bytes from one place to another.
fn part(bytes: &[u8], from: usize, to: usize) -> &[u8] {
    bytes.get(from..to).unwrap_or(&[])
}

// Feeds bytes in pieces that end at these places. Answers how many were fed when a cell was found, at which
// of them it begins, how its stream begins, and how many damaged cells were told before it.
fn find(
    alloc: Global,
    bytes: &[u8],
    ends: &[usize],
) -> Result<Option<(usize, usize, u8, usize)>, Error> {
    let (table, key) = (SystematicTable::built_in(alloc)?, Key::none());
    let wanted = Wanted {
        key: &key,
        table: &table,
        name: &[],
        passed: &[],
    };
    let mut search = CellSearch::new(alloc, &wanted);
    let (mut fed, mut gone, mut damaged) = (0, 0usize, 0usize);
    for end in ends {
        let piece = part(bytes, fed, *end);
        fed = *end;
        match search.feed(alloc, piece)? {
            Search::Found { at, head, before } => {
                let place = gone.wrapping_add(at);
                let damaged = damaged.wrapping_add(before.damaged);
                return Ok(Some((fed, place, head.stream[0], damaged)));
            }
            Search::NotYet { from, before, .. } => {
                gone = gone.wrapping_add(from);
                damaged = damaged.wrapping_add(before.damaged);
            }
        }
    }
    Ok(None)
}

#[test]
fn cells_that_become_whole_are_found(rt: HostRuntime) -> Result<(), Error> {
    let alloc = rt.alloc();
    let cell = long_cell(alloc)?;
    let long = cell.as_slice();
    let (front, behind) = (part(long, 0, 200), part(long, 201, 264));
    let damaged = joined(alloc, &[front, &[1], behind, &SECOND])?;
    let forged = joined(alloc, &[b"RQC", part(long, 0, 52), &SECOND])?;
    let damaged = damaged.as_slice();
    let rows: [(&[u8], &[usize], Option<(usize, usize, u8, usize)>); 8] = [
        (long, &[264], Some((264, 0, 1, 0))),
        (long, &[52, 144, 264], Some((144, 56, 137, 0))),
        (long, &[143, 264], Some((264, 0, 1, 0))),
        (damaged, &[143, 263, 264], Some((263, 56, 137, 0))),
        (damaged, &[143, 264], Some((264, 56, 137, 1))),
        (
            part(damaged, 144, 352),
            &[207, 208],
            Some((208, 120, 137, 0)),
        ),
        (
            forged.as_slice(),
            &[1, 55, 142, 143],
            Some((143, 55, 137, 0)),
        ),
        (forged.as_slice(), &[142], None),
    ];
    for (number, (bytes, ends, wanted)) in rows.iter().enumerate() {
        let found = find(alloc, bytes, ends)?;
        same!(rt; found, *wanted, number);
    }
    Ok(())
}
