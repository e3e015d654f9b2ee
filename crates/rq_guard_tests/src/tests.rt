//! A file is guarded, and found damaged and mended by its guard.
ghost use Rattle.std.specs.Prelude.{All, IfOk, IfSome};
ghost use Rattle.rq_guard.specs.Lists.{listed_of};
ghost use Rattle.rq_guard.specs.Damage.{IsList};

use crate::compare::same;
use raptorq::error::Error;
use raptorq::systematic_constants::SystematicTable;
use rq_cast::{Output, Pace, Repair, Sender};
use rq_cells::{Key, Wanted};
use rq_guard::{
    Decoding, DigestList, FileDamage, GuardOrder, Guarded, Mending, PartDamage, check_file,
    first_head, lists_in, protect, repair_part,
};
use rq_memory_kit::{Ending, Endings, add_all, is_swept};
use rq_rows::full_table;
use rq_streams::{Counted, Stop};
use sha2::{Digest, Sha512};
use std::alloc::{AllocError, Global};
use std::test::Fail;

// A file in a part of 24 bytes and one of 16, which are 3 and, with its seal, 6 symbols.
const FILE: [u8; 40] = *b"Some bytes that stay where they are. End";

// The SHA-512 of its guard with two repair packets a part, as Python's hashlib has it of the cells that
// `compare/cells.py` makes.
const GUARD_HASH: [u8; 64] = [
    71, 55, 61, 66, 96, 115, 62, 163, 229, 106, 13, 172, 39, 123, 72, 194, 184, 91, 191, 98, 10,
    215, 143, 134, 25, 188, 230, 198, 104, 177, 153, 147, 250, 105, 212, 68, 53, 119, 138, 195,
    105, 186, 213, 142, 178, 210, 98, 160, 166, 43, 55, 80, 5, 137, 110, 21, 226, 161, 127, 75,
    132, 65, 8, 203,
];

// How many bytes of the guard each part has.
const GUARD: usize = 4496;

// Where its own two cells begin among them, behind the source cell of its list.
const OWN: usize = 1088;

// Where the three repair cells of its list do.
const SPARE: usize = 1232;

#[derive(Drop)]
struct Quiet;

impl Pace for Quiet {
    fn begin_part(&mut self, _sender: &Sender<'_>) {}

    fn wait(&mut self, _bytes: usize) {}

    fn tell_call(&mut self, _cell: &[u8], _is_lost: bool) {}
}

// The guard of the file.
fn guarded(alloc: Global) -> Result<(Guarded, Vec<u8>), Stop> {
    let order = GuardOrder {
        part: 24,
        repair: Repair::Packets(2),
    };
    let mut reader = Counted::new(FILE.as_slice());
    let mut output = Output::new(Counted::new(Vec::new(alloc)));
    let made = protect(
        alloc,
        &order,
        &Key::none(),
        &mut reader,
        &mut output,
        &mut Quiet,
    )?;
    Ok((made, output.into_counted().into_inner()))
}

// The lists in a guard, of the stream whose cell comes first.
fn lists_of(alloc: Global, by: &Decoding<'_>, guard: &[u8]) -> Result<Option<Vec<DigestList>>, Stop>
    ensures { IfOk result (λ o. IfSome o (λ v. All (λ l. IsList (listed_of l)) v.items)) }
{
    let wanted = Wanted {
        key: by.key,
        table: by.table,
        name: &[],
        passed: &[],
    };
    let Some(head) = first_head(alloc, &wanted, &mut Counted::new(guard))? else {
        return Ok(None);
    };
    lists_in(alloc, by, &head.stream, &mut Counted::new(guard))
}

// The file as it was, if it is mended by what stands in its place and by its guard.
fn mended(
    alloc: Global,
    by: &Decoding<'_>,
    lists: &[DigestList],
    there: &[u8],
    guard: &[u8],
) -> Result<Option<Vec<u8>>, Stop>
    requires { All (λ l. IsList (listed_of l)) lists.now }
{
    let mut mending = Mending::new(alloc)?;
    let mut file = Counted::new(there);
    let mut writer = Counted::new(Vec::new(alloc));
    for _part in 0..lists.len() {
        if mending.mended_parts() as usize >= lists.len() {
            return Ok(None);
        }
        let mut guard = Counted::new(guard);
        if !repair_part(
            alloc,
            by,
            &mut mending,
            lists,
            &mut file,
            &mut guard,
            &mut writer,
        )? {
            return Ok(None);
        }
    }
    Ok(Some(writer.into_inner()))
}

// What is damaged of what stands in the file's place, and the file as it was, if its guard mends it.
type Found = (FileDamage, Option<Vec<u8>>);

// What is found by a guard, if all its lists are there.
fn found(
    alloc: Global,
    table: &SystematicTable,
    there: &[u8],
    guard: &[u8],
) -> Result<Option<Found>, Stop> {
    let key = Key::none();
    let by = Decoding { key: &key, table };
    let Some(lists) = lists_of(alloc, &by, guard)? else {
        return Ok(None);
    };
    let damage = check_file(alloc, lists.as_slice(), &mut Counted::new(there))?;
    let mended = mended(alloc, &by, lists.as_slice(), there, guard)?;
    Ok(Some((damage, mended)))
}

// The damage of parts of which these symbols are damaged, and so many bytes missing.
fn damage(alloc: Global, parts: &[(&[u32], u64)], longer: bool) -> Result<FileDamage, AllocError> {
    let mut damaged = Vec::with_capacity(alloc, parts.len())?;
    for (symbols, missing) in parts {
        damaged.push(PartDamage {
            symbols: Vec::from_slice(alloc, symbols)?,
            missing: *missing,
        })?;
    }
    Ok(FileDamage {
        parts: damaged,
        longer,
    })
}

// The first bytes of the file, of which one is another, and others behind them.
fn damaged(alloc: Global, first: &[u8], other: usize, more: &[u8]) -> Result<Vec<u8>, AllocError> {
    let mut bytes = Vec::from_slice(alloc, first)?;
    if other < bytes.len() {
        bytes[other] ^= 1;
    }
    bytes.extend_from_slice(more)?;
    Ok(bytes)
}

// The bytes of the guard that have such places among those of their part.
fn kept(alloc: Global, guard: &[u8], start: usize, end: usize) -> Result<Vec<u8>, AllocError> {
    let mut bytes = Vec::new(alloc);
    for (at, byte) in guard.iter().enumerate() {
        let place = at % GUARD;
        if start <= place && place < end {
            bytes.push(*byte)?;
        }
    }
    Ok(bytes)
}

// How it ends where a file is found damaged and is mended, or memory is refused.
fn ending(alloc: Global, table: &SystematicTable, guard: &[u8], wanted: &Found) -> Ending {
    match found(alloc, table, &FILE[..30], guard) {
        Ok(Some(found)) if found == *wanted => Ending::Answered,
        Err(Stop::Refused(Error::OutOfMemory)) => Ending::Refused,
        _ => Ending::Other,
    }
}

#[test]
fn guard_is_what_another_makes(rt: HostRuntime) {
    let (made, guard) = guarded(rt.alloc()).expect(&rt, "a guard");
    let counts = Guarded {
        parts: 2,
        cells: 12,
    };
    same!(rt; made, counts, "how much it has");
    same!(rt; Sha512::digest(guard.as_slice()), GUARD_HASH, "its bytes");
}

#[test]
fn damage_is_found_and_mended(rt: HostRuntime) {
    let alloc = rt.alloc();
    let table = full_table(alloc).expect(&rt, "a table");
    let (_made, guard) = guarded(alloc).expect(&rt, "a guard");
    // How many bytes are there, which one is another and what comes behind; what is damaged, whether the file is
    // longer, and whether it is mended.
    let cases: [(usize, usize, &[u8], [(&[u32], u64); 2], bool, bool); 5] = [
        (40, 40, &[], [(&[], 0), (&[], 0)], false, true),
        (40, 9, &[], [(&[1], 0), (&[], 0)], false, true),
        (30, 30, &[], [(&[], 0), (&[0, 1], 10)], false, true),
        (40, 40, &[0], [(&[], 0), (&[], 0)], true, true),
        (0, 0, &[], [(&[0, 1, 2], 24), (&[0, 1], 16)], false, false),
    ];
    for (count, other, more, parts, longer, is_mended) in cases {
        let there = damaged(alloc, &FILE[..count.min(40)], other, more).expect(&rt, "bytes");
        let whole = Vec::from_slice(alloc, &FILE).expect(&rt, "bytes");
        let damage = damage(alloc, &parts, longer).expect(&rt, "damage");
        let wanted = Ok(Some((damage, is_mended.then_some(whole))));
        same!(rt; found(alloc, &table, there.as_slice(), guard.as_slice()), wanted, (count, other));
    }
}

#[test]
fn either_half_of_the_lists_is_enough(rt: HostRuntime) {
    let alloc = rt.alloc();
    let table = full_table(alloc).expect(&rt, "a table");
    let (_made, guard) = guarded(alloc).expect(&rt, "a guard");
    // What there is of each part's bytes, and whether the lists are there.
    let cases = [(OWN, GUARD, true), (0, SPARE, true), (OWN, SPARE, false)];
    for (start, end, are_there) in cases {
        let rest = kept(alloc, guard.as_slice(), start, end).expect(&rt, "bytes");
        let found = found(alloc, &table, &FILE, rest.as_slice()).expect(&rt, "what is found");
        same!(rt; found.is_some(), are_there, (start, end));
    }
}

#[test]
fn memory_is_refused_in_turn(rt: HostRuntime) -> Result<(), Fail> {
    let alloc = rt.alloc();
    let table = full_table(alloc)?;
    let (_made, guard) = guarded(alloc).expect(&rt, "a guard");
    let damage = damage(alloc, &[(&[], 0), (&[0, 1], 10)], false)?;
    let wanted = (damage, Some(Vec::from_slice(alloc, &FILE)?));
    // First with ample memory: the stack that it takes then is there in the sweep, which leaves none for more.
    let ample = ending(alloc, &table, guard.as_slice(), &wanted);
    same!(rt; ample, Ending::Answered, "with ample memory");
    let mut endings = [Endings::new(); 1];
    let is_swept = is_swept(alloc, &mut endings, |endings| {
        add_all(endings, &[ending(alloc, &table, guard.as_slice(), &wanted)]);
    })?;
    same!(rt; is_swept, true, endings.as_slice());
    Ok(())
}
