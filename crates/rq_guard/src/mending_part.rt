//! A part of a file and of its guard.
ghost use Rattle.std.specs.Prelude.{◌≡◌, ◌+◌, ◌-◌, ◌^◌, ◌<◌, length, All, OnOk, OnErr, IfOk, IfErr};
ghost use Rattle.rq_streams.specs.Counted.{failed_count, inner};
ghost use Rattle.rq_streams.specs.Ends.{failed_calls};
ghost use Rattle.rq_cells.specs.Scans.{HasDigest};
ghost use Rattle.rq_cast.specs.Reading.{IsStopOfReads};
ghost use Rattle.rq_guard.specs.Lists.{listed_of};
ghost use Rattle.rq_guard.specs.Damage.{IsList};
ghost use Rattle.rq_guard.specs.Mending.{IsSoundMending, mended_parts};
ghost use Rattle.rq_guard.specs.Reading.{names_listed, cells_of, ReadsWhole, MendsPart, RepairsPart, StopsRepair};

use crate::damage::{object_there, part_length, whole_cells};
use crate::list::DigestList;
use crate::mending::Mending;
use crate::reading::Decoding;
use rq_cast::read_part;
use rq_cells::FoundCell;
use rq_streams::{Counted, Stop, write_bytes};
use std::alloc::Global;
use std::io::{Read, Write};

// The cells of the symbols of a part that are whole in what a reader brings, behind parts that are listed. What was
// read isn't kept.
fn read_whole<F: Read>(
    alloc: Global,
    before: &[DigestList],
    list: &DigestList,
    file: &mut Counted<F>,
) -> Result<Vec<FoundCell>, Stop>
    requires reads { failed_count file.old < 2 ^ 64 - 1 }
    requires list { IsList (listed_of list.now) }
    ensures whole { IfOk result (λ v. ReadsWhole (names_listed before.now) (listed_of list.now) (F.remaining (inner file.old)) (F.remaining (inner file.new))
        (cells_of v.items)) }
    ensures digests { IfOk result (λ v. All HasDigest v.items) }
    ensures counts { failed_count file.new ≡ failed_count file.old + failed_calls result }
    ensures stops { IfErr result IsStopOfReads }
{
    let bytes = read_part(alloc, file, part_length(&list.head))?;
    let object = object_there(&list.head, before, bytes)?;
    Ok(whole_cells(alloc, list, object.as_slice())?)
}

/// Mends the next part of a file, which is listed behind some others: by its symbols that are whole where the file's
/// reader stands, and by its cells in a guard, of which a reader brings as much as it takes. Hands out its bytes, if
/// these determine it. A failed call ends it with [`Stop::Fault`]. Refuses
/// [`Error::OutOfMemory`](rq_bytes::error::Error) alone.
pub fn mend_part<F: Read, G: Read>(
    alloc: Global,
    by: &Decoding<'_>,
    mending: &mut Mending,
    before: &[DigestList],
    list: &DigestList,
    file: &mut Counted<F>,
    guard: &mut Counted<G>,
) -> Result<Vec<u8>, Stop>
    requires sound { IsSoundMending by.now.table.now mending.old }
    requires list { IsList (listed_of list.now) }
    requires file { failed_count file.old < 2 ^ 64 - 1 }
    requires guard { failed_count guard.old < 2 ^ 64 - 1 }
    ensures mends { IfOk result (λ v. MendsPart by.now.table.now by.now.key.now (names_listed before.now) (listed_of list.now)
        (F.remaining (inner file.old)) (F.remaining (inner file.new)) (G.remaining (inner guard.old)) (G.remaining (inner guard.new))
        mending.old v.items mending.new) }
    ensures sound { OnOk result (IsSoundMending by.now.table.now mending.new) }
    ensures reads { OnOk result (failed_count file.new ≡ failed_count file.old) }
    ensures counts { failed_count file.new + failed_count guard.new ≡ failed_count file.old + failed_count guard.old + failed_calls result }
    ensures stops { IfErr result IsStopOfReads }
{
    let whole = read_whole(alloc, before, list, file)?;
    let bytes = mending.take(alloc, by.table, whole)?;
    if !bytes.is_empty() || mending.has_ended() {
        return Ok(bytes);
    }
    mending.take_from(alloc, by, &list.head, guard)
}

/// Mends the next part of a file as [`mend_part`] does, by the lists of all its parts ([`lists_in`](crate::lists_in)),
/// and writes it. Answers whether it is mended: nothing is written where it isn't determined. A failed call ends it
/// with [`Stop::Fault`], and a beginning of the part may be written. Refuses
/// [`Error::OutOfMemory`](rq_bytes::error::Error::OutOfMemory) alone.
pub fn repair_part<F: Read, G: Read, W: Write>(
    alloc: Global,
    by: &Decoding<'_>,
    mending: &mut Mending,
    lists: &[DigestList],
    file: &mut Counted<F>,
    guard: &mut Counted<G>,
    writer: &mut Counted<W>,
) -> Result<bool, Stop>
    requires sound { IsSoundMending by.now.table.now mending.old }
    requires lists { All (λ l. IsList (listed_of l)) lists.now }
    requires next { mended_parts mending.old < length lists.now }
    requires file { failed_count file.old < 2 ^ 64 - 1 }
    requires guard { failed_count guard.old < 2 ^ 64 - 1 }
    requires writes { failed_count writer.old < 2 ^ 64 - 1 }
    ensures repairs { IfOk result (RepairsPart by.now.table.now by.now.key.now lists.now (F.remaining (inner file.old)) (F.remaining (inner file.new))
        (G.remaining (inner guard.old)) (G.remaining (inner guard.new)) (W.contents (inner writer.old)) (W.contents (inner writer.new))
        mending.old mending.new) }
    ensures stopped { OnErr result (StopsRepair by.now.table.now by.now.key.now lists.now (F.remaining (inner file.old)) (F.remaining (inner file.new))
        (G.remaining (inner guard.old)) (G.remaining (inner guard.new)) (W.contents (inner writer.old)) (W.contents (inner writer.new))
        mending.old mending.new) }
    ensures sound { OnOk result (IsSoundMending by.now.table.now mending.new) }
    ensures counts { failed_count file.new + failed_count guard.new + failed_count writer.new
        ≡ failed_count file.old + failed_count guard.old + failed_count writer.old + failed_calls result }
    ensures stops { IfErr result IsStopOfReads }
{
    let next = mending.mended_parts();
    let before = &lists[..next as usize];
    let list = &lists[next as usize];
    let bytes = mend_part(alloc, by, mending, before, list, file, guard)?;
    write_bytes(writer, bytes.as_slice())?;
    Ok(mending.mended_parts() > next)
}
