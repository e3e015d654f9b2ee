//! What is damaged of a part, where a file has it, and the cells of what is whole.
ghost use Rattle.std.specs.Prelude.{◌≡◌, ◌<◌, ◌^◌, ◌≤◌, length, map, take, All, IfOk, IfErr, OnOk};
ghost use Rattle.rq_cells.specs.Scans.{HasDigest};
ghost use Rattle.rq_cast.specs.Parts.{seal_of, source_digests};
ghost use Rattle.rq_guard.specs.Lists.{listed_of};
ghost use Rattle.rq_guard.specs.Damage.{IsList, part_length, object_there, whole_among, damaged_among, damaged_symbols, whole_cells, cell_of_block, AreDigests};

use crate::list::DigestList;
use raptorq::{BlockLayout, block_symbols};
use rq_base::base::{EncodingPacket, PayloadId};
use rq_bytes::error::Error;
use rq_cast::{SEAL_LENGTH, bytes_of_block, first_bytes, source_digests};
use rq_cells::{Cell, DIGEST_LENGTH, FoundCell, Head, LAST_PART};
use sha2::{Digest, Sha512};
use std::alloc::{AllocError, Global};

/// How many bytes of a file a part has, by its head: all of its object, but for the 32 that end the last one.
pub fn part_length(head: &Head) -> u64
    ensures { result ≡ part_length head.now }
{
    let length = head.configuration.transfer_length();
    if head.number >= LAST_PART {
        length.saturating_sub(SEAL_LENGTH as u64)
    } else {
        length
    }
}

// What ends the last part, behind those that are listed.
fn seal_behind(before: &[DigestList]) -> [u8; SEAL_LENGTH]
    ensures { result ≡ seal_of (map (λ l. l.head.name) before.now) }
{
    let mut hasher = Sha512::new();
    for list in before {
        hasher.update(&list.head.name);
    }
    first_bytes(&hasher.finalize())
}

/// The object of a part, by the bytes that stand in its place in a file: no more of them than the part has, zeros
/// where they end before, and behind the last part what ends it. The lists are those of the parts before. Refuses
/// [`Error::OutOfMemory`] alone.
pub fn object_there(
    head: &Head,
    before: &[DigestList],
    mut bytes: Vec<u8>,
) -> Result<Vec<u8>, Error>
    ensures object { IfOk result (λ v. v.items ≡ object_there head.now (map (λ l. l.head.name) before.now) bytes.items) }
    ensures memory { IfErr result (λ e. e ≡ Error.OutOfMemory) }
{
    bytes.resize(part_length(head) as usize, 0)?;
    if head.number >= LAST_PART {
        bytes.extend_from_slice(&seal_behind(before))?;
    }
    Ok(bytes)
}

// The numbers of the symbols whose digest is another one than is listed.
fn damaged_among(
    alloc: Global,
    list: &DigestList,
    digests: &[[u8; DIGEST_LENGTH]],
) -> Result<Vec<u32>, AllocError>
    requires each { length digests.now ≡ length list.now.digests.items }
    requires few { length digests.now < 2 ^ 24 }
    ensures { IfOk result (λ v. v.items ≡ damaged_among (listed_of list.now).digests digests.now) }
{
    let mut damaged = Vec::new(alloc);
    for e in 0..digests.len() {
        if !list.lists(e, &digests[e]) {
            damaged.push(e as u32)?;
        }
    }
    Ok(damaged)
}

/// The numbers of a part's symbols that are damaged, in order: the first 16 bytes of their SHA-512 aren't the listed
/// ones. Refuses [`Error::OutOfMemory`] alone.
pub fn damaged_symbols(alloc: Global, list: &DigestList, object: &[u8]) -> Result<Vec<u32>, Error>
    requires { IsList (listed_of list.now) }
    ensures damaged { IfOk result (λ v. v.items ≡ damaged_symbols (listed_of list.now) object.now) }
    ensures memory { IfErr result (λ e. e ≡ Error.OutOfMemory) }
{
    let digests = source_digests(alloc, &list.head.configuration, object)?;
    Ok(damaged_among(alloc, list, digests.as_slice())?)
}

// The cell of a symbol of a part that is one block.
fn source_cell(
    alloc: Global,
    head: &Head,
    layout: &BlockLayout,
    block: &[u8],
    e: u32,
) -> Result<Cell, Error>
    requires few { e < 2 ^ 24 }
    ensures cell { IfOk result (λ cell. cell ≡ cell_of_block head.now layout.now block.now e) }
    ensures memory { IfErr result (λ e. e ≡ Error.OutOfMemory) }
{
    let size = usize::from(layout.config.symbol_size());
    let mut symbol = Vec::with_capacity(alloc, size)?;
    layout.append_source_symbol(&mut symbol, block, e)?;
    Ok(Cell {
        head: *head,
        packet: EncodingPacket::new(PayloadId::new(0, e)?, symbol),
    })
}

// The cells of the symbols whose digest is the listed one.
fn listed_cells(
    alloc: Global,
    list: &DigestList,
    layout: &BlockLayout,
    block: &[u8],
    digests: &[[u8; DIGEST_LENGTH]],
) -> Result<Vec<FoundCell>, Error>
    requires each { length digests.now ≡ length list.now.digests.items }
    requires few { length digests.now < 2 ^ 24 }
    requires digests { AreDigests layout.now block.now digests.now }
    ensures cells { IfOk result (λ v. map (λ found. found.cell) v.items
        ≡ map (cell_of_block list.now.head layout.now block.now) (whole_among (listed_of list.now).digests digests.now)) }
    ensures digests { IfOk result (λ v. All HasDigest v.items) }
    ensures memory { IfErr result (λ e. e ≡ Error.OutOfMemory) }
{
    let mut cells = Vec::new(alloc);
    for e in 0..digests.len() {
        if list.lists(e, &digests[e]) {
            let cell = source_cell(alloc, &list.head, layout, block, e as u32)?;
            cells.push(FoundCell {
                cell,
                digest: digests[e],
            })?;
        }
    }
    Ok(cells)
}

/// The cells of a part's symbols that are whole: the first 16 bytes of their SHA-512 are the listed ones. They are
/// what a sender of the part sends first. Refuses [`Error::OutOfMemory`] alone.
pub fn whole_cells(alloc: Global, list: &DigestList, object: &[u8]) -> Result<Vec<FoundCell>, Error>
    requires { IsList (listed_of list.now) }
    ensures cells { IfOk result (λ v. map (λ found. found.cell) v.items ≡ whole_cells (listed_of list.now) object.now) }
    ensures digests { IfOk result (λ v. All HasDigest v.items) }
    ensures memory { IfErr result (λ e. e ≡ Error.OutOfMemory) }
{
    let config = list.head.configuration;
    let digests = source_digests(alloc, &config, object)?;
    let layout = BlockLayout {
        config,
        source_symbols: block_symbols(&config, 0),
    };
    let block = bytes_of_block(&config, object, 0);
    listed_cells(alloc, list, &layout, block, digests.as_slice())
}
