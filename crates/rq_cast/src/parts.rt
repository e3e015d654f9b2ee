//! The digests of an object's symbols, and the end of its part.
ghost use Rattle.std.specs.Prelude.{◌≡◌, ◌-◌, ◌*◌, ◌<◌, ◌≤◌, [], ◌++◌, length, map, take, drop, IfOk, IfErr, OnOk};
ghost use Rattle.std.specs.List.{range_with_len, flat_map};
ghost use Rattle.sha2.specs.Sha512.{sha512};
ghost use Rattle.rq_standard.specs.Configuration.{IsAligned, largest_block};
ghost use Rattle.rq_standard.specs.Cutting.{symbol_of_block};
ghost use Rattle.raptorq.specs.BlockBytes.{bytes_of_block};
ghost use Rattle.rq_cells.specs.Cells.{digest_of};
ghost use Rattle.rq_cast.specs.Parts.{source_digests};

use raptorq::error::Error;
use raptorq::{BlockLayout, ObjectTransmissionInformation, block_symbols, symbols_before};
use rq_cells::{DIGEST_LENGTH, NAME_LENGTH, STREAM_LENGTH};
use rq_digests::all_digests;
use sha2::{Digest, Sha512};
use std::alloc::{AllocError, Global};

/// How many bytes end the last part.
pub const SEAL_LENGTH: usize = 32;

/// How many parts a stream has at most.
pub const MOST_PARTS: u32 = 1 << 30;

// How many symbols are hashed side by side.
const BATCH: u32 = 16;

/// The name of the stream whose first part has a name: it begins so.
pub(crate) fn stream_of_name(name: &[u8; NAME_LENGTH]) -> [u8; STREAM_LENGTH]
    ensures { result ≡ take 8 name.now }
{
    let mut stream = [0; STREAM_LENGTH];
    stream.copy_from_slice(&name[..STREAM_LENGTH]);
    stream
}

/// The first 32 bytes of a hash.
pub fn first_bytes(hash: &[u8; 64]) -> [u8; 32]
    ensures { result ≡ take 32 hash.now }
{
    let mut first = [0; 32];
    first.copy_from_slice(&hash[..32]);
    first
}

/// The digests of an object's source symbols, block by block, each as its packet carries it: zeros fill
/// up the last one. Refuses [`Error::OutOfMemory`] alone.
pub fn source_digests(
    alloc: Global,
    config: &ObjectTransmissionInformation,
    object: &[u8],
) -> Result<Vec<[u8; DIGEST_LENGTH]>, Error>
    requires positive { 0 < config.now.symbol_size }
    requires few { largest_block config.now < 65536 }
    requires aligned { IsAligned config.now }
    ensures digests { IfOk result (λ v. v.items ≡ source_digests config.now object.now) }
    ensures memory { IfErr result (λ e. e ≡ Error.OutOfMemory) }
{
    let mut digests = Vec::with_capacity(alloc, config.total_symbols() as usize)?;
    let mut symbols = Vec::with_capacity(
        alloc,
        BATCH as usize * usize::from(config.symbol_size()),
    )?;
    for number in 0..config.source_blocks() {
        let layout = BlockLayout {
            config: *config,
            source_symbols: block_symbols(config, number),
        };
        let block = bytes_of_block(config, object, number);
        push_block(&mut digests, &layout, block, &mut symbols)?;
    }
    Ok(digests)
}

/// The bytes of an object in a block, which may end before the block's last symbol does.
pub fn bytes_of_block<'a>(
    config: &ObjectTransmissionInformation,
    object: &'a [u8],
    number: u8,
) -> &'a [u8]
    requires positive { 0 < config.now.symbol_size }
    requires few { largest_block config.now < 65536 }
    requires number { number < config.now.source_blocks }
    ensures { result.now ≡ bytes_of_block config.now object.now number }
{
    let size = usize::from(config.symbol_size());
    let start = symbols_before(config, number) as usize * size;
    let whole = block_symbols(config, number) as usize * size;
    let rest = &object[start.min(object.len())..];
    &rest[..whole.min(rest.len())]
}

// Pushes the digests of a block's symbols. The block may end before its last symbol does.
fn push_block(
    digests: &mut Vec<[u8; DIGEST_LENGTH]>,
    layout: &BlockLayout,
    block: &[u8],
    symbols: &mut Vec<u8>,
) -> Result<(), AllocError>
    ensures { OnOk result (digests.new.items ≡ digests.old.items
        ++ map (λ e. digest_of (symbol_of_block layout.now.config layout.now.source_symbols block.now e)) (range_with_len 0 layout.now.source_symbols)) }
{
    let mut first = 0;
    while first < layout.source_symbols {
        let count = BATCH.min(layout.source_symbols - first);
        cut_symbols(layout, block, first, first + count, symbols)?;
        let hashes = hashes_of(
            symbols.as_slice(),
            usize::from(layout.config.symbol_size()),
            count as usize,
        );
        push_digests(digests, &hashes[..count as usize])?;
        first += count;
    }
    Ok(())
}

// Puts the symbols of a block from `first` on and before `end` one behind another, over what is there.
fn cut_symbols(
    layout: &BlockLayout,
    block: &[u8],
    first: u32,
    end: u32,
    symbols: &mut Vec<u8>,
) -> Result<(), AllocError>
    requires { first ≤ end }
    ensures { OnOk result (symbols.new.items ≡ flat_map (symbol_of_block layout.now.config layout.now.source_symbols block.now) (range_with_len first (end - first))) }
{
    symbols.clear();
    for e in first..end {
        layout.append_source_symbol(symbols, block, e)?;
    }
    Ok(())
}

// The SHA-512 of each of so many symbols that stand one behind another; the rest are zeros.
fn hashes_of(symbols: &[u8], size: usize, count: usize) -> [[u8; 64]; BATCH as usize]
    requires few { count ≤ 16 }
    requires long { length symbols.now ≡ count * size }
    ensures { take count result ≡ map (λ i. sha512 (take size (drop (i * size) symbols.now))) (range_with_len 0 count) }
{
    let mut messages: [&[u8]; BATCH as usize] = [&[]; BATCH as usize];
    for i in 0..count {
        messages[i] = &symbols[i * size..(i + 1) * size];
    }
    let mut hashes = [[0; 64]; BATCH as usize];
    all_digests(&messages[..count], &mut hashes[..count]);
    hashes
}

// Pushes the digests of symbols by their SHA-512.
fn push_digests(
    digests: &mut Vec<[u8; DIGEST_LENGTH]>,
    hashes: &[[u8; 64]],
) -> Result<(), AllocError>
    ensures { OnOk result (digests.new.items ≡ digests.old.items ++ map (take 32) hashes.now) }
{
    for hash in hashes {
        digests.push(first_bytes(hash))?;
    }
    Ok(())
}
