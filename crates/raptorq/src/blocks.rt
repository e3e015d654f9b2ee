//! How an object is cut into source blocks.
ghost use Rattle.std.specs.Prelude.{◌≡◌, ◌*◌, ◌^◌, ◌<◌, IfOk};
ghost use Rattle.rq_bytes.specs.Refusals.{IsAnswer};
ghost use Rattle.rq_standard.specs.Configuration.{largest_block};
ghost use Rattle.rq_standard.specs.Cutting.{block_symbols, symbols_before};
ghost use Rattle.raptorq.specs.Encoder.{packets_refusal};
ghost use Rattle.raptorq.specs.Offsets.{block_offsets, checked_offsets};

use rq_base::base::{ENCODING_SYMBOL_IDS, ObjectTransmissionInformation, partition};
use rq_bytes::error::Error;
use rq_tables::systematic_constants::MAX_SOURCE_SYMBOLS_PER_BLOCK;
use std::alloc::{AllocError, Global};

/// The number of source symbols of a block: the larger blocks come first (RFC 6330, 4.4.1.2). Not in the
/// Rust crate.
pub fn block_symbols(config: &ObjectTransmissionInformation, number: u8) -> u32
    requires size { 0 < config.now.symbol_size }
    requires few { largest_block config.now < 65536 }
    requires number { number < config.now.source_blocks }
    ensures { result ≡ block_symbols config.now number }
{
    let blocks = u32::from(config.source_blocks());
    let (larger, smaller, larger_count, _) = partition(config.total_symbols() as u32, blocks);
    if u32::from(number) < larger_count {
        larger
    } else {
        smaller
    }
}

/// The number of source symbols of the blocks before one: the larger blocks come first (RFC 6330,
/// 4.4.1.2). Not in the Rust crate.
pub fn symbols_before(config: &ObjectTransmissionInformation, number: u8) -> u64
    requires size { 0 < config.now.symbol_size }
    requires number { number < config.now.source_blocks }
    ensures value { result ≡ symbols_before config.now number }
    ensures bytes { result * config.now.symbol_size < 2 ^ 41 }
{
    let symbols = config.total_symbols();
    let blocks = u64::from(config.source_blocks());
    let number = u64::from(number);
    symbols / blocks * number + number.min(symbols % blocks)
}

/// Whether `repair` repair packets of each block have encoding symbol ids: the first block is the
/// largest.
pub(crate) fn check_repair(config: &ObjectTransmissionInformation, repair: u32) -> Result<(), Error>
    requires size { 0 < config.now.symbol_size }
    requires few { largest_block config.now < 65536 }
    requires some { 0 < config.now.source_blocks }
    ensures { result ≡ packets_refusal config.now repair }
{
    if u64::from(block_symbols(config, 0)) + u64::from(repair) > u64::from(ENCODING_SYMBOL_IDS) {
        return Err(Error::EsiTooLarge);
    }
    Ok(())
}

/// Where each source block of an object begins and where it ends, in bytes (RFC 6330, 4.4.1.2).
/// The last blocks can end past the object, which is filled up with zeros. Of the data nothing is
/// read.
///
/// Refuses, in this order, [`Error::SymbolSizeZero`], [`Error::SourceBlocksZero`], and
/// [`Error::TooManySymbols`] where a block would have more than 56403 source symbols.
pub fn calculate_block_offsets(
    alloc: Global,
    _data: &[u8],
    config: &ObjectTransmissionInformation,
) -> Result<Vec<(usize, usize)>, Error>
    ensures offsets { IsAnswer (λ v. v.items) result (checked_offsets config.now) }
{
    if config.symbol_size() == 0 {
        return Err(Error::SymbolSizeZero);
    }
    if config.source_blocks() == 0 {
        return Err(Error::SourceBlocksZero);
    }
    if config.largest_block() > u64::from(MAX_SOURCE_SYMBOLS_PER_BLOCK) {
        return Err(Error::TooManySymbols);
    }
    Ok(block_offsets(alloc, config)?)
}

// Where each source block begins and where it ends, in bytes.
fn block_offsets(
    alloc: Global,
    config: &ObjectTransmissionInformation,
) -> Result<Vec<(usize, usize)>, AllocError>
    requires size { 0 < config.now.symbol_size }
    requires few { largest_block config.now < 65536 }
    ensures { IfOk result (λ v. v.items ≡ block_offsets config.now) }
{
    let size = u64::from(config.symbol_size());
    let mut offsets = Vec::with_capacity(alloc, usize::from(config.source_blocks()))?;
    let mut start = 0;
    for number in 0..config.source_blocks() {
        let end = start + u64::from(block_symbols(config, number)) * size;
        offsets.push((start as usize, end as usize))?;
        start = end;
    }
    Ok(offsets)
}
