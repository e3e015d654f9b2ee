//! The digests of a part's source symbols, where those that came are known.
ghost use Rattle.std.specs.Prelude.{◌≡◌, ℕ, ◌+◌, ◌*◌, ◌^◌, ◌<◌, ◌≤◌, ◌++◌, length, map, Some, IfOk, IfErr, OnOk, IfSome};
ghost use Rattle.std.specs.List.{range_with_len};
ghost use Rattle.rq_standard.specs.Configuration.{IsAligned, largest_block};
ghost use Rattle.rq_standard.specs.Cutting.{symbol_of_block};
ghost use Rattle.rq_standard.specs.DecoderState.{result_of};
ghost use Rattle.raptorq.specs.Decoder.{state_of};
ghost use Rattle.rq_cells.specs.Cells.{digest_of};
ghost use Rattle.rq_cast.specs.Parts.{source_digests};
ghost use Rattle.rq_cast.specs.Digests.{last_width, AreWhole, KnowsSymbols, KnowsDigests};

use crate::parts::bytes_of_block;
use raptorq::base::{ENCODING_SYMBOL_IDS, PayloadId};
use raptorq::error::Error;
use raptorq::{BlockLayout, Decoder, ObjectTransmissionInformation, block_symbols};
use rq_cells::{DIGEST_LENGTH, digest_of};
use std::alloc::{AllocError, Global};
use std::collections::BTreeMap;
use std::collections::btree_map::Entry;

/// The digests of the source symbols of a part that came.
#[derive(Drop)]
pub(crate) struct KnownDigests {
    // By the number that four bytes of payload id spell.
    of: BTreeMap<u32, [u8; DIGEST_LENGTH]>,
}

impl KnownDigests {
    ghost use Rattle.rq_cast.specs.Digests.{known, KnowsNone, NotesFirst, Notes};

    /// None of them.
    pub fn new(alloc: Global) -> KnownDigests
        ensures { KnowsNone result }
    {
        KnownDigests {
            of: BTreeMap::new(alloc),
        }
    }

    // The digest of a block's symbol of an encoding symbol id.
    fn get(&self, block: u8, esi: u32) -> Option<[u8; DIGEST_LENGTH]>
        requires { esi < 2 ^ 24 }
        ensures { result ≡ known self.now block esi }
    {
        self.of
            .get(&(u32::from(block) * ENCODING_SYMBOL_IDS + esi))
            .copied()
    }

    // Keeps the digest of a block's symbol, unless it has one of that id.
    fn keep_first(
        &mut self,
        block: u8,
        esi: u32,
        digest: [u8; DIGEST_LENGTH],
    ) -> Result<(), AllocError>
        requires { esi < 2 ^ 24 }
        ensures { OnOk result (NotesFirst block esi digest self.old self.new) }
    {
        let key = u32::from(block) * ENCODING_SYMBOL_IDS + esi;
        if let Entry::Vacant(vacant) = self.of.entry(key)? {
            let _kept = vacant.insert(digest);
        }
        Ok(())
    }

    /// Notes the digest of a packet's symbol before a decoder takes the packet: that of a source symbol,
    /// where none of its id came, and as long as its block has no answer.
    pub fn note(
        &mut self,
        decoder: &Decoder,
        id: &PayloadId,
        digest: [u8; DIGEST_LENGTH],
    ) -> Result<(), AllocError>
        requires sized { 0 < (state_of decoder.now).configuration.symbol_size }
        requires few { largest_block (state_of decoder.now).configuration < 65536 }
        requires block { id.now.block < (state_of decoder.now).configuration.source_blocks }
        ensures { OnOk result (Notes (state_of decoder.now) id.now digest self.old self.new) }
    {
        let block = id.source_block_number();
        let esi = id.encoding_symbol_id();
        if decoder.block_bytes(block).is_some()
            || esi >= block_symbols(&decoder.get_config(), block)
        {
            return Ok(());
        }
        self.keep_first(block, esi, digest)
    }
}

// How many bytes of a symbol its last sub-block has (RFC 6330, section 4.4.1.2).
fn last_width(config: &ObjectTransmissionInformation) -> usize
    requires { IsAligned config.now }
    ensures { result ≡ last_width config.now }
{
    let units = config.symbol_size() / u16::from(config.symbol_alignment());
    let sub_blocks = config.sub_blocks().max(1);
    usize::from(units / sub_blocks) * usize::from(config.symbol_alignment())
}

// How many of a block's first symbols end before its bytes do, where it has so many: the others are
// filled up with zeros. None, where its last sub-blocks have no bytes.
fn whole_symbols(layout: &BlockLayout, length: usize) -> u32
    requires aligned { IsAligned layout.now.config }
    ensures few { result ≤ layout.now.source_symbols }
    ensures whole { AreWhole layout.now.config layout.now.source_symbols length result }
{
    let all = layout.source_symbols as usize * usize::from(layout.config.symbol_size());
    let width = last_width(&layout.config);
    if length >= all {
        return layout.source_symbols;
    }
    if width == 0 {
        return 0;
    }
    let filled_up = (all - length).div_ceil(width);
    (layout.source_symbols as usize).saturating_sub(filled_up) as u32
}

// The digest of a symbol of a block that may end before its last symbol does.
fn hashed(
    layout: &BlockLayout,
    block: &[u8],
    e: u32,
    symbol: &mut Vec<u8>,
) -> Result<[u8; DIGEST_LENGTH], AllocError>
    ensures { IfOk result (λ d. d ≡ digest_of (symbol_of_block layout.now.config layout.now.source_symbols block.now e)) }
{
    symbol.clear();
    layout.append_source_symbol(symbol, block, e)?;
    Ok(digest_of(symbol.as_slice()))
}

// Pushes the digests of a block's symbols: those that are known, where no zeros fill the symbol up, and
// those of the others.
fn push_received(
    digests: &mut Vec<[u8; DIGEST_LENGTH]>,
    layout: &BlockLayout,
    block: &[u8],
    number: u8,
    known: &KnownDigests,
    symbol: &mut Vec<u8>,
) -> Result<(), AllocError>
    requires aligned { IsAligned layout.now.config }
    requires few { layout.now.source_symbols < 2 ^ 24 }
    requires known { KnowsSymbols layout.now.config layout.now.source_symbols block.now number known.now }
    ensures { OnOk result (digests.new.items ≡ digests.old.items
        ++ map (λ e. digest_of (symbol_of_block layout.now.config layout.now.source_symbols block.now e)) (range_with_len 0 layout.now.source_symbols)) }
{
    let whole = whole_symbols(layout, block.len());
    for e in 0..layout.source_symbols {
        let digest = match known.get(number, e) {
            Some(digest) if e < whole => digest,
            _ => hashed(layout, block, e, symbol)?,
        };
        digests.push(digest)?;
    }
    Ok(())
}

/// The digests of the source symbols of the object that a decoder has answered, block by block, each as
/// its packet carries it: zeros fill up the last one. Those that came are known. Refuses
/// [`Error::OutOfMemory`] alone.
pub(crate) fn received_digests(
    alloc: Global,
    decoder: &Decoder,
    object: &[u8],
    known: &KnownDigests,
) -> Result<Vec<[u8; DIGEST_LENGTH]>, Error>
    requires positive { 0 < (state_of decoder.now).configuration.symbol_size }
    requires few { largest_block (state_of decoder.now).configuration < 65536 }
    requires aligned { IsAligned (state_of decoder.now).configuration }
    requires answered { result_of (state_of decoder.now) ≡ Some object.now }
    requires known { KnowsDigests (state_of decoder.now) known.now }
    ensures digests { IfOk result (λ v. v.items ≡ source_digests (state_of decoder.now).configuration object.now) }
    ensures memory { IfErr result (λ e. e ≡ Error.OutOfMemory) }
{
    let config = decoder.get_config();
    let mut digests = Vec::with_capacity(alloc, config.total_symbols() as usize)?;
    let mut symbol = Vec::with_capacity(alloc, usize::from(config.symbol_size()))?;
    for number in 0..config.source_blocks() {
        let layout = BlockLayout {
            config,
            source_symbols: block_symbols(&config, number),
        };
        let block = bytes_of_block(&config, object, number);
        push_received(&mut digests, &layout, block, number, known, &mut symbol)?;
    }
    Ok(digests)
}
