//! A source block and its answer.
ghost use Rattle.std.specs.Prelude.{◌≡◌, ◌*◌, ◌<◌, length, Ok, Err, IfSome, IfOk, IfErr, OnOk, option_map, vec_items};
ghost use Rattle.std.specs.Option.{ForSome, option_copied};
ghost use Rattle.std.specs.Int.{div_ceil};
ghost use Rattle.rq_standard.specs.Configuration.{IsAccepted, largest_block};
ghost use Rattle.rq_standard.specs.TableRows.{greatest_size};
ghost use Rattle.rq_block.specs.SourceBlockDecoder.{received_of, solving_of, unsolved};
ghost use Rattle.rq_block.specs.declared.encoder.TheConstants.{SPARSE_MATRIX_THRESHOLD};

use crate::blocks::block_symbols;
use rq_base::base::{EncodingPacket, ObjectTransmissionInformation};
use rq_block::decoder::SourceBlockDecoder;
use rq_bytes::error::Error;
use rq_tables::systematic_constants::SystematicTable;
use std::alloc::{AllocError, Global};

/// Puts one source block together again as a [`Decoder`](crate::decoder::Decoder) does each of its
/// blocks: once what was received determines it, its bytes are kept and nothing else. Not in the Rust
/// crate.
///
/// ```
/// let mut block = ObjectBlock::of_length(alloc, table, 0, config, 160)?; // block 0, of 160 bytes
/// for packet in packets {
///     block.add_new_packet(packet)?;
/// }
/// Ok(block.bytes().is_some()) // `None` until its packets determine the block
/// ```
#[derive(Debug, PartialEq, Eq, Drop)]
pub struct ObjectBlock {
    pub(super) decoder: SourceBlockDecoder,
    pub(super) answer: Option<Vec<u8>>,
    pub ghost long: { ForSome answer (λ v. length v.items ≡ (received_of decoder).source_symbols * (received_of decoder).configuration.symbol_size) },
}

impl ObjectBlock {
    ghost use Rattle.raptorq.specs.Unanswered.{ShowsUnanswered};
    ghost use Rattle.rq_standard.specs.DecoderState.{IsReceivedOf, new_received, new_answer};
    ghost use Rattle.raptorq.specs.Decoder.{answer_of};
    ghost use Rattle.raptorq.specs.InTurn.{block_of, new_block, no_symbols, RecordsHere, AnswersHere, TakesHere};
    ghost use Rattle.rq_block.specs.MissingPackets.{NeedsMore};
    ghost use Rattle.raptorq.specs.Unanswered.{TellsMissingOf, missing_in};
    ghost use Rattle.rq_block.specs.RefusedBlocks.{block_refusal, checked_block};

    /// The block of an object with this number, of which nothing was received.
    pub(super) fn new(
        alloc: Global,
        table: &SystematicTable,
        config: &ObjectTransmissionInformation,
        number: u8,
    ) -> ObjectBlock
        requires accepted { IsAccepted (greatest_size table.now) config.now }
        requires few { largest_block config.now < 65536 }
        requires number { number < config.now.source_blocks }
        ensures received { received_of result.decoder ≡ new_received table.now config.now number }
        ensures answer { answer_of result ≡ new_answer config.now number }
        ensures shape { IsReceivedOf table.now config.now number (new_received table.now config.now number) }
        ensures solving { solving_of result.decoder ≡ unsolved SPARSE_MATRIX_THRESHOLD }
    {
        let source_symbols = block_symbols(config, number);
        let decoder = SourceBlockDecoder::of_symbols(alloc, table, number, config, source_symbols);
        ObjectBlock::begun(alloc, decoder)
    }

    /// The block with this number, of this length in bytes, of which nothing was received. It has as
    /// many source symbols as cover the length, and is answered where it has none.
    ///
    /// Refuses what [`SourceBlockDecoder::new`] refuses.
    pub fn of_length(
        alloc: Global,
        table: &SystematicTable,
        number: u8,
        config: &ObjectTransmissionInformation,
        block_length: u64,
    ) -> Result<ObjectBlock, Error>
        ensures refused { IfErr result (λ e. checked_block (greatest_size table.now) config.now (div_ceil block_length config.now.symbol_size) ≡ Err e) }
        ensures taken { OnOk result (checked_block (greatest_size table.now) config.now (div_ceil block_length config.now.symbol_size) ≡ Ok tt) }
        ensures block { IfOk result (λ b. block_of b ≡ new_block table.now config.now number (div_ceil block_length config.now.symbol_size)) }
    {
        let decoder = SourceBlockDecoder::new(alloc, table, number, config, block_length)?;
        Ok(ObjectBlock::begun(alloc, decoder))
    }

    // A block by its decoder, which has received nothing.
    fn begun(alloc: Global, decoder: SourceBlockDecoder) -> ObjectBlock
        ensures decoder { result.decoder ≡ decoder }
        ensures answer { answer_of result ≡ no_symbols (received_of decoder).source_symbols }
    {
        let answer = if decoder.source_symbol_count() == 0 {
            Some(Vec::new(alloc))
        } else {
            None
        };
        ObjectBlock { decoder, answer }
    }

    /// The size of a symbol, in bytes.
    pub fn symbol_size(&self) -> usize
        ensures value { result ≡ (block_of self.now).received.configuration.symbol_size }
        ensures below { result < 65536 }
    {
        self.decoder.symbol_size()
    }

    /// The block's bytes, where it is answered: all its source symbols, lent and not copied.
    pub fn bytes(&self) -> Option<&[u8]>
        ensures { option_copied result ≡ (block_of self.now).answer }
    {
        self.answer.as_deref()
    }

    /// Takes a packet, and answers the block where what was received determines it. An answered block
    /// takes nothing more.
    ///
    /// Refuses what [`SourceBlockDecoder::check`] refuses, and then [`Error::Contradiction`] where what
    /// was received determines the block and no block fits all of it: the packet is recorded then, and
    /// each later packet refused so too. Where memory is refused after the packet was recorded, the next
    /// packet tries to answer the block again.
    pub fn add_new_packet(&mut self, packet: EncodingPacket) -> Result<(), Error>
        ensures { TakesHere (block_of self.old) packet result (block_of self.new) }
    {
        self.decoder.check(&packet)?;
        self.record(packet)?;
        self.find_answer()
    }

    /// Records a packet of the block. An answered block takes nothing more.
    pub(super) fn record(&mut self, packet: EncodingPacket) -> Result<(), Error>
        requires { block_refusal (received_of self.old.decoder) packet ≡ Ok tt }
        ensures records { RecordsHere packet result (block_of self.old) (block_of self.new) }
        ensures memory { IfErr result (λ e. e ≡ Error.OutOfMemory) }
        ensures number { (received_of self.new.decoder).number ≡ (received_of self.old.decoder).number }
        ensures configuration { (received_of self.new.decoder).configuration ≡ (received_of self.old.decoder).configuration }
        ensures symbols { (received_of self.new.decoder).source_symbols ≡ (received_of self.old.decoder).source_symbols }
    {
        if self.answer.is_some() {
            return Ok(());
        }
        self.decoder.record(packet)?;
        Ok(())
    }

    /// Answers the block where what was received determines it, and keeps nothing but its bytes then.
    pub(super) fn find_answer(&mut self) -> Result<(), Error>
        ensures answers { AnswersHere result (block_of self.old) (block_of self.new) }
        ensures number { (received_of self.new.decoder).number ≡ (received_of self.old.decoder).number }
        ensures configuration { (received_of self.new.decoder).configuration ≡ (received_of self.old.decoder).configuration }
        ensures symbols { (received_of self.new.decoder).source_symbols ≡ (received_of self.old.decoder).source_symbols }
    {
        if self.answer.is_some() {
            return Ok(());
        }
        self.answer = self.decoder.answer()?;
        if self.answer.is_some() {
            self.decoder.forget();
        }
        Ok(())
    }

    /// How many packets more the block needs at least, of ids that weren't received yet, as
    /// [`Decoder::missing_packets`](crate::decoder::Decoder::missing_packets) says of its blocks.
    pub fn missing_packets(&self) -> Option<u32>
        ensures value { let b = block_of self.now in result ≡ missing_in b.answer b.solving.last_outcome b.received }
        ensures told { TellsMissingOf (block_of self.now).received (block_of self.now).answer result }
        ensures needed { IfSome result (NeedsMore (block_of self.now).received) }
    {
        if self.answer.is_some() {
            return Some(0);
        }
        self.decoder.missing_packets()
    }

    /// A column of octets that shows that the block isn't determined, where it has no answer.
    pub(super) fn homogeneous(&self) -> Result<Option<Vec<u8>>, Error>
        ensures shown { IfOk result (λ column. ShowsUnanswered (received_of self.now.decoder) (answer_of self.now) (option_map vec_items column)) }
        ensures memory { IfErr result (λ e. e ≡ Error.OutOfMemory) }
    {
        if self.answer.is_some() {
            return Ok(None);
        }
        self.decoder.homogeneous()
    }
}

impl Clone for ObjectBlock {
    ghost use Rattle.raptorq.specs.Decoder.{answer_of};

    ghost is_clone = { λ a b. (received_of b.decoder ≡ received_of a.decoder) × (answer_of b ≡ answer_of a) × (solving_of b.decoder ≡ solving_of a.decoder) };

    fn clone(&self) -> Result<ObjectBlock, AllocError> {
        Ok(ObjectBlock {
            decoder: self.decoder.clone()?,
            answer: self.answer.clone()?,
        })
    }
}
