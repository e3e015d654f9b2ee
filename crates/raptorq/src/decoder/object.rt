//! The decoder of an object.
ghost use Rattle.std.specs.Prelude.{◌≡◌, ◌↔◌, ℕ, ◌*◌, ◌-◌, ◌<◌, ◌≤◌, [], length, Ok, Some, None, IfSome, IfOk, IfErr, OnOk, OnErr, All, map, replicate, option_map, vec_items, is_some, IsSome};
ghost use Rattle.std.specs.List.{range_with_len};
ghost use Rattle.std.specs.Option.{ForSome};
ghost use Rattle.rq_bytes.specs.Refusals.{IsAnswer};
ghost use Rattle.rq_standard.specs.Configuration.{IsAccepted, IsAligned, largest_block, total_symbols};
ghost use Rattle.rq_standard.specs.Cutting.{block_symbols};
ghost use Rattle.rq_standard.specs.Headline.{AnswersExactly, AnswersWhereAnyCan};
ghost use Rattle.rq_standard.specs.Following.{FollowsRun, IsAnswerAfter};
ghost use Rattle.raptorq.specs.Refused.{packet_refusal};
ghost use Rattle.raptorq.specs.Runs.{packets_of, AnswersRun, RefusesConfiguration};
ghost use Rattle.rq_standard.specs.TableRows.{greatest_size};
ghost use Rattle.rq_base.specs.RefusedInput.{checked_configuration};
ghost use Rattle.rq_block.specs.SourceBlockDecoder.{received_of, solving_of, with_threshold, unsolved};
ghost use Rattle.rq_block.specs.declared.encoder.TheConstants.{SPARSE_MATRIX_THRESHOLD};

use crate::blocks::symbols_before;
use crate::decoder::block::ObjectBlock;
use rq_base::base::{EncodingPacket, ObjectTransmissionInformation};
use rq_block::decoder::check_size;
use rq_bytes::error::Error;
use rq_bytes::util::write_range;
use rq_tables::systematic_constants::SystematicTable;
use std::alloc::{AllocError, Global};

/// Puts an object together again from its packets (RFC 6330, section 5.4), from any that determine
/// it, in any order.
///
/// ```
/// let config = ObjectTransmissionInformation::deserialize(header);
/// let mut decoder = Decoder::new(alloc, table, config)?;
/// for packet in packets {
///     if let Some(object) = decoder.decode(packet)? {
///         return Ok(Some(object));
///     }
/// }
/// Ok(None) // more packets are needed
/// ```
#[derive(Debug, PartialEq, Eq, Drop)]
pub struct Decoder {
    config: ObjectTransmissionInformation,
    blocks: Vec<ObjectBlock>,
    alloc: Global,
    pub ghost positive: { 0 < config.symbol_size },
    pub ghost aligned: { IsAligned config },
    pub ghost some: { 0 < config.source_blocks },
    pub ghost numbered: { map (λ b. (received_of b.decoder).number) blocks.items ≡ range_with_len 0 config.source_blocks },
    pub ghost same: { All (λ b. (received_of b.decoder).configuration ≡ config) blocks.items },
    pub ghost cut: { All (λ b. (received_of b.decoder).source_symbols ≡ block_symbols config (received_of b.decoder).number) blocks.items },
}

impl Decoder {
    ghost use Rattle.rq_standard.specs.Cutting.{symbols_before};
    ghost use Rattle.rq_standard.specs.Differences.{AreUnansweredDetermined, IsDifference};
    ghost use Rattle.rq_standard.specs.DecoderState.{IsNewState, result_of};
    ghost use Rattle.std.specs.Option.{option_copied};
    ghost use Rattle.raptorq.specs.BlockBytes.{answered_part};
    ghost use Rattle.raptorq.specs.InTurn.{RecordsPacket, AnswersBlock, JoinsObject, TakesInTurn, DecodesInTurn};
    ghost use Rattle.rq_block.specs.MissingPackets.{NeedsMore};
    ghost use Rattle.raptorq.specs.Unanswered.{TellsMissingOf};
    ghost use Rattle.raptorq.specs.Decoder.{state_of, solving_at, solving_of_blocks, missing_of, IsBlockAt};

    /// The decoder of an object in this configuration, before any packet.
    ///
    /// Refuses what [`ObjectTransmissionInformation::check`] refuses.
    pub fn new(
        alloc: Global,
        table: &SystematicTable,
        config: ObjectTransmissionInformation,
    ) -> Result<Decoder, Error>
        ensures refused { IsAnswer (λ _. tt) result (checked_configuration (greatest_size table.now) config) }
        ensures accepted { OnOk result (IsAccepted (greatest_size table.now) config) }
        ensures state { IfOk result (λ d. IsNewState table.now config (state_of d)) }
        ensures follows { IfOk result (λ d. FollowsRun table.now [] (state_of d)) }
        ensures solving { IfOk result (λ d. solving_of_blocks d ≡ replicate config.source_blocks (unsolved SPARSE_MATRIX_THRESHOLD)) }
    {
        config.check(table)?;
        let mut blocks = Vec::with_capacity(alloc, usize::from(config.source_blocks()))?;
        for number in 0..config.source_blocks() {
            blocks.push(ObjectBlock::new(alloc, table, &config, number))?;
        }
        Ok(Decoder {
            config,
            blocks,
            alloc,
        })
    }

    /// The decoder of an object after a list of packets (RFC 6330, section 5.4). Beside each packet
    /// stands the sparse threshold that is set before it ([`Decoder::set_sparse_threshold`]). Not in the
    /// Rust crate.
    ///
    /// Refuses what [`Decoder::new`] refuses, and then as [`Decoder::add_new_packet`] does, a
    /// contradiction among it: the first refused packet decides. [`Error::OutOfMemory`] may come before
    /// it.
    pub fn receive_all(
        alloc: Global,
        table: &SystematicTable,
        config: ObjectTransmissionInformation,
        steps: Vec<(u32, EncodingPacket)>,
    ) -> Result<Decoder, Error>
        ensures in_order { AnswersRun table.now config (packets_of steps.items) result }
        ensures configuration { IfOk result (λ d. (state_of d).configuration ≡ config) }
        ensures follows { IfOk result (λ d. FollowsRun table.now (packets_of steps.items) (state_of d)) }
        ensures refused { IfErr result (RefusesConfiguration table.now config (packets_of steps.items)) }
    {
        let mut decoder = Decoder::new(alloc, table, config)?;
        for step in steps {
            decoder.set_sparse_threshold(step.0);
            decoder.add_new_packet(step.1)?;
        }
        Ok(decoder)
    }

    /// The configuration that it was made for. Not in the Rust crate.
    pub fn get_config(&self) -> ObjectTransmissionInformation
        ensures { result ≡ (state_of self.now).configuration }
    {
        self.config
    }

    /// Sets the sparse threshold of each block: from how many symbols of an extended source block
    /// (K') on it is solved over a sparse matrix, and not over a dense one. It is
    /// [`SPARSE_MATRIX_THRESHOLD`](crate::encoder::SPARSE_MATRIX_THRESHOLD) at first. What was
    /// received stays, and what was found of it. Whether there is an answer doesn't depend on it, nor
    /// what is answered of an object's packets.
    pub fn set_sparse_threshold(&mut self, value: u32)
        ensures same { state_of self.new ≡ state_of self.old }
        ensures solving { solving_of_blocks self.new ≡ map (with_threshold value) (solving_of_blocks self.old) }
    {
        set_sparse_thresholds(self.blocks.as_mut_slice(), value);
    }

    /// Records a packet, whoever sent it, and answers nothing: [`Decoder::answer_block`] does. An
    /// answered block takes nothing more. Not in the Rust crate.
    ///
    /// Refuses, in this order, [`Error::UnknownBlock`] where the packet's block is none of the
    /// object's, and [`Error::WrongPayloadSize`] where its payload hasn't the size of a symbol. A
    /// packet that is refused changes nothing.
    pub fn record(&mut self, packet: EncodingPacket) -> Result<(), Error>
        ensures { RecordsPacket self.old packet result self.new }
    {
        check_packet(&self.config, &packet)?;
        let number = packet.payload_id().source_block_number();
        self.blocks[usize::from(number)].record(packet)
    }

    /// Answers a source block where all its source symbols were received or what was received
    /// determines it (RFC 6330, section 5.4), and does nothing where it has its answer. Not in the
    /// Rust crate.
    ///
    /// Refuses [`Error::UnknownBlock`] where the block is none of the object's, and
    /// [`Error::Contradiction`] where what was received determines the block and no block fits all of
    /// it. What was received stays then, and where memory is refused; of an answered block nothing is
    /// kept but its bytes.
    pub fn answer_block(&mut self, source_block_number: u8) -> Result<(), Error>
        ensures { AnswersBlock self.old source_block_number result self.new }
    {
        let number = usize::from(source_block_number);
        if number >= self.blocks.len() {
            return Err(Error::UnknownBlock);
        }
        self.blocks[number].find_answer()
    }

    /// Takes a packet: [`Decoder::record`] and then [`Decoder::answer_block`] of its block.
    ///
    /// Refuses what they refuse. Where what was received of a block is contradictory, each later packet
    /// of it is refused so too, and the object is never answered. Packets of one object never
    /// contradict each other.
    ///
    /// Where memory is refused after the packet was recorded, the next packet of its block tries to
    /// answer it again.
    pub fn add_new_packet(&mut self, packet: EncodingPacket) -> Result<(), Error>
        ensures { TakesInTurn self.old packet result self.new }
    {
        let number = packet.payload_id().source_block_number();
        self.record(packet)?;
        self.answer_block(number)
    }

    /// Whether each block is answered, so that [`Decoder::get_result`] has the object, where there is
    /// memory for it. Not in the Rust crate.
    pub fn is_complete(&self) -> bool
        ensures { result ≡ is_some (result_of (state_of self.now)) }
    {
        self.blocks.iter().all(|block| block.answer.is_some())
    }

    /// The object, where each of its blocks is answered.
    pub fn get_result(&self) -> Result<Option<Vec<u8>>, Error>
        ensures { JoinsObject vec_items (state_of self.now) result }
    {
        if !self.is_complete() {
            return Ok(None);
        }
        Ok(Some(self.join()?))
    }

    // The length of the blocks together, in bytes: that of the object and of the zeros behind it.
    fn padded_length(&self) -> usize
        ensures { let c = (state_of self.now).configuration in result ≡ total_symbols c * c.symbol_size }
    {
        (self.config.total_symbols() * u64::from(self.config.symbol_size())) as usize
    }

    // The blocks one after another, without the zeros behind the object.
    fn join(&self) -> Result<Vec<u8>, AllocError>
        requires { IsSome (result_of (state_of self.now)) }
        ensures { IfOk result (λ v. Some v.items ≡ result_of (state_of self.now)) }
    {
        let mut object = Vec::with_capacity(self.alloc, self.padded_length())?;
        for block in &self.blocks {
            if let Some(bytes) = &block.answer {
                object.extend_from_slice(bytes.as_slice())?;
            }
        }
        object.truncate(self.config.transfer_length() as usize);
        Ok(object)
    }

    /// Writes the object over as many bytes as it has: what [`Decoder::get_result`] answers, without
    /// taking memory. Each block is answered, which [`Decoder::is_complete`] tells. Not in the Rust crate.
    pub fn write_result(&self, object: &mut [u8])
        requires complete { IsSome (result_of (state_of self.now)) }
        requires len { length object.old ≡ (state_of self.now).configuration.transfer_length }
        ensures { Some object.new ≡ result_of (state_of self.now) }
    {
        let mut end = 0;
        for number in 0..self.config.source_blocks() {
            if let Some(bytes) = self.block_bytes(number) {
                write_range(object, end, bytes);
                end += bytes.len();
            }
        }
    }

    // The block of a number, where the object has it.
    fn block(&self, number: u8) -> Option<&ObjectBlock>
        ensures at { IsBlockAt (state_of self.now) number (option_copied result) }
        ensures solving { IfSome (option_copied result) (λ b. solving_of b.decoder ≡ solving_at self.now number) }
    {
        self.blocks.get(usize::from(number))
    }

    // How many bytes the object has from the beginning of a block on.
    fn length_from(&self, number: u8) -> usize
        requires { number < (state_of self.now).configuration.source_blocks }
        ensures { let c = (state_of self.now).configuration in result ≡ c.transfer_length - symbols_before c number * c.symbol_size }
    {
        let size = u64::from(self.config.symbol_size());
        let start = symbols_before(&self.config, number) * size;
        self.config.transfer_length().saturating_sub(start) as usize
    }

    /// The object's bytes in a source block (RFC 6330, 4.4.1.2), where the block is answered: lent, and
    /// not copied, without the zeros behind the object. Those of all blocks one after another are the
    /// object (`laws::joined_blocks`). `None` where the block has no answer yet, or is none of the
    /// object's. Not in the Rust crate.
    pub fn block_bytes(&self, source_block_number: u8) -> Option<&[u8]>
        ensures bytes { option_copied result ≡ answered_part (state_of self.now) source_block_number }
        ensures unknown { (state_of self.now).configuration.source_blocks ≤ source_block_number → result ≡ None }
    {
        let Some(block) = self.block(source_block_number) else {
            return None;
        };
        let Some(bytes) = &block.answer else {
            return None;
        };
        let length = self.length_from(source_block_number).min(bytes.len());
        Some(&bytes.as_slice()[..length])
    }

    /// Why the object isn't answered: bytes as long as the object, whose xor with it makes the same
    /// packets as far as they are recorded, zeros in blocks that are answered. `None` where what is
    /// recorded of each block without an answer determines it. Not in the Rust crate.
    pub fn difference(&self) -> Result<Option<Vec<u8>>, Error>
        ensures exactly { IfOk result (λ r. (r ≡ None) ↔ AreUnansweredDetermined (state_of self.now)) }
        ensures bytes { IfOk result (λ r. IfSome (option_map vec_items r) (IsDifference (state_of self.now))) }
        ensures memory { IfErr result (λ e. e ≡ Error.OutOfMemory) }
    {
        let mut bytes = Vec::with_capacity(self.alloc, self.padded_length())?;
        let mut determined = true;
        for block in &self.blocks {
            let column = block.homogeneous()?;
            determined &= column.is_none();
            bytes.extend_from_slice(block.decoder.difference(column.as_deref())?.as_slice())?;
        }
        if determined {
            return Ok(None);
        }
        bytes.truncate(self.config.transfer_length() as usize);
        Ok(Some(bytes))
    }

    /// How many packets more a source block needs at least, of ids that weren't received yet: with
    /// fewer it isn't answered, whichever they are. That is the number of its source symbols (K), less
    /// that of the ids that were received, and 1 where these are K or more and were found not to
    /// determine the block. It is 0 where the block is answered, or where its next packet has it tried
    /// again, as after want of memory. `None` where what was received of it was found to be contradictory.
    /// The Rust crate has no such call.
    ///
    /// Refuses [`Error::UnknownBlock`] where the block is none of the object's.
    pub fn missing_packets(&self, source_block_number: u8) -> Result<Option<u32>, Error>
        ensures known { OnOk result (source_block_number < (state_of self.now).configuration.source_blocks) }
        ensures value { IfOk result (λ r. r ≡ missing_of self.now source_block_number) }
        ensures told { IfOk result (TellsMissingOf ((state_of self.now).received source_block_number) ((state_of self.now).answer source_block_number)) }
        ensures needed { IfOk result (λ r. IfSome r (NeedsMore ((state_of self.now).received source_block_number))) }
        ensures refused { IfErr result (λ e. e ≡ Error.UnknownBlock) }
        ensures unknown { OnErr result ((state_of self.now).configuration.source_blocks ≤ source_block_number) }
    {
        let Some(block) = self.block(source_block_number) else {
            return Err(Error::UnknownBlock);
        };
        Ok(block.missing_packets())
    }

    /// Takes a packet, and answers the object where each of its blocks is answered (RFC 6330, section
    /// 5.4): [`Decoder::add_new_packet`] and then [`Decoder::get_result`].
    ///
    /// Refuses what they refuse. Where memory is refused for the object, the blocks stay answered, and
    /// [`Decoder::get_result`] tries again.
    pub fn decode(&mut self, packet: EncodingPacket) -> Result<Option<Vec<u8>>, Error>
        ensures { DecodesInTurn vec_items self.old packet result self.new }
    {
        self.add_new_packet(packet)?;
        self.get_result()
    }
}

impl Clone for Decoder {
    ghost use Rattle.raptorq.specs.Decoder.{state_of, solving_of_blocks};

    ghost is_clone = { λ a b. (state_of b ≡ state_of a) × (solving_of_blocks b ≡ solving_of_blocks a) };

    fn clone(&self) -> Result<Decoder, AllocError> {
        Ok(Decoder {
            config: self.config,
            blocks: self.blocks.clone()?,
            alloc: self.alloc,
        })
    }
}

// Refuses a packet that isn't of the object: by its block's number, and then by its payload's size.
fn check_packet(
    config: &ObjectTransmissionInformation,
    packet: &EncodingPacket,
) -> Result<(), Error>
    ensures tests { result ≡ packet_refusal config.now packet.now }
    ensures known { OnOk result (packet.now.id.block < config.now.source_blocks) }
    ensures sized { OnOk result (length packet.now.payload ≡ config.now.symbol_size) }
{
    if packet.payload_id().source_block_number() >= config.source_blocks() {
        return Err(Error::UnknownBlock);
    }
    check_size(config, packet)
}

// Sets the sparse threshold of each block.
fn set_sparse_thresholds(blocks: &mut [ObjectBlock], value: u32)
    ensures received { map (λ b. received_of b.decoder) blocks.new ≡ map (λ b. received_of b.decoder) blocks.old }
    ensures answers { map (λ b. option_map vec_items b.answer) blocks.new ≡ map (λ b. option_map vec_items b.answer) blocks.old }
    ensures solving { map (λ b. solving_of b.decoder) blocks.new ≡ map (with_threshold value) (map (λ b. solving_of b.decoder) blocks.old) }
{
    for block in blocks {
        block.decoder.set_sparse_threshold(value);
    }
}

/// What a decoder answers after a list of packets: [`Decoder::receive_all`] and then
/// [`Decoder::get_result`].
///
/// Refuses what they refuse.
pub fn decode_all(
    alloc: Global,
    table: &SystematicTable,
    config: ObjectTransmissionInformation,
    steps: Vec<(u32, EncodingPacket)>,
) -> Result<Option<Vec<u8>>, Error>
    ensures in_order { AnswersRun table.now config (packets_of steps.items) result }
    ensures answer { IfOk result (λ r. IsAnswerAfter table.now config (packets_of steps.items) (option_map vec_items r)) }
    ensures refused { IfErr result (RefusesConfiguration table.now config (packets_of steps.items)) }
    ensures headline { IfOk result (λ r. AnswersExactly table.now config (packets_of steps.items) (option_map vec_items r)) }
    ensures only_object { IfOk result (λ r. AnswersWhereAnyCan table.now config (packets_of steps.items) (option_map vec_items r)) }
{
    let decoder = Decoder::receive_all(alloc, table, config, steps)?;
    decoder.get_result()
}
