//! The decoder of one source block.
ghost use Rattle.std.specs.Prelude.{◌≡◌, ◌≢◌, ℕ, ◌*◌, ◌^◌, ◌<◌, ◌≤◌, true, All, length, Ok, Some, IfSome, IfOk, IfErr, OnOk, OnErr, option_map, vec_items};
ghost use Rattle.std.specs.Option.{ForSome, option_copied};
ghost use Rattle.rq_bytes.specs.Refusals.{IsAnswer};
ghost use Rattle.rq_standard.specs.Configuration.{IsAligned};
ghost use Rattle.rq_standard.specs.ReceivedBlock.{CanAnswer, IsContradictory};
ghost use Rattle.rq_block.specs.Known.{IsHomogeneousOf};
ghost use Rattle.rq_block.specs.Payloads.{received_block, payload_of, has_payload, missing_count};
ghost use Rattle.rq_block.specs.declared.decoder.last_outcome.LastOutcome.TheVariants.{Undetermined, Contradictory};

use crate::decoder::columns::{keep_where_it_solves, octet_symbols};
use crate::decoder::known::known_symbol_ids;
use crate::decoder::last_outcome::LastOutcome;
use crate::decoder::payloads::{check_size, keep_first};
use crate::decoder::source_symbols::SourceSymbols;
use crate::enc::encoding_symbol;
use crate::encoder::SPARSE_MATRIX_THRESHOLD;
use crate::solving::homogeneous;
use crate::sub_blocks::{BlockLayout, sub_block_size};
use rq_base::base::{EncodingPacket, ObjectTransmissionInformation};
use rq_bytes::error::Error;
use rq_bytes::octets;
use rq_tables::systematic_constants::{CheckedRow, SystematicTable};
use std::alloc::{AllocError, Global};
use std::collections::BTreeMap;

mod solved;

/// Puts one source block together again from its packets (RFC 6330, section 5.4). Once solving has
/// failed it keeps an octet for each intermediate symbol, which show that what was received doesn't
/// determine the block, so that packets that decide nothing aren't solved for.
///
/// ```
/// let mut decoder = SourceBlockDecoder::new(alloc, table, 0, config, 160)?; // block 0, of 160 bytes
/// Ok(decoder.decode(packets)?) // `None` until its packets determine the block
/// ```
#[derive(Drop)]
#[derive_where(Debug, PartialEq, Eq)]
pub struct SourceBlockDecoder {
    config: ObjectTransmissionInformation,
    number: u8,
    row: CheckedRow,
    source_symbols: u32,
    received: BTreeMap<u32, Vec<u8>>,
    missing_symbols: u32,
    sparse_threshold: u32,
    #[derive_where(skip)]
    last_outcome: LastOutcome,
    // Shows that what was received doesn't determine the block, so that a packet whose equation it
    // solves too isn't solved for. `None` says nothing.
    #[derive_where(skip)]
    column: Option<Vec<u8>>,
    alloc: Global,
    pub ghost sized: { (e : ℕ) → ForSome (payload_of received e) (λ payload. length payload ≡ config.symbol_size) },
    pub ghost bytes: { (e : ℕ) → ForSome (payload_of received e) (All (λ octet. octet < 256)) },
    pub ghost positive: { 0 < config.symbol_size },
    pub ghost aligned: { IsAligned config },
    pub ghost fits: { source_symbols ≤ row.numbers.extended_symbols },
    pub ghost few: { (e : ℕ) → has_payload received e ≡ true → e < 2 ^ 24 },
    pub ghost counted: { missing_symbols ≡ missing_count source_symbols (has_payload received) },
    pub ghost waits: { last_outcome ≡ Undetermined → ¬ CanAnswer (received_block config number row.numbers source_symbols received) },
    pub ghost shown: { ForSome column (IsHomogeneousOf row.numbers source_symbols (has_payload received)) },
    pub ghost contradicted: { last_outcome ≡ Contradictory → IsContradictory (received_block config number row.numbers source_symbols received) },
}

impl SourceBlockDecoder {
    ghost use Rattle.std.specs.Int.{div_ceil};
    ghost use Rattle.rq_block.specs.Difference.{octets_of_column};
    ghost use Rattle.rq_standard.specs.ReceivedBlock.{has_received, nothing_received, with_received, ShowsUndetermined, IsBlockWith, IsBlockAnswer};
    ghost use Rattle.rq_standard.specs.Received.{HasSourceSymbols};
    ghost use Rattle.rq_standard.specs.DecoderSteps.{emptied};
    ghost use Rattle.rq_standard.specs.TableRows.{greatest_size, intermediate_symbols};
    ghost use Rattle.rq_block.specs.RefusedBlocks.{checked_block, block_refusal};
    ghost use Rattle.rq_block.specs.SourceBlockDecoder.{received_of, solving_of, solving_after, with_threshold, unsolved, empty_block};
    ghost use Rattle.rq_block.specs.Decoding.{OverPackets, Decodes, AnswersReceived, IsUnanswered};
    ghost use Rattle.rq_block.specs.MissingPackets.{NeedsMore, TellsMissing, missing_after};
    ghost use Rattle.std.specs.Iterator.{IsFinite};

    /// The decoder of the source block with this number, of this length in bytes, that holds
    /// nothing yet. It has as many source symbols as cover the length.
    ///
    /// Refuses, in this order, [`Error::SymbolSizeZero`], [`Error::AlignmentZero`],
    /// [`Error::Misaligned`] where the alignment doesn't divide the symbol size, and
    /// [`Error::BlockOverTable`] where the block would have more source symbols than the table's
    /// greatest row.
    pub fn new(
        alloc: Global,
        table: &SystematicTable,
        number: u8,
        config: &ObjectTransmissionInformation,
        block_length: u64,
    ) -> Result<SourceBlockDecoder, Error>
        ensures refused { IfErr result (λ e. checked_block (greatest_size table.now) config.now (div_ceil block_length config.now.symbol_size) ≡ Err e) }
        ensures taken { OnOk result (checked_block (greatest_size table.now) config.now (div_ceil block_length config.now.symbol_size) ≡ Ok tt) }
        ensures empty { IfOk result (λ d. received_of d ≡ empty_block table.now config.now number (div_ceil block_length config.now.symbol_size)) }
        ensures solving { IfOk result (λ d. solving_of d ≡ unsolved SPARSE_MATRIX_THRESHOLD) }
    {
        config.check_symbols()?;
        let source_symbols = block_length.div_ceil(u64::from(config.symbol_size()));
        if source_symbols > u64::from(table.greatest()) {
            return Err(Error::BlockOverTable);
        }
        Ok(SourceBlockDecoder::of_symbols(alloc, table, number, config, source_symbols as u32))
    }

    /// The decoder of a block of `source_symbols` symbols (K) that holds nothing yet. Not in the Rust
    /// crate.
    pub fn of_symbols(
        alloc: Global,
        table: &SystematicTable,
        number: u8,
        config: &ObjectTransmissionInformation,
        source_symbols: u32,
    ) -> SourceBlockDecoder
        requires positive { 0 < config.now.symbol_size }
        requires aligned { IsAligned config.now }
        requires in_table { source_symbols ≤ greatest_size table.now }
        ensures empty { received_of result ≡ empty_block table.now config.now number source_symbols }
        ensures solving { solving_of result ≡ unsolved SPARSE_MATRIX_THRESHOLD }
    {
        let row = table.checked_row(source_symbols);
        SourceBlockDecoder::of_row(alloc, row, number, config, source_symbols)
    }

    // The decoder of a block over its row of the table.
    fn of_row(
        alloc: Global,
        row: CheckedRow,
        number: u8,
        config: &ObjectTransmissionInformation,
        source_symbols: u32,
    ) -> SourceBlockDecoder
        requires positive { 0 < config.now.symbol_size }
        requires aligned { IsAligned config.now }
        requires fits { source_symbols ≤ row.numbers.extended_symbols }
        ensures empty { received_of result ≡ nothing_received config.now number row.numbers source_symbols }
        ensures solving { solving_of result ≡ unsolved SPARSE_MATRIX_THRESHOLD }
    {
        SourceBlockDecoder {
            config: *config,
            number,
            row,
            source_symbols,
            received: BTreeMap::new(alloc),
            missing_symbols: source_symbols,
            sparse_threshold: SPARSE_MATRIX_THRESHOLD,
            last_outcome: LastOutcome::Untried,
            column: None,
            alloc,
        }
    }

    /// Sets the sparse threshold: from how many symbols of an extended source block (K') on the block
    /// is solved over a sparse matrix, and not over a dense one. It is
    /// [`SPARSE_MATRIX_THRESHOLD`](crate::encoder::SPARSE_MATRIX_THRESHOLD) at first. What was
    /// received stays, and what the last attempt found. Whether there is an answer doesn't depend on
    /// it, nor what is answered of an object's packets.
    pub fn set_sparse_threshold(&mut self, value: u32)
        ensures same { received_of self.new ≡ received_of self.old }
        ensures solving { solving_of self.new ≡ with_threshold value (solving_of self.old) }
    {
        self.sparse_threshold = value;
    }

    /// The number of source symbols (K). Not in the Rust crate.
    pub fn source_symbol_count(&self) -> u32
        ensures { result ≡ (received_of self.now).source_symbols }
    {
        self.source_symbols
    }

    /// The size of a symbol, in bytes. Not in the Rust crate.
    pub fn symbol_size(&self) -> usize
        ensures value { result ≡ (received_of self.now).configuration.symbol_size }
        ensures below { result < 65536 }
    {
        usize::from(self.config.symbol_size())
    }

    /// The length of its source symbols together, in bytes.
    pub(crate) fn length(&self) -> usize
        ensures { let h = received_of self.now in result ≡ h.source_symbols * h.configuration.symbol_size }
    {
        self.source_symbols as usize * self.symbol_size()
    }

    /// Takes packets until one is refused, and answers the block where all its source symbols were
    /// received or what was received determines it (RFC 6330, section 5.4).
    ///
    /// Refuses, in this order, [`Error::UnknownBlock`] where a packet is of another block, and
    /// [`Error::WrongPayloadSize`] where its payload hasn't the size of a symbol. The packets
    /// before it stay recorded, and the rest isn't taken. The first payload of an encoding symbol
    /// id is kept.
    ///
    /// Refuses [`Error::Contradiction`] where what was received determines the block and no block
    /// fits all of it. The packets stay recorded, and each later call whose packets pass these
    /// tests is refused so too.
    pub fn decode<I: IntoIterator<Item = EncodingPacket>>(
        &mut self,
        packets: I,
    ) -> Result<Option<Vec<u8>>, Error>
        requires { (it : I.IntoIter) → I.into_iter_gives packets it → I.IntoIter.can_next it × IsFinite (I.IntoIter.remaining it) }
        ensures { OverPackets I.into_iter_gives packets (λ it ps. Decodes I.IntoIter.next_gives it vec_items self.old ps result self.new) }
    {
        for packet in packets {
            self.add(packet)?;
        }
        self.answer()
    }

    /// An octet for each intermediate symbol, not all of them zero, that together solve the block's
    /// equations with all values zero: those of LDPC and HDPC, of the padding, and of what was
    /// received (RFC 6330, section 5.4.2). `None` exactly where what was received determines the
    /// block. The Rust crate has no such call.
    pub fn homogeneous(&self) -> Result<Option<Vec<u8>>, Error>
        ensures shown { IfOk result (λ answer. ShowsUndetermined (received_of self.now) (option_map vec_items answer)) }
        ensures memory { IfErr result (λ e. e ≡ Error.OutOfMemory) }
    {
        let ids = known_symbol_ids(self.alloc, &self.row, self.source_symbols, &self.received)?;
        homogeneous(self.alloc, &self.row, ids.as_slice(), self.sparse_threshold)
    }

    /// How many packets more the block needs at least, of ids that weren't received yet: with fewer it
    /// isn't answered, whichever they are. That is the number of its source symbols (K), less that of
    /// the ids that were received, and 1 where these are K or more and were found not to determine the
    /// block. It is 0 where the block is answered, or where the next call of
    /// [`SourceBlockDecoder::decode`] tries it again, as after a refusal. `None` where what was received
    /// was found to be contradictory. The Rust crate has no such call.
    pub fn missing_packets(&self) -> Option<u32>
        ensures value { result ≡ missing_after (solving_of self.now).last_outcome (received_of self.now) }
        ensures told { TellsMissing (received_of self.now) result }
        ensures needed { IfSome result (NeedsMore (received_of self.now)) }
    {
        let source_symbols = self.source_symbols as usize;
        let missing = source_symbols.saturating_sub(self.received.len()) as u32;
        match self.last_outcome {
            LastOutcome::Untried => Some(missing),
            LastOutcome::Undetermined => Some(missing.max(1)),
            LastOutcome::Contradictory => None,
        }
    }

    /// Tests a packet, which is recorded where nothing is refused. Not in the Rust crate.
    ///
    /// Refuses, in this order, [`Error::UnknownBlock`] where the packet is of another block, and
    /// [`Error::WrongPayloadSize`] where its payload hasn't the size of a symbol.
    pub fn check(&self, packet: &EncodingPacket) -> Result<(), Error>
        ensures { result ≡ block_refusal (received_of self.now) packet.now }
    {
        if packet.payload_id().source_block_number() != self.number {
            return Err(Error::UnknownBlock);
        }
        check_size(&self.config, packet)
    }

    // Tests a packet and records it.
    fn add(&mut self, packet: EncodingPacket) -> Result<(), Error>
        ensures tested { IsAnswer (λ _. tt) result (block_refusal (received_of self.old) packet) }
        ensures ok { OnOk result (received_of self.new ≡ with_received (received_of self.old) packet.id.esi packet.payload) }
        ensures err { OnErr result (received_of self.new ≡ received_of self.old) }
        ensures solving { OnOk result (solving_of self.new ≡ solving_after (received_of self.old) packet.id.esi (solving_of self.old)) }
        ensures kept { OnErr result (solving_of self.new ≡ solving_of self.old) }
    {
        self.check(&packet)?;
        self.record(packet)?;
        Ok(())
    }

    /// Records the payload of a packet of the block, unless one of its id was received before. Where
    /// memory is refused, nothing has changed. Not in the Rust crate.
    pub fn record(&mut self, packet: EncodingPacket) -> Result<(), AllocError>
        requires { block_refusal (received_of self.old) packet ≡ Ok tt }
        ensures ok { OnOk result (received_of self.new ≡ with_received (received_of self.old) packet.id.esi packet.payload) }
        ensures solving { OnOk result (solving_of self.new ≡ solving_after (received_of self.old) packet.id.esi (solving_of self.old)) }
        ensures err { OnErr result (received_of self.new ≡ received_of self.old) }
        ensures kept { OnErr result (solving_of self.new ≡ solving_of self.old) }
    {
        let (id, payload) = packet.split();
        let esi = id.encoding_symbol_id();
        let is_source = esi < self.source_symbols;
        // For the proof: the payload's bytes are octets.
        octets::are_octets(payload.as_slice());
        let kept = keep_first(&mut self.received, esi, payload)?;
        if kept {
            self.missing_symbols -= u32::from(is_source);
            self.last_outcome = self.last_outcome.after_new_payload();
            keep_where_it_solves(&self.row, self.source_symbols, &mut self.column, esi);
        }
        Ok(())
    }

    /// Lets what was received go, once the block is answered, and what was found of it. The sparse
    /// threshold stays. Not in the Rust crate.
    pub fn forget(&mut self)
        ensures emptied { received_of self.new ≡ emptied (received_of self.old) }
        ensures solving { solving_of self.new ≡ unsolved (solving_of self.old).sparse_threshold }
    {
        let sparse_threshold = self.sparse_threshold;
        *self = SourceBlockDecoder::of_row(
            self.alloc,
            self.row,
            self.number,
            &self.config,
            self.source_symbols,
        );
        self.sparse_threshold = sparse_threshold;
    }

    /// The block, where all its source symbols were received or what was received determines it. What
    /// is recorded stays as it is. What was found to be contradictory, or not to determine the block,
    /// isn't solved again: memory is refused only where nothing is remembered. Not in the Rust crate.
    ///
    /// Refuses [`Error::Contradiction`] where no block fits all that was received.
    pub fn answer(&mut self) -> Result<Option<Vec<u8>>, Error>
        ensures { AnswersReceived vec_items self.old result self.new }
    {
        match self.last_outcome {
            LastOutcome::Undetermined => return Ok(None),
            LastOutcome::Contradictory => return Err(Error::Contradiction),
            LastOutcome::Untried => {}
        }
        let answer = self.find_answer();
        self.last_outcome = LastOutcome::of(&answer);
        answer
    }

    // The block, where all its source symbols were received or what was received determines it: solved
    // whatever was found before.
    fn find_answer(&mut self) -> Result<Option<Vec<u8>>, Error>
        ensures block { IfOk result (λ r. IsBlockAnswer (received_of self.old) (option_map vec_items r)) }
        ensures same { received_of self.new ≡ received_of self.old }
        ensures solving { solving_of self.new ≡ solving_of self.old }
        ensures unanswered { IfErr result (IsUnanswered (received_of self.old)) }
    {
        let all = self.missing_symbols == 0;
        // K source symbols alone can't be contradictory.
        if all && self.received.len() == self.source_symbols as usize {
            return Ok(Some(self.join_source()?));
        }
        match self.solve()? {
            Some(intermediate) => Ok(Some(self.rebuild(intermediate)?)),
            // Over a singular row they may not determine the block, and are it all the same.
            None if all => Ok(Some(self.join_source()?)),
            None => Ok(None),
        }
    }

    /// How the block is cut.
    pub(crate) fn layout(&self) -> BlockLayout
        ensures config { result.config ≡ (received_of self.now).configuration }
        ensures source_symbols { result.source_symbols ≡ (received_of self.now).source_symbols }
    {
        BlockLayout {
            config: self.config,
            source_symbols: self.source_symbols,
        }
    }

    // The block, from its source symbols alone, all of which were received.
    fn join_source(&self) -> Result<Vec<u8>, AllocError>
        requires { HasSourceSymbols (received_of self.now).source_symbols (has_received (received_of self.now)) }
        ensures { IfOk result (λ block. IsBlockWith (received_of self.now) block.items) }
    {
        let room = Vec::with_capacity(self.alloc, self.length())?;
        let lost = BTreeMap::new(self.alloc);
        let symbols = SourceSymbols {
            received: &self.received,
            lost: &lost,
        };
        self.layout().block_of_symbols(&symbols, room)
    }

    /// The block, in bytes, whose symbols begin with the octets that a column has for them, and go on
    /// with zeros. The column has an octet for each of the L intermediate symbols. Without one all of the
    /// block is zeros. Not in the Rust crate.
    pub fn difference(&self, column: Option<&[u8]>) -> Result<Vec<u8>, AllocError>
        requires { IfSome column (λ xs. length xs.now ≡ intermediate_symbols (received_of self.now).row) }
        ensures { IfOk result (λ block. block.items ≡ octets_of_column (received_of self.now) (option_copied column.entry)) }
    {
        match column {
            Some(octets) => self.first_octets(octets),
            None => Ok(vec![in self.alloc; 0u8; self.length()]?),
        }
    }

    // The block whose symbols have these first octets.
    fn first_octets(&self, column: &[u8]) -> Result<Vec<u8>, AllocError>
        requires { length column.now ≡ intermediate_symbols (received_of self.now).row }
        ensures { IfOk result (λ block. block.items ≡ octets_of_column (received_of self.now) (Some column.now)) }
    {
        let octets = octet_symbols(self.alloc, column)?;
        let mut block = vec![in self.alloc; 0u8; self.length()]?;
        let width = sub_block_size(&self.config, 0);
        for e in 0..self.source_symbols {
            let octet = encoding_symbol(self.alloc, &self.row, &octets, e)?;
            block[e as usize * width] = octet[0];
        }
        Ok(block)
    }
}

impl Clone for SourceBlockDecoder {
    ghost use Rattle.rq_block.specs.SourceBlockDecoder.{received_of, solving_of};

    ghost is_clone = { λ a b. (received_of b ≡ received_of a) × (solving_of b ≡ solving_of a) };

    fn clone(&self) -> Result<SourceBlockDecoder, AllocError> {
        Ok(SourceBlockDecoder {
            config: self.config,
            number: self.number,
            row: self.row,
            source_symbols: self.source_symbols,
            received: self.received.clone()?,
            missing_symbols: self.missing_symbols,
            sparse_threshold: self.sparse_threshold,
            last_outcome: self.last_outcome,
            // Not copied: it takes memory, `==` doesn't see it, and solving finds it again.
            column: None,
            alloc: self.alloc,
        })
    }
}
