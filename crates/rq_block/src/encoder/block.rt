//! The encoder of one source block.
ghost use Rattle.std.specs.Prelude.{◌≡◌, ◌+◌, ◌-◌, ◌*◌, ◌/◌, ◌^◌, ◌<◌, ◌≤◌, All, length, None, IfOk, IfErr, OnOk, OnErr};
ghost use Rattle.rq_bytes.specs.Refusals.{IsAnswer};
ghost use Rattle.rq_bytes.specs.SymbolSlab.{symbol_in, symbols_in};
ghost use Rattle.rq_standard.specs.Configuration.{IsAligned};
ghost use Rattle.rq_standard.specs.Headline.{IsNonsingular, IsOnlyIntermediateColumn, IsEncodingSymbol};
ghost use Rattle.rq_standard.specs.TableRows.{greatest_size, intermediate_symbols};
ghost use Rattle.rq_block.specs.RefusedBlocks.{wanted_count, repair_refusal, AreWholeSymbols};

use crate::enc::add_encoding_symbol;
use crate::encoder::cache::SourceBlockEncodingPlanCache;
use crate::encoder::plan::SourceBlockEncodingPlan;
use crate::ids::internal_symbol_id;
use crate::sub_blocks::BlockLayout;
use rq_base::base::{
    ENCODING_SYMBOL_IDS, EncodingPacket, ObjectTransmissionInformation, PAYLOAD_ID_LENGTH,
    PayloadId,
};
use rq_bytes::error::Error;
use rq_bytes::symbol_slab::SymbolSlab;
use rq_tables::systematic_constants::{CheckedRow, SystematicTable};
use std::alloc::{AllocError, Global};

/// Makes the packets of one source block of K symbols (RFC 6330, sections 4.4.2 and 5.3).
///
/// ```
/// let mut cache = SourceBlockEncodingPlanCache::new(alloc, table)?; // for all blocks
/// let encoder = SourceBlockEncoder::new(alloc, 0, config, block, &mut cache)?;
/// let mut packets = encoder.source_packets()?; // encoding symbol ids 0 to K - 1
/// packets.append(&mut encoder.repair_packets(0, 5)?)?; // K to K + 4
/// ```
#[derive(Debug, PartialEq, Eq, Drop)]
pub struct SourceBlockEncoder {
    number: u8,
    row: CheckedRow,
    source: SymbolSlab,
    intermediate: SymbolSlab,
    alloc: Global,
    pub ghost nonsingular: { IsNonsingular row.numbers },
    pub ghost unordered: { source.order ≡ None },
    pub ghost few: { length source.values ≤ row.numbers.extended_symbols },
    pub ghost sized: { All (λ symbol. length symbol ≡ intermediate.symbol_size) source.values },
    pub ghost enough: { intermediate_symbols row.numbers ≤ length (symbols_in intermediate) },
    pub ghost solved: { IsOnlyIntermediateColumn row.numbers intermediate.symbol_size source.values (symbol_in intermediate) },
}

impl SourceBlockEncoder {
    ghost use Rattle.rq_base.specs.RefusedInput.{new_id};
    ghost use Rattle.rq_standard.specs.Packet.{id_bytes};
    ghost use Rattle.rq_block.specs.SourceBlockEncoder.{block_encoded_of, IsBlockPacket, AreBlockPackets};
    ghost use Rattle.rq_block.specs.WrittenPackets.{AreStretchBytes, IsFrame, WritesFrame};
    ghost use Rattle.rq_block.specs.BlockData.{block_of, block_by_plan, IsPlanFor, RefusesBlock, RefusesPlanned};
    ghost use Rattle.rq_block.specs.SourceBlockEncodingPlanCache.{after_use};
    ghost use Rattle.rq_block.specs.SourceBlockEncodingPlan.{plan_of};

    /// The encoder of a source block, whose bytes are whole symbols (RFC 6330, section 5.3). Its
    /// plan is the one in the cache, or a new one, which is then put in.
    ///
    /// Refuses, in this order, [`Error::SymbolSizeZero`], [`Error::AlignmentZero`],
    /// [`Error::Misaligned`] where the alignment doesn't divide the symbol size,
    /// [`Error::WrongDataLength`] where the bytes are no whole symbols, [`Error::BlockOverTable`]
    /// where the cache's table has no row for its symbols, and [`Error::Singular`] where that row
    /// doesn't determine the intermediate symbols. After a refusal the cache is as before.
    pub fn new(
        alloc: Global,
        source_block_number: u8,
        config: &ObjectTransmissionInformation,
        block: &[u8],
        cache: &mut SourceBlockEncodingPlanCache,
    ) -> Result<SourceBlockEncoder, Error>
        ensures refused { IfErr result (RefusesBlock cache.old.table config.now (length block.now)) }
        ensures taken { OnOk result (AreWholeSymbols (greatest_size cache.old.table) config.now (length block.now)) }
        ensures encoded { IfOk result (λ b. block_encoded_of b ≡ block_of cache.old.table config.now source_block_number block.now) }
        ensures nonsingular { IfOk result (λ b. IsNonsingular (block_encoded_of b).row) }
        ensures used { OnOk result (cache.new ≡ after_use cache.old (length block.now / config.now.symbol_size)) }
        ensures unchanged { OnErr result (cache.new ≡ cache.old) }
    {
        let count = source_symbol_count(config, block, cache.table())?;
        if let Some(plan) = cache.get(count) {
            let encoder = SourceBlockEncoder::of_block(
                alloc,
                source_block_number,
                config,
                block,
                plan,
            )?;
            return Ok(encoder);
        }
        let plan = SourceBlockEncodingPlan::generate(alloc, cache.table(), count)?;
        let encoder = SourceBlockEncoder::of_block(
            alloc,
            source_block_number,
            config,
            block,
            &plan,
        )?;
        cache.put(plan);
        Ok(encoder)
    }

    /// The encoder of a source block, by a plan of the table's row for its number of source symbols
    /// (RFC 6330, section 5.3).
    ///
    /// Refuses, in this order, [`Error::SymbolSizeZero`], [`Error::AlignmentZero`],
    /// [`Error::Misaligned`] where the alignment doesn't divide the symbol size,
    /// [`Error::WrongDataLength`] where the block isn't whole symbols, [`Error::BlockOverTable`]
    /// where the table has no row for its symbols, and [`Error::PlanMismatch`] where the plan was
    /// made for another number of source symbols or another row.
    pub fn with_encoding_plan(
        alloc: Global,
        source_block_number: u8,
        config: &ObjectTransmissionInformation,
        block: &[u8],
        table: &SystematicTable,
        plan: &SourceBlockEncodingPlan,
    ) -> Result<SourceBlockEncoder, Error>
        ensures refused { IfErr result (RefusesPlanned table.now config.now (length block.now) (plan_of plan.now)) }
        ensures taken { OnOk result (AreWholeSymbols (greatest_size table.now) config.now (length block.now)) }
        ensures fits { OnOk result (IsPlanFor table.now (length block.now / config.now.symbol_size) (plan_of plan.now)) }
        ensures encoded { IfOk result (λ b. block_encoded_of b ≡ block_of table.now config.now source_block_number block.now) }
    {
        let count = source_symbol_count(config, block, table)?;
        let row = table.checked_row(u32::from(count));
        if plan.source_symbol_count() != count || plan.row() != row {
            return Err(Error::PlanMismatch);
        }
        let encoder = SourceBlockEncoder::of_block(
            alloc,
            source_block_number,
            config,
            block,
            plan,
        )?;
        Ok(encoder)
    }

    /// The encoder of these bytes in as many symbols as a plan is for. The bytes may end before the
    /// last symbol does: the rest are zeros (RFC 6330, 4.4.1.2). Bytes behind it aren't read. Not in
    /// the Rust crate.
    pub fn of_block(
        alloc: Global,
        number: u8,
        config: &ObjectTransmissionInformation,
        block: &[u8],
        plan: &SourceBlockEncodingPlan,
    ) -> Result<SourceBlockEncoder, AllocError>
        requires positive { 0 < config.now.symbol_size }
        requires aligned { IsAligned config.now }
        ensures { IfOk result (λ b. block_encoded_of b ≡ block_by_plan (plan_of plan.now) config.now number block.now) }
    {
        let layout = BlockLayout {
            config: *config,
            source_symbols: u32::from(plan.source_symbol_count()),
        };
        let source = layout.symbols_of_block(alloc, block)?;
        let intermediate = plan.intermediate_symbols(alloc, &layout, block)?;
        Ok(SourceBlockEncoder {
            number,
            row: plan.row(),
            source,
            intermediate,
            alloc,
        })
    }

    /// The packets of the source symbols, in their order (RFC 6330, section 4.4.2).
    pub fn source_packets(&self) -> Result<Vec<EncodingPacket>, Error>
        ensures packets { let b = block_encoded_of self.now in IfOk result (λ v. AreBlockPackets b 0 (length b.source) v.items) }
        ensures memory { IfErr result (λ e. e ≡ Error.OutOfMemory) }
    {
        self.packets(0, self.source_symbol_count())
    }

    /// The packets of `packets` repair symbols, from repair symbol `start_repair_symbol` on. Repair
    /// symbol i of a block of K source symbols has the encoding symbol id K + i (RFC 6330, sections
    /// 4.4.2 and 5.3.4).
    ///
    /// Refuses [`Error::EsiTooLarge`] where they would need encoding symbol ids above 2^24 - 1.
    pub fn repair_packets(
        &self,
        start_repair_symbol: u32,
        packets: u32,
    ) -> Result<Vec<EncodingPacket>, Error>
        ensures refused { IsAnswer (λ _. tt) result (repair_refusal (length (block_encoded_of self.now).source) start_repair_symbol packets) }
        ensures packets { let b = block_encoded_of self.now in IfOk result (λ v. AreBlockPackets b (length b.source + start_repair_symbol) packets v.items) }
    {
        if packets == 0 {
            return Ok(Vec::new(self.alloc));
        }
        let start = u64::from(self.source_symbol_count()) + u64::from(start_repair_symbol);
        let end = start + u64::from(packets);
        if end > u64::from(ENCODING_SYMBOL_IDS) {
            return Err(Error::EsiTooLarge);
        }
        self.packets(start as u32, end as u32)
    }

    /// The number of source symbols (K). Not in the Rust crate.
    pub fn source_symbol_count(&self) -> u32
        ensures { result ≡ length (block_encoded_of self.now).source }
    {
        self.source.len() as u32
    }

    /// The packet of an encoding symbol id: below the number of source symbols that of a source
    /// symbol, and else that of a repair symbol (RFC 6330, 4.4.2 and 5.3). Not in the Rust crate.
    ///
    /// Refuses [`Error::EsiTooLarge`] where the id doesn't fit 24 bits.
    pub fn packet(&self, encoding_symbol_id: u32) -> Result<EncodingPacket, Error>
        ensures id { IsAnswer (λ p. p.id) result (new_id (block_encoded_of self.now).number encoding_symbol_id) }
        ensures packet { IfOk result (IsBlockPacket (block_encoded_of self.now)) }
    {
        let id = PayloadId::new(self.number, encoding_symbol_id)?;
        Ok(EncodingPacket::new(id, self.payload(encoding_symbol_id)?))
    }

    /// Writes the packets with the encoding symbol ids from `start` on and before `end` over as many
    /// bytes as they take, each its payload id of 4 bytes and its symbol. Not in the Rust crate.
    pub fn write_packets(&self, start: u32, end: u32, packets: &mut [u8])
        requires order { start ≤ end }
        requires ids { end ≤ 2 ^ 24 }
        requires len { length packets.old ≡ (end - start) * (4 + (block_encoded_of self.now).size) }
        ensures { AreStretchBytes (block_encoded_of self.now) start (end - start) packets.new }
    {
        let len = self.packet_length();
        for esi in start..end {
            let place = (esi - start) as usize * len;
            self.write_packet_at(esi, place, packets);
        }
    }

    /// How many bytes a packet takes: its payload id and its symbol. Not in the Rust crate.
    pub fn packet_length(&self) -> usize
        ensures { result ≡ 4 + (block_encoded_of self.now).size }
    {
        // Of a symbol that is there, whose length is known to be small.
        PAYLOAD_ID_LENGTH + self.intermediate.get(0).len()
    }

    // Writes the packet of an encoding symbol id over the bytes from a place on.
    fn write_packet_at(&self, esi: u32, place: usize, packets: &mut [u8])
        requires id { esi < 2 ^ 24 }
        requires within { place + (4 + (block_encoded_of self.now).size) ≤ length packets.old }
        ensures { WritesFrame (block_encoded_of self.now) esi place packets.old packets.new }
    {
        let end = place + self.packet_length();
        self.write_packet(esi, &mut packets[place..end]);
    }

    /// Writes the packet of an encoding symbol id over as many bytes as it takes. Not in the Rust crate.
    pub fn write_packet(&self, esi: u32, packet: &mut [u8])
        requires id { esi < 2 ^ 24 }
        requires len { length packet.old ≡ 4 + (block_encoded_of self.now).size }
        ensures { IsFrame (block_encoded_of self.now) esi packet.new }
    {
        let (id, symbol) = packet.split_at_mut(PAYLOAD_ID_LENGTH);
        id.copy_from_slice(&self.id_bytes(esi));
        self.write_symbol(esi, symbol);
    }

    // The bytes of the payload id of an encoding symbol id.
    fn id_bytes(&self, esi: u32) -> [u8; PAYLOAD_ID_LENGTH]
        requires { esi < 2 ^ 24 }
        ensures { result ≡ id_bytes (record { block = (block_encoded_of self.now).number; esi = esi }) }
    {
        (u32::from(self.number) * ENCODING_SYMBOL_IDS + esi).to_be_bytes()
    }

    // Writes the payload of an encoding symbol id: a source symbol, or a sum of intermediate symbols.
    fn write_symbol(&self, esi: u32, symbol: &mut [u8])
        requires id { esi < 2 ^ 24 }
        requires len { length symbol.old ≡ (block_encoded_of self.now).size }
        ensures { let b = block_encoded_of self.now in IsEncodingSymbol b.row b.size b.source esi symbol.new }
    {
        if esi < self.source_symbol_count() {
            symbol.copy_from_slice(self.source.get(esi as usize));
            return;
        }
        symbol.fill(0);
        let internal = internal_symbol_id(&self.row, self.source_symbol_count(), esi);
        add_encoding_symbol(&self.row, &self.intermediate, internal, symbol);
    }

    // The payload of an encoding symbol id.
    fn payload(&self, esi: u32) -> Result<Vec<u8>, AllocError>
        requires { esi < 2 ^ 24 }
        ensures { IfOk result (λ v. let b = block_encoded_of self.now in IsEncodingSymbol b.row b.size b.source esi v.items) }
    {
        let mut symbol = vec![in self.alloc; 0u8; self.intermediate.symbol_size()]?;
        self.write_symbol(esi, symbol.as_mut_slice());
        Ok(symbol)
    }

    /// The packets with the encoding symbol ids from `start` on and before `end`. The one error is
    /// [`Error::OutOfMemory`]. Not in the Rust crate.
    pub fn packets(&self, start: u32, end: u32) -> Result<Vec<EncodingPacket>, Error>
        requires order { start ≤ end }
        requires ids { end ≤ 2 ^ 24 }
        ensures packets { IfOk result (λ v. AreBlockPackets (block_encoded_of self.now) start (end - start) v.items) }
        ensures memory { IfErr result (λ e. e ≡ Error.OutOfMemory) }
    {
        let mut packets = Vec::with_capacity(self.alloc, (end - start) as usize)?;
        for esi in start..end {
            packets.push(self.packet(esi)?)?;
        }
        Ok(packets)
    }
}

// How many source symbols bytes are, where a table has a row for them.
fn source_symbol_count(
    config: &ObjectTransmissionInformation,
    block: &[u8],
    table: &SystematicTable,
) -> Result<u16, Error>
    ensures wanted { result ≡ wanted_count (greatest_size table.now) config.now (length block.now) }
    ensures positive { OnOk result (0 < config.now.symbol_size) }
    ensures aligned { OnOk result (IsAligned config.now) }
    ensures count { IfOk result (λ count. count ≡ length block.now / config.now.symbol_size) }
    ensures few { IfOk result (λ count. count ≤ greatest_size table.now) }
{
    config.check_symbols()?;
    let size = usize::from(config.symbol_size());
    if block.len() % size != 0 {
        return Err(Error::WrongDataLength);
    }
    let count = block.len() / size;
    if count > table.greatest() as usize {
        return Err(Error::BlockOverTable);
    }
    Ok(count as u16)
}

impl Clone for SourceBlockEncoder {
    ghost use Rattle.rq_block.specs.SourceBlockEncoder.{block_encoded_of, slabs_of};

    ghost is_clone = { λ a b. (block_encoded_of b ≡ block_encoded_of a) × (slabs_of b ≡ slabs_of a) };

    fn clone(&self) -> Result<SourceBlockEncoder, AllocError> {
        Ok(SourceBlockEncoder {
            number: self.number,
            row: self.row,
            source: self.source.clone()?,
            intermediate: self.intermediate.clone()?,
            alloc: self.alloc,
        })
    }
}
