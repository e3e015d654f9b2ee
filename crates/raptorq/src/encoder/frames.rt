//! An object in, the bytes of its packets out.
ghost use Rattle.std.specs.Prelude.{◌≡◌, ◌<◌, length, Ok, Err, IfOk, IfErr, OnOk, OnErr};
ghost use Rattle.rq_standard.specs.Configuration.{largest_block};
ghost use Rattle.rq_standard.specs.Headline.{HasNonsingularRows};
ghost use Rattle.raptorq.specs.Appended.{AppendsObject, RefusesPackets};
ghost use Rattle.rq_block.specs.AppendedBlock.{KeepsFront};
ghost use Rattle.raptorq.specs.BlockCutting.{AppendsBlocks, RefusesRows};
ghost use Rattle.raptorq.specs.Encoder.{packets_length, packets_refusal};

use crate::blocks::check_repair;
use crate::encoder::blockwise_encoder::BlockwiseEncoder;
use rq_base::base::ObjectTransmissionInformation;
use rq_block::encoder::BorrowedBlock;
use rq_bytes::error::Error;
use rq_tables::systematic_constants::SystematicTable;
use std::alloc::Global;

/// Appends the packets of an object to bytes, each its payload id of 4 bytes and its symbol: those
/// that [`Encoder::get_encoded_packets`](crate::encoder::Encoder::get_encoded_packets) makes, in
/// their order (RFC 6330, 4.4.2 and 5.3). It works on one block after another, so that beside the
/// object and the bytes there are a plan and the intermediate symbols of one block alone. Not in the
/// Rust crate.
///
/// Refuses what [`Encoder::new`](crate::encoder::Encoder::new) refuses, and then [`Error::EsiTooLarge`]
/// where a block would need encoding symbol ids above 2^24 - 1. The bytes are as before then.
pub fn encode_all(
    alloc: Global,
    table: &SystematicTable,
    object: &[u8],
    config: &ObjectTransmissionInformation,
    repair_packets_per_block: u32,
    bytes: &mut Vec<u8>,
) -> Result<(), Error>
    ensures packets { OnOk result (AppendsObject table.now config.now object.now repair_packets_per_block bytes.old.items bytes.new.items) }
    ensures refused { IfErr result (RefusesPackets table.now config.now (length object.now) repair_packets_per_block) }
    ensures kept { OnErr result (bytes.new.items ≡ bytes.old.items) }
{
    config.check(table)?;
    if object.len() as u64 != config.transfer_length() {
        return Err(Error::WrongDataLength);
    }
    let mut blocks = BlockwiseEncoder::new(alloc, table, object, config)?;
    let length = match packets_length(config, repair_packets_per_block) {
        Ok(length) => length,
        Err(refusal) => {
            // A singular row is refused first.
            blocks.check_rows()?;
            return Err(refusal);
        }
    };
    bytes.reserve_exact(length as usize)?;
    let start = bytes.len();
    if let Err(refusal) = append_blocks(blocks, repair_packets_per_block, bytes) {
        bytes.truncate(start);
        return Err(refusal);
    }
    Ok(())
}

// Appends the packets of all blocks of an object.
fn append_blocks(
    mut blocks: BlockwiseEncoder<'_>,
    repair: u32,
    bytes: &mut Vec<u8>,
) -> Result<(), Error>
    requires { packets_refusal blocks.config.now repair ≡ Ok tt }
    ensures packets { OnOk result (AppendsBlocks blocks.entry repair bytes.old.items bytes.new.items) }
    ensures nonsingular { OnOk result (HasNonsingularRows blocks.entry.table.now blocks.entry.config.now) }
    ensures begun { OnErr result (KeepsFront bytes.old.items bytes.new.items) }
    ensures refused { IfErr result (RefusesRows blocks.entry.table.now blocks.entry.config.now) }
{
    let count = blocks.config.source_blocks();
    for number in 0..count {
        let block = blocks.next_block(number)?;
        let borrowed = BorrowedBlock::new(
            blocks.alloc,
            number,
            blocks.config,
            block,
            &blocks.plan,
        )?;
        borrowed.append_packets(borrowed.source_symbol_count() + repair, bytes)?;
    }
    Ok(())
}

/// How many bytes the packets of an object take that [`encode_all`] appends. Not in the Rust crate.
///
/// Refuses [`Error::EsiTooLarge`] where a block would need encoding symbol ids above 2^24 - 1.
pub fn packets_length(
    config: &ObjectTransmissionInformation,
    repair_packets_per_block: u32,
) -> Result<u64, Error>
    requires size { 0 < config.now.symbol_size }
    requires few { largest_block config.now < 65536 }
    requires some { 0 < config.now.source_blocks }
    ensures enough { OnOk result (packets_refusal config.now repair_packets_per_block ≡ Ok tt) }
    ensures length { IfOk result (λ length. length ≡ packets_length config.now repair_packets_per_block) }
    ensures refused { IfErr result (λ e. packets_refusal config.now repair_packets_per_block ≡ Err e) }
{
    check_repair(config, repair_packets_per_block)?;
    // For the proof: a symbol's size fits 16 bits.
    let _size = config.symbol_size();
    let repair_packets = u64::from(config.source_blocks()) * u64::from(repair_packets_per_block);
    Ok((config.total_symbols() + repair_packets) * config.frame_size() as u64)
}
