//! Tables, plans and encoders.
use super::ending;
use raptorq::error::Error;
use raptorq::systematic_constants::SystematicTable;
use raptorq::{
    Encoder, EncodingPacket, ObjectTransmissionInformation, SourceBlockEncoder,
    SourceBlockEncodingPlanCache,
};
use raptorq_test_kit::sequence::bytes;
use rq_memory_kit::Ending;
use std::alloc::Global;

/// A table with a further row.
#[derive(Drop)]
pub struct Rows {
    alloc: Global,
}

impl Rows {
    /// Takes no memory.
    pub fn new(alloc: Global) -> Rows {
        Rows { alloc }
    }

    /// Makes the table.
    pub fn attempt(&self) -> Ending {
        let made = SystematicTable::with_rows(self.alloc, &[(511, 800, 37, 10, 523)]);
        ending(made.map(|table| table.greatest()), &511)
    }
}

/// The encoder of 2006 bytes in packets of 1024, and its packets.
#[derive(Drop)]
pub struct Objects {
    alloc: Global,
    table: SystematicTable,
    object: Vec<u8>,
    encoder: Encoder,
    packets: Vec<EncodingPacket>,
}

impl Objects {
    /// With ample memory.
    pub fn new(alloc: Global) -> Result<Objects, Error> {
        let table = SystematicTable::built_in(alloc)?;
        let object = bytes(alloc, 2006, 7)?;
        let encoder = Encoder::with_defaults(alloc, &table, object.as_slice(), 1024)?;
        let packets = encoder.get_encoded_packets(2)?;
        Ok(Objects {
            alloc,
            table,
            object,
            encoder,
            packets,
        })
    }

    /// Makes the encoder.
    pub fn attempt(&self) -> Ending {
        let object = self.object.as_slice();
        let made = Encoder::with_defaults(self.alloc, &self.table, object, 1024);
        ending(made, &self.encoder)
    }

    /// Makes the packets.
    pub fn attempt_packets(&self) -> Ending {
        ending(self.encoder.get_encoded_packets(2), &self.packets)
    }
}

// A cache of the plans of 2 to 65 symbols.
fn full_cache(alloc: Global) -> Result<SourceBlockEncodingPlanCache, Error> {
    let table = SystematicTable::built_in(alloc)?;
    let mut cache = SourceBlockEncodingPlanCache::new(alloc, &table)?;
    for count in 2..66u16 {
        let _plan = cache.get_or_generate(count)?;
    }
    Ok(cache)
}

// Whether a cache holds the plans of 3 to 65 symbols.
fn holds_later_plans(cache: &SourceBlockEncodingPlanCache) -> bool {
    for count in 3..66u16 {
        if !cache.contains(count) {
            return false;
        }
    }
    true
}

// How a call ended that asked a full cache for the plan of one symbol: only where it answered may
// that plan be held in place of the oldest.
fn cache_ending(ended: Ending, was_held: bool, cache: &SourceBlockEncodingPlanCache) -> Ending {
    let is_held = was_held || ended == Ending::Answered;
    let is_exchanged = cache.contains(1) == is_held && cache.contains(2) != is_held;
    if cache.len() == 64 && is_exchanged && holds_later_plans(cache) {
        ended
    } else {
        Ending::Other
    }
}

/// The encoder of a block of one symbol, over a cache of the plans of 64 other blocks.
#[derive(Drop)]
pub struct Blocks {
    alloc: Global,
    config: ObjectTransmissionInformation,
    cache: SourceBlockEncodingPlanCache,
    encoder: SourceBlockEncoder,
}

const BLOCK: [u8; 5] = [9; 5];

impl Blocks {
    /// With ample memory.
    pub fn new(alloc: Global) -> Result<Blocks, Error> {
        let config = ObjectTransmissionInformation::new(5, 5, 1, 1, 1)?;
        let mut other = full_cache(alloc)?;
        let encoder = SourceBlockEncoder::new(alloc, 0, &config, &BLOCK, &mut other)?;
        Ok(Blocks {
            alloc,
            config,
            cache: full_cache(alloc)?,
            encoder,
        })
    }

    /// Makes the encoder.
    pub fn attempt(&mut self) -> Ending {
        let was_held = self.cache.contains(1);
        let made = SourceBlockEncoder::new(self.alloc, 0, &self.config, &BLOCK, &mut self.cache);
        cache_ending(ending(made, &self.encoder), was_held, &self.cache)
    }
}

/// The plan of one symbol, from a cache of 64 others.
#[derive(Drop)]
pub struct Plans {
    cache: SourceBlockEncodingPlanCache,
}

impl Plans {
    /// With ample memory.
    pub fn new(alloc: Global) -> Result<Plans, Error> {
        Ok(Plans {
            cache: full_cache(alloc)?,
        })
    }

    /// Asks for the plan.
    pub fn attempt(&mut self) -> Ending {
        let was_held = self.cache.contains(1);
        let lent = self.cache.get_or_generate(1).map(|_| ());
        cache_ending(ending(lent, &()), was_held, &self.cache)
    }
}
