//! A plain model of decoders: what is refused, what is kept, whether that determines each block,
//! and whether it contradicts itself.
use raptorq::error::Error;
use raptorq::{EncodingPacket, ObjectTransmissionInformation};
use raptorq_test_kit::ten_symbols::Basis;
use std::alloc::Global;

/// How many source symbols a block of a configuration has (RFC 6330, section 4.4.1.2).
pub fn block_symbols(config: &ObjectTransmissionInformation, number: u8) -> u64 {
    let size = u64::from(config.symbol_size()).max(1);
    let blocks = u64::from(config.source_blocks()).max(1);
    let total = config.transfer_length().div_ceil(size);
    let short = total / blocks;
    if u64::from(number) < total % blocks {
        short.saturating_add(1)
    } else {
        short
    }
}

/// The first refusal of a configuration over the built-in rows.
pub fn configuration_refusal(config: &ObjectTransmissionInformation) -> Option<Error> {
    let size = config.symbol_size();
    let alignment = u16::from(config.symbol_alignment());
    if size == 0 {
        return Some(Error::SymbolSizeZero);
    }
    match size.checked_rem(alignment) {
        None => return Some(Error::AlignmentZero),
        Some(0) => {}
        Some(_) => return Some(Error::Misaligned),
    }
    if config.source_blocks() == 0 {
        return Some(Error::SourceBlocksZero);
    }
    if block_symbols(config, 0) > 497 {
        return Some(Error::BlockOverTable);
    }
    None
}

// What the packets of a block say together.
#[derive(Clone, Copy, PartialEq, Eq, Drop)]
enum Standing {
    // They don't determine the block.
    Undetermined,
    // They determine it, and one block fits them all.
    Answered,
    // They determine it, and no block fits them all.
    Contradictory,
    // There are enough of them, of a block of more than ten symbols.
    Unknown,
}

// What is kept of a block: the ids, and what they determine with their values, five octets of
// them a basis.
#[derive(Drop)]
struct Block {
    source_symbols: u32,
    ids: Vec<u32>,
    bases: Vec<Basis>,
}

impl Block {
    fn new(alloc: Global, source_symbols: u64) -> Block {
        Block {
            source_symbols: u32::try_from(source_symbols).unwrap_or(u32::MAX),
            ids: Vec::new(alloc),
            bases: Vec::new(alloc),
        }
    }

    // Keeps a packet, where it is the first of its id. Answers whether it is.
    fn keep(&mut self, packet: &EncodingPacket) -> Result<bool, Error> {
        let esi = packet.payload_id().encoding_symbol_id();
        if self.ids.contains(&esi) {
            return Ok(false);
        }
        if self.ids.is_empty() {
            self.begin(packet)?;
        }
        self.ids.push(esi)?;
        for (basis, value) in self.bases.iter_mut().zip(packet.data().chunks(5)) {
            basis.add_with_value(self.source_symbols, esi, value);
        }
        Ok(true)
    }

    // Makes the bases that the packets are added to.
    fn begin(&mut self, packet: &EncodingPacket) -> Result<(), Error> {
        if let Some(basis) = Basis::new(self.source_symbols) {
            for _ in packet.data().chunks(5) {
                self.bases.push(basis)?;
            }
        }
        Ok(())
    }

    fn standing(&self) -> Standing {
        if self.ids.len() < self.source_symbols as usize {
            return Standing::Undetermined;
        }
        match self.bases.first() {
            None if self.ids.is_empty() => Standing::Answered,
            None => Standing::Unknown,
            Some(basis) if !basis.is_whole() => Standing::Undetermined,
            Some(_) if self.is_contradictory() => Standing::Contradictory,
            Some(_) => Standing::Answered,
        }
    }

    fn is_contradictory(&self) -> bool {
        self.bases.iter().any(|basis| basis.is_contradictory())
    }
}

/// What a decoder of some blocks of an object holds.
#[derive(Drop)]
pub struct Model {
    config: ObjectTransmissionInformation,
    blocks: Vec<Block>,
    is_honest: bool,
}

impl Model {
    /// Of `count` blocks from the first one on.
    pub fn new(
        alloc: Global,
        config: ObjectTransmissionInformation,
        count: u8,
    ) -> Result<Model, Error> {
        let mut blocks = Vec::new(alloc);
        for number in 0..count {
            blocks.push(Block::new(alloc, block_symbols(&config, number)))?;
        }
        Ok(Model {
            config,
            blocks,
            is_honest: true,
        })
    }

    /// Why a packet is refused, whatever is kept.
    pub fn refusal(&self, packet: &EncodingPacket) -> Option<Error> {
        let number = packet.payload_id().source_block_number();
        if usize::from(number) >= self.blocks.len() {
            return Some(Error::UnknownBlock);
        }
        if packet.data().len() != usize::from(self.config.symbol_size()) {
            return Some(Error::WrongPayloadSize);
        }
        None
    }

    /// Keeps a packet that isn't refused, where it is the first of its id.
    pub fn keep(&mut self, packet: &EncodingPacket, is_honest: bool) -> Result<(), Error> {
        let number = packet.payload_id().source_block_number();
        if let Some(block) = self.blocks.get_mut(usize::from(number)) {
            if block.keep(packet)? {
                self.is_honest &= is_honest;
            }
        }
        Ok(())
    }

    /// Takes a packet that isn't refused as the decoder of the object does, of which an answered
    /// block takes nothing more. Answers how that refuses it, as far as is known.
    pub fn take(
        &mut self,
        packet: &EncodingPacket,
        is_honest: bool,
    ) -> Result<Option<Error>, Error> {
        let number = packet.payload_id().source_block_number();
        if self.standing(number) != Some(Standing::Answered) {
            self.keep(packet, is_honest)?;
        }
        if self.standing(number) == Some(Standing::Contradictory) {
            return Ok(Some(Error::Contradiction));
        }
        Ok(None)
    }

    fn standing(&self, number: u8) -> Option<Standing> {
        let block = self.blocks.get(usize::from(number))?;
        Some(block.standing())
    }

    /// Whether all that is kept is what was sent.
    pub fn is_honest(&self) -> bool {
        self.is_honest
    }

    /// Whether what is kept determines each block and contradicts itself nowhere. `None` where that
    /// isn't known.
    pub fn is_answered(&self) -> Option<bool> {
        let mut answered = Some(true);
        for block in &self.blocks {
            match block.standing() {
                Standing::Answered => {}
                Standing::Undetermined | Standing::Contradictory => return Some(false),
                Standing::Unknown => answered = None,
            }
        }
        answered
    }

    /// Whether what is kept determines a block and contradicts itself there. `None` where that isn't
    /// known.
    pub fn is_contradictory(&self) -> Option<bool> {
        let mut contradictory = Some(false);
        for block in &self.blocks {
            match block.standing() {
                Standing::Answered | Standing::Undetermined => {}
                Standing::Contradictory => return Some(true),
                Standing::Unknown => contradictory = None,
            }
        }
        contradictory
    }
}
