//! The object transmission information (RFC 6330, 3.3.2 and 3.3.3).
ghost use Rattle.std.specs.Prelude.{◌≡◌, ◌*◌, ◌%◌, ◌^◌, ◌<◌, OnOk, slice_index};
ghost use Rattle.rq_standard.specs.Configuration.{Configuration, IsConfiguration, IsAccepted, IsAligned, total_symbols, largest_block, header_bytes, configuration_of_bytes};
ghost use Rattle.rq_standard.specs.Streams.{frame_size};
ghost use Rattle.rq_standard.specs.TableRows.{greatest_size};
ghost use Rattle.std.specs.Int.{div_ceil};
ghost use Rattle.rq_base.specs.RefusedInput.{checked_alignment};

use super::packet::PAYLOAD_ID_LENGTH;
use rq_bytes::error::Error;
use rq_tables::systematic_constants::{MAX_SOURCE_SYMBOLS_PER_BLOCK, SystematicTable};
use std::marker::Model;

mod parameters;

pub use parameters::DEFAULT_DECODER_MEMORY;

// The greatest transfer length, in bytes: 65535 bytes in each of 56403 symbols of 255 blocks.
const MAX_TRANSFER_LENGTH: u64 = 942574504275;

/// How many bytes a configuration has as it is sent: 8 of the common part and 4 of that of the scheme
/// (RFC 6330, 3.3.2 and 3.3.3). Not in the Rust crate.
pub const CONFIGURATION_LENGTH: usize = 12;

/// What encoder and decoder both know of an object: its length F, and how it is cut, by the symbol
/// size T, the number of source blocks Z, that of sub-blocks N and the alignment Al (RFC 6330,
/// sections 3.3.2 and 3.3.3).
///
/// ```
/// let config = ObjectTransmissionInformation::with_defaults(table, 5000, 100)?;
/// let header = config.serialize();
/// let back = ObjectTransmissionInformation::deserialize(&header);
/// back.check(table)?; // whatever twelve bytes arrive
/// ```
#[derive(Clone, Copy, Debug, PartialEq, Eq, PartialOrd, Ord, Hash)]
pub struct ObjectTransmissionInformation {
    transfer_length: u64,
    symbol_size: u16,
    num_source_blocks: u8,
    num_sub_blocks: u16,
    symbol_alignment: u8,
}

impl Model for ObjectTransmissionInformation {
    ghost use Rattle.rq_standard.specs.Configuration.{Configuration, IsConfiguration};

    ghost Value = { Configuration };

    ghost use Rattle.rq_base.specs.ObjectTransmissionInformation.{information_inside, information_view};

    ghost view = { information_view };

    ghost invariant = { λ i. IsConfiguration (information_view i) };

    ghost inverse = { information_inside };
}

impl ObjectTransmissionInformation {
    ghost use Rattle.rq_base.specs.RefusedInput.{configuration_of, new_configuration, checked_configuration, checked_symbols};

    /// A configuration: the transfer length in bytes, the symbol size in bytes, the number of
    /// source blocks, the number of sub-blocks (0 is read as 1) and the symbol alignment in bytes.
    ///
    /// Refuses, in this order, [`Error::TransferTooLong`] above 942574504275 bytes,
    /// [`Error::AlignmentZero`], [`Error::Misaligned`] where the alignment doesn't divide the
    /// symbol size, and [`Error::TooManySymbols`] where a block would have more than 56403 source
    /// symbols. It takes a symbol size of 0 and no source blocks, which
    /// [`ObjectTransmissionInformation::check`] refuses.
    pub fn new(
        transfer_length: u64,
        symbol_size: u16,
        source_blocks: u8,
        sub_blocks: u16,
        alignment: u8,
    ) -> Result<ObjectTransmissionInformation, Error>
        ensures { result ≡ new_configuration (configuration_of transfer_length symbol_size source_blocks sub_blocks alignment) }
    {
        if transfer_length > MAX_TRANSFER_LENGTH {
            return Err(Error::TransferTooLong);
        }
        check_alignment(symbol_size, alignment)?;
        let made = ObjectTransmissionInformation {
            transfer_length,
            symbol_size,
            num_source_blocks: source_blocks,
            num_sub_blocks: sub_blocks,
            symbol_alignment: alignment,
        };
        let most = u64::from(MAX_SOURCE_SYMBOLS_PER_BLOCK);
        if symbol_size != 0 && source_blocks != 0 && made.largest_block() > most {
            return Err(Error::TooManySymbols);
        }
        Ok(made)
    }

    /// Tests that coders can take the configuration over a table.
    ///
    /// Refuses, in this order, [`Error::SymbolSizeZero`], [`Error::AlignmentZero`],
    /// [`Error::Misaligned`] where the alignment doesn't divide the symbol size,
    /// [`Error::SourceBlocksZero`], and [`Error::BlockOverTable`] where a block would have more
    /// source symbols than the table's greatest row.
    pub fn check(&self, table: &SystematicTable) -> Result<(), Error>
        ensures refused { result ≡ checked_configuration (greatest_size table.now) self.now }
        ensures accepted { OnOk result (IsAccepted (greatest_size table.now) self.now) }
        ensures few { OnOk result (largest_block self.now < 65536) }
    {
        self.check_symbols()?;
        if self.num_source_blocks == 0 {
            return Err(Error::SourceBlocksZero);
        }
        if self.largest_block() > u64::from(table.greatest()) {
            return Err(Error::BlockOverTable);
        }
        Ok(())
    }

    /// Tests that symbols are cut in whole units of the alignment. Not in the Rust crate.
    ///
    /// Refuses, in this order, [`Error::SymbolSizeZero`], [`Error::AlignmentZero`], and
    /// [`Error::Misaligned`] where the alignment doesn't divide the symbol size.
    pub fn check_symbols(&self) -> Result<(), Error>
        ensures refused { result ≡ checked_symbols self.now }
        ensures positive { OnOk result (0 < self.now.symbol_size) }
        ensures aligned { OnOk result (IsAligned self.now) }
    {
        if self.symbol_size == 0 {
            return Err(Error::SymbolSizeZero);
        }
        check_alignment(self.symbol_size, self.symbol_alignment)
    }

    /// The configuration that twelve bytes spell, most significant byte first: five of transfer
    /// length, a reserved one that is ignored, two of symbol size, one of source blocks, two of
    /// sub-blocks, one of alignment (RFC 6330, sections 3.3.2 and 3.3.3).
    #[tactic(auto, unfolding(rq_standard::specs::Configuration::configuration_of_bytes))]
    pub fn deserialize(bytes: &[u8; CONFIGURATION_LENGTH]) -> ObjectTransmissionInformation
        ensures { result ≡ configuration_of_bytes bytes.now }
    {
        ObjectTransmissionInformation {
            transfer_length: u64::from_be_bytes([
                0, 0, 0, bytes[0], bytes[1], bytes[2], bytes[3], bytes[4],
            ]),
            symbol_size: u16::from_be_bytes([bytes[6], bytes[7]]),
            num_source_blocks: bytes[8],
            num_sub_blocks: u16::from_be_bytes([bytes[9], bytes[10]]),
            symbol_alignment: bytes[11],
        }
    }

    /// The twelve bytes that spell the configuration; the reserved one is 0 (RFC 6330, sections
    /// 3.3.2 and 3.3.3).
    #[tactic(auto, unfolding(rq_standard::specs::Configuration::header_bytes))]
    pub fn serialize(&self) -> [u8; CONFIGURATION_LENGTH]
        ensures value { result ≡ header_bytes self.now }
        ensures read { configuration_of_bytes result ≡ self.now }
        ensures reserved { slice_index result 5 ≡ 0 }
    {
        let length = self.transfer_length.to_be_bytes();
        let size = self.symbol_size.to_be_bytes();
        let sub_blocks = self.num_sub_blocks.to_be_bytes();
        [
            length[3],
            length[4],
            length[5],
            length[6],
            length[7],
            0,
            size[0],
            size[1],
            self.num_source_blocks,
            sub_blocks[0],
            sub_blocks[1],
            self.symbol_alignment,
        ]
    }

    /// Kt: the number of source symbols of the object, F divided by T and rounded up (RFC 6330,
    /// section 4.4.1.2).
    pub fn total_symbols(&self) -> u64
        requires { 0 < self.now.symbol_size }
        ensures value { result ≡ total_symbols self.now }
        ensures bytes { result * self.now.symbol_size < 2 ^ 41 }
    {
        total_symbols(self.transfer_length, self.symbol_size)
    }

    /// The number of source symbols of the largest source block, which is the first (RFC 6330,
    /// section 4.4.1.2).
    pub fn largest_block(&self) -> u64
        requires size { 0 < self.now.symbol_size }
        requires blocks { 0 < self.now.source_blocks }
        ensures { result ≡ largest_block self.now }
    {
        self.total_symbols()
            .div_ceil(u64::from(self.num_source_blocks))
    }

    /// F: the length of the object, in bytes (RFC 6330, section 3.3.2).
    pub fn transfer_length(&self) -> u64
        ensures value { result ≡ self.now.transfer_length }
        ensures fits { IsConfiguration self.now }
    {
        self.transfer_length
    }

    /// T: the size of a symbol, in bytes (RFC 6330, section 3.3.2).
    pub fn symbol_size(&self) -> u16
        ensures { result ≡ self.now.symbol_size }
    {
        self.symbol_size
    }

    /// The length of a frame, in bytes: a payload id and a symbol. Not in the Rust crate.
    pub fn frame_size(&self) -> usize
        ensures { result ≡ frame_size self.now }
    {
        PAYLOAD_ID_LENGTH + usize::from(self.symbol_size)
    }

    /// Z: the number of source blocks (RFC 6330, section 3.3.3).
    pub fn source_blocks(&self) -> u8
        ensures { result ≡ self.now.source_blocks }
    {
        self.num_source_blocks
    }

    /// N: the number of sub-blocks in each source block; 0 is read as 1 (RFC 6330, section 3.3.3).
    pub fn sub_blocks(&self) -> u16
        ensures { result ≡ self.now.sub_blocks }
    {
        self.num_sub_blocks
    }

    /// Al: the symbol alignment, in bytes, of which T is a multiple (RFC 6330, section 3.3.3).
    pub fn symbol_alignment(&self) -> u8
        ensures { result ≡ self.now.alignment }
    {
        self.symbol_alignment
    }
}

// Kt, of a transfer length F and a symbol size T.
fn total_symbols(transfer_length: u64, symbol_size: u16) -> u64
    requires { 0 < symbol_size }
    ensures { result ≡ div_ceil transfer_length symbol_size }
{
    transfer_length.div_ceil(u64::from(symbol_size))
}

// Tests that an alignment divides a symbol size, both in bytes.
fn check_alignment(symbol_size: u16, alignment: u8) -> Result<(), Error>
    ensures refused { result ≡ checked_alignment symbol_size alignment }
    ensures positive { OnOk result (0 < alignment) }
    ensures divides { OnOk result (symbol_size % alignment ≡ 0) }
{
    if alignment == 0 {
        return Err(Error::AlignmentZero);
    }
    if symbol_size % u16::from(alignment) != 0 {
        return Err(Error::Misaligned);
    }
    Ok(())
}
