//! Why a call refuses.
ghost use Rattle.std.specs.Prelude.{◌≡◌};
ghost use Rattle.rq_bytes.specs.declared.error.Error.TheVariants.{OutOfMemory};

use std::alloc::{AllocError, AllocFailed};
use thiserror::Error as DeriveError;

/// Why a call refuses. `Display` prints the variant's name.
#[derive(Clone, Copy, Debug, PartialEq, Eq, DeriveError)]
pub enum Error {
    /// The transfer length is above 942574504275 bytes.
    #[error("TransferTooLong")]
    TransferTooLong,
    /// The symbol alignment is 0.
    #[error("AlignmentZero")]
    AlignmentZero,
    /// The symbol alignment does not divide the symbol size.
    #[error("Misaligned")]
    Misaligned,
    /// A source block has more symbols than any table can hold (56403).
    #[error("TooManySymbols")]
    TooManySymbols,
    /// The symbol size is 0.
    #[error("SymbolSizeZero")]
    SymbolSizeZero,
    /// The number of source blocks is 0.
    #[error("SourceBlocksZero")]
    SourceBlocksZero,
    /// A source block has more symbols than the table in use can hold.
    #[error("BlockOverTable")]
    BlockOverTable,
    /// The data has another length than the configuration says, or a block's data is no whole
    /// symbols.
    #[error("WrongDataLength")]
    WrongDataLength,
    /// The row of the table does not determine the intermediate symbols.
    #[error("Singular")]
    Singular,
    /// The plan was made for another number of symbols or another row.
    #[error("PlanMismatch")]
    PlanMismatch,
    /// An encoding symbol id would not fit its 24 bits.
    #[error("EsiTooLarge")]
    EsiTooLarge,
    /// A packet is shorter than its payload id of 4 bytes.
    #[error("PacketTooShort")]
    PacketTooShort,
    /// A packet's payload has another length than the symbol size.
    #[error("WrongPayloadSize")]
    WrongPayloadSize,
    /// A packet's source block number is none of the object's, or another one than the block's.
    #[error("UnknownBlock")]
    UnknownBlock,
    /// The packet size is 0.
    #[error("PacketSizeZero")]
    PacketSizeZero,
    /// The transfer length is 0.
    #[error("TransferLengthZero")]
    TransferLengthZero,
    /// No row of the table fits the decoder's memory.
    #[error("MemoryRequirementTooSmall")]
    MemoryRequirementTooSmall,
    /// The object would need more than 255 source blocks.
    #[error("TooManyBlocks")]
    TooManyBlocks,
    /// A row that was handed in for the table fails a check: the row's place, from 0, and the
    /// number of its first failing check, from 1.
    #[error("RowRefused")]
    RowRefused { place: usize, check: u8 },
    /// The solver has run already, or was made without symbols.
    #[error("AlreadyExecuted")]
    AlreadyExecuted,
    /// A request for memory was refused.
    #[error("OutOfMemory")]
    OutOfMemory,
    /// No block fits all the packets that were received.
    #[error("Contradiction")]
    Contradiction,
    /// A stream is shorter than its header of 12 bytes.
    #[error("HeaderTooShort")]
    HeaderTooShort,
}

impl Error {
    ghost use Rattle.rq_bytes.specs.Error.{code_of};

    /// The number of the refusal, from 1 to 23, in the order of the variants. Those from 24 to 31 are
    /// for what the library for C answers beside them, so the next refusal's is 32.
    pub fn code(&self) -> u8
        ensures { result ≡ code_of self.now }
    {
        match self {
            Error::TransferTooLong => 1,
            Error::AlignmentZero => 2,
            Error::Misaligned => 3,
            Error::TooManySymbols => 4,
            Error::SymbolSizeZero => 5,
            Error::SourceBlocksZero => 6,
            Error::BlockOverTable => 7,
            Error::WrongDataLength => 8,
            Error::Singular => 9,
            Error::PlanMismatch => 10,
            Error::EsiTooLarge => 11,
            Error::PacketTooShort => 12,
            Error::WrongPayloadSize => 13,
            Error::UnknownBlock => 14,
            Error::PacketSizeZero => 15,
            Error::TransferLengthZero => 16,
            Error::MemoryRequirementTooSmall => 17,
            Error::TooManyBlocks => 18,
            Error::RowRefused { .. } => 19,
            Error::AlreadyExecuted => 20,
            Error::OutOfMemory => 21,
            Error::Contradiction => 22,
            Error::HeaderTooShort => 23,
        }
    }
}

impl From<AllocError> for Error {
    ghost from_gives = { λ _ e. e ≡ OutOfMemory };

    fn from(_refused: AllocError) -> Error {
        Error::OutOfMemory
    }
}

impl<T: Drop> From<AllocFailed<T>> for Error {
    ghost from_gives = { λ _ e. e ≡ OutOfMemory };

    fn from(_refused: AllocFailed<T>) -> Error {
        Error::OutOfMemory
    }
}
