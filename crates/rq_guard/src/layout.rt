//! How a part of a guarded file is cut.
ghost use Rattle.std.specs.Prelude.{◌≡◌, ◌<◌, ◌^◌, ℕ, IfOk, IfErr};
ghost use Rattle.rq_standard.specs.Configuration.{IsAccepted};
ghost use Rattle.rq_guard.specs.Layout.{unit_of, IsSymbolSize, IsLayout};

use rq_base::base::ObjectTransmissionInformation;
use rq_bytes::error::Error;

// The most symbols that a part has.
const MOST_SYMBOLS: u64 = 16_384;

// From how many bytes on a symbol has whole sectors of a disk, and how many bytes one has.
const LARGE: u64 = 4_000_000;

const SECTOR: u64 = 4096;

// What the size of a smaller part's symbols is a multiple of, and the alignment of each part's.
const ALIGNMENT: u8 = 8;

// What the size of a symbol is a multiple of.
fn unit_of(length: u64) -> u64
    ensures value { result ≡ unit_of length }
    ensures some { 0 < result }
    ensures few { result < 2 ^ 13 }
{
    if length < LARGE {
        u64::from(ALIGNMENT)
    } else {
        SECTOR
    }
}

// How many bytes a symbol has of a part of so many.
fn symbol_size(length: u64) -> u64
    requires { length < 2 ^ 40 }
    ensures { IsSymbolSize length result }
{
    let unit = unit_of(length);
    length.div_ceil(unit * MOST_SYMBOLS).max(1) * unit
}

/// How a part of so many bytes is cut (RFC 6330, 4.3): into one block of at most 16,384 symbols. Their size is the
/// least multiple of 4096 bytes with which they are so few, and of 8 bytes where the part has fewer than
/// 4,000,000. Coders take it over each table for blocks of so many symbols.
///
/// Refuses [`Error::TransferTooLong`] where a symbol would have more than 65,535 bytes, which is so from
/// 1,006,632,961 bytes on.
pub fn layout_of(length: u64) -> Result<ObjectTransmissionInformation, Error>
    ensures layout { IfOk result (IsLayout length) }
    ensures accepted { IfOk result (IsAccepted 16384) }
    ensures refused { IfErr result (λ e. (e ≡ Error.TransferTooLong) × (1006632960 < length)) }
{
    if length > SECTOR * MOST_SYMBOLS * 15 {
        return Err(Error::TransferTooLong);
    }
    let size = symbol_size(length) as u16;
    ObjectTransmissionInformation::new(length, size, 1, 1, ALIGNMENT)
}
