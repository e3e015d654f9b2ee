//! The head of a cell.
ghost use Rattle.std.specs.Prelude.{◌≡◌, ◌≤◌, Ok, length};
ghost use Rattle.rq_bytes.specs.Refusals.{IsAnswer};
ghost use Rattle.rq_cells.specs.Cells.{head_bytes, head_size, head_spelled, head_at, cell_size};
ghost use Rattle.rq_cells.specs.Found.{HoldNoHead, IsNextHead};

use crate::key::{CHECK_LENGTH, Key};
use crate::parts::part;
use memchr::memchr;
use rq_base::base::{CONFIGURATION_LENGTH, ObjectTransmissionInformation, PAYLOAD_ID_LENGTH};
use rq_bytes::error::Error;
use std::alloc::Global;

/// How many bytes name a stream.
pub const STREAM_LENGTH: usize = 8;

/// How many bytes name a part.
pub const NAME_LENGTH: usize = 16;

/// How many bytes a head has.
pub const HEAD_LENGTH: usize = 52;

/// The bit of a part's number that says that it is the last one of its stream.
pub const LAST_PART: u32 = 1 << 31;

// How many bytes of a head stand before its check.
const FIELDS_LENGTH: usize = 44;

// "RQC", and the number of the format.
pub(crate) const MARK: [u8; 4] = [82, 81, 67, 2];

/// How many places at the front of bytes are quickly told to begin no head: bytes enough for one stand
/// there, and the first of a mark doesn't.
pub(crate) fn headless_places(bytes: &[u8]) -> usize
    ensures { HoldNoHead bytes.now result }
{
    let long = bytes.len().saturating_sub(HEAD_LENGTH - 1);
    memchr(MARK[0], &bytes[..long]).unwrap_or(long)
}

/// The first head at a place from one on.
pub(crate) fn next_head(key: &Key, bytes: &[u8], from: usize) -> Option<(usize, Head)>
    requires { from ≤ length bytes.now }
    ensures { IsNextHead key.now bytes.now from result }
{
    let mut at = from;
    'places: while at < bytes.len() {
        at += headless_places(&bytes[at..]);
        if let Some(head) = Head::read(key, &bytes[at..]) {
            return Some((at, head));
        }
        at += 1;
    }
    None
}

/// Whose a cell is: a part of a stream.
#[derive(Clone, Copy, Debug, PartialEq, Eq)]
pub struct Head {
    /// The stream: the first bytes of the name of its part 0.
    pub stream: [u8; STREAM_LENGTH],
    /// The part's number, from 0, with [`LAST_PART`] where it is the last one.
    pub number: u32,
    /// The part's name ([`part_name`](crate::part_name)).
    pub name: [u8; NAME_LENGTH],
    /// How the part is cut.
    pub configuration: ObjectTransmissionInformation,
}

impl Head {
    /// The 52 bytes of the head: four that mark a cell, the stream, the part's number, its name, its
    /// configuration as it is sent (RFC 6330, 3.3.2 and 3.3.3), and a check of all these.
    pub fn serialize(&self, alloc: Global, key: &Key) -> Result<Vec<u8>, Error>
        ensures { IsAnswer (λ v. v.items) result (Ok (head_bytes key.now self.now)) }
    {
        let mut bytes = Vec::with_capacity(alloc, HEAD_LENGTH)?;
        bytes.extend_from_slice(&MARK)?;
        bytes.extend_from_slice(&self.stream)?;
        bytes.extend_from_slice(&self.number.to_be_bytes())?;
        bytes.extend_from_slice(&self.name)?;
        bytes.extend_from_slice(&self.configuration.serialize())?;
        let check = key.check(bytes.as_slice());
        bytes.extend_from_slice(&check)?;
        Ok(bytes)
    }

    /// How many bytes a cell with this head has: 64 and a symbol.
    pub fn cell_length(&self) -> usize
        ensures { result ≡ cell_size self.now.configuration.symbol_size }
    {
        let symbol_size = usize::from(self.configuration.symbol_size());
        HEAD_LENGTH + PAYLOAD_ID_LENGTH + symbol_size + CHECK_LENGTH
    }

    // The head that bytes spell, if they begin with one.
    fn spelled(bytes: &[u8]) -> Head
        requires { head_size ≤ length bytes.now }
        ensures { result ≡ head_spelled bytes.now }
    {
        let configuration: [u8; CONFIGURATION_LENGTH] = part(bytes, 32);
        Head {
            stream: part(bytes, 4),
            number: u32::from_be_bytes(part(bytes, 12)),
            name: part(bytes, 16),
            configuration: ObjectTransmissionInformation::deserialize(&configuration),
        }
    }

    /// The head whose bytes these begin with, if they begin with one.
    pub fn read(key: &Key, bytes: &[u8]) -> Option<Head>
        ensures { result ≡ head_at key.now bytes.now }
    {
        if bytes.len() < HEAD_LENGTH || !bytes.starts_with(&MARK) {
            return None;
        }
        let head = Head::spelled(bytes);
        if head.configuration.serialize() != part(bytes, 32) {
            return None;
        }
        let (fields, behind) = bytes.split_at(FIELDS_LENGTH);
        behind.starts_with(&key.check(fields)).then_some(head)
    }
}
