//! A cell, and its bytes.
ghost use Rattle.std.specs.Prelude.{◌≡◌, ◌-◌, ◌++◌, ◌≤◌, length, take, drop, Ok, IfOk, IfErr};
ghost use Rattle.std.specs.Io.{StartsWith};
ghost use Rattle.rq_bytes.specs.Refusals.{IsAnswer};
ghost use Rattle.rq_cells.specs.Cells.{digest_of, check_of, head_bytes, cell_size, cell_bytes, cell_at, cell_behind};

use crate::head::{HEAD_LENGTH, Head};
use crate::key::{CHECK_LENGTH, Key};
use crate::parts::part;
use rq_base::base::{EncodingPacket, PAYLOAD_ID_LENGTH};
use rq_bytes::error::Error;
use sha2::{Digest, Sha512};
use std::alloc::Global;

/// How many bytes of a symbol's SHA-512 are its digest.
pub const DIGEST_LENGTH: usize = 32;

// Where a cell's symbol begins.
pub(crate) const SYMBOL_PLACE: usize = HEAD_LENGTH + PAYLOAD_ID_LENGTH;

// How many bytes a cell's check is over.
const CHECKED_LENGTH: usize = SYMBOL_PLACE + DIGEST_LENGTH;

/// The digest of a symbol: the first 32 bytes of its SHA-512.
pub fn digest_of(symbol: &[u8]) -> [u8; DIGEST_LENGTH]
    ensures { result ≡ digest_of symbol.now }
{
    part(&Sha512::digest(symbol), 0)
}

/// A packet of a part, and whose it is.
#[derive(Debug, PartialEq, Eq, Drop)]
pub struct Cell {
    /// Whose the packet is.
    pub head: Head,
    /// The packet.
    pub packet: EncodingPacket,
}

/// A cell that was found, and the digest of its symbol.
#[derive(Debug, PartialEq, Eq, Drop)]
pub struct FoundCell {
    /// The cell.
    pub cell: Cell,
    /// The first 32 bytes of the SHA-512 of its symbol.
    pub digest: [u8; DIGEST_LENGTH],
}

impl Cell {
    /// The bytes of the cell, 64 and a symbol: those of its head and of its packet, and a check of head,
    /// payload id and the symbol's digest. Where the payload is a symbol of the head's configuration,
    /// they are read back ([`laws::cells_are_read`](crate::laws::cells_are_read)).
    pub fn serialize(&self, alloc: Global, key: &Key) -> Result<Vec<u8>, Error>
        ensures { IsAnswer (λ v. v.items) result (Ok (cell_bytes key.now self.now)) }
    {
        let mut bytes = self.head.serialize(alloc, key)?;
        bytes.extend_from_slice(&self.packet.payload_id().serialize())?;
        let digest = digest_of(self.packet.data());
        let check = cell_check(key, bytes.as_slice(), &digest);
        bytes.extend_from_slice(self.packet.data())?;
        bytes.extend_from_slice(&check)?;
        Ok(bytes)
    }

    /// The cell whose bytes these begin with, if they begin with one. Refuses
    /// [`Error::OutOfMemory`] alone.
    pub fn read(alloc: Global, key: &Key, bytes: &[u8]) -> Result<Option<Cell>, Error>
        ensures cell { IfOk result (λ cell. cell ≡ cell_at key.now bytes.now) }
        ensures memory { IfErr result (λ e. e ≡ Error.OutOfMemory) }
    {
        let Some(head) = Head::read(key, bytes) else {
            return Ok(None);
        };
        let length = head.cell_length();
        if bytes.len() < length {
            return Ok(None);
        }
        let digest = digest_of(&bytes[SYMBOL_PLACE..length - CHECK_LENGTH]);
        read_behind(alloc, key, head, bytes, &digest)
    }
}

// The check of a cell that begins with these bytes, by its symbol's digest.
fn cell_check(key: &Key, bytes: &[u8], digest: &[u8; DIGEST_LENGTH]) -> [u8; CHECK_LENGTH]
    requires { 56 ≤ length bytes.now }
    ensures { result ≡ check_of key.now (take 56 bytes.now ++ digest.now) }
{
    let mut checked = [0; CHECKED_LENGTH];
    let (front, behind) = checked.split_at_mut(SYMBOL_PLACE);
    front.copy_from_slice(&bytes[..SYMBOL_PLACE]);
    behind.copy_from_slice(digest);
    key.check(&checked)
}

/// Writes a cell's check over its last eight bytes, where its head ([`Head::serialize`]) and its packet
/// stand before these, and `digest` is its symbol's. So one buffer does for all cells of a part, and
/// their head is made once.
pub fn write_check(key: &Key, digest: &[u8; DIGEST_LENGTH], cell: &mut [u8])
    requires { 64 ≤ length cell.old }
    ensures { cell.new ≡ take (length cell.old - 8) cell.old ++ check_of key.now (take 56 cell.old ++ digest.now) }
{
    let check = cell_check(key, cell, digest);
    let end = cell.len() - CHECK_LENGTH;
    cell[end..].copy_from_slice(&check);
}

/// The cell whose bytes these begin with, if they do, where they begin with its head, and as many bytes
/// as it has stand there. The digest is that of the bytes where its symbol stands.
pub(crate) fn read_behind(
    alloc: Global,
    key: &Key,
    head: Head,
    bytes: &[u8],
    digest: &[u8; DIGEST_LENGTH],
) -> Result<Option<Cell>, Error>
    requires head { StartsWith bytes.now (head_bytes key.now head) }
    requires long { cell_size head.configuration.symbol_size ≤ length bytes.now }
    requires digest { digest.now ≡ digest_of (take head.configuration.symbol_size (drop 56 bytes.now)) }
    ensures cell { IfOk result (λ cell. cell ≡ cell_behind key.now head bytes.now) }
    ensures memory { IfErr result (λ e. e ≡ Error.OutOfMemory) }
{
    let (written, behind) = bytes.split_at(head.cell_length() - CHECK_LENGTH);
    if !behind.starts_with(&cell_check(key, bytes, digest)) {
        return Ok(None);
    }
    let packet = EncodingPacket::deserialize(alloc, &written[HEAD_LENGTH..])?;
    Ok(Some(Cell { head, packet }))
}
