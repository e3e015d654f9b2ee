//! The digests of a part's symbols, by which damage shows.
ghost use Rattle.std.specs.Prelude.{◌≡◌, ◌↔◌, ◌*◌, ◌/◌, ◌<◌, ◌≤◌, Ok, IfOk, IfErr, IfSome, map, take, drop, length, option_map, slice_get, Some, true};
ghost use Rattle.std.specs.List.{range_with_len};
ghost use Rattle.rq_bytes.specs.Refusals.{IsAnswer};
ghost use Rattle.rq_standard.specs.Configuration.{largest_block};
ghost use Rattle.rq_standard.specs.TableRows.{greatest_size};
ghost use Rattle.rq_guard.specs.Damage.{IsList};
ghost use Rattle.rq_guard.specs.Lists.{is_listable};

use rq_bytes::error::Error;
use rq_cells::{DIGEST_LENGTH, HEAD_LENGTH, Head, Key};
use rq_tables::systematic_constants::SystematicTable;
use std::alloc::{AllocError, Global};

/// How many bytes of a symbol's digest are listed.
pub const LISTED_LENGTH: usize = 16;

/// The bit of a part's number that says that it is the list of another part, whose number has the other bits.
pub const LIST_PART: u32 = 1 << 30;

/// How many bytes a symbol of a list has at most.
pub const LIST_SYMBOL_SIZE: u16 = 1024;

/// What a guard knows of a part: its head, and the first bytes of the digest of each source symbol.
#[derive(Debug, PartialEq, Eq, Drop)]
pub struct DigestList {
    /// What the cells of the part begin with.
    pub head: Head,
    /// The first 16 bytes of the SHA-512 of each source symbol, in their order.
    pub digests: Vec<[u8; LISTED_LENGTH]>,
}

// The first bytes of a digest.
fn first_bytes(digest: &[u8]) -> [u8; LISTED_LENGTH]
    requires { 16 ≤ length digest.now }
    ensures { result ≡ take 16 digest.now }
{
    let mut first = [0; LISTED_LENGTH];
    first.copy_from_slice(&digest[..LISTED_LENGTH]);
    first
}

// Whether so many bytes are the list of a part with a head.
fn is_listable(head: &Head, table: &SystematicTable, length: usize) -> bool
    ensures value { result ≡ is_listable (greatest_size table.now) head.now length }
    ensures few { result ≡ true → largest_block head.now.configuration < 65536 }
{
    let configuration = &head.configuration;
    if configuration.check(table).is_err() {
        return false;
    }
    let many = HEAD_LENGTH as u64 + LISTED_LENGTH as u64 * configuration.total_symbols();
    configuration.source_blocks() == 1 && length as u64 == many
}

// The digests that stand one behind another.
fn listed_behind(alloc: Global, bytes: &[u8]) -> Result<Vec<[u8; LISTED_LENGTH]>, AllocError>
    ensures { IfOk result (λ v. v.items ≡ map (λ i. take 16 (drop (i * 16) bytes.now)) (range_with_len 0 (length bytes.now / 16))) }
{
    let count = bytes.len() / LISTED_LENGTH;
    let mut digests = Vec::with_capacity(alloc, count)?;
    for i in 0..count {
        digests.push(first_bytes(&bytes[i * LISTED_LENGTH..]))?;
    }
    Ok(digests)
}

impl DigestList {
    ghost use Rattle.rq_guard.specs.Lists.{listed_of, list_bytes, list_at};

    /// The list of a part with a head, by the digests of its source symbols. Refuses
    /// [`Error::OutOfMemory`] alone.
    pub fn new(
        alloc: Global,
        head: &Head,
        digests: &[[u8; DIGEST_LENGTH]],
    ) -> Result<DigestList, Error>
        ensures head { IfOk result (λ l. l.head ≡ head.now) }
        ensures digests { IfOk result (λ l. l.digests.items ≡ map (take 16) digests.now) }
        ensures memory { IfErr result (λ e. e ≡ Error.OutOfMemory) }
    {
        let mut listed = Vec::with_capacity(alloc, digests.len())?;
        for digest in digests {
            listed.push(first_bytes(digest))?;
        }
        Ok(DigestList {
            head: *head,
            digests: listed,
        })
    }

    /// The bytes of the list: those of the head, and the digests one behind another.
    pub fn serialize(&self, alloc: Global, key: &Key) -> Result<Vec<u8>, Error>
        ensures { IsAnswer (λ v. v.items) result (Ok (list_bytes key.now (listed_of self.now))) }
    {
        let mut bytes = self.head.serialize(alloc, key)?;
        for digest in &self.digests {
            bytes.extend_from_slice(digest)?;
        }
        Ok(bytes)
    }

    /// The list whose bytes these are, if they are that of a part which is one block, and whose configuration
    /// coders take over a table. Its head is checked by a key. Refuses [`Error::OutOfMemory`] alone.
    pub fn read(
        alloc: Global,
        key: &Key,
        table: &SystematicTable,
        bytes: &[u8],
    ) -> Result<Option<DigestList>, Error>
        ensures list { IfOk result (λ l. option_map listed_of l ≡ list_at key.now (greatest_size table.now) bytes.now) }
        ensures usable { IfOk result (λ o. IfSome o (λ l. IsList (listed_of l))) }
        ensures memory { IfErr result (λ e. e ≡ Error.OutOfMemory) }
    {
        let Some(head) = Head::read(key, bytes) else {
            return Ok(None);
        };
        if !is_listable(&head, table, bytes.len()) {
            return Ok(None);
        }
        let digests = listed_behind(alloc, &bytes[HEAD_LENGTH..])?;
        Ok(Some(DigestList { head, digests }))
    }

    /// Whether the source symbol of a number has a digest: then it is whole where it stands.
    pub fn lists(&self, number: usize, digest: &[u8; DIGEST_LENGTH]) -> bool
        requires { number < length self.now.digests.items }
        ensures { (result ≡ true) ↔ (slice_get self.now.digests.items number ≡ Some (take 16 digest.now)) }
    {
        self.digests[number] == first_bytes(digest)
    }
}
