//! HMAC (RFC 2104) with SHA-512.
#![tactic(auto)]

ghost use Rattle.std.specs.Prelude.{◌≡◌, length};
ghost use Rattle.rq_hmac.specs.Hmac.{key_block, padded_key};

use sha2::{Digest, Sha512};
use std::alloc::AllocError;
use std::marker::Model;

#[cfg(test)]
mod tests;

/// What makes codes of messages under a key: only who has the key can make them, or tell whether they are
/// right (RFC 2104, section 2). Contracts see the key.
#[derive(Drop)]
pub struct HmacSha512 {
    key: Vec<u8>,
    // What both hashes of each code begin with is hashed once.
    inner: Sha512,
    outer: Sha512,
}

impl Model for HmacSha512 {
    ghost use Rattle.std.specs.Prelude.{ℕ, List};
    ghost use Rattle.sha2.specs.Hashers.{Holds512};
    ghost use Rattle.rq_hmac.specs.Hmac.{padded_key};

    ghost Value = { List ℕ };

    ghost view = { λ h. h.key.items };

    ghost invariant = { λ h. Holds512 h.inner (padded_key h.key.items 0x36) × Holds512 h.outer (padded_key h.key.items 0x5c) };
}

impl Clone for HmacSha512 {
    ghost is_clone = { λ a b. b ≡ a };

    fn clone(&self) -> Result<HmacSha512, AllocError> {
        Ok(HmacSha512 {
            key: self.key.clone()?,
            inner: self.inner.clone()?,
            outer: self.outer.clone()?,
        })
    }
}

impl HmacSha512 {
    ghost use Rattle.rq_hmac.specs.Hmac.{hmac_sha512};

    /// That of a key, which may have any length. One of more than 128 bytes counts as its SHA-512.
    pub fn new(key: Vec<u8>) -> HmacSha512
        ensures { result ≡ key.items }
    {
        let inner = Sha512::new_with_prefix(padded_key(key.as_slice(), 0x36));
        let outer = Sha512::new_with_prefix(padded_key(key.as_slice(), 0x5c));
        HmacSha512 { key, inner, outer }
    }

    /// The code of a message, of 64 bytes.
    pub fn code(&self, message: &[u8]) -> [u8; 64]
        ensures { result ≡ hmac_sha512 self.now message.now }
    {
        let inner = copied(&self.inner).chain_update(message);
        let outer = copied(&self.outer).chain_update(&inner.finalize());
        outer.finalize()
    }
}

// The same hash once more.
fn copied(hash: &Sha512) -> Sha512
    ensures { result ≡ hash.now }
{
    let Ok(copy) = hash.clone() else {
        unreachable!()
    };
    copy
}

// The key and zeros, to a block. A key of more than a block is hashed first.
fn key_block(key: &[u8]) -> [u8; 128]
    ensures { result ≡ key_block key.now }
{
    let mut block = [0u8; 128];
    if key.len() > 128 {
        block[..64].copy_from_slice(&Sha512::digest(key));
    } else {
        block[..key.len()].copy_from_slice(key);
    }
    block
}

// Each byte of a key's block, exclusive or a byte.
fn padded_key(key: &[u8], pad: u8) -> [u8; 128]
    ensures { result ≡ padded_key key.now pad }
{
    let mut block = key_block(key);
    for byte in block.iter_mut() {
        *byte ^= pad;
    }
    block
}
