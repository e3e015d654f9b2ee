//! What checks are made with.
ghost use Rattle.std.specs.Prelude.{◌≡◌, Some, None};
ghost use Rattle.rq_cells.specs.Cells.{code_of, check_of};

use crate::parts::part;
use rq_hmac::HmacSha512;
use sha2::{Digest, Sha512};
use std::alloc::AllocError;
use std::marker::Model;

/// How many bytes a check has.
pub(crate) const CHECK_LENGTH: usize = 8;

/// What checks are made with: a key, so that only who has it can make or change cells, or none, so that
/// anybody can, and checks show damage alone.
#[derive(Default, Drop)]
pub struct Key {
    hmac: Option<HmacSha512>,
}

impl Model for Key {
    ghost use Rattle.std.specs.Prelude.{ℕ, List, Option};

    ghost Value = { Option (List ℕ) };

    ghost view = { λ k. k.hmac };
}

impl Clone for Key {
    ghost is_clone = { λ a b. b ≡ a };

    fn clone(&self) -> Result<Key, AllocError> {
        Ok(Key {
            hmac: self.hmac.clone()?,
        })
    }
}

impl Key {
    /// No key: checks are made by SHA-512 (FIPS 180-4).
    pub fn none() -> Key
        ensures { result ≡ None }
    {
        Key { hmac: None }
    }

    /// A key of any bytes: checks are made by HMAC-SHA-512 (RFC 2104).
    pub fn new(bytes: Vec<u8>) -> Key
        ensures { result ≡ Some bytes.items }
    {
        Key {
            hmac: Some(HmacSha512::new(bytes)),
        }
    }

    // The code of bytes.
    fn code(&self, bytes: &[u8]) -> [u8; 64]
        ensures { result ≡ code_of self.now bytes.now }
    {
        match &self.hmac {
            Some(hmac) => hmac.code(bytes),
            None => Sha512::digest(bytes),
        }
    }

    /// The check of bytes.
    pub(crate) fn check(&self, bytes: &[u8]) -> [u8; CHECK_LENGTH]
        ensures { result ≡ check_of self.now bytes.now }
    {
        part(&self.code(bytes), 0)
    }
}
