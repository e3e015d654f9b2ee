//! Names of parts.
ghost use Rattle.std.specs.Prelude.{◌≡◌};
ghost use Rattle.rq_cells.specs.Cells.{part_name};

use crate::cell::DIGEST_LENGTH;
use crate::head::NAME_LENGTH;
use crate::parts::part;
use rq_base::base::ObjectTransmissionInformation;
use sha2::{Digest, Sha512};

/// The name of a part: the first 16 bytes of the SHA-512 of its number, its configuration as it is sent
/// (RFC 6330, 3.3.2 and 3.3.3), and the digests of its source symbols, block by block.
pub fn part_name(
    number: u32,
    configuration: &ObjectTransmissionInformation,
    digests: &[[u8; DIGEST_LENGTH]],
) -> [u8; NAME_LENGTH]
    ensures { result ≡ part_name number configuration.now digests.now }
{
    let mut hasher = Sha512::new();
    hasher.update(&number.to_be_bytes());
    hasher.update(&configuration.serialize());
    for digest in digests {
        hasher.update(digest);
    }
    part(&hasher.finalize(), 0)
}
