//! SHA-512 (FIPS 180-4) of four messages of one length, side by side in the lanes of vectors.
#![tactic(auto)]

ghost use Rattle.std.specs.Prelude.{◌≡◌, [], ◌∷◌, length, map};
ghost use Rattle.sha2.specs.Sha512.{sha512};
ghost use Rattle.rq_digests.specs.Messages.{AreOfOneLength};

use block::{State, absorb};
use ending::{digest_bytes, ending, ending_blocks};
use sha2::{Digest, Sha512};

mod block;
mod constants;
mod ending;
#[cfg(test)]
mod tests;
mod words;

/// The SHA-512 of each of four messages of one length (FIPS 180-4, section 6.4).
pub fn digests(messages: [&[u8]; 4]) -> [[u8; 64]; 4]
    requires { AreOfOneLength (map (λ m. m.now) messages) }
    ensures { result ≡ map (λ m. sha512 m.now) messages.entry }
{
    let [a, b, c, d] = messages;
    digests_of(a, b, c, d)
}

/// Writes the SHA-512 of each of any number of messages of one length, four at once as long as there are
/// four (FIPS 180-4, section 6.4).
pub fn all_digests(messages: &[&[u8]], digests: &mut [[u8; 64]])
    requires lengths { AreOfOneLength (map (λ m. m.now) messages.now) }
    requires count { length digests.old ≡ length messages.now }
    ensures { digests.new ≡ map (λ m. sha512 m.now) messages.now }
{
    'fours: for i in 0..messages.len() / 4 {
        let k = 4 * i;
        let (a, b, c, d) = (
            messages[k],
            messages[k + 1],
            messages[k + 2],
            messages[k + 3],
        );
        let [of_a, of_b, of_c, of_d] = digests_of(a, b, c, d);
        digests[k] = of_a;
        digests[k + 1] = of_b;
        digests[k + 2] = of_c;
        digests[k + 3] = of_d;
    }
    'rest: for i in messages.len() / 4 * 4..messages.len() {
        digests[i] = Sha512::digest(messages[i]);
    }
}

// The same, of each.
fn digests_of(a: &[u8], b: &[u8], c: &[u8], d: &[u8]) -> [[u8; 64]; 4]
    requires b_as_long { length b.now ≡ length a.now }
    requires c_as_long { length c.now ≡ length a.now }
    requires d_as_long { length d.now ≡ length a.now }
    ensures { result ≡ sha512 a.now ∷ sha512 b.now ∷ sha512 c.now ∷ sha512 d.now ∷ [] }
{
    let mut state = State::initial();
    absorb(&mut state, a, b, c, d, a.len() / 128);
    absorb(
        &mut state,
        &ending(a),
        &ending(b),
        &ending(c),
        &ending(d),
        ending_blocks(a.len()),
    );
    [
        digest_bytes(state.words_of(0)),
        digest_bytes(state.words_of(1)),
        digest_bytes(state.words_of(2)),
        digest_bytes(state.words_of(3)),
    ]
}
