use crate::{all_digests, digests};
use sha2::{Digest, Sha512};

// FIPS 180-4's example of one block, in each lane.
#[test]
fn a_published_digest(rt: HostRuntime) {
    for digest in digests([b"abc"; 4]) {
        assert_eq!(rt;
            &digest[..16],
            [
                0xdd, 0xaf, 0x35, 0xa1, 0x93, 0x61, 0x7a, 0xba, 0xcc, 0x41, 0x73, 0x49, 0xae, 0x20,
                0x41, 0x31,
            ]
            .as_slice()
        );
    }
}

// Seven messages fill one row of lanes and leave three.
#[test]
fn as_one_at_a_time(rt: HostRuntime) {
    let mut bytes = [0u8; 256];
    for i in 0..256 {
        bytes[i] = (i * 89 % 251) as u8;
    }
    for length in 0..241 {
        let messages: [&[u8]; 7] = [
            &bytes[..length],
            &bytes[1..1 + length],
            &bytes[3..3 + length],
            &bytes[5..5 + length],
            &bytes[8..8 + length],
            &bytes[9..9 + length],
            &bytes[15..15 + length],
        ];
        let mut made = [[0u8; 64]; 7];
        all_digests(&messages, &mut made);
        for i in 0..7 {
            assert_eq!(rt; made[i], Sha512::digest(messages[i]), "{length}");
        }
    }
}
