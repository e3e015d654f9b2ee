//! The random generator and the indices of ids, against the Rust crate `raptorq` 2.0.1.
//!
//! A script asked that crate for each number below, took the numbers of a line one after another
//! into a digest that starts at 0 by `digest * 1099511628211 + number + 1` modulo 2^64, and wrote
//! the digests here.
ghost use Rattle.std.specs.Prelude.{◌≤◌};

use crate::compare::same;
use raptorq::rng::rand;
use raptorq::systematic_constants::SystematicTable;
use raptorq_test_kit::digests::mixed;
use rq_base::indices::Indices;
use std::test::Fail;

// Rand[4294967*n, n mod 256, 1048573*n + 1] of a hundred numbers n from a first one on.
fn rand_digest(first: u32) -> u64
    requires { first ≤ 900 }
{
    let mut digest = 0;
    for n in first..first + 100 {
        digest = mixed(
            digest,
            u64::from(rand(n * 4294967, n % 256, n * 1048573 + 1)),
        );
    }
    digest
}

// The indices of an id, taken into a digest.
fn indices_digest(indices: Indices, digest: u64) -> u64 {
    let mut indices = indices;
    let mut digest = digest;
    while let Some(index) = indices.next_index() {
        digest = mixed(digest, index as u64);
    }
    digest
}

#[test]
fn random_numbers(rt: HostRuntime) {
    for (block, wanted) in RAND_DIGESTS.iter().enumerate() {
        same!(rt; rand_digest(block as u32 * 100), *wanted);
    }
}

// An id from 0 to 16592819.
fn id_of(n: u32) -> u32 {
    n.wrapping_mul(n).wrapping_mul(419)
}

// The ids 419*n*n for n below 200, over each built-in row.
#[test]
fn indices_of_ids(rt: HostRuntime) -> Result<(), Fail> {
    let table = SystematicTable::built_in(rt.alloc())?;
    for (size, wanted) in INDEX_DIGESTS {
        assert!(rt; size <= table.greatest());
        let row = table.checked_row(size);
        let mut digest = 0;
        for n in 0..200 {
            digest = indices_digest(Indices::of_id(&row, id_of(n)), digest);
        }
        same!(rt; digest, wanted);
    }
    Ok(())
}

const RAND_DIGESTS: [u64; 10] = [
    13381699301089751443,
    9573038746389662083,
    1650889641336214183,
    16169030272893395229,
    2796973394569608426,
    16984528726186352307,
    4793758063939567216,
    2623187687621321505,
    13802978023305761708,
    4459472293434709588,
];

// K' of each built-in row, and the digest of its indices.
const INDEX_DIGESTS: [(u32, u64); 74] = [
    (10, 765838874934262531),
    (12, 12442963615143592992),
    (18, 17015726256378106819),
    (20, 9124578748817382087),
    (26, 1906711585213268956),
    (30, 16492435842317751701),
    (32, 1420750026313150645),
    (36, 17195880673820618774),
    (42, 3572564554067304813),
    (46, 1018364092917275771),
    (48, 417122790851549995),
    (49, 106685916502362147),
    (55, 7468022852994418521),
    (60, 8448206684411930466),
    (62, 11279668454706798863),
    (69, 6999528784779880476),
    (75, 17418653126350171390),
    (84, 12857429146254700837),
    (88, 10231481236339458150),
    (91, 6097481674708830831),
    (95, 9337272418015999407),
    (97, 12956656781230988504),
    (101, 18258469160269374868),
    (114, 1006122484811296621),
    (119, 7747923812174195561),
    (125, 13128275775398299173),
    (127, 13532883871188921039),
    (138, 1954409881569051216),
    (140, 1801880377511210228),
    (149, 5959182987866574074),
    (153, 8733546400952001154),
    (160, 4385824867871714431),
    (166, 14739323542031007714),
    (168, 5499812199249995042),
    (179, 16220058482977120027),
    (181, 13144054063719315195),
    (185, 10279968608030223380),
    (187, 10438056527605937023),
    (200, 12786283657774469973),
    (213, 3571952398774980876),
    (217, 2145339313490516889),
    (225, 13591955527913507250),
    (236, 12265254629285524967),
    (242, 17218038273166390773),
    (248, 489273776892294135),
    (257, 6778919038658785014),
    (263, 11403300912434037467),
    (269, 11563171760769466431),
    (280, 1421380190882164160),
    (295, 9010569491340938581),
    (301, 15409907652581885637),
    (305, 288454119186070433),
    (324, 9970804178593039435),
    (337, 14432960010866453920),
    (341, 874497426308773043),
    (347, 14038762743495900940),
    (355, 18375038447360925234),
    (362, 5884589419509014147),
    (368, 6779181706379978816),
    (372, 20392949785034639),
    (380, 2304417305154798568),
    (385, 17001792757031203863),
    (393, 13079352009885875760),
    (405, 18161099595607216823),
    (418, 17874109453642554244),
    (428, 17475931272806958388),
    (434, 10605494445483601157),
    (447, 16397474540652966520),
    (453, 14976130329290893632),
    (466, 6106758074833983992),
    (478, 16456760049472304270),
    (486, 5628394699583327019),
    (491, 205352704700616968),
    (497, 7924319206368743323),
];
