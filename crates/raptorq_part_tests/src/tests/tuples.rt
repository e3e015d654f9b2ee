//! Parts of a division, random numbers, degrees, tuples and the indices of an id.
use crate::compare::{holds, same};
use raptorq::base::{deg, intermediate_tuple};
use raptorq::constraint_matrix::enc_indices;
use raptorq::partition;
use raptorq::rng::rand;

#[test]
fn numbers(rt: HostRuntime) {
    holds!(rt; partition(12, 10) == (2, 1, 2, 8));
    holds!(rt; partition(0, 5) == (0, 0, 0, 5));
    same!(rt; rand(0, 0, 1048576), 145433);
    same!(rt; rand(4294967295, 1, 1048576), 145433);
    for (v, degree) in [(5242, 1), (5243, 2), (1048575, 15)] {
        same!(rt; deg(v, 17), degree);
    }
    same!(rt; intermediate_tuple(0, 17, 254, 11), (2, 4, 9, 2, 5, 1));
}

#[test]
fn indices_of_the_first_id(rt: HostRuntime) {
    let mut digits: u64 = 0;
    enc_indices(
        (2, 4, 9, 2, 5, 1),
        17,
        10,
        11,
        |index| digits = digits.wrapping_mul(100).wrapping_add(index as u64),
    );
    same!(rt; digits, 9131823);
}
