//! The degrees of encoding symbols (RFC 6330, section 5.3.5.2).

/// The degree of a tuple is the d for which v lies from entry d-1 on and below entry d, or W - 2
/// where that is less (section 5.3.5.2).
pub const DEGREE_STARTS: [u32; 31] = [
    0, 5243, 529531, 704294, 791675, 844104, 879057, 904023, 922747, 937311, 948962, 958494,
    966438, 973160, 978921, 983914, 988283, 992138, 995565, 998631, 1001391, 1003887, 1006157,
    1008229, 1010129, 1011876, 1013490, 1014983, 1016370, 1017662, 1048576,
];
