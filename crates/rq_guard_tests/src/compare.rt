//! A comparison, made in a function of its own: an assertion in a test would be a branch that the test's
//! proof carries along.
use std::fmt::Debug;
use std::process::Abort;

// What is found is what is wanted, in a case.
macro_rules! same {
    ($rt:expr; $found:expr, $wanted:expr, $case:expr) => {
        crate::compare::assert_same_at(&$rt, stringify!($found), $case, $found, $wanted)
    };
}

pub(crate) use same;

pub(crate) fn assert_same_at<T: PartialEq + Debug + Drop, C: Debug + Drop>(
    rt: &impl Abort,
    words: &str,
    case: C,
    found: T,
    wanted: T,
) {
    assert_eq!(rt; found, wanted, "{words}, at {case:?}");
}
