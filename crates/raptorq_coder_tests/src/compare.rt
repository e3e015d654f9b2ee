//! Comparisons. Each is made in a function of its own: an assertion in a test would be a branch that
//! the test's proof carries along. A failure names the words that were compared, and no line of the
//! test.
use std::fmt::Debug;
use std::process::Abort;

// What is found is what is wanted, in a case that may follow.
macro_rules! same {
    ($rt:expr; $found:expr, $wanted:expr) => {
        crate::compare::assert_same(&$rt, stringify!($found), $found, $wanted)
    };
    ($rt:expr; $found:expr, $wanted:expr, $case:expr) => {
        crate::compare::assert_same_at(&$rt, stringify!($found), $case, $found, $wanted)
    };
}

pub(crate) use same;

// A condition holds, in a case that may follow.
macro_rules! holds {
    ($rt:expr; $found:expr) => {
        crate::compare::assert_holds(&$rt, stringify!($found), $found)
    };
    ($rt:expr; $found:expr, $case:expr) => {
        crate::compare::assert_holds_at(&$rt, stringify!($found), $case, $found)
    };
}

pub(crate) use holds;

pub(crate) fn assert_same<T: PartialEq + Debug + Drop>(
    rt: &impl Abort,
    words: &str,
    found: T,
    wanted: T,
) {
    assert_eq!(rt; found, wanted, "{words}");
}

pub(crate) fn assert_same_at<T: PartialEq + Debug + Drop, C: Debug + Drop>(
    rt: &impl Abort,
    words: &str,
    case: C,
    found: T,
    wanted: T,
) {
    assert_eq!(rt; found, wanted, "{words}, at {case:?}");
}

pub(crate) fn assert_holds(rt: &impl Abort, words: &str, found: bool) {
    assert!(rt; found, "{words}");
}

pub(crate) fn assert_holds_at<C: Debug + Drop>(rt: &impl Abort, words: &str, case: C, found: bool) {
    assert!(rt; found, "{words}, at {case:?}");
}
