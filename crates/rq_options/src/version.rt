//! The version of the program.

/// The version, as `rqcast --version` prints it.
pub(crate) const VERSION: &str = "0.1.0";
