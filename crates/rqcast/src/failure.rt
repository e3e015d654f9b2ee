//! Why a call of the system failed.

use std::alloc::{AllocError, Global};
use std::io;
use std::io::{ErrorKind, Write};

/// A call that failed.
#[derive(Clone, Copy)]
pub struct Failure<'w> {
    /// What was tried, as `reading`.
    pub tried: &'static str,
    /// The file, or standard input or output.
    pub place: &'w str,
    /// Why.
    pub error: io::Error,
}

// The system's reason as coreutils write it: without its number, and small where it begins.
fn reason_of(alloc: Global, error: &io::Error) -> Result<String, AllocError> {
    let text = format!(in alloc; "{error}")?;
    let all = text.as_str();
    let words = match all.split_once(" (os error") {
        Some((words, _)) => words,
        None => all,
    };
    let mut rest = words.chars();
    match rest.next() {
        Some(first) => format!(in alloc; "{}{}", first.to_ascii_lowercase(), rest.as_str()),
        None => Ok(String::new(alloc)),
    }
}

impl Failure<'_> {
    /// Writes the line that says it. Where nobody reads a pipe any more there is none.
    pub fn write<W: Write>(&self, alloc: Global, out: &mut W) -> io::Result<()> {
        if self.error.kind() == ErrorKind::BrokenPipe {
            return Ok(());
        }
        let (tried, place) = (self.tried, self.place);
        let reason = reason_of(alloc, &self.error)?;
        writeln!(out, "rqcast: {tried} {place}: {reason}")
    }
}
