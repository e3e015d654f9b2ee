//! The words of the line.

use std::env;
use std::env::{Env, FillError};
use std::io::ErrorKind;

/// The words after the program's name.
#[derive(Debug, Drop)]
pub enum Words {
    /// All are text.
    Texts(Vec<String>),
    /// The one of this number, from 1, isn't.
    NoText(usize),
    /// There is no memory for them.
    NoMemory,
}

// How many bytes of a word are looked at to tell whether it is text.
const LONGEST: usize = 4096;

// The number of the first word that isn't text. One that is longer than can be looked at counts as none.
fn first_no_text(rt: &HostRuntime) -> usize {
    let mut word = [0u8; LONGEST];
    for number in 1..usize::MAX {
        match rt.arg(number, &mut word) {
            Ok(length) if str::from_utf8(&word[..length]).is_ok() => {}
            Ok(_) | Err(FillError::TooLong) => return number,
            Err(FillError::NotPresent) => break,
        }
    }
    0
}

/// Reads the words after the program's name.
pub fn read_words(rt: &HostRuntime) -> Words {
    match env::args(rt) {
        Ok(words) => match words.skip(1).collect(rt.alloc()) {
            Ok(words) => Words::Texts(words),
            Err(_) => Words::NoMemory,
        },
        Err(error) if error.kind() == ErrorKind::OutOfMemory => Words::NoMemory,
        Err(_) => Words::NoText(first_no_text(rt)),
    }
}
