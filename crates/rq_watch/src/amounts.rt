//! Bytes and times as people read them.

use std::fmt;

/// A number of bytes, in three digits.
#[derive(Clone, Copy, Debug, PartialEq, Eq)]
pub struct Amount(pub u64);

// The unit of a number of bytes, and what it is called.
fn unit_of(bytes: u64) -> (u64, &'static str) {
    match bytes {
        0..=999 => (1, "B"),
        1_000..=999_949 => (1_000, "kB"),
        999_950..=999_949_999 => (1_000_000, "MB"),
        999_950_000..=999_949_999_999 => (1_000_000_000, "GB"),
        _ => (1_000_000_000_000, "TB"),
    }
}

impl fmt::Display for Amount {
    fn fmt<W: fmt::Write>(&self, f: &mut fmt::Formatter<W>) -> fmt::Result {
        let bytes = self.0;
        let (unit, name) = unit_of(bytes);
        if unit == 1 {
            return write!(f, "{bytes} {name}");
        }
        let rounded = bytes.saturating_add(unit / 20);
        let tenths = rounded.checked_div(unit / 10).unwrap_or(rounded);
        let (whole, part) = (tenths / 10, tenths % 10);
        if whole < 100 {
            write!(f, "{whole}.{part} {name}")
        } else {
            write!(f, "{whole} {name}")
        }
    }
}

/// A time in seconds, as hours, minutes and seconds.
#[derive(Clone, Copy, Debug, PartialEq, Eq)]
pub struct Time(pub u64);

impl fmt::Display for Time {
    fn fmt<W: fmt::Write>(&self, f: &mut fmt::Formatter<W>) -> fmt::Result {
        let (hours, minutes, seconds) = (self.0 / 3600, self.0 / 60 % 60, self.0 % 60);
        if hours > 0 {
            write!(f, "{hours}:{minutes:02}:{seconds:02}")
        } else {
            write!(f, "{minutes}:{seconds:02}")
        }
    }
}
