//! The line that shows how far a run has come.
ghost use Rattle.std.specs.Prelude.{◌≤◌};

use crate::amounts::{Amount, Time};
use std::io;
use std::io::Write;

/// How many columns it has at most, so that it stands in a terminal of 40.
pub const COLUMNS: usize = 39;

/// How far a run has come.
#[derive(Clone, Copy, Debug, Default, PartialEq, Eq)]
pub struct Course {
    /// How much is done, in some measure.
    pub done: u64,
    /// How much there is to do in that measure, where it is known.
    pub all: Option<u64>,
    /// How many packets are missing, where it is known.
    pub missing: Option<u64>,
    /// How many bytes came or went in the last second.
    pub rate: u64,
    /// How many seconds it took so far.
    pub seconds: u64,
}

impl Course {
    // How many percent are done.
    fn percent(&self, all: u64) -> u64 {
        let percent = (u128::from(self.done) * 100).checked_div(u128::from(all));
        u64::try_from(percent.unwrap_or(0)).unwrap_or(100).min(100)
    }

    // How many seconds it still takes, if it goes on as it did.
    fn left(&self, all: u64) -> Option<u64> {
        let rest = u128::from(all.saturating_sub(self.done));
        let left = (rest * u128::from(self.seconds)).checked_div(u128::from(self.done))?;
        u64::try_from(left).ok()
    }

    // Writes what is known: how many percent, bytes a second, the time left, and what is missing.
    fn write<W: Write>(&self, out: &mut W) -> io::Result<()> {
        if let Some(all) = self.all {
            write!(out, "{}%, ", self.percent(all))?;
        }
        write!(out, "{}/s", Amount(self.rate))?;
        if let Some(all) = self.all
            && let Some(left) = self.left(all)
        {
            write!(out, ", {} left", Time(left))?;
        }
        if let Some(missing) = self.missing {
            write!(out, ", lacks {missing}")?;
        }
        Ok(())
    }

    /// Puts it into a line, where what stands behind the last column is cut. Answers how many columns it has.
    pub fn fill(&self, line: &mut [u8; COLUMNS]) -> usize
        ensures { result ≤ 39 }
    {
        let mut rest = line.as_mut_slice();
        // It fails where the line is full.
        let _ = self.write(&mut rest);
        COLUMNS.saturating_sub(rest.len())
    }
}
