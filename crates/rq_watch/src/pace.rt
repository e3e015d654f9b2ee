//! When cells leave.

use rq_cast::{Pace, Sender};
use std::time::{Clock, Duration, Instant};
use std::{io, thread};

// How far a sender that fell behind may catch up at once, in nanoseconds.
const BURST: u64 = 1_000_000;

// Nanoseconds a second.
const SECOND: u128 = 1_000_000_000;

/// Lets cells leave at a rate at most, but for a millisecond's worth of them at once.
#[derive(Drop)]
pub struct Pacer<'a, C: Clock> {
    clock: &'a C,
    rate: Option<u64>,
    start: Option<Instant>,
    // When the next cell may leave, in nanoseconds from the start.
    due: u64,
}

impl<'a, C: Clock> Pacer<'a, C> {
    /// For a rate in bits a second. With none nothing waits.
    pub fn new(clock: &'a C, rate: Option<u64>) -> Pacer<'a, C> {
        Pacer {
            clock,
            rate,
            start: None,
            due: 0,
        }
    }

    /// Lets cells leave at another rate from now on.
    pub fn set_rate(&mut self, rate: Option<u64>) {
        self.rate = rate;
    }

    // Nanoseconds from the first cell on.
    fn elapsed(&mut self) -> io::Result<u64> {
        let start = match self.start {
            Some(start) => start,
            None => Instant::now(self.clock)?,
        };
        self.start = Some(start);
        let elapsed = start.elapsed(self.clock)?;
        Ok(u64::try_from(elapsed.as_nanos()).unwrap_or(u64::MAX))
    }
}

// How long so many bytes take, in nanoseconds.
fn time_of(bytes: usize, rate: u64) -> u64 {
    let bits = (bytes as u128) * 8;
    let time = (bits * SECOND).checked_div(u128::from(rate));
    u64::try_from(time.unwrap_or(0)).unwrap_or(u64::MAX)
}

impl<C: Clock> Pace for Pacer<'_, C> {
    fn begin_part(&mut self, _sender: &Sender<'_>) {}

    // Where the clock fails it waits for nothing.
    fn wait(&mut self, bytes: usize) {
        let Some(rate) = self.rate else {
            return;
        };
        let Ok(now) = self.elapsed() else {
            return;
        };
        let due = self.due.max(now.saturating_sub(BURST));
        if due > now {
            thread::sleep(self.clock, Duration::from_nanos(due - now));
        }
        self.due = due.saturating_add(time_of(bytes, rate));
    }

    fn tell_call(&mut self, _cell: &[u8], _is_lost: bool) {}
}
