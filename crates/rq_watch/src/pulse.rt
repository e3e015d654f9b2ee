//! What passes in a time.

use std::io;
use std::time::{Clock, Duration, Instant};

// How long it waits before it tells again, in milliseconds.
const PERIOD: u128 = 1000;

/// Counts bytes, and says at the first of them past each second how many came in it.
#[derive(Drop)]
pub struct Pulse<'a, C: Clock> {
    clock: &'a C,
    // When it began first, when it began last or a round did, and when it last said how many came.
    start: Option<Instant>,
    begun: Option<Instant>,
    told: Option<Instant>,
    recent: u64,
    bytes: u64,
}

impl<'a, C: Clock> Pulse<'a, C> {
    /// By a clock, which isn't asked yet.
    pub fn new(clock: &'a C) -> Pulse<'a, C> {
        Pulse {
            clock,
            start: None,
            begun: None,
            told: None,
            recent: 0,
            bytes: 0,
        }
    }

    /// Begins to count, and forgets what was counted before.
    pub fn begin(&mut self) {
        self.begun = Instant::now(self.clock).ok();
        self.start = self.start.or(self.begun);
        self.told = self.begun;
        self.recent = 0;
        self.bytes = 0;
    }

    /// Begins a round: seconds count from here on.
    pub fn begin_round(&mut self) {
        self.begun = Instant::now(self.clock).ok();
    }

    /// Begins to count anew, from the time on that it is.
    pub fn renew(&mut self) {
        self.begin();
        self.start = self.begun;
    }

    /// How many bytes came since it began last.
    pub fn bytes(&self) -> u64 {
        self.bytes
    }

    // How long a time is ago: nothing where the clock fails.
    fn since(&self, time: Option<Instant>) -> Duration {
        match time {
            Some(time) => time.elapsed(self.clock).unwrap_or(Duration::ZERO),
            None => Duration::ZERO,
        }
    }

    /// How long it is since it began first.
    pub fn elapsed(&self) -> Duration {
        self.since(self.start)
    }

    /// How many seconds it is since it began last, or a round.
    pub fn seconds(&self) -> u64 {
        self.since(self.begun).as_secs()
    }

    /// Counts bytes alone.
    pub fn count(&mut self, bytes: usize) {
        self.bytes = self.bytes.saturating_add(bytes as u64);
        self.recent = self.recent.saturating_add(bytes as u64);
    }

    /// How many bytes came a second, where one has passed since it last said so.
    pub fn rate(&mut self) -> Option<u64> {
        match self.try_rate() {
            Ok(rate) => rate,
            Err(_) => None,
        }
    }

    fn try_rate(&mut self) -> io::Result<Option<u64>> {
        let now = Instant::now(self.clock)?;
        let Some(told) = self.told else {
            self.told = Some(now);
            return Ok(None);
        };
        let passed = now.duration_since(told).as_millis();
        if passed < PERIOD {
            return Ok(None);
        }
        self.told = Some(now);
        let rate = u128::from(self.recent) * 1000 / passed.max(PERIOD);
        self.recent = 0;
        Ok(Some(u64::try_from(rate).unwrap_or(u64::MAX)))
    }
}
