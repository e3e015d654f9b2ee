//! How long a stream is silent.

use rq_cast::Seen;
use std::time::{Clock, Duration, Instant};

/// How long others are heard where a stream isn't: no cell of it comes, and no damaged one.
#[derive(Drop)]
pub struct Silence<'a, C: Clock> {
    clock: &'a C,
    // What was seen when the stream was heard last.
    seen: Seen,
    // When a cell of another was seen first behind that.
    since: Option<Instant>,
}

impl<'a, C: Clock> Silence<'a, C> {
    /// By a clock, which isn't asked yet.
    pub fn new(clock: &'a C) -> Silence<'a, C> {
        Silence {
            clock,
            seen: Seen::default(),
            since: None,
        }
    }

    /// Forgets the stream.
    pub fn begin(&mut self) {
        self.seen = Seen::default();
        self.since = None;
    }

    /// Whether cells of others are seen for so many seconds behind the last one of the stream, where so much was seen
    /// so far. Where the clock fails they aren't.
    pub fn lasts(&mut self, seconds: u64, seen: &Seen) -> bool {
        if seen.cells != self.seen.cells || seen.damaged != self.seen.damaged {
            self.seen = *seen;
            self.since = None;
            return false;
        }
        if seen.others == self.seen.others {
            return false;
        }
        match self.since {
            Some(since) => {
                let passed = since.elapsed(self.clock).unwrap_or(Duration::ZERO);
                passed.as_secs() >= seconds
            }
            None => {
                self.since = Instant::now(self.clock).ok();
                false
            }
        }
    }
}
