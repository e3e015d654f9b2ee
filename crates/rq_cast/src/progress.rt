//! What is told of a run while it goes on.

use crate::seen::Seen;
use raptorq::Decoder;

/// Is told how far a run has come, and asked whether its stream is silent. Nothing is promised of what is told, nor of
/// how often: but for streams that are said to be silent, the run does the same whoever is told.
pub trait Progress {
    /// Called after each read: with how many bytes it brought, what was seen so far, and the decoder of the
    /// first part that isn't settled, where a cell of it came.
    fn tell(&mut self, bytes: usize, seen: &Seen, decoder: Option<&Decoder>);

    /// Asked after each read where a run gives up a stream that is silent for so many seconds, with what was seen so
    /// far: whether this one is, while cells of others come.
    fn is_silent(&mut self, _seconds: u64, _seen: &Seen) -> bool {
        false
    }
}

/// Tells nobody.
#[derive(Clone, Copy, Debug, Default)]
pub struct Silent;

impl Progress for Silent {
    fn tell(&mut self, _bytes: usize, _seen: &Seen, _decoder: Option<&Decoder>) {}
}
