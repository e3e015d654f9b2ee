//! What the program can be asked to do.

/// What the program is asked to do.
#[derive(Clone, Copy, Debug, PartialEq, Eq)]
pub enum Job {
    /// Sends an object in packets of at most `size` bytes of payload, with `repair` repair packets
    /// for each source block.
    Send { size: u16, repair: u32 },
    /// Receives an object.
    Receive,
}
