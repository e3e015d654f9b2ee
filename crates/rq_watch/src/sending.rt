//! How far a stream is sent.

use rq_cast::Sender;
use rq_cells::LAST_PART;

/// How many cells were sent, of those of the parts that were begun.
#[derive(Clone, Copy, Debug, Default, PartialEq, Eq)]
pub struct Sending {
    /// Whether a part was begun.
    pub is_begun: bool,
    /// How many cells the parts have that were begun.
    pub cells: u64,
    /// How many of them were sent.
    pub sent: u64,
    // How many bytes the parts have before this one in its round, and how many this one has.
    before: u64,
    bytes: u64,
    // How many cells were sent before it, and whether it is the last one.
    sent_before: u64,
    is_last: bool,
}

impl Sending {
    /// Begins with the next part, which may be the first one of a round.
    pub fn begin_part(&mut self, sender: &Sender<'_>) {
        let head = sender.head();
        self.is_begun = true;
        self.cells = self.cells.saturating_add(sender.cells());
        self.before = if sender.index() == 0 {
            0
        } else {
            self.before.saturating_add(self.bytes)
        };
        self.bytes = head.configuration.transfer_length();
        self.sent_before = self.sent;
        self.is_last = head.number >= LAST_PART;
    }

    /// Counts a cell.
    pub fn count(&mut self) {
        self.sent = self.sent.saturating_add(1);
    }

    /// About how many bytes of the stream are sent in this round: of a part as great a share as of its cells.
    pub fn done(&self) -> u64 {
        let sent = u128::from(self.sent.saturating_sub(self.sent_before));
        let cells = u128::from(self.cells.saturating_sub(self.sent_before));
        let share = (u128::from(self.bytes) * sent).checked_div(cells);
        let here = u64::try_from(share.unwrap_or(0)).unwrap_or(u64::MAX);
        self.before.saturating_add(here)
    }

    /// How many bytes the stream has, once its last part is sent.
    pub fn all(&self) -> Option<u64> {
        self.is_last
            .then_some(self.before.saturating_add(self.bytes))
    }
}
