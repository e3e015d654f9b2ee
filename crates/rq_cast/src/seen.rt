//! What is seen of the bytes that are read.
ghost use Rattle.std.specs.Prelude.{◌≡◌};

use rq_cells::Heads;

/// What was seen in all that was read. A count stays at `u64::MAX`. As long as no wanted cell came,
/// any wanted head counts as the stream's, and a head that isn't wanted as another one's.
#[derive(Clone, Copy, Debug, Default, PartialEq, Eq)]
pub struct Seen {
    /// How many whole cells of the stream came, whatever their head says of its part.
    pub cells: u64,
    /// How many of the stream's cells were damaged behind their head.
    pub damaged: u64,
    /// How many heads were other streams', or of cells of another length.
    pub others: u64,
    /// How often a part was begun anew: where cells contradicted each other, where they determined what
    /// isn't named as they say or isn't sealed, or where more cells had another head. That is never where
    /// one sender made all of the stream's cells.
    pub restarted: u64,
    /// How many of the stream's cells were of parts past the window's end, and dropped.
    pub ahead: u64,
    /// How many were of parts that were whole already, and dropped.
    pub behind: u64,
}

impl Seen {
    ghost use Rattle.rq_cast.specs.Receiving.{SeesHeads};

    // With heads more.
    pub(crate) fn with(self, heads: Heads) -> Seen
        ensures { SeesHeads self heads result }
    {
        Seen {
            damaged: self.damaged.saturating_add(heads.damaged as u64),
            others: self.others.saturating_add(heads.others as u64),
            ..self
        }
    }
}
