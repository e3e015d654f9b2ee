//! What may be cells.
use crate::head::Head;

/// What stands at a place of bytes.
#[derive(Clone, Copy, Debug, PartialEq, Eq)]
pub(crate) enum Place {
    /// The bytes don't say it yet: they are too few.
    Open,
    /// No head.
    Nothing,
    /// This head of the stream's, and as many bytes as its cell has.
    Headed(Head),
    /// The head of another stream's cells, or of cells of another length.
    Other,
}

/// A head, behind which as many bytes stand as its cell has.
#[derive(Clone, Copy, Debug, PartialEq, Eq)]
pub(crate) struct LongHead {
    /// Where it begins.
    pub at: usize,
    /// The head.
    pub head: Head,
}

/// What stands at the first places of some bytes, before cells are looked at.
#[derive(Debug, PartialEq, Eq, Drop)]
pub(crate) struct LongHeads {
    /// How many places these are.
    pub places: usize,
    /// What may be cells of the stream.
    pub heads: Vec<LongHead>,
    /// How many heads are those of others.
    pub others: usize,
}
