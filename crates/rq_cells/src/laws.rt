//! What cells promise.
ghost use Rattle.rq_cells.specs.Laws.{CellsAreRead, CellsAreWritten, CellsAreFound, StreamCellsAreFound, ShortBytesHoldNone, NothingBeforeFirst};

/// A cell is read as it was written, whatever stands behind it.
pub fn cells_are_read()
    ensures { CellsAreRead }
{}

/// Bytes in which a cell is read begin with that cell's bytes.
pub fn cells_are_written()
    ensures { CellsAreWritten }
{}

/// A cell that stands anywhere among bytes is found there, and among those of its stream.
pub fn cells_are_found()
    ensures cells { CellsAreFound }
    ensures of_stream { StreamCellsAreFound }
{}

/// Bytes that are shorter than a stream's cells hold none of them.
pub fn short_bytes_hold_none()
    ensures { ShortBytesHoldNone }
{}

/// Before the first wanted cell stands no wanted one of its stream.
pub fn nothing_before_first()
    ensures { NothingBeforeFirst }
{}
