//! What senders and receivers of cells promise together.
ghost use Rattle.rq_cast.specs.Laws.{SentCellsAreFound, SentAreOneSenders, PreparedPartsAreSent, RoundsAreOneSenders, EachIsSentOnce, RoundsFollow};
ghost use Rattle.rq_cast.specs.Windows.{NoWindowDoesBetter};

/// A cell that a [`Sender`](crate::Sender) sent is found among those of its stream, wherever it stands among bytes.
pub fn sent_cells_are_found()
    ensures { SentCellsAreFound }
{}

/// The cells of a stream's parts, whichever come, in whatever order and however often, are those of one sender, of
/// which [`run_receive`](crate::run_receive) writes each part exactly where they determine it while it waits for it.
pub fn sent_are_one_senders()
    ensures { SentAreOneSenders }
{}

/// Where the cells that came while the first part that isn't settled was kept don't determine it, another object makes
/// the same packets: so no receiver tells it by these cells.
pub fn no_window_does_better()
    ensures { NoWindowDoesBetter }
{}

/// What [`send_stream`](crate::send_stream) makes ready sends a stream over all rows, as receivers have them, in cells
/// that are as long as each other.
pub fn prepared_parts_are_sent()
    ensures { PreparedPartsAreSent }
{}

/// Cells of several rounds of a stream, whichever come, are those of one sender: a receiver that joins late, or that
/// lacks packets of one round, takes those of the next together with what it has.
pub fn rounds_are_one_senders()
    ensures { RoundsAreOneSenders }
{}

/// A [`Sender`](crate::Sender) sends each of its ids of each block, and once.
pub fn each_is_sent_once()
    ensures { EachIsSentOnce }
{}

/// Each round of a part sends the ids that follow those of the one before, and where they don't fit below 2^24 it begins
/// again at the least of its series.
pub fn rounds_follow()
    ensures { RoundsFollow }
{}
