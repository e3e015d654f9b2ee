//! What the program says at its end.
ghost use Rattle.std.specs.Prelude.{◌≡◌};
ghost use Rattle.std.specs.Option.{option_copied};
ghost use Rattle.rq_streams.specs.Asked.{outcome_status, status_of};

use crate::run::{Outcome, Stop};
use std::io::Write;

/// Writes the lines that say how many frames a run skipped, where it skipped some, and how it ended,
/// where that is to be said, and answers the program's status: 0 where the output is written, 1 after a
/// fault, 2 where it is incomplete, 3 where something is refused, and 4 for `None`, which stands for words
/// that ask for no job. A failed write is ignored.
pub fn report<W: Write>(ended: Option<&Result<(Outcome, u64), Stop>>, out: &mut W) -> u8
    ensures { result ≡ status_of (option_copied ended.entry) }
{
    match ended {
        Some(Ok((outcome, skipped))) => {
            if *skipped > 0 {
                let _ = writeln!(out, "skipped {}", *skipped);
            }
            report_outcome(*outcome, out)
        }
        Some(Err(Stop::Fault)) => {
            let _ = writeln!(out, "fault");
            1
        }
        Some(Err(Stop::Refused(refusal))) => {
            let _ = writeln!(out, "refused {}", refusal.code());
            3
        }
        None => {
            let _ = writeln!(out, "usage: rq send SIZE REPAIR | rq receive");
            4
        }
    }
}

// Writes the line that says how a run ended that nothing stopped, where there is one.
fn report_outcome<W: Write>(outcome: Outcome, out: &mut W) -> u8
    ensures { result ≡ outcome_status outcome }
{
    match outcome {
        Outcome::Written => 0,
        Outcome::Incomplete => {
            let _ = writeln!(out, "incomplete");
            2
        }
    }
}
