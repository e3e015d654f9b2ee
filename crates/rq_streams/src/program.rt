//! The program from its words to its end, over any reader and any writer.
ghost use Rattle.std.specs.Prelude.{◌≡◌, ◌↔◌, ◌<◌, ◌-◌, ◌^◌, IsNone, IfNone, IfSome, IsSomeAnd, map, string_bytes};
ghost use Rattle.rq_streams.specs.declared.jobs.Job.{Job};
ghost use Rattle.rq_streams.specs.Asked.{AsksFor};
ghost use Rattle.rq_streams.specs.Counted.{failed_count, inner};
ghost use Rattle.rq_streams.specs.Ends.{EndsAtFailure};
ghost use Rattle.rq_streams.specs.Program.{DoesJob};

use crate::counted::Counted;
use crate::jobs::Job;
use crate::receive::run_receive;
use crate::run::{Outcome, Stop};
use crate::send::run_send;
use crate::words::job;
use raptorq::systematic_constants::SystematicTable;
use std::alloc::Global;
use std::io::{Read, Write};

// Does the job over the built-in table, and answers how many frames were skipped beside the outcome.
fn run_job<R: Read, W: Write>(
    alloc: Global,
    asked: Job,
    reader: &mut Counted<R>,
    writer: &mut Counted<W>,
) -> Result<(Outcome, u64), Stop>
    requires reads { failed_count reader.old < 2 ^ 64 - 1 }
    requires writes { failed_count writer.old < 2 ^ 64 - 1 }
    ensures failures { EndsAtFailure reader.old writer.old result reader.new writer.new
        (W.contents (inner writer.old)) (W.contents (inner writer.new)) }
    ensures does { DoesJob asked result
        (R.remaining (inner reader.old)) (W.contents (inner writer.old)) (W.contents (inner writer.new)) }
{
    let table = SystematicTable::built_in(alloc)?;
    match asked {
        Job::Send { size, repair } => {
            let sent = run_send(alloc, &table, reader, writer, size, repair)?;
            Ok((sent, 0))
        }
        Job::Receive => run_receive(alloc, &table, reader, writer),
    }
}

/// The program from the words after its name to its end: [`job`] says what they ask for, and
/// [`run_send`] or [`run_receive`] does it over the built-in table. Answers how many frames were
/// skipped beside the outcome, 0 after a send. `None` stands for words that ask for no job, and then
/// nothing is read or written.
///
/// What it answers is what [`report`](crate::report) is handed.
pub fn run_words<R: Read, W: Write>(
    alloc: Global,
    words: &[String],
    reader: &mut Counted<R>,
    writer: &mut Counted<W>,
) -> Option<Result<(Outcome, u64), Stop>>
    requires reads { failed_count reader.old < 2 ^ 64 - 1 }
    requires writes { failed_count writer.old < 2 ^ 64 - 1 }

    // Exactly words that ask for no job are answered `None`.
    ensures unasked { IsNone result ↔ ((wanted : Job) → ¬ AsksFor wanted (map string_bytes words.now)) }
    ensures untouched { IfNone result ((reader.new ≡ reader.old) × (writer.new ≡ writer.old)) }

    // The first failed call ends the run, and nothing else is a fault.
    ensures failures { IfSome result (λ ended. EndsAtFailure reader.old writer.old ended reader.new writer.new
        (W.contents (inner writer.old)) (W.contents (inner writer.new))) }

    // What the words ask for is done: what `run_send` or `run_receive` promises over the built-in rows.
    ensures does { (wanted : Job) → AsksFor wanted (map string_bytes words.now) → IsSomeAnd result (λ ended. DoesJob wanted ended
        (R.remaining (inner reader.old)) (W.contents (inner writer.old)) (W.contents (inner writer.new))) }
{
    let asked = job(words)?;
    Some(run_job(alloc, asked, reader, writer))
}
