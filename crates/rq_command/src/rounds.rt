//! The rounds of a stream.
ghost use Rattle.std.specs.Prelude.{◌≡◌, ℕ, ◌<◌, IfOk, IfErr, map};
ghost use Rattle.rq_streams.specs.Ends.{failed_calls};
ghost use Rattle.rq_devices.specs.Failed.{Fails, StopsReading};
ghost use Rattle.rq_command.specs.Rounds.{SendsRounds, StopsRounds, CountsSent, CountsHalt};
ghost use Rattle.rq_command.specs.RoundsSent.{IsUnsent, SendsRound, StopsRound};

use rq_cast::{Halt, Known, Order, Output, Sent, send_stream};
use rq_cells::Key;
use rq_devices::{Devices, Teller};
use rq_streams::{Counted, Stop};
use rq_words::SendJob;
use std::alloc::Global;

/// A stream as far as rounds of it are sent.
#[derive(Drop)]
pub(crate) struct Rounds<'w, W> {
    order: Order,
    key: Key,
    files: Vec<&'w str>,
    // How many are to be sent, and how many are.
    all: u64,
    number: u64,
    known: Known,
    // In all of them.
    sent: Sent,
    writer: W,
}

impl<'w, W> Rounds<'w, W> {
    ghost use Rattle.rq_words.specs.Values.{times_of};
    ghost use Rattle.rq_command.specs.RoundsSent.{IsUnsent};

    /// Those of a job, by its key, none of which is sent yet.
    pub(crate) fn new(alloc: Global, job: SendJob<'w>, key: Key, writer: W) -> Rounds<'w, W>
        requires { 0 < times_of job.rounds }
        ensures unsent { IsUnsent result }
        ensures order { result.order ≡ job.entry.order }
        ensures key { result.key ≡ key }
        ensures files { result.files ≡ job.entry.files }
        ensures all { result.all ≡ times_of job.entry.rounds }
        ensures writer { result.writer ≡ writer }
    {
        let all = job.rounds.times();
        Rounds {
            order: job.order,
            key,
            files: job.files,
            all,
            number: 0,
            known: Known::new(alloc, all > 1),
            sent: Sent::default(),
            writer,
        }
    }
}

// Sends what is read as the next round.
fn send_round<'w, D: Devices<'w>, T: Teller>(
    alloc: Global,
    rounds: Rounds<'w, D::Writer>,
    reader: D::Reader,
    devices: &mut D,
    teller: &mut T,
) -> Result<Rounds<'w, D::Writer>, (D::Writer, Halt)>
    requires part { 0 < rounds.order.part }
    requires step { 0 < rounds.order.ids.step }
    requires number { rounds.number < rounds.all }
    ensures sends { IfOk result (λ r. SendsRound D.Writer.contents (D.Reader.remaining reader) rounds.entry r (T.calls teller.old) (T.calls teller.new)
        (D.failed devices.old) (D.failed devices.new)) }
    ensures stops { IfErr result (λ e. StopsRound D.Writer.contents (D.Reader.remaining reader) rounds.entry e.0 e.1 (T.calls teller.old) (T.calls teller.new)
        (D.failed devices.old) (D.failed devices.new)) }
    ensures stays { D.stands devices.new ≡ D.stands devices.old }
    ensures kept { D.placed devices.new ≡ D.placed devices.old }
    ensures filed { D.filed devices.new ≡ D.filed devices.old }
    ensures earlier { D.earlier devices.new ≡ D.earlier devices.old }
{
    let Rounds {
        order,
        key,
        files,
        all,
        number,
        known,
        sent,
        writer,
    } = rounds;
    let mut input = Counted::new(reader);
    let mut output = Output::new(Counted::new(writer));
    let here = order.in_round(number);
    let ended = send_stream(alloc, &here, &key, known, &mut input, &mut output, teller);
    devices.count(&input);
    let counted = output.into_counted();
    devices.count(&counted);
    let writer = counted.into_inner();
    match ended {
        Ok((more, known)) => Ok(Rounds {
            order,
            key,
            files,
            all,
            number: number + 1,
            known,
            sent: sent.with(more),
            writer,
        }),
        Err(halt) => Err((writer, halt)),
    }
}

/// Opens files, also again, or standard input, where there are none.
pub(crate) fn open_files<'w, D: Devices<'w>>(
    alloc: Global,
    files: &[&'w str],
    devices: &mut D,
) -> Result<D::Reader, Stop>
    ensures bytes { IfOk result (λ r. D.Reader.remaining r ≡ D.stands devices.old (map (λ s. s.now) files.now)) }
    ensures stops { IfErr result StopsReading }
    ensures counts { Fails (D.failed devices.old) (D.failed devices.new) (failed_calls result) }
    ensures stays { D.stands devices.new ≡ D.stands devices.old }
    ensures kept { D.placed devices.new ≡ D.placed devices.old }
    ensures filed { D.filed devices.new ≡ D.filed devices.old }
    ensures earlier { D.earlier devices.new ≡ D.earlier devices.old }
{
    devices.open(Vec::from_slice(alloc, files)?)
}

/// Sends all rounds, of which the first reads this, and that one alone where it has no cell: no other has one then.
/// Gives the writer back.
pub(crate) fn send_rounds<'w, D: Devices<'w>, T: Teller>(
    alloc: Global,
    unsent: Rounds<'w, D::Writer>,
    reader: D::Reader,
    devices: &mut D,
    teller: &mut T,
) -> (D::Writer, Result<Sent, Halt>)
    requires part { 0 < unsent.order.part }
    requires step { 0 < unsent.order.ids.step }
    requires unsent { IsUnsent unsent }
    requires bytes { D.Reader.remaining reader ≡ D.stands devices.old (map (λ s. s.now) unsent.files.items) }
    ensures sends { IfOk result.1 (SendsRounds unsent.entry.order unsent.entry.key unsent.entry.all
        (D.stands devices.old (map (λ s. s.now) unsent.entry.files.items)) (T.calls teller.old) (T.calls teller.new)
        (D.Writer.contents unsent.entry.writer) (D.Writer.contents result.0)) }
    ensures counts { IfOk result.1 (CountsSent (D.failed devices.old) (D.failed devices.new)) }
    ensures stops { IfErr result.1 (λ halt. (lost : ℕ) × CountsHalt (D.failed devices.old) (D.failed devices.new) halt lost
        × StopsRounds unsent.entry.order unsent.entry.key unsent.entry.all (D.stands devices.old (map (λ s. s.now) unsent.entry.files.items))
        (T.calls teller.old) (T.calls teller.new) (D.Writer.contents unsent.entry.writer) (D.Writer.contents result.0) halt lost) }
    ensures kept { D.placed devices.new ≡ D.placed devices.old }
    ensures filed { D.filed devices.new ≡ D.filed devices.old }
    ensures earlier { D.earlier devices.new ≡ D.earlier devices.old }
{
    let mut rounds = match send_round(alloc, unsent, reader, devices, teller) {
        Ok(rounds) => rounds,
        Err((writer, halt)) => return (writer, Err(halt)),
    };
    if rounds.sent.cells == 0 {
        return (rounds.writer, Ok(rounds.sent));
    }
    for _round in 1..rounds.all {
        let reader = match open_files(alloc, rounds.files.as_slice(), devices) {
            Ok(reader) => reader,
            Err(stop) => return (rounds.writer, Err(Halt::By(stop))),
        };
        rounds = match send_round(alloc, rounds, reader, devices, teller) {
            Ok(rounds) => rounds,
            Err((writer, halt)) => return (writer, Err(halt)),
        };
    }
    (rounds.writer, Ok(rounds.sent))
}
