//! The shards of a file, made.
ghost use Rattle.std.specs.Prelude.{◌≡◌, ◌-◌, ◌^◌, ◌<◌, IfOk, IfErr, OnOk};
ghost use Rattle.rq_streams.specs.Counted.{failed_count, inner};
ghost use Rattle.rq_cast.specs.Output.{counting, sink, CountsLost};
ghost use Rattle.rq_command.specs.Program.{end_of, Failures};
ghost use Rattle.rq_command.specs.Splitting.{order_of, SendsWhole, StopsWhole, CountsStop, EndsSplitting};

use crate::ending::End;
use crate::rounds::open_files;
use rq_cast::{Halt, Ids, Known, Order, Output, Pace, Repair, Sent, send_stream};
use rq_cells::Key;
use rq_devices::{Devices, Place, Teller, key_of, put};
use rq_streams::{Counted, Stop};
use rq_words::SplitJob;
use std::alloc::Global;
use std::io::{Read, Write};

// Which cells all shards have together: those of all ids, of which each has as many.
fn order_of(job: &SplitJob<'_>) -> Order
    ensures { result ≡ order_of job.now }
{
    Order {
        part: job.part,
        symbol_size: job.symbol_size,
        repair: Repair::Shares(job.shares),
        ids: Ids {
            first: 0,
            step: 1,
            round: 0,
        },
    }
}

// Sends what is read once. It stops where a cell is lost.
fn send_whole<R: Read, W: Write, P: Pace>(
    alloc: Global,
    order: &Order,
    key: &Key,
    reader: &mut Counted<R>,
    output: &mut Output<W>,
    pace: &mut P,
) -> Result<Sent, Stop>
    requires part { 0 < order.now.part }
    requires step { 0 < order.now.ids.step }
    requires reads { failed_count reader.old < 2 ^ 64 - 1 }
    requires writes { failed_count (counting output.old) < 2 ^ 63 }
    ensures sends { IfOk result (SendsWhole order.now key.now (R.remaining (inner reader.old)) (R.remaining (inner reader.new))
        (W.contents (sink output.old)) (W.contents (sink output.new))) }
    ensures counts { OnOk result (CountsLost output.old output.new 0 0) }
    ensures reader { OnOk result (failed_count reader.new ≡ failed_count reader.old) }
    ensures stops { IfErr result (StopsWhole order.now key.now (R.remaining (inner reader.old)) (R.remaining (inner reader.new))
        (W.contents (sink output.old)) (W.contents (sink output.new))) }
    ensures failed { IfErr result (CountsStop reader.old reader.new output.old output.new) }
{
    let known = Known::new(alloc, false);
    let sent = match send_stream(alloc, order, key, known, reader, output, pace) {
        Ok((sent, _)) => sent,
        Err(Halt::By(stop)) => return Err(stop),
        // What is sent once isn't compared with another round.
        Err(Halt::Changed(_)) => return Err(Stop::Fault),
    };
    if sent.lost > 0 {
        return Err(Stop::Fault);
    }
    Ok(sent)
}

/// Splits a file into shards: its cells are sent once, part by part, each into the shard that its id says. The folder
/// is there once all are whole.
pub(crate) fn split<'w, D: Devices<'w>, T: Teller>(
    alloc: Global,
    job: &SplitJob<'w>,
    devices: &mut D,
    teller: &mut T,
) -> Result<End, Stop>
    requires part { 0 < job.now.part }
    ensures does { EndsSplitting job.entry.now (D.stands devices.old) D.blank (end_of result) (D.placed devices.old) (D.placed devices.new) }
    ensures filed { D.filed devices.new ≡ D.filed devices.old }
    ensures earlier { D.earlier devices.new ≡ D.earlier devices.old }
    ensures failures { Failures (end_of result) (D.failed devices.old) (D.failed devices.new) }
{
    let Some(key) = key_of(alloc, job.key, devices)? else {
        return Ok(End::EmptyKey);
    };
    let reader = open_files(alloc, &[job.file], devices)?;
    teller.begin(job.telling, None, devices.length(&reader));
    let place = Place::Shards {
        folder: job.folder,
        file: job.file,
        count: job.shares.all,
    };
    let mut output = Output::new(Counted::new(devices.create(place)?));
    let mut input = Counted::new(reader);
    let order = order_of(job);
    let made = send_whole(alloc, &order, &key, &mut input, &mut output, teller);
    devices.count(&input);
    let counted = output.into_counted();
    devices.count(&counted);
    let is_whole = made.is_ok();
    let made = put(devices, place, counted.into_inner(), made, is_whole)?;
    Ok(End::Sent(made))
}
