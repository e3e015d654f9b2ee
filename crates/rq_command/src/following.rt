//! One stream after another, each into a file that is named by it.
ghost use Rattle.std.specs.Prelude.{◌≡◌, ◌⊎◌, ℕ, ◌+◌, ◌-◌, ◌^◌, ◌<◌, [], map, Err, IfNone, OnOk, false};
ghost use Rattle.rq_streams.specs.Counted.{failed_count};
ghost use Rattle.rq_streams.specs.Ends.{failed_calls};
ghost use Rattle.rq_cast.specs.Received.{is_given_up, wish_over};
ghost use Rattle.rq_cast.specs.Input.{counted_of, is_put_back, last_piece, unread};
ghost use Rattle.rq_devices.specs.Failed.{Fails};
ghost use Rattle.rq_devices.specs.Spots.{InFolder};
ghost use Rattle.rq_command.specs.Following.{EndsOne, FiledBy, PassesOver, FollowsUpTo, over, with_one};
ghost use Rattle.rq_command.specs.Program.{FailsReceiving};

use crate::ending::Streams;
use raptorq::error::Error;
use raptorq::systematic_constants::SystematicTable;
use rq_cast::{Ending, Input, Seen, run_receive};
use rq_cells::{Key, STREAM_LENGTH, Wanted};
use rq_devices::{Devices, Teller};
use rq_streams::{Counted, Stop};
use std::alloc::{AllocError, Global};

// How many streams that came last are passed over.
const RECENT: u64 = 8;

/// What streams are taken by, and where they go.
#[derive(Clone, Copy)]
pub(crate) struct Following<'a, 'w> {
    pub alloc: Global,
    pub key: &'a Key,
    pub table: &'a SystematicTable,
    pub window: u32,
    pub timeout: Option<u64>,
    pub folder: &'w str,
}

// The stream that ends so, and how, where another one may begin behind it: it is whole, or given up.
fn over(ended: &Result<Ending, Stop>) -> Option<(Ending, [u8; STREAM_LENGTH])>
    ensures { result ≡ over ended.now }
{
    match ended {
        Ok(ending) => match ending {
            Ending::Written { stream } | Ending::GivenUp { stream, .. } => Some((*ending, *stream)),
            Ending::Incomplete { .. } => None,
        },
        Err(_) => None,
    }
}

// One stream more that ends so.
fn with_one(streams: Streams, ending: Ending) -> Streams
    requires { streams.whole + streams.given_up < 2 ^ 64 - 1 }
    ensures { result ≡ with_one streams ending }
{
    match ending {
        Ending::Written { .. } => Streams {
            whole: streams.whole + 1,
            ..streams
        },
        Ending::GivenUp { .. } => Streams {
            given_up: streams.given_up + 1,
            ..streams
        },
        Ending::Incomplete { .. } => streams,
    }
}

// Puts a stream in its place where it is all written, and else takes away what was. Of one that ends the run a failed
// call is no fault then.
fn file<'w, D: Devices<'w>>(
    devices: &mut D,
    folder: &'w str,
    writer: D::Writer,
    ended: Result<Ending, Stop>,
) -> Result<Ending, Stop>
    ensures same { (ended ≡ result) ⊎ (result ≡ Err Stop.Fault) }
    ensures filed { FiledBy result (D.Writer.contents writer) (D.filed devices.old) (D.filed devices.new) }
    ensures kept { D.placed devices.new ≡ D.placed devices.old }
    ensures earlier { D.earlier devices.new ≡ D.earlier devices.old }
    ensures failures { (n : ℕ) × Fails (D.failed devices.old) (D.failed devices.new) n × FailsReceiving result (failed_calls ended + n) }
{
    match ended {
        Ok(Ending::Written { stream }) => {
            devices.finish_in(folder, writer, Some(stream))?;
            ended
        }
        Ok(Ending::GivenUp { .. }) => {
            devices.finish_in(folder, writer, None)?;
            ended
        }
        Ok(Ending::Incomplete { .. }) | Err(_) => {
            let _ = devices.finish_in(folder, writer, None);
            ended
        }
    }
}

// Takes one stream.
fn follow_one<'w, D: Devices<'w>, T: Teller>(
    run: &Following<'_, 'w>,
    passed: &[Vec<u8>],
    input: &mut Input<D::Reader>,
    devices: &mut D,
    teller: &mut T,
) -> (Result<Ending, Stop>, Seen)
    requires window { 0 < run.now.window }
    requires none { failed_count (counted_of input.old) ≡ 0 }
    ensures one { EndsOne run.now.table.now (wish_over run.now.table.now run.now.key.now [] (map (λ v. v.items) passed.now)) run.now.window (D.blank (InFolder run.now.folder.now))
        result.0 result.1 (unread D.Reader.remaining input.old) (unread D.Reader.remaining input.new) (last_piece input.new) (D.filed devices.old) (D.filed devices.new) }
    ensures kept { D.placed devices.new ≡ D.placed devices.old }
    ensures earlier { D.earlier devices.new ≡ D.earlier devices.old }
    ensures once { OnOk result.0 (is_put_back input.new ≡ false) }
    ensures patient { IfNone run.now.timeout (is_given_up result.0 ≡ false) }
    ensures failures { (n : ℕ) × Fails (D.failed devices.old) (D.failed devices.new) n
        × FailsReceiving result.0 (failed_count (counted_of input.new) + n) }
{
    let mut seen = Seen::default();
    let writer = match devices.create_in(run.folder) {
        Ok(writer) => writer,
        Err(stop) => return (Err(stop), seen),
    };
    let wanted = Wanted {
        key: run.key,
        table: run.table,
        name: &[],
        passed,
    };
    let mut writer = Counted::new(writer);
    let ended = run_receive(
        run.alloc,
        &wanted,
        run.window,
        run.timeout,
        input,
        &mut writer,
        &mut seen,
        teller,
    );
    devices.count(&writer);
    let ended = file(devices, run.folder, writer.into_inner(), ended);
    (ended, seen)
}

// Passes over a stream behind so many, and over the first of eight before it no more.
fn pass_over(
    alloc: Global,
    passed: &mut Vec<Vec<u8>>,
    whole: u64,
    stream: &[u8; STREAM_LENGTH],
) -> Result<(), AllocError>
    ensures { OnOk result (PassesOver whole (map (λ v. v.items) passed.old.items) stream.now (map (λ v. v.items) passed.new.items)) }
{
    let name = Vec::from_slice(alloc, stream)?;
    passed.insert(0, name)?;
    if whole >= RECENT && passed.len() > 8 {
        passed.remove(8);
    }
    Ok(())
}

/// Takes streams one after another, until the input ends or something stops a run. Answers how many they were, how the
/// run behind them ended, and what it saw.
pub(crate) fn follow_all<'w, D: Devices<'w>, T: Teller>(
    run: &Following<'_, 'w>,
    passed: Vec<Vec<u8>>,
    input: Input<D::Reader>,
    devices: &mut D,
    teller: &mut T,
) -> (Streams, Result<Ending, Stop>, Seen)
    requires window { 0 < run.now.window }
    requires none { failed_count (counted_of input) ≡ 0 }
    ensures all { FollowsUpTo run.now.table.now run.now.key.now (map (λ v. v.items) passed.items) run.now.window run.now.timeout (D.blank (InFolder run.now.folder.now))
        (unread D.Reader.remaining input) result.0 result.1 result.2 (D.filed devices.old) (D.filed devices.new) }
    ensures kept { D.placed devices.new ≡ D.placed devices.old }
    ensures earlier { D.earlier devices.new ≡ D.earlier devices.old }
    ensures failures { (n : ℕ) × Fails (D.failed devices.old) (D.failed devices.new) n × FailsReceiving result.1 n }
{
    let (mut input, mut passed) = (input, passed);
    let mut streams = Streams::default();
    let mut last = [0; STREAM_LENGTH];
    'streams: for number in 0..u64::MAX {
        let (ended, seen) = follow_one(run, passed.as_slice(), &mut input, devices, teller);
        let Some(found) = over(&ended) else {
            devices.count(&input.into_counted());
            return (streams, ended, seen);
        };
        let (ending, stream) = found;
        teller.tell_stream(&stream, ending, &seen);
        input.put_back();
        streams = with_one(streams, ending);
        let Ok(()) = pass_over(run.alloc, &mut passed, number, &stream) else {
            return (streams, Err(Stop::Refused(Error::OutOfMemory)), seen);
        };
        last = stream;
    }
    // More are never counted.
    let ended = Ok(Ending::Written { stream: last });
    (streams, ended, Seen::default())
}
