//! The program from its words to its end, over any devices.
ghost use Rattle.std.specs.Prelude.{◌≡◌, ◌⊎◌, ℕ, ◌+◌, ◌<◌, map, option_map, Ok, Err, IfOk, IfErr, IfSome, true, false};
ghost use Rattle.rq_streams.specs.Ends.{failed_calls};
ghost use Rattle.rq_cast.specs.Received.{is_given_up};
ghost use Rattle.rq_devices.specs.Failed.{Fails};
ghost use Rattle.rq_words.specs.Values.{times_of};
ghost use Rattle.rq_devices.specs.Keyed.{key_file, IsKeyRead};
ghost use Rattle.rq_command.specs.Outside.{outside};
ghost use Rattle.rq_devices.specs.Spots.{IsFinished, spot_of};
ghost use Rattle.rq_command.specs.Placed.{is_whole};
ghost use Rattle.rq_command.specs.Program.{StopsJob, MindsTerminal, EndsSending, EndsForgetting, EndsJob, Forgets, end_of, Does, FailsReceiving, Failures, read_behind};

use crate::ending::End;
use crate::following::{Following, follow_all};
use crate::guarded::{check, repair};
use crate::protecting::protect_file;
use crate::rounds::{Rounds, open_files, send_rounds};
use crate::splitting::split;
use rq_cast::{Ending, Halt, Input, Seen, check_length, run_receive, standings_in};
use rq_cells::{Key, Wanted};
use rq_devices::{Devices, Place, Teller, Told, key_of, put, read_whole};
use rq_rows::full_table;
use rq_streams::{Counted, Stop};
use rq_words::{FollowJob, InfoJob, Job, ReceiveJob, SendJob, WIDEST_WINDOW, job};
use std::alloc::Global;
use std::convert::AsStr;

// Reads the key, and opens what is sent; none where the key is empty. A length that is known is checked before
// a byte of that is read.
fn prepare<'w, D: Devices<'w>, T: Teller>(
    alloc: Global,
    job: &SendJob<'w>,
    devices: &mut D,
    teller: &mut T,
) -> Result<Option<(Key, D::Reader)>, Stop>
    requires { 0 < job.now.order.part }
    ensures key { IfOk result (λ r. IsKeyRead (key_file (D.stands devices.old) (option_map (λ s. s.now) job.entry.now.key)) (option_map (λ o. o.0) r)) }
    ensures bytes { IfOk result (λ r. IfSome r (λ o. D.Reader.remaining o.1 ≡ D.stands devices.old (map (λ s. s.now) job.entry.now.files.items))) }
    ensures stops { IfErr result (StopsJob job.entry.now (D.stands devices.old)) }
    ensures counts { Fails (D.failed devices.old) (D.failed devices.new) (failed_calls result) }
    ensures stays { IfOk result (λ r. D.stands devices.new ≡ D.stands devices.old) }
    ensures kept { D.placed devices.new ≡ D.placed devices.old }
    ensures filed { D.filed devices.new ≡ D.filed devices.old }
    ensures earlier { D.earlier devices.new ≡ D.earlier devices.old }
    ensures told { T.calls teller.new ≡ T.calls teller.old }
{
    let Some(key) = key_of(alloc, job.key, devices)? else {
        return Ok(None);
    };
    let reader = open_files(alloc, job.files.as_slice(), devices)?;
    let length = devices.length(&reader);
    teller.begin(job.telling, job.rate, length);
    if let Some(length) = length {
        check_length(alloc, &job.order, length)?;
    }
    Ok(Some((key, reader)))
}

// Sends a stream part by part, in as many rounds as are asked for. Nothing is read where its cells would go to a
// terminal.
#[tactic(auto, using(crate::proofs::Doing::minds))]
fn send<'w, D: Devices<'w>, T: Teller>(
    alloc: Global,
    job: SendJob<'w>,
    devices: &mut D,
    teller: &mut T,
) -> Result<End, Stop>
    requires part { 0 < job.order.part }
    requires step { 0 < job.order.ids.step }
    requires rounds { 0 < times_of job.rounds }
    ensures terminal { MindsTerminal (D.terminal devices.old) (end_of result) }
    ensures does { EndsSending job.entry (outside (D.terminal devices.old) (T.calls teller.old) (T.calls teller.new)
        (D.failed devices.old) (D.failed devices.new) (D.earlier devices.old) (D.earlier devices.new) (D.stands devices.new))
        (D.stands devices.old) D.blank (end_of result) (D.placed devices.old) (D.placed devices.new) }
    ensures filed { D.filed devices.new ≡ D.filed devices.old }
    ensures earlier { D.earlier devices.new ≡ D.earlier devices.old }
    ensures failures { Failures (end_of result) (D.failed devices.old) (D.failed devices.new) }
{
    if devices.shows_output() {
        return Ok(End::AtTerminal);
    }
    let Some((key, reader)) = prepare(alloc, &job, devices, teller)? else {
        return Ok(End::EmptyKey);
    };
    let writer = devices.create(Place::Output)?;
    let rounds = Rounds::new(alloc, job, key, writer);
    let (writer, sent) = send_rounds(alloc, rounds, reader, devices, teller);
    let finished = devices.finish(Place::Output, writer, sent.is_ok());
    match sent {
        Ok(sent) => {
            finished?;
            Ok(End::Sent(sent))
        }
        Err(Halt::By(stop)) => Err(stop),
        Err(Halt::Changed(part)) => Ok(End::Changed(part)),
    }
}

// Whether all is written.
fn is_whole(ended: &Result<Ending, Stop>) -> bool
    ensures { result ≡ is_whole ended.now }
{
    matches!(ended, Ok(Ending::Written { .. }))
}

// Puts what was received in its place where it is all written.
fn put_received<'w, D: Devices<'w>>(
    devices: &mut D,
    place: Place<'w>,
    writer: D::Writer,
    ended: Result<Ending, Stop>,
) -> Result<Ending, Stop>
    requires { is_given_up ended ≡ false }
    ensures same { (ended ≡ result) ⊎ ((is_whole ended ≡ true) × (result ≡ Err Stop.Fault)) }
    ensures placed { IsFinished (spot_of place.entry) (is_whole ended) result (D.Writer.contents writer) (D.placed devices.old) (D.placed devices.new) }
    ensures failures { (n : ℕ) × Fails (D.failed devices.old) (D.failed devices.new) n × FailsReceiving result (failed_calls ended + n) }
    ensures filed { D.filed devices.new ≡ D.filed devices.old }
    ensures earlier { D.earlier devices.new ≡ D.earlier devices.old }
{
    let whole = is_whole(&ended);
    put(devices, place, writer, ended, whole)
}

// Opens what is received, behind what earlier runs kept of it, where there is a file for that.
fn open_input<'w, D: Devices<'w>>(
    devices: &mut D,
    state: Option<&'w str>,
    files: Vec<&'w str>,
) -> Result<D::Reader, Stop>
    ensures bytes { IfOk result (λ r. D.Reader.remaining r
        ≡ read_behind (option_map (λ s. s.now) state.entry) (D.earlier devices.old) (D.stands devices.old (map (λ s. s.now) files.entry.items))) }
    ensures fault { IfErr result (λ stop. stop ≡ Stop.Fault) }
    ensures counts { Fails (D.failed devices.old) (D.failed devices.new) (failed_calls result) }
    ensures kept { D.placed devices.new ≡ D.placed devices.old }
    ensures filed { D.filed devices.new ≡ D.filed devices.old }
    ensures earlier { D.earlier devices.new ≡ D.earlier devices.old }
{
    match state {
        Some(state) => devices.open_keeping(state, files),
        None => devices.open(files),
    }
}

// Takes away what was kept of a stream that is whole, and in its place.
fn forget<'w, D: Devices<'w>>(
    devices: &mut D,
    state: Option<&'w str>,
    put: Result<Ending, Stop>,
) -> Result<Ending, Stop>
    ensures same { EndsForgetting (option_map (λ s. s.now) state.entry) put result }
    ensures forgets { Forgets D.blank (option_map (λ s. s.now) state.entry) result (D.earlier devices.old) (D.earlier devices.new) }
    ensures failures { (n : ℕ) × Fails (D.failed devices.old) (D.failed devices.new) n × ((m : ℕ) → FailsReceiving put m → FailsReceiving result (m + n)) }
    ensures kept { D.placed devices.new ≡ D.placed devices.old }
    ensures filed { D.filed devices.new ≡ D.filed devices.old }
{
    let Some(state) = state else {
        return put;
    };
    if !is_whole(&put) {
        return put;
    }
    devices.forget(state)?;
    put
}

// Receives a stream. The file that it becomes is there before the first byte is read.
fn receive<'w, D: Devices<'w>, T: Teller>(
    alloc: Global,
    job: ReceiveJob<'w>,
    devices: &mut D,
    teller: &mut T,
) -> Result<End, Stop>
    requires { 0 < job.window }
    ensures does { EndsJob (Job.Receive job.entry) (outside (D.terminal devices.old) (T.calls teller.old) (T.calls teller.new)
        (D.failed devices.old) (D.failed devices.new) (D.earlier devices.old) (D.earlier devices.new) (D.stands devices.new))
        (D.stands devices.old) D.blank (end_of result) (D.placed devices.old) (D.placed devices.new) (D.filed devices.old) (D.filed devices.new) }
    ensures failures { Failures (end_of result) (D.failed devices.old) (D.failed devices.new) }
{
    let ReceiveJob {
        name,
        passed,
        window,
        key,
        output,
        state,
        files,
        telling,
    } = job;
    let Some(key) = key_of(alloc, key, devices)? else {
        return Ok(End::EmptyKey);
    };
    let table = full_table(alloc)?;
    let wanted = Wanted {
        key: &key,
        table: &table,
        name: name.as_slice(),
        passed: passed.as_slice(),
    };
    let reader = open_input(devices, state, files)?;
    teller.begin(telling, None, devices.length(&reader));
    let there = Place::of(output);
    let mut writer = Counted::new(devices.create(there)?);
    let mut input = Input::new(Counted::new(reader));
    let mut seen = Seen::default();
    let ended = run_receive(
        alloc,
        &wanted,
        window,
        None,
        &mut input,
        &mut writer,
        &mut seen,
        teller,
    );
    devices.count(&input.into_counted());
    devices.count(&writer);
    let placed = put_received(devices, there, writer.into_inner(), ended);
    Ok(End::Received(forget(devices, state, placed), seen))
}

// Receives streams one after another.
fn follow<'w, D: Devices<'w>, T: Teller>(
    alloc: Global,
    job: FollowJob<'w>,
    devices: &mut D,
    teller: &mut T,
) -> Result<End, Stop>
    requires { 0 < job.window }
    ensures does { EndsJob (Job.Follow job.entry) (outside (D.terminal devices.old) (T.calls teller.old) (T.calls teller.new)
        (D.failed devices.old) (D.failed devices.new) (D.earlier devices.old) (D.earlier devices.new) (D.stands devices.new))
        (D.stands devices.old) D.blank (end_of result) (D.placed devices.old) (D.placed devices.new) (D.filed devices.old) (D.filed devices.new) }
    ensures failures { Failures (end_of result) (D.failed devices.old) (D.failed devices.new) }
{
    let FollowJob {
        passed,
        window,
        key,
        folder,
        timeout,
        files,
        telling,
    } = job;
    let Some(key) = key_of(alloc, key, devices)? else {
        return Ok(End::EmptyKey);
    };
    let table = full_table(alloc)?;
    let reader = devices.open(files)?;
    teller.begin(telling, None, devices.length(&reader));
    let input = Input::new(Counted::new(reader));
    let run = Following {
        alloc,
        key: &key,
        table: &table,
        window,
        timeout,
        folder,
    };
    let (streams, last, seen) = follow_all(&run, passed, input, devices, teller);
    Ok(End::Followed(streams, last, seen))
}

// Lists the streams whose cells stand among bytes, by the widest window.
fn info<'w, D: Devices<'w>, T: Teller>(
    alloc: Global,
    job: InfoJob<'w>,
    devices: &mut D,
    teller: &mut T,
) -> Result<End, Stop>
    ensures does { EndsJob (Job.Info job.entry) (outside (D.terminal devices.old) (T.calls teller.old) (T.calls teller.new)
        (D.failed devices.old) (D.failed devices.new) (D.earlier devices.old) (D.earlier devices.new) (D.stands devices.new))
        (D.stands devices.old) D.blank (end_of result) (D.placed devices.old) (D.placed devices.new) (D.filed devices.old) (D.filed devices.new) }
    ensures failures { Failures (end_of result) (D.failed devices.old) (D.failed devices.new) }
{
    let InfoJob {
        key,
        files,
        telling,
    } = job;
    let Some(key) = key_of(alloc, key, devices)? else {
        return Ok(End::EmptyKey);
    };
    let table = full_table(alloc)?;
    let reader = devices.open(files)?;
    teller.begin(telling, None, devices.length(&reader));
    let bytes = read_whole(alloc, devices, Told::new(reader, teller))?;
    let bytes = bytes.as_slice();
    let standings = standings_in(alloc, &table, &key, WIDEST_WINDOW, bytes)?;
    Ok(End::Surveyed(standings))
}

// How a run ends that something may stop.
fn end_of(ended: Result<End, Stop>) -> End
    ensures { result ≡ end_of ended }
{
    match ended {
        Ok(ended) => ended,
        Err(stop) => End::Stopped(stop),
    }
}

/// The program from the words after its name to its end: [`job`] says what they ask for, and
/// [`send_stream`](rq_cast::send_stream), [`run_receive`] or [`standings_in`] does it, over all rows.
/// A run that keeps what it reads reads first what earlier ones kept, and answers as one over all of it.
///
/// Words that ask for no job read and write nothing. Of a job with a key the file of that is read first, and
/// where it is empty nothing else is done. A file is put in its place only where the run has written all of
/// it, and else is as it was. Of streams that are taken one after another each whole one is put under its name, and
/// none of the last eight is taken again.
pub fn run<'w, S: AsStr, D: Devices<'w>, T: Teller>(
    alloc: Global,
    words: &'w [S],
    devices: &mut D,
    teller: &mut T,
) -> End
    // What the words ask for is done, and nothing where they are refused.
    ensures does { Does (map S.text words.entry.now) (outside (D.terminal devices.old) (T.calls teller.old) (T.calls teller.new)
        (D.failed devices.old) (D.failed devices.new) (D.earlier devices.old) (D.earlier devices.new) (D.stands devices.new))
        (D.stands devices.old) D.blank result (D.placed devices.old) (D.placed devices.new) (D.filed devices.old) (D.filed devices.new) }

    // A failed call ends the run, and nothing else is a fault.
    ensures failures { Failures result (D.failed devices.old) (D.failed devices.new) }
{
    match job(alloc, words) {
        Ok(Job::Send(job)) => end_of(send(alloc, job, devices, teller)),
        Ok(Job::Receive(job)) => end_of(receive(alloc, job, devices, teller)),
        Ok(Job::Follow(job)) => end_of(follow(alloc, job, devices, teller)),
        Ok(Job::Info(job)) => end_of(info(alloc, job, devices, teller)),
        Ok(Job::Protect(job)) => end_of(protect_file(alloc, &job, devices, teller)),
        Ok(Job::Check(job)) => end_of(check(alloc, &job, devices, teller)),
        Ok(Job::Repair(job)) => end_of(repair(alloc, &job, devices, teller)),
        Ok(Job::Split(job)) => end_of(split(alloc, &job, devices, teller)),
        Ok(Job::Join(job)) => end_of(receive(alloc, job, devices, teller)),
        Err(error) => End::Unasked(error),
    }
}
