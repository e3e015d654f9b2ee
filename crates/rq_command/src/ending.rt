//! How the program ends.
ghost use Rattle.std.specs.Prelude.{◌≡◌};
ghost use Rattle.rq_command.specs.Endings.{all_lost, checked_status, repaired_status, ending_status, following_status, stop_status, status_of, word_status};

use clap::Error;
use clap::error::ErrorKind;
use raptorq::error::Error as Refusal;
use rq_cast::{Ending, Seen, Sent, Standing};
use rq_guard::Guarded;
use rq_guard_runs::Findings;
use rq_streams::Stop;

/// How many streams were taken one after another.
#[derive(Clone, Copy, Debug, Default, PartialEq, Eq)]
pub struct Streams {
    /// How many are whole.
    pub whole: u64,
    /// How many were silent too long while cells of others came, and are given up.
    pub given_up: u64,
}

/// How the program ended.
#[derive(Debug, Drop)]
pub enum End {
    /// Its words ask for no job: they are wrong, or ask for help or the version.
    Unasked(Error),
    /// Its cells would have gone to a terminal, and nothing was read.
    AtTerminal,
    /// The file of its key has no bytes, and nothing else was read.
    EmptyKey,
    /// It has sent a stream, but for cells that a network lost at their call.
    Sent(Sent),
    /// It has sent some rounds of a stream, and then the part of this index wasn't what it was.
    Changed(u32),
    /// It has received, and seen so much, also where something stopped it.
    Received(Result<Ending, Stop>, Seen),
    /// It has received so many streams one after another, and a run behind them has ended so, and seen so much.
    Followed(Streams, Result<Ending, Stop>, Seen),
    /// It has listed the objects whose cells stand among bytes.
    Surveyed(Vec<Standing>),
    /// It has made the guard of a file.
    Protected(Guarded),
    /// It has looked through a file, as far as its guard has lists of all parts.
    Checked(Option<Findings>),
    /// It has mended a file, as far as its guard has lists of all parts and mends it.
    Repaired(Option<Findings>),
    /// Something stopped it.
    Stopped(Stop),
}

impl End {
    /// The status that the program ends with: 0 where all is done, 1 after a fault of the system or where what is
    /// sent has changed, 2 where too little came or a guard doesn't mend its file, 3 where what was to be sent is
    /// refused or a check found what its guard mends, and 64 where the words are wrong, cells would go to a terminal,
    /// or the key is empty.
    pub fn status(&self) -> u8
        ensures { result ≡ status_of self.now }
    {
        match self {
            End::Unasked(error) => word_status(error.kind()),
            End::AtTerminal | End::EmptyKey => 64,
            End::Protected(_) => 0,
            End::Checked(found) => checked_status(found),
            End::Repaired(found) => repaired_status(found),
            // There may be no cells: of small parts a share may be empty.
            End::Sent(sent) => u8::from(all_lost(sent.cells, sent.lost)),
            End::Changed(_) => 1,
            End::Received(Ok(ending), _) => ending_status(*ending),
            End::Received(Err(stop), _) => stop_status(*stop),
            End::Followed(streams, last, seen) => following_status(*streams, *last, seen),
            End::Surveyed(standings) => if standings.is_empty() { 2 } else { 0 },
            End::Stopped(stop) => stop_status(*stop),
        }
    }
}

// Of words that ask for no job.
fn word_status(kind: ErrorKind) -> u8
    ensures { result ≡ word_status kind }
{
    match kind {
        ErrorKind::DisplayHelp | ErrorKind::DisplayVersion => 0,
        ErrorKind::OutOfMemory => 1,
        _ => 64,
    }
}

/// Whether all may be lost. That nobody takes a datagram is said at the next call, which sends nothing. So of
/// cells that nobody takes each second one is refused, half of them rounded down, and no more can be. One that
/// is sent alone is never known to be lost, and of an odd number one may have come.
pub(crate) fn all_lost(cells: u64, lost: u64) -> bool
    ensures { result ≡ all_lost cells lost }
{
    lost > 0 && lost >= cells / 2
}

// Of a run that nothing stopped.
fn ending_status(ending: Ending) -> u8
    ensures { result ≡ ending_status ending }
{
    match ending {
        Ending::Written { .. } => 0,
        Ending::Incomplete { .. } | Ending::GivenUp { .. } => 2,
    }
}

// Of streams that were taken one after another: where one was whole, none was given up and no cell came of a further
// one, all is done.
fn following_status(streams: Streams, last: Result<Ending, Stop>, seen: &Seen) -> u8
    ensures { result ≡ following_status streams last seen.now }
{
    match last {
        Ok(Ending::Incomplete { .. })
            if streams.whole > 0 && streams.given_up == 0 && seen.cells == 0 => { 0 }
        Ok(ending) => ending_status(ending),
        Err(stop) => stop_status(stop),
    }
}

// Of a file that was looked through: whole, damaged and mended in its place by `repair`, or beyond that.
fn checked_status(found: &Option<Findings>) -> u8
    ensures { result ≡ checked_status found.now }
{
    match found {
        Some(found) if found.is_whole() => 0,
        Some(found) if found.is_mended && !found.is_strange() => 3,
        _ => 2,
    }
}

// Of one that was to be mended.
fn repaired_status(found: &Option<Findings>) -> u8
    ensures { result ≡ repaired_status found.now }
{
    match found {
        Some(found) if found.is_mended => 0,
        _ => 2,
    }
}

// Of what stopped a run. Memory that is refused is a fault of the system.
fn stop_status(stop: Stop) -> u8
    ensures { result ≡ stop_status stop }
{
    match stop {
        Stop::Fault => 1,
        Stop::Refused(Refusal::OutOfMemory) => 1,
        Stop::Refused(_) => 3,
    }
}
