//! What a run reads from, writes to and tells.
ghost use Rattle.std.specs.Prelude.{◌≡◌, ℕ, Bool, List, [], ◌∷◌, length, Option, None, Some, false, map, option_map, IfOk, IfErr, IfSome};
ghost use Rattle.std.specs.Fmt.{option_append};
ghost use Rattle.rq_streams.specs.Counted.{failed_count};
ghost use Rattle.rq_streams.specs.Ends.{failed_calls};
ghost use Rattle.rq_devices.specs.Failed.{Fails, StopsReading};
ghost use Rattle.rq_devices.specs.Folder.{IsKept};
ghost use Rattle.rq_devices.specs.Placed.{guard_name, IsEmpty};
ghost use Rattle.rq_devices.specs.Spots.{Spot, AtFile, InFolder, IsFinished, StandsBeside, spot_of};

use crate::placing::Place;
use rq_cast::{Ending, Pace, Progress, Seen};
use rq_cells::STREAM_LENGTH;
use rq_streams::{Counted, Stop};
use rq_words::Telling;
use std::io::{Read, Write};

/// Where a run reads and writes: files by their names, and standard input and output. A call that fails is
/// a [`Stop::Fault`], and the devices know why.
pub trait Devices<'w> {
    /// What is read.
    type Reader: Read + Drop;

    /// What is written.
    type Writer: Write + Drop;

    /// What stands in files, one behind another, by their names; on standard input, where there are none. What stands
    /// in a folder are its shards, read in turns.
    ghost stands: { Self → List (List ℕ) → Option (List ℕ) };

    /// What stands where the run puts what it writes: of a folder of shards all their cells, as they were written.
    ghost placed: { Self → Spot → Option (List ℕ) };

    /// What stands in the folder of streams that are taken one after another, by their names.
    ghost filed: { Self → List ℕ → Option (List ℕ) } = { λ _ _. None };

    /// What earlier runs kept of their input in files, by their names: nothing where there is no such file.
    ghost earlier: { Self → List ℕ → Option (List ℕ) } = { λ _ _. None };

    /// What a new writer holds, by where that is put: nothing, where what is written is known.
    ghost blank: { Spot → Option (List ℕ) };

    /// Whether standard output is a terminal, where that is known.
    ghost terminal: { Self → Option Bool } = { λ _. None };

    /// How many calls of these failed, and were counted of what they opened, where that is known.
    ghost failed: { Self → Option ℕ } = { λ _. None };

    /// Whether standard output is a terminal.
    fn shows_output(&self) -> bool
        ensures { IfSome (terminal self.now) (λ is. result ≡ is) };

    /// What reads these files, one behind another, or standard input, where there are none. A key is read so
    /// too, from the file that holds it.
    fn open(&mut self, files: Vec<&'w str>) -> Result<Self::Reader, Stop>
        ensures bytes { IfOk result (λ r. Self.Reader.remaining r ≡ stands self.old (map (λ s. s.now) files.entry.items)) }
        ensures fault { IfErr result (λ stop. stop ≡ Stop.Fault) }
        ensures counts { Fails (failed self.old) (failed self.new) (failed_calls result) }
        ensures stays { stands self.new ≡ stands self.old }
        ensures kept { placed self.new ≡ placed self.old }
        ensures filed { filed self.new ≡ filed self.old }
        ensures earlier { earlier self.new ≡ earlier self.old };

    /// What reads what earlier runs kept in a file, and then these files, one behind another, or standard input, where
    /// there are none. What is read of these is kept in that file first, for a later run.
    fn open_keeping(&mut self, state: &'w str, files: Vec<&'w str>) -> Result<Self::Reader, Stop>
        ensures bytes { IfOk result (λ r. Self.Reader.remaining r
            ≡ option_append (earlier self.old state.entry.now) (stands self.old (map (λ s. s.now) files.entry.items))) }
        ensures fault { IfErr result (λ stop. stop ≡ Stop.Fault) }
        ensures counts { Fails (failed self.old) (failed self.new) (failed_calls result) }
        ensures stays { stands self.new ≡ stands self.old }
        ensures kept { placed self.new ≡ placed self.old }
        ensures filed { filed self.new ≡ filed self.old }
        ensures earlier { earlier self.new ≡ earlier self.old };

    /// Takes away the file in which what was read is kept.
    fn forget(&mut self, state: &'w str) -> Result<(), Stop>
        ensures fault { IfErr result (λ stop. stop ≡ Stop.Fault) }
        ensures counts { Fails (failed self.old) (failed self.new) (failed_calls result) }
        ensures kept { placed self.new ≡ placed self.old }
        ensures filed { filed self.new ≡ filed self.old }
        ensures earlier { IsKept (Some state.entry.now) result (blank (AtFile state.entry.now)) (earlier self.old) (earlier self.new) };

    /// What reads a file, and whether there is such a file: else it reads nothing.
    fn open_if_there(&mut self, file: &'w str) -> Result<(Self::Reader, bool), Stop>
        ensures bytes { IfOk result (λ r. Self.Reader.remaining r.0 ≡ stands self.old (file.entry.now ∷ [])) }
        ensures absent { IfOk result (λ r. r.1 ≡ false → IsEmpty (stands self.old (file.entry.now ∷ []))) }
        ensures fault { IfErr result (λ stop. stop ≡ Stop.Fault) }
        ensures counts { Fails (failed self.old) (failed self.new) (failed_calls result) }
        ensures stays { stands self.new ≡ stands self.old }
        ensures kept { placed self.new ≡ placed self.old }
        ensures filed { filed self.new ≡ filed self.old }
        ensures earlier { earlier self.new ≡ earlier self.old };

    /// What reads a file's guard: one that is said, or that which is named by the file.
    fn open_guard(&mut self, file: &'w str, said: Option<&'w str>) -> Result<Self::Reader, Stop>
        ensures bytes { IfOk result (λ r. Self.Reader.remaining r ≡ stands self.old (guard_name file.entry.now (option_map (λ s. s.now) said.entry) ∷ [])) }
        ensures stops { IfErr result StopsReading }
        ensures counts { Fails (failed self.old) (failed self.new) (failed_calls result) }
        ensures stays { stands self.new ≡ stands self.old }
        ensures kept { placed self.new ≡ placed self.old }
        ensures filed { filed self.new ≡ filed self.old }
        ensures earlier { earlier self.new ≡ earlier self.old };

    /// The guard that is named by a file.
    fn guard_of(&mut self, file: &'w str) -> Result<&'w str, Stop>
        ensures name { IfOk result (λ s. s.now ≡ guard_name file.entry.now None) }
        ensures stops { IfErr result StopsReading }
        ensures counts { Fails (failed self.old) (failed self.new) (failed_calls result) }
        ensures stays { stands self.new ≡ stands self.old }
        ensures kept { placed self.new ≡ placed self.old }
        ensures filed { filed self.new ≡ filed self.old }
        ensures earlier { earlier self.new ≡ earlier self.old };

    /// Whether a file was written after its guard was, by their times. Nothing is promised of these.
    fn is_newer(&self, file: &'w str, said: Option<&'w str>) -> bool;

    /// How many bytes a reader has, where that is known before they are read.
    fn length(&self, reader: &Self::Reader) -> Option<u64>
        ensures { IfSome result (λ n. IfSome (Self.Reader.remaining reader.now) (λ bytes. length bytes ≡ n)) };

    /// Counts the calls that failed of what was opened.
    fn count<X>(&mut self, calls: &Counted<X>)
        ensures counts { Fails (failed self.old) (failed self.new) (failed_count calls.now) }
        ensures stays { stands self.new ≡ stands self.old }
        ensures kept { placed self.new ≡ placed self.old }
        ensures filed { filed self.new ≡ filed self.old }
        ensures earlier { earlier self.new ≡ earlier self.old };

    /// What writes on standard output, or beside a place. Into shards it writes cells: a call begins one, which goes into
    /// the shard whose number is what is left of its encoding symbol id, divided by how many there are. They have the
    /// rights of the file that is split, and their folder isn't there yet.
    fn create(&mut self, place: Place<'w>) -> Result<Self::Writer, Stop>
        ensures blank { IfOk result (λ w. Self.Writer.contents w ≡ blank (spot_of place.entry)) }
        ensures empty { IsEmpty (blank (spot_of place.entry)) }
        ensures fault { IfErr result (λ stop. stop ≡ Stop.Fault) }
        ensures counts { Fails (failed self.old) (failed self.new) (failed_calls result) }
        ensures stays { StandsBeside (spot_of place.entry) (stands self.old) (stands self.new) }
        ensures kept { placed self.new ≡ placed self.old }
        ensures filed { filed self.new ≡ filed self.old }
        ensures earlier { earlier self.new ≡ earlier self.old };

    /// Puts what is written in its place where it is whole, and takes it away where it isn't. What is written on standard
    /// output is there. Shards are put there only where the file is what it was.
    fn finish(&mut self, place: Place<'w>, writer: Self::Writer, is_whole: bool) -> Result<(), Stop>
        ensures fault { IfErr result (λ stop. stop ≡ Stop.Fault) }
        ensures counts { Fails (failed self.old) (failed self.new) (failed_calls result) }
        ensures placed { IsFinished (spot_of place.entry) is_whole result (Self.Writer.contents writer) (placed self.old) (placed self.new) }
        ensures filed { filed self.new ≡ filed self.old }
        ensures earlier { earlier self.new ≡ earlier self.old };

    /// What writes in a folder, under a name that is no stream's.
    fn create_in(&mut self, folder: &'w str) -> Result<Self::Writer, Stop>
        ensures blank { IfOk result (λ w. Self.Writer.contents w ≡ blank (InFolder folder.entry.now)) }
        ensures empty { IsEmpty (blank (InFolder folder.entry.now)) }
        ensures fault { IfErr result (λ stop. stop ≡ Stop.Fault) }
        ensures counts { Fails (failed self.old) (failed self.new) (failed_calls result) }
        ensures kept { placed self.new ≡ placed self.old }
        ensures filed { filed self.new ≡ filed self.old }
        ensures earlier { earlier self.new ≡ earlier self.old };

    /// Puts what is written there under a stream's name, where it is whole and has one, and else takes it away.
    fn finish_in(
        &mut self,
        folder: &'w str,
        writer: Self::Writer,
        stream: Option<[u8; STREAM_LENGTH]>,
    ) -> Result<(), Stop>
        ensures fault { IfErr result (λ stop. stop ≡ Stop.Fault) }
        ensures counts { Fails (failed self.old) (failed self.new) (failed_calls result) }
        ensures kept { placed self.new ≡ placed self.old }
        ensures filed { IsKept stream result (Self.Writer.contents writer) (filed self.old) (filed self.new) }
        ensures earlier { earlier self.new ≡ earlier self.old };
}

/// What is told of a run while it goes on. Nothing is promised of it: but for streams that are said to be silent, the
/// run does the same whoever is told.
pub trait Teller: Pace + Progress {
    /// Called first: what is to be told, how many bits a second are sent at most, and how many bytes there
    /// are to read, where these are known.
    fn begin(&mut self, telling: Telling, rate: Option<u64>, length: Option<u64>)
        ensures { Self.calls self.new ≡ Self.calls self.old };

    /// Called as each stream ends that is taken one after another, whole or given up, with what was seen.
    fn tell_stream(&mut self, stream: &[u8; STREAM_LENGTH], ending: Ending, seen: &Seen);
}
