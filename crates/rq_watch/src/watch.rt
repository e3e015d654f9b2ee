//! What is told while a run goes on, and of its end.

use crate::amounts::Amount;
use crate::line::{COLUMNS, Course};
use crate::pace::Pacer;
use crate::pulse::Pulse;
use crate::sending::Sending;
use crate::silence::Silence;
use raptorq::Decoder;
use rq_cast::{Ending, Pace, Progress, Seen, Sender, Sent, missing_packets};
use rq_cells::STREAM_LENGTH;
use rq_command::{End, Findings, Teller, Telling, announce};
use rq_guard::Guarded;
use rq_streams::Stop;
use std::io;
use std::io::Write;
use std::time::Clock;

// So many cells.
fn noun_of(cells: u64) -> &'static str {
    if cells == 1 { "cell" } else { "cells" }
}

// What was seen, and where that is known how many parts are written and how many packets of the next one are
// missing, by their names.
fn counts_of(
    seen: &Seen,
    parts: Option<u64>,
    missing: Option<u64>,
) -> [(&'static str, Option<u64>); 8] {
    [
        ("cells", Some(seen.cells)),
        ("damaged", Some(seen.damaged)),
        ("others", Some(seen.others)),
        ("restarted", Some(seen.restarted)),
        ("ahead", Some(seen.ahead)),
        ("behind", Some(seen.behind)),
        ("parts", parts),
        ("missing", missing),
    ]
}

// What clears a line of a terminal from here on.
const CLEAR: &str = "\x1b[K";

/// Tells on a terminal, or wherever standard error goes, at the first read or write past each second.
#[derive(Drop)]
pub struct Watch<'a, C: Clock, W: Write> {
    out: W,
    is_terminal: bool,
    telling: Telling,
    pulse: Pulse<'a, C>,
    silence: Silence<'a, C>,
    pacer: Pacer<'a, C>,
    // How many bytes there are to read, and how many symbols a part has, where that is known.
    length: Option<u64>,
    symbols: Option<u64>,
    sending: Sending,
    // A line stands there that is to be cleared.
    is_shown: bool,
}

impl<'a, C: Clock, W: Write> Watch<'a, C, W> {
    /// Tells on a writer, which may be a terminal.
    pub fn new(clock: &'a C, out: W, is_terminal: bool) -> Watch<'a, C, W> {
        Watch {
            out,
            is_terminal,
            telling: Telling::default(),
            pulse: Pulse::new(clock),
            silence: Silence::new(clock),
            pacer: Pacer::new(clock, None),
            length: None,
            symbols: None,
            sending: Sending::default(),
            is_shown: false,
        }
    }

    /// What is told.
    pub fn telling(&self) -> Telling {
        self.telling
    }

    // Counts bytes. Answers how many came a second, where that is to be told now.
    fn pass(&mut self, bytes: usize) -> Option<u64> {
        self.pulse.count(bytes);
        let tells = match self.telling {
            Telling::Usual => self.is_terminal,
            Telling::Quiet => false,
            Telling::Progress | Telling::Json => true,
        };
        if tells { self.pulse.rate() } else { None }
    }

    // Writes a line over the one before.
    fn show(&mut self, course: &Course) -> io::Result<()> {
        let mut line = [0u8; COLUMNS];
        let columns = course.fill(&mut line);
        self.is_shown = true;
        write!(self.out, "\r")?;
        self.out.write_all(&line[..columns])?;
        write!(self.out, "{CLEAR}")
    }

    // Writes the time, the bytes and other counts, as far as they are known, as a line of JSON.
    fn write_json(&mut self, counts: &[(&str, Option<u64>)]) -> io::Result<()> {
        write!(self.out, "{{")?;
        self.write_counts(counts)
    }

    // The same behind what was written of the line.
    fn write_counts(&mut self, counts: &[(&str, Option<u64>)]) -> io::Result<()> {
        let (bytes, time) = (self.pulse.bytes(), self.pulse.elapsed().as_millis());
        write!(self.out, "\"milliseconds\":{time},\"bytes\":{bytes}")?;
        for (name, count) in counts {
            if let Some(count) = count {
                write!(self.out, ",\"{name}\":{count}")?;
            }
        }
        writeln!(self.out, "}}")
    }

    // Writes what was seen as a line of JSON, and where that is known how many parts are written and how many
    // packets of the next one are missing.
    fn write_seen(
        &mut self,
        seen: &Seen,
        parts: Option<u64>,
        missing: Option<u64>,
    ) -> io::Result<()> {
        self.write_json(&counts_of(seen, parts, missing))
    }

    // Takes the line away, where one is shown.
    fn clear(&mut self) {
        if self.is_shown {
            let _ = write!(self.out, "\r{CLEAR}");
        }
        self.is_shown = false;
    }

    /// Takes the line away, and says how much passed and was seen.
    pub fn end(&mut self, ended: &End) {
        self.clear();
        if self.telling == Telling::Quiet {
            return;
        }
        let _ = match ended {
            // What is said then is that all cells were lost.
            End::Sent(_) if ended.status() != 0 && self.telling != Telling::Json => Ok(()),
            End::Sent(sent) => self.say_sent(sent),
            End::Received(Ok(Ending::Incomplete { parts, missing }), seen) => {
                self.say_received(seen, Some(u64::from(*parts)), *missing)
            }
            // Of a failed call no more is said than what failed.
            End::Received(Err(Stop::Fault), _) => Ok(()),
            End::Received(_, seen) => self.say_received(seen, None, None),
            // No stream had begun.
            End::Followed(streams, Ok(_), seen)
                if streams.whole.max(streams.given_up) > 0 && seen.cells == 0 => { Ok(()) }
            End::Followed(_, Ok(Ending::Incomplete { parts, missing }), seen) => {
                self.say_received(seen, Some(u64::from(*parts)), *missing)
            }
            End::Protected(made) => self.say_protected(made),
            End::Checked(Some(found)) | End::Repaired(Some(found)) => self.say_found(found),
            _ => Ok(()),
        };
    }

    // Writes how much passed, and how long it took.
    fn say_passed(&mut self) -> io::Result<()> {
        let tenths = self.pulse.elapsed().as_millis() / 100;
        let (bytes, seconds, tenth) = (Amount(self.pulse.bytes()), tenths / 10, tenths % 10);
        write!(self.out, "{bytes} in {seconds}.{tenth} s, ")
    }

    fn say_sent(&mut self, sent: &Sent) -> io::Result<()> {
        let Sent { parts, cells, lost } = *sent;
        if self.telling == Telling::Json {
            return self.write_json(&[
                ("sent", Some(self.sending.sent)),
                ("cells", Some(cells)),
                ("lost", Some(lost)),
                ("parts", Some(u64::from(parts))),
            ]);
        }
        self.say_passed()?;
        if parts > 1 {
            write!(self.out, "{parts} parts, ")?;
        }
        let noun = noun_of(cells);
        match lost {
            0 => writeln!(self.out, "{cells} {noun}, none lost"),
            _ => writeln!(self.out, "{cells} {noun}, {lost} and more lost"),
        }
    }

    // Writes how many symbols of a file are damaged; as JSON also whether it is whole or mended.
    fn say_found(&mut self, found: &Findings) -> io::Result<()> {
        let (damaged, symbols, mended) = (found.damaged(), found.symbols(), found.is_mended);
        if self.telling == Telling::Json {
            write!(self.out, "{{\"mended\":{mended},")?;
            return self.write_counts(&[("symbols", Some(symbols)), ("damaged", Some(damaged))]);
        }
        self.say_passed()?;
        match damaged {
            0 => writeln!(self.out, "{symbols} symbols, none damaged"),
            _ => writeln!(self.out, "{damaged} of {symbols} symbols damaged"),
        }
    }

    fn say_protected(&mut self, made: &Guarded) -> io::Result<()> {
        let Guarded { parts, cells } = *made;
        if self.telling == Telling::Json {
            return self.write_json(&[("cells", Some(cells)), ("parts", Some(u64::from(parts)))]);
        }
        self.say_passed()?;
        if parts > 1 {
            write!(self.out, "{parts} parts, ")?;
        }
        writeln!(self.out, "guarded by {cells} {}", noun_of(cells))
    }

    // Writes how many parts are written and how many symbols of the next one are missing, where some are, and
    // what was seen.
    fn say_received(
        &mut self,
        seen: &Seen,
        parts: Option<u64>,
        missing: Option<u64>,
    ) -> io::Result<()> {
        if self.telling == Telling::Json {
            return self.write_seen(seen, parts, missing);
        }
        self.say_passed()?;
        match parts {
            None | Some(0) => {}
            Some(1) => write!(self.out, "1 part, ")?,
            Some(parts) => write!(self.out, "{parts} parts, ")?,
        }
        match (missing, self.symbols) {
            (Some(missing), Some(symbols)) => {
                write!(self.out, "{missing} of {symbols} cells missing")?;
            }
            _ => {
                let (cells, noun) = (seen.cells, noun_of(seen.cells));
                write!(self.out, "{cells} {noun}")?;
            }
        }
        match seen.damaged {
            0 => write!(self.out, ", none damaged")?,
            damaged => write!(self.out, ", {damaged} damaged")?,
        }
        self.say_dropped(seen)?;
        match seen.restarted {
            0 => writeln!(self.out, ""),
            1 => writeln!(self.out, ", begun anew once, as some were forged"),
            times => writeln!(self.out, ", begun anew {times} times, as some were forged"),
        }
    }

    // Writes the name of a stream that is whole or given up, how much passed, and what was seen.
    fn say_stream(
        &mut self,
        stream: &[u8; STREAM_LENGTH],
        ending: Ending,
        seen: &Seen,
    ) -> io::Result<()> {
        let (parts, missing) = match ending {
            Ending::Written { .. } => (None, None),
            Ending::Incomplete { parts, missing } | Ending::GivenUp { parts, missing, .. } => {
                (Some(u64::from(parts)), missing)
            }
        };
        let is_json = self.telling == Telling::Json;
        if is_json {
            write!(self.out, "{{\"name\":\"")?;
        }
        for byte in stream {
            write!(self.out, "{:02x}", *byte)?;
        }
        if is_json {
            write!(self.out, "\",")?;
            return self.write_counts(&counts_of(seen, parts, missing));
        }
        match parts {
            None => write!(self.out, " ")?,
            Some(_) => write!(self.out, " given up: ")?,
        }
        self.say_received(seen, parts, missing)
    }

    // Writes how many cells were dropped, and why.
    fn say_dropped(&mut self, seen: &Seen) -> io::Result<()> {
        for (cells, whose) in [
            (seen.others, "of other streams"),
            (seen.ahead, "ahead of the window"),
            (seen.behind, "of parts that were written"),
        ] {
            if cells > 0 {
                write!(self.out, ", {cells} {whose}")?;
            }
        }
        Ok(())
    }
}

impl<C: Clock, W: Write> Pace for Watch<'_, C, W> {
    fn begin_part(&mut self, sender: &Sender<'_>) {
        if !self.sending.is_begun {
            self.pulse.begin();
            self.clear();
            if self.telling != Telling::Quiet {
                let is_json = self.telling == Telling::Json;
                let _ = announce(sender, is_json, &mut self.out);
            }
        } else if sender.index() == 0 {
            self.pulse.begin_round();
        }
        self.sending.begin_part(sender);
    }

    fn wait(&mut self, bytes: usize) {
        self.pacer.wait(bytes);
        self.sending.count();
        if let Some(rate) = self.pass(bytes) {
            let (sent, cells) = (self.sending.sent, self.sending.cells);
            let course = Course {
                done: self.sending.done(),
                all: self.length.or(self.sending.all()),
                missing: None,
                rate,
                seconds: self.pulse.seconds(),
            };
            // That it can't be told is no fault of the run.
            let _ = match self.telling {
                Telling::Json => self.write_json(&[("sent", Some(sent)), ("cells", Some(cells))]),
                _ => self.show(&course),
            };
        }
    }

    fn tell_call(&mut self, _cell: &[u8], _is_lost: bool) {}
}

impl<C: Clock, W: Write> Progress for Watch<'_, C, W> {
    fn tell(&mut self, bytes: usize, seen: &Seen, decoder: Option<&Decoder>) {
        let rate = self.pass(bytes);
        if let Some(decoder) = decoder {
            self.symbols = Some(decoder.get_config().total_symbols());
        }
        let Some(rate) = rate else {
            return;
        };
        let missing = match decoder {
            Some(decoder) => Some(missing_packets(decoder)),
            None => None,
        };
        let (done, all) = match (missing, self.symbols) {
            (Some(missing), Some(symbols)) => (symbols.saturating_sub(missing), self.symbols),
            _ => (self.pulse.bytes(), self.length),
        };
        let course = Course {
            done,
            all,
            missing,
            rate,
            seconds: self.pulse.seconds(),
        };
        let _ = match self.telling {
            // Nothing was seen yet.
            Telling::Json if *seen == Seen::default() => self.write_json(&[]),
            Telling::Json => self.write_seen(seen, None, missing),
            _ => self.show(&course),
        };
    }

    fn is_silent(&mut self, seconds: u64, seen: &Seen) -> bool {
        self.silence.lasts(seconds, seen)
    }
}

impl<C: Clock, W: Write> Teller for Watch<'_, C, W> {
    fn begin(&mut self, telling: Telling, rate: Option<u64>, length: Option<u64>) {
        self.telling = telling;
        self.length = length;
        self.pacer.set_rate(rate);
        self.pulse.begin();
    }

    fn tell_stream(&mut self, stream: &[u8; STREAM_LENGTH], ending: Ending, seen: &Seen) {
        self.clear();
        if self.telling != Telling::Quiet {
            let _ = self.say_stream(stream, ending, seen);
        }
        self.silence.begin();
        self.pulse.renew();
        self.symbols = None;
    }
}
