//! What is said of a run.

use crate::ending::{End, all_lost};
use raptorq::error::Error;
use rq_cast::{Ending, Seen, Sender, Sent, Standing};
use rq_cells::{Head, LAST_PART};
use rq_guard_runs::{write_checked, write_repaired};
use rq_streams::Stop;
use std::io;
use std::io::Write;

// Writes the name of a stream in 16 hexadecimal digits.
fn write_name<W: Write>(head: &Head, out: &mut W) -> io::Result<()> {
    for byte in &head.stream {
        write!(out, "{:02x}", *byte)?;
    }
    Ok(())
}

// How many bytes a stream has, where this is the head of its only part: a seal ends its object.
fn length_of(head: &Head) -> Option<u64> {
    (head.number == LAST_PART).then(|| head.configuration.transfer_length().saturating_sub(32))
}

// So many packets.
fn counted(packets: u64) -> &'static str {
    if packets == 1 { "packet" } else { "packets" }
}

// Writes that so many parts came.
fn write_parts<W: Write>(parts: u32, out: &mut W) -> io::Result<()> {
    match parts {
        1 => write!(out, "1 part is whole, and "),
        _ => write!(out, "{parts} parts are whole, and "),
    }
}

/// Writes what stands before the first cell: the stream's name in 16 hexadecimal digits, how many blocks its
/// first part has, how many source symbols the largest of them, and how many cells of it are sent; in three
/// lines, or in one of JSON.
pub fn announce<W: Write>(sender: &Sender<'_>, json: bool, out: &mut W) -> io::Result<()> {
    let head = sender.head();
    let blocks = head.configuration.source_blocks();
    let symbols = sender.largest_block();
    let cells = sender.cells();
    if json {
        write!(out, "{{\"name\":\"")?;
        write_name(&head, out)?;
        return writeln!(
            out,
            "\",\"blocks\":{blocks},\"symbols\":{symbols},\"cells\":{cells}}}"
        );
    }
    write!(out, "name ")?;
    write_name(&head, out)?;
    writeln!(out, "\nblocks {blocks} of {symbols}\ncells {cells}")
}

// Writes how many bytes the only part of a stream has, or those parts that came.
fn write_extent<W: Write>(standing: &Standing, parts: u32, out: &mut W) -> io::Result<()> {
    if let Some(bytes) = length_of(&standing.head) {
        return write!(out, " {bytes} bytes");
    }
    let bytes = standing.bytes;
    match parts {
        1 => write!(out, " {bytes} bytes of 1 part"),
        _ => write!(out, " {bytes} bytes of {parts} parts"),
    }
}

// Writes what its cells determine of a stream, and whether a part was begun anew, as some are forged.
fn write_standing<W: Write>(standing: &Standing, out: &mut W) -> io::Result<()> {
    write_name(&standing.head, out)?;
    let Ending::Incomplete { parts, missing } = standing.ended else {
        let bytes = standing.bytes;
        return writeln!(out, " {bytes} bytes, whole");
    };
    write_extent(standing, parts, out)?;
    match missing {
        Some(missing) => write!(out, ", lacks {missing} {}", counted(missing))?,
        None => write!(out, ", lacks all")?,
    }
    if length_of(&standing.head).is_none() {
        write!(out, " of the next")?;
    }
    if standing.seen.restarted > 0 {
        write!(out, ", some forged")?;
    }
    writeln!(out, "")
}

// Writes the same as JSON.
fn write_standing_json<W: Write>(standing: &Standing, out: &mut W) -> io::Result<()> {
    let bytes = length_of(&standing.head).unwrap_or(standing.bytes);
    write!(out, "{{\"name\":\"")?;
    write_name(&standing.head, out)?;
    write!(out, "\",\"bytes\":{bytes}")?;
    match standing.ended {
        Ending::Written { .. } => write!(out, ",\"missing\":0")?,
        Ending::Incomplete { parts, missing } | Ending::GivenUp { parts, missing, .. } => {
            write!(out, ",\"parts\":{parts}")?;
            if let Some(missing) = missing {
                write!(out, ",\"missing\":{missing}")?;
            }
        }
    }
    let restarted = standing.seen.restarted;
    writeln!(out, ",\"restarted\":{restarted}}}")
}

/// Writes a line for each stream: its name, how many bytes it has, or its first parts where it has several and
/// isn't whole, and what it lacks; as words, or as JSON.
pub fn write_standings<W: Write>(
    standings: &[Standing],
    json: bool,
    out: &mut W,
) -> io::Result<()> {
    for standing in standings {
        if json {
            write_standing_json(standing, out)?;
        } else {
            write_standing(standing, out)?;
        }
    }
    Ok(())
}

// Why something is refused, and what to do.
fn reason_of(refusal: Error) -> &'static str {
    match refusal {
        Error::TransferTooLong => "a stream has at most 1073741824 parts: take a greater --part",
        Error::TooManyBlocks => {
            "a part is too long for cells of this size: take a greater --cell, or a smaller --part"
        }
        Error::OutOfMemory => {
            "there is too little memory: take a smaller --part for sending, and --window for receiving"
        }
        _ => "the input is refused",
    }
}

// What to do where too few packets came, of shards or else.
fn advice(joins: bool) -> &'static str {
    if joins {
        "put more of its shards into the folder, and join them again"
    } else {
        "keep the cells, and have others sent by a greater --repair and --from"
    }
}

// Says what is missing of a stream of which so many parts came, and how to get it.
fn write_missing<W: Write>(
    parts: u32,
    missing: Option<u64>,
    seen: &Seen,
    advice: &str,
    out: &mut W,
) -> io::Result<()> {
    write!(out, "rqcast: ")?;
    if parts > 0 {
        write_parts(parts, out)?;
    }
    let next = if parts > 0 { "the next one" } else { "it" };
    match missing {
        Some(missing) => writeln!(
            out,
            "{next} takes {missing} more {}: {advice}",
            counted(missing)
        ),
        None if parts > 0 => writeln!(out, "no cell came of the next one"),
        None if seen.cells > 0 => writeln!(out, "no cell came of the first part"),
        None => writeln!(out, "no cell came of what is wanted"),
    }
}

// Says how a run ended that didn't write all, and what may help.
fn write_ending<W: Write>(ending: Ending, seen: &Seen, joins: bool, out: &mut W) -> io::Result<()> {
    let Ending::Incomplete { parts, missing } = ending else {
        return Ok(());
    };
    // Who joined late lacks the first part whole, and no window helps.
    let is_late = parts == 0 && missing.is_none();
    if seen.ahead > 0 && !is_late && !joins {
        let (ahead, noun) = (seen.ahead, if seen.ahead == 1 { "cell" } else { "cells" });
        writeln!(
            out,
            "rqcast: {ahead} {noun} came of parts beyond the window: --window keeps more of them"
        )?;
    }
    write_missing(parts, missing, seen, advice(joins), out)
}

// Says how many streams were given up.
fn write_given_up<W: Write>(given_up: u64, out: &mut W) -> io::Result<()> {
    let noun = match given_up {
        1 => "stream was",
        _ => "streams were",
    };
    writeln!(
        out,
        "rqcast: {given_up} {noun} silent too long while others came: a greater --timeout waits longer"
    )
}

// Says what stopped a run. Why a call failed the devices know.
fn write_stop<W: Write>(stop: Stop, out: &mut W) -> io::Result<()> {
    match stop {
        Stop::Fault => Ok(()),
        Stop::Refused(refusal) => {
            let reason = reason_of(refusal);
            writeln!(out, "rqcast: {reason}")
        }
    }
}

/// Writes the line that says why not all is done, where it isn't, as shards were joined or else; but for a failed
/// call, of which the devices know why, and for words that ask for no job, of which their error says it.
pub fn write_end<W: Write>(end: &End, joins: bool, out: &mut W) -> io::Result<()> {
    match end {
        End::Unasked(_) => Ok(()),
        End::AtTerminal => writeln!(
            out,
            "rqcast: cells aren't written to a terminal: send them on, as by >FILE"
        ),
        End::EmptyKey => writeln!(
            out,
            "rqcast: the key is empty: take a file of some bytes, as 32 of /dev/urandom"
        ),
        End::Sent(sent) if sent.cells == 0 => writeln!(
            out,
            "rqcast: no cell is sent: --from and --share begin behind the last id"
        ),
        End::Sent(Sent { cells, lost, .. }) if all_lost(*cells, *lost) => {
            writeln!(
                out,
                "rqcast: at least {lost} of {cells} cells were lost: nobody listened there, or the network was down"
            )
        }
        End::Sent(_) => Ok(()),
        End::Changed(part) => writeln!(
            out,
            "rqcast: FILE changed between rounds: part {part} isn't what it was"
        ),
        End::Received(Ok(ending), seen) => write_ending(*ending, seen, joins, out),
        End::Received(Err(stop), _) => write_stop(*stop, out),
        End::Followed(_, Ok(Ending::Incomplete { .. }), _) if end.status() == 0 => Ok(()),
        End::Followed(streams, Ok(_), seen) if streams.given_up > 0 && seen.cells == 0 => {
            write_given_up(streams.given_up, out)
        }
        End::Followed(_, Ok(ending), seen) => write_ending(*ending, seen, joins, out),
        End::Followed(_, Err(stop), _) => write_stop(*stop, out),
        End::Surveyed(standings) if standings.is_empty() => {
            writeln!(out, "rqcast: no cell is there")
        }
        End::Surveyed(_) | End::Protected(_) => Ok(()),
        End::Checked(found) => write_checked(found, out),
        End::Repaired(found) => write_repaired(found, out),
        End::Stopped(stop) => write_stop(*stop, out),
    }
}
