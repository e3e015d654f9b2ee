//! What is known of a file by its guard.
ghost use Rattle.std.specs.Prelude.{◌≡◌};
ghost use Rattle.rq_guard_runs.specs.Found.{is_lost, are_lost};

use rq_guard::{DigestList, FileDamage, PartDamage, part_length};
use std::io;
use std::io::Write;

/// A file beside its guard.
#[derive(Debug, Drop)]
pub struct Findings {
    /// The lists of all its parts.
    pub lists: Vec<DigestList>,
    /// What is damaged of it.
    pub damage: FileDamage,
    /// Whether it is there.
    pub is_there: bool,
    /// Whether it was written after its guard, by their times.
    pub is_newer: bool,
    /// Whether it is whole, or mended by its guard.
    pub is_mended: bool,
}

// Bytes of a file, from one on and before another.
#[derive(Clone, Copy)]
struct Stretch {
    from: u64,
    to: u64,
}

// Whether at most a hundredth of a part is whole: the damaged symbols have room for all else that it has of the file.
fn is_lost(list: &DigestList, part: &PartDamage) -> bool
    ensures { result ≡ is_lost list.now part.now }
{
    let size = u128::from(list.head.configuration.symbol_size());
    u128::from(part_length(&list.head)) * 99 <= part.symbols.len() as u128 * (size * 100)
}

// Whether no more is of any part.
fn are_lost(lists: &[DigestList], parts: &[PartDamage]) -> bool
    ensures { result ≡ are_lost lists.now parts.now }
{
    for i in 0..lists.len().min(parts.len()) {
        if !is_lost(&lists[i], &parts[i]) {
            return false;
        }
    }
    true
}

impl Findings {
    ghost use Rattle.rq_guard_runs.specs.Found.{is_damaged, is_strange, is_whole_finding};

    /// The same of a file of which is known whether it is mended.
    pub(crate) fn with(self, is_mended: bool) -> Findings
        ensures { result ≡ record self { is_mended = is_mended } }
    {
        let Findings {
            lists,
            damage,
            is_there,
            is_newer,
            ..
        } = self;
        Findings {
            lists,
            damage,
            is_there,
            is_newer,
            is_mended,
        }
    }

    /// Whether it is there, and nothing of it is damaged.
    pub fn is_whole(&self) -> bool
        ensures { result ≡ is_whole_finding self.now }
    {
        self.is_there && self.damage.is_whole()
    }

    // Whether it is there, and something of it is damaged.
    fn is_damaged(&self) -> bool
        ensures { result ≡ is_damaged self.now }
    {
        self.is_there && !self.is_whole()
    }

    /// Whether it is there, isn't whole, and nearly no symbol of any part is, at most a hundredth: it may be another file.
    pub fn is_strange(&self) -> bool
        ensures { result ≡ is_strange self.now }
    {
        self.is_damaged() && are_lost(self.lists.as_slice(), self.damage.parts.as_slice())
    }

    // Whether it was written after its guard: then what is damaged may have been changed.
    fn is_changed(&self) -> bool {
        self.is_damaged() && self.is_newer
    }

    /// How many symbols have bytes of it. Those of the last part that have none are the guard's own.
    pub fn symbols(&self) -> u64 {
        self.lists.iter().fold(0, |sum: u64, list| {
            let size = u64::from(list.head.configuration.symbol_size()).max(1);
            sum.saturating_add(part_length(&list.head).div_ceil(size))
        })
    }

    /// How many of them are damaged.
    pub fn damaged(&self) -> u64 {
        self.damage.parts.iter().fold(0, |sum: u64, part| {
            sum.saturating_add(part.symbols.len() as u64)
        })
    }

    /// How many bytes it lacks at its end.
    pub fn missing(&self) -> u64 {
        self.damage
            .parts
            .iter()
            .fold(0, |sum: u64, part| sum.saturating_add(part.missing))
    }

    // Where the symbol of a number stands, of the part that a list is of, which begins at a place.
    fn stretch(list: &DigestList, start: u64, number: u32) -> Stretch {
        let size = u64::from(list.head.configuration.symbol_size());
        let end = start.saturating_add(part_length(&list.head));
        let from = start.saturating_add(u64::from(number) * size).min(end);
        Stretch {
            from,
            to: from.saturating_add(size).min(end),
        }
    }

    /// Writes which bytes are damaged: for each stretch of damaged symbols its first byte, and the first one behind
    /// it; a line each, or as pairs in JSON.
    fn write_stretches<W: Write>(&self, json: bool, out: &mut W) -> io::Result<()> {
        let mut start = 0u64;
        let mut open: Option<Stretch> = None;
        let mut is_first = true;
        for (list, part) in self.lists.iter().zip(self.damage.parts.iter()) {
            for number in part.symbols.iter() {
                let next = Findings::stretch(list, start, *number);
                open = match open {
                    Some(last) if last.to == next.from => Some(Stretch {
                        from: last.from,
                        to: next.to,
                    }),
                    last => {
                        write_stretch(last, json, &mut is_first, out)?;
                        Some(next)
                    }
                };
            }
            start = start.saturating_add(part_length(&list.head));
        }
        write_stretch(open, json, &mut is_first, out)
    }
}

// Writes one, if there is one that has bytes.
fn write_stretch<W: Write>(
    stretch: Option<Stretch>,
    json: bool,
    is_first: &mut bool,
    out: &mut W,
) -> io::Result<()> {
    let Some(Stretch { from, to }) = stretch else {
        return Ok(());
    };
    if from == to {
        return Ok(());
    }
    if json {
        let comma = if *is_first { "" } else { "," };
        *is_first = false;
        return write!(out, "{comma}[{from},{to}]");
    }
    writeln!(out, "damaged {from} {to}")
}

/// Writes which bytes of a file are damaged, a line for each stretch: `damaged`, its first byte, counted from 0, and the
/// first one behind it; or as JSON, with how many bytes are missing at its end, whether there are more, and whether
/// it is mended.
pub fn write_findings<W: Write>(found: &Findings, json: bool, out: &mut W) -> io::Result<()> {
    if !json {
        return found.write_stretches(false, out);
    }
    let (damaged, symbols, missing) = (found.damaged(), found.symbols(), found.missing());
    let (longer, mended) = (found.damage.longer, found.is_mended);
    write!(
        out,
        "{{\"symbols\":{symbols},\"damaged\":{damaged},\"missing\":{missing},\"longer\":{longer},\"mended\":{mended},\"stretches\":["
    )?;
    found.write_stretches(true, out)?;
    writeln!(out, "]}}")
}

// Writes how many bytes a file lacks at its end, or that it has more.
fn write_length<W: Write>(found: &Findings, out: &mut W) -> io::Result<()> {
    let missing = found.missing();
    if missing > 0 {
        write!(out, ", and it ends {missing} bytes early")?;
    }
    if found.damage.longer {
        write!(out, ", and it has more bytes than its guard says")?;
    }
    Ok(())
}

// How a file differs from what it was as its guard was made.
fn write_change<W: Write>(found: &Findings, out: &mut W) -> io::Result<()> {
    let (damaged, symbols) = (found.damaged(), found.symbols());
    write!(out, "FILE was changed after its guard was made")?;
    if damaged > 0 {
        write!(out, ", in {damaged} of {symbols} symbols")?;
    }
    write_length(found, out)
}

// What is wrong with a file, where something is.
fn write_fault<W: Write>(found: &Findings, out: &mut W) -> io::Result<()> {
    let (damaged, symbols, missing) = (found.damaged(), found.symbols(), found.missing());
    if !found.is_there {
        return write!(out, "FILE isn't there");
    }
    if found.is_strange() {
        return write!(
            out,
            "nearly no symbol of FILE is as the guard says, which may be another file's"
        );
    }
    if found.is_changed() {
        return write_change(found, out);
    }
    if damaged == 0 && missing > 0 {
        return write!(out, "FILE ends {missing} bytes early");
    }
    if damaged == 0 {
        return write!(out, "FILE has more bytes than its guard says");
    }
    write!(out, "{damaged} of {symbols} symbols of FILE are damaged")?;
    write_length(found, out)
}

// That a guard lists nothing.
fn write_no_list<W: Write>(out: &mut W) -> io::Result<()> {
    writeln!(
        out,
        "rqcast: the lists of the guard aren't whole: is it a guard, and is the key right?"
    )
}

// Why a file isn't mended by its guard.
fn reason_of(found: &Findings) -> &'static str {
    if !found.is_there || found.is_strange() {
        "that is more than the guard mends"
    } else if found.is_changed() {
        "that is more than the guard undoes"
    } else {
        "that is more than the guard mends, or the guard is of an older state of FILE"
    }
}

// What mends a file that its guard mends.
fn advice_of(found: &Findings) -> &'static str {
    if found.is_strange() {
        "`rqcast repair -o` makes that file"
    } else if found.is_changed() {
        "`rqcast repair` undoes that"
    } else {
        "`rqcast repair` mends it"
    }
}

/// Writes what a check found wrong, and whether the guard mends it.
pub fn write_checked<W: Write>(found: &Option<Findings>, out: &mut W) -> io::Result<()> {
    let Some(found) = found else {
        return write_no_list(out);
    };
    if found.is_whole() {
        return Ok(());
    }
    write!(out, "rqcast: ")?;
    write_fault(found, out)?;
    let end = if found.is_mended {
        advice_of(found)
    } else {
        reason_of(found)
    };
    writeln!(out, ": {end}")
}

/// Writes why a file isn't mended.
pub fn write_repaired<W: Write>(found: &Option<Findings>, out: &mut W) -> io::Result<()> {
    let Some(found) = found else {
        return write_no_list(out);
    };
    if found.is_mended {
        return Ok(());
    }
    write!(out, "rqcast: ")?;
    write_fault(found, out)?;
    let end = if found.is_strange() {
        "it is left as it is, and -o has that file made, where the guard has packets enough"
    } else {
        reason_of(found)
    };
    writeln!(out, ": {end}")
}
