//! What is said of the shards that were joined.

use crate::shards::{MOST_SHARDS, path_of};
use crate::shelf::{Begun, leading};
use crate::system::System;
use raptorq::error::Error;
use raptorq::systematic_constants::SystematicTable;
use rq_cast::Ending;
use rq_cells::{Head, Key, STREAM_LENGTH, Wanted};
use rq_devices::key_of;
use rq_guard::first_head;
use rq_rows::full_table;
use rq_shards::count_cells;
use rq_streams::{Counted, Stop};
use std::fs::File;
use std::io::Write;
use std::{fs, io};

type Stream = [u8; STREAM_LENGTH];

// The shards of a folder, and what their cells are read by.
#[derive(Clone, Copy)]
struct Folder<'a> {
    rt: &'a HostRuntime,
    path: &'a str,
    key: &'a Key,
    table: &'a SystematicTable,
}

// What is known of a shard.
#[derive(Clone, Copy)]
struct Found {
    number: u16,
    is_there: bool,
    // How many cells it has of the stream, where it can be read.
    cells: Option<u64>,
}

impl Folder<'_> {
    fn open(&self, number: u16) -> io::Result<File> {
        let path = path_of(self.rt, self.path, number)?;
        File::open(self.rt, path.as_str())
    }

    fn is_there(&self, number: u16) -> bool {
        match path_of(self.rt, self.path, number) {
            Ok(path) => fs::symlink_metadata(self.rt, path.as_str()).is_ok(),
            Err(_) => false,
        }
    }

    // The head of the first whole cell of a shard, whose stream begins so.
    fn first(&self, number: u16, name: &[u8]) -> Result<Option<Head>, Stop> {
        let wanted = Wanted {
            key: self.key,
            table: self.table,
            name,
            passed: &[],
        };
        let file = self.open(number).map_err(|_| Stop::Fault)?;
        let mut reader = Counted::new(file);
        first_head(self.rt.alloc(), &wanted, &mut reader)
    }

    // How many cells a shard has of a stream.
    fn cells(&self, number: u16, stream: &Stream) -> Result<u64, Stop> {
        let Some(head) = self.first(number, stream)? else {
            return Ok(0);
        };
        let file = self.open(number).map_err(|_| Stop::Fault)?;
        let mut reader = Counted::new(file);
        count_cells(self.rt.alloc(), self.key, &head, &mut reader)
    }

    // What a shard begins with: its first whole cell.
    fn begun(&self, number: u16) -> Option<Begun> {
        let head = self.first(number, &[]).ok()??;
        let metadata = self.open(number).ok()?.metadata().ok()?;
        Some(Begun {
            place: usize::from(number),
            stream: head.stream,
            symbol_size: head.configuration.symbol_size(),
            length: metadata.len(),
        })
    }

    // The stream that most shards begin with.
    fn leading(&self) -> Result<Option<Stream>, Error> {
        let mut begun = Vec::new(self.rt.alloc());
        for number in 0..MOST_SHARDS {
            if let Some(one) = self.begun(number) {
                begun.push(one)?;
            }
        }
        match leading(begun.as_slice()) {
            Some(one) => Ok(Some(one.stream)),
            None => Ok(None),
        }
    }

    // What is known of all shards up to the last one that is there.
    fn found(&self, stream: &Stream) -> Result<Vec<Found>, Error> {
        let mut found = Vec::new(self.rt.alloc());
        let mut all = 0;
        for number in 0..MOST_SHARDS {
            let is_there = self.is_there(number);
            found.push(Found {
                number,
                is_there,
                cells: self.cells(number, stream).ok(),
            })?;
            if is_there {
                all = found.len();
            }
        }
        found.truncate(all);
        Ok(found)
    }
}

// Writes a line of a shard that has not all cells.
fn write_shard<W: Write>(found: &Found, all: u64, json: bool, out: &mut W) -> io::Result<()> {
    let number = found.number;
    let cells = found.cells.unwrap_or(0);
    if json {
        return writeln!(out, "{{\"shard\":{number},\"cells\":{cells},\"of\":{all}}}");
    }
    match found.cells {
        _ if !found.is_there => writeln!(out, "rqcast: shard {number:03} is missing"),
        None => writeln!(out, "rqcast: shard {number:03} can't be read"),
        Some(0) => writeln!(out, "rqcast: shard {number:03} has no cell of this file"),
        Some(_) => writeln!(out, "rqcast: shard {number:03} has {cells} of {all} cells"),
    }
}

// The same of each, which has as many cells as the one that has most.
fn write_shards<W: Write>(shards: &[Found], json: bool, out: &mut W) -> io::Result<()> {
    let mut all = 0;
    for found in shards {
        all = all.max(found.cells.unwrap_or(0));
    }
    for found in shards {
        if found.cells != Some(all) {
            write_shard(found, all, json, out)?;
        }
    }
    Ok(())
}

/// Says which shards of a folder haven't all cells of the stream that was received, or of the one of most shards where
/// none is whole.
pub fn tell_shards<'w>(
    system: System<'_, 'w>,
    folder: &'w str,
    ending: Ending,
    json: bool,
) -> Result<(), Stop> {
    let rt = system.rt;
    let mut devices = system;
    let Some(key) = key_of(rt.alloc(), system.key, &mut devices)? else {
        return Ok(());
    };
    let table = full_table(rt.alloc())?;
    let read = Folder {
        rt,
        path: folder,
        key: &key,
        table: &table,
    };
    let stream = match ending {
        Ending::Written { stream } => Some(stream),
        Ending::Incomplete { .. } | Ending::GivenUp { .. } => read.leading()?,
    };
    if let Some(stream) = stream {
        let found = read.found(&stream)?;
        let _ = write_shards(found.as_slice(), json, &mut rt.stderr());
    }
    Ok(())
}
