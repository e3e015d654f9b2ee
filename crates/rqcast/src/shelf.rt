//! The shards of a folder, read in turns: so their parts come side by side, as they were sent.
ghost use Rattle.std.specs.Io.{ReadsAtMost};

use crate::shards::{MOST_SHARDS, path_of};
use rq_cells::{HEAD_LENGTH, STREAM_LENGTH};
use std::fs::File;
use std::io;
use std::io::Read;
use std::os::unix::fs::FileExt;

// How many bytes are read of a shard in a turn, and no fewer than a cell: whole cells, as far as they stand one behind
// another.
const TURN: usize = 65_536;

// How many bytes a cell has beside its symbol: a head, the symbol's id, and a check.
const BESIDE_SYMBOL: usize = 64;

// With what a cell begins, and where its stream and the size of its symbol stand.
const MARK: [u8; 4] = *b"RQC\x02";

const STREAM: usize = 4;

const SYMBOL_SIZE: usize = 38;

/// The cell that a shard begins with.
#[derive(Clone, Copy)]
pub struct Begun {
    /// Which of the shards it is.
    pub place: usize,
    /// The stream of the cell.
    pub stream: [u8; STREAM_LENGTH],
    /// How many bytes its symbol has.
    pub symbol_size: u16,
    /// How many bytes the shard has.
    pub length: u64,
}

/// The shards of a folder.
#[derive(Drop)]
pub struct Shelf {
    shards: Vec<File>,
    // Which shard is read now, how many bytes a turn has, and how many are left of this one.
    turn: usize,
    turn_length: usize,
    left: usize,
}

fn open_shard(rt: &HostRuntime, folder: &str, number: u16) -> io::Result<File> {
    let path = path_of(rt, folder, number)?;
    File::open(rt, path.as_str())
}

// What a shard begins with, where that looks as a cell does: its check isn't tried here, which needs the key.
fn begun_of(file: &File, place: usize) -> Option<Begun> {
    let length = file.metadata().ok()?.len();
    let mut start = [0u8; HEAD_LENGTH];
    file.read_exact_at(&mut start, 0).ok()?;
    if !start.starts_with(&MARK) {
        return None;
    }
    let stream = *start[STREAM..].first_chunk::<STREAM_LENGTH>()?;
    let symbol_size = u16::from_be_bytes(*start[SYMBOL_SIZE..].first_chunk::<2>()?);
    Some(Begun {
        place,
        stream,
        symbol_size,
        length,
    })
}

// How many bytes all shards have of the stream of one.
fn length_of(shards: &[Begun], one: &Begun) -> u64 {
    let mut length = 0u64;
    for shard in shards {
        if shard.stream == one.stream {
            length = length.saturating_add(shard.length);
        }
    }
    length
}

/// The first shard of the stream that most shards begin with, and of several such ones of that which has most bytes.
pub fn leading(shards: &[Begun]) -> Option<Begun> {
    let mut leading = None;
    let (mut most, mut most_bytes) = (0, 0);
    for one in shards {
        let is_alike = |other: &&Begun| other.stream == one.stream;
        let count = shards.iter().filter(is_alike).count();
        let bytes = length_of(shards, one);
        if count > most || (count == most && bytes > most_bytes) {
            most = count;
            most_bytes = bytes;
            leading = Some(*one);
        }
    }
    leading
}

// How many bytes a turn has of cells with such symbols.
fn turn_length(symbol_size: u16) -> usize {
    let cell = BESIDE_SYMBOL + usize::from(symbol_size);
    TURN.max(cell) / cell * cell
}

// How long symbols are, as most shards of the stream of one say. So one that is damaged where it begins is read as the
// others are.
fn symbol_size_of(shards: &[Begun], leading: &Begun) -> u16 {
    let mut symbol_size = leading.symbol_size;
    let mut most = 0;
    for one in shards {
        let is_alike = |other: &&Begun| {
            other.stream == leading.stream && other.symbol_size == one.symbol_size
        };
        let count = shards.iter().filter(is_alike).count();
        if count > most {
            most = count;
            symbol_size = one.symbol_size;
        }
    }
    symbol_size
}

impl Shelf {
    /// Opens the shards of a folder, where it has some. The first turn is that of one of the leading stream.
    pub fn open(rt: &HostRuntime, folder: &str) -> io::Result<Option<Shelf>> {
        let mut shards = Vec::new(rt.alloc());
        let mut begun = Vec::new(rt.alloc());
        for number in 0..MOST_SHARDS {
            // One that can't be opened is lost, as one that isn't there.
            if let Ok(file) = open_shard(rt, folder, number) {
                if let Some(one) = begun_of(&file, shards.len()) {
                    begun.push(one)?;
                }
                shards.push(file)?;
            }
        }
        if shards.is_empty() {
            return Ok(None);
        }
        let (turn, turn_length) = match leading(begun.as_slice()) {
            Some(one) => {
                let symbol_size = symbol_size_of(begun.as_slice(), &one);
                (one.place, turn_length(symbol_size))
            }
            None => (0, TURN),
        };
        Ok(Some(Shelf {
            shards,
            turn,
            turn_length,
            left: turn_length,
        }))
    }

    // Goes on to the next shard.
    fn pass_on(&mut self) {
        let next = self.turn.saturating_add(1);
        self.turn = if next < self.shards.len() { next } else { 0 };
        self.left = self.turn_length;
    }

    // Reads of the shard whose turn it is. One that can't be read has ended: what is behind that is lost, and no fault
    // of the run.
    fn read_turn(&mut self, buf: &mut [u8]) -> usize {
        let end = buf.len().min(self.left);
        match self.shards.get_mut(self.turn) {
            Some(file) => file.read(&mut buf[..end]).unwrap_or(0),
            None => 0,
        }
    }

    /// Reads what is left of a turn, or the next one.
    pub fn read(&mut self, buf: &mut [u8]) -> io::Result<usize>
        ensures { ReadsAtMost result buf.new }
    {
        for _shard in 0..self.shards.len() {
            let n = self.read_turn(buf).min(buf.len());
            self.left = self.left.saturating_sub(n);
            if n == 0 || self.left == 0 {
                self.pass_on();
            }
            if n > 0 || buf.is_empty() {
                return Ok(n);
            }
        }
        Ok(0)
    }
}
