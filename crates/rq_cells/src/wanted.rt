//! Which cells a receiver takes first.
ghost use Rattle.std.specs.Prelude.{◌≡◌, IfOk, IfErr, Some, true, nat_eq};
ghost use Rattle.std.specs.List.{list_any, starts_with};
ghost use Rattle.rq_cells.specs.Cells.{head_at};
ghost use Rattle.rq_cells.specs.Wanted.{wish_of, is_passed, is_wanted, IsSight, WasNoted};

use crate::cell::Cell;
use crate::head::{Head, STREAM_LENGTH};
use crate::key::Key;
use rq_bytes::error::Error;
use rq_tables::systematic_constants::SystematicTable;
use std::alloc::Global;

/// Which cells are wanted: those whose configuration coders take over a table, and whose stream begins
/// with some bytes, and with none of those that are passed over.
#[derive(Clone, Copy)]
pub struct Wanted<'a> {
    /// What their checks are made with.
    pub key: &'a Key,
    /// The table.
    pub table: &'a SystematicTable,
    /// How the stream begins: any does where there are no bytes.
    pub name: &'a [u8],
    /// The beginnings of streams that are passed over.
    pub passed: &'a [Vec<u8>],
}

// Whether a stream begins with one of these.
fn begins_with_one(stream: &[u8; STREAM_LENGTH], beginnings: &[Vec<u8>]) -> bool
    ensures { result ≡ list_any (λ v. starts_with nat_eq stream.now v.items) beginnings.now }
{
    beginnings
        .iter()
        .any(|begins| stream.starts_with(begins.as_slice()))
}

impl Wanted<'_> {
    // Whether a stream is passed over.
    fn passes(&self, stream: &[u8; STREAM_LENGTH]) -> bool
        ensures { result ≡ is_passed (wish_of self.now).passed stream.now }
    {
        begins_with_one(stream, self.passed)
    }

    // Whether a head is that of wanted cells.
    fn wants(&self, head: &Head) -> bool
        ensures { result ≡ is_wanted (wish_of self.now) head.now }
    {
        head.configuration.check(self.table).is_ok()
            && head.stream.starts_with(self.name)
            && !self.passes(&head.stream)
    }
}

/// What is known of a head behind which no wanted cell is whole.
#[derive(Clone, Copy)]
pub(crate) enum Note {
    /// It is wanted, and fewer bytes stand there than its cell has.
    Begun(Head),
    /// It is wanted, and its cell is damaged behind it.
    Damaged,
    /// It isn't wanted.
    Other,
}

/// What stands where bytes begin with a head.
#[derive(Clone, Copy)]
pub(crate) enum Sight {
    /// No wanted cell yet.
    Noted(Note),
    /// A wanted cell, with this head.
    Found(Head),
}

/// The heads at places where no wanted cell is whole.
#[derive(Clone, Copy, Debug, Default, PartialEq, Eq)]
pub struct Heads {
    /// How many are wanted ones, whose cells are damaged behind them.
    pub damaged: usize,
    /// How many aren't wanted.
    pub others: usize,
}

/// What a search for the first wanted cell finds.
#[derive(Clone, Copy, Debug, PartialEq, Eq)]
pub enum Search {
    /// The first wanted cell begins at this place, with this head. Before it stand these heads.
    Found {
        at: usize,
        head: Head,
        before: Heads,
    },
    /// No wanted cell is whole, and none begins before this place. Before it stand these heads, and
    /// those at all places.
    NotYet {
        from: usize,
        before: Heads,
        all: Heads,
    },
}

// What stands where these bytes begin with a wanted head.
fn sight_behind(
    alloc: Global,
    wanted: &Wanted<'_>,
    head: Head,
    bytes: &[u8],
) -> Result<Sight, Error>
    requires head { head_at wanted.now.key.now bytes.now ≡ Some head }
    requires wanted { is_wanted (wish_of wanted.now) head ≡ true }
    ensures sight { IfOk result (IsSight (wish_of wanted.now) bytes.now) }
    ensures memory { IfErr result (λ e. e ≡ Error.OutOfMemory) }
{
    if bytes.len() < head.cell_length() {
        return Ok(Sight::Noted(Note::Begun(head)));
    }
    Ok(match Cell::read(alloc, wanted.key, bytes)? {
        Some(cell) => Sight::Found(cell.head),
        None => Sight::Noted(Note::Damaged),
    })
}

/// What stands where these bytes begin with a head.
pub(crate) fn sight_of(
    alloc: Global,
    wanted: &Wanted<'_>,
    head: Head,
    bytes: &[u8],
) -> Result<Sight, Error>
    requires { head_at wanted.now.key.now bytes.now ≡ Some head }
    ensures sight { IfOk result (IsSight (wish_of wanted.now) bytes.now) }
    ensures memory { IfErr result (λ e. e ≡ Error.OutOfMemory) }
{
    if !wanted.wants(&head) {
        return Ok(Sight::Noted(Note::Other));
    }
    sight_behind(alloc, wanted, head, bytes)
}

/// What stands where these bytes begin, of whose head this was known when they were fewer.
pub(crate) fn sight_again(
    alloc: Global,
    wanted: &Wanted<'_>,
    note: &Note,
    bytes: &[u8],
) -> Result<Sight, Error>
    requires { WasNoted (wish_of wanted.now) bytes.now note.now }
    ensures sight { IfOk result (IsSight (wish_of wanted.now) bytes.now) }
    ensures memory { IfErr result (λ e. e ≡ Error.OutOfMemory) }
{
    match note {
        Note::Begun(head) => sight_behind(alloc, wanted, *head, bytes),
        Note::Damaged | Note::Other => Ok(Sight::Noted(*note)),
    }
}
