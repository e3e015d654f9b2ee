//! The first wanted cell among bytes, also where they come in pieces.
ghost use Rattle.std.specs.Prelude.{◌≡◌, ◌^◌, ◌<◌, ◌≤◌, ◌++◌, length, drop, IfOk, IfErr, IfSome, OnOk};
ghost use Rattle.rq_cells.specs.Wanted.{wish_of, IsSearch};
ghost use Rattle.rq_cells.specs.Search.{Continues, HasWalked, IsFresh, Notes, Finds, FindsAll, IsFound, IsEnd, IsWalked, CanNote, place_of, new_search, left_behind};

use crate::head::{HEAD_LENGTH, Head, next_head};
use crate::wanted::{Heads, Note, Search, Sight, Wanted, sight_again, sight_of};
use rq_bytes::error::Error;
use std::alloc::Global;
use std::marker::Model;

/// What is known of the head at a place.
#[derive(Clone, Copy)]
pub(crate) struct Noted {
    pub at: usize,
    pub note: Note,
}

/// How far a walk over the places of bytes has come.
#[derive(Drop)]
pub(crate) struct Walk {
    /// The next place.
    pub at: usize,
    /// The heads before it.
    pub heads: Heads,
    /// The first place at which a wanted cell may still become whole, and the heads before that.
    pub pending: Option<(usize, Heads)>,
    /// What is known of the heads from there on. Their places count from there.
    pub notes: Vec<Noted>,
}

/// What a walk over all places found, and what is known of the bytes that are left.
#[derive(Drop)]
pub(crate) struct Walked {
    pub search: Search,
    /// At how many of their first places was looked.
    pub looked: usize,
    /// What is known of the heads there.
    pub notes: Vec<Noted>,
}

impl Heads {
    ghost use Rattle.rq_cells.specs.Search.{heads_with};

    // With one more, where this is known of it.
    fn with(self, note: &Note) -> Heads
        requires { (self.damaged < 2 ^ 63) × (self.others < 2 ^ 63) }
        ensures { result ≡ heads_with self note.now }
    {
        let Heads { damaged, others } = self;
        match note {
            Note::Begun(_) => self,
            Note::Damaged => Heads {
                damaged: damaged + 1,
                others,
            },
            Note::Other => Heads {
                damaged,
                others: others + 1,
            },
        }
    }
}

impl Walk {
    fn new(alloc: Global) -> Walk
        ensures { IsFresh result }
    {
        Walk {
            at: 0,
            heads: Heads::default(),
            pending: None,
            notes: Vec::new(alloc),
        }
    }

    // Goes on behind a head of which this is known.
    fn note(&mut self, note: Note) -> Result<(), Error>
        requires { CanNote self.old }
        ensures noted { OnOk result (Notes self.old note self.new) }
        ensures memory { IfErr result (λ e. e ≡ Error.OutOfMemory) }
    {
        if let Note::Begun(_) = note {
            self.pending = self.pending.or(Some((self.at, self.heads)));
        }
        if let Some((from, _)) = self.pending {
            self.notes.push(Noted {
                at: self.at - from,
                note,
            })?;
        }
        self.heads = self.heads.with(&note);
        self.at += 1;
        Ok(())
    }

    // What is left behind a walk that came to a wanted cell with this head.
    fn found(self, alloc: Global, head: Head) -> Walked
        ensures { IsFound self head result }
    {
        Walked {
            search: Search::Found {
                at: self.at,
                head,
                before: self.heads,
            },
            looked: 0,
            notes: Vec::new(alloc),
        }
    }

    // What is left behind a walk over all places that came to none.
    fn ended(self) -> Walked
        requires { IfSome self.pending (λ p. p.0 ≤ self.at) }
        ensures { IsEnd self result }
    {
        let (from, before) = self.pending.unwrap_or((self.at, self.heads));
        Walked {
            search: Search::NotYet {
                from,
                before,
                all: self.heads,
            },
            looked: self.at - from,
            notes: self.notes,
        }
    }
}

// Goes over the heads that are known of the first places.
fn walk_known(
    alloc: Global,
    wanted: &Wanted<'_>,
    bytes: &[u8],
    looked: usize,
    known: &[Noted],
) -> Result<(Walk, Option<Head>), Error>
    requires { Continues (wish_of wanted.now) bytes.now looked known.now }
    ensures finds { IfOk result (λ found. Finds (wish_of wanted.now) bytes.now found.0 found.1) }
    ensures memory { IfErr result (λ e. e ≡ Error.OutOfMemory) }
{
    let mut walk = Walk::new(alloc);
    for noted in known {
        walk.at = noted.at;
        match sight_again(alloc, wanted, &noted.note, &bytes[noted.at..])? {
            Sight::Noted(note) => walk.note(note)?,
            Sight::Found(head) => return Ok((walk, Some(head))),
        }
    }
    walk.at = looked;
    Ok((walk, None))
}

// Goes over the places that are left.
fn walk_on(
    alloc: Global,
    wanted: &Wanted<'_>,
    bytes: &[u8],
    walk: &mut Walk,
) -> Result<Option<Head>, Error>
    requires { HasWalked (wish_of wanted.now) bytes.now walk.old }
    ensures finds { IfOk result (FindsAll (wish_of wanted.now) bytes.now walk.new) }
    ensures memory { IfErr result (λ e. e ≡ Error.OutOfMemory) }
{
    'heads: while let Some((at, head)) = next_head(wanted.key, bytes, walk.at) {
        walk.at = at;
        match sight_of(alloc, wanted, head, &bytes[at..])? {
            Sight::Noted(note) => walk.note(note)?,
            Sight::Found(head) => return Ok(Some(head)),
        }
    }
    walk.at = bytes.len().saturating_sub(HEAD_LENGTH - 1);
    Ok(None)
}

// Looks at all places of bytes, and at those where something is known again only if it may be more now.
fn walk_over(
    alloc: Global,
    wanted: &Wanted<'_>,
    bytes: &[u8],
    looked: usize,
    known: &[Noted],
) -> Result<Walked, Error>
    requires { Continues (wish_of wanted.now) bytes.now looked known.now }
    ensures walked { IfOk result (IsWalked (wish_of wanted.now) bytes.now) }
    ensures memory { IfErr result (λ e. e ≡ Error.OutOfMemory) }
{
    let (mut walk, found) = walk_known(alloc, wanted, bytes, looked, known)?;
    if let Some(head) = found {
        return Ok(walk.found(alloc, head));
    }
    if let Some(head) = walk_on(alloc, wanted, bytes, &mut walk)? {
        return Ok(walk.found(alloc, head));
    }
    Ok(walk.ended())
}

/// The first wanted cell in bytes behind which others may come. A cell that is begun and not whole yet
/// doesn't hold up one behind it. Refuses [`Error::OutOfMemory`] alone.
pub fn first_wanted(alloc: Global, wanted: &Wanted<'_>, bytes: &[u8]) -> Result<Search, Error>
    ensures search { IfOk result (IsSearch (wish_of wanted.now) bytes.now) }
    ensures memory { IfErr result (λ e. e ≡ Error.OutOfMemory) }
{
    Ok(walk_over(alloc, wanted, bytes, 0, &[])?.search)
}

/// Lets the first `n` bytes go. The rest is moved within the buffer.
pub fn remove_front(bytes: &mut Vec<u8>, n: usize)
    requires { n ≤ length bytes.old.items }
    ensures { bytes.new.items ≡ drop n bytes.old.items }
{
    let kept = bytes.len() - n;
    bytes.copy_within(n.., 0);
    bytes.truncate(kept);
}

impl Search {
    // Before this place no wanted cell begins.
    fn place(&self) -> usize
        ensures { result ≡ place_of self.now }
    {
        match self {
            Search::Found { at, .. } => *at,
            Search::NotYet { from, .. } => *from,
        }
    }
}

/// A search for the first wanted cell among bytes that come in pieces. Each head is looked at once, and
/// once more when as many bytes are there as its cell has.
#[derive(Drop)]
pub struct CellSearch<'a> {
    wanted: Wanted<'a>,
    bytes: Vec<u8>,
    // The first places were looked at. Of their heads this is known.
    looked: usize,
    notes: Vec<Noted>,
}

impl<'a> Model for CellSearch<'a> {
    ghost use Rattle.rq_cells.specs.Wanted.{wish_of};
    ghost use Rattle.rq_cells.specs.Search.{Searching, Continues};

    ghost Value = { Searching };

    ghost view = { λ s. record { wish = wish_of s.wanted; bytes = s.bytes.items } };

    ghost invariant = { λ s. Continues (wish_of s.wanted) s.bytes.items s.looked s.notes.items };
}

impl<'a> CellSearch<'a> {
    /// A search among no bytes.
    pub fn new(alloc: Global, wanted: &Wanted<'a>) -> CellSearch<'a>
        ensures { result ≡ new_search (wish_of wanted.now) }
    {
        CellSearch {
            wanted: *wanted,
            bytes: Vec::new(alloc),
            looked: 0,
            notes: Vec::new(alloc),
        }
    }

    /// Takes bytes that come behind the earlier ones, and answers as [`first_wanted`] does of those that
    /// are there. Those before the first wanted cell are let go, or those before which none can begin
    /// any more. Refuses [`Error::OutOfMemory`] alone: it holds what it held then, and maybe the new bytes
    /// behind it.
    pub fn feed(&mut self, alloc: Global, piece: &[u8]) -> Result<Search, Error>
        ensures search { IfOk result (IsSearch self.old.wish (self.old.bytes ++ piece.now)) }
        ensures left { IfOk result (λ search. self.new ≡ left_behind self.old piece.now search) }
        ensures memory { IfErr result (λ e. e ≡ Error.OutOfMemory) }
    {
        self.bytes.extend_from_slice(piece)?;
        let bytes = self.bytes.as_slice();
        let notes = self.notes.as_slice();
        let walked = walk_over(alloc, &self.wanted, bytes, self.looked, notes)?;
        remove_front(&mut self.bytes, walked.search.place());
        self.looked = walked.looked;
        self.notes = walked.notes;
        Ok(walked.search)
    }

    /// The bytes that are left.
    pub fn into_bytes(self) -> Vec<u8>
        ensures { result.items ≡ self.entry.bytes }
    {
        self.bytes
    }
}
