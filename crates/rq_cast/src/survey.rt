//! Which streams stand among bytes.
ghost use Rattle.std.specs.Prelude.{◌≡◌, [], OnOk, IfOk, IfErr, nat_eq};
ghost use Rattle.std.specs.List.{list_any};
ghost use Rattle.std.specs.Cmp.Lexicographic.{pointwise};
ghost use Rattle.rq_cast.specs.Received.{wish_over};
ghost use Rattle.rq_cast.specs.Receiving.{IsSoundReceiver, FeedsAll, ready_of};
ghost use Rattle.rq_cast.specs.Surveyed.{ListsStreams, IsStanding, IsSurvey};

use crate::input::CHUNK;
use crate::receiver::Receiver;
use crate::run::Ending;
use crate::seen::Seen;
use raptorq::error::Error;
use raptorq::systematic_constants::SystematicTable;
use rq_cells::{Head, Key, Search, Wanted, first_wanted};
use std::alloc::Global;

/// What stands among bytes of a stream.
#[derive(Clone, Copy, Debug, PartialEq, Eq)]
pub struct Standing {
    /// What the first of its cells begins with.
    pub head: Head,
    /// How many bytes its parts have that a run writes which receives it alone.
    pub bytes: u64,
    /// How such a run ends.
    pub ended: Ending,
    /// What it sees.
    pub seen: Seen,
}

// Whether one of some heads is that of the same stream.
fn is_listed(heads: &[Head], head: &Head) -> bool
    ensures { result ≡ list_any (λ h. pointwise nat_eq h.stream head.now.stream) heads.now }
{
    heads.iter().any(|listed| listed.stream == head.stream)
}

// The heads of the first wanted cells of all streams of which one is whole at any place of bytes. Any are
// wanted whose configuration coders take over a table.
fn heads_in(
    alloc: Global,
    table: &SystematicTable,
    key: &Key,
    bytes: &[u8],
) -> Result<Vec<Head>, Error>
    ensures heads { IfOk result (λ v. ListsStreams (wish_over table.now key.now [] []) bytes.now v.items) }
    ensures memory { IfErr result (λ e. e ≡ Error.OutOfMemory) }
{
    let wanted = Wanted {
        key,
        table,
        name: &[],
        passed: &[],
    };
    let mut heads = Vec::new(alloc);
    let mut at = 0;
    'cells: while at < bytes.len() {
        match first_wanted(alloc, &wanted, &bytes[at..])? {
            Search::Found {
                at: place,
                head,
                ..
            } => {
                if !is_listed(heads.as_slice(), &head) {
                    heads.push(head)?;
                }
                at += place + 1;
            }
            Search::NotYet { .. } => return Ok(heads),
        }
    }
    Ok(heads)
}

// Feeds all bytes to a receiver, and lets go what it hands out. Answers how many bytes that are.
fn feed_all(alloc: Global, receiver: &mut Receiver<'_>, bytes: &[u8]) -> Result<u64, Error>
    requires sound { IsSoundReceiver receiver.old }
    requires none { ready_of receiver.old ≡ [] }
    ensures feeds { IfOk result (λ written. FeedsAll bytes.now receiver.old written receiver.new) }
    ensures sound { OnOk result (IsSoundReceiver receiver.new) }
    ensures none { OnOk result (ready_of receiver.new ≡ []) }
    ensures memory { IfErr result (λ e. e ≡ Error.OutOfMemory) }
{
    let mut written = 0u64;
    let mut at = 0;
    'feeding: while at < bytes.len() {
        let end = bytes.len().min(at + CHUNK);
        receiver.feed(alloc, &bytes[at..end])?;
        written = written.saturating_add(receiver.take_ready().len() as u64);
        at = end;
    }
    Ok(written)
}

// What stands among bytes of a stream.
fn standing_of<'a>(
    alloc: Global,
    table: &'a SystematicTable,
    key: &'a Key,
    window: u32,
    head: &'a Head,
    bytes: &[u8],
) -> Result<Standing, Error>
    ensures standing { IfOk result (IsStanding table.now key.now window bytes.now) }
    ensures head { IfOk result (λ s. s.head ≡ head.now) }
    ensures memory { IfErr result (λ e. e ≡ Error.OutOfMemory) }
{
    let wanted = Wanted {
        key,
        table,
        name: &head.stream,
        passed: &[],
    };
    let mut receiver = Receiver::new(alloc, &wanted, window);
    let written = feed_all(alloc, &mut receiver, bytes)?;
    Ok(Standing {
        head: *head,
        bytes: written,
        ended: receiver.ending(),
        seen: receiver.all_seen(),
    })
}

/// The streams of which a whole cell stands at any place of bytes, and whose configuration coders take over a
/// table: each once, in the order of their first cells, and what a run makes of it that receives it alone, with
/// a window of so many parts. Checks are made with a key. Refuses [`Error::OutOfMemory`] alone.
pub fn standings_in(
    alloc: Global,
    table: &SystematicTable,
    key: &Key,
    window: u32,
    bytes: &[u8],
) -> Result<Vec<Standing>, Error>
    ensures survey { IfOk result (λ v. IsSurvey table.now key.now window bytes.now v.items) }
    ensures memory { IfErr result (λ e. e ≡ Error.OutOfMemory) }
{
    let heads = heads_in(alloc, table, key, bytes)?;
    let mut standings = Vec::new(alloc);
    for head in &heads {
        standings.push(standing_of(alloc, table, key, window, head, bytes)?)?;
    }
    Ok(standings)
}
