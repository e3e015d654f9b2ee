//! The parts of a stream in their order, from cells in any.
ghost use Rattle.std.specs.Prelude.{◌≡◌, ◌+◌, ◌<◌, ◌≤◌, ◌-◌, ◌^◌, ℕ, List, [], ◌∷◌, ◌++◌, map, replicate, vec_len, All, MatchOption, OnOk, IfOk, IfErr, IfSome, None, true, false};
ghost use Rattle.rq_standard.specs.declared.row.TableRow.{TableRow};
ghost use Rattle.rq_cells.specs.Scans.{HasDigest};
ghost use Rattle.rq_cast.specs.Taken.{part_index};
ghost use Rattle.rq_cast.specs.PartReceiving.{IsSound, TakesCell};
ghost use Rattle.rq_cast.specs.Windows.{ReceivesCell, restarted_of, SettlesIn};

use crate::missing::missing_packets;
use crate::names::Names;
use crate::part_receiver::PartReceiver;
use crate::settled::{SettledPart, Settling};
use raptorq::Decoder;
use raptorq::error::Error;
use raptorq::systematic_constants::SystematicTable;
use rq_cells::{FoundCell, LAST_PART};
use std::alloc::{AllocError, Global};
use std::mem::replace;

/// Receives the parts of a stream in their order. It keeps some from the first one on that isn't settled:
/// cells of others are dropped. So it has no more parts in memory than these, whatever comes.
#[derive(Drop)]
pub struct Window {
    /// What is received of these parts, where a cell came.
    pub(crate) parts: Vec<Option<PartReceiver>>,
    /// The names of the parts before.
    pub(crate) names: Names,
    /// The bytes of parts that are settled and weren't handed out.
    pub(crate) ready: Vec<u8>,
    /// Whether the last part is settled.
    pub(crate) ended: bool,
    /// How often a part began anew. Counts stay at `u64::MAX`.
    pub(crate) restarted: u64,
    /// How many cells were dropped whose part comes behind the window.
    pub(crate) ahead: u64,
    /// How many whose part is settled.
    pub(crate) behind: u64,
    alloc: Global,
}

// So many places, of which none is open.
fn closed(alloc: Global, width: u32) -> Result<Vec<Option<PartReceiver>>, AllocError>
    ensures { IfOk result (λ v. v.items ≡ replicate width None) }
{
    let mut parts = Vec::with_capacity(alloc, width as usize)?;
    for _place in 0..width {
        parts.push(None)?;
    }
    Ok(parts)
}

// Opens a part by its first cell, where coders take its configuration over a table.
fn open_by(
    alloc: Global,
    table: &SystematicTable,
    found: FoundCell,
) -> Result<Option<PartReceiver>, Error>
    requires digest { HasDigest found }
    ensures receives { IfOk result (ReceivesCell table.now None found.cell) }
    ensures sound { IfOk result (λ o. IfSome o (IsSound table.now (part_index found.cell.head))) }
    ensures memory { IfErr result (λ e. e ≡ Error.OutOfMemory) }
{
    let head = &found.cell.head;
    match PartReceiver::new(alloc, table, *head) {
        Ok(mut part) => {
            part.take(alloc, table, found)?;
            Ok(Some(part))
        }
        Err(Error::OutOfMemory) => Err(Error::OutOfMemory),
        Err(_) => Ok(None),
    }
}

// Takes a cell of a part. Answers how often it began anew meanwhile.
fn take_counted(
    alloc: Global,
    table: &SystematicTable,
    part: &mut PartReceiver,
    found: FoundCell,
) -> Result<u64, Error>
    requires sound { IsSound table.now (part_index found.cell.head) part.old }
    requires digest { HasDigest found }
    ensures takes { OnOk result (TakesCell table.now part.old found.cell part.new) }
    ensures sound { OnOk result (IsSound table.now (part_index found.cell.head) part.new) }
    ensures anew { IfOk result (λ n. n ≡ part.new.restarted - part.old.restarted) }
    ensures memory { IfErr result (λ e. e ≡ Error.OutOfMemory) }
{
    let before = part.restarted;
    part.take(alloc, table, found)?;
    Ok(part.restarted.saturating_sub(before))
}

// How often a part began anew, where it is open.
fn restarted_of(part: &Option<PartReceiver>) -> u64
    ensures { result ≡ restarted_of part.now }
{
    match part {
        Some(part) => part.restarted,
        None => 0,
    }
}

/// Takes a cell of the part at a place, which it may open. Answers how often the part began anew meanwhile. Refuses
/// [`Error::OutOfMemory`] alone.
pub fn receive_cell(
    alloc: Global,
    table: &SystematicTable,
    place: &mut Option<PartReceiver>,
    found: FoundCell,
) -> Result<u64, Error>
    requires sound { IfSome place.old (IsSound table.now (part_index found.cell.head)) }
    requires digest { HasDigest found }
    ensures receives { OnOk result (ReceivesCell table.now place.old found.cell place.new) }
    ensures sound { OnOk result (IfSome place.new (IsSound table.now (part_index found.cell.head))) }
    ensures anew { IfOk result (λ n. n ≡ restarted_of place.new - restarted_of place.old) }
    ensures memory { IfErr result (λ e. e ≡ Error.OutOfMemory) }
{
    if let Some(part) = place {
        return take_counted(alloc, table, part, found);
    }
    *place = open_by(alloc, table, found)?;
    Ok(restarted_of(place))
}

// Settles the part at the first place, behind parts of some names.
fn settle_in(
    alloc: Global,
    table: &SystematicTable,
    place: &mut Option<PartReceiver>,
    names: &Names,
) -> Result<Settling, Error>
    requires sound { IfSome place.old (IsSound table.now names.now.count) }
    ensures settles { IfOk result (λ s. SettlesIn table.now names.now place.old s place.new) }
    ensures memory { IfErr result (λ e. e ≡ Error.OutOfMemory) }
{
    match place {
        Some(part) => part.settle(alloc, table, names),
        None => Ok(Settling::Waits),
    }
}

// Puts bytes behind others, and doesn't copy them where there are none.
fn append(ready: &mut Vec<u8>, bytes: Vec<u8>) -> Result<(), AllocError>
    ensures { OnOk result (ready.new.items ≡ ready.old.items ++ bytes.items) }
{
    if ready.is_empty() {
        *ready = bytes;
        return Ok(());
    }
    ready.extend_from_slice(bytes.as_slice())
}

impl Window {
    ghost use Rattle.rq_cast.specs.Windows.{IsSoundWindow, HasTaken, TakesCells, GivesCell, SettlesFirst, SettlesAll, MovesOn, HandsOut, TellsLacks, KeepsCounts};

    /// A window of so many parts, before any cell. Refuses [`Error::OutOfMemory`] alone.
    pub fn new(alloc: Global, width: u32) -> Result<Window, Error>
        ensures wide { IfOk result (λ w. vec_len w.parts ≡ width) }
        ensures taken { IfOk result (λ w. (table : List TableRow) (stream : List ℕ) → HasTaken table stream width [] [] w) }
        ensures sound { IfOk result (λ w. (table : List TableRow) → IsSoundWindow table w) }
        ensures memory { IfErr result (λ e. e ≡ Error.OutOfMemory) }
    {
        Ok(Window {
            parts: closed(alloc, width)?,
            names: Names::new(),
            ready: Vec::new(alloc),
            ended: false,
            restarted: 0,
            ahead: 0,
            behind: 0,
            alloc,
        })
    }

    /// Takes a cell of the stream, and settles the parts that are determined then. Refuses
    /// [`Error::OutOfMemory`] alone.
    pub fn take(
        &mut self,
        alloc: Global,
        table: &SystematicTable,
        found: FoundCell,
    ) -> Result<(), Error>
        requires sound { IsSoundWindow table.now self.old }
        requires digest { HasDigest found }
        ensures takes { OnOk result (TakesCells table.now self.old (found.cell ∷ []) self.new) }
        ensures sound { OnOk result (IsSoundWindow table.now self.new) }
        ensures memory { IfErr result (λ e. e ≡ Error.OutOfMemory) }
    {
        if self.ended {
            return Ok(());
        }
        let index = found.cell.head.number % LAST_PART;
        if index < self.names.count {
            self.behind = self.behind.saturating_add(1);
            return Ok(());
        }
        let place = (index - self.names.count) as usize;
        if place >= self.parts.len() {
            self.ahead = self.ahead.saturating_add(1);
            return Ok(());
        }
        self.give(alloc, table, place, found)?;
        self.settle_all(alloc, table)
    }

    /// Takes cells of the stream, in their order. Refuses [`Error::OutOfMemory`] alone.
    pub fn take_all(
        &mut self,
        alloc: Global,
        table: &SystematicTable,
        cells: Vec<FoundCell>,
    ) -> Result<(), Error>
        requires sound { IsSoundWindow table.now self.old }
        requires digests { All HasDigest cells.items }
        ensures takes { OnOk result (TakesCells table.now self.old (map (λ found. found.cell) cells.items) self.new) }
        ensures sound { OnOk result (IsSoundWindow table.now self.new) }
        ensures memory { IfErr result (λ e. e ≡ Error.OutOfMemory) }
    {
        for found in cells {
            self.take(alloc, table, found)?;
        }
        Ok(())
    }

    /// Hands out the bytes of the parts that are settled and weren't handed out.
    pub fn take_ready(&mut self) -> Vec<u8>
        ensures hands { HandsOut self.old result.items self.new }
        ensures ready { result.items ≡ self.old.ready.items }
        ensures none { self.new.ready.items ≡ [] }
        ensures ended { self.new.ended ≡ self.old.ended }
        ensures restarted { self.new.restarted ≡ self.old.restarted }
        ensures ahead { self.new.ahead ≡ self.old.ahead }
        ensures behind { self.new.behind ≡ self.old.behind }
        ensures sound { (table : List TableRow) → IsSoundWindow table self.old → IsSoundWindow table self.new }
    {
        replace(&mut self.ready, Vec::new(self.alloc))
    }

    /// How many packets more the first part needs at least that isn't settled: what
    /// [`missing_packets`] answers of those that count. `None` where no cell of it came.
    pub fn missing(&self) -> Option<u64>
        ensures { TellsLacks self.now result }
    {
        if self.parts.is_empty() {
            return None;
        }
        match &self.parts[0] {
            Some(part) => Some(missing_packets(&part.attempt.decoder)),
            None => None,
        }
    }

    /// Whether the last part is settled.
    pub fn has_ended(&self) -> bool
        ensures { result ≡ self.now.ended }
    {
        self.ended
    }

    /// How many parts are settled.
    pub fn settled_parts(&self) -> u32
        ensures { result ≡ self.now.names.count }
    {
        self.names.count
    }

    /// The decoder of the first part that isn't settled, where a cell of it came.
    pub fn decoder(&self) -> Option<&Decoder> {
        match self.parts.first() {
            Some(Some(part)) => Some(&part.attempt.decoder),
            _ => None,
        }
    }

    // Gives a cell to the part at its place.
    fn give(
        &mut self,
        alloc: Global,
        table: &SystematicTable,
        place: usize,
        found: FoundCell,
    ) -> Result<(), Error>
        requires sound { IsSoundWindow table.now self.old }
        requires digest { HasDigest found }
        requires open_still { self.old.ended ≡ false }
        requires within { place < vec_len self.old.parts }
        requires here { part_index found.cell.head ≡ self.old.names.count + place }
        ensures gives { OnOk result (GivesCell table.now self.old found.cell self.new) }
        ensures counts { OnOk result (KeepsCounts self.old self.new) }
        ensures sound { OnOk result (IsSoundWindow table.now self.new) }
        ensures memory { IfErr result (λ e. e ≡ Error.OutOfMemory) }
    {
        let anew = receive_cell(alloc, table, &mut self.parts[place], found)?;
        self.restarted = self.restarted.saturating_add(anew);
        Ok(())
    }

    // Settles parts until one isn't determined, or the last one is settled.
    fn settle_all(&mut self, alloc: Global, table: &SystematicTable) -> Result<(), Error>
        requires { IsSoundWindow table.now self.old }
        ensures settles { OnOk result (SettlesAll table.now self.old self.new) }
        ensures counts { OnOk result (KeepsCounts self.old self.new) }
        ensures sound { OnOk result (IsSoundWindow table.now self.new) }
        ensures memory { IfErr result (λ e. e ≡ Error.OutOfMemory) }
    {
        'settling: while !self.ended {
            if !self.settle_first(alloc, table)? {
                return Ok(());
            }
        }
        Ok(())
    }

    // Settles the first part, where its cells determine it. Answers whether they do.
    fn settle_first(&mut self, alloc: Global, table: &SystematicTable) -> Result<bool, Error>
        requires sound { IsSoundWindow table.now self.old }
        requires open_still { self.old.ended ≡ false }
        ensures settles { IfOk result (λ b. SettlesFirst table.now self.old b self.new) }
        ensures sound { OnOk result (IsSoundWindow table.now self.new) }
        ensures few { IfOk result (λ b. b ≡ true → self.old.names.count < 2 ^ 31) }
        ensures next { IfOk result (λ b. b ≡ true → self.new.names.count ≡ self.old.names.count + 1) }
        ensures counts { OnOk result (KeepsCounts self.old self.new) }
        ensures memory { IfErr result (λ e. e ≡ Error.OutOfMemory) }
    {
        if self.parts.is_empty() {
            return Ok(false);
        }
        match settle_in(alloc, table, &mut self.parts[0], &self.names)? {
            Settling::Waits => Ok(false),
            Settling::Anew => {
                self.restarted = self.restarted.saturating_add(1);
                Ok(false)
            }
            Settling::Settled(part) => {
                self.move_on(part)?;
                Ok(true)
            }
        }
    }

    // Slides by the first part, which is settled.
    fn move_on(&mut self, part: SettledPart) -> Result<(), Error>
        requires some { 0 < vec_len self.old.parts }
        requires few { self.old.names.count < 2 ^ 31 }
        ensures moves { OnOk result (MovesOn self.old part self.new) }
        ensures counts { OnOk result (KeepsCounts self.old self.new) }
        ensures memory { IfErr result (λ e. e ≡ Error.OutOfMemory) }
    {
        let SettledPart {
            name,
            is_last,
            bytes,
        } = part;
        append(&mut self.ready, bytes)?;
        self.names.push(&name);
        let _settled = self.parts.remove(0);
        self.parts.push(None)?;
        self.ended = is_last;
        Ok(())
    }
}
