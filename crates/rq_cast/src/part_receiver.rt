//! What is received of a part, whoever sends its cells.
ghost use Rattle.std.specs.Prelude.{◌≡◌, option_map, option_copied, vec_items, OnOk, IfOk, IfErr};
ghost use Rattle.rq_bytes.specs.Refusals.{IsRefusal};
ghost use Rattle.rq_standard.specs.TableRows.{greatest_size};
ghost use Rattle.rq_base.specs.RefusedInput.{checked_configuration};
ghost use Rattle.rq_cells.specs.Cells.{digest_of};
ghost use Rattle.rq_cells.specs.Scans.{HasDigest};
ghost use Rattle.rq_cast.specs.Taken.{part_index, IsTakenHead};

use crate::attempt::Attempt;
use crate::choice::Choice;
use crate::names::Names;
use crate::settled::{SettledPart, Settling, part_behind};
use raptorq::EncodingPacket;
use raptorq::error::Error;
use raptorq::systematic_constants::SystematicTable;
use rq_cells::{Cell, DIGEST_LENGTH, FoundCell, Head};
use std::alloc::Global;

/// What is received of a part. Where its packets contradict each other, or determine what isn't named as
/// their head says, it begins anew with what comes; so it does with another head where more cells have
/// that, also where an object is determined, since only what stands before it tells whether it is the
/// part. So who forges cells delays it at the most.
#[derive(Drop)]
pub struct PartReceiver {
    pub(crate) choice: Choice,
    pub(crate) attempt: Attempt,
    /// How often it began anew.
    pub(crate) restarted: u64,
}

impl PartReceiver {
    ghost use Rattle.rq_cast.specs.PartReceiving.{IsAttempt, IsSound, IsUnused, BeginsAnew, GivesUp, AddsPacket, TakesCell};
    ghost use Rattle.rq_cast.specs.Settling.{SettlesPart};

    /// A receiver of the part with a head, before any cell. Refuses what
    /// [`Decoder::new`](raptorq::Decoder::new) refuses.
    pub fn new(alloc: Global, table: &SystematicTable, head: Head) -> Result<PartReceiver, Error>
        ensures accepted { OnOk result (IsTakenHead table.now head) }
        ensures sound { IfOk result (IsSound table.now (part_index head)) }
        ensures unused { IfOk result (IsUnused table.now head) }
        ensures refused { IfErr result (λ e. IsRefusal e (checked_configuration (greatest_size table.now) head.configuration)) }
    {
        Ok(PartReceiver {
            choice: Choice::new(head),
            attempt: Attempt::new(alloc, table, &head)?,
            restarted: 0,
        })
    }

    // Begins anew with the head in use. Refuses `Error::OutOfMemory` alone.
    fn begin_anew(&mut self, alloc: Global, table: &SystematicTable) -> Result<(), Error>
        requires { IsTakenHead table.now self.old.choice.head }
        ensures begins { OnOk result (BeginsAnew table.now self.old self.new) }
        ensures counts { self.new.choice ≡ self.old.choice }
        ensures memory { IfErr result (λ e. e ≡ Error.OutOfMemory) }
    {
        self.attempt = Attempt::new(alloc, table, &self.choice.head)?;
        self.restarted = self.restarted.saturating_add(1);
        Ok(())
    }

    // Begins anew with the head in use, none of whose cells counts any more: they may all be forged.
    fn give_up(&mut self, alloc: Global, table: &SystematicTable) -> Result<(), Error>
        requires { IsTakenHead table.now self.old.choice.head }
        ensures gives_up { OnOk result (GivesUp table.now self.old self.new) }
        ensures memory { IfErr result (λ e. e ≡ Error.OutOfMemory) }
    {
        self.choice.cells = 0;
        self.begin_anew(alloc, table)
    }

    // Takes a packet of a cell with the head in use.
    fn add(
        &mut self,
        alloc: Global,
        table: &SystematicTable,
        packet: EncodingPacket,
        digest: [u8; DIGEST_LENGTH],
    ) -> Result<(), Error>
        requires taken { IsTakenHead table.now self.old.choice.head }
        requires attempt { IsAttempt self.old.choice.head self.old.attempt }
        requires digest { digest ≡ digest_of packet.payload }
        ensures adds { OnOk result (AddsPacket table.now self.old packet self.new) }
        ensures memory { IfErr result (λ e. e ≡ Error.OutOfMemory) }
    {
        if self.attempt.take(alloc, &self.choice.head, packet, digest)? {
            return Ok(());
        }
        self.give_up(alloc, table)
    }

    /// Takes a cell of the part. Refuses [`Error::OutOfMemory`] alone.
    pub fn take(
        &mut self,
        alloc: Global,
        table: &SystematicTable,
        found: FoundCell,
    ) -> Result<(), Error>
        requires sound { IsSound table.now (part_index found.cell.head) self.old }
        requires digest { HasDigest found }
        ensures takes { OnOk result (TakesCell table.now self.old found.cell self.new) }
        ensures sound { OnOk result (IsSound table.now (part_index found.cell.head) self.new) }
        ensures memory { IfErr result (λ e. e ≡ Error.OutOfMemory) }
    {
        let FoundCell { cell, digest } = found;
        let Cell { head, packet } = cell;
        if head == self.choice.head {
            self.choice.count();
            return self.add(alloc, table, packet, digest);
        }
        if !self.choice.count_other(table, &head) {
            return Ok(());
        }
        self.begin_anew(alloc, table)?;
        self.add(alloc, table, packet, digest)
    }

    /// The object that its cells determine, where it is named as their head says.
    pub fn object(&self) -> Option<&[u8]>
        ensures { option_copied result ≡ option_map vec_items self.now.attempt.object }
    {
        match &self.attempt.object {
            Some(object) => Some(object.as_slice()),
            None => None,
        }
    }

    /// Hands out the part, where its cells determine it and it is the one behind parts of some names, and
    /// begins anew where they determine anything else. Once it is handed out, nothing is left to be
    /// received. Refuses [`Error::OutOfMemory`] alone.
    pub(crate) fn settle(
        &mut self,
        alloc: Global,
        table: &SystematicTable,
        names: &Names,
    ) -> Result<Settling, Error>
        requires sound { IsSound table.now (part_index self.old.choice.head) self.old }
        ensures settles { IfOk result (λ s. SettlesPart table.now names.now self.old s self.new) }
        ensures memory { IfErr result (λ e. e ≡ Error.OutOfMemory) }
    {
        let Some(mut object) = self.attempt.object.take() else {
            return Ok(Settling::Waits);
        };
        let head = self.choice.head;
        let Some((is_last, length)) = part_behind(names, &head, object.as_slice())? else {
            self.give_up(alloc, table)?;
            return Ok(Settling::Anew);
        };
        object.truncate(length);
        Ok(Settling::Settled(SettledPart {
            name: head.name,
            is_last,
            bytes: object,
        }))
    }
}
