//! An attempt at a part.
ghost use Rattle.std.specs.Prelude.{◌≡◌, ◌≢◌, [], None, OnOk, IfOk, IfErr, false};
ghost use Rattle.rq_bytes.specs.Refusals.{IsRefusal};
ghost use Rattle.rq_standard.specs.TableRows.{greatest_size};
ghost use Rattle.rq_standard.specs.Following.{FollowsRun};
ghost use Rattle.rq_base.specs.RefusedInput.{checked_configuration};
ghost use Rattle.raptorq.specs.Decoder.{state_of};
ghost use Rattle.rq_cells.specs.Cells.{digest_of};
ghost use Rattle.rq_cast.specs.Taken.{IsTakenHead};

use crate::digests::KnownDigests;
use crate::named::named_object;
use raptorq::error::Error;
use raptorq::systematic_constants::SystematicTable;
use raptorq::{Decoder, EncodingPacket};
use rq_cells::{DIGEST_LENGTH, Head};
use std::alloc::Global;

/// An attempt at a part: what its packets are since it began.
#[derive(Drop)]
pub(crate) struct Attempt {
    pub decoder: Decoder,
    /// The digests of the source symbols that came.
    pub known: KnownDigests,
    /// The part's object, once its packets determined it, and it is named as the head says.
    pub object: Option<Vec<u8>>,
}

// A refused packet ends an attempt, unless memory is wanting.
fn end_unless_memory(refusal: Error) -> Result<bool, Error>
    ensures ends { IfOk result (λ goes_on. (goes_on ≡ false) × (refusal ≢ Error.OutOfMemory)) }
    ensures memory { IfErr result (λ e. e ≡ Error.OutOfMemory) }
{
    match refusal {
        Error::OutOfMemory => Err(Error::OutOfMemory),
        _ => Ok(false),
    }
}

impl Attempt {
    ghost use Rattle.rq_cast.specs.PartReceiving.{IsAttempt, IsUnlooked, LooksAt, TakesOrFails};

    /// An attempt at the part with a head, before any packet. Refuses what
    /// [`Decoder::new`](raptorq::Decoder::new) refuses.
    pub fn new(alloc: Global, table: &SystematicTable, head: &Head) -> Result<Attempt, Error>
        ensures taken { OnOk result (IsTakenHead table.now head.now) }
        ensures attempt { IfOk result (IsAttempt head.now) }
        ensures follows { IfOk result (λ a. FollowsRun table.now [] (state_of a.decoder)) }
        ensures open_still { IfOk result (λ a. a.object ≡ None) }
        ensures refused { IfErr result (λ e. IsRefusal e (checked_configuration (greatest_size table.now) head.now.configuration)) }
    {
        head.configuration.check(table)?;
        let decoder = Decoder::new(alloc, table, head.configuration)?;
        let known = KnownDigests::new(alloc);
        Ok(Attempt {
            decoder,
            known,
            object: None,
        })
    }

    /// Takes the packet of a cell with the head. Answers whether the attempt goes on: not where the packet
    /// contradicts earlier ones, nor where they determine what isn't named as the head says.
    pub fn take(
        &mut self,
        alloc: Global,
        head: &Head,
        packet: EncodingPacket,
        digest: [u8; DIGEST_LENGTH],
    ) -> Result<bool, Error>
        requires attempt { IsAttempt head.now self.old }
        requires digest { digest ≡ digest_of packet.payload }
        ensures takes { IfOk result (TakesOrFails head.now self.old packet self.new) }
        ensures memory { IfErr result (λ e. e ≡ Error.OutOfMemory) }
    {
        let block = packet.payload_id().source_block_number();
        if block >= head.configuration.source_blocks() {
            return Ok(true);
        }
        self.known.note(&self.decoder, packet.payload_id(), digest)?;
        match self.decoder.add_new_packet(packet) {
            Ok(()) => self.look(alloc, head),
            Err(refusal) => end_unless_memory(refusal),
        }
    }

    // Looks whether the object is determined. Answers whether the attempt goes on.
    fn look(&mut self, alloc: Global, head: &Head) -> Result<bool, Error>
        requires { IsUnlooked head.now self.old }
        ensures looks { IfOk result (LooksAt head.now self.old self.new) }
        ensures memory { IfErr result (λ e. e ≡ Error.OutOfMemory) }
    {
        if self.object.is_some() {
            return Ok(true);
        }
        if !self.decoder.is_complete() {
            return Ok(true);
        }
        self.object = named_object(alloc, head, &self.decoder, &self.known)?;
        Ok(self.object.is_some())
    }
}
