//! Objects as their cells are made of them.
ghost use Rattle.std.specs.Prelude.{◌≡◌, ◌^◌, ◌<◌, IfOk, IfErr, length};
ghost use Rattle.rq_standard.specs.Configuration.{largest_block};
ghost use Rattle.raptorq.specs.Encoder.{encoded_of};
ghost use Rattle.raptorq.specs.Refused.{RefusesEncoder};
ghost use Rattle.rq_cast.specs.Parts.{source_digests};
ghost use Rattle.rq_cast.specs.Writing.{AreDigestsIn};

use crate::parts::source_digests;
use raptorq::error::Error;
use raptorq::systematic_constants::SystematicTable;
use raptorq::{Encoder, ObjectTransmissionInformation};
use rq_cells::DIGEST_LENGTH;
use std::alloc::Global;

/// An object's encoder, and the digests of its source symbols.
#[derive(Drop)]
pub struct Digested {
    pub(crate) encoder: Encoder,
    // Of all source symbols, block by block.
    pub(crate) digests: Vec<[u8; DIGEST_LENGTH]>,
    pub ghost digested: { ∥ AreDigestsIn (encoded_of encoder) digests.items ∥₁ },
}

impl Digested {
    ghost use Rattle.rq_cast.specs.Sent.{Encodes, encoded_by, digests_of};

    /// Encodes an object, in a configuration and over a table.
    ///
    /// Refuses what [`Encoder::new`] refuses.
    pub fn new(
        alloc: Global,
        table: &SystematicTable,
        configuration: ObjectTransmissionInformation,
        object: &[u8],
    ) -> Result<Digested, Error>
        ensures refused { IfErr result (RefusesEncoder table.now configuration (length object.now)) }
        ensures encodes { IfOk result (λ d. Encodes table.now object.now (encoded_by d)) }
        ensures configuration { IfOk result (λ d. (encoded_by d).configuration ≡ configuration) }
        ensures digests { IfOk result (λ d. digests_of d ≡ source_digests configuration object.now) }
    {
        // For the proof: the rows of a table pass their checks.
        let _greatest = table.greatest();
        let encoder = Encoder::new(alloc, table, object, configuration)?;
        let digests = source_digests(alloc, &configuration, object)?;
        Ok(Digested { encoder, digests })
    }

    /// The digests of its source symbols, block by block, each as its packet carries it.
    pub fn digests(&self) -> &[[u8; DIGEST_LENGTH]]
        ensures { result.now ≡ digests_of self.now }
    {
        self.digests.as_slice()
    }

    /// How many source symbols its largest block has (RFC 6330, section 4.4.1.2).
    pub fn largest_block(&self) -> u64
        ensures value { result ≡ largest_block (encoded_by self.now).configuration }
        ensures few { result < 65536 }
    {
        self.encoder.get_config().largest_block()
    }
}
