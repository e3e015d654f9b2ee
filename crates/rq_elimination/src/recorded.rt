//! `RecordedRows`: rows that are worked on, and the operations that are recorded for them. What RFC 6330
//! does to the matrix A it does to the symbols D too (section 5.4.2.1): here that is done afterwards, by
//! replaying what was recorded.
ghost use Rattle.std.specs.Prelude.{◌≡◌, ◌<◌, ◌^◌, length};
ghost use Rattle.rq_operations.specs.RecordedSteps.{operation_of_step};
ghost use Rattle.rq_parts.specs.DenseOctetMatrix.{HasOctets};
ghost use Rattle.rq_elimination.specs.RowSteps.{sum_step};

use crate::counts::OperationList;
use crate::entries::InactiveEntries;
use rq_bytes::octet::Octet;
use rq_operations::steps::Step;
use std::alloc::{AllocError, Global};

/// Rows of a system: what they have in the inactive columns, and the operations that were done to
/// them, for the symbols. The places of the rows fit 32 bits.
#[derive(Drop)]
pub struct RecordedRows {
    pub table: InactiveEntries,
    pub operations: OperationList,
    pub ghost few: { length table.rows < 2 ^ 32 },
    pub ghost octets: { HasOctets table },
}

impl RecordedRows {
    ghost use Rattle.std.specs.Prelude.{◌≡◌, ◌≢◌, ◌+◌, ◌<◌, ◌∷◌, [], length, IfOk, OnOk};
    ghost use Rattle.rq_algebra.specs.Operations.{MulAssign};
    ghost use Rattle.rq_standard.specs.OctetField.{octets};
    ghost use Rattle.rq_elimination.specs.OperationCounts.{additions};
    ghost use Rattle.rq_elimination.specs.RecordedRows.{Performs, Records};
    ghost use Rattle.rq_elimination.specs.RowSteps.{sum_step};

    /// Rows to which nothing was done yet, with room for `room` operations.
    pub fn new(
        alloc: Global,
        table: InactiveEntries,
        room: usize,
    ) -> Result<RecordedRows, AllocError>
        requires few { length table.rows < 2 ^ 32 }
        ensures table { IfOk result (λ rows. rows.table ≡ table) }
        ensures operations { IfOk result (λ rows. rows.operations ≡ []) }
    {
        // For the proof: the contract of `width` says that all entries are octets.
        let _width = table.width();
        Ok(RecordedRows {
            table,
            operations: OperationList::with_room(alloc, room)?,
        })
    }

    /// Adds a multiple of a row to another one.
    #[inline(always)]
    pub fn add_multiple(&mut self, dest: usize, src: usize, scalar: Octet) -> Result<(), AllocError>
        requires two { dest ≢ src }
        requires dest { dest < length self.old.table.rows }
        requires src { src < length self.old.table.rows }
        requires scalar { scalar < octets.size }
        ensures added { OnOk result (Performs (sum_step dest src scalar ∷ []) self.old self.new) }
        ensures counted { OnOk result (additions self.new.operations ≡ additions self.old.operations + 1) }
    {
        self.table.add_multiple(dest, src, &scalar)?;
        self.operations
            .push(addition(dest as u32, src as u32, scalar))?;
        Ok(())
    }

    /// Multiplies a row by an octet that isn't 0.
    #[inline(always)]
    pub fn multiply_row(&mut self, dest: usize, scalar: Octet) -> Result<(), AllocError>
        requires dest { dest < length self.old.table.rows }
        requires scalar { scalar < octets.size }
        requires nonzero { scalar ≢ 0 }
        ensures multiplied { OnOk result (Performs (MulAssign dest scalar ∷ []) self.old self.new) }
        ensures counted { OnOk result (additions self.new.operations ≡ additions self.old.operations) }
    {
        self.table.multiply_row(dest, &scalar)?;
        self.operations.push(Step::Multiply {
            scalar,
            dest: dest as u32,
        })?;
        Ok(())
    }

    /// Records that a multiple of a row is added to another one, whose stored entries stay as they are.
    #[inline(always)]
    pub fn record_multiple(
        &mut self,
        dest: usize,
        src: usize,
        scalar: Octet,
    ) -> Result<(), AllocError>
        requires two { dest ≢ src }
        requires dest { dest < length self.old.table.rows }
        requires src { src < length self.old.table.rows }
        ensures recorded { OnOk result (Records (sum_step dest src scalar ∷ []) self.old self.new) }
        ensures counted { OnOk result (additions self.new.operations ≡ additions self.old.operations + 1) }
    {
        self.operations
            .push(addition(dest as u32, src as u32, scalar))?;
        Ok(())
    }
}

// The step that adds a multiple of a symbol.
#[inline(always)]
fn addition(dest: u32, src: u32, scalar: Octet) -> Step
    ensures { operation_of_step result ≡ sum_step dest src scalar }
{
    if scalar.byte() == 1 {
        Step::Add { dest, src }
    } else {
        Step::AddMultiple { scalar, dest, src }
    }
}
