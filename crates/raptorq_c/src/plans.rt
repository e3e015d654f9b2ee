//! Plans that C keeps: what solves the equations of every block of one size.
ghost use Rattle.std.specs.Prelude.{◌≡◌, ◌≢◌, ◌⊎◌, None, IsSomeAnd, IfErr, OnOk, OnErr};
ghost use Rattle.rq_block.specs.SourceBlockEncodingPlan.{RefusesPlan};
ghost use Rattle.rq_rows.specs.FullTable.{full_rows};
ghost use Rattle.raptorq_c.specs.Coders.{slot_as, plan_in};
ghost use Rattle.raptorq_c.specs.Encoders.{IsPlanIn};
ghost use Rattle.raptorq_c.specs.Numbers.{IsCodeWhere};

use crate::call_end::refusal;
use crate::kept::Coder;
use crate::slot::Slot;
use crate::tables::table;
use raptorq::SourceBlockEncodingPlan;
use raptorq::error::Error;
use std::alloc::Global;
use std::sync::Arc;

// Makes the plan of blocks of so many source symbols, behind a null pointer.
fn open(alloc: Global, plan: &mut Slot, source_symbols: u16) -> Result<(), Error>
    requires { plan.old.value ≡ None }
    ensures refused { IfErr result (λ e. (e ≡ Error.OutOfMemory) ⊎ RefusesPlan full_rows source_symbols e) }
    ensures plan { OnOk result (IsSomeAnd (slot_as plan_in plan.new) (IsPlanIn source_symbols)) }
    ensures null { OnErr result (plan.new.value ≡ None) }
{
    let table = table(alloc)?;
    let made = SourceBlockEncodingPlan::generate(alloc, &table, source_symbols)?;
    plan.keep(alloc, Coder::Plan(Arc::new(alloc, made)?))
}

/// Makes the plan of blocks of so many source symbols, and writes a pointer to it over a null one.
///
/// Refuses what `SourceBlockEncodingPlan::generate` refuses, or for want of memory. It stays null then.
#[unsafe(no_mangle)]
pub extern "C" fn reamertan_plan_open(alloc: Global, plan: &mut Slot, source_symbols: u16) -> u8
    requires null { plan.old.value ≡ None }
    ensures refused { result ≢ 0 → (result ≡ 21) ⊎ IsCodeWhere (RefusesPlan full_rows source_symbols) result }
    ensures plan { result ≡ 0 → IsSomeAnd (slot_as plan_in plan.new) (IsPlanIn source_symbols) }
    ensures null { result ≢ 0 → plan.new.value ≡ None }
{
    refusal(open(alloc, plan, source_symbols))
}
