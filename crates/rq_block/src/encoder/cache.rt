//! A cache of plans, which is lent to the encoders of source blocks.
ghost use Rattle.std.specs.Prelude.{◌≡◌, ◌≤◌, ◌<◌, ◌==◌, [], false, drop, if◌then◌else◌, is_some, length, map, nat_lt, position, slice_get, Ok, IfSome, IfOk, IfErr, OnOk, OnErr};
ghost use Rattle.std.specs.VecDeque.{deque_len, deque_capacity};
ghost use Rattle.std.specs.Borrow.{sem};
ghost use Rattle.rq_bytes.specs.Refusals.{IsAnswer};
ghost use Rattle.rq_block.specs.SourceBlockEncodingPlanCache.{holds_count, after_use, IsPlanOver};

use crate::encoder::plan::SourceBlockEncodingPlan;
use rq_bytes::error::Error;
use rq_tables::systematic_constants::SystematicTable;
use std::alloc::Global;
use std::collections::VecDeque;
use std::marker::Model;

const CAPACITY: usize = 64;

/// Plans over one table, by their numbers of source symbols: at most 64, of which the first made is
/// the first to go. Contracts see the table and the numbers.
#[derive(Drop)]
pub struct SourceBlockEncodingPlanCache {
    alloc: Global,
    table: SystematicTable,
    plans: VecDeque<SourceBlockEncodingPlan>,
}

impl Model for SourceBlockEncodingPlanCache {
    ghost use Rattle.std.specs.Prelude.{◌≤◌, All, length, map};
    ghost use Rattle.std.specs.VecDeque.{deque_len, deque_capacity};
    ghost use Rattle.rq_block.specs.SourceBlockEncodingPlanCache.{PlanCache, IsPlanOver};

    ghost Value = { PlanCache };

    ghost view = { λ c. record { table = c.table; counts = map (λ p. p.source_symbol_count) c.plans.items } };

    ghost invariant = { λ c. All (IsPlanOver c.table) c.plans.items × (deque_len c.plans ≤ 64) × (64 ≤ deque_capacity c.plans) };
}

impl SourceBlockEncodingPlanCache {
    ghost use Rattle.rq_block.specs.CacheLends.{EndsUsed};
    ghost use Rattle.rq_block.specs.SourceBlockEncodingPlan.{plan_of, plan_refusal, RefusesPlan};
    ghost use Rattle.rq_block.specs.Planned.{IsPlanOf};
    ghost use Rattle.rq_standard.specs.TableRows.{row_of};

    /// An empty cache over a copy of a table, with room for its 64 plans.
    pub fn new(alloc: Global, table: &SystematicTable) -> Result<Self, Error>
        ensures { IsAnswer (λ cache. cache) result (Ok (record { table = table.now; counts = [] })) }
    {
        Ok(SourceBlockEncodingPlanCache {
            alloc,
            table: table.clone()?,
            plans: VecDeque::with_capacity(alloc, CAPACITY)?,
        })
    }

    /// The plan of source blocks with `count` source symbols. It is made, and put in as the last,
    /// where none is held; what is held keeps its order.
    ///
    /// Refuses what [`SourceBlockEncodingPlan::generate`] refuses. The cache is then as before.
    pub fn get_or_generate(&mut self, count: u16) -> Result<&SourceBlockEncodingPlan, Error>
        ensures* after { sem 𝓛 (EndsUsed self.entry count result) }
        ensures refused { IfErr result (λ e. (holds_count self.old.counts count ≡ false) × RefusesPlan self.old.table count e) }
        ensures taken { OnOk result (plan_refusal self.old.table count ≡ Ok tt) }
        ensures count { IfOk result (λ p. (plan_of p.now).count ≡ count) }
        ensures row { IfOk result (λ p. (plan_of p.now).row ≡ row_of self.old.table count) }
        ensures plan { IfOk result (λ p. IsPlanOf (row_of self.old.table count) (plan_of p.now).operations) }
    {
        let index = self.get_or_insert(count)?;
        Ok(&self.plans[index])
    }

    /// Whether the plan of source blocks with `count` source symbols is held.
    pub fn contains(&self, count: u16) -> bool
        ensures { result ≡ holds_count self.now.counts count }
    {
        index_of(&self.plans, count).is_some()
    }

    /// The number of plans that are held.
    pub fn len(&self) -> usize
        ensures len { result ≡ length self.now.counts }
        ensures few { result ≤ 64 }
    {
        self.plans.len()
    }

    /// The table of the plans.
    pub(crate) fn table(&self) -> &SystematicTable
        ensures { result.now ≡ self.now.table }
    {
        &self.table
    }

    /// The plan of `count` source symbols, if it is held.
    pub(crate) fn get(&self, count: u16) -> Option<&SourceBlockEncodingPlan>
        ensures held { is_some result ≡ holds_count self.now.counts count }
        ensures count { IfSome result (λ p. (plan_of p.now).count ≡ count) }
        ensures row { IfSome result (λ p. (plan_of p.now).row ≡ row_of self.now.table count) }
    {
        let index = index_of(&self.plans, count)?;
        Some(&self.plans[index])
    }

    // The index of the plan of `count` source symbols, which is made where none is held.
    fn get_or_insert(&mut self, count: u16) -> Result<usize, Error>
        ensures used { OnOk result (self.new ≡ after_use self.old count) }
        ensures index { IfOk result (λ index. slice_get self.new.counts index ≡ Some count) }
        ensures refused { IfErr result (λ e. (holds_count self.old.counts count ≡ false) × RefusesPlan self.old.table count e) }
        ensures taken { OnOk result (plan_refusal self.old.table count ≡ Ok tt) }
        ensures unchanged { OnErr result (self.new ≡ self.old) }
    {
        if let Some(index) = index_of(&self.plans, count) {
            return Ok(index);
        }
        let plan = SourceBlockEncodingPlan::generate(self.alloc, &self.table, count)?;
        self.put(plan);
        Ok(self.plans.len() - 1)
    }

    /// Puts in a new plan as the last one.
    pub(crate) fn put(&mut self, plan: SourceBlockEncodingPlan)
        requires over { IsPlanOver self.old.table plan }
        requires new { holds_count self.old.counts (plan_of plan).count ≡ false }
        ensures { self.new ≡ after_use self.old (plan_of plan).count }
    {
        make_room(&mut self.plans);
        self.plans.push_back_reserved(plan);
    }
}

// Where the plan of `count` source symbols is.
fn index_of(plans: &VecDeque<SourceBlockEncodingPlan>, count: u16) -> Option<usize>
    ensures { result ≡ position (λ n. n == count) (map (λ p. p.source_symbol_count) plans.now.items) }
{
    plans
        .iter()
        .map(|plan| plan.source_symbol_count())
        .position(|held| held == count)
}

// Drops the oldest plan where there is no room for one more.
fn make_room(plans: &mut VecDeque<SourceBlockEncodingPlan>)
    requires { deque_len plans.old ≤ 64 }
    ensures items { plans.new.items ≡ (if nat_lt (deque_len plans.old) 64 then plans.old.items else drop 1 plans.old.items) }
    ensures len { deque_len plans.new < 64 }
    ensures capacity { deque_capacity plans.new ≡ deque_capacity plans.old }
{
    if plans.len() == CAPACITY {
        plans.pop_front();
    }
}
