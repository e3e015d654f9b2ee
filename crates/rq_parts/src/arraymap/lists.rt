//! Maps from keys to lists of numbers.
ghost use Rattle.std.specs.Prelude.{◌≡◌, ℕ, ◌<◌, ◌++◌, ◌∷◌, [], List, length, Ok, IfOk, OnOk, IfErr, map, slice_index_or};
ghost use Rattle.std.specs.List.Sorted.{IsNonDecreasingBy, IsStableByKey};
ghost use Rattle.std.specs.Ordering.{nat_cmp};
ghost use Rattle.rq_bytes.specs.Refusals.{IsAnswer};
ghost use Rattle.rq_bytes.specs.declared.error.Error.TheVariants.{OutOfMemory};
ghost use Rattle.rq_parts.specs.ImmutableListMap.{lists_of, IsStart, AreStartsOf};

use rq_bytes::error::Error;
use rq_bytes::slices::part;
use std::alloc::{AllocError, Global};
use std::marker::Model;

/// Pairs of a key and a value that are to become a map. Contracts see the number of keys, and the
/// pairs in the order in which they were added.
#[derive(Debug, Drop)]
pub struct ImmutableListMapBuilder {
    entries: Vec<(u16, u32)>,
    num_keys: usize,
}

impl Model for ImmutableListMapBuilder {
    ghost use Rattle.rq_parts.specs.ImmutableListMap.{Pairs};

    ghost Value = { Pairs };

    ghost view = { λ b. record { keys = b.num_keys; pairs = b.entries.items } };
}

impl ImmutableListMapBuilder {
    /// No pairs, for a map of the keys below `num_keys`.
    pub fn new(alloc: Global, num_keys: usize) -> Self
        ensures { result ≡ record { keys = num_keys; pairs = [] } }
    {
        ImmutableListMapBuilder {
            entries: Vec::new(alloc),
            num_keys,
        }
    }

    /// Adds a value at a key.
    pub fn add(&mut self, key: u16, value: u32) -> Result<(), Error>
        requires { key < self.old.keys }
        ensures added { OnOk result (self.new ≡ record self.old { pairs = self.old.pairs ++ (key, value) ∷ [] }) }
        ensures err { IfErr result (λ e. (e ≡ OutOfMemory) × (self.new ≡ self.old)) }
    {
        self.entries.push((key, value))?;
        Ok(())
    }

    /// The map of these pairs: at each key the values that were added there, in their order.
    pub fn build(self) -> Result<ImmutableListMap, Error>
        ensures { IsAnswer (λ lists. lists) result (Ok (lists_of self)) }
    {
        let ImmutableListMapBuilder { entries, num_keys } = self;
        let entries = sorted_by_key(entries)?;
        let starts = starts_of(&entries, num_keys)?;
        let values = values_in_order(&entries)?;
        Ok(ImmutableListMap { starts, values })
    }
}

/// A list of values for each key. Contracts see these lists in the order of the keys.
#[derive(Debug, Drop)]
pub struct ImmutableListMap {
    starts: Vec<usize>,
    values: Vec<u32>,
}

impl Model for ImmutableListMap {
    ghost use Rattle.std.specs.Prelude.{ℕ, List, length};
    ghost use Rattle.rq_parts.specs.ImmutableListMap.{AreStarts, lists_between};

    ghost Value = { List (List ℕ) };

    ghost view = { λ m. lists_between m.starts.items m.values.items };

    ghost invariant = { λ m. AreStarts m.starts.items (length m.values.items) };
}

impl ImmutableListMap {
    /// The values of a key.
    pub fn get(&self, key: u16) -> &[u32]
        requires { key < length self.now }
        ensures { result.now ≡ slice_index_or self.now key [] }
    {
        let key = usize::from(key);
        let starts = self.starts.as_slice();
        part(self.values.as_slice(), starts[key], starts[key + 1])
    }
}

impl Clone for ImmutableListMap {
    ghost is_clone = { λ a b. b ≡ a };

    fn clone(&self) -> Result<Self, AllocError> {
        Ok(ImmutableListMap {
            starts: self.starts.clone()?,
            values: self.values.clone()?,
        })
    }
}

// The pairs with their keys in ascending order; those of one key stay in their order.
fn sorted_by_key(mut entries: Vec<(u16, u32)>) -> Result<Vec<(u16, u32)>, AllocError>
    ensures sorted { IfOk result (λ sorted. IsNonDecreasingBy (λ entry. entry.0) sorted.items) }
    ensures stable { IfOk result (λ sorted. IsStableByKey (λ entry. entry.0) nat_cmp entries.items sorted.items) }
{
    entries.sort_by_key(|entry| entry.0)?;
    Ok(entries)
}

// Where the pairs of each key start, and then where those of the last key end.
fn starts_of(entries: &Vec<(u16, u32)>, num_keys: usize) -> Result<Vec<usize>, AllocError>
    requires { IsNonDecreasingBy (λ entry. entry.0) entries.now.items }
    ensures { IfOk result (λ starts. AreStartsOf entries.now.items num_keys starts.items) }
{
    let mut starts = Vec::new(*entries.allocator());
    for key in 0..num_keys {
        starts.push(start_of(entries.as_slice(), key))?;
    }
    starts.push(start_of(entries.as_slice(), num_keys))?;
    Ok(starts)
}

// Where the pairs of a key start.
fn start_of(entries: &[(u16, u32)], key: usize) -> usize
    requires { IsNonDecreasingBy (λ entry. entry.0) entries.now }
    ensures { IsStart entries.now key result }
{
    entries.partition_point(|entry| usize::from(entry.0) < key)
}

// The values of pairs, in the pairs' order.
fn values_in_order(entries: &Vec<(u16, u32)>) -> Result<Vec<u32>, AllocError>
    ensures { IfOk result (λ values. values.items ≡ map (λ entry. entry.1) entries.now.items) }
{
    let values = entries
        .iter()
        .map(|entry| entry.1)
        .collect(*entries.allocator())?;
    Ok(values)
}
