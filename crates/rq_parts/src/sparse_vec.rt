//! Rows of bits of which the ones alone are stored.
ghost use Rattle.std.specs.Prelude.{◌≡◌, ◌<◌, ◌↔◌, ◌==◌, ℕ, List, [], ◌∷◌, ◌++◌, length, map, slice_index, true, false, IfOk, IfErr, OnOk, OnErr, Contains};
ghost use Rattle.std.proofs.Common.{rules};
ghost use Rattle.std.specs.Cmp.Lexicographic.{pointwise};
ghost use Rattle.std.specs.Cmp.Rules.{comparing};
ghost use Rattle.std.specs.Fn.{FnReturnsAt};
ghost use Rattle.std.specs.Iterator.{YieldsFirst, item_count};
ghost use Rattle.std.specs.List.{insert};
ghost use Rattle.std.specs.List.Sorted.{IsStrictlyIncreasing};
ghost use Rattle.std.specs.Int.Bits.{bit_xor};
ghost use Rattle.rq_bytes.specs.declared.error.Error.TheVariants.{OutOfMemory};
ghost use Rattle.rq_parts.specs.SparseBinaryVec.{listed_bit, listed_octet, SetsListed, IsListedSum, HasOtherOne, IsListed, IsGap, IsPushed, InsertsLast};

use rq_bytes::error::Error;
use rq_bytes::octet::Octet;
use smallvec::SmallVec;
use std::alloc::{AllocError, Global};
use std::cmp::Ordering;
use std::marker::Model;

/// How many ones a row has without an allocation. Most rows have a few, and an LDPC row of a block of
/// 497 symbols has no more than these.
pub const INLINE_ONES: usize = 40;

/// A row of bits as the ascending list of the indices that have a one, each below 65536. Contracts
/// see this list.
#[derive(Debug, Drop)]
pub struct SparseBinaryVec {
    elements: SmallVec<u16, INLINE_ONES>,
}

impl Model for SparseBinaryVec {
    ghost use Rattle.std.specs.Prelude.{List, ℕ};
    ghost use Rattle.std.specs.List.Sorted.{IsStrictlyIncreasing};

    ghost Value = { List ℕ };

    ghost view = { λ row. row.elements.items };

    ghost invariant = { λ row. IsStrictlyIncreasing row.elements.items };
}

impl Clone for SparseBinaryVec {
    ghost is_clone = { λ a b. b ≡ a };

    fn clone(&self) -> Result<Self, AllocError> {
        Ok(SparseBinaryVec {
            elements: SmallVec::from_slice(*self.elements.allocator(), &self.elements)?,
        })
    }
}

impl PartialEq for SparseBinaryVec {
    ghost eq = { pointwise ◌==◌ };

    ghost laws = { Prim.search (comparing, rules) };

    fn eq(&self, other: &SparseBinaryVec) -> bool {
        self.elements == other.elements
    }
}

impl Eq for SparseBinaryVec {
    ghost laws = { Prim.search (comparing, rules) };
}

impl SparseBinaryVec {
    /// A row of zeros, with room for `capacity` ones.
    pub fn with_capacity(alloc: Global, capacity: usize) -> Result<SparseBinaryVec, Error>
        ensures ok { IfOk result (λ row. row ≡ []) }
        ensures err { IfErr result (λ e. e ≡ OutOfMemory) }
    {
        Ok(SparseBinaryVec {
            elements: SmallVec::with_capacity(alloc, capacity)?,
        })
    }

    /// The number of ones. They ascend, so that each index is listed once.
    pub fn len(&self) -> usize
        ensures count { result ≡ length self.now }
        ensures increasing { IsStrictlyIncreasing self.now }
    {
        self.elements.len()
    }

    /// The i-th one, in ascending order: its index and the octet 1.
    pub fn get_by_raw_index(&self, i: usize) -> (usize, Octet)
        requires { i < length self.now }
        ensures { result ≡ (slice_index self.now i, 1) }
    {
        (usize::from(self.elements[i]), Octet::one())
    }

    /// Adds a row, and answers whether it has a one where this row had none. A refusal leaves the
    /// row as it was.
    pub fn add_assign(&mut self, other: &SparseBinaryVec) -> Result<bool, Error>
        ensures sum { OnOk result (IsListedSum self.old other.now self.new) }
        ensures added { IfOk result (λ added. (added ≡ true) ↔ HasOtherOne self.old other.now) }
        ensures increasing { IsStrictlyIncreasing self.new }
        ensures refused { OnErr result (self.new ≡ self.old) }
        ensures err { IfErr result (λ e. e ≡ OutOfMemory) }
    {
        let alloc = *self.elements.allocator();
        let (sum, added) = merged(alloc, &self.elements, &other.elements)?;
        self.elements = sum;
        Ok(added)
    }

    /// Sets the bit at an index to 0, and answers the octet 1 where it was 1.
    #[inline(never)]
    pub fn remove(&mut self, i: usize) -> Option<Octet>
        requires { i < 65536 }
        ensures removed { SetsListed self.old i 0 self.new }
        ensures increasing { IsStrictlyIncreasing self.new }
        ensures value { result ≡ listed_octet self.old i }
    {
        match self.find(i) {
            Ok(at) => {
                self.elements.remove(at);
                Some(Octet::one())
            }
            Err(_) => None,
        }
    }

    /// Keeps the ones for which a predicate answers `true`. It is asked of each one, in ascending order,
    /// with its index and the octet 1.
    ///
    /// Kept for the surface of `raptorq`; no coder calls it.
    pub fn retain<P: Fn(&(usize, Octet)) -> bool>(&mut self, predicate: P)
        requires { P.IsAlwaysCallable predicate }
        ensures listed { (k : ℕ) → listed_bit self.new k ≡ 1 → listed_bit self.old k ≡ 1 }
        ensures kept { (k : ℕ) → listed_bit self.new k ≡ 1 → FnReturnsAt P.Fn predicate (k, 1) true }
        ensures dropped { (k : ℕ) → listed_bit self.old k ≡ 1 → listed_bit self.new k ≡ 0 → FnReturnsAt P.Fn predicate (k, 1) false }
        ensures increasing { IsStrictlyIncreasing self.new }
    {
        self.elements
            .retain(|one| predicate(&(usize::from(*one), Octet::one())));
    }

    /// The octet 1 where the bit at an index is 1.
    pub fn get(&self, i: usize) -> Option<Octet>
        requires { i < 65536 }
        ensures { result ≡ listed_octet self.now i }
    {
        match self.elements.binary_search(&(i as u16)) {
            Ok(_) => Some(Octet::one()),
            Err(_) => None,
        }
    }

    /// The ones in ascending order, each as its index and the octet 1.
    pub fn keys_values(&self) -> KeysValues<'_>
        ensures { result ≡ map (λ one. (one, 1)) self.now }
    {
        KeysValues {
            elements: &self.elements,
        }
    }

    /// Sets the bit at an index to 0 for the octet 0, and else to 1. A refusal leaves the row as it
    /// was.
    #[inline(always)]
    pub fn insert(&mut self, i: usize, value: Octet) -> Result<(), Error>
        requires { i < 65536 }
        ensures ok { OnOk result (SetsListed self.old i value self.new) }
        ensures increasing { IsStrictlyIncreasing self.new }
        ensures refused { OnErr result (self.new ≡ self.old) }
        ensures err { IfErr result (λ e. e ≡ OutOfMemory) }
    {
        if value.byte() == 0 {
            self.remove(i);
        } else if let Err(gap) = self.find(i) {
            self.list_at(gap, i)?;
        }
        Ok(())
    }

    /// Sets the bit at an index to 1 where it was 0, and to 0 where it was 1. A refusal leaves the row
    /// as it was.
    pub fn flip(&mut self, i: usize) -> Result<(), AllocError>
        requires { i < 65536 }
        ensures ok { OnOk result (SetsListed self.old i (bit_xor (listed_bit self.old i) 1) self.new) }
        ensures increasing { IsStrictlyIncreasing self.new }
        ensures refused { OnErr result (self.new ≡ self.old) }
    {
        push(&mut self.elements, i as u16)?;
        if insert_last(&mut self.elements) {
            self.elements.retain(|one| usize::from(*one) != i);
        }
        Ok(())
    }

    // Lists an index where it goes. A refusal leaves the row as it was.
    #[inline(always)]
    fn list_at(&mut self, gap: usize, i: usize) -> Result<(), AllocError>
        requires index { i < 65536 }
        requires gap { IsGap self.old i gap }
        ensures ok { OnOk result (SetsListed self.old i 1 self.new) }
        ensures increasing { IsStrictlyIncreasing self.new }
        ensures refused { OnErr result (self.new ≡ self.old) }
    {
        push(&mut self.elements, i as u16)?;
        move_last_to(&mut self.elements, gap);
        Ok(())
    }

    /// The indices that have a one.
    pub(crate) fn as_slice(&self) -> &[u16]
        ensures { result.now ≡ self.now }
    {
        self.elements.as_slice()
    }

    // Where an index is listed, or where it would go. It looks from the end, since most indices are
    // listed in ascending order, and those behind the place are moved anyway.
    fn find(&self, i: usize) -> Result<usize, usize>
        requires { i < 65536 }
        ensures increasing { IsStrictlyIncreasing self.now }
        ensures found { IfOk result (IsListed self.now i) }
        ensures missing { IfErr result (IsGap self.now i) }
    {
        let ones = self.elements.as_slice();
        let mut gap = ones.len();
        while gap > 0 && usize::from(ones[gap - 1]) > i {
            gap -= 1;
        }
        if gap > 0 && usize::from(ones[gap - 1]) == i {
            Ok(gap - 1)
        } else {
            Err(gap)
        }
    }
}

// Lists an index behind all others. Nearly all lists have room. Making it is a call of its own, so
// that the others don't carry its code.
#[inline(always)]
fn push(ones: &mut SmallVec<u16, INLINE_ONES>, one: u16) -> Result<(), AllocError>
    ensures { IsPushed ones.old.items one ones.new.items result }
{
    if ones.len() < ones.capacity() {
        ones.push_reserved(one);
        return Ok(());
    }
    push_growing(ones, one)
}

// Lists an index behind all others, and makes room first.
#[inline(never)]
fn push_growing(ones: &mut SmallVec<u16, INLINE_ONES>, one: u16) -> Result<(), AllocError>
    ensures { IsPushed ones.old.items one ones.new.items result }
{
    ones.push(one)?;
    Ok(())
}

// Moves the last one down to a place, and those from there on up. Most have little way to go.
fn move_last_to(ones: &mut [u16], gap: usize)
    requires { gap < length ones.old }
    ensures { (xs : List ℕ) (one : ℕ) → ones.old ≡ xs ++ one ∷ [] → ones.new ≡ insert xs gap one }
{
    let mut at = ones.len() - 1;
    while at > gap {
        ones.swap(at - 1, at);
        at -= 1;
    }
}

// Moves the last one down to its place among those before it, and answers whether one of these is
// the same. Each step does the same whatever the place, and no step waits for another, so that
// there is no branch to guess and several places are written at once.
fn insert_last(ones: &mut [u16]) -> bool
    requires { 0 < length ones.old }
    ensures put { InsertsLast ones.old ones.new }
    ensures listed { (xs : List ℕ) (one : ℕ) → ones.old ≡ xs ++ one ∷ [] → (result ≡ true) ↔ Contains xs one }
{
    let mut at = ones.len() - 1;
    let last = ones[at];
    let mut is_listed = false;
    while at > 0 {
        let before = ones[at - 1];
        is_listed |= before == last;
        ones[at] = before.max(ones[at].min(last));
        at -= 1;
    }
    ones[0] = ones[0].min(last);
    is_listed
}

// The indices that one of two ascending lists has and the other hasn't, in ascending order, and
// whether the second list had one of them.
fn merged(
    alloc: Global,
    row: &[u16],
    other: &[u16],
) -> Result<(SmallVec<u16, INLINE_ONES>, bool), AllocError>
    requires row { IsStrictlyIncreasing row.now }
    requires other { IsStrictlyIncreasing other.now }
    ensures increasing { IfOk result (λ r. IsStrictlyIncreasing r.0.items) }
    ensures sum { IfOk result (λ r. IsListedSum row.now other.now r.0.items) }
    ensures added { IfOk result (λ r. (r.1 ≡ true) ↔ HasOtherOne row.now other.now) }
{
    let mut sum = SmallVec::with_capacity(alloc, row.len() + other.len())?;
    let mut added = false;
    let mut i = 0;
    let mut j = 0;
    while i < row.len() && j < other.len() {
        match row[i].cmp(&other[j]) {
            Ordering::Less => {
                sum.push(row[i])?;
                i += 1;
            }
            Ordering::Equal => {
                i += 1;
                j += 1;
            }
            Ordering::Greater => {
                sum.push(other[j])?;
                added = true;
                j += 1;
            }
        }
    }
    sum.extend_from_slice(&row[i..])?;
    sum.extend_from_slice(&other[j..])?;
    Ok((sum, added || j < other.len()))
}

/// The ones of a row that are left, in ascending order, each as its index and the octet 1. Contracts
/// see the list of these pairs.
#[derive(Debug, Drop)]
pub struct KeysValues<'a> {
    elements: &'a [u16],
}

impl<'a> Model for KeysValues<'a> {
    ghost use Rattle.std.specs.Prelude.{ℕ, List, map};

    ghost Value = { List (ℕ × ℕ) };

    ghost view = { λ s. map (λ one. (one, 1)) s.elements.now };
}

impl Iterator for KeysValues<'_> {
    type Item = (usize, Octet);

    ghost next_gives = { YieldsFirst (λ s. s) };

    ghost remaining = { item_count (λ s. s) };

    fn next(&mut self) -> Option<(usize, Octet)> {
        let (one, rest) = self.elements.split_first()?;
        self.elements = rest;
        Some((usize::from(*one), Octet::one()))
    }
}
