//! Symbols.
ghost use Rattle.std.specs.Prelude.{◌≡◌, ℕ, ◌==◌, length, replicate, Ok, IfOk};
ghost use Rattle.std.proofs.Common.{rules};
ghost use Rattle.std.specs.Cmp.{partial_order_from_own_ties};
ghost use Rattle.std.specs.Cmp.Lexicographic.{pointwise, slice_cmp};
ghost use Rattle.std.specs.Cmp.Rules.{comparing, hashing};
ghost use Rattle.std.specs.Hash as fed;
ghost use Rattle.std.specs.Ordering.{as_partial_cmp, nat_cmp};
ghost use Rattle.rq_standard.specs.Rows.{row_sum, row_multiple};
ghost use Rattle.rq_bytes.specs.Refusals.{IsAnswer};

use crate::error::Error;
use crate::octet::Octet;
use crate::octets::add_assign;
use crate::row_multiples::{add_row_multiple, multiply_row};
use std::alloc::{AllocError, Global};
use std::cmp::Ordering;
use std::hash::{Hash, Hasher};
use std::marker::Model;
use std::ops::AddAssign;

/// A symbol: a row of octets. Contracts see it as their list.
#[derive(Debug, Drop)]
pub struct Symbol {
    value: Vec<u8>,
}

impl Model for Symbol {
    ghost use Rattle.std.specs.Prelude.{List, ℕ};

    ghost Value = { List ℕ };

    ghost view = { λ s. s.value.items };
}

impl Symbol {
    /// The symbol with these octets.
    pub fn new(value: Vec<u8>) -> Self
        ensures { result ≡ value.items }
    {
        Symbol { value }
    }

    /// A symbol of `size` zeros.
    pub fn zero(alloc: Global, size: usize) -> Result<Self, Error>
        ensures { IsAnswer (λ symbol. symbol) result (Ok (replicate size 0)) }
    {
        Ok(Symbol {
            value: zeros(alloc, size)?,
        })
    }

    /// The number of octets.
    pub fn len(&self) -> usize
        ensures { result ≡ length self.now }
    {
        self.value.len()
    }

    /// Whether there are no octets.
    pub fn is_empty(&self) -> bool
        ensures { result ≡ (length self.now == 0) }
    {
        self.value.is_empty()
    }

    /// The octets.
    pub fn as_bytes(&self) -> &[u8]
        ensures { result.now ≡ self.now }
    {
        self.value.as_slice()
    }

    /// The octets, with no copy.
    pub fn into_bytes(self) -> Vec<u8>
        ensures { result.items ≡ self }
    {
        self.value
    }

    /// Multiplies each octet by a scalar.
    pub fn mulassign_scalar(&mut self, scalar: &Octet)
        ensures { self.new ≡ row_multiple scalar.now self.old }
    {
        multiply_row(self.value.as_mut_slice(), scalar);
    }

    /// Adds a multiple of a symbol of the same length.
    pub fn fused_addassign_mul_scalar(&mut self, other: &Symbol, scalar: &Octet)
        requires { length other.now ≡ length self.old }
        ensures { self.new ≡ row_sum self.old (row_multiple scalar.now other.now) }
    {
        add_row_multiple(self.value.as_mut_slice(), other.as_bytes(), scalar);
    }
}

/// Adds a symbol of the same length.
impl AddAssign<&Symbol> for Symbol {
    ghost can_add_assign = { λ a b. length b.now ≡ length a };

    ghost add_assign_gives = { λ a b r. r ≡ row_sum a b.now };

    fn add_assign(&mut self, other: &Symbol) {
        add_assign(self.value.as_mut_slice(), other.as_bytes());
    }
}

impl Clone for Symbol {
    ghost is_clone = { λ a b. b ≡ a };

    fn clone(&self) -> Result<Self, AllocError> {
        Ok(Symbol {
            value: self.value.clone()?,
        })
    }
}

impl PartialEq for Symbol {
    ghost eq = { pointwise ◌==◌ };

    ghost laws = { Prim.search (comparing, rules) };

    fn eq(&self, other: &Symbol) -> bool {
        self.value == other.value
    }
}

impl Eq for Symbol {
    ghost laws = { Prim.search (comparing, rules) };
}

impl PartialOrd for Symbol {
    ghost partial_cmp = { as_partial_cmp (slice_cmp nat_cmp) };

    ghost laws = { partial_order_from_own_ties (Prim.search (comparing, rules)) (Prim.search (comparing, rules)) };

    fn partial_cmp(&self, other: &Symbol) -> Option<Ordering> {
        Some(self.cmp(other))
    }
}

impl Ord for Symbol {
    ghost cmp = { slice_cmp nat_cmp };

    ghost total = { Prim.search (comparing, rules) };

    ghost matches_partial_cmp = { Prim.search (comparing, rules) };

    ghost matches_eq = { Prim.search (comparing, rules) };

    fn cmp(&self, other: &Symbol) -> Ordering {
        self.value.cmp(&other.value)
    }
}

impl Hash for Symbol {
    ghost hash_input = { fed.slice fed.u8 };

    ghost respects_eq = { Prim.search (hashing, rules) };

    fn hash<H: Hasher>(&self, state: &mut H) {
        self.value.hash(state);
    }
}

/// A list of `len` zeros.
pub(crate) fn zeros(alloc: Global, len: usize) -> Result<Vec<u8>, AllocError>
    ensures { IfOk result (λ v. v.items ≡ replicate len 0) }
{
    vec![in alloc; 0; len]
}
