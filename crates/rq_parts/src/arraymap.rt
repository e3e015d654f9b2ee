//! Maps from numbers to numbers, or to lists of numbers, kept in arrays.
ghost use Rattle.std.specs.Prelude.{◌≡◌, ℕ, ◌+◌, ◌-◌, ◌^◌, ◌<◌, ◌≤◌, length, replicate, slice_index, slice_set, vec_len, Ok, IfOk, OnOk, IfErr};
ghost use Rattle.std.specs.List.{swap};
ghost use Rattle.rq_bytes.specs.Refusals.{IsAnswer};
ghost use Rattle.rq_bytes.specs.declared.error.Error.TheVariants.{OutOfMemory};
ghost use Rattle.rq_parts.specs.ArrayMaps.{number_at, HasKey, IsSame, IsWith};

mod lists;

pub use lists::{ImmutableListMap, ImmutableListMapBuilder};
use rq_bytes::error::Error;
use std::alloc::{AllocError, Global};
use std::marker::Model;
use std::ops::Range;

/// A number for each key of a range. Contracts see the first key and the numbers in the order of
/// the keys.
#[derive(Debug, Drop)]
pub struct U16ArrayMap {
    offset: usize,
    elements: Vec<u16>,
}

impl Model for U16ArrayMap {
    ghost use Rattle.std.specs.Prelude.{◌+◌, ◌^◌, ◌<◌, vec_len};
    ghost use Rattle.rq_parts.specs.ArrayMaps.{Numbers};

    ghost Value = { Numbers };

    ghost view = { λ m. record { start = m.offset; values = m.elements.items } };

    ghost invariant = { λ m. m.offset + vec_len m.elements < 2 ^ 64 };
}

impl U16ArrayMap {
    /// A map of the keys from `start_key` on and below `end_key`, with the number 0 at each.
    pub fn new(alloc: Global, start_key: usize, end_key: usize) -> Result<Self, Error>
        requires { start_key ≤ end_key }
        ensures { IsAnswer (λ m. m) result (Ok (record { start = start_key; values = replicate (end_key - start_key) 0 })) }
    {
        Ok(U16ArrayMap {
            offset: start_key,
            elements: vec![in alloc; 0; end_key - start_key]?,
        })
    }

    /// Exchanges the numbers at two keys.
    pub fn swap(&mut self, key: usize, other_key: usize)
        requires first { HasKey self.old key }
        requires second { HasKey self.old other_key }
        ensures { self.new ≡ record self.old { values = swap self.old.values (key - self.old.start) (other_key - self.old.start) } }
    {
        self.elements
            .swap(key - self.offset, other_key - self.offset);
    }

    /// The keys, in ascending order.
    pub fn keys(&self) -> Range<usize>
        ensures start { result.start ≡ self.now.start }
        ensures end { result.end ≡ self.now.start + length self.now.values }
    {
        self.offset..self.offset + self.elements.len()
    }

    /// Sets the number at a key.
    pub fn insert(&mut self, key: usize, value: u16)
        requires { HasKey self.old key }
        ensures { self.new ≡ record self.old { values = slice_set self.old.values (key - self.old.start) value } }
    {
        self.elements[key - self.offset] = value;
    }

    /// The number at a key.
    pub fn get(&self, key: usize) -> u16
        requires { HasKey self.now key }
        ensures { result ≡ number_at self.now key }
    {
        self.elements[key - self.offset]
    }

    /// Takes one from the number at a key of the map, which isn't 0.
    pub fn decrement(&mut self, key: usize)
        requires key { HasKey self.old key }
        requires positive { 0 < number_at self.old key }
        ensures { self.new ≡ record self.old { values = slice_set self.old.values (key - self.old.start) (number_at self.old key - 1) } }
    {
        self.elements[key - self.offset] -= 1;
    }

    /// Adds one to the number at a key of the map, which is below 65535.
    pub fn increment(&mut self, key: usize)
        requires key { HasKey self.old key }
        requires fits { number_at self.old key + 1 < 2 ^ 16 }
        ensures { self.new ≡ record self.old { values = slice_set self.old.values (key - self.old.start) (number_at self.old key + 1) } }
    {
        self.elements[key - self.offset] += 1;
    }
}

/// A number for each key from a first one on. Contracts see the first key and the numbers, which
/// are 0 from some key on.
///
/// Kept for the surface of `raptorq`; no coder calls it.
#[derive(Debug, Drop)]
pub struct U32VecMap {
    offset: usize,
    elements: Vec<u32>,
}

impl Model for U32VecMap {
    ghost use Rattle.rq_parts.specs.ArrayMaps.{Numbers};

    ghost Value = { Numbers };

    ghost view = { λ m. record { start = m.offset; values = m.elements.items } };
}

impl U32VecMap {
    /// A map of the keys from `start_key` on, with the number 0 at each.
    pub fn new(alloc: Global, start_key: usize) -> Result<Self, Error>
        ensures start { IfOk result (λ m. m.start ≡ start_key) }
        ensures zeros { IfOk result (λ m. (k : ℕ) → number_at m k ≡ 0) }
        ensures err { IfErr result (λ e. e ≡ OutOfMemory) }
    {
        let elements = zeros(alloc, 1)?;
        Ok(U32VecMap {
            offset: start_key,
            elements,
        })
    }

    /// A map of the keys from `start_key` on, with the number 0 at each, and with memory for the keys
    /// below `end_key`.
    pub fn with_capacity(alloc: Global, start_key: usize, end_key: usize) -> Result<Self, Error>
        requires { start_key ≤ end_key }
        ensures start { IfOk result (λ m. m.start ≡ start_key) }
        ensures zeros { IfOk result (λ m. (k : ℕ) → number_at m k ≡ 0) }
        ensures err { IfErr result (λ e. e ≡ OutOfMemory) }
    {
        let elements = zeros(alloc, end_key - start_key)?;
        Ok(U32VecMap {
            offset: start_key,
            elements,
        })
    }

    /// Sets the number at a key.
    pub fn insert(&mut self, key: usize, value: u32) -> Result<(), Error>
        requires key { self.old.start ≤ key }
        requires below { key - self.old.start + 1 < 2 ^ 64 }
        ensures done { OnOk result (IsWith self.old key value self.new) }
        ensures err { IfErr result (λ e. (e ≡ OutOfMemory) × IsSame self.old self.new) }
    {
        let index = key - self.offset;
        grow(&mut self.elements, index)?;
        self.elements[index] = value;
        Ok(())
    }

    /// The number at a key.
    pub fn get(&self, key: usize) -> u32
        requires { self.now.start ≤ key }
        ensures { result ≡ number_at self.now key }
    {
        let index = key - self.offset;
        if index < self.elements.len() {
            self.elements[index]
        } else {
            0
        }
    }

    /// Takes one from the number at a key, from the first one on, which isn't 0.
    #[tactic(auto, using(crate::proofs::Zeros::positive_within))]
    pub fn decrement(&mut self, key: usize)
        requires key { self.old.start ≤ key }
        requires positive { 0 < number_at self.old key }
        ensures { IsWith self.old key (number_at self.old key - 1) self.new }
    {
        self.elements[key - self.offset] -= 1;
    }

    /// Adds one to the number at a key.
    pub fn increment(&mut self, key: usize) -> Result<(), Error>
        requires key { self.old.start ≤ key }
        requires below { key - self.old.start + 1 < 2 ^ 64 }
        requires fits { number_at self.old key + 1 < 2 ^ 32 }
        ensures done { OnOk result (IsWith self.old key (number_at self.old key + 1) self.new) }
        ensures err { IfErr result (λ e. (e ≡ OutOfMemory) × IsSame self.old self.new) }
    {
        let number = self.get(key) + 1;
        self.insert(key, number)
    }
}

// A list of `len` zeros.
fn zeros(alloc: Global, len: usize) -> Result<Vec<u32>, AllocError>
    ensures { IfOk result (λ v. v.items ≡ replicate len 0) }
{
    Ok(vec![in alloc; 0; len]?)
}

// Appends zeros until there is an element at `index`.
fn grow(elements: &mut Vec<u32>, index: usize) -> Result<(), AllocError>
    requires { index + 1 < 2 ^ 64 }
    ensures reaches { OnOk result (index < vec_len elements.new) }
    ensures same { (k : ℕ) → slice_index elements.new.items k ≡ slice_index elements.old.items k }
{
    if index >= elements.len() {
        elements.resize(index + 1, 0)?;
    }
    Ok(())
}
