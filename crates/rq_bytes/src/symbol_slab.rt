//! Symbols of one size in one buffer.
ghost use Rattle.std.specs.Prelude.{◌≡◌, ◌↔◌, ◌+◌, ◌*◌, ◌/◌, ◌^◌, ◌<◌, ◌≤◌, [], ◌∷◌, ◌++◌, length, map, replicate, true, All, Ok, None, IfOk, OnOk, OnErr};
ghost use Rattle.std.specs.List.{swap};
ghost use Rattle.std.proofs.Common.{rules};
ghost use Rattle.std.specs.Cmp.Rules.{comparing};
ghost use Rattle.rq_algebra.specs.Operations.{AddAssign, MulAssign, Fma, Reorder, IsOrder, meant_at};
ghost use Rattle.rq_algebra.specs.Symbols.{AreSymbols};
ghost use Rattle.rq_standard.specs.OctetField.{octets};
ghost use Rattle.std.specs.Borrow.{sem};
ghost use Rattle.rq_bytes.specs.Ranges.{cut, joined_pieces, whole_symbols, with_range};
ghost use Rattle.rq_bytes.specs.Refusals.{IsAnswer};
ghost use Rattle.rq_bytes.specs.SymbolSlab.{slab_of, after, HasPlace, Allows, symbol_in, symbols_in, same_slab, IsZeroUnread, IsZeroUnmarked};

mod doublings;
mod multiples;
mod sums;

use crate::error::Error;
use crate::marks::marks_of;
use crate::octet::Octet;
use crate::octets;
use crate::row_multiples::{add_row_multiple, multiply_row};
pub use crate::row_sums::ADDED_AT_ONCE;
use crate::slices::range;
use crate::symbol::{Symbol, zeros};
use crate::util::{get_range_pair, swap_ranges, write_range};
pub use multiples::Multiple;
use std::alloc::{AllocError, Global};
use std::marker::Model;

/// Symbols of one size in one buffer. An order may be set, and place i then means the symbol at the
/// order's i-th entry. Contracts see the symbols, their size and the order.
#[derive(Debug, Drop)]
pub struct SymbolSlab {
    data: Vec<u8>,
    symbol_size: usize,
    count: usize,
    order: Option<Vec<usize>>,
}

impl Model for SymbolSlab {
    ghost use Rattle.std.specs.Prelude.{◌≡◌, ◌*◌, vec_len};
    ghost use Rattle.std.specs.Option.{option_map, ForSome};
    ghost use Rattle.rq_algebra.specs.Operations.{IsOrder};
    ghost use Rattle.rq_bytes.specs.Ranges.{cut};
    ghost use Rattle.rq_bytes.specs.SymbolSlab.{Slab};

    ghost Value = { Slab };

    ghost view = { λ s. record { values = cut s.count s.symbol_size s.data.items; symbol_size = s.symbol_size; order = option_map (λ o. o.items) s.order } };

    ghost invariant = { λ s. (vec_len s.data ≡ s.count * s.symbol_size) × ForSome s.order (λ o. IsOrder s.count o.items) };
}

impl SymbolSlab {
    ghost use Rattle.rq_bytes.specs.SlabLends.{LendsSymbol, IsSymbolWrite};

    /// A slab of `count` symbols of zeros.
    pub fn with_zeros(alloc: Global, count: usize, symbol_size: usize) -> Result<Self, Error>
        requires { count * symbol_size < 2 ^ 64 }
        ensures { IsAnswer (λ slab. slab) result (Ok (slab_of symbol_size (replicate count (replicate symbol_size 0)))) }
    {
        Ok(SymbolSlab {
            data: zeros(alloc, count * symbol_size)?,
            symbol_size,
            count,
            order: None,
        })
    }

    /// These symbols, each of that size.
    pub fn from_symbols(
        alloc: Global,
        symbols: Vec<Symbol>,
        symbol_size: usize,
    ) -> Result<Self, Error>
        requires { All (λ symbol. length symbol ≡ symbol_size) symbols.items }
        ensures { IsAnswer (λ slab. slab) result (Ok (slab_of symbol_size symbols.items)) }
    {
        let mut data = Vec::new(alloc);
        for symbol in &symbols {
            data.extend_from_slice(symbol.as_bytes())?;
        }
        Ok(SymbolSlab {
            data,
            symbol_size,
            count: symbols.len(),
            order: None,
        })
    }

    /// The symbols that these bytes are, one after another.
    pub fn from_bytes(bytes: Vec<u8>, count: usize, symbol_size: usize) -> Self
        requires { length bytes.items ≡ count * symbol_size }
        ensures { result ≡ slab_of symbol_size (cut count symbol_size bytes.items) }
    {
        SymbolSlab {
            data: bytes,
            symbol_size,
            count,
            order: None,
        }
    }

    /// The symbols at the defined places, as they are read.
    pub fn into_symbols(self) -> Result<Vec<Symbol>, Error>
        ensures { IsAnswer (λ symbols. symbols.items) result (Ok (symbols_in self)) }
    {
        let alloc = *self.data.allocator();
        let mut symbols = Vec::new(alloc);
        for i in 0..self.places() {
            symbols.push(Symbol::new(Vec::from_slice(alloc, self.get(i))?))?;
        }
        Ok(symbols)
    }

    /// The octets of the symbols, one after another, whatever the order. Not in the Rust crate.
    pub fn into_bytes(self) -> Vec<u8>
        ensures { result.items ≡ joined_pieces self.values }
    {
        self.data
    }

    /// The number of symbols, whatever the order.
    pub fn len(&self) -> usize
        ensures count { result ≡ length self.now.values }
        ensures symbols { AreSymbols octets self.now.symbol_size result self.now.values }
    {
        octets::are_octets(self.data.as_slice());
        self.count
    }

    /// The octets of each symbol.
    pub fn symbol_size(&self) -> usize
        ensures size { result ≡ self.now.symbol_size }
        ensures symbols { AreSymbols octets self.now.symbol_size (length self.now.values) self.now.values }
    {
        octets::are_octets(self.data.as_slice());
        self.symbol_size
    }

    /// The octets of the symbol that a place means.
    pub fn get(&self, i: usize) -> &[u8]
        requires { HasPlace self.now i }
        ensures symbol { result.now ≡ symbol_in self.now i }
        ensures len { length result.now ≡ self.now.symbol_size }
    {
        let start = self.start_of(i);
        range(self.data.as_slice(), start, self.symbol_size)
    }

    /// Adds a symbol to another one.
    pub fn add_assign(&mut self, dest: usize, src: usize)
        requires { Allows self.old (AddAssign dest src) }
        ensures { self.new ≡ after (AddAssign dest src) self.old }
    {
        let (sum, other) = self.get_pair_mut(dest, src);
        octets::add_assign(sum, other);
    }

    /// Multiplies a symbol by an octet.
    pub fn mulassign_scalar(&mut self, dest: usize, scalar: &Octet)
        requires { Allows self.old (MulAssign dest scalar.now) }
        ensures { self.new ≡ after (MulAssign dest scalar.now) self.old }
    {
        multiply_row(self.get_mut(dest), scalar);
    }

    /// Adds `scalar` times the symbol that place `src` means to the one that place `dest` means,
    /// which is another symbol.
    pub fn fma(&mut self, dest: usize, src: usize, scalar: &Octet)
        requires { Allows self.old (Fma dest src scalar.now) }
        ensures { self.new ≡ after (Fma dest src scalar.now) self.old }
    {
        let (dest, src) = self.get_pair_mut(dest, src);
        add_row_multiple(dest, src, scalar);
    }

    /// Exchanges the octets of the symbols that two places mean. Not in the Rust crate.
    pub fn swap(&mut self, i: usize, j: usize)
        requires first { HasPlace self.old i }
        requires second { HasPlace self.old j }
        ensures { self.new ≡ record self.old { values = swap self.old.values (meant_at self.old.order i) (meant_at self.old.order j) } }
    {
        let size = self.symbol_size;
        let first = self.stored_index(i);
        let second = self.stored_index(j);
        if first != second {
            let bytes = self.data.as_mut_slice();
            swap_ranges(bytes, first * size, second * size, size);
        }
    }

    /// Makes room for `count` further symbols, so that `push_zeros` asks for no memory before they are
    /// there. Not in the Rust crate.
    pub fn reserve(&mut self, count: usize) -> Result<(), AllocError>
        requires { count * self.old.symbol_size < 2 ^ 64 }
        ensures { self.new ≡ self.old }
    {
        self.data.reserve(count * self.symbol_size)
    }

    /// Adds a symbol of zeros behind the others. An order that is set stays as it is, and so doesn't
    /// read the new symbol. Where there is no memory the slab is as it was. Not in the Rust crate.
    pub fn push_zeros(&mut self) -> Result<(), AllocError>
        requires { length self.old.values + 1 < 2 ^ 64 }
        ensures ok { OnOk result (self.new ≡ record self.old { values = self.old.values ++ replicate self.old.symbol_size 0 ∷ [] }) }
        ensures refused { OnErr result (self.new ≡ self.old) }
    {
        self.data.resize(self.data.len() + self.symbol_size, 0)?;
        self.count += 1;
        Ok(())
    }

    /// Sets the order in which places are read, in place of the one before: place i then means
    /// symbol `order[i]`. Each of these is below the number of symbols. No symbol moves.
    pub fn set_reorder(&mut self, order: Vec<usize>)
        requires { Allows self.old (Reorder order.items) }
        ensures { self.new ≡ after (Reorder order.items) self.old }
    {
        self.order = Some(order);
    }

    /// The octets of the symbol that a place means, for writing.
    pub fn get_mut(&mut self, i: usize) -> &mut [u8]
        requires { HasPlace self.old i }
        ensures* writes_back { sem 𝓛 (LendsSymbol self.entry i result) }
        ensures whole_symbol { IsSymbolWrite self.old i }
        ensures symbol { result.now ≡ symbol_in self.old i }
        ensures len { length result.now ≡ self.old.symbol_size }
    {
        let size = self.symbol_size;
        let start = self.start_of(i);
        self.data.slice_mut(start..start + size)
    }

    /// The octets of the symbols that two places mean, the first for writing.
    pub fn get_pair_mut(&mut self, dest: usize, src: usize) -> (&mut [u8], &[u8])
        requires { Allows self.old (AddAssign dest src) }
        ensures* writes_back { sem 𝓛 (LendsSymbol self.entry dest result.0) }
        ensures whole_symbol { IsSymbolWrite self.old dest }
        ensures dest { result.0.now ≡ symbol_in self.old dest }
        ensures src { result.1.now ≡ symbol_in self.old src }
        ensures dest_len { length result.0.now ≡ self.old.symbol_size }
        ensures src_len { length result.1.now ≡ self.old.symbol_size }
    {
        let size = self.symbol_size;
        let dest_start = self.start_of(dest);
        let src_start = self.start_of(src);
        get_range_pair(&mut self.data, dest_start, src_start, size)
    }

    /// Copies whole symbols into the places from `start` on, where no order is set.
    pub fn copy_block_from(&mut self, start: usize, source: &[u8])
        requires no_order { self.old.order ≡ None }
        requires whole { length source.now ≡ length source.now / self.old.symbol_size * self.old.symbol_size }
        requires fits { start + length source.now / self.old.symbol_size ≤ length self.old.values }
        ensures { self.new ≡ record self.old { values = with_range self.old.values start (whole_symbols self.old.symbol_size source.now) } }
    {
        let start = start * self.symbol_size;
        let bytes = self.data.as_mut_slice();
        write_range(bytes, start, source);
    }

    /// A slab of the symbols that these places mean, one after another.
    pub fn gather(&self, places: &[usize]) -> Result<Self, Error>
        requires { All (HasPlace self.now) places.now }
        ensures { IsAnswer (λ slab. slab) result (Ok (slab_of self.now.symbol_size (map (symbol_in self.now) places.now))) }
    {
        let mut data = Vec::new(*self.data.allocator());
        for place in places {
            data.extend_from_slice(self.get(*place))?;
        }
        Ok(SymbolSlab {
            data,
            symbol_size: self.symbol_size,
            count: places.len(),
            order: None,
        })
    }

    /// Whether each symbol that the order doesn't read is zeros, in all its octets. Where no order is
    /// set, all symbols are read. After operations that find intermediate symbols (RFC 6330, section
    /// 5.4.2) that is so exactly where some intermediate symbols solve all equations.
    pub fn is_zero_unread(&self) -> Result<bool, AllocError>
        ensures { IfOk result (λ zeros. (zeros ≡ true) ↔ IsZeroUnread self.now) }
    {
        match &self.order {
            None => Ok(true),
            Some(order) => {
                let marks = marks_of(*self.data.allocator(), order.as_slice(), self.count)?;
                Ok(self.is_zero_unmarked(marks.as_slice()))
            }
        }
    }

    // Whether each symbol without a mark is zeros.
    fn is_zero_unmarked(&self, marks: &[bool]) -> bool
        requires { length marks.now ≡ length self.now.values }
        ensures { (result ≡ true) ↔ IsZeroUnmarked self.now marks.now }
    {
        let size = self.symbol_size;
        for i in 0..self.count {
            if !marks[i] && !octets::is_zero(range(self.data.as_slice(), i * size, size)) {
                return false;
            }
        }
        true
    }

    // Where the symbol that a place means begins in the buffer.
    fn start_of(&self, i: usize) -> usize
        requires { HasPlace self.now i }
        ensures start { result ≡ meant_at self.now.order i * self.now.symbol_size }
        ensures below { meant_at self.now.order i < length self.now.values }
    {
        self.stored_index(i) * self.symbol_size
    }

    // Which symbol a place means.
    fn stored_index(&self, i: usize) -> usize
        requires { HasPlace self.now i }
        ensures is { result ≡ meant_at self.now.order i }
        ensures below { result < length self.now.values }
    {
        match &self.order {
            None => i,
            Some(order) => order[i],
        }
    }

    // The number of defined places.
    fn places(&self) -> usize
        ensures { result ≡ length (symbols_in self.now) }
    {
        match &self.order {
            None => self.count,
            Some(order) => order.len(),
        }
    }
}

impl PartialEq for SymbolSlab {
    ghost eq = { same_slab };

    ghost laws = { Prim.search (comparing, rules) depth 12 };

    fn eq(&self, other: &SymbolSlab) -> bool {
        if self.symbol_size != other.symbol_size {
            return false;
        }
        if self.count != other.count {
            return false;
        }
        if self.order != other.order {
            return false;
        }
        self.data == other.data
    }
}

impl Eq for SymbolSlab {
    ghost laws = { Prim.search (comparing, rules) depth 12 };
}

impl Clone for SymbolSlab {
    ghost is_clone = { λ a b. b ≡ a };

    fn clone(&self) -> Result<Self, AllocError> {
        Ok(SymbolSlab {
            data: self.data.clone()?,
            symbol_size: self.symbol_size,
            count: self.count,
            order: self.order.clone()?,
        })
    }
}
