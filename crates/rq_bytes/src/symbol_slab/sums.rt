//! Sums of symbols, in one pass over their octets.
ghost use Rattle.std.specs.Prelude.{◌≡◌, ◌*◌, ◌≤◌, length, map, All};
ghost use Rattle.rq_algebra.specs.Operations.{AddAssign, meant_at};
ghost use Rattle.rq_bytes.specs.SymbolSlab.{after_all, HasPlace, Allows, with_symbols_added};

use super::SymbolSlab;
use crate::octets::add_assign;
use crate::row_sums::{ADDED_AT_ONCE, add_ranges, add_rows};

impl SymbolSlab {
    /// Adds several symbols to another one: in one pass over its octets where they are at most eight,
    /// and else one after another. Not in the Rust crate.
    pub fn add_all(&mut self, dest: usize, sources: &[usize])
        requires dest { HasPlace self.old dest }
        requires sources { All (λ src. Allows self.old (AddAssign dest src)) sources.now }
        ensures { self.new ≡ after_all (map (λ src. AddAssign dest src) sources.now) self.old }
    {
        // Where their number is known, no loop over them is left in the pass.
        match sources.len() {
            1 => self.add_sources::<1>(dest, sources),
            2 => self.add_sources::<2>(dest, sources),
            3 => self.add_sources::<3>(dest, sources),
            4 => self.add_sources::<4>(dest, sources),
            5 => self.add_sources::<5>(dest, sources),
            6 => self.add_sources::<6>(dest, sources),
            7 => self.add_sources::<7>(dest, sources),
            8 => self.add_sources::<8>(dest, sources),
            _ => {
                for src in sources {
                    self.add_assign(dest, *src);
                }
            }
        }
    }

    // Adds C symbols to another one, in one pass over its octets. Where they begin is found once, and
    // not again for each piece of them.
    #[inline(always)]
    fn add_sources<const C: usize>(&mut self, dest: usize, sources: &[usize])
        requires few { C ≤ 8 }
        requires count { length sources.now ≡ C }
        requires dest { HasPlace self.old dest }
        requires sources { All (λ src. Allows self.old (AddAssign dest src)) sources.now }
        ensures { self.new ≡ after_all (map (λ src. AddAssign dest src) sources.now) self.old }
    {
        let size = self.symbol_size;
        let start = self.start_of(dest);
        let starts = self.starts_of::<C>(sources);
        add_ranges::<C>(self.data.as_mut_slice(), start, &starts, size);
    }

    /// Adds the symbols that these places mean to a row of as many octets as a symbol has: in one pass
    /// over it where they are at most eight, and else one after another. Not in the Rust crate.
    pub fn add_symbols_to(&self, places: &[usize], row: &mut [u8])
        requires places { All (HasPlace self.now) places.now }
        requires len { length row.old ≡ self.now.symbol_size }
        ensures { row.new ≡ with_symbols_added self.now row.old places.now }
    {
        // Where their number is known, no loop over them is left in the pass.
        match places.len() {
            1 => self.add_places_to::<1>(places, row),
            2 => self.add_places_to::<2>(places, row),
            3 => self.add_places_to::<3>(places, row),
            4 => self.add_places_to::<4>(places, row),
            5 => self.add_places_to::<5>(places, row),
            6 => self.add_places_to::<6>(places, row),
            7 => self.add_places_to::<7>(places, row),
            8 => self.add_places_to::<8>(places, row),
            _ => {
                for place in places {
                    add_assign(row, self.get(*place));
                }
            }
        }
    }

    // Adds the symbols that C places mean to a row, in one pass over it. Where they stand is found once,
    // and not again for each piece of them.
    #[inline(always)]
    fn add_places_to<const C: usize>(&self, places: &[usize], row: &mut [u8])
        requires few { C ≤ 8 }
        requires count { length places.now ≡ C }
        requires places { All (HasPlace self.now) places.now }
        requires len { length row.old ≡ self.now.symbol_size }
        ensures { row.new ≡ with_symbols_added self.now row.old places.now }
    {
        let mut rows = [self.data.as_slice(); ADDED_AT_ONCE];
        for i in 0..C {
            rows[i] = self.get(places[i]);
        }
        add_rows(row, &rows[..C]);
    }

    // Where the symbols that C places mean begin in the buffer.
    #[inline(always)]
    pub(super) fn starts_of<const C: usize>(&self, places: &[usize]) -> [usize; C]
        requires count { length places.now ≡ C }
        requires places { All (HasPlace self.now) places.now }
        ensures { result ≡ map (λ i. meant_at self.now.order i * self.now.symbol_size) places.now }
    {
        let mut starts = [0; C];
        for i in 0..C {
            starts[i] = self.start_of(places[i]);
        }
        starts
    }
}
