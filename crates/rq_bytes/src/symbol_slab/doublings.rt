//! Symbols that are doubled.
ghost use Rattle.std.specs.Prelude.{◌≡◌, ◌∷◌, [], length, map, All};
ghost use Rattle.rq_algebra.specs.Operations.{AddAssign, MulAssign};
ghost use Rattle.rq_bytes.specs.SymbolSlab.{after_all, Allows};

use super::SymbolSlab;
use crate::octets::are_octets;
use crate::range_multiples::double_add_and_spread;
use crate::row_multiples::double_and_add;

impl SymbolSlab {
    /// Multiplies a symbol by 2, adds another one to it, and then adds it to several others: in one
    /// pass over their octets where these are one or two, and else one after another. Not in the Rust
    /// crate.
    pub fn double_add_and_spread(&mut self, dest: usize, src: usize, targets: &[usize])
        requires source { Allows self.old (AddAssign dest src) }
        requires targets { All (λ target. Allows self.old (AddAssign target dest)) targets.now }
        ensures { self.new ≡ after_all (MulAssign dest 2 ∷ AddAssign dest src ∷ map (λ target. AddAssign target dest) targets.now) self.old }
    {
        // Where their number is known, no loop over them is left in the pass.
        match targets.len() {
            1 => self.double_add_and_spread_to::<1>(dest, src, targets),
            2 => self.double_add_and_spread_to::<2>(dest, src, targets),
            _ => {
                self.double_and_add(dest, src);
                for target in targets {
                    self.add_assign(*target, dest);
                }
            }
        }
    }

    // Multiplies a symbol by 2, adds another one to it, and then adds it to C others, in one pass over
    // their octets. Where they begin is found once, and not again for each piece of them.
    #[inline(always)]
    fn double_add_and_spread_to<const C: usize>(
        &mut self,
        dest: usize,
        src: usize,
        targets: &[usize],
    )
        requires count { length targets.now ≡ C }
        requires source { Allows self.old (AddAssign dest src) }
        requires targets { All (λ target. Allows self.old (AddAssign target dest)) targets.now }
        ensures { self.new ≡ after_all (MulAssign dest 2 ∷ AddAssign dest src ∷ map (λ target. AddAssign target dest) targets.now) self.old }
    {
        // For the proof: what is below 256 is its own multiple by 1.
        are_octets(self.data.as_slice());
        let size = self.symbol_size;
        let start = self.start_of(dest);
        let src_start = self.start_of(src);
        let starts = self.starts_of::<C>(targets);
        double_add_and_spread(self.data.as_mut_slice(), start, src_start, &starts, size);
    }

    // Multiplies a symbol by 2 and adds another one to it, in one pass over their octets.
    fn double_and_add(&mut self, dest: usize, src: usize)
        requires { Allows self.old (AddAssign dest src) }
        ensures { self.new ≡ after_all (MulAssign dest 2 ∷ AddAssign dest src ∷ []) self.old }
    {
        let (dest, src) = self.get_pair_mut(dest, src);
        double_and_add(dest, src);
    }
}
