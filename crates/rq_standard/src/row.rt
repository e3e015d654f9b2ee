//! A row of the table of systematic indices and parameters.
ghost use Rattle.std.specs.Prelude.{◌≡◌, ◌<◌, ◌^◌};
ghost use Rattle.rq_standard.specs.TableRows.{intermediate_symbols, pi_symbols, b_of};

/// A row of the table of section 5.6 of RFC 6330: the numbers of the source blocks whose extended
/// source block has `extended_symbols` symbols. A block of K source symbols has the first row whose
/// K' is at least K; the K' - K symbols behind its own are padding.
#[derive(Clone, Copy, Debug, PartialEq, Eq)]
pub struct TableRow {
    /// K': the number of symbols of an extended source block, source and padding symbols together.
    pub extended_symbols: u32,
    /// J: the systematic index.
    pub systematic_index: u32,
    /// S: the number of LDPC symbols.
    pub ldpc_symbols: u32,
    /// H: the number of HDPC symbols.
    pub hdpc_symbols: u32,
    /// W: the number of LT symbols.
    pub lt_symbols: u32,
    /// P1: the number beside K' in `P1_TABLE`.
    pub p1: u32,
}

impl TableRow {
    /// L: the number of intermediate symbols, K' + S + H.
    pub fn intermediate_symbols(&self) -> u64
        ensures value { result ≡ intermediate_symbols self.now }
        ensures bound { result < 2 ^ 34 }
    {
        u64::from(self.extended_symbols)
            + u64::from(self.ldpc_symbols)
            + u64::from(self.hdpc_symbols)
    }

    /// P: the number of PI symbols, L - W, or 0 where W is above L.
    pub fn pi_symbols(&self) -> u64
        ensures value { result ≡ pi_symbols self.now }
        ensures bound { result < 2 ^ 34 }
    {
        self.intermediate_symbols()
            .saturating_sub(u64::from(self.lt_symbols))
    }

    /// B: the number of LT symbols that are no LDPC symbols, W - S, or 0 where S is above W.
    pub fn b(&self) -> u32
        ensures { result ≡ b_of self.now }
    {
        self.lt_symbols.saturating_sub(self.ldpc_symbols)
    }
}
