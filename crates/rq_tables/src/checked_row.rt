//! Rows that pass the checks.
ghost use Rattle.std.specs.Prelude.{◌≡◌, ◌+◌, ◌<◌};
ghost use Rattle.rq_standard.specs.TableRows.{IsChecked, b_of, intermediate_symbols, pi_symbols};
ghost use Rattle.rq_standard.specs.Equations.{before_hdpc};

use rq_standard::row::TableRow;

/// A row that passes the checks 2 to 7 of
/// [`SystematicTable::with_rows`](crate::systematic_constants::SystematicTable::with_rows), so that
/// its numbers of symbols are below 65536. Not in the Rust crate.
#[derive(Clone, Copy, Debug, PartialEq, Eq)]
pub struct CheckedRow {
    /// The row, as numbers.
    pub numbers: TableRow,
    pub ghost checked: { IsChecked numbers },
}

impl CheckedRow {
    /// K': the number of symbols of an extended source block, source and padding symbols together
    /// (RFC 6330, section 5.3.1).
    pub fn extended_symbols(&self) -> usize
        ensures value { result ≡ self.now.numbers.extended_symbols }
        ensures bound { result < 65536 }
    {
        self.numbers.extended_symbols as usize
    }

    /// S: the number of LDPC symbols (RFC 6330, section 5.6).
    pub fn ldpc_symbols(&self) -> usize
        ensures value { result ≡ self.now.numbers.ldpc_symbols }
        ensures bound { result < 65536 }
    {
        self.numbers.ldpc_symbols as usize
    }

    /// H: the number of HDPC symbols (RFC 6330, section 5.6).
    pub fn hdpc_symbols(&self) -> usize
        ensures value { result ≡ self.now.numbers.hdpc_symbols }
        ensures bound { result < 256 }
    {
        self.numbers.hdpc_symbols as usize
    }

    /// S + H: the number of rows of the constraint matrix before those of the symbols.
    pub fn precode_rows(&self) -> usize
        ensures value { result ≡ self.now.numbers.ldpc_symbols + self.now.numbers.hdpc_symbols }
        ensures bound { result < 65536 }
    {
        self.ldpc_symbols() + self.hdpc_symbols()
    }

    /// W: the number of LT symbols (RFC 6330, section 5.6).
    pub fn lt_symbols(&self) -> usize
        ensures value { result ≡ self.now.numbers.lt_symbols }
        ensures bound { result < 65536 }
    {
        self.numbers.lt_symbols as usize
    }

    /// B: the number of LT symbols that are no LDPC symbols, W - S (RFC 6330, section 5.3.3.3).
    pub fn b(&self) -> usize
        ensures value { result ≡ b_of self.now.numbers }
        ensures bound { result < 65536 }
    {
        self.numbers.b() as usize
    }

    /// P: the number of PI symbols, L - W (RFC 6330, section 5.3.3.3).
    pub fn pi_symbols(&self) -> usize
        ensures value { result ≡ pi_symbols self.now.numbers }
        ensures bound { result < 65536 }
    {
        self.numbers.pi_symbols() as usize
    }

    /// K' + S: the number of intermediate symbols before the HDPC symbols.
    pub fn before_hdpc(&self) -> usize
        ensures value { result ≡ before_hdpc self.now.numbers }
        ensures bound { result < 65536 }
    {
        self.extended_symbols() + self.ldpc_symbols()
    }

    /// L: the number of intermediate symbols, K' + S + H (RFC 6330, section 5.3.3.3).
    pub fn intermediate_symbols(&self) -> usize
        ensures value { result ≡ intermediate_symbols self.now.numbers }
        ensures bound { result < 65536 }
    {
        self.numbers.intermediate_symbols() as usize
    }
}
