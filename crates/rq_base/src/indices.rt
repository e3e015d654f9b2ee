//! The indices of the intermediate symbols that make up the symbol of an internal symbol id, one
//! after another (RFC 6330, section 5.3.5.3).
ghost use Rattle.std.specs.Prelude.{◌≡◌, ℕ, ◌+◌, ◌*◌, ◌%◌, ◌<◌, ◌≤◌, List, [], ◌∷◌, All, MatchOption};
ghost use Rattle.rq_standard.specs.TableRows.{intermediate_symbols};
ghost use Rattle.rq_standard.specs.Equations.{row_indices};
ghost use Rattle.rq_standard.specs.Tuple.{IsTupleOver, enc_indices};
ghost use Rattle.rq_base.specs.Indices.{next_below};

use crate::base::intermediate_tuple;
use rq_standard::row::TableRow;
use rq_tables::systematic_constants::CheckedRow;
use std::marker::Model;

/// The indices that are left of the walk of a tuple. Contracts see it as their list.
#[derive(Drop)]
pub struct Indices {
    lt_symbols: u32,
    lt_step: u32,
    lt_value: u32,
    lt_left: u32,
    pi_symbols: u32,
    p1: u32,
    pi_step: u32,
    pi_value: u32,
    pi_left: u32,
}

impl Model for Indices {
    ghost use Rattle.std.specs.Prelude.{ℕ, List};
    ghost use Rattle.rq_base.specs.Indices.{indices_left, IsWalk};

    ghost Value = { List ℕ };

    ghost view = { indices_left };

    ghost invariant = { IsWalk };
}

impl Indices {
    /// The walk of a tuple (d, a, b, d1, a1, b1), over a row of the table with W `lt_symbols`, P
    /// `pi_symbols` and P1 `p1`.
    pub fn new(
        source_tuple: (u32, u32, u32, u32, u32, u32),
        lt_symbols: u32,
        pi_symbols: u32,
        p1: u32,
    ) -> Indices
        requires { IsTupleOver lt_symbols pi_symbols p1 source_tuple }
        ensures { result ≡ enc_indices lt_symbols pi_symbols p1 source_tuple }
    {
        let (lt_left, lt_step, lt_value, pi_left, pi_step, pi_value) = source_tuple;
        Indices {
            lt_symbols,
            lt_step,
            lt_value,
            lt_left,
            pi_symbols,
            p1,
            pi_step,
            pi_value,
            pi_left,
        }
    }

    /// The indices of an internal symbol id, over a row of a table.
    pub fn of_id(row: &CheckedRow, internal_symbol_id: u32) -> Indices
        ensures value { result ≡ row_indices row.now.numbers internal_symbol_id }
        ensures below { All (λ index. index < intermediate_symbols row.now.numbers) result }
    {
        let TableRow {
            lt_symbols,
            systematic_index,
            p1,
            ..
        } = row.numbers;
        let tuple = intermediate_tuple(internal_symbol_id, lt_symbols, systematic_index, p1);
        Indices::new(tuple, lt_symbols, row.pi_symbols() as u32, p1)
    }

    /// The next index, if one is left.
    pub fn next_index(&mut self) -> Option<usize>
        ensures { MatchOption result ((self.old ≡ []) × (self.new ≡ [])) (λ index. self.old ≡ index ∷ self.new) }
    {
        if self.lt_left > 0 {
            let index = self.lt_value;
            self.lt_left -= 1;
            self.lt_value = sum_modulo(index, self.lt_step, self.lt_symbols);
            return Some(index as usize);
        }
        if self.pi_left == 0 {
            return None;
        }
        let value = next_below(self.pi_value, self.pi_step, self.pi_symbols, self.p1);
        self.pi_left -= 1;
        self.pi_value = sum_modulo(value, self.pi_step, self.p1);
        Some(self.lt_symbols as usize + value as usize)
    }
}

/// The sum of two numbers below the modulus, modulo it.
pub(crate) fn sum_modulo(x: u32, y: u32, modulus: u32) -> u32
    requires x { x < modulus }
    requires y { y < modulus }
    ensures value { result ≡ (x + y) % modulus }
    ensures below { result < modulus }
{
    if x < modulus - y {
        x + y
    } else {
        x - (modulus - y)
    }
}

// The first value below P that the walk from a value on reaches. It gets there, since P is at least
// half of the modulus P1.
fn next_below(value: u32, step: u32, pi_symbols: u32, p1: u32) -> u32
    requires value { value < p1 }
    requires some_step { 1 ≤ step }
    requires step { step < p1 }
    requires p1_above { pi_symbols ≤ p1 }
    requires p1_near { p1 ≤ 2 * pi_symbols }
    ensures value { result ≡ next_below pi_symbols p1 step p1 value }
    ensures below { result < pi_symbols }
{
    let mut value = value;
    while value >= pi_symbols {
        value = sum_modulo(value, step, p1);
    }
    value
}
