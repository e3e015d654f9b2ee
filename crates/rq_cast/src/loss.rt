//! How many repair packets a loss asks for.
ghost use Rattle.std.specs.Prelude.{◌≡◌, ◌^◌, ◌<◌, ◌≤◌, min};
ghost use Rattle.rq_cast.specs.Loss.{IsLeastEnough, column_of, IsLossRepair, table_row};

// All cells, in hundred-thousandths.
const WHOLE: u64 = 100_000;

// The first number of source symbols for which the formula stands. Below it the table does.
const FIRST_BY_FORMULA: u64 = 100;

// Half of all cells.
const HALF: u32 = 50_000;

/// The part of all cells that is lost at random. More than half counts as half.
#[derive(Clone, Copy, Debug, PartialEq, Eq)]
pub struct Loss {
    /// So many hundred-thousandths.
    pub parts: u32,
}

impl Loss {
    /// How many repair packets a block gets, so that at most one in a million fails, where the largest
    /// has so many source symbols.
    ///
    /// Below 100 these are the number of a table, at the next greater number of symbols and the next
    /// greater loss. From there on they are the least number that isn't below
    /// (K p + 5 + 5 s) / (1 - p), of K symbols and the lost part p, s being the root of K p.
    pub fn repair(self, largest_block: u64) -> u64
        requires { largest_block < 65536 }
        ensures value { IsLossRepair largest_block (min self.parts 50000) result }
        ensures few { result < 2 ^ 32 }
    {
        let parts = self.parts.min(HALF);
        if largest_block < FIRST_BY_FORMULA {
            return table_row(largest_block)[column_of(parts)];
        }
        by_formula(largest_block, u64::from(parts))
    }
}

// The column of the next greater loss: of 1, 5, 10, 20, 30 or 50 percent.
fn column_of(parts: u32) -> usize
    ensures value { result ≡ column_of parts }
    ensures within { result < 6 }
{
    match parts {
        0..=1_000 => 0,
        1_001..=5_000 => 1,
        5_001..=10_000 => 2,
        10_001..=20_000 => 3,
        20_001..=30_000 => 4,
        _ => 5,
    }
}

// The row of the next greater number of source symbols: of 1, 10 or 100.
fn table_row(symbols: u64) -> [u64; 6]
    ensures { result ≡ table_row symbols }
{
    match symbols {
        0..=1 => [5, 7, 9, 13, 17, 28],
        2..=10 => [6, 10, 13, 19, 27, 49],
        _ => [11, 22, 34, 60, 90, 183],
    }
}

// The least number of repair packets by the formula. Both sides are taken a hundred thousand times, so
// that all is whole: the root is taken upwards.
fn by_formula(symbols: u64, parts: u64) -> u64
    requires symbols { symbols < 65536 }
    requires parts { parts ≤ 50000 }
    ensures least { IsLeastEnough symbols parts result }
    ensures few { result < 2 ^ 32 }
{
    let lost = symbols * parts;
    let squared = 25 * lost * WHOLE;
    let below = squared.isqrt();
    let root = if below * below < squared {
        below + 1
    } else {
        below
    };
    (lost + 5 * WHOLE + root).div_ceil(WHOLE - parts)
}
