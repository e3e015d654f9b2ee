//! Shares of a stream, of which some are enough.
ghost use Rattle.std.specs.Prelude.{◌≡◌, ◌^◌, ◌<◌};

/// Shares of a stream, of which any so many are enough, but for one in 26 of their cells that may be damaged. Where a
/// block has few symbols they aren't once in a million.
#[derive(Clone, Copy, Debug, PartialEq, Eq)]
pub struct Shares {
    /// How many are enough. None counts as one.
    pub needed: u8,
    /// How many there are.
    pub all: u8,
}

impl Shares {
    ghost use Rattle.rq_cast.specs.Shares.{shares_repair};

    /// How many repair packets a block has, where the largest has so many source symbols: so many that all shares have
    /// as many packets of it, and those that are needed have all source symbols' number, a 25th of that and two more.
    pub fn repair(self, largest_block: u64) -> u64
        requires { largest_block < 65536 }
        ensures value { result ≡ shares_repair largest_block self }
        ensures few { result < 2 ^ 32 }
    {
        let enough = largest_block + largest_block.div_ceil(25) + 2;
        let packets = enough.div_ceil(u64::from(self.needed.max(1)));
        (u64::from(self.all) * packets).saturating_sub(largest_block)
    }
}
