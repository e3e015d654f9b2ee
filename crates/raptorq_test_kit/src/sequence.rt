//! A pseudorandom sequence, and bytes made of it.
use raptorq::error::Error;
use std::alloc::Global;

/// The next number of the sequence. The upper bytes are the ones to use.
pub fn next(x: u64) -> u64 {
    x.wrapping_mul(6364136223846793005)
        .wrapping_add(1442695040888963407)
}

/// `length` bytes: the upper ones of the numbers that follow `seed` in the sequence.
pub fn bytes(alloc: Global, length: u64, seed: u64) -> Result<Vec<u8>, Error> {
    let mut bytes = Vec::new(alloc);
    let mut x = seed;
    for _ in 0..length {
        x = next(x);
        bytes.push((x >> 56) as u8)?;
    }
    Ok(bytes)
}

/// The sequence, as choices.
#[derive(Drop)]
pub struct Choices {
    x: u64,
}

impl Choices {
    /// From a seed on.
    pub fn new(seed: u64) -> Choices {
        Choices { x: seed }
    }

    /// A number below a bound, and 0 where that is 0.
    pub fn below(&mut self, bound: u32) -> u32 {
        self.x = next(self.x);
        let number = (self.x >> 33) as u32;
        number.checked_rem(bound).unwrap_or(0)
    }

    /// A place in a list of this length, and 0 where that is 0.
    pub fn place(&mut self, length: usize) -> usize {
        self.x = next(self.x);
        let number = (self.x >> 33) as usize;
        number.checked_rem(length).unwrap_or(0)
    }

    /// Any byte.
    pub fn byte(&mut self) -> u8 {
        self.x = next(self.x);
        (self.x >> 56) as u8
    }
}
