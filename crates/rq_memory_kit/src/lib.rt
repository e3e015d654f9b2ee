//! Memory that is taken away and given back little by little, and how calls end meanwhile.
#![tactic(auto)]

use std::alloc::{AllocError, Global};

/// In how many rounds calls are tried while memory is given back.
pub const ROUNDS: usize = 512;

// What is given back at last, in bytes.
const RESERVE: usize = 65536;

// How many bytes more each round leaves: in all of them nearly the reserve.
const MORE: usize = 127;

// How many blocks of memory can be taken.
const ROOM: usize = 1 << 20;

// Takes blocks of this size until there is none.
fn take_all(alloc: Global, blocks: &mut Vec<Vec<u8>>, size: usize) {
    for _ in 0..1_000_000 {
        if blocks.len() >= blocks.capacity() {
            return;
        }
        match Vec::with_capacity(alloc, size) {
            Ok(block) => {
                let _ = blocks.push(block);
            }
            Err(_) => return,
        }
    }
}

// Takes all small blocks that are free, as far as the list has room.
fn take_small(alloc: Global, blocks: &mut Vec<Vec<u8>>) {
    for i in 0..600usize {
        take_all(alloc, blocks, 16 * (600 - i) - 8);
    }
}

// Takes all memory that there is, in ever smaller blocks, as far as the list has room.
fn take_memory(alloc: Global, blocks: &mut Vec<Vec<u8>>) {
    let mut size: usize = 1 << 46;
    for _ in 0..33 {
        take_all(alloc, blocks, size);
        size /= 2;
    }
    take_small(alloc, blocks);
}

/// All memory taken but some bytes, which become more round by round. What is dropped gives the
/// memory back.
#[derive(Drop)]
pub struct Shortage {
    alloc: Global,
    taken: Vec<Vec<u8>>,
    reserves: Vec<Vec<u8>>,
    size: usize,
    free: usize,
}

impl Shortage {
    /// Takes all memory, and can ease `rounds` times, each time to fewer free bytes than `size`.
    pub fn new(alloc: Global, rounds: usize, size: usize) -> Result<Shortage, AllocError> {
        let mut reserves: Vec<Vec<u8>> = Vec::with_capacity(alloc, rounds)?;
        for _ in 0..rounds {
            reserves.push(Vec::with_capacity(alloc, size)?)?;
        }
        let mut taken: Vec<Vec<u8>> = Vec::with_capacity(alloc, ROOM)?;
        take_memory(alloc, &mut taken);
        Ok(Shortage {
            alloc,
            taken,
            reserves,
            size,
            free: 0,
        })
    }

    /// Takes again what was given back and leaves some bytes more than the last time: past its last
    /// round none.
    pub fn ease(&mut self, more: usize) {
        take_small(self.alloc, &mut self.taken);
        let Some(reserve) = self.reserves.pop() else {
            return;
        };
        drop(reserve);
        self.free = self.free.saturating_add(more);
        let filler = Vec::with_capacity(self.alloc, self.size.saturating_sub(self.free));
        if let Ok(filler) = filler {
            let _ = self.taken.push(filler);
        }
    }

    /// Whether all memory could be taken.
    pub fn is_whole(&self) -> bool {
        self.taken.len() < self.taken.capacity()
    }
}

/// How a call ended.
#[derive(Clone, Copy, Debug, PartialEq, Eq, Drop)]
pub enum Ending {
    /// It answered what it answers with ample memory.
    Answered,
    /// It was refused memory, and what was lent to it is as it may be then.
    Refused,
    /// Anything else.
    Other,
}

/// How often a call ended in each way.
#[derive(Clone, Copy, Debug, Drop)]
pub struct Endings {
    answered: u32,
    refused: u32,
    others: u32,
}

impl Endings {
    /// None so far.
    pub fn new() -> Endings {
        Endings {
            answered: 0,
            refused: 0,
            others: 0,
        }
    }

    // Whether some calls were refused memory and some answered, and none ended otherwise.
    fn are_both(&self) -> bool {
        self.refused > 0 && self.answered > 0 && self.others == 0
    }

    // Counts a call.
    fn add(&mut self, ended: Ending) {
        match ended {
            Ending::Answered => self.answered = self.answered.saturating_add(1),
            Ending::Refused => self.refused = self.refused.saturating_add(1),
            Ending::Other => self.others = self.others.saturating_add(1),
        }
    }
}

/// Counts how calls ended, one for each, in their order: there are as many of both.
pub fn add_all(endings: &mut [Endings], ended: &[Ending]) {
    for (endings, ending) in endings.iter_mut().zip(ended) {
        endings.add(*ending);
    }
}

// Whether each of some calls was refused memory, and answered, and never ended otherwise.
fn are_all_both(endings: &[Endings]) -> bool {
    for ended in endings {
        if !ended.are_both() {
            return false;
        }
    }
    true
}

/// Tries calls, each of them once a round, while memory is given back. How they ended is counted.
/// Answers whether all of it could be taken, and each of them was refused some and answered where there
/// was enough.
pub fn is_swept<F: FnMut(&mut [Endings])>(
    alloc: Global,
    endings: &mut [Endings],
    mut attempts: F,
) -> Result<bool, AllocError>
    requires { F.IsAlwaysCallable attempts }
{
    let mut shortage = Shortage::new(alloc, ROUNDS, RESERVE)?;
    for _ in 0..ROUNDS {
        attempts(endings);
        shortage.ease(MORE);
    }
    let is_whole = shortage.is_whole();
    drop(shortage);
    Ok(is_whole && are_all_both(endings))
}
