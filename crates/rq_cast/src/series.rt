//! Which encoding symbol ids are sent.
ghost use Rattle.std.specs.Prelude.{◌≡◌, ◌/◌, ◌^◌, ◌<◌, ◌≤◌};
ghost use Rattle.rq_cast.specs.Ids.{AreIds};

use crate::loss::Loss;
use crate::shares::Shares;
use raptorq::base::ENCODING_SYMBOL_IDS;

/// How many repair packets a block has.
#[derive(Clone, Copy, Debug, PartialEq, Eq)]
pub enum Repair {
    /// So many.
    Packets(u32),
    /// So many for each hundred thousand source symbols of the largest block, rounded up.
    Share(u32),
    /// As many as it takes to live through a loss: what [`Loss::repair`] answers.
    Against(Loss),
    /// All that there are ids for.
    All,
    /// As many as it takes that some shares are enough: what [`Shares::repair`] answers.
    Shares(Shares),
}

impl Repair {
    ghost use Rattle.rq_cast.specs.Ids.{IsIdEnd, IsRepairCount};

    /// The first encoding symbol id that isn't sent any more, one for all blocks, where the largest
    /// has so many source symbols. There are 2^24 ids.
    pub fn end(self, largest_block: u64) -> u32
        requires { largest_block < 65536 }
        ensures { IsIdEnd largest_block self result }
    {
        let end = largest_block + self.count(largest_block);
        end.min(u64::from(ENCODING_SYMBOL_IDS)) as u32
    }

    // How many there are, where the largest block has so many source symbols.
    fn count(self, largest_block: u64) -> u64
        requires { largest_block < 65536 }
        ensures value { IsRepairCount largest_block self result }
        ensures few { result < 2 ^ 48 }
    {
        match self {
            Repair::Packets(number) => u64::from(number),
            Repair::Share(parts) => (largest_block * u64::from(parts)).div_ceil(100_000),
            Repair::Against(loss) => loss.repair(largest_block),
            Repair::All => u64::from(ENCODING_SYMBOL_IDS),
            Repair::Shares(shares) => shares.repair(largest_block),
        }
    }
}

/// Encoding symbol ids: the first one, and others `step` apart. None has more than 24 bits.
#[derive(Clone, Copy, Debug, PartialEq, Eq)]
pub struct Series {
    /// The first.
    pub first: u32,
    /// How far the next one is.
    pub step: u32,
    /// How many there are.
    pub count: u32,
    pub ghost few: { count ≤ 2 ^ 24 },
    pub ghost ids: { AreIds first step count },
}

impl Series {
    ghost use Rattle.rq_cast.specs.Sent.{IsSeries, IsRoundOf};
    ghost use Rattle.rq_cast.specs.Rounds.{ids_from};

    /// Those of the ids `first`, `first + step`, .. that are below an end.
    pub fn new(first: u32, step: u32, end: u32) -> Series
        requires step { 0 < step }
        requires end { end ≤ 2 ^ 24 }
        ensures { IsSeries first step end result }
    {
        Series {
            first,
            step,
            count: end.saturating_sub(first).div_ceil(step),
        }
    }

    // How many stretches of as many ids stand behind one another from an id on.
    fn stretches_from(&self, id: u32) -> u64
        requires step { 0 < self.now.step }
        requires some { 0 < self.now.count }
        ensures { result ≡ ids_from id self.now.step / self.now.count }
    {
        let ids = ENCODING_SYMBOL_IDS.saturating_sub(id).div_ceil(self.step);
        u64::from(ids / self.count)
    }

    /// Those of a round, from 0, where these are those of the first one.
    pub(crate) fn in_round(self, round: u64) -> Series
        requires { 0 < self.step }
        ensures { IsRoundOf round self result }
    {
        if self.count == 0 {
            return self;
        }
        let least = self.first % self.step;
        let fit = self.stretches_from(self.first);
        let (begin, number) = if round < fit {
            (self.first, round)
        } else {
            (least, (round - fit) % self.stretches_from(least))
        };
        let skipped = number as u32 * self.count;
        Series {
            first: begin + self.step * skipped,
            step: self.step,
            count: self.count,
        }
    }
}
