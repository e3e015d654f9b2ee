//! What shares and shards promise.
ghost use Rattle.rq_shards.specs.Dealing.{ShardsHoldTheirs};
ghost use Rattle.rq_shards.specs.Shares.{SharesAreAlike, SharesAreEnough};

use std::io::Write;

/// Shares that are enough have enough packets of each block, and each of all has as many of the largest.
pub fn shares_are_enough()
    ensures enough { SharesAreEnough }
    ensures alike { SharesAreAlike }
{}

/// What a [`Dealer`](crate::Dealer) writes into a shard are the cells that are dealt to it.
pub fn shards_hold_theirs<W: Write>()
    ensures { ShardsHoldTheirs W.contents }
{}
