//! How a stream is sent.

use crate::series::Repair;

/// Which packets are sent of each block. Each round of a stream sends as many ids as the first one, those that
/// follow, and begins again at the least id of this series where they don't fit behind the round before.
#[derive(Clone, Copy, Debug, PartialEq, Eq)]
pub struct Ids {
    /// The first encoding symbol id of the first round. None from 2^24 on is sent.
    pub first: u32,
    /// How far the next one is: not 0.
    pub step: u32,
    /// Which round is sent, from 0.
    pub round: u64,
}

/// How a stream is sent.
#[derive(Clone, Copy, Debug, PartialEq, Eq)]
pub struct Order {
    /// How many bytes a part has: not 0. The last one has fewer.
    pub part: u64,
    /// How many bytes a symbol has at most.
    pub symbol_size: u16,
    /// How many repair packets there are.
    pub repair: Repair,
    /// Which packets are sent.
    pub ids: Ids,
}

impl Order {
    ghost use Rattle.std.specs.Prelude.{◌≡◌};
    ghost use Rattle.rq_cast.specs.Rounds.{in_round};

    /// The same for another round.
    pub fn in_round(&self, round: u64) -> Order
        ensures { result ≡ in_round self.now round }
    {
        Order {
            ids: Ids { round, ..self.ids },
            ..*self
        }
    }
}
