//! Laws of what calls do: each is the contract of a function that does nothing.
ghost use Rattle.raptorq_c.specs.Laws.{AnswerStays, AnswerStaysHere, BlockTakesIt, CutsAsAsked};

/// A packet does to its block in the decoder of an object what it does to a decoder of that block alone.
#[tactic(auto, using(crate::proofs::Turns::block_takes_it))]
pub fn blocks_alone()
    ensures { BlockTakesIt }
{}

/// What is answered stays so, whichever packets come then: of a block's decoder, and of each block of an
/// object's.
pub fn answers_stay()
    ensures block { AnswerStaysHere }
    ensures object { AnswerStays }
{}

/// `reamertan_cut` cuts an object into blocks of at most so many symbols, as few as can be, and coders take
/// its configurations (RFC 6330, 4.4.1.2).
#[tactic(auto, using(crate::proofs::CutObjects::cuts_as_asked))]
pub fn cuts()
    ensures { CutsAsAsked }
{}
