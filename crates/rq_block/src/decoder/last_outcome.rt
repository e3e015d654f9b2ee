//! What the last attempt to answer a block found.
use rq_bytes::error::Error;

/// What the last attempt to answer a block found of what was received.
#[derive(Clone, Copy)]
pub(crate) enum LastOutcome {
    /// There was no attempt since the last payload of a new id, or it found a block or no memory.
    Untried,
    /// It doesn't determine the block.
    Undetermined,
    /// It determines the block, and no block fits all of it.
    Contradictory,
}

impl LastOutcome {
    ghost use Rattle.std.specs.Prelude.{◌≡◌};
    ghost use Rattle.rq_block.specs.LastOutcome.{after_new_payload, outcome_of};

    /// What an attempt found, by its answer.
    pub(crate) fn of(answer: &Result<Option<Vec<u8>>, Error>) -> LastOutcome
        ensures { result ≡ outcome_of answer.now }
    {
        match answer {
            Ok(None) => LastOutcome::Undetermined,
            Err(Error::Contradiction) => LastOutcome::Contradictory,
            _ => LastOutcome::Untried,
        }
    }

    /// What is still so once a payload of a new id was received: with it the payloads may determine
    /// the block, but what is contradictory stays so.
    pub(crate) fn after_new_payload(self) -> LastOutcome
        ensures { result ≡ after_new_payload self }
    {
        match self {
            LastOutcome::Undetermined => LastOutcome::Untried,
            outcome => outcome,
        }
    }
}
