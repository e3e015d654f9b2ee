//! What is known of a stream's parts from its first round.
ghost use Rattle.std.specs.Prelude.{◌≡◌, ◌↔◌, [], ◌∷◌, IfOk, true};
ghost use Rattle.rq_cast.specs.Rounds.{next_stage};

use rq_cells::NAME_LENGTH;
use std::alloc::{AllocError, Global};

/// Which round of a stream is sent.
#[derive(Clone, Copy, Debug, PartialEq, Eq)]
pub(crate) enum Stage {
    /// The only one.
    Alone,
    /// The first of several.
    First,
    /// One behind it.
    Later,
}

/// What is known of a stream's parts: nothing in the first round, and behind it their names, of 16 bytes each.
#[derive(Drop)]
pub struct Known {
    stage: Stage,
    names: Vec<[u8; NAME_LENGTH]>,
}

impl Known {
    ghost use Rattle.rq_cast.specs.Rounds.{IsFresh, IsAsKnown, KeepsNames};

    /// Nothing, before the first round. Names are kept where more rounds follow.
    pub fn new(alloc: Global, keeps: bool) -> Known
        ensures { IsFresh keeps result }
    {
        Known {
            stage: if keeps { Stage::First } else { Stage::Alone },
            names: Vec::new(alloc),
        }
    }

    // Takes the name of the next part, which has this index, and may be the last one. Answers whether it is what it was.
    pub(crate) fn take(
        &mut self,
        index: u32,
        is_last: bool,
        name: &[u8; NAME_LENGTH],
    ) -> Result<bool, AllocError>
        ensures same { IfOk result (λ same. (same ≡ true) ↔ IsAsKnown self.old index is_last name.now) }
        ensures kept { IfOk result (λ same. KeepsNames self.old (name.now ∷ []) self.new) }
    {
        match self.stage {
            Stage::Alone => Ok(true),
            Stage::First => {
                self.names.push(*name)?;
                Ok(true)
            }
            Stage::Later => Ok(self.has(index as usize, is_last, name)),
        }
    }

    // Whether the part of an index has this name, and is the last one exactly where this is.
    fn has(&self, index: usize, is_last: bool, name: &[u8; NAME_LENGTH]) -> bool
        requires { self.now.stage ≡ Stage.Later }
        ensures { (result ≡ true) ↔ IsAsKnown self.now index is_last name.now }
    {
        match self.names.get(index) {
            Some(known) => *known == *name && is_last == (index + 1 == self.names.len()),
            None => false,
        }
    }

    /// What is known behind a round.
    pub(crate) fn behind(self) -> Known
        ensures stage { result.stage ≡ next_stage self.stage }
        ensures same { result.names.items ≡ self.names.items }
    {
        let stage = match self.stage {
            Stage::Alone => Stage::Alone,
            Stage::First | Stage::Later => Stage::Later,
        };
        Known {
            stage,
            names: self.names,
        }
    }
}
