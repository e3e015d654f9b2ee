//! The names of a stream's parts.
ghost use Rattle.std.specs.Prelude.{◌≡◌, ◌+◌, ◌-◌, ◌^◌, ◌<◌, ℕ, List, [], ◌∷◌, ◌++◌, IfOk, IfErr};
ghost use Rattle.rq_cast.specs.Parts.{seal_of, stream_of_names};

use crate::parts::{SEAL_LENGTH, first_bytes, stream_of_name};
use raptorq::error::Error;
use rq_cells::{NAME_LENGTH, STREAM_LENGTH};
use sha2::{Digest, Sha512};

/// The names of the first parts of a stream, as far as those behind them need them.
#[derive(Drop)]
pub struct Names {
    /// How many there are.
    pub count: u32,
    // The stream, where there is a first one.
    stream: [u8; STREAM_LENGTH],
    // Of all of them, one behind another.
    hash: Sha512,
}

impl Names {
    ghost use Rattle.rq_cast.specs.Names.{AreNames};

    /// None.
    pub fn new() -> Names
        ensures { AreNames [] result }
    {
        Names {
            count: 0,
            stream: [0; STREAM_LENGTH],
            hash: Sha512::new(),
        }
    }

    /// Takes the name of the next part.
    pub fn push(&mut self, name: &[u8; NAME_LENGTH])
        requires { self.old.count < 2 ^ 32 - 1 }
        ensures names { (names : List (List ℕ)) → AreNames names self.old → AreNames (names ++ (name.now ∷ [])) self.new }
        ensures count { self.new.count ≡ self.old.count + 1 }
    {
        self.stream = self.stream_behind(name);
        self.hash.update(name);
        self.count += 1;
    }

    /// The stream whose next part has a name.
    pub fn stream_behind(&self, name: &[u8; NAME_LENGTH]) -> [u8; STREAM_LENGTH]
        ensures { (names : List (List ℕ)) → AreNames names self.now → result ≡ stream_of_names (names ++ (name.now ∷ [])) }
    {
        if self.count == 0 {
            return stream_of_name(name);
        }
        self.stream
    }

    /// What ends the last part behind parts with these names.
    pub fn seal(&self) -> Result<[u8; SEAL_LENGTH], Error>
        ensures seal { IfOk result (λ seal. (names : List (List ℕ)) → AreNames names self.now → seal ≡ seal_of names) }
        ensures memory { IfErr result (λ e. e ≡ Error.OutOfMemory) }
    {
        let hash = self.hash.clone()?;
        Ok(first_bytes(&hash.finalize()))
    }
}
