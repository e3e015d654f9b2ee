//! What the program can be asked to do.

use rq_cast::{Order, Repair, Shares};

/// What is told of a run beside what went wrong.
#[derive(Clone, Copy, Debug, Default, PartialEq, Eq)]
pub enum Telling {
    /// How it ended, and on a terminal how far it has come.
    #[default]
    Usual,
    /// Nothing.
    Quiet,
    /// How it ended, and how far it has come wherever that is read.
    Progress,
    /// All counts as JSON, in a line a second and one at the end.
    Json,
}

/// How often a stream is sent.
#[derive(Clone, Copy, Debug, PartialEq, Eq)]
pub enum Rounds {
    /// So many times: not 0.
    Times(u32),
    /// Again and again.
    Endless,
}

impl Rounds {
    ghost use Rattle.std.specs.Prelude.{◌≡◌};
    ghost use Rattle.rq_words.specs.Values.{times_of};

    /// How many there are, where without an end it comes behind 2^64 - 1 of them.
    pub fn times(self) -> u64
        ensures { result ≡ times_of self }
    {
        match self {
            Rounds::Times(times) => u64::from(times),
            Rounds::Endless => u64::MAX,
        }
    }
}

/// How a stream is sent.
#[derive(Debug, PartialEq, Eq, Drop)]
pub struct SendJob<'a> {
    /// Which cells are sent.
    pub order: Order,
    /// How many bits are sent a second at most.
    pub rate: Option<u64>,
    /// How often they are sent.
    pub rounds: Rounds,
    /// The file whose bytes are the key that its cells are made by, where there is one.
    pub key: Option<&'a str>,
    /// The file that is sent, or none for standard input.
    pub files: Vec<&'a str>,
    /// What is told.
    pub telling: Telling,
}

/// Which stream is received.
#[derive(Debug, PartialEq, Eq, Drop)]
pub struct ReceiveJob<'a> {
    /// How the stream's name begins: any does where there are no bytes.
    pub name: Vec<u8>,
    /// The beginnings of the names of streams that are passed over, 64 at most.
    pub passed: Vec<Vec<u8>>,
    /// How many parts are kept at once, from the first one on that isn't written: not 0.
    pub window: u32,
    /// The file whose bytes are the key that its cells are made by, where there is one.
    pub key: Option<&'a str>,
    /// The file that it becomes, or none for standard output.
    pub output: Option<&'a str>,
    /// The file in which what is read is kept until the stream is whole, and that is read before the rest, where
    /// there is one.
    pub state: Option<&'a str>,
    /// The files among whose bytes its cells stand, one behind another, or none for standard input.
    pub files: Vec<&'a str>,
    /// What is told.
    pub telling: Telling,
}

/// Streams that are received one after another.
#[derive(Debug, PartialEq, Eq, Drop)]
pub struct FollowJob<'a> {
    /// The beginnings of the names of streams that are passed over, 64 at most.
    pub passed: Vec<Vec<u8>>,
    /// How many parts are kept at once, from the first one on that isn't written: not 0.
    pub window: u32,
    /// The file whose bytes are the key that their cells are made by, where there is one.
    pub key: Option<&'a str>,
    /// The folder of the files that they become.
    pub folder: &'a str,
    /// For how many seconds one may be silent while cells of others come, where that is said: not 0.
    pub timeout: Option<u64>,
    /// The files among whose bytes their cells stand, one behind another, or none for standard input.
    pub files: Vec<&'a str>,
    /// What is told.
    pub telling: Telling,
}

/// Which bytes are looked through.
#[derive(Debug, PartialEq, Eq, Drop)]
pub struct InfoJob<'a> {
    /// The file whose bytes are the key that cells are made by, where there is one.
    pub key: Option<&'a str>,
    /// The files, one behind another, or none for standard input.
    pub files: Vec<&'a str>,
    /// What is told.
    pub telling: Telling,
}

/// Of which file a guard is made, and how.
#[derive(Debug, PartialEq, Eq, Drop)]
pub struct ProtectJob<'a> {
    /// How many bytes are guarded as a part: not 0.
    pub part: u64,
    /// How many repair packets a part has.
    pub repair: Repair,
    /// The file whose bytes are the key that its cells are made by, where there is one.
    pub key: Option<&'a str>,
    /// The file that is guarded.
    pub file: &'a str,
    /// The file that the guard becomes, or none for that which is named by the guarded one.
    pub output: Option<&'a str>,
    /// What is told.
    pub telling: Telling,
}

/// Which file is looked through.
#[derive(Debug, PartialEq, Eq, Drop)]
pub struct CheckJob<'a> {
    /// The file whose bytes are the key that cells are made by, where there is one.
    pub key: Option<&'a str>,
    /// The file that has a guard.
    pub file: &'a str,
    /// Its guard, or none for that which is named by it.
    pub guard: Option<&'a str>,
    /// What is told.
    pub telling: Telling,
}

/// Which file is mended.
#[derive(Debug, PartialEq, Eq, Drop)]
pub struct RepairJob<'a> {
    /// The file whose bytes are the key that cells are made by, where there is one.
    pub key: Option<&'a str>,
    /// The file that has a guard.
    pub file: &'a str,
    /// Its guard, or none for that which is named by it.
    pub guard: Option<&'a str>,
    /// The file that it becomes, or none for its own place.
    pub output: Option<&'a str>,
    /// What is told.
    pub telling: Telling,
}

/// Which file is split into shards, and how.
#[derive(Debug, PartialEq, Eq, Drop)]
pub struct SplitJob<'a> {
    /// How many bytes a part has: not 0.
    pub part: u64,
    /// How many bytes a symbol has at most.
    pub symbol_size: u16,
    /// How many shards are enough, and how many there are.
    pub shares: Shares,
    /// The file whose bytes are the key that its cells are made by, where there is one.
    pub key: Option<&'a str>,
    /// The file that is split.
    pub file: &'a str,
    /// The folder that its shards become.
    pub folder: &'a str,
    /// What is told.
    pub telling: Telling,
}

/// What the program is asked to do.
#[derive(Debug, PartialEq, Eq, Drop)]
pub enum Job<'a> {
    /// Sends a stream.
    Send(SendJob<'a>),
    /// Receives a stream.
    Receive(ReceiveJob<'a>),
    /// Receives streams one after another.
    Follow(FollowJob<'a>),
    /// Lists the streams whose cells stand among bytes.
    Info(InfoJob<'a>),
    /// Makes the guard of a file.
    Protect(ProtectJob<'a>),
    /// Looks whether a file is as its guard says.
    Check(CheckJob<'a>),
    /// Mends a file by its guard.
    Repair(RepairJob<'a>),
    /// Splits a file into shards.
    Split(SplitJob<'a>),
    /// Receives the file of a folder of shards.
    Join(ReceiveJob<'a>),
}
