//! What is damaged of a file.
ghost use Rattle.std.specs.Prelude.{◌≡◌, ◌+◌, ◌-◌, ◌^◌, ◌<◌, [], ◌∷◌, ◌++◌, All, OnOk, IfOk, IfErr};
ghost use Rattle.std.specs.List.{list_all};
ghost use Rattle.rq_streams.specs.Counted.{failed_count, inner};
ghost use Rattle.rq_streams.specs.Ends.{failed_calls};
ghost use Rattle.rq_cast.specs.Reading.{IsStopOfReads};
ghost use Rattle.rq_guard.specs.Lists.{listed_of};
ghost use Rattle.rq_guard.specs.Damage.{IsList};
ghost use Rattle.rq_guard.specs.Reading.{names_listed};
ghost use Rattle.rq_guard.specs.Checking.{IsPartDamage, EndsThere, IsFileDamage, is_whole_part, is_whole_file};

use crate::damage::{damaged_symbols, object_there, part_length};
use crate::list::DigestList;
use rq_cast::read_part;
use rq_streams::{Counted, Stop};
use std::alloc::{AllocError, Global};
use std::io::Read;

/// What is damaged of a part, where a file has it.
#[derive(Debug, PartialEq, Eq, Drop)]
pub struct PartDamage {
    /// The numbers of its symbols that are damaged, in order.
    pub symbols: Vec<u32>,
    /// How many of its bytes would stand behind the file's end.
    pub missing: u64,
}

/// What is damaged of a file.
#[derive(Debug, PartialEq, Eq, Drop)]
pub struct FileDamage {
    /// Of each part.
    pub parts: Vec<PartDamage>,
    /// Whether bytes stand behind the last one.
    pub longer: bool,
}

impl PartDamage {
    /// Whether each symbol has its digest, and no byte is missing.
    pub fn is_whole(&self) -> bool
        ensures { result ≡ is_whole_part self.now }
    {
        self.symbols.is_empty() && self.missing == 0
    }
}

// Whether each part is whole.
fn are_whole(parts: &[PartDamage]) -> bool
    ensures { result ≡ list_all is_whole_part parts.now }
{
    parts.iter().all(|part| part.is_whole())
}

impl FileDamage {
    /// Whether each part is whole, and nothing stands behind the last one.
    pub fn is_whole(&self) -> bool
        ensures { result ≡ is_whole_file self.now }
    {
        are_whole(self.parts.as_slice()) && !self.longer
    }
}

// What is damaged of a part behind others, in what a reader brings.
fn part_damage<F: Read>(
    alloc: Global,
    before: &[DigestList],
    list: &DigestList,
    file: &mut Counted<F>,
) -> Result<PartDamage, Stop>
    requires reads { failed_count file.old < 2 ^ 64 - 1 }
    requires list { IsList (listed_of list.now) }
    ensures damage { IfOk result (IsPartDamage (names_listed before.now) (listed_of list.now) (F.remaining (inner file.old)) (F.remaining (inner file.new))) }
    ensures counts { failed_count file.new ≡ failed_count file.old + failed_calls result }
    ensures stops { IfErr result IsStopOfReads }
{
    let bytes = read_part(alloc, file, part_length(&list.head))?;
    let missing = part_length(&list.head).saturating_sub(bytes.len() as u64);
    let object = object_there(&list.head, before, bytes)?;
    let symbols = damaged_symbols(alloc, list, object.as_slice())?;
    Ok(PartDamage { symbols, missing })
}

// One part more.
fn push_part(parts: &mut Vec<PartDamage>, damage: PartDamage) -> Result<(), AllocError>
    ensures { OnOk result (parts.new.items ≡ parts.old.items ++ damage ∷ []) }
{
    parts.push(damage)?;
    Ok(())
}

// Whether a reader is at its end.
fn is_at_end<F: Read>(file: &mut Counted<F>) -> Result<bool, Stop>
    requires { failed_count file.old < 2 ^ 64 - 1 }
    ensures ends { IfOk result (EndsThere (F.remaining (inner file.old)) (F.remaining (inner file.new))) }
    ensures counts { failed_count file.new ≡ failed_count file.old + failed_calls result }
    ensures stops { IfErr result IsStopOfReads }
{
    let mut next = [0u8];
    let Ok(n) = file.read(&mut next) else {
        return Err(Stop::Fault);
    };
    Ok(n == 0)
}

/// What is damaged of a file, by the lists of all its parts ([`lists_in`](crate::lists_in)): each part is read where it
/// stands, and it is whole exactly where each symbol has its digest, and the file ends where its parts do. A failed
/// call ends it with [`Stop::Fault`]. Refuses [`Error::OutOfMemory`](rq_bytes::error::Error::OutOfMemory) alone.
pub fn check_file<F: Read>(
    alloc: Global,
    lists: &[DigestList],
    file: &mut Counted<F>,
) -> Result<FileDamage, Stop>
    requires reads { failed_count file.old < 2 ^ 64 - 1 }
    requires lists { All (λ l. IsList (listed_of l)) lists.now }
    ensures damage { IfOk result (IsFileDamage lists.now (F.remaining (inner file.old)) (F.remaining (inner file.new))) }
    ensures counts { failed_count file.new ≡ failed_count file.old + failed_calls result }
    ensures stops { IfErr result IsStopOfReads }
{
    let mut parts = Vec::with_capacity(alloc, lists.len())?;
    for i in 0..lists.len() {
        let damage = part_damage(alloc, &lists[..i], &lists[i], file)?;
        push_part(&mut parts, damage)?;
    }
    let longer = !is_at_end(file)?;
    Ok(FileDamage { parts, longer })
}
