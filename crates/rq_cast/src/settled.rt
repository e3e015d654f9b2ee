//! What is received of a part, where it is the next one of its stream.
ghost use Rattle.std.specs.Prelude.{◌≡◌, ◌≢◌, ◌++◌, ℕ, List, Bool, take, IfSome, IfOk, IfErr, None};
ghost use Rattle.rq_cast.specs.Names.{AreNames};
ghost use Rattle.rq_cast.specs.Parts.{name_of_part, number_of};
ghost use Rattle.rq_cast.specs.Settling.{IsPartWhere};

use crate::names::Names;
use crate::parts::SEAL_LENGTH;
use raptorq::error::Error;
use rq_cells::{Head, LAST_PART, NAME_LENGTH};

/// A part that is what its head says, behind those before it.
#[derive(Drop)]
pub(crate) struct SettledPart {
    pub name: [u8; NAME_LENGTH],
    pub is_last: bool,
    /// Its bytes of the stream.
    pub bytes: Vec<u8>,
}

/// What becomes of the first part that isn't written.
#[derive(Drop)]
pub(crate) enum Settling {
    /// Its cells determine no object yet.
    Waits,
    /// They determine what isn't the part behind those before it, and it began anew.
    Anew,
    /// They determine the part.
    Settled(SettledPart),
}

// How many bytes of the last part's object stand before the seal, where it ends with that.
fn length_before_seal(object: &[u8], seal: &[u8; SEAL_LENGTH]) -> Option<usize>
    ensures some { IfSome result (λ n. object.now ≡ take n object.now ++ seal.now) }
    ensures none { (result ≡ None) → (bytes : List ℕ) → object.now ≢ bytes ++ seal.now }
{
    if object.len() < SEAL_LENGTH {
        return None;
    }
    let length = object.len() - SEAL_LENGTH;
    object[length..].starts_with(seal).then_some(length)
}

// Whether a part of a number is the last one, where its index is this.
fn is_last_at(number: u32, index: u32) -> Option<bool>
    ensures some { IfSome result (λ is_last. number ≡ number_of is_last index) }
    ensures none { (result ≡ None) → (is_last : Bool) → number ≢ number_of is_last index }
{
    if number == index {
        return Some(false);
    }
    (number.checked_sub(index) == Some(LAST_PART)).then_some(true)
}

/// Whether an object is the last part, and how many bytes it has, where it is the one behind parts of some
/// names that a head says: by its number, its stream, and the seal of the last one. Refuses
/// [`Error::OutOfMemory`] alone.
pub(crate) fn part_behind(
    names: &Names,
    head: &Head,
    object: &[u8],
) -> Result<Option<(bool, usize)>, Error>
    requires named { name_of_part head.now.number head.now.configuration object.now ≡ head.now.name }
    ensures part { IfOk result (λ o. (before : List (List ℕ)) → AreNames before names.now → IsPartWhere before head.now object.now o) }
    ensures memory { IfErr result (λ e. e ≡ Error.OutOfMemory) }
{
    let Some(is_last) = is_last_at(head.number, names.count) else {
        return Ok(None);
    };
    if head.stream != names.stream_behind(&head.name) {
        return Ok(None);
    }
    if !is_last {
        return Ok(Some((false, object.len())));
    }
    let seal = names.seal()?;
    match length_before_seal(object, &seal) {
        Some(length) => Ok(Some((true, length))),
        None => Ok(None),
    }
}
