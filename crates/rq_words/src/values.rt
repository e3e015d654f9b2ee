//! What the values of options say.
ghost use Rattle.std.specs.Prelude.{◌≡◌, ◌<◌, ◌≤◌, option_map, IfOk, IfSome};
ghost use Rattle.rq_words.specs.Values.{up_to, part_of, guarded_part_of, window_of, symbol_size_of, percent_of, packets_of, loss_of, repair_of, rounds_of, times_of, rate_of, id_of, share_of, sized, is_refused, name_of, timeout_of, shards_of};

use crate::jobs::Rounds;
use crate::numbers::{count, scaled};
use hex::FromHexError;
use raptorq::base::ENCODING_SYMBOL_IDS;
use rq_cast::{Loss, Repair};
use std::alloc::{AllocError, Global};

// How many bytes a part has at most: with the seal of the last one an object has no more.
const LONGEST_PART: u64 = 942_574_504_243;

// How many bytes a part has at most that is one block, with a seal behind those of the last one.
const LONGEST_GUARDED_PART: u64 = 1_006_632_928;

/// How many parts a window has at most.
pub const WIDEST_WINDOW: u32 = 1024;

// How many shards there are at most.
const MOST_SHARDS: u64 = 255;

// How many seconds a stream may be silent at most: a day.
const LONGEST_TIMEOUT: u64 = 86_400;

// How many bytes a cell has beside its symbol, and at most.
const BESIDE_SYMBOL: u64 = 64;

const LONGEST_CELL: u64 = 65_599;

// How many hundred-thousandths of all are lost at most: half.
const GREATEST_LOSS: u32 = 50_000;

// How often a stream is sent at most, where it isn't endless.
const MOST_ROUNDS: u64 = 4_294_967_295;

// How many bytes name a stream.
const LONGEST_NAME: usize = 8;

// A number from 1 to a greatest one.
#[tactic(auto, using(std::proofs::lemmas::Bool::Decides::nat_tests), unfolding(crate::specs::Values::up_to))]
fn up_to(most: u64, text: &str) -> Option<u64>
    ensures value { result ≡ up_to most text.now }
    ensures some { IfSome result (λ n. 0 < n) }
    ensures most { IfSome result (λ n. n ≤ most) }
{
    match count(text) {
        Some(n) if n > 0 && n <= most => Some(n),
        _ => None,
    }
}

/// How many bytes a part has: not 0, and at most so many as an object has without a seal.
#[tactic(auto, unfolding(crate::specs::Values::part_of))]
pub(crate) fn part(text: &str) -> Option<u64>
    ensures value { result ≡ part_of text.now }
    ensures some { IfSome result (λ bytes. 0 < bytes) }
{
    up_to(LONGEST_PART, text)
}

/// How many bytes a part has that is guarded: not 0, and at most so many as one block has without a seal.
#[tactic(auto, unfolding(crate::specs::Values::guarded_part_of))]
pub(crate) fn guarded_part(text: &str) -> Option<u64>
    ensures value { result ≡ guarded_part_of text.now }
    ensures some { IfSome result (λ bytes. 0 < bytes) }
{
    up_to(LONGEST_GUARDED_PART, text)
}

/// How many parts a window has, from 1 to 1024.
#[tactic(auto, unfolding(crate::specs::Values::window_of))]
pub(crate) fn window(text: &str) -> Option<u32>
    ensures value { result ≡ window_of text.now }
    ensures some { IfSome result (λ parts. 0 < parts) }
{
    Some(up_to(u64::from(WIDEST_WINDOW), text)? as u32)
}

/// How many shards a text says, not fewer than so many, up to 255.
#[tactic(auto, using(std::proofs::lemmas::Bool::Decides::nat_tests), unfolding(crate::specs::Values::shards_of))]
pub(crate) fn shards(least: u8, text: &str) -> Option<u8>
    ensures { result ≡ shards_of least text.now }
{
    match up_to(MOST_SHARDS, text) {
        Some(n) if n >= u64::from(least) => Some(n as u8),
        _ => None,
    }
}

/// How many seconds a text says, up to those of a day.
#[tactic(auto, unfolding(crate::specs::Values::timeout_of))]
pub(crate) fn timeout(text: &str) -> Option<u64>
    ensures { result ≡ timeout_of text.now }
{
    up_to(LONGEST_TIMEOUT, text)
}

/// The most bytes of a symbol, where a cell has as many as a text says: from 65 to 65599.
#[tactic(auto, using(std::proofs::lemmas::Bool::Decides::nat_tests), unfolding(crate::specs::Values::symbol_size_of))]
pub(crate) fn symbol_size(text: &str) -> Option<u16>
    ensures { result ≡ symbol_size_of text.now }
{
    match count(text) {
        Some(size) if size > BESIDE_SYMBOL && size <= LONGEST_CELL => {
            Some((size - BESIDE_SYMBOL) as u16)
        }
        _ => None,
    }
}

// So many percent, in hundred-thousandths.
#[tactic(auto, unfolding(crate::specs::Values::percent_of))]
fn percent(text: &str) -> Option<u32>
    ensures { result ≡ percent_of text.now }
{
    u32::try_from(scaled(text, 3)?).ok()
}

// A number of packets.
#[tactic(auto, unfolding(crate::specs::Values::packets_of))]
fn packets(text: &str) -> Option<u32>
    ensures { result ≡ packets_of text.now }
{
    u32::try_from(count(text)?).ok()
}

/// The part of all cells that is lost, in percent, up to 50.
#[tactic(auto, using(std::proofs::lemmas::Bool::Decides::nat_tests), unfolding(crate::specs::Values::loss_of))]
pub(crate) fn loss(text: &str) -> Option<Loss>
    ensures { result ≡ loss_of text.now }
{
    match percent(text) {
        Some(parts) if parts <= GREATEST_LOSS => Some(Loss { parts }),
        _ => None,
    }
}

/// How many repair packets a text asks for: a number, one with a percent sign behind it, or all.
#[tactic(auto, unfolding(crate::specs::Values::repair_of))]
pub(crate) fn repair(text: &str) -> Option<Repair>
    ensures { result ≡ repair_of text.now }
{
    if text == "all" {
        return Some(Repair::All);
    }
    match text.strip_suffix('%') {
        Some(number) => Some(Repair::Share(percent(number)?)),
        None => Some(Repair::Packets(packets(text)?)),
    }
}

/// How often a text asks for: a number from 1 on, of 32 bits, or endless.
#[tactic(auto, unfolding(crate::specs::Values::rounds_of))]
pub(crate) fn rounds(text: &str) -> Option<Rounds>
    ensures value { result ≡ rounds_of text.now }
    ensures some { IfSome result (λ rounds. 0 < times_of rounds) }
{
    if text == "endless" {
        return Some(Rounds::Endless);
    }
    Some(Rounds::Times(up_to(MOST_ROUNDS, text)? as u32))
}

/// How many bits a second a text asks for, not 0.
#[tactic(auto, using(std::proofs::lemmas::Bool::Decides::nat_tests), unfolding(crate::specs::Values::rate_of))]
pub(crate) fn rate(text: &str) -> Option<u64>
    ensures { result ≡ rate_of text.now }
{
    match count(text) {
        Some(rate) if rate > 0 => Some(rate),
        _ => None,
    }
}

/// An encoding symbol id, of 24 bits.
#[tactic(auto, using(std::proofs::lemmas::Bool::Decides::nat_tests), unfolding(crate::specs::Values::id_of))]
pub(crate) fn id(text: &str) -> Option<u32>
    ensures value { result ≡ id_of text.now }
    ensures few { IfSome result (λ id. id < 16777216) }
{
    match count(text) {
        Some(id) if id < u64::from(ENCODING_SYMBOL_IDS) => Some(id as u32),
        _ => None,
    }
}

/// Which sender it is, from 0, and of how many.
#[tactic(auto, unfolding(crate::specs::Values::share_of))]
pub(crate) fn share(text: &str) -> Option<(u32, u32)>
    ensures value { result ≡ share_of text.now }
    ensures below { IfSome result (λ share. share.0 < share.1) }
    ensures few { IfSome result (λ share. share.1 < 16777216) }
{
    let (number, all) = text.split_once('/')?;
    match (id(number), id(all)) {
        (Some(number), Some(all)) if number < all => Some((number, all)),
        _ => None,
    }
}

// Bytes, where a name and a configuration may begin with so many.
#[tactic(auto, using(std::proofs::lemmas::Bool::Decides::nat_tests))]
fn sized(bytes: Vec<u8>) -> Option<Vec<u8>>
    ensures { option_map (λ v. v.items) result ≡ sized bytes.items }
{
    if bytes.len() > 0 && bytes.len() <= LONGEST_NAME {
        Some(bytes)
    } else {
        None
    }
}

// Whether memory was refused for a text's bytes.
fn is_refused(error: &FromHexError) -> bool
    ensures { result ≡ is_refused error.now }
{
    matches!(error, FromHexError::OutOfMemory)
}

/// How a stream begins: 1 to 8 bytes, in two hexadecimal digits each.
pub(crate) fn name(alloc: Global, text: &str) -> Result<Option<Vec<u8>>, AllocError>
    ensures { IfOk result (λ name. option_map (λ v. v.items) name ≡ name_of text.now) }
{
    match hex::decode(alloc, text) {
        Ok(bytes) => Ok(sized(bytes)),
        Err(error) if is_refused(&error) => Err(AllocError),
        Err(_) => Ok(None),
    }
}
