//! What the parser finds among the words.
ghost use Rattle.std.specs.Prelude.{◌≡◌, List, map, option_map, IfOk};
ghost use Rattle.clap.specs.Words.{FailsBy, first_of, found_of, rows_of, subcommand_rows_of};
ghost use Rattle.rq_options.specs.Definition.{faults_of};
ghost use Rattle.rq_options.specs.Options.{verb_named, verb_in, verb_used, text_or, is_flagged, texts_of};

use crate::definition;
use clap::{ArgMatches, Error};
use std::alloc::{AllocError, Global};
use std::convert::AsStr;

/// A subcommand.
#[derive(Clone, Copy, Debug, PartialEq, Eq)]
pub enum Verb {
    /// `send`.
    Send,
    /// `receive`.
    Receive,
    /// `info`.
    Info,
    /// `protect`.
    Protect,
    /// `check`.
    Check,
    /// `repair`.
    Repair,
    /// `split`.
    Split,
    /// `join`.
    Join,
}

/// What the parser finds among the words after the program's name. Its errors are those of clap, requests
/// for help and the version among them.
pub fn matches_of<'a, S: AsStr>(alloc: Global, words: &'a [S]) -> Result<ArgMatches<'a>, Error>
    ensures fails { FailsBy (faults_of (map S.text words.entry.now)) result }
    ensures used { IfOk result (λ m. verb_in m ≡ verb_used (map S.text words.entry.now)) }
{
    definition::program(alloc)?.try_get_matches_from(words)
}

// The name of the subcommand, and what stands behind it.
fn subcommand_of<'a, 'b>(matches: &'b ArgMatches<'a>) -> Option<(&'a str, &'b ArgMatches<'a>)>
    ensures { option_map (λ s. (s.0.now, rows_of (found_of s.1.now))) result ≡ subcommand_rows_of matches.now }
{
    matches.subcommand()
}

// The subcommand of a name.
#[tactic(auto, unfolding(crate::specs::Options::verb_named))]
fn verb_of(name: &str) -> Option<Verb>
    ensures { result ≡ verb_named name.now }
{
    if name == "send" {
        return Some(Verb::Send);
    }
    if name == "receive" {
        return Some(Verb::Receive);
    }
    if name == "info" {
        return Some(Verb::Info);
    }
    if name == "protect" {
        return Some(Verb::Protect);
    }
    if name == "check" {
        return Some(Verb::Check);
    }
    if name == "repair" {
        return Some(Verb::Repair);
    }
    if name == "split" {
        return Some(Verb::Split);
    }
    if name == "join" {
        return Some(Verb::Join);
    }
    None
}

/// The subcommand that is used, and what stands behind it.
pub fn used<'a, 'b>(matches: &'b ArgMatches<'a>) -> Option<(Verb, &'b ArgMatches<'a>)>
    ensures { option_map (λ s. (s.0, rows_of (found_of s.1.now))) result ≡ verb_in matches.now }
{
    let (name, behind) = subcommand_of(matches)?;
    let verb = verb_of(name)?;
    Some((verb, behind))
}

/// The text of an option, where it has one.
pub fn text_of<'a>(matches: &ArgMatches<'a>, id: &str) -> Option<&'a str>
    ensures { option_map (λ s. s.now) result ≡ first_of id.now (rows_of (found_of matches.now)) }
{
    matches.get_str(id)
}

/// The text of an option, or another one where it has none.
pub fn text_or<'a>(matches: &ArgMatches<'a>, id: &str, other: &'a str) -> &'a str
    ensures { result.now ≡ text_or (rows_of (found_of matches.now)) id.now other.entry.now }
{
    match text_of(matches, id) {
        Some(text) => text,
        None => other,
    }
}

/// Whether a flag is there: the parser makes its value `true` then.
pub fn is_flagged(matches: &ArgMatches<'_>, id: &str) -> bool
    ensures { result ≡ is_flagged (rows_of (found_of matches.now)) id.now }
{
    match text_of(matches, id) {
        Some(text) => text == "true",
        None => false,
    }
}

/// The texts of an argument.
pub fn texts_of<'a>(
    alloc: Global,
    matches: &ArgMatches<'a>,
    id: &str,
) -> Result<Vec<&'a str>, AllocError>
    ensures { IfOk result (λ v. map (λ s. s.now) v.items ≡ texts_of (rows_of (found_of matches.now)) id.now) }
{
    match matches.get_strs(id) {
        Some(texts) => Vec::from_slice(alloc, texts),
        None => Ok(Vec::new(alloc)),
    }
}
