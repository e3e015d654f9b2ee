//! What the words behind `receive` ask for.
ghost use Rattle.std.specs.Prelude.{◌≡◌, ◌<◌, map, option_map, IfOk};
ghost use Rattle.std.specs.Result.{result_map_both};
ghost use Rattle.clap.specs.Words.{FailsBy, found_of, rows_of};
ghost use Rattle.rq_words.specs.Asked.{asked, kinds_of, name_asked, passed_asked, which_asked, follow_asked, timeout_asked, window_asked, receiving_asked, following_asked, receive_asked, IsReceivedOf, StepsOn, HasParts, HasRounds};
ghost use Rattle.rq_options.specs.Options.{misuse_kind};

use crate::jobs::{FollowJob, Job, ReceiveJob, Telling};
use crate::values;
use crate::words::telling_of;
use clap::error::ErrorKind;
use clap::{ArgMatches, Error};
use rq_options::{Misuse, Verb, is_flagged, text_of, text_or, texts_of};
use std::alloc::{AllocError, Global};

// How many names are passed over at most.
const MOST_PASSED: usize = 64;

// How the stream begins.
#[tactic(auto, unfolding(crate::specs::Asked::name_asked))]
fn name_of<'a>(
    alloc: Global,
    matches: &ArgMatches<'a>,
) -> Result<Result<Vec<u8>, Misuse<'a>>, AllocError>
    ensures { IfOk result (λ name. asked (result_map_both (λ v. v.items) (λ misuse. misuse) name) ≡ name_asked (rows_of (found_of matches.now))) }
{
    let Some(text) = text_of(matches, "name") else {
        return Ok(Ok(Vec::new(alloc)));
    };
    Ok(values::name(alloc, text)?.ok_or(Misuse::Value {
        option: "--name <HEX>",
        takes: "2 to 16 hexadecimal digits, an even number of them",
        text,
    }))
}

// A value of `--not` that is refused.
fn no_name(text: &str) -> Misuse<'_>
    ensures { misuse_kind result ≡ ErrorKind.ValueValidation }
{
    Misuse::Value {
        option: "--not <HEX>",
        takes: "2 to 16 hexadecimal digits, an even number of them, 64 times at most",
        text,
    }
}

// How the streams begin that are passed over.
#[tactic(auto, unfolding(crate::specs::Asked::passed_asked))]
fn passed_of<'a>(
    alloc: Global,
    matches: &ArgMatches<'a>,
) -> Result<Result<Vec<Vec<u8>>, Misuse<'a>>, AllocError>
    ensures { IfOk result (λ passed. asked (result_map_both (λ v. map (λ n. n.items) v.items) (λ misuse. misuse) passed)
        ≡ passed_asked (rows_of (found_of matches.now))) }
{
    let texts = texts_of(alloc, matches, "not")?;
    if let Some(text) = texts.get(MOST_PASSED) {
        return Ok(Err(no_name(text)));
    }
    let mut passed = Vec::new(alloc);
    'names: for text in &texts {
        let Some(name) = values::name(alloc, text)? else {
            return Ok(Err(no_name(text)));
        };
        passed.push(name)?;
    }
    Ok(Ok(passed))
}

// How the stream begins that is received, and those that are passed over.
fn which_of<'a>(
    alloc: Global,
    matches: &ArgMatches<'a>,
) -> Result<Result<(Vec<u8>, Vec<Vec<u8>>), Misuse<'a>>, AllocError>
    ensures { IfOk result (λ which. asked (result_map_both (λ v. (v.0.items, map (λ n. n.items) v.1.items)) (λ misuse. misuse) which)
        ≡ which_asked (rows_of (found_of matches.now))) }
{
    let name = match name_of(alloc, matches)? {
        Ok(name) => name,
        Err(misuse) => return Ok(Err(misuse)),
    };
    Ok(match passed_of(alloc, matches)? {
        Ok(passed) => Ok((name, passed)),
        Err(misuse) => Err(misuse),
    })
}

// The folder of streams that are received one after another.
#[tactic(auto, unfolding(crate::specs::Asked::follow_asked))]
fn follow_of<'a>(matches: &ArgMatches<'a>) -> Result<Option<&'a str>, Misuse<'a>>
    ensures { asked (result_map_both (option_map (λ s. s.now)) (λ misuse. misuse) result) ≡ follow_asked (rows_of (found_of matches.now)) }
{
    if !is_flagged(matches, "follow") {
        return Ok(None);
    }
    let Some(folder) = text_of(matches, "output") else {
        return Err(Misuse::Alone {
            option: "--follow",
            missing: "'--output <FILE>'",
            reason: "the folder in which each stream becomes a file",
        });
    };
    let other = match (text_of(matches, "name"), text_of(matches, "state")) {
        (None, None) => return Ok(Some(folder)),
        (Some(_), _) => "--name <HEX>",
        (None, Some(_)) => "--state <FILE>",
    };
    Err(Misuse::Together {
        one: "--follow",
        other,
    })
}

// For how many seconds a stream may be silent.
#[tactic(auto, unfolding(crate::specs::Asked::timeout_asked))]
fn timeout_of<'a>(matches: &ArgMatches<'a>) -> Result<Option<u64>, Misuse<'a>>
    ensures { asked result ≡ timeout_asked (rows_of (found_of matches.now)) }
{
    let Some(text) = text_of(matches, "timeout") else {
        return Ok(None);
    };
    let Some(seconds) = values::timeout(text) else {
        return Err(Misuse::Value {
            option: "--timeout <SECONDS>",
            takes: "a number from 1 to 86400",
            text,
        });
    };
    if is_flagged(matches, "follow") {
        return Ok(Some(seconds));
    }
    Err(Misuse::Alone {
        option: "--timeout <SECONDS>",
        missing: "'--follow'",
        reason: "another stream is received in its place, into a file of its own",
    })
}

// How many parts are kept at once.
#[tactic(auto, unfolding(crate::specs::Asked::window_asked))]
fn window_of<'a>(matches: &ArgMatches<'a>) -> Result<u32, Misuse<'a>>
    ensures value { asked result ≡ window_asked (rows_of (found_of matches.now)) }
    ensures some { IfOk result (λ parts. 0 < parts) }
{
    let text = text_or(matches, "window", "");
    values::window(text).ok_or(Misuse::Value {
        option: "--window <PARTS>",
        takes: "a number from 1 to 1024",
        text,
    })
}

// How long one may be silent, how many parts are kept, and what is told.
fn receiving_of<'a>(matches: &ArgMatches<'a>) -> Result<(Option<u64>, (u32, Telling)), Misuse<'a>>
    ensures value { asked result ≡ receiving_asked (rows_of (found_of matches.now)) }
    ensures some { IfOk result (λ receiving. 0 < receiving.1.0) }
{
    let timeout = timeout_of(matches)?;
    let window = window_of(matches)?;
    let telling = telling_of(matches)?;
    Ok((timeout, (window, telling)))
}

// Where to streams are received one after another, and the same.
fn following_of<'a>(
    matches: &ArgMatches<'a>,
) -> Result<(Option<&'a str>, (Option<u64>, (u32, Telling))), Misuse<'a>>
    ensures value { asked (result_map_both (λ v. (option_map (λ s. s.now) v.0, v.1)) (λ misuse. misuse) result) ≡ following_asked (rows_of (found_of matches.now)) }
    ensures some { IfOk result (λ following. 0 < following.1.1.0) }
{
    let folder = follow_of(matches)?;
    Ok((folder, receiving_of(matches)?))
}

/// Which stream is received, or that all are, and where from and to.
pub(crate) fn receive_job<'a>(alloc: Global, matches: &ArgMatches<'a>) -> Result<Job<'a>, Error>
    ensures job { IfOk result (IsReceivedOf (rows_of (found_of matches.now))) }
    ensures parts { IfOk result HasParts }
    ensures steps { IfOk result StepsOn }
    ensures rounds { IfOk result HasRounds }
    ensures fails { FailsBy (kinds_of (receive_asked (rows_of (found_of matches.now)))) result }
{
    let (name, passed) = match which_of(alloc, matches)? {
        Ok(which) => which,
        Err(misuse) => return Err(misuse.error(alloc, Verb::Receive)),
    };
    let (folder, (timeout, (window, telling))) = match following_of(matches) {
        Ok(following) => following,
        Err(misuse) => return Err(misuse.error(alloc, Verb::Receive)),
    };
    let files = texts_of(alloc, matches, "cells")?;
    let key = text_of(matches, "key");
    let output = text_of(matches, "output");
    let state = text_of(matches, "state");
    match folder {
        Some(folder) => Ok(Job::Follow(FollowJob {
            passed,
            window,
            key,
            folder,
            timeout,
            files,
            telling,
        })),
        None => Ok(Job::Receive(ReceiveJob {
            name,
            passed,
            window,
            key,
            output,
            state,
            files,
            telling,
        })),
    }
}
