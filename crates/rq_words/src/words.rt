//! What the program's words ask for.
ghost use Rattle.std.specs.Prelude.{◌≡◌, ◌<◌, codes, map, option_map, IfOk, IfErr};
ghost use Rattle.clap.specs.Words.{FailsBy, first_of, found_of, kind_of, rows_of};
ghost use Rattle.rq_words.specs.Values.{loss_of, repair_of, times_of};
ghost use Rattle.rq_words.specs.Asked.{asked, kinds_of, valued, part_asked, symbol_size_asked, repair_asked, rate_asked, with_file, rounds_asked, share_asked, from_asked, ids_asked, order_asked, telling_asked, course_asked, send_asked, IsSendOf, IsInfoOf, AsksFor, StepsOn, HasParts, HasRounds, IsRefused};
ghost use Rattle.rq_options.specs.Options.{misuse_kind};

use crate::guarding::{check_job, protect_job, repair_job};
use crate::jobs::{InfoJob, Job, Rounds, SendJob, Telling};
use crate::receiving::receive_job;
use crate::splitting::{join_job, split_job};
use crate::values;
use clap::error::ErrorKind;
use clap::{ArgMatches, Error};
use rq_cast::{Ids, Order, Repair};
use rq_options::{
    Misuse, Verb, is_flagged, matches_of, no_subcommand, text_of, text_or, texts_of, used,
};
use std::alloc::Global;
use std::convert::AsStr;

// The loss that is lived through where no word says one.
const USUAL_LOSS: &str = "5";

// How many bytes a part has.
#[tactic(auto, unfolding(crate::specs::Asked::part_asked))]
pub(crate) fn part_of<'a>(matches: &ArgMatches<'a>) -> Result<u64, Misuse<'a>>
    ensures value { asked result ≡ part_asked (rows_of (found_of matches.now)) }
    ensures some { IfOk result (λ bytes. 0 < bytes) }
{
    let text = text_or(matches, "part", "");
    values::part(text).ok_or(Misuse::Value {
        option: "--part <BYTES>",
        takes: "a number from 1 to 942574504243, as 16M",
        text,
    })
}

// How many bytes a symbol has at most.
#[tactic(auto, unfolding(crate::specs::Asked::symbol_size_asked))]
pub(crate) fn symbol_size_of<'a>(matches: &ArgMatches<'a>) -> Result<u16, Misuse<'a>>
    ensures { asked result ≡ symbol_size_asked (rows_of (found_of matches.now)) }
{
    let text = text_or(matches, "cell", "");
    values::symbol_size(text).ok_or(Misuse::Value {
        option: "--cell <BYTES>",
        takes: "a number from 65 to 65599",
        text,
    })
}

// How many repair packets there are.
#[tactic(auto, unfolding(crate::specs::Asked::repair_asked))]
fn repair_of<'a>(matches: &ArgMatches<'a>) -> Result<Repair, Misuse<'a>>
    ensures { asked result ≡ repair_asked (rows_of (found_of matches.now)) }
{
    match (text_of(matches, "loss"), text_of(matches, "repair")) {
        (Some(_), Some(_)) => Err(Misuse::Together {
            one: "--loss <PERCENT>",
            other: "--repair <N|N%|all>",
        }),
        (None, Some(text)) => repaired(text),
        (Some(text), None) => against(text),
        (None, None) => against(USUAL_LOSS),
    }
}

// As many as a text asks for.
fn repaired(text: &str) -> Result<Repair, Misuse<'_>>
    ensures { asked result ≡ valued (repair_of text.now) }
{
    values::repair(text).ok_or(Misuse::Value {
        option: "--repair <N|N%|all>",
        takes: "a number, a percentage as 15%, or all",
        text,
    })
}

// As many as a loss asks for.
fn against(text: &str) -> Result<Repair, Misuse<'_>>
    ensures { asked result ≡ valued (option_map (λ loss. Repair.Against loss) (loss_of text.now)) }
{
    values::loss(text)
        .map(Repair::Against)
        .ok_or(Misuse::Value {
            option: "--loss <PERCENT>",
            takes: "a percentage up to 50, as 5 or 0.5",
            text,
        })
}

// How many bits a second are sent at most, where that is said.
#[tactic(auto, unfolding(crate::specs::Asked::rate_asked))]
fn rate_of<'a>(matches: &ArgMatches<'a>) -> Result<Option<u64>, Misuse<'a>>
    ensures { asked result ≡ rate_asked (rows_of (found_of matches.now)) }
{
    let Some(text) = text_of(matches, "rate") else {
        return Ok(None);
    };
    values::rate(text).map(Some).ok_or(Misuse::Value {
        option: "--rate <BITS>",
        takes: "bits a second, as 400M or 0.5G, not 0",
        text,
    })
}

// Which sender this is, and of how many.
#[tactic(auto, unfolding(crate::specs::Asked::share_asked))]
fn share_of<'a>(matches: &ArgMatches<'a>) -> Result<(u32, u32), Misuse<'a>>
    ensures value { asked result ≡ share_asked (rows_of (found_of matches.now)) }
    ensures below { IfOk result (λ share. share.0 < share.1) }
    ensures few { IfOk result (λ share. share.1 < 16777216) }
{
    let Some(text) = text_of(matches, "share") else {
        return Ok((0, 1));
    };
    values::share(text).ok_or(Misuse::Value {
        option: "--share <I/N>",
        takes: "a number, a stroke and a greater one, as 3/20",
        text,
    })
}

// The first id.
#[tactic(auto, unfolding(crate::specs::Asked::from_asked))]
fn from_of<'a>(matches: &ArgMatches<'a>) -> Result<u32, Misuse<'a>>
    ensures value { asked result ≡ from_asked (rows_of (found_of matches.now)) }
    ensures few { IfOk result (λ id. id < 16777216) }
{
    let text = text_or(matches, "from", "0");
    values::id(text).ok_or(Misuse::Value {
        option: "--from <ID>",
        takes: "a number below 16777216",
        text,
    })
}

// So often, where a file is there that can be read again.
fn with_file<'a>(matches: &ArgMatches<'a>, rounds: Rounds) -> Result<Rounds, Misuse<'a>>
    requires { 0 < times_of rounds }
    ensures value { asked result ≡ with_file rounds (first_of (codes "file") (rows_of (found_of matches.now))) }
    ensures some { IfOk result (λ rounds. 0 < times_of rounds) }
{
    match text_of(matches, "file") {
        None if rounds.times() > 1 => Err(Misuse::Alone {
            option: "--rounds <N|endless>",
            missing: "FILE",
            reason: "standard input can't be read again",
        }),
        _ => Ok(rounds),
    }
}

// How often a stream is sent: once where no word says it.
#[tactic(auto, unfolding(crate::specs::Asked::rounds_asked))]
fn rounds_of<'a>(matches: &ArgMatches<'a>) -> Result<Rounds, Misuse<'a>>
    ensures value { asked result ≡ rounds_asked (rows_of (found_of matches.now)) }
    ensures some { IfOk result (λ rounds. 0 < times_of rounds) }
{
    let Some(text) = text_of(matches, "rounds") else {
        return Ok(Rounds::Times(1));
    };
    let rounds = values::rounds(text).ok_or(Misuse::Value {
        option: "--rounds <N|endless>",
        takes: "a number from 1 to 4294967295, or endless",
        text,
    })?;
    with_file(matches, rounds)
}

// Which ids are sent: of n senders each sends every nth one.
#[tactic(auto, unfolding(crate::specs::Asked::ids_asked))]
fn ids_of<'a>(matches: &ArgMatches<'a>) -> Result<Ids, Misuse<'a>>
    ensures steps { IfOk result (λ ids. 0 < ids.step) }
    ensures value { asked result ≡ ids_asked (rows_of (found_of matches.now)) }
{
    let (number, step) = share_of(matches)?;
    let from = from_of(matches)?;
    Ok(Ids {
        first: from + number,
        step,
        round: 0,
    })
}

// How a stream is sent.
#[tactic(auto, unfolding(crate::specs::Asked::order_asked))]
fn order_of<'a>(matches: &ArgMatches<'a>) -> Result<Order, Misuse<'a>>
    ensures parts { IfOk result (λ order. 0 < order.part) }
    ensures steps { IfOk result (λ order. 0 < order.ids.step) }
    ensures value { asked result ≡ order_asked (rows_of (found_of matches.now)) }
{
    let part = part_of(matches)?;
    let symbol_size = symbol_size_of(matches)?;
    let repair = repair_of(matches)?;
    let ids = ids_of(matches)?;
    Ok(Order {
        part,
        symbol_size,
        repair,
        ids,
    })
}

// What is told.
#[tactic(auto, unfolding(crate::specs::Asked::telling_asked))]
pub(crate) fn telling_of<'a>(matches: &ArgMatches<'a>) -> Result<Telling, Misuse<'a>>
    ensures { asked result ≡ telling_asked (rows_of (found_of matches.now)) }
{
    let quiet = is_flagged(matches, "quiet");
    let progress = is_flagged(matches, "progress");
    let json = is_flagged(matches, "json");
    match (quiet, progress, json) {
        (false, false, false) => Ok(Telling::Usual),
        (true, false, false) => Ok(Telling::Quiet),
        (false, true, false) => Ok(Telling::Progress),
        (false, false, true) => Ok(Telling::Json),
        (true, true, _) => Err(Misuse::Together {
            one: "--quiet",
            other: "--progress",
        }),
        (_, _, true) => Err(Misuse::Together {
            one: if quiet { "--quiet" } else { "--progress" },
            other: "--json",
        }),
    }
}

// How fast a stream is sent, how often, and what is told.
fn course_of<'a>(matches: &ArgMatches<'a>) -> Result<(Option<u64>, (Rounds, Telling)), Misuse<'a>>
    ensures value { asked result ≡ course_asked (rows_of (found_of matches.now)) }
    ensures rounds { IfOk result (λ course. 0 < times_of course.1.0) }
{
    let rate = rate_of(matches)?;
    let rounds = rounds_of(matches)?;
    let telling = telling_of(matches)?;
    Ok((rate, (rounds, telling)))
}

// How a stream is sent, and that.
fn sending_of<'a>(
    matches: &ArgMatches<'a>,
) -> Result<(Order, (Option<u64>, (Rounds, Telling))), Misuse<'a>>
    ensures parts { IfOk result (λ sending. 0 < sending.0.part) }
    ensures steps { IfOk result (λ sending. 0 < sending.0.ids.step) }
    ensures rounds { IfOk result (λ sending. 0 < times_of sending.1.1.0) }
    ensures value { asked result ≡ send_asked (rows_of (found_of matches.now)) }
{
    let order = order_of(matches)?;
    let course = course_of(matches)?;
    Ok((order, course))
}

// How a stream is sent, and which.
fn send_job<'a>(alloc: Global, matches: &ArgMatches<'a>) -> Result<SendJob<'a>, Error>
    ensures job { IfOk result (IsSendOf (rows_of (found_of matches.now))) }
    ensures parts { IfOk result (λ job. 0 < job.order.part) }
    ensures steps { IfOk result (λ job. 0 < job.order.ids.step) }
    ensures rounds { IfOk result (λ job. 0 < times_of job.rounds) }
    ensures fails { FailsBy (kinds_of (send_asked (rows_of (found_of matches.now)))) result }
{
    let (order, (rate, (rounds, telling))) = match sending_of(matches) {
        Ok(sending) => sending,
        Err(misuse) => return Err(misuse.error(alloc, Verb::Send)),
    };
    let files = texts_of(alloc, matches, "file")?;
    Ok(SendJob {
        order,
        rate,
        rounds,
        key: text_of(matches, "key"),
        files,
        telling,
    })
}

// Which bytes are looked through.
fn info_job<'a>(alloc: Global, matches: &ArgMatches<'a>) -> Result<InfoJob<'a>, Error>
    ensures job { IfOk result (IsInfoOf (rows_of (found_of matches.now))) }
    ensures fails { FailsBy (kinds_of (telling_asked (rows_of (found_of matches.now)))) result }
{
    let telling = match telling_of(matches) {
        Ok(telling) => telling,
        Err(misuse) => return Err(misuse.error(alloc, Verb::Info)),
    };
    let files = texts_of(alloc, matches, "cells")?;
    Ok(InfoJob {
        key: text_of(matches, "key"),
        files,
        telling,
    })
}

/// What the words after the program's name ask for, of those that `rqcast --help` names.
///
/// Refuses what the parser refuses, requests for help and the version among it. Then it refuses the first
/// of these: a value that its option doesn't take, of `--part`, `--cell`, `--loss` or `--repair`, `--share`,
/// `--from`, `--rate`, `--rounds`, `--name`, `--not`, `--follow`, `--timeout` and `--window` in this order, where
/// `--loss` beside `--repair` stands for theirs, `--rounds` of more than 1 without a file for its, and so do `--follow`
/// without `--output` or beside `--name` or `--state`, and `--timeout` without `--follow`; and two of `--quiet`, `--progress` and
/// `--json`. Of `protect` it is `--part`, `--repair`, `--output` where it names the guarded file, and two of these flags.
/// Of `split` it is `--need`, `--of`, `--part`, `--cell`, and two of them.
/// [`ErrorKind::OutOfMemory`](clap::error::ErrorKind) may come before any of them.
pub fn job<'a, S: AsStr>(alloc: Global, words: &'a [S]) -> Result<Job<'a>, Error>
    ensures job { IfOk result (AsksFor (map S.text words.entry.now)) }
    ensures parts { IfOk result HasParts }
    ensures steps { IfOk result StepsOn }
    ensures rounds { IfOk result HasRounds }
    ensures refused { IfErr result (λ e. IsRefused (map S.text words.entry.now) (kind_of e)) }
{
    let matches = matches_of(alloc, words)?;
    match used(&matches) {
        Some((Verb::Send, behind)) => Ok(Job::Send(send_job(alloc, behind)?)),
        Some((Verb::Receive, behind)) => receive_job(alloc, behind),
        Some((Verb::Info, behind)) => Ok(Job::Info(info_job(alloc, behind)?)),
        Some((Verb::Protect, behind)) => Ok(Job::Protect(protect_job(alloc, behind)?)),
        Some((Verb::Check, behind)) => Ok(Job::Check(check_job(alloc, behind)?)),
        Some((Verb::Repair, behind)) => Ok(Job::Repair(repair_job(alloc, behind)?)),
        Some((Verb::Split, behind)) => Ok(Job::Split(split_job(alloc, behind)?)),
        Some((Verb::Join, behind)) => Ok(Job::Join(join_job(alloc, behind)?)),
        // There are no others, and one is required.
        None => Err(no_subcommand(alloc)),
    }
}
