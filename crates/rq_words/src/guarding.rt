//! What the words of `protect`, `check` and `repair` ask for.
ghost use Rattle.std.specs.Prelude.{◌≡◌, ◌<◌, option_map, IfOk};
ghost use Rattle.std.specs.Result.{result_map_both};
ghost use Rattle.clap.specs.Words.{FailsBy, first_of, found_of, rows_of};
ghost use Rattle.rq_words.specs.Asked.{asked, kinds_of, guarded_part_asked, guard_repair_asked, guarding_asked, guarded_file_asked, guarded_asked, protected_file_asked, protected_asked, protect_asked, IsProtectOf, IsCheckOf, IsRepairOf};

use crate::jobs::{CheckJob, ProtectJob, RepairJob, Telling};
use crate::values;
use crate::words::telling_of;
use clap::{ArgMatches, Error};
use rq_cast::Repair;
use rq_options::{Misuse, Verb, text_of, text_or};
use std::alloc::Global;

// How many bytes a part has.
#[tactic(auto, unfolding(crate::specs::Asked::guarded_part_asked))]
fn part_of<'a>(matches: &ArgMatches<'a>) -> Result<u64, Misuse<'a>>
    ensures value { asked result ≡ guarded_part_asked (rows_of (found_of matches.now)) }
    ensures some { IfOk result (λ bytes. 0 < bytes) }
{
    let text = text_or(matches, "part", "");
    values::guarded_part(text).ok_or(Misuse::Value {
        option: "--part <BYTES>",
        takes: "a number from 1 to 1006632928, as 250M",
        text,
    })
}

// How many repair packets a part has.
#[tactic(auto, unfolding(crate::specs::Asked::guard_repair_asked))]
fn repair_of<'a>(matches: &ArgMatches<'a>) -> Result<Repair, Misuse<'a>>
    ensures { asked result ≡ guard_repair_asked (rows_of (found_of matches.now)) }
{
    let text = text_or(matches, "repair", "");
    values::repair(text).ok_or(Misuse::Value {
        option: "--repair <N|N%|all>",
        takes: "a number, a percentage as 15%, or all",
        text,
    })
}

// How many bytes a part has, and how many repair packets.
fn guarding_of<'a>(matches: &ArgMatches<'a>) -> Result<(u64, Repair), Misuse<'a>>
    ensures value { asked result ≡ guarding_asked (rows_of (found_of matches.now)) }
    ensures some { IfOk result (λ guarding. 0 < guarding.0) }
{
    let part = part_of(matches)?;
    Ok((part, repair_of(matches)?))
}

// The file that has a guard.
#[tactic(auto, unfolding(crate::specs::Asked::guarded_file_asked))]
fn file_of<'a>(matches: &ArgMatches<'a>) -> Result<&'a str, Misuse<'a>>
    ensures { asked (result_map_both (λ s. s.now) (λ misuse. misuse) result) ≡ guarded_file_asked (rows_of (found_of matches.now)) }
{
    text_of(matches, "file").ok_or(Misuse::Alone {
        option: "<FILE>",
        missing: "name",
        reason: "a guard is of a file",
    })
}

// The same, and what is told.
fn guarded_of<'a>(matches: &ArgMatches<'a>) -> Result<(&'a str, Telling), Misuse<'a>>
    ensures { asked (result_map_both (λ v. (v.0.now, v.1)) (λ misuse. misuse) result) ≡ guarded_asked (rows_of (found_of matches.now)) }
{
    let file = file_of(matches)?;
    Ok((file, telling_of(matches)?))
}

// The file, where its guard is put in another place.
#[tactic(auto, unfolding(crate::specs::Asked::protected_file_asked))]
fn protected_file_of<'a>(matches: &ArgMatches<'a>) -> Result<&'a str, Misuse<'a>>
    ensures { asked (result_map_both (λ s. s.now) (λ misuse. misuse) result) ≡ protected_file_asked (rows_of (found_of matches.now)) }
{
    let file = file_of(matches)?;
    let Some(text) = text_of(matches, "output") else {
        return Ok(file);
    };
    if text == file {
        return Err(Misuse::Value {
            option: "--output <GUARD>",
            takes: "another file than FILE",
            text,
        });
    }
    Ok(file)
}

// The same, and what is told.
fn protected_of<'a>(matches: &ArgMatches<'a>) -> Result<(&'a str, Telling), Misuse<'a>>
    ensures { asked (result_map_both (λ v. (v.0.now, v.1)) (λ misuse. misuse) result) ≡ protected_asked (rows_of (found_of matches.now)) }
{
    let file = protected_file_of(matches)?;
    Ok((file, telling_of(matches)?))
}

// How which file is guarded.
fn protecting_of<'a>(
    matches: &ArgMatches<'a>,
) -> Result<((u64, Repair), (&'a str, Telling)), Misuse<'a>>
    ensures value { asked (result_map_both (λ v. (v.0, (v.1.0.now, v.1.1))) (λ misuse. misuse) result) ≡ protect_asked (rows_of (found_of matches.now)) }
    ensures some { IfOk result (λ protecting. 0 < protecting.0.0) }
{
    let guarding = guarding_of(matches)?;
    Ok((guarding, protected_of(matches)?))
}

/// What `protect` asks for.
pub(crate) fn protect_job<'a>(
    alloc: Global,
    matches: &ArgMatches<'a>,
) -> Result<ProtectJob<'a>, Error>
    ensures job { IfOk result (IsProtectOf (rows_of (found_of matches.now))) }
    ensures parts { IfOk result (λ job. 0 < job.part) }
    ensures fails { FailsBy (kinds_of (protect_asked (rows_of (found_of matches.now)))) result }
{
    match protecting_of(matches) {
        Ok(((part, repair), (file, telling))) => Ok(ProtectJob {
            part,
            repair,
            key: text_of(matches, "key"),
            file,
            output: text_of(matches, "output"),
            telling,
        }),
        Err(misuse) => Err(misuse.error(alloc, Verb::Protect)),
    }
}

/// What `check` asks for.
pub(crate) fn check_job<'a>(alloc: Global, matches: &ArgMatches<'a>) -> Result<CheckJob<'a>, Error>
    ensures job { IfOk result (IsCheckOf (rows_of (found_of matches.now))) }
    ensures fails { FailsBy (kinds_of (guarded_asked (rows_of (found_of matches.now)))) result }
{
    match guarded_of(matches) {
        Ok((file, telling)) => Ok(CheckJob {
            key: text_of(matches, "key"),
            file,
            guard: text_of(matches, "guard"),
            telling,
        }),
        Err(misuse) => Err(misuse.error(alloc, Verb::Check)),
    }
}

/// What `repair` asks for.
pub(crate) fn repair_job<'a>(
    alloc: Global,
    matches: &ArgMatches<'a>,
) -> Result<RepairJob<'a>, Error>
    ensures job { IfOk result (IsRepairOf (rows_of (found_of matches.now))) }
    ensures fails { FailsBy (kinds_of (guarded_asked (rows_of (found_of matches.now)))) result }
{
    match guarded_of(matches) {
        Ok((file, telling)) => Ok(RepairJob {
            key: text_of(matches, "key"),
            file,
            guard: text_of(matches, "guard"),
            output: text_of(matches, "output"),
            telling,
        }),
        Err(misuse) => Err(misuse.error(alloc, Verb::Repair)),
    }
}
