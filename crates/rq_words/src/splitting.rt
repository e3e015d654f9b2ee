//! What the words of `split` and `join` ask for.
ghost use Rattle.std.specs.Prelude.{◌≡◌, ◌<◌, IfOk};
ghost use Rattle.std.specs.Result.{result_map_both};
ghost use Rattle.clap.specs.Words.{FailsBy, found_of, rows_of};
ghost use Rattle.rq_words.specs.Asked.{asked, kinds_of, shares_asked, cut_asked, splitting_asked, folder_asked, joined_asked, pair_asked, split_file_asked, split_asked, IsSplitOf, IsJoinOf};

use crate::jobs::{ReceiveJob, SplitJob, Telling};
use crate::values;
use crate::values::WIDEST_WINDOW;
use crate::words::{part_of, symbol_size_of, telling_of};
use clap::{ArgMatches, Error};
use rq_cast::Shares;
use rq_options::{Misuse, Verb, text_of, text_or};
use std::alloc::Global;

// How many shards are enough, and how many there are.
#[tactic(auto, unfolding(crate::specs::Asked::shares_asked))]
fn shares_of<'a>(matches: &ArgMatches<'a>) -> Result<Shares, Misuse<'a>>
    ensures { asked result ≡ shares_asked (rows_of (found_of matches.now)) }
{
    let text = text_or(matches, "need", "");
    let needed = values::shards(1, text).ok_or(Misuse::Value {
        option: "--need <K>",
        takes: "a number from 1 to 255",
        text,
    })?;
    let text = text_or(matches, "of", "");
    let all = values::shards(needed, text).ok_or(Misuse::Value {
        option: "--of <N>",
        takes: "a number from that of --need to 255",
        text,
    })?;
    Ok(Shares { needed, all })
}

// How many bytes a part has, and a symbol at most.
fn cut_of<'a>(matches: &ArgMatches<'a>) -> Result<(u64, u16), Misuse<'a>>
    ensures value { asked result ≡ cut_asked (rows_of (found_of matches.now)) }
    ensures some { IfOk result (λ cut. 0 < cut.0) }
{
    let part = part_of(matches)?;
    Ok((part, symbol_size_of(matches)?))
}

// How a file is split.
fn splitting_of<'a>(matches: &ArgMatches<'a>) -> Result<(Shares, (u64, u16)), Misuse<'a>>
    ensures value { asked result ≡ splitting_asked (rows_of (found_of matches.now)) }
    ensures some { IfOk result (λ splitting. 0 < splitting.1.0) }
{
    let shares = shares_of(matches)?;
    Ok((shares, cut_of(matches)?))
}

// The folder of shards.
#[tactic(auto, unfolding(crate::specs::Asked::folder_asked))]
fn folder_of<'a>(matches: &ArgMatches<'a>) -> Result<&'a str, Misuse<'a>>
    ensures { asked (result_map_both (λ s. s.now) (λ misuse. misuse) result) ≡ folder_asked (rows_of (found_of matches.now)) }
{
    text_of(matches, "folder").ok_or(Misuse::Alone {
        option: "<FOLDER>",
        missing: "name",
        reason: "shards are in a folder",
    })
}

// The same, and what is told.
fn joined_of<'a>(matches: &ArgMatches<'a>) -> Result<(&'a str, Telling), Misuse<'a>>
    ensures { asked (result_map_both (λ v. (v.0.now, v.1)) (λ misuse. misuse) result) ≡ joined_asked (rows_of (found_of matches.now)) }
{
    let folder = folder_of(matches)?;
    Ok((folder, telling_of(matches)?))
}

// The file that is split.
#[tactic(auto, unfolding(crate::specs::Asked::split_file_asked))]
fn file_of<'a>(matches: &ArgMatches<'a>) -> Result<&'a str, Misuse<'a>>
    ensures { asked (result_map_both (λ s. s.now) (λ misuse. misuse) result) ≡ split_file_asked (rows_of (found_of matches.now)) }
{
    text_of(matches, "file").ok_or(Misuse::Alone {
        option: "<FILE>",
        missing: "name",
        reason: "shards are of a file",
    })
}

// The file, the folder, and what is told.
fn pair_of<'a>(matches: &ArgMatches<'a>) -> Result<(&'a str, (&'a str, Telling)), Misuse<'a>>
    ensures { asked (result_map_both (λ v. (v.0.now, (v.1.0.now, v.1.1))) (λ misuse. misuse) result) ≡ pair_asked (rows_of (found_of matches.now)) }
{
    let file = file_of(matches)?;
    Ok((file, joined_of(matches)?))
}

// How which file is split, and into what.
fn split_of<'a>(
    matches: &ArgMatches<'a>,
) -> Result<((Shares, (u64, u16)), (&'a str, (&'a str, Telling))), Misuse<'a>>
    ensures value { asked (result_map_both (λ v. (v.0, (v.1.0.now, (v.1.1.0.now, v.1.1.1)))) (λ misuse. misuse) result)
        ≡ split_asked (rows_of (found_of matches.now)) }
    ensures some { IfOk result (λ split. 0 < split.0.1.0) }
{
    let splitting = splitting_of(matches)?;
    Ok((splitting, pair_of(matches)?))
}

/// What `split` asks for.
pub(crate) fn split_job<'a>(alloc: Global, matches: &ArgMatches<'a>) -> Result<SplitJob<'a>, Error>
    ensures job { IfOk result (IsSplitOf (rows_of (found_of matches.now))) }
    ensures parts { IfOk result (λ job. 0 < job.part) }
    ensures fails { FailsBy (kinds_of (split_asked (rows_of (found_of matches.now)))) result }
{
    match split_of(matches) {
        Ok(((shares, (part, symbol_size)), (file, (folder, telling)))) => Ok(SplitJob {
            part,
            symbol_size,
            shares,
            key: text_of(matches, "key"),
            file,
            folder,
            telling,
        }),
        Err(misuse) => Err(misuse.error(alloc, Verb::Split)),
    }
}

/// What `join` asks for: any stream, by the widest window.
pub(crate) fn join_job<'a>(alloc: Global, matches: &ArgMatches<'a>) -> Result<ReceiveJob<'a>, Error>
    ensures job { IfOk result (IsJoinOf (rows_of (found_of matches.now))) }
    ensures window { IfOk result (λ job. 0 < job.window) }
    ensures fails { FailsBy (kinds_of (joined_asked (rows_of (found_of matches.now)))) result }
{
    let (folder, telling) = match joined_of(matches) {
        Ok(joined) => joined,
        Err(misuse) => return Err(misuse.error(alloc, Verb::Join)),
    };
    let files = Vec::from_slice(alloc, &[folder])?;
    Ok(ReceiveJob {
        name: Vec::new(alloc),
        passed: Vec::new(alloc),
        window: WIDEST_WINDOW,
        key: text_of(matches, "key"),
        output: text_of(matches, "output"),
        state: None,
        files,
        telling,
    })
}
