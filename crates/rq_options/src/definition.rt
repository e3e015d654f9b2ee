//! The words that the program takes. Help, usage and errors follow from them.
ghost use Rattle.std.specs.Prelude.{◌≡◌, IfOk, false};
ghost use Rattle.clap.specs.Words.{app_of, rule_of, with_rule};
ghost use Rattle.clap.specs.declared.builder.command.Command.TheViews.{out-Command};
ghost use Rattle.rq_options.specs.Definition.{value_rule, several_rule, flag_rule, file_rule, cells_rule, subcommand_app, top_app, guarded_rule, guard_rule, folder_rule, with_common, with_repair, with_ids, with_places, with_guard, with_shards, send_app, receive_app, info_app, protect_app, check_app, repair_app, split_app, join_app, program_app, with_choice};

use crate::version::VERSION;
use clap::{Arg, ArgAction, Command};
use std::alloc::{AllocError, Global};

const AFTER_HELP: &str = "\
Examples:
  rqcast send --loss 10 --rate 400M FILE >/dev/udp/HOST/PORT
  socat -u -b65536 UDP-RECV:PORT,rcvbuf=4194304 - | rqcast receive -o FILE
  rqcast info KEPT
  rqcast protect FILE
  rqcast check FILE || rqcast repair FILE

It ends with 0 where all is done, 1 after a fault of the system, 2 where too
little came or a guard doesn't mend its file, 3 where what was to be sent is
refused or a guard mends what a check found, and 64 where the words are wrong,
the key is empty, or a file that is read would be written.";

// An option that takes a value.
fn value<'a>(alloc: Global, id: &'a str, name: &'a str, help: &'a str) -> Arg<'a>
    ensures rule { rule_of result ≡ value_rule id.entry.now }
    ensures local { result.global ≡ false }
{
    Arg::new(alloc, id)
        .long(id)
        .value_name(name)
        .action(ArgAction::Set)
        .help(help)
}

// An option that takes a value each time it is said.
fn several<'a>(alloc: Global, id: &'a str, name: &'a str, help: &'a str) -> Arg<'a>
    ensures rule { rule_of result ≡ several_rule id.entry.now }
    ensures local { result.global ≡ false }
{
    value(alloc, id, name, help).action(ArgAction::Append)
}

// An option that is there or not.
fn flag<'a>(alloc: Global, id: &'a str, help: &'a str) -> Arg<'a>
    ensures rule { rule_of result ≡ flag_rule id.entry.now }
    ensures local { result.global ≡ false }
{
    Arg::new(alloc, id)
        .long(id)
        .action(ArgAction::SetTrue)
        .help(help)
}

// The files that are read.
fn cells<'a>(alloc: Global) -> Arg<'a>
    ensures rule { rule_of result ≡ cells_rule }
    ensures local { result.global ≡ false }
{
    Arg::new(alloc, "cells")
        .value_name("CELLS")
        .action(ArgAction::Append)
        .help("Files to read in turn, in place of standard input")
}

// The file that is read.
fn file<'a>(alloc: Global) -> Arg<'a>
    ensures rule { rule_of result ≡ file_rule }
    ensures local { result.global ≡ false }
{
    Arg::new(alloc, "file")
        .value_name("FILE")
        .action(ArgAction::Set)
        .help("The file to send, in place of standard input")
}

// The file that has a guard.
fn guarded<'a>(alloc: Global) -> Arg<'a>
    ensures rule { rule_of result ≡ guarded_rule }
    ensures local { result.global ≡ false }
{
    Arg::new(alloc, "file")
        .value_name("FILE")
        .action(ArgAction::Set)
        .required(true)
        .help("The file that stays as it is")
}

// Its guard.
fn guard<'a>(alloc: Global) -> Arg<'a>
    ensures rule { rule_of result ≡ guard_rule }
    ensures local { result.global ≡ false }
{
    Arg::new(alloc, "guard")
        .value_name("GUARD")
        .action(ArgAction::Set)
        .help("Its guard [default: FILE.rqc]")
}

// A subcommand with no options yet. Its version is the program's.
fn subcommand<'a>(alloc: Global, name: &'a str, about: &'a str) -> Result<Command<'a>, AllocError>
    ensures app { IfOk result (λ c. app_of c ≡ subcommand_app name.entry.now) }
    ensures local { IfOk result (λ c. (out-Command c).has_globals ≡ false) }
{
    Command::new(alloc, name)
        .about(about)
        .version(VERSION)
        .display_name("rqcast")
}

// With an argument more, which isn't global.
fn added<'a>(command: Command<'a>, arg: Arg<'a>) -> Result<Command<'a>, AllocError>
    requires { arg.global ≡ false }
    ensures app { IfOk result (λ c. app_of c ≡ with_rule (app_of command.entry) (rule_of arg.entry)) }
    ensures local { IfOk result (λ c. (out-Command c).has_globals ≡ (out-Command command.entry).has_globals) }
{
    command.arg(arg)
}

// With the options that all subcommands have.
fn common<'a>(alloc: Global, command: Command<'a>) -> Result<Command<'a>, AllocError>
    ensures app { IfOk result (λ c. app_of c ≡ with_common (app_of command.entry)) }
    ensures local { IfOk result (λ c. (out-Command c).has_globals ≡ (out-Command command.entry).has_globals) }
{
    let key = value(
        alloc,
        "key",
        "FILE",
        "Make and check cells by the key in FILE",
    );
    let one = added(command, key.short('k'))?;
    let quiet = flag(alloc, "quiet", "Say nothing but what went wrong");
    let two = added(one, quiet.short('q'))?;
    let progress = flag(alloc, "progress", "Show how far it is, also off a terminal");
    let three = added(two, progress)?;
    let json = flag(alloc, "json", "Say all counts as JSON, a line a second");
    added(three, json)
}

// The options that say what a part is, and which packets `send` sends of it.
fn repaired<'a>(alloc: Global, command: Command<'a>) -> Result<Command<'a>, AllocError>
    ensures app { IfOk result (λ c. app_of c ≡ with_repair (app_of command.entry)) }
    ensures local { IfOk result (λ c. (out-Command c).has_globals ≡ (out-Command command.entry).has_globals) }
{
    let part = value(
        alloc,
        "part",
        "BYTES",
        "How many bytes are read and sent as a part",
    );
    let one = added(command, part.default_value("16M"))?;
    let cell = value(alloc, "cell", "BYTES", "The most bytes of a cell");
    let two = added(one, cell.short('c').default_value("1472"))?;
    let loss = value(
        alloc,
        "loss",
        "PERCENT",
        "The loss in percent to live through, as 5 or 0.5 [default: 5]",
    );
    let three = added(two, loss.short('l'))?;
    let repair = value(
        alloc,
        "repair",
        "N|N%|all",
        "Repair packets a block, in place of --loss",
    );
    added(three, repair.short('r'))
}

// The options that say which ids `send` sends, how fast, and how often.
fn numbered<'a>(alloc: Global, command: Command<'a>) -> Result<Command<'a>, AllocError>
    ensures app { IfOk result (λ c. app_of c ≡ with_ids (app_of command.entry)) }
    ensures local { IfOk result (λ c. (out-Command c).has_globals ≡ (out-Command command.entry).has_globals) }
{
    let rate = value(
        alloc,
        "rate",
        "BITS",
        "The most bits a second, as 400M or 0.5G",
    );
    let one = added(command, rate)?;
    let share = value(
        alloc,
        "share",
        "I/N",
        "This sender is number I of N, from 0",
    );
    let two = added(one, share)?;
    let from = value(alloc, "from", "ID", "The first encoding symbol id");
    let three = added(two, from.default_value("0"))?;
    let rounds = value(
        alloc,
        "rounds",
        "N|endless",
        "How often FILE is sent, each time by the ids that follow [default: 1]",
    );
    added(three, rounds)
}

// The options of `receive` that say where to, and what is kept meanwhile.
fn placed<'a>(alloc: Global, command: Command<'a>) -> Result<Command<'a>, AllocError>
    ensures app { IfOk result (λ c. app_of c ≡ with_places (app_of command.entry)) }
    ensures local { IfOk result (λ c. (out-Command c).has_globals ≡ (out-Command command.entry).has_globals) }
{
    let output = value(
        alloc,
        "output",
        "FILE",
        "Write beside FILE, and put it there when it is whole",
    );
    let one = added(command, output.short('o'))?;
    let follow = flag(
        alloc,
        "follow",
        "Take one stream after another, into files of the folder FILE",
    );
    let two = added(one, follow)?;
    let timeout = value(
        alloc,
        "timeout",
        "SECONDS",
        "How long a stream may be silent while others come, by --follow",
    );
    let three = added(two, timeout)?;
    let state = value(
        alloc,
        "state",
        "FILE",
        "Keep in FILE what is read, for the run behind one that is killed",
    );
    added(three, state)
}

// The options of `receive` that say which cells are taken.
fn chosen<'a>(alloc: Global, command: Command<'a>) -> Result<Command<'a>, AllocError>
    ensures app { IfOk result (λ c. app_of c ≡ with_choice (app_of command.entry)) }
    ensures local { IfOk result (λ c. (out-Command c).has_globals ≡ (out-Command command.entry).has_globals) }
{
    let name = value(
        alloc,
        "name",
        "HEX",
        "What `send` printed as name, or its beginning",
    );
    let one = added(command, name)?;
    let not = several(
        alloc,
        "not",
        "HEX",
        "A name, or its beginning, that is passed over",
    );
    let two = added(one, not)?;
    let window = value(
        alloc,
        "window",
        "PARTS",
        "How many parts are kept at once, from the first missing one on",
    );
    added(two, window.default_value("2"))
}

/// `send`, with its options.
pub(crate) fn send<'a>(alloc: Global) -> Result<Command<'a>, AllocError>
    ensures app { IfOk result (λ c. app_of c ≡ send_app) }
    ensures local { IfOk result (λ c. (out-Command c).has_globals ≡ false) }
{
    let about = "Writes the cells of FILE, or of standard input, on standard output";
    let repaired = repaired(alloc, subcommand(alloc, "send", about)?)?;
    let numbered = numbered(alloc, repaired)?;
    let common = common(alloc, numbered)?;
    added(common, file(alloc))
}

/// `receive`, with its options.
pub(crate) fn receive<'a>(alloc: Global) -> Result<Command<'a>, AllocError>
    ensures app { IfOk result (λ c. app_of c ≡ receive_app) }
    ensures local { IfOk result (λ c. (out-Command c).has_globals ≡ false) }
{
    let about = "Writes what was sent, of cells among any bytes";
    let placed = placed(alloc, subcommand(alloc, "receive", about)?)?;
    let chosen = chosen(alloc, placed)?;
    let common = common(alloc, chosen)?;
    added(common, cells(alloc))
}

/// `info`, with its options.
pub(crate) fn info<'a>(alloc: Global) -> Result<Command<'a>, AllocError>
    ensures app { IfOk result (λ c. app_of c ≡ info_app) }
    ensures local { IfOk result (λ c. (out-Command c).has_globals ≡ false) }
{
    let about = "Lists the streams whose cells stand among any bytes, and what they lack";
    let common = common(alloc, subcommand(alloc, "info", about)?)?;
    added(common, cells(alloc))
}

// The options of `protect` alone.
fn guarding<'a>(alloc: Global, command: Command<'a>) -> Result<Command<'a>, AllocError>
    ensures app { IfOk result (λ c. app_of c ≡ with_guard (app_of command.entry)) }
    ensures local { IfOk result (λ c. (out-Command c).has_globals ≡ (out-Command command.entry).has_globals) }
{
    let part = value(
        alloc,
        "part",
        "BYTES",
        "How many bytes are guarded as a part",
    );
    let one = added(command, part.default_value("250M"))?;
    let repair = value(alloc, "repair", "N|N%|all", "Repair packets a part");
    let two = added(one, repair.short('r').default_value("10%"))?;
    let output = value(
        alloc,
        "output",
        "GUARD",
        "Where the guard is put when it is whole [default: FILE.rqc]",
    );
    added(two, output.short('o'))
}

/// `protect`, with its options.
pub(crate) fn protect<'a>(alloc: Global) -> Result<Command<'a>, AllocError>
    ensures app { IfOk result (λ c. app_of c ≡ protect_app) }
    ensures local { IfOk result (λ c. (out-Command c).has_globals ≡ false) }
{
    let about = "Makes a guard of FILE, from which FILE is mended";
    let guarding = guarding(alloc, subcommand(alloc, "protect", about)?)?;
    let common = common(alloc, guarding)?;
    added(common, guarded(alloc))
}

/// `check`, with its options.
pub(crate) fn check<'a>(alloc: Global) -> Result<Command<'a>, AllocError>
    ensures app { IfOk result (λ c. app_of c ≡ check_app) }
    ensures local { IfOk result (λ c. (out-Command c).has_globals ≡ false) }
{
    let about = "Says whether FILE is as its guard says, and else where it isn't";
    let common = common(alloc, subcommand(alloc, "check", about)?)?;
    added(added(common, guarded(alloc))?, guard(alloc))
}

/// `repair`, with its options.
pub(crate) fn repair<'a>(alloc: Global) -> Result<Command<'a>, AllocError>
    ensures app { IfOk result (λ c. app_of c ≡ repair_app) }
    ensures local { IfOk result (λ c. (out-Command c).has_globals ≡ false) }
{
    let about = "Mends FILE by its guard";
    let output = value(
        alloc,
        "output",
        "FILE",
        "Where it is put when it is whole [default: in its own place]",
    );
    let placed = added(subcommand(alloc, "repair", about)?, output.short('o'))?;
    let common = common(alloc, placed)?;
    added(added(common, guarded(alloc))?, guard(alloc))
}

// The file that is split.
fn whole<'a>(alloc: Global) -> Arg<'a>
    ensures rule { rule_of result ≡ guarded_rule }
    ensures local { result.global ≡ false }
{
    Arg::new(alloc, "file")
        .value_name("FILE")
        .action(ArgAction::Set)
        .required(true)
        .help("The file to split")
}

// The folder of its shards.
fn folder<'a>(alloc: Global, help: &'a str) -> Arg<'a>
    ensures rule { rule_of result ≡ folder_rule }
    ensures local { result.global ≡ false }
{
    Arg::new(alloc, "folder")
        .value_name("FOLDER")
        .action(ArgAction::Set)
        .required(true)
        .help(help)
}

// The options of `split` alone.
fn sharded<'a>(alloc: Global, command: Command<'a>) -> Result<Command<'a>, AllocError>
    ensures app { IfOk result (λ c. app_of c ≡ with_shards (app_of command.entry)) }
    ensures local { IfOk result (λ c. (out-Command c).has_globals ≡ (out-Command command.entry).has_globals) }
{
    let need = value(alloc, "need", "K", "How many shards are enough, whichever");
    let one = added(command, need.default_value("16"))?;
    let of = value(alloc, "of", "N", "How many there are, 255 at most");
    let two = added(one, of.default_value("20"))?;
    let part = value(
        alloc,
        "part",
        "BYTES",
        "How many bytes are read and split as a part",
    );
    let three = added(two, part.default_value("16M"))?;
    let cell = value(alloc, "cell", "BYTES", "The most bytes of a cell");
    added(three, cell.short('c').default_value("4096"))
}

/// `split`, with its options.
pub(crate) fn split<'a>(alloc: Global) -> Result<Command<'a>, AllocError>
    ensures app { IfOk result (λ c. app_of c ≡ split_app) }
    ensures local { IfOk result (λ c. (out-Command c).has_globals ≡ false) }
{
    let about = "Makes shards of FILE in FOLDER, some of which are enough for it";
    let sharded = sharded(alloc, subcommand(alloc, "split", about)?)?;
    let common = common(alloc, sharded)?;
    let filed = added(common, whole(alloc))?;
    added(
        filed,
        folder(alloc, "The folder that is made of its shards"),
    )
}

/// `join`, with its options.
pub(crate) fn join<'a>(alloc: Global) -> Result<Command<'a>, AllocError>
    ensures app { IfOk result (λ c. app_of c ≡ join_app) }
    ensures local { IfOk result (λ c. (out-Command c).has_globals ≡ false) }
{
    let about = "Writes the file whose shards are in FOLDER";
    let output = value(
        alloc,
        "output",
        "FILE",
        "Write beside FILE, and put it there when it is whole",
    );
    let placed = added(subcommand(alloc, "join", about)?, output.short('o'))?;
    let common = common(alloc, placed)?;
    added(common, folder(alloc, "The folder of the shards"))
}

// The program with no subcommand yet. Usage names it before a subcommand.
fn top<'a>(alloc: Global) -> Result<Command<'a>, AllocError>
    ensures { IfOk result (λ c. app_of c ≡ top_app) }
{
    Command::new(alloc, "rqcast")
        .about(
            "Sends a file as RaptorQ cells over anything that loses or damages, and receives it; mends a file by its guard",
        )
        .version(VERSION)
        .after_help(AFTER_HELP)
        .no_binary_name(true)
        .subcommand_required(true)
        .disable_help_subcommand(true)
        .bin_name("rqcast")
}

/// All words behind the program's name.
pub(crate) fn program<'a>(alloc: Global) -> Result<Command<'a>, AllocError>
    ensures { IfOk result (λ c. app_of c ≡ program_app) }
{
    let one = top(alloc)?.subcommand(send(alloc)?)?;
    let two = one.subcommand(receive(alloc)?)?;
    let three = two.subcommand(info(alloc)?)?;
    let four = three.subcommand(protect(alloc)?)?;
    let five = four.subcommand(check(alloc)?)?;
    let six = five.subcommand(repair(alloc)?)?;
    let seven = six.subcommand(split(alloc)?)?;
    seven.subcommand(join(alloc)?)
}
