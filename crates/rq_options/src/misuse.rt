//! Words that the parser takes, and that ask for nothing.
ghost use Rattle.std.specs.Prelude.{◌≡◌, [], ◌∷◌, IfOk};
ghost use Rattle.clap.specs.Words.{HasKind, kind_of};
ghost use Rattle.rq_options.specs.Options.{misuse_kind};

use crate::definition;
use crate::matches::Verb;
use clap::error::ErrorKind;
use clap::{Command, Error};
use std::alloc::{AllocError, Global};

/// Why options ask for nothing.
#[derive(Clone, Copy, Debug)]
pub enum Misuse<'a> {
    /// Two of them can't be said together.
    Together {
        /// The first, as `--loss <PERCENT>`.
        one: &'static str,
        /// The second.
        other: &'static str,
    },
    /// It can't be said without another word.
    Alone {
        /// The option, as `--rounds <N|endless>`.
        option: &'static str,
        /// What is missing, as `FILE`.
        missing: &'static str,
        /// Why.
        reason: &'static str,
    },
    /// A value says nothing that the option takes.
    Value {
        /// The option, as `--loss <PERCENT>`.
        option: &'static str,
        /// What it takes.
        takes: &'static str,
        /// The value.
        text: &'a str,
    },
}

// A subcommand alone, whose usage an error shows.
fn command_of<'a>(alloc: Global, verb: Verb) -> Result<Command<'a>, AllocError> {
    match verb {
        Verb::Send => definition::send(alloc)?.bin_name("rqcast send"),
        Verb::Receive => definition::receive(alloc)?.bin_name("rqcast receive"),
        Verb::Info => definition::info(alloc)?.bin_name("rqcast info"),
        Verb::Protect => definition::protect(alloc)?.bin_name("rqcast protect"),
        Verb::Check => definition::check(alloc)?.bin_name("rqcast check"),
        Verb::Repair => definition::repair(alloc)?.bin_name("rqcast repair"),
        Verb::Split => definition::split(alloc)?.bin_name("rqcast split"),
        Verb::Join => definition::join(alloc)?.bin_name("rqcast join"),
    }
}

impl Misuse<'_> {
    // What is said of it.
    fn message(&self, alloc: Global) -> Result<String, AllocError> {
        match self {
            Misuse::Together { one, other } => {
                format!(in alloc; "the argument '{one}' cannot be used with '{other}'")
            }
            Misuse::Alone {
                option,
                missing,
                reason,
            } => format!(in alloc; "'{option}' takes a {missing}: {reason}"),
            Misuse::Value {
                option,
                takes,
                text,
            } => format!(in alloc; "invalid value '{text}' for '{option}': it takes {takes}"),
        }
    }

    // The kind of its error.
    fn kind(&self) -> ErrorKind
        ensures { result ≡ misuse_kind self.now }
    {
        match self {
            Misuse::Together { .. } => ErrorKind::ArgumentConflict,
            Misuse::Alone { .. } => ErrorKind::MissingRequiredArgument,
            Misuse::Value { .. } => ErrorKind::ValueValidation,
        }
    }

    // Its error, or why there is none.
    fn try_error(&self, alloc: Global, verb: Verb) -> Result<Error, AllocError>
        ensures { IfOk result (λ e. kind_of e ≡ misuse_kind self.now) }
    {
        let mut command = command_of(alloc, verb)?;
        let message = self.message(alloc)?;
        command.error(self.kind(), message.as_str())
    }

    /// Its error, with the usage of the subcommand. Where memory is refused, it is that error.
    pub fn error(&self, alloc: Global, verb: Verb) -> Error
        ensures { HasKind (misuse_kind self.now ∷ []) result }
    {
        match self.try_error(alloc, verb) {
            Ok(error) => error,
            Err(refused) => Error::from(refused),
        }
    }
}

// The same of words with no subcommand.
fn try_no_subcommand(alloc: Global) -> Result<Error, AllocError>
    ensures { IfOk result (λ e. kind_of e ≡ ErrorKind.MissingSubcommand) }
{
    let mut program = definition::program(alloc)?;
    program.error(ErrorKind::MissingSubcommand, "a subcommand is required")
}

/// The error of words with no subcommand. Where memory is refused, it is that error.
pub fn no_subcommand(alloc: Global) -> Error
    ensures { HasKind (ErrorKind.MissingSubcommand ∷ []) result }
{
    match try_no_subcommand(alloc) {
        Ok(error) => error,
        Err(refused) => Error::from(refused),
    }
}
