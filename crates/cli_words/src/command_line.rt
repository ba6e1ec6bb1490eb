//! The command that a command line asks for.

ghost use Rattle.std.specs.Prelude.{◌≡◌, ◌≢◌, Some, IfSome, IfNone};
ghost use Rattle.clap.specs.Words.{found_of, rows_of, subcommand_name_of, subcommand_rows_of};
ghost use Rattle.cli_words.specs.declared.command_line.Subcommand.{Subcommand};
ghost use Rattle.cli_words.specs.Commands.{name_of};

use crate::{ASK, COPY, FORMAT, ONCE, RUN, SHOW, STATUS, UPGRADE};
use clap::ArgMatches;

/// A command of the program.
#[derive(Clone, Copy, Debug, PartialEq, Eq)]
pub enum Subcommand {
    /// Answers one session: `ONCE`.
    Once,
    /// Makes a store: `FORMAT`.
    Format,
    /// Makes a store with the rows of another: `COPY`.
    Copy,
    /// Prints what a store has: `SHOW`.
    Show,
    /// Prints the status of a store: `STATUS`.
    Status,
    /// Has a store in the version that is written: `UPGRADE`.
    Upgrade,
    /// Serves sessions over TCP: `RUN`.
    Run,
    /// Asks a server: `ASK`.
    Ask,
}

impl Subcommand {
    /// The command of this name. `None`: no command has it.
    pub fn named(name: &str) -> Option<Subcommand>
        ensures some { IfSome result (λ subcommand. name.now ≡ name_of subcommand) }
        ensures none { IfNone result ((subcommand : Subcommand) → name.now ≢ name_of subcommand) }
    {
        Some(match name {
            ONCE => Subcommand::Once,
            FORMAT => Subcommand::Format,
            COPY => Subcommand::Copy,
            SHOW => Subcommand::Show,
            STATUS => Subcommand::Status,
            UPGRADE => Subcommand::Upgrade,
            RUN => Subcommand::Run,
            ASK => Subcommand::Ask,
            _ => return None,
        })
    }
}

/// A command line that was read: its command, and the options of the command.
#[derive(Drop)]
pub struct CommandLine<'a> {
    /// The command.
    pub subcommand: Subcommand,
    /// What was found of the command's options.
    pub options: ArgMatches<'a>,
}

/// The command line of these matches. `None`: they have no command of the program.
pub(crate) fn command_line<'a>(mut matches: ArgMatches<'a>) -> Option<CommandLine<'a>>
    ensures some { IfSome result (λ line. subcommand_rows_of matches.entry
        ≡ Some (name_of line.subcommand, rows_of (found_of line.options))) }
    ensures none { IfNone result ((subcommand : Subcommand) → subcommand_name_of matches.entry ≢ Some (name_of subcommand)) }
{
    let (name, options) = matches.remove_subcommand()?;
    let subcommand = Subcommand::named(name)?;
    Some(CommandLine {
        subcommand,
        options,
    })
}
