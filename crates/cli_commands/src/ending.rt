//! How the program ends: its status, and its last line on standard error.

ghost use Rattle.std.specs.Prelude.{◌≡◌, Some};
ghost use Rattle.cli_commands.specs.Ending.{program_status};

use std::error::Error;
use std::fmt;

/// How the words of a command line were answered.
#[derive(Clone, Copy, Debug, PartialEq, Eq)]
pub enum Done {
    /// The words were carried out.
    Carried,
    /// The words cannot be read, and nothing was done.
    Refused,
}

/// Why the program ends before the words are carried out. The program prints this as a line on
/// standard error.
#[derive(Clone, Copy, Debug, PartialEq, Eq)]
pub enum Ended {
    /// An option cannot be read, or a session of `once` ended with a fault, or memory was refused,
    /// or a print failed.
    Session(cli_once::SessionFault),
    /// A store is not made, opened or changed.
    Store(cli_store::Fault),
    /// The address cannot be read or bound, or the listener broke.
    Net,
    /// A server that was asked has not answered, or the request cannot be read.
    Ask(cli_ask::AskFault),
}

impl fmt::Display for Ended {
    ghost use Rattle.cli_commands.specs.Ending.{ended_line};

    ghost output = { λ ended. Some (ended_line ended) };

    fn fmt<W: fmt::Write>(&self, f: &mut fmt::Formatter<W>) -> fmt::Result {
        match self {
            Ended::Session(fault) => write!(f, "error: {}", *fault),
            Ended::Store(fault) => write!(f, "error: {}", *fault),
            Ended::Net => write!(f, "error: net"),
            Ended::Ask(fault) => write!(f, "error: {}", *fault),
        }
    }
}

impl Error for Ended {}

impl From<cli_once::SessionFault> for Ended {
    ghost use Rattle.cli_commands.specs.declared.ending.Ended.TheVariants.{Session};

    ghost from_gives = { λ fault ended. ended ≡ Session fault };

    fn from(fault: cli_once::SessionFault) -> Ended {
        Ended::Session(fault)
    }
}

impl From<cli_store::Fault> for Ended {
    ghost use Rattle.cli_commands.specs.declared.ending.Ended.TheVariants.{Store};

    ghost from_gives = { λ fault ended. ended ≡ Store fault };

    fn from(fault: cli_store::Fault) -> Ended {
        Ended::Store(fault)
    }
}

/// How the program ends where the words are not carried out.
#[derive(Clone, Copy, Debug, PartialEq, Eq)]
pub struct Failed {
    /// Why it ends.
    pub ended: Ended,
    /// The exit status of the program.
    pub status: u8,
    /// Whether the last line on standard error begins with its priority.
    pub is_marked: bool,
}

impl From<Ended> for Failed {
    ghost use Rattle.std.specs.Prelude.{false};

    ghost from_gives = { λ why failed. failed ≡ record { ended = why; status = 1; is_marked = false } };

    fn from(ended: Ended) -> Failed {
        Failed {
            ended,
            status: 1,
            is_marked: false,
        }
    }
}

/// The exit status of the program: 0 where the words are carried out, 2 where they cannot be read,
/// and that of the failure where the program ended before they were carried out.
pub fn status_of(outcome: &Result<Done, Failed>) -> u8
    ensures { result ≡ program_status outcome.now }
{
    match outcome {
        Ok(Done::Carried) => 0,
        Ok(Done::Refused) => 2,
        Err(failed) => failed.status,
    }
}
