//! Why the program ends.

ghost use Rattle.std.specs.Prelude.{◌≡◌, Some};
ghost use Rattle.cli_once.specs.Fault.{text_number, frame_number};

use isd_as::IaError;
use session_core::FrameError;
use std::error::Error;
use std::fmt;

/// What ends the program. The program prints these words after `error: `.
#[derive(Clone, Copy, Debug, PartialEq, Eq)]
pub enum SessionFault {
    /// A text in the list of core ASes is no ISD-AS.
    Text(IaError),
    /// The input is no hexadecimal text.
    Hex,
    /// The session ended with a fault.
    Frame(FrameError),
    /// Memory was refused.
    Memory,
    /// A print outside the session failed.
    Output,
}

impl fmt::Display for SessionFault {
    ghost use Rattle.cli_once.specs.Fault.{session_fault_text};

    ghost output = { λ fault. Some (session_fault_text fault) };

    fn fmt<W: fmt::Write>(&self, f: &mut fmt::Formatter<W>) -> fmt::Result {
        match self {
            SessionFault::Text(error) => write!(f, "text {}", text_number(*error)),
            SessionFault::Hex => write!(f, "hex"),
            SessionFault::Frame(error) => write!(f, "frame {}", frame_number(*error)),
            SessionFault::Memory => write!(f, "memory"),
            SessionFault::Output => write!(f, "output"),
        }
    }
}

impl Error for SessionFault {}

fn text_number(error: IaError) -> u8
    ensures { result ≡ text_number error }
{
    error as u8
}

fn frame_number(error: FrameError) -> u8
    ensures { result ≡ frame_number error }
{
    error as u8
}

impl From<FrameError> for SessionFault {
    ghost use Rattle.cli_once.specs.Fault.{frame_fault};

    ghost from_gives = { λ error fault. fault ≡ frame_fault error };

    fn from(error: FrameError) -> Self {
        match error {
            FrameError::NoMemory => SessionFault::Memory,
            error => SessionFault::Frame(error),
        }
    }
}
