//! Why the program ends.

ghost use Rattle.std.specs.Prelude.{◌≡◌, Some};
ghost use Rattle.cli_store.specs.Fault.{format_number, copy_number, checkpoint_number};

use std::error::Error;
use std::fmt;
use store_open::{CopyError, FormatError, OpenError, StoreError};

/// What ends a command over a device. The program prints these words after `error: `: an area, and
/// the numbers of the error, the outer one first.
#[derive(Clone, Copy, Debug, PartialEq, Eq)]
pub enum Fault {
    /// No store is made.
    Format(FormatError),
    /// No copy is made. `CopyError::NoMemory` is never here.
    Copy(CopyError),
    /// The device is not opened. `OpenError::NoMemory` is never here.
    Open(OpenError),
    /// No checkpoint is made. `StoreError::NoMemory` is never here.
    Checkpoint(StoreError),
    /// The file of the device cannot be made or opened.
    File,
    /// A store is there, and one may be made only where none is.
    Taken,
    /// A store is there, and whoever was asked did not agree to lose it.
    Declined,
    /// Memory was refused.
    Memory,
    /// A print failed.
    Output,
}

impl fmt::Display for Fault {
    ghost use Rattle.cli_store.specs.Fault.{store_fault_text};

    ghost output = { λ fault. Some (store_fault_text fault) };

    fn fmt<W: fmt::Write>(&self, f: &mut fmt::Formatter<W>) -> fmt::Result {
        match self {
            Fault::Format(error) => write!(f, "format {}", format_number(*error)),
            Fault::Copy(error) => write!(f, "copy {}", copy_number(*error)),
            Fault::Open(OpenError::Pair(error)) => write!(f, "open 3 {}", error.number()),
            Fault::Open(OpenError::Journal(error)) => write!(f, "open 4 {}", error.number()),
            Fault::Open(error) => write!(f, "open {}", error.number()),
            Fault::Checkpoint(error) => write!(f, "device {}", checkpoint_number(*error)),
            Fault::File => write!(f, "device 1"),
            Fault::Taken => write!(f, "format 4"),
            Fault::Declined => write!(f, "format 5"),
            Fault::Memory => write!(f, "memory"),
            Fault::Output => write!(f, "output"),
        }
    }
}

impl Error for Fault {}

fn format_number(error: FormatError) -> u8
    ensures { result ≡ format_number error }
{
    error as u8
}

fn copy_number(error: CopyError) -> u8
    ensures { result ≡ copy_number error }
{
    error as u8
}

fn checkpoint_number(error: StoreError) -> u8
    ensures { result ≡ checkpoint_number error }
{
    error as u8
}

impl From<OpenError> for Fault {
    ghost use Rattle.cli_store.specs.Fault.{fault_of_opening};

    ghost from_gives = { λ error fault. fault ≡ fault_of_opening error };

    fn from(error: OpenError) -> Fault {
        match error {
            OpenError::NoMemory => Fault::Memory,
            error => Fault::Open(error),
        }
    }
}

impl From<StoreError> for Fault {
    ghost use Rattle.cli_store.specs.Fault.{fault_of_checkpoint};

    ghost from_gives = { λ error fault. fault ≡ fault_of_checkpoint error };

    fn from(error: StoreError) -> Fault {
        match error {
            StoreError::NoMemory => Fault::Memory,
            error => Fault::Checkpoint(error),
        }
    }
}

impl From<CopyError> for Fault {
    ghost use Rattle.cli_store.specs.Fault.{fault_of_copy};

    ghost from_gives = { λ error fault. fault ≡ fault_of_copy error };

    fn from(error: CopyError) -> Fault {
        match error {
            CopyError::NoMemory => Fault::Memory,
            error => Fault::Copy(error),
        }
    }
}
