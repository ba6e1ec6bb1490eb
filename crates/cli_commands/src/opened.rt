//! The files of devices, and why a command over the store of one has failed.

ghost use Rattle.std.specs.Prelude.{◌≡◌};
ghost use Rattle.cli_commands.specs.Failures.{ended_by};
ghost use Rattle.cli_commands.specs.Failures.{ended_by_fault};

use crate::failure::Failure;
use cli_store::Fault;
use sector_dev::{FileDevice, LastFault, SystemFile};
use std::io;
use std::sync::Arc;
use store_open::{CopyError, FormatError, OpenError, StoreError};

/// The file of a device, as a line of a failure has it.
#[derive(Drop)]
pub(crate) struct Site<'a> {
    path: &'a str,
    /// What failed last in the file.
    last_fault: Arc<LastFault>,
}

/// A device over a file that was opened at a path.
pub(crate) fn device_over<'a>(
    path: &'a str,
    opened: io::Result<SystemFile>,
) -> Result<(FileDevice<SystemFile>, Site<'a>), Failure<'a>> {
    let file = opened.map_err(|error| Failure::File(path, error))?;
    let Ok(last_fault) = file.last_fault() else {
        return Err(Failure::Memory);
    };
    let device = FileDevice::new(file).map_err(|error| Failure::File(path, error))?;
    Ok((device, Site { path, last_fault }))
}

impl<'a> Site<'a> {
    /// What came of a command over the store of the file.
    pub(crate) fn said_of(&self, outcome: Result<(), Fault>) -> Result<(), Failure<'a>> {
        outcome.map_err(|fault| self.failure(fault))
    }

    /// The failure of a command over the store of the file: with the file's path, and, where the
    /// device failed, with what failed last in the file.
    pub(crate) fn failure(&self, fault: Fault) -> Failure<'a>
        ensures { ended_by result ≡ ended_by_fault fault }
    {
        match fault {
            Fault::Output => Failure::Output,
            Fault::Format(_)
            | Fault::Copy(_)
            | Fault::Open(_)
            | Fault::Checkpoint(_)
            | Fault::File
            | Fault::Taken
            | Fault::Declined
            | Fault::Memory => match self.last_fault.get() {
                Some(cause) if is_of_device(fault) => Failure::Device(self.path, fault, cause),
                _ => Failure::Store(self.path, fault),
            },
        }
    }
}

/// Whether a call of the device has failed.
fn is_of_device(fault: Fault) -> bool {
    matches!(
        fault,
        Fault::Format(FormatError::Fault)
            | Fault::Copy(CopyError::Fault)
            | Fault::Open(OpenError::Device)
            | Fault::Checkpoint(StoreError::Fault)
    )
}
