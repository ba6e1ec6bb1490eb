//! Opening files that exist, of the kinds that a device can have.

ghost use Rattle.std.specs.Prelude.{◌≡◌, IfOk};
ghost use Rattle.sector_dev.specs.CountedFile.{calls_of, failures_of};
ghost use Rattle.device_files.specs.Descriptor.{IsAboveStandard};

use crate::creating::{check_len, forget_cached};
use libc::STDERR_FILENO;
use sector_dev::SystemFile;
use std::fs::{File, FileType, OpenOptions};
use std::io::{Error, ErrorKind};
use std::os::fd::AsRawFd;
use std::os::unix::fs::{FileExt, FileTypeExt};
use std::rt::Files;
use std::{fs, io};

/// Opens a file or a block device, which this process alone may read and write. Where another
/// process has it open by a function of this library, the error is `WouldBlock`. A block device
/// that the system does not let anybody write, though it opens it, is refused by the system's
/// error. A file that is longer than the process may write is refused by `FileTooLarge`.
pub fn open<R: AllocGlobal + Files<File = File>>(rt: &R, path: &str) -> io::Result<SystemFile>
    ensures failures { IfOk result (λ file. failures_of file ≡ 0) }
    ensures above { IfOk result (λ file. IsAboveStandard (calls_of file)) }
{
    check_path(rt, path)?;
    let file = OpenOptions::new().read(true).write(true).open(rt, path)?;
    let file = above_standard(file)?;
    file.try_lock()?;
    match device_kind(&file)? {
        DeviceKind::File => check_len(rt, file.metadata()?.len())?,
        DeviceKind::Block => check_writable(&file)?,
    }
    forget_cached(&file);
    SystemFile::new(rt.alloc(), file)
}

/// Opens a file or a block device to read it, beside other processes that do the same. Where
/// another process has it open to write it by a function of this library, the error is
/// `WouldBlock`. Writes of the file fail.
pub fn open_to_read<R: AllocGlobal + Files<File = File>>(
    rt: &R,
    path: &str,
) -> io::Result<SystemFile>
    ensures failures { IfOk result (λ file. failures_of file ≡ 0) }
    ensures above { IfOk result (λ file. IsAboveStandard (calls_of file)) }
{
    check_path(rt, path)?;
    let file = OpenOptions::new().read(true).open(rt, path)?;
    let file = above_standard(file)?;
    file.try_lock_shared()?;
    device_kind(&file)?;
    forget_cached(&file);
    SystemFile::new(rt.alloc(), file)
}

/// Refuses an open block device that takes no writes. Linux opens a read-only one for writing, and
/// refuses each write of it, also one of no bytes. That is what is written here, so nothing
/// changes.
pub(crate) fn check_writable(device: &File) -> io::Result<()> {
    device.write_at(&[], 0)?;
    Ok(())
}

/// The same open file at a descriptor above that of standard error, the last of the three that a
/// process is started with. A process that was started with a closed standard handle is given the
/// number of that handle for the next file, and would print into the file.
pub(crate) fn above_standard(file: File) -> io::Result<File>
    ensures { IfOk result (λ moved. IsAboveStandard moved) }
{
    if file.as_raw_fd() > STDERR_FILENO {
        return Ok(file);
    }
    let moved = file.try_clone()?;
    if moved.as_raw_fd() > STDERR_FILENO {
        return Ok(moved);
    }
    Err(Error::new(ErrorKind::Other, "no descriptor above standard error"))
}

/// The files that a device can be over.
#[derive(Clone, Copy)]
pub(crate) enum DeviceKind {
    /// A regular file, whose length can be set.
    File,
    /// A block device, whose length is given.
    Block,
}

/// The kind of an open file. Any other kind, such as a directory, a pipe or a terminal, is refused
/// by `InvalidInput`.
pub(crate) fn device_kind(file: &File) -> io::Result<DeviceKind> {
    kind_of(file.metadata()?.file_type())
}

/// Refuses a path that has neither a file nor a block device, as `device_kind` does, before it is
/// opened: to open a pipe waits for a process that writes into it, and to open a terminal may wait
/// too. A path of which nothing can be said is left to the call that opens it.
pub(crate) fn check_path<R: AllocGlobal + Files<File = File>>(
    rt: &R,
    path: &str,
) -> io::Result<()> {
    if let Ok(metadata) = fs::metadata(rt, path) {
        kind_of(metadata.file_type())?;
    }
    Ok(())
}

// The kind of a file of this type.
fn kind_of(kind: FileType) -> io::Result<DeviceKind> {
    if kind.is_file() {
        return Ok(DeviceKind::File);
    }
    if kind.is_block_device() {
        return Ok(DeviceKind::Block);
    }
    Err(Error::new(ErrorKind::InvalidInput, "neither a file nor a block device"))
}
