//! Making the file of a device: how long it may be, and its zeros.

ghost use Rattle.std.specs.Prelude.{◌≡◌, IfOk};
ghost use Rattle.sector_dev.specs.CountedFile.{calls_of, failures_of};
ghost use Rattle.device_files.specs.Descriptor.{IsAboveStandard};

use crate::locked::LockedFile;
use libc::{POSIX_FADV_DONTNEED, posix_fadvise};
use sector_dev::SystemFile;
use std::fs::File;
use std::io::{Error, ErrorKind};
use std::os::fd::AsRawFd;
use std::os::unix::fs::FileExt;
use std::rt::Files;
use std::{fs, io};

/// The most bytes of one write.
const PIECE: usize = 65_536;

/// The file in which the system lists the limits of the process.
const LIMITS: &str = "/proc/self/limits";

/// The beginning of the line with the longest file, in bytes.
const LONGEST_FILE: &str = "Max file size";

/// Opens a file of `len` zero bytes, which this process alone may read and write. A file that
/// exists is locked first and then cut to nothing. Where another process has it open by a function
/// of this library, the error is `WouldBlock`. The file, its length and its name in its folder are
/// synced before the call returns `Ok`. A block device is unchanged, whatever `len` is.
pub fn create<R: AllocGlobal + Files<File = File>>(
    rt: &R,
    path: &str,
    len: u64,
) -> io::Result<SystemFile>
    ensures failures { IfOk result (λ file. failures_of file ≡ 0) }
    ensures above { IfOk result (λ file. IsAboveStandard (calls_of file)) }
{
    LockedFile::open(rt, path)?.into_zeros(rt, path, len, Room::Later)
}

/// Whether a new file has its room on the disk.
#[derive(Clone, Copy, Debug, PartialEq, Eq)]
pub enum Room {
    /// The file system gives room by and by, to what is written first.
    Later,
    /// Zeros are written over the whole file. A file system that writes over what is there, as ext4
    /// and XFS do, has then given the file all its room.
    Now,
}

/// Cuts a file to nothing, and gives it `len` zero bytes, on its disk too. Where no room is given
/// for them now, the file is left with no bytes.
pub(crate) fn set_zeros(file: &File, len: u64, room: Room) -> io::Result<()> {
    file.set_len(0)?;
    match room {
        Room::Later => file.set_len(len)?,
        Room::Now => {
            if let Err(error) = write_zeros(file, len) {
                let _cut = file.set_len(0);
                return Err(error);
            }
        }
    }
    file.sync_all()
}

/// Writes `len` zero bytes from the beginning of a file on, and syncs them: a file system may
/// refuse room only then.
fn write_zeros(file: &File, len: u64) -> io::Result<()> {
    let zeros = [0u8; PIECE];
    let pieces = len / PIECE as u64;
    for number in 0..pieces {
        file.write_all_at(&zeros, number * PIECE as u64)?;
    }
    let rest = (len % PIECE as u64) as usize;
    file.write_all_at(&zeros[..rest], pieces * PIECE as u64)?;
    file.sync_data()
}

/// Refuses a file of `len` bytes by `FileTooLarge` where the process may not write as long a one.
/// At a write past that limit the system would end the process by a signal, without a line. Where
/// the system lists no limit, none is refused.
pub(crate) fn check_len<R: AllocGlobal + Files<File = File>>(rt: &R, len: u64) -> io::Result<()> {
    match longest_file(rt) {
        Some(longest) if len > longest => Err(Error::new(
            ErrorKind::FileTooLarge,
            "it is longer than the process may write (ulimit -f)",
        )),
        _ => Ok(()),
    }
}

/// The limit that the system lists, in bytes, if there is one.
fn longest_file<R: AllocGlobal + Files<File = File>>(rt: &R) -> Option<u64> {
    let limits = fs::read_to_string(rt, LIMITS).ok()?;
    limits.lines().find_map(longest_in)
}

/// The limit of a line that has it. The first of its two numbers counts; `unlimited` is none.
fn longest_in(line: &str) -> Option<u64> {
    let numbers = line.strip_prefix(LONGEST_FILE)?;
    numbers.split_whitespace().next()?.parse::<u64>().ok()
}

/// Asks the system to drop the cached bytes of a file, except those that it still has to write.
/// After a sync that failed, cached bytes may differ from those on the disk, and reads would return
/// them. The system may ignore the request.
pub(crate) fn forget_cached(file: &File) {
    posix_fadvise(file.as_raw_fd(), 0, 0, POSIX_FADV_DONTNEED);
}
