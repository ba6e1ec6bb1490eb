//! What the process uses of its machine, as the system's files on it say.

use path_server::Usage;
use std::fs::File;
use std::os::unix::fs::{FileExt, MetadataExt};
use std::rt::Files;
use std::str;

/// The files of the system on the process: its memory, its times, its limits and its descriptors.
const STATUS: &str = "/proc/self/status";

const TIMES: &str = "/proc/self/stat";

const LIMITS: &str = "/proc/self/limits";

const DESCRIPTORS: &str = "/proc/self/fd";

/// The most bytes that are read of a file.
const MOST_READ: usize = 4096;

/// The microseconds of one of the ticks in which the system counts processor time.
const TICK: u64 = 10_000;

/// The files that say what the process uses of its machine. They are open from the start on, so
/// that a thread of the server can read them.
#[derive(Drop)]
pub(crate) struct UsageFiles {
    status: File,
    times: File,
    limits: File,
    descriptors: File,
}

impl UsageFiles {
    /// Opens the files. `None` where one cannot be opened.
    pub(crate) fn open<R: Files<File = File>>(rt: &R) -> Option<UsageFiles> {
        Some(UsageFiles {
            status: File::open(rt, STATUS).ok()?,
            times: File::open(rt, TIMES).ok()?,
            limits: File::open(rt, LIMITS).ok()?,
            descriptors: File::open(rt, DESCRIPTORS).ok()?,
        })
    }

    /// What the process uses now. `None` where a file cannot be read, or has not the form that is
    /// known. No clause states what the system's files say. The number of open descriptors is the
    /// size of their folder, which is 0 before Linux 6.2.
    pub(crate) fn usage(&self) -> Option<Usage> {
        let mut bytes = [0; MOST_READ];
        Some(Usage {
            memory: resident_in(text_of(&self.status, &mut bytes)?)?,
            processor: processor_in(text_of(&self.times, &mut bytes)?)?,
            open_files: self.descriptors.metadata().ok()?.size(),
            most_files: most_files_in(text_of(&self.limits, &mut bytes)?)?,
        })
    }
}

/// The text of a file, as much of it as there is room for.
fn text_of<'a>(file: &File, into: &'a mut [u8; MOST_READ]) -> Option<&'a str> {
    let len = file.read_at(into, 0).ok()?;
    str::from_utf8(into.get(..len)?).ok()
}

/// The bytes in memory, from the line `VmRSS:     1234 kB`.
fn resident_in(status: &str) -> Option<u64> {
    let line = status.lines().find_map(|line| line.strip_prefix("VmRSS:"))?;
    let kibibytes = line.split_whitespace().next()?.parse::<u64>().ok()?;
    kibibytes.checked_mul(1024)
}

/// The processor time in microseconds, from the line of the process. The name of the program is its
/// second word, in parentheses, and may have spaces. Its 14th and 15th words are the ticks in user
/// and in system mode.
fn processor_in(times: &str) -> Option<u64> {
    let (_, after) = times.rsplit_once(')')?;
    let mut words = after.split_whitespace().skip(11);
    let user = words.next()?.parse::<u64>().ok()?;
    let system = words.next()?.parse::<u64>().ok()?;
    user.checked_add(system)?.checked_mul(TICK)
}

/// How many descriptors may be open, from the line `Max open files  1024  524288  files`, whose
/// first number counts. It is the greatest number where the line says `unlimited`.
fn most_files_in(limits: &str) -> Option<u64> {
    let line = limits
        .lines()
        .find_map(|line| line.strip_prefix("Max open files"))?;
    match line.split_whitespace().next()? {
        "unlimited" => Some(u64::MAX),
        number => number.parse::<u64>().ok(),
    }
}
