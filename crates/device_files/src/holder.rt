//! Which process has a file locked.

use std::fs;
use std::fs::{File, Metadata};
use std::os::unix::fs::MetadataExt;
use std::rt::Files;

/// The file in which the system lists its locks.
const LOCKS: &str = "/proc/locks";

/// The base of the numbers of a device in the list.
const BASE: u32 = 16;

/// The number of the process that holds a lock on the file of a path, as the system lists it.
/// `None` where none is listed: the system has no such list, or lists a file by another device than
/// the one that it says of the file, as btrfs does; another machine or another container holds the
/// lock; memory was refused; or the lock was released in the meantime. No clause states what the
/// system lists.
pub fn holder_of<R: AllocGlobal + Files<File = File>>(rt: &R, path: &str) -> Option<u32> {
    let place = place_of(&fs::metadata(rt, path).ok()?);
    let locks = fs::read_to_string(rt, LOCKS).ok()?;
    locks.lines().find_map(|line| holder_in(line, place))
}

/// Where a file is. Two file systems may give one number each to a file of theirs.
#[derive(Clone, Copy, PartialEq, Eq)]
struct Place {
    /// The major and the minor number of the device.
    device: (u32, u32),
    /// The number of the file on the device.
    number: u64,
}

/// Where the file of this metadata is. Of the system's number of a device, the bits 8 to 19 are the
/// major number, the bits 0 to 7 the low bits of the minor one, and the bits from 20 on its others.
fn place_of(metadata: &Metadata) -> Place {
    let device = metadata.dev();
    let major = (device >> 8) & 0xfff;
    let minor = (device & 0xff) | ((device >> 12) & 0xf_ff00);
    Place {
        device: (major as u32, minor as u32),
        number: metadata.ino(),
    }
}

/// The process of a line of the list, where it is of a lock of the whole file at this place. The
/// words of a line are its own number, the way of the lock (`FLOCK`), two words of its kind, the
/// process, and the place of the file, as `fe:01:1234`.
fn holder_in(line: &str, place: Place) -> Option<u32> {
    let mut words = line.split_whitespace().skip(1);
    if words.next()? != "FLOCK" {
        return None;
    }
    let mut words = words.skip(2);
    let process = words.next()?.parse::<u32>().ok()?;
    (place_in(words.next()?)? == place).then_some(process)
}

/// The place that a word of the list says.
fn place_in(word: &str) -> Option<Place> {
    let (device, number) = word.rsplit_once(':')?;
    let (major, minor) = device.split_once(':')?;
    let part = |digits: &str| u32::from_str_radix(digits, BASE).ok();
    Some(Place {
        device: (part(major)?, part(minor)?),
        number: number.parse::<u64>().ok()?,
    })
}
