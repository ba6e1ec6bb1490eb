//! What more can be said of why a file is not opened.

use crate::failure::Failure;
use crate::opened::device_over;
use cli_store::Fault;
use device_files::{holder_of, open_to_read};
use sector_dev::{Device, SECTOR};
use std::fs;
use std::fs::File;
use std::io::ErrorKind;
use std::rt::Files;
use store_open::{OpenError, titled_sizes};

/// What the line of a failure ends with: the process that has a file open, or how many bytes a
/// store that was cut had. `None` where nothing more is known. No clause says what the system knows
/// of a file.
pub fn more_of<R: AllocGlobal + Files<File = File>>(
    rt: &R,
    failure: &Failure<'_>,
) -> Option<String> {
    match failure {
        Failure::File(path, error) if error.kind() == ErrorKind::WouldBlock => holder(rt, path),
        Failure::Store(path, Fault::Open(OpenError::NotAStore)) => cut_sizes(rt, path),
        _ => None,
    }
}

/// The number and the name of the process that has a file locked.
fn holder<R: AllocGlobal + Files<File = File>>(rt: &R, path: &str) -> Option<String> {
    let number = holder_of(rt, path)?;
    let alloc = rt.alloc();
    let place = format!(in alloc; "/proc/{number}/comm").ok()?;
    match fs::read_to_string(rt, place.as_str()) {
        Ok(name) => format!(in alloc; " (process {number}, {})", name.trim()).ok(),
        Err(_) => format!(in alloc; " (process {number})").ok(),
    }
}

/// The bytes of a file whose first sector is that of a store with more. The system says the length
/// of a file, which may end within a sector, and none of a block device.
fn cut_sizes<R: AllocGlobal + Files<File = File>>(rt: &R, path: &str) -> Option<String> {
    let (mut device, _site) = device_over(path, open_to_read(rt, path)).ok()?;
    let sizes = titled_sizes(&mut device).ok()??;
    let (wanted, sectors) = (sizes.sectors(), device.sectors());
    if wanted <= sectors {
        return None;
    }
    let len = fs::metadata(rt, path).ok()?.len();
    let (wanted, bytes) = (in_bytes(wanted), in_bytes(sectors).max(len));
    let alloc = rt.alloc();
    format!(in alloc; ": it was cut to {bytes} bytes, and its first sector says {wanted}").ok()
}

/// The bytes of this number of sectors, at most 2^64 - 1.
fn in_bytes(sectors: u64) -> u64 {
    sectors.saturating_mul(SECTOR as u64)
}
