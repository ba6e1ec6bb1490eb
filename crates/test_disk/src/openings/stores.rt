//! Stores that were worked through by hand, on devices in memory.

use sector_dev::{Device, MemDevice, SECTOR};
use std::alloc::Global;
use std::test::Fail;
use store_layout::{LEAST_CHECKPOINT, LEAST_JOURNAL};
use store_open::{Geometry, OpenError, Store, format, open};
use test_support::{SEGMENT, leaving_by};

/// The least sizes that are allowed: sector 0, and then for each half two sectors of checkpoint
/// area, a gate, and 516 sectors of journal.
pub(crate) const LEAST: Geometry = Geometry {
    checkpoint: LEAST_CHECKPOINT,
    journal: LEAST_JOURNAL,
};

/// How many sectors a store of these sizes takes.
pub(crate) const SECTORS: u64 = 1039;

/// What is before the rows: PCKP, version 2, epoch 7, place 258, and 3 rows in 279 bytes.
const FRONT: [u8; 32] = [
    0x50, 0x43, 0x4b, 0x50, 0, 0, 0, 2, // the magic, the version
    0, 0, 0, 0, 0, 0, 0, 7, // the epoch
    0, 0, 0, 0, 0, 0, 1, 2, // the place
    0, 0, 1, 0x17, 0, 0, 0, 3, // the bytes of the rows, their count
];

/// A group at place 258: one command, which purges what expires before moment 5, and so no row.
const PURGE: [u8; 29] = [
    1, 1, 0, 0, 0, 0, 0, 13, 0, 0, 0, 0, 0, 0, 1, 2, // the header
    0, 0, 0, 9, 2, 0, 0, 0, 0, 0, 0, 0, 5, // its length, and the command
];

/// The header of a group at place 258 of twelve commands, whose records have 1,188 bytes.
const TWELVE: [u8; 16] = [1, 12, 0, 0, 0, 0, 0x04, 0xa4, 0, 0, 0, 0, 0, 0, 1, 2];

/// Before the segment in the record of a command that registers it, as a down segment.
pub(crate) const REGISTER: [u8; 11] = [0, 0, 0, 95, 1, 1, 2, 0, 0, 0, 88];

/// A seal at place 259.
const SEAL: [u8; 16] = [2, 0, 0, 0, 0, 0, 0, 0, 0, 0, 0, 0, 0, 0, 1, 3];

/// What is in a store's first half besides its three rows: the head's version and epoch, and
/// whether the journal is sealed, or goes on with the registration of twelve segments more.
#[derive(Clone, Copy)]
pub(crate) struct Worked {
    pub(crate) version: u8,
    pub(crate) epoch: [u8; 8],
    pub(crate) sealed: bool,
    pub(crate) twelve: bool,
}

/// Version 2, epoch 7, and a journal with the one purge.
pub(crate) const PLAIN: Worked = Worked {
    version: 2,
    epoch: [0, 0, 0, 0, 0, 0, 0, 7],
    sealed: false,
    twelve: false,
};

/// Reads a sector that the device has.
pub(crate) fn read_sector<D: Device>(device: &mut D, at: u64) -> Option<[u8; 512]> {
    let mut sector = [0; SECTOR];
    if device.sectors() <= at || device.read(at, &mut sector).is_err() {
        return None;
    }
    Some(sector)
}

/// Writes whole sectors that begin with these bytes, zeros after them. It takes no memory.
pub(crate) fn put(device: &mut MemDevice, at: u64, bytes: &[u8]) -> Result<(), Fail> {
    let mut at = at;
    for part in bytes.chunks(SECTOR) {
        let mut sector = [0; SECTOR];
        for (byte, wanted) in sector.iter_mut().zip(part) {
            *byte = *wanted;
        }
        if at < device.sectors() {
            device.write(at, &sector)?;
            at += 1;
        }
    }
    Ok(())
}

/// Puts these bytes into a sector from an offset on. It takes no memory.
pub(crate) fn change(
    device: &mut MemDevice,
    at: u64,
    from: usize,
    bytes: &[u8],
) -> Result<(), Fail> {
    let mut sector = read_sector(device, at).unwrap_or([0; SECTOR]);
    for (byte, wanted) in sector.iter_mut().skip(from).zip(bytes) {
        *byte = *wanted;
    }
    put(device, at, &sector)
}

/// A store that is new. It takes memory once.
pub(crate) fn new_store(alloc: Global) -> Result<MemDevice, Fail> {
    let mut device = MemDevice::new(alloc, SECTORS)?;
    format(&mut device, LEAST)?;
    Ok(device)
}

/// Adds the bytes of the first half's checkpoint: its front, and three rows of one segment.
fn add_area(bytes: &mut Vec<u8>, worked: Worked) -> Result<(), Fail> {
    bytes.extend_from_slice(&FRONT)?;
    for kind in [1, 2, 3] {
        bytes.extend_from_slice(&[kind, 0, 0, 0, 88])?;
        bytes.extend_from_slice(&SEGMENT)?;
    }
    for (byte, wanted) in bytes
        .iter_mut()
        .skip(7)
        .zip([worked.version].iter().chain(&worked.epoch))
    {
        *byte = *wanted;
    }
    Ok(())
}

/// Adds the payload of the journal's group.
fn add_group(bytes: &mut Vec<u8>, worked: Worked) -> Result<(), Fail> {
    if !worked.twelve {
        bytes.extend_from_slice(&PURGE)?;
        return Ok(());
    }
    bytes.extend_from_slice(&TWELVE)?;
    for egress in 2..14 {
        bytes.extend_from_slice(&REGISTER)?;
        bytes.extend_from_slice(&leaving_by(egress))?;
    }
    Ok(())
}

/// Writes what is in the first half of a store, with room for its bytes.
fn put_worked(device: &mut MemDevice, bytes: &mut Vec<u8>, worked: Worked) -> Result<(), Fail> {
    add_area(bytes, worked)?;
    put(device, 1, bytes)?;
    bytes.clear();
    add_group(bytes, worked)?;
    put(device, 5, bytes)?;
    if worked.sealed {
        put(device, 7, &SEAL)?;
        put(device, 6, &[0xa7])?;
    }
    put(device, 4, &[0xa7])?;
    device.sync()?;
    Ok(())
}

/// A store with three rows, of 93 bytes each, at place 259. It takes memory twice.
pub(crate) fn worked_store(alloc: Global, worked: Worked) -> Result<MemDevice, Fail> {
    let mut device = new_store(alloc)?;
    let mut bytes = Vec::with_capacity(alloc, 1536)?;
    put_worked(&mut device, &mut bytes, worked)?;
    Ok(device)
}

/// Opens a device. Where memory is refused, it is tried once more.
pub(crate) fn opened(alloc: Global, device: MemDevice) -> Result<Store<MemDevice>, Fail> {
    let again = match open(alloc, device) {
        Err((device, OpenError::NoMemory)) => open(alloc, device),
        answer => answer,
    };
    match again {
        Ok(store) => Ok(store),
        Err((_device, e)) => Err(e)?,
    }
}
