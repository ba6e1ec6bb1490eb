//! Stores as a stop leaves them while a checkpoint takes over, on devices in memory.

use crate::openings::answers::Held;
use crate::openings::stores::{PLAIN, REGISTER, Worked, put, read_sector, worked_store};
use sector_dev::{Device, MemDevice, SECTOR};
use std::alloc::Global;
use std::test::Fail;
use test_support::leaving_by;

/// What such a store represents: four rows, at place 260.
pub(crate) const HELD: Held = Held {
    rows: 4,
    bytes: 372,
    place: 260,
};

/// The header of a group at place 259 of one command, whose record has 99 bytes.
const ONE: [u8; 16] = [1, 1, 0, 0, 0, 0, 0, 99, 0, 0, 0, 0, 0, 0, 1, 3];

/// A store whose first half, of epoch 7, has three rows at place 258, and a journal that purges
/// none of them and is sealed at place 259. The tail in the second half's journal registers a
/// fourth row. The second half's area has the checkpoint of the three rows, of epoch 8 at place
/// 259; its gate is open too or is still closed. It takes memory twice.
pub(crate) fn stopped_store(alloc: Global, both_are_open: bool) -> Result<MemDevice, Fail> {
    let sealed = Worked {
        sealed: true,
        ..PLAIN
    };
    let mut device = worked_store(alloc, sealed)?;
    put_second(&mut device, both_are_open)?;
    Ok(device)
}

/// Writes what is in the second half of such a store.
fn put_second(device: &mut MemDevice, is_open: bool) -> Result<(), Fail> {
    let mut area = read_sector(device, 1).unwrap_or([0; SECTOR]);
    area[15] = 8;
    area[23] = 3;
    put(device, 520, &area)?;
    put(device, 524, &tail())?;
    put(device, 523, &[0xa7])?;
    if is_open {
        put(device, 522, &[0xa7])?;
    }
    device.sync()?;
    Ok(())
}

/// The payload of the tail's group: the segment is registered with another id.
fn tail() -> [u8; 512] {
    let mut sector = [0; SECTOR];
    for (byte, wanted) in sector
        .iter_mut()
        .zip(ONE.iter().chain(&REGISTER).chain(&leaving_by(2)))
    {
        *byte = *wanted;
    }
    sector
}
