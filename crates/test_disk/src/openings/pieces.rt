//! Checkpoints at rest that are more than one piece.

use crate::checks::done;
use crate::host::Host;
use crate::openings::answers::{Held, assert_store, usable};
use crate::openings::stores::{opened, put, read_sector};
use path_db::PathDb;
use path_records::{read_command, write_rows};
use sector_dev::{Device, MemDevice};
use std::alloc::Global;
use std::test::Fail;
use store_layout::Half;
use store_open::{Geometry, format};
use test_support::{TestHost, assert_same, leaving_by};

/// 512 KiB of checkpoint area.
const LARGE: Geometry = Geometry {
    checkpoint: 1024,
    journal: 516,
};

/// What the store represents: 3,000 rows of 93 bytes each, at place 258.
const HELD: Held = Held {
    rows: 3000,
    bytes: 279_000,
    place: 258,
};

/// How many sectors such a checkpoint takes.
const TAKEN: u64 = 545;

/// What is before the rows: PCKP, version 2, epoch 7, place 258, and 3,000 rows in 279,000 bytes.
const FRONT: [u8; 32] = [
    0x50, 0x43, 0x4b, 0x50, 0, 0, 0, 2, // the magic, the version
    0, 0, 0, 0, 0, 0, 0, 7, // the epoch
    0, 0, 0, 0, 0, 0, 1, 2, // the place
    0, 4, 0x41, 0xd8, 0, 0, 0x0b, 0xb8, // the bytes of the rows, their count
];

/// Where in the segment the last number of its first AS begins.
const FIRST: usize = 19;

/// Registers a segment with these numbers as a down segment.
fn register(alloc: Global, db: &mut PathDb, first: u8, egress: u8) -> Result<(), Fail> {
    let mut segment = leaving_by(egress);
    segment[FIRST] = first;
    let mut bytes = Vec::with_capacity(alloc, 96)?;
    bytes.extend_from_slice(&[1, 1, 2, 0, 0, 0, 88])?;
    bytes.extend_from_slice(&segment)?;
    db.apply(&read_command(alloc, &bytes, true)?)?;
    Ok(())
}

/// 3,000 segments.
fn large_db(alloc: Global) -> Result<PathDb, Fail> {
    let mut db = PathDb::new(alloc);
    for first in 0xa0..0xbe {
        for egress in 2..102 {
            register(alloc, &mut db, first, egress)?;
        }
    }
    Ok(db)
}

/// Writes a checkpoint of these rows.
fn put_rows(alloc: Global, device: &mut MemDevice, db: &PathDb) -> Result<(), Fail> {
    let mut bytes = Vec::new(alloc);
    bytes.extend_from_slice(&FRONT)?;
    write_rows(db, &mut bytes)?;
    put(device, 1, &bytes)
}

/// Makes a store with 3,000 rows.
fn put_large(alloc: Global, device: &mut MemDevice) -> Result<(), Fail> {
    format(device, LARGE)?;
    let db = large_db(alloc)?;
    put_rows(alloc, device, &db)
}

/// A store with 3,000 rows.
fn large_store(alloc: Global) -> Result<MemDevice, Fail> {
    let mut device = MemDevice::new(alloc, LARGE.sectors())?;
    put_large(alloc, &mut device)?;
    device.sync()?;
    Ok(device)
}

/// Sees that the sectors of both areas are the same, but for the first one.
fn assert_copied(rt: &impl TestHost, device: &mut MemDevice) {
    for sector in 1..TAKEN {
        let old = read_sector(device, LARGE.area_at(Half::First).saturating_add(sector));
        let new = read_sector(device, LARGE.area_at(Half::Second).saturating_add(sector));
        assert_same(rt, &(new == old), &true, &sector);
    }
}

/// Makes a checkpoint of that store: the device.
fn checkpointed(rt: &impl TestHost, alloc: Global, device: MemDevice) -> Result<MemDevice, Fail> {
    let mut store = opened(alloc, device)?;
    assert_store(rt, &store, HELD, usable(7, 2));
    assert_same(rt, &store.checkpoint(), &Ok(()), &"checkpoint");
    assert_store(rt, &store, HELD, usable(8, 2));
    Ok(store.into_device())
}

/// Sees that a device opens to the rows after that.
fn assert_opens(rt: &impl TestHost, alloc: Global, device: MemDevice) -> Result<(), Fail> {
    let store = opened(alloc, device)?;
    assert_store(rt, &store, HELD, usable(8, 2));
    let _device = store.into_device();
    Ok(())
}

#[test]
fn all_pieces_are_there(rt: HostRuntime) {
    let host = Host(&rt);
    let device = done(&rt, large_store(rt.alloc()));
    let mut device = done(&rt, checkpointed(&host, rt.alloc(), device));
    assert_copied(&host, &mut device);
    done(&rt, assert_opens(&host, rt.alloc(), device));
}
