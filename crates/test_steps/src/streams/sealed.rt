//! Stores of which a half of rows has a sealed journal.

use ckpt_pair::encode_checkpoint;
use gate_journal::{can_be_group, encode_group, encode_seal};
use path_db::{Command, PathDb};
use sector_dev::{Device, MemDevice, SECTOR};
use std::alloc::Global;
use store_open::Geometry;
use test_group_scripts::stores::{change, formatted};
use test_support::{TestHost, assert_true};

/// Areas for some 5,000 small rows, and a journal for some 3,000.
pub const WIDE: Geometry = Geometry {
    checkpoint: 1000,
    journal: 700,
};

/// How many sectors a store of these sizes takes.
pub const SECTORS: u64 = 3403;

/// The sectors at which the first half's area and its journal begin.
pub const FIRST_AREA: u64 = 1;

const FIRST_JOURNAL: u64 = 1002;

/// The sector at which the second half's area begins, and how many sectors each area has.
pub const SECOND_AREA: u64 = 1702;

pub const AREA: u64 = 1000;

/// The most commands of a group here: their records have at most 262,144 bytes.
const GROUP: usize = 16;

/// Writes whole sectors.
pub fn put(rt: &impl TestHost, device: &mut MemDevice, at: u64, bytes: &[u8]) {
    assert_true(rt, bytes.len() % SECTOR == 0, "whole sectors are written");
    let count = (bytes.len() / SECTOR) as u64;
    let sectors = device.sectors();
    assert_true(rt, at <= sectors, "the device reaches there");
    assert_true(rt, count <= sectors - at, "the device has them");
    assert_true(rt, device.write(at, bytes).is_ok(), "they are written");
}

/// Rows as the checkpoint of an epoch and a place. Where memory is refused, it is asked for once
/// more.
pub fn checkpoint_of(
    rt: &impl TestHost,
    alloc: Global,
    db: &PathDb,
    epoch: u64,
    place: u64,
) -> Vec<u8> {
    assert_true(rt, db.encoded_len() < 1_000_000, "the rows fit an area");
    let made = match encode_checkpoint(alloc, db, epoch, place) {
        Err(_) => encode_checkpoint(alloc, db, epoch, place),
        made => made,
    };
    match made {
        Ok(bytes) => bytes,
        Err(_) => rt.fail("out of memory"),
    }
}

/// Commands as the payload of a group. Where memory is refused, it is asked for once more.
fn payload_of(rt: &impl TestHost, alloc: Global, group: &[Command], place: u64) -> Vec<u8> {
    assert_true(rt, can_be_group(group, place), "the commands fit a group");
    let made = match encode_group(alloc, group, place) {
        Err(_) => encode_group(alloc, group, place),
        made => made,
    };
    match made {
        Ok(bytes) => bytes,
        Err(_) => rt.fail("out of memory"),
    }
}

/// Writes a payload and opens the gate before it: the sector of the next gate.
fn put_payload(rt: &impl TestHost, device: &mut MemDevice, gate: u64, payload: &[u8]) -> u64 {
    let first = gate.saturating_add(1);
    put(rt, device, first, payload);
    change(device, gate, 0, &[0xa7]);
    first.saturating_add((payload.len() / SECTOR) as u64)
}

/// Writes commands as the journal that begins at this gate, and a seal after them.
fn put_journal(
    rt: &impl TestHost,
    alloc: Global,
    device: &mut MemDevice,
    gate: u64,
    commands: &[Command],
) {
    let mut gate = gate;
    let mut place = 0u64;
    for group in commands.chunks(GROUP) {
        gate = put_payload(rt, device, gate, &payload_of(rt, alloc, group, place));
        place = place.saturating_add(group.len() as u64);
    }
    let _next = put_payload(rt, device, gate, &encode_seal(place));
}

/// A store whose first half has these rows, with a sealed journal of these commands. Where memory
/// is refused, it is asked for once more.
pub fn sealed_half(
    rt: &impl TestHost,
    alloc: Global,
    db: &PathDb,
    commands: &[Command],
) -> MemDevice {
    let mut device = formatted(rt, alloc, WIDE, SECTORS);
    put(
        rt,
        &mut device,
        FIRST_AREA,
        &checkpoint_of(rt, alloc, db, 1, 0),
    );
    put_journal(rt, alloc, &mut device, FIRST_JOURNAL, commands);
    assert_true(rt, device.sync().is_ok(), "the store is synced");
    device
}

/// The bytes of some sectors, at most 4,096, from one on. Where memory is refused, it is asked for
/// once more.
pub fn sectors_from(
    rt: &impl TestHost,
    alloc: Global,
    device: &mut MemDevice,
    at: u64,
    count: usize,
) -> Vec<u8> {
    assert_true(rt, count <= 4096, "a store has at most 4,096 sectors");
    let made = match vec![in alloc; 0; SECTOR * count] {
        Err(_) => vec![in alloc; 0; SECTOR * count],
        made => made,
    };
    let Ok(mut bytes) = made else {
        rt.fail("out of memory");
    };
    fill(rt, device, at, &mut bytes);
    bytes
}

/// Reads whole sectors.
fn fill(rt: &impl TestHost, device: &mut MemDevice, at: u64, bytes: &mut [u8]) {
    assert_true(rt, bytes.len() % SECTOR == 0, "whole sectors are read");
    let count = (bytes.len() / SECTOR) as u64;
    let sectors = device.sectors();
    assert_true(rt, at <= sectors, "the device reaches there");
    assert_true(rt, count <= sectors - at, "the device has them");
    assert_true(rt, device.read(at, bytes).is_ok(), "they are read");
}
