//! Stores on devices in memory, and commands.

use path_db::{Command, PathDb, Registration};
use sector_dev::{Device, MemDevice, SECTOR};
use seg_core::{SegType, Segment, read_segment};
use std::alloc::{AllocError, Global};
use store_open::{Geometry, OpenError, Store, format, open};
use test_fault_devices::Tear;
use test_support::{TestHost, assert_same, assert_true, leaving_by};

/// The least sizes that are allowed: sector 0, and then for each half two sectors of checkpoint
/// area, a gate, and 516 sectors of journal.
pub const LEAST: Geometry = Geometry {
    checkpoint: 2,
    journal: 516,
};

/// How many sectors a store of these sizes takes.
pub const SECTORS: u64 = 1039;

/// How many groups of one purge its journal has room for.
pub const GROUPS: u64 = 257;

/// How many changes of a device are noted at most.
pub const MOST_CHANGES: usize = 1000;

/// A group of one command at place 0, which registers one segment as a down segment: what is before
/// the segment.
pub const REGISTERED: [u8; 27] = [
    1, 1, 0, 0, 0, 0, 0, 99, 0, 0, 0, 0, 0, 0, 0, 0, // the header
    0, 0, 0, 95, 1, 1, 2, 0, 0, 0, 88, // the record up to the segment
];

/// A seal at place 1.
pub const SEAL: [u8; 16] = [2, 0, 0, 0, 0, 0, 0, 0, 0, 0, 0, 0, 0, 0, 0, 1];

/// What becomes of a write at a stop: no byte of it, one byte or one sector lands, and its other
/// bytes become zero or 0xa7.
pub const TEARS: [Tear; 6] = [
    Tear { keep: 0, fill: 0 },
    Tear {
        keep: 0,
        fill: 0xa7,
    },
    Tear { keep: 1, fill: 0 },
    Tear {
        keep: 1,
        fill: 0xa7,
    },
    Tear { keep: 512, fill: 0 },
    Tear {
        keep: 512,
        fill: 0xa7,
    },
];

/// A sector that the device has; zeros where it cannot be read.
pub fn read_sector<D: Device>(device: &mut D, at: u64) -> [u8; 512] {
    let mut sector = [0; SECTOR];
    if device.sectors() <= at || device.read(at, &mut sector).is_err() {
        return [0; SECTOR];
    }
    sector
}

/// Puts these bytes into a sector from an offset on.
pub fn change(device: &mut MemDevice, at: u64, from: usize, bytes: &[u8]) {
    let mut sector = read_sector(device, at);
    for (byte, wanted) in sector.iter_mut().skip(from).zip(bytes) {
        *byte = *wanted;
    }
    if at < device.sectors() {
        let _ = device.write(at, &sector);
        let _ = device.sync();
    }
}

/// A new store of these sizes, on at most 4,096 sectors. Where memory is refused, it is asked for
/// once more.
pub fn formatted(rt: &impl TestHost, alloc: Global, geometry: Geometry, sectors: u64) -> MemDevice {
    assert_true(rt, sectors <= 4096, "a store has at most 4,096 sectors");
    let made = match MemDevice::new(alloc, sectors) {
        Err(_) => MemDevice::new(alloc, sectors),
        made => made,
    };
    let Ok(mut device) = made else {
        rt.fail("out of memory");
    };
    assert_same(rt, &format(&mut device, geometry), &Ok(()), &"a new store");
    device
}

/// A new store of the least sizes.
pub fn new_store(rt: &impl TestHost, alloc: Global) -> MemDevice {
    formatted(rt, alloc, LEAST, SECTORS)
}

/// A new store of version 1.
pub fn old_store(rt: &impl TestHost, alloc: Global) -> MemDevice {
    let mut device = new_store(rt, alloc);
    change(&mut device, 1, 7, &[1]);
    device
}

/// The segment, its first AS being left by this interface, below 128.
pub fn segment(egress: u8) -> [u8; 88] {
    leaving_by(egress)
}

/// Where in the segment its first AS's entry ends.
const FIRST_END: usize = 53;

/// How many bytes its last AS's entry has before its signed message: its tag and its length.
const LENGTH: usize = 2;

/// How many bytes of extensions make a segment as large as it may be: 16,384 bytes.
const EXTENSIONS: usize = 16_292;

/// That segment, but with extensions in its last entry, unless memory is refused. It was made this
/// number of seconds after the first of its kind, which was made 128 seconds before the other.
fn large_bytes(alloc: Global, egress: u8, later: u8) -> Result<Vec<u8>, AllocError> {
    let mut message = segment(egress);
    // The number of seconds, 7 bits in a byte, lowest first.
    message[3] = 0x80 | later;
    message[4] = 0xe1;
    let (first, last) = message.split_at(FIRST_END);
    let mut bytes = Vec::from_slice(alloc, first)?;
    bytes.extend_from_slice(&[0x12, 0xc8, 0x7f])?;
    bytes.extend_from_slice(last.split_at(LENGTH).1)?;
    bytes.extend_from_slice(&[0x12, 0xa4, 0x7f])?;
    bytes.extend_from_slice(&[0; EXTENSIONS])?;
    Ok(bytes)
}

/// The command that registers large segments as down segments, left by these interfaces. Where
/// memory is refused, it is asked for once more.
pub fn large(rt: &impl TestHost, alloc: Global, egresses: &[u8], later: u8) -> Command {
    let made = match large_registration(alloc, egresses, later) {
        None => large_registration(alloc, egresses, later),
        made => made,
    };
    match made {
        Some(registration) => Command::Register(registration),
        None => rt.fail("out of memory"),
    }
}

/// That registration, unless memory is refused.
fn large_registration(alloc: Global, egresses: &[u8], later: u8) -> Option<Registration> {
    let mut rows = Vec::new(alloc);
    for egress in egresses {
        let message = large_bytes(alloc, *egress, later).ok()?;
        push_row(alloc, &mut rows, &message)?;
    }
    Some(Registration::new(rows))
}

/// Appends a segment as a down segment, unless memory is refused.
fn push_row(alloc: Global, rows: &mut Vec<(SegType, Segment)>, message: &[u8]) -> Option<()> {
    let segment = read_segment(alloc, message).ok()?;
    rows.push((SegType::Down, segment)).ok()
}

/// The bytes of the first sectors of a device, at most 4,096 of them. Where memory is refused, it
/// is asked for once more.
pub fn bytes_of<D: Device>(
    rt: &impl TestHost,
    alloc: Global,
    device: &mut D,
    sectors: usize,
) -> Vec<u8> {
    assert_true(rt, sectors <= 4096, "a store has at most 4,096 sectors");
    let made = match vec![in alloc; 0; SECTOR * sectors] {
        Err(_) => vec![in alloc; 0; SECTOR * sectors],
        made => made,
    };
    let Ok(mut bytes) = made else {
        rt.fail("out of memory");
    };
    assert_true(rt, bytes.len() % SECTOR == 0, "whole sectors are read");
    let count = (bytes.len() / SECTOR) as u64;
    assert_true(rt, count <= device.sectors(), "the device has them");
    assert_true(rt, device.read(0, &mut bytes).is_ok(), "they are read");
    bytes
}

/// A store of version 1 or 2. The journal of its first half registers the segment left by interface
/// 1, and is sealed at place 1.
pub fn sealed_store(rt: &impl TestHost, alloc: Global, version: u8) -> MemDevice {
    let mut device = new_store(rt, alloc);
    change(&mut device, 1, 7, &[version]);
    change(&mut device, 5, 0, &REGISTERED);
    change(&mut device, 5, REGISTERED.len(), &segment(1));
    change(&mut device, 7, 0, &SEAL);
    change(&mut device, 6, 0, &[0xa7]);
    change(&mut device, 4, 0, &[0xa7]);
    device
}

/// Opens a device. Where memory is refused, it is tried once more.
pub fn opened<D: Device>(rt: &impl TestHost, alloc: Global, device: D) -> Store<D> {
    let again = match open(alloc, device) {
        Err((device, OpenError::NoMemory)) => open(alloc, device),
        answer => answer,
    };
    match again {
        Ok(store) => store,
        Err((_device, e)) => rt.fail(format_args!("{e:?}")),
    }
}

/// What a store has: how many rows, how many bytes their records take, and the place.
#[derive(Clone, Copy, Debug, PartialEq, Eq)]
pub struct Contents {
    pub rows: usize,
    pub bytes: u64,
    pub place: u64,
}

impl Contents {
    /// No rows, at a place.
    pub fn empty_at(place: u64) -> Contents {
        Contents {
            rows: 0,
            bytes: 0,
            place,
        }
    }
}

/// What a store of these rows at a place has.
pub fn contents_at(db: &PathDb, place: u64) -> Contents {
    Contents {
        rows: db.rows().count(),
        bytes: db.encoded_len(),
        place,
    }
}

/// What a store has.
pub fn contents_of<D: Device>(store: &Store<D>) -> Contents {
    contents_at(store.db(), store.place())
}

/// Opens a device: what its store has, and the device.
pub fn opened_contents<D: Device>(rt: &impl TestHost, alloc: Global, device: D) -> (Contents, D) {
    let store = opened(rt, alloc, device);
    let contents = contents_of(&store);
    (contents, store.into_device())
}

/// Sees what a store has.
pub fn assert_contents(rt: &impl TestHost, contents: Contents, wanted: Contents) {
    assert_same(rt, &contents, &wanted, &"rows and place");
}

/// Opens a device, and sees what its store has: the device.
pub fn assert_opens_to<D: Device>(
    rt: &impl TestHost,
    alloc: Global,
    device: D,
    wanted: Contents,
) -> D {
    let (contents, device) = opened_contents(rt, alloc, device);
    assert_contents(rt, contents, wanted);
    device
}

/// Sees of which epoch a store's half is, and whether its journal is sealed.
pub fn assert_half<D: Device>(rt: &impl TestHost, store: &Store<D>, wanted: (u64, bool)) {
    let half = (store.epoch(), store.is_sealed());
    assert_same(rt, &half, &wanted, &"a half's epoch and seal");
}

/// The command that registers the segment as a down segment, its first AS being left by this
/// interface, below 128, this number of times. Where memory is refused, it is asked for once more.
pub fn register(rt: &impl TestHost, alloc: Global, egress: u8, times: usize) -> Command {
    let made = match registration(alloc, egress, times) {
        None => registration(alloc, egress, times),
        made => made,
    };
    match made {
        Some(registration) => Command::Register(registration),
        None => rt.fail("out of memory"),
    }
}

/// That registration, unless memory is refused.
fn registration(alloc: Global, egress: u8, times: usize) -> Option<Registration> {
    let message = segment(egress);
    let mut rows = Vec::new(alloc);
    for _each in 0..times {
        push_row(alloc, &mut rows, &message)?;
    }
    Some(Registration::new(rows))
}
