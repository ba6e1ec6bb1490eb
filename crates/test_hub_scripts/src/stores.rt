//! Stores on devices in memory, commands, and queries.

use group_core::{Receipt, Redeemed, Ticket};
use hub_claims::HubError;
use isd_as::IsdAs;
use path_db::{Command, Registration};
use path_hub::{Awaited, Ended, HubLeft, Reserved, Steps};
use sector_dev::{Device, MemDevice, SECTOR};
use seg_core::{SegType, read_segment};
use seg_lookup::Query;
use std::alloc::Global;
use store_open::{Geometry, Store, format};
use test_group_scripts::stores::{REGISTERED, SEAL};
pub use test_group_scripts::stores::{
    Contents, LEAST, assert_contents, assert_opens_to, change, contents_of, opened,
};
use test_support::{SEGMENT, TestHost, assert_same, assert_true, leaving_by};

/// How long a commit is waited for, in rests of at most 10 milliseconds.
const MOST_RESTS: u64 = 3000;

/// Where in the segment the lowest seven bits of its first AS are, beside a bit that is set.
const FIRST_AS: usize = 19;

/// Sizes with room for 175 rows of the segments here, which take 93 bytes each. The least sizes
/// have room for ten.
pub const WIDE: Geometry = Geometry {
    checkpoint: 32,
    journal: 516,
};

/// A new store of these sizes. Where memory is refused, it is asked for once more.
pub fn formatted(rt: &impl TestHost, alloc: Global, geometry: Geometry) -> MemDevice {
    let sectors = geometry.sectors();
    assert_true(rt, sectors <= 4096, "a store has at most 4,096 sectors");
    let made = match MemDevice::new(alloc, sectors) {
        Err(_) => MemDevice::new(alloc, sectors),
        made => made,
    };
    let Ok(mut device) = made else {
        rt.fail("out of memory");
    };
    assert_same(rt, &format(&mut device, geometry), &Ok(()), &"a new store");
    device
}

/// The bytes of a device of at most 4,096 sectors.
pub fn bytes_of(rt: &impl TestHost, alloc: Global, device: &mut MemDevice) -> Vec<u8> {
    let sectors = device.sectors();
    assert_true(rt, sectors <= 4096, "a store has at most 4,096 sectors");
    let Ok(mut bytes) = vec![in alloc; 0; SECTOR * sectors as usize] else {
        rt.fail("out of memory");
    };
    assert_true(rt, bytes.len() % SECTOR == 0, "whole sectors are read");
    let count = (bytes.len() / SECTOR) as u64;
    assert_true(rt, count <= device.sectors(), "the device has them");
    assert_true(rt, device.read(0, &mut bytes).is_ok(), "they are read");
    bytes
}

/// The device with these bytes.
pub fn restored(rt: &impl TestHost, device: MemDevice, bytes: &[u8]) -> MemDevice {
    let mut device = device;
    assert_true(rt, bytes.len() % SECTOR == 0, "whole sectors are written");
    let count = (bytes.len() / SECTOR) as u64;
    assert_true(rt, count <= device.sectors(), "the device has them");
    assert_true(rt, device.write(0, bytes).is_ok(), "they are written");
    assert_true(rt, device.sync().is_ok(), "they are synced");
    device
}

/// A store of the least sizes whose first journal has one group: it registers the segment, so the
/// store has one row, at place 1.
pub fn one_row(rt: &impl TestHost, alloc: Global) -> MemDevice {
    let mut device = formatted(rt, alloc, LEAST);
    change(&mut device, 5, 0, &REGISTERED);
    change(&mut device, 5, REGISTERED.len(), &SEGMENT);
    change(&mut device, 4, 0, &[0xa7]);
    device
}

/// The same store with its first journal sealed.
pub fn sealed_row(rt: &impl TestHost, alloc: Global) -> MemDevice {
    let mut device = one_row(rt, alloc);
    change(&mut device, 7, 0, &SEAL);
    change(&mut device, 6, 0, &[0xa7]);
    device
}

/// A new store of the least sizes.
pub fn new_store(rt: &impl TestHost, alloc: Global) -> Store<MemDevice> {
    opened(rt, alloc, formatted(rt, alloc, LEAST))
}

/// The command that registers the segment as a down segment, its first AS being 1-ff00:0:100 and
/// `origin` more, and being left by the interface `egress`; both are below 128. None where memory
/// is refused.
pub fn register(alloc: Global, origin: u8, egress: u8) -> Option<Command> {
    let mut message = leaving_by(egress);
    message[FIRST_AS] = 0x80 | origin;
    let segment = read_segment(alloc, &message).ok()?;
    let mut rows = Vec::new(alloc);
    rows.push((SegType::Down, segment)).ok()?;
    Some(Command::Register(Registration::new(rows)))
}

/// A store for a hub whose device the test does not take back.
pub fn reserved<D: Device>(store: Store<D>) -> Reserved<D> {
    let (store, _release) = Reserved::of(store);
    store
}

/// What came of a job. The device is dropped, with the log that is left.
pub fn ended<D: Device + Drop, J: Drop, T>(
    rt: &impl TestHost,
    done: Result<(T, Ended<D>, HubLeft), (Reserved<D>, J, HubError)>,
) -> T {
    match done {
        Ok((out, _end, _left)) => out,
        Err((_store, _job, e)) => rt.fail(format_args!("{e:?}")),
    }
}

/// Waits until a ticket's command is committed: its receipt, or none where the state has stopped.
/// Where neither comes about in time, the test ends.
pub fn receipt_of<S: Steps>(
    rt: &impl TestHost,
    steps: &S,
    ticket: Ticket,
) -> Option<Receipt<S::Note>> {
    let mut ticket = ticket;
    for _ in 0..MOST_RESTS {
        let seen = steps.changes(Awaited::Work);
        match steps.redeem(ticket) {
            Redeemed::Committed(receipt) => return Some(receipt),
            Redeemed::Unknown(_place) => return None,
            Redeemed::Waiting(back) => ticket = back,
            Redeemed::Stranger(back) => ticket = back,
        }
        steps.rest(Awaited::Work, seen);
    }
    rt.fail("a command is not committed")
}

/// All down segments.
pub fn query() -> Query {
    Query {
        kind: SegType::Down,
        start: IsdAs::from_u64(0),
        end: IsdAs::from_u64(0),
    }
}

/// The down segments whose first AS is 1-ff00:0:100 and `origin` more.
pub fn query_from(origin: u8) -> Query {
    Query {
        kind: SegType::Down,
        start: IsdAs::from_u64(0x0001_ff00_0000_0100 + u64::from(origin)),
        end: IsdAs::from_u64(0),
    }
}
