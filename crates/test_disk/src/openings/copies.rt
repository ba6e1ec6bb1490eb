//! Copies of a store at rest, of other sizes: what they open to, each refusal, and a stop at every
//! call.

use crate::checks::done;
use crate::host::Host;
use crate::openings::answers::{Held, assert_store, held_by, usable};
use crate::openings::stores::{LEAST, PLAIN, SECTORS, Worked, opened, read_sector, worked_store};
use path_db::PathDb;
use sector_dev::{MemDevice, SECTOR};
use std::alloc::Global;
use std::test::Fail;
use store_open::{CopyError, Geometry, format_with, open};
use test_fault_devices::{FuseDevice, Tear};
use test_support::{TestHost, assert_same};

/// Sizes that are larger than the least ones, and the sectors of a store of them.
const LARGER: Geometry = Geometry {
    checkpoint: 3,
    journal: 517,
};

const LARGER_SECTORS: u64 = 1043;

/// What the worked store represents: three rows, at place 259.
const HELD: Held = Held {
    rows: 3,
    bytes: 279,
    place: 259,
};

/// How many calls of the device a copy makes: a sync, and five writes with a sync after each.
const CALLS: u64 = 11;

/// The call that writes the first half's gate.
const GATE_CALL: u64 = 9;

/// The rows of a worked store.
fn rows_of(alloc: Global, worked: Worked) -> Result<PathDb, Fail> {
    let store = opened(alloc, worked_store(alloc, worked)?)?;
    let (_device, rows) = store.into_parts();
    Ok(rows)
}

/// A device with a copy of these rows, of larger sizes.
fn copied(rt: &impl TestHost, alloc: Global, rows: &PathDb) -> Result<MemDevice, Fail> {
    let mut device = MemDevice::new(alloc, LARGER_SECTORS)?;
    let copied = format_with(alloc, &mut device, LARGER, rows, 259);
    assert_same(rt, &copied, &Ok(()), &"copy");
    Ok(device)
}

/// A device with a copy of the worked store's rows.
fn worked_copy(rt: &impl TestHost, alloc: Global) -> Result<MemDevice, Fail> {
    let rows = rows_of(alloc, PLAIN)?;
    copied(rt, alloc, &rows)
}

/// Sees what a device with that copy opens to.
fn assert_opens(rt: &impl TestHost, alloc: Global, device: MemDevice) -> Result<(), Fail> {
    let store = opened(alloc, device)?;
    assert_store(rt, &store, HELD, usable(1, 2));
    assert_same(rt, &store.geometry(), &LARGER, &"sizes");
    let _device = store.into_device();
    Ok(())
}

#[test]
fn copies_open_to_the_rows(rt: HostRuntime) {
    let host = Host(&rt);
    let device = done(&rt, worked_copy(&host, rt.alloc()));
    done(&rt, assert_opens(&host, rt.alloc(), device));
}

/// The sectors of a copy that are not zero after their beginnings: the title, the checkpoint with
/// its three rows, and the gate.
const BEGINNINGS: [(u64, &[u8]); 3] = [
    (
        0,
        b"SCPATHDB\x00\x00\x00\x01\x00\x00\x00\x03\x00\x00\x02\x05",
    ),
    (
        1,
        b"PCKP\x00\x00\x00\x02\x00\x00\x00\x00\x00\x00\x00\x01\x00\x00\x00\x00\x00\x00\x01\x03\x00\x00\x01\x17\x00\x00\x00\x03",
    ),
    (4, b"\xa7\x00"),
];

/// Sees that a sector begins with these bytes.
fn assert_begins(rt: &impl TestHost, device: &mut MemDevice, at: u64, wanted: &[u8]) {
    let sector = read_sector(device, at).unwrap_or([0; SECTOR]);
    assert_same(rt, &sector.starts_with(wanted), &true, &at);
}

/// Sees that a sector is zero.
fn assert_zero(rt: &impl TestHost, device: &mut MemDevice, at: u64) {
    let sector = read_sector(device, at);
    assert_same(rt, &sector, &Some([0; SECTOR]), &at);
}

/// Sees that a device has the bytes of that copy.
fn assert_copy(rt: &impl TestHost, device: &mut MemDevice) {
    for (at, wanted) in &BEGINNINGS {
        assert_begins(rt, device, *at, wanted);
    }
    for at in &[2, 3, 5, 521, 522, 525, 526] {
        assert_zero(rt, device, *at);
    }
}

#[test]
fn a_copy_has_these_bytes(rt: HostRuntime) {
    let host = Host(&rt);
    let mut device = done(&rt, worked_copy(&host, rt.alloc()));
    assert_copy(&host, &mut device);
}

/// Sizes, the sectors of a device, the rows, and why no store of these sizes is made of them there.
#[derive(Clone, Copy)]
struct Refused {
    geometry: Geometry,
    sectors: u32,
    worked: Worked,
    error: CopyError,
}

#[rattlefmt::skip]
const REFUSED: [Refused; 4] = [
    Refused { geometry: Geometry { checkpoint: 1, journal: 516 }, sectors: SECTORS as u32,
        worked: PLAIN, error: CopyError::BadGeometry },
    Refused { geometry: Geometry { checkpoint: 2, journal: 515 }, sectors: SECTORS as u32,
        worked: PLAIN, error: CopyError::BadGeometry },
    Refused { geometry: LEAST, sectors: 1038,
        worked: Worked { twelve: true, ..PLAIN }, error: CopyError::TooSmall },
    Refused { geometry: LEAST, sectors: SECTORS as u32,
        worked: Worked { twelve: true, ..PLAIN }, error: CopyError::Unfit },
];

/// Sees that no store is made of these rows, and that sector 0 stays zero.
fn assert_refused(
    rt: &impl TestHost,
    alloc: Global,
    rows: &PathDb,
    row: &Refused,
) -> Result<(), Fail> {
    let mut device = MemDevice::new(alloc, u64::from(row.sectors))?;
    let refused = format_with(alloc, &mut device, row.geometry, rows, 260);
    assert_same(rt, &refused, &Err(row.error), &row.error);
    assert_zero(rt, &mut device, 0);
    Ok(())
}

/// Sees the same of the rows of a worked store.
fn assert_row_refused(rt: &impl TestHost, alloc: Global, row: &Refused) -> Result<(), Fail> {
    let rows = rows_of(alloc, row.worked)?;
    assert_refused(rt, alloc, &rows, row)
}

#[test]
fn copies_are_refused_in_order(rt: HostRuntime) -> Result<(), Fail> {
    let host = Host(&rt);
    for row in &REFUSED {
        assert_row_refused(&host, rt.alloc(), row)?;
    }
    Ok(())
}

/// Sees that what a stop left of a copy does not open, or opens to the rows: whether it opens.
fn opens_whole(rt: &impl TestHost, alloc: Global, device: MemDevice) -> bool {
    match open(alloc, device) {
        Ok(store) => {
            assert_same(rt, &held_by(&store), &HELD, &"what the copy holds");
            let _device = store.into_device();
            true
        }
        Err((_device, _error)) => false,
    }
}

/// Stops a copy after this number of calls, and sees whether what is left opens.
fn assert_stop(
    rt: &impl TestHost,
    alloc: Global,
    rows: &PathDb,
    calls: u64,
    tear: Tear,
) -> Result<(), Fail> {
    let mut device = FuseDevice::new(MemDevice::new(alloc, SECTORS)?, calls, tear);
    let stopped = format_with(alloc, &mut device, LEAST, rows, 259);
    let case = (calls, tear.keep, tear.fill);
    assert_same(rt, &stopped, &Err(CopyError::Fault), &case);
    let opens = opens_whole(rt, alloc, device.into_mem());
    let is_gate_open = tear.keep > 0 || tear.fill == 0xa7;
    let wanted = calls > GATE_CALL || (calls == GATE_CALL && is_gate_open);
    assert_same(rt, &opens, &wanted, &case);
    Ok(())
}

/// Stops a copy at every call.
fn assert_stops(rt: &impl TestHost, alloc: Global, rows: &PathDb, tear: Tear) -> Result<(), Fail> {
    for calls in 0..CALLS {
        assert_stop(rt, alloc, rows, calls, tear)?;
    }
    Ok(())
}

/// Stops a copy at every call in each way.
fn assert_all_stops(rt: &impl TestHost, alloc: Global, rows: &PathDb) -> Result<(), Fail> {
    for (keep, fill) in &[(0, 0), (0, 0xa7), (1, 0), (1, 0xa7), (512, 0), (512, 0xa7)] {
        let tear = Tear {
            keep: *keep,
            fill: *fill,
        };
        assert_stops(rt, alloc, rows, tear)?;
    }
    Ok(())
}

#[test]
fn a_stop_at_any_call_leaves_no_copy_or_a_whole_one(rt: HostRuntime) {
    let rows = done(&rt, rows_of(rt.alloc(), PLAIN));
    done(&rt, assert_all_stops(&Host(&rt), rt.alloc(), &rows));
}

#[test]
fn copy_errors_have_numbers_and_texts(rt: HostRuntime) -> Result<(), Fail> {
    let host = Host(&rt);
    let table = [
        (CopyError::BadGeometry, "1 the sizes are not allowed"),
        (CopyError::TooSmall, "2 the device is too small"),
        (
            CopyError::Unfit,
            "3 the rows do not fit the checkpoint area",
        ),
        (CopyError::NoMemory, "4 out of memory"),
        (CopyError::Fault, "5 the device failed"),
    ];
    for (error, wanted) in table {
        let text = format!(in rt.alloc(); "{} {error}", error as u8)?;
        assert_same(&host, &text.as_str(), &wanted, &error);
    }
    Ok(())
}
