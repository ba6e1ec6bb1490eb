//! When segments expire.

use crate::host::Host;
use crate::messages::checked::{EXPIRY, LONG, PEERED, SEGMENT};
use seg_check::{CheckError, TrustAll, check, expiry};
use seg_core::{SegError, read_segment};
use std::alloc::Global;
use std::test::Fail;
use test_support::assert_same;

/// The segment with these exp_times of its two entries, each as a varint of two bytes.
fn with_exp_times(first: [u8; 2], second: [u8; 2]) -> [u8; 90] {
    let mut message = LONG;
    message[41] = first[0];
    message[42] = first[1];
    message[77] = second[0];
    message[78] = second[1];
    message
}

/// The exp_times of the two entries, and the expiry in half seconds: 2 * 1,700,000,000 and 675 for
/// each unit.
#[derive(Clone, Copy)]
struct Times {
    first: [u8; 2],
    second: [u8; 2],
    expiry: u64,
}

#[rattlefmt::skip]
const TIMES: [Times; 5] = [
    Times { first: [0x80, 0x00], second: [0xff, 0x01], expiry: 3_400_000_675 },
    Times { first: [0xbf, 0x00], second: [0x80, 0x00], expiry: 3_400_000_675 },
    Times { first: [0xbf, 0x00], second: [0xff, 0x01], expiry: EXPIRY },
    Times { first: [0xff, 0x01], second: [0xbf, 0x00], expiry: EXPIRY },
    Times { first: [0xff, 0x01], second: [0xff, 0x01], expiry: 3_400_172_800 },
];

/// The expiry of the segment with these exp_times.
fn expiry_of(alloc: Global, first: [u8; 2], second: [u8; 2]) -> Result<u64, SegError> {
    let segment = read_segment(alloc, &with_exp_times(first, second))?;
    Ok(expiry(&segment))
}

#[test]
fn expiry_values(rt: HostRuntime) -> Result<(), Fail> {
    let host = Host(&rt);
    for row in &TIMES {
        let found = expiry_of(rt.alloc(), row.first, row.second)?;
        assert_same(&host, &found, &row.expiry, &(row.first, row.second));
    }
    let refused = expiry_of(rt.alloc(), [0x80, 0x02], [0xff, 0x01]);
    assert_same(&host, &refused, &Err(SegError::Range), &"past the greatest");
    Ok(())
}

// The exp_time of a peer entry does not count.
#[test]
fn peers_do_not_count(rt: HostRuntime) -> Result<(), Fail> {
    let segment = read_segment(rt.alloc(), &PEERED)?;
    assert_eq!(rt; expiry(&segment), EXPIRY);
    Ok(())
}

#[test]
fn expiry_boundary(rt: HostRuntime) -> Result<(), Fail> {
    let host = Host(&rt);
    let segment = read_segment(rt.alloc(), &SEGMENT)?;
    for (now, answer) in [
        (0, Ok(())),
        (EXPIRY - 1, Ok(())),
        (EXPIRY, Err(CheckError::Expired)),
        (u64::MAX, Err(CheckError::Expired)),
    ] {
        assert_same(&host, &check(&segment, &TrustAll, now), &answer, &now);
    }
    Ok(())
}
