//! Bytes in the sectors of a device.
use crate::host::Host;
use byte_lists::{SECTOR, is_open, pad, read_u32, sector_count};
use test_support::{assert_same, assert_true};

// A number, and the first byte of an open gate, in one sector.
#[test]
fn bytes_are_padded(rt: HostRuntime) {
    let host = Host(&rt);
    let mut bytes = Vec::from_slice(rt.alloc(), &[0, 0, 1, 1, 0xa7]).expect(&rt, "bytes");
    assert_same(&host, &read_u32(&bytes, 0), &257, &"the number");
    let opens_there = is_open(&bytes[4..]) && !is_open(&bytes);
    assert_true(&host, opens_there, "the gate alone is open");
    pad(&mut bytes).expect(&rt, "padding");
    assert_same(&host, &bytes.len(), &(SECTOR * sector_count(5)), &"bytes");
}
