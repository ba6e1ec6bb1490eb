//! A fuse that stops at each call in turn.
use crate::devices::calls::{CALLS, assert_answer, assert_sectors};
use crate::host::Host;
use sector_dev::{Device, MemDevice};
use std::test::Fail;
use test_fault_devices::{FuseDevice, Tear};
use test_support::{TestHost, assert_same};

// The byte that fills the torn part of a write.
const FILL: u8 = 0xFF;

// A fuse that stops after a number of calls, and keeps this many bytes of a torn write. What the
// sectors 1, 2 and 3 have then: the first byte of each, and the byte that all others are.
#[derive(Clone, Copy, Debug)]
struct Stop {
    calls: u64,
    keep: usize,
    one: (u8, u8),
    two: (u8, u8),
    three: (u8, u8),
}

#[rattlefmt::skip]
const STOPS: [Stop; 21] = [
    Stop { calls: 0, keep: 0, one: (FILL, FILL), two: (0, 0), three: (0, 0) },
    Stop { calls: 0, keep: 1, one: (0x11, FILL), two: (0, 0), three: (0, 0) },
    Stop { calls: 0, keep: 512, one: (0x11, 0x11), two: (0, 0), three: (0, 0) },
    Stop { calls: 1, keep: 0, one: (0x11, 0x11), two: (0, 0), three: (0, 0) },
    Stop { calls: 1, keep: 1, one: (0x11, 0x11), two: (0, 0), three: (0, 0) },
    Stop { calls: 1, keep: 512, one: (0x11, 0x11), two: (0, 0), three: (0, 0) },
    Stop { calls: 2, keep: 0, one: (0x11, 0x11), two: (0, 0), three: (0, 0) },
    Stop { calls: 2, keep: 1, one: (0x11, 0x11), two: (0, 0), three: (0, 0) },
    Stop { calls: 2, keep: 512, one: (0x11, 0x11), two: (0, 0), three: (0, 0) },
    Stop { calls: 3, keep: 0, one: (0x11, 0x11), two: (FILL, FILL), three: (FILL, FILL) },
    Stop { calls: 3, keep: 1, one: (0x11, 0x11), two: (0x22, FILL), three: (FILL, FILL) },
    Stop { calls: 3, keep: 512, one: (0x11, 0x11), two: (0x22, 0x22), three: (FILL, FILL) },
    Stop { calls: 4, keep: 0, one: (FILL, FILL), two: (0x22, 0x22), three: (0x22, 0x22) },
    Stop { calls: 4, keep: 1, one: (0x33, FILL), two: (0x22, 0x22), three: (0x22, 0x22) },
    Stop { calls: 4, keep: 512, one: (0x33, 0x33), two: (0x22, 0x22), three: (0x22, 0x22) },
    Stop { calls: 5, keep: 0, one: (0x33, 0x33), two: (0x22, 0x22), three: (0x22, 0x22) },
    Stop { calls: 5, keep: 1, one: (0x33, 0x33), two: (0x22, 0x22), three: (0x22, 0x22) },
    Stop { calls: 5, keep: 512, one: (0x33, 0x33), two: (0x22, 0x22), three: (0x22, 0x22) },
    Stop { calls: 6, keep: 0, one: (0x33, 0x33), two: (0x22, 0x22), three: (0x22, 0x22) },
    Stop { calls: 6, keep: 1, one: (0x33, 0x33), two: (0x22, 0x22), three: (0x22, 0x22) },
    Stop { calls: 6, keep: 512, one: (0x33, 0x33), two: (0x22, 0x22), three: (0x22, 0x22) },
];

fn filled(byte: u8, fill: u8) -> u8 {
    if byte == FILL { fill } else { byte }
}

// The first byte of a sector and its others, where the torn part of a write is filled with this
// byte.
fn torn((first, rest): (u8, u8), fill: u8) -> (u8, u8) {
    (filled(first, fill), filled(rest, fill))
}

// Makes the calls of a fuse that stops so. Checks which of them fail, and what the sectors have,
// where the torn part of a write is filled with this byte.
fn assert_stop(rt: &impl TestHost, memory: MemDevice, stop: &Stop, fill: u8) {
    let tear = Tear {
        keep: stop.keep,
        fill,
    };
    let mut fuse = FuseDevice::new(memory, stop.calls, tear);
    let case = (stop, fill);
    for number in 0..CALLS {
        assert_answer(rt, &mut fuse, number, number < stop.calls, &case);
    }
    assert_same(rt, &fuse.faults(), &CALLS.saturating_sub(stop.calls), &case);
    let [one, two, three] = [stop.one, stop.two, stop.three];
    let sectors = [(0, 0), torn(one, fill), torn(two, fill), torn(three, fill)];
    assert_sectors(rt, &mut fuse.into_mem(), sectors, &case);
}

#[test]
fn a_fuse_stops_at_every_call(rt: HostRuntime) -> Result<(), Fail> {
    let host = Host(&rt);
    for stop in &STOPS {
        for fill in [0x00, 0xA7] {
            let memory = MemDevice::new(rt.alloc(), 4)?;
            assert_stop(&host, memory, stop, fill);
        }
    }
    Ok(())
}
