//! How many commands a group takes, and the order in which tickets are redeemed.

use crate::host::Host;
use sector_dev::MemDevice;
use std::alloc::Global;
use std::process::Abort;
use std::test::Fail;
use test_group_scripts::acts::NOTHING;
use test_group_scripts::stores::{
    Contents, assert_opens_to, new_store, old_store, opened, read_sector,
};
use test_group_scripts::work::{Paid, Work, work_of};
use test_support::assert_same;

/// What a group of a version takes, and how the payloads of two groups begin. The record of a purge
/// has 13 bytes.
#[derive(Clone, Copy)]
struct Version {
    /// The number of the version.
    number: u32,
    /// How many commands a group takes at most.
    most: usize,
    /// The first bytes of the payload of this number of purges.
    first: [u8; 16],
    /// The first bytes of the payload of one more purge, in the next group.
    second: [u8; 16],
}

const VERSIONS: [Version; 2] = [
    Version {
        number: 1,
        most: 8,
        first: [1, 8, 0, 0, 0, 0, 0, 104, 0, 0, 0, 0, 0, 0, 0, 0],
        second: [1, 1, 0, 0, 0, 0, 0, 13, 0, 0, 0, 0, 0, 0, 0, 8],
    },
    Version {
        number: 2,
        most: 32,
        first: [1, 32, 0, 0, 0, 0, 1, 160, 0, 0, 0, 0, 0, 0, 0, 0],
        second: [1, 1, 0, 0, 0, 0, 0, 13, 0, 0, 0, 0, 0, 0, 0, 32],
    },
];

/// A new store of this version.
fn store_of(rt: &Host<impl Abort>, alloc: Global, version: u32) -> MemDevice {
    if version == 1 {
        old_store(rt, alloc)
    } else {
        new_store(rt, alloc)
    }
}

/// Redeems tickets up to this place, the newest or the oldest of them first.
fn redeem_in_turn(
    rt: &Host<impl Abort>,
    work: &mut Work<MemDevice>,
    most: usize,
    newest_first: bool,
) {
    for place in 0..=most {
        if newest_first {
            let last = most.saturating_sub(place);
            work.redeems(rt, last, Paid::Committed(last as u64, NOTHING));
        } else {
            work.redeems(rt, 0, Paid::Committed(place as u64, NOTHING));
        }
    }
}

/// Commits this number of purges and one more, in two groups, and redeems their tickets.
fn two_groups(
    rt: &Host<impl Abort>,
    work: Work<MemDevice>,
    most: usize,
    newest_first: bool,
) -> Work<MemDevice> {
    let mut work = work;
    work.purge(rt, most.saturating_add(1));
    work.redeems(rt, 0, Paid::Waiting(0));
    let mut work = work.flushes_group(rt);
    work.redeems(rt, most, Paid::Waiting(most as u64));
    let mut work = work.flushes_group(rt);
    redeem_in_turn(rt, &mut work, most, newest_first);
    work
}

/// Sees how a sector begins.
fn assert_begins(rt: &Host<impl Abort>, device: &mut MemDevice, at: u64, wanted: &[u8; 16]) {
    let sector = read_sector(device, at);
    assert_same(rt, &sector.starts_with(wanted), &true, &at);
}

/// Sees that as many purges as a group takes are in one group and one more is in another, and how
/// their payloads begin.
fn assert_groups(rt: &Host<impl Abort>, alloc: Global, version: &Version, newest_first: bool) {
    let most = version.most;
    let store = opened(rt, alloc, store_of(rt, alloc, version.number));
    let work = two_groups(rt, work_of(rt, alloc, store), most, newest_first);
    let wanted = Contents::empty_at((most as u64).saturating_add(1));
    let mut device = work.ends(rt, wanted);
    assert_begins(rt, &mut device, 5, &version.first);
    assert_begins(rt, &mut device, 7, &version.second);
    let _device = assert_opens_to(rt, alloc, device, wanted);
}

#[test]
fn groups_of_thirty_two(rt: HostRuntime) -> Result<(), Fail> {
    let host = Host(&rt);
    for version in &VERSIONS {
        for newest_first in [false, true] {
            assert_groups(&host, rt.alloc(), version, newest_first);
        }
    }
    Ok(())
}
