//! Rounds of a checkpointer over a sealed half.

use crate::streams::sealed::{AREA, SECOND_AREA, checkpoint_of, sectors_from};
use path_db::PathDb;
use sector_dev::{Device, MemDevice};
use std::alloc::Global;
use test_group_scripts::stores::opened;
use test_group_scripts::work::{Told, Work};
use test_support::{TestHost, assert_same, assert_true};

/// More steps than a round here has.
const STEPS: u64 = 20;

/// The window into the old area, and what is made and not written: a piece of 256 sectors, and the
/// greatest record of a row beside one.
pub const BUFFERS: (usize, usize) = (131_072, 147_461);

/// A step of a round, after which the two buffers have these bytes: whether it is the last one.
fn is_last<D: Device>(rt: &impl TestHost, work: &Work<D>, told: Told) -> bool {
    assert_same(rt, &work.state.buffer_lens(), &BUFFERS, &"buffers");
    if told == Told::Ended {
        return true;
    }
    assert_same(rt, &told, &Told::Done, &"a step");
    false
}

/// The checkpointer's steps until its round has ended, each of which is made.
pub fn whole_round<D: Device>(rt: &impl TestHost, work: Work<D>) -> Work<D> {
    let mut work = work;
    for _step in 0..STEPS {
        let told;
        (work, told) = work.check(rt);
        if is_last(rt, &work, told) {
            return work;
        }
    }
    rt.fail("the round makes no end")
}

/// Sees that the second half's area has these bytes, and zeros after them.
fn assert_begins(rt: &impl TestHost, area: &[u8], wanted: &[u8]) {
    assert_true(
        rt,
        area.starts_with(wanted),
        "the checkpoint is that of the rows",
    );
    let is_zero = area.iter().skip(wanted.len()).all(|byte| *byte == 0);
    assert_true(rt, is_zero, "zeros are after it");
}

/// Sees that the second half's area has the checkpoint of rows at a place, byte for byte, as
/// `ckpt_pair` makes it of them at once.
pub fn assert_area(
    rt: &impl TestHost,
    alloc: Global,
    device: &mut MemDevice,
    db: &PathDb,
    place: u64,
) {
    let wanted = checkpoint_of(rt, alloc, db, 2, place);
    let area = sectors_from(rt, alloc, device, SECOND_AREA, AREA as usize);
    assert_begins(rt, &area, &wanted);
}

/// Sees that a device opens to these rows at this place, in epoch 2.
pub fn assert_opens(
    rt: &impl TestHost,
    alloc: Global,
    device: MemDevice,
    db: &PathDb,
    place: u64,
) -> MemDevice {
    let store = opened(rt, alloc, device);
    assert_same(rt, &store.epoch(), &2, &"an epoch");
    assert_same(rt, &store.place(), &place, &"a place");
    let found = checkpoint_of(rt, alloc, store.db(), 2, place);
    let wanted = checkpoint_of(rt, alloc, db, 2, place);
    assert_true(rt, found == wanted, "the rows are those");
    store.into_device()
}
