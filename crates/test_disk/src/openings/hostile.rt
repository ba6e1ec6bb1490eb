//! New stores in which some bytes are others: what opening them answers, and which refusal comes
//! first.

use crate::checks::done;
use crate::host::Host;
use crate::openings::answers::{
    Answer, BAD_CHECKPOINT, BAD_HEADER, BAD_RECORD, GAP, Held, NEWER, NO_HALF, NO_STORE, NOTHING,
    PAST_END, SAME_EPOCH, SEALED_NEWER, State, answer_of, assert_store, held_by, usable,
};
use crate::openings::stores::{REGISTER, change, new_store, opened, put};
use sector_dev::MemDevice;
use std::alloc::Global;
use std::test::Fail;
use store_open::StoreError;
use test_support::{TestHost, assert_same, leaving_by};

/// Bytes that are in a sector from an offset on.
#[derive(Clone, Copy)]
struct Change {
    sector: u64,
    offset: usize,
    bytes: &'static [u8],
}

/// A new store with some changes.
struct Hostile {
    name: &'static str,
    changes: &'static [Change],
    answer: Answer,
}

/// A group at place 0 of one command, which purges what expires before moment 5.
const PURGE: &[u8] = &[
    1, 1, 0, 0, 0, 0, 0, 13, 0, 0, 0, 0, 0, 0, 0, 0, // the header
    0, 0, 0, 9, 2, 0, 0, 0, 0, 0, 0, 0, 5, // its length, and the command
];

/// The header of a group at place 1 of one command, whose record has 262,144 bytes.
const LONG: &[u8] = &[1, 1, 0, 0, 0, 4, 0, 0, 0, 0, 0, 0, 0, 0, 0, 1];

/// How a checkpoint of epoch 1 begins that has no rows and place 0.
const AREA: &[u8] = b"PCKP\x00\x00\x00\x02\x00\x00\x00\x00\x00\x00\x00\x01";

const OPEN: &[u8] = &[0xa7];

const CLOSED: &[u8] = &[0];

const SEAL: &[u8] = &[2];

/// Sector 0 has another number of the layout.
const NEW_LAYOUT: Change = Change {
    sector: 0,
    offset: 11,
    bytes: &[2],
};

/// The first half's gate is closed.
const HALF_CLOSES: Change = Change {
    sector: 3,
    offset: 0,
    bytes: CLOSED,
};

/// Its checkpoint has a version that is not known.
const NEW_VERSION: Change = Change {
    sector: 1,
    offset: 7,
    bytes: &[3],
};

/// It has an epoch after that of the second half.
const LATER_EPOCH: Change = Change {
    sector: 1,
    offset: 15,
    bytes: &[2],
};

/// It has a row less than its head says.
const ROW_MISSING: Change = Change {
    sector: 1,
    offset: 31,
    bytes: &[1],
};

/// Its journal's first gate is open.
const GATE_OPENS: Change = Change {
    sector: 4,
    offset: 0,
    bytes: OPEN,
};

/// What follows that gate is a group.
const PURGES: Change = Change {
    sector: 5,
    offset: 0,
    bytes: PURGE,
};

/// What follows that gate is a seal.
const SEALS: Change = Change {
    sector: 5,
    offset: 0,
    bytes: SEAL,
};

/// The second half's gate is open.
const SECOND_OPENS: Change = Change {
    sector: 522,
    offset: 0,
    bytes: OPEN,
};

/// It has a checkpoint.
const SECOND_HEAD: Change = Change {
    sector: 520,
    offset: 0,
    bytes: AREA,
};

/// Its journal's first gate is open.
const SECOND_GATE_OPENS: Change = Change {
    sector: 523,
    offset: 0,
    bytes: OPEN,
};

/// A new store after one purge, and one at the last place.
const ONE_PURGE: Answer = Ok(Held {
    place: 1,
    ..NOTHING
});

const LAST_PLACE: Answer = Ok(Held {
    place: u64::MAX,
    ..NOTHING
});

/// Sector 1 is the first half's area, 3 its gate, 4 its journal's first gate, and 5 the payload
/// after that; 520, 522, 523 and 524 are the same of the second half.
#[rattlefmt::skip]
const IMAGES: [Hostile; 18] = [
    Hostile { name: "another layout", changes: &[NEW_LAYOUT], answer: NO_STORE },
    Hostile { name: "no open half", changes: &[HALF_CLOSES], answer: NO_HALF },
    Hostile { name: "a second half that is open without a head",
        changes: &[SECOND_OPENS], answer: BAD_CHECKPOINT },
    Hostile { name: "one epoch twice", changes: &[SECOND_OPENS, SECOND_HEAD], answer: SAME_EPOCH },
    Hostile { name: "a checkpoint of a newer version", changes: &[NEW_VERSION], answer: NEWER },
    Hostile { name: "a checkpoint of version 0",
        changes: &[Change { sector: 1, offset: 7, bytes: &[0] }], answer: BAD_CHECKPOINT },
    Hostile { name: "rows of too many bytes",
        changes: &[Change { sector: 1, offset: 24, bytes: &[0, 0, 3, 0xe1] }],
        answer: BAD_CHECKPOINT },
    Hostile { name: "a count of rows that are not there",
        changes: &[ROW_MISSING], answer: BAD_CHECKPOINT },
    Hostile { name: "an open gate without a header", changes: &[GATE_OPENS], answer: BAD_HEADER },
    Hostile { name: "a gap before a group",
        changes: &[GATE_OPENS, PURGES, Change { sector: 5, offset: 15, bytes: &[1] }],
        answer: GAP },
    Hostile { name: "a command of no kind",
        changes: &[GATE_OPENS, PURGES, Change { sector: 5, offset: 20, bytes: &[9] }],
        answer: BAD_RECORD },
    Hostile { name: "padding that is not zero",
        changes: &[GATE_OPENS, PURGES, Change { sector: 5, offset: 511, bytes: &[1] }],
        answer: BAD_RECORD },
    Hostile { name: "a group past the journal's end",
        changes: &[
            GATE_OPENS, PURGES, Change { sector: 6, offset: 0, bytes: OPEN },
            Change { sector: 7, offset: 0, bytes: LONG },
        ], answer: PAST_END },
    Hostile { name: "a sealed journal", changes: &[GATE_OPENS, SEALS], answer: Ok(NOTHING) },
    Hostile { name: "two sealed journals",
        changes: &[
            GATE_OPENS, SEALS, SECOND_GATE_OPENS, Change { sector: 524, offset: 0, bytes: SEAL },
        ], answer: SEALED_NEWER },
    Hostile { name: "the last place",
        changes: &[Change { sector: 1, offset: 16, bytes: &[0xff; 8] }], answer: LAST_PLACE },
    Hostile { name: "a group after the last place",
        changes: &[
            Change { sector: 1, offset: 16, bytes: &[0xff; 8] }, GATE_OPENS, PURGES,
            Change { sector: 5, offset: 8, bytes: &[0xff; 8] },
        ], answer: BAD_HEADER },
    Hostile { name: "one group", changes: &[GATE_OPENS, PURGES], answer: ONE_PURGE },
];

/// Two things are wrong, or one that does not count.
#[rattlefmt::skip]
const ORDERS: [Hostile; 12] = [
    Hostile { name: "the layout before the halves",
        changes: &[NEW_LAYOUT, HALF_CLOSES], answer: NO_STORE },
    Hostile { name: "the first head before a second one that is newer",
        changes: &[
            Change { sector: 1, offset: 0, bytes: &[0] }, SECOND_OPENS, SECOND_HEAD,
            Change { sector: 520, offset: 7, bytes: &[3] },
        ], answer: BAD_CHECKPOINT },
    Hostile { name: "the first head, which is newer, before a second one that is none",
        changes: &[NEW_VERSION, SECOND_OPENS], answer: NEWER },
    Hostile { name: "the second head before the rows",
        changes: &[
            ROW_MISSING, SECOND_OPENS, SECOND_HEAD, Change { sector: 520, offset: 7, bytes: &[3] },
        ], answer: NEWER },
    Hostile { name: "one epoch before the rows",
        changes: &[ROW_MISSING, SECOND_OPENS, SECOND_HEAD], answer: SAME_EPOCH },
    Hostile { name: "the rows before the journal",
        changes: &[ROW_MISSING, GATE_OPENS], answer: BAD_CHECKPOINT },
    Hostile { name: "the journal before a second half that is open",
        changes: &[LATER_EPOCH, GATE_OPENS, SECOND_OPENS, SECOND_HEAD], answer: BAD_HEADER },
    Hostile { name: "a seal beside a half that is open, before that one's journal",
        changes: &[LATER_EPOCH, GATE_OPENS, SEALS, SECOND_OPENS, SECOND_HEAD, SECOND_GATE_OPENS],
        answer: SEALED_NEWER },
    Hostile { name: "the journal after a seal",
        changes: &[GATE_OPENS, SEALS, SECOND_GATE_OPENS], answer: BAD_HEADER },
    Hostile { name: "the place after a seal",
        changes: &[
            GATE_OPENS, SEALS, SECOND_GATE_OPENS, Change { sector: 524, offset: 0, bytes: PURGE },
            Change { sector: 524, offset: 15, bytes: &[1] },
        ], answer: GAP },
    Hostile { name: "the rows and the journal of an older half don't count",
        changes: &[
            LATER_EPOCH, SECOND_OPENS, SECOND_HEAD,
            Change { sector: 520, offset: 31, bytes: &[1] }, SECOND_GATE_OPENS,
        ], answer: Ok(NOTHING) },
    Hostile { name: "the area and the journal of a closed half don't count",
        changes: &[
            Change { sector: 520, offset: 0, bytes: &[0xff; 32] }, SECOND_GATE_OPENS,
            Change { sector: 524, offset: 0, bytes: PURGE },
        ], answer: Ok(NOTHING) },
];

/// Makes these changes.
fn change_all(device: &mut MemDevice, changes: &[Change]) -> Result<(), Fail> {
    for made in changes {
        change(device, made.sector, made.offset, made.bytes)?;
    }
    Ok(())
}

/// A new store with these changes.
fn changed_store(alloc: Global, changes: &[Change]) -> Result<MemDevice, Fail> {
    let mut device = new_store(alloc)?;
    change_all(&mut device, changes)?;
    Ok(device)
}

/// Opens an image twice: what it answers stays.
fn assert_answers(rt: &impl TestHost, alloc: Global, image: &Hostile) -> Result<(), Fail> {
    let device = changed_store(alloc, image.changes)?;
    let (first, device) = answer_of(alloc, device);
    let (second, _device) = answer_of(alloc, device);
    assert_same(rt, &first, &image.answer, &image.name);
    assert_same(rt, &second, &image.answer, &("again", image.name));
    Ok(())
}

#[test]
fn hostile_images_are_told(rt: HostRuntime) -> Result<(), Fail> {
    let host = Host(&rt);
    for image in &IMAGES {
        assert_answers(&host, rt.alloc(), image)?;
    }
    Ok(())
}

#[test]
fn refusals_come_in_order(rt: HostRuntime) -> Result<(), Fail> {
    let host = Host(&rt);
    for image in &ORDERS {
        assert_answers(&host, rt.alloc(), image)?;
    }
    Ok(())
}

/// The checkpoint of the first half has version 1.
const OLD_VERSION: Change = Change {
    sector: 1,
    offset: 7,
    bytes: &[1],
};

/// Sees that a device opens to a store of nothing in this state, and makes a checkpoint: the
/// device.
fn checkpointed(
    rt: &impl TestHost,
    alloc: Global,
    device: MemDevice,
    state: State,
) -> Result<MemDevice, Fail> {
    let mut store = opened(alloc, device)?;
    assert_store(rt, &store, NOTHING, state);
    assert_same(rt, &store.checkpoint(), &Ok(()), &"checkpoint");
    Ok(store.into_device())
}

/// Sees that a device opens to a store of nothing in this state.
fn assert_nothing(
    rt: &impl TestHost,
    alloc: Global,
    device: MemDevice,
    state: State,
) -> Result<(), Fail> {
    let store = opened(alloc, device)?;
    assert_store(rt, &store, NOTHING, state);
    let _device = store.into_device();
    Ok(())
}

#[test]
fn new_stores_of_version_1_are_opened(rt: HostRuntime) {
    let host = Host(&rt);
    let device = done(&rt, changed_store(rt.alloc(), &[OLD_VERSION]));
    let device = done(&rt, checkpointed(&host, rt.alloc(), device, usable(1, 1)));
    done(&rt, assert_nothing(&host, rt.alloc(), device, usable(2, 2)));
}

/// Eleven rows, at place 1.
const ELEVEN: Held = Held {
    rows: 11,
    bytes: 1023,
    place: 1,
};

/// By which interface the first AS of each segment is left, in the order of the ids.
const BY_ID: [u8; 10] = [7, 2, 6, 5, 10, 1, 9, 3, 8, 4];

/// Adds the checkpoint of ten rows.
fn add_ten(bytes: &mut Vec<u8>) -> Result<(), Fail> {
    bytes.extend_from_slice(AREA)?;
    bytes.extend_from_slice(&[0, 0, 0, 0, 0, 0, 0, 0, 0, 0, 3, 0xa2, 0, 0, 0, 10])?;
    for egress in BY_ID {
        bytes.extend_from_slice(&[2, 0, 0, 0, 88])?;
        bytes.extend_from_slice(&leaving_by(egress))?;
    }
    Ok(())
}

/// Writes a checkpoint of ten rows, and a journal that registers one more, with room for their
/// bytes.
fn put_eleven(device: &mut MemDevice, bytes: &mut Vec<u8>) -> Result<(), Fail> {
    add_ten(bytes)?;
    put(device, 1, bytes)?;
    bytes.clear();
    bytes.extend_from_slice(&[1, 1, 0, 0, 0, 0, 0, 99, 0, 0, 0, 0, 0, 0, 0, 0])?;
    bytes.extend_from_slice(&REGISTER)?;
    bytes.extend_from_slice(&leaving_by(11))?;
    put(device, 5, bytes)?;
    put(device, 4, OPEN)
}

/// A store of eleven rows.
fn eleven_rows(alloc: Global) -> Result<MemDevice, Fail> {
    let mut device = new_store(alloc)?;
    let mut bytes = Vec::with_capacity(alloc, 1024)?;
    put_eleven(&mut device, &mut bytes)?;
    Ok(device)
}

/// Sees that a checkpoint of eleven rows is refused: the device.
fn refused_checkpoint(
    rt: &impl TestHost,
    alloc: Global,
    device: MemDevice,
) -> Result<MemDevice, Fail> {
    let mut store = opened(alloc, device)?;
    assert_same(rt, &held_by(&store), &ELEVEN, &"what it holds");
    assert_same(rt, &store.sealed_len(), &1023, &"sealed bytes");
    let answer = store.checkpoint();
    assert_same(rt, &answer, &Err(StoreError::Unfit), &"checkpoint");
    Ok(store.into_device())
}

/// Sees that a device opens to eleven rows.
fn assert_eleven(rt: &impl TestHost, alloc: Global, device: MemDevice) -> Result<(), Fail> {
    let store = opened(alloc, device)?;
    assert_same(rt, &held_by(&store), &ELEVEN, &"what it holds then");
    let _device = store.into_device();
    Ok(())
}

// Ten rows of 93 bytes are the most that an area of two sectors has room for; the journal registers
// one more.
#[test]
fn fold_larger_than_area(rt: HostRuntime) {
    let host = Host(&rt);
    let device = done(&rt, eleven_rows(rt.alloc()));
    let device = done(&rt, refused_checkpoint(&host, rt.alloc(), device));
    done(&rt, assert_eleven(&host, rt.alloc(), device));
}
