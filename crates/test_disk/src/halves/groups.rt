//! Groups and seals that were worked through by hand.

use crate::checks::{assert_bytes, done};
use crate::halves::worked::{
    SEGMENT, many, payload_of, purge_and_registration, purges, register, segment,
};
use crate::host::Host;
use gate_journal::{can_be_group, encode_seal, fits, payload_sectors, record_len};
use path_db::Command;
use seg_core::SegType;
use std::alloc::Global;
use std::test::Fail;
use test_support::{TestHost, assert_same, assert_true};

#[test]
fn payloads_take_sectors(rt: HostRuntime) {
    let host = Host(&rt);
    for (bytes, sectors) in [
        (0, 1),
        (13, 1),
        (496, 1),
        (497, 2),
        (262_144, 513),
        (u64::MAX, 36_028_797_018_963_969),
    ] {
        assert_same(&host, &payload_sectors(bytes), &sectors, &bytes);
    }
}

/// The sector of a gate, how many sectors the payload after it has, how many the journal has, and
/// whether the payload fits in it.
#[derive(Clone, Copy, Debug)]
struct Fit {
    gate: u64,
    payload: u64,
    journal: u64,
    fits: bool,
}

/// The largest number of a sector.
const LAST: u64 = u64::MAX;

#[rattlefmt::skip]
const FITS: [Fit; 8] = [
    Fit { gate: 512, payload: 1, journal: 516, fits: true },
    Fit { gate: 514, payload: 1, journal: 516, fits: false },
    Fit { gate: 0, payload: 513, journal: 516, fits: true },
    Fit { gate: 0, payload: 0, journal: 2, fits: false },
    Fit { gate: LAST, payload: 1, journal: LAST, fits: false },
    Fit { gate: 1, payload: LAST, journal: LAST, fits: false },
    Fit { gate: LAST - 4, payload: 1, journal: LAST, fits: true },
    Fit { gate: LAST - 4, payload: 2, journal: LAST, fits: false },
];

#[test]
fn payloads_fit(rt: HostRuntime) {
    let host = Host(&rt);
    for row in &FITS {
        let found = fits(row.gate, row.payload, row.journal);
        assert_same(&host, &found, &row.fits, row);
    }
}

/// Sees that a payload is one sector that begins so, with zeros after that.
fn assert_sector(rt: &impl TestHost, payload: &[u8], front: &[u8]) {
    assert_same(rt, &payload.len(), &512, &"bytes");
    for (i, byte) in payload.iter().enumerate() {
        let wanted = front.get(i).copied().unwrap_or(0);
        assert_same(rt, byte, &wanted, &("byte", i));
    }
}

/// Sees that the payload of commands is one sector that begins so.
fn assert_payload(
    rt: &impl TestHost,
    alloc: Global,
    commands: &[Command],
    front: &[u8],
) -> Result<(), Fail> {
    let payload = payload_of(rt, alloc, commands, 0)?;
    assert_sector(rt, &payload, front);
    Ok(())
}

/// How the payload of a purge begins, and that of a removal.
const PURGE: [u8; 29] = [
    1, 1, 0, 0, 0, 0, 0, 0x0d, 0, 0, 0, 0, 0, 0, 0, 0, 0, 0, 0, 9, 2, 0, 0, 0, 0, 0, 0, 0, 5,
];

const REMOVAL: [u8; 22] = [
    1, 1, 0, 0, 0, 0, 0, 0x26, 0, 0, 0, 0, 0, 0, 0, 0, 0, 0, 0, 0x22, 3, 2,
];

#[test]
fn one_command_is_a_sector(rt: HostRuntime) {
    let host = Host(&rt);
    let purge = assert_payload(&host, rt.alloc(), &[Command::Purge(5)], &PURGE);
    done(&rt, purge);
    let commands = [Command::Remove(SegType::Down, [0; 32])];
    let removal = assert_payload(&host, rt.alloc(), &commands, &REMOVAL);
    done(&rt, removal);
}

#[test]
fn a_seal_is_a_sector(rt: HostRuntime) {
    let host = Host(&rt);
    let front = [2, 0, 0, 0, 0, 0, 0, 0, 0, 0, 0, 0, 0, 0, 1, 1];
    assert_sector(&host, &encode_seal(257), &front);
}

/// Sees that a payload at that place is of a purge and of the registration of the worked segment.
fn assert_registration(rt: &impl TestHost, payload: &[u8]) {
    assert_true(rt, payload.len() == 512, "the payload is a sector");
    let header = [1, 2, 0, 0, 0, 0, 0, 112, 1, 2, 3, 4, 5, 6, 7, 8];
    assert_bytes(rt, &payload[..16], &header, "the header");
    let front = [0, 0, 0, 95, 1, 1, 2, 0, 0, 0, 88];
    assert_bytes(rt, &payload[29..40], &front, "before the segment");
    assert_bytes(rt, &payload[40..128], &SEGMENT, "the segment");
    let is_zero = payload[128..].iter().all(|byte| *byte == 0);
    assert_true(rt, is_zero, "zeros are after the segment");
}

// The worked segment has 88 bytes: its record has 4 and 95.
#[test]
fn a_registration_stands_behind_its_length(rt: HostRuntime) {
    let host = Host(&rt);
    let commands = done(&rt, purge_and_registration(rt.alloc()));
    let payload = payload_of(&host, rt.alloc(), &commands, 0x0102_0304_0506_0708);
    assert_registration(&host, &done(&rt, payload));
}

/// Adds a removal, and sees that there is room for a gate after the payload of the commands.
fn assert_room(rt: &impl TestHost, alloc: Global, commands: &mut Vec<Command>) -> Result<(), Fail> {
    commands.push(Command::Remove(SegType::Down, [0; 32]))?;
    let payload = payload_of(rt, alloc, commands, 0)?;
    let rest = payload.capacity().wrapping_sub(payload.len());
    assert_same(rt, &(512 <= rest && rest < 1024), &true, &rest);
    Ok(())
}

/// Adds ten removals, and sees the same after each.
fn assert_rooms(
    rt: &impl TestHost,
    alloc: Global,
    commands: &mut Vec<Command>,
) -> Result<(), Fail> {
    for _ in 0..10 {
        assert_room(rt, alloc, commands)?;
    }
    Ok(())
}

// Nine purges and ten removals have records of 497 bytes: after the header, a byte more than a
// sector.
#[test]
fn payloads_have_room_for_a_gate(rt: HostRuntime) {
    let mut commands = done(&rt, purges(rt.alloc(), 9));
    done(&rt, assert_rooms(&Host(&rt), rt.alloc(), &mut commands));
}

/// How many purges there are, and whether they can be a group at a place.
#[derive(Clone, Copy, Debug)]
struct Limit {
    count: u64,
    place: u64,
    can_be: bool,
}

#[rattlefmt::skip]
const LIMITS: [Limit; 8] = [
    Limit { count: 0, place: 0, can_be: false },
    Limit { count: 1, place: 0, can_be: true },
    Limit { count: 9, place: 0, can_be: true },
    Limit { count: 32, place: 0, can_be: true },
    Limit { count: 33, place: 0, can_be: false },
    Limit { count: 32, place: u64::MAX - 32, can_be: true },
    Limit { count: 32, place: u64::MAX - 31, can_be: false },
    Limit { count: 1, place: u64::MAX, can_be: false },
];

/// Sees whether this number of purges can be a group.
fn assert_limit(rt: &impl TestHost, alloc: Global, row: &Limit) -> Result<(), Fail> {
    let commands = purges(alloc, row.count)?;
    assert_same(rt, &can_be_group(&commands, row.place), &row.can_be, row);
    Ok(())
}

/// Sees that a registration of 16 segments can be a group, and one of 17 too many can't.
fn assert_segments(
    rt: &impl TestHost,
    alloc: Global,
    commands: &mut Vec<Command>,
) -> Result<(), Fail> {
    commands.push(many(alloc, 16)?)?;
    assert_true(rt, can_be_group(commands, 0), "16 can be a group");
    commands.push(many(alloc, 17)?)?;
    assert_true(rt, !can_be_group(commands, 0), "33 can't be a group");
    Ok(())
}

#[test]
fn groups_have_limits(rt: HostRuntime) {
    let host = Host(&rt);
    for row in &LIMITS {
        done(&rt, assert_limit(&host, rt.alloc(), row));
    }
    let segments = assert_segments(&host, rt.alloc(), &mut Vec::new(rt.alloc()));
    done(&rt, segments);
}

/// Sees how many bytes the record of a command has that can be a group alone.
fn assert_record(rt: &impl TestHost, commands: &[Command; 1], len: usize, what: &str) {
    assert_true(rt, can_be_group(commands, 0), "they can be a group");
    assert_same(rt, &record_len(&commands[0]), &len, &what);
}

/// The registration of the worked segment alone.
fn registration(alloc: Global) -> Result<[Command; 1], Fail> {
    Ok([register(alloc, SegType::Down, segment(alloc)?)?])
}

#[test]
fn records_have_lengths(rt: HostRuntime) {
    let host = Host(&rt);
    assert_record(&host, &[Command::Purge(5)], 13, "a purge");
    let removal = [Command::Remove(SegType::Up, [1; 32])];
    assert_record(&host, &removal, 38, "a removal");
    let registration = done(&rt, registration(rt.alloc()));
    assert_record(&host, &registration, 99, "a registration");
}
