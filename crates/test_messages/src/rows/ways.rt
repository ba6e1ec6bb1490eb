//! How many rows a lookup visits in a database of 100,000.

use crate::checks::done;
use crate::host::Host;
use crate::rows::worked::{no_rows, put};
use isd_as::IsdAs;
use path_db::PathDb;
use seg_core::{SegType, read_segment};
use std::alloc::Global;
use std::test::Fail;
use test_support::{TestHost, assert_same};

/// A segment of two entries whose three AS numbers are 0.
const EMPTY: [u8; 91] = [
    0x0a, 0x08, 0x08, 0x80, 0xe2, 0xcf, 0xaa, 0x06, 0x10, 0x07, // the information
    0x12, 0x2b, 0x0a, 0x29, 0x0a, 0x27, 0x12, 0x25, // the first entry
    0x08, 0, 0, 0, 0, 0, 0, 0, 0, // its AS, at 19
    0x10, 0, 0, 0, 0, 0, 0, 0, 0, // the next AS, at 28
    0x1a, 0x0e, 0x0a, 0x0c, 0x10, 0x01, 0x18, 0x3f, 0x22, 0x06, // the hop entry
    0x01, 0x02, 0x03, 0x04, 0x05, 0x06, 0x28, 0xc0, 0x0b, // a MAC, and the MTU
    0x12, 0x22, 0x0a, 0x20, 0x0a, 0x1e, 0x12, 0x1c, // the second entry
    0x08, 0, 0, 0, 0, 0, 0, 0, 0, // its AS, at 64
    0x1a, 0x0e, 0x0a, 0x0c, 0x08, 0x02, 0x18, 0x3f, 0x22, 0x06, // the hop entry
    0x0a, 0x0b, 0x0c, 0x0d, 0x0e, 0x0f, 0x28, 0xc0, 0x0b, // a MAC, and the MTU
];

/// Seven bits of a number, as a byte of a varint that is not the last one.
fn seven(number: u64) -> u8 {
    (number % 128) as u8 | 0x80
}

/// The varint of eight bytes of an ISD-AS of an ISD from 2 to 255.
fn varint(number: u64) -> [u8; 8] {
    [
        seven(number),
        seven(number >> 7),
        seven(number >> 14),
        seven(number >> 21),
        seven(number >> 28),
        seven(number >> 35),
        seven(number >> 42),
        ((number >> 49) % 128) as u8,
    ]
}

/// Writes the varint of an ISD-AS into a segment.
fn set(message: &mut [u8; 91], at: usize, number: u64) {
    for (place, byte) in varint(number).iter().enumerate() {
        if let Some(to) = message.get_mut(at.saturating_add(place)) {
            *to = *byte;
        }
    }
}

/// A segment from one ISD-AS to another.
fn message(start: u64, end: u64) -> [u8; 91] {
    let mut message = EMPTY;
    set(&mut message, 19, start);
    set(&mut message, 28, end);
    set(&mut message, 64, end);
    message
}

const ISD_2: u64 = 2 << 48;

const ISD_3: u64 = 3 << 48;

const ISD_4: u64 = 4 << 48;

/// The AS at which 50,003 rows end.
const GREAT: u64 = ISD_2 + 7;

/// The AS at which three rows start, one of which ends at `GREAT`.
const SMALL: u64 = ISD_3 + 70_000;

/// Puts a core segment from one ISD-AS to another.
fn put_between(alloc: Global, database: &mut PathDb, start: u64, end: u64) -> Result<(), Fail> {
    let segment = read_segment(alloc, &message(start, end))?;
    put(alloc, database, SegType::Core, segment)?;
    Ok(())
}

/// Puts core segments from the ASes of `count` numbers from `first` on to one end.
fn put_many(
    alloc: Global,
    database: &mut PathDb,
    first: u64,
    count: u64,
    end: u64,
) -> Result<(), Fail> {
    for number in 0..count {
        put_between(alloc, database, first.wrapping_add(number), end)?;
    }
    Ok(())
}

/// Puts 50,000 rows from ISD 3 and two from ISD 4 to `GREAT`, 49,995 from ISD 2 to one AS of ISD 3,
/// and three from `SMALL`.
fn fill(alloc: Global, database: &mut PathDb) -> Result<(), Fail> {
    put_many(alloc, database, ISD_3 + 1, 50_000, GREAT)?;
    put_many(alloc, database, ISD_2 + 100, 49_995, ISD_3 + 9)?;
    for end in &[GREAT, ISD_3 + 8, ISD_3 + 10] {
        put_between(alloc, database, SMALL, *end)?;
    }
    put_many(alloc, database, ISD_4 + 1, 2, GREAT)
}

/// A look: the patterns for the ends, how many segments are shown, and the most rows that are
/// visited.
#[derive(Clone, Copy, Debug)]
struct Look {
    start: u64,
    end: u64,
    shown: usize,
    most: usize,
}

/// Each way may visit 128 rows at first, 64 and as many as are shown at most. Along an index four
/// rows are visited at a time. From `SMALL` to `GREAT` 128 rows are visited along the index of
/// `GREAT`, and then four of `SMALL`. From ISD to ISD the index of both has no other rows. All rows
/// are visited where one pattern covers all, and the other all ISDs.
#[rattlefmt::skip]
const LOOKS: [Look; 10] = [
    Look { start: SMALL, end: GREAT, shown: 1, most: 132 },
    Look { start: SMALL, end: ISD_3 + 9, shown: 0, most: 132 },
    Look { start: SMALL, end: ISD_2, shown: 1, most: 4 },
    Look { start: ISD_4, end: GREAT, shown: 2, most: 132 },
    Look { start: ISD_4, end: ISD_2, shown: 2, most: 4 },
    Look { start: ISD_4, end: ISD_3, shown: 0, most: 0 },
    Look { start: ISD_3, end: ISD_2, shown: 64, most: 64 },
    Look { start: ISD_2, end: ISD_2, shown: 0, most: 0 },
    Look { start: 0, end: GREAT, shown: 64, most: 64 },
    Look { start: 0, end: 6, shown: 0, most: 100_000 },
];

/// Checks what a look shows, and how many rows it visits.
fn assert_look(rt: &impl TestHost, database: &PathDb, look: &Look) -> Result<(), Fail> {
    let start = IsdAs::from_u64(look.start);
    let end = IsdAs::from_u64(look.end);
    let (shown, visited) = database.matching_counted(SegType::Core, start, end, 0, 64)?;
    assert_same(rt, &shown.len(), &look.shown, look);
    assert_same(rt, &(visited <= look.most), &true, &(look, visited));
    Ok(())
}

/// Checks all looks.
fn assert_looks(rt: &impl TestHost, database: &PathDb) -> Result<(), Fail> {
    for look in &LOOKS {
        assert_look(rt, database, look)?;
    }
    Ok(())
}

/// A database of those rows.
fn filled(alloc: Global) -> Result<PathDb, Fail> {
    let mut database = no_rows(alloc);
    fill(alloc, &mut database)?;
    Ok(database)
}

#[test]
fn short_ways_are_found(rt: HostRuntime) {
    let database = done(&rt, filled(rt.alloc()));
    done(&rt, assert_looks(&Host(&rt), &database));
}

// Both copies keep the indexes that the database does not have.
#[test]
fn copies_with_indexes_find_short_ways(rt: HostRuntime) {
    let database = done(&rt, filled(rt.alloc())).without_indexes();
    let (first, second) = database.indexed_pair(&rt).expect(&rt, "copies");
    done(&rt, assert_looks(&Host(&rt), &first));
    done(&rt, assert_looks(&Host(&rt), &second));
}
