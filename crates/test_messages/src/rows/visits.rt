//! How many rows the purges of a database of many rows visit.

use crate::checks::done;
use crate::host::Host;
use crate::rows::worked::{apply, copy_of, count_rows, no_rows, purge};
use path_db::{Command, PathDb, Registration};
use seg_core::{SegType, Segment, read_segment};
use std::alloc::Global;
use std::test::Fail;
use test_support::{EXP_TIME, EXPIRY, SEGMENT, TestHost, assert_same};

/// The offset in the worked segment of the number of its first AS, whose lower 21 bits are in three
/// bytes.
const FIRST_AS: usize = 19;

/// The number of the first AS. The worked segment's second AS has a lower one, 273.
const LEAST: u32 = 1000;

/// How many rows no purge drops.
const ROWS: u32 = 100_000;

/// The half seconds by which a segment expires earlier whose exp_time is lower by 1.
const UNIT: u64 = 675;

/// The worked segment from the AS of this number, below 2^21, with this exp_time. Its id is
/// another.
fn numbered(alloc: Global, number: u32, exp_time: u8) -> Result<Segment, Fail> {
    let mut message = SEGMENT;
    message[FIRST_AS] = 128 + (number % 128) as u8;
    message[FIRST_AS + 1] = 128 + (number / 128 % 128) as u8;
    message[FIRST_AS + 2] = 128 + (number / 16_384 % 128) as u8;
    message[EXP_TIME] = exp_time;
    Ok(read_segment(alloc, &message)?)
}

/// The command that registers down segments from the ASes of `count` numbers from `first` on.
fn many(alloc: Global, first: u32, count: u32, exp_time: u8) -> Result<Command, Fail> {
    let mut rows = Vec::new(alloc);
    for number in 0..count {
        let segment = numbered(alloc, first.wrapping_add(number), exp_time)?;
        rows.push((SegType::Down, segment))?;
    }
    Ok(Command::Register(Registration::new(rows)))
}

/// Registers down segments from the ASes of `count` numbers from `first` on, in one registration.
fn fill(
    alloc: Global,
    database: &mut PathDb,
    first: u32,
    count: u32,
    exp_time: u8,
) -> Result<(), Fail> {
    let command = many(alloc, first, count, exp_time)?;
    apply(database, &command)?;
    Ok(())
}

/// Registers the rows that no purge drops, 100 rows that expire one unit earlier, and one that
/// expires two units earlier.
fn fill_many(alloc: Global, database: &mut PathDb) -> Result<(), Fail> {
    fill(alloc, database, LEAST, ROWS, 63)?;
    fill(alloc, database, LEAST + ROWS, 100, 62)?;
    fill(alloc, database, LEAST + ROWS + 100, 1, 61)
}

/// Registers the same rows, those that expire first before the others.
fn fill_earliest_first(alloc: Global, database: &mut PathDb) -> Result<(), Fail> {
    fill(alloc, database, LEAST + ROWS + 100, 1, 61)?;
    fill(alloc, database, LEAST + ROWS, 100, 62)?;
    fill(alloc, database, LEAST, ROWS, 63)
}

/// Purges, and checks how many rows are dropped, and that these and few others were visited: a
/// bucket of 65,536 of a type has about two of these rows.
fn assert_purge(
    rt: &impl TestHost,
    database: &mut PathDb,
    moment: u64,
    dropped: u32,
) -> Result<(), Fail> {
    let before = database.visited_by_purges();
    let outcome = purge(database, moment)?;
    let visited = database.visited_by_purges().saturating_sub(before);
    assert_same(rt, &outcome.purged, &dropped, &moment);
    let is_few = visited <= (u64::from(dropped) + 1) * 64;
    assert_same(rt, &is_few, &true, &(visited, dropped));
    let is_each = visited >= u64::from(dropped);
    assert_same(rt, &is_each, &true, &(visited, dropped));
    Ok(())
}

/// Moments, and how many rows are dropped by a purge at each, after those before it.
const PURGES: [(u64, u32); 4] = [
    (EXPIRY - 3 * UNIT, 0),
    (EXPIRY - 2 * UNIT, 1),
    (EXPIRY - UNIT, 100),
    (EXPIRY - 1, 0),
];

/// Purges of no row, of one and of 100 rows leave the others.
fn assert_purges(rt: &impl TestHost, database: &mut PathDb) -> Result<(), Fail> {
    for (moment, dropped) in &PURGES {
        assert_purge(rt, database, *moment, *dropped)?;
    }
    assert_same(rt, &count_rows(database), &100_000, &"rows");
    Ok(())
}

/// Makes a copy of a database of those rows, and purges both.
fn assert_both_purged(rt: &impl TestHost, database: &mut PathDb) -> Result<(), Fail> {
    let mut copy = copy_of(database)?;
    assert_purges(rt, database)?;
    assert_purges(rt, &mut copy)
}

#[test]
fn purges_visit_few_rows(rt: HostRuntime) {
    let mut database = no_rows(rt.alloc());
    done(&rt, fill_many(rt.alloc(), &mut database));
    done(&rt, assert_both_purged(&Host(&rt), &mut database));
}

// A row that expires early is there before the map has bounds of its buckets.
#[test]
fn purges_visit_few_rows_where_the_earliest_came_first(rt: HostRuntime) {
    let mut database = no_rows(rt.alloc());
    done(&rt, fill_earliest_first(rt.alloc(), &mut database));
    done(&rt, assert_both_purged(&Host(&rt), &mut database));
}
