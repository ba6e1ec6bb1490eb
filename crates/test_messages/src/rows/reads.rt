//! The calls that read a database.

use crate::checks::{assert_bytes, done};
use crate::host::Host;
use crate::rows::worked::{
    EXPIRY, ID, SEGMENT, copy_of, count_rows, is_there, leaving_by, len_of, no_rows, purge, put,
    remove, row_of, segment,
};
use isd_as::IsdAs;
use path_db::PathDb;
use row_map::{Row, Rows};
use seg_core::{SegType, Segment, write_segment};
use std::alloc::{AllocError, Global};
use std::test::Fail;
use test_support::{TestHost, assert_same};

/// Registers the worked segment under types in turn, and checks how many bytes the rows have.
fn assert_len_of_puts(
    rt: &impl TestHost,
    alloc: Global,
    database: &mut PathDb,
) -> Result<(), Fail> {
    for (kind, len) in [
        (SegType::Down, 93),
        (SegType::Core, 186),
        (SegType::Core, 186),
    ] {
        put(alloc, database, kind, segment(alloc)?)?;
        assert_same(rt, &len_of(database), &len, &kind);
    }
    Ok(())
}

/// Drops both rows, and checks how many bytes are left.
fn assert_len_of_drops(rt: &impl TestHost, database: &mut PathDb) -> Result<(), Fail> {
    remove(database, SegType::Down, ID)?;
    assert_same(rt, &len_of(database), &93, &"after the removal");
    purge(database, EXPIRY)?;
    assert_same(rt, &len_of(database), &0, &"after the purge");
    Ok(())
}

/// Puts rows into a database, drops them, and checks how many bytes the rows have.
fn assert_len(rt: &impl TestHost, alloc: Global, database: &mut PathDb) -> Result<(), Fail> {
    assert_same(rt, &len_of(database), &0, &"no rows");
    assert_len_of_puts(rt, alloc, database)?;
    assert_len_of_drops(rt, database)
}

// A row of the worked segment, whose encoding has 88 bytes, has 93.
#[test]
fn encoded_len_is_kept(rt: HostRuntime) -> Result<(), Fail> {
    assert_len(&Host(&rt), rt.alloc(), &mut no_rows(rt.alloc()))
}

/// The interface by which the segment of a row leaves its first AS.
fn egress_of(row: &Row) -> u16 {
    row.segment
        .entries()
        .first()
        .map_or(0, |entry| entry.egress)
}

/// The next row's type, and the interface by which its segment leaves its first AS.
fn next_of(rows: &mut Rows<'_>) -> Option<(SegType, u16)> {
    rows.next().map(|row| (row.kind, egress_of(row)))
}

/// Registers four segments under a type, in no order.
fn put_four(alloc: Global, database: &mut PathDb, kind: SegType) -> Result<(), Fail> {
    for egress in 1..=4 {
        put(alloc, database, kind, leaving_by(alloc, egress)?)?;
    }
    Ok(())
}

/// Checks that the next four rows are of a type, in the order of their ids.
fn assert_next_four(rt: &impl TestHost, rows: &mut Rows<'_>, kind: SegType) {
    for egress in &[2, 1, 3, 4] {
        assert_same(rt, &next_of(rows), &Some((kind, *egress)), &"a row");
    }
}

/// Checks that rows are in the order of their keys.
fn assert_order(rt: &impl TestHost, rows: &mut Rows<'_>) {
    assert_next_four(rt, rows, SegType::Up);
    assert_next_four(rt, rows, SegType::Down);
    assert_next_four(rt, rows, SegType::Core);
    assert_same(rt, &next_of(rows), &None, &"the end");
}

/// Registers four segments under each type, and checks the order of the rows.
fn assert_twelve(rt: &impl TestHost, alloc: Global, database: &mut PathDb) -> Result<(), Fail> {
    put_four(alloc, database, SegType::Core)?;
    put_four(alloc, database, SegType::Down)?;
    put_four(alloc, database, SegType::Up)?;
    assert_order(rt, &mut database.rows());
    Ok(())
}

// The order of the ids is that of SHA-256's bytes.
#[test]
fn rows_are_in_the_order_of_their_keys(rt: HostRuntime) -> Result<(), Fail> {
    assert_twelve(&Host(&rt), rt.alloc(), &mut no_rows(rt.alloc()))
}

/// Checks that a row is that of the worked segment.
fn assert_row(rt: &impl TestHost, row: &Row) {
    assert_same(rt, &(row.kind, *row.id()), &(SegType::Down, ID), &"a row");
}

// A row of the worked segment has its id, and so has a copy.
#[test]
fn rows_have_ids(rt: HostRuntime) {
    let row = Row::new(SegType::Down, done(&rt, segment(rt.alloc())));
    assert_row(&Host(&rt), &row);
    assert_row(&Host(&rt), &row.try_clone().expect(&rt, "a copy"));
}

/// A segment's type and id, and whether it is in a database of the worked down segment.
#[derive(Clone, Copy, Debug)]
struct Key {
    kind: SegType,
    id: [u8; 32],
    is_there: bool,
}

#[rattlefmt::skip]
const KEYS: [Key; 3] = [
    Key { kind: SegType::Down, id: ID, is_there: true },
    Key { kind: SegType::Core, id: ID, is_there: false },
    Key { kind: SegType::Down, id: [0; 32], is_there: false },
];

/// Checks that the worked segment is found, and no other.
fn assert_found(rt: &impl TestHost, database: &PathDb) {
    for key in &KEYS {
        let found = is_there(database, key.kind, &key.id);
        assert_same(rt, &found, &key.is_there, key);
    }
    assert_same(rt, &len_of(database), &93, &"bytes");
}

/// Checks that the worked segment is found in a database, and in a copy too.
fn assert_both_found(rt: &impl TestHost, database: &PathDb) -> Result<(), Fail> {
    assert_found(rt, database);
    assert_found(rt, &copy_of(database)?);
    Ok(())
}

// The worked segment is found under its type and its id alone, and in a copy too.
#[test]
fn segments_are_found(rt: HostRuntime) {
    let database = done(&rt, row_of(rt.alloc(), SegType::Down));
    done(&rt, assert_both_found(&Host(&rt), &database));
}

/// Checks that a purge of a database does not change its copy.
fn assert_apart(rt: &impl TestHost, database: &mut PathDb, copy: &PathDb) -> Result<(), Fail> {
    purge(database, EXPIRY)?;
    let counts = (count_rows(database), count_rows(copy));
    assert_same(rt, &counts, &(0, 1), &"rows, and the copy's");
    Ok(())
}

/// Checks that a purge of a database does not change a copy that is made before that.
fn assert_copy_apart(rt: &impl TestHost, database: &mut PathDb) -> Result<(), Fail> {
    let copy = copy_of(database)?;
    assert_apart(rt, database, &copy)
}

// A change of a database does not change its copy.
#[test]
fn copies_are_apart(rt: HostRuntime) {
    let mut database = done(&rt, row_of(rt.alloc(), SegType::Down));
    done(&rt, assert_copy_apart(&Host(&rt), &mut database));
}

/// A look into a database: the type of the segments, the numbers of the ASes from and to which
/// they lead, a moment in half seconds, and how many are wanted at the most; how many are shown.
#[derive(Clone, Copy, Debug)]
struct Look {
    name: &'static str,
    kind: SegType,
    start: u64,
    end: u64,
    moment: u64,
    limit: usize,
    shown: usize,
}

/// The ASes at the ends of the worked segment.
const START: u64 = 0x0001_ff00_0000_0110;

const END: u64 = 0x0001_ff00_0000_0111;

/// The last moment at which it is shown.
const LAST: u64 = EXPIRY - 1;

const DOWN: SegType = SegType::Down;

const CORE: SegType = SegType::Core;

/// Looks into a database of the worked segment, which is shown until it expires.
#[rattlefmt::skip]
const LOOKS: [Look; 6] = [
    Look { name: "its ends", kind: DOWN, start: START, end: END, moment: LAST, limit: 1, shown: 1 },
    Look { name: "any ends", kind: DOWN, start: 0, end: 0, moment: LAST, limit: 64, shown: 1 },
    Look { name: "late", kind: DOWN, start: START, end: END, moment: EXPIRY, limit: 64, shown: 0 },
    Look { name: "back", kind: DOWN, start: END, end: START, moment: LAST, limit: 64, shown: 0 },
    Look { name: "as core", kind: CORE, start: START, end: END, moment: LAST, limit: 64, shown: 0 },
    Look { name: "none", kind: DOWN, start: START, end: END, moment: LAST, limit: 0, shown: 0 },
];

/// The segments that a database shows.
fn matching(database: &PathDb, look: &Look) -> Result<Vec<Segment>, AllocError> {
    let start = IsdAs::from_u64(look.start);
    let end = IsdAs::from_u64(look.end);
    database.matching(look.kind, start, end, look.moment, look.limit)
}

/// Checks that a segment is the worked one.
fn assert_worked(rt: &impl TestHost, alloc: Global, segment: &Segment) -> Result<(), Fail> {
    let written = write_segment(alloc, segment)?;
    assert_bytes(rt, &written, &SEGMENT, "the worked segment");
    Ok(())
}

/// Checks that each of these segments is the worked one.
fn assert_all_worked(rt: &impl TestHost, alloc: Global, segments: &[Segment]) -> Result<(), Fail> {
    for segment in segments {
        assert_worked(rt, alloc, segment)?;
    }
    Ok(())
}

/// Checks what a look into a database of the worked segment shows.
fn assert_shown(
    rt: &impl TestHost,
    alloc: Global,
    database: &PathDb,
    look: &Look,
) -> Result<(), Fail> {
    let shown = matching(database, look)?;
    assert_same(rt, &shown.len(), &look.shown, &look.name);
    assert_all_worked(rt, alloc, &shown)
}

/// Checks all looks into a database of the worked segment.
fn assert_all_shown(rt: &impl TestHost, alloc: Global, database: &PathDb) -> Result<(), Fail> {
    for look in &LOOKS {
        assert_shown(rt, alloc, database, look)?;
    }
    Ok(())
}

#[test]
fn segments_are_shown(rt: HostRuntime) {
    let database = done(&rt, row_of(rt.alloc(), SegType::Down));
    let checked = assert_all_shown(&Host(&rt), rt.alloc(), &database);
    done(&rt, checked);
}

/// Checks that no rows are left after a purge.
fn assert_purged(rt: &impl TestHost, database: &mut PathDb) -> Result<(), Fail> {
    purge(database, EXPIRY)?;
    assert_same(rt, &count_rows(database), &0, &"rows after the purge");
    Ok(())
}

/// Registers the worked segment, checks all looks, and purges the rows.
fn assert_shown_till_purged(
    rt: &impl TestHost,
    alloc: Global,
    database: &mut PathDb,
) -> Result<(), Fail> {
    put(alloc, database, SegType::Down, segment(alloc)?)?;
    assert_all_shown(rt, alloc, database)?;
    assert_purged(rt, database)
}

// The same segments are shown by a database without its indexes, which takes further commands.
#[test]
fn segments_are_shown_without_indexes(rt: HostRuntime) {
    let mut database = no_rows(rt.alloc()).without_indexes();
    let checked = assert_shown_till_purged(&Host(&rt), rt.alloc(), &mut database);
    done(&rt, checked);
}
