//! The segments of a database that a lookup shows.

use crate::checks::done;
use crate::host::Host;
use crate::lookups::worked::{CORE_SEGMENT, EXP_TIME, SEGMENT, leaving_by, register, roster};
use isd_as::parse;
use path_db::PathDb;
use seg_core::{SegType, Segment};
use seg_lookup::{Query, Roster, answer, classify};
use std::alloc::{AllocError, Global};
use std::test::Fail;
use test_support::{TestHost, assert_same};

/// The query of a source and a destination.
pub(crate) fn query_of(cores: &Roster, source: &str, destination: &str) -> Result<Query, Fail> {
    Ok(classify(cores, parse(source)?, parse(destination)?)?)
}

/// The segments that a lookup shows.
fn found(
    db: &PathDb,
    cores: &Roster,
    source: &str,
    destination: &str,
    now: u64,
) -> Result<Vec<Segment>, Fail> {
    let query = query_of(cores, source, destination)?;
    Ok(answer(db, &query, now)?)
}

/// A lookup at a moment in half seconds, and how many segments it shows.
#[derive(Clone, Copy, Debug)]
struct Lookup {
    source: &'static str,
    destination: &'static str,
    now: u64,
    shown: usize,
}

/// Checks how many segments a lookup shows.
fn assert_shown(
    rt: &impl TestHost,
    db: &PathDb,
    cores: &Roster,
    lookup: &Lookup,
) -> Result<(), Fail> {
    let segments = found(db, cores, lookup.source, lookup.destination, lookup.now)?;
    assert_same(rt, &segments.len(), &lookup.shown, lookup);
    Ok(())
}

/// Checks how many segments each of these lookups shows.
fn assert_all_shown(
    rt: &impl TestHost,
    db: &PathDb,
    cores: &Roster,
    lookups: &[Lookup],
) -> Result<(), Fail> {
    for lookup in lookups {
        assert_shown(rt, db, cores, lookup)?;
    }
    Ok(())
}

/// A database of one segment.
fn one_row(alloc: Global, kind: SegType, bytes: &[u8]) -> Result<PathDb, Fail> {
    let mut db = PathDb::new(alloc);
    register(alloc, &mut db, kind, bytes)?;
    Ok(db)
}

/// Checks how many segments each of these lookups shows in a database of one segment.
fn assert_row_shown(
    rt: &impl TestHost,
    alloc: Global,
    cores: &Roster,
    (kind, bytes): (SegType, &[u8]),
    lookups: &[Lookup],
) -> Result<(), Fail> {
    let db = one_row(alloc, kind, bytes)?;
    assert_all_shown(rt, &db, cores, lookups)
}

/// Checks the same where these are the core ASes.
fn assert_one_row(
    rt: &impl TestHost,
    alloc: Global,
    cores: &[&str],
    row: (SegType, &[u8]),
    lookups: &[Lookup],
) -> Result<(), Fail> {
    let cores = roster(alloc, cores)?;
    assert_row_shown(rt, alloc, &cores, row, lookups)
}

/// Lookups of the worked segment, which is to expire at 3,400,000,675 half seconds.
#[rattlefmt::skip]
const MOMENTS: [Lookup; 5] = [
    Lookup { source: "1-ff00:0:110", destination: "1-ff00:0:111", now: 0, shown: 1 },
    Lookup { source: "1-ff00:0:110", destination: "1-ff00:0:111", now: 3_400_000_674, shown: 1 },
    Lookup { source: "1-ff00:0:110", destination: "1-ff00:0:111", now: 3_400_000_675, shown: 0 },
    Lookup { source: "1-ff00:0:110", destination: "1-ff00:0:111", now: 3_400_000_676, shown: 0 },
    Lookup { source: "1-ff00:0:110", destination: "1-ff00:0:111", now: u64::MAX, shown: 0 },
];

// A segment that expires at 3,400,000,675 half seconds.
#[test]
fn expiry_boundary_hidden(rt: HostRuntime) {
    let mut bytes = SEGMENT;
    bytes[EXP_TIME] = 0;
    let (cores, row) = (&["1-ff00:0:110"], (SegType::Down, bytes.as_slice()));
    let checked = assert_one_row(&Host(&rt), rt.alloc(), cores, row, &MOMENTS);
    done(&rt, checked);
}

/// Lookups in a database of one core segment, from 2-64512 to 1-ff00:0:110.
#[rattlefmt::skip]
const CORE_LOOKUPS: [Lookup; 10] = [
    Lookup { source: "1-0", destination: "0-0", now: 0, shown: 1 },
    Lookup { source: "2-0", destination: "0-0", now: 0, shown: 0 },
    Lookup { source: "1-0", destination: "2-0", now: 0, shown: 1 },
    Lookup { source: "1-ff00:0:110", destination: "2-64512", now: 0, shown: 1 },
    Lookup { source: "2-64512", destination: "1-ff00:0:110", now: 0, shown: 0 },
    Lookup { source: "1-ff00:0:110", destination: "0-0", now: 0, shown: 1 },
    Lookup { source: "0-0", destination: "2-64512", now: 0, shown: 1 },
    Lookup { source: "0-0", destination: "1-0", now: 0, shown: 0 },
    Lookup { source: "1-ff00:0:111", destination: "0-0", now: 0, shown: 0 },
    Lookup { source: "0-0", destination: "1-ff00:0:110", now: 0, shown: 0 },
];

#[test]
fn wildcard_core_lookup(rt: HostRuntime) {
    let (cores, row) = (
        &["1-ff00:0:110", "2-64512"],
        (SegType::Core, CORE_SEGMENT.as_slice()),
    );
    let checked = assert_one_row(&Host(&rt), rt.alloc(), cores, row, &CORE_LOOKUPS);
    done(&rt, checked);
}

/// Lookups in a database of the worked segment as a down segment.
#[rattlefmt::skip]
const DOWN_LOOKUPS: [Lookup; 5] = [
    Lookup { source: "1-ff00:0:110", destination: "1-ff00:0:111", now: 0, shown: 1 },
    Lookup { source: "1-ff00:0:111", destination: "1-ff00:0:110", now: 0, shown: 0 },
    Lookup { source: "1-0", destination: "1-ff00:0:111", now: 0, shown: 1 },
    Lookup { source: "0-0", destination: "1-ff00:0:111", now: 0, shown: 1 },
    Lookup { source: "1-ff00:0:110", destination: "0-0", now: 0, shown: 0 },
];

// The worked segment, as up and as down.
#[test]
fn types_are_apart(rt: HostRuntime) {
    let (cores, row) = (&["1-ff00:0:110"], (SegType::Down, SEGMENT.as_slice()));
    let checked = assert_one_row(&Host(&rt), rt.alloc(), cores, row, &DOWN_LOOKUPS);
    done(&rt, checked);
}

/// The interfaces 1 to 65, in the order of the ids of the worked segment with each.
pub(crate) const BY_ID: [u16; 65] = [
    7, 58, 31, 18, 38, 2, 44, 52, 26, 53, 17, 6, 5, 28, 32, 36, 37, 27, 40, 10, 12, 65, 22, 39, 24,
    63, 14, 35, 54, 15, 11, 45, 21, 47, 50, 64, 1, 56, 34, 51, 29, 9, 46, 23, 55, 49, 59, 61, 3,
    43, 42, 19, 57, 8, 60, 13, 48, 30, 16, 41, 62, 20, 33, 4, 25,
];

/// The worked segment as a down segment with each of these interfaces.
pub(crate) fn all_rows(alloc: Global) -> Result<PathDb, Fail> {
    let mut db = PathDb::new(alloc);
    for egress in 1..=65 {
        register(alloc, &mut db, SegType::Down, &leaving_by(egress))?;
    }
    Ok(db)
}

/// The interface by which a segment leaves its first AS.
fn egress_of(segment: &Segment) -> Option<u16> {
    segment.entries().first().map(|entry| entry.egress)
}

/// Checks that segments leave their first AS by these interfaces.
pub(crate) fn assert_left_by(rt: &impl TestHost, segments: &[Segment], egresses: &[u16]) {
    for (segment, egress) in segments.iter().zip(egresses) {
        assert_same(rt, &egress_of(segment), &Some(*egress), egress);
    }
}

/// What a lookup shows, which is made once more where memory is refused.
fn answer_again(db: &PathDb, query: &Query) -> Result<Vec<Segment>, AllocError> {
    match answer(db, query, 0) {
        Ok(segments) => Ok(segments),
        Err(_) => answer(db, query, 0),
    }
}

/// Checks that of the 65 rows that match a query the first 64 are shown.
fn assert_first_shown(rt: &impl TestHost, db: &PathDb, query: &Query) -> Result<(), Fail> {
    let segments = answer_again(db, query)?;
    assert_same(rt, &segments.len(), &64, &"of 65");
    assert_left_by(rt, &segments, &BY_ID);
    Ok(())
}

/// Checks that nothing is shown for a query, which takes no memory.
fn assert_none_shown(rt: &impl TestHost, db: &PathDb, query: &Query) {
    let none = answer(db, query, 0).map(|found| found.len());
    assert_same(rt, &none.ok(), &Some(0), &"of none");
}

/// Checks the lookups of a database of these rows.
fn assert_lookups(rt: &impl TestHost, db: &PathDb, cores: &Roster) -> Result<(), Fail> {
    assert_first_shown(rt, db, &query_of(cores, "1-ff00:0:110", "1-ff00:0:111")?)?;
    assert_none_shown(rt, db, &query_of(cores, "1-ff00:0:110", "1-5")?);
    Ok(())
}

// Of 65 rows that match, the first 64 by key are shown. Run with each allocation failing in turn: a
// lookup that is refused shows the same when it is made again, and one that shows nothing takes no
// memory.
#[test]
fn first_rows_are_shown(rt: HostRuntime) -> Result<(), Fail> {
    let cores = roster(rt.alloc(), &["1-ff00:0:110"])?;
    let db = all_rows(rt.alloc())?;
    assert_lookups(&Host(&rt), &db, &cores)
}
