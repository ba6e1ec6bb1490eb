//! The segments that a database shows, compared with a filter over all its rows.

use crate::checks::done;
use crate::host::Host;
use crate::lookups::worked::register;
use crate::rows::worked::{count_rows, no_rows};
use isd_as::IsdAs;
use path_db::PathDb;
use row_map::Row;
use seg_core::{SegType, Segment};
use seg_lookup::{ANSWER_LIMIT, Query, answer};
use std::alloc::Global;
use std::test::Fail;
use test_support::{TestHost, assert_same};

/// The encodings of three ASes in each of two ISDs, as in messages.
const ENDS: [[u8; 8]; 6] = [
    [0x90, 0x82, 0x80, 0x80, 0x80, 0xe0, 0xbf, 0x01], // 2-ff00:0:110
    [0x91, 0x82, 0x80, 0x80, 0x80, 0xe0, 0xbf, 0x01], // 2-ff00:0:111
    [0x80, 0xf8, 0x83, 0x80, 0x80, 0x80, 0x80, 0x01], // 2-64512
    [0x90, 0x82, 0x80, 0x80, 0x80, 0xe0, 0xff, 0x01], // 3-ff00:0:110
    [0x91, 0x82, 0x80, 0x80, 0x80, 0xe0, 0xff, 0x01], // 3-ff00:0:111
    [0x80, 0xf8, 0x83, 0x80, 0x80, 0x80, 0xc0, 0x01], // 3-64512
];

/// The numbers of these ASes, and three wildcards.
const SIDES: [u64; 9] = [
    0x0002_ff00_0000_0110,
    0x0002_ff00_0000_0111,
    0x0002_0000_0000_fc00,
    0x0003_ff00_0000_0110,
    0x0003_ff00_0000_0111,
    0x0003_0000_0000_fc00,
    0x0000_0000_0000_0000, // any AS of any ISD
    0x0002_0000_0000_0000, // any AS of the ISD 2
    0x0000_ff00_0000_0110, // that AS of any ISD
];

/// The moment at which the rows with the interface 7 expire, in half seconds since 1970: 2 *
/// 1,700,000,000 + 675.
const EARLY: u64 = 3_400_000_675;

/// A segment of two entries from one end to another, with an egress below 128.
fn between(alloc: Global, start: &[u8], end: &[u8], egress: u8) -> Result<Vec<u8>, Fail> {
    let exp_time = if egress == 7 { 0 } else { 63 };
    let mut bytes = Vec::new(alloc);
    for piece in [
        [0x0a, 0x08, 0x08, 0x80, 0xe2, 0xcf, 0xaa, 0x06, 0x10, 0x07].as_slice(), // its information
        &[0x12, 0x2b, 0x0a, 0x29, 0x0a, 0x27, 0x12, 0x25, 0x08], // the first entry, down to its AS
        start,
        &[0x10], // the next AS
        end,
        &[0x1a, 0x0e, 0x0a, 0x0c, 0x10, egress, 0x18, exp_time], // its hop field
        &[
            0x22, 0x06, 0x01, 0x02, 0x03, 0x04, 0x05, 0x06, 0x28, 0xc0, 0x0b,
        ], // a MAC, and the MTU
        &[0x12, 0x22, 0x0a, 0x20, 0x0a, 0x1e, 0x12, 0x1c, 0x08], // the second entry, down to its AS
        end,
        &[0x1a, 0x0e, 0x0a, 0x0c, 0x08, 0x02, 0x18, 0x3f], // its hop field
        &[
            0x22, 0x06, 0x0a, 0x0b, 0x0c, 0x0d, 0x0e, 0x0f, 0x28, 0xc0, 0x0b,
        ], // a MAC, and the MTU
    ] {
        bytes.extend_from_slice(piece)?;
    }
    Ok(bytes)
}

/// Registers a segment from one end to another.
fn add(
    alloc: Global,
    db: &mut PathDb,
    kind: SegType,
    start: &[u8],
    end: &[u8],
    egress: u8,
) -> Result<(), Fail> {
    let bytes = between(alloc, start, end, egress)?;
    register(alloc, db, kind, &bytes)
}

/// Registers from one end to another a segment that is up and expires early, and one that is core.
fn add_two(alloc: Global, db: &mut PathDb, start: &[u8], end: &[u8]) -> Result<(), Fail> {
    add(alloc, db, SegType::Up, start, end, 7)?;
    add(alloc, db, SegType::Core, start, end, 8)
}

/// Registers 14 segments that are down, from the first end to another one and back.
fn add_down(alloc: Global, db: &mut PathDb, other: &[u8]) -> Result<(), Fail> {
    for egress in 1..=14 {
        add(alloc, db, SegType::Down, &ENDS[0], other, egress)?;
        add(alloc, db, SegType::Down, other, &ENDS[0], egress)?;
    }
    Ok(())
}

/// Registers both from each of the ASes to each other one.
fn add_between(alloc: Global, db: &mut PathDb) -> Result<(), Fail> {
    for start in &ENDS {
        for end in &ENDS {
            if start != end {
                add_two(alloc, db, start, end)?;
            }
        }
    }
    Ok(())
}

/// Registers 200 rows: from each of the ASes to each other one an up segment that expires early,
/// and a core segment; and 14 down segments, from the first AS to each other one and back.
fn add_all(alloc: Global, db: &mut PathDb) -> Result<(), Fail> {
    add_between(alloc, db)?;
    for other in ENDS.iter().skip(1) {
        add_down(alloc, db, other)?;
    }
    Ok(())
}

/// A database of these rows.
fn rows(alloc: Global) -> Result<PathDb, Fail> {
    let mut db = no_rows(alloc);
    add_all(alloc, &mut db)?;
    Ok(db)
}

/// Whether a side of a query covers an AS: each of its parts is the AS's or 0.
fn stands_for(side: IsdAs, ia: IsdAs) -> bool {
    (side.isd == 0 || side.isd == ia.isd) && (side.asn == 0 || side.asn == ia.asn)
}

/// Whether a row is of the query's type, goes from one side to the other, and each of its hop
/// fields expires after `now`.
fn is_wanted(row: &Row, query: &Query, now: u64) -> bool {
    let entries = row.segment.entries();
    let (Some(first), Some(last)) = (entries.first(), entries.last()) else {
        return false;
    };
    let made = 2 * u64::from(row.segment.timestamp());
    row.kind == query.kind
        && stands_for(query.start, first.ia)
        && stands_for(query.end, last.ia)
        && entries
            .iter()
            .all(|entry| now < made + 675 * (1 + u64::from(entry.exp_time)))
}

/// The segments of the first 64 rows that are wanted, found by a scan of all rows.
fn filtered<'a>(
    alloc: Global,
    db: &'a PathDb,
    query: &Query,
    now: u64,
) -> Result<Vec<&'a Segment>, Fail> {
    let mut found = Vec::new(alloc);
    for row in db.rows() {
        if found.len() < 64 && is_wanted(row, query, now) {
            found.push(&row.segment)?;
        }
    }
    Ok(found)
}

/// The segments that a query shows.
fn shown(db: &PathDb, query: &Query, now: u64) -> Result<Vec<Segment>, Fail> {
    Ok(answer(db, query, now)?)
}

/// Checks that segments are the wanted ones.
fn assert_wanted(rt: &impl TestHost, query: &Query, shown: &[Segment], wanted: &[&Segment]) {
    let ends = (query.start, query.end);
    assert_same(rt, &shown.len(), &wanted.len(), &ends);
    for (one, other) in shown.iter().zip(wanted) {
        assert_same(rt, &(*one == **other), &true, &ends);
    }
}

/// Checks that a query shows what the filter finds. Returns the number of segments.
fn assert_filtered(
    rt: &impl TestHost,
    alloc: Global,
    db: &PathDb,
    query: &Query,
    now: u64,
) -> Result<usize, Fail> {
    let shown = shown(db, query, now)?;
    let wanted = filtered(alloc, db, query, now)?;
    assert_wanted(rt, query, &shown, &wanted);
    Ok(shown.len())
}

/// Checks the same for all queries of six ASes and three wildcards on either side. Returns the most
/// segments that one shows.
fn assert_all_filtered(
    rt: &impl TestHost,
    alloc: Global,
    db: &PathDb,
    kind: SegType,
    now: u64,
) -> Result<usize, Fail> {
    let mut most = 0;
    for start in &SIDES {
        for end in &SIDES {
            let query = Query {
                kind,
                start: IsdAs::from_u64(*start),
                end: IsdAs::from_u64(*end),
            };
            most = assert_filtered(rt, alloc, db, &query, now)?.max(most);
        }
    }
    Ok(most)
}

/// Checks the same for each type. Returns the most segments that a query shows.
fn assert_types_filtered(
    rt: &impl TestHost,
    alloc: Global,
    db: &PathDb,
    now: u64,
) -> Result<usize, Fail> {
    let up = assert_all_filtered(rt, alloc, db, SegType::Up, now)?;
    let down = assert_all_filtered(rt, alloc, db, SegType::Down, now)?;
    let core = assert_all_filtered(rt, alloc, db, SegType::Core, now)?;
    Ok(up.max(down).max(core))
}

/// Checks the queries of a database of those rows while all are valid, and after some have expired.
fn assert_moments_filtered(rt: &impl TestHost, alloc: Global, db: &PathDb) -> Result<(), Fail> {
    assert_same(rt, &count_rows(db), &200, &"rows");
    let first = assert_types_filtered(rt, alloc, db, 0)?;
    let early = assert_types_filtered(rt, alloc, db, EARLY)?;
    let most = first.max(early);
    assert_same(rt, &most, &ANSWER_LIMIT, &"the most that are shown");
    Ok(())
}

// The queries while all rows are valid, and after some have expired.
#[test]
fn answers_are_those_of_a_filter(rt: HostRuntime) {
    let db = done(&rt, rows(rt.alloc()));
    let checked = assert_moments_filtered(&Host(&rt), rt.alloc(), &db);
    done(&rt, checked);
}
