//! The segments that a database shows after an id.

use crate::checks::done;
use crate::host::Host;
use crate::rows::worked::{EXPIRY, ID, leaving_by, no_rows, put, segment};
use isd_as::IsdAs;
use path_db::PathDb;
use seg_core::{SegType, Segment, read_segment};
use std::alloc::Global;
use std::test::Fail;
use test_support::{CORE_SEGMENT, TestHost, assert_same};

/// The ASes at the ends of the worked segment.
const START: u64 = 0x0001_ff00_0000_0110;

const END: u64 = 0x0001_ff00_0000_0111;

/// The patterns of two ISDs.
const ISD_1: u64 = 1 << 48;

const ISD_2: u64 = 2 << 48;

/// The last moment at which the segments are shown.
const LAST: u64 = EXPIRY - 1;

/// Puts five down segments, an up segment and a core segment. The ids of those that are down begin
/// with 0x19, 0x8a, 0xbe and 0xfe, from 1-ff00:0:110 to 1-ff00:0:111, and with 0xe8, from 2-64512
/// to 1-ff00:0:110.
fn put_seven(alloc: Global, database: &mut PathDb) -> Result<(), Fail> {
    for egress in [4, 1, 3, 2] {
        put(alloc, database, SegType::Down, leaving_by(alloc, egress)?)?;
    }
    let other = read_segment(alloc, &CORE_SEGMENT)?;
    put(alloc, database, SegType::Down, other)?;
    put(alloc, database, SegType::Up, leaving_by(alloc, 2)?)?;
    put(alloc, database, SegType::Core, segment(alloc)?)?;
    Ok(())
}

/// A look after an id: the type of the segments, the numbers of the ASes from and to which they
/// lead, a moment in half seconds, and how many are wanted at the most; the first bytes of the ids
/// of those that are shown.
#[derive(Clone, Copy, Debug)]
struct Look {
    kind: SegType,
    id: [u8; 32],
    start: u64,
    end: u64,
    moment: u64,
    limit: usize,
    shown: &'static [u8],
}

const UP: SegType = SegType::Up;

const DOWN: SegType = SegType::Down;

const CORE: SegType = SegType::Core;

/// Ids that no row has: the least one, one between 0x8a.. and 0xbe.., and the greatest one.
const LOW: [u8; 32] = [0; 32];

const MIDDLE: [u8; 32] = [0x8b; 32];

const HIGH: [u8; 32] = [0xff; 32];

/// Looks with an end, with a start alone, with neither, of other types, late, and with ISDs alone.
/// `ID` is that of a row, the id that begins with 0x8a.
#[rattlefmt::skip]
const LOOKS: [Look; 26] = [
    Look { kind: DOWN, id: LOW, start: START, end: END, moment: LAST, limit: 64, shown: &[0x19, 0x8a, 0xbe, 0xfe] },
    Look { kind: DOWN, id: ID, start: START, end: END, moment: LAST, limit: 64, shown: &[0xbe, 0xfe] },
    Look { kind: DOWN, id: ID, start: 0, end: END, moment: LAST, limit: 1, shown: &[0xbe] },
    Look { kind: DOWN, id: ID, start: 0, end: END, moment: LAST, limit: 0, shown: &[] },
    Look { kind: DOWN, id: MIDDLE, start: 0, end: END, moment: LAST, limit: 64, shown: &[0xbe, 0xfe] },
    Look { kind: DOWN, id: HIGH, start: 0, end: END, moment: LAST, limit: 64, shown: &[] },
    Look { kind: DOWN, id: MIDDLE, start: 0, end: START, moment: LAST, limit: 64, shown: &[0xe8] },
    Look { kind: DOWN, id: LOW, start: END, end: START, moment: LAST, limit: 64, shown: &[] },
    Look { kind: DOWN, id: LOW, start: START, end: 0, moment: LAST, limit: 64, shown: &[0x19, 0x8a, 0xbe, 0xfe] },
    Look { kind: DOWN, id: ID, start: START, end: 0, moment: LAST, limit: 64, shown: &[0xbe, 0xfe] },
    Look { kind: DOWN, id: ID, start: START, end: 0, moment: LAST, limit: 1, shown: &[0xbe] },
    Look { kind: DOWN, id: LOW, start: 0, end: 0, moment: LAST, limit: 64, shown: &[0x19, 0x8a, 0xbe, 0xe8, 0xfe] },
    Look { kind: DOWN, id: ID, start: 0, end: 0, moment: LAST, limit: 64, shown: &[0xbe, 0xe8, 0xfe] },
    Look { kind: DOWN, id: MIDDLE, start: 0, end: 0, moment: LAST, limit: 2, shown: &[0xbe, 0xe8] },
    Look { kind: DOWN, id: HIGH, start: 0, end: 0, moment: LAST, limit: 64, shown: &[] },
    Look { kind: UP, id: LOW, start: 0, end: END, moment: LAST, limit: 64, shown: &[0x19] },
    Look { kind: UP, id: ID, start: 0, end: 0, moment: LAST, limit: 64, shown: &[] },
    Look { kind: CORE, id: MIDDLE, start: 0, end: 0, moment: LAST, limit: 64, shown: &[] },
    Look { kind: CORE, id: LOW, start: START, end: 0, moment: LAST, limit: 64, shown: &[0x8a] },
    Look { kind: DOWN, id: ID, start: 0, end: END, moment: EXPIRY, limit: 64, shown: &[] },
    Look { kind: DOWN, id: LOW, start: ISD_1, end: ISD_1, moment: LAST, limit: 64, shown: &[0x19, 0x8a, 0xbe, 0xfe] },
    Look { kind: DOWN, id: ID, start: ISD_1, end: ISD_1, moment: LAST, limit: 1, shown: &[0xbe] },
    Look { kind: DOWN, id: ID, start: 0, end: ISD_1, moment: LAST, limit: 64, shown: &[0xbe, 0xe8, 0xfe] },
    Look { kind: DOWN, id: MIDDLE, start: ISD_2, end: 0, moment: LAST, limit: 64, shown: &[0xe8] },
    Look { kind: DOWN, id: HIGH, start: ISD_2, end: ISD_1, moment: LAST, limit: 64, shown: &[] },
    Look { kind: DOWN, id: LOW, start: ISD_2, end: END, moment: LAST, limit: 64, shown: &[] },
];

/// The first bytes of the ids of segments.
fn first_bytes(alloc: Global, segments: &[Segment]) -> Result<Vec<u8>, Fail> {
    let mut bytes = Vec::new(alloc);
    for segment in segments {
        bytes.push(segment.digest()[0])?;
    }
    Ok(bytes)
}

/// Checks what a look shows.
fn assert_shown(
    rt: &impl TestHost,
    alloc: Global,
    database: &PathDb,
    look: &Look,
) -> Result<(), Fail> {
    let (start, end) = (IsdAs::from_u64(look.start), IsdAs::from_u64(look.end));
    let shown = database.matching_after(look.kind, &look.id, start, end, look.moment, look.limit)?;
    let bytes = first_bytes(alloc, &shown)?;
    assert_same(rt, &bytes.as_slice(), &look.shown, look);
    Ok(())
}

/// Puts those segments into a database, and checks all looks.
fn assert_all_shown(rt: &impl TestHost, alloc: Global, database: &mut PathDb) -> Result<(), Fail> {
    put_seven(alloc, database)?;
    for look in &LOOKS {
        assert_shown(rt, alloc, database, look)?;
    }
    Ok(())
}

#[test]
fn segments_after_an_id_are_shown(rt: HostRuntime) -> Result<(), Fail> {
    assert_all_shown(&Host(&rt), rt.alloc(), &mut no_rows(rt.alloc()))
}

#[test]
fn segments_after_an_id_are_shown_without_indexes(rt: HostRuntime) -> Result<(), Fail> {
    let mut database = no_rows(rt.alloc()).without_indexes();
    assert_all_shown(&Host(&rt), rt.alloc(), &mut database)
}

/// The first two down segments, or the next two after an id.
fn two(database: &PathDb, after: Option<[u8; 32]>) -> Result<Vec<Segment>, Fail> {
    let any = IsdAs::from_u64(0);
    Ok(match after {
        Some(id) => database.matching_after(SegType::Down, &id, any, any, LAST, 2)?,
        None => database.matching(SegType::Down, any, any, LAST, 2)?,
    })
}

/// The pages of two down segments each, as the first bytes of their ids.
const PAGES: [&[u8]; 4] = [&[0x19, 0x8a], &[0xbe, 0xe8], &[0xfe], &[]];

/// Checks the page after an id. Returns its last id.
fn assert_two(
    rt: &impl TestHost,
    alloc: Global,
    database: &PathDb,
    after: Option<[u8; 32]>,
    page: &[u8],
) -> Result<Option<[u8; 32]>, Fail> {
    let shown = two(database, after)?;
    let bytes = first_bytes(alloc, &shown)?;
    assert_same(rt, &bytes.as_slice(), &page, &"a page");
    Ok(shown.last().map(|segment| *segment.digest()))
}

/// Puts those segments into a database, and checks the pages, each of which begins after the last
/// id of the page before it.
fn assert_pages(rt: &impl TestHost, alloc: Global, database: &mut PathDb) -> Result<(), Fail> {
    put_seven(alloc, database)?;
    let mut after = None;
    for page in &PAGES {
        after = assert_two(rt, alloc, database, after, page)?;
    }
    Ok(())
}

// Each page begins after the last id of the page before it.
#[test]
fn pages_follow_each_other(rt: HostRuntime) {
    let checked = assert_pages(&Host(&rt), rt.alloc(), &mut no_rows(rt.alloc()));
    done(&rt, checked);
}
