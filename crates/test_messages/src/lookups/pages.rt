//! The pages of segments that a query shows.

use crate::checks::done;
use crate::host::Host;
use crate::lookups::answers::{BY_ID, all_rows, assert_left_by, query_of};
use crate::lookups::worked::roster;
use crate::rows::worked::remove;
use path_db::PathDb;
use seg_core::{SegType, Segment};
use seg_lookup::{Page, Query, page_after};
use std::alloc::Global;
use std::test::Fail;
use test_support::{TestHost, assert_same};

/// The query of the segments between the ASes of the worked segment.
fn query(alloc: Global) -> Result<Query, Fail> {
    let cores = roster(alloc, &["1-ff00:0:110"])?;
    query_of(&cores, "1-ff00:0:110", "1-ff00:0:111")
}

/// The page after an id.
fn page(db: &PathDb, query: &Query, after: Option<[u8; 32]>) -> Result<Page, Fail> {
    Ok(match after {
        Some(id) => page_after(db, query, Some(&id), 0)?,
        None => page_after(db, query, None, 0)?,
    })
}

/// The id of the last of these segments.
fn last_id(segments: &[Segment]) -> Option<[u8; 32]> {
    segments.last().map(|segment| *segment.digest())
}

/// The id of the first segment of a page.
fn first_id(page: &Page) -> Option<[u8; 32]> {
    page.segments.first().map(|segment| *segment.digest())
}

/// Checks that a page has segments that leave their first AS by these interfaces, and whether
/// further ones follow. Returns its last id.
fn assert_page(
    rt: &impl TestHost,
    db: &PathDb,
    query: &Query,
    after: Option<[u8; 32]>,
    egresses: &[u16],
    more: bool,
) -> Result<Option<[u8; 32]>, Fail> {
    let page = page(db, query, after)?;
    let found = (page.segments.len(), page.more);
    assert_same(rt, &found, &(egresses.len(), more), &after);
    assert_left_by(rt, &page.segments, egresses);
    Ok(last_id(&page.segments))
}

/// Checks the pages of a database of 65 rows that match, each after the last id of the one before.
fn assert_pages(rt: &impl TestHost, db: &PathDb, query: &Query) -> Result<(), Fail> {
    let first = assert_page(rt, db, query, None, &BY_ID[..64], true)?;
    let second = assert_page(rt, db, query, first, &BY_ID[64..], false)?;
    assert_page(rt, db, query, second, &[], false)?;
    Ok(())
}

// Of 65 rows that match, the first page has 64, the second has one, and none follows.
#[test]
fn pages_of_all_rows(rt: HostRuntime) {
    let query = done(&rt, query(rt.alloc()));
    let db = done(&rt, all_rows(rt.alloc()));
    let checked = assert_pages(&Host(&rt), &db, &query);
    done(&rt, checked);
}

/// The id of the first segment that is shown.
fn first_shown(db: &PathDb, query: &Query) -> Result<[u8; 32], Fail> {
    match first_id(&page(db, query, None)?) {
        Some(id) => Ok(id),
        None => Err(Fail::from("no segment")),
    }
}

/// Checks the pages of a database of 65 rows that match: those after the least and the greatest id,
/// and those of 64 rows, once the first row is removed.
fn assert_other_pages(rt: &impl TestHost, db: &mut PathDb, query: &Query) -> Result<(), Fail> {
    assert_page(rt, db, query, Some([0; 32]), &BY_ID[..64], true)?;
    assert_page(rt, db, query, Some([0xff; 32]), &[], false)?;
    let first = first_shown(db, query)?;
    remove(db, SegType::Down, first)?;
    assert_page(rt, db, query, None, &BY_ID[1..], false)?;
    assert_page(rt, db, query, Some(first), &BY_ID[1..], false)?;
    Ok(())
}

// A page after an id that no row has begins at the next one, and nothing follows 64 rows.
#[test]
fn pages_after_ids_without_rows(rt: HostRuntime) {
    let query = done(&rt, query(rt.alloc()));
    let mut db = done(&rt, all_rows(rt.alloc()));
    let checked = assert_other_pages(&Host(&rt), &mut db, &query);
    done(&rt, checked);
}
