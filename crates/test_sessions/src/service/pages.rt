//! Pages of more segments than one reply has.

use crate::bytes::push;
use crate::checks::assert_true;
use crate::service::frames::register_by;
use crate::service::sessions::Frames;
use crate::service::stores::new_store_of;
use crate::service::tasks::talked;
use seg_check::seg_id;
use seg_core::{SegType, Segment, read_segment, write_response_of};
use std::alloc::Global;
use std::process::Abort;
use std::sync::Wait;
use std::thread::Threads;
use std::time::Clock;
use test_support::leaving_by;

/// How many segments are registered, each left by another interface.
const SEGMENTS: u8 = 70;

/// How many sectors the rows of the segments have room in: each takes 93 bytes.
const SECTORS: u32 = 16;

/// The most segments of a page.
const PAGE: usize = 64;

/// A segment and its id.
#[derive(Drop)]
struct Row {
    id: [u8; 32],
    segment: Segment,
}

/// The segment that is left by this interface.
fn row_of(rt: &impl Abort, alloc: Global, egress: u8) -> Row {
    let segment = read_segment(alloc, &leaving_by(egress)).expect(rt, "the segment is read");
    let id = seg_id(&segment);
    Row { id, segment }
}

/// The segments in the order of their ids.
fn rows(rt: &impl Abort, alloc: Global) -> Vec<Row> {
    let mut rows = Vec::new(alloc);
    for egress in 1..=SEGMENTS {
        rows.push(row_of(rt, alloc, egress))
            .expect(rt, "the row has room");
    }
    rows.sort_unstable_by_key(|row| row.id);
    rows
}

/// Adds the frame of a list of all down segments, after an id if there is one.
fn push_list(rt: &impl Abort, frames: &mut Vec<u8>, id: &[u8]) {
    let len = if id.is_empty() { 0x12 } else { 0x32 };
    push(rt, frames, &[0, 0, 0, len, 0x05, 0x02]);
    push(rt, frames, &[0; 16]);
    push(rt, frames, id);
}

/// Adds the reply that has a page of these segments.
fn push_page(rt: &impl Abort, alloc: Global, replies: &mut Vec<u8>, rows: &[Row], more: u8) {
    let mut segments = Vec::new(alloc);
    for row in rows {
        segments
            .push((SegType::Down, &row.segment))
            .expect(rt, "the segment has room");
    }
    let response = write_response_of(alloc, &segments).expect(rt, "the response has memory");
    let len = u32::try_from(response.len()).unwrap_or(0).saturating_add(2);
    push(rt, replies, &len.to_be_bytes());
    push(rt, replies, &[0x85, more]);
    push(rt, replies, &response);
}

/// The frames that register the segments, by rising interface.
fn registrations(rt: &impl Abort, alloc: Global) -> Vec<u8> {
    let mut frames = Vec::new(alloc);
    for egress in 1..=SEGMENTS {
        push(rt, &mut frames, &register_by(egress));
    }
    frames
}

/// What a session is sent, and the pages that it is replied.
#[derive(Drop)]
struct Lists {
    frames: Vec<u8>,
    pages: Vec<u8>,
}

impl Lists {
    /// Adds a list after an id if there is one, and its page of these segments.
    fn push(&mut self, rt: &impl Abort, alloc: Global, id: &[u8], page: &[Row], more: u8) {
        push_list(rt, &mut self.frames, id);
        push_page(rt, alloc, &mut self.pages, page, more);
    }

    /// Adds a list after the last of this number of segments, and its page of all others.
    fn push_after(&mut self, rt: &impl Abort, alloc: Global, rows: &[Row], count: usize) {
        let (front, rest) = rows.split_at(count.min(rows.len()));
        for row in front.last() {
            self.push(rt, alloc, &row.id, rest, 0);
        }
    }
}

/// Lists all segments: the first page has 64 segments, and the one after the last of them the
/// others. The page after the first segment but five has 64, too, and none follows.
fn push_lists(rt: &impl Abort, alloc: Global, lists: &mut Lists, rows: &[Row]) {
    let first = rows.split_at(PAGE.min(rows.len())).0;
    lists.push(rt, alloc, &[], first, 1);
    lists.push_after(rt, alloc, rows, PAGE);
    lists.push_after(rt, alloc, rows, 6);
}

/// Sees that a session is replied these pages after the registrations.
fn assert_pages<R: Wait + Clock + Threads + Abort + Copy + Drop + Send + Sync>(
    rt: R,
    alloc: Global,
    lists: Lists,
) {
    let Lists { frames, pages } = lists;
    let talk = Frames {
        alloc,
        frames,
        cut: 0,
    };
    let (_device, written) = talked(rt, alloc, new_store_of(&rt, alloc, SECTORS), talk);
    let has_pages = written.is_some_and(|written| written.as_slice().ends_with(pages.as_slice()));
    assert_true(&rt, has_pages, "the replies end with the pages");
}

#[test]
fn pages_of_seventy_segments(rt: HostRuntime) {
    let alloc = rt.alloc();
    let rows = rows(&rt, alloc);
    let mut lists = Lists {
        frames: registrations(&rt, alloc),
        pages: Vec::new(alloc),
    };
    push_lists(&rt, alloc, &mut lists, rows.as_slice());
    assert_pages(&rt, alloc, lists);
}
