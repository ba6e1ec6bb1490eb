//! Pages of the segments that a query shows.

ghost use Rattle.std.specs.Prelude.{◌≡◌, ◌+◌, ◌<◌, ◌≤◌, length, take, nat_lt, IfOk, OnErr};
ghost use Rattle.std.specs.List.{AllByRecursion};
ghost use Rattle.std.specs.Option.{option_copied};
ghost use Rattle.seg_core.specs.Encoding.{IsSegment};
ghost use Rattle.path_db.specs.Answer.{segments_of};
ghost use Rattle.seg_lookup.specs.Query.{query_view};
ghost use Rattle.seg_lookup.specs.Answer.{answer_within};
ghost use Rattle.seg_lookup.specs.Page.{rows_after, answer_after, has_more};

use crate::answers::ANSWER_LIMIT;
use crate::query::Query;
use path_db::PathDb;
use seg_core::Segment;
use std::alloc::AllocError;

/// A page of the segments that a query shows.
#[derive(Drop)]
pub struct Page {
    /// At most 64 segments, in the order of their keys.
    pub segments: Vec<Segment>,
    /// Whether further segments follow.
    pub more: bool,
}

impl Page {
    /// The page of segments of which up to 65 were asked for: the first 64, and whether there is
    /// one more. The call takes no memory.
    pub fn of(mut found: Vec<Segment>) -> Page
        ensures segments { result.segments.items ≡ take ANSWER_LIMIT found.items }
        ensures more { result.more ≡ nat_lt ANSWER_LIMIT (length found.items) }
        ensures few { length result.segments.items ≤ ANSWER_LIMIT }
        ensures whole { AllByRecursion IsSegment found.items → AllByRecursion IsSegment result.segments.items }
    {
        let more = found.len() > ANSWER_LIMIT;
        found.truncate(ANSWER_LIMIT);
        Page {
            segments: found,
            more,
        }
    }
}

/// The segments of the first rows by key, at most `limit`, that match the query and expire after
/// `now`, in half seconds since 1970. Where an id is given, only rows whose ids are above it count.
/// The segments are shared, not copied. An answer without segments takes no memory; an error means
/// that memory was refused.
pub fn first_after(
    db: &PathDb,
    query: &Query,
    after: Option<&[u8; 32]>,
    now: u64,
    limit: usize,
) -> Result<Vec<Segment>, AllocError>
    ensures same { IfOk result (λ found. found.items
        ≡ segments_of (answer_within limit (rows_after db.now (query_view query.now) (option_copied after.entry)) (query_view query.now) now)) }
    ensures memory { OnErr result
        (0 < length (answer_within limit (rows_after db.now (query_view query.now) (option_copied after.entry)) (query_view query.now) now)) }
    ensures few { IfOk result (λ found. length found.items ≤ limit) }
    ensures whole { IfOk result (λ found. AllByRecursion IsSegment found.items) }
{
    let Query { kind, start, end } = *query;
    match after {
        Some(id) => db.matching_after(kind, id, start, end, now, limit),
        None => db.matching(kind, start, end, now, limit),
    }
}

/// The segments of the first 64 rows by key that match the query and expire after `now`, in half
/// seconds since 1970, and whether further ones follow. Where an id is given, only rows whose ids
/// are above it count. The segments are shared, not copied. A page without segments takes no
/// memory; an error means that memory was refused.
pub fn page_after(
    db: &PathDb,
    query: &Query,
    after: Option<&[u8; 32]>,
    now: u64,
) -> Result<Page, AllocError>
    ensures same { IfOk result (λ page. page.segments.items
        ≡ segments_of (answer_after db.now (query_view query.now) (option_copied after.entry) now)) }
    ensures more { IfOk result (λ page. page.more ≡ has_more db.now (query_view query.now) (option_copied after.entry) now) }
    ensures memory { OnErr result (0 < length (answer_after db.now (query_view query.now) (option_copied after.entry) now)) }
    ensures few { IfOk result (λ page. length page.segments.items ≤ ANSWER_LIMIT) }
    ensures whole { IfOk result (λ page. AllByRecursion IsSegment page.segments.items) }
{
    let found = first_after(db, query, after, now, ANSWER_LIMIT + 1)?;
    Ok(Page::of(found))
}
