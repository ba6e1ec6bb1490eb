//! The segments of a database that a query shows.

ghost use Rattle.std.specs.Prelude.{◌≡◌, ◌<◌, ◌≤◌, length, IfOk, OnErr};
ghost use Rattle.std.specs.List.{AllByRecursion};
ghost use Rattle.seg_core.specs.Encoding.{IsSegment};
ghost use Rattle.path_db.specs.Answer.{segments_of};
ghost use Rattle.seg_lookup.specs.Query.{query_view};
ghost use Rattle.seg_lookup.specs.Answer.{answer_to};

use crate::query::Query;
use path_db::PathDb;
use seg_core::Segment;
use std::alloc::AllocError;

/// The most segments of an answer.
pub const ANSWER_LIMIT: usize = 64;

/// The segments of the first 64 rows by key that match the query and expire after `now`, in half
/// seconds since 1970. The segments are shared, not copied. An answer without segments takes no
/// memory; an error means that memory was refused.
pub fn answer(db: &PathDb, query: &Query, now: u64) -> Result<Vec<Segment>, AllocError>
    ensures same { IfOk result (λ found. found.items ≡ segments_of (answer_to db.now (query_view query.now) now)) }
    ensures memory { OnErr result (0 < length (answer_to db.now (query_view query.now) now)) }
    ensures few { IfOk result (λ found. length found.items ≤ ANSWER_LIMIT) }
    ensures whole { IfOk result (λ found. AllByRecursion IsSegment found.items) }
{
    db.matching(query.kind, query.start, query.end, now, ANSWER_LIMIT)
}
