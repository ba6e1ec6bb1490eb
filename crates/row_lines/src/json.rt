//! A row as a line of JSON.

ghost use Rattle.std.specs.Prelude.{◌≡◌, IfOk, string_bytes};
ghost use Rattle.row_lines.specs.Json.{text_member, number_member, joined, object_line, json_key, json_dates, json_times, json_front, json_ends, json_content, json_rest, json_members, json_line, json_line_of_more};

use crate::date::date_text;
use crate::text::{first_end, last_end, made_date, type_word};
use seg_check::{expiry, seg_id};
use seg_core::{SegType, Segment};
use std::alloc::{AllocError, Global};

/// The line of a row as an object of JSON: what its line of text has, and the segment's encoding as
/// hexadecimal digits.
#[tactic(auto, unfolding(crate::specs::Json::json_line))]
pub fn json_line(alloc: Global, kind: SegType, segment: &Segment) -> Result<String, AllocError>
    ensures { IfOk result (λ line. string_bytes line ≡ json_line (kind, segment.now)) }
{
    let members = json_members(alloc, kind, segment)?;
    object_line(alloc, members.as_str())
}

/// The same, with a member that says that there may be more rows.
#[tactic(auto, unfolding(crate::specs::Json::json_line_of_more))]
pub(crate) fn json_line_of_more(
    alloc: Global,
    kind: SegType,
    segment: &Segment,
) -> Result<String, AllocError>
    ensures { IfOk result (λ line. string_bytes line ≡ json_line_of_more (kind, segment.now)) }
{
    let members = json_members(alloc, kind, segment)?;
    let members = joined(alloc, members.as_str(), "\"more\":true")?;
    object_line(alloc, members.as_str())
}

/// The members of a row's object.
#[tactic(auto, unfolding(crate::specs::Json::json_members))]
fn json_members(alloc: Global, kind: SegType, segment: &Segment) -> Result<String, AllocError>
    ensures { IfOk result (λ text. string_bytes text ≡ json_members (kind, segment.now)) }
{
    let front = json_front(alloc, kind, segment)?;
    let rest = json_rest(alloc, segment)?;
    joined(alloc, front.as_str(), rest.as_str())
}

/// The members that come first: the type, the id and the times.
#[tactic(auto, unfolding(crate::specs::Json::json_front))]
fn json_front(alloc: Global, kind: SegType, segment: &Segment) -> Result<String, AllocError>
    ensures { IfOk result (λ text. string_bytes text ≡ json_front (kind, segment.now)) }
{
    let key = json_key(alloc, kind, segment)?;
    let times = json_times(alloc, segment)?;
    joined(alloc, key.as_str(), times.as_str())
}

/// The members that follow: the ends, the number of entries and the encoding.
#[tactic(auto, unfolding(crate::specs::Json::json_rest))]
fn json_rest(alloc: Global, segment: &Segment) -> Result<String, AllocError>
    ensures { IfOk result (λ text. string_bytes text ≡ json_rest segment.now) }
{
    let ends = json_ends(alloc, segment)?;
    let content = json_content(alloc, segment)?;
    joined(alloc, ends.as_str(), content.as_str())
}

/// The type and the id.
#[tactic(auto, unfolding(crate::specs::Json::json_key))]
fn json_key(alloc: Global, kind: SegType, segment: &Segment) -> Result<String, AllocError>
    ensures { IfOk result (λ text. string_bytes text ≡ json_key (kind, segment.now)) }
{
    let id = hex::encode(alloc, seg_id(segment).as_slice())?;
    let kind = text_member(alloc, "type", type_word(kind))?;
    let id = text_member(alloc, "id", id.as_str())?;
    joined(alloc, kind.as_str(), id.as_str())
}

/// The timestamp, and when the segment expires.
#[tactic(auto, unfolding(crate::specs::Json::json_times))]
fn json_times(alloc: Global, segment: &Segment) -> Result<String, AllocError>
    ensures { IfOk result (λ text. string_bytes text ≡ json_times segment.now) }
{
    let timestamp = number_member(alloc, "timestamp", u64::from(segment.timestamp()))?;
    let expires = number_member(alloc, "expiry", expiry(segment))?;
    let numbers = joined(alloc, timestamp.as_str(), expires.as_str())?;
    let dates = json_dates(alloc, segment)?;
    joined(alloc, numbers.as_str(), dates.as_str())
}

/// The same two as dates.
#[tactic(auto, unfolding(crate::specs::Json::json_dates))]
fn json_dates(alloc: Global, segment: &Segment) -> Result<String, AllocError>
    ensures { IfOk result (λ text. string_bytes text ≡ json_dates segment.now) }
{
    let made = made_date(alloc, segment)?;
    let expires = date_text(alloc, expiry(segment))?;
    let made = text_member(alloc, "made", made.as_str())?;
    let expires = text_member(alloc, "expires", expires.as_str())?;
    joined(alloc, made.as_str(), expires.as_str())
}

/// The first and the last ISD-AS.
#[tactic(auto, unfolding(crate::specs::Json::json_ends))]
fn json_ends(alloc: Global, segment: &Segment) -> Result<String, AllocError>
    ensures { IfOk result (λ text. string_bytes text ≡ json_ends segment.now) }
{
    let first = first_end(alloc, segment)?;
    let last = last_end(alloc, segment)?;
    let first = text_member(alloc, "first", first.as_str())?;
    let last = text_member(alloc, "last", last.as_str())?;
    joined(alloc, first.as_str(), last.as_str())
}

/// The number of entries, and the segment's encoding.
#[tactic(auto, unfolding(crate::specs::Json::json_content))]
fn json_content(alloc: Global, segment: &Segment) -> Result<String, AllocError>
    ensures { IfOk result (λ text. string_bytes text ≡ json_content segment.now) }
{
    let digits = hex::encode(alloc, segment.encoding())?;
    let entries = number_member(alloc, "entries", segment.entries().len() as u64)?;
    let segment = text_member(alloc, "segment", digits.as_str())?;
    joined(alloc, entries.as_str(), segment.as_str())
}

/// A member whose value is a text that needs no escape.
fn text_member(alloc: Global, name: &str, text: &str) -> Result<String, AllocError>
    ensures { IfOk result (λ member. string_bytes member ≡ text_member name.now text.now) }
{
    format!(in alloc; "\"{name}\":\"{text}\"")
}

/// A member whose value is a number.
pub fn number_member(alloc: Global, name: &str, number: u64) -> Result<String, AllocError>
    ensures { IfOk result (λ member. string_bytes member ≡ number_member name.now number) }
{
    format!(in alloc; "\"{name}\":{number}")
}

/// Two members or more, joined by a comma.
pub fn joined(alloc: Global, first: &str, others: &str) -> Result<String, AllocError>
    ensures { IfOk result (λ members. string_bytes members ≡ joined first.now others.now) }
{
    format!(in alloc; "{first},{others}")
}

/// An object with these members, as a line.
pub fn object_line(alloc: Global, members: &str) -> Result<String, AllocError>
    ensures { IfOk result (λ line. string_bytes line ≡ object_line members.now) }
{
    format!(in alloc; "{{{members}}}\n")
}
