//! A row as a line of text.

ghost use Rattle.std.specs.Prelude.{◌≡◌, IfOk, string_bytes};
ghost use Rattle.std.specs.Option.{option_map};
ghost use Rattle.seg_core.specs.EntryView.{entry_view};
ghost use Rattle.row_lines.specs.Text.{type_word, end_text, first_entry, last_entry, row_head, row_ends, row_line, made_date, row_dates, dated_line};

use crate::date::date_text;
use seg_check::{expiry, seg_id};
use seg_core::{Entry, SegType, Segment};
use std::alloc::{AllocError, Global};

/// The line of a row: its type, its id, its timestamp, when it expires in half seconds since 1970,
/// its first and its last ISD-AS, and its number of entries.
#[tactic(auto, unfolding(crate::specs::Text::row_line))]
pub fn row_line(alloc: Global, kind: SegType, segment: &Segment) -> Result<String, AllocError>
    ensures { IfOk result (λ line. string_bytes line ≡ row_line (kind, segment.now)) }
{
    let head = row_head(alloc, kind, segment)?;
    let ends = row_ends(alloc, segment)?;
    format!(in alloc; "{head} {ends}\n")
}

/// The same, and then the timestamp and the expiry as dates.
#[tactic(auto, unfolding(crate::specs::Text::dated_line))]
pub fn dated_line(alloc: Global, kind: SegType, segment: &Segment) -> Result<String, AllocError>
    ensures { IfOk result (λ line. string_bytes line ≡ dated_line (kind, segment.now)) }
{
    let head = row_head(alloc, kind, segment)?;
    let ends = row_ends(alloc, segment)?;
    let dates = row_dates(alloc, segment)?;
    format!(in alloc; "{head} {ends} {dates}\n")
}

/// The timestamp and the expiry as dates.
fn row_dates(alloc: Global, segment: &Segment) -> Result<String, AllocError>
    ensures { IfOk result (λ text. string_bytes text ≡ row_dates segment.now) }
{
    let made = made_date(alloc, segment)?;
    let expires = date_text(alloc, expiry(segment))?;
    format!(in alloc; "{made} {expires}")
}

/// The timestamp as a date.
pub(crate) fn made_date(alloc: Global, segment: &Segment) -> Result<String, AllocError>
    ensures { IfOk result (λ text. string_bytes text ≡ made_date segment.now) }
{
    date_text(alloc, u64::from(segment.timestamp()) * 2)
}

fn row_head(alloc: Global, kind: SegType, segment: &Segment) -> Result<String, AllocError>
    ensures { IfOk result (λ text. string_bytes text ≡ row_head (kind, segment.now)) }
{
    let word = type_word(kind);
    let id = hex::encode(alloc, seg_id(segment).as_slice())?;
    let timestamp = segment.timestamp();
    let expires = expiry(segment);
    format!(in alloc; "{word} {id} {timestamp} {expires}")
}

fn row_ends(alloc: Global, segment: &Segment) -> Result<String, AllocError>
    ensures { IfOk result (λ text. string_bytes text ≡ row_ends segment.now) }
{
    let first = first_end(alloc, segment)?;
    let last = last_end(alloc, segment)?;
    let count = segment.entries().len();
    format!(in alloc; "{first} {last} {count}")
}

/// The text of the first entry's ISD-AS.
pub(crate) fn first_end(alloc: Global, segment: &Segment) -> Result<String, AllocError>
    ensures { IfOk result (λ text. string_bytes text ≡ end_text (first_entry segment.now.entries)) }
{
    end_text(alloc, segment.entries().first())
}

/// The text of the last entry's ISD-AS.
pub(crate) fn last_end(alloc: Global, segment: &Segment) -> Result<String, AllocError>
    ensures { IfOk result (λ text. string_bytes text ≡ end_text (last_entry segment.now.entries)) }
{
    end_text(alloc, segment.entries().last())
}

/// The text of an entry's ISD-AS. Where there is no entry, the text is empty.
fn end_text(alloc: Global, entry: Option<&Entry>) -> Result<String, AllocError>
    ensures { IfOk result (λ text. string_bytes text ≡ end_text (option_map (λ e. entry_view e.now) entry.entry)) }
{
    match entry {
        Some(entry) => entry.ia.to_string(alloc),
        None => Ok(String::new(alloc)),
    }
}

/// The word of a type.
pub fn type_word(kind: SegType) -> &'static str
    ensures { result.now ≡ type_word kind }
{
    match kind {
        SegType::Up => "up",
        SegType::Down => "down",
        SegType::Core => "core",
    }
}
