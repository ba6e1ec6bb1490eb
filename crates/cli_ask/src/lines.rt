//! What is printed of replies.

ghost use Rattle.std.specs.Prelude.{◌≡◌, IfOk, OnOk, string_bytes};
ghost use Rattle.std.specs.Io.KnownBytes.{Appends};
ghost use Rattle.cli_ask.specs.Lines.{ack_line, ack_text, put_text, left_text, ack_json, counts_json, put_json, left_json, segment_lines, found_lines, answer_of};

use crate::asking::Answer;
use crate::error::AskError;
use row_lines::{RowForm, joined, line_as, number_member, object_line};
use seg_core::{SegType, Segment};
use session_core::{Ack, MOST_SEGMENTS};
use std::alloc::{AllocError, Global};
use std::io::Write;
use whole_writes::{WriteFailed, write_all};

/// The line of an acknowledgement: its place, and what its command did.
pub(crate) fn ack_line(alloc: Global, form: RowForm, ack: &Ack) -> Result<String, AllocError>
    ensures { IfOk result (λ line. string_bytes line ≡ ack_line form ack.now) }
{
    match form {
        RowForm::Text | RowForm::Dated => ack_text(alloc, ack),
        RowForm::Json | RowForm::JsonOfMore => ack_json(alloc, ack),
    }
}

/// The line of an acknowledgement as text.
fn ack_text(alloc: Global, ack: &Ack) -> Result<String, AllocError>
    ensures { IfOk result (λ line. string_bytes line ≡ ack_text ack.now) }
{
    let place = ack.place;
    let put = put_text(alloc, ack)?;
    let left = left_text(alloc, ack)?;
    format!(in alloc; "place {place}: {put}, {left}\n")
}

/// How many segments a command inserted and updated.
fn put_text(alloc: Global, ack: &Ack) -> Result<String, AllocError>
    ensures { IfOk result (λ text. string_bytes text ≡ put_text ack.now) }
{
    let inserted = ack.outcome.inserted;
    let updated = ack.outcome.updated;
    format!(in alloc; "{inserted} inserted, {updated} updated")
}

/// How many segments a command left, and how many it dropped.
fn left_text(alloc: Global, ack: &Ack) -> Result<String, AllocError>
    ensures { IfOk result (λ text. string_bytes text ≡ left_text ack.now) }
{
    let kept = ack.outcome.kept;
    let purged = ack.outcome.purged;
    format!(in alloc; "{kept} kept, {purged} purged")
}

/// The line of an acknowledgement as an object of JSON.
fn ack_json(alloc: Global, ack: &Ack) -> Result<String, AllocError>
    ensures { IfOk result (λ line. string_bytes line ≡ ack_json ack.now) }
{
    let place = number_member(alloc, "place", ack.place)?;
    let counts = counts_json(alloc, ack)?;
    let members = joined(alloc, place.as_str(), counts.as_str())?;
    object_line(alloc, members.as_str())
}

/// The counts of an acknowledgement as members of an object of JSON.
#[tactic(auto, unfolding(crate::specs::Lines::counts_json))]
fn counts_json(alloc: Global, ack: &Ack) -> Result<String, AllocError>
    ensures { IfOk result (λ line. string_bytes line ≡ counts_json ack.now) }
{
    let put = put_json(alloc, ack)?;
    let left = left_json(alloc, ack)?;
    joined(alloc, put.as_str(), left.as_str())
}

/// How many segments a command inserted and updated, as members of an object of JSON.
#[tactic(auto, unfolding(crate::specs::Lines::put_json))]
fn put_json(alloc: Global, ack: &Ack) -> Result<String, AllocError>
    ensures { IfOk result (λ line. string_bytes line ≡ put_json ack.now) }
{
    let inserted = number_member(alloc, "inserted", u64::from(ack.outcome.inserted))?;
    let updated = number_member(alloc, "updated", u64::from(ack.outcome.updated))?;
    joined(alloc, inserted.as_str(), updated.as_str())
}

/// How many segments a command left, and how many it dropped, as members of an object of JSON.
#[tactic(auto, unfolding(crate::specs::Lines::left_json))]
fn left_json(alloc: Global, ack: &Ack) -> Result<String, AllocError>
    ensures { IfOk result (λ line. string_bytes line ≡ left_json ack.now) }
{
    let kept = number_member(alloc, "kept", u64::from(ack.outcome.kept))?;
    let purged = number_member(alloc, "purged", u64::from(ack.outcome.purged))?;
    joined(alloc, kept.as_str(), purged.as_str())
}

/// Prints the line of an acknowledgement.
pub(crate) fn print_ack<W: Write>(
    alloc: Global,
    form: RowForm,
    ack: &Ack,
    writer: &mut W,
) -> Result<(), AskError>
    ensures { OnOk result (Appends (W.contents writer.old) (W.contents writer.new) (ack_line form ack.now)) }
{
    let line = ack_line(alloc, form, ack)?;
    print(writer, line.as_bytes())
}

/// Prints the lines of segments, in their order.
pub(crate) fn print_segments<W: Write>(
    alloc: Global,
    form: RowForm,
    kind: SegType,
    segments: &[Segment],
    writer: &mut W,
) -> Result<(), AskError>
    ensures { OnOk result (Appends (W.contents writer.old) (W.contents writer.new) (segment_lines form kind segments.now)) }
{
    for segment in segments {
        let line = line_as(alloc, form, kind, segment)?;
        print(writer, line.as_bytes())?;
    }
    Ok(())
}

/// Prints the lines of what a lookup finds. With as many segments as a reply may have there may be
/// more: the last line says so, where its form can, and the answer does.
pub(crate) fn print_found<W: Write>(
    alloc: Global,
    form: RowForm,
    kind: SegType,
    segments: &[Segment],
    writer: &mut W,
) -> Result<Answer, AskError>
    ensures lines { OnOk result (Appends (W.contents writer.old) (W.contents writer.new) (found_lines form kind segments.now)) }
    ensures answer { IfOk result (λ answer. answer ≡ answer_of segments.now) }
{
    if segments.len() != MOST_SEGMENTS {
        print_segments(alloc, form, kind, segments, writer)?;
        return Ok(Answer::Whole);
    }
    let (front, last) = segments.split_at(MOST_SEGMENTS - 1);
    print_segments(alloc, form, kind, front, writer)?;
    print_segments(alloc, form.of_more(), kind, last, writer)?;
    Ok(Answer::Cut)
}

/// Writes all of the bytes.
fn print<W: Write>(writer: &mut W, bytes: &[u8]) -> Result<(), AskError>
    ensures { OnOk result (Appends (W.contents writer.old) (W.contents writer.new) bytes.now) }
{
    match write_all(writer, bytes) {
        Ok(()) => Ok(()),
        Err(WriteFailed) => Err(AskError::Output),
    }
}
