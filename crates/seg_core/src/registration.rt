//! Registrations: maps from types to segments.

ghost use Rattle.std.specs.Prelude.{◌≡◌, ◌≢◌, List, [], ◌++◌, length, IfOk, IfErr, IsOk};
ghost use Rattle.std.specs.List.{AllByRecursion};
ghost use Rattle.pw_wire.specs.Fields.{fields};
ghost use Rattle.seg_core.specs.Steps.{ReadsFields, GivesSegment, result_map};
ghost use Rattle.seg_core.specs.Message.{bytes_fields};
ghost use Rattle.seg_core.specs.SegmentView.{SegmentView};
ghost use Rattle.seg_core.specs.declared.error.SegError.TheVariants.{NoMemory};
ghost use Rattle.seg_core.specs.declared.seg_type.SegType.{SegType};
ghost use Rattle.seg_core.specs.Earlier.{AreIn};
ghost use Rattle.seg_core.specs.Registration.{MapEntry, entry_rows, map_decoding, map_entry_decoding, segments_decoding, registration_outline, registration_decoding, typed_segments};
ghost use Rattle.seg_core.specs.Encoding.{IsSegment};

use crate::bytes_fields::BytesFields;
use crate::earlier::Earlier;
use crate::error::SegError;
use crate::format::{MOST_REGISTERED, MOST_REGISTERED_BYTES};
use crate::limits::check;
use crate::seg_type::SegType;
use crate::segment::{Segment, read_segment};
use crate::shape::{MAP_ENTRY, SEGMENT_MAP, SEGMENTS};
use crate::slots::slots_of;
use std::alloc::Global;

/// Appends the segments of one type to the segments before them.
#[tactic(auto, unfolding(crate::specs::Registration::segments_decoding))]
fn read_segments(
    alloc: Global,
    kind: SegType,
    messages: BytesFields<'_>,
    found: &mut Vec<(SegType, Segment)>,
) -> Result<(), SegError>
    ensures { GivesSegment (λ _. found.new.items) result
        (result_map (λ segments. found.old.items ++ typed_segments kind segments)
        (segments_decoding (length found.old.items) (bytes_fields messages.entry.field_number (fields messages.entry.rest.now)))) }
{
    for message in messages {
        check(found.len() < MOST_REGISTERED, SegError::TooLarge)?;
        found.push((kind, read_segment(alloc, message)?))?;
    }
    Ok(())
}

/// Appends the segments of one entry of the map, which comes after entries of other types.
#[tactic(auto, unfolding(crate::specs::Registration::map_entry_decoding))]
fn read_map_entry(
    alloc: Global,
    earlier: Earlier,
    message: &[u8],
    found: &mut Vec<(SegType, Segment)>,
) -> Result<SegType, SegError>
    ensures { (entries : List MapEntry) → AreIn entries earlier → entry_rows entries ≡ found.old.items
        → GivesSegment {Y = SegType × List (SegType × SegmentView)} (λ kind. (kind, found.new.items)) result
        (result_map (λ entry. (entry.0, found.old.items ++ typed_segments entry.0 entry.1)) (map_entry_decoding entries message.now)) }
{
    let slots = slots_of::<2>(&MAP_ENTRY, message)?;
    let kind = earlier.new_type(slots.number_field(1))?;
    let value = slots_of::<3>(&SEGMENTS, slots.bytes_field_or_empty(2))?;
    read_segments(alloc, kind, value.bytes_fields(1), found)?;
    Ok(kind)
}

/// Reads the entries of a map.
fn read_map(alloc: Global, messages: BytesFields<'_>) -> Result<Vec<(SegType, Segment)>, SegError>
    ensures { GivesSegment (λ v. v.items) result
        (result_map entry_rows (map_decoding [] (bytes_fields messages.entry.field_number (fields messages.entry.rest.now)))) }
{
    let mut earlier = Earlier::none();
    let mut found = Vec::new(alloc);
    for message in messages {
        let kind = read_map_entry(alloc, earlier, message, &mut found)?;
        earlier.insert(kind);
    }
    Ok(found)
}

/// The messages of the entries of a map.
#[tactic(auto, unfolding(crate::specs::Registration::registration_outline))]
fn read_outline(message: &[u8]) -> Result<BytesFields<'_>, SegError>
    ensures outline { ReadsFields (λ entries. bytes_fields entries.field_number (fields entries.rest.now)) result (registration_outline message.now) }
    ensures memory { IfErr result (λ e. e ≢ NoMemory) }
{
    check(message.len() <= MOST_REGISTERED_BYTES, SegError::TooLarge)?;
    let slots = slots_of::<4>(&SEGMENT_MAP, message)?;
    Ok(slots.bytes_fields(1))
}

/// Reads a `SegmentsRegistrationRequest` from all of the bytes: its segments and their types, in
/// the order of the message. A registration above 131,072 bytes is refused before it is read, and
/// one with more than 16 segments before the 17th is read. The outline is checked before memory is
/// taken.
#[tactic(auto, unfolding(crate::specs::Registration::registration_decoding))]
pub fn read_registration(alloc: Global, message: &[u8]) -> Result<Vec<(SegType, Segment)>, SegError>
    ensures decoding { GivesSegment (λ v. v.items) result (registration_decoding message.now) }
    ensures whole { IfOk result (λ v. AllByRecursion (λ row. IsSegment row.1) v.items) }
    ensures memory { IfErr result (λ e. e ≡ NoMemory → IsOk (registration_outline message.now)) }
{
    let entries = read_outline(message)?;
    read_map(alloc, entries)
}
