//! A segment up to its entries: the parts that are checked before memory is taken.

ghost use Rattle.std.specs.Prelude.{◌≡◌, ◌≢◌, length, IfErr};
ghost use Rattle.pw_wire.specs.Fields.{fields};
ghost use Rattle.seg_core.specs.declared.error.SegError.TheVariants.{NoMemory};
ghost use Rattle.seg_core.specs.Steps.{ReadsFields};
ghost use Rattle.seg_core.specs.Message.{bytes_fields};
ghost use Rattle.seg_core.specs.Outline.{outline_view};
ghost use Rattle.seg_core.specs.Segment.{segment_outline};
ghost use Rattle.seg_core.specs.WellFormed.{is_entry_count};

use crate::bytes_fields::BytesFields;
use crate::error::SegError;
use crate::format::{MOST_ENTRIES, MOST_SEGMENT_BYTES};
use crate::info::{Info, read_info};
use crate::limits::check;
use crate::shape::PATH_SEGMENT;
use crate::slots::slots_of;

/// A segment whose entries are not read yet.
#[derive(Clone, Copy)]
pub(crate) struct Outline<'a> {
    pub info: Info,
    /// The segment's information as received.
    pub info_bytes: &'a [u8],
    /// The messages of the entries, 1 to 64.
    pub entries: BytesFields<'a>,
}

/// Whether there are 1 to 64 byte strings.
fn is_entry_count(messages: BytesFields<'_>) -> bool
    ensures { result ≡ is_entry_count (length (bytes_fields messages.entry.field_number (fields messages.entry.rest.now))) }
{
    let mut count: usize = 0;
    for _message in messages {
        if count == MOST_ENTRIES {
            return false;
        }
        count += 1;
    }
    count > 0
}

/// Reads a `PathSegment` up to its entries. Its length is checked before anything in it is read.
#[tactic(auto, unfolding(crate::specs::Segment::segment_outline))]
pub(crate) fn read_outline(message: &[u8]) -> Result<Outline<'_>, SegError>
    ensures outline { ReadsFields outline_view result (segment_outline message.now) }
    ensures memory { IfErr result (λ e. e ≢ NoMemory) }
{
    check(message.len() <= MOST_SEGMENT_BYTES, SegError::TooLarge)?;
    let slots = slots_of::<5>(&PATH_SEGMENT, message)?;
    let entries = slots.bytes_fields(2);
    check(is_entry_count(entries), SegError::Entries)?;
    let info_bytes = slots.bytes_field_or_empty(1);
    let info = read_info(info_bytes)?;
    Ok(Outline {
        info,
        info_bytes,
        entries,
    })
}
