//! When a segment was made, and its id.

ghost use Rattle.seg_core.specs.Steps.{ReadsFields};
ghost use Rattle.seg_core.specs.Segment.{info_decoding};

use crate::error::SegError;
use crate::limits::{u16_of, u32_of};
use crate::shape::SEGMENT_INFORMATION;
use crate::slots::slots_of;

/// A segment's timestamp, in seconds since 1970, and its id, which the beaconing AS chooses.
#[derive(Clone, Copy)]
pub(crate) struct Info {
    pub timestamp: u32,
    pub segment_id: u16,
}

#[tactic(auto, unfolding(crate::specs::Segment::info_decoding))]
pub(crate) fn read_info(message: &[u8]) -> Result<Info, SegError>
    ensures { ReadsFields (λ info. info) result (info_decoding message.now) }
{
    let slots = slots_of::<6>(&SEGMENT_INFORMATION, message)?;
    let timestamp = u32_of(slots.number_field(1))?;
    let segment_id = u16_of(slots.number_field(2))?;
    Ok(Info {
        timestamp,
        segment_id,
    })
}
