//! Requests for segments.

ghost use Rattle.isd_as.specs.IsdAs.{isd_as_number};
ghost use Rattle.seg_core.specs.Steps.{ReadsFields};
ghost use Rattle.seg_core.specs.Request.{request_decoding};

use crate::error::SegError;
use crate::shape::REQUEST;
use crate::slots::slots_of;
use isd_as::IsdAs;

/// The source and the destination of a `SegmentsRequest`, 0-0 where the message has none. The call
/// takes no memory.
#[tactic(auto, unfolding(crate::specs::Request::request_decoding))]
pub fn read_request(message: &[u8]) -> Result<(IsdAs, IsdAs), SegError>
    ensures { ReadsFields (λ ends. (isd_as_number ends.0, isd_as_number ends.1)) result (request_decoding message.now) }
{
    let slots = slots_of::<1>(&REQUEST, message)?;
    let source = IsdAs::from_u64(slots.number_field(1));
    let destination = IsdAs::from_u64(slots.number_field(2));
    Ok((source, destination))
}
