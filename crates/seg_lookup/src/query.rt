//! What a lookup asks for.

use isd_as::IsdAs;
use seg_core::SegType;

/// Segments of one type, from one AS to another by the order of their entries. In a side, a part
/// that is 0 means every number.
#[derive(Clone, Copy)]
pub struct Query {
    pub kind: SegType,
    /// The pattern that covers the AS of the first entry.
    pub start: IsdAs,
    /// The pattern that covers the AS of the last entry.
    pub end: IsdAs,
}
