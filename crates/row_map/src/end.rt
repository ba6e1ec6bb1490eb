//! The ends of segments, and what an index has its rows by.

/// An end of a segment: its first entry or its last.
#[derive(Clone, Copy)]
pub enum End {
    First,
    Last,
}

/// What an index has its rows by.
#[derive(Clone, Copy)]
pub enum By {
    /// The ISD-AS at one end, as 64 bits.
    OneEnd(End),
    /// The ISDs at both ends: the first entry's in the upper 16 of 32 bits, the last entry's in the
    /// lower.
    BothEnds,
}
