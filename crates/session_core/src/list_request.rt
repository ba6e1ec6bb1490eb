//! What a list asks for.

/// What a list asks for: a page of the segments of one type whose first and last entries two sides
/// cover. A side is an ISD-AS of 64 bits, of which a part that is 0 covers every number.
#[derive(Clone, Copy, Debug, PartialEq, Eq)]
pub struct ListRequest {
    /// The number of the type, a byte that the service checks.
    pub kind: u8,
    /// The side that covers the AS of the first entry.
    pub start: u64,
    /// The side that covers the AS of the last entry.
    pub end: u64,
    /// The id after which the page begins. `None` asks for the first page.
    pub after: Option<[u8; 32]>,
}
