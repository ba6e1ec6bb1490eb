use thiserror::Error;

/// Why a segment is not accepted: the first check that it fails. The entries are checked in order,
/// then the expiry.
///
/// The variants are numbered from 1 in this order. A reply's code is 0x30 plus that number.
#[derive(Clone, Copy, Debug, PartialEq, Eq, Error)]
pub enum CheckError {
    /// The signature of this entry, counted from 0, is not good.
    #[error("the signature of entry {0} is not good")]
    BadSignature(usize),
    /// The segment has expired.
    #[error("the segment has expired")]
    Expired,
}
