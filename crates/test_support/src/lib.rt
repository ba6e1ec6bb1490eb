//! What crates of tests share: segments that were worked through by hand, byte by byte, with frames
//! of them, and how a library of scripts ends a test.
#![tactic(auto)]

mod core_segment;
pub mod digits;
mod host;
mod segment;
mod signed;

pub use crate::core_segment::CORE_SEGMENT;
pub use crate::host::{TestHost, assert_same, assert_true};
pub use crate::segment::{
    EGRESS, ENTRIES, EXP_TIME, EXPIRY, ID, LOOKUP, REGISTER, SEGMENT, dated, dated_by, leaving_by,
};
pub use crate::signed::{KEY, SIGNED};
