//! Frames of messages and replies.

use crate::bytes::push;
use crate::checks::assert_same;
use std::alloc::Global;
use std::process::Abort;
use test_support::EGRESS;
pub(crate) use test_support::digits::{FOUND, LOOKUP, REGISTER, REMOVE};

/// The acknowledgement of that registration, at place 0.
pub(crate) const INSERTED: &str = "0000001981000000000000000000000001000000000000000000000000";

/// A response with no segments.
pub(crate) const NONE_FOUND: &str = "0000000182";

/// Lists all down segments, and the segments of a type that there isn't.
pub(crate) const LIST: &str = "00000012050200000000000000000000000000000000";

pub(crate) const LIST_NO_TYPE: &str = "00000012050400000000000000000000000000000000";

/// What comes before the bytes of a segment in the reply to a lookup, and to a list after which no
/// more follows.
pub(crate) const FOUND_HEAD: &str = "0000006182";

pub(crate) const LISTED_HEAD: &str = "000000628500";

/// A page with no segments.
pub(crate) const NONE_LISTED: &str = "000000028500";

/// Registers no segments.
pub(crate) const REGISTER_NONE: &str = "0000000101";

/// Drops what expires at moment 0: nothing.
pub(crate) const PURGE: &str = "00000009030000000000000000";

/// How many bytes of the registration come before the segment.
const BEFORE: usize = 13;

/// The bytes of these hexadecimal texts. Where memory is refused, it is asked for once more.
pub(crate) fn joined(rt: &impl Abort, alloc: Global, texts: &[&str]) -> Vec<u8> {
    let mut bytes = Vec::new(alloc);
    for text in texts {
        let more = match hex::decode(alloc, *text) {
            Err(_) => hex::decode(alloc, *text).expect(rt, "no digits"),
            Ok(more) => more,
        };
        push(rt, &mut bytes, &more);
    }
    bytes
}

/// The frame that registers the segment which is left by this interface, below 128.
pub(crate) fn register_by(egress: u8) -> [u8; 101] {
    let mut frame = test_support::REGISTER;
    frame[BEFORE + EGRESS] = egress;
    frame
}

/// Sees that a talk went well, and that these replies, in hexadecimal digits, were written.
pub(crate) fn assert_replied(
    rt: &impl Abort,
    alloc: Global,
    written: Option<Vec<u8>>,
    replies: &[&str],
) {
    let wanted = joined(rt, alloc, replies);
    match written {
        Some(written) => assert_same(rt, &written, &wanted, &"replies"),
        None => panic!(rt; "a call failed"),
    }
}
