//! The worked frames and segments, which are there as bytes and as hexadecimal digits.

use crate::checks::assert_same;
use test_support::digits::{self, SEGMENT_FIELD};
use test_support::{CORE_SEGMENT, ENTRIES, ID, LOOKUP, REGISTER, SEGMENT, SIGNED};

/// What comes before the id in the removal of a down segment.
const BEFORE_ID: &str = "000000220402";

/// What comes before a segment as a field: a tag, and its length.
const BEFORE_SEGMENT: &str = "0a58";

#[test]
fn digits_are_the_bytes(rt: HostRuntime) {
    let id = digits::REMOVE.strip_prefix(BEFORE_ID).unwrap_or("");
    let segment = SEGMENT_FIELD.strip_prefix(BEFORE_SEGMENT).unwrap_or("");
    let cases: [(&[u8], &str); 7] = [
        (&REGISTER, digits::REGISTER),
        (&LOOKUP, digits::LOOKUP),
        (&ID, id),
        (&SEGMENT, segment),
        (&ENTRIES, digits::ENTRIES),
        (&SIGNED, digits::SIGNED),
        (&CORE_SEGMENT, digits::CORE_SEGMENT),
    ];
    for (bytes, wanted) in cases {
        let found = hex::encode(rt.alloc(), bytes).expect(&rt, "the digits have memory");
        assert_same(&rt, &found.as_str(), &wanted, &"digits");
    }
}
