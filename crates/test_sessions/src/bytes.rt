//! Bytes of several parts.

use std::alloc::Global;
use std::process::Abort;

/// Adds these bytes to others. Where memory is refused, it is asked for once more.
pub(crate) fn push(rt: &impl Abort, bytes: &mut Vec<u8>, more: &[u8]) {
    if bytes.extend_from_slice(more).is_err() {
        bytes.extend_from_slice(more).expect(rt, "no memory");
    }
}

/// These parts, one after the other.
pub(crate) fn joined(rt: &impl Abort, alloc: Global, parts: &[&[u8]]) -> Vec<u8> {
    let mut bytes = Vec::new(alloc);
    for part in parts {
        push(rt, &mut bytes, part);
    }
    bytes
}
