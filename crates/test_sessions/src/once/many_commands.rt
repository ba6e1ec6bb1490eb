//! A session of more commands than one journal of its store has room for.

use crate::checks::assert_same;
use crate::once::worked::*;
use std::alloc::Global;
use std::process::Abort;

/// A journal of 4,096 sectors has room for 2,047 groups of one small command, of two sectors each.
const PURGES: u64 = 2_100;

/// Drops nothing.
const PURGE: &str = "00000009030000000000000000";

fn purges(rt: &impl Abort, alloc: Global) -> Vec<u8> {
    let mut input = Vec::new(alloc);
    for _ in 0..PURGES {
        push_digits(rt, alloc, &mut input, PURGE);
    }
    input
}

fn acknowledgements(rt: &impl Abort, alloc: Global) -> Vec<u8> {
    let mut output = Vec::new(alloc);
    for place in 0..PURGES {
        push_digits(rt, alloc, &mut output, "0000001983");
        output
            .extend_from_slice(&place.to_be_bytes())
            .expect(rt, "no memory");
        push_digits(rt, alloc, &mut output, "00000000000000000000000000000000");
    }
    output
}

#[test]
fn purges_pass_a_seal(rt: HostRuntime) {
    let alloc = rt.alloc();
    let input = purges(&rt, alloc);
    let mut reader = input.as_slice();
    let mut output = Vec::new(alloc);
    let outcome = session(alloc, &mut reader, &mut output, &cores(&rt, alloc), 1_000);
    assert_ended(&rt, outcome, Ok(PURGES), "purges", 0);
    let wanted = acknowledgements(&rt, alloc);
    assert_same(&rt, &output, &wanted, &"acknowledgements");
}
