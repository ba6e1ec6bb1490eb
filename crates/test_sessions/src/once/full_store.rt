//! A session whose rows fill the store.

use crate::checks::assert_same;
use crate::once::worked::*;
use std::alloc::Global;
use std::process::Abort;

/// A registration of one segment of 16,384 bytes, up to the first of the two bytes of its first
/// entry's egress.
const BEFORE_EGRESS: &str =
    "0000400f010a8a80010802128480010a8080010a080880e2cfaa061007122a0a280a2612240890828080\
     80e07f109182808080e07f1a0f0a0d10";

/// The rest of it but for the second entry's signature, which is 16,290 bytes.
const AFTER_EGRESS: &str =
    "01183f220601020304050628c00b12c77f0ac47f0a1d121b089182808080e07f1a0e0a0c0802183f2206\
     0a0b0c0d0e0f28c00b12a27f";

const SIGNATURE: usize = 16_290;

/// How many such segments fit: each takes five bytes more, of 2,097,152 but for the 32 before the
/// rows.
const FIT: u8 = 127;

/// Drops all of them.
const PURGE_ALL: &str = "000000090300000000caa88ac0";

/// Appends the registration of the segment of this number, below 128, which is in its egress.
fn push_registration(rt: &impl Abort, alloc: Global, input: &mut Vec<u8>, number: u8) {
    push_digits(rt, alloc, input, BEFORE_EGRESS);
    input.push(number | 0x80).expect(rt, "no memory");
    push_digits(rt, alloc, input, AFTER_EGRESS);
    let len = input.len();
    input
        .resize(len.saturating_add(SIGNATURE), 0)
        .expect(rt, "no memory");
}

/// Appends the acknowledgement of a registration that inserted one row.
fn push_inserted(rt: &impl Abort, alloc: Global, output: &mut Vec<u8>, place: u8) {
    push_digits(rt, alloc, output, "000000198100000000000000");
    output.push(place).expect(rt, "no memory");
    push_digits(rt, alloc, output, "00000001000000000000000000000000");
}

/// Registers one segment more than fit, drops all, and registers that segment again.
fn filling_input(rt: &impl Abort, alloc: Global) -> Vec<u8> {
    let mut input = Vec::new(alloc);
    for number in 0..=FIT {
        push_registration(rt, alloc, &mut input, number);
    }
    push_digits(rt, alloc, &mut input, PURGE_ALL);
    push_registration(rt, alloc, &mut input, FIT);
    input
}

fn filling_output(rt: &impl Abort, alloc: Global) -> Vec<u8> {
    let mut output = Vec::new(alloc);
    for place in 0..FIT {
        push_inserted(rt, alloc, &mut output, place);
    }
    push_digits(rt, alloc, &mut output, "00000002ff52");
    let purged = "0000001983000000000000007f0000000000000000000000000000007f";
    push_digits(rt, alloc, &mut output, purged);
    push_inserted(rt, alloc, &mut output, 128);
    output
}

#[test]
fn rows_fill_the_store(rt: HostRuntime) {
    let alloc = rt.alloc();
    let input = filling_input(&rt, alloc);
    let mut reader = input.as_slice();
    let mut output = Vec::new(alloc);
    let outcome = session(alloc, &mut reader, &mut output, &cores(&rt, alloc), 1_000);
    assert_ended(&rt, outcome, Ok(130), "full", 0);
    let wanted = filling_output(&rt, alloc);
    assert_same(&rt, &output, &wanted, &"replies");
}
