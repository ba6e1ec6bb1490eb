//! What both actors do with a value that a state refuses as a stranger.

use crate::checks::assert_same;
use crate::host::Host;
use crate::loops::loops::pieces_of;
use path_hub::{Silent, Steps, checkpointer_loop, flusher_loop};
use std::alloc::Global;
use std::process::Abort;
use std::sync::Wait;
use test_hub_scripts::acts::{Unwatched, spend, submit};
use test_hub_scripts::fakes::Fake;
use test_hub_scripts::stores::{LEAST, formatted, sealed_row};

/// The calls of the flusher that take a value, from the write of the group to its publishing, and
/// the number of the call that gives the value up. The fifth call stages a group to follow: its
/// refusal hands the value to the sixth, which is refused as well.
const FLUSHER_CALLS: [(u64, u64); 6] = [(2, 3), (3, 4), (4, 5), (5, 7), (6, 7), (7, 8)];

/// The calls of the checkpointer that take a value, counted after those that prepare the
/// checkpoint: the write of the only chunk, and all up to the sync of the closed half.
const CHECKPOINTER_CALLS: [u64; 6] = [2, 3, 4, 5, 6, 7];

/// Sees that a loop met one stranger, gave it up by the call of this number, and ended by the next
/// call.
fn assert_given_up<R: Wait + Abort>(rt: &R, fake: &Fake<Host<R>>, number: u64) {
    assert_same(rt, &fake.strangers(), &1, &number);
    let next = number.wrapping_add(1);
    assert_same(rt, &fake.calls(), &next, &number);
}

/// Runs the flusher's loop over a state that is exchanged before the call of a number.
fn assert_flusher<R: Wait + Abort + Copy + Drop>(
    rt: R,
    alloc: Global,
    (number, given_up): (u64, u64),
) {
    let host = Host(rt);
    let device = formatted(&host, alloc, LEAST);
    let fake = Fake::with_other(host, alloc, device, formatted(&host, alloc, LEAST));
    let ticket = submit(&host, &fake, &mut (), &mut Unwatched);
    fake.exchange_before(number);
    flusher_loop(&rt, &fake, &Silent);
    assert_given_up(&rt, &fake, given_up);
    // The first state has the ticket's outcome.
    fake.exchange_before(1);
    fake.halt();
    spend(&host, &fake, &mut Unwatched, ticket);
    fake.end();
}

#[test]
fn flusher_gives_up_strangers(rt: HostRuntime) {
    for row in FLUSHER_CALLS {
        assert_flusher(&rt, rt.alloc(), row);
    }
}

/// Runs the checkpointer's loop over a state that is exchanged before the call of a number.
fn assert_checkpointer<R: Wait + Abort + Copy + Drop>(rt: R, alloc: Global, number: u64) {
    let host = Host(rt);
    let device = sealed_row(&host, alloc);
    let fake = Fake::with_other(host, alloc, device, sealed_row(&host, alloc));
    fake.exchange_before(number);
    checkpointer_loop(&rt, &fake, &Silent);
    assert_given_up(&rt, &fake, number.wrapping_add(1));
    fake.end();
}

#[test]
fn checkpointer_gives_up_strangers(rt: HostRuntime) {
    let host = Host(&rt);
    let alloc = rt.alloc();
    let (_device, pieces) = pieces_of(&rt, alloc, sealed_row(&host, alloc));
    for call in CHECKPOINTER_CALLS {
        assert_checkpointer(&rt, alloc, call.wrapping_add(pieces));
    }
}
