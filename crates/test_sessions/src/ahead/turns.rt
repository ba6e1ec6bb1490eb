//! Refusals among commands that are sent ahead, each in its turn: the commands before and after
//! them are acknowledged in their places.

use crate::ahead::crowds::{Sessions, crowded, served};
use crate::bytes::push;
use crate::checks::assert_same;
use crate::host::Host;
use crate::service::frames::{INSERTED, PURGE, REGISTER, REMOVE, joined, register_by};
use hub_claims::HubName;
use path_hub::{Hub, Senders};
use sector_dev::{Device, MemDevice};
use std::alloc::Global;
use std::process::Abort;
use std::sync::Wait;
use std::thread::Threads;
use std::time::Clock;
use store_open::Store;
use test_group_scripts::stores::old_store;
use test_hub_scripts::stores::{Contents, assert_opens_to, new_store, opened};
use test_support::EXPIRY;
use test_support::digits::{REGISTER_2096, REGISTER_LOOP, REGISTER_NO_CHAIN, REMOVE_NO_TYPE};

/// One session's input, which comes at once.
#[derive(Drop)]
struct Turns {
    alloc: Global,
    /// The moment before the first one that the clock gives.
    moment: u64,
    frames: Vec<u8>,
    replies: Vec<u8>,
}

impl Sessions for Turns {
    fn run<D: Device, N: HubName, R: Wait + Clock + Abort>(
        &self,
        hub: &Hub<D, N, R>,
        senders: &Senders<N>,
        _session: u64,
    ) {
        let mut replies = Vec::new(self.alloc);
        let ended = served(
            hub,
            senders,
            self.alloc,
            self.moment,
            &self.frames,
            &mut replies,
        );
        assert_same(hub.handle(), &ended.is_ok(), &true, &ended);
        assert_same(hub.handle(), &replies, &self.replies, &"replies");
    }
}

/// Sees what a session is replied, and how many rows and which place its device opens to.
fn assert_turns<R: Wait + Clock + Threads + Abort + Copy + Drop + Send + Sync>(
    rt: R,
    store: Store<MemDevice>,
    turns: &Turns,
    (rows, place): (usize, u64),
) {
    let device = crowded(rt, turns.alloc, store, turns, 1);
    let wanted = Contents {
        rows,
        bytes: (rows as u64).saturating_mul(93),
        place,
    };
    let _device = assert_opens_to(&Host(rt), turns.alloc, device, wanted);
}

/// A session of these frames, whose first moment is the one after this, and its replies.
fn turns_of(
    rt: &impl Abort,
    alloc: Global,
    moment: u64,
    frames: &[&str],
    replies: &[&str],
) -> Turns {
    assert_same(rt, &frames.len(), &replies.len(), &"replies");
    Turns {
        alloc,
        moment,
        frames: joined(rt, alloc, frames),
        replies: joined(rt, alloc, replies),
    }
}

// Registrations that cannot be read, and a removal of no type.
#[test]
fn unreadable_messages_in_their_turns(rt: HostRuntime) {
    let frames = [
        "0000000301ffff",
        REGISTER,
        "0000000301ffff",
        REGISTER_NO_CHAIN,
        PURGE,
        REMOVE_NO_TYPE,
        REGISTER_LOOP,
        REMOVE,
        "0000000301ffff",
    ];
    let replies = [
        "00000002ff11",
        INSERTED,
        "00000002ff11",
        "00000002ff26",
        "0000001983000000000000000100000000000000000000000000000000",
        "00000002ff29",
        "00000002ff27",
        "0000001984000000000000000200000000000000000000000000000001",
        "00000002ff11",
    ];
    let turns = turns_of(&rt, rt.alloc(), 0, &frames, &replies);
    assert_turns(&rt, new_store(&Host(&rt), rt.alloc()), &turns, (0, 3));
}

// The third registration comes at the moment at which its segment expires.
#[test]
fn expired_segment_in_its_turn(rt: HostRuntime) {
    let frames = [REGISTER, PURGE, REGISTER, REGISTER, REGISTER_2096];
    let replies = [
        INSERTED,
        "0000001983000000000000000100000000000000000000000000000000",
        "0000001981000000000000000200000000000000000000000100000000",
        "00000002ff32",
        "0000001981000000000000000300000000000000010000000000000000",
    ];
    let turns = turns_of(&rt, rt.alloc(), EXPIRY - 3, &frames, &replies);
    assert_turns(&rt, new_store(&Host(&rt), rt.alloc()), &turns, (1, 4));
}

// A store of version 1 keeps no removal.
#[test]
fn removals_of_an_old_store_in_their_turns(rt: HostRuntime) {
    let frames = [REMOVE, PURGE, REMOVE, REMOVE, REGISTER, REMOVE];
    let replies = [
        "00000002ff57",
        "0000001983000000000000000000000000000000000000000000000000",
        "00000002ff57",
        "00000002ff57",
        "0000001981000000000000000100000001000000000000000000000000",
        "00000002ff57",
    ];
    let turns = turns_of(&rt, rt.alloc(), 0, &frames, &replies);
    let host = Host(&rt);
    let store = opened(&host, rt.alloc(), old_store(&host, rt.alloc()));
    assert_turns(&rt, store, &turns, (1, 2));
}

/// The replies to the messages after those that fill a store of ten rows: an eleventh segment, the
/// first one again, a purge, the eleventh once more, the removal of the first one, and the eleventh
/// in its place.
const AFTER_TEN: [&str; 6] = [
    "00000002ff52",
    "0000001981000000000000000a00000000000000000000000100000000",
    "0000001983000000000000000b00000000000000000000000000000000",
    "00000002ff52",
    "0000001984000000000000000c00000000000000000000000000000001",
    "0000001981000000000000000d00000001000000000000000000000000",
];

/// The acknowledgements of ten registrations.
const TEN: [&str; 10] = [
    INSERTED,
    "0000001981000000000000000100000001000000000000000000000000",
    "0000001981000000000000000200000001000000000000000000000000",
    "0000001981000000000000000300000001000000000000000000000000",
    "0000001981000000000000000400000001000000000000000000000000",
    "0000001981000000000000000500000001000000000000000000000000",
    "0000001981000000000000000600000001000000000000000000000000",
    "0000001981000000000000000700000001000000000000000000000000",
    "0000001981000000000000000800000001000000000000000000000000",
    "0000001981000000000000000900000001000000000000000000000000",
];

/// The frames that fill a store of ten rows, and those after them.
fn full_frames(rt: &impl Abort, alloc: Global) -> Vec<u8> {
    let mut frames = Vec::new(alloc);
    for egress in 1..=11 {
        push(rt, &mut frames, &register_by(egress));
    }
    push(rt, &mut frames, &joined(rt, alloc, &[REGISTER, PURGE]));
    push(rt, &mut frames, &register_by(11));
    push(rt, &mut frames, &joined(rt, alloc, &[REMOVE]));
    push(rt, &mut frames, &register_by(11));
    frames
}

#[test]
fn full_store_in_its_turn(rt: HostRuntime) {
    let alloc = rt.alloc();
    let mut replies = joined(&rt, alloc, &TEN);
    push(&rt, &mut replies, &joined(&rt, alloc, &AFTER_TEN));
    let turns = Turns {
        alloc,
        moment: 0,
        frames: full_frames(&rt, alloc),
        replies,
    };
    assert_turns(&rt, new_store(&Host(&rt), alloc), &turns, (10, 14));
}
