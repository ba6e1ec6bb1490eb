//! Sessions that send commands ahead, beside each other: their places are those of one order, and
//! each command did what it does in that order.

use crate::ahead::crowds::{Sessions, crowded, served};
use crate::ahead::frames::{ACK, head_of, number_of, push_frame};
use crate::checks::assert_same;
use crate::host::Host;
use hub_claims::HubName;
use path_hub::{Hub, Senders};
use sector_dev::Device;
use std::alloc::Global;
use std::process::Abort;
use std::sync::Wait;
use std::thread::Threads;
use std::time::Clock;
use test_hub_scripts::folds::{Act, Ledger, act_of};
use test_hub_scripts::stores::{Contents, assert_opens_to, new_store};

/// How many sessions there are, and how many commands each of them sends ahead.
const CROWDS: [(u64, usize); 7] = [
    (1, 1),
    (1, 32),
    (1, 128),
    (2, 32),
    (2, 128),
    (8, 1),
    (8, 128),
];

/// The frames of a session's first commands.
fn frames_of(rt: &impl Abort, alloc: Global, session: u64, count: usize) -> Vec<u8> {
    let mut frames = Vec::new(alloc);
    for index in 0..count {
        push_frame(rt, &mut frames, act_of(session, index));
    }
    frames
}

/// Enters what a command was acknowledged with: its place.
fn enter<R: Wait + Abort>(rt: &R, ledger: &Ledger, by: (u64, Act), ack: &[u8]) -> u64 {
    assert_same(rt, &ack.starts_with(&head_of(by.1)), &true, &ack);
    let (_head, ack) = ack.split_at(ack.len().min(5));
    let (place, counts) = ack.split_at(ack.len().min(8));
    let place = number_of(place);
    let mut wanted = [0; 4];
    for (count, bytes) in wanted.iter_mut().zip(counts.chunks(4)) {
        *count = (number_of(bytes) & 0xffff_ffff) as u32;
    }
    ledger.enter(&Host(rt), place, by, wanted);
    place
}

/// Each session sends its commands at once, and enters what it is answered.
#[derive(Drop)]
struct Sends {
    alloc: Global,
    count: usize,
    ledger: Ledger,
}

impl Sends {
    /// Enters the replies of a session, whose places rise.
    fn enter_all<R: Wait + Abort>(&self, rt: &R, session: u64, replies: &[u8]) {
        let len = self.count.saturating_mul(ACK);
        assert_same(rt, &replies.len(), &len, &("replies", session));
        let mut next = 0;
        for (index, ack) in replies.chunks(ACK).enumerate() {
            let by = (session, act_of(session, index));
            let place = enter(rt, &self.ledger, by, ack);
            assert_same(rt, &(next <= place), &true, &(session, place));
            next = place.saturating_add(1);
        }
    }
}

impl Sessions for Sends {
    fn run<D: Device, N: HubName, R: Wait + Clock + Abort>(
        &self,
        hub: &Hub<D, N, R>,
        senders: &Senders<N>,
        session: u64,
    ) {
        let rt = hub.handle();
        let frames = frames_of(rt, self.alloc, session, self.count);
        let mut replies = Vec::new(self.alloc);
        let ended = served(hub, senders, self.alloc, 0, &frames, &mut replies);
        assert_same(rt, &ended, &Ok(self.count as u64), &session);
        self.enter_all(rt, session, &replies);
    }
}

/// Sees what sessions that send ahead are answered, and what the store has at the end.
fn assert_crowd<R: Wait + Clock + Threads + Abort + Copy + Drop + Send + Sync>(
    rt: R,
    alloc: Global,
    (sessions, count): (u64, usize),
) {
    let host = Host(rt);
    let all = (sessions as usize).saturating_mul(count);
    let sends = Sends {
        alloc,
        count,
        ledger: Ledger::new(&host, alloc, all),
    };
    let device = crowded(rt, alloc, new_store(&host, alloc), &sends, sessions);
    let rows = sends.ledger.rows(&host);
    let wanted = Contents {
        rows,
        bytes: (rows as u64).saturating_mul(93),
        place: all as u64,
    };
    let _device = assert_opens_to(&host, alloc, device, wanted);
}

#[test]
fn crowds_that_send_ahead(rt: HostRuntime) {
    for crowd in CROWDS {
        assert_crowd(&rt, rt.alloc(), crowd);
    }
}
