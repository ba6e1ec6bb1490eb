//! Commands that are refused as busy among others that are handed in ahead.

use crate::checks::assert_same;
use crate::host::Host;
use crate::queues::said::{Handed, Said, hand_in_purges, room, settle};
use group_core::SubmitError;
use hub_claims::HubName;
use path_hub::{Hub, HubJob, Senders, with_hub};
use sector_dev::Device;
use std::alloc::Global;
use std::process::Abort;
use std::sync::Wait;
use std::time::Clock;
use test_hub_scripts::acts::{Unwatched, flush};
use test_hub_scripts::stores::{ended, new_store, reserved};

/// How many commands may be pending.
const MOST_PENDING: u64 = 256;

/// How many groups they are, of 32 commands each.
const GROUPS: u64 = 8;

/// How many commands are handed in: as many as may be pending and four more, and three others once
/// the first ones are committed.
const COUNTS: [u64; 2] = [MOST_PENDING + 4, 3];

/// Hands commands in at a hub that has no threads, and has them committed.
#[derive(Drop)]
struct Fills {
    alloc: Global,
}

/// What the command of a number is answered: the four that find no room take no place.
fn wanted(number: u64) -> Said {
    if number < MOST_PENDING {
        Said::Committed(number)
    } else if number < COUNTS[0] {
        Said::Refused(SubmitError::Busy)
    } else {
        Said::Committed(number - 4)
    }
}

/// Sees what the commands are answered.
fn assert_said<D: Device, N: HubName, R: Wait + Clock + Abort>(
    hub: &Hub<D, N, R>,
    all: Vec<Handed<N>>,
) {
    let mut number = 0;
    for handed in all {
        let (said, _outcome) = settle(hub, handed);
        assert_same(hub.handle(), &said, &wanted(number), &number);
        number = number.saturating_add(1);
    }
    let all = COUNTS[0] + COUNTS[1];
    assert_same(hub.handle(), &number, &all, &"commands");
}

impl<D: Device, R: Wait + Clock + Abort> HubJob<D, R> for Fills {
    type Out = ();

    fn run<N: HubName>(self, hub: &Hub<D, N, R>, senders: &Senders<N>) {
        let rt = hub.handle();
        let [first, later] = COUNTS;
        let mut all = room(rt, self.alloc, first + later);
        hand_in_purges(hub, senders, &mut all, first);
        for _ in 0..GROUPS {
            flush(&Host(rt), hub, &mut Unwatched);
        }
        hand_in_purges(hub, senders, &mut all, later);
        flush(&Host(rt), hub, &mut Unwatched);
        assert_said(hub, all);
    }
}

#[test]
fn busy_in_its_turn(rt: HostRuntime) {
    let host = Host(&rt);
    let alloc = rt.alloc();
    let store = new_store(&host, alloc);
    ended(
        &host,
        with_hub(&rt, alloc, reserved(store), 1, Fills { alloc }),
    );
}
