//! A session whose peer leaves while the device holds the sync of its commands.

use crate::limits::sessions::replied;
use crate::service::frames::{FOUND, LOOKUP, NONE_FOUND, PURGE, REGISTER, assert_replied};
use crate::service::stores::{assert_opens_to, formatted, opened};
use crate::service::tasks::{Talk, talked};
use hub_claims::{HubName, Patient, Waiter};
use path_hub::{Hub, Senders};
use sector_dev::Device;
use session_limits::Limits;
use std::alloc::Global;
use std::process::Abort;
use std::sync::Wait;
use std::time::Clock;
use test_fault_devices::HeldDevice;
use test_hub_scripts::doors::{Door, Holds, Latch};

/// How often a peer is asked whether it has left before it has.
const PATIENCE: u64 = 3;

/// A peer who leaves while it waits.
#[derive(Drop)]
struct Leaves {
    asked: u64,
    has_left: bool,
}

impl Waiter for Leaves {
    ghost has_left = { λ peer. peer.has_left };

    fn has_left(&mut self) -> bool {
        self.asked = self.asked.saturating_add(1);
        self.has_left = self.asked > PATIENCE;
        self.has_left
    }

    fn had_left(&self) -> bool {
        self.has_left
    }

    fn note_answer(&mut self) {
        self.asked = 0;
    }
}

/// The limits of these sessions: none.
const NO_LIMITS: Limits<'static> = Limits {
    future: None,
    rooms: None,
    commands: true,
};

/// A session whose peer leaves while a sync is held, one that looks up meanwhile, and one that
/// comes once the sync has passed.
#[derive(Drop)]
struct Left<'a> {
    alloc: Global,
    door: &'a Door,
}

impl Left<'_> {
    /// Adds what all three sessions are replied. The result says whether they end well, and the
    /// sync was held meanwhile.
    fn reply<D: Device, N: HubName, R: Wait + Clock + Abort>(
        &self,
        hub: &Hub<D, N, R>,
        senders: &Senders<N>,
        all: &mut Vec<u8>,
    ) -> bool {
        let limits = (NO_LIMITS, 0);
        let peer = Leaves {
            asked: 0,
            has_left: false,
        };
        self.door.arm(hub.handle());
        let frames = [REGISTER, PURGE, PURGE];
        let left = replied(hub, senders, self.alloc, limits, peer, &frames, all);
        let is_held = self.door.latch(hub.handle()) == Latch::Held;
        let frames = [LOOKUP];
        let meanwhile = replied(hub, senders, self.alloc, limits, Patient, &frames, all);
        self.door.open(hub.handle());
        let frames = [PURGE, LOOKUP];
        let after = replied(hub, senders, self.alloc, limits, Patient, &frames, all);
        is_held && left && meanwhile && after
    }
}

impl Talk for Left<'_> {
    fn talk<D: Device, N: HubName, R: Wait + Clock + Abort>(
        &self,
        hub: &Hub<D, N, R>,
        senders: &Senders<N>,
    ) -> Option<Vec<u8>> {
        let mut all = Vec::new(self.alloc);
        let is_well = self.reply(hub, senders, &mut all);
        is_well.then_some(all)
    }
}

// The three commands go on. The purge of the last session has the place after them.
#[test]
fn commands_go_on_for_which_nobody_waits(rt: HostRuntime) {
    let alloc = rt.alloc();
    let door = Door::new(Latch::Open);
    let holds = Holds {
        rt: &rt,
        door: &door,
    };
    let device = HeldDevice::new(formatted(&rt, alloc), holds);
    let store = opened(&rt, alloc, device);
    let (device, written) = talked(&rt, alloc, store, Left { alloc, door: &door });
    let replies = [
        "00000002ff63",
        "00000002ff63",
        "00000002ff63",
        NONE_FOUND,
        "0000001983000000000000000300000000000000000000000000000000",
        FOUND,
    ];
    assert_replied(&rt, alloc, written, &replies);
    let (device, _gate) = device.into_parts();
    assert_opens_to(&rt, alloc, device, 1, 4);
}
