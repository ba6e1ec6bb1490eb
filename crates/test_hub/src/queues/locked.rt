//! Commands that find the queue full while a sync is held, under the state's lock.

use crate::checks::{assert_same, assert_true};
use crate::host::Host;
use crate::queues::said::{Handed, Said, hand_in, hand_in_purges, room, settle};
use crate::workloads::{Errand, Tasks, with_tasks};
use group_core::SubmitError;
use hub_claims::HubName;
use path_db::Command;
use path_hub::{Hub, Senders};
use sector_dev::Device;
use std::alloc::Global;
use std::process::Abort;
use std::sync::Wait;
use std::sync::atomic::{AtomicU64, Ordering};
use std::time::Clock;
use test_fault_devices::HeldDevice;
use test_group_scripts::stores::register;
use test_hub_scripts::doors::{Door, Holds, Latch};
use test_hub_scripts::stores::{Contents, LEAST, assert_opens_to, formatted, opened};

/// How many commands may wait in the queue. One more is in flight.
const WAITING: u64 = 8448;

/// One segment more than a command may register.
const TOO_MANY: usize = 17;

/// Fills the queue while a sync is held, and sees what further commands are answered meanwhile.
#[derive(Drop)]
struct Fills<'a> {
    alloc: Global,
    door: &'a Door,
    settled: AtomicU64,
}

/// Hands a command in that is refused at once, while the sync is still held.
fn assert_refused<D: Device, N: HubName, R: Wait + Clock + Abort>(
    hub: &Hub<D, N, R>,
    senders: &Senders<N>,
    door: &Door,
    command: Command,
    why: SubmitError,
) {
    let rt = hub.handle();
    let (said, _outcome) = settle(hub, hand_in(hub, senders, command));
    assert_same(rt, &said, &Said::Refused(why), &"said");
    assert_same(rt, &door.latch(rt), &Latch::Held, &"the door");
}

impl Fills<'_> {
    /// Hands commands in until the queue is full, and then two that are refused.
    fn hand_in_all<D: Device, N: HubName, R: Wait + Clock + Abort>(
        &self,
        hub: &Hub<D, N, R>,
        senders: &Senders<N>,
    ) -> Vec<Handed<N>> {
        let rt = hub.handle();
        let mut all = room(rt, self.alloc, 1 + WAITING);
        self.door.arm(rt);
        hand_in_purges(hub, senders, &mut all, 1);
        let is_held = self.door.is_held_soon(rt);
        assert_true(rt, is_held, "a sync is held");
        hand_in_purges(hub, senders, &mut all, WAITING);
        let door = self.door;
        assert_refused(hub, senders, door, Command::Purge(0), SubmitError::Busy);
        let large = register(&Host(rt), self.alloc, 1, TOO_MANY);
        assert_refused(hub, senders, door, large, SubmitError::TooLarge);
        self.door.open(rt);
        all
    }
}

impl Errand for Fills<'_> {
    fn run<D: Device, N: HubName, R: Wait + Clock + Abort>(
        &self,
        hub: &Hub<D, N, R>,
        senders: &Senders<N>,
        _task: u64,
    ) {
        let mut place = 0;
        for handed in self.hand_in_all(hub, senders) {
            let (said, _outcome) = settle(hub, handed);
            assert_same(hub.handle(), &said, &Said::Committed(place), &"said");
            place = place.saturating_add(1);
        }
        self.settled.store(place, Ordering::SeqCst);
    }
}

// A command that is refused does not wait for the device.
#[test]
fn full_queue_refuses_while_a_sync_is_held(rt: HostRuntime) {
    let host = Host(&rt);
    let alloc = rt.alloc();
    let door = Door::new(Latch::Open);
    let holds = Holds {
        rt: &rt,
        door: &door,
    };
    let device = HeldDevice::new(formatted(&host, alloc, LEAST), holds);
    let store = opened(&host, alloc, device);
    let fills = Fills {
        alloc,
        door: &door,
        settled: AtomicU64::new(0),
    };
    let tasks = Tasks::new(1, fills);
    let device = with_tasks(&rt, alloc, store, &tasks);
    let settled = tasks.errand.settled.load(Ordering::SeqCst);
    assert_same(&rt, &settled, &(1 + WAITING), &"settled");
    let (device, _gate) = device.into_parts();
    let _device = assert_opens_to(&host, alloc, device, Contents::empty_at(settled));
}
