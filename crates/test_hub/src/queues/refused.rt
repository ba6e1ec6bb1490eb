//! Want of memory while commands are handed in ahead. The tests are run with each of their
//! allocations refused in turn: a command that is refused takes no place, and is accepted when it
//! is handed in again.

use crate::checks::{assert_same, assert_true};
use crate::host::Host;
use crate::queues::said::{Handed, Said, hand_in, push, room, settle};
use crate::workloads::{Errand, Tasks, attended};
use group_core::SubmitError;
use hub_claims::{HubError, HubName};
use path_db::Command;
use path_hub::{Hub, Senders};
use sector_dev::{Device, MemDevice};
use std::alloc::Global;
use std::process::Abort;
use std::sync::Wait;
use std::sync::atomic::{AtomicU64, Ordering};
use std::thread::Threads;
use std::time::Clock;
use store_open::Store;
use test_fault_devices::HeldDevice;
use test_hub_scripts::doors::{Door, Holds, Latch};
use test_hub_scripts::stores::{
    Contents, LEAST, assert_contents, assert_opens_to, contents_of, formatted, opened,
};

/// How many commands are handed in while a sync is held: the queue grows several times.
const AHEAD: u64 = 100;

/// Hands a purge in, waits until its sync is held, hands more in, and sees that they are committed
/// in their order.
#[derive(Drop)]
struct Grows<'a> {
    alloc: Global,
    door: &'a Door,
    settled: AtomicU64,
}

/// Hands a purge in, and once more where memory is refused.
fn hand_in_again<D: Device, N: HubName, R: Wait + Clock + Abort>(
    hub: &Hub<D, N, R>,
    senders: &Senders<N>,
) -> Handed<N> {
    match hand_in(hub, senders, Command::Purge(0)) {
        Err(Said::Refused(SubmitError::NoMemory)) => hand_in(hub, senders, Command::Purge(0)),
        handed => handed,
    }
}

impl Grows<'_> {
    /// Hands all purges in.
    fn hand_in<D: Device, N: HubName, R: Wait + Clock + Abort>(
        &self,
        hub: &Hub<D, N, R>,
        senders: &Senders<N>,
    ) -> Vec<Handed<N>> {
        let rt = hub.handle();
        let mut all = room(rt, self.alloc, AHEAD + 1);
        push(rt, &mut all, hand_in_again(hub, senders));
        let is_held = self.door.is_held_soon(rt);
        assert_true(rt, is_held, "a sync is held");
        for _ in 0..AHEAD {
            push(rt, &mut all, hand_in_again(hub, senders));
        }
        self.door.open(rt);
        all
    }
}

impl Errand for Grows<'_> {
    fn run<D: Device, N: HubName, R: Wait + Clock + Abort>(
        &self,
        hub: &Hub<D, N, R>,
        senders: &Senders<N>,
        _task: u64,
    ) {
        let mut place = 0;
        for handed in self.hand_in(hub, senders) {
            let (said, _outcome) = settle(hub, handed);
            assert_same(hub.handle(), &said, &Said::Committed(place), &"said");
            place = place.saturating_add(1);
        }
        self.settled.store(place, Ordering::SeqCst);
    }
}

/// A new store whose syncs pass a door.
fn held_store<R: Wait + Clock + Abort + Copy>(
    rt: R,
    alloc: Global,
    door: &Door,
    device: MemDevice,
) -> Store<HeldDevice<MemDevice, Holds<'_, R>>> {
    opened(
        &Host(rt),
        alloc,
        HeldDevice::new(device, Holds { rt, door }),
    )
}

/// A hub with the task over a device whose syncs are held: the device, and how many tasks there
/// were.
fn held<R: Wait + Clock + Threads + Abort + Copy + Drop + Send + Sync>(
    rt: R,
    alloc: Global,
    store: Store<HeldDevice<MemDevice, Holds<'_, R>>>,
    tasks: &Tasks<Grows<'_>>,
) -> (MemDevice, Result<u64, HubError>) {
    tasks.errand.door.arm(&rt);
    let (device, attended) = attended(rt, alloc, store, tasks);
    (device.into_parts().0, attended)
}

/// The same hub where memory was refused for it: the device.
fn grown_again<R: Wait + Clock + Threads + Abort + Copy + Drop + Send + Sync>(
    rt: R,
    alloc: Global,
    device: MemDevice,
    refused: HubError,
    tasks: &Tasks<Grows<'_>>,
) -> MemDevice {
    let is_refused = matches!(refused, HubError::NoMemory | HubError::NoReader);
    assert_same(&rt, &is_refused, &true, &refused);
    let store = held_store(rt, alloc, tasks.errand.door, device);
    assert_contents(&Host(rt), contents_of(&store), Contents::empty_at(0));
    let (device, again) = held(rt, alloc, store, tasks);
    assert_same(&rt, &again, &Ok(1), &"attended");
    device
}

/// A hub with the task, and once more where memory is refused for it: the device.
fn grown<R: Wait + Clock + Threads + Abort + Copy + Drop + Send + Sync>(
    rt: R,
    alloc: Global,
    tasks: &Tasks<Grows<'_>>,
) -> MemDevice {
    let device = formatted(&Host(rt), alloc, LEAST);
    let store = held_store(rt, alloc, tasks.errand.door, device);
    let (device, first) = held(rt, alloc, store, tasks);
    match first {
        Ok(_attended) => device,
        Err(refused) => grown_again(rt, alloc, device, refused, tasks),
    }
}

#[test]
fn refused_commands_may_be_handed_in_again(rt: HostRuntime) {
    let host = Host(&rt);
    let alloc = rt.alloc();
    let door = Door::new(Latch::Open);
    let grows = Grows {
        alloc,
        door: &door,
        settled: AtomicU64::new(0),
    };
    let tasks = Tasks::new(1, grows);
    let device = grown(&rt, alloc, &tasks);
    let settled = tasks.errand.settled.load(Ordering::SeqCst);
    // Where no thread was given for the task, nobody has handed a purge in.
    let is_right = settled == AHEAD + 1 || (settled == 0 && tasks.missed() == 1);
    assert_same(&rt, &is_right, &true, &settled);
    let _device = assert_opens_to(&host, alloc, device, Contents::empty_at(settled));
}
