//! A device that fails while the queue is full or half full: each command is answered.

use crate::checks::{assert_same, assert_true};
use crate::host::Host;
use crate::queues::said::{Handed, Said, hand_in_purges, room, settle};
use crate::workloads::{Errand, Tasks, nap, with_tasks};
use group_core::SubmitError;
use hub_claims::HubName;
use path_hub::{Hub, Senders};
use sector_dev::{Device, MemDevice};
use std::alloc::Global;
use std::process::Abort;
use std::sync::atomic::{AtomicBool, AtomicU64, Ordering};
use std::sync::{Mutex, Wait};
use std::thread::Threads;
use std::time::Clock;
use store_open::{Store, open};
use test_fault_devices::{FaultDevice, HeldDevice};
use test_hub_scripts::doors::{Door, Holds, Latch};
use test_hub_scripts::stores::{Contents, LEAST, assert_opens_to, formatted, opened};

/// How many calls of the device are tried.
const MANY: u64 = 1000;

/// How many calls of the device it takes to open a store.
fn calls_to_open(rt: &impl Abort, alloc: Global, device: MemDevice) -> u64 {
    let mut device = device;
    for number in 0..MANY {
        match open(alloc, FaultDevice::new(device, number)) {
            Ok(store) => {
                let _device = store.into_device();
                return number;
            }
            Err((failing, _e)) => device = failing.into_mem(),
        }
    }
    panic!(rt; "opening makes no end")
}

/// How many tasks hand commands in.
const GUESTS: u64 = 4;

/// How many commands wait in the queue as the device goes on: 8,448, which are all that may wait,
/// and half of them.
const WAITING: [u64; 2] = [8448, 4224];

/// A call of the device fails.
#[derive(Clone, Copy, Debug)]
struct Row {
    /// The call's number from the first one of the flusher on.
    call: u64,
    /// How many commands are committed then.
    committed: u64,
    /// How many have a place and are not known to be committed.
    stopped: u64,
    /// To which place the device opens.
    opens: u64,
}

/// The first group is one command, and each further one has 32. A group takes a write and a sync,
/// and its gate a write; the group that follows it is written then, and synced with that gate. What
/// is written is there at once, and where a write fails, nothing is.
#[rattlefmt::skip]
const ROWS: [Row; 11] = [
    // The first group's sync, and its gate.
    Row { call: 1, committed: 0, stopped: 1, opens: 0 },
    Row { call: 2, committed: 0, stopped: 1, opens: 0 },
    // The second group, the sync of both, and the second group's gate.
    Row { call: 3, committed: 0, stopped: 33, opens: 1 },
    Row { call: 4, committed: 0, stopped: 33, opens: 1 },
    Row { call: 5, committed: 1, stopped: 32, opens: 1 },
    // The third group.
    Row { call: 6, committed: 1, stopped: 64, opens: 33 },
    Row { call: 7, committed: 1, stopped: 64, opens: 33 },
    Row { call: 8, committed: 33, stopped: 32, opens: 33 },
    // The fourth group.
    Row { call: 9, committed: 33, stopped: 64, opens: 65 },
    Row { call: 10, committed: 33, stopped: 64, opens: 65 },
    Row { call: 11, committed: 65, stopped: 32, opens: 65 },
];

/// What commands were answered: for each place whether its command was committed, how many were
/// stopped at a place, and how many had none.
#[derive(Clone, Copy, Debug, PartialEq, Eq)]
struct Tally {
    /// One above the greatest place that was committed.
    committed: u64,
    /// How many places were committed.
    committed_count: u64,
    /// The least place that was stopped.
    first_stopped: u64,
    /// One above the greatest place that was stopped.
    stopped: u64,
    /// How many places were stopped.
    stopped_count: u64,
    /// How many commands were refused as the state had stopped.
    refused: u64,
    /// How many had another answer.
    others: u64,
}

impl Tally {
    /// Nothing was answered.
    fn new() -> Tally {
        Tally {
            committed: 0,
            committed_count: 0,
            first_stopped: u64::MAX,
            stopped: 0,
            stopped_count: 0,
            refused: 0,
            others: 0,
        }
    }

    /// Counts an answer.
    fn add(&mut self, said: Said) {
        match said {
            Said::Committed(place) => {
                self.committed = self.committed.max(place.saturating_add(1));
                self.committed_count = self.committed_count.saturating_add(1);
            }
            Said::Stopped(place) => {
                self.first_stopped = self.first_stopped.min(place);
                self.stopped = self.stopped.max(place.saturating_add(1));
                self.stopped_count = self.stopped_count.saturating_add(1);
            }
            Said::Refused(SubmitError::Stopped) => self.refused = self.refused.saturating_add(1),
            Said::Refused(_) | Said::Other => self.others = self.others.saturating_add(1),
        }
    }
}

/// What is wanted where this many commands are committed, this many are stopped at a place, and
/// this many wait. Places that are as many as they reach far are each there once, since no place is
/// given twice.
fn wanted(committed: u64, stopped: u64, waiting: u64) -> Tally {
    let placed = committed.saturating_add(stopped);
    Tally {
        committed,
        committed_count: committed,
        first_stopped: committed,
        stopped: placed,
        stopped_count: stopped,
        refused: waiting.saturating_add(1).saturating_sub(placed),
        others: 0,
    }
}

/// How long tasks wait for each other, in naps.
const MOST_NAPS: u64 = 4000;

/// The first task hands a purge in, and waits until its group's sync is held, if one must be.
/// Then all tasks hand purges in, and the sync goes on once they have.
#[derive(Drop)]
struct Fills<'a> {
    alloc: Global,
    door: &'a Door,
    each: u64,
    holds: bool,
    is_held: AtomicBool,
    handed: AtomicU64,
    tally: Mutex<Tally>,
}

impl Fills<'_> {
    /// Waits until the first sync is held, which the first task sees.
    fn wait_for_sync<R: Wait + Clock + Abort>(&self, rt: &R, task: u64) {
        if task == 0 {
            let is_held = self.door.is_held_soon(rt);
            assert_true(rt, is_held, "a sync is held");
            self.is_held.store(true, Ordering::SeqCst);
        }
        for _ in 0..MOST_NAPS {
            if self.is_held.load(Ordering::SeqCst) {
                return;
            }
            nap(rt);
        }
        panic!(rt; "no sync is held")
    }

    /// Lets the sync go on once all tasks have handed their purges in.
    fn go_on<R: Wait + Clock + Abort>(&self, rt: &R) {
        for _ in 0..MOST_NAPS {
            if self.handed.load(Ordering::SeqCst) == GUESTS {
                self.door.open(rt);
                return;
            }
            nap(rt);
        }
        panic!(rt; "a task waits for the state's lock, as after NoMemory")
    }

    /// Hands a task's purges in.
    fn hand_in<D: Device, N: HubName, R: Wait + Clock + Abort>(
        &self,
        hub: &Hub<D, N, R>,
        senders: &Senders<N>,
        task: u64,
    ) -> Vec<Handed<N>> {
        let rt = hub.handle();
        let mut all = room(rt, self.alloc, self.each.saturating_add(1));
        if task == 0 {
            hand_in_purges(hub, senders, &mut all, 1);
        }
        if self.holds {
            self.wait_for_sync(rt, task);
        }
        hand_in_purges(hub, senders, &mut all, self.each);
        self.handed.fetch_add(1, Ordering::SeqCst);
        if task == 0 {
            self.go_on(rt);
        }
        all
    }

    /// Counts what a command is answered.
    fn add<R: Wait>(&self, rt: &R, said: Said) {
        self.tally.lock(rt).add(said);
    }
}

impl Errand for Fills<'_> {
    fn run<D: Device, N: HubName, R: Wait + Clock + Abort>(
        &self,
        hub: &Hub<D, N, R>,
        senders: &Senders<N>,
        task: u64,
    ) {
        for handed in self.hand_in(hub, senders, task) {
            let (said, _outcome) = settle(hub, handed);
            self.add(hub.handle(), said);
        }
    }
}

/// A new store whose syncs pass a door, on a device whose call of this number fails.
fn failing_store<R: Wait + Clock + Abort + Copy>(
    rt: R,
    alloc: Global,
    door: &Door,
    number: u64,
) -> Store<HeldDevice<FaultDevice, Holds<'_, R>>> {
    let host = Host(rt);
    let failing = FaultDevice::new(formatted(&host, alloc, LEAST), number);
    opened(&host, alloc, HeldDevice::new(failing, Holds { rt, door }))
}

/// Has tasks hand their purges in at a store on a device whose call of this number fails: the
/// device.
fn failed<R: Wait + Clock + Threads + Abort + Copy + Drop + Send + Sync>(
    rt: R,
    alloc: Global,
    number: u64,
    tasks: &Tasks<Fills<'_>>,
) -> MemDevice {
    let door = tasks.errand.door;
    let store = failing_store(rt, alloc, door, number);
    if tasks.errand.holds {
        door.arm(&rt);
    }
    let (device, _gate) = with_tasks(rt, alloc, store, tasks).into_parts();
    device.into_mem()
}

/// What commands are answered where the call of this number fails, and the device then.
fn answered<R: Wait + Clock + Threads + Abort + Copy + Drop + Send + Sync>(
    rt: R,
    alloc: Global,
    number: u64,
    waiting: u64,
    holds: bool,
) -> (Tally, MemDevice) {
    let door = Door::new(Latch::Open);
    let fills = Fills {
        alloc,
        door: &door,
        each: waiting / GUESTS,
        holds,
        is_held: AtomicBool::new(false),
        handed: AtomicU64::new(0),
        tally: Mutex::new(Tally::new()),
    };
    let tasks = Tasks::new(GUESTS, fills);
    let device = failed(rt, alloc, number, &tasks);
    let tally = *tasks.errand.tally.lock(&rt);
    (tally, device)
}

/// Sees what commands are answered where a call of the device fails, the first one of the flusher
/// having this number among all calls.
fn assert_answered<R: Wait + Clock + Threads + Abort + Copy + Drop + Send + Sync>(
    rt: R,
    alloc: Global,
    first: u64,
    row: Row,
    waiting: u64,
) {
    let number = first.saturating_add(row.call);
    let (tally, device) = answered(rt, alloc, number, waiting, true);
    let wanted = wanted(row.committed, row.stopped, waiting);
    assert_same(&rt, &tally, &wanted, &(row, "waiting", waiting));
    let _device = assert_opens_to(&Host(rt), alloc, device, Contents::empty_at(row.opens));
}

#[test]
fn failed_calls_with_a_queue(rt: HostRuntime) {
    let alloc = rt.alloc();
    let first = calls_to_open(&rt, alloc, formatted(&Host(&rt), alloc, LEAST));
    for waiting in WAITING {
        for row in ROWS {
            assert_answered(&rt, alloc, first, row, waiting);
        }
    }
}

/// The most commands of a group.
const MOST_OF_A_GROUP: u64 = 32;

/// How many commands are handed in after the first one where nothing holds the flusher: they fit
/// the queue also if it takes none meanwhile.
const FITTING: [u64; 2] = [2300, 1152];

/// Sees what commands are answered where the call of this number fails, which is the flusher's
/// first one, and nothing holds the flusher.
fn assert_first_group<R: Wait + Clock + Threads + Abort + Copy + Drop + Send + Sync>(
    rt: R,
    alloc: Global,
    first: u64,
    waiting: u64,
) {
    let (tally, device) = answered(rt, alloc, first, waiting, false);
    let is_a_group = 1 <= tally.stopped && tally.stopped <= MOST_OF_A_GROUP;
    assert_same(&rt, &is_a_group, &true, &(tally, "waiting", waiting));
    let wanted = wanted(0, tally.stopped, waiting);
    assert_same(&rt, &tally, &wanted, &("waiting", waiting));
    let _device = assert_opens_to(&Host(rt), alloc, device, Contents::empty_at(0));
}

// The first write of the flusher fails while commands are handed in. How many its group has is not
// known.
#[test]
fn failed_first_write(rt: HostRuntime) {
    let alloc = rt.alloc();
    let first = calls_to_open(&rt, alloc, formatted(&Host(&rt), alloc, LEAST));
    for waiting in FITTING {
        assert_first_group(&rt, alloc, first, waiting);
    }
}
