//! What is answered once the state has stopped.

use crate::checks::assert_same;
use crate::host::Host;
use crate::workloads::{Errand, Tasks, with_tasks};
use group_core::SubmitError;
use hub_claims::{HubError, HubName};
use hub_readers::HubReader;
use path_db::Command;
use path_hub::{Hub, Senders};
use sector_dev::{Device, MemDevice};
use std::alloc::Global;
use std::process::Abort;
use std::sync::{Mutex, Wait};
use std::thread::Threads;
use std::time::Clock;
use store_open::{Store, open};
use test_fault_devices::FaultDevice;
use test_hub_scripts::acts::{Unwatched, fill};
use test_hub_scripts::fakes::Fake;
use test_hub_scripts::stores::{
    Contents, LEAST, assert_opens_to, change, contents_of, formatted, opened, query, register,
    sealed_row,
};

/// A store whose journals are full, at place 514, and that has no epoch left for a checkpoint: a
/// further command may be accepted, and is never committed.
fn full_store<R: Wait + Abort + Copy + Drop>(rt: R, alloc: Global) -> Store<MemDevice> {
    let host = Host(rt);
    let mut device = formatted(&host, alloc, LEAST);
    // The epoch of the first half's checkpoint.
    change(&mut device, 1, 8, &[0xff; 8]);
    let fake = Fake::new(host, alloc, device);
    fill(&host, &fake, &mut (), &mut Unwatched);
    opened(&host, alloc, fake.into_device())
}

/// The task registers a command twice.
#[derive(Drop)]
struct Waits {
    answers: Mutex<[Option<HubError>; 2]>,
}

impl Errand for Waits {
    fn run<D: Device, N: HubName, R: Wait + Clock + Abort>(
        &self,
        hub: &Hub<D, N, R>,
        senders: &Senders<N>,
        _task: u64,
    ) {
        let first = hub.register(&mut senders.begin(), Command::Purge(0)).err();
        let second = hub.register(&mut senders.begin(), Command::Purge(0)).err();
        *self.answers.lock(hub.handle()) = [first, second];
    }
}

/// Whether the first command is answered as one that is accepted before the state stops, or as one
/// that comes later.
fn is_stopped(answer: Option<HubError>) -> bool {
    match answer {
        Some(HubError::Stopped(place)) => place == 514,
        Some(HubError::Submit(why)) => why == SubmitError::Stopped,
        _ => false,
    }
}

// The checkpointer stops the state, as no epoch is left.
#[test]
fn register_in_a_state_that_stops(rt: HostRuntime) {
    let host = Host(&rt);
    let alloc = rt.alloc();
    let waits = Waits {
        answers: Mutex::new([None, None]),
    };
    let tasks = Tasks::new(1, waits);
    let device = with_tasks(&rt, alloc, full_store(&rt, alloc), &tasks);
    let [first, second] = *tasks.errand.answers.lock(&rt);
    assert_same(&rt, &is_stopped(first), &true, &first);
    let wanted = Some(HubError::Submit(SubmitError::Stopped));
    assert_same(&rt, &second, &wanted, &"the second command");
    let _device = assert_opens_to(&host, alloc, device, Contents::empty_at(514));
}

/// How many calls of the device are tried.
const MANY: u64 = 1000;

/// How many calls of the device it takes to open a store.
fn calls_to_open(rt: &impl Abort, alloc: Global, device: MemDevice) -> u64 {
    let mut device = device;
    for number in 0..MANY {
        match open(alloc, FaultDevice::new(device, number)) {
            Ok(store) => {
                let _device = store.into_device();
                return number;
            }
            Err((failing, _e)) => device = failing.into_mem(),
        }
    }
    panic!(rt; "opening makes no end")
}

/// A new store on a device that fails in the sync of the second group's gate: each group takes a
/// write and a sync, and these of its gate.
fn failing_store(rt: &Host<impl Abort>, alloc: Global) -> Store<FaultDevice> {
    let number = calls_to_open(&rt.0, alloc, formatted(rt, alloc, LEAST)).saturating_add(7);
    let device = formatted(rt, alloc, LEAST);
    opened(rt, alloc, FaultDevice::new(device, number))
}

/// What a task sees of a device that fails in the second group: how many segments are shown before
/// that, and after that to two readers; and what the second and the third command are answered.
type Seen = ([usize; 3], [Option<HubError>; 2]);

/// Registers three segments, of which the second one meets the fault.
#[derive(Drop)]
struct Meets {
    alloc: Global,
    seen: Mutex<Option<Seen>>,
}

/// How many segments a reader shows.
pub(crate) fn shown<N: HubName>(reader: &mut HubReader<N>) -> Option<usize> {
    Some(reader.lookup(&query(), 0).ok()?.len())
}

impl Meets {
    /// Registers a segment, and learns the receipt.
    fn register_first<D: Device, N: HubName, R: Wait + Clock>(
        &self,
        hub: &Hub<D, N, R>,
        senders: &Senders<N>,
        reader: &mut HubReader<N>,
    ) -> Option<()> {
        let command = register(self.alloc, 0x10, 1)?;
        let mut receipt = hub.register(&mut senders.begin(), command).ok()?;
        reader.learn(&mut receipt);
        Some(())
    }

    /// What is seen with two readers.
    fn see<D: Device, N: HubName, R: Wait + Clock>(
        &self,
        hub: &Hub<D, N, R>,
        senders: &Senders<N>,
        reader: &mut HubReader<N>,
        other: &mut HubReader<N>,
    ) -> Option<Seen> {
        self.register_first(hub, senders, reader)?;
        let before = shown(reader)?;
        let second = register(self.alloc, 0x10, 2)?;
        let second = hub.register(&mut senders.begin(), second).err();
        let after = shown(reader)?;
        let elsewhere = shown(other)?;
        let third = register(self.alloc, 0x10, 3)?;
        let third = hub.register(&mut senders.begin(), third).err();
        Some(([before, after, elsewhere], [second, third]))
    }

    /// What is seen with two readers of the hub.
    fn seen<D: Device, N: HubName, R: Wait + Clock>(
        &self,
        hub: &Hub<D, N, R>,
        senders: &Senders<N>,
    ) -> Option<Seen> {
        let mut reader = hub.reader().ok()?;
        let mut other = hub.reader().ok()?;
        let seen = self.see(hub, senders, &mut reader, &mut other);
        hub.give_back(reader);
        hub.give_back(other);
        seen
    }
}

impl Errand for Meets {
    fn run<D: Device, N: HubName, R: Wait + Clock + Abort>(
        &self,
        hub: &Hub<D, N, R>,
        senders: &Senders<N>,
        _task: u64,
    ) {
        let seen = self.seen(hub, senders);
        *self.seen.lock(hub.handle()) = seen;
    }
}

#[test]
fn failed_gate_sync_stops(rt: HostRuntime) {
    let host = Host(&rt);
    let alloc = rt.alloc();
    let meets = Meets {
        alloc,
        seen: Mutex::new(None),
    };
    let tasks = Tasks::new(1, meets);
    let device = with_tasks(&rt, alloc, failing_store(&host, alloc), &tasks);
    let answers = [
        Some(HubError::Stopped(1)),
        Some(HubError::Submit(SubmitError::Stopped)),
    ];
    let seen = *tasks.errand.seen.lock(&rt);
    assert_same(&rt, &seen, &Some(([1, 1, 1], answers)), &"seen");
    // The gate was written, though its sync failed: that command was kept.
    let wanted = Contents {
        rows: 2,
        bytes: 2 * 93,
        place: 2,
    };
    let _device = assert_opens_to(&host, alloc, device.into_mem(), wanted);
}

/// How many calls of the device the actors make at most until a checkpoint has ended and a few
/// purges are committed.
const ACTORS_CALLS: u64 = 30;

/// Purges until the state has stopped, and looks up with two readers before that and after it.
/// Comes to how many segments each lookup showed.
#[derive(Drop)]
struct Purges {
    shown: Mutex<Option<[usize; 4]>>,
}

/// Purges until the state has stopped, which it does within these calls of the device.
fn purge_until_stopped<D: Device, N: HubName, R: Wait + Clock>(
    hub: &Hub<D, N, R>,
    senders: &Senders<N>,
) -> Option<()> {
    for _ in 0..ACTORS_CALLS {
        if hub
            .register(&mut senders.begin(), Command::Purge(0))
            .is_err()
        {
            return Some(());
        }
    }
    None
}

impl Purges {
    /// What two readers show.
    fn look<D: Device, N: HubName, R: Wait + Clock>(
        hub: &Hub<D, N, R>,
        senders: &Senders<N>,
        reader: &mut HubReader<N>,
        other: &mut HubReader<N>,
    ) -> Option<[usize; 4]> {
        let first = shown(reader)?;
        purge_until_stopped(hub, senders)?;
        let again = shown(reader)?;
        let elsewhere = shown(other)?;
        let last = shown(reader)?;
        Some([first, again, elsewhere, last])
    }

    /// What two readers of the hub show.
    fn shown<D: Device, N: HubName, R: Wait + Clock>(
        hub: &Hub<D, N, R>,
        senders: &Senders<N>,
    ) -> Option<[usize; 4]> {
        let mut reader = hub.reader().ok()?;
        let mut other = hub.reader().ok()?;
        let shown = Purges::look(hub, senders, &mut reader, &mut other);
        hub.give_back(reader);
        hub.give_back(other);
        shown
    }
}

impl Errand for Purges {
    fn run<D: Device, N: HubName, R: Wait + Clock + Abort>(
        &self,
        hub: &Hub<D, N, R>,
        senders: &Senders<N>,
        _task: u64,
    ) {
        let shown = Purges::shown(hub, senders);
        *self.shown.lock(hub.handle()) = shown;
    }
}

/// Sees that readers go on where the call of this number fails, on a device of a store whose
/// journal is sealed.
fn assert_readers_go_on<R: Wait + Clock + Threads + Abort + Copy + Drop + Send + Sync>(
    rt: R,
    alloc: Global,
    number: u64,
) {
    let host = Host(rt);
    let failing = FaultDevice::new(sealed_row(&host, alloc), number);
    let purges = Purges {
        shown: Mutex::new(None),
    };
    let tasks = Tasks::new(1, purges);
    let device = with_tasks(rt, alloc, opened(&host, alloc, failing), &tasks);
    let shown = *tasks.errand.shown.lock(&rt);
    assert_same(&rt, &shown, &Some([1; 4]), &number);
    let store = opened(&host, alloc, device.into_mem());
    assert_same(&rt, &contents_of(&store).rows, &1, &number);
    let _device = store.into_device();
}

// The calls of the flusher's steps and of a whole checkpoint, in whichever order the two actors
// make them.
#[test]
fn readers_go_on_after_each_failed_call(rt: HostRuntime) {
    let host = Host(&rt);
    let alloc = rt.alloc();
    let first = calls_to_open(&rt, alloc, sealed_row(&host, alloc));
    for number in 0..ACTORS_CALLS {
        assert_readers_go_on(&rt, alloc, first.saturating_add(number));
    }
}
