//! Commands that find the queue full, while the flusher can take none of it.

use crate::checks::{assert_same, assert_true};
use crate::host::Host;
use crate::queues::said::{Handed, Said, hand_in, hand_in_purges, push, room, settle};
use crate::workloads::{Errand, Tasks, nap, with_tasks};
use group_core::SubmitError;
use hub_claims::HubName;
use hub_readers::HubReader;
use path_db::Command;
use path_hub::{Hub, Notice, Senders};
use sector_dev::Device;
use std::alloc::Global;
use std::process::Abort;
use std::sync::Wait;
use std::sync::atomic::{AtomicU64, Ordering};
use std::time::Clock;
use test_fault_devices::Gate;
use test_hub_scripts::acts::GROUPS;
use test_hub_scripts::doors::{Door, Holds, Latch};
use test_hub_scripts::stores::{
    Contents, assert_opens_to, opened, query_from, register, sealed_row,
};

/// The place of the store whose first journal is sealed. It has one row.
const FIRST: u64 = 1;

/// The place once the second journal is full too. No group is made then before the checkpoint of
/// the first one.
const FULL: u64 = FIRST + GROUPS;

/// How many commands the flusher takes from the queue: those of one group.
const TAKEN: u64 = 32;

/// How many commands may wait in the queue.
const WAITING: u64 = 8448;

/// How many commands are handed in once as many wait.
const REFUSED: u64 = 3;

/// The place of the command that is handed in once all others are answered.
const LAST: u64 = FULL + TAKEN + WAITING;

/// The first AS of the segments that are registered: by commands that are refused, and by the one
/// that is handed in last.
const ORIGINS: [u8; 2] = [0x20, 0x30];

/// How long the flusher is waited for, in naps.
const MOST_NAPS: u64 = 4000;

/// Fills the queue while a checkpoint is held before its first write, and sees what the commands
/// are answered.
#[derive(Drop)]
struct Fills {
    alloc: Global,
    door: Door,
    settled: AtomicU64,
}

/// What the command of a number is answered, counted from the first one after the second journal
/// was full.
fn wanted(number: u64) -> Said {
    if number < TAKEN + WAITING {
        Said::Committed(FULL.saturating_add(number))
    } else {
        Said::Refused(SubmitError::Busy)
    }
}

/// The command that registers a segment of this first AS.
fn registration(rt: &impl Abort, alloc: Global, origin: u8) -> Command {
    match register(alloc, origin, 1) {
        Some(command) => command,
        None => panic!(rt; "out of memory"),
    }
}

/// Commits a purge in a group of its own, which is the one of this place.
fn commit_at<D: Device, N: HubName, R: Wait + Clock + Abort>(
    hub: &Hub<D, N, R>,
    senders: &Senders<N>,
    place: u64,
) {
    let (said, _outcome) = settle(hub, hand_in(hub, senders, Command::Purge(0)));
    assert_same(hub.handle(), &said, &Said::Committed(place), &"said");
}

/// Waits until the flusher has taken commands of the queue, as many as a group may have.
fn wait_until_taken<D: Device, N: HubName, R: Wait + Clock + Abort>(hub: &Hub<D, N, R>) {
    let rt = hub.handle();
    for _ in 0..MOST_NAPS {
        if hub.numbers().0.pending == TAKEN {
            return;
        }
        nap(rt);
    }
    panic!(rt; "no commands are taken, as after NoMemory")
}

impl Fills {
    /// Hands commands in until the queue is full, and then some more, none of which is taken.
    fn hand_in_all<D: Device, N: HubName, R: Wait + Clock + Abort>(
        &self,
        hub: &Hub<D, N, R>,
        senders: &Senders<N>,
    ) -> Vec<Handed<N>> {
        let rt = hub.handle();
        let mut all = room(rt, self.alloc, TAKEN + WAITING + REFUSED);
        hand_in_purges(hub, senders, &mut all, TAKEN);
        wait_until_taken(hub);
        hand_in_purges(hub, senders, &mut all, WAITING);
        let [origin, _last] = ORIGINS;
        for _ in 0..REFUSED {
            let refused = hand_in(hub, senders, registration(rt, self.alloc, origin));
            push(rt, &mut all, refused);
        }
        let (numbers, _completed) = hub.numbers();
        let found = (numbers.place, numbers.pending);
        assert_same(rt, &found, &(FULL, TAKEN), &"numbers");
        all
    }

    /// Sees what the commands are answered once the checkpoint goes on.
    fn settle_all<D: Device, N: HubName, R: Wait + Clock + Abort>(
        &self,
        hub: &Hub<D, N, R>,
        _senders: &Senders<N>,
        all: Vec<Handed<N>>,
    ) {
        let mut number = 0;
        for handed in all {
            let (said, _outcome) = settle(hub, handed);
            assert_same(hub.handle(), &said, &wanted(number), &number);
            number = number.saturating_add(1);
        }
        self.settled.store(number, Ordering::SeqCst);
    }
}

/// How many segments of this first AS a reader shows.
fn shown<N: HubName>(rt: &impl Abort, reader: &mut HubReader<N>, origin: u8) -> usize {
    match reader.lookup(&query_from(origin), 0) {
        Ok(found) => found.len(),
        Err(e) => panic!(rt; "{e:?}"),
    }
}

/// Sees that a reader shows this number of segments of a first AS.
fn assert_shown<N: HubName>(rt: &impl Abort, reader: &mut HubReader<N>, origin: u8, wanted: usize) {
    let count = shown(rt, reader, origin);
    assert_same(rt, &count, &wanted, &origin);
}

/// Sees that the queue takes commands again, and that none of the refused ones has left a row.
fn assert_goes_on<D: Device, N: HubName, R: Wait + Clock + Abort>(
    hub: &Hub<D, N, R>,
    senders: &Senders<N>,
    alloc: Global,
) {
    let rt = hub.handle();
    let Ok(mut reader) = hub.reader() else {
        panic!(rt; "no reader");
    };
    let [refused, last] = ORIGINS;
    match hub.register(&mut senders.begin(), registration(rt, alloc, last)) {
        Ok(mut receipt) => {
            assert_same(rt, &receipt.place(), &LAST, &"the last place");
            reader.learn(&mut receipt);
        }
        Err(e) => panic!(rt; "{e:?}"),
    }
    assert_shown(rt, &mut reader, refused, 0);
    assert_shown(rt, &mut reader, last, 1);
    hub.give_back(reader);
}

impl Errand for Fills {
    fn run<D: Device, N: HubName, R: Wait + Clock + Abort>(
        &self,
        hub: &Hub<D, N, R>,
        senders: &Senders<N>,
        _task: u64,
    ) {
        let rt = hub.handle();
        let is_held = self.door.is_held_soon(rt);
        assert_true(rt, is_held, "a checkpoint is held");
        for place in FIRST..FULL {
            commit_at(hub, senders, place);
        }
        let all = self.hand_in_all(hub, senders);
        self.door.open(rt);
        self.settle_all(hub, senders, all);
        assert_goes_on(hub, senders, self.alloc);
    }

    fn note<R: Wait + Clock>(&self, rt: &R, notice: Notice) {
        if let Notice::CheckpointBegun = notice {
            let door = &self.door;
            Holds { rt, door }.pass();
        }
    }
}

#[test]
fn full_queue_is_busy(rt: HostRuntime) {
    let host = Host(&rt);
    let alloc = rt.alloc();
    let fills = Fills {
        alloc,
        door: Door::new(Latch::Armed),
        settled: AtomicU64::new(0),
    };
    let tasks = Tasks::new(1, fills);
    let store = opened(&host, alloc, sealed_row(&host, alloc));
    let device = with_tasks(&rt, alloc, store, &tasks);
    assert_same(&rt, &tasks.missed(), &0, &"missed");
    let latch = tasks.errand.door.latch(&rt);
    assert_same(&rt, &latch, &Latch::Open, &"the door");
    let settled = tasks.errand.settled.load(Ordering::SeqCst);
    let all = TAKEN + WAITING + REFUSED;
    assert_same(&rt, &settled, &all, &"settled");
    let wanted = Contents {
        rows: 2,
        bytes: 2 * 93,
        place: LAST + 1,
    };
    let _device = assert_opens_to(&host, alloc, device, wanted);
}
