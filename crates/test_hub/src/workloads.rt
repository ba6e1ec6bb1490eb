//! A workload whose tasks do the same work, each in a thread of its own. The wait for them has a
//! limit.

use crate::checks::assert_same;
use hub_claims::{HubError, HubName};
use path_hub::{Hub, Notice, Reserved, Senders, Workload, with_workload};
use sector_dev::Device;
use std::alloc::Global;
use std::process::Abort;
use std::sync::Wait;
use std::sync::atomic::{AtomicU64, Ordering};
use std::thread::{Threads, sleep};
use std::time::{Clock, Duration};
use store_open::Store;

/// How long a task is waited for, in naps.
const MOST_NAPS: u64 = 8000;

/// The length of a nap, in milliseconds.
const NAP: u64 = 5;

/// Sleeps a little.
pub(crate) fn nap(rt: &impl Clock) {
    sleep(rt, Duration::from_millis(NAP));
}

/// What a task does with a hub.
pub(crate) trait Errand {
    fn run<D: Device, N: HubName, R: Wait + Clock + Abort>(
        &self,
        hub: &Hub<D, N, R>,
        senders: &Senders<N>,
        task: u64,
    );

    /// Takes a notice of an actor, whose thread goes on once the call returns.
    fn note<R: Wait + Clock>(&self, _rt: &R, _notice: Notice) {}
}

/// A workload of tasks that do this work, numbered from 0. Where one of them does not end, the test
/// ends.
#[derive(Drop)]
pub(crate) struct Tasks<E> {
    pub(crate) errand: E,
    count: u64,
    invited: AtomicU64,
    gone: AtomicU64,
    missed: AtomicU64,
    strangers: AtomicU64,
}

impl<E> Tasks<E> {
    /// This number of tasks with this errand.
    pub(crate) fn new(count: u64, errand: E) -> Tasks<E> {
        Tasks {
            errand,
            count,
            invited: AtomicU64::new(0),
            gone: AtomicU64::new(0),
            missed: AtomicU64::new(0),
            strangers: AtomicU64::new(0),
        }
    }

    /// For how many tasks no thread was given.
    pub(crate) fn missed(&self) -> u64 {
        self.missed.load(Ordering::SeqCst)
    }

    /// How often the flusher ended at a stranger.
    pub(crate) fn strangers(&self) -> u64 {
        self.strangers.load(Ordering::SeqCst)
    }
}

impl<E: Errand, D: Device, R: Wait + Clock + Abort> Workload<D, R> for Tasks<E> {
    type Task = u64;

    fn next<N: HubName>(&self, hub: &Hub<D, N, R>) -> Option<u64> {
        let task = self.invited.fetch_add(1, Ordering::SeqCst);
        if task < self.count {
            return Some(task);
        }
        for _ in 0..MOST_NAPS {
            if self.gone.load(Ordering::SeqCst) == self.count {
                return None;
            }
            nap(hub.handle());
        }
        panic!(hub.handle(); "a task waits for ever")
    }

    fn attend<N: HubName>(&self, hub: &Hub<D, N, R>, senders: &Senders<N>, task: u64) {
        self.errand.run(hub, senders, task);
        self.gone.fetch_add(1, Ordering::SeqCst);
    }

    fn miss<N: HubName>(&self, _hub: &Hub<D, N, R>, _task: u64) {
        self.missed.fetch_add(1, Ordering::SeqCst);
        self.gone.fetch_add(1, Ordering::SeqCst);
    }

    fn note<N: HubName>(&self, hub: &Hub<D, N, R>, notice: Notice) {
        self.errand.note(hub.handle(), notice);
    }

    fn met_stranger(&self) {
        self.strangers.fetch_add(1, Ordering::SeqCst);
    }
}

/// Runs tasks with a hub over a store: the device, and how many tasks there were.
pub(crate) fn attended<
    D: Device + Send,
    E: Errand + Sync,
    R: Wait + Clock + Threads + Abort + Copy + Drop + Send + Sync,
>(rt: R, alloc: Global, store: Store<D>, tasks: &Tasks<E>) -> (D, Result<u64, HubError>) {
    let (store, release) = Reserved::of(store);
    let (end, _left, attended) = with_workload(rt, alloc, store, 1, tasks);
    (end.into_device(release), attended)
}

/// Runs all tasks with a hub over a store, and returns the device.
pub(crate) fn with_tasks<
    D: Device + Send,
    E: Errand + Sync,
    R: Wait + Clock + Threads + Abort + Copy + Drop + Send + Sync,
>(rt: R, alloc: Global, store: Store<D>, tasks: &Tasks<E>) -> D {
    let (device, attended) = attended(rt, alloc, store, tasks);
    assert_same(&rt, &attended, &Ok(tasks.count), &"attended");
    device
}
