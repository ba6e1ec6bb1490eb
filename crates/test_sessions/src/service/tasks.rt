//! A workload of one task, which uses a hub in a thread beside its actors. The wait for it has a
//! limit.

use crate::checks::assert_same;
use crate::service::clocks::Counts;
use crate::service::stores::opened;
use hub_claims::{HubError, HubName, Patient};
use path_hub::{Hub, Reserved, Senders, Workload, with_workload};
use path_session::{FrameError, HubService, Replies, Service, serve};
use sector_dev::Device;
use seg_check::TrustAll;
use seg_lookup::Roster;
use session_core::Kinds;
use std::alloc::Global;
use std::io::{Read, Write};
use std::process::Abort;
use std::sync::atomic::{AtomicU64, Ordering};
use std::sync::{Mutex, Wait};
use std::thread::{Threads, sleep};
use std::time::{Clock, Duration};
use store_open::Store;

/// How long the task is waited for, in naps.
const MOST_NAPS: u64 = 8000;

/// The length of a nap, in milliseconds.
const NAP: u64 = 5;

/// How many reads a session may make.
pub(crate) const TURNS: u64 = 1000;

/// Sleeps a little.
pub(crate) fn nap(rt: &impl Clock) {
    sleep(rt, Duration::from_millis(NAP));
}

/// What the task does with a hub.
pub(crate) trait Talk {
    /// What was replied, or none where a call failed that is to succeed.
    fn talk<D: Device, N: HubName, R: Wait + Clock + Abort>(
        &self,
        hub: &Hub<D, N, R>,
        senders: &Senders<N>,
    ) -> Option<Vec<u8>>;
}

/// The workload of one task. Where the task does not end, the test ends.
#[derive(Drop)]
struct Task<T> {
    talk: T,
    invited: AtomicU64,
    gone: AtomicU64,
    replies: Mutex<Option<Vec<u8>>>,
}

impl<T: Talk, D: Device, R: Wait + Clock + Abort> Workload<D, R> for Task<T> {
    type Task = ();

    fn next<N: HubName>(&self, hub: &Hub<D, N, R>) -> Option<()> {
        if self.invited.fetch_add(1, Ordering::SeqCst) == 0 {
            return Some(());
        }
        for _ in 0..MOST_NAPS {
            if self.gone.load(Ordering::SeqCst) == 1 {
                return None;
            }
            nap(hub.handle());
        }
        panic!(hub.handle(); "the task waits for ever")
    }

    fn attend<N: HubName>(&self, hub: &Hub<D, N, R>, senders: &Senders<N>, _task: ()) {
        let replies = self.talk.talk(hub, senders);
        *self.replies.lock(hub.handle()) = replies;
        self.gone.store(1, Ordering::SeqCst);
    }

    fn miss<N: HubName>(&self, _hub: &Hub<D, N, R>, _task: ()) {
        self.gone.store(1, Ordering::SeqCst);
    }
}

impl<T> Task<T> {
    /// Lets `next` return the task once more.
    fn invite_again(&self) {
        self.invited.store(0, Ordering::SeqCst);
        self.gone.store(0, Ordering::SeqCst);
    }
}

/// Runs the workload over a store: the device, and how many tasks there were.
fn attended<
    D: Device + Send,
    T: Talk + Sync,
    R: Wait + Clock + Threads + Abort + Copy + Drop + Send + Sync,
>(rt: R, alloc: Global, store: Store<D>, task: &Task<T>) -> (D, Result<u64, HubError>) {
    let (store, release) = Reserved::of(store);
    let (end, _left, attended) = with_workload(rt, alloc, store, 1, task);
    (end.into_device(release), attended)
}

/// Has a task talk to a hub over a store: the device, and what was replied. Where memory is
/// refused for the hub or the task's thread, it is asked for once more.
pub(crate) fn talked<
    D: Device + Send,
    T: Talk + Drop + Sync,
    R: Wait + Clock + Threads + Abort + Copy + Drop + Send + Sync,
>(rt: R, alloc: Global, store: Store<D>, talk: T) -> (D, Option<Vec<u8>>) {
    let task = Task {
        talk,
        invited: AtomicU64::new(0),
        gone: AtomicU64::new(0),
        replies: Mutex::new(None),
    };
    let (device, first) = attended(rt, alloc, store, &task);
    let (device, attended) = if first == Ok(1) {
        (device, first)
    } else {
        task.invite_again();
        attended(rt, alloc, opened(&rt, alloc, device), &task)
    };
    assert_same(&rt, &attended, &Ok(1), &"attended");
    let replies = task.replies.lock(&rt).take();
    (device, replies)
}

/// Serves the frames of an input by a service: what the session ends with. This has no clause, so
/// that who calls it for a service of many parts is not shown what `serve` says of all of them.
pub(crate) fn served<S: Service, I: Read, W: Write>(
    alloc: Global,
    service: &mut S,
    input: &mut I,
    writer: &mut W,
) -> Result<u64, FrameError> {
    let mut replies = Replies::of(writer);
    serve(alloc, input, &mut replies, service, Kinds::WithLists, TURNS)
}

/// Serves the frames of an input, and adds what is written to `replies`. The result says whether
/// the session ends well.
pub(crate) fn session<D: Device, N: HubName, R: Wait + Clock, I: Read>(
    hub: &Hub<D, N, R>,
    senders: &Senders<N>,
    alloc: Global,
    cores: &Roster,
    clock: Counts,
    input: &mut I,
    replies: &mut Vec<u8>,
) -> bool {
    let Ok(reader) = hub.reader() else {
        return false;
    };
    let sender = senders.begin();
    let mut service = HubService::new(hub, reader, &TrustAll, clock, cores, Patient, sender);
    let ended = served(alloc, &mut service, input, replies);
    hub.give_back(service.into_reader());
    ended.is_ok()
}
