//! Sessions beside each other over one hub, each in a thread of its own.

use crate::checks::assert_same;
use crate::host::Host;
use crate::service::clocks::Counts;
use crate::service::stores::cores;
use crate::service::tasks;
use hub_claims::{HubError, HubName, Patient};
use path_hub::{Hub, Reserved, Senders, Workload, with_workload};
use path_session::{FrameError, HubService};
use sector_dev::Device;
use seg_check::TrustAll;
use std::alloc::Global;
use std::io::Write;
use std::process::Abort;
use std::sync::Wait;
use std::sync::atomic::{AtomicU64, Ordering};
use std::thread::{Threads, sleep};
use std::time::{Clock, Duration};
use store_open::Store;
use test_hub_scripts::stores::opened;

/// How long the sessions are waited for, in naps.
const MOST_NAPS: u64 = 8000;

/// The length of a nap, in milliseconds.
const NAP: u64 = 5;

/// What sessions do, each by its number, counted from 0.
pub(crate) trait Sessions {
    fn run<D: Device, N: HubName, R: Wait + Clock + Abort>(
        &self,
        hub: &Hub<D, N, R>,
        senders: &Senders<N>,
        session: u64,
    );
}

/// A number of sessions. Where they do not come to an end, the test does.
#[derive(Drop)]
struct Crowd<'a, S> {
    sessions: &'a S,
    count: u64,
    invited: AtomicU64,
    gone: AtomicU64,
}

impl<S: Sessions, D: Device, R: Wait + Clock + Abort> Workload<D, R> for Crowd<'_, S> {
    type Task = u64;

    fn next<N: HubName>(&self, hub: &Hub<D, N, R>) -> Option<u64> {
        let session = self.invited.fetch_add(1, Ordering::SeqCst);
        if session < self.count {
            return Some(session);
        }
        for _ in 0..MOST_NAPS {
            if self.gone.load(Ordering::SeqCst) == self.count {
                return None;
            }
            sleep(hub.handle(), Duration::from_millis(NAP));
        }
        panic!(hub.handle(); "a session waits for ever")
    }

    fn attend<N: HubName>(&self, hub: &Hub<D, N, R>, senders: &Senders<N>, session: u64) {
        self.sessions.run(hub, senders, session);
        self.gone.fetch_add(1, Ordering::SeqCst);
    }

    fn miss<N: HubName>(&self, _hub: &Hub<D, N, R>, _session: u64) {
        self.gone.fetch_add(1, Ordering::SeqCst);
    }
}

impl<S> Crowd<'_, S> {
    /// Lets `next` return the sessions once more.
    fn invite_again(&self) {
        self.invited.store(0, Ordering::SeqCst);
        self.gone.store(0, Ordering::SeqCst);
    }
}

/// Runs the workload over a store: the device, and how many sessions there were.
fn attended<
    D: Device + Send,
    S: Sessions + Sync,
    R: Wait + Clock + Threads + Abort + Copy + Drop + Send + Sync,
>(rt: R, alloc: Global, store: Store<D>, crowd: &Crowd<'_, S>) -> (D, Result<u64, HubError>) {
    let (store, release) = Reserved::of(store);
    let (end, _left, attended) = with_workload(rt, alloc, store, 1, crowd);
    (end.into_device(release), attended)
}

/// Runs this number of sessions over a store: the device. Where memory is refused for the hub or
/// for the thread of the only session, it is asked for once more.
pub(crate) fn crowded<
    D: Device + Send,
    S: Sessions + Sync,
    R: Wait + Clock + Threads + Abort + Copy + Drop + Send + Sync,
>(rt: R, alloc: Global, store: Store<D>, sessions: &S, count: u64) -> D {
    let crowd = Crowd {
        sessions,
        count,
        invited: AtomicU64::new(0),
        gone: AtomicU64::new(0),
    };
    let (device, first) = attended(rt, alloc, store, &crowd);
    let (device, attended) = if matches!(first, Ok(some) if some > 0) {
        (device, first)
    } else {
        crowd.invite_again();
        attended(rt, alloc, opened(&Host(rt), alloc, device), &crowd)
    };
    assert_same(&rt, &attended, &Ok(count), &"attended");
    device
}

/// Serves the frames of an input over a writer, by a clock whose first moment is the one after
/// this: what the session ended with.
pub(crate) fn served<D: Device, N: HubName, R: Wait + Clock + Abort, W: Write>(
    hub: &Hub<D, N, R>,
    senders: &Senders<N>,
    alloc: Global,
    moment: u64,
    frames: &[u8],
    writer: &mut W,
) -> Result<u64, FrameError> {
    let rt = hub.handle();
    let roster = cores(rt, alloc);
    let Ok(reader) = hub.reader() else {
        panic!(rt; "no reader");
    };
    let mut service = HubService::new(
        hub,
        reader,
        &TrustAll,
        Counts::after(moment),
        &roster,
        Patient,
        senders.begin(),
    );
    let mut input = frames;
    let ended = tasks::served(alloc, &mut service, &mut input, writer);
    hub.give_back(service.into_reader());
    ended
}
