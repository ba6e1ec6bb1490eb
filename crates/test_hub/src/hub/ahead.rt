//! Commands that are handed in before the answer to the first is waited for.

use crate::checks::assert_same;
use crate::host::Host;
use crate::workloads::{Errand, Tasks, with_tasks};
use group_core::SubmitError;
use hub_claims::{HubClaim, HubError, HubName};
use path_db::Command;
use path_hub::{Hub, HubJob, Senders, with_hub};
use sector_dev::Device;
use std::alloc::Global;
use std::process::Abort;
use std::sync::Wait;
use std::sync::atomic::{AtomicU64, Ordering};
use std::time::Clock;
use test_hub_scripts::acts::{Unwatched, flush};
use test_hub_scripts::stores::{Contents, assert_opens_to, ended, new_store, reserved};

/// How many purges are handed in ahead: more than a group has.
const AHEAD: u64 = 40;

/// Hands purges in, drops the first claims, and waits for the answers to the others. Counts the
/// answers whose place is that of the claim's number.
#[derive(Drop)]
struct HandsIn {
    alloc: Global,
    settled: AtomicU64,
}

/// Hands purges in, drops the first claims, and keeps the others.
fn hand_in_all<D: Device, N: HubName, R: Wait + Clock>(
    hub: &Hub<D, N, R>,
    senders: &Senders<N>,
    claims: &mut Vec<HubClaim<N>>,
) -> Option<()> {
    for _ in 0..AHEAD {
        let _dropped = hub.hand_in(&mut senders.begin(), Command::Purge(0)).ok()?;
    }
    for _ in 0..AHEAD {
        let claim = hub.hand_in(&mut senders.begin(), Command::Purge(0)).ok()?;
        claims.push(claim).ok()?;
    }
    Some(())
}

impl HandsIn {
    /// The claims of the purges that are waited for.
    fn claims<D: Device, N: HubName, R: Wait + Clock>(
        &self,
        hub: &Hub<D, N, R>,
        senders: &Senders<N>,
    ) -> Option<Vec<HubClaim<N>>> {
        let mut claims = Vec::with_capacity(self.alloc, AHEAD as usize).ok()?;
        hand_in_all(hub, senders, &mut claims)?;
        Some(claims)
    }
}

impl Errand for HandsIn {
    fn run<D: Device, N: HubName, R: Wait + Clock + Abort>(
        &self,
        hub: &Hub<D, N, R>,
        senders: &Senders<N>,
        _task: u64,
    ) {
        let Some(claims) = self.claims(hub, senders) else {
            return;
        };
        for claim in claims {
            let number = claim.number();
            if let Ok(receipt) = hub.settle(claim) {
                if receipt.place() == number {
                    self.settled.fetch_add(1, Ordering::SeqCst);
                }
            }
        }
    }
}

#[test]
fn commands_handed_in_ahead(rt: HostRuntime) {
    let host = Host(&rt);
    let alloc = rt.alloc();
    let hands_in = HandsIn {
        alloc,
        settled: AtomicU64::new(0),
    };
    let tasks = Tasks::new(1, hands_in);
    let device = with_tasks(&rt, alloc, new_store(&host, alloc), &tasks);
    let settled = tasks.errand.settled.load(Ordering::SeqCst);
    assert_same(&rt, &settled, &AHEAD, &"settled");
    let _device = assert_opens_to(&host, alloc, device, Contents::empty_at(80));
}

/// Hands purges in at a hub that has no threads: one of them is committed, the next one is under
/// way when the state is stopped, and the last one comes after that.
#[derive(Clone, Copy)]
struct Stops;

/// Hands a purge in, which is not refused.
fn handed_in<D: Device, N: HubName, R: Wait + Clock + Abort>(
    hub: &Hub<D, N, R>,
    senders: &Senders<N>,
) -> HubClaim<N> {
    match hub.hand_in(&mut senders.begin(), Command::Purge(0)) {
        Ok(claim) => claim,
        Err(e) => panic!(hub.handle(); "{e:?}"),
    }
}

impl<D: Device, R: Wait + Clock + Abort> HubJob<D, R> for Stops {
    type Out = (Option<u64>, [Option<HubError>; 2]);

    fn run<N: HubName>(
        self,
        hub: &Hub<D, N, R>,
        senders: &Senders<N>,
    ) -> (Option<u64>, [Option<HubError>; 2]) {
        let rt = hub.handle();
        let first = handed_in(hub, senders);
        flush(&Host(rt), hub, &mut Unwatched);
        let second = handed_in(hub, senders);
        hub.stop();
        let third = hub.hand_in(&mut senders.begin(), Command::Purge(0)).err();
        let place = hub.settle(first).ok().map(|receipt| receipt.place());
        (place, [hub.settle(second).err(), third])
    }
}

#[test]
fn stop_answers_what_is_under_way(rt: HostRuntime) {
    let host = Host(&rt);
    let alloc = rt.alloc();
    let store = new_store(&host, alloc);
    let (place, refused) = ended(&host, with_hub(&rt, alloc, reserved(store), 1, Stops));
    assert_same(&rt, &place, &Some(0), &"the first");
    let wanted = [
        Some(HubError::Stopped(1)),
        Some(HubError::Submit(SubmitError::Stopped)),
    ];
    assert_same(&rt, &refused, &wanted, &"the others");
}
