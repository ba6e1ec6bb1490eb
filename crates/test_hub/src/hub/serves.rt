//! Tasks that register and look up at the same time.

use crate::checks::assert_same;
use crate::host::Host;
use crate::workloads::{Errand, Tasks, with_tasks};
use hub_claims::HubName;
use hub_readers::HubReader;
use path_hub::{Hub, Senders};
use sector_dev::Device;
use std::alloc::Global;
use std::process::Abort;
use std::sync::Wait;
use std::sync::atomic::{AtomicU64, Ordering};
use std::time::Clock;
use test_hub_scripts::stores::{
    Contents, WIDE, assert_opens_to, formatted, opened, query_from, register,
};

/// How many tasks there are.
const GUESTS: u64 = 16;

/// How many segments each of them registers.
const SEGMENTS: u8 = 8;

/// The least that the first AS of a task's segments has beyond 1-ff00:0:100.
const ORIGIN: u64 = 0x20;

/// Registers segments of an AS that is the task's own, and looks them up after each. Counts the
/// lookups that showed as many as were registered by then.
#[derive(Drop)]
struct Serves {
    alloc: Global,
    shown: AtomicU64,
}

impl Serves {
    /// Registers one segment, and learns the receipt: how many are shown then.
    fn shown_after<D: Device, N: HubName, R: Wait + Clock>(
        &self,
        hub: &Hub<D, N, R>,
        senders: &Senders<N>,
        reader: &mut HubReader<N>,
        origin: u8,
        egress: u8,
    ) -> Option<usize> {
        let command = register(self.alloc, origin, egress)?;
        let mut receipt = hub.register(&mut senders.begin(), command).ok()?;
        reader.learn(&mut receipt);
        Some(reader.lookup(&query_from(origin), 0).ok()?.len())
    }
}

impl Errand for Serves {
    fn run<D: Device, N: HubName, R: Wait + Clock + Abort>(
        &self,
        hub: &Hub<D, N, R>,
        senders: &Senders<N>,
        task: u64,
    ) {
        let Ok(origin) = u8::try_from(ORIGIN.saturating_add(task)) else {
            return;
        };
        let Ok(mut reader) = hub.reader() else {
            return;
        };
        for egress in 1..=SEGMENTS {
            let shown = self.shown_after(hub, senders, &mut reader, origin, egress);
            if shown == Some(usize::from(egress)) {
                self.shown.fetch_add(1, Ordering::SeqCst);
            }
        }
        hub.give_back(reader);
    }
}

#[test]
fn workload_serves_all(rt: HostRuntime) {
    let host = Host(&rt);
    let alloc = rt.alloc();
    let store = opened(&host, alloc, formatted(&host, alloc, WIDE));
    let serves = Serves {
        alloc,
        shown: AtomicU64::new(0),
    };
    let tasks = Tasks::new(GUESTS, serves);
    let device = with_tasks(&rt, alloc, store, &tasks);
    let shown = tasks.errand.shown.load(Ordering::SeqCst);
    assert_same(&rt, &shown, &128, &"shown");
    let wanted = Contents {
        rows: 128,
        bytes: 128 * 93,
        place: 128,
    };
    let _device = assert_opens_to(&host, alloc, device, wanted);
}
