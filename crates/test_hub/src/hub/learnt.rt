//! A receipt that a reader has learnt is shown by the reader's next lookup.

use crate::checks::assert_same;
use crate::host::Host;
use crate::workloads::{Errand, Tasks, with_tasks};
use hub_claims::HubName;
use hub_readers::HubReader;
use path_hub::{Hub, Senders};
use sector_dev::Device;
use std::alloc::Global;
use std::process::Abort;
use std::sync::Wait;
use std::sync::atomic::{AtomicU64, Ordering};
use std::time::Clock;
use test_hub_scripts::stores::{Contents, assert_opens_to, new_store, query, register};

/// How many segments are registered.
const SEGMENTS: u8 = 4;

/// Registers segments one after the other, learns each receipt, and looks all segments up. Counts
/// the lookups that showed as many as were registered by then.
#[derive(Drop)]
struct Learns {
    alloc: Global,
    shown: AtomicU64,
}

impl Errand for Learns {
    fn run<D: Device, N: HubName, R: Wait + Clock + Abort>(
        &self,
        hub: &Hub<D, N, R>,
        senders: &Senders<N>,
        _task: u64,
    ) {
        let Ok(mut reader) = hub.reader() else {
            return;
        };
        for egress in 1..=SEGMENTS {
            let shown = shown_after(self.alloc, hub, senders, &mut reader, egress);
            if shown == Some(usize::from(egress)) {
                self.shown.fetch_add(1, Ordering::SeqCst);
            }
        }
        hub.give_back(reader);
    }
}

/// Registers the segment that is left by an interface, and learns the receipt: how many segments
/// are shown then.
fn shown_after<D: Device, N: HubName, R: Wait + Clock>(
    alloc: Global,
    hub: &Hub<D, N, R>,
    senders: &Senders<N>,
    reader: &mut HubReader<N>,
    egress: u8,
) -> Option<usize> {
    let command = register(alloc, 0x10, egress)?;
    let mut receipt = hub.register(&mut senders.begin(), command).ok()?;
    reader.learn(&mut receipt);
    Some(reader.lookup(&query(), 0).ok()?.len())
}

#[test]
fn learnt_receipt_is_shown(rt: HostRuntime) {
    let host = Host(&rt);
    let store = new_store(&host, rt.alloc());
    let learns = Learns {
        alloc: rt.alloc(),
        shown: AtomicU64::new(0),
    };
    let tasks = Tasks::new(1, learns);
    let device = with_tasks(&rt, rt.alloc(), store, &tasks);
    let shown = tasks.errand.shown.load(Ordering::SeqCst);
    assert_same(&rt, &shown, &u64::from(SEGMENTS), &"shown");
    let wanted = Contents {
        rows: 4,
        bytes: 4 * 93,
        place: 4,
    };
    let _device = assert_opens_to(&host, rt.alloc(), device, wanted);
}
