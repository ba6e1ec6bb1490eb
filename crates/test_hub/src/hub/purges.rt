//! Six hundred purges, one after the other.

use crate::checks::{assert_same, assert_true};
use crate::host::Host;
use crate::workloads::{Errand, Tasks, with_tasks};
use hub_claims::HubName;
use path_db::Command;
use path_hub::{Hub, Senders};
use sector_dev::Device;
use std::process::Abort;
use std::sync::Wait;
use std::sync::atomic::{AtomicBool, AtomicU64, Ordering};
use std::time::Clock;
use test_hub_scripts::stores::{Contents, assert_contents, contents_of, new_store, opened};

/// How many commands are registered. A journal of 516 sectors has room for 257 groups of one purge,
/// and the second seal waits for the checkpoint after the first one.
const PURGES: u64 = 600;

/// How many journals are sealed by then.
const SEALS: u64 = 2;

/// Registers purges, and counts those whose receipts have the next place, up to one that has not.
/// Then it looks at what the hub has counted.
#[derive(Drop)]
struct Purges {
    placed: AtomicU64,
    is_counted: AtomicBool,
}

impl Errand for Purges {
    fn run<D: Device, N: HubName, R: Wait + Clock + Abort>(
        &self,
        hub: &Hub<D, N, R>,
        senders: &Senders<N>,
        _task: u64,
    ) {
        for place in 0..PURGES {
            match hub.register(&mut senders.begin(), Command::Purge(0)) {
                Ok(receipt) if receipt.place() == place => {}
                _ => return,
            }
            self.placed.fetch_add(1, Ordering::SeqCst);
        }
        let (numbers, completed) = hub.numbers();
        let is_counted = numbers.place == PURGES
            && numbers.pending == 0
            && completed.groups == PURGES
            && completed.commits.count == PURGES
            && completed.seals == SEALS
            && completed.checkpoints >= 1;
        self.is_counted.store(is_counted, Ordering::SeqCst);
    }
}

#[test]
fn six_hundred_purges(rt: HostRuntime) {
    let host = Host(&rt);
    let store = new_store(&host, rt.alloc());
    let purges = Purges {
        placed: AtomicU64::new(0),
        is_counted: AtomicBool::new(false),
    };
    let tasks = Tasks::new(1, purges);
    let device = with_tasks(&rt, rt.alloc(), store, &tasks);
    let placed = tasks.errand.placed.load(Ordering::SeqCst);
    assert_same(&rt, &placed, &PURGES, &"places");
    let is_counted = tasks.errand.is_counted.load(Ordering::SeqCst);
    assert_true(&rt, is_counted, "the hub counts what is done");
    let store = opened(&host, rt.alloc(), device);
    assert_contents(&host, contents_of(&store), Contents::empty_at(PURGES));
    // The first half's checkpoint has epoch 1, and each further one has the next.
    assert_true(&rt, 2 <= store.epoch(), "there was a checkpoint");
    let _device = store.into_device();
}
