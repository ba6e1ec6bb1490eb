//! A thread that registers alone commits its commands itself, and does not wake the flusher.

use crate::checks::{assert_same, assert_true};
use crate::host::Host;
use crate::workloads::{Errand, Tasks, with_tasks};
use hub_claims::HubName;
use path_db::Command;
use path_hub::{Awaited, Hub, Senders, Steps};
use sector_dev::Device;
use std::process::Abort;
use std::sync::Wait;
use std::sync::atomic::{AtomicU64, Ordering};
use std::time::Clock;
use test_hub_scripts::stores::{Contents, assert_opens_to, new_store};

/// How many commands are registered, one after the other.
const COUNT: u64 = 100;

/// Registers commands, and counts those that woke the flusher.
#[derive(Drop)]
struct Registers {
    told: AtomicU64,
}

impl Errand for Registers {
    fn run<D: Device, N: HubName, R: Wait + Clock + Abort>(
        &self,
        hub: &Hub<D, N, R>,
        senders: &Senders<N>,
        _task: u64,
    ) {
        let rt = hub.handle();
        let seen = hub.changes(Awaited::Work);
        for place in 0..COUNT {
            match hub.register(&mut senders.begin(), Command::Purge(0)) {
                Ok(receipt) => assert_same(rt, &receipt.place(), &place, &"place"),
                Err(refusal) => panic!(rt; "{refusal:?}"),
            }
        }
        let told = hub.changes(Awaited::Work).wrapping_sub(seen);
        self.told.store(told, Ordering::SeqCst);
    }
}

// The flusher commits the first command. It may take some others, as it looks for commands every 10
// milliseconds.
#[test]
fn commands_alone_are_committed_where_they_are_awaited(rt: HostRuntime) {
    let host = Host(&rt);
    let alloc = rt.alloc();
    let registers = Registers {
        told: AtomicU64::new(0),
    };
    let tasks = Tasks::new(1, registers);
    let device = with_tasks(&rt, alloc, new_store(&host, alloc), &tasks);
    let told = tasks.errand.told.load(Ordering::SeqCst);
    assert_true(
        &rt,
        told < COUNT / 2,
        "few commands are left to the flusher",
    );
    let _device = assert_opens_to(&host, alloc, device, Contents::empty_at(COUNT));
}
