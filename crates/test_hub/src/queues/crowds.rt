//! Sixty-four tasks that hand commands in ahead while the checkpointer works.

use crate::checks::assert_same;
use crate::host::Host;
use crate::queues::said::{Handed, Said, hand_in, push, room, settle};
use crate::workloads::{Errand, Tasks, with_tasks};
use hub_claims::HubName;
use path_hub::{Hub, Senders};
use sector_dev::Device;
use std::alloc::Global;
use std::process::Abort;
use std::sync::Wait;
use std::sync::atomic::{AtomicU64, Ordering};
use std::time::Clock;
use test_hub_scripts::folds::{Act, Ledger, act_of, command_of, counts_of};
use test_hub_scripts::stores::{Contents, assert_opens_to, new_store};

/// How many tasks there are.
const GUESTS: u64 = 64;

/// How many commands a task hands in before the first is answered.
const AHEAD: u64 = 32;

/// How often a task does so.
const ROUNDS: u64 = 4;

/// How many commands there are.
const ALL: u64 = GUESTS * AHEAD * ROUNDS;

/// How many journals are sealed by then at least. A journal has 516 sectors, the commands are 256
/// groups of 32, and a group takes two sectors at least.
const SEALS: u64 = 1;

/// Each task hands commands in ahead, and enters what they are answered.
#[derive(Drop)]
struct Sends {
    alloc: Global,
    ledger: Ledger,
    seals: AtomicU64,
    checkpoints: AtomicU64,
}

impl Sends {
    /// Hands a command in.
    fn hand_in<D: Device, N: HubName, R: Wait + Clock + Abort>(
        &self,
        hub: &Hub<D, N, R>,
        senders: &Senders<N>,
        act: Act,
    ) -> Handed<N> {
        match command_of(self.alloc, act) {
            Some(command) => hand_in(hub, senders, command),
            None => panic!(hub.handle(); "out of memory"),
        }
    }

    /// Hands commands in, from the one of this index on.
    fn hand_in_all<D: Device, N: HubName, R: Wait + Clock + Abort>(
        &self,
        hub: &Hub<D, N, R>,
        senders: &Senders<N>,
        task: u64,
        from: u64,
    ) -> Vec<Handed<N>> {
        let rt = hub.handle();
        let mut all = room(rt, self.alloc, AHEAD);
        for number in 0..AHEAD {
            let act = act_of(task, from.saturating_add(number) as usize);
            let handed = self.hand_in(hub, senders, act);
            push(rt, &mut all, handed);
        }
        all
    }

    /// Enters what a task's command is answered.
    fn enter<D: Device, N: HubName, R: Wait + Clock + Abort>(
        &self,
        hub: &Hub<D, N, R>,
        by: (u64, Act),
        handed: Handed<N>,
    ) {
        let rt = hub.handle();
        match settle(hub, handed) {
            (Said::Committed(place), Some(outcome)) => {
                self.ledger.enter(&Host(rt), place, by, counts_of(outcome));
            }
            (said, _outcome) => panic!(rt; "{by:?}: {said:?}"),
        }
    }

    /// Hands commands in, from the one of this index on, and enters what they are answered.
    fn send<D: Device, N: HubName, R: Wait + Clock + Abort>(
        &self,
        hub: &Hub<D, N, R>,
        senders: &Senders<N>,
        task: u64,
        from: u64,
    ) {
        let mut index = from;
        for handed in self.hand_in_all(hub, senders, task, from) {
            self.enter(hub, (task, act_of(task, index as usize)), handed);
            index = index.saturating_add(1);
        }
    }
}

impl Errand for Sends {
    fn run<D: Device, N: HubName, R: Wait + Clock + Abort>(
        &self,
        hub: &Hub<D, N, R>,
        senders: &Senders<N>,
        task: u64,
    ) {
        for round in 0..ROUNDS {
            self.send(hub, senders, task, round.saturating_mul(AHEAD));
        }
        let (_numbers, completed) = hub.numbers();
        self.seals.fetch_max(completed.seals, Ordering::SeqCst);
        self.checkpoints
            .fetch_max(completed.checkpoints, Ordering::SeqCst);
    }
}

#[test]
fn sixty_four_tasks_beside_checkpoints(rt: HostRuntime) {
    let host = Host(&rt);
    let alloc = rt.alloc();
    let sends = Sends {
        alloc,
        ledger: Ledger::new(&host, alloc, ALL as usize),
        seals: AtomicU64::new(0),
        checkpoints: AtomicU64::new(0),
    };
    let tasks = Tasks::new(GUESTS, sends);
    let device = with_tasks(&rt, alloc, new_store(&host, alloc), &tasks);
    assert_same(&rt, &tasks.missed(), &0, &"missed");
    let rows = tasks.errand.ledger.rows(&host);
    let seals = tasks.errand.seals.load(Ordering::SeqCst);
    let checkpoints = tasks.errand.checkpoints.load(Ordering::SeqCst);
    let is_folded = SEALS <= seals && 1 <= checkpoints;
    assert_same(&rt, &is_folded, &true, &(seals, checkpoints));
    let wanted = Contents {
        rows,
        bytes: (rows as u64).saturating_mul(93),
        place: ALL,
    };
    let _device = assert_opens_to(&host, alloc, device, wanted);
}
