//! A lookup is answered while a sync of the flusher is held, under the lock.

use crate::checks::assert_same;
use crate::host::Host;
use crate::hub::stops::shown;
use crate::workloads::{Errand, Tasks, with_tasks};
use group_core::Ticket;
use hub_claims::HubName;
use hub_readers::{HubNote, HubReader};
use path_hub::{Hub, Senders, Steps};
use sector_dev::Device;
use std::alloc::Global;
use std::process::Abort;
use std::sync::{Mutex, Wait};
use std::time::Clock;
use test_fault_devices::HeldDevice;
use test_hub_scripts::doors::{Door, Holds, Latch};
use test_hub_scripts::stores::{
    Contents, LEAST, assert_opens_to, formatted, opened, receipt_of, register,
};

/// What the lookups show: before the sync is held, while it is, and once the command is committed.
type Shown = [usize; 3];

/// Looks up before, while and after a sync of the flusher is held.
#[derive(Drop)]
struct Looks<'a> {
    alloc: Global,
    door: &'a Door,
    shown: Mutex<Option<Shown>>,
}

impl Looks<'_> {
    /// Registers a segment, and learns the receipt: how many segments a reader shows then.
    fn look_before<D: Device, N: HubName, R: Wait + Clock>(
        &self,
        hub: &Hub<D, N, R>,
        senders: &Senders<N>,
        reader: &mut HubReader<N>,
    ) -> Option<usize> {
        let command = register(self.alloc, 0x10, 1)?;
        let mut first = hub.register(&mut senders.begin(), command).ok()?;
        reader.learn(&mut first);
        shown(reader)
    }

    /// Submits the registration of another segment, whose sync will be held.
    fn submit<S: Steps>(
        &self,
        rt: &impl Wait,
        steps: &S,
        sender: &mut S::Sender,
    ) -> Option<Ticket> {
        let second = register(self.alloc, 0x10, 2)?;
        self.door.arm(rt);
        match steps.submit(sender, second) {
            Ok(ticket) => Some(ticket),
            Err(_refused) => None,
        }
    }

    /// How many segments a reader shows while the sync is held. `None` where it is not held.
    fn look_meanwhile<N: HubName, R: Wait + Clock>(
        &self,
        rt: &R,
        reader: &mut HubReader<N>,
    ) -> Option<usize> {
        let is_held = self.door.is_held_soon(rt);
        let held = shown(reader);
        self.door.open(rt);
        if is_held { held } else { None }
    }

    /// Looks up before, while and after the sync is held.
    fn look<D: Device, N: HubName, R: Wait + Clock + Abort>(
        &self,
        hub: &Hub<D, N, R>,
        senders: &Senders<N>,
        reader: &mut HubReader<N>,
    ) -> Option<Shown> {
        let before = self.look_before(hub, senders, reader)?;
        let rt = hub.handle();
        let ticket = self.submit(rt, hub, &mut senders.begin())?;
        let held = self.look_meanwhile(rt, reader);
        let after = look_after(rt, hub, reader, ticket);
        Some([before, held?, after?])
    }

    /// What a reader of the hub shows.
    fn shown<D: Device, N: HubName, R: Wait + Clock + Abort>(
        &self,
        hub: &Hub<D, N, R>,
        senders: &Senders<N>,
    ) -> Option<Shown> {
        let mut reader = hub.reader().ok()?;
        let shown = self.look(hub, senders, &mut reader);
        hub.give_back(reader);
        shown
    }
}

/// Learns the receipt of a ticket: how many segments a reader shows then.
fn look_after<N: HubName, S: Steps<Note = HubNote<N>>>(
    rt: &impl Abort,
    steps: &S,
    reader: &mut HubReader<N>,
    ticket: Ticket,
) -> Option<usize> {
    let mut receipt = receipt_of(&Host(rt), steps, ticket)?;
    reader.learn_note(receipt.take_note()?);
    shown(reader)
}

impl Errand for Looks<'_> {
    fn run<D: Device, N: HubName, R: Wait + Clock + Abort>(
        &self,
        hub: &Hub<D, N, R>,
        senders: &Senders<N>,
        _task: u64,
    ) {
        let shown = self.shown(hub, senders);
        *self.shown.lock(hub.handle()) = shown;
    }
}

#[test]
fn held_sync_lookup(rt: HostRuntime) {
    let host = Host(&rt);
    let alloc = rt.alloc();
    let door = Door::new(Latch::Open);
    let holds = Holds {
        rt: &rt,
        door: &door,
    };
    let device = HeldDevice::new(formatted(&host, alloc, LEAST), holds);
    let store = opened(&host, alloc, device);
    let looks = Looks {
        alloc,
        door: &door,
        shown: Mutex::new(None),
    };
    let tasks = Tasks::new(1, looks);
    let device = with_tasks(&rt, alloc, store, &tasks);
    let shown = *tasks.errand.shown.lock(&rt);
    assert_same(&rt, &shown, &Some([1, 1, 2]), &"shown");
    assert_same(&rt, &door.latch(&rt), &Latch::Open, &"the door");
    let (device, _gate) = device.into_parts();
    let wanted = Contents {
        rows: 2,
        bytes: 2 * 93,
        place: 2,
    };
    let _device = assert_opens_to(&host, alloc, device, wanted);
}
