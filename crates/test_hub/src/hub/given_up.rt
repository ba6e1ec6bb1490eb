//! A hub whose state was stopped at a stranger.

use crate::checks::assert_same;
use crate::host::Host;
use crate::workloads::{Errand, Tasks, with_tasks};
use group_core::SubmitError;
use hub_claims::{HubError, HubName};
use path_db::Command;
use path_hub::{Hub, Senders, Steps};
use sector_dev::Device;
use std::alloc::Global;
use std::process::Abort;
use std::sync::Wait;
use std::time::Clock;
use test_hub_scripts::acts::{Unwatched, spend, submit};
use test_hub_scripts::fakes::Fake;
use test_hub_scripts::stores::{Contents, LEAST, assert_opens_to, formatted, new_store};

/// Gives up a value of another state at a hub, as an actor does with a stranger, and registers a
/// command then.
#[derive(Drop)]
struct GivesUp {
    alloc: Global,
}

impl Errand for GivesUp {
    fn run<D: Device, N: HubName, R: Wait + Clock + Abort>(
        &self,
        hub: &Hub<D, N, R>,
        senders: &Senders<N>,
        _task: u64,
    ) {
        let rt = hub.handle();
        let host = Host(rt);
        let fake = Fake::new(host, self.alloc, formatted(&host, self.alloc, LEAST));
        let ticket = submit(&host, &fake, &mut (), &mut Unwatched);
        match fake.stage() {
            Ok(staged) => hub.give_up(staged),
            Err(refused) => panic!(rt; "{refused:?}"),
        }
        fake.halt();
        spend(&host, &fake, &mut Unwatched, ticket);
        fake.end();
        let refused = hub.register(&mut senders.begin(), Command::Purge(0)).err();
        let wanted = Some(HubError::Submit(SubmitError::Stopped));
        assert_same(rt, &refused, &wanted, &"refused");
    }
}

#[test]
fn workloads_hear_of_a_stranger(rt: HostRuntime) {
    let host = Host(&rt);
    let alloc = rt.alloc();
    let tasks = Tasks::new(1, GivesUp { alloc });
    let device = with_tasks(&rt, alloc, new_store(&host, alloc), &tasks);
    assert_same(&rt, &tasks.strangers(), &1, &"strangers");
    let _device = assert_opens_to(&host, alloc, device, Contents::empty_at(0));
}
