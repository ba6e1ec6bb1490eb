//! Tickets of another hub, and commands that are not accepted.

use crate::checks::{assert_same, assert_true};
use crate::host::Host;
use group_core::{Redeemed, SubmitError, Ticket};
use hub_claims::{HubError, HubName};
use path_db::Command;
use path_hub::{Hub, HubJob, Senders, Steps, with_hub};
use sector_dev::Device;
use std::alloc::Global;
use std::process::Abort;
use std::sync::Wait;
use std::thread::Threads;
use std::time::Clock;
use test_hub_scripts::acts::{Unwatched, keep, spend, submit};
use test_hub_scripts::stores::{ended, new_store, reserved};

/// Redeems another hub's ticket while a ticket of this one has the same place. Comes to that
/// ticket.
struct Redeems {
    ticket: Ticket,
}

/// Redeems a ticket of another hub, which comes back.
fn refused<S: Steps>(rt: &impl Abort, steps: &S, ticket: Ticket) -> Ticket {
    match steps.redeem(ticket) {
        Redeemed::Stranger(back) => back,
        Redeemed::Waiting(_back) => panic!(rt; "no stranger"),
        Redeemed::Committed(_) | Redeemed::Unknown(_) => panic!(rt; "redeemed"),
    }
}

impl<D: Device, R: Wait + Clock + Abort> HubJob<D, R> for Redeems {
    type Out = Ticket;

    fn run<N: HubName>(self, hub: &Hub<D, N, R>, senders: &Senders<N>) -> Ticket {
        let Redeems { ticket } = self;
        let rt = hub.handle();
        let host = Host(rt);
        let own = submit(&host, hub, &mut senders.begin(), &mut Unwatched);
        assert_same(rt, &own.place(), &ticket.place(), &"places");
        let back = refused(rt, hub, ticket);
        hub.stop();
        spend(&host, hub, &mut Unwatched, own);
        back
    }
}

/// Has a ticket redeemed at a hub of another home.
#[derive(Drop)]
struct Visits {
    alloc: Global,
}

/// Has a ticket redeemed at a hub of another home.
fn visited<R: Wait + Clock + Threads + Abort + Copy + Sync>(
    rt: R,
    alloc: Global,
    ticket: Ticket,
) -> Ticket {
    let store = new_store(&Host(&rt), alloc);
    match with_hub(rt, alloc, reserved(store), 2, Redeems { ticket }) {
        Ok((ticket, _end, _left)) => ticket,
        Err((_store, _job, e)) => panic!(&rt; "{e:?}"),
    }
}

impl<D: Device, R: Wait + Clock + Threads + Abort + Copy + Sync> HubJob<D, R> for Visits {
    type Out = ();

    fn run<N: HubName>(self, hub: &Hub<D, N, R>, senders: &Senders<N>) {
        let rt = hub.handle();
        let host = Host(rt);
        let ticket = submit(&host, hub, &mut senders.begin(), &mut Unwatched);
        let ticket = visited(*rt, self.alloc, ticket);
        let ticket = keep(&host, hub, &mut Unwatched, ticket);
        hub.stop();
        spend(&host, hub, &mut Unwatched, ticket);
    }
}

#[test]
fn strangers(rt: HostRuntime) {
    let host = Host(&rt);
    let alloc = rt.alloc();
    let store = new_store(&host, alloc);
    ended(
        &host,
        with_hub(&rt, alloc, reserved(store), 1, Visits { alloc }),
    );
}

/// How many commands may be pending.
const MOST_PENDING: u64 = 256;

/// Submits as many commands as may be pending, and a few more, before and after the state is
/// stopped.
#[derive(Drop)]
struct Fills {
    alloc: Global,
}

/// Sees that a command is not accepted, whether it is waited for or not.
fn assert_refused<D: Device, N: HubName, R: Wait + Clock + Abort>(
    hub: &Hub<D, N, R>,
    senders: &Senders<N>,
    wanted: SubmitError,
) {
    let rt = hub.handle();
    match hub.submit(&mut senders.begin(), Command::Purge(0)) {
        Ok(_ticket) => panic!(rt; "accepted"),
        Err((_command, refusal)) => assert_same(rt, &refusal, &wanted, &"submitted"),
    }
    let refusal = hub.register(&mut senders.begin(), Command::Purge(0)).err();
    let wanted = Some(HubError::Submit(wanted));
    assert_same(rt, &refusal, &wanted, &"registered");
}

/// As many tickets as may be given before any is redeemed.
fn tickets_of<S: Steps>(
    rt: &Host<impl Abort>,
    alloc: Global,
    steps: &S,
    sender: &mut S::Sender,
) -> Vec<Ticket> {
    let Ok(mut tickets) = Vec::with_capacity(alloc, MOST_PENDING as usize) else {
        panic!(rt.0; "out of memory");
    };
    for _ in 0..MOST_PENDING {
        if let Err(_ticket) = tickets.push(submit(rt, steps, sender, &mut Unwatched)) {
            panic!(rt.0; "out of memory");
        }
    }
    tickets
}

/// Redeems a ticket at a hub that has stopped.
fn assert_unknown<S: Steps>(rt: &impl Abort, steps: &S, ticket: Ticket) {
    let place = ticket.place();
    match steps.redeem(ticket) {
        Redeemed::Unknown(unknown) => assert_same(rt, &unknown, &place, &"places"),
        Redeemed::Committed(_receipt) => panic!(rt; "committed"),
        Redeemed::Waiting(_back) => panic!(rt; "a ticket waits"),
        Redeemed::Stranger(_back) => panic!(rt; "a stranger"),
    }
}

impl<D: Device, R: Wait + Clock + Abort> HubJob<D, R> for Fills {
    type Out = ();

    fn run<N: HubName>(self, hub: &Hub<D, N, R>, senders: &Senders<N>) {
        let rt = hub.handle();
        let mut tickets = tickets_of(&Host(rt), self.alloc, hub, &mut senders.begin());
        assert_refused(hub, senders, SubmitError::Busy);
        hub.stop();
        assert_refused(hub, senders, SubmitError::Stopped);
        for _ in 0..MOST_PENDING {
            let Some(ticket) = tickets.pop() else {
                break;
            };
            assert_unknown(rt, hub, ticket);
        }
        assert_true(rt, tickets.is_empty(), "all tickets are redeemed");
        tickets.destroy_empty();
    }
}

#[test]
fn full_tails_are_busy(rt: HostRuntime) {
    let host = Host(&rt);
    let alloc = rt.alloc();
    let store = new_store(&host, alloc);
    ended(
        &host,
        with_hub(&rt, alloc, reserved(store), 1, Fills { alloc }),
    );
}
