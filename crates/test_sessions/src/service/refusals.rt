//! What a hub refuses, as a service replies it.

use crate::checks::assert_true;
use crate::service::clocks::Counts;
use crate::service::frames::{FOUND, INSERTED, PURGE, REMOVE, assert_replied, joined, register_by};
use crate::service::stores::{assert_opens_to, cores, failing_store, new_store, old_store};
use crate::service::tasks::{Talk, nap, session, talked};
use group_core::{Redeemed, Ticket};
use hub_claims::HubName;
use path_db::Command;
use path_hub::{Hub, HubJob, Reserved, Senders, Steps, with_hub};
use sector_dev::Device;
use seg_lookup::Roster;
use std::alloc::Global;
use std::process::Abort;
use std::sync::Wait;
use std::time::Clock;

/// How many commands may be pending.
const MOST_PENDING: u64 = 256;

/// How many rows of the segments here a store has room for.
const MOST_ROWS: u8 = 10;

/// How many purges seal a journal of 516 sectors, and are committed after the seal: there is room
/// for 257 groups of one purge.
const PURGES: u64 = 300;

/// How often a removal is tried.
const MOST_TRIES: u64 = 4000;

/// Adds what a session of these frames is replied. The result says whether the session ends well.
fn reply<D: Device, N: HubName, R: Wait + Clock>(
    hub: &Hub<D, N, R>,
    senders: &Senders<N>,
    alloc: Global,
    cores: &Roster,
    frames: &[u8],
    replies: &mut Vec<u8>,
) -> bool {
    let mut input = frames;
    session(
        hub,
        senders,
        alloc,
        cores,
        Counts::after(0),
        &mut input,
        replies,
    )
}

/// Adds what a session is replied that registers the segment which is left by this interface.
fn reply_to_registration<D: Device, N: HubName, R: Wait + Clock>(
    hub: &Hub<D, N, R>,
    senders: &Senders<N>,
    alloc: Global,
    cores: &Roster,
    egress: u8,
    replies: &mut Vec<u8>,
) -> bool {
    let frame = register_by(egress);
    reply(hub, senders, alloc, cores, frame.as_slice(), replies)
}

/// Has as many commands pending as may be, over a hub that commits nothing, and then stops it.
/// Comes to what purges are replied.
#[derive(Drop)]
struct Fills {
    alloc: Global,
}

/// Submits as many commands as may be pending.
fn pending<S: Steps>(
    rt: &impl Abort,
    alloc: Global,
    steps: &S,
    sender: &mut S::Sender,
) -> Vec<Ticket> {
    let Ok(mut tickets) = Vec::with_capacity(alloc, MOST_PENDING as usize) else {
        panic!(rt; "out of memory");
    };
    for _ in 0..MOST_PENDING {
        let Ok(ticket) = steps.submit(sender, Command::Purge(0)) else {
            panic!(rt; "not accepted");
        };
        if let Err(_ticket) = tickets.push(ticket) {
            panic!(rt; "out of memory");
        }
    }
    tickets
}

/// Redeems a ticket at a hub that has stopped.
fn redeem<S: Steps>(rt: &impl Abort, steps: &S, ticket: Ticket) {
    match steps.redeem(ticket) {
        Redeemed::Unknown(_place) => {}
        Redeemed::Committed(_receipt) => panic!(rt; "committed"),
        Redeemed::Waiting(_back) => panic!(rt; "a ticket waits"),
        Redeemed::Stranger(_back) => panic!(rt; "a stranger"),
    }
}

/// Redeems all tickets at a hub that has stopped.
fn redeem_all<S: Steps>(rt: &impl Abort, steps: &S, tickets: Vec<Ticket>) {
    let mut tickets = tickets;
    for _ in 0..MOST_PENDING {
        let Some(ticket) = tickets.pop() else {
            break;
        };
        redeem(rt, steps, ticket);
    }
    assert_true(rt, tickets.is_empty(), "all tickets are redeemed");
    tickets.destroy_empty();
}

impl<D: Device, R: Wait + Clock + Abort> HubJob<D, R> for Fills {
    type Out = Option<Vec<u8>>;

    fn run<N: HubName>(self, hub: &Hub<D, N, R>, senders: &Senders<N>) -> Option<Vec<u8>> {
        let rt = hub.handle();
        let roster = cores(rt, self.alloc);
        let purge = joined(rt, self.alloc, &[PURGE]);
        let mut replies = Vec::new(self.alloc);
        let tickets = pending(rt, self.alloc, hub, &mut senders.begin());
        let busy = reply(
            hub,
            senders,
            self.alloc,
            &roster,
            purge.as_slice(),
            &mut replies,
        );
        hub.stop();
        let stopped = reply(
            hub,
            senders,
            self.alloc,
            &roster,
            purge.as_slice(),
            &mut replies,
        );
        redeem_all(rt, hub, tickets);
        (busy && stopped).then_some(replies)
    }
}

#[test]
fn pending_commands_are_busy(rt: HostRuntime) {
    let alloc = rt.alloc();
    let (store, _release) = Reserved::of(new_store(&rt, alloc));
    match with_hub(&rt, alloc, store, 1, Fills { alloc }) {
        Ok((written, _end, _left)) => {
            assert_replied(&rt, alloc, written, &["00000002ff51", "00000002ff54"])
        }
        Err((_store, _job, e)) => panic!(rt; "{e:?}"),
    }
}

/// Registers one segment more than there is room for.
#[derive(Drop)]
struct Overflows {
    alloc: Global,
}

/// Registers as many segments as there is room for. The result says whether all sessions end well.
fn fill<D: Device, N: HubName, R: Wait + Clock>(
    hub: &Hub<D, N, R>,
    senders: &Senders<N>,
    alloc: Global,
    cores: &Roster,
) -> bool {
    let mut replies = Vec::new(alloc);
    let mut is_well = true;
    for egress in 1..=MOST_ROWS {
        let ended = reply_to_registration(hub, senders, alloc, cores, egress, &mut replies);
        is_well = is_well && ended;
    }
    is_well
}

impl Talk for Overflows {
    fn talk<D: Device, N: HubName, R: Wait + Clock + Abort>(
        &self,
        hub: &Hub<D, N, R>,
        senders: &Senders<N>,
    ) -> Option<Vec<u8>> {
        let alloc = self.alloc;
        let roster = cores(hub.handle(), alloc);
        let mut replies = Vec::new(alloc);
        let is_filled = fill(hub, senders, alloc, &roster);
        let next = MOST_ROWS + 1;
        let is_well = reply_to_registration(hub, senders, alloc, &roster, next, &mut replies);
        (is_filled && is_well).then_some(replies)
    }
}

#[test]
fn rows_above_the_area_are_full(rt: HostRuntime) {
    let alloc = rt.alloc();
    let store = new_store(&rt, alloc);
    let (device, written) = talked(&rt, alloc, store, Overflows { alloc });
    assert_replied(&rt, alloc, written, &["00000002ff52"]);
    assert_opens_to(
        &rt,
        alloc,
        device,
        usize::from(MOST_ROWS),
        u64::from(MOST_ROWS),
    );
}

/// A removal over a store of version 1, before and after the checkpoint that makes it version 2.
#[derive(Drop)]
struct Upgrades {
    alloc: Global,
}

/// Tries a removal, and adds what it is replied, where that is not what there is already: the
/// refusal because the store is old. The result says whether the session ends well. It is `None`
/// where the removal is refused so.
fn try_removal<D: Device, N: HubName, R: Wait + Clock>(
    hub: &Hub<D, N, R>,
    senders: &Senders<N>,
    alloc: Global,
    cores: &Roster,
    frame: &[u8],
    replies: &mut Vec<u8>,
) -> Option<bool> {
    let mut more = Vec::new(alloc);
    let is_well = reply(hub, senders, alloc, cores, frame, &mut more);
    if is_well && more.as_slice() == replies.as_slice() {
        return None;
    }
    Some(is_well && replies.extend_from_slice(more.as_slice()).is_ok())
}

/// Adds what a removal is replied, once it is not refused because the store is old. The result says
/// whether its session ends well.
fn removed<D: Device, N: HubName, R: Wait + Clock + Abort>(
    hub: &Hub<D, N, R>,
    senders: &Senders<N>,
    alloc: Global,
    cores: &Roster,
    frame: &[u8],
    replies: &mut Vec<u8>,
) -> bool {
    for _ in 0..MOST_TRIES {
        if let Some(is_well) = try_removal(hub, senders, alloc, cores, frame, replies) {
            return is_well;
        }
        nap(hub.handle());
    }
    panic!(hub.handle(); "the store stays old")
}

/// Sends the purges that seal the journal, and more. The result says whether all sessions end well.
fn seal<D: Device, N: HubName, R: Wait + Clock + Abort>(
    hub: &Hub<D, N, R>,
    senders: &Senders<N>,
    alloc: Global,
    cores: &Roster,
) -> bool {
    let purge = joined(hub.handle(), alloc, &[PURGE]);
    let mut replies = Vec::new(alloc);
    let mut is_well = true;
    for _ in 0..PURGES {
        let ended = reply(hub, senders, alloc, cores, purge.as_slice(), &mut replies);
        is_well = is_well && ended;
    }
    is_well
}

impl Talk for Upgrades {
    fn talk<D: Device, N: HubName, R: Wait + Clock + Abort>(
        &self,
        hub: &Hub<D, N, R>,
        senders: &Senders<N>,
    ) -> Option<Vec<u8>> {
        let alloc = self.alloc;
        let roster = cores(hub.handle(), alloc);
        let remove = joined(hub.handle(), alloc, &[REMOVE]);
        let mut replies = Vec::new(alloc);
        let refused = reply(hub, senders, alloc, &roster, &remove, &mut replies);
        let sealed = seal(hub, senders, alloc, &roster);
        let removed = removed(hub, senders, alloc, &roster, &remove, &mut replies);
        (refused && sealed && removed).then_some(replies)
    }
}

#[test]
fn old_store_keeps_no_removal(rt: HostRuntime) {
    let alloc = rt.alloc();
    let store = old_store(&rt, alloc);
    let (device, written) = talked(&rt, alloc, store, Upgrades { alloc });
    let replies = [
        "00000002ff57",
        // The place is 300.
        "0000001984000000000000012c00000000000000000000000000000000",
    ];
    assert_replied(&rt, alloc, written, &replies);
    assert_opens_to(&rt, alloc, device, 0, PURGES + 1);
}

/// Three registrations, of which the second one meets a fault of the device, and a lookup.
#[derive(Drop)]
struct Meets {
    alloc: Global,
}

impl Talk for Meets {
    fn talk<D: Device, N: HubName, R: Wait + Clock + Abort>(
        &self,
        hub: &Hub<D, N, R>,
        senders: &Senders<N>,
    ) -> Option<Vec<u8>> {
        let alloc = self.alloc;
        let roster = cores(hub.handle(), alloc);
        let mut replies = Vec::new(alloc);
        let mut is_well = true;
        for egress in 1..=3 {
            let ended = reply_to_registration(hub, senders, alloc, &roster, egress, &mut replies);
            is_well = is_well && ended;
        }
        let lookup = test_support::LOOKUP;
        let ended = reply(hub, senders, alloc, &roster, &lookup, &mut replies);
        (is_well && ended).then_some(replies)
    }
}

#[test]
fn failed_gate_sync_stops_commands(rt: HostRuntime) {
    let alloc = rt.alloc();
    let (device, written) = talked(&rt, alloc, failing_store(&rt, alloc), Meets { alloc });
    let replies = [INSERTED, "00000002ff62", "00000002ff54", FOUND];
    assert_replied(&rt, alloc, written, &replies);
    // The gate was written, though its sync failed: that command was kept.
    assert_opens_to(&rt, alloc, device.into_mem(), 2, 2);
}
