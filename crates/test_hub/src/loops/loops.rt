//! The loops of both actors over a state that stops before one of their calls.

use crate::checks::{assert_same, assert_true};
use crate::host::Host;
use group_core::{Prepared, Redeemed, Ticket};
use path_db::Command;
use path_hub::{Silent, Steps, checkpointer_loop, flusher_loop};
use sector_dev::MemDevice;
use std::alloc::Global;
use std::process::Abort;
use std::sync::Wait;
use store_open::format;
use test_hub_scripts::acts::{GROUPS, Unwatched, commit_all, flush, seal, spend, submit};
use test_hub_scripts::fakes::Fake;
use test_hub_scripts::stores::{
    Contents, LEAST, bytes_of, contents_of, formatted, opened, restored, sealed_row,
};
use test_support::TestHost;

/// How many commands are submitted: a group of 32, and one of 8.
const COMMANDS: usize = 40;

/// How many calls are stopped before, one after the other.
const STOPS: u64 = 40;

/// Submits a command.
fn submit_one<R: Wait + TestHost>(rt: &impl Abort, fake: &Fake<R>) -> Ticket {
    match fake.submit(&mut (), Command::Purge(0)) {
        Ok(ticket) => ticket,
        Err((_command, refusal)) => panic!(rt; "{refusal:?}"),
    }
}

/// Submits the commands.
pub fn submit_all<R: Wait + TestHost>(
    rt: &impl Abort,
    alloc: Global,
    fake: &Fake<R>,
) -> Vec<Ticket> {
    let Ok(mut tickets) = Vec::with_capacity(alloc, COMMANDS) else {
        panic!(rt; "out of memory");
    };
    for _ in 0..COMMANDS {
        if let Err(_ticket) = tickets.push(submit_one(rt, fake)) {
            panic!(rt; "out of memory");
        }
    }
    tickets
}

/// Redeems a ticket: whether its command is committed, or else that is not known.
fn redeem<R: Wait + TestHost>(rt: &impl Abort, fake: &Fake<R>, ticket: Ticket) -> bool {
    match fake.redeem(ticket) {
        Redeemed::Committed(_receipt) => true,
        Redeemed::Unknown(_place) => false,
        Redeemed::Waiting(_back) => panic!(rt; "a ticket waits"),
        Redeemed::Stranger(_back) => panic!(rt; "a ticket is a stranger"),
    }
}

/// Redeems all tickets: how many of their commands are committed, and of how many that is not
/// known.
pub fn redeem_all<R: Wait + TestHost>(
    rt: &impl Abort,
    fake: &Fake<R>,
    tickets: Vec<Ticket>,
) -> (u64, u64) {
    let mut tickets = tickets;
    let mut committed = 0u64;
    let mut unknown = 0u64;
    for _ in 0..COMMANDS {
        let Some(ticket) = tickets.pop() else {
            break;
        };
        if redeem(rt, fake, ticket) {
            committed = committed.wrapping_add(1);
        } else {
            unknown = unknown.wrapping_add(1);
        }
    }
    assert_true(rt, tickets.is_empty(), "all tickets are redeemed");
    tickets.destroy_empty();
    (committed, unknown)
}

/// What comes of a run.
#[derive(Clone, Copy, Debug, PartialEq, Eq)]
struct Counts {
    /// How many commands are committed.
    committed: u64,
    /// Of how many commands it is not known whether they are.
    unknown: u64,
    /// How many calls were made from the one on before which the state stopped.
    late: u64,
}

/// Runs both loops over a state that stops before a call: how many calls the flusher's loop makes.
fn run_both<R: Wait + Abort>(rt: &R, fake: &Fake<Host<R>>, number: u64) -> u64 {
    fake.stop_before(number);
    flusher_loop(rt, fake, &Silent);
    let calls = fake.calls();
    checkpointer_loop(rt, fake, &Silent);
    calls
}

/// Runs both loops over a state that stops before a call, and then redeems all tickets.
fn stopped_at<R: Wait + Abort + Copy + Drop>(
    rt: R,
    alloc: Global,
    device: MemDevice,
    number: u64,
) -> (MemDevice, Counts) {
    let mut device = device;
    assert_same(&rt, &format(&mut device, LEAST), &Ok(()), &"format");
    let fake = Fake::new(Host(rt), alloc, device);
    let tickets = submit_all(&rt, alloc, &fake);
    let calls = run_both(&rt, &fake, number);
    let (committed, unknown) = redeem_all(&rt, &fake, tickets);
    let late = calls.wrapping_sub(number).wrapping_add(1);
    let counts = Counts {
        committed,
        unknown,
        late,
    };
    (fake.into_device(), counts)
}

/// Eight calls commit the first group: the fifth stages the second group to follow it, the next two
/// write and sync that group, and the eighth publishes the first one. Four more commit the second
/// group, which no group follows. Publishing goes on where the state has stopped. The loop ends
/// with the next staging: with the call of this number, where that is one.
fn counts_at(number: u64) -> Counts {
    let late = if number == 1 || 13 <= number {
        1
    } else if number == 5 || number == 8 || number == 10 {
        // A refusal to follow is passed on to the sync of the gate, and the group that followed a
        // published one to the write of its gate.
        3
    } else {
        2
    };
    let (committed, unknown) = if number <= 7 {
        (0, 40)
    } else if number <= 11 {
        (32, 8)
    } else {
        (40, 0)
    };
    Counts {
        committed,
        unknown,
        late,
    }
}

#[test]
fn loops_end(rt: HostRuntime) {
    let host = Host(&rt);
    let mut device = formatted(&host, rt.alloc(), LEAST);
    for number in 1..=STOPS {
        let counts;
        (device, counts) = stopped_at(&rt, rt.alloc(), device, number);
        assert_same(&rt, &counts, &counts_at(number), &number);
    }
}

/// The device of a store of no rows whose first journal is full, and sealed.
fn full_device<R: Wait + Abort + Copy + Drop>(rt: R, alloc: Global) -> MemDevice {
    let host = Host(rt);
    let fake = Fake::new(host, alloc, formatted(&host, alloc, LEAST));
    commit_all(&host, &fake, &mut (), &mut Unwatched, GROUPS);
    let ticket = seal(&host, &fake, &mut (), &mut Unwatched);
    fake.halt();
    spend(&host, &fake, &mut Unwatched, ticket);
    fake.into_device()
}

/// More calls than prepare a checkpoint here: one for each group of a full journal, and a few more.
const MOST_PIECES: u64 = 1000;

/// How many calls prepare a checkpoint of a state with a sealed journal.
fn prepare<R: Wait + TestHost>(rt: &impl Abort, fake: &Fake<R>) -> u64 {
    for number in 1..=MOST_PIECES {
        match fake.prepare() {
            Ok(Prepared::Part) => {}
            Ok(Prepared::Whole) => return number,
            Err(refusal) => panic!(rt; "{refusal:?}"),
        }
    }
    panic!(rt; "the pieces make no end")
}

/// How many calls prepare a checkpoint over a device with a sealed journal.
pub fn pieces_of<R: Wait + Abort + Copy + Drop>(
    rt: R,
    alloc: Global,
    device: MemDevice,
) -> (MemDevice, u64) {
    let fake = Fake::new(Host(rt), alloc, device);
    let pieces = prepare(&rt, &fake);
    (fake.into_device(), pieces)
}

/// What a store is found to be.
#[derive(Clone, Copy, Debug, PartialEq, Eq)]
struct Found {
    /// How many rows it has.
    rows: usize,
    /// The place to which it is opened.
    place: u64,
    /// The epoch of its half.
    epoch: u64,
    /// Whether that half's journal is sealed.
    is_sealed: bool,
}

/// A store of one row whose first journal was sealed after the registration of that row.
const ONE_ROW: Found = Found {
    rows: 1,
    place: 1,
    epoch: 1,
    is_sealed: true,
};

/// A store of no rows whose first journal was sealed after as many groups of one purge as it has
/// room for.
const FULL_JOURNAL: Found = Found {
    rows: 0,
    place: GROUPS,
    epoch: 1,
    is_sealed: true,
};

/// What a device opens to.
fn found_on(rt: &Host<impl Abort>, alloc: Global, device: MemDevice) -> (MemDevice, Found) {
    let store = opened(rt, alloc, device);
    let Contents { rows, place, .. } = contents_of(&store);
    let found = Found {
        rows,
        place,
        epoch: store.epoch(),
        is_sealed: store.is_sealed(),
    };
    (store.into_device(), found)
}

/// Runs the checkpointer's loop over a state with a sealed journal that stops before a call, before
/// or after a purge is committed: what its device opens to.
fn folded_at<R: Wait + Abort + Copy + Drop>(
    rt: R,
    alloc: Global,
    device: MemDevice,
    number: u64,
    is_committed: bool,
) -> (MemDevice, Found) {
    let host = Host(rt);
    let fake = Fake::new(host, alloc, device);
    let ticket = submit(&host, &fake, &mut (), &mut Unwatched);
    if is_committed {
        flush(&host, &fake, &mut Unwatched);
    }
    fake.stop_before(number);
    checkpointer_loop(&rt, &fake, &Silent);
    spend(&host, &fake, &mut Unwatched, ticket);
    found_on(&host, alloc, fake.into_device())
}

/// What a store is found to be that was sealed before. Seven calls make a checkpoint, after this
/// many have prepared it: after the fourth one, which writes the gate of the new half, the device
/// opens with that half.
fn found_at(sealed: Found, pieces: u64, number: u64, is_committed: bool) -> Found {
    let place = sealed.place.wrapping_add(u64::from(is_committed));
    if number <= pieces.wrapping_add(4) {
        Found { place, ..sealed }
    } else {
        Found {
            rows: sealed.rows,
            place,
            epoch: 2,
            is_sealed: false,
        }
    }
}

/// A device with a sealed journal.
#[derive(Drop)]
struct Sealed {
    device: MemDevice,
    /// All its bytes.
    image: Vec<u8>,
    /// What it opens to.
    found: Found,
    /// How many calls prepare a checkpoint.
    pieces: u64,
}

/// The device with a sealed journal, which opens to this.
fn sealed_of<R: Wait + Abort + Copy + Drop>(
    rt: R,
    alloc: Global,
    device: MemDevice,
    found: Found,
) -> Sealed {
    let (mut device, pieces) = pieces_of(rt, alloc, device);
    let image = bytes_of(&Host(rt), alloc, &mut device);
    Sealed {
        device,
        image,
        found,
        pieces,
    }
}

/// Has the checkpointer's loop stopped before a call, before or after a purge is committed.
fn assert_folded<R: Wait + Abort + Copy + Drop>(
    rt: R,
    alloc: Global,
    sealed: Sealed,
    number: u64,
    is_committed: bool,
) -> Sealed {
    let Sealed {
        device,
        image,
        found: first,
        pieces,
    } = sealed;
    let device = restored(&Host(rt), device, &image);
    let (device, found) = folded_at(rt, alloc, device, number, is_committed);
    let wanted = found_at(first, pieces, number, is_committed);
    assert_same(&rt, &found, &wanted, &(number, is_committed));
    Sealed {
        device,
        image,
        found: first,
        pieces,
    }
}

/// Has the checkpointer's loop stopped before each of the calls that prepare a checkpoint, and
/// before this number of calls after them, over a device with a sealed journal: before and after a
/// purge is committed.
fn fold_all<R: Wait + Abort + Copy + Drop>(rt: R, alloc: Global, sealed: Sealed, stops: u64) {
    let mut sealed = sealed;
    for number in 1..=sealed.pieces.wrapping_add(stops) {
        sealed = assert_folded(rt, alloc, sealed, number, false);
        sealed = assert_folded(rt, alloc, sealed, number, true);
    }
}

/// The same by turns before the last of the former calls and those after them.
fn fold_by_turns<R: Wait + Abort + Copy + Drop>(rt: R, alloc: Global, sealed: Sealed, stops: u64) {
    let mut sealed = sealed;
    for number in sealed.pieces..=sealed.pieces.wrapping_add(stops) {
        sealed = assert_folded(rt, alloc, sealed, number, number % 2 == 1);
    }
}

#[test]
fn checkpointer_ends(rt: HostRuntime) {
    let host = Host(&rt);
    let alloc = rt.alloc();
    let sealed = sealed_of(&rt, alloc, sealed_row(&host, alloc), ONE_ROW);
    fold_all(&rt, alloc, sealed, STOPS);
    // A full journal takes long to read.
    let sealed = sealed_of(&rt, alloc, full_device(&rt, alloc), FULL_JOURNAL);
    fold_by_turns(&rt, alloc, sealed, 8);
}
