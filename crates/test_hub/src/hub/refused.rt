//! Want of memory. The tests are run with each of their allocations refused in turn: a call that is
//! refused changes nothing, and succeeds when it is made again.

use crate::checks::assert_same;
use crate::host::Host;
use crate::workloads::{Errand, Tasks, attended};
use group_core::{Durable, PublishError, StageError, Staged, StepError, SubmitError, Ticket};
use hub_claims::{HubError, HubName};
use hub_readers::{HubNote, HubReader, ReaderError};
use path_db::Command;
use path_hub::{Hub, HubJob, Release, Reserved, Senders, Steps, with_hub};
use sector_dev::{Device, MemDevice};
use std::alloc::Global;
use std::process::Abort;
use std::sync::Wait;
use std::sync::atomic::{AtomicU64, Ordering};
use std::thread::Threads;
use std::time::Clock;
use store_open::Store;
use test_hub_scripts::acts::{Unwatched, keep};
use test_hub_scripts::stores::{
    Contents, assert_contents, assert_opens_to, contents_of, one_row, opened, query, receipt_of,
    register,
};

/// What the store has at first: one row, at place 1.
const FIRST: Contents = Contents {
    rows: 1,
    bytes: 93,
    place: 1,
};

/// That store.
fn first_store(rt: &Host<impl Abort>, alloc: Global) -> Store<MemDevice> {
    opened(rt, alloc, one_row(rt, alloc))
}

/// The command that registers the segment left by an interface.
fn command_of(rt: &impl Abort, alloc: Global, egress: u8) -> Command {
    let made = match register(alloc, 0x10, egress) {
        None => register(alloc, 0x10, egress),
        made => made,
    };
    match made {
        Some(command) => command,
        None => panic!(rt; "out of memory"),
    }
}

/// Submits a command, and once more where memory is refused.
fn submit_again<S: Steps>(
    rt: &impl Abort,
    steps: &S,
    sender: &mut S::Sender,
    command: Command,
) -> Ticket {
    let answer = match steps.submit(sender, command) {
        Err((back, SubmitError::NoMemory)) => steps.submit(sender, back),
        answer => answer,
    };
    match answer {
        Ok(ticket) => ticket,
        Err((_command, refusal)) => panic!(rt; "{refusal:?}"),
    }
}

/// Stages a group, and tries once more where memory is refused.
fn stage_again<S: Steps>(rt: &impl Abort, steps: &S) -> Staged {
    let answer = match steps.stage() {
        Err(StageError::NoMemory) => steps.stage(),
        answer => answer,
    };
    match answer {
        Ok(staged) => staged,
        Err(refusal) => panic!(rt; "{refusal:?}"),
    }
}

/// The value that a step leads to.
fn made<T, P>(rt: &impl Abort, next: Result<T, StepError<P>>) -> T {
    match next {
        Ok(value) => value,
        Err(_refused) => panic!(rt; "a step was refused"),
    }
}

/// Takes a group through the flusher's steps up to the last one.
fn durable_of<S: Steps>(rt: &impl Abort, steps: &S) -> Durable {
    let staged = stage_again(rt, steps);
    let written = made(rt, steps.write_group(staged));
    let stable = made(rt, steps.sync_group(written));
    let opened = made(rt, steps.open_gate(stable));
    made(rt, steps.sync_gate(opened))
}

/// Publishes a group: the value, where memory is refused.
fn published<S: Steps>(rt: &impl Abort, steps: &S, value: Durable) -> Option<Durable> {
    match steps.publish(value) {
        Ok(()) => None,
        Err(PublishError::NoMemory(back)) => Some(back),
        Err(PublishError::Stranger(_back)) => panic!(rt; "a stranger"),
    }
}

/// How many segments a reader shows. It looks once more where memory is refused.
fn shown_again<N: HubName>(rt: &impl Abort, reader: &mut HubReader<N>) -> usize {
    let answer = match reader.lookup(&query(), 0) {
        Err(ReaderError::NoMemory) => reader.lookup(&query(), 0),
        answer => answer,
    };
    match answer {
        Ok(found) => found.len(),
        Err(e) => panic!(rt; "{e:?}"),
    }
}

/// Sees how many segments a reader shows.
fn assert_shown<N: HubName>(rt: &impl Abort, reader: &mut HubReader<N>, wanted: usize) {
    let count = shown_again(rt, reader);
    assert_same(rt, &count, &wanted, &"shown");
}

/// Publishes a group that a reader does not show before, and once more where memory is refused.
fn publish_again<D: Device, N: HubName, R: Wait + Clock + Abort>(
    hub: &Hub<D, N, R>,
    reader: &mut HubReader<N>,
    value: Durable,
    ticket: Ticket,
) -> Ticket {
    let rt = hub.handle();
    let Some(back) = published(rt, hub, value) else {
        return ticket;
    };
    assert_shown(rt, reader, 1);
    let ticket = keep(&Host(rt), hub, &mut Unwatched, ticket);
    if let Some(_back) = published(rt, hub, back) {
        panic!(rt; "out of memory");
    }
    ticket
}

/// Learns a ticket's receipt: the place of its command.
fn learn<N: HubName, S: Steps<Note = HubNote<N>>>(
    rt: &impl Abort,
    steps: &S,
    reader: &mut HubReader<N>,
    ticket: Ticket,
) -> u64 {
    let Some(mut receipt) = receipt_of(&Host(rt), steps, ticket) else {
        panic!(rt; "not committed");
    };
    if let Some(note) = receipt.take_note() {
        reader.learn_note(note);
    }
    receipt.place()
}

/// Registers two segments more in one group and one thread, with lookups between the calls. Comes
/// to their places.
#[derive(Drop)]
struct Adds {
    alloc: Global,
}

/// Submits the registration of the segment left by an interface.
fn submit_one<S: Steps>(
    rt: &impl Abort,
    alloc: Global,
    steps: &S,
    sender: &mut S::Sender,
    egress: u8,
) -> Ticket {
    let command = command_of(rt, alloc, egress);
    submit_again(rt, steps, sender, command)
}

impl Adds {
    /// Registers both segments. A reader shows them once their group is published.
    fn add<D: Device, N: HubName, R: Wait + Clock + Abort>(
        &self,
        hub: &Hub<D, N, R>,
        senders: &Senders<N>,
        reader: &mut HubReader<N>,
    ) -> (u64, u64) {
        let rt = hub.handle();
        assert_shown(rt, reader, 1);
        let second = submit_one(rt, self.alloc, hub, &mut senders.begin(), 2);
        let third = submit_one(rt, self.alloc, hub, &mut senders.begin(), 3);
        let durable = durable_of(rt, hub);
        assert_shown(rt, reader, 1);
        let second = publish_again(hub, reader, durable, second);
        assert_shown(rt, reader, 3);
        let second = learn(rt, hub, reader, second);
        let third = learn(rt, hub, reader, third);
        assert_shown(rt, reader, 3);
        (second, third)
    }
}

impl<D: Device, R: Wait + Clock + Abort> HubJob<D, R> for Adds {
    type Out = (u64, u64);

    fn run<N: HubName>(self, hub: &Hub<D, N, R>, senders: &Senders<N>) -> (u64, u64) {
        let Ok(mut reader) = hub.reader() else {
            panic!(hub.handle(); "no reader");
        };
        let places = self.add(hub, senders, &mut reader);
        hub.give_back(reader);
        places
    }
}

/// Sees that a hub was refused for want of memory, and that the store is as it was: the store that
/// its device opens to.
fn assert_kept<D: Device>(
    rt: &Host<impl Abort>,
    alloc: Global,
    (store, release): (Reserved<D>, Release<D>),
    e: HubError,
) -> Store<D> {
    let is_refused = matches!(e, HubError::NoMemory | HubError::NoReader);
    assert_same(&rt.0, &is_refused, &true, &e);
    assert_contents(rt, contents_of(store.as_store()), FIRST);
    let store = opened(rt, alloc, store.end().into_device(release));
    assert_contents(rt, contents_of(&store), FIRST);
    store
}

/// What comes back where a hub is not made.
type Refused = ((Reserved<MemDevice>, Release<MemDevice>), Adds, HubError);

/// The places of both segments, where a hub is made over a store.
fn added<R: Wait + Clock + Threads + Abort + Copy + Sync>(
    rt: R,
    alloc: Global,
    store: Store<MemDevice>,
    adds: Adds,
) -> Result<(u64, u64), Refused> {
    let (store, release) = Reserved::of(store);
    match with_hub(rt, alloc, store, 1, adds) {
        Ok((places, _end, _left)) => Ok(places),
        Err((store, adds, e)) => Err(((store, release), adds, e)),
    }
}

/// The places of both segments, where a hub was refused for want of memory.
fn added_again<R: Wait + Clock + Threads + Abort + Copy + Drop + Sync>(
    rt: R,
    alloc: Global,
    (store, adds, e): Refused,
) -> (u64, u64) {
    let store = assert_kept(&Host(rt), alloc, store, e);
    match added(rt, alloc, store, adds) {
        Ok(places) => places,
        Err((_store, _adds, e)) => panic!(&rt; "{e:?}"),
    }
}

#[test]
fn refused_calls_may_be_made_again(rt: HostRuntime) {
    let alloc = rt.alloc();
    let store = first_store(&Host(&rt), alloc);
    let places = match added(&rt, alloc, store, Adds { alloc }) {
        Ok(places) => places,
        Err(refused) => added_again(&rt, alloc, refused),
    };
    assert_same(&rt, &places, &(1, 2), &"places");
}

/// Registers a segment, each task another one, and looks it up. Counts the tasks that did.
#[derive(Drop)]
struct Joins {
    alloc: Global,
    done: AtomicU64,
}

/// Sees that a reader shows what a ticket's command registered, once it has learnt the receipt.
fn assert_joined<N: HubName, S: Steps<Note = HubNote<N>>>(
    rt: &impl Abort,
    steps: &S,
    reader: &mut HubReader<N>,
    ticket: Ticket,
) {
    learn(rt, steps, reader, ticket);
    let count = shown_again(rt, reader);
    assert_same(rt, &(2 <= count && count <= 3), &true, &count);
}

impl Errand for Joins {
    fn run<D: Device, N: HubName, R: Wait + Clock + Abort>(
        &self,
        hub: &Hub<D, N, R>,
        senders: &Senders<N>,
        task: u64,
    ) {
        let rt = hub.handle();
        let Ok(mut reader) = hub.reader() else {
            return;
        };
        let egress = if task == 0 { 2 } else { 3 };
        let ticket = submit_one(rt, self.alloc, hub, &mut senders.begin(), egress);
        assert_joined(rt, hub, &mut reader, ticket);
        hub.give_back(reader);
        self.done.fetch_add(1, Ordering::SeqCst);
    }
}

/// A hub with two tasks, and once more where memory is refused for it: the device, and how many
/// tasks there were.
fn joined<R: Wait + Clock + Threads + Abort + Copy + Drop + Send + Sync>(
    rt: R,
    alloc: Global,
    tasks: &Tasks<Joins>,
) -> (MemDevice, u64) {
    let host = Host(rt);
    let (device, first) = attended(rt, alloc, first_store(&host, alloc), tasks);
    match first {
        Ok(count) => (device, count),
        Err(e) => joined_again(rt, alloc, opened(&host, alloc, device), e, tasks),
    }
}

/// The same hub over a store, where it was refused for want of memory.
fn joined_again<R: Wait + Clock + Threads + Abort + Copy + Drop + Send + Sync>(
    rt: R,
    alloc: Global,
    store: Store<MemDevice>,
    e: HubError,
    tasks: &Tasks<Joins>,
) -> (MemDevice, u64) {
    let store = assert_kept(&Host(rt), alloc, Reserved::of(store), e);
    let (device, again) = attended(rt, alloc, store, tasks);
    (device, again.expect(&rt, "there is memory"))
}

#[test]
fn refused_workloads_may_come_again(rt: HostRuntime) {
    let host = Host(&rt);
    let alloc = rt.alloc();
    let joins = Joins {
        alloc,
        done: AtomicU64::new(0),
    };
    let tasks = Tasks::new(2, joins);
    let (device, attended) = joined(&rt, alloc, &tasks);
    // Where no thread was given for a task, the other one was there.
    let all = attended.wrapping_add(tasks.missed());
    assert_same(&rt, &all, &2, &"tasks");
    let done = tasks.errand.done.load(Ordering::SeqCst);
    assert_same(&rt, &done, &attended, &"done");
    let wanted = if attended == 2 {
        Contents {
            rows: 3,
            bytes: 3 * 93,
            place: 3,
        }
    } else {
        Contents {
            rows: 2,
            bytes: 2 * 93,
            place: 2,
        }
    };
    let _device = assert_opens_to(&host, alloc, device, wanted);
}
