//! One thread makes the calls of a long run through a hub: each is answered as by a run of an equal
//! store, after as many syncs.

use crate::checks::assert_same;
use crate::host::Host;
use group_core::StageError;
use group_recovery::{Event, Reply, Run, run};
use hub_claims::HubName;
use path_db::Command;
use path_hub::{Hub, HubJob, Senders, Steps, with_hub};
use sector_dev::{Device, MemDevice};
use std::alloc::Global;
use std::process::Abort;
use std::sync::Wait;
use std::sync::atomic::{AtomicU64, Ordering};
use std::thread::Threads;
use std::time::Clock;
use store_open::Store;
use test_fault_devices::{Gate, HeldDevice};
use test_group_scripts::acts::NOTHING;
use test_hub_scripts::acts::{Answer, GROUPS, Watch, fill, fold, refuse_stage, spend, submit};
use test_hub_scripts::fakes::state_of;
use test_hub_scripts::stores::{
    Contents, LEAST, assert_opens_to, ended, formatted, opened, reserved,
};

/// How many lines the script has: 513 purges that are committed at once, the one that a seal is
/// staged before, and the one that is left.
const LINES: usize = 8 * 513 + 15 + 20;

/// What is seen of an event: the answer, and how many syncs there were by then.
type Seen = (Answer, u64);

/// Counts the syncs of a device.
#[derive(Drop)]
struct Counts<'a> {
    syncs: &'a AtomicU64,
}

impl Gate for Counts<'_> {
    ghost passed = { λ _ _. Unit {0} };

    fn pass(&mut self) {
        self.syncs.fetch_add(1, Ordering::SeqCst);
    }
}

/// A list with room for what is seen of each event.
fn room<T>(rt: &impl Abort, alloc: Global) -> Vec<T> {
    match Vec::with_capacity(alloc, LINES) {
        Ok(room) => room,
        Err(_) => panic!(rt; "out of memory"),
    }
}

/// Keeps what is seen of each event.
#[derive(Drop)]
struct Notes<'a> {
    seen: Vec<Seen>,
    syncs: &'a AtomicU64,
}

impl Watch for Notes<'_> {
    fn see(&mut self, answer: Answer) {
        let syncs = self.syncs.load(Ordering::SeqCst);
        let _ = self.seen.push((answer, syncs));
    }
}

/// Makes the script's calls.
fn play<S: Steps>(rt: &Host<impl Abort>, steps: &S, sender: &mut S::Sender, notes: &mut Notes) {
    fill(rt, steps, sender, notes);
    let ticket = submit(rt, steps, sender, notes);
    refuse_stage(rt, steps, notes);
    refuse_stage(rt, steps, notes);
    fold(rt, steps, notes);
    steps.halt();
    notes.see(Answer::Done);
    spend(rt, steps, notes, ticket);
}

/// Makes the script's calls at a hub.
#[derive(Drop)]
struct Plays<'a> {
    alloc: Global,
    syncs: &'a AtomicU64,
}

impl<D: Device, R: Wait + Clock + Abort> HubJob<D, R> for Plays<'_> {
    type Out = Vec<Seen>;

    fn run<N: HubName>(self, hub: &Hub<D, N, R>, senders: &Senders<N>) -> Vec<Seen> {
        let mut notes = Notes {
            seen: room(hub.handle(), self.alloc),
            syncs: self.syncs,
        };
        play(&Host(hub.handle()), hub, &mut senders.begin(), &mut notes);
        let Notes { seen, syncs: _ } = notes;
        seen
    }
}

/// The same calls as events of a run, and what is expected of each.
#[derive(Drop)]
struct Script {
    events: Vec<Event>,
    seen: Vec<Seen>,
    syncs: u64,
}

/// Whether an event syncs the device, where it is answered that it is done.
fn is_sync(event: &Event) -> bool {
    matches!(
        event,
        Event::SyncGroup | Event::SyncGate | Event::SyncChunks | Event::SyncHalf | Event::SyncClose
    )
}

impl Script {
    /// An event, and its answer.
    fn line(&mut self, event: Event, answer: Answer) {
        if is_sync(&event) {
            self.syncs = self.syncs.wrapping_add(1);
        }
        let _ = self.seen.push((answer, self.syncs));
        let _ = self.events.push(event);
    }

    /// A purge gets this place.
    fn submit(&mut self, place: u64) {
        self.line(Event::Submit(Command::Purge(0)), Answer::Accepted(place));
    }

    /// The ticket of that purge is redeemed.
    fn redeem(&mut self, place: u64, answer: Answer) {
        self.line(Event::Redeem(place as usize), answer);
    }

    /// The flusher's steps.
    fn flush(&mut self) {
        self.line(Event::Stage, Answer::Done);
        self.line(Event::WriteGroup, Answer::Done);
        self.line(Event::SyncGroup, Answer::Done);
        self.line(Event::OpenGate, Answer::Done);
        self.line(Event::SyncGate, Answer::Done);
        self.line(Event::Publish, Answer::Done);
    }

    /// The purge of this place is committed.
    fn commit(&mut self, place: u64) {
        self.submit(place);
        self.flush();
        self.redeem(place, Answer::Committed(place, NOTHING));
    }

    /// The journal has no room.
    fn refuse_stage(&mut self) {
        self.line(Event::Stage, Answer::NotStaged(StageError::NoRoom));
    }

    /// A step of the checkpointer, after which the journal has no room yet.
    fn check(&mut self, event: Event) {
        self.line(event, Answer::Done);
        self.refuse_stage();
    }
}

/// The script: 257 groups fill the first journal, which a seal closes, and 257 groups more the
/// second one; then the journals have no room until the checkpoint has ended.
fn whole_script(rt: &impl Abort, alloc: Global) -> Script {
    let mut script = Script {
        events: room(rt, alloc),
        seen: room(rt, alloc),
        syncs: 0,
    };
    for place in 0..GROUPS {
        script.commit(place);
    }
    script.submit(GROUPS);
    script.flush();
    script.redeem(GROUPS, Answer::Waiting(GROUPS));
    script.flush();
    script.redeem(GROUPS, Answer::Committed(GROUPS, NOTHING));
    for place in GROUPS + 1..2 * GROUPS {
        script.commit(place);
    }
    script.submit(2 * GROUPS);
    script.refuse_stage();
    script.refuse_stage();
    script.check(Event::Prepare);
    script.check(Event::Begin);
    script.check(Event::WriteChunk);
    script.check(Event::SyncChunks);
    script.check(Event::OpenHalf);
    script.check(Event::SyncHalf);
    script.check(Event::CloseHalf);
    script.line(Event::SyncClose, Answer::Done);
    script.line(Event::Halt, Answer::Done);
    script.redeem(2 * GROUPS, Answer::Unknown(2 * GROUPS));
    script
}

/// What a reply says.
fn answer_of(reply: &Reply) -> Answer {
    match reply {
        Reply::Accepted(place) => Answer::Accepted(*place),
        Reply::Refused(refusal) => Answer::Refused(*refusal),
        Reply::Done | Reply::Prepared(_) => Answer::Done,
        Reply::StageRefused(refusal) => Answer::NotStaged(*refusal),
        Reply::Committed(place, outcome) => Answer::Committed(*place, *outcome),
        Reply::Waiting(place) => Answer::Waiting(*place),
        Reply::Unknown(place) => Answer::Unknown(*place),
        _ => Answer::Other,
    }
}

/// What the last reply says.
fn last_answer(rt: &impl Abort, replies: &[Reply]) -> Answer {
    match replies.last() {
        Some(reply) => answer_of(reply),
        None => panic!(rt; "no reply"),
    }
}

/// Does events in a run, and answers the reply to the last one.
fn answered<D: Device>(
    rt: &impl Abort,
    alloc: Global,
    held: Run<D>,
    events: &[Event],
) -> (Run<D>, Answer) {
    match run(alloc, held, events) {
        Ok((held, replies)) => (held, last_answer(rt, &replies)),
        Err((_held, _refused)) => panic!(rt; "out of memory"),
    }
}

/// Sees that what was seen of an event is what is expected.
fn assert_seen(rt: &impl Abort, number: usize, seen: Seen, wanted: Seen) {
    assert_same(rt, &seen, &wanted, &number);
}

/// A device whose syncs are counted.
type Counted<'a> = HeldDevice<MemDevice, Counts<'a>>;

/// A new store on such a device. Its syncs are counted from now on.
fn counted_store<'a>(
    rt: &Host<impl Abort>,
    alloc: Global,
    syncs: &'a AtomicU64,
) -> Store<Counted<'a>> {
    let device = HeldDevice::new(formatted(rt, alloc, LEAST), Counts { syncs });
    let store = opened(rt, alloc, device);
    syncs.store(0, Ordering::SeqCst);
    store
}

/// A run of such a store.
fn begun<'a>(rt: &Host<impl Abort>, alloc: Global, syncs: &'a AtomicU64) -> Run<Counted<'a>> {
    let store = counted_store(rt, alloc, syncs);
    match Run::new(alloc, state_of(rt, alloc, store, 1)) {
        Ok(held) => held,
        Err(_state) => panic!(rt.0; "a value is out"),
    }
}

/// Does an event in a run, and sees what comes of it.
fn step<'a>(
    rt: &impl Abort,
    alloc: Global,
    held: Run<Counted<'a>>,
    syncs: &AtomicU64,
    (number, event, wanted): (usize, &[Event], Seen),
) -> Run<Counted<'a>> {
    let (held, answer) = answered(rt, alloc, held, event);
    let seen = (answer, syncs.load(Ordering::SeqCst));
    assert_seen(rt, number, seen, wanted);
    held
}

/// Does the script's events in a run.
fn run_all(rt: &Host<impl Abort>, alloc: Global, script: &Script) {
    let syncs = AtomicU64::new(0);
    let mut held = begun(rt, alloc, &syncs);
    for (number, (event, wanted)) in script.events.chunks(1).zip(&script.seen).enumerate() {
        held = step(&rt.0, alloc, held, &syncs, (number, event, *wanted));
    }
    wind_up(rt, alloc, held);
}

/// Ends a run, and sees what its device opens to.
fn wind_up(rt: &Host<impl Abort>, alloc: Global, held: Run<Counted<'_>>) {
    match held.wind_up() {
        Ok(device) => {
            let _device = assert_opens_to(rt, alloc, device, Contents::empty_at(2 * GROUPS));
        }
        Err(_held) => panic!(rt.0; "something is kept"),
    }
}

/// Makes the script's calls at a hub: what is seen of them.
fn played<R: Wait + Clock + Threads + Abort + Copy + Sync>(rt: R, alloc: Global) -> Vec<Seen> {
    let host = Host(rt);
    let syncs = AtomicU64::new(0);
    let store = counted_store(&host, alloc, &syncs);
    let plays = Plays {
        alloc,
        syncs: &syncs,
    };
    ended(&host, with_hub(rt, alloc, reserved(store), 1, plays))
}

/// Sees that what was seen of all events is what is expected.
fn assert_played(rt: &impl Abort, seen: &[Seen], script: &Script) {
    let lens = [seen.len(), script.events.len(), script.seen.len()];
    assert_same(rt, &lens, &[LINES; 3], &"lines");
    for (number, (seen, wanted)) in seen.iter().zip(&script.seen).enumerate() {
        assert_seen(rt, number, *seen, *wanted);
    }
}

#[test]
fn steps_script(rt: HostRuntime) {
    let host = Host(&rt);
    let script = whole_script(&rt, rt.alloc());
    let seen = played(&rt, rt.alloc());
    assert_played(&rt, &seen, &script);
    run_all(&host, rt.alloc(), &script);
}
