//! Which calls are counted as changes, and which rests a change ends.

use crate::checks::assert_same;
use crate::host::Host;
use hub_claims::HubName;
use path_hub::{Awaited, Hub, HubJob, Senders, Steps, with_hub};
use sector_dev::Device;
use std::alloc::Global;
use std::process::Abort;
use std::sync::Wait;
use std::time::{Clock, Duration, Instant};
use test_hub_scripts::acts::{
    Answer, GROUPS, Unwatched, Watch, commit, commit_all, flush, fold, seal, spend, submit,
};
use test_hub_scripts::stores::{ended, new_store, reserved};

/// How many changes there were of each kind after each call, beyond those that there were at first.
#[derive(Drop)]
struct Grown {
    work: Vec<u64>,
    seal: Vec<u64>,
}

/// Counts the changes of a state after each call.
struct Counts<'a, S> {
    steps: &'a S,
    first: [u64; 2],
    grown: Grown,
}

/// How many changes there were of each kind.
fn changes<S: Steps>(steps: &S) -> [u64; 2] {
    [steps.changes(Awaited::Work), steps.changes(Awaited::Seal)]
}

impl<'a, S: Steps> Counts<'a, S> {
    /// Counts from now on.
    fn new(alloc: Global, steps: &'a S) -> Counts<'a, S> {
        Counts {
            steps,
            first: changes(steps),
            grown: Grown {
                work: Vec::new(alloc),
                seal: Vec::new(alloc),
            },
        }
    }

    /// What was counted.
    fn end(self) -> Grown {
        let Counts {
            steps: _steps,
            first: _first,
            grown,
        } = self;
        grown
    }
}

impl<S: Steps> Watch for Counts<'_, S> {
    fn see(&mut self, _answer: Answer) {
        let [work, seal] = changes(self.steps);
        let _ = self.grown.work.push(work.wrapping_sub(self.first[0]));
        let _ = self.grown.seal.push(seal.wrapping_sub(self.first[1]));
    }
}

/// Sees how a kind of changes grew.
fn assert_grown(rt: &Host<impl Abort>, kind: &str, grown: &[u64], wanted: &[u64]) {
    assert_same(&rt.0, &grown, &wanted, &kind);
}

/// A purge is submitted, staged, written, synced, its gate opened and synced, published, and
/// redeemed.
fn assert_group<S: Steps>(rt: &Host<impl Abort>, alloc: Global, steps: &S, sender: &mut S::Sender) {
    let mut counts = Counts::new(alloc, steps);
    commit(rt, steps, sender, &mut counts);
    let Grown { work, seal } = counts.end();
    assert_grown(rt, "work", &work, &[1, 1, 1, 1, 1, 1, 1, 1]);
    assert_grown(rt, "seal", &seal, &[0, 0, 0, 0, 0, 0, 0, 0]);
}

/// The same calls, where a seal is published: the purge waits, and is committed then.
fn assert_seal<S: Steps>(rt: &Host<impl Abort>, alloc: Global, steps: &S, sender: &mut S::Sender) {
    let mut counts = Counts::new(alloc, steps);
    let ticket = seal(rt, steps, sender, &mut counts);
    let Grown { work, seal } = counts.end();
    assert_grown(rt, "work", &work, &[1, 1, 1, 1, 1, 1, 1, 1]);
    assert_grown(rt, "seal", &seal, &[0, 0, 0, 0, 0, 0, 1, 1]);
    flush(rt, steps, &mut Unwatched);
    spend(rt, steps, &mut Unwatched, ticket);
}

/// A checkpoint is prepared, begun, written, synced, its gate opened and synced, the old half
/// closed and synced, with a staging that is refused between two of these calls.
fn assert_fold<S: Steps>(rt: &Host<impl Abort>, alloc: Global, steps: &S) {
    let mut counts = Counts::new(alloc, steps);
    fold(rt, steps, &mut counts);
    let Grown { work, seal } = counts.end();
    assert_grown(
        rt,
        "work",
        &work,
        &[0, 0, 0, 0, 0, 0, 0, 0, 0, 0, 0, 0, 0, 0, 1],
    );
    assert_grown(rt, "seal", &seal, &[0; 15]);
}

/// The state is stopped.
fn assert_halt<S: Steps>(rt: &Host<impl Abort>, alloc: Global, steps: &S) {
    let mut counts = Counts::new(alloc, steps);
    steps.halt();
    counts.see(Answer::Done);
    let Grown { work, seal } = counts.end();
    assert_grown(rt, "work", &work, &[1]);
    assert_grown(rt, "seal", &seal, &[1]);
}

/// Counts the changes that calls make.
#[derive(Drop)]
struct Makes {
    alloc: Global,
}

impl<D: Device, R: Wait + Clock + Abort> HubJob<D, R> for Makes {
    type Out = ();

    fn run<N: HubName>(self, hub: &Hub<D, N, R>, senders: &Senders<N>) {
        let host = Host(hub.handle());
        commit_all(&host, hub, &mut senders.begin(), &mut Unwatched, GROUPS - 1);
        assert_group(&host, self.alloc, hub, &mut senders.begin());
        assert_seal(&host, self.alloc, hub, &mut senders.begin());
        assert_fold(&host, self.alloc, hub);
        assert_halt(&host, self.alloc, hub);
    }
}

#[test]
fn changes_are_counted(rt: HostRuntime) {
    let host = Host(&rt);
    let alloc = rt.alloc();
    let store = new_store(&host, alloc);
    ended(
        &host,
        with_hub(&rt, alloc, reserved(store), 1, Makes { alloc }),
    );
}

/// How long this number of rests takes.
fn time_of<S: Steps, R: Clock + Abort>(
    rt: &R,
    steps: &S,
    awaited: Awaited,
    seen: u64,
    count: u64,
) -> Duration {
    let Ok(start) = Instant::now(rt) else {
        panic!(rt; "no clock");
    };
    for _ in 0..count {
        steps.rest(awaited, seen);
    }
    match start.elapsed(rt) {
        Ok(spent) => spent,
        Err(_) => panic!(rt; "no clock"),
    }
}

/// Sees that a rest ends at once where there was a change since the count was read: a thousand
/// rests would take ten seconds else.
fn assert_prompt<S: Steps, R: Clock + Abort>(rt: &R, steps: &S, awaited: Awaited, seen: u64) {
    let spent = time_of(rt, steps, awaited, seen, 1000);
    assert_same(rt, &(spent < Duration::from_secs(5)), &true, &spent);
}

/// Sees that a rest ends by itself where there was no change: one takes ten milliseconds.
fn assert_slow<S: Steps, R: Clock + Abort>(rt: &R, steps: &S, awaited: Awaited) {
    let spent = time_of(rt, steps, awaited, steps.changes(awaited), 20);
    assert_same(rt, &(Duration::from_millis(100) <= spent), &true, &spent);
}

/// Rests after a command is submitted.
fn rest_over_a_command<S: Steps, R: Clock + Abort>(rt: &R, steps: &S, sender: &mut S::Sender) {
    let host = Host(rt);
    let work = steps.changes(Awaited::Work);
    let ticket = submit(&host, steps, sender, &mut Unwatched);
    assert_prompt(rt, steps, Awaited::Work, work);
    flush(&host, steps, &mut Unwatched);
    spend(&host, steps, &mut Unwatched, ticket);
}

/// Rests after a journal is sealed.
fn rest_over_a_seal<S: Steps, R: Clock + Abort>(rt: &R, steps: &S, sender: &mut S::Sender) {
    let host = Host(rt);
    let sealed = steps.changes(Awaited::Seal);
    let ticket = seal(&host, steps, sender, &mut Unwatched);
    assert_prompt(rt, steps, Awaited::Seal, sealed);
    flush(&host, steps, &mut Unwatched);
    spend(&host, steps, &mut Unwatched, ticket);
}

/// Rests after a checkpoint, and after the state is stopped.
fn rest_over_an_end<S: Steps, R: Clock + Abort>(rt: &R, steps: &S) {
    let work = steps.changes(Awaited::Work);
    fold(&Host(rt), steps, &mut Unwatched);
    assert_prompt(rt, steps, Awaited::Work, work);
    let [work, sealed] = changes(steps);
    steps.halt();
    assert_prompt(rt, steps, Awaited::Work, work);
    assert_prompt(rt, steps, Awaited::Seal, sealed);
}

/// Rests after changes of each kind, and after none.
#[derive(Drop)]
struct Rests;

impl<D: Device, R: Wait + Clock + Abort> HubJob<D, R> for Rests {
    type Out = ();

    fn run<N: HubName>(self, hub: &Hub<D, N, R>, senders: &Senders<N>) {
        let Rests = self;
        let rt = hub.handle();
        let host = Host(rt);
        commit_all(&host, hub, &mut senders.begin(), &mut Unwatched, GROUPS - 1);
        rest_over_a_command(rt, hub, &mut senders.begin());
        for awaited in [Awaited::Work, Awaited::Seal] {
            assert_slow(rt, hub, awaited);
        }
        rest_over_a_seal(rt, hub, &mut senders.begin());
        rest_over_an_end(rt, hub);
    }
}

#[test]
fn rest_sees_earlier_changes(rt: HostRuntime) {
    let host = Host(&rt);
    let alloc = rt.alloc();
    let store = new_store(&host, alloc);
    ended(&host, with_hub(&rt, alloc, reserved(store), 1, Rests));
}
