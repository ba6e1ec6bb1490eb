//! Which notices both loops give, and in which order.

use crate::checks::assert_same;
use crate::host::Host;
use crate::loops::loops::{pieces_of, redeem_all, submit_all};
use crate::loops::scarce::{Damage, NONE, Refusals, Scarce};
use group_core::SubmitError;
use path_db::Command;
use path_hub::{Actor, Notice, Steps, Watch, checkpointer_loop, flusher_loop};
use std::alloc::Global;
use std::process::Abort;
use std::sync::{Mutex, Wait};
use test_hub_scripts::acts::{Unwatched, spend, submit};
use test_hub_scripts::fakes::Fake;
use test_hub_scripts::stores::{LEAST, change, formatted, sealed_row};

/// A watch that keeps what it is given, in order.
#[derive(Drop)]
struct Kept<R> {
    rt: R,
    notices: Mutex<Vec<Notice>>,
}

impl<R: Wait> Kept<R> {
    /// One that was given nothing yet.
    fn new(rt: R, alloc: Global) -> Kept<R> {
        Kept {
            rt,
            notices: Mutex::new(Vec::new(alloc)),
        }
    }
}

impl<R: Wait> Watch for Kept<R> {
    fn note(&self, notice: Notice) {
        let mut notices = self.notices.lock(&self.rt);
        let _ = notices.push(notice);
    }
}

/// A run of the flusher's loop, and what it notes.
#[derive(Clone, Copy)]
struct FlusherRun {
    /// How many stagings are refused memory.
    stagings: u64,
    /// How many publishings are refused memory.
    publishings: u64,
    /// The number of the call before which the state stops, the first one being number 1.
    stop: u64,
    /// What is noted, in order.
    noted: &'static [Notice],
}

impl FlusherRun {
    /// What is refused.
    fn refusals(self) -> Refusals {
        Refusals {
            stagings: self.stagings,
            publishings: self.publishings,
            ..NONE
        }
    }
}

/// Memory is refused, and given again.
const ONCE: &[Notice] = &[
    Notice::NoMemory(Actor::Flusher),
    Notice::MemoryGiven(Actor::Flusher),
];

/// The same twice.
const TWICE: &[Notice] = &[
    Notice::NoMemory(Actor::Flusher),
    Notice::MemoryGiven(Actor::Flusher),
    Notice::NoMemory(Actor::Flusher),
    Notice::MemoryGiven(Actor::Flusher),
];

/// One purge. Seven calls commit it, and the eighth finds nothing to stage.
#[rattlefmt::skip]
const ALONE: [FlusherRun; 8] = [
    FlusherRun { stagings: 0, publishings: 0, stop: 9, noted: &[] },
    FlusherRun { stagings: 1, publishings: 0, stop: 9, noted: ONCE },
    FlusherRun { stagings: 5, publishings: 0, stop: 9, noted: ONCE },
    FlusherRun { stagings: 0, publishings: 5, stop: 9, noted: ONCE },
    FlusherRun { stagings: 2, publishings: 2, stop: 9, noted: TWICE },
    // The state stops before the purge is staged, before it is written, and before it is published,
    // which goes on.
    FlusherRun { stagings: 3, publishings: 0, stop: 1, noted: &[Notice::NoMemory(Actor::Flusher)] },
    FlusherRun { stagings: 3, publishings: 3, stop: 2, noted: ONCE },
    FlusherRun { stagings: 0, publishings: 3, stop: 7, noted: ONCE },
];

/// Two groups, of which the second one follows. The eighth call publishes the first one, and the
/// twelfth the second one.
#[rattlefmt::skip]
const FOLLOWED: [FlusherRun; 4] = [
    FlusherRun { stagings: 0, publishings: 0, stop: 14, noted: &[] },
    FlusherRun { stagings: 0, publishings: 1, stop: 14, noted: ONCE },
    FlusherRun { stagings: 0, publishings: 5, stop: 14, noted: ONCE },
    FlusherRun { stagings: 4, publishings: 4, stop: 14, noted: TWICE },
];

/// A run of the checkpointer's loop, and what it notes.
#[derive(Clone, Copy)]
struct CheckpointerRun {
    /// What is refused.
    refusals: Refusals,
    /// The number of the call before which the state stops, the first one after those that prepare
    /// the checkpoint being number 1.
    stop: u64,
    /// What is noted, in order.
    noted: &'static [Notice],
}

/// Memory is refused to a checkpoint, and given again.
const SHORT: [Notice; 4] = [
    Notice::NoMemory(Actor::Checkpointer),
    Notice::MemoryGiven(Actor::Checkpointer),
    Notice::CheckpointBegun,
    Notice::CheckpointDone,
];

/// The same, and the state stops after the beginning.
const CUT: [Notice; 3] = [
    Notice::NoMemory(Actor::Checkpointer),
    Notice::MemoryGiven(Actor::Checkpointer),
    Notice::CheckpointBegun,
];

/// A checkpoint is begun of a half that reads otherwise.
const DAMAGED: [Notice; 2] = [Notice::CheckpointBegun, Notice::HalfDamaged];

/// A sealed journal. Seven calls make a checkpoint. A beginning that is refused memory makes one
/// more call that prepares it.
#[rattlefmt::skip]
const SEALED: [CheckpointerRun; 12] = [
    CheckpointerRun { refusals: NONE, stop: 1, noted: &[] },
    CheckpointerRun { refusals: NONE, stop: 2, noted: &[Notice::CheckpointBegun] },
    CheckpointerRun { refusals: NONE, stop: 7, noted: &[Notice::CheckpointBegun] },
    CheckpointerRun { refusals: NONE, stop: 8, noted: &[Notice::CheckpointBegun, Notice::CheckpointDone] },
    CheckpointerRun { refusals: Refusals { preparations: 1, ..NONE }, stop: 8, noted: &SHORT },
    CheckpointerRun { refusals: Refusals { preparations: 5, ..NONE }, stop: 8, noted: &SHORT },
    CheckpointerRun { refusals: Refusals { beginnings: 1, ..NONE }, stop: 9, noted: &SHORT },
    CheckpointerRun { refusals: Refusals { preparations: 3, beginnings: 4, ..NONE }, stop: 12, noted: &SHORT },
    // The state stops while memory is refused, and before the checkpoint is written.
    CheckpointerRun { refusals: Refusals { beginnings: 4, ..NONE }, stop: 2, noted: &[Notice::NoMemory(Actor::Checkpointer)] },
    CheckpointerRun { refusals: Refusals { beginnings: 4, ..NONE }, stop: 6, noted: &CUT },
    CheckpointerRun { refusals: Refusals { damage: Damage::Begin, ..NONE }, stop: 8, noted: &[Notice::HalfDamaged] },
    CheckpointerRun { refusals: Refusals { damage: Damage::Chunk, ..NONE }, stop: 8, noted: &DAMAGED },
];

/// Sees what was noted.
fn assert_kept<R: Wait + Abort + Drop>(kept: Kept<R>, wanted: &[Notice]) {
    let Kept { rt, notices } = kept;
    let notices = notices.into_inner();
    assert_same(&rt, &notices.as_slice(), &wanted, &"notices");
}

/// Runs the flusher's loop over one purge.
fn assert_alone<R: Wait + Abort + Copy + Drop>(rt: R, alloc: Global, run: FlusherRun) {
    let host = Host(rt);
    let fake = Fake::new(host, alloc, formatted(&host, alloc, LEAST));
    let kept = Kept::new(rt, alloc);
    let ticket = submit(&host, &fake, &mut (), &mut Unwatched);
    fake.stop_before(run.stop);
    flusher_loop(&rt, &Scarce::new(&fake, run.refusals()), &kept);
    spend(&host, &fake, &mut Unwatched, ticket);
    assert_kept(kept, run.noted);
    let _device = fake.into_device();
}

/// Runs it over two groups.
fn assert_followed<R: Wait + Abort + Copy + Drop>(rt: R, alloc: Global, run: FlusherRun) {
    let host = Host(rt);
    let fake = Fake::new(host, alloc, formatted(&host, alloc, LEAST));
    let kept = Kept::new(rt, alloc);
    let tickets = submit_all(&rt, alloc, &fake);
    fake.stop_before(run.stop);
    flusher_loop(&rt, &Scarce::new(&fake, run.refusals()), &kept);
    let (committed, unknown) = redeem_all(&rt, &fake, tickets);
    assert_same(
        &rt,
        &(committed, unknown),
        &(40, 0),
        &"committed and not known",
    );
    assert_kept(kept, run.noted);
    let _device = fake.into_device();
}

/// Runs the checkpointer's loop over a sealed journal.
fn assert_sealed<R: Wait + Abort + Copy + Drop>(rt: R, alloc: Global, run: CheckpointerRun) {
    let host = Host(rt);
    let (device, pieces) = pieces_of(rt, alloc, sealed_row(&host, alloc));
    let fake = Fake::new(host, alloc, device);
    let kept = Kept::new(rt, alloc);
    fake.stop_before(run.stop.wrapping_add(pieces));
    checkpointer_loop(&rt, &Scarce::new(&fake, run.refusals), &kept);
    assert_kept(kept, run.noted);
    fake.end();
}

#[test]
fn flusher_notes_memory(rt: HostRuntime) {
    for run in ALONE {
        assert_alone(&rt, rt.alloc(), run);
    }
    for run in FOLLOWED {
        assert_followed(&rt, rt.alloc(), run);
    }
}

#[test]
fn checkpointer_notes_checkpoints(rt: HostRuntime) {
    for run in SEALED {
        assert_sealed(&rt, rt.alloc(), run);
    }
}

/// Runs the checkpointer's loop over a state that has no epoch left.
fn assert_no_epoch<R: Wait + Abort + Copy + Drop>(rt: R, alloc: Global, fake: &Fake<Host<R>>) {
    let kept = Kept::new(rt, alloc);
    checkpointer_loop(&rt, fake, &kept);
    assert_kept(kept, &[Notice::NoEpoch]);
}

/// Sees that a state has stopped: it refuses a command.
fn assert_stopped<R: Wait + Abort>(rt: &R, fake: &Fake<Host<R>>) {
    match fake.submit(&mut (), Command::Purge(0)) {
        Err((_command, why)) => assert_same(rt, &why, &SubmitError::Stopped, &"refused"),
        Ok(_more) => panic!(rt; "accepted"),
    }
}

#[test]
fn checkpointer_stops_at_the_last_epoch(rt: HostRuntime) {
    let host = Host(&rt);
    let alloc = rt.alloc();
    let mut device = sealed_row(&host, alloc);
    change(&mut device, 1, 8, &[0xff; 8]);
    let fake = Fake::new(host, alloc, device);
    let ticket = submit(&host, &fake, &mut (), &mut Unwatched);
    assert_no_epoch(&rt, alloc, &fake);
    // One call prepares a checkpoint, and the next one stops the state.
    assert_same(&rt, &fake.calls(), &3, &"calls");
    assert_stopped(&&rt, &fake);
    spend(&host, &fake, &mut Unwatched, ticket);
    fake.end();
}
