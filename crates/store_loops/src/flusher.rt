//! What the flusher does until the state has stopped.

use crate::retrying::retry;
use crate::steps::{Awaited, Steps};
use crate::watch::{Actor, Silent, Watch, note_memory};
use group_core::{Commit, Following, Opened, PublishError, Stable, StageError, Staged};
use std::sync::Wait;

/// Commits what is accepted, a group or a seal at a time. Where commands wait as the gate of a
/// group was written, their group is written before that gate is synced, so that groups that follow
/// each other take one sync each. The loop ends once the state has stopped; where another refusal
/// is met, the call is made again after a rest. The first refusal of memory in a row is said, and
/// the end of that row.
pub fn flusher_loop<R: Wait, S: Steps, W: Watch>(rt: &R, steps: &S, watch: &W)
    ensures stopped { S.has_stopped steps.now }
{
    let mut is_short = false;
    for _ in rt.forever() {
        let seen = steps.changes(Awaited::Work);
        match steps.stage() {
            Ok(staged) => {
                is_short = note_memory(watch, Actor::Flusher, is_short, false);
                flush(rt, steps, watch, staged);
            }
            Err(StageError::Stopped) => return,
            Err(StageError::NoMemory) => {
                is_short = note_memory(watch, Actor::Flusher, is_short, true);
                steps.rest(Awaited::Work, seen);
            }
            Err(_) => steps.rest(Awaited::Work, seen),
        }
    }
    unreachable!()
}

/// Takes what is staged through all its steps in place of the flusher, to which the next group is
/// left. A state that stops in between spends the value.
pub fn commit_once<R: Wait, S: Steps>(rt: &R, steps: &S, staged: Staged) {
    if let Some(stable) = make_stable(rt, steps, staged)
        && let Some(opened) = retry(rt, steps, stable, |value| steps.open_gate(value))
    {
        commit_alone(rt, steps, &Silent, opened);
    }
}

/// Takes what is staged through all its steps, and after it each group that follows. A state that
/// stops in between spends the value.
fn flush<R: Wait, S: Steps, W: Watch>(rt: &R, steps: &S, watch: &W, staged: Staged) {
    let mut next = make_stable(rt, steps, staged);
    for _ in rt.forever() {
        let Some(stable) = next else {
            return;
        };
        next = commit(rt, steps, watch, stable);
    }
    unreachable!()
}

/// Writes and syncs what is staged.
fn make_stable<R: Wait, S: Steps>(rt: &R, steps: &S, staged: Staged) -> Option<Stable> {
    let written = retry(rt, steps, staged, |value| steps.write_group(value))?;
    retry(rt, steps, written, |value| steps.sync_group(value))
}

/// Opens the gate of what is in flight, and commits it. Returns the group that followed it, which
/// is in flight then, where one did and the state goes on.
fn commit<R: Wait, S: Steps, W: Watch>(
    rt: &R,
    steps: &S,
    watch: &W,
    stable: Stable,
) -> Option<Stable> {
    let opened = retry(rt, steps, stable, |value| steps.open_gate(value))?;
    match steps.follow(opened) {
        Ok(following) => commit_followed(rt, steps, watch, following),
        Err((opened, _refused)) => {
            commit_alone(rt, steps, watch, opened);
            None
        }
    }
}

/// Syncs the gate of what is in flight, and publishes it.
fn commit_alone<R: Wait, S: Steps, W: Watch>(rt: &R, steps: &S, watch: &W, opened: Opened) {
    if let Some(durable) = retry(rt, steps, opened, |value| steps.sync_gate(value)) {
        publish(rt, steps, watch, durable, |value| steps.publish(value));
    }
}

/// Writes the following group, syncs it with the gate of the group in flight, and publishes the
/// group in flight.
fn commit_followed<R: Wait, S: Steps, W: Watch>(
    rt: &R,
    steps: &S,
    watch: &W,
    following: Following,
) -> Option<Stable> {
    let followed = retry(rt, steps, following, |value| steps.write_following(value))?;
    let durable = retry(rt, steps, followed, |value| steps.sync_followed(value))?;
    publish(rt, steps, watch, durable, |value| {
        steps.publish_followed(value)
    })
}

/// Publishes a durable value by this call, again after each refusal of memory, and returns what the
/// call gives. Returns `None` where the value was a stranger, and is given up.
fn publish<R: Wait, S: Steps, W: Watch, P: Copy, N, F: Fn(Commit<P>) -> Result<N, PublishError<P>>>(
    rt: &R,
    steps: &S,
    watch: &W,
    value: Commit<P>,
    call: F,
) -> Option<N>
    requires { F.IsAlwaysCallable call }
{
    let mut value = value;
    let mut is_short = false;
    for _ in rt.forever() {
        match call(value) {
            Ok(next) => {
                note_memory(watch, Actor::Flusher, is_short, false);
                return Some(next);
            }
            Err(PublishError::NoMemory(back)) => value = back,
            Err(PublishError::Stranger(back)) => {
                steps.give_up(back);
                return None;
            }
        }
        is_short = note_memory(watch, Actor::Flusher, is_short, true);
        steps.rest(Awaited::Work, steps.changes(Awaited::Work));
    }
    unreachable!()
}
