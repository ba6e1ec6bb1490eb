//! Making a step of an actor until it succeeds.

use crate::steps::{Awaited, Steps};
use group_core::{Commit, StepError};
use std::sync::Wait;

/// Makes a step's call with a value, again after each refusal that returns the value for want of
/// memory. Returns `None` where the state has stopped, and the value is spent.
pub(crate) fn retry<R: Wait, S: Steps, P: Copy, N, F: Fn(Commit<P>) -> Result<N, StepError<P>>>(
    rt: &R,
    steps: &S,
    value: Commit<P>,
    call: F,
) -> Option<N>
    requires { F.IsAlwaysCallable call }
{
    let mut value = value;
    for _ in rt.forever() {
        match call(value) {
            Ok(next) => return Some(next),
            Err(refused) => value = after_refusal(steps, refused)?,
        }
    }
    unreachable!()
}

/// The value to make the same call with again, after a rest. Returns `None` where the state has
/// stopped, and the value is spent.
pub(crate) fn after_refusal<S: Steps, P: Copy>(
    steps: &S,
    refused: StepError<P>,
) -> Option<Commit<P>> {
    match refused {
        StepError::NoMemory(value) => {
            steps.rest(Awaited::Work, steps.changes(Awaited::Work));
            Some(value)
        }
        StepError::Stranger(value) => {
            steps.give_up(value);
            None
        }
        StepError::Fault | StepError::Stopped | StepError::Damaged => None,
    }
}
