//! What the checkpointer does until the state has stopped.

ghost use Rattle.std.specs.Prelude.{◌≡◌, IfErr};
ghost use Rattle.group_core.specs.declared.beginning.BeginError.TheVariants as begin_refused;

use crate::retrying::{after_refusal, retry};
use crate::steps::{Awaited, Steps};
use crate::watch::{Actor, Notice, Watch, note_memory};
use group_core::{AtPlan, BeginError, Closing, Laid, Plan, Prepared, StepError};
use std::sync::Wait;

/// Folds each sealed journal into the other half, and says when a checkpoint begins and when it is
/// made. The half is read in pieces before that, a call for each. The loop ends once the state has
/// stopped. Where a journal is sealed and no epoch is left for its checkpoint, the loop stops the
/// state, as nothing else would make room for commands. Where another refusal is met, the call is
/// made again after a rest. The first refusal of memory in a row is said, and that a checkpoint
/// begins after that row. Damage of the sealed half is said, too.
pub fn checkpointer_loop<R: Wait, S: Steps, W: Watch>(rt: &R, steps: &S, watch: &W)
    ensures stopped { S.has_stopped steps.now }
{
    let mut is_short = false;
    for _ in rt.forever() {
        let seen = steps.changes(Awaited::Seal);
        match prepare_and_begin(steps) {
            Ok(None) => {}
            Ok(Some(plan)) => {
                is_short = note_memory(watch, Actor::Checkpointer, is_short, false);
                make_checkpoint(rt, steps, watch, plan);
            }
            Err(BeginError::Stopped) => return,
            Err(BeginError::Exhausted) => {
                watch.note(Notice::NoEpoch);
                steps.halt();
                return;
            }
            Err(BeginError::NoMemory) => {
                is_short = note_memory(watch, Actor::Checkpointer, is_short, true);
                steps.rest(Awaited::Seal, seen);
            }
            Err(BeginError::Damaged) => watch.note(Notice::HalfDamaged),
            Err(BeginError::NotSealed | BeginError::InFlight | BeginError::Fault) => {
                steps.rest(Awaited::Seal, seen);
            }
        }
    }
    unreachable!()
}

/// Prepares the next piece of a checkpoint, and begins it once all pieces are prepared. Returns
/// `None` where there are more pieces.
fn prepare_and_begin<S: Steps>(steps: &S) -> Result<Option<Plan>, BeginError>
    ensures { IfErr result (λ e. e ≡ begin_refused.Stopped → S.has_stopped steps.now) }
{
    match steps.prepare()? {
        Prepared::Part => Ok(None),
        Prepared::Whole => Ok(Some(steps.begin()?)),
    }
}

/// Takes a plan through all its steps, between a notice that it is begun and one that it is made. A
/// state that stops in between spends the value.
fn make_checkpoint<R: Wait, S: Steps, W: Watch>(rt: &R, steps: &S, watch: &W, plan: Plan) {
    watch.note(Notice::CheckpointBegun);
    if fold(rt, steps, watch, plan).is_some() {
        watch.note(Notice::CheckpointDone);
    }
}

/// Takes a plan through all its steps. Returns `None` where the state has stopped in between, and
/// the value is spent.
fn fold<R: Wait, S: Steps, W: Watch>(rt: &R, steps: &S, watch: &W, plan: Plan) -> Option<()> {
    let laid = lay(rt, steps, watch, plan)?;
    let closing = make_closing(rt, steps, laid)?;
    retry(rt, steps, closing, |value| steps.sync_close(value))
}

/// Opens the gate of the new half and syncs it, and closes those of the old one.
fn make_closing<R: Wait, S: Steps>(rt: &R, steps: &S, laid: Laid) -> Option<Closing> {
    let switched = retry(rt, steps, laid, |value| steps.open_half(value))?;
    let live = retry(rt, steps, switched, |value| steps.sync_half(value))?;
    retry(rt, steps, live, |value| steps.close_half(value))
}

/// Writes all chunks of a checkpoint, and syncs them.
fn lay<R: Wait, S: Steps, W: Watch>(rt: &R, steps: &S, watch: &W, plan: Plan) -> Option<Laid> {
    let mut plan = plan;
    for _ in rt.forever() {
        if plan.is_done() {
            match steps.sync_chunks(plan) {
                Ok(laid) => return Some(laid),
                Err(refused) => plan = after_refusal(steps, refused)?,
            }
        } else {
            match steps.write_chunk(plan) {
                Ok(next) => plan = next,
                Err(refused) => {
                    note_damage(watch, &refused);
                    plan = after_refusal(steps, refused)?;
                }
            }
        }
    }
    unreachable!()
}

/// Says that the sealed half was found damaged, where a step was refused for that.
fn note_damage<W: Watch>(watch: &W, refused: &StepError<AtPlan>) {
    if let StepError::Damaged = refused {
        watch.note(Notice::HalfDamaged);
    }
}
