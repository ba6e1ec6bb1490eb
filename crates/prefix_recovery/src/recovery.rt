//! The recovery theorem: a run with its trace, and the opening of its device after any stop.

ghost use Rattle.std.specs.Prelude.{◌≡◌, ◌<◌, length, take, IfOk, IfErr};
ghost use Rattle.sector_dev.specs.Disk.{IsHonest};
ghost use Rattle.store_open.specs.Open.{disk_after};
ghost use Rattle.group_recovery.specs.RunSteps.{IsRun};
ghost use Rattle.group_recovery.specs.Reopening.{SaysNothingOfTheImage};
ghost use Rattle.prefix_recovery.specs.Survival.{IsTraceOf, IsLeftSince, Recovers, trace_opened};
ghost use Rattle.prefix_recovery.specs.Served.{LookupsAreServed};
ghost use Rattle.prefix_recovery.specs.Steps.{LeadsThrough};

use crate::steps::{begin, step};
use crate::trace::Trace;
use group_recovery::{Event, Reply, Run, reopen};
use sector_dev::Device;
use std::alloc::{AllocError, Global};
use std::snapshot::Snapshot;
use store_open::{OpenError, Store};

/// A run after some events, the replies to them, and its trace.
pub struct Traced<D: Device> {
    pub run: Run<D>,
    pub replies: Vec<Reply>,
    pub trace: Trace,
}

/// Makes these events, one after the other, and traces the run. An error means that memory was
/// refused for a reply: the events before it were made, and have their replies.
pub fn run_traced<D: Device>(
    alloc: Global,
    run: Run<D>,
    events: &[Event],
) -> Result<Traced<D>, (Traced<D>, AllocError)>
    ensures trace { IfOk result (λ done. IsTraceOf run events.now done.replies.items done.run done.trace) }
    ensures lookups { IfOk result (λ done. LookupsAreServed events.now done.replies.items done.trace.later) }
    ensures steps { IfOk result (λ done. LeadsThrough events.now done.replies.items run done.trace.later) }
    ensures runs { IfOk result (λ done. IsRun events.now done.replies.items run done.run) }

    // Where memory is refused, the same holds of the events that were made.
    ensures fewer { IfErr result (λ refused. length refused.0.replies.items < length events.now) }
    ensures trace_so_far { IfErr result (λ refused.
        IsTraceOf run (take (length refused.0.replies.items) events.now) refused.0.replies.items refused.0.run refused.0.trace) }
    ensures lookups_so_far { IfErr result (λ refused.
        LookupsAreServed (take (length refused.0.replies.items) events.now) refused.0.replies.items refused.0.trace.later) }
    ensures steps_so_far { IfErr result (λ refused.
        LeadsThrough (take (length refused.0.replies.items) events.now) refused.0.replies.items run refused.0.trace.later) }
    ensures runs_so_far { IfErr result (λ refused.
        IsRun (take (length refused.0.replies.items) events.now) refused.0.replies.items run refused.0.run) }
{
    let (mut run, mut trace) = begin(alloc, run);
    let mut replies = Vec::new(alloc);
    if let Err(refused) = replies.reserve(events.len()) {
        trace.recovers();
        return Err((
            Traced {
                run,
                replies,
                trace,
            },
            refused,
        ));
    }
    for i in 0..events.len() {
        match step(alloc, run, &trace, &events[i..i + 1]) {
            Ok((next, reply, longer)) => {
                run = next;
                trace = longer;
                let _ = replies.push(reply);
            }
            Err((back, refused)) => {
                trace.recovers();
                let run = back;
                return Err((
                    Traced {
                        run,
                        replies,
                        trace,
                    },
                    refused,
                ));
            }
        }
    }
    trace.recovers();
    Ok(Traced {
        run,
        replies,
        trace,
    })
}

/// Opens a device after a stop of a traced run, or of an opening after it, any number of times. The
/// trace gets the opening. A device that is not opened is returned with the error.
pub fn reopen_after<D: Device>(
    alloc: Global,
    trace: &Trace,
    device: D,
) -> (Result<Store<D>, (D, OpenError)>, Trace)
    ensures recovers { IfOk result.0 (λ store. IsHonest (D.disk device) → Recovers trace.now (D.disk device) store) }

    // What may be left of the run is refused only where the device fails or memory is refused.
    ensures refused { IfErr result.0 (λ back.
        IsHonest (D.disk device) → IsLeftSince trace.now.start trace.now (D.disk device) → SaysNothingOfTheImage back.1) }

    ensures trace { result.1 ≡ trace_opened trace.now (D.disk device) (disk_after D.disk result.0) }
{
    trace.recovers();
    let before = Snapshot::of(&device);
    let answer = reopen(alloc, device);
    let trace = trace.opened(&before, &answer);
    (answer, trace)
}
