//! The trace of a run.

ghost use Rattle.std.specs.Prelude.{◌≡◌, ◌∷◌, []};
ghost use Rattle.sector_dev.specs.Image.{IsFromImage};
ghost use Rattle.sector_dev.specs.Stretch.{Stretch};
ghost use Rattle.store_open.specs.Open.{OpensAlike, disk_after};
ghost use Rattle.group_recovery.specs.RunLeaves.{RunLeaves, lock_order};
ghost use Rattle.prefix_recovery.specs.Recoverable.{IsRecoverable};
ghost use Rattle.prefix_recovery.specs.Survival.{TraceView, end_of, trace_opened};
ghost use Rattle.prefix_recovery.specs.TraceSteps.{trace_at, trace_after};

use ghost_note::{Note, NoteSource};
use group_recovery::{Event, Reply, Run};
use sector_dev::Device;
use std::marker::Model;
use std::snapshot::Snapshot;
use store_open::{OpenError, Store};

/// A trace that is in no memory. No value of this type is made.
struct TraceValue {
    ghost trace: { TraceView },
}

impl Model for TraceValue {
    ghost use Rattle.std.specs.Borrow.{ftrue};
    ghost use Rattle.prefix_recovery.specs.Survival.{TraceView};

    ghost also_owns = { λ _. ftrue };

    ghost Value = { TraceView };

    ghost view = { λ t. t.trace };
}

/// A run's states and the order of its commands, with the openings of its device after a stop. Only
/// clauses read a trace: it has no bytes.
#[derive(Drop)]
pub struct Trace {
    noted: Note<TraceValue>,
}

impl Model for Trace {
    ghost use Rattle.prefix_recovery.specs.Survival.{TraceView};
    ghost use Rattle.prefix_recovery.specs.Recoverable.{IsRecoverable};

    ghost Value = { TraceView };

    ghost view = { λ t. t.noted.value };

    ghost invariant = { λ t. IsRecoverable t.noted.value };
}

const _: () = prove!(size_of::<Trace>() == 0);

// A run without events.
#[derive(Drop)]
struct StartOf<'a, D: Device> {
    run: &'a Run<D>,
}

impl<'a, D: Device> NoteSource<TraceValue> for StartOf<'a, D> {
    ghost value = { λ s. trace_at s.run.now };
}

// One more event, its reply, and the run after it.
#[derive(Drop)]
struct StepOf<'a, D: Device> {
    trace: &'a Trace,
    event: &'a [Event],
    reply: &'a Reply,
    run: &'a Run<D>,
}

impl<'a, D: Device> NoteSource<TraceValue> for StepOf<'a, D> {
    ghost value = { λ s. trace_after s.trace.now s.event.now s.reply.now s.run.now };
}

// One more opening: the device before it, and what it answered.
#[derive(Drop)]
struct OpeningOf<'a, D: Device> {
    trace: &'a Trace,
    before: &'a Snapshot<D>,
    answer: &'a Result<Store<D>, (D, OpenError)>,
}

impl<'a, D: Device> NoteSource<TraceValue> for OpeningOf<'a, D> {
    ghost value = { λ s. trace_opened s.trace.now (D.disk s.before.now.value) (disk_after D.disk s.answer.now) };
}

impl Trace {
    /// The trace of a run without events.
    pub(crate) fn start<D: Device>(run: &Run<D>) -> Trace
        requires { RunLeaves run.now.state run.now.state.pending run.now.state }
        ensures { result ≡ trace_at run.now }
    {
        Trace {
            noted: Note::of(&StartOf { run }),
        }
    }

    /// The trace with one more event, as a list of one.
    pub(crate) fn and<D: Device>(&self, event: &[Event], reply: &Reply, run: &Run<D>) -> Trace
        requires { RunLeaves (end_of self.now).state (lock_order (end_of self.now).state event.now (reply.now ∷ [])) run.now.state }
        ensures { result ≡ trace_after self.now event.now reply.now run.now }
    {
        self.recovers();
        Trace {
            noted: Note::of(&StepOf {
                trace: self,
                event,
                reply,
                run,
            }),
        }
    }

    /// The trace with one more opening of a device.
    pub(crate) fn opened<D: Device>(
        &self,
        before: &Snapshot<D>,
        answer: &Result<Store<D>, (D, OpenError)>,
    ) -> Trace
        requires { Stretch (D.disk before.now.value) (disk_after D.disk answer.now) (IsFromImage (D.disk before.now.value).history.now OpensAlike) }
        ensures { result ≡ trace_opened self.now (D.disk before.now.value) (disk_after D.disk answer.now) }
    {
        self.recovers();
        Trace {
            noted: Note::of(&OpeningOf {
                trace: self,
                before,
                answer,
            }),
        }
    }

    /// Does nothing: what stops leave of each state of the run.
    pub(crate) fn recovers(&self)
        ensures { IsRecoverable self.now }
    {
        let _ = &self.noted;
    }
}
