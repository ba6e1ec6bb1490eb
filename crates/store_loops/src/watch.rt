//! What the loops say of their work to whoever watches them.

ghost use Rattle.std.specs.Prelude.{◌≡◌};

/// An actor of a store at work.
#[derive(Clone, Copy, Debug, PartialEq, Eq)]
pub enum Actor {
    /// It commits what is accepted.
    Flusher,
    /// It folds a sealed journal into the other half.
    Checkpointer,
}

/// What happened to an actor that an operator should know.
#[derive(Clone, Copy, Debug, PartialEq, Eq)]
pub enum Notice {
    /// Memory was refused to the actor, which makes its call again after a rest.
    NoMemory(Actor),
    /// Memory was given to the actor again.
    MemoryGiven(Actor),
    /// A checkpoint was begun.
    CheckpointBegun,
    /// A checkpoint was made, and its half counts.
    CheckpointDone,
    /// A journal is sealed, and no epoch is left for its checkpoint. The state is stopped after
    /// this notice.
    NoEpoch,
    /// What was read of the sealed half, which counts, is not what this store wrote there. The
    /// state has stopped.
    HalfDamaged,
}

/// Takes the notices of both loops. The loops' threads call it between two calls of the state, so
/// it must not wait for long.
pub trait Watch {
    /// Takes a notice.
    fn note(&self, notice: Notice);
}

/// Says that memory is refused to an actor where it was not before, or is given where it was
/// refused before. Returns whether it is refused.
pub(crate) fn note_memory<W: Watch>(
    watch: &W,
    actor: Actor,
    was_short: bool,
    is_short: bool,
) -> bool
    ensures { result ≡ is_short }
{
    if is_short && !was_short {
        watch.note(Notice::NoMemory(actor));
    } else if was_short && !is_short {
        watch.note(Notice::MemoryGiven(actor));
    }
    is_short
}

/// Drops each notice.
#[derive(Clone, Copy)]
pub struct Silent;

impl Watch for Silent {
    fn note(&self, _notice: Notice) {}
}
