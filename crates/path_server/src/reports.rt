//! The reports of a server while it runs.

use crate::anchor::Doubt;
use hub_claims::HubError;
use path_hub::Actor;
use session_core::FrameError;
use status_page::Usage;
use std::fmt;
use std::fmt::{Display, Formatter};
use std::net::SocketAddr;

/// What happened to a server that its operator should know.
#[derive(Clone, Copy, Debug, PartialEq, Eq)]
pub enum Report {
    /// Every thread that serves has begun: peers are answered from now on.
    Ready,
    /// The device failed, and the store takes no more commands. Lookups go on.
    Stopped,
    /// No epoch is left for a checkpoint, so the store takes no more commands. Lookups go on.
    Exhausted,
    /// What a checkpoint read of the half of this epoch is not what the store wrote there, and the
    /// store has stopped. `Stopped` is reported, too.
    HalfDamaged {
        epoch: u64,
    },
    /// The rows of the store that was opened do not fit its checkpoint area, so the store takes no
    /// commands. Lookups go on.
    Overfull,
    /// The store met a defect of the program, and takes no more commands. Lookups go on.
    Defect,
    /// This number of peers were turned away since the last such report, because all seats of their
    /// listener's sessions were taken.
    TurnedAway(u64),
    /// The same, of peers of the listener of lookups.
    LookupsTurnedAway(u64),
    /// This number of peers were turned away since the last such report, because their address had
    /// as many sessions open as one address may have.
    AddressFull(u64),
    /// This number of peers were turned away since the last such report, because no thread was
    /// given for them.
    NoThread(u64),
    /// An accept failed with the system's error of this number, and the next one is made after this
    /// number of milliseconds.
    NotAccepted {
        error: i32,
        pause: u64,
    },
    /// This number of sessions ended by a fault since the last such report; the last one was that
    /// of this peer, for this reason.
    Faulted {
        count: u64,
        peer: Option<SocketAddr>,
        why: FrameError,
    },
    /// A purge that the server made by itself was refused for this reason, and the one before was
    /// not. The next one is made after the period of the options.
    NotPurged(HubError),
    /// A purge that the server made by itself was committed, and the one before was refused.
    PurgedAgain,
    /// The server's own purges rest for this reason, and the one before was made.
    PurgesRest(Doubt),
    /// The server's own purges go on, and the one before was not made.
    PurgesGoOn,
    /// A purge that the server made by itself has dropped this many rows of this many, which is
    /// more than half of them.
    PurgedMost {
        dropped: u64,
        rows: u64,
    },
    /// Memory was refused to this actor of the store, which tries again.
    NoMemory(Actor),
    /// Memory was given to this actor again.
    MemoryGiven(Actor),
    /// A checkpoint was begun.
    CheckpointBegun,
    /// A checkpoint was done, this number of milliseconds after it was begun.
    CheckpointDone {
        milliseconds: u64,
    },
}

impl Display for Report {
    fn fmt<W: fmt::Write>(&self, f: &mut Formatter<W>) -> fmt::Result {
        match self {
            Report::Ready => write!(f, "every thread that serves has begun"),
            Report::Stopped => write!(
                f,
                "the store has stopped at a fault of its device; lookups go on"
            ),
            Report::Exhausted => write!(
                f,
                "the store has stopped, as no epoch is left for a checkpoint; lookups go on"
            ),
            Report::HalfDamaged { epoch } => {
                write!(
                    f,
                    "the half of epoch {epoch} reads otherwise than it was written"
                )
            }
            Report::Overfull => write!(
                f,
                "the store takes no commands, as its rows do not fit its checkpoint area; lookups go on"
            ),
            Report::Defect => write!(
                f,
                "the store has stopped at a defect of the program; lookups go on"
            ),
            Report::TurnedAway(count) => {
                write!(f, "sessions refused, as all seats are taken: {count}")
            }
            Report::LookupsTurnedAway(count) => write!(
                f,
                "sessions refused, as all seats for lookups are taken: {count}"
            ),
            Report::AddressFull(count) => write!(
                f,
                "sessions refused, as their address has reached its limit of sessions: {count}"
            ),
            Report::NoThread(count) => {
                write!(f, "sessions refused, as no thread was given: {count}")
            }
            Report::NotAccepted { error, pause } => write!(
                f,
                "an accept failed by error {error} of the system; the next one is made after {pause} ms"
            ),
            Report::Faulted { count, peer, why } => write_faulted(f, *count, peer.as_ref(), why),
            Report::NotPurged(why) => {
                write!(
                    f,
                    "the server's own purge was refused: {why}; it tries again"
                )
            }
            Report::PurgedAgain => write!(f, "the server's own purge is done again"),
            Report::PurgesRest(doubt) => write!(f, "the server's own purges rest, as {doubt}"),
            Report::PurgesGoOn => write!(f, "the server's own purges go on"),
            Report::PurgedMost { dropped, rows } => write!(
                f,
                "the server's own purge has dropped {dropped} of {rows} segments"
            ),
            Report::NoMemory(actor) => {
                write!(f, "the {} has no memory, and tries again", name_of(*actor))
            }
            Report::MemoryGiven(actor) => write!(f, "the {} has memory again", name_of(*actor)),
            Report::CheckpointBegun => write!(f, "a checkpoint has begun"),
            Report::CheckpointDone { milliseconds } => {
                write!(f, "the checkpoint is done after {milliseconds} ms")
            }
        }
    }
}

/// The word for an actor.
fn name_of(actor: Actor) -> &'static str {
    match actor {
        Actor::Flusher => "flusher",
        Actor::Checkpointer => "checkpointer",
    }
}

/// Writes the line of sessions that ended by a fault.
fn write_faulted<W: fmt::Write>(
    f: &mut Formatter<W>,
    count: u64,
    peer: Option<&SocketAddr>,
    why: &FrameError,
) -> fmt::Result {
    write!(f, "sessions ended by a fault: {count}, ")?;
    match peer {
        Some(peer) => write!(f, "the last one that of {peer}: {why}"),
        None => write!(f, "the last one by this: {why}"),
    }
}

/// Takes the reports of a server, and says whether the server is to end. Several threads call it;
/// none of its calls waits.
pub trait Reports {
    /// Takes a report.
    fn report(&self, report: Report);

    /// Whether the server is to end: it accepts no more sessions, gives those that are open some
    /// time, and then ends them.
    fn wants_end(&self) -> bool {
        false
    }

    /// The number of reports that were dropped, since too many waited to be printed.
    fn dropped(&self) -> u64 {
        0
    }

    /// What the process uses of the machine, or `None` where that is not known.
    fn usage(&self) -> Option<Usage> {
        None
    }
}
