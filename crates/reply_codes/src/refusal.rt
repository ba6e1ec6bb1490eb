//! Why a message is refused.

ghost use Rattle.std.specs.Prelude.{◌≡◌};

use crate::codes::{NO_MEMORY, check_code, lookup_code, seg_code, submit_code};
use group_core::SubmitError;
use seg_check::CheckError;
use seg_core::SegError;
use seg_lookup::LookupError;
use session_core::Code;
use std::alloc::AllocError;
use thiserror::Error;

/// Why a message is refused.
#[derive(Clone, Copy, Debug, PartialEq, Eq, Error)]
pub enum Refusal {
    /// Memory was refused. The message may be valid or not.
    #[error("out of memory")]
    NoMemory,
    /// The bytes are not a message of their kind.
    #[error("{0}")]
    Message(SegError),
    /// A segment of the registration is not accepted.
    #[error("{0}")]
    Check(CheckError),
    /// The lookup asks for no segments.
    #[error("{0}")]
    Lookup(LookupError),
    /// The command is not accepted.
    #[error("{0}")]
    Submit(SubmitError),
    /// No reader was free for the lookup.
    #[error("no reader is left")]
    NoReader,
    /// The store stopped before the command was committed. It is not known whether the store keeps
    /// the command.
    #[error("the store stopped before the command was committed")]
    Stopped,
    /// The peer had left, and the wait for the commit was given up. The command goes on: it is
    /// committed or refused as any other.
    #[error("the peer left before the command was committed")]
    NotAwaited,
    /// The timestamp of a segment, or the moment of a purge, lies too far after now.
    #[error("a time lies too far in the future")]
    Future,
    /// The session takes no commands.
    #[error("commands are not taken here")]
    NoCommands,
}

impl Refusal {
    ghost use Rattle.reply_codes.specs.Refusal.{refusal_code};

    /// The code of the refusal in a reply, one byte.
    pub fn code(self) -> Code
        ensures { result.0 ≡ refusal_code self }
    {
        Code(match self {
            Refusal::NoMemory => NO_MEMORY,
            Refusal::Message(error) => seg_code(error),
            Refusal::Check(error) => check_code(error),
            Refusal::Lookup(error) => lookup_code(error),
            Refusal::Submit(error) => submit_code(error),
            Refusal::NoReader => 0x61,
            Refusal::Stopped => 0x62,
            Refusal::NotAwaited => 0x63,
            Refusal::Future => 0x33,
            Refusal::NoCommands => 0x64,
        })
    }
}

/// A refusal is replied by its code.
impl From<Refusal> for Code {
    ghost use Rattle.reply_codes.specs.Refusal.{refusal_code};

    ghost from_gives = { λ refusal code. code.0 ≡ refusal_code refusal };

    fn from(refusal: Refusal) -> Code {
        refusal.code()
    }
}

impl From<AllocError> for Refusal {
    ghost use Rattle.reply_codes.specs.declared.refusal.Refusal.TheVariants.{NoMemory};

    ghost from_gives = { λ _ refusal. refusal ≡ NoMemory };

    fn from(_refused: AllocError) -> Refusal {
        Refusal::NoMemory
    }
}

impl From<SegError> for Refusal {
    ghost use Rattle.reply_codes.specs.declared.refusal.Refusal.TheVariants.{Message};

    ghost from_gives = { λ error refusal. refusal ≡ Message error };

    fn from(error: SegError) -> Refusal {
        Refusal::Message(error)
    }
}

impl From<CheckError> for Refusal {
    ghost use Rattle.reply_codes.specs.declared.refusal.Refusal.TheVariants.{Check};

    ghost from_gives = { λ error refusal. refusal ≡ Check error };

    fn from(error: CheckError) -> Refusal {
        Refusal::Check(error)
    }
}

impl From<LookupError> for Refusal {
    ghost use Rattle.reply_codes.specs.declared.refusal.Refusal.TheVariants.{Lookup};

    ghost from_gives = { λ error refusal. refusal ≡ Lookup error };

    fn from(error: LookupError) -> Refusal {
        Refusal::Lookup(error)
    }
}
