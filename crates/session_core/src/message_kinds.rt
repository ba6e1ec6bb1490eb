//! Which kinds of messages there are.

ghost use Rattle.std.specs.Prelude.{◌≡◌};
ghost use Rattle.session_core.specs.Frames.{greatest_kind};

use crate::kinds::{LIST, REMOVE};

/// Which kinds of messages a session or a stream has. A frame of any other kind is a fault,
/// whatever its length.
#[derive(Clone, Copy, Debug, PartialEq, Eq)]
pub enum Kinds {
    /// Kinds 1 to 4: registrations, lookups, purges and removals.
    Base,
    /// Kinds 1 to 5: those, and lists.
    WithLists,
}

impl Kinds {
    /// The greatest kind of a message.
    pub fn greatest(self) -> u8
        ensures { result ≡ greatest_kind self }
    {
        match self {
            Kinds::Base => REMOVE,
            Kinds::WithLists => LIST,
        }
    }
}
