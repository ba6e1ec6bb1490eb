//! The requests of the command that asks a server.

ghost use Rattle.std.specs.Prelude.{◌≡◌, ◌≢◌, IfSome, IfNone, IsTrue, ◌↔◌};
ghost use Rattle.cli_words.specs.Requests.{request_name, TakesWords};

use crate::{LIST, LOOKUP, PURGE, REGISTER, REMOVE};

/// A request of a client.
#[derive(Clone, Copy, Debug, PartialEq, Eq)]
pub enum Request {
    /// The segments between two ASes: `LOOKUP`.
    Lookup,
    /// All segments of some types: `LIST`.
    List,
    /// Segments are registered: `REGISTER`.
    Register,
    /// Segments that have expired are dropped: `PURGE`.
    Purge,
    /// One segment is dropped: `REMOVE`.
    Remove,
}

impl Request {
    /// The request of this name. `None`: no request has it.
    pub fn named(name: &str) -> Option<Request>
        ensures some { IfSome result (λ request. name.now ≡ request_name request) }
        ensures none { IfNone result ((request : Request) → name.now ≢ request_name request) }
    {
        Some(match name {
            LOOKUP => Request::Lookup,
            LIST => Request::List,
            REGISTER => Request::Register,
            PURGE => Request::Purge,
            REMOVE => Request::Remove,
            _ => return None,
        })
    }

    /// Whether this number of words may come after its name.
    pub fn takes(self, count: usize) -> bool
        ensures { IsTrue result ↔ TakesWords self count }
    {
        match self {
            Request::Lookup | Request::Remove => count == 2,
            Request::List => count <= 3,
            Request::Register => count == 1,
            Request::Purge => count <= 1,
        }
    }

    /// What comes after its name.
    pub(crate) fn usage(self) -> &'static str {
        match self {
            Request::Lookup => "lookup SRC DST",
            Request::List => "list [TYPE [START [END]]]",
            Request::Register => "register FILE",
            Request::Purge => "purge [T]",
            Request::Remove => "remove TYPE ID",
        }
    }
}
