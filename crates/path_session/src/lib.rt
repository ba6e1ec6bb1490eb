//! A session's service over a hub.
//!
//! To the layer above, `HubService` answers each message by the first refusal in its order, or else
//! by the hub: a lookup or a list by what is published, at the moment that the service's clock
//! gave, and a command by the hub's receipt, of which alone a `HubAck` is made. A command can be
//! taken ahead of its answer. The crate exports `session_core`, whose `serve` runs a session.
#![tactic(auto)]

mod hub_ack;
mod refused;
mod service;
mod under_way;

pub use hub_ack::HubAck;
pub use service::HubService;
pub use session_clock::{Now, SystemNow};
pub use session_core::{
    Ack, Acknowledges, Code, CommandKind, Fed, Form, FrameError, Framer, ListRequest, Listing,
    MOST_AHEAD, MOST_LENGTH, MOST_PIECE, MOST_REPLY, MOST_SEGMENTS, Message, Outcome, Replies,
    Reply, Service, Source, laws, read_all, serve, serve_in_lines,
};
pub use under_way::HubUnderWay;
