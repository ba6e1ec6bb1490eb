//! The commands and the lookups of a path segment server, over a store in memory.
//!
//! To the layer above, `once` serves one session: each reply is the one that the messages so far
//! determine, unless memory was refused for it. Then nothing changes, or the message's command was
//! taken and its outcome is not reported. `OnceService` is that service, `cores_of` reads its core
//! ASes from a text, `key_of` a key, and `bytes_of` a stream from hexadecimal text.
#![tactic(auto)]

mod cores;
mod error;
mod hex_input;
mod hex_session;
mod key;
pub mod laws;
mod once_ack;
mod once_service;
mod session;

pub use cores::cores_of;
pub use error::SessionFault;
pub use hex_input::bytes_of;
pub use hex_session::once_in_hex;
pub use key::key_of;
pub use once_ack::OnceAck;
pub use once_service::OnceService;
pub use session::once;
