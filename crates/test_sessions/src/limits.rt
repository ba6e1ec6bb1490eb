//! Tests of the limits of a session, through `session_limits`, and of a session that waits for a
//! peer who leaves, over a hub whose actors run. They see what no clause says: that what a message
//! is refused by is not in the store afterwards, that a command goes on for which nobody waits, how
//! many sessions have room, that lookups are answered while the device holds a sync, and that a
//! session which takes no commands leaves the store as it is.

mod future;
mod leaving;
mod lookups;
mod rooms;
mod sessions;
