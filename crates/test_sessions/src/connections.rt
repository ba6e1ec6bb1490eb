//! Tests of `paced_stream`: sessions over a connection in memory whose calls move bytes in pieces,
//! are interrupted and time out. The frames are those of the worked session.

mod busy;
mod clock;
mod memory;
mod sessions;
mod times;
