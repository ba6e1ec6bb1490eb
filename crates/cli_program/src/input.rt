//! Standard input whose end ends the server.

use std::io::{ErrorKind, Read};
use std::thread::sleep;
use std::time::{Clock, Duration};

/// The most bytes that one read drops.
const MOST_DROPPED: usize = 4_096;

/// The time in milliseconds before an input without bytes is read again.
const PAUSE: u64 = 100;

/// Reads an input to its end, and drops its bytes. An input that cannot be read has ended; a read
/// that was interrupted, or that would have had to wait, is made again.
pub(crate) fn read_to_the_end<R: Clock, I: Read + Drop>(clock: &R, mut input: I) {
    let mut piece = [0u8; MOST_DROPPED];
    for _ in 0..u64::MAX {
        match input.read(&mut piece) {
            Ok(0) => return,
            Ok(_) => {}
            Err(error) => match error.kind() {
                ErrorKind::Interrupted => {}
                ErrorKind::WouldBlock => sleep(clock, Duration::from_millis(PAUSE)),
                _ => return,
            },
        }
    }
}
