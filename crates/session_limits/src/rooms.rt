//! Room for the sessions that have commands under way.

use std::sync::atomic::{AtomicU64, Ordering};
use std::thread::sleep;
use std::time::{Clock, Duration};

/// The time in milliseconds after which it is asked again whether there is room.
const NAP: u64 = 2;

/// The number of times that it is asked again: within 200 milliseconds.
const NAPS: u64 = 100;

/// The number of sessions that may have commands under way at one time. Threads share it, so that
/// no clause says how many have some.
#[derive(Drop)]
pub struct Rooms {
    most: u64,
    taken: AtomicU64,
}

/// The room of one session. It is given back when it is dropped.
pub(crate) struct Room<'a> {
    rooms: &'a Rooms,
}

impl Rooms {
    /// Room for this number of sessions, which all is free. No clause says so.
    pub fn new(most: u64) -> Rooms {
        Rooms {
            most,
            taken: AtomicU64::new(0),
        }
    }

    /// The number of sessions that have room, by one read of it. No clause says which number that
    /// is.
    pub fn taken(&self) -> u64 {
        self.taken.load(Ordering::SeqCst)
    }

    /// Takes room, for which it waits for 200 milliseconds. The result is `None` where there was
    /// none.
    pub(crate) fn wait(&self, clock: &impl Clock) -> Option<Room<'_>> {
        for _ in 0..NAPS {
            if let Some(room) = self.take() {
                return Some(room);
            }
            sleep(clock, Duration::from_millis(NAP));
        }
        self.take()
    }

    /// Takes room, if there is some now.
    pub(crate) fn take(&self) -> Option<Room<'_>> {
        let mut taken = self.taken();
        for _ in 0..u64::MAX {
            if taken >= self.most {
                return None;
            }
            let next = taken.saturating_add(1);
            match self
                .taken
                .compare_exchange(taken, next, Ordering::SeqCst, Ordering::SeqCst)
            {
                Ok(_) => return Some(Room { rooms: self }),
                Err(seen) => taken = seen,
            }
        }
        None
    }
}

impl Drop for Room<'_> {
    fn drop(self) {
        let Room { rooms } = self;
        rooms.taken.fetch_sub(1, Ordering::SeqCst);
    }
}
