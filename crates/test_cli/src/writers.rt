//! A writer that is full at some point.

use crate::checks::assert_same;
use std::alloc::{AllocError, Global};
use std::fmt::Debug;
use std::io;
use std::io::Write;
use std::process::Abort;
use std::str::from_utf8;

/// Takes this number of bytes, at most three at a time, and then none.
#[derive(Drop)]
pub struct Room {
    pub taken: Vec<u8>,
    pub room: usize,
}

/// A writer with room for this number of bytes.
pub fn with_room(alloc: Global, room: usize) -> Room {
    Room {
        taken: Vec::new(alloc),
        room,
    }
}

/// The same, which wants no more memory.
pub fn with_memory(alloc: Global, room: usize) -> Result<Room, AllocError> {
    Ok(Room {
        taken: Vec::with_capacity(alloc, room)?,
        room,
    })
}

impl Write for Room {
    fn write(&mut self, buf: &[u8]) -> io::Result<usize> {
        let count = self.room.min(buf.len()).min(3);
        self.taken.extend_from_slice(buf.split_at(count).0)?;
        self.room -= count;
        Ok(count)
    }

    fn flush(&mut self) -> io::Result<()> {
        Ok(())
    }
}

/// Sees that a text was written in a case.
pub fn assert_text<C: Debug>(rt: &impl Abort, output: &Room, wanted: &str, case: &C) {
    assert_same(rt, &from_utf8(&output.taken).ok(), &Some(wanted), case);
}
