//! Readers and writers that give and take in pieces, and fail.

use std::alloc::Global;
use std::io;
use std::io::{ErrorKind, Read, Write};

/// The number of a call that is never made.
pub const NEVER: u64 = u64::MAX;

/// Gives its bytes in pieces of at most this size. The read of this number, from 0, fails.
#[derive(Drop)]
pub struct Pieces<'a> {
    pub bytes: &'a [u8],
    pub size: usize,
    pub reads: u64,
    pub failing: u64,
}

/// A reader of all bytes, in pieces of at most this size.
pub fn in_pieces(bytes: &[u8], size: usize) -> Pieces<'_> {
    Pieces {
        bytes,
        size,
        reads: 0,
        failing: NEVER,
    }
}

impl Read for Pieces<'_> {
    fn read(&mut self, buf: &mut [u8]) -> io::Result<usize> {
        let number = self.reads;
        self.reads = number.saturating_add(1);
        if number == self.failing {
            return Err(io::Error::from(ErrorKind::Interrupted));
        }
        let count = self.size.min(self.bytes.len()).min(buf.len());
        let (front, rest) = self.bytes.split_at(count);
        buf[..count].copy_from_slice(front);
        self.bytes = rest;
        Ok(count)
    }
}

/// What a writer does once it is full.
#[derive(Clone, Copy)]
pub enum WhenFull {
    TakesNone,
    Fails,
}

/// Takes this number of bytes, at most three at a time.
#[derive(Drop)]
pub struct Narrow {
    pub taken: Vec<u8>,
    pub room: usize,
    pub when_full: WhenFull,
}

impl Write for Narrow {
    fn write(&mut self, buf: &[u8]) -> io::Result<usize> {
        let count = self.room.min(buf.len()).min(3);
        if count == 0 {
            return match self.when_full {
                WhenFull::TakesNone => Ok(0),
                WhenFull::Fails => Err(io::Error::from(ErrorKind::Interrupted)),
            };
        }
        self.taken.extend_from_slice(buf.split_at(count).0)?;
        self.room -= count;
        Ok(count)
    }

    fn flush(&mut self) -> io::Result<()> {
        Ok(())
    }
}

/// Takes all bytes, and counts its writes. The write of this number, from 0, fails.
#[derive(Drop)]
pub struct FailsOnce {
    pub taken: Vec<u8>,
    pub writes: usize,
    pub failing: usize,
}

impl Write for FailsOnce {
    fn write(&mut self, buf: &[u8]) -> io::Result<usize> {
        let number = self.writes;
        self.writes = number.saturating_add(1);
        if number == self.failing {
            return Err(io::Error::from(ErrorKind::Interrupted));
        }
        self.taken.extend_from_slice(buf)?;
        Ok(buf.len())
    }

    fn flush(&mut self) -> io::Result<()> {
        Ok(())
    }
}

/// Takes all bytes, and keeps them apart until it is flushed. The flush of this number, from 0,
/// fails.
#[derive(Drop)]
pub struct Holds {
    pub held: Vec<u8>,
    pub flushed: Vec<u8>,
    pub flushes: u64,
    pub failing: u64,
}

impl Holds {
    pub fn new(alloc: Global, failing: u64) -> Holds {
        Holds {
            held: Vec::new(alloc),
            flushed: Vec::new(alloc),
            flushes: 0,
            failing,
        }
    }
}

impl Write for Holds {
    fn write(&mut self, buf: &[u8]) -> io::Result<usize> {
        self.held.extend_from_slice(buf)?;
        Ok(buf.len())
    }

    fn flush(&mut self) -> io::Result<()> {
        let number = self.flushes;
        self.flushes = number.saturating_add(1);
        if number == self.failing {
            return Err(io::Error::from(ErrorKind::Interrupted));
        }
        self.flushed.extend_from_slice(self.held.as_slice())?;
        self.held.clear();
        Ok(())
    }
}
