//! A connection in memory.

ghost use Rattle.std.specs.Prelude.{◌≡◌, []};

use crate::connections::clock::MovedClock;
use paced_stream::StreamCalls;
use std::alloc::Global;
use std::io;
use std::io::ErrorKind;
use std::sync::atomic::{AtomicBool, AtomicU64, Ordering};
use std::time::Duration;

/// A connection in memory, by which its calls are as they were made.
#[derive(Drop)]
pub struct MemStream<'a> {
    /// What the peer sends after what reads have given.
    pub coming: &'a [u8],
    /// What reads have given.
    pub given: Vec<u8>,
    /// What writes have taken.
    pub taken: Vec<u8>,
    /// The most bytes of a call, at least 1.
    pub piece: usize,
    /// The number of calls.
    pub calls: u64,
    /// Each call is interrupted whose number is a multiple of this, from 1.
    pub interrupts: u64,
    /// How many bytes are taken before a write times out.
    pub room: usize,
    /// Whether a read at the end of `coming` times out, and finds no end.
    pub stays_open: bool,
    /// Whether a call that sets a time fails.
    pub is_broken: bool,
    /// Whether small writes are sent at once.
    pub is_prompt: AtomicBool,
    /// The clock that calls move, if there is one.
    pub clock: Option<&'a MovedClock>,
    /// How long each call takes, in milliseconds.
    pub takes: u64,
    /// The time that was set last, in milliseconds: a call that takes longer fails then.
    limit: AtomicU64,
}

/// A connection whose peer sends these bytes and then no more.
pub fn connection(alloc: Global, coming: &[u8], piece: usize) -> MemStream<'_> {
    MemStream {
        coming,
        given: Vec::new(alloc),
        taken: Vec::new(alloc),
        piece,
        calls: 0,
        interrupts: u64::MAX,
        room: usize::MAX,
        stays_open: false,
        is_broken: false,
        is_prompt: AtomicBool::new(false),
        clock: None,
        takes: 0,
        limit: AtomicU64::new(u64::MAX),
    }
}

impl MemStream<'_> {
    /// Lets a call take this number of milliseconds, or the time that was set where that is less.
    /// Returns whether the call has ended within that time.
    fn lasts(&self, takes: u64) -> bool {
        let limit = self.limit.load(Ordering::SeqCst);
        if let Some(clock) = self.clock {
            clock.pass(takes.min(limit));
        }
        takes <= limit
    }

    /// Lets a call wait until its time is over. Returns its error.
    fn late(&self) -> io::Error {
        let _is_in_time = self.lasts(u64::MAX);
        io::Error::from(ErrorKind::WouldBlock)
    }

    /// Counts a call. It fails where its time is over, and where it is interrupted.
    fn call(&mut self) -> io::Result<()>
        ensures given { self.new.given ≡ self.old.given }
        ensures taken { self.new.taken ≡ self.old.taken }
    {
        if !self.lasts(self.takes) {
            return Err(io::Error::from(ErrorKind::WouldBlock));
        }
        self.calls = self.calls.saturating_add(1);
        if self.interrupts > 0 && self.calls % self.interrupts == 0 {
            return Err(io::Error::from(ErrorKind::Interrupted));
        }
        Ok(())
    }

    /// Sets the time of calls.
    fn set(&self, time: Option<Duration>) -> io::Result<()> {
        if self.is_broken {
            return Err(io::Error::from(ErrorKind::Other));
        }
        let limit = match time {
            Some(time) => u64::try_from(time.as_millis()).unwrap_or(u64::MAX),
            None => u64::MAX,
        };
        self.limit.store(limit, Ordering::SeqCst);
        Ok(())
    }
}

impl StreamCalls for MemStream<'_> {
    ghost given = { λ stream. stream.given.items };

    ghost taken = { λ stream. stream.taken.items };

    ghost is_at_end = { λ stream. stream.coming.now ≡ [] };

    fn set_nodelay(&self, nodelay: bool) -> io::Result<()> {
        self.is_prompt.store(nodelay, Ordering::SeqCst);
        Ok(())
    }

    fn set_read_timeout(&self, time: Option<Duration>) -> io::Result<()> {
        self.set(time)
    }

    fn set_write_timeout(&self, time: Option<Duration>) -> io::Result<()> {
        self.set(time)
    }

    fn read_once(&mut self, into: &mut [u8]) -> io::Result<usize> {
        if self.coming.is_empty() && self.stays_open {
            return Err(self.late());
        }
        self.call()?;
        let count = self.piece.max(1).min(self.coming.len()).min(into.len());
        let (front, rest) = self.coming.split_at(count);
        into.split_at_mut(count).0.copy_from_slice(front);
        self.given.extend_from_slice(into.split_at(count).0)?;
        self.coming = rest;
        Ok(count)
    }

    fn write_once(&mut self, bytes: &[u8]) -> io::Result<usize> {
        if self.room == 0 {
            return Err(self.late());
        }
        self.call()?;
        let count = self.piece.max(1).min(self.room).min(bytes.len());
        self.taken.extend_from_slice(bytes.split_at(count).0)?;
        self.room -= count;
        Ok(count)
    }
}
