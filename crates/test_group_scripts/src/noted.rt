//! Which calls of a device write or sync: between two of them a device stays as it is.

use crate::stores::MOST_CHANGES;
use sector_dev::{DevError, Device};
use std::alloc::Global;
use test_support::TestHost;

/// A device that counts its calls, and notes the numbers of those that write or sync.
#[derive(Drop)]
pub struct Noted<D> {
    device: D,
    calls: Calls,
}

/// How many calls there were, and the numbers of those that wrote or synced, the first call being
/// number 0.
#[derive(Drop)]
pub struct Calls {
    count: u64,
    changes: Vec<u64>,
}

impl Calls {
    /// Notes a call that writes or syncs.
    fn note_change(&mut self) {
        let number = self.count;
        self.count = number.saturating_add(1);
        if self.changes.len() < MOST_CHANGES {
            let _ = self.changes.push(number);
        }
    }

    /// Whether a call's number is tried: that of a write or a sync and of the call after it, each
    /// `apart`-th one, and what is beyond the last one.
    pub fn is_tried(&self, number: u64, apart: u64) -> bool {
        let is_apart = number.checked_rem(apart) == Some(0);
        is_apart
            || self.count <= number
            || self.changes.iter().any(|change| *change == number
                || change.checked_add(1) == Some(number))
    }
}

impl<D> Noted<D> {
    /// The device, with no calls noted. Where memory is refused for their numbers, it is asked for
    /// once more.
    pub fn over(rt: &impl TestHost, alloc: Global, device: D) -> Noted<D> {
        let room = match Vec::with_capacity(alloc, MOST_CHANGES) {
            Err(_) => Vec::with_capacity(alloc, MOST_CHANGES),
            given => given,
        };
        let Ok(changes) = room else {
            rt.fail("out of memory");
        };
        let calls = Calls { count: 0, changes };
        Noted { device, calls }
    }

    /// What was noted, and the device.
    pub fn into_parts(self) -> (Calls, D) {
        let Noted { device, calls } = self;
        (calls, device)
    }
}

impl<D: Device> Device for Noted<D> {
    ghost disk = { λ noted. D.disk noted.device };

    ghost fits = { λ noted. D.fits noted.device };

    ghost whole = { λ noted. D.whole noted.device };

    fn sectors(&self) -> u64 {
        self.device.sectors()
    }

    fn read(&mut self, at: u64, into: &mut [u8]) -> Result<(), DevError> {
        self.calls.count = self.calls.count.saturating_add(1);
        self.device.read(at, into)
    }

    fn write(&mut self, at: u64, bytes: &[u8]) -> Result<(), DevError> {
        self.calls.note_change();
        self.device.write(at, bytes)
    }

    fn sync(&mut self) -> Result<(), DevError> {
        self.calls.note_change();
        self.device.sync()
    }

    fn faults(&self) -> u64 {
        self.device.faults()
    }
}
