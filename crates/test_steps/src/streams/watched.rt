//! A device that notes what changes it, and that may lie.

use sector_dev::{DevError, Device, SECTOR};
use std::alloc::Global;
use test_group_scripts::stores::MOST_CHANGES;
use test_support::TestHost;

/// A call that writes this number of sectors from one on, or that syncs.
#[derive(Clone, Copy, Debug, PartialEq, Eq)]
pub enum Change {
    Write { at: u64, sectors: usize },
    Sync,
}

/// A device that counts its reads and notes its changes. After this number of reads one read lies:
/// all bits that it reads are inverted. So the device is not known to be honest.
#[derive(Drop)]
pub struct Watched<D> {
    device: D,
    changes: Vec<Change>,
    reads: u64,
    sectors_read: u64,
    honest: u64,
}

impl<D> Watched<D> {
    /// The device, of which the read after this number of reads lies. Where memory is refused for
    /// its changes, it is asked for once more.
    pub fn over(rt: &impl TestHost, alloc: Global, device: D, honest: u64) -> Watched<D> {
        let room = match Vec::with_capacity(alloc, MOST_CHANGES) {
            Err(_) => Vec::with_capacity(alloc, MOST_CHANGES),
            given => given,
        };
        let Ok(changes) = room else {
            rt.fail("out of memory");
        };
        Watched {
            device,
            changes,
            reads: 0,
            sectors_read: 0,
            honest,
        }
    }

    /// How many reads were made.
    pub fn reads(&self) -> u64 {
        self.reads
    }

    /// How many sectors were read by these reads.
    pub fn sectors_read(&self) -> u64 {
        self.sectors_read
    }

    /// What changed the device, in this order.
    pub fn changes(&self) -> &[Change] {
        &self.changes
    }

    /// What changed the device, and the device.
    pub fn into_parts(self) -> (Vec<Change>, D) {
        let Watched {
            device,
            changes,
            ..
        } = self;
        (changes, device)
    }
}

/// Notes a change, where there is room.
fn note(changes: &mut Vec<Change>, change: Change) {
    if changes.len() < MOST_CHANGES {
        let _ = changes.push(change);
    }
}

/// Inverts all bits.
fn invert(bytes: &mut [u8]) {
    for byte in bytes {
        *byte = !*byte;
    }
}

impl<D: Device> Device for Watched<D> {
    ghost use Rattle.std.specs.Prelude.{false};
    ghost use Rattle.std.proofs.lemmas.Bool.{false≢true};

    ghost disk = { λ watched. record (D.disk watched.device) { is_honest = false } };

    ghost fits = { λ watched. D.fits watched.device };

    ghost whole = { λ watched honest. absurd (false≢true honest) };

    fn sectors(&self) -> u64 {
        self.device.sectors()
    }

    fn read(&mut self, at: u64, into: &mut [u8]) -> Result<(), DevError> {
        self.device.read(at, into)?;
        if self.reads == self.honest {
            invert(into);
        }
        self.reads = self.reads.saturating_add(1);
        let sectors = (into.len() / SECTOR) as u64;
        self.sectors_read = self.sectors_read.saturating_add(sectors);
        Ok(())
    }

    fn write(&mut self, at: u64, bytes: &[u8]) -> Result<(), DevError> {
        let sectors = bytes.len() / SECTOR;
        note(&mut self.changes, Change::Write { at, sectors });
        self.device.write(at, bytes)
    }

    fn sync(&mut self) -> Result<(), DevError> {
        note(&mut self.changes, Change::Sync);
        self.device.sync()
    }

    fn faults(&self) -> u64 {
        self.device.faults()
    }
}
