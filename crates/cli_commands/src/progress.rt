//! How far a command over devices has come, as lines on standard error.

ghost use Rattle.std.specs.Prelude.{◌≡◌};

use sector_dev::{DevError, Device};
use std::time::{Clock, Instant};

/// The least time between two lines, in seconds.
const PAUSE: u64 = 1;

/// The bytes of the unit in which lengths and transfers are printed.
pub(crate) const MEBIBYTE: u64 = 1 << 20;

/// A device that prints how many bytes were transferred, once in each second in which it is called.
/// A line that cannot be printed is left out.
#[derive(Drop)]
pub(crate) struct Progress<'r, D, R> {
    device: D,
    rt: &'r R,
    path: &'r str,
    /// What a line says of the bytes, such as `read`.
    verb: &'static str,
    /// The number of bytes of the reads and the writes so far.
    bytes: u64,
    /// When the last line was printed, or when this began; `None` where the clock cannot be read.
    printed: Option<Instant>,
}

impl<'r, D: Device, R: Clock + Eprint> Progress<'r, D, R> {
    /// Over a device whose file has this path.
    pub(crate) fn over(
        rt: &'r R,
        device: D,
        path: &'r str,
        verb: &'static str,
    ) -> Progress<'r, D, R> {
        Progress {
            device,
            rt,
            path,
            verb,
            bytes: 0,
            printed: Instant::now(rt).ok(),
        }
    }

    /// Counts the bytes of a call that begins, and prints a line where it is time for one.
    fn note(&mut self, bytes: usize)
        ensures { self.new.device ≡ self.old.device }
    {
        if self.is_time() {
            let mebibytes = self.bytes / MEBIBYTE;
            let _ = eprintln!(self.rt; "pathd: {}: {} {mebibytes} MiB", self.path, self.verb);
            self.printed = Instant::now(self.rt).ok();
        }
        self.bytes = self.bytes.saturating_add(bytes as u64);
    }

    /// Whether the last line was printed long enough ago.
    fn is_time(&self) -> bool {
        let Some(printed) = self.printed else {
            return false;
        };
        match printed.elapsed(self.rt) {
            Ok(elapsed) => PAUSE <= elapsed.as_secs(),
            Err(_) => false,
        }
    }
}

impl<D: Device, R: Clock + Eprint> Device for Progress<'_, D, R> {
    ghost disk = { λ progress. D.disk progress.device };

    ghost fits = { λ progress. D.fits progress.device };

    ghost whole = { λ progress. D.whole progress.device };

    fn sectors(&self) -> u64 {
        self.device.sectors()
    }

    fn read(&mut self, at: u64, into: &mut [u8]) -> Result<(), DevError> {
        self.note(into.len());
        self.device.read(at, into)
    }

    fn write(&mut self, at: u64, bytes: &[u8]) -> Result<(), DevError> {
        self.note(bytes.len());
        self.device.write(at, bytes)
    }

    fn sync(&mut self) -> Result<(), DevError> {
        self.note(0);
        self.device.sync()
    }

    fn faults(&self) -> u64 {
        self.device.faults()
    }
}
