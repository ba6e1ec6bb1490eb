//! The calls of a connection, one for one.

ghost use Rattle.std.specs.Prelude.{◌≡◌, ◌≤◌, ◌<◌, ℕ, List, length, IfOk};
ghost use Rattle.paced_stream.specs.Grown.{grown_by};

use std::io;
use std::time::Duration;

/// The calls of an open connection, for one direction of it or for both. Each method makes one call
/// with its arguments and returns the result of that call: nothing is repeated and nothing is held
/// back.
pub trait StreamCalls {
    /// The bytes that reads by this value have given. Code that is generic in the connection can
    /// add to them by `read_once` alone.
    ghost given: { Self → List ℕ };

    /// The bytes that writes by this value have taken. Code that is generic in the connection can
    /// add to them by `write_once` alone.
    ghost taken: { Self → List ℕ };

    /// A read has found the end of the input. Code that is generic in the connection can show it by
    /// a call of `read_once` alone.
    ghost is_at_end: { Self → Type 0 };

    /// Sets whether a write is sent at once, also where it is small.
    fn set_nodelay(&self, nodelay: bool) -> io::Result<()>;

    /// Sets the time after which a read fails with `WouldBlock`, or that no read does.
    fn set_read_timeout(&self, time: Option<Duration>) -> io::Result<()>;

    /// Sets the time after which a write fails with `WouldBlock`, or that no write does.
    fn set_write_timeout(&self, time: Option<Duration>) -> io::Result<()>;

    /// Reads once, into the first bytes of `into`, and returns their number. A read that fails, as
    /// one that a signal interrupts, has given no byte.
    fn read_once(&mut self, into: &mut [u8]) -> io::Result<usize>
        ensures most { IfOk result (λ n. n ≤ length into.new) }
        ensures given { given self.new ≡ grown_by (given self.old) result into.new }
        ensures taken { taken self.new ≡ taken self.old }
        ensures end { IfOk result (λ n. n ≡ 0 → 0 < length into.new → is_at_end self.new) };

    /// Writes once, from the first of these bytes, and returns the number of bytes that were taken.
    /// A write that fails, as one that a signal interrupts, has taken no byte.
    fn write_once(&mut self, bytes: &[u8]) -> io::Result<usize>
        ensures most { IfOk result (λ n. n ≤ length bytes.now) }
        ensures taken { taken self.new ≡ grown_by (taken self.old) result bytes.now }
        ensures given { given self.new ≡ given self.old };
}
