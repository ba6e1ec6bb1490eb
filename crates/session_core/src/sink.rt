//! The writers of sessions.

ghost use Rattle.std.specs.Prelude.{ℕ, List, Option, ⊤, OnOk, OnErr};
ghost use Rattle.std.specs.Io.KnownBytes.{Appends, Keeps};
ghost use Rattle.whole_writes.specs.Written.{IsWrittenInPart};

use std::io;
use std::io::Write;
use whole_writes::{WriteFailed, write_all};

/// A writer that may hold bytes back until it is asked to send them.
///
/// Every `Write` is a `Sink`, of which it is not known what it holds back. A type that is no
/// `Write` can be a `Sink` whose contract says when it holds nothing back, as a buffered connection
/// does.
pub trait Sink {
    /// The bytes that were written to it, where they are known.
    ghost contents: { Self → Option (List ℕ) };

    /// No byte that was written is held back.
    ghost is_sent: { Self → Type 0 };

    /// Writes all of the bytes. No failed write is repeated, and after an error a front of the
    /// bytes, perhaps of no byte, is written.
    fn write_whole(&mut self, bytes: &[u8]) -> Result<(), WriteFailed>
        ensures ok { OnOk result (Appends (contents self.old) (contents self.new) bytes.now) }
        ensures err { OnErr result (IsWrittenInPart (contents self.old) (contents self.new) bytes.now) };

    /// Sends the bytes that are held back.
    fn send(&mut self) -> io::Result<()>
        ensures bytes { Keeps (contents self.old) (contents self.new) }
        ensures sent { OnOk result (is_sent self.new) };
}

impl<W: Write> Sink for W {
    ghost contents = { W.contents };

    ghost is_sent = { λ _. ⊤ };

    fn write_whole(&mut self, bytes: &[u8]) -> Result<(), WriteFailed> {
        write_all(self, bytes)
    }

    fn send(&mut self) -> io::Result<()> {
        self.flush()
    }
}
