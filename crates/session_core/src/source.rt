//! The readers of sessions.

ghost use Rattle.std.specs.Prelude.{◌≡◌, ◌≤◌, ◌<◌, ℕ, List, [], length, take, MatchResult, IfOk, IfErr};
ghost use Rattle.std.specs.Io.KnownBytes.{Consumes, IsAtEnd};

use crate::error::FrameError;
use std::io;
use std::io::Read;

/// The most bytes of one read.
pub const MOST_PIECE: usize = 65_536;

/// The most reads of a session's input that the program makes: the `turns` that it gives to `serve`
/// and `read_all`. No session reaches this number: a thousand million reads a second would take 584
/// years.
pub const MOST_READS: u64 = u64::MAX;

/// A reader whose contract counts its reads: `read_piece` makes one read, and no other call is
/// known to make one.
///
/// Every `Read` is a `Source`. A type that is no `Read` can be a `Source` whose contract names the
/// bytes of each read, as a connection does, whose later bytes nobody knows.
pub trait Source {
    /// One read may give these bytes, and change the first state into the second. A read that fails
    /// gives no bytes.
    ghost gives: { Self → List ℕ → Self → Type 0 };

    /// A read has found the end of the input.
    ghost is_at_end: { Self → Type 0 };

    /// Reads once, into `buf`, and returns the number of bytes that were read. Where the buffer has
    /// room, the number is 0 at the end of the input only.
    fn read_piece(&mut self, buf: &mut [u8]) -> io::Result<usize>
        ensures ok { IfOk result (λ n. n ≤ length buf.new) }
        ensures end { IfOk result (λ n. n ≡ 0 → 0 < length buf.new → is_at_end self.new) }
        ensures one { MatchResult result (λ n. gives self.old (take n buf.new) self.new) (λ _. gives self.old [] self.new) };
}

impl<R: Read> Source for R {
    ghost gives = { λ old bytes new. Consumes (R.remaining old) (R.remaining new) bytes };

    ghost is_at_end = { λ r. IsAtEnd (R.remaining r) };

    fn read_piece(&mut self, buf: &mut [u8]) -> io::Result<usize> {
        self.read(buf)
    }
}

/// Reads once, and returns the number of bytes that were read. The number is 0 at the end of the
/// source only.
pub(crate) fn read_once<R: Source>(reader: &mut R, piece: &mut [u8]) -> Result<usize, FrameError>
    requires { 0 < length piece.old }
    ensures ok { IfOk result (λ n. n ≤ length piece.new) }
    ensures gives { IfOk result (λ n. R.gives reader.old (take n piece.new) reader.new) }
    ensures end { IfOk result (λ n. n ≡ 0 → R.is_at_end reader.new) }
    ensures fails { IfErr result (λ e. e ≡ FrameError.Read) }
    ensures nothing { IfErr result (λ _. R.gives reader.old [] reader.new) }
{
    reader.read_piece(piece).map_err(|_| FrameError::Read)
}
