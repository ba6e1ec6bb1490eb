//! What a peer has sent while its session waits.

ghost use Rattle.std.specs.Prelude.{◌≡◌, ◌≤◌, length};

use std::alloc::Global;
use std::cell::{Cell, RefCell};
use std::io::Read;
use std::net::TcpStream;

/// The bytes of a connection that are kept at the most, but for one more read: eight messages of
/// the greatest length.
pub const MOST_READ_AHEAD: usize = 1_048_576;

/// The most bytes of one read.
const PIECE: usize = 16_384;

/// Bytes of a connection that are read while its session waits for a commit, so that the end of the
/// peer's input is found after them. The session's next reads give them (`SystemStream`).
///
/// The thread of the session alone uses it. No clause says what it has, as it shares its bytes.
#[derive(Drop)]
pub struct ReadAhead {
    bytes: RefCell<Vec<u8>>,
    /// Whether reads of the session give nothing more.
    is_over: Cell<bool>,
}

/// What came of one read ahead.
#[derive(Clone, Copy, Debug, PartialEq, Eq)]
pub(crate) enum ReadOn {
    /// Bytes were read, and are kept.
    Kept,
    /// The peer has ended its side.
    Ended,
    /// As many bytes are kept as may be, or memory was refused. Nothing was read.
    Full,
    /// The read failed.
    Failed,
}

impl ReadAhead {
    /// Nothing is kept yet.
    pub fn new(alloc: Global) -> ReadAhead {
        ReadAhead {
            bytes: RefCell::new(Vec::new(alloc)),
            is_over: Cell::new(false),
        }
    }

    /// Has reads of the session find the end of the input from now on: its peer has left, and is
    /// answered no further message.
    pub fn end(&self) {
        self.is_over.set(true);
    }

    /// Whether reads of the session find the end of the input.
    pub(crate) fn is_over(&self) -> bool {
        self.is_over.get()
    }

    /// Reads once, and keeps what was read. The read waits for its first byte, so a caller asks
    /// first whether there is input.
    pub(crate) fn read_on(&self, stream: &TcpStream) -> ReadOn {
        let Ok(mut bytes) = self.bytes.try_borrow_mut() else {
            return ReadOn::Full;
        };
        if bytes.len() >= MOST_READ_AHEAD || bytes.try_reserve(PIECE).is_err() {
            return ReadOn::Full;
        }
        let mut piece = [0u8; PIECE];
        let mut stream = stream;
        match stream.read(&mut piece) {
            Ok(0) => ReadOn::Ended,
            Ok(len) => match bytes.extend_from_slice(piece.split_at(len).0) {
                Ok(()) => ReadOn::Kept,
                Err(_) => ReadOn::Failed,
            },
            Err(_) => ReadOn::Failed,
        }
    }

    /// Moves kept bytes into the first bytes of `into`, and returns their number, which is 0 where
    /// none are kept. The memory of bytes that were moved is given back with the last of them.
    pub(crate) fn take(&self, into: &mut [u8]) -> usize
        ensures most { result ≤ length into.new }
        ensures size { length into.new ≡ length into.old }
    {
        match self.bytes.try_borrow_mut() {
            Ok(mut bytes) => move_front(&mut bytes, into),
            Err(_) => 0,
        }
    }
}

/// Moves the front of some bytes into the first bytes of `into`, and returns their number.
fn move_front(bytes: &mut Vec<u8>, into: &mut [u8]) -> usize
    ensures most { result ≤ length into.new }
    ensures size { length into.new ≡ length into.old }
{
    let len = bytes.len().min(into.len());
    into[..len].copy_from_slice(&bytes.as_slice()[..len]);
    bytes.drain(..len);
    if bytes.is_empty() {
        let alloc = *bytes.allocator();
        *bytes = Vec::new(alloc);
    }
    len
}
