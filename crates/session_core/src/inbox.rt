//! The bytes that were read but are not answered yet.

ghost use Rattle.std.specs.Prelude.{◌≡◌, ◌+◌, ◌-◌, ◌^◌, ◌<◌, ◌≤◌, [], length, take, drop, slice_range, IfOk, IfErr, IfSome, OnOk, OnErr, IsTrue, ◌↔◌};
ghost use Rattle.session_core.specs.Front.{IsFrontReading};
ghost use Rattle.session_core.specs.Source.{TakesIn, FailsToTakeIn};

use crate::error::FrameError;
use crate::frames::next_frame;
use crate::message::Message;
use crate::message_kinds::Kinds;
use crate::source::{MOST_PIECE, Source, read_once};
use std::alloc::{AllocError, Global};
use std::marker::Model;

/// Bytes of a stream of frames, from the first frame on that is not answered: less than a frame and
/// one piece of input.
///
/// Input is read straight into the memory after them.
#[derive(Drop)]
pub(crate) struct Inbox {
    /// The bytes, and memory before and after them.
    bytes: Vec<u8>,
    /// Where the bytes that are not answered begin.
    used: usize,
    /// Where they end.
    end: usize,
}

impl Model for Inbox {
    ghost use Rattle.std.specs.Prelude.{ℕ, List, ◌≤◌, length, take, drop};

    ghost Value = { List ℕ };

    ghost view = { λ s. drop s.used (take s.end s.bytes.items) };

    ghost invariant = { λ s. (s.used ≤ s.end) × (s.end ≤ length s.bytes.items) };
}

impl Inbox {
    /// An inbox without bytes.
    pub(crate) fn new(alloc: Global) -> Inbox
        ensures { result ≡ [] }
    {
        Inbox {
            bytes: Vec::new(alloc),
            used: 0,
            end: 0,
        }
    }

    /// An inbox with these bytes.
    pub(crate) fn holding(bytes: Vec<u8>) -> Inbox
        ensures { result ≡ bytes.items }
    {
        let end = bytes.len();
        Inbox {
            bytes,
            used: 0,
            end,
        }
    }

    /// Whether no byte is left.
    pub(crate) fn is_empty(&self) -> bool
        ensures { (IsTrue result) ↔ (self.now ≡ []) }
    {
        self.used == self.end
    }

    /// Reads once, takes in what was read at the end, and returns the number of bytes that were
    /// read. The number is 0 at the end of the source only. Where memory is refused, nothing was
    /// read.
    pub(crate) fn read_from<R: Source>(&mut self, reader: &mut R) -> Result<usize, FrameError>
        ensures ok { IfOk result (λ n. TakesIn R.gives reader.old self.old n reader.new self.new) }
        ensures end { IfOk result (λ n. n ≡ 0 → R.is_at_end reader.new) }
        ensures err { IfErr result (λ e. FailsToTakeIn R.gives reader.old e reader.new) }
        ensures same { OnErr result (self.new ≡ self.old) }
    {
        if make_room(&mut self.bytes, self.used, self.end).is_err() {
            return Err(FrameError::NoMemory);
        }
        self.end -= self.used;
        self.used = 0;
        let len = read_after(reader, self.bytes.as_mut_slice(), self.end)?;
        self.end += len;
        Ok(len)
    }

    /// The message whose frame is at the front, and how many bytes the frame has. `None` means that
    /// the bytes are less than a frame.
    pub(crate) fn front(&self, kinds: Kinds) -> Result<Option<(Message<&[u8]>, usize)>, FrameError>
        ensures { IsFrontReading kinds self.now result }
    {
        next_frame(kinds, self.bytes.split_at(self.end).0.split_at(self.used).1)
    }

    /// The message whose frame begins after this number of bytes, and how many bytes the frame has.
    /// `None` means that the bytes from there on are less than a frame.
    pub(crate) fn front_after(
        &self,
        kinds: Kinds,
        at: usize,
    ) -> Result<Option<(Message<&[u8]>, usize)>, FrameError>
        requires { at ≤ length self.now }
        ensures front { IsFrontReading kinds (drop at self.now) result }
        ensures fits { IfOk result (λ front. IfSome front (λ next. at + next.1 < 2 ^ 64)) }
    {
        next_frame(
            kinds,
            self.bytes.split_at(self.end).0.split_at(self.used + at).1,
        )
    }

    /// Removes this number of bytes from the front.
    pub(crate) fn advance(&mut self, count: usize)
        requires { count ≤ length self.old }
        ensures { self.new ≡ drop count self.old }
    {
        self.used += count;
    }
}

/// Moves the bytes between two places to the front, and makes room for a piece of input after them.
/// Where memory is refused, nothing changes.
///
/// Memory that is taken is filled with zeros once, and not before each read.
fn make_room(bytes: &mut Vec<u8>, used: usize, end: usize) -> Result<(), AllocError>
    requires order { used ≤ end }
    requires within { end ≤ length bytes.old.items }
    ensures moved { OnOk result (take (end - used) bytes.new.items ≡ drop used (take end bytes.old.items)) }
    ensures room { OnOk result (end - used + MOST_PIECE ≤ length bytes.new.items) }
    ensures err { OnErr result (bytes.new.items ≡ bytes.old.items) }
{
    let size = end - used + MOST_PIECE;
    if bytes.len() < size {
        bytes.resize(size, 0)?;
    }
    bytes.copy_within(used..end, 0);
    Ok(())
}

/// Reads once, into the bytes from a place on, and returns the number of bytes that were read.
fn read_after<R: Source>(reader: &mut R, bytes: &mut [u8], at: usize) -> Result<usize, FrameError>
    requires { at + MOST_PIECE ≤ length bytes.old }
    ensures few { IfOk result (λ n. n ≤ MOST_PIECE) }
    ensures gives { IfOk result (λ n. R.gives reader.old (slice_range bytes.new at (at + n)) reader.new) }
    ensures end { IfOk result (λ n. n ≡ 0 → R.is_at_end reader.new) }
    ensures fails { IfErr result (λ e. e ≡ FrameError.Read) }
    ensures nothing { IfErr result (λ _. R.gives reader.old [] reader.new) }
    ensures front { take at bytes.new ≡ take at bytes.old }
    ensures size { length bytes.new ≡ length bytes.old }
{
    read_once(reader, &mut bytes[at..at + MOST_PIECE])
}
