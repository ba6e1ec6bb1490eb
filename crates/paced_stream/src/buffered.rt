//! A paced connection whose writes are gathered in a buffer.

ghost use Rattle.std.specs.Prelude.{◌≡◌, ◌++◌, ◌≤◌, ◌<◌, ℕ, List, [], take, drop, length, Some, OnOk, OnErr, IfOk};

use crate::paced::Paced;
use crate::stream_calls::StreamCalls;
use session_core::Sink;
use std::io;
use std::io::ErrorKind;
use std::time::Clock;
use whole_writes::WriteFailed;

/// The most bytes that are held back.
pub(crate) const BUFFER: usize = 8_192;

/// A connection that holds written bytes back until they are sent or the buffer is full. Bytes that
/// would fill the buffer alone are written without it.
#[derive(Drop)]
pub(crate) struct Buffered<'a, C, T> {
    paced: Paced<'a, C, T>,
    held: Vec<u8>,
}

impl<'a, C: Clock, T: StreamCalls> Buffered<'a, C, T> {
    /// A connection with this buffer.
    pub(crate) fn new(paced: Paced<'a, C, T>, held: Vec<u8>) -> Buffered<'a, C, T>
        ensures { (result.paced ≡ paced.entry) × (result.held ≡ held) }
    {
        Buffered { paced, held }
    }

    /// Tries to send what is held back, and takes the connection out. What it does not take then is
    /// dropped.
    pub(crate) fn into_paced(self) -> Paced<'a, C, T>
        ensures { (unsent : List ℕ) × (T.taken result.stream ++ unsent ≡ T.taken self.entry.paced.stream ++ self.entry.held.items)
            × (self.entry.held.items ≡ [] → unsent ≡ []) }
    {
        let mut buffered = self;
        match buffered.send_held() {
            Ok(()) => {}
            Err(WriteFailed) => {}
        }
        let Buffered {
            paced,
            held: _unsent,
        } = buffered;
        paced
    }

    /// Sends what is held back. After an error the connection has taken a front of it, and the rest
    /// is still held back.
    fn send_held(&mut self) -> Result<(), WriteFailed>
        ensures sent { OnOk result (self.new.held.items ≡ []) }
        ensures same { T.taken self.new.paced.stream ++ self.new.held.items ≡ T.taken self.old.paced.stream ++ self.old.held.items }
        ensures none { self.old.held.items ≡ [] → self.new.held.items ≡ [] }
    {
        while !self.held.is_empty() {
            let count = write_some(&mut self.paced, self.held.as_slice())?;
            drop_front(&mut self.held, count);
        }
        Ok(())
    }

    /// Takes a front of the bytes, of at least one byte, and returns the length of that front.
    fn take_some(&mut self, bytes: &[u8]) -> Result<usize, WriteFailed>
        requires { 0 < length bytes.now }
        ensures ok { IfOk result (λ n. T.taken self.new.paced.stream ++ self.new.held.items
            ≡ (T.taken self.old.paced.stream ++ self.old.held.items) ++ take n bytes.now) }
        ensures some { IfOk result (λ n. 0 < n) }
        ensures within { IfOk result (λ n. n ≤ length bytes.now) }
        ensures nothing { OnErr result (T.taken self.new.paced.stream ++ self.new.held.items ≡ T.taken self.old.paced.stream ++ self.old.held.items) }
    {
        if bytes.len() >= BUFFER {
            self.send_held()?;
            return write_some(&mut self.paced, bytes);
        }
        if bytes.len() > BUFFER.saturating_sub(self.held.len()) {
            self.send_held()?;
        }
        hold(&mut self.held, bytes)
    }
}

impl<C: Clock, T: StreamCalls> Sink for Buffered<'_, C, T> {
    ghost contents = { λ buffered. Some (T.taken buffered.paced.stream ++ buffered.held.items) };

    ghost is_sent = { λ buffered. buffered.held.items ≡ [] };

    fn write_whole(&mut self, bytes: &[u8]) -> Result<(), WriteFailed> {
        let mut rest = bytes;
        while !rest.is_empty() {
            let count = self.take_some(rest)?;
            rest = rest.split_at(count).1;
        }
        Ok(())
    }

    fn send(&mut self) -> io::Result<()> {
        match self.send_held() {
            Ok(()) => Ok(()),
            Err(WriteFailed) => Err(io::Error::from(ErrorKind::Other)),
        }
    }
}

/// Holds bytes back, after those that are held back already.
fn hold(held: &mut Vec<u8>, bytes: &[u8]) -> Result<usize, WriteFailed>
    ensures ok { OnOk result (held.new.items ≡ held.old.items ++ bytes.now) }
    ensures all { IfOk result (λ n. n ≡ length bytes.now) }
    ensures err { OnErr result (held.new.items ≡ held.old.items) }
{
    match held.extend_from_slice(bytes) {
        Ok(()) => Ok(bytes.len()),
        Err(_) => Err(WriteFailed),
    }
}

/// Drops bytes at the front that the connection has taken.
fn drop_front(held: &mut Vec<u8>, count: usize)
    requires { count ≤ length held.old.items }
    ensures { held.new.items ≡ drop count held.old.items }
{
    if count == held.len() {
        held.clear();
    } else {
        held.drain(..count);
    }
}

/// Writes a front of the bytes, of at least one byte, and returns the length of that front. A write
/// that takes no byte is a failure.
fn write_some<C: Clock, T: StreamCalls>(
    paced: &mut Paced<C, T>,
    bytes: &[u8],
) -> Result<usize, WriteFailed>
    ensures ok { IfOk result (λ n. T.taken paced.new.stream ≡ T.taken paced.old.stream ++ take n bytes.now) }
    ensures some { IfOk result (λ n. 0 < n) }
    ensures within { IfOk result (λ n. n ≤ length bytes.now) }
    ensures nothing { OnErr result (T.taken paced.new.stream ≡ T.taken paced.old.stream) }
{
    match paced.write(bytes) {
        Ok(0) | Err(_) => Err(WriteFailed),
        Ok(count) => Ok(count),
    }
}
