//! Where a stream is among its frames.

ghost use Rattle.std.specs.Prelude.{◌≡◌, ◌<◌, ◌≤◌, ◌+◌, length, take};
ghost use Rattle.paced_stream.specs.Tracking.{between, settled, after_byte, after_bytes};

use session_core::LENGTH_SIZE;
use std::marker::Model;

/// The number of bytes of a frame's length, as a number of the stream's bytes.
const LENGTH_BYTES: u64 = LENGTH_SIZE as u64;

/// The number of values of a byte.
const BYTES: u64 = 256;

/// The number of values of a length.
const LENGTHS: u64 = 0x1_0000_0000;

/// The place in a stream of frames. A frame is a length of four bytes, big-endian, and as many
/// bytes as the length says.
#[derive(Drop)]
pub(crate) struct Tracker {
    /// The number of bytes of the frame under way that have gone by, or 0 between two frames.
    gone: u64,
    /// The number that the bytes of its length make that have gone by.
    counted: u32,
}

impl Model for Tracker {
    ghost use Rattle.paced_stream.specs.Tracking.{Spot, IsSpot};

    ghost Value = { Spot };

    ghost view = { λ t. record { gone = t.gone; counted = t.counted } };

    ghost invariant = { λ t. IsSpot (record { gone = t.gone; counted = t.counted }) };
}

impl Tracker {
    /// A tracker at the start of a stream.
    pub(crate) fn new() -> Tracker
        ensures { result ≡ between }
    {
        Tracker {
            gone: 0,
            counted: 0,
        }
    }

    /// The number of bytes of the frame under way that have gone by, or 0 between two frames.
    pub(crate) fn gone(&self) -> u64
        ensures { result ≡ self.now.gone }
    {
        self.gone
    }

    /// Takes note of the next bytes of the stream.
    #[tactic(auto, using(crate::proofs::TrackerLemmas::after_append))]
    pub(crate) fn pass(&mut self, bytes: &[u8])
        ensures { self.new ≡ after_bytes self.old bytes.now }
    {
        let mut rest = bytes;
        while !rest.is_empty() {
            let count = self.pass_some(rest);
            rest = rest.split_at(count).1;
        }
    }

    /// Takes note of the next byte of a length, or of all bytes at the front that a length counts.
    /// Returns how many bytes these are.
    #[tactic(auto, using(crate::proofs::TrackerLemmas::taken_counted))]
    fn pass_some(&mut self, bytes: &[u8]) -> usize
        requires { 0 < length bytes.now }
        ensures some { 0 < result }
        ensures within { result ≤ length bytes.now }
        ensures spot { self.new ≡ after_bytes self.old (take result bytes.now) }
    {
        if self.gone < LENGTH_BYTES {
            *self = self.after_length_byte(bytes[0]);
            return 1;
        }
        let left = LENGTH_BYTES + u64::from(self.counted) - self.gone;
        let count = left.min(bytes.len() as u64);
        *self = settled(self.gone + count, self.counted);
        count as usize
    }

    /// The place after one more byte of a length.
    fn after_length_byte(&self, byte: u8) -> Tracker
        requires { self.now.gone < 4 }
        ensures { result ≡ after_byte self.now byte }
    {
        let number = u64::from(self.counted) * BYTES + u64::from(byte);
        settled(self.gone + 1, (number % LENGTHS) as u32)
    }
}

/// Within a frame, unless all of its bytes have gone by.
fn settled(gone: u64, counted: u32) -> Tracker
    ensures { result ≡ settled gone counted }
{
    if gone < LENGTH_BYTES + u64::from(counted) {
        Tracker { gone, counted }
    } else {
        Tracker::new()
    }
}
