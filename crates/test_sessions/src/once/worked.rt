//! The worked session, and sessions of frames that are written as hexadecimal digits.

use crate::checks::assert_same;
use crate::once::streams::in_pieces;
use cli_once::{cores_of, once};
use seg_check::TrustAll;
use seg_lookup::Roster;
use session_core::{FrameError, Replies, Source};
use std::alloc::Global;
use std::io::Write;
use std::process::Abort;
pub use test_support::digits::{FOUND, LOOKUP, REGISTER};

/// A place and one row inserted.
pub const INSERTED: &str = "0000001981000000000000000000000001000000000000000000000000";

/// A response with no segments.
pub const NONE_FOUND: &str = "0000000182";

/// Asks for segments from nowhere to nowhere.
pub const NO_ENDS: &str = "0000000102";

/// The refusal of that lookup.
pub const NULL_DESTINATION: &str = "00000002ff41";

/// A place and no rows.
pub const NONE_INSERTED: &str = "0000001981000000000000000000000000000000000000000000000000";

/// Appends the bytes of a hexadecimal text.
pub fn push_digits(rt: &impl Abort, alloc: Global, bytes: &mut Vec<u8>, text: &str) {
    let more = hex::decode(alloc, text).expect(rt, "no digits");
    bytes
        .extend_from_slice(more.as_slice())
        .expect(rt, "no memory");
}

/// The bytes of these hexadecimal texts.
pub fn joined(rt: &impl Abort, alloc: Global, texts: &[&str]) -> Vec<u8> {
    let mut bytes = Vec::new(alloc);
    for text in texts {
        push_digits(rt, alloc, &mut bytes, text);
    }
    bytes
}

/// These texts one after the other.
pub fn text_of(rt: &impl Abort, alloc: Global, texts: &[&str]) -> String {
    let mut all = String::new(alloc);
    for text in texts {
        all.push_str(text).expect(rt, "no memory");
    }
    all
}

/// The one core AS of the worked session.
pub fn cores(rt: &impl Abort, alloc: Global) -> Roster {
    Roster::new(cores_of(alloc, "1-ff00:0:110").expect(rt, "no list of ASes"))
}

/// What a session ends with at moment 0, where all signatures are good.
pub fn session<R: Source, W: Write>(
    alloc: Global,
    reader: &mut R,
    writer: &mut W,
    cores: &Roster,
    turns: u64,
) -> Result<u64, FrameError> {
    let mut replies = Replies::of(writer);
    once(alloc, reader, &mut replies, cores, &TrustAll, 0, turns)
}

/// Asserts what a session ended with, in the case of this name and number.
pub fn assert_ended(
    rt: &impl Abort,
    outcome: Result<u64, FrameError>,
    ends: Result<u64, FrameError>,
    name: &str,
    number: u64,
) {
    assert_same(rt, &outcome, &ends, &(name, number));
}

/// Asserts how often something was called, in the case of this name and number.
pub fn assert_calls(rt: &impl Abort, calls: u64, wanted: u64, name: &str, number: u64) {
    assert_same(rt, &calls, &wanted, &(name, number));
}

/// Asserts that these replies, in hexadecimal digits, were written.
pub fn assert_written(rt: &impl Abort, alloc: Global, name: &str, output: &[u8], replies: &[&str]) {
    let digits = hex::encode(alloc, output).expect(rt, "no memory");
    let wanted = text_of(rt, alloc, replies);
    assert_same(rt, &digits.as_str(), &wanted.as_str(), &name);
}

/// Asserts what a session like the worked one ends with where these bytes come in pieces of this
/// size, and that these replies are written.
pub fn assert_in_pieces(
    rt: &impl Abort,
    alloc: Global,
    input: &[u8],
    size: usize,
    ends: Result<u64, FrameError>,
    replies: &[&str],
) {
    let mut reader = in_pieces(input, size);
    let mut output = Vec::new(alloc);
    let outcome = session(alloc, &mut reader, &mut output, &cores(rt, alloc), 1_000);
    assert_ended(rt, outcome, ends, "pieces of", size as u64);
    assert_written(rt, alloc, "in pieces", output.as_slice(), replies);
}
