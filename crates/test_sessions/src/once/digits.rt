//! Sessions in hexadecimal digits.

use crate::checks::assert_same;
use crate::once::streams::{Narrow, Pieces, WhenFull, in_pieces};
use crate::once::worked::*;
use cli_once::{SessionFault, once_in_hex};
use seg_check::TrustAll;
use seg_lookup::Roster;
use session_core::{FrameError, Replies, Source};
use std::alloc::Global;
use std::io::Write;
use std::process::Abort;

/// What a session ends with in which all signatures are good, at moment 0.
fn in_hex<R: Source, W: Write>(
    alloc: Global,
    reader: &mut R,
    writer: &mut W,
    cores: &Roster,
    turns: u64,
) -> Result<u64, SessionFault> {
    let mut replies = Replies::of(writer);
    once_in_hex(alloc, reader, &mut replies, cores, &TrustAll, 0, turns)
}

/// Sees what a session of this text ends with where its third read fails.
fn assert_failing_read(rt: &impl Abort, alloc: Global, text: &str, cores: &Roster) {
    let mut lines = Vec::new(alloc);
    let mut reader = Pieces {
        bytes: text.as_bytes(),
        size: 10,
        reads: 0,
        failing: 2,
    };
    let failed = in_hex(alloc, &mut reader, &mut lines, cores, 1_000);
    let wanted = Err(SessionFault::Frame(FrameError::Read));
    assert_same(rt, &failed, &wanted, &"a read that fails");
    assert_same(rt, &lines.len(), &0, &"written");
}

/// Sees what a session ends with that may make fewer reads than this text needs.
fn assert_short(rt: &impl Abort, alloc: Global, text: &str, cores: &Roster) {
    let mut lines = Vec::new(alloc);
    let mut reader = in_pieces(text.as_bytes(), 10);
    let short = in_hex(alloc, &mut reader, &mut lines, cores, 3);
    let wanted = Err(SessionFault::Frame(FrameError::Turns));
    assert_same(rt, &short, &wanted, &"too many reads");
    assert_same(rt, &lines.len(), &0, &"written");
}

/// Sees what a session ends with whose writer is full before the first line has an end.
fn assert_full(rt: &impl Abort, alloc: Global, text: &str, cores: &Roster) {
    let mut writer = Narrow {
        taken: Vec::new(alloc),
        room: 7,
        when_full: WhenFull::TakesNone,
    };
    let full = in_hex(alloc, &mut text.as_bytes(), &mut writer, cores, 1_000);
    let wanted = Err(SessionFault::Frame(FrameError::Write));
    assert_same(rt, &full, &wanted, &"a full writer");
    let front = b"0000001".as_slice();
    assert_same(rt, &writer.taken.as_slice(), &front, &"taken");
}

#[test]
fn hexadecimal_streams(rt: HostRuntime) {
    let alloc = rt.alloc();
    let none = Roster::new(Vec::new(alloc));
    let text = text_of(&rt, alloc, &[REGISTER]);
    assert_failing_read(&rt, alloc, text.as_str(), &none);
    assert_short(&rt, alloc, text.as_str(), &none);
    assert_full(&rt, alloc, text.as_str(), &none);
}
