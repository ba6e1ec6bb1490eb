//! What `register` sends over a link of the lines of an input, and which error it ends by.

use crate::asks::{Script, assert_sent, error_text, fault_of, joined};
use crate::checks::assert_same;
use cli_ask::{AskFault, Refusals, register};
use row_lines::RowForm;
use std::alloc::{AllocError, Global};
use std::io::Read;
use std::process::Abort;
use std::test::Fail;
use test_support::digits;

/// The lines that were refused, with their codes.
#[derive(Drop)]
struct Noted {
    lines: Vec<(u64, u8)>,
}

impl Refusals for Noted {
    fn refused(&mut self, line: u64, code: u8) {
        let _pushed = self.lines.push((line, code));
    }
}

/// What comes of a registration.
#[derive(Drop)]
struct Registered {
    fault: Option<AskFault>,
    /// The text of the error, or nothing.
    text: String,
    printed: Vec<u8>,
    noted: Noted,
}

/// The line of the worked segment.
const LINE: &str = concat!(
    "{\"type\":\"down\",\"segment\":\"0a080880e2cfaa061007",
    "12290a270a251223089082808080e07f109182808080e07f1a0e0a0c1001183f220601020304050628c00b",
    "12210a1f0a1d121b089182808080e07f1a0e0a0c0802183f22060a0b0c0d0e0f28c00b\"}\n",
);

/// A line that has no segment.
const NO_SEGMENT: &str = "{\"type\":\"down\"}\n";

/// An acknowledgement, and the line that is printed of it.
const ACK: &str = "0000001981000000000000000000000001000000000000000000000000";

const RECEIPT: &str = "{\"place\":0,\"inserted\":1,\"updated\":0,\"kept\":0,\"purged\":0}\n";

/// Two refusals.
const BUSY: &str = "00000002ff51";

const FULL: &str = "00000002ff52";

/// Lines to register, the replies to them, how many lines are sent, how many acknowledgements are
/// printed, and what comes of it.
struct Registration {
    lines: &'static [&'static str],
    replies: &'static [&'static str],
    sent: usize,
    receipts: usize,
    noted: &'static [(u64, u8)],
    fault: Option<AskFault>,
}

#[rattlefmt::skip]
const REGISTRATIONS: &[Registration] = &[
    Registration { lines: &[], replies: &[], sent: 0, receipts: 0, noted: &[], fault: None },
    Registration { lines: &[LINE, LINE], replies: &[ACK, ACK], sent: 2, receipts: 2, noted: &[], fault: None },
    Registration { lines: &[LINE, LINE, LINE], replies: &[ACK, BUSY, ACK], sent: 3, receipts: 2, noted: &[(2, 0x51)], fault: Some(AskFault::Refused(0x51)) },
    Registration { lines: &[LINE, LINE], replies: &[BUSY, FULL], sent: 2, receipts: 0, noted: &[(1, 0x51), (2, 0x52)], fault: Some(AskFault::Refused(0x51)) },
    Registration { lines: &[NO_SEGMENT, LINE], replies: &[], sent: 0, receipts: 0, noted: &[], fault: Some(AskFault::Line(1)) },
    Registration { lines: &[LINE, NO_SEGMENT, LINE], replies: &[ACK], sent: 1, receipts: 1, noted: &[], fault: Some(AskFault::Line(2)) },
    Registration { lines: &[LINE, NO_SEGMENT, LINE], replies: &[BUSY], sent: 1, receipts: 0, noted: &[(1, 0x51)], fault: Some(AskFault::Refused(0x51)) },
    Registration { lines: &[LINE, LINE, NO_SEGMENT], replies: &[ACK, FULL], sent: 2, receipts: 1, noted: &[(2, 0x52)], fault: Some(AskFault::Refused(0x52)) },
    Registration { lines: &[LINE, NO_SEGMENT], replies: &[], sent: 1, receipts: 0, noted: &[], fault: Some(AskFault::Cut) },
];

/// These registrations. The prover writes a constant out where it is named, so no loop names it.
fn registrations() -> &'static [Registration] {
    REGISTRATIONS
}

/// A text, this number of times.
fn times(alloc: Global, text: &str, count: usize) -> Result<String, AllocError> {
    let mut all = String::new(alloc);
    for _ in 0..count {
        all.push_str(text)?;
    }
    Ok(all)
}

/// Registers the lines of an input over a link.
fn register_over<I: Read>(
    alloc: Global,
    link: &mut Script,
    input: &mut I,
) -> Result<Registered, Fail> {
    let mut printed = Vec::new(alloc);
    let mut noted = Noted {
        lines: Vec::new(alloc),
    };
    let came = register(alloc, link, input, RowForm::Json, &mut printed, &mut noted);
    Ok(Registered {
        fault: fault_of(&came),
        text: error_text(alloc, &came)?,
        printed,
        noted,
    })
}

/// Sees what comes of a registration.
fn assert_came(
    rt: &impl Abort,
    alloc: Global,
    came: &Registered,
    wanted: &Registration,
) -> Result<(), Fail> {
    let receipts = times(alloc, RECEIPT, wanted.receipts)?;
    let case = joined(alloc, wanted.replies)?;
    assert_same(rt, &came.fault, &wanted.fault, &case);
    assert_same(rt, &came.noted.lines.as_slice(), &wanted.noted, &case);
    assert_same(rt, &came.printed.as_slice(), &receipts.as_bytes(), &case);
    Ok(())
}

/// Registers lines over a script, and sees what was sent and what comes of it.
fn assert_registration(rt: &(impl Abort + AllocGlobal), wanted: &Registration) -> Result<(), Fail> {
    let alloc = rt.alloc();
    let lines = joined(alloc, wanted.lines)?;
    let replies = joined(alloc, wanted.replies)?;
    let sent = times(alloc, digits::REGISTER, wanted.sent)?;
    let mut link = Script::new(alloc, replies.as_str())?;
    let mut input = lines.as_bytes();
    let came = register_over(alloc, &mut link, &mut input)?;
    assert_came(rt, alloc, &came, wanted)?;
    assert_sent(rt, alloc, &link, sent.as_str())
}

#[test]
fn lines_are_registered(rt: HostRuntime) -> Result<(), Fail> {
    for wanted in registrations() {
        assert_registration(&rt, wanted)?;
    }
    Ok(())
}

/// A long line: its number of bytes, whether its end is there, how many bytes are read before the
/// others, and what comes of it.
#[derive(Clone, Copy, Debug)]
struct LongLine {
    len: usize,
    has_end: bool,
    before: usize,
    fault: Option<AskFault>,
}

/// What is said of the first line where it is too long.
const TOO_LONG: &str = "line 1: it is longer than 65,536 bytes";

/// A line has at most 65,536 bytes.
#[rattlefmt::skip]
const LONG_LINES: &[LongLine] = &[
    LongLine { len: 65_536, has_end: true, before: 0, fault: None },
    LongLine { len: 65_536, has_end: true, before: 1, fault: None },
    LongLine { len: 65_536, has_end: true, before: 65_536, fault: None },
    LongLine { len: 65_536, has_end: false, before: 0, fault: None },
    LongLine { len: 65_537, has_end: true, before: 0, fault: Some(AskFault::Line(1)) },
    LongLine { len: 65_537, has_end: true, before: 1, fault: Some(AskFault::Line(1)) },
    LongLine { len: 65_537, has_end: true, before: 65_536, fault: Some(AskFault::Line(1)) },
    LongLine { len: 65_537, has_end: true, before: 65_537, fault: Some(AskFault::Line(1)) },
    LongLine { len: 65_537, has_end: false, before: 0, fault: Some(AskFault::Line(1)) },
];

/// These lines.
fn long_lines() -> &'static [LongLine] {
    LONG_LINES
}

/// The line of the worked segment with spaces behind it.
fn padded(alloc: Global, long: LongLine) -> Result<Vec<u8>, Fail> {
    let mut line = Vec::from_slice(alloc, LINE.trim_end().as_bytes())?;
    line.resize(long.len, b' ')?;
    if long.has_end {
        line.push(b'\n')?;
    }
    Ok(line)
}

/// Registers a long line, and sees what comes of it.
fn assert_long_line(rt: &(impl Abort + AllocGlobal), long: LongLine) -> Result<(), Fail> {
    let alloc = rt.alloc();
    let line = padded(alloc, long)?;
    let (front, back) = line.split_at(long.before.min(line.len()));
    let mut link = Script::new(alloc, ACK)?;
    let came = register_over(alloc, &mut link, &mut front.chain(back))?;
    let wanted = if long.fault.is_some() { TOO_LONG } else { "" };
    assert_same(rt, &came.fault, &long.fault, &long);
    assert_same(rt, &came.text.as_str(), &wanted, &long);
    Ok(())
}

#[test]
fn lines_have_a_most_length(rt: HostRuntime) -> Result<(), Fail> {
    for long in long_lines() {
        assert_long_line(&rt, *long)?;
    }
    Ok(())
}
