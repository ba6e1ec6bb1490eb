//! What `ask` sends over a link, and what it prints of replies.

ghost use Rattle.std.specs.Prelude.{IfOk, ◌≤◌, length};

use crate::checks::assert_same;
use cli_ask::{AskError, AskFault, Asked, Link, Question, ask, asked_of};
use cli_words::Request;
use row_lines::RowForm;
use std::alloc::{AllocError, Global};
use std::process::Abort;
use std::test::Fail;
use test_support::digits;

/// A link over which these replies come, a byte at a time, and then the end. A time that has begun
/// is for one send, or for reading one reply.
#[derive(Drop)]
pub(crate) struct Script {
    replies: Vec<u8>,
    at: usize,
    sent: Vec<u8>,
    /// A time has begun, and nothing was sent in it.
    has_time: bool,
}

impl Script {
    /// A link with the replies of these digits.
    pub(crate) fn new(alloc: Global, replies: &str) -> Result<Script, Fail> {
        Ok(Script::of(alloc, hex::decode(alloc, replies)?))
    }

    /// A link with these replies.
    fn of(alloc: Global, replies: Vec<u8>) -> Script {
        Script {
            replies,
            at: 0,
            sent: Vec::new(alloc),
            has_time: false,
        }
    }

    /// Refuses what is sent or read without a time of its own.
    fn check_time(&self) -> Result<(), AskError> {
        if self.has_time {
            return Ok(());
        }
        Err(AskError::Timeout)
    }
}

impl Link for Script {
    fn begin(&mut self) -> Result<(), AskError> {
        self.has_time = true;
        Ok(())
    }

    fn send(&mut self, bytes: &[u8]) -> Result<(), AskError> {
        self.check_time()?;
        self.has_time = false;
        self.sent.extend_from_slice(bytes)?;
        Ok(())
    }

    fn receive(&mut self, into: &mut [u8]) -> Result<usize, AskError> {
        self.check_time()?;
        if into.is_empty() {
            return Ok(0);
        }
        match self.replies.get(self.at) {
            Some(byte) => {
                into[0] = *byte;
                self.at = self.at.saturating_add(1);
                Ok(1)
            }
            None => Ok(0),
        }
    }
}

/// A question, the reply to it, the request that is sent, and what comes of it.
struct Exchange {
    request: Request,
    words: &'static [&'static str],
    reply: &'static str,
    sent: &'static str,
    comes: Result<&'static str, AskFault>,
}

const PURGED: &str = "00000019830000000000000005000000010000000200000003ffffffff";

const PURGE: &str = "00000009030000000000000007";

#[rattlefmt::skip]
const EXCHANGES: &[Exchange] = &[
    Exchange { request: Request::Purge, words: &["7"], reply: PURGED, sent: PURGE, comes: Ok("place 5: 1 inserted, 2 updated, 3 kept, 4294967295 purged\n") },
    Exchange { request: Request::Purge, words: &[], reply: PURGED, sent: "00000009030000000000000009", comes: Ok("place 5: 1 inserted, 2 updated, 3 kept, 4294967295 purged\n") },
    Exchange { request: Request::Purge, words: &["18446744073709551615"], reply: PURGED, sent: "0000000903ffffffffffffffff", comes: Ok("place 5: 1 inserted, 2 updated, 3 kept, 4294967295 purged\n") },
    Exchange { request: Request::Purge, words: &["7"], reply: "", sent: PURGE, comes: Err(AskFault::Cut) },
    Exchange { request: Request::Purge, words: &["7"], reply: "000000", sent: PURGE, comes: Err(AskFault::Cut) },
    Exchange { request: Request::Purge, words: &["7"], reply: "0000001983", sent: PURGE, comes: Err(AskFault::Cut) },
    Exchange { request: Request::Purge, words: &["7"], reply: "00000000", sent: PURGE, comes: Err(AskFault::Reply) },
    Exchange { request: Request::Purge, words: &["7"], reply: "00110001", sent: PURGE, comes: Err(AskFault::Reply) },
    Exchange { request: Request::Purge, words: &["7"], reply: "0000000183", sent: PURGE, comes: Err(AskFault::Reply) },
    Exchange { request: Request::Purge, words: &["7"], reply: "0000000182", sent: PURGE, comes: Err(AskFault::Reply) },
    Exchange { request: Request::Purge, words: &["7"], reply: "00000003ff5100", sent: PURGE, comes: Err(AskFault::Reply) },
    Exchange { request: Request::Purge, words: &["7"], reply: "00000002ff51", sent: PURGE, comes: Err(AskFault::Refused(0x51)) },
    Exchange { request: Request::Remove, words: &["down", "8adcea68dc57cbbe68da7142af88b68a9d27a590e1d5157c53c2bb2c762345ff"], reply: "00000019840000000000000005000000000000000000000000000000", sent: digits::REMOVE, comes: Err(AskFault::Cut) },
    Exchange { request: Request::Remove, words: &["down", "8adcea68dc57cbbe68da7142af88b68a9d27a590e1d5157c53c2bb2c762345ff"], reply: "0000001984000000000000000500000000000000000000000000000001", sent: digits::REMOVE, comes: Ok("place 5: 0 inserted, 0 updated, 0 kept, 1 purged\n") },
    Exchange { request: Request::Lookup, words: &["1-ff00:0:110", "1-ff00:0:111"], reply: "0000000182", sent: digits::LOOKUP, comes: Ok("") },
    Exchange { request: Request::Lookup, words: &["1-ff00:0:110", "1-ff00:0:111"], reply: "000000028200", sent: digits::LOOKUP, comes: Err(AskFault::Reply) },
    Exchange { request: Request::Lookup, words: &["1-ff00:0:110", "1-ff00:0:111"], reply: digits::FOUND, sent: digits::LOOKUP, comes: Ok("down 8adcea68dc57cbbe68da7142af88b68a9d27a590e1d5157c53c2bb2c762345ff 1700000000 3400043200 1-ff00:0:110 1-ff00:0:111 2\n") },
    Exchange { request: Request::Lookup, words: &["0-0", "0-0"], reply: "00000002ff41", sent: "0000000102", comes: Err(AskFault::Refused(0x41)) },
    Exchange { request: Request::Lookup, words: &["0-0", "0-5"], reply: "00000002ff42", sent: "00000003021005", comes: Err(AskFault::Refused(0x42)) },
];

/// These exchanges. The prover writes a constant out where it is named, so no loop names it.
fn exchanges() -> &'static [Exchange] {
    EXCHANGES
}

/// The question of an exchange.
fn question_of(exchange: &Exchange) -> Result<Question, Fail> {
    match asked_of(exchange.request, exchange.words)? {
        Asked::Question(question) => Ok(question),
        Asked::Registration(_) => Err(Fail::from("a question asks for no lines")),
    }
}

/// The fault by which a request ended, if it ended by one.
pub(crate) fn fault_of<T>(came: &Result<T, AskError>) -> Option<AskFault> {
    match came {
        Ok(_) => None,
        Err(error) => Some(error.fault()),
    }
}

/// Sees that the bytes of these digits were sent over a link.
pub(crate) fn assert_sent(
    rt: &impl Abort,
    alloc: Global,
    link: &Script,
    wanted: &str,
) -> Result<(), Fail> {
    let sent = hex::encode(alloc, link.sent.as_slice())?;
    assert_same(rt, &sent.as_str(), &wanted, &"sent");
    Ok(())
}

/// Sees what comes of an exchange: its fault, or what is printed.
fn assert_comes(rt: &impl Abort, exchange: &Exchange, fault: Option<AskFault>, printed: &[u8]) {
    match exchange.comes {
        Ok(wanted) => {
            assert_same(rt, &fault, &None, &exchange.reply);
            assert_same(rt, &printed, &wanted.as_bytes(), &exchange.reply);
        }
        Err(wanted) => assert_same(rt, &fault, &Some(wanted), &exchange.reply),
    }
}

/// Asks over a link, with a purge as one command, and sees what is printed.
fn assert_asked(
    rt: &impl Abort,
    alloc: Global,
    link: &mut Script,
    exchange: &Exchange,
) -> Result<(), Fail> {
    let question = question_of(exchange)?.at_once();
    let mut output = Vec::new(alloc);
    let came = ask(alloc, link, &question, 9, RowForm::Text, &mut output);
    assert_comes(rt, exchange, fault_of(&came), output.as_slice());
    Ok(())
}

/// Asks over a script, and sees what was sent and printed.
fn assert_exchange(rt: &(impl Abort + AllocGlobal), exchange: &Exchange) -> Result<(), Fail> {
    let mut link = Script::new(rt.alloc(), exchange.reply)?;
    assert_asked(rt, rt.alloc(), &mut link, exchange)?;
    assert_sent(rt, rt.alloc(), &link, exchange.sent)
}

#[test]
fn replies_of_a_script(rt: HostRuntime) -> Result<(), Fail> {
    for exchange in exchanges() {
        assert_exchange(&rt, exchange)?;
    }
    Ok(())
}

/// A purge in steps: how many segments its commands drop in turn, what the server sends after these
/// replies, how far before the last moment each command's is, and what comes of it.
struct Purging {
    moment: u64,
    drops: &'static [u32],
    behind: &'static str,
    before: &'static [u64],
    printed: &'static str,
    fault: Option<AskFault>,
}

/// How far before the last moment those of a purge are that drops nothing.
const OF_NOTHING: &[u64] = &[
    262_144, 229_376, 200_704, 175_616, 153_664, 134_456, 117_649, 102_943, 90_076, 78_817, 68_965,
    60_345, 52_802, 46_202, 40_427, 35_374, 30_953, 27_084, 23_699, 20_737, 18_145, 15_877, 13_893,
    12_157, 10_638, 9_309, 8_146, 7_122, 6_098, 5_074, 4_050, 3_026, 2_002, 978, 0,
];

/// How many segments some commands drop, and how far before the moment 20,000 theirs are.
const DROPS: &[u32] = &[
    0,
    256,
    1_024,
    1_025,
    255,
    5_000,
    512,
    100_000,
    1_500,
    3,
    0,
    4_293_800_000,
    0,
    0,
    0,
    0,
    0,
    0,
    0,
    0,
    0,
    0,
    0,
    0,
    0,
    0,
    0,
    0,
    0,
    0,
    0,
    0,
];

const OF_DROPS: &[u64] = &[
    20_000, 17_500, 15_313, 13_399, 12_761, 11_485, 11_358, 11_231, 11_230, 11_229, 11_227, 11_223,
    11_222, 11_220, 11_216, 11_208, 11_192, 11_160, 11_096, 10_968, 10_712, 10_200, 9_176, 8_029,
    7_005, 5_981, 4_957, 3_933, 2_909, 1_885, 861, 0,
];

#[rattlefmt::skip]
const PURGINGS: &[Purging] = &[
    Purging { moment: 3_400_000_000, drops: &[0; 35], behind: "", before: OF_NOTHING, printed: "place 34: 0 inserted, 0 updated, 0 kept, 0 purged\n", fault: None },
    Purging { moment: u64::MAX, drops: &[0; 35], behind: "", before: OF_NOTHING, printed: "place 34: 0 inserted, 0 updated, 0 kept, 0 purged\n", fault: None },
    Purging { moment: 20_000, drops: DROPS, behind: "", before: OF_DROPS, printed: "place 31: 0 inserted, 0 updated, 0 kept, 4293909575 purged\n", fault: None },
    Purging { moment: 0, drops: &[9], behind: "", before: &[0], printed: "place 0: 0 inserted, 0 updated, 0 kept, 9 purged\n", fault: None },
    Purging { moment: 7, drops: &[4_294_967_295, 0, 0, 0], behind: "", before: &[7, 6, 4, 0], printed: "place 3: 0 inserted, 0 updated, 0 kept, 4294967295 purged\n", fault: None },
    Purging { moment: 7, drops: &[4_294_967_295, 1], behind: "", before: &[7, 6], printed: "place 0: 0 inserted, 0 updated, 0 kept, 4294967295 purged\n", fault: Some(AskFault::Reply) },
    Purging { moment: 7, drops: &[0], behind: PURGED, before: &[7, 0], printed: "place 5: 1 inserted, 2 updated, 3 kept, 4294967295 purged\n", fault: None },
    Purging { moment: 7, drops: &[3], behind: "00000002ff51", before: &[7, 0], printed: "place 0: 0 inserted, 0 updated, 0 kept, 3 purged\n", fault: Some(AskFault::Refused(0x51)) },
    Purging { moment: 7, drops: &[3], behind: "0000000182", before: &[7, 0], printed: "place 0: 0 inserted, 0 updated, 0 kept, 3 purged\n", fault: Some(AskFault::Reply) },
    Purging { moment: 7, drops: &[3], behind: "00000019", before: &[7, 0], printed: "place 0: 0 inserted, 0 updated, 0 kept, 3 purged\n", fault: Some(AskFault::Cut) },
    Purging { moment: 7, drops: &[], behind: "00000002ff51", before: &[7], printed: "", fault: Some(AskFault::Refused(0x51)) },
];

/// These purges.
fn purgings() -> &'static [Purging] {
    PURGINGS
}

/// The replies of a server to a purge in steps, from the place 0 on.
fn replies_to(alloc: Global, purging: &Purging) -> Result<Vec<u8>, Fail> {
    let mut replies = Vec::new(alloc);
    for (place, dropped) in purging.drops.iter().enumerate() {
        replies.extend_from_slice(b"\0\0\0\x19\x83")?;
        replies.extend_from_slice(&(place as u64).to_be_bytes())?;
        replies.extend_from_slice(&[0; 12])?;
        replies.extend_from_slice(&dropped.to_be_bytes())?;
    }
    let behind = hex::decode(alloc, purging.behind)?;
    replies.extend_from_slice(behind.as_slice())?;
    Ok(replies)
}

/// The frames of the commands of a purge in steps.
fn frames_of(alloc: Global, purging: &Purging) -> Result<Vec<u8>, Fail> {
    let mut frames = Vec::new(alloc);
    for before in purging.before {
        let moment = purging.moment.saturating_sub(*before);
        frames.extend_from_slice(b"\0\0\0\x09\x03")?;
        frames.extend_from_slice(&moment.to_be_bytes())?;
    }
    Ok(frames)
}

/// Purges in steps over a link: the fault, if there is one.
fn purge_over(
    alloc: Global,
    link: &mut Script,
    moment: u64,
    output: &mut Vec<u8>,
) -> Option<AskFault> {
    let question = Question::Purge(Some(moment));
    fault_of(&ask(alloc, link, &question, 9, RowForm::Text, output))
}

/// Purges in steps over a script, and sees what was sent and printed.
fn assert_purging(rt: &(impl Abort + AllocGlobal), purging: &Purging) -> Result<(), Fail> {
    let alloc = rt.alloc();
    let mut link = Script::of(alloc, replies_to(alloc, purging)?);
    let mut output = Vec::new(alloc);
    let fault = purge_over(alloc, &mut link, purging.moment, &mut output);
    let printed = purging.printed.as_bytes();
    assert_same(rt, &fault, &purging.fault, &purging.printed);
    assert_same(rt, &output.as_slice(), &printed, &purging.printed);
    let frames = frames_of(alloc, purging)?;
    assert_same(
        rt,
        &link.sent.as_slice(),
        &frames.as_slice(),
        &purging.printed,
    );
    Ok(())
}

#[test]
fn purges_in_steps(rt: HostRuntime) -> Result<(), Fail> {
    for purging in purgings() {
        assert_purging(&rt, purging)?;
    }
    Ok(())
}

/// A list of down segments: the replies and the requests that are sent, as digits one after the
/// other, the lines that are printed, and the error.
struct Listed {
    replies: &'static [&'static str],
    sent: &'static [&'static str],
    printed: &'static [&'static str],
    error: &'static str,
}

/// What is before `SEGMENT_FIELD` in a page that has it as a down segment, and is not the last one.
const MORE: &str = "0000006285010a5e0802125a";

/// The same, but that it is the last one.
const LAST: &str = "0000006285000a5e0802125a";

/// The same as `MORE`, but as an up segment.
const MORE_UP: &str = "0000006285010a5e0801125a";

/// What is before `CORE_SEGMENT` in such a page. Its id is above that of `SEGMENT`.
const MORE_ABOVE: &str = "0000006385010a5f0802125b0a59";

/// A page with no segments that is not the last one, and one that is.
const MORE_OF_NOTHING: &str = "000000028501";

const LAST_OF_NOTHING: &str = "000000028500";

/// The request of the first page, and of those after the ids of both segments.
const FIRST: &str = "00000012050200000000000000000000000000000000";

const AFTER: &str = concat!(
    "00000032050200000000000000000000000000000000",
    "8adcea68dc57cbbe68da7142af88b68a9d27a590e1d5157c53c2bb2c762345ff"
);

const AFTER_ABOVE: &str = concat!(
    "00000032050200000000000000000000000000000000",
    "e8ca9a7b8d1602938b712fa9617759e888cf3aaee019edc6152c3e3a5e35aa54"
);

/// The lines of both segments.
const LINE: &str =
    "down 8adcea68dc57cbbe68da7142af88b68a9d27a590e1d5157c53c2bb2c762345ff 1700000000 3400043200 1-ff00:0:110 1-ff00:0:111 2\n";

const LINE_ABOVE: &str =
    "down e8ca9a7b8d1602938b712fa9617759e888cf3aaee019edc6152c3e3a5e35aa54 1700000000 3400043200 2-64512 1-ff00:0:110 2\n";

/// The texts of the errors of a page.
const FAULTY: &str = "the reply is not well formed";

const UNASKED: &str = "the reply is one to another request";

const CUT: &str = "the server ended the connection before its reply";

const NO_LISTS: &str = "the server does not list: run it with --lists";

#[rattlefmt::skip]
const LISTS: &[Listed] = &[
    Listed { replies: &[LAST_OF_NOTHING], sent: &[FIRST], printed: &[], error: "" },
    Listed { replies: &[LAST, digits::SEGMENT_FIELD], sent: &[FIRST], printed: &[LINE], error: "" },
    Listed { replies: &[MORE, digits::SEGMENT_FIELD, LAST_OF_NOTHING], sent: &[FIRST, AFTER], printed: &[LINE], error: "" },
    Listed { replies: &[MORE, digits::SEGMENT_FIELD, MORE_ABOVE, digits::CORE_SEGMENT, LAST_OF_NOTHING], sent: &[FIRST, AFTER, AFTER_ABOVE], printed: &[LINE, LINE_ABOVE], error: "" },
    Listed { replies: &[MORE, digits::SEGMENT_FIELD, MORE, digits::SEGMENT_FIELD], sent: &[FIRST, AFTER], printed: &[LINE, LINE], error: FAULTY },
    Listed { replies: &[MORE_ABOVE, digits::CORE_SEGMENT, MORE, digits::SEGMENT_FIELD], sent: &[FIRST, AFTER_ABOVE], printed: &[LINE_ABOVE, LINE], error: FAULTY },
    Listed { replies: &[MORE_OF_NOTHING], sent: &[FIRST], printed: &[], error: FAULTY },
    Listed { replies: &[MORE, digits::SEGMENT_FIELD, MORE_OF_NOTHING], sent: &[FIRST, AFTER], printed: &[LINE], error: FAULTY },
    Listed { replies: &[MORE_UP, digits::SEGMENT_FIELD], sent: &[FIRST], printed: &[], error: UNASKED },
    Listed { replies: &[digits::FOUND], sent: &[FIRST], printed: &[], error: UNASKED },
    Listed { replies: &[], sent: &[FIRST], printed: &[], error: NO_LISTS },
    Listed { replies: &["00"], sent: &[FIRST], printed: &[], error: CUT },
    Listed { replies: &[MORE, digits::SEGMENT_FIELD], sent: &[FIRST, AFTER], printed: &[LINE], error: CUT },
];

/// These lists.
fn lists() -> &'static [Listed] {
    LISTS
}

/// These texts, one after the other.
pub(crate) fn joined(alloc: Global, texts: &[&str]) -> Result<String, AllocError> {
    let mut all = String::new(alloc);
    for text in texts {
        all.push_str(text)?;
    }
    Ok(all)
}

/// The text of the error by which a request ended, which is empty where it ended by none.
pub(crate) fn error_text<T>(
    alloc: Global,
    came: &Result<T, AskError>,
) -> Result<String, AllocError> {
    match came {
        Ok(_) => Ok(String::new(alloc)),
        Err(error) => format!(in alloc; "{}", *error),
    }
}

/// Lists down segments over a link: the text of the error.
fn list_over(alloc: Global, link: &mut Script, output: &mut Vec<u8>) -> Result<String, Fail> {
    let Asked::Question(question) = asked_of(Request::List, &["down"])? else {
        return Err(Fail::from("a list asks a question"));
    };
    let came = ask(alloc, link, &question, 9, RowForm::Text, output);
    Ok(error_text(alloc, &came)?)
}

/// Lists down segments over a script, and sees what was sent and printed.
fn assert_list(rt: &(impl Abort + AllocGlobal), list: &Listed) -> Result<(), Fail> {
    let alloc = rt.alloc();
    let replies = joined(alloc, list.replies)?;
    let printed = joined(alloc, list.printed)?;
    let sent = joined(alloc, list.sent)?;
    let mut link = Script::new(alloc, replies.as_str())?;
    let mut output = Vec::new(alloc);
    let error = list_over(alloc, &mut link, &mut output)?;
    assert_same(rt, &error.as_str(), &list.error, &replies);
    assert_same(rt, &output.as_slice(), &printed.as_bytes(), &replies);
    assert_sent(rt, alloc, &link, sent.as_str())
}

#[test]
fn pages_of_a_list(rt: HostRuntime) -> Result<(), Fail> {
    for list in lists() {
        assert_list(&rt, list)?;
    }
    Ok(())
}
