//! ISD-AS numbers and their texts.

use crate::host::Host;
use isd_as::{IaError, IsdAs, covers, parse};
use std::alloc::Global;
use std::test::Fail;
use test_support::{TestHost, assert_same};

/// A text, the number that it denotes, and the text that is printed for that number.
#[derive(Clone, Copy)]
struct Text {
    text: &'static str,
    number: u64,
    printed: &'static str,
}

/// Whether the text denotes its number, which is printed as its other text.
fn says(alloc: Global, row: Text) -> bool {
    match parse(row.text) {
        Ok(ia) => {
            ia.to_u64() == row.number
                && match ia.to_string(alloc) {
                    Ok(written) => written.as_str() == row.printed,
                    Err(_) => false,
                }
        }
        Err(_) => false,
    }
}

/// Checks that each text denotes its number, which is printed as its other text.
fn assert_texts(rt: &impl TestHost, alloc: Global, texts: &[Text]) {
    for row in texts {
        assert_same(rt, &says(alloc, *row), &true, &row.text);
    }
}

/// Checks that a text denotes this number.
fn assert_says(rt: &impl TestHost, text: &str, ia: IsdAs) {
    assert_same(rt, &parse(text), &Ok(ia), &text);
}

#[rattlefmt::skip]
const TEXTS: [Text; 3] = [
    Text { text: "1-ff00:0:110", number: 0x0001_ff00_0000_0110, printed: "1-ff00:0:110" },
    Text { text: "2-64512", number: 0x0002_0000_0000_fc00, printed: "2-64512" },
    Text { text: "1-FF00:0000:0110", number: 0x0001_ff00_0000_0110, printed: "1-ff00:0:110" },
];

#[test]
fn isd_as_texts(rt: HostRuntime) {
    let host = Host(&rt);
    assert_texts(&host, rt.alloc(), &TEXTS);
    assert_says(
        &host,
        "1-ff00:0:110",
        IsdAs::from_u64(0x0001_ff00_0000_0110),
    );
    assert_says(&host, "2-64512", IsdAs::new(2, 64_512));
}

/// Texts at their limits.
#[rattlefmt::skip]
const LIMITS: [Text; 6] = [
    Text { text: "1-4294967295", number: 0x0001_0000_ffff_ffff, printed: "1-4294967295" },
    Text { text: "1-1:0:0", number: 0x0001_0001_0000_0000, printed: "1-1:0:0" },
    Text { text: "1-0:0:1", number: 0x0001_0000_0000_0001, printed: "1-1" },
    Text { text: "65535-ffff:FFFF:ffff", number: u64::MAX, printed: "65535-ffff:ffff:ffff" },
    Text { text: "0-0", number: 0, printed: "0-0" },
    Text {
        text: "000000000000000000000000000001-000000000000000000000000000002",
        number: 0x0001_0000_0000_0002,
        printed: "1-2",
    },
];

#[test]
fn isd_as_text_limits(rt: HostRuntime) {
    let host = Host(&rt);
    assert_texts(&host, rt.alloc(), &LIMITS);
}

/// Checks that a text is refused with this error.
fn assert_refused(rt: &impl TestHost, text: &str, error: IaError) {
    assert_same(rt, &parse(text), &Err(error), &text);
}

/// Texts, and their faults.
const FAULTS: [(&str, IaError); 8] = [
    ("1-4294967296", IaError::TooLarge),
    ("65536-1", IaError::TooLarge),
    ("1-10000:0:0", IaError::BadText),
    ("1", IaError::BadText),
    ("65536-4294967296", IaError::TooLarge),
    ("65536-1:0:0", IaError::TooLarge),
    (
        "1-1000000000000000000000000000000000000000",
        IaError::TooLarge,
    ),
    (
        "1000000000000000000000000000000000000000-1",
        IaError::TooLarge,
    ),
];

#[test]
fn isd_as_text_faults(rt: HostRuntime) {
    let host = Host(&rt);
    for (text, error) in &FAULTS {
        assert_refused(&host, text, *error);
    }
}

/// Texts outside the grammar.
const OUTSIDE: [&str; 25] = [
    "",
    "-",
    "1-",
    "-1",
    " 1-1",
    "1-1 ",
    "+1-1",
    "1-+1",
    "1-1-1",
    "--1",
    "a-1",
    "1-a",
    "65536-x",
    "x-4294967296",
    "1-0:00000:0",
    "1-g:0:0",
    "1-1:2",
    "1-1:2:3:4",
    "1-:1:2",
    "1-1::2",
    "1-1:2:",
    "1-+1:2:3",
    "1:2:3-1",
    "1\u{2212}1",
    "\u{661}-1",
];

#[test]
fn texts_outside_the_grammar(rt: HostRuntime) {
    let host = Host(&rt);
    for text in &OUTSIDE {
        assert_refused(&host, text, IaError::BadText);
    }
}

/// A pattern, of which a part that is 0 covers any, a number, and whether the pattern covers it.
#[derive(Clone, Copy, Debug)]
struct Cover {
    pattern: &'static str,
    ia: &'static str,
    covers: bool,
}

#[rattlefmt::skip]
const COVERS: [Cover; 8] = [
    Cover { pattern: "0-0", ia: "1-ff00:0:110", covers: true },
    Cover { pattern: "1-0", ia: "1-ff00:0:110", covers: true },
    Cover { pattern: "0-ff00:0:110", ia: "1-ff00:0:110", covers: true },
    Cover { pattern: "1-ff00:0:110", ia: "1-ff00:0:110", covers: true },
    Cover { pattern: "2-0", ia: "1-ff00:0:110", covers: false },
    Cover { pattern: "0-ff00:0:111", ia: "1-ff00:0:110", covers: false },
    Cover { pattern: "2-ff00:0:110", ia: "1-ff00:0:110", covers: false },
    Cover { pattern: "1-ff00:0:110", ia: "0-0", covers: false },
];

/// Whether the pattern of one text covers the number of another.
fn is_covered(pattern: &str, ia: &str) -> Result<bool, IaError> {
    Ok(covers(parse(pattern)?, parse(ia)?))
}

#[test]
fn wildcards_cover(rt: HostRuntime) -> Result<(), Fail> {
    let host = Host(&rt);
    for row in &COVERS {
        let found = is_covered(row.pattern, row.ia)?;
        assert_same(&host, &found, &row.covers, row);
    }
    Ok(())
}
