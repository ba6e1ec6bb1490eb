//! The lines of a row, and lines that are read as rows or refused.

use crate::checks::{assert_same, assert_true};
use row_lines::{LineError, RowForm, date_text, line_as, read_line};
use seg_core::{SegError, SegType, Segment, read_segment};
use std::process::Abort;
use std::test::Fail;
use test_support::SEGMENT;

/// The line of the worked segment as text.
const TEXT: &str = concat!(
    "down 8adcea68dc57cbbe68da7142af88b68a9d27a590e1d5157c53c2bb2c762345ff 1700000000 3400043200 ",
    "1-ff00:0:110 1-ff00:0:111 2\n",
);

/// The same with dates.
const DATED: &str = concat!(
    "down 8adcea68dc57cbbe68da7142af88b68a9d27a590e1d5157c53c2bb2c762345ff 1700000000 3400043200 ",
    "1-ff00:0:110 1-ff00:0:111 2 2023-11-14T22:13:20Z 2023-11-15T04:13:20Z\n",
);

/// A line with the digits of the worked segment between a front and an end.
macro_rules! around_digits {
    ($($front:literal),+; $end:literal) => {
        concat!(
            $($front,)+
            "0a080880e2cfaa061007",
            "12290a270a251223089082808080e07f109182808080e07f1a0e0a0c1001183f220601020304050628c00b",
            "12210a1f0a1d121b089182808080e07f1a0e0a0c0802183f22060a0b0c0d0e0f28c00b",
            $end
        )
    };
}

/// The line of the worked segment as JSON.
const JSON: &str = around_digits!(
    "{\"type\":\"down\",\"id\":\"8adcea68dc57cbbe68da7142af88b68a9d27a590e1d5157c53c2bb2c762345ff\",",
    "\"timestamp\":1700000000,\"expiry\":3400043200,\"made\":\"2023-11-14T22:13:20Z\",",
    "\"expires\":\"2023-11-15T04:13:20Z\",\"first\":\"1-ff00:0:110\",",
    "\"last\":\"1-ff00:0:111\",\"entries\":2,\"segment\":\"";
    "\"}\n"
);

/// The same, where there may be more rows.
const JSON_OF_MORE: &str = around_digits!(
    "{\"type\":\"down\",\"id\":\"8adcea68dc57cbbe68da7142af88b68a9d27a590e1d5157c53c2bb2c762345ff\",",
    "\"timestamp\":1700000000,\"expiry\":3400043200,\"made\":\"2023-11-14T22:13:20Z\",",
    "\"expires\":\"2023-11-15T04:13:20Z\",\"first\":\"1-ff00:0:110\",",
    "\"last\":\"1-ff00:0:111\",\"entries\":2,\"segment\":\"";
    "\",\"more\":true}\n"
);

/// Lines that have the worked segment, too.
const SAME: [&str; 2] = [
    around_digits!("{\"segment\":\""; "\",\"type\":\"down\"}"),
    around_digits!(
        " { \"type\" : \"d\\u006fwn\", \"id\": null, \"segment\": \"";
        "\", \"more\": [1, {}] } \r"
    ),
];

/// Lines without a row, and why.
const REFUSED: [(&str, LineError); 9] = [
    ("", LineError::Json),
    ("{", LineError::Json),
    ("\u{7f}", LineError::Json),
    ("[]", LineError::Type),
    ("{\"type\":2,\"segment\":\"\"}", LineError::Type),
    ("{\"type\":\"Down\",\"segment\":\"\"}", LineError::Type),
    ("{\"type\":\"down\"}", LineError::Hex),
    ("{\"type\":\"down\",\"segment\":\"0\"}", LineError::Hex),
    (
        "{\"type\":\"down\",\"segment\":\"\"}",
        LineError::Segment(SegError::Entries),
    ),
];

#[test]
fn lines_are_read_again(rt: HostRuntime) -> Result<(), Fail> {
    let segment = read_segment(rt.alloc(), &SEGMENT)?;
    assert_lines(&rt, &segment)
}

/// Sees the lines of the worked segment, and that they are read again.
fn assert_lines(rt: &(impl Abort + AllocGlobal), segment: &Segment) -> Result<(), Fail> {
    assert_line(rt, RowForm::Text, segment, TEXT)?;
    assert_line(rt, RowForm::Dated, segment, DATED)?;
    assert_line(rt, RowForm::Json, segment, JSON)?;
    assert_line(rt, RowForm::Json.of_more(), segment, JSON_OF_MORE)?;
    assert_read(rt, JSON, segment)?;
    for line in SAME {
        assert_read(rt, line, segment)?;
    }
    Ok(())
}

/// Sees the line of a segment.
fn assert_line(
    rt: &(impl Abort + AllocGlobal),
    form: RowForm,
    segment: &Segment,
    wanted: &str,
) -> Result<(), Fail> {
    let line = line_as(rt.alloc(), form, SegType::Down, segment)?;
    assert_same(rt, &line.as_str(), &wanted, &"line");
    Ok(())
}

/// Sees a line read as the row of a segment.
fn assert_read(rt: &(impl Abort + AllocGlobal), line: &str, segment: &Segment) -> Result<(), Fail> {
    let (kind, read) = read_line(rt.alloc(), line.as_bytes())?;
    let is_same = kind == SegType::Down && read == *segment;
    assert_true(rt, is_same, "the line is that of the segment");
    Ok(())
}

#[test]
fn lines_without_rows(rt: HostRuntime) {
    for (line, error) in REFUSED {
        assert_refused(&rt, line.as_bytes(), error);
    }
    assert_refused(&rt, b"\"\xff\"", LineError::Json);
}

/// Sees a line refused.
fn assert_refused(rt: &(impl Abort + AllocGlobal), line: &[u8], wanted: LineError) {
    let error = read_line(rt.alloc(), line).err();
    assert_same(rt, &error, &Some(wanted), &"the line is refused");
}

/// Moments in half seconds, and their dates.
#[rattlefmt::skip]
const DATES: [(u64, &str); 9] = [
    (0, "1970-01-01T00:00:00Z"),
    (1, "1970-01-01T00:00:00.5Z"),
    (172_799, "1970-01-01T23:59:59.5Z"),
    (172_800, "1970-01-02T00:00:00Z"),
    (1_903_564_800, "2000-02-29T00:00:00Z"),
    (3_415_910_400, "2024-02-15T00:00:00Z"),
    (8_215_084_800, "2100-03-01T00:00:00Z"),
    (8_589_934_590, "2106-02-07T06:28:15Z"),
    (18_446_744_073_709_551_615, "292277026596-12-04T15:30:07.5Z"),
];

#[test]
fn dates_of_moments(rt: HostRuntime) -> Result<(), Fail> {
    for (moment, wanted) in DATES {
        let text = date_text(rt.alloc(), moment)?;
        assert_same(&rt, &text.as_str(), &wanted, &moment);
    }
    Ok(())
}
