//! The queries of sources and destinations.

use crate::checks::done;
use crate::host::Host;
use crate::lookups::worked::roster;
use isd_as::parse;
use seg_core::SegType;
use seg_lookup::{LookupError, Query, Roster, classify};
use std::test::Fail;
use test_support::{TestHost, assert_same};

/// The core ASes, with duplicates and with members that have a zero part.
const CORES: [&str; 6] = [
    "2-64512",
    "1-0",
    "1-ff00:0:110",
    "2-64512",
    "0-5",
    "1-ff00:0:110",
];

/// Texts, and whether their AS is a member.
const MEMBERS: [(&str, bool); 10] = [
    ("1-ff00:0:110", true),
    ("2-64512", true),
    ("1-0", true),
    ("0-5", true),
    ("1-5", false),
    ("0-0", false),
    ("2-0", false),
    ("1-64512", false),
    ("1-ff00:0:111", false),
    ("65535-ffff:ffff:ffff", false),
];

/// Checks whether the AS of a text is a member.
fn assert_member(rt: &impl TestHost, cores: &Roster, text: &str, there: bool) -> Result<(), Fail> {
    let found = cores.contains(parse(text)?);
    assert_same(rt, &found, &there, &text);
    Ok(())
}

#[test]
fn members_are_counted_once(rt: HostRuntime) {
    let host = Host(&rt);
    let cores = done(&rt, roster(rt.alloc(), &CORES));
    for (text, there) in &MEMBERS {
        done(&rt, assert_member(&host, &cores, text, *there));
    }
    let nobody = done(&rt, roster(rt.alloc(), &[]));
    done(&rt, assert_member(&host, &nobody, "1-0", false));
}

/// A source and a destination, and their query: the type of the segments, and the ASes from which
/// and to which the segments lead.
#[derive(Clone, Copy, Debug)]
struct Side {
    source: &'static str,
    destination: &'static str,
    kind: SegType,
    start: &'static str,
    end: &'static str,
}

const UP: SegType = SegType::Up;

const DOWN: SegType = SegType::Down;

const CORE: SegType = SegType::Core;

/// The core AS of ISD 1, and an AS that is none.
const AS_110: &str = "1-ff00:0:110";

const AS_111: &str = "1-ff00:0:111";

/// The core AS of ISD 2.
const AS_64512: &str = "2-64512";

#[rattlefmt::skip]
const SIDES: [Side; 10] = [
    Side { source: AS_110, destination: AS_64512, kind: CORE, start: AS_64512, end: AS_110 },
    Side { source: AS_64512, destination: AS_64512, kind: CORE, start: AS_64512, end: AS_64512 },
    Side { source: AS_111, destination: AS_110, kind: UP, start: AS_110, end: AS_111 },
    Side { source: AS_110, destination: AS_111, kind: DOWN, start: AS_110, end: AS_111 },
    Side { source: "1-0", destination: "0-0", kind: CORE, start: "0-0", end: "1-0" },
    Side { source: "3-0", destination: AS_64512, kind: CORE, start: AS_64512, end: "3-0" },
    Side { source: "1-5", destination: "1-0", kind: UP, start: "1-0", end: "1-5" },
    Side { source: "1-5", destination: "0-0", kind: UP, start: "0-0", end: "1-5" },
    Side { source: "0-0", destination: "1-5", kind: DOWN, start: "0-0", end: "1-5" },
    Side { source: "3-0", destination: "1-5", kind: DOWN, start: "3-0", end: "1-5" },
];

/// The query of a source and a destination, or why they are refused.
fn classified(
    cores: &Roster,
    source: &str,
    destination: &str,
) -> Result<Result<Query, LookupError>, Fail> {
    Ok(classify(cores, parse(source)?, parse(destination)?))
}

/// Checks what the query of a source and a destination asks for.
fn assert_query(rt: &impl TestHost, cores: &Roster, side: &Side) -> Result<(), Fail> {
    let query = classified(cores, side.source, side.destination)??;
    assert_same(rt, &query.kind, &side.kind, side);
    assert_same(rt, &parse(side.start), &Ok(query.start), side);
    assert_same(rt, &parse(side.end), &Ok(query.end), side);
    Ok(())
}

#[test]
fn sides_are_classified(rt: HostRuntime) {
    let host = Host(&rt);
    let cores = done(&rt, roster(rt.alloc(), &CORES));
    for side in &SIDES {
        done(&rt, assert_query(&host, &cores, side));
    }
}

/// A source and a destination, and why they are refused.
#[derive(Clone, Copy, Debug)]
struct Refusal {
    source: &'static str,
    destination: &'static str,
    why: LookupError,
}

const ISD_ONLY: LookupError = LookupError::IsdOnlyWildcard;

/// Of several refusals the first is the result.
#[rattlefmt::skip]
const REFUSALS: [Refusal; 7] = [
    Refusal { source: "0-0", destination: "0-0", why: LookupError::NullDestination },
    Refusal { source: "0-ff00:0:110", destination: "0-0", why: ISD_ONLY },
    Refusal { source: "0-0", destination: "0-1", why: ISD_ONLY },
    Refusal { source: "0-5", destination: "1-5", why: ISD_ONLY },
    Refusal { source: AS_110, destination: "0-ff00:0:110", why: ISD_ONLY },
    Refusal { source: "1-5", destination: "1-6", why: LookupError::NoCore },
    Refusal { source: AS_111, destination: AS_111, why: LookupError::NoCore },
];

/// Checks why a source and a destination are refused.
fn assert_refused(rt: &impl TestHost, cores: &Roster, row: &Refusal) -> Result<(), Fail> {
    let found = classified(cores, row.source, row.destination)?;
    assert_same(rt, &found.err(), &Some(row.why), row);
    Ok(())
}

#[test]
fn sides_are_refused(rt: HostRuntime) {
    let host = Host(&rt);
    let cores = done(&rt, roster(rt.alloc(), &CORES));
    for row in &REFUSALS {
        done(&rt, assert_refused(&host, &cores, row));
    }
    let numbers = [
        LookupError::NullDestination as u8,
        LookupError::IsdOnlyWildcard as u8,
        LookupError::NoCore as u8,
    ];
    assert_same(&host, &numbers, &[1, 2, 3], &"numbers of the errors");
}
