//! Signatures of the test profile. The values are from Python's hashlib.

use crate::checks::done;
use crate::host::Host;
use crate::messages::checked::{EXPIRY, KEY, SEGMENT, SIGNED};
use seg_check::{CheckError, Keyed, check, keyed_signature};
use seg_core::read_segment;
use std::alloc::Global;
use std::test::Fail;
use test_support::{TestHost, assert_same};

/// The verifier with that key.
fn keyed(alloc: Global, key: &[u8]) -> Result<Keyed, Fail> {
    if !Keyed::takes(key) {
        return Err(Fail::from("no key"));
    }
    Ok(Keyed::new(Vec::from_slice(alloc, key)?))
}

/// A signature by that key in hexadecimal.
fn signature_text(alloc: Global, signed: &[u8], associated: &[&[u8]]) -> Result<String, Fail> {
    Ok(hex::encode(alloc, &keyed_signature(&KEY, signed, associated))?)
}

/// Checks a signature by that key.
fn assert_signature(
    rt: &impl TestHost,
    alloc: Global,
    signed: &[u8],
    associated: &[&[u8]],
    expected: &str,
) -> Result<(), Fail> {
    let found = signature_text(alloc, signed, associated)?;
    assert_same(rt, &found.as_str(), &expected, &"a signature");
    Ok(())
}

#[test]
fn keyed_signature_values(rt: HostRuntime) {
    let host = Host(&rt);
    let info = &SEGMENT[2..10];
    let first = &SEGMENT[16..53];
    let second = &SEGMENT[59..];
    let signature = &SIGNED[55..87];
    let text = "31a45617b6693c8ca6c9df0dd203759b08fa0e35bd65e554d20c1cf47480dcc7";
    let of_first = assert_signature(&host, rt.alloc(), first, &[info], text);
    done(&rt, of_first);
    let text = "c32aff63a5c814036bf7635a601b59ee8e54bba3fd613a84088c277a0535122d";
    let associated: &[&[u8]] = &[info, first, signature];
    let of_second = assert_signature(&host, rt.alloc(), second, associated, text);
    done(&rt, of_second);
}

/// The places of bytes of the signed segment, and what is answered where one bit of each is
/// changed: in the segment's information, in each MAC, in each signature and in both.
const FLIPS: [(&[usize], Result<(), CheckError>); 7] = [
    (&[], Ok(())),
    (&[9], Err(CheckError::BadSignature(0))),
    (&[44], Err(CheckError::BadSignature(0))),
    (&[113], Err(CheckError::BadSignature(1))),
    (&[55], Err(CheckError::BadSignature(0))),
    (&[155], Err(CheckError::BadSignature(1))),
    (&[86, 124], Err(CheckError::BadSignature(0))),
];

/// The signed segment with one bit changed at each of these places.
fn flipped(places: &[usize]) -> [u8; 156] {
    let mut message = SIGNED;
    for place in places {
        if let Some(byte) = message.get_mut(*place) {
            *byte ^= 1;
        }
    }
    message
}

/// Checks what is answered where one bit is changed at each of these places.
fn assert_flipped(
    rt: &impl TestHost,
    alloc: Global,
    verifier: &Keyed,
    places: &[usize],
    answer: Result<(), CheckError>,
) -> Result<(), Fail> {
    let segment = read_segment(alloc, &flipped(places))?;
    let found = check(&segment, verifier, EXPIRY - 1);
    assert_same(rt, &found, &answer, &places);
    Ok(())
}

/// Checks all of these changes.
fn assert_all_flipped(rt: &impl TestHost, alloc: Global, verifier: &Keyed) -> Result<(), Fail> {
    for (places, answer) in &FLIPS {
        assert_flipped(rt, alloc, verifier, places, *answer)?;
    }
    Ok(())
}

// Segments with one bit changed in the segment's information, in each MAC, in each signature and in
// both.
#[test]
fn keyed_signature_refused(rt: HostRuntime) {
    let verifier = done(&rt, keyed(rt.alloc(), &KEY));
    let checked = assert_all_flipped(&Host(&rt), rt.alloc(), &verifier);
    done(&rt, checked);
}

/// A key of a verifier, a moment in half seconds, and why the signed segment is refused then.
#[derive(Clone, Copy)]
struct Refused<'a> {
    name: &'static str,
    key: &'a [u8],
    now: u64,
    why: CheckError,
}

/// Checks why a verifier with a key refuses the signed segment.
fn assert_refused(rt: &impl TestHost, alloc: Global, row: Refused<'_>) -> Result<(), Fail> {
    let segment = read_segment(alloc, &SIGNED)?;
    let verifier = keyed(alloc, row.key)?;
    let found = check(&segment, &verifier, row.now);
    assert_same(rt, &found, &Err(row.why), &row.name);
    Ok(())
}

// Verifiers with another key, and with an empty one. A bad signature is reported before the expiry.
#[rattlefmt::skip]
#[test]
fn keys_differ(rt: HostRuntime) -> Result<(), Fail> {
    let host = Host(&rt);
    let bad = CheckError::BadSignature(0);
    for row in [
        Refused { name: "late", key: &KEY, now: EXPIRY, why: CheckError::Expired },
        Refused { name: "another key", key: &KEY[1..], now: 0, why: bad },
        Refused { name: "another key, and late", key: &KEY[1..], now: EXPIRY, why: bad },
        Refused { name: "an empty key", key: b"", now: 0, why: bad },
    ] {
        assert_refused(&host, rt.alloc(), row)?;
    }
    Ok(())
}

#[test]
fn key_lengths(rt: HostRuntime) {
    let host = Host(&rt);
    let bytes = [0; 65];
    for (len, taken) in [(0, true), (64, true), (65, false)] {
        assert_same(&host, &Keyed::takes(&bytes[..len]), &taken, &len);
    }
}

#[test]
fn refusals_are_printed(rt: HostRuntime) -> Result<(), Fail> {
    let host = Host(&rt);
    for (error, text) in [
        (
            CheckError::BadSignature(1),
            "the signature of entry 1 is not good",
        ),
        (CheckError::Expired, "the segment has expired"),
    ] {
        let found = error.to_string(rt.alloc())?;
        assert_same(&host, &found.as_str(), &text, &error);
    }
    Ok(())
}
