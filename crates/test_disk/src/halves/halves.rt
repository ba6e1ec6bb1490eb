//! Heads, the half that is chosen, and the half that has the tail.

use crate::halves::area::changed;
use crate::host::Host;
use ckpt_pair::{Head, Heads, PairError, choose, read_head, tail_half};
use std::test::Fail;
use store_layout::Half;
use test_support::assert_same;

/// A gate that is open by its first byte alone, and one that is closed.
const OPEN: [u8; 4] = [0xa7, 1, 2, 3];

const CLOSED: [u8; 4] = [0xa6, 0xa7, 0xa7, 0xa7];

/// A head of version 2 at place 258.
fn head(epoch: u64) -> Head {
    Head {
        version: 2,
        epoch,
        place: 258,
    }
}

/// The head of an area that is long enough for one.
fn head_of(gate: &[u8], area: &[u8]) -> Result<Option<Head>, PairError> {
    if area.len() < 24 {
        return Err(PairError::NoMemory);
    }
    read_head(gate, area)
}

/// Which byte of the worked area is changed, what to, and the head that is read then.
#[derive(Clone, Copy)]
struct Change {
    what: &'static str,
    at: usize,
    byte: u8,
    head: Result<Head, PairError>,
}

/// The worked head.
const WORKED: Head = Head {
    version: 2,
    epoch: 7,
    place: 258,
};

/// The same with another version, and with other epochs.
const OLDER: Head = Head {
    version: 1,
    epoch: 7,
    place: 258,
};

const LATER: Head = Head {
    version: 2,
    epoch: 7 + (1 << 56),
    place: 258,
};

const FIRST_EPOCH: Head = Head {
    version: 2,
    epoch: 0,
    place: 258,
};

const BAD: PairError = PairError::BadCheckpoint;

const LARGE: Result<Head, PairError> = Err(PairError::NewerFormat(0x0100_0002));

#[rattlefmt::skip]
const CHANGES: [Change; 10] = [
    Change { what: "nothing", at: 511, byte: 0, head: Ok(WORKED) },
    Change { what: "the magic", at: 0, byte: 0x51, head: Err(BAD) },
    Change { what: "the magic's end", at: 3, byte: 0x51, head: Err(BAD) },
    Change { what: "version 0", at: 7, byte: 0, head: Err(BAD) },
    Change { what: "version 1", at: 7, byte: 1, head: Ok(OLDER) },
    Change { what: "version 3", at: 7, byte: 3, head: Err(PairError::NewerFormat(3)) },
    Change { what: "a large version", at: 4, byte: 1, head: LARGE },
    Change { what: "a large epoch", at: 8, byte: 1, head: Ok(LATER) },
    Change { what: "epoch 0", at: 15, byte: 0, head: Ok(FIRST_EPOCH) },
    Change { what: "after the head", at: 24, byte: 0xff, head: Ok(WORKED) },
];

// The worked head, and each refusal after one byte was changed. After a closed gate nothing is
// checked.
#[test]
fn heads_are_read(rt: HostRuntime) -> Result<(), Fail> {
    let host = Host(&rt);
    for row in &CHANGES {
        let area = changed(rt.alloc(), row.at, row.byte)?;
        let found = head_of(&OPEN, &area);
        assert_same(&host, &found, &row.head.map(Some), &row.what);
        assert_same(&host, &head_of(&CLOSED, &area), &Ok(None), &row.what);
    }
    Ok(())
}

/// The epochs of the halves that have a head, and which half is chosen.
#[derive(Clone, Copy, Debug)]
struct ChoiceRow {
    first: Option<u64>,
    second: Option<u64>,
    chosen: Result<Half, PairError>,
}

#[rattlefmt::skip]
const CHOICES: [ChoiceRow; 8] = [
    ChoiceRow { first: None, second: None, chosen: Err(PairError::NoHalf) },
    ChoiceRow { first: Some(0), second: None, chosen: Ok(Half::First) },
    ChoiceRow { first: None, second: Some(0), chosen: Ok(Half::Second) },
    ChoiceRow { first: Some(3), second: Some(3), chosen: Err(PairError::SameEpoch) },
    ChoiceRow { first: Some(3), second: Some(4), chosen: Ok(Half::Second) },
    ChoiceRow { first: Some(4), second: Some(3), chosen: Ok(Half::First) },
    ChoiceRow { first: Some(0), second: Some(u64::MAX), chosen: Ok(Half::Second) },
    ChoiceRow { first: Some(u64::MAX), second: Some(0), chosen: Ok(Half::First) },
];

// The half with the greater epoch is chosen.
#[test]
fn halves_are_chosen(rt: HostRuntime) -> Result<(), Fail> {
    let host = Host(&rt);
    for row in &CHOICES {
        let heads = Heads {
            first: row.first.map(head),
            second: row.second.map(head),
        };
        assert_same(&host, &choose(heads), &row.chosen, row);
    }
    Ok(())
}

/// The epochs of the halves that have a head, the half that is chosen, whether its journal is
/// sealed, and the half that has the tail.
#[derive(Clone, Copy, Debug)]
struct Tail {
    first: Option<u64>,
    second: Option<u64>,
    chosen: Half,
    is_sealed: bool,
    tail: Result<Half, PairError>,
}

const FIRST: Half = Half::First;

const SECOND: Half = Half::Second;

const NEWER: PairError = PairError::SealedNewer;

#[rattlefmt::skip]
const TAILS: [Tail; 7] = [
    Tail { first: Some(1), second: None, chosen: FIRST, is_sealed: false, tail: Ok(FIRST) },
    Tail { first: Some(1), second: None, chosen: FIRST, is_sealed: true, tail: Ok(SECOND) },
    Tail { first: None, second: Some(2), chosen: SECOND, is_sealed: false, tail: Ok(SECOND) },
    Tail { first: None, second: Some(2), chosen: SECOND, is_sealed: true, tail: Ok(FIRST) },
    Tail { first: Some(1), second: Some(2), chosen: SECOND, is_sealed: false, tail: Ok(SECOND) },
    Tail { first: Some(1), second: Some(2), chosen: SECOND, is_sealed: true, tail: Err(NEWER) },
    Tail { first: Some(1), second: Some(2), chosen: FIRST, is_sealed: true, tail: Err(NEWER) },
];

// After a seal the tail is in the other half, which has to be closed.
#[test]
fn tails_are_found(rt: HostRuntime) -> Result<(), Fail> {
    let host = Host(&rt);
    for row in &TAILS {
        let heads = Heads {
            first: row.first.map(head),
            second: row.second.map(head),
        };
        let found = tail_half(heads, row.chosen, row.is_sealed);
        assert_same(&host, &found, &row.tail, row);
    }
    Ok(())
}
