//! What stores hold, the states that they are in, and what opening a device answers.

use sector_dev::{Device, MemDevice};
use std::alloc::Global;
use store_open::{OpenError, Store, open};
use test_support::{TestHost, assert_same};

/// What a store represents: how many rows, their bytes, and its place.
#[derive(Clone, Copy, Debug, PartialEq, Eq)]
pub(crate) struct Held {
    pub(crate) rows: usize,
    pub(crate) bytes: u64,
    pub(crate) place: u64,
}

/// What a new store represents.
pub(crate) const NOTHING: Held = Held {
    rows: 0,
    bytes: 0,
    place: 0,
};

/// What this store represents.
pub(crate) fn held_by<D: Device>(store: &Store<D>) -> Held {
    let db = store.db();
    Held {
        rows: db.rows().count(),
        bytes: db.encoded_len(),
        place: store.place(),
    }
}

/// A store's epoch, its version, whether its journal is sealed, and whether it is broken.
#[derive(Clone, Copy, Debug, PartialEq, Eq)]
pub(crate) struct State {
    pub(crate) epoch: u64,
    pub(crate) version: u32,
    pub(crate) is_sealed: bool,
    pub(crate) is_broken: bool,
}

/// The state of a store that is neither sealed nor broken.
pub(crate) fn usable(epoch: u64, version: u32) -> State {
    State {
        epoch,
        version,
        is_sealed: false,
        is_broken: false,
    }
}

/// The state of this store.
pub(crate) fn state_of<D: Device>(store: &Store<D>) -> State {
    State {
        epoch: store.epoch(),
        version: store.version(),
        is_sealed: store.is_sealed(),
        is_broken: store.is_broken(),
    }
}

/// Sees what a store represents, and which state it is in.
pub(crate) fn assert_store<D: Device>(
    rt: &impl TestHost,
    store: &Store<D>,
    held: Held,
    state: State,
) {
    assert_same(rt, &held_by(store), &held, &"what the store holds");
    assert_same(rt, &state_of(store), &state, &"its state");
}

/// Why a device is not opened: the number of the error, and the number of the reason within it,
/// which is zero where it has none.
#[derive(Clone, Copy, Debug, PartialEq, Eq)]
pub(crate) struct Refusal {
    error: u8,
    reason: u8,
}

/// What opening answers: what the store represents, or the refusal.
pub(crate) type Answer = Result<Held, Refusal>;

/// The device is no store.
pub(crate) const NO_STORE: Answer = Err(Refusal {
    error: 1,
    reason: 0,
});

/// It has no open half.
pub(crate) const NO_HALF: Answer = Err(Refusal {
    error: 3,
    reason: 1,
});

/// Both halves are open, and have the same epoch.
pub(crate) const SAME_EPOCH: Answer = Err(Refusal {
    error: 3,
    reason: 2,
});

/// An open half has no checkpoint that is well-formed.
pub(crate) const BAD_CHECKPOINT: Answer = Err(Refusal {
    error: 3,
    reason: 3,
});

/// A journal is sealed beside an open half, or beside a sealed journal.
pub(crate) const SEALED_NEWER: Answer = Err(Refusal {
    error: 3,
    reason: 4,
});

/// The version of an open half is not known.
pub(crate) const NEWER: Answer = Err(Refusal {
    error: 3,
    reason: 5,
});

/// A payload has no header.
pub(crate) const BAD_HEADER: Answer = Err(Refusal {
    error: 4,
    reason: 1,
});

/// A group has a bad record, or padding that is not zero.
pub(crate) const BAD_RECORD: Answer = Err(Refusal {
    error: 4,
    reason: 2,
});

/// A payload has another place than the one that is expected.
pub(crate) const GAP: Answer = Err(Refusal {
    error: 4,
    reason: 3,
});

/// A payload goes past the journal's end.
pub(crate) const PAST_END: Answer = Err(Refusal {
    error: 4,
    reason: 4,
});

/// Memory was refused.
pub(crate) const NO_MEMORY: Answer = Err(Refusal {
    error: 5,
    reason: 0,
});

/// What opening a device answers, and the device.
pub(crate) fn answer_of(alloc: Global, device: MemDevice) -> (Answer, MemDevice) {
    match open(alloc, device) {
        Ok(store) => (Ok(held_by(&store)), store.into_device()),
        Err((device, error)) => (Err(refusal_of(error)), device),
    }
}

/// The numbers of an error.
fn refusal_of(error: OpenError) -> Refusal {
    let reason = match error {
        OpenError::Pair(refusal) => refusal.number(),
        OpenError::Journal(refusal) => refusal.number(),
        _ => 0,
    };
    Refusal {
        error: error.number(),
        reason,
    }
}
