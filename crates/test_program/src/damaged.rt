//! The commands over damaged stores, and those of version 1.

use crate::images::{
    CLOSED, EPOCH_0, EPOCH_1, EPOCH_2, FIRST_AREA, FIRST_GATE, FIRST_JOURNAL, LARGE_AT_1, LARGER,
    LAST_EPOCH, OPEN, PURGE, PURGE_AND_A_BYTE, PURGE_AT_1, REGISTRATION, SEAL, SECOND_AREA,
    SECOND_GATE, SECTORS, TITLE, VERSION_1, VERSION_3, ZEROS,
};
use crate::parts::{Before, NO_PEERS, Part};
use test_support::ENTRIES;

/// The parts that this module is about.
pub(crate) fn parts() -> &'static [Part] {
    PARTS
}

/// The parts of such stores.
const PARTS: &[Part] = &[
    Part {
        what: "another magic",
        before: Before::Changes(&[(TITLE, b"X")]),
        peers: NO_PEERS,
        lines: &[
            ("pathd show damaged", &[]),
            ("pathd show damaged --layout", &[]),
            ("pathd status damaged", &[]),
            ("pathd upgrade damaged", &[]),
            ("pathd run damaged --listen 127.0.0.1:0", &[]),
            ("pathd run damaged --listen localhost --final-status 3", &[]),
        ],
    },
    Part {
        what: "zeros in the place of the title",
        before: Before::Changes(&[(TITLE, ZEROS)]),
        peers: NO_PEERS,
        lines: &[("pathd show damaged", &[]), ("pathd status damaged", &[])],
    },
    Part {
        what: "the title of a larger store",
        before: Before::Changes(&[(TITLE, LARGER)]),
        peers: NO_PEERS,
        lines: &[
            ("pathd show damaged", &[]),
            ("pathd run damaged --listen 127.0.0.1:0 --quiet", &[]),
        ],
    },
    Part {
        what: "the title of a larger store, and a byte after the last sector",
        before: Before::Changes(&[(TITLE, LARGER), (SECTORS, b"X")]),
        peers: NO_PEERS,
        lines: &[("pathd status damaged", &[])],
    },
    Part {
        what: "a sector more",
        before: Before::Changes(&[(SECTORS, ZEROS)]),
        peers: NO_PEERS,
        lines: &[
            ("pathd show damaged", &[]),
            ("pathd show damaged --layout", &[]),
        ],
    },
    Part {
        what: "the first gate is closed",
        before: Before::Changes(&[(FIRST_GATE, CLOSED)]),
        peers: NO_PEERS,
        lines: &[("pathd show damaged", &[]), ("pathd status damaged", &[])],
    },
    Part {
        what: "both halves have epoch 1",
        before: Before::Changes(&[(SECOND_AREA, EPOCH_1), (SECOND_GATE, OPEN)]),
        peers: NO_PEERS,
        lines: &[("pathd show damaged", &[])],
    },
    Part {
        what: "both halves are open, and the second has epoch 2",
        before: Before::Changes(&[(SECOND_AREA, EPOCH_2), (SECOND_GATE, OPEN)]),
        peers: NO_PEERS,
        lines: &[
            ("pathd status damaged", &[]),
            ("pathd show damaged --layout", &[]),
            ("pathd show damaged", &[]),
            ("pathd show damaged --layout", &[]),
        ],
    },
    Part {
        what: "the first half has no checkpoint",
        before: Before::Changes(&[(FIRST_AREA, b"X")]),
        peers: NO_PEERS,
        lines: &[("pathd show damaged", &[])],
    },
    Part {
        what: "the first journal is sealed, and the second half is open",
        before: Before::Changes(&[
            (FIRST_JOURNAL, OPEN),
            (FIRST_JOURNAL + 1, SEAL),
            (SECOND_AREA, EPOCH_0),
            (SECOND_GATE, OPEN),
        ]),
        peers: NO_PEERS,
        lines: &[("pathd show damaged", &[])],
    },
    Part {
        what: "the checkpoint is of version 3",
        before: Before::Changes(&[(FIRST_AREA, VERSION_3)]),
        peers: NO_PEERS,
        lines: &[("pathd show damaged", &[]), ("pathd upgrade damaged", &[])],
    },
    Part {
        what: "an open gate, and no group",
        before: Before::Changes(&[(FIRST_JOURNAL, OPEN)]),
        peers: NO_PEERS,
        lines: &[("pathd show damaged", &[])],
    },
    Part {
        what: "a byte after a group's commands",
        before: Before::Changes(&[(FIRST_JOURNAL, OPEN), (FIRST_JOURNAL + 1, PURGE_AND_A_BYTE)]),
        peers: NO_PEERS,
        lines: &[("pathd show damaged", &[])],
    },
    Part {
        what: "a group at place 1, where place 0 is expected",
        before: Before::Changes(&[(FIRST_JOURNAL, OPEN), (FIRST_JOURNAL + 1, PURGE_AT_1)]),
        peers: NO_PEERS,
        lines: &[("pathd show damaged", &[])],
    },
    Part {
        what: "a group beyond the journal",
        before: Before::Changes(&[
            (FIRST_JOURNAL, OPEN),
            (FIRST_JOURNAL + 1, PURGE),
            (FIRST_JOURNAL + 2, OPEN),
            (FIRST_JOURNAL + 3, LARGE_AT_1),
        ]),
        peers: NO_PEERS,
        lines: &[("pathd show damaged", &[])],
    },
    Part {
        what: "a group of one purge",
        before: Before::Changes(&[(FIRST_JOURNAL, OPEN), (FIRST_JOURNAL + 1, PURGE)]),
        peers: NO_PEERS,
        lines: &[("pathd show damaged", &[]), ("pathd status damaged", &[])],
    },
    Part {
        what: "version 1",
        before: Before::Changes(&[(FIRST_AREA, VERSION_1)]),
        peers: NO_PEERS,
        lines: &[
            ("pathd status damaged", &[]),
            ("pathd upgrade damaged", &[]),
            ("pathd status damaged", &[]),
            ("pathd show damaged --layout", &[]),
            ("pathd upgrade damaged", &[]),
            ("pathd show damaged --layout", &[]),
            ("pathd show damaged", &[]),
        ],
    },
    Part {
        what: "version 1, and the first journal is sealed",
        before: Before::Changes(&[
            (FIRST_AREA, VERSION_1),
            (FIRST_JOURNAL, OPEN),
            (FIRST_JOURNAL + 1, SEAL),
        ]),
        peers: NO_PEERS,
        lines: &[
            ("pathd status damaged", &[]),
            ("pathd upgrade damaged", &[]),
            ("pathd show damaged", &[]),
        ],
    },
    Part {
        what: "version 1, and the last epoch",
        before: Before::Changes(&[(FIRST_AREA, LAST_EPOCH)]),
        peers: NO_PEERS,
        lines: &[("pathd upgrade damaged", &[]), ("pathd show damaged", &[])],
    },
    Part {
        what: "version 1, and a row that no checkpoint has room for",
        before: Before::Changes(&[
            (FIRST_AREA, VERSION_1),
            (FIRST_JOURNAL, OPEN),
            (FIRST_JOURNAL + 1, REGISTRATION),
            (FIRST_JOURNAL + 3, &ENTRIES),
        ]),
        peers: NO_PEERS,
        lines: &[
            ("pathd status damaged", &[]),
            ("pathd upgrade damaged", &[]),
            ("pathd status damaged", &[]),
        ],
    },
];
