//! The commands over the file of a store.

use crate::images::{CLOSED, FIRST_GATE, FIRST_JOURNAL, OPEN, PURGE, TITLE};
use crate::parts::{Before, NO_PEERS, Part};

/// The parts that this module is about.
pub(crate) fn parts() -> &'static [Part] {
    PARTS
}

/// The parts of stores at rest.
const PARTS: &[Part] = &[
    Part {
        what: "the file of a store",
        before: Before::Nothing,
        peers: NO_PEERS,
        lines: &[
            ("pathd format none/store --checkpoint 2 --journal 516", &[]),
            ("pathd format /dev/null --checkpoint 2 --journal 516", &[]),
            ("pathd show store", &[]),
            ("pathd show store --layout", &[]),
            ("pathd status store", &[]),
            ("pathd upgrade store", &[]),
            ("pathd run store --listen 127.0.0.1:0", &[]),
            ("pathd format store --checkpoint 3 --journal 517", &[]),
            ("pathd show store --layout", &[]),
            ("pathd format store --checkpoint 2 --journal 516", &[]),
            ("pathd status store", &[]),
            ("pathd show store", &[]),
            ("pathd show store --layout", &[]),
            ("pathd upgrade store", &[]),
            ("pathd run store --listen localhost --quiet", &[]),
            ("pathd run store --listen :30252 --quiet", &[]),
            (
                "pathd run store --listen localhost --quiet --final-status 9",
                &[],
            ),
            ("pathd run store --listen 192.0.2.1:30252 --quiet", &[]),
            (
                "pathd run store --listen 192.0.2.1:30252 --quiet --final-status 9",
                &[],
            ),
            (
                "pathd run store --listen 127.0.0.1:0 --status local_host:0 --quiet",
                &[],
            ),
            (
                "pathd run store --listen 127.0.0.1:0 --lookups local_host:0 --quiet",
                &[],
            ),
            ("pathd run none --listen localhost --cores 1-x", &[]),
            ("pathd run none --listen localhost --key 0", &[]),
            ("pathd run none --listen localhost", &[]),
            ("pathd run none --listen 127.0.0.1:0 --cores 1-0", &[]),
            ("pathd run none --listen 127.0.0.1:0", &[]),
            (
                "pathd run none --listen 127.0.0.1:0 --log-priority --final-status 255",
                &[],
            ),
            ("pathd show store", &[]),
        ],
    },
    Part {
        what: "standard output has no room",
        before: Before::NoRoom,
        peers: NO_PEERS,
        lines: &[
            ("pathd once --hex", &["0000000102"]),
            ("pathd format other --checkpoint 2 --journal 516", &[]),
            ("pathd show other", &[]),
            ("pathd show other --layout", &[]),
            ("pathd status other", &[]),
            ("pathd upgrade other", &[]),
            ("pathd run other --listen 127.0.0.1:0 --quiet", &[]),
        ],
    },
    Part {
        what: "the file is locked",
        before: Before::Locked,
        peers: NO_PEERS,
        lines: &[
            ("pathd format store --checkpoint 2 --journal 516", &[]),
            ("pathd show store", &[]),
            ("pathd upgrade store", &[]),
            ("pathd run store --listen 127.0.0.1:0", &[]),
            ("pathd status store", &[]),
        ],
    },
    Part {
        what: "a store is there, and nobody is asked",
        before: Before::Changes(&[]),
        peers: NO_PEERS,
        lines: &[
            (
                "pathd format damaged --checkpoint 3 --journal 517 --new",
                &["yes\n"],
            ),
            ("pathd status damaged", &[]),
            (
                "pathd format damaged --checkpoint 3 --journal 517",
                &["no\n"],
            ),
            (
                "pathd format damaged --checkpoint 2 --journal 516 --force",
                &[],
            ),
            (
                "pathd format another --checkpoint 2 --journal 516 --new --reserve",
                &[],
            ),
            (
                "pathd format another --checkpoint 2 --journal 516 --new",
                &[],
            ),
        ],
    },
    Part {
        what: "a store is there, and a terminal",
        before: Before::Terminal(&[(FIRST_JOURNAL, OPEN), (FIRST_JOURNAL + 1, PURGE)]),
        peers: NO_PEERS,
        lines: &[
            ("pathd format damaged --checkpoint 3 --journal 517", &[]),
            (
                "pathd format damaged --checkpoint 3 --journal 517",
                &["y\n"],
            ),
            (
                "pathd format damaged --checkpoint 3 --journal 517",
                &["Yes\n"],
            ),
            (
                "pathd format damaged --checkpoint 3 --journal 517",
                &["yes"],
            ),
            (
                "pathd format damaged --checkpoint 3 --journal 517",
                &["yes please\n"],
            ),
            (
                "pathd format damaged --checkpoint 3 --journal 517 --new",
                &["yes\n"],
            ),
            ("pathd status damaged", &[]),
            (
                "pathd format damaged --checkpoint 3 --journal 517",
                &["yes\n"],
            ),
            ("pathd status damaged", &[]),
            (
                "pathd format damaged --checkpoint 2 --journal 516 --force",
                &[],
            ),
            (
                "pathd format other --checkpoint 2 --journal 516 --force",
                &[],
            ),
        ],
    },
    Part {
        what: "a store that does not open is there, and a terminal",
        before: Before::Terminal(&[(FIRST_GATE, CLOSED)]),
        peers: NO_PEERS,
        lines: &[
            (
                "pathd format damaged --checkpoint 2 --journal 516",
                &["no\n"],
            ),
            ("pathd show damaged", &[]),
            (
                "pathd format damaged --checkpoint 2 --journal 516",
                &["yes\n"],
            ),
            ("pathd show damaged", &[]),
        ],
    },
    Part {
        what: "no store is there, and a terminal",
        before: Before::Terminal(&[(TITLE, b"X")]),
        peers: NO_PEERS,
        lines: &[("pathd format damaged --checkpoint 2 --journal 516", &[])],
    },
];
