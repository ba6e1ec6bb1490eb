//! A server and its peers.

use crate::parts::{Before, NO_PEERS, Part, Peers};
use test_support::digits::{LOOKUP, REGISTER_2096, REMOVE};

/// A frame of a kind that a server without lists does not know.
const NO_KIND: &str = "0000000105";

/// Three purges.
const PURGES: &str =
    "000000090300000000000000000000000903000000000000000000000009030000000000000000";

/// All segments of the type 2, down.
const LIST: &str = "00000012050200000000000000000000000000000000";

/// A purge of all that ever expires, and one of nothing.
const PURGE_ALL: &str = "0000000903ffffffffffffffff";

const PURGE: &str = "00000009030000000000000000";

/// An empty registration, and a removal of another length than 34.
const FAULTY: &str = "0000000101000000020400";

/// The parts that this module is about.
pub(crate) fn parts() -> &'static [Part] {
    PARTS
}

/// The parts of served stores.
const PARTS: &[Part] = &[
    Part {
        what: "rows that no checkpoint has room for",
        before: Before::Nothing,
        peers: Peers {
            sessions: &["0000000102"],
            together: 0,
            silent: 0,
        },
        lines: &[(
            "pathd run damaged --listen ADDR --cores 1-ff00:0:110 --sessions 1 --idle 60",
            &[],
        )],
    },
    Part {
        what: "sessions",
        before: Before::Nothing,
        peers: Peers {
            sessions: &[REGISTER_2096, LOOKUP, NO_KIND],
            together: 0,
            silent: 0,
        },
        lines: &[(
            "pathd run store --listen ADDR --cores 1-ff00:0:110 --sessions 3 --idle 60",
            &[],
        )],
    },
    Part {
        what: "the store that was served",
        before: Before::Nothing,
        peers: NO_PEERS,
        lines: &[
            ("pathd show store", &[]),
            ("pathd status store", &[]),
            ("pathd show store --layout", &[]),
            ("pathd format other --checkpoint 002 --journal 516", &[]),
        ],
    },
    Part {
        what: "as many sessions as may be open at one time",
        before: Before::Nothing,
        peers: Peers {
            sessions: &[REGISTER_2096, LOOKUP, PURGES, FAULTY],
            together: 64,
            silent: 0,
        },
        lines: &[(
            "pathd run other --listen ADDR --cores 1-ff00:0:110 --sessions 69 --idle 60 --quiet",
            &[],
        )],
    },
    Part {
        what: "a bound of times, and all seats for commands",
        before: Before::Nothing,
        peers: Peers {
            sessions: &[REGISTER_2096, PURGE_ALL, PURGE, LOOKUP],
            together: 0,
            silent: 0,
        },
        lines: &[(
            "pathd run other --listen ADDR --cores 1-ff00:0:110 --sessions 4 --idle 60 --future 86400 --spare 0",
            &[],
        )],
    },
    Part {
        what: "sessions that only look up",
        before: Before::Nothing,
        peers: Peers {
            sessions: &[REGISTER_2096, PURGE, REMOVE, LOOKUP],
            together: 0,
            silent: 0,
        },
        lines: &[(
            "pathd run other --listen 127.0.0.1:0 --lookups ADDR --lookup-seats 1 --cores 1-ff00:0:110 --sessions 4 --idle 60 --quiet",
            &[],
        )],
    },
    Part {
        what: "more sessions that only look up than have seats",
        before: Before::Nothing,
        peers: Peers {
            sessions: &[],
            together: 16,
            silent: 0,
        },
        lines: &[(
            "pathd run other --listen 127.0.0.1:0 --lookups ADDR --cores 1-ff00:0:110 --sessions 17 --idle 60 --quiet",
            &[],
        )],
    },
    Part {
        what: "lists",
        before: Before::Nothing,
        peers: Peers {
            sessions: &[LIST],
            together: 0,
            silent: 0,
        },
        lines: &[(
            "pathd run other --listen ADDR --cores 1-ff00:0:110 --sessions 1 --idle 60 --lists --quiet",
            &[],
        )],
    },
    Part {
        what: "core ASes of which some are none",
        before: Before::Nothing,
        peers: Peers {
            sessions: &[LOOKUP],
            together: 0,
            silent: 0,
        },
        lines: &[(
            "pathd run other --listen ADDR --cores 1-0,1-ff00:0:110,0-5 --sessions 1 --idle 60 --log-priority",
            &[],
        )],
    },
    Part {
        what: "lines with their priorities, and purges by itself",
        before: Before::Nothing,
        peers: Peers {
            sessions: &[LOOKUP, NO_KIND],
            together: 0,
            silent: 0,
        },
        lines: &[(
            "pathd run other --listen ADDR --sessions 2 --idle 60 --purge 4294967295 --purge-grace 3600 --log-priority",
            &[],
        )],
    },
    Part {
        what: "a key, and a peer that is silent",
        before: Before::Nothing,
        peers: Peers {
            sessions: &[REGISTER_2096],
            together: 0,
            silent: 1,
        },
        lines: &[(
            "pathd run other --listen ADDR --key 00 --sessions 2 --idle 1",
            &[],
        )],
    },
    Part {
        what: "a store that is made where none is",
        before: Before::Nothing,
        peers: Peers {
            sessions: &[REGISTER_2096],
            together: 0,
            silent: 0,
        },
        lines: &[(
            "pathd run made --new --rows 5 --listen ADDR --cores 1-ff00:0:110 --sessions 1 --idle 60",
            &[],
        )],
    },
    Part {
        what: "the same again, over the store that is there",
        before: Before::Nothing,
        peers: Peers {
            sessions: &[LOOKUP],
            together: 0,
            silent: 0,
        },
        lines: &[(
            "pathd run made --new --rows 5 --listen ADDR --cores 1-ff00:0:110 --sessions 1 --idle 60",
            &[],
        )],
    },
    Part {
        what: "an input that has ended",
        before: Before::Nothing,
        peers: NO_PEERS,
        lines: &[(
            "pathd run other --listen 127.0.0.1:0 --stop-on-end-of-input --grace 0 --quiet",
            &["no request"],
        )],
    },
    Part {
        what: "a standard error that takes no lines",
        before: Before::NoLog,
        peers: Peers {
            sessions: &[LOOKUP],
            together: 0,
            silent: 0,
        },
        lines: &[(
            "pathd run other --listen ADDR --cores 1-ff00:0:110 --sessions 1 --idle 60",
            &[],
        )],
    },
];
