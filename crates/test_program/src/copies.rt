//! Copies of a store, of the same sizes and of larger ones.

use crate::parts::{Before, NO_PEERS, Part};

/// The parts that this module is about.
pub(crate) fn parts() -> &'static [Part] {
    PARTS
}

/// The parts of copies. They come after those of a served store, which has a row.
const PARTS: &[Part] = &[Part {
    what: "a store is copied",
    before: Before::Nothing,
    peers: NO_PEERS,
    lines: &[
        ("pathd show other", &[]),
        ("pathd copy other copy", &[]),
        ("pathd show copy", &[]),
        ("pathd status copy", &[]),
        ("pathd copy other copy", &[]),
        ("pathd copy copy larger --checkpoint 3 --journal 520", &[]),
        ("pathd status larger", &[]),
        ("pathd copy larger longer --journal 600", &[]),
        ("pathd status longer", &[]),
        ("pathd copy longer roomy --rows 20000", &[]),
        ("pathd status roomy", &[]),
        ("pathd copy other small --rows 1", &[]),
        ("pathd status small", &[]),
        ("pathd format reserved --rows 100000", &[]),
        ("pathd copy other other", &[]),
        ("pathd copy nothing another", &[]),
        ("pathd copy other none/copy", &[]),
        ("pathd copy other", &[]),
        ("pathd copy other another --rows 0", &[]),
        ("pathd copy other another --rows 1048576", &[]),
        ("pathd copy other another --rows 5 --checkpoint 2", &[]),
        ("pathd copy other another --rows 5 --journal 516", &[]),
        ("pathd show other", &[]),
    ],
}];
