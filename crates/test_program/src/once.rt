//! Sessions of `once`, as hexadecimal text.

use crate::parts::{Before, Line, NO_PEERS, Part};
use test_support::digits::{
    BADLY_SIGNED, CORE_SEGMENT, ENTRIES, LOOKUP, REGISTER, REGISTER_LOOP, REGISTER_NO_CHAIN,
    REMOVE, REMOVE_NO_TYPE, REMOVE_UP, SEGMENT_FIELD as FIELD, SIGNED,
};

/// A session with the first AS of the worked segment as a core AS.
const ONCE: &str = "pathd once --hex --cores 1-ff00:0:110";

/// The same, with signatures that are checked by the key of the signed segment.
const KEYED: &str = "pathd once --hex --key 61206b6579206f662074686520746573742070726f66696c65";

/// The same, with a key of no bytes.
const EMPTY_KEY: &str = "pathd once --hex --key=";

/// A registration of nothing.
const REGISTER_NOTHING: &str = "0000000101";

/// A purge at the moment at which the worked segment expires, and one a half second earlier.
const PURGE: &str = "000000090300000000caa88ac0";

const EARLIER_PURGE: &str = "000000090300000000caa88abf";

/// What comes before the signed segment in the frame that registers it as a down segment.
const BEFORE_SIGNED: &str = "000000a8010aa4010802129f010a9c01";

/// What comes before the timestamp in the frame that registers a segment like the worked one with a
/// timestamp below 128, and between the timestamp and the entries.
const DATED: &str = "0000005d010a5a080212560a540a0408";

const AFTER_DATE: &str = "1007";

/// Frames without a fault, each with one reply.
#[rattlefmt::skip]
const REPLIES: Line = (ONCE, &[
    REGISTER_NOTHING,
    "00000002010a", // Truncated
    "0000000b01ffffffffffffffffff02", // LongVarint
    "000000020100", // BadField
    "00000002010b", // GroupWire
    "00000002010e", // BadWire
    "00000003010800", // KindOfField
    "00000007010a0412001200", // RepeatedMessage: the value of an entry
    "00000009010a0208020a020802", // RepeatedMessage: a key
    "0000000b010a08080212040a021200", // MissingField: signed
    "00000018010a15080212110a0f0a0b08ffffffffffffffffff011200", // Range: the timestamp
    REGISTER_NO_CHAIN,
    REGISTER_LOOP,
    "00000009010a06080212020a00", // Entries: none
    "00000003010a00", // BadType
    "00000603010aff0b080212fa0b", // TooLarge: 17 segments
    FIELD, FIELD, FIELD, FIELD, FIELD, FIELD, FIELD, FIELD, FIELD,
    FIELD, FIELD, FIELD, FIELD, FIELD, FIELD, FIELD, FIELD,
    "00000003011000", // an unknown field
    "0000000102", // NullDestination
]);

/// Commands that change the rows or not, and lookups between them.
#[rattlefmt::skip]
const COMMANDS: Line = (ONCE, &[
    REGISTER, REMOVE_UP, REMOVE_NO_TYPE, EARLIER_PURGE, LOOKUP,
    REMOVE, LOOKUP, REMOVE,
    REGISTER, PURGE, LOOKUP,
]);

/// A segment with the timestamps 10, 11, 11 and 9.
#[rattlefmt::skip]
const TIMESTAMPS: Line = (ONCE, &[
    DATED, "0a", AFTER_DATE, ENTRIES,
    DATED, "0b", AFTER_DATE, ENTRIES,
    DATED, "0b", AFTER_DATE, ENTRIES,
    DATED, "09", AFTER_DATE, ENTRIES,
    LOOKUP,
]);

/// A core segment between 2-64512 and 1-ff00:0:110, and lookups with wildcards.
#[rattlefmt::skip]
const WILDCARDS: Line = ("pathd once --hex --cores 1-ff00:0:110,2-64512", &[
    "0000006201", "0a5f0803125b0a59", CORE_SEGMENT,
    "00000009020880808080808040", // 1-0 to 0-0
    "0000000a02088080808080808001", // 2-0 to 0-0
    "0000001102089082808080e03f1080808080808040", // 0-ff00:0:110 to 1-0
    "000000110208858080808080401086808080808040", // 1-5 to 1-6
]);

/// The parts that this module is about.
pub(crate) fn parts() -> &'static [Part] {
    PARTS
}

/// The parts of sessions.
#[rattlefmt::skip]
const PARTS: &[Part] = &[
    Part {
        what: "replies to messages",
        before: Before::Nothing,
        peers: NO_PEERS,
        lines: &[REPLIES, COMMANDS, TIMESTAMPS, WILDCARDS],
    },
    Part {
        what: "lookups by the core ASes",
        before: Before::Nothing,
        peers: NO_PEERS,
        lines: &[
            (ONCE, &[REGISTER, LOOKUP]),
            ("pathd once --hex --cores 1-ff00:0:111", &[REGISTER, LOOKUP]),
            ("pathd once --hex --cores 1-ff00:0:110,1-ff00:0:111", &[REGISTER, LOOKUP]),
            ("pathd once --hex --cores 1-1", &[REGISTER, LOOKUP]),
        ],
    },
    Part {
        what: "moments",
        before: Before::Nothing,
        peers: NO_PEERS,
        lines: &[
            ("pathd once --hex --now 00000000000000000000000", &[REGISTER]),
            ("pathd once --hex --now 3400043199 --cores 1-ff00:0:110", &[REGISTER, LOOKUP]),
            ("pathd once --hex --now 3400043200 --cores 1-ff00:0:110", &[REGISTER, LOOKUP]),
            ("pathd once --hex --now 03400043200", &[REGISTER]),
            ("pathd once --hex --now 18446744073709551615", &[REGISTER]),
        ],
    },
    Part {
        what: "signatures",
        before: Before::Nothing,
        peers: NO_PEERS,
        lines: &[
            (KEYED, &[BEFORE_SIGNED, SIGNED, REGISTER_NOTHING]),
            (KEYED, &[BEFORE_SIGNED, BADLY_SIGNED, REGISTER_NOTHING]),
            (KEYED, &[REGISTER, REGISTER_NOTHING]),
            (EMPTY_KEY, &[BEFORE_SIGNED, SIGNED, REGISTER_NOTHING]),
        ],
    },
    Part {
        what: "faults of frames",
        before: Before::Nothing,
        peers: NO_PEERS,
        lines: &[
            (ONCE, &[REGISTER, "00000011020890"]),
            (ONCE, &[REGISTER, "00000000"]),
            (ONCE, &[REGISTER, "0000000105"]),
            (ONCE, &[REGISTER, "000000020500"]),
            (ONCE, &[REGISTER, "0000000106"]),
        ],
    },
    Part {
        what: "hexadecimal text",
        before: Before::Nothing,
        peers: NO_PEERS,
        lines: &[
            ("pathd once --hex", &[]),
            ("pathd once --hex", &[" \r\n"]),
            (ONCE, &["0 0 0 00 0 1 1 02 \r\n", "089082808080E07F 109182808080e07F\n", "00000001 0 2\r\n"]),
            ("pathd once --hex", &["0000000201 00 00000000"]),
            ("pathd once --hex", &["00000002010"]),
            ("pathd once --hex", &["0000000201 0g"]),
            ("pathd once --hex", &["000000020100\t"]),
            ("pathd once --hex", &["0000000201"]),
        ],
    },
];
