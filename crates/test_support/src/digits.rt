//! Frames of the worked segment as hexadecimal digits, which tables of texts can hold, and frames
//! that differ from them.

/// These texts, and the two entries of a segment: with these first bytes of the AS that the first
/// entry leads to and of the second AS, and with this interface of entry there.
macro_rules! entries {
    ([$($head:literal),*], $next:literal, $second:literal, $ingress:literal) => {
        concat!(
            $($head,)*
            "12290a270a25", // the first entry, its signed message, header and body
            "1223089082808080e07f", // its AS
            "10", $next, "82808080e07f", // the next AS
            "1a0e0a0c1001183f2206", // the hop entry and its hop field
            "01020304050628c00b", // a MAC, and the MTU
            "12210a1f0a1d", // the second entry
            "121b08", $second, "82808080e07f", // its AS
            "1a0e0a0c08", $ingress, "183f2206", // the hop entry and its hop field
            "0a0b0c0d0e0f28c00b" // a MAC, and the MTU
        )
    };
}

/// The frame of this kind, of 97 bytes, with one segment of this timestamp, as a down segment, and
/// with entries that differ so.
macro_rules! segment_frame {
    ($kind:literal, $timestamp:literal, $next:literal, $second:literal, $ingress:literal) => {
        entries!(
            ["00000061", $kind, "0a5e0802125a0a58", "0a0808", $timestamp, "1007"],
            $next, $second, $ingress
        )
    };
}

/// The entries of `SEGMENT`.
pub const ENTRIES: &str = entries!([], "91", "91", "02");

/// `SEGMENT` as a field of `Segments`: a tag, its 88 bytes, the information and the entries.
pub const SEGMENT_FIELD: &str = entries!(["0a58", "0a080880e2cfaa061007"], "91", "91", "02");

/// `SEGMENT` with the signatures of the test profile, of which the second has this last byte.
macro_rules! signed {
    ($last:literal) => {
        concat!(
            "0a080880e2cfaa061007", // the segment's information
            "124b0a490a25", // the first entry, its signed message, header and body
            "1223089082808080e07f109182808080e07f", // its AS, and the next one
            "1a0e0a0c1001183f220601020304050628c00b", // the hop entry, and the MTU
            "122031a45617b6693c8ca6c9df0dd203759b08fa0e35bd65e554d20c1cf47480dcc7", // the signature
            "12430a410a1d", // the second entry
            "121b089182808080e07f", // its AS
            "1a0e0a0c0802183f22060a0b0c0d0e0f28c00b", // the hop entry, and the MTU
            "1220c32aff63a5c814036bf7635a601b59ee8e54bba3fd613a84088c277a053512", $last // the signature
        )
    };
}

/// `SEGMENT` with the signatures of the test profile.
pub const SIGNED: &str = signed!("2d");

/// The same, with another last byte: the second signature is not good.
pub const BADLY_SIGNED: &str = signed!("2c");

/// The core segment.
pub const CORE_SEGMENT: &str = concat!(
    "0a080880e2cfaa061007", // the segment's information
    "122a0a280a26", // the first entry, its signed message, header and body
    "12240880f883808080800110", // its AS
    "9082808080e07f", // the next AS
    "1a0e0a0c1001183f220601020304050628c00b", // the hop entry, and the MTU
    "12210a1f0a1d", // the second entry
    "121b089082808080e07f", // its AS
    "1a0e0a0c0802183f22060a0b0c0d0e0f28c00b" // the hop entry, and the MTU
);

/// The registration of `SEGMENT`.
pub const REGISTER: &str = segment_frame!("01", "80e2cfaa06", "91", "91", "02");

/// The response in which `SEGMENT` is found.
pub const FOUND: &str = segment_frame!("82", "80e2cfaa06", "91", "91", "02");

/// The registration of a segment that was made in the year 2096, at 4,000,000,000, and is `SEGMENT`
/// for the rest.
pub const REGISTER_2096: &str = segment_frame!("01", "80d0acf30e", "91", "91", "02");

/// The response in which that segment is found.
pub const FOUND_2096: &str = segment_frame!("82", "80d0acf30e", "91", "91", "02");

/// A registration whose second entry is entered by interface 0: the entries are no chain.
pub const REGISTER_NO_CHAIN: &str = segment_frame!("01", "80e2cfaa06", "91", "91", "00");

/// A registration whose both entries are of 1-ff00:0:110: a loop.
pub const REGISTER_LOOP: &str = segment_frame!("01", "80e2cfaa06", "90", "90", "02");

/// The lookup of the segments between the ASes of `SEGMENT`.
pub const LOOKUP: &str = "0000001102089082808080e07f109182808080e07f";

/// The removal of the segment with the id of `SEGMENT` under the type of this number.
macro_rules! removal {
    ($kind:literal) => {
        concat!(
            "0000002204",
            $kind,
            "8adcea68dc57cbbe68da7142af88b68a9d27a590e1d5157c53c2bb2c762345ff"
        )
    };
}

/// The removal of `SEGMENT` as a down segment.
pub const REMOVE: &str = removal!("02");

/// Its removal as an up segment.
pub const REMOVE_UP: &str = removal!("01");

/// Its removal under a number that no type has.
pub const REMOVE_NO_TYPE: &str = removal!("04");
