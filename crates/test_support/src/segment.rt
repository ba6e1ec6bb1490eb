//! A segment of two entries, its registration and its lookup, and segments that differ from it.

/// These bytes, and the two entries.
macro_rules! entries {
    ($($head:expr),*) => {
        [
            $($head,)*
            0x12, 0x29, 0x0a, 0x27, 0x0a, 0x25, // the first entry, its signed message, header and body
            0x12, 0x23, 0x08, 0x90, 0x82, 0x80, 0x80, 0x80, 0xe0, 0x7f, // its AS
            0x10, 0x91, 0x82, 0x80, 0x80, 0x80, 0xe0, 0x7f, // the next AS
            0x1a, 0x0e, 0x0a, 0x0c, 0x10, 0x01, 0x18, 0x3f, 0x22, 0x06, // the hop entry and its hop field
            0x01, 0x02, 0x03, 0x04, 0x05, 0x06, 0x28, 0xc0, 0x0b, // a MAC, and the MTU
            0x12, 0x21, 0x0a, 0x1f, 0x0a, 0x1d, // the second entry
            0x12, 0x1b, 0x08, 0x91, 0x82, 0x80, 0x80, 0x80, 0xe0, 0x7f, // its AS
            0x1a, 0x0e, 0x0a, 0x0c, 0x08, 0x02, 0x18, 0x3f, 0x22, 0x06, // the hop entry and its hop field
            0x0a, 0x0b, 0x0c, 0x0d, 0x0e, 0x0f, 0x28, 0xc0, 0x0b, // a MAC, and the MTU
        ]
    };
}

/// These bytes, and the segment: its information, and its entries.
macro_rules! segment {
    ($($head:expr),*) => {
        entries!($($head,)* 0x0a, 0x08, 0x08, 0x80, 0xe2, 0xcf, 0xaa, 0x06, 0x10, 0x07)
    };
}

/// Two entries, from 1-ff00:0:110 to 1-ff00:0:111.
pub const SEGMENT: [u8; 88] = segment!();

/// Its entries alone, without the segment's information.
pub const ENTRIES: [u8; 78] = entries!();

/// The id of `SEGMENT`: SHA-256 over `0001ff0000000110 0000 0001 0001ff0000000111 0002 0000`.
pub const ID: [u8; 32] = [
    0x8a, 0xdc, 0xea, 0x68, 0xdc, 0x57, 0xcb, 0xbe, 0x68, 0xda, 0x71, 0x42, 0xaf, 0x88, 0xb6, 0x8a,
    0x9d, 0x27, 0xa5, 0x90, 0xe1, 0xd5, 0x15, 0x7c, 0x53, 0xc2, 0xbb, 0x2c, 0x76, 0x23, 0x45, 0xff,
];

/// The moment at which `SEGMENT` expires, in half seconds since 1970: 2 * 1,700,000,000 + 64 * 675.
pub const EXPIRY: u64 = 3_400_043_200;

/// The offset in `SEGMENT` of the interface by which it leaves its first AS. With another interface
/// its id is another.
pub const EGRESS: usize = 39;

/// The offset in `SEGMENT` of the exp_time of its first hop entry.
pub const EXP_TIME: usize = 41;

/// The frame of the registration of `SEGMENT` as a down segment. It has a length of 97; the message
/// is one segment, of 94 bytes with its type.
pub const REGISTER: [u8; 101] = segment!(
    0x00, 0x00, 0x00, 0x61, 0x01, 0x0a, 0x5e, 0x08, 0x02, 0x12, 0x5a, 0x0a, 0x58
);

/// The frame of a lookup of the segments between the ASes of `SEGMENT`.
pub const LOOKUP: [u8; 21] = [
    0x00, 0x00, 0x00, 0x11, 0x02, // a length of 17, and a lookup
    0x08, 0x90, 0x82, 0x80, 0x80, 0x80, 0xe0, 0x7f, // from this AS
    0x10, 0x91, 0x82, 0x80, 0x80, 0x80, 0xe0, 0x7f, // to this AS
];

/// How many bytes of the information a timestamp below 128 saves.
const SAVED: usize = 4;

/// `SEGMENT`, but its first AS is left by this interface, below 128: its id is another.
pub fn leaving_by(egress: u8) -> [u8; 88] {
    let mut message = SEGMENT;
    message[EGRESS] = egress;
    message
}

/// `SEGMENT` with another timestamp and another segment id, both below 128. It has the same hops,
/// and so the same id.
pub fn dated(timestamp: u8, segment_id: u8) -> [u8; 84] {
    entries!(0x0a, 0x04, 0x08, timestamp, 0x10, segment_id)
}

/// `SEGMENT` with another timestamp, below 128, and its first AS is left by this interface, below
/// 128.
pub fn dated_by(timestamp: u8, egress: u8) -> [u8; 84] {
    let mut message = dated(timestamp, 7);
    message[EGRESS - SAVED] = egress;
    message
}
