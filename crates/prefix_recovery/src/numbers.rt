//! The limits of the product, as numbers.

use seg_check::MOST_KEY;
use seg_core::{MOST_ENTRIES, MOST_REGISTERED, MOST_REGISTERED_BYTES, MOST_SEGMENT_BYTES};
use seg_lookup::ANSWER_LIMIT;

// Segments of an answer.
const _: () = prove!(ANSWER_LIMIT == 64);
// Segments of a command, and the bytes of their encodings.
const _: () = prove!(MOST_REGISTERED == 16);

const _: () = prove!(MOST_REGISTERED_BYTES == 131_072);
// Bytes of a segment's encoding, and its entries.
const _: () = prove!(MOST_SEGMENT_BYTES == 16_384);

const _: () = prove!(MOST_ENTRIES == 64);
// Bytes of a key of the test profile.
const _: () = prove!(MOST_KEY == 64);
