//! Path segments, and the messages that register, request and return them.
//!
//! To the layer above, each reader returns exactly what the definition of its message gives,
//! including the first refusal. A `Segment` is always whole: its numbers are those of its bytes,
//! its entries are one path without a loop, and its one encoding has at most 16,384 bytes and is
//! read as that segment again.
#![tactic(auto)]

mod body;
mod bytes_fields;
mod digest;
mod earlier;
mod entry;
mod equality;
mod error;
mod field_kind;
mod format;
mod hop;
mod info;
mod laws;
mod lengths;
mod limits;
mod outline;
mod path;
mod pieces;
mod putting;
mod registration;
mod request;
mod response;
mod seg_type;
mod segment;
mod shape;
mod slots;
mod typed_response;
mod writing;

pub use entry::Entry;
pub use error::SegError;
pub use format::{MOST_ENTRIES, MOST_REGISTERED, MOST_REGISTERED_BYTES, MOST_SEGMENT_BYTES};
pub use laws::decoding::{
    decodings_want_no_memory, path_refusals_are_exact, type_numbers_are_exact,
};
pub use laws::fields::first_misfit_is_exact;
pub use laws::messages::{
    encodings_are_injective, encodings_are_shortest, path_tests_are_exact,
    read_registrations_are_whole, read_segments_are_whole, responses_are_short,
    whole_segments_are_well_formed, written_responses_are_read, written_segments_are_read,
};
pub use registration::read_registration;
pub use request::read_request;
pub use response::{write_response, write_response_of};
pub use seg_type::SegType;
pub use segment::{Segment, read_segment};
pub use typed_response::write_response_of_type;
pub use writing::{encoded_len, is_encoding_of, put_segment, write_segment};
