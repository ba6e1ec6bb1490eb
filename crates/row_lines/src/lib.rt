//! The lines in which rows are printed, as text and as JSON, and a line of JSON read again.
//!
//! To the layer above, `line_as` is the line of a row in a form, and `read_line` reads the
//! type and the segment of a line of JSON, whatever the order of its members.
#![tactic(auto)]

mod date;
mod form;
mod json;
mod reading;
mod text;

pub use date::date_text;
pub use form::{RowForm, line_as};
pub use json::{joined, json_line, number_member, object_line};
pub use reading::{LineError, read_line, type_named};
pub use text::{dated_line, row_line, type_word};
