//! The form in which rows are printed.

ghost use Rattle.std.specs.Prelude.{◌≡◌, IfOk, string_bytes};
ghost use Rattle.row_lines.specs.Form.{line_as, of_more};

use crate::json::{json_line, json_line_of_more};
use crate::text::{dated_line, row_line};
use seg_core::{SegType, Segment};
use std::alloc::{AllocError, Global};

/// The form in which rows are printed, a line each.
#[derive(Clone, Copy, Debug, PartialEq, Eq)]
pub enum RowForm {
    /// Lines of text.
    Text,
    /// The same, with dates for people.
    Dated,
    /// Lines of JSON, which have all of a row.
    Json,
    /// The same, each of which says that there may be more rows.
    JsonOfMore,
}

impl RowForm {
    /// This form where there may be more rows than are printed: JSON alone says so.
    pub fn of_more(self) -> RowForm
        ensures { result ≡ of_more self }
    {
        match self {
            RowForm::Text => RowForm::Text,
            RowForm::Dated => RowForm::Dated,
            RowForm::Json | RowForm::JsonOfMore => RowForm::JsonOfMore,
        }
    }
}

/// The line of a row in this form.
pub fn line_as(
    alloc: Global,
    form: RowForm,
    kind: SegType,
    segment: &Segment,
) -> Result<String, AllocError>
    ensures { IfOk result (λ line. string_bytes line ≡ line_as form (kind, segment.now)) }
{
    match form {
        RowForm::Text => row_line(alloc, kind, segment),
        RowForm::Dated => dated_line(alloc, kind, segment),
        RowForm::Json => json_line(alloc, kind, segment),
        RowForm::JsonOfMore => json_line_of_more(alloc, kind, segment),
    }
}
