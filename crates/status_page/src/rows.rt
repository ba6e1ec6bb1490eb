//! The rows of a page, and their text.

ghost use Rattle.std.specs.Prelude.{◌≡◌, IfOk, string_bytes};
ghost use Rattle.std.specs.List.{flat_map};
ghost use Rattle.status_page.specs.Rows.{plain, row_text};

use crate::lines::{Kind, Value, heading, labelled, sample};
use std::alloc::{AllocError, Global};

/// A row of a page.
#[derive(Clone, Copy)]
pub(crate) enum Row {
    /// A metric with one number: its name, its type, what it says, and the number.
    Plain(&'static str, Kind, &'static str, Value),
    /// A metric with a number for each of some labels: its name, its type, and what it says.
    Family(&'static str, Kind, &'static str),
    /// A number of such a metric: the name of the metric, the label, and the number.
    Labelled(&'static str, &'static str, Value),
}

/// The lines of rows.
pub(crate) fn rows_text(alloc: Global, rows: &[Row]) -> Result<String, AllocError>
    ensures { IfOk result (λ text. string_bytes text ≡ flat_map row_text rows.now) }
{
    let mut text = String::new(alloc);
    for row in rows {
        let lines = row_text(alloc, *row)?;
        text.push_str(lines.as_str())?;
    }
    Ok(text)
}

/// The lines of a row.
fn row_text(alloc: Global, row: Row) -> Result<String, AllocError>
    ensures { IfOk result (λ lines. string_bytes lines ≡ row_text row) }
{
    match row {
        Row::Plain(name, kind, help, value) => plain(alloc, name, kind, help, value),
        Row::Family(name, kind, help) => heading(alloc, name, kind, help),
        Row::Labelled(name, label, value) => labelled(alloc, name, label, value),
    }
}

/// The lines of a metric with one number.
#[tactic(auto, unfolding(crate::specs::Rows::plain))]
fn plain(
    alloc: Global,
    name: &str,
    kind: Kind,
    help: &str,
    value: Value,
) -> Result<String, AllocError>
    ensures { IfOk result (λ lines. string_bytes lines ≡ plain name.now kind help.now value) }
{
    let heading = heading(alloc, name, kind, help)?;
    let line = sample(alloc, name, value)?;
    format!(in alloc; "{heading}{line}")
}
