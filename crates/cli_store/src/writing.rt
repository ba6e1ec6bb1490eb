//! Writing text.

ghost use Rattle.std.specs.Prelude.{◌≡◌, OnOk, IfErr};
ghost use Rattle.std.specs.Io.KnownBytes.{Appends};
ghost use Rattle.cli_store.specs.Text.{rows_text, place_line, store_end, store_text};
ghost use Rattle.cli_store.specs.Writing.{TextWriteFails};

use crate::error::Fault;
use crate::text::place_line;
use path_db::PathDb;
use row_lines::{RowForm, line_as};
use row_map::Rows;
use std::alloc::Global;
use std::io::Write;
use whole_writes::WriteFailed;

/// Writes the lines of all rows, in the order of their keys, and as text that of a place. Where
/// memory for a line is refused, the lines before it are written.
pub(crate) fn write_store<W: Write>(
    alloc: Global,
    form: RowForm,
    db: &PathDb,
    place: u64,
    writer: &mut W,
) -> Result<(), Fault>
    ensures ok { OnOk result (Appends (W.contents writer.old) (W.contents writer.new) (store_text form db.now place)) }
    ensures err { IfErr result (TextWriteFails (W.contents writer.old) (W.contents writer.new) (store_text form db.now place)) }
{
    write_rows(alloc, form, db.rows(), writer)?;
    write_end(alloc, form, place, writer)
}

fn write_rows<W: Write>(
    alloc: Global,
    form: RowForm,
    rows: Rows<'_>,
    writer: &mut W,
) -> Result<(), Fault>
    ensures ok { OnOk result (Appends (W.contents writer.old) (W.contents writer.new) (rows_text form rows.entry)) }
    ensures err { IfErr result (TextWriteFails (W.contents writer.old) (W.contents writer.new) (rows_text form rows.entry)) }
{
    for row in rows {
        let Ok(line) = line_as(alloc, form, row.kind, &row.segment) else {
            return Err(Fault::Memory);
        };
        write_all(writer, line.as_bytes())?;
    }
    Ok(())
}

/// Writes what follows the rows.
fn write_end<W: Write>(
    alloc: Global,
    form: RowForm,
    place: u64,
    writer: &mut W,
) -> Result<(), Fault>
    ensures ok { OnOk result (Appends (W.contents writer.old) (W.contents writer.new) (store_end form place)) }
    ensures err { IfErr result (TextWriteFails (W.contents writer.old) (W.contents writer.new) (store_end form place)) }
{
    match form {
        RowForm::Text | RowForm::Dated => write_place(alloc, place, writer),
        RowForm::Json | RowForm::JsonOfMore => Ok(()),
    }
}

fn write_place<W: Write>(alloc: Global, place: u64, writer: &mut W) -> Result<(), Fault>
    ensures ok { OnOk result (Appends (W.contents writer.old) (W.contents writer.new) (place_line place)) }
    ensures err { IfErr result (TextWriteFails (W.contents writer.old) (W.contents writer.new) (place_line place)) }
{
    let Ok(line) = place_line(alloc, place) else {
        return Err(Fault::Memory);
    };
    write_all(writer, line.as_bytes())
}

/// Writes all of the bytes. A write that takes no byte is a fault, and no failed write is repeated.
pub(crate) fn write_all<W: Write>(writer: &mut W, bytes: &[u8]) -> Result<(), Fault>
    ensures ok { OnOk result (Appends (W.contents writer.old) (W.contents writer.new) bytes.now) }
    ensures err { IfErr result (TextWriteFails (W.contents writer.old) (W.contents writer.new) bytes.now) }
    ensures output { IfErr result (λ e. e ≡ Fault.Output) }
{
    match whole_writes::write_all(writer, bytes) {
        Ok(()) => Ok(()),
        Err(WriteFailed) => Err(Fault::Output),
    }
}
