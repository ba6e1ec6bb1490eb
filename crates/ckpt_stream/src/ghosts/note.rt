//! Rows that only contracts name.

ghost use Rattle.std.specs.Prelude.{◌≡◌, List, [], ◌∷◌, ◌++◌};
ghost use Rattle.std.specs.Borrow.{ftrue};
ghost use Rattle.row_map.specs.Database.{RowView};
ghost use Rattle.row_map.specs.Row.{row_view};
ghost use Rattle.path_db.specs.Command.{database_after_all};

use ghost_note::{Note, NoteSource};
use path_db::Command;
use row_map::Row;
use std::marker::Model;

/// Rows that are in no memory. No value of this type is made.
pub struct Rows {
    ghost rows: { List RowView },
}

impl Model for Rows {
    ghost also_owns = { λ _. ftrue };

    ghost Value = { List RowView };

    ghost view = { λ all. all.rows };
}

/// Rows that contracts name and that no code keeps.
pub type RowsNote = Note<Rows>;

const _: () = prove!(size_of::<RowsNote>() == 0);

// No rows.
struct NoRows;

impl NoteSource<Rows> for NoRows {
    ghost value = { λ _. [] };
}

// The rows of a note, and one row more.
#[derive(Drop)]
struct RowMore<'a> {
    note: &'a RowsNote,
    row: &'a Row,
}

impl<'a> NoteSource<Rows> for RowMore<'a> {
    ghost value = { λ step. step.note.now.value ++ row_view step.row.now ∷ [] };
}

// The rows of a note after commands.
#[derive(Drop)]
struct AfterCommands<'a> {
    note: &'a RowsNote,
    commands: &'a [Command],
}

impl<'a> NoteSource<Rows> for AfterCommands<'a> {
    ghost value = { λ step. database_after_all step.note.now.value step.commands.now };
}

/// The note of no rows.
pub fn no_rows() -> RowsNote
    ensures { result.value ≡ [] }
{
    Note::of(&NoRows)
}

/// The note of these rows and one more, after them.
pub fn and_row(note: &RowsNote, row: &Row) -> RowsNote
    ensures { result.value ≡ note.now.value ++ row_view row.now ∷ [] }
{
    Note::of(&RowMore { note, row })
}

/// The note of these rows after commands.
pub fn rows_after(note: &RowsNote, commands: &[Command]) -> RowsNote
    ensures { result.value ≡ database_after_all note.now.value commands.now }
{
    Note::of(&AfterCommands { note, commands })
}
