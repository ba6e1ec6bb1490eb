//! Bytes that only contracts name.

ghost use Rattle.std.specs.Prelude.{◌≡◌, ℕ, List, []};
ghost use Rattle.std.specs.Borrow.{ftrue};
ghost use Rattle.paced_stream.specs.Grown.{grown_by};

use ghost_note::{Note, NoteSource};
use std::io;
use std::marker::Model;

/// Bytes that are in no memory. No value of this type is made.
pub(crate) struct Bytes {
    ghost bytes: { List ℕ },
}

impl Model for Bytes {
    ghost also_owns = { λ _. ftrue };

    ghost Value = { List ℕ };

    ghost view = { λ all. all.bytes };
}

/// Bytes that contracts name and that no code keeps.
pub(crate) type BytesNote = Note<Bytes>;

const _: () = prove!(size_of::<BytesNote>() == 0);

// No bytes.
struct NoBytes;

impl NoteSource<Bytes> for NoBytes {
    ghost value = { λ _. [] };
}

// The bytes of a note, and those that a call moved.
#[derive(Drop)]
struct BytesMore<'a> {
    note: &'a BytesNote,
    moved: &'a io::Result<usize>,
    bytes: &'a [u8],
}

impl<'a> NoteSource<Bytes> for BytesMore<'a> {
    ghost value = { λ step. grown_by step.note.now.value step.moved.now step.bytes.now };
}

/// The note of no bytes.
pub(crate) fn no_bytes() -> BytesNote
    ensures { result.value ≡ [] }
{
    Note::of(&NoBytes)
}

/// The note of these bytes and those that a call moved, which are a front of `bytes`.
pub(crate) fn bytes_after(note: &BytesNote, moved: &io::Result<usize>, bytes: &[u8]) -> BytesNote
    ensures { result.value ≡ grown_by note.now.value moved.now bytes.now }
{
    Note::of(&BytesMore { note, moved, bytes })
}
