//! Replies that only contracts name.

ghost use Rattle.std.specs.Prelude.{◌≡◌, []};
ghost use Rattle.std.specs.Borrow.{ftrue};
ghost use Rattle.session_core.specs.Reply.{Refused};
ghost use Rattle.session_core.specs.ReplyViews.{reply_view};
ghost use Rattle.session_core.specs.Told.{Telling, and_told};
ghost use Rattle.session_core.specs.declared.reply.Form.TheVariants.{Frames};

use crate::reply::{Form, Reply};
use crate::service::{Acknowledges, Code};
use crate::sink::Sink;
use ghost_note::{Note, NoteSource};
use std::marker::Model;

/// Replies that are in no memory. No value of this type is made.
pub(crate) struct TellingValue {
    ghost telling: { Telling },
}

impl Model for TellingValue {
    ghost also_owns = { λ _. ftrue };

    ghost Value = { Telling };

    ghost view = { λ t. t.telling };
}

/// Replies that contracts name and that no code keeps.
pub(crate) type TellingNote = Note<TellingValue>;

const _: () = prove!(size_of::<TellingNote>() == 0);

// A sink to which no reply was written.
#[derive(Drop)]
struct NothingTold<'a, W: Sink> {
    writer: &'a W,
}

impl<'a, W: Sink> NoteSource<TellingValue> for NothingTold<'a, W> {
    ghost value = { λ source. record { start = W.contents source.writer.now; told = [] } };
}

// The replies of a note, and one more.
#[derive(Drop)]
struct OneMoreTold<'a, A: Acknowledges> {
    note: &'a TellingNote,
    reply: &'a Reply<A>,
    form: Form,
}

impl<'a, A: Acknowledges> NoteSource<TellingValue> for OneMoreTold<'a, A> {
    ghost value = { λ source. and_told source.note.now.value source.form (reply_view A.says source.reply.now) };
}

// The replies of a note, and a refusal.
#[derive(Drop)]
struct RefusalTold<'a> {
    note: &'a TellingNote,
    code: Code,
}

impl<'a> NoteSource<TellingValue> for RefusalTold<'a> {
    ghost value = { λ source. and_told source.note.now.value Frames (Refused source.code.0) };
}

/// The note of no replies, to a sink as it is.
pub(crate) fn nothing_told<W: Sink>(writer: &W) -> TellingNote
    ensures start { result.value.start ≡ W.contents writer.now }
    ensures told { result.value.told ≡ [] }
{
    Note::of(&NothingTold { writer })
}

/// The note of these replies and one more.
pub(crate) fn one_more_told<A: Acknowledges>(
    note: &TellingNote,
    reply: &Reply<A>,
    form: Form,
) -> TellingNote
    ensures { result.value ≡ and_told note.now.value form (reply_view A.says reply.now) }
{
    Note::of(&OneMoreTold { note, reply, form })
}

/// The note of these replies and a refusal.
pub(crate) fn refusal_told(note: &TellingNote, code: Code) -> TellingNote
    ensures { result.value ≡ and_told note.now.value Frames (Refused code.0) }
{
    Note::of(&RefusalTold { note, code })
}
