//! The sink of a session, sealed: nothing but replies is written to it.
//!
//! An acknowledgement is written by spending it: `write` takes the reply by value. So a function
//! that gets a `Replies` and never returns can't have written an acknowledgement that it did not
//! have.

ghost use Rattle.std.specs.Prelude.{◌≡◌, [], OnOk, IfErr};
ghost use Rattle.std.specs.Io.KnownBytes.{Appends, Keeps};
ghost use Rattle.session_core.specs.Reply.{HasReplySize, Refused, reply_frame, told_as};
ghost use Rattle.session_core.specs.ReplyViews.{reply_view};
ghost use Rattle.session_core.specs.Answered.{FailsToWrite, ReplyWriteFails};
ghost use Rattle.session_core.specs.Told.{and_told};
ghost use Rattle.session_core.specs.declared.reply.Form.TheVariants.{Frames};

use crate::error::FrameError;
use crate::ghosts::telling_note::{TellingNote, nothing_told, one_more_told, refusal_told};
use crate::reply::{Form, Reply, refusal_frame};
use crate::service::{Acknowledges, Code};
use crate::sink::Sink;
use crate::writing::{write_all, write_reply};
use std::alloc::Global;
use std::io;
use std::marker::{Model, PhantomData};

/// The sink of a session whose acknowledgements are of this type. What was written to it since it
/// was sealed are the bytes of replies, each of which was taken by value, and after a failed write
/// a front of them. No call gives the sink out but to who has the seal itself (`into_writer`).
#[derive(Drop)]
pub struct Replies<W: Sink, A> {
    writer: W,
    /// Whether a write failed. Nothing is written then.
    is_cut: bool,
    note: TellingNote,
    of: PhantomData<A>,
}

impl<W: Sink, A> Model for Replies<W, A> {
    ghost use Rattle.session_core.specs.Told.{RepliesView, TellsReplies};

    ghost Value = { RepliesView W };

    ghost view = { λ r. record { writer = r.writer; telling = r.note.value } };

    ghost invariant = { λ r. TellsReplies r.note.value r.is_cut (W.contents r.writer) };
}

impl<W: Sink, A> Replies<W, A> {
    /// Seals a sink.
    pub fn of(writer: W) -> Replies<W, A>
        ensures writer { result.writer ≡ writer }
        ensures start { result.telling.start ≡ W.contents writer }
        ensures none { result.telling.told ≡ [] }
    {
        let note = nothing_told(&writer);
        Replies {
            writer,
            is_cut: false,
            note,
            of: PhantomData,
        }
    }

    /// The sink, whose session has ended.
    pub fn into_writer(self) -> W
        ensures { result ≡ self.writer }
    {
        let Replies {
            writer,
            is_cut: _,
            note: _,
            of: _,
        } = self;
        writer
    }

    /// Writes a refusal.
    fn refuse(&mut self, code: Code) -> Result<(), FrameError>
        ensures ok { OnOk result (Appends (W.contents self.old.writer) (W.contents self.new.writer) (reply_frame (Refused code.0))) }
        ensures told { OnOk result (self.new.telling ≡ and_told self.old.telling Frames (Refused code.0)) }
        ensures err { IfErr result (ReplyWriteFails (W.contents self.old.writer) (W.contents self.new.writer) (reply_frame (Refused code.0))) }
    {
        if self.is_cut {
            return Err(FrameError::Write);
        }
        match write_all(&mut self.writer, &refusal_frame(code)) {
            Ok(()) => {
                self.note = refusal_told(&self.note, code);
                Ok(())
            }
            Err(error) => {
                self.note = refusal_told(&self.note, code);
                self.is_cut = true;
                Err(error)
            }
        }
    }

    /// Sends what the sink holds back.
    pub(crate) fn send(&mut self) -> io::Result<()>
        ensures bytes { Keeps (W.contents self.old.writer) (W.contents self.new.writer) }
        ensures sent { OnOk result (W.is_sent self.new.writer) }
        ensures told { self.new.telling ≡ self.old.telling }
    {
        self.writer.send()
    }
}

impl<W: Sink, A: Acknowledges + Drop> Replies<W, A> {
    /// Writes a reply, and spends its acknowledgement. Where memory is refused, nothing of the reply
    /// is written. After a write that failed nothing more is written.
    pub(crate) fn write(
        &mut self,
        alloc: Global,
        reply: Reply<A>,
        form: Form,
    ) -> Result<(), FrameError>
        requires { HasReplySize (reply_view A.says reply) }
        ensures ok { OnOk result (Appends (W.contents self.old.writer) (W.contents self.new.writer) (told_as form (reply_view A.says reply))) }
        ensures told { OnOk result (self.new.telling ≡ and_told self.old.telling form (reply_view A.says reply)) }
        ensures err { IfErr result (FailsToWrite (W.contents self.old.writer) (W.contents self.new.writer) (told_as form (reply_view A.says reply))) }
    {
        if self.is_cut {
            return Err(FrameError::Write);
        }
        match write_reply(alloc, &mut self.writer, &reply, form) {
            Ok(()) => {
                self.note = one_more_told(&self.note, &reply, form);
                Ok(())
            }
            Err(FrameError::Write) => {
                self.note = one_more_told(&self.note, &reply, form);
                self.is_cut = true;
                Err(FrameError::Write)
            }
            Err(error) => Err(error),
        }
    }
}

/// Seals a sink for one refusal in place of a session, and returns the sink.
pub fn refuse_over<W: Sink>(writer: W, code: Code) -> (Result<(), FrameError>, W)
    ensures { OnOk result.0 (Appends (W.contents writer) (W.contents result.1) (reply_frame (Refused code.0))) }
{
    let mut replies: Replies<W, ()> = Replies::of(writer);
    let refused = replies.refuse(code);
    (refused, replies.into_writer())
}
