//! Questions, and what is printed of their answers.

ghost use Rattle.std.specs.Prelude.{◌≡◌, None, Some, IfErr, IfOk, OnOk};
ghost use Rattle.isd_as.specs.IsdAs.{isd_as_number};
ghost use Rattle.seg_core.specs.Registration.{type_number};
ghost use Rattle.session_core.specs.Front.{message_at};
ghost use Rattle.session_core.specs.Reply.{Removed};
ghost use Rattle.session_core.specs.ReplyViews.{reply_view};
ghost use Rattle.session_core.specs.declared.message.Message.TheVariants as message;
ghost use Rattle.cli_ask.specs.Requests.{request_encoding};
ghost use Rattle.cli_ask.specs.Said.{HasAcknowledged, HasFound, IsAnswered, refusal_of};
ghost use Rattle.cli_ask.specs.Talk.{Passes, exchange_of};

use crate::answers::next_reply;
use crate::error::AskError;
use crate::lines::{print_ack, print_found};
use crate::link::Link;
use crate::listing::list;
use crate::purging::{purge, purge_at_once};
use crate::question::Question;
use crate::request::{byte_of, frame_of, lookup_body};
use isd_as::IsdAs;
use row_lines::RowForm;
use seg_core::SegType;
use session_core::{Ack, Message, Reply};
use std::alloc::Global;
use std::io::Write;

/// Whether an answer has all that was asked for.
#[derive(Clone, Copy, Debug, PartialEq, Eq)]
pub enum Answer {
    /// It has.
    Whole,
    /// It has as many segments as the reply to a lookup may have, and there may be more.
    Cut,
}

/// Asks a server over a link, and prints the answer. A purge without a moment is one by `now`, in
/// half seconds since 1970.
pub fn ask<L: Link, W: Write>(
    alloc: Global,
    link: &mut L,
    question: &Question,
    now: u64,
    form: RowForm,
    writer: &mut W,
) -> Result<Answer, AskError>
    ensures { IfOk result (λ answer. IsAnswered (L.talk link.old) (L.talk link.new) (W.contents writer.old) (W.contents writer.new) form now question.now answer) }
{
    match question {
        Question::Lookup(source, destination) => {
            return look_up(alloc, link, *source, *destination, form, writer);
        }
        Question::List(kind, start, end) => {
            list(alloc, link, *kind, (*start, *end), form, writer)?;
        }
        Question::Purge(moment) => {
            purge(alloc, link, moment.unwrap_or(now), form, writer)?;
        }
        Question::PurgeAtOnce(moment) => {
            purge_at_once(alloc, link, moment.unwrap_or(now), form, writer)?;
        }
        Question::Remove(kind, id) => {
            remove(alloc, link, *kind, *id, form, writer)?;
        }
    }
    Ok(Answer::Whole)
}

/// Sends a request, and reads its reply. A refusal is an error.
pub(crate) fn exchange<L: Link>(
    alloc: Global,
    link: &mut L,
    request: &Message<&[u8]>,
) -> Result<Reply<Ack>, AskError>
    ensures reply { IfOk result (λ reply. Passes (L.talk link.old) (L.talk link.new) (exchange_of (message_at request.now) (reply_view (λ ack. ack) reply))) }
    ensures taken { IfOk result (λ reply. refusal_of reply ≡ None) }
{
    let frame = frame_of(alloc, request)?;
    link.begin()?;
    link.send(frame.as_slice())?;
    let reply = next_reply(alloc, link)?;
    taken(reply)
}

/// A reply, unless it is a refusal.
fn taken(reply: Reply<Ack>) -> Result<Reply<Ack>, AskError>
    ensures same { IfOk result (λ taken. taken ≡ reply) }
    ensures taken { IfOk result (λ taken. refusal_of taken ≡ None) }
    ensures refused { IfErr result (λ e. refusal_of reply ≡ Some e) }
{
    match reply {
        Reply::Refused(code) => Err(AskError::Refused(code.0)),
        reply => Ok(reply),
    }
}

/// Prints what a lookup finds.
fn look_up<L: Link, W: Write>(
    alloc: Global,
    link: &mut L,
    source: IsdAs,
    destination: IsdAs,
    form: RowForm,
    writer: &mut W,
) -> Result<Answer, AskError>
    ensures { IfOk result (λ answer. HasFound (L.talk link.old) (L.talk link.new) (W.contents writer.old) (W.contents writer.new) form (message.Lookup (request_encoding (isd_as_number source) (isd_as_number destination))) answer) }
{
    let body = lookup_body(alloc, source, destination)?;
    match exchange(alloc, link, &Message::Lookup(body.as_slice()))? {
        Reply::Found(kind, segments) => {
            print_found(alloc, form, kind, segments.as_slice(), writer)
        }
        _ => Err(AskError::Unasked),
    }
}

/// Prints what a removal has done.
fn remove<L: Link, W: Write>(
    alloc: Global,
    link: &mut L,
    kind: SegType,
    id: [u8; 32],
    form: RowForm,
    writer: &mut W,
) -> Result<(), AskError>
    ensures { OnOk result (HasAcknowledged (L.talk link.old) (L.talk link.new) (W.contents writer.old) (W.contents writer.new) form (message.Remove (type_number kind) id) Removed) }
{
    match exchange(alloc, link, &Message::Remove(byte_of(kind), id))? {
        Reply::Removed(ack) => print_ack(alloc, form, &ack, writer),
        _ => Err(AskError::Unasked),
    }
}
