//! Sessions over bytes in memory, whose replies are written as lines.

ghost use Rattle.std.specs.Prelude.{◌≡◌, []};
ghost use Rattle.session_core.specs.Lines.{IsServedInLines};

use crate::ahead::Ahead;
use crate::error::FrameError;
use crate::inbox::Inbox;
use crate::message_kinds::Kinds;
use crate::replies::Replies;
use crate::reply::Form;
use crate::service::Service;
use crate::serving::{answer_and_flush, end};
use crate::session::Session;
use crate::sink::Sink;
use std::alloc::Global;

/// Answers the messages of these kinds whose frames are these bytes, and writes each reply as a
/// line: the hexadecimal digits of its frame in lower case. The result is the number of replies
/// that were written, capped at 2^64 - 1. Bytes that end within a frame are `Read`. Commands are
/// handed in ahead as by `serve`.
pub fn serve_in_lines<W: Sink, S: Service>(
    alloc: Global,
    bytes: Vec<u8>,
    replies: &mut Replies<W, S::Ack>,
    service: &mut S,
    kinds: Kinds,
) -> Result<u64, FrameError>
    ensures { IsServedInLines kinds S.answers bytes.items (S.state service.old) (S.state service.new) (W.contents replies.old.writer) (W.contents replies.new.writer) result }
{
    let ahead = Ahead::new(alloc)?;
    let mut session = Session::new(service, kinds, Inbox::holding(bytes), ahead);
    let served = serve_whole(alloc, replies, &mut session);
    let _service = session.into_service();
    served
}

/// Answers the messages of a session that has all of the input, and writes each reply as a line.
fn serve_whole<W: Sink, S: Service>(
    alloc: Global,
    replies: &mut Replies<W, S::Ack>,
    session: &mut Session<S>,
) -> Result<u64, FrameError>
    requires { session.old.ahead.queue.items ≡ [] }
    ensures { IsServedInLines session.old.kinds S.answers session.old.inbox (S.state session.old.service) (S.state session.new.service)
        (W.contents replies.old.writer) (W.contents replies.new.writer) result }
{
    let count = answer_and_flush(alloc, replies, session, Form::Lines, 0)?;
    end(session, count)
}
