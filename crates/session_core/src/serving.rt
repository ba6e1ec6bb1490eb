//! The loop of a session over a reader and a sealed writer.

ghost use Rattle.std.specs.Prelude.{◌≡◌, [], drop, IfOk, IfErr, OnOk};
ghost use Rattle.session_core.specs.Ahead.{frames_len};
ghost use Rattle.session_core.specs.Answered.{AreFrontsAnswered};
ghost use Rattle.session_core.specs.HandedIn.{HandsInFrontOf, HandsInFromSource};
ghost use Rattle.session_core.specs.Session.{IsServed, IsSentFor};

use crate::ahead::Ahead;
use crate::error::FrameError;
use crate::inbox::Inbox;
use crate::message_kinds::Kinds;
use crate::replies::Replies;
use crate::reply::Form;
use crate::service::Service;
use crate::session::Session;
use crate::sink::Sink;
use crate::source::Source;
use std::alloc::Global;

/// Answers the messages of a reader, which are of these kinds, in at most `turns` reads. The result
/// is the number of replies that were written, capped at 2^64 - 1.
///
/// The commands whose frames are whole in the input, up to `MOST_AHEAD` in a row, are handed in
/// before the first of them is answered. A message that the service does not take ahead is answered
/// once all before it are. Messages at the front of the input are handed in once at most, in their
/// order, and nothing else is.
///
/// At any time memory has one piece of the input, less than a frame before it, and one reply. What
/// was written is sent before each further read, and after a failed write no message is answered:
/// of the commands that are handed in then, it is not known whether they take effect. Unless a
/// write failed, nothing is held back at the end. The contract leaves open why a read or a write
/// failed and when memory is refused, since no call of a reader, a writer or the allocator reports
/// that.
pub fn serve<R: Source, W: Sink, S: Service>(
    alloc: Global,
    reader: &mut R,
    replies: &mut Replies<W, S::Ack>,
    service: &mut S,
    kinds: Kinds,
    turns: u64,
) -> Result<u64, FrameError>
    ensures served { IsServed kinds S.answers R.gives turns (S.state service.old) (S.state service.new) reader.old reader.new
        (R.is_at_end reader.new) (W.contents replies.old.writer) (W.contents replies.new.writer) result }
    ensures sent { W.is_sent replies.old.writer → IsSentFor (W.is_sent replies.new.writer) result }
    ensures handed_in { HandsInFromSource kinds S.hands_in R.gives turns reader.old reader.new (S.sent service.old) (S.sent service.new) }
{
    let ahead = Ahead::new(alloc)?;
    let mut session = Session::new(service, kinds, Inbox::new(alloc), ahead);
    let served = serve_session(alloc, reader, replies, &mut session, turns);
    let _service = session.into_service();
    served
}

/// Seals a sink for one session, which it serves as `serve` does, and returns the sink.
pub fn serve_over<R: Source, W: Sink, S: Service>(
    alloc: Global,
    reader: &mut R,
    writer: W,
    service: &mut S,
    kinds: Kinds,
    turns: u64,
) -> (Result<u64, FrameError>, W)
    ensures served { IsServed kinds S.answers R.gives turns (S.state service.old) (S.state service.new) reader.old reader.new
        (R.is_at_end reader.new) (W.contents writer) (W.contents result.1) result.0 }
    ensures sent { W.is_sent writer → IsSentFor (W.is_sent result.1) result.0 }
    ensures handed_in { HandsInFromSource kinds S.hands_in R.gives turns reader.old reader.new (S.sent service.old) (S.sent service.new) }
{
    let mut replies = Replies::of(writer);
    let served = serve(alloc, reader, &mut replies, service, kinds, turns);
    (served, replies.into_writer())
}

/// Answers the messages of a reader, in a session without input.
fn serve_session<R: Source, W: Sink, S: Service>(
    alloc: Global,
    reader: &mut R,
    replies: &mut Replies<W, S::Ack>,
    session: &mut Session<S>,
    turns: u64,
) -> Result<u64, FrameError>
    requires fresh { session.old.inbox ≡ [] }
    requires none { session.old.ahead.queue.items ≡ [] }
    ensures served { IsServed session.old.kinds S.answers R.gives turns (S.state session.old.service) (S.state session.new.service) reader.old reader.new
        (R.is_at_end reader.new) (W.contents replies.old.writer) (W.contents replies.new.writer) result }
    ensures sent { W.is_sent replies.old.writer → IsSentFor (W.is_sent replies.new.writer) result }
    ensures handed_in { HandsInFromSource session.old.kinds S.hands_in R.gives turns reader.old reader.new (S.sent session.old.service) (S.sent session.new.service) }
{
    let mut count = 0;
    for _turn in 0..turns {
        if session.read_from(reader)? == 0 {
            return end(session, count);
        }
        count = answer_and_flush(alloc, replies, session, Form::Frames, count)?;
    }
    Err(FrameError::Turns)
}

/// The result of a session at the end of the input: an error where bytes are left over.
pub(crate) fn end<S: Service>(session: &Session<S>, count: u64) -> Result<u64, FrameError>
    ensures ok { IfOk result (λ n. n ≡ count) }
    ensures whole { IfOk result (λ _. session.now.inbox ≡ []) }
    ensures err { IfErr result (λ e. e ≡ FrameError.Read) }
{
    if session.is_done() {
        Ok(count)
    } else {
        Err(FrameError::Read)
    }
}

/// Answers the messages whose frames are whole, and sends the replies, unless a write failed.
pub(crate) fn answer_and_flush<W: Sink, S: Service>(
    alloc: Global,
    replies: &mut Replies<W, S::Ack>,
    session: &mut Session<S>,
    form: Form,
    count: u64,
) -> Result<u64, FrameError>
    requires { session.old.ahead.queue.items ≡ [] }
    ensures fronts { AreFrontsAnswered session.old.kinds form S.answers (S.state session.old.service) session.old.inbox (S.state session.new.service)
        session.new.inbox (W.contents replies.old.writer) (W.contents replies.new.writer) count result }
    ensures none { OnOk result (session.new.ahead.queue.items ≡ []) }
    ensures kinds { session.new.kinds ≡ session.old.kinds }
    ensures sent { IsSentFor (W.is_sent replies.new.writer) result }
    ensures handed_in { HandsInFrontOf session.old.kinds S.hands_in session.old.inbox (drop (frames_len session.new.ahead.queue.items) session.new.inbox)
        (S.sent session.old.service) (S.sent session.new.service) }
{
    match answer_all(alloc, replies, session, form, count) {
        Err(FrameError::Write) => Err(FrameError::Write),
        answered => {
            if replies.send().is_err() {
                return Err(FrameError::Write);
            }
            answered
        }
    }
}

/// Answers the messages whose frames are whole, and writes each reply. The result is the count plus
/// the number of replies.
fn answer_all<W: Sink, S: Service>(
    alloc: Global,
    replies: &mut Replies<W, S::Ack>,
    session: &mut Session<S>,
    form: Form,
    count: u64,
) -> Result<u64, FrameError>
    requires { session.old.ahead.queue.items ≡ [] }
    ensures fronts { AreFrontsAnswered session.old.kinds form S.answers (S.state session.old.service) session.old.inbox (S.state session.new.service)
        session.new.inbox (W.contents replies.old.writer) (W.contents replies.new.writer) count result }
    ensures none { OnOk result (session.new.ahead.queue.items ≡ []) }
    ensures kinds { session.new.kinds ≡ session.old.kinds }
    ensures handed_in { HandsInFrontOf session.old.kinds S.hands_in session.old.inbox (drop (frames_len session.new.ahead.queue.items) session.new.inbox)
        (S.sent session.old.service) (S.sent session.new.service) }
{
    let mut sum = count;
    while let Some(reply) = session.next_reply(alloc)? {
        replies.write(alloc, reply, form)?;
        sum = sum.saturating_add(1);
    }
    Ok(sum)
}
