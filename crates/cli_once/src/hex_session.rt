//! A session whose input is hexadecimal text and whose replies are lines of it.

ghost use Rattle.cli_once.specs.Memory.{opening};
ghost use Rattle.cli_once.specs.HexSession.{IsHexSession, AreAnsweredInLines};

use crate::error::SessionFault;
use crate::hex_input::bytes_of;
use crate::once_ack::OnceAck;
use crate::once_service::OnceService;
use seg_check::Verifier;
use seg_lookup::Roster;
use session_core::{FrameError, Kinds, Replies, Sink, Source, read_all, serve_in_lines};
use std::alloc::Global;

/// Reads all of a hexadecimal text, in at most `turns` reads, and then answers the session that it
/// encodes, from no rows and place 0, as `once` does. Each reply is a line of digits. Returns the
/// number of replies, a count that stays at 2^64 - 1.
pub fn once_in_hex<R: Source, W: Sink, V: Verifier>(
    alloc: Global,
    reader: &mut R,
    replies: &mut Replies<W, OnceAck>,
    cores: &Roster,
    checker: &V,
    now: u64,
    turns: u64,
) -> Result<u64, SessionFault>
    ensures { IsHexSession R.gives turns (opening cores.now (V.verifies checker.now) now) reader.old reader.new
        (R.is_at_end reader.new) (W.contents replies.old.writer) (W.contents replies.new.writer) result }
{
    let text = read_all(alloc, reader, turns)?;
    let input = bytes_of(alloc, text)?;
    let count = answer_in_lines(alloc, input, replies, cores, checker, now)?;
    Ok(count)
}

/// Answers the messages of these bytes, from no rows and place 0, in lines.
fn answer_in_lines<W: Sink, V: Verifier>(
    alloc: Global,
    input: Vec<u8>,
    replies: &mut Replies<W, OnceAck>,
    cores: &Roster,
    checker: &V,
    now: u64,
) -> Result<u64, FrameError>
    ensures { AreAnsweredInLines (opening cores.now (V.verifies checker.now) now) input.items (W.contents replies.old.writer) (W.contents replies.new.writer) result }
{
    let Ok(mut service) = OnceService::new(alloc, cores, checker, now) else {
        return Err(FrameError::NoMemory);
    };
    let served = serve_in_lines(alloc, input, replies, &mut service, Kinds::Base);
    service.end();
    served
}
