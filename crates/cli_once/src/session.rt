//! One session over a store in memory.

ghost use Rattle.cli_once.specs.Memory.{opening};
ghost use Rattle.cli_once.specs.Session.{IsSession};

use crate::once_ack::OnceAck;
use crate::once_service::OnceService;
use seg_check::Verifier;
use seg_lookup::Roster;
use session_core::{FrameError, Kinds, Replies, Sink, Source, serve};
use std::alloc::Global;

/// Answers the messages of one session, which has no lists, from no rows and place 0, in at most
/// `turns` reads, and returns how many replies were written, capped at 2^64 - 1. Signatures are
/// checked by `checker`, and `now`, in half seconds since 1970, is the moment at which segments are
/// valid or not.
pub fn once<R: Source, W: Sink, V: Verifier>(
    alloc: Global,
    reader: &mut R,
    replies: &mut Replies<W, OnceAck>,
    cores: &Roster,
    checker: &V,
    now: u64,
    turns: u64,
) -> Result<u64, FrameError>
    ensures { IsSession R.gives turns (opening cores.now (V.verifies checker.now) now) reader.old reader.new
        (R.is_at_end reader.new) (W.contents replies.old.writer) (W.contents replies.new.writer) result }
{
    let Ok(mut service) = OnceService::new(alloc, cores, checker, now) else {
        return Err(FrameError::NoMemory);
    };
    let served = serve(alloc, reader, replies, &mut service, Kinds::Base, turns);
    service.end();
    served
}
