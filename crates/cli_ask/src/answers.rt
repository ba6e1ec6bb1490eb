//! Replies from a link.

ghost use Rattle.std.specs.Prelude.{◌≡◌, ◌≤◌, IfOk, OnOk, length, take};
ghost use Rattle.std.specs.Int.{w32, to_be_bytes};
ghost use Rattle.session_core.specs.Reply.{reply_frame};
ghost use Rattle.session_core.specs.ReplyViews.{reply_view};
ghost use Rattle.cli_ask.specs.Talk.{Passes, came};

use crate::error::AskError;
use crate::link::Link;
use crate::reply::read_reply;
use byte_lists::read_u32;
use session_core::{Ack, LENGTH_SIZE, MOST_REPLY, Reply};
use std::alloc::Global;

/// The most bytes that are read at one time.
pub(crate) const PIECE: usize = 16_384;

/// The next reply, of which these bytes came and no others. A length that no reply has is `Faulty`,
/// before anything is read of it. A connection that ends before the first byte is `Ended`, and one
/// that ends later is `Cut`.
pub(crate) fn next_reply<L: Link>(alloc: Global, link: &mut L) -> Result<Reply<Ack>, AskError>
    ensures { IfOk result (λ reply. Passes (L.talk link.old) (L.talk link.new) (came (reply_frame (reply_view (λ ack. ack) reply)))) }
{
    link.begin()?;
    let head = head_of(link)?;
    let len = length_in(&head) as usize;
    if len == 0 || len > MOST_REPLY {
        return Err(AskError::Faulty);
    }
    let content = content_of(alloc, link, len)?;
    read_reply(alloc, content.as_slice())
}

/// The first bytes of a reply, which have its length.
fn head_of<L: Link>(link: &mut L) -> Result<[u8; LENGTH_SIZE], AskError>
    ensures { IfOk result (λ head. Passes (L.talk link.old) (L.talk link.new) (came head)) }
{
    let mut head = [0; LENGTH_SIZE];
    let begun = some_of(link, &mut head, AskError::Ended)?;
    fill(link, &mut head[begun..])?;
    Ok(head)
}

/// The length in the first bytes of a reply.
fn length_in(head: &[u8; LENGTH_SIZE]) -> u32
    ensures { to_be_bytes w32 result ≡ head.now }
{
    read_u32(head, 0)
}

/// The next bytes, of this number. Memory is taken as they come.
fn content_of<L: Link>(alloc: Global, link: &mut L, len: usize) -> Result<Vec<u8>, AskError>
    ensures len { IfOk result (λ content. length content.items ≡ len) }
    ensures came { IfOk result (λ content. Passes (L.talk link.old) (L.talk link.new) (came content.items)) }
{
    let mut content = Vec::new(alloc);
    let mut piece = [0; PIECE];
    let mut left = len;
    while left > 0 {
        let count = some_of(link, &mut piece[..left.min(PIECE)], AskError::Cut)?;
        content.extend_from_slice(&piece[..count])?;
        left -= count;
    }
    Ok(content)
}

/// Fills a buffer.
fn fill<L: Link>(link: &mut L, into: &mut [u8]) -> Result<(), AskError>
    ensures { OnOk result (Passes (L.talk link.old) (L.talk link.new) (came into.new)) }
{
    let mut at = 0;
    while at < into.len() {
        at += some_of(link, &mut into[at..], AskError::Cut)?;
    }
    Ok(())
}

/// Reads once, at least one byte. The end of the connection is this error.
fn some_of<L: Link>(link: &mut L, into: &mut [u8], ended: AskError) -> Result<usize, AskError>
    ensures most { IfOk result (λ n. n ≤ length into.new) }
    ensures least { IfOk result (λ n. 1 ≤ n) }
    ensures came { IfOk result (λ n. Passes (L.talk link.old) (L.talk link.new) (came (take n into.new))) }
{
    match link.receive(into)? {
        0 => Err(ended),
        count => Ok(count),
    }
}
