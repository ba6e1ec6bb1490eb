//! The responses that a peer is sent.

ghost use Rattle.std.specs.Prelude.{◌≡◌, IfOk, string_bytes};
ghost use Rattle.status_server.specs.Answers.{answer_text, health_text, ready_text};

use group_core::Numbers;
use status_page::{
    Asked, BAD_REQUEST, CallTime, CodeCount, Counts, HANGS, HEALTHY, MemoryWaits, NO_MEMORY,
    NOT_ALLOWED, NOT_FOUND, STOPPED, page, plots_response, response,
};
use std::alloc::{AllocError, Global};

/// The time in microseconds from which on a call of the device hangs.
const HANGING: u64 = 10_000_000;

/// The text that a peer is sent for what it asks: the page of a state's numbers, of what the server
/// has done and of what it has refused, the page of plots, the server's health, whether commands
/// are accepted, or why nothing is sent.
pub fn answer(
    alloc: Global,
    asked: Asked,
    numbers: &Numbers,
    counts: &Counts,
    refusals: &[CodeCount],
) -> Result<String, AllocError>
    ensures { IfOk result (λ text. string_bytes text ≡ answer_text asked numbers.now counts.now refusals.now) }
{
    match asked {
        Asked::Page => {
            let page = page(alloc, numbers, counts, refusals)?;
            response(alloc, page.as_str())
        }
        Asked::Plots => plots_response(alloc),
        Asked::Health => health(alloc, numbers.stopped),
        Asked::Alive => String::from_str(alloc, HEALTHY),
        Asked::Ready => ready(alloc, numbers.stopped, counts.waits, counts.call),
        Asked::OtherPath => String::from_str(alloc, NOT_FOUND),
        Asked::OtherMethod => String::from_str(alloc, NOT_ALLOWED),
        Asked::More | Asked::Unreadable => String::from_str(alloc, BAD_REQUEST),
    }
}

/// The response to a question for the server's health: whether the store has stopped.
fn health(alloc: Global, stopped: bool) -> Result<String, AllocError>
    ensures { IfOk result (λ text. string_bytes text ≡ health_text stopped) }
{
    String::from_str(alloc, if stopped { STOPPED } else { HEALTHY })
}

/// The response to a question whether commands are accepted, and committed soon.
fn ready(
    alloc: Global,
    stopped: bool,
    waits: MemoryWaits,
    call: Option<CallTime>,
) -> Result<String, AllocError>
    ensures { IfOk result (λ text. string_bytes text ≡ ready_text stopped waits call) }
{
    if stopped {
        return String::from_str(alloc, STOPPED);
    }
    if waits.flusher || waits.checkpointer {
        return String::from_str(alloc, NO_MEMORY);
    }
    match call {
        Some(time) if time.microseconds >= HANGING => String::from_str(alloc, HANGS),
        Some(_) | None => String::from_str(alloc, HEALTHY),
    }
}
