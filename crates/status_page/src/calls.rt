//! The call of the device that is under way, as lines of a page.

ghost use Rattle.std.specs.Prelude.{◌≡◌, IfOk, string_bytes};
ghost use Rattle.status_page.specs.Calls.{call_number};
ghost use Rattle.status_page.specs.Page.{call_lines, call_text};

use crate::counts::CallTime;
use crate::lines::Kind::Gauge;
use crate::lines::Value::TimeIf;
use crate::names::{CALLS, CALLS_HELP};
use crate::rows::Row::{Family, Labelled};
use crate::rows::rows_text;
use std::alloc::{AllocError, Global};
use store_loops::DeviceCall;

/// The lines of all calls, of which one or none is under way.
pub(crate) fn call_text(alloc: Global, call: Option<CallTime>) -> Result<String, AllocError>
    ensures { IfOk result (λ lines. string_bytes lines ≡ call_text call) }
{
    match call {
        Some(time) => call_lines(alloc, call_number(time.call), time.microseconds),
        None => call_lines(alloc, 0, 0),
    }
}

/// The lines of all calls: the time of the one that has this number, and 0 for each other.
#[tactic(auto, unfolding(crate::specs::Page::call_lines))]
fn call_lines(alloc: Global, now: u64, time: u64) -> Result<String, AllocError>
    ensures { IfOk result (λ lines. string_bytes lines ≡ call_lines now time) }
{
    let rows = [
        Family(CALLS, Gauge, CALLS_HELP),
        Labelled(CALLS, "call=\"write_group\"", TimeIf(now == 1, time)),
        Labelled(CALLS, "call=\"sync_group\"", TimeIf(now == 2, time)),
        Labelled(CALLS, "call=\"open_gate\"", TimeIf(now == 3, time)),
        Labelled(CALLS, "call=\"sync_gate\"", TimeIf(now == 4, time)),
        Labelled(CALLS, "call=\"begin\"", TimeIf(now == 5, time)),
        Labelled(CALLS, "call=\"write_chunk\"", TimeIf(now == 6, time)),
        Labelled(CALLS, "call=\"sync_chunks\"", TimeIf(now == 7, time)),
        Labelled(CALLS, "call=\"open_half\"", TimeIf(now == 8, time)),
        Labelled(CALLS, "call=\"sync_half\"", TimeIf(now == 9, time)),
        Labelled(CALLS, "call=\"close_half\"", TimeIf(now == 10, time)),
        Labelled(CALLS, "call=\"sync_close\"", TimeIf(now == 11, time)),
        Labelled(CALLS, "call=\"write_following\"", TimeIf(now == 12, time)),
        Labelled(CALLS, "call=\"sync_followed\"", TimeIf(now == 13, time)),
    ];
    rows_text(alloc, &rows)
}

/// The number of a call, in the order of the lines.
fn call_number(call: DeviceCall) -> u64
    ensures { result ≡ call_number call }
{
    match call {
        DeviceCall::WriteGroup => 1,
        DeviceCall::SyncGroup => 2,
        DeviceCall::OpenGate => 3,
        DeviceCall::SyncGate => 4,
        DeviceCall::Begin => 5,
        DeviceCall::WriteChunk => 6,
        DeviceCall::SyncChunks => 7,
        DeviceCall::OpenHalf => 8,
        DeviceCall::SyncHalf => 9,
        DeviceCall::CloseHalf => 10,
        DeviceCall::SyncClose => 11,
        DeviceCall::WriteFollowing => 12,
        DeviceCall::SyncFollowed => 13,
    }
}
