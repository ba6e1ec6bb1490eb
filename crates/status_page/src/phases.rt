//! The phases of the two actors of a store, as lines of a page.

ghost use Rattle.std.specs.Prelude.{◌≡◌, IfOk, string_bytes};
ghost use Rattle.status_page.specs.Phases.{flush_number, check_number};
ghost use Rattle.status_page.specs.Page.{flush_lines, check_lines};

use crate::lines::Kind::Gauge;
use crate::lines::Value::Truth;
use crate::names::{CHECKPOINTER, CHECKPOINTER_HELP, FLUSHER, FLUSHER_HELP};
use crate::rows::Row::{Family, Labelled};
use crate::rows::rows_text;
use group_phases::{Check, Flush};
use std::alloc::{AllocError, Global};

/// The flusher's phases: 1 for the one that has this number, and 0 for each other.
#[tactic(auto, unfolding(crate::specs::Page::flush_lines))]
pub(crate) fn flush_lines(alloc: Global, now: u64) -> Result<String, AllocError>
    ensures { IfOk result (λ lines. string_bytes lines ≡ flush_lines now) }
{
    let rows = [
        Family(FLUSHER, Gauge, FLUSHER_HELP),
        Labelled(FLUSHER, "phase=\"resting\"", Truth(now == 0)),
        Labelled(FLUSHER, "phase=\"staged\"", Truth(now == 1)),
        Labelled(FLUSHER, "phase=\"written\"", Truth(now == 2)),
        Labelled(FLUSHER, "phase=\"stable\"", Truth(now == 3)),
        Labelled(FLUSHER, "phase=\"opened\"", Truth(now == 4)),
        Labelled(FLUSHER, "phase=\"doubtful\"", Truth(now == 5)),
        Labelled(FLUSHER, "phase=\"durable\"", Truth(now == 6)),
        Labelled(FLUSHER, "phase=\"following\"", Truth(now == 7)),
        Labelled(FLUSHER, "phase=\"followed\"", Truth(now == 8)),
        Labelled(FLUSHER, "phase=\"durable_followed\"", Truth(now == 9)),
    ];
    rows_text(alloc, &rows)
}

/// The checkpointer's phases: 1 for the one that has this number, and 0 for each other.
#[tactic(auto, unfolding(crate::specs::Page::check_lines))]
pub(crate) fn check_lines(alloc: Global, now: u64) -> Result<String, AllocError>
    ensures { IfOk result (λ lines. string_bytes lines ≡ check_lines now) }
{
    let rows = [
        Family(CHECKPOINTER, Gauge, CHECKPOINTER_HELP),
        Labelled(CHECKPOINTER, "phase=\"ready\"", Truth(now == 0)),
        Labelled(CHECKPOINTER, "phase=\"sealed\"", Truth(now == 1)),
        Labelled(CHECKPOINTER, "phase=\"planned\"", Truth(now == 2)),
        Labelled(CHECKPOINTER, "phase=\"laid\"", Truth(now == 3)),
        Labelled(CHECKPOINTER, "phase=\"switched\"", Truth(now == 4)),
        Labelled(CHECKPOINTER, "phase=\"switch_failed\"", Truth(now == 5)),
        Labelled(CHECKPOINTER, "phase=\"live\"", Truth(now == 6)),
        Labelled(CHECKPOINTER, "phase=\"closing\"", Truth(now == 7)),
        Labelled(CHECKPOINTER, "phase=\"close_failed\"", Truth(now == 8)),
    ];
    rows_text(alloc, &rows)
}

/// The number of a phase of the flusher, in the order of the lines.
pub(crate) fn flush_number(flush: Flush) -> u64
    ensures { result ≡ flush_number flush }
{
    match flush {
        Flush::Resting => 0,
        Flush::Staged => 1,
        Flush::Written => 2,
        Flush::Stable => 3,
        Flush::Opened => 4,
        Flush::Doubtful => 5,
        Flush::Durable => 6,
        Flush::Following => 7,
        Flush::Followed => 8,
        Flush::DurableFollowed => 9,
    }
}

/// The number of a phase of the checkpointer, in the order of the lines.
pub(crate) fn check_number(check: Check) -> u64
    ensures { result ≡ check_number check }
{
    match check {
        Check::Ready => 0,
        Check::Sealed => 1,
        Check::Planned => 2,
        Check::Laid => 3,
        Check::Switched => 4,
        Check::SwitchFailed => 5,
        Check::Live => 6,
        Check::Closing => 7,
        Check::CloseFailed => 8,
    }
}
