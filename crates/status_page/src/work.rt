//! What a server has done, as lines of a page.

ghost use Rattle.std.specs.Prelude.{◌≡◌, IfOk, string_bytes};
ghost use Rattle.status_page.specs.Page.{actor_lines, reply_lines, own_purge_lines, answer_text, work_text};

use crate::counts::Counts;
use crate::lines::Kind::{Counter, Gauge};
use crate::lines::Value::{Number, Time, Truth};
use crate::names::{
    CHECKPOINT_TIME, CHECKPOINT_TIME_HELP, CHECKPOINTS, CHECKPOINTS_HELP, GROUPS, GROUPS_HELP,
    OUTCOMES, OUTCOMES_HELP, OWN_PURGED, OWN_PURGED_HELP, PURGES_RESTING, PURGES_RESTING_HELP,
    REPLIES, REPLIES_HELP, SEALS, SEALS_HELP, WAITS, WAITS_HELP,
};
use crate::process::process_text;
use crate::rows::Row::{Family, Labelled, Plain};
use crate::rows::rows_text;
use crate::sessions::session_lines;
use crate::times::{commit_text, lookup_text};
use std::alloc::{AllocError, Global};

/// The lines of what the server has done.
#[tactic(auto, unfolding(crate::specs::Page::work_text))]
pub(crate) fn work_text(alloc: Global, counts: &Counts) -> Result<String, AllocError>
    ensures { IfOk result (λ text. string_bytes text ≡ work_text counts.now) }
{
    let actors = actor_lines(alloc, counts)?;
    let commits = commit_text(alloc, &counts.commits)?;
    let sessions = session_lines(alloc, counts)?;
    let answers = answer_text(alloc, counts)?;
    let process = process_text(alloc, counts)?;
    format!(in alloc; "{actors}{commits}{sessions}{answers}{process}")
}

/// The lines of what both actors have done, and whether they wait for memory.
#[tactic(auto, unfolding(crate::specs::Page::actor_lines))]
fn actor_lines(alloc: Global, counts: &Counts) -> Result<String, AllocError>
    ensures { IfOk result (λ lines. string_bytes lines ≡ actor_lines counts.now) }
{
    let time = Time(counts.checkpoint_time);
    let rows = [
        Plain(GROUPS, Counter, GROUPS_HELP, Number(counts.groups)),
        Plain(SEALS, Counter, SEALS_HELP, Number(counts.seals)),
        Plain(
            CHECKPOINTS,
            Counter,
            CHECKPOINTS_HELP,
            Number(counts.checkpoints),
        ),
        Plain(CHECKPOINT_TIME, Counter, CHECKPOINT_TIME_HELP, time),
        Family(WAITS, Gauge, WAITS_HELP),
        Labelled(WAITS, "actor=\"flusher\"", Truth(counts.waits.flusher)),
        Labelled(
            WAITS,
            "actor=\"checkpointer\"",
            Truth(counts.waits.checkpointer),
        ),
    ];
    rows_text(alloc, &rows)
}

/// The lines of what was replied, and of the server's own purges.
#[tactic(auto, unfolding(crate::specs::Page::answer_text))]
fn answer_text(alloc: Global, counts: &Counts) -> Result<String, AllocError>
    ensures { IfOk result (λ text. string_bytes text ≡ answer_text counts.now) }
{
    let replies = reply_lines(alloc, counts)?;
    let purges = own_purge_lines(alloc, counts)?;
    let lookups = lookup_text(alloc, &counts.lookups)?;
    format!(in alloc; "{replies}{purges}{lookups}")
}

/// The lines of the replies by their kinds, except refusals, and of what acknowledged commands did.
#[tactic(auto, unfolding(crate::specs::Page::reply_lines))]
fn reply_lines(alloc: Global, counts: &Counts) -> Result<String, AllocError>
    ensures { IfOk result (λ lines. string_bytes lines ≡ reply_lines counts.now) }
{
    let rows = [
        Family(REPLIES, Counter, REPLIES_HELP),
        Labelled(REPLIES, "kind=\"found\"", Number(counts.found)),
        Labelled(REPLIES, "kind=\"listed\"", Number(counts.listed)),
        Labelled(REPLIES, "kind=\"registered\"", Number(counts.registered)),
        Labelled(REPLIES, "kind=\"purged\"", Number(counts.purged)),
        Labelled(REPLIES, "kind=\"removed\"", Number(counts.removed)),
        Family(OUTCOMES, Counter, OUTCOMES_HELP),
        Labelled(
            OUTCOMES,
            "outcome=\"inserted\"",
            Number(counts.outcomes.inserted),
        ),
        Labelled(
            OUTCOMES,
            "outcome=\"updated\"",
            Number(counts.outcomes.updated),
        ),
        Labelled(OUTCOMES, "outcome=\"kept\"", Number(counts.outcomes.kept)),
        Labelled(
            OUTCOMES,
            "outcome=\"removed\"",
            Number(counts.outcomes.removed),
        ),
    ];
    rows_text(alloc, &rows)
}

/// The lines of the server's own purges: whether they rest, and the rows that they have dropped.
#[tactic(auto, unfolding(crate::specs::Page::own_purge_lines))]
fn own_purge_lines(alloc: Global, counts: &Counts) -> Result<String, AllocError>
    ensures { IfOk result (λ lines. string_bytes lines ≡ own_purge_lines counts.now) }
{
    let purges = counts.own_purges;
    let rows = [
        Plain(
            PURGES_RESTING,
            Gauge,
            PURGES_RESTING_HELP,
            Truth(purges.resting),
        ),
        Plain(OWN_PURGED, Counter, OWN_PURGED_HELP, Number(purges.rows)),
    ];
    rows_text(alloc, &rows)
}
