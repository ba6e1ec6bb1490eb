//! The sessions of a server, as lines of a page.

ghost use Rattle.std.specs.Prelude.{◌≡◌, IfOk, string_bytes};
ghost use Rattle.status_page.specs.Page.{session_lines};

use crate::counts::Counts;
use crate::lines::Kind::{Counter, Gauge};
use crate::lines::Value::Number;
use crate::names::{
    ENDS, ENDS_HELP, REFUSED, REFUSED_HELP, SESSIONS, SESSIONS_HELP, STARTED, STARTED_HELP,
};
use crate::rows::Row::{Family, Labelled, Plain};
use crate::rows::rows_text;
use std::alloc::{AllocError, Global};

/// The lines of the sessions: those that are open, that were started, that were refused, and that
/// have ended.
#[tactic(auto, unfolding(crate::specs::Page::session_lines))]
pub(crate) fn session_lines(alloc: Global, counts: &Counts) -> Result<String, AllocError>
    ensures { IfOk result (λ lines. string_bytes lines ≡ session_lines counts.now) }
{
    let rows = [
        Plain(SESSIONS, Gauge, SESSIONS_HELP, Number(counts.sessions)),
        Plain(STARTED, Counter, STARTED_HELP, Number(counts.started)),
        Family(REFUSED, Counter, REFUSED_HELP),
        Labelled(REFUSED, "reason=\"seats\"", Number(counts.refused.seats)),
        Labelled(
            REFUSED,
            "reason=\"address\"",
            Number(counts.refused.address),
        ),
        Labelled(REFUSED, "reason=\"thread\"", Number(counts.refused.thread)),
        Family(ENDS, Counter, ENDS_HELP),
        Labelled(ENDS, "cause=\"closed\"", Number(counts.ended.closed)),
        Labelled(ENDS, "cause=\"idle\"", Number(counts.ended.idle)),
        Labelled(ENDS, "cause=\"frame\"", Number(counts.ended.frame)),
        Labelled(
            ENDS,
            "cause=\"connection\"",
            Number(counts.ended.connection),
        ),
        Labelled(ENDS, "cause=\"memory\"", Number(counts.ended.memory)),
        Labelled(ENDS, "cause=\"server\"", Number(counts.ended.server)),
    ];
    rows_text(alloc, &rows)
}
