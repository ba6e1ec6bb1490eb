//! How long commits and lookups took, as lines of a page.

ghost use Rattle.std.specs.Prelude.{◌≡◌, IfOk, string_bytes};
ghost use Rattle.status_page.specs.Page.{commit_text, lookup_text};

use crate::counts::LookupTimes;
use crate::histogram::histogram;
use crate::names::{COMMITS, COMMITS_HELP, LOOKUPS, LOOKUPS_HELP};
use std::alloc::{AllocError, Global};
use store_loops::CommitTimes;

/// The lines of how long commits took.
#[tactic(auto, unfolding(crate::specs::Page::commit_text))]
pub(crate) fn commit_text(alloc: Global, times: &CommitTimes) -> Result<String, AllocError>
    ensures { IfOk result (λ text. string_bytes text ≡ commit_text times.now) }
{
    let (count, time) = (times.count, times.microseconds);
    histogram(alloc, COMMITS, COMMITS_HELP, &times.buckets, count, time)
}

/// The lines of how long lookups took.
#[tactic(auto, unfolding(crate::specs::Page::lookup_text))]
pub(crate) fn lookup_text(alloc: Global, times: &LookupTimes) -> Result<String, AllocError>
    ensures { IfOk result (λ text. string_bytes text ≡ lookup_text times.now) }
{
    let (count, time) = (times.count, times.microseconds);
    histogram(alloc, LOOKUPS, LOOKUPS_HELP, &times.buckets, count, time)
}
