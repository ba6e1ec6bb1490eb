//! The process of a server, as lines of a page.

ghost use Rattle.std.specs.Prelude.{◌≡◌, IfOk, string_bytes};
ghost use Rattle.status_page.specs.Page.{age_lines, usage_lines, usage_text, process_text};

use crate::build::{VERSION, build_text};
use crate::counts::{Counts, Usage};
use crate::lines::Kind::{Counter, Gauge};
use crate::lines::Value::{Number, Time};
use crate::names::{
    BEGUN, BEGUN_HELP, DROPPED, DROPPED_HELP, MEMORY, MEMORY_HELP, MOST_FILES, MOST_FILES_HELP,
    OPEN_FILES, OPEN_FILES_HELP, PROCESSOR, PROCESSOR_HELP, UPTIME, UPTIME_HELP,
};
use crate::rows::Row::Plain;
use crate::rows::rows_text;
use std::alloc::{AllocError, Global};

/// The lines of the process: the notices that it has dropped, its age, what it uses of the machine,
/// and which program it is.
#[tactic(auto, unfolding(crate::specs::Page::process_text))]
pub(crate) fn process_text(alloc: Global, counts: &Counts) -> Result<String, AllocError>
    ensures { IfOk result (λ text. string_bytes text ≡ process_text counts.now) }
{
    let age = age_lines(alloc, counts)?;
    let usage = usage_text(alloc, counts.usage)?;
    let build = build_text(alloc, VERSION)?;
    format!(in alloc; "{age}{usage}{build}")
}

/// The lines of the notices that were dropped, how long the process has run, and when it began.
#[tactic(auto, unfolding(crate::specs::Page::age_lines))]
fn age_lines(alloc: Global, counts: &Counts) -> Result<String, AllocError>
    ensures { IfOk result (λ lines. string_bytes lines ≡ age_lines counts.now) }
{
    let rows = [
        Plain(DROPPED, Counter, DROPPED_HELP, Number(counts.dropped)),
        Plain(UPTIME, Gauge, UPTIME_HELP, Number(counts.seconds)),
        Plain(BEGUN, Gauge, BEGUN_HELP, Number(counts.begun)),
    ];
    rows_text(alloc, &rows)
}

/// The lines of what the process uses, or none where that is not known.
fn usage_text(alloc: Global, usage: Option<Usage>) -> Result<String, AllocError>
    ensures { IfOk result (λ text. string_bytes text ≡ usage_text usage) }
{
    match usage {
        Some(usage) => usage_lines(alloc, usage),
        None => Ok(String::new(alloc)),
    }
}

/// The lines of what the process uses.
#[tactic(auto, unfolding(crate::specs::Page::usage_lines))]
fn usage_lines(alloc: Global, usage: Usage) -> Result<String, AllocError>
    ensures { IfOk result (λ lines. string_bytes lines ≡ usage_lines usage) }
{
    let rows = [
        Plain(MEMORY, Gauge, MEMORY_HELP, Number(usage.memory)),
        Plain(PROCESSOR, Counter, PROCESSOR_HELP, Time(usage.processor)),
        Plain(OPEN_FILES, Gauge, OPEN_FILES_HELP, Number(usage.open_files)),
        Plain(MOST_FILES, Gauge, MOST_FILES_HELP, Number(usage.most_files)),
    ];
    rows_text(alloc, &rows)
}
