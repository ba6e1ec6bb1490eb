//! The text of the page.

ghost use Rattle.std.specs.Prelude.{◌≡◌, IfOk, string_bytes};
ghost use Rattle.status_page.specs.Page.{refusal_label, refusal_line, refusals_text, page_text};

use crate::calls::call_text;
use crate::counts::{CodeCount, Counts};
use crate::lines::{Kind, Value, heading, labelled};
use crate::names::{REFUSALS, REFUSALS_HELP};
use crate::store::store_text;
use crate::work::work_text;
use group_core::Numbers;
use std::alloc::{AllocError, Global};

/// The page of a state's numbers, of what the server has done, and of how many messages it refused
/// with which codes. Each metric has two lines with what it says and with its type, and then its
/// own lines. The page is text in the exposition format of Prometheus, version 0.0.4.
pub fn page(
    alloc: Global,
    numbers: &Numbers,
    counts: &Counts,
    refusals: &[CodeCount],
) -> Result<String, AllocError>
    ensures { IfOk result (λ text. string_bytes text ≡ page_text numbers.now counts.now refusals.now) }
{
    let store = store_text(alloc, numbers)?;
    let call = call_text(alloc, counts.call)?;
    let work = work_text(alloc, counts)?;
    let refused = refusals_text(alloc, refusals)?;
    format!(in alloc; "{store}{call}{work}{refused}")
}

/// The lines of the refusals by their codes.
#[tactic(auto, unfolding(crate::specs::Page::refusals_text))]
fn refusals_text(alloc: Global, refusals: &[CodeCount]) -> Result<String, AllocError>
    ensures { IfOk result (λ text. string_bytes text ≡ refusals_text refusals.now) }
{
    let mut text = heading(alloc, REFUSALS, Kind::Counter, REFUSALS_HELP)?;
    for refusal in refusals {
        let line = refusal_line(alloc, *refusal)?;
        text.push_str(line.as_str())?;
    }
    Ok(text)
}

#[tactic(auto, unfolding(crate::specs::Page::refusal_line))]
fn refusal_line(alloc: Global, refusal: CodeCount) -> Result<String, AllocError>
    ensures { IfOk result (λ line. string_bytes line ≡ refusal_line refusal) }
{
    let label = refusal_label(alloc, refusal.code)?;
    labelled(
        alloc,
        REFUSALS,
        label.as_str(),
        Value::Number(refusal.count),
    )
}

/// The label with a code, as two hexadecimal digits in lower case.
#[tactic(auto, unfolding(crate::specs::Page::refusal_label))]
fn refusal_label(alloc: Global, code: u8) -> Result<String, AllocError>
    ensures { IfOk result (λ label. string_bytes label ≡ refusal_label code) }
{
    let digits = hex::encode(alloc, &[code])?;
    format!(in alloc; "code=\"{digits}\"")
}
