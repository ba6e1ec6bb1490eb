//! The numbers of a store, as lines of a page.

ghost use Rattle.std.specs.Prelude.{◌≡◌, IfOk, string_bytes};
ghost use Rattle.status_page.specs.Page.{store_text, store_lines};

use crate::lines::Kind::{Counter, Gauge};
use crate::lines::Value::{Number, Truth};
use crate::names::{
    COMMANDS, COMMANDS_HELP, EPOCH, EPOCH_HELP, FORMAT, FORMAT_HELP, JOURNAL, JOURNAL_HELP,
    JOURNAL_USED, JOURNAL_USED_HELP, MOST_BYTES, MOST_BYTES_HELP, PENDING, PENDING_HELP, ROW_BYTES,
    ROW_BYTES_HELP, ROWS, ROWS_BY_TYPE, ROWS_BY_TYPE_HELP, ROWS_HELP, SEALED, SEALED_HELP, STOPPED,
    STOPPED_HELP,
};
use crate::phases::{check_lines, check_number, flush_lines, flush_number};
use crate::rows::Row::{Family, Labelled, Plain};
use crate::rows::rows_text;
use group_core::Numbers;
use std::alloc::{AllocError, Global};

/// The lines of a store's numbers, and of the phases of its two actors.
#[tactic(auto, unfolding(crate::specs::Page::store_text))]
pub(crate) fn store_text(alloc: Global, numbers: &Numbers) -> Result<String, AllocError>
    ensures { IfOk result (λ text. string_bytes text ≡ store_text numbers.now) }
{
    let store = store_lines(alloc, numbers)?;
    let flush = flush_lines(alloc, flush_number(numbers.flush))?;
    let check = check_lines(alloc, check_number(numbers.check))?;
    format!(in alloc; "{store}{flush}{check}")
}

/// The lines of a store's numbers.
#[tactic(auto, unfolding(crate::specs::Page::store_lines))]
fn store_lines(alloc: Global, numbers: &Numbers) -> Result<String, AllocError>
    ensures { IfOk result (λ lines. string_bytes lines ≡ store_lines numbers.now) }
{
    let rows = [
        Plain(ROWS, Gauge, ROWS_HELP, Number(numbers.rows)),
        Family(ROWS_BY_TYPE, Gauge, ROWS_BY_TYPE_HELP),
        Labelled(ROWS_BY_TYPE, "type=\"up\"", Number(numbers.up)),
        Labelled(ROWS_BY_TYPE, "type=\"core\"", Number(numbers.core)),
        Labelled(ROWS_BY_TYPE, "type=\"down\"", Number(numbers.down)),
        Plain(ROW_BYTES, Gauge, ROW_BYTES_HELP, Number(numbers.bytes)),
        Plain(
            MOST_BYTES,
            Gauge,
            MOST_BYTES_HELP,
            Number(numbers.most_bytes),
        ),
        Plain(COMMANDS, Counter, COMMANDS_HELP, Number(numbers.place)),
        Plain(PENDING, Gauge, PENDING_HELP, Number(numbers.pending)),
        Plain(STOPPED, Gauge, STOPPED_HELP, Truth(numbers.stopped)),
        Plain(EPOCH, Gauge, EPOCH_HELP, Number(numbers.epoch)),
        Plain(FORMAT, Gauge, FORMAT_HELP, Number(numbers.version as u64)),
        Plain(SEALED, Gauge, SEALED_HELP, Truth(numbers.sealed)),
        Plain(
            JOURNAL,
            Gauge,
            JOURNAL_HELP,
            Number(numbers.journal_sectors),
        ),
        Plain(
            JOURNAL_USED,
            Gauge,
            JOURNAL_USED_HELP,
            Number(numbers.journal_used),
        ),
    ];
    rows_text(alloc, &rows)
}
