//! The text in which a store is shown.

ghost use Rattle.std.specs.Prelude.{◌≡◌, IfOk, string_bytes};
ghost use Rattle.cli_store.specs.Text.{place_line, formatted_line, copied_line};

use std::alloc::{AllocError, Global};

/// The line of a place.
pub(crate) fn place_line(alloc: Global, place: u64) -> Result<String, AllocError>
    ensures { IfOk result (λ line. string_bytes line ≡ place_line place) }
{
    format!(in alloc; "place {place}\n")
}

/// The line of a store that was made, of this number of sectors.
pub(crate) fn formatted_line(alloc: Global, sectors: u64) -> Result<String, AllocError>
    ensures { IfOk result (λ line. string_bytes line ≡ formatted_line sectors) }
{
    format!(in alloc; "formatted {sectors} sectors\n")
}

/// The line of a store that was copied: the number of its rows, and its place.
pub(crate) fn copied_line(alloc: Global, rows: usize, place: u64) -> Result<String, AllocError>
    ensures { IfOk result (λ line. string_bytes line ≡ copied_line rows place) }
{
    format!(in alloc; "copied {rows} rows at place {place}\n")
}
