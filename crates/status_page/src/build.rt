//! Which program it is, as lines of a page.

ghost use Rattle.std.specs.Prelude.{◌≡◌, IfOk, string_bytes};
ghost use Rattle.status_page.specs.Page.{build_label, build_text};

use crate::lines::{Kind, Value, heading, labelled};
use crate::names::{BUILD, BUILD_HELP};
use std::alloc::{AllocError, Global};
use store_layout::LATEST;

/// The version of the program.
pub const VERSION: &str = "1.0-rc1";

/// The lines of the program of this version.
#[tactic(auto, unfolding(crate::specs::Page::build_text))]
pub(crate) fn build_text(alloc: Global, version: &str) -> Result<String, AllocError>
    ensures { IfOk result (λ text. string_bytes text ≡ build_text version.now) }
{
    let heading = heading(alloc, BUILD, Kind::Gauge, BUILD_HELP)?;
    let label = build_label(alloc, version)?;
    let line = labelled(alloc, BUILD, label.as_str(), Value::Number(1))?;
    format!(in alloc; "{heading}{line}")
}

/// The version of the program, and the greatest version of the format.
#[tactic(auto, unfolding(crate::specs::Page::build_label))]
fn build_label(alloc: Global, version: &str) -> Result<String, AllocError>
    ensures { IfOk result (λ label. string_bytes label ≡ build_label version.now) }
{
    let format = LATEST;
    format!(in alloc; "version=\"{version}\",format=\"{format}\"")
}
