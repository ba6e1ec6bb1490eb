//! The codes with which messages were refused.

ghost use Rattle.std.specs.Prelude.{◌≡◌, ◌++◌, IfOk, OnOk};
ghost use Rattle.status_server.specs.Refusals.{is_known, refusals_with, refusals_below};

use status_page::CodeCount;
use std::alloc::{AllocError, Global};

/// The number of codes.
pub(crate) const CODES: usize = 256;

/// The codes with which a message can be refused, in rising order.
const KNOWN: [u8; 30] = [
    0x01, 0x11, 0x12, 0x13, 0x14, 0x15, 0x22, 0x23, 0x24, 0x25, 0x26, 0x27, 0x28, 0x29, 0x2a, 0x31,
    0x32, 0x33, 0x41, 0x42, 0x43, 0x51, 0x52, 0x53, 0x54, 0x55, 0x57, 0x62, 0x63, 0x64,
];

/// The codes with which messages can be refused or were, in rising order.
pub(crate) fn refusals_of(
    alloc: Global,
    counts: &[u64; CODES],
) -> Result<Vec<CodeCount>, AllocError>
    ensures { IfOk result (λ refusals. refusals.items ≡ refusals_below CODES counts.now) }
{
    let mut refusals = Vec::new(alloc);
    for code in 0..CODES {
        add(&mut refusals, code as u8, counts[code])?;
    }
    Ok(refusals)
}

/// Adds a code with its count, where a message can be refused with the code, or was.
#[tactic(auto, unfolding(crate::specs::Refusals::refusals_with))]
fn add(refusals: &mut Vec<CodeCount>, code: u8, count: u64) -> Result<(), AllocError>
    ensures { OnOk result (refusals.new.items ≡ refusals.old.items ++ refusals_with code count) }
{
    if is_known(code) || count > 0 {
        refusals.push(CodeCount { code, count })?;
    }
    Ok(())
}

/// Whether a message can be refused with a code.
#[tactic(auto, unfolding(crate::specs::Refusals::is_known))]
fn is_known(code: u8) -> bool
    ensures { result ≡ is_known code }
{
    KNOWN.iter().any(|known| *known == code)
}
