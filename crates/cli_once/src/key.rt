//! A key of the test profile as hexadecimal text.

ghost use Rattle.std.specs.Prelude.{◌≡◌, ◌≤◌, length, Ok, IfOk, IfErr};
ghost use Rattle.hex.specs.Hex.{decode_of};
ghost use Rattle.seg_check.specs.declared.keyed.TheConstants.{MOST_KEY};
ghost use Rattle.cli_once.specs.Key.{RefusesKey};

use crate::error::SessionFault;
use crate::hex_input::bytes_of_digits;
use seg_check::{Keyed, MOST_KEY};
use std::alloc::Global;

/// The verifier by the key of a hexadecimal text, of 0 to 64 bytes. A text that is no key is found
/// without memory.
pub fn key_of(alloc: Global, text: &str) -> Result<Keyed, SessionFault>
    ensures ok { IfOk result (λ key. decode_of text.now ≡ Ok key) }
    ensures short { IfOk result (λ key. length key ≤ MOST_KEY) }
    ensures err { IfErr result (RefusesKey text.now) }
{
    let digits = text.as_bytes();
    if digits.len() > 2 * MOST_KEY {
        return Err(SessionFault::Hex);
    }
    let key = bytes_of_digits(alloc, digits)?;
    Ok(Keyed::new(key))
}
