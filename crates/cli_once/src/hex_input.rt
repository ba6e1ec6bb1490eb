//! Input as hexadecimal text.

ghost use Rattle.std.specs.Prelude.{◌≡◌, ◌↔◌, Ok, IfOk, IfErr, IsOk, IsTrue};
ghost use Rattle.hex.specs.Hex.{decode_of};
ghost use Rattle.cli_once.specs.HexInput.{is_blank, without_blanks, RefusesDigits, RefusesHex};

use crate::error::SessionFault;
use std::alloc::Global;

/// The bytes of a hexadecimal text. Spaces and ends of lines are left out, even between two digits.
/// A text that is not hexadecimal is refused without memory.
pub fn bytes_of(alloc: Global, text: Vec<u8>) -> Result<Vec<u8>, SessionFault>
    ensures ok { IfOk result (λ bytes. decode_of (without_blanks text.items) ≡ Ok bytes.items) }
    ensures err { IfErr result (RefusesHex text.items) }
{
    let mut digits = text;
    digits.retain(|byte| !is_blank(*byte));
    bytes_of_digits(alloc, digits.as_slice())
}

/// The bytes that digits encode.
pub(crate) fn bytes_of_digits(alloc: Global, digits: &[u8]) -> Result<Vec<u8>, SessionFault>
    ensures ok { IfOk result (λ bytes. decode_of digits.now ≡ Ok bytes.items) }
    ensures err { IfErr result (RefusesDigits digits.now) }
{
    if !encode_bytes(digits) {
        return Err(SessionFault::Hex);
    }
    hex::decode(alloc, digits).map_err(|_| SessionFault::Memory)
}

/// Whether these are digits, and of an even number.
fn encode_bytes(digits: &[u8]) -> bool
    ensures { IsTrue result ↔ IsOk (decode_of digits.now) }
{
    digits.len() % 2 == 0 && digits.iter().all(|digit| digit.is_ascii_hexdigit())
}

/// Whether a byte is a space, a line feed or a carriage return.
fn is_blank(byte: u8) -> bool
    ensures { result ≡ is_blank byte }
{
    matches!(byte, b' ' | b'\n' | b'\r')
}
