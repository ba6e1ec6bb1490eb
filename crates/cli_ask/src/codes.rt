//! The codes of refusals as text.

ghost use Rattle.std.specs.Prelude.{◌≡◌, ◌<◌};
ghost use Rattle.cli_ask.specs.Faults.{digit_text};

use std::fmt;

/// The codes that have a name, as docs/codes.csv has them.
#[rattlefmt::skip]
const NAMES: [(u8, &str); 31] = [
    (0x01, "Memory"),
    (0x11, "Truncated"),
    (0x12, "LongVarint"),
    (0x13, "BadField"),
    (0x14, "GroupWire"),
    (0x15, "BadWire"),
    (0x22, "KindOfField"),
    (0x23, "RepeatedMessage"),
    (0x24, "MissingField"),
    (0x25, "Range"),
    (0x26, "Chain"),
    (0x27, "Loop"),
    (0x28, "Entries"),
    (0x29, "BadType"),
    (0x2a, "TooLarge"),
    (0x31, "BadSignature"),
    (0x32, "Expired"),
    (0x33, "Future"),
    (0x41, "NullDestination"),
    (0x42, "IsdOnlyWildcard"),
    (0x43, "NoCore"),
    (0x51, "Busy"),
    (0x52, "Full"),
    (0x53, "TooLarge"),
    (0x54, "Stopped"),
    (0x55, "Exhausted"),
    (0x57, "OldStore"),
    (0x61, "NoSeat"),
    (0x62, "OutcomeUnknown"),
    (0x63, "NotAwaited"),
    (0x64, "NoCommands"),
];

/// The code of a refusal. It is printed with its name, where it has one, as `0x51 Busy`. No clause
/// says which name that is: `tools/pathd-tools codes` compares the table.
#[derive(Clone, Copy, Debug, PartialEq, Eq)]
pub struct NamedCode(pub u8);

impl fmt::Display for NamedCode {
    fn fmt<W: fmt::Write>(&self, f: &mut fmt::Formatter<W>) -> fmt::Result {
        let code = self.0;
        write!(f, "0x{}{}", digit(code / 16), digit(code % 16))?;
        match name_of(code) {
            Some(name) => write!(f, " {name}"),
            None => Ok(()),
        }
    }
}

/// The name of a code, if it has one.
fn name_of(code: u8) -> Option<&'static str> {
    for (named, name) in NAMES {
        if named == code {
            return Some(name);
        }
    }
    None
}

/// The hexadecimal digit of a number.
pub(crate) fn digit(number: u8) -> &'static str
    requires { number < 16 }
    ensures { result.now ≡ digit_text number }
{
    match number {
        0 => "0",
        1 => "1",
        2 => "2",
        3 => "3",
        4 => "4",
        5 => "5",
        6 => "6",
        7 => "7",
        8 => "8",
        9 => "9",
        10 => "a",
        11 => "b",
        12 => "c",
        13 => "d",
        14 => "e",
        _ => "f",
    }
}
