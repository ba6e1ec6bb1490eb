//! The types of segments.

ghost use Rattle.std.specs.Prelude.{◌≡◌};
ghost use Rattle.seg_core.specs.Steps.{ReadsFields};

use crate::error::SegError;

/// The type of a segment: up and down segments lead from a core AS outwards, core segments from one
/// core AS to another. The numbers of the variants are those of the messages.
#[derive(Clone, Copy, Debug, PartialEq, Eq)]
pub enum SegType {
    Up = 1,
    Down = 2,
    Core = 3,
}

impl SegType {
    ghost use Rattle.seg_core.specs.Registration.{type_number, type_of};

    /// The number of the type: 1, 2 or 3.
    pub fn number(self) -> u64
        ensures { result ≡ type_number self }
    {
        match self {
            SegType::Up => 1,
            SegType::Down => 2,
            SegType::Core => 3,
        }
    }

    /// The type with this number. The whole number is checked, not its low bits; any number but 1,
    /// 2 and 3 is `BadType`.
    pub fn from_number(number: u64) -> Result<SegType, SegError>
        ensures { ReadsFields (λ kind. kind) result (type_of number) }
    {
        match number {
            1 => Ok(SegType::Up),
            2 => Ok(SegType::Down),
            3 => Ok(SegType::Core),
            _ => Err(SegError::BadType),
        }
    }
}
