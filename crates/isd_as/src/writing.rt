ghost use Rattle.std.specs.Prelude.{Some};

use crate::number::IsdAs;
use std::fmt;

/// Writes the canonical text: an AS below 2^32 in decimal, a larger one as three groups of 16 bits
/// in lower-case hexadecimal without leading zeros. Options of the format, such as a width, are
/// ignored.
impl fmt::Display for IsdAs {
    ghost use Rattle.isd_as.specs.Text.{isd_as_text};

    ghost output = { λ ia. Some (isd_as_text ia) };

    fn fmt<W: fmt::Write>(&self, f: &mut fmt::Formatter<W>) -> fmt::Result {
        if self.asn < 1 << 32 {
            write!(f, "{}-{}", self.isd, self.asn)
        } else {
            let high = self.asn >> 32;
            let middle = (self.asn >> 16) & 0xffff;
            let low = self.asn & 0xffff;
            write!(f, "{}-{:x}:{:x}:{:x}", self.isd, high, middle, low)
        }
    }
}
