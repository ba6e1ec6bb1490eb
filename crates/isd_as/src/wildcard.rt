ghost use Rattle.std.specs.Prelude.{◌≡◌, ◌↔◌, IsTrue};
ghost use Rattle.isd_as.specs.IsdAs.{Covers, covers_number, has_zero_part, isd_as_number};

use crate::number::IsdAs;

impl IsdAs {
    /// Whether the ISD or the AS is 0, the wildcard.
    pub fn has_zero_part(self) -> bool
        ensures { result ≡ has_zero_part (isd_as_number self) }
    {
        self.isd == 0 || self.asn == 0
    }
}

/// Whether the pattern covers the ISD-AS. A part of the pattern that is 0 covers every number.
pub fn covers(pattern: IsdAs, ia: IsdAs) -> bool
    ensures parts { IsTrue result ↔ Covers pattern ia }
    ensures number { result ≡ covers_number (isd_as_number pattern) (isd_as_number ia) }
{
    (pattern.isd == 0 || pattern.isd == ia.isd) && (pattern.asn == 0 || pattern.asn == ia.asn)
}
