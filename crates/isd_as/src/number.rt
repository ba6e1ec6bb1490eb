ghost use Rattle.std.specs.Prelude.{◌≡◌, ◌/◌, ◌%◌, ◌^◌, ◌<◌};

/// The number of an AS in SCION: an isolation domain (ISD) and an autonomous system (AS) in it.
///
/// Either part may be 0. In a pattern 0 is the wildcard, which matches every ISD or every AS.
#[derive(Clone, Copy, Debug, PartialEq, Eq)]
pub struct IsdAs {
    /// The isolation domain.
    pub isd: u16,
    /// The autonomous system, of 48 bits.
    pub asn: u64,
    pub ghost in_range: { asn < 2 ^ 48 },
}

impl IsdAs {
    ghost use Rattle.isd_as.specs.declared.number.IsdAs.{IsdAs};
    ghost use Rattle.isd_as.specs.IsdAs.{isd_as_number};

    /// The ISD-AS of an ISD and an AS of 48 bits.
    pub fn new(isd: u16, asn: u64) -> Self
        requires { asn < 2 ^ 48 }
        ensures isd { result.isd ≡ isd }
        ensures asn { result.asn ≡ asn }
    {
        IsdAs { isd, asn }
    }

    /// The ISD-AS of 64 bits: the upper 16 are the ISD, the lower 48 the AS.
    pub fn from_u64(number: u64) -> Self
        ensures number { isd_as_number result ≡ number }
        ensures only { (ia : IsdAs) → isd_as_number ia ≡ number → result ≡ ia }
    {
        IsdAs {
            isd: (number >> 48) as u16,
            asn: number & ((1 << 48) - 1),
        }
    }

    /// The 64 bits of the ISD-AS: the upper 16 are the ISD, the lower 48 the AS.
    pub fn to_u64(self) -> u64
        ensures { result ≡ isd_as_number self }
    {
        u64::from(self.isd) << 48 | self.asn
    }
}
