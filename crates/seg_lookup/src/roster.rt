//! The core ASes of a network.

ghost use Rattle.std.specs.Prelude.{◌≡◌};
ghost use Rattle.std.specs.FinSet as set;
ghost use Rattle.isd_as.specs.IsdAs.{isd_as_number};
ghost use Rattle.seg_lookup.specs.Roster.{is_core, roster_of};

use isd_as::IsdAs;
use std::marker::Model;

/// A set of core ASes. Members with a zero part are allowed, and count only where a side equals
/// them.
#[derive(Drop)]
pub struct Roster {
    /// The ASes in the order of their numbers; one may occur several times.
    cores: Vec<IsdAs>,
}

impl Model for Roster {
    ghost use Rattle.std.specs.List.Sorted.{IsNonDecreasingBy};
    ghost use Rattle.isd_as.specs.IsdAs.{isd_as_number};
    ghost use Rattle.seg_lookup.specs.Roster.{RosterView, roster_code, roster_of};

    ghost Value = { RosterView };

    ghost coded = { roster_code };

    ghost view = { λ s. roster_of s.cores.items };

    ghost invariant = { λ s. IsNonDecreasingBy isd_as_number s.cores.items };
}

impl Roster {
    /// The set of these ASes, in any order and each any number of times. The call takes no memory.
    pub fn new(mut cores: Vec<IsdAs>) -> Roster
        ensures { result ≡ roster_of cores.items }
    {
        cores.sort_unstable_by_key(|core| core.to_u64());
        Roster { cores }
    }

    /// Whether the AS is on the roster. The call takes logarithmic time.
    pub fn contains(&self, ia: IsdAs) -> bool
        ensures { result ≡ set.contains self.now (isd_as_number ia) }
    {
        let number = ia.to_u64();
        let found = self
            .cores
            .binary_search_by_key(&number, |core| core.to_u64());
        found.is_ok()
    }

    /// Whether a side of a lookup is core: its AS is 0, or it is on the roster.
    pub(crate) fn is_core(&self, side: IsdAs) -> bool
        ensures { result ≡ is_core self.now (isd_as_number side) }
    {
        side.asn == 0 || self.contains(side)
    }
}
