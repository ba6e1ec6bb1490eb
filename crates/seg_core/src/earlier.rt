//! The types of segments that have had an entry in a map.

ghost use Rattle.std.specs.Prelude.{◌≡◌, List, []};
ghost use Rattle.seg_core.specs.Earlier.{is_in, with_type, AreIn};
ghost use Rattle.seg_core.specs.Registration.{MapEntry, new_type};
ghost use Rattle.seg_core.specs.Steps.{ReadsFields};

use crate::error::SegError;
use crate::limits::check;
use crate::seg_type::SegType;

/// Which types have had an entry.
#[derive(Clone, Copy)]
pub(crate) struct Earlier {
    up: bool,
    down: bool,
    core: bool,
}

impl Earlier {
    /// No type has had an entry.
    pub(crate) fn none() -> Self
        ensures { AreIn [] result }
    {
        Earlier {
            up: false,
            down: false,
            core: false,
        }
    }

    /// Whether a type has had an entry.
    fn contains(self, kind: SegType) -> bool
        ensures { result ≡ is_in self kind }
    {
        match kind {
            SegType::Up => self.up,
            SegType::Down => self.down,
            SegType::Core => self.core,
        }
    }

    /// The type of a number, or an error where the type has had an entry already.
    #[tactic(auto, unfolding(crate::specs::Registration::new_type))]
    pub(crate) fn new_type(self, number: u64) -> Result<SegType, SegError>
        ensures { (entries : List MapEntry) → AreIn entries self → ReadsFields (λ kind. kind) result (new_type entries number) }
    {
        let kind = SegType::from_number(number)?;
        check(!self.contains(kind), SegError::RepeatedMessage)?;
        Ok(kind)
    }

    /// Notes that a type has had an entry.
    pub(crate) fn insert(&mut self, kind: SegType)
        ensures { self.new ≡ with_type self.old kind }
    {
        match kind {
            SegType::Up => self.up = true,
            SegType::Down => self.down = true,
            SegType::Core => self.core = true,
        }
    }
}
