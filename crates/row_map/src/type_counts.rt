//! How many rows a map has of each type.

ghost use Rattle.std.specs.Prelude.{◌≡◌, ◌+◌, ◌<◌, ◌^◌, true};
ghost use Rattle.row_map.specs.TypeCounts.{count_of, one_of};

use seg_core::SegType;

/// The number of rows of each type.
#[derive(Clone, Copy)]
pub(crate) struct TypeCounts {
    pub up: usize,
    pub core: usize,
    pub down: usize,
}

impl TypeCounts {
    /// The counts of no rows.
    pub(crate) fn new() -> TypeCounts
        ensures { (kind : SegType) → count_of result kind ≡ 0 }
    {
        TypeCounts {
            up: 0,
            core: 0,
            down: 0,
        }
    }

    /// The number of rows of a type.
    pub(crate) fn of(&self, kind: SegType) -> usize
        ensures { result ≡ count_of self.now kind }
    {
        match kind {
            SegType::Up => self.up,
            SegType::Core => self.core,
            SegType::Down => self.down,
        }
    }

    /// Counts a row of a type that was put, where it is new.
    pub(crate) fn add(&mut self, kind: SegType, is_new: bool)
        requires { is_new ≡ true → count_of self.old kind < 2 ^ 63 }
        ensures { (other : SegType) → count_of self.new other ≡ count_of self.old other + one_of is_new kind other }
    {
        if is_new {
            match kind {
                SegType::Up => self.up += 1,
                SegType::Core => self.core += 1,
                SegType::Down => self.down += 1,
            }
        }
    }

    /// Counts a row of a type no longer, where it was removed.
    pub(crate) fn subtract(&mut self, kind: SegType, is_removed: bool)
        requires { is_removed ≡ true → 0 < count_of self.old kind }
        ensures { (other : SegType) → count_of self.new other + one_of is_removed kind other ≡ count_of self.old other }
    {
        if is_removed {
            match kind {
                SegType::Up => self.up -= 1,
                SegType::Core => self.core -= 1,
                SegType::Down => self.down -= 1,
            }
        }
    }
}
