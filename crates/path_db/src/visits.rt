//! How many rows a lookup visits.

ghost use Rattle.std.specs.Prelude.{◌≡◌, ◌+◌, ◌-◌, ◌^◌, ◌<◌, min, true, false};

/// How many rows a lookup has visited, and how many more it may visit on the way that it tries.
#[derive(Drop)]
pub(crate) struct Visits {
    /// How many rows were visited, on all ways.
    pub count: usize,
    /// How many more rows may be visited on this way.
    pub left: usize,
}

impl Visits {
    /// No row was visited, and none may be.
    pub(crate) fn none() -> Visits
        ensures count { result.count ≡ 0 }
        ensures left { result.left ≡ 0 }
    {
        Visits { count: 0, left: 0 }
    }

    /// Begins a way, on which at most `most` rows may be visited.
    pub(crate) fn allow(&mut self, most: usize)
        ensures count { self.new.count ≡ self.old.count }
        ensures left { self.new.left ≡ most }
    {
        self.left = most;
    }

    /// Counts rows that are about to be visited. `false` means that fewer may be visited, and
    /// nothing changed.
    pub(crate) fn take(&mut self, rows: usize) -> bool
        ensures count { result ≡ true → self.new.count ≡ min (self.old.count + rows) (2 ^ 64 - 1) }
        ensures left { result ≡ true → self.new.left + rows ≡ self.old.left }
        ensures ended { result ≡ false → self.old.left < rows }
        ensures same { result ≡ false → self.new ≡ self.old }
    {
        if self.left < rows {
            return false;
        }
        self.left -= rows;
        self.count = self.count.saturating_add(rows);
        true
    }
}
