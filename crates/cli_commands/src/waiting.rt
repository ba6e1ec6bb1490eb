//! The lines of a server that wait to be printed.

ghost use Rattle.std.specs.VecDeque.{deque_capacity};
ghost use Rattle.cli_commands.specs.declared.waiting.TheConstants.{MOST_LINES};
ghost use Rattle.std.specs.Prelude.{◌≡◌, ◌+◌, ◌-◌, ◌^◌, ◌≤◌, ◌<◌, [], ◌∷◌, ◌++◌, ◌↔◌, length, min, option_map, option_to_list, IfOk, MatchOption, IsTrue};

use std::alloc::{AllocError, Global};
use std::collections::VecDeque;

/// The most lines that wait at one time. A further line is dropped.
pub(crate) const MOST_LINES: usize = 64;

/// A line that no longer waits.
#[derive(Drop)]
pub(crate) struct Taken<L> {
    pub(crate) line: L,
    /// The number of lines that were dropped since the line before was taken, at most 2^64 - 1.
    pub(crate) dropped: u64,
}

/// Lines that wait, in the order in which they came. Lines that come while `MOST_LINES` wait are
/// dropped and counted.
#[derive(Drop)]
pub(crate) struct Waiting<L> {
    lines: VecDeque<L>,
    /// The number of lines that were dropped since the last one was taken, at most 2^64 - 1.
    dropped: u64,
    /// The number of lines that were dropped, at most 2^64 - 1.
    all_dropped: u64,
    ghost room: { MOST_LINES ≤ deque_capacity lines },
}

impl<L: Drop> Waiting<L> {
    /// Has room for `MOST_LINES` lines, so that a line that comes takes no memory.
    pub(crate) fn new(alloc: Global) -> Result<Waiting<L>, AllocError>
        ensures { IfOk result (λ w. (w.lines.items ≡ []) × (w.dropped ≡ 0) × (w.all_dropped ≡ 0)) }
    {
        Ok(Waiting {
            lines: VecDeque::with_capacity(alloc, MOST_LINES)?,
            dropped: 0,
            all_dropped: 0,
        })
    }

    /// Whether no line waits.
    pub(crate) fn is_empty(&self) -> bool
        ensures { IsTrue result ↔ (self.now.lines.items ≡ []) }
    {
        self.lines.is_empty()
    }

    /// The number of lines that were dropped, at most 2^64 - 1.
    pub(crate) fn all_dropped(&self) -> u64
        ensures { result ≡ self.now.all_dropped }
    {
        self.all_dropped
    }

    /// A line comes. It waits last, or is dropped and counted where `MOST_LINES` wait.
    pub(crate) fn push(&mut self, line: L)
        ensures waits { length self.old.lines.items < MOST_LINES → self.new.lines.items ≡ self.old.lines.items ++ line ∷ [] }
        ensures uncounted { length self.old.lines.items < MOST_LINES → (self.new.dropped ≡ self.old.dropped) × (self.new.all_dropped ≡ self.old.all_dropped) }
        ensures stays { MOST_LINES ≤ length self.old.lines.items → self.new.lines.items ≡ self.old.lines.items }
        ensures counted { MOST_LINES ≤ length self.old.lines.items → (self.new.dropped ≡ min (self.old.dropped + 1) (2 ^ 64 - 1))
            × (self.new.all_dropped ≡ min (self.old.all_dropped + 1) (2 ^ 64 - 1)) }
    {
        if self.lines.len() < MOST_LINES && self.lines.push_back(line).is_ok() {
            return;
        }
        self.dropped = self.dropped.saturating_add(1);
        self.all_dropped = self.all_dropped.saturating_add(1);
    }

    /// Takes the line that has waited longest, if one waits.
    pub(crate) fn take(&mut self) -> Option<Taken<L>>
        ensures lines { self.old.lines.items ≡ option_to_list (option_map (λ taken. taken.line) result) ++ self.new.lines.items }
        ensures dropped { MatchOption result ((self.old.lines.items ≡ []) × (self.new.dropped ≡ self.old.dropped))
            (λ taken. (taken.dropped ≡ self.old.dropped) × (self.new.dropped ≡ 0)) }
        ensures all { self.new.all_dropped ≡ self.old.all_dropped }
    {
        let line = self.lines.pop_front()?;
        let dropped = self.dropped;
        self.dropped = 0;
        Some(Taken { line, dropped })
    }
}
