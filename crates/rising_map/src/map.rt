//! The map.

ghost use Rattle.std.specs.Prelude.{◌≡◌, ◌↔◌, ℕ, [], Option, None, IfOk, OnOk, OnErr, IsTrue};
ghost use Rattle.std.specs.List.Sorted.{IsStrictlySortedBy};
ghost use Rattle.std.specs.Ordering.{nat_cmp};
ghost use Rattle.std.specs.BTreeMap.{insert_entry, is_at};
ghost use Rattle.std.specs.Map.{keys_of, lookup, remove_entry};

use crate::slots::{Slot, add, close_holes, find};
use std::alloc::{AllocError, Global};
use std::marker::Model;

/// A map from numbers to values, made for numbers that mostly rise: its entries by rising number.
///
/// An insertion above all numbers and a removal take constant time on the average. So does a
/// look-up where no number is missing between the first one and the one that is asked for; any
/// other look-up takes time by the logarithm of the number of entries. An insertion between entries
/// moves all entries above it. The memory stays in proportion to the most entries that the map had
/// at once.
#[derive(Drop)]
pub struct RisingMap<V: Copy> {
    /// The entries by rising number, and holes where entries were removed.
    slots: Vec<Slot<V>>,
    /// The number of slots that are holes: at most half of them.
    holes: usize,
}

impl<V: Copy> Model for RisingMap<V> {
    ghost use Rattle.std.specs.Prelude.{ℕ, List};
    ghost use Rattle.rising_map.specs.Slots.{entries_of, AreSlots};

    ghost Value = { List (ℕ × V) };

    ghost view = { λ m. entries_of m.slots.items };

    ghost invariant = { λ m. AreSlots m.slots.items m.holes };
}

impl<V: Copy> RisingMap<V> {
    /// A map without entries. This takes no memory.
    pub fn new(alloc: Global) -> RisingMap<V>
        ensures { result ≡ [] }
    {
        RisingMap {
            slots: Vec::new(alloc),
            holes: 0,
        }
    }

    /// Whether the map has no entries.
    pub fn is_empty(&self) -> bool
        ensures { IsTrue result ↔ (self.now ≡ []) }
    {
        self.slots.is_empty()
    }

    /// The value of a number, where the map has it.
    pub fn get(&self, number: u64) -> Option<V>
        ensures { result ≡ lookup (is_at (nat_cmp number)) self.now }
    {
        match find(&self.slots, number) {
            Ok(at) => self.slots[at].value,
            Err(_) => None,
        }
    }

    /// Puts a value at a number, and returns the value that it replaces, if any. Replacing a value
    /// takes no memory. Where memory is refused, the map is unchanged.
    pub fn insert(&mut self, number: u64, value: V) -> Result<Option<V>, AllocError>
        ensures entries { OnOk result (self.new ≡ insert_entry nat_cmp self.old number value) }
        ensures before { IfOk result (λ before. before ≡ lookup (is_at (nat_cmp number)) self.old) }
        ensures refused { OnErr result (self.new ≡ self.old) }
        ensures absent { OnErr result (lookup (is_at (nat_cmp number)) self.old ≡ None) }
        ensures rising { IsStrictlySortedBy nat_cmp (keys_of self.old) }
    {
        match find(&self.slots, number) {
            Ok(at) => {
                let before = self.slots[at].value;
                self.slots[at].value = Some(value);
                if before.is_none() {
                    self.holes -= 1;
                }
                Ok(before)
            }
            Err(at) => {
                let slot = Slot {
                    number,
                    value: Some(value),
                };
                add(&mut self.slots, at, slot)?;
                Ok(None)
            }
        }
    }

    /// Removes the entry of a number, and returns its value, where the map has it. This takes no
    /// memory.
    pub fn remove(&mut self, number: u64) -> Option<V>
        ensures entries { self.new ≡ remove_entry (is_at (nat_cmp number)) self.old }
        ensures value { result ≡ lookup (is_at (nat_cmp number)) self.old }
        ensures rising { IsStrictlySortedBy nat_cmp (keys_of self.old) }
    {
        let Ok(at) = find(&self.slots, number) else {
            return None;
        };
        let value = self.slots[at].value?;
        self.slots[at].value = None;
        self.holes += 1;
        if self.slots.len() - self.holes < self.holes {
            close_holes(&mut self.slots);
            self.holes = 0;
        }
        Some(value)
    }
}
