//! Slots by rising number, and where a number is among them.

ghost use Rattle.std.specs.Prelude.{◌≡◌, ◌≤◌, length, insert, OnOk, OnErr};
ghost use Rattle.rising_map.specs.Slots.{entries_of, IsFoundSlot, AreRisingSlots};

use std::alloc::AllocError;

/// An entry, or the hole that an entry left.
#[derive(Clone, Copy)]
pub(crate) struct Slot<V: Copy> {
    pub(crate) number: u64,
    /// The entry's value; `None` in a hole.
    pub(crate) value: Option<V>,
}

/// The index of the slot that has a number, or as an error the number of slots below it where no
/// slot has it. This takes constant time where the number is above all slots', or where the slots
/// from the first one to it have no gap; else it takes time by the logarithm of the number of
/// slots.
pub(crate) fn find<V: Copy>(slots: &[Slot<V>], number: u64) -> Result<usize, usize>
    requires { AreRisingSlots slots.now }
    ensures { IsFoundSlot slots.now number result }
{
    let len = slots.len();
    if len == 0 || slots[len - 1].number < number {
        return Err(len);
    }
    let first = slots[0].number;
    if first <= number && number - first < len as u64 {
        let guess = (number - first) as usize;
        if slots[guess].number == number {
            return Ok(guess);
        }
    }
    slots.binary_search_by_key(&number, |slot| slot.number)
}

/// Adds a slot at an index. Where memory is refused, the slots are unchanged.
pub(crate) fn add<V: Copy>(
    slots: &mut Vec<Slot<V>>,
    at: usize,
    slot: Slot<V>,
) -> Result<(), AllocError>
    requires { at ≤ length slots.old.items }
    ensures added { OnOk result (slots.new.items ≡ insert slots.old.items at slot) }
    ensures refused { OnErr result (slots.new.items ≡ slots.old.items) }
{
    if at == slots.len() {
        slots.push(slot)?;
    } else {
        slots.insert(at, slot)?;
    }
    Ok(())
}

/// Removes all holes. This takes no memory.
pub(crate) fn close_holes<V: Copy>(slots: &mut Vec<Slot<V>>)
    requires { AreRisingSlots slots.old.items }
    ensures entries { entries_of slots.new.items ≡ entries_of slots.old.items }
    ensures rising { AreRisingSlots slots.new.items }
    ensures full { length slots.new.items ≡ length (entries_of slots.old.items) }
{
    slots.retain(|slot| slot.value.is_some());
}
