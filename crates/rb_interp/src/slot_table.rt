//! The table of which record is in which slot.

ghost use Rattle.std.specs.Prelude.{◌≡◌, find, filter};
ghost use Rattle.rb_interp.specs.inner.SlotTable.{entry_has_id, other_entry_than};

use crate::Slot;
use arrayvec::ArrayVec;

/// A record that is held: its name, which is the unit of the CALL that reserved it, and its slot.
#[derive(Clone, Copy, Debug)]
pub struct SlotEntry {
    pub id: u32,
    pub slot: Slot,
}

impl Default for SlotEntry {
    fn default() -> SlotEntry {
        SlotEntry {
            id: 0,
            slot: Slot::First,
        }
    }
}

/// Returns the entry with this name, if there is one.
pub(crate) fn entry_of(entries: &[SlotEntry], id: u32) -> Option<SlotEntry>
    ensures { result ≡ find (entry_has_id id) entries.now }
{
    for entry in entries {
        if entry.id == id {
            return Some(*entry);
        }
    }
    None
}

/// Removes the entries with this name.
pub(crate) fn remove_entries(entries: &mut ArrayVec<SlotEntry, 4>, id: u32)
    ensures { entries.new.items ≡ filter (other_entry_than id) entries.old.items }
{
    entries.retain(|entry| entry.id != id);
}
