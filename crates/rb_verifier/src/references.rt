//! The references that a program holds.

ghost use Rattle.std.specs.Prelude.{◌≡◌, ◌<◌, ◌≤◌, ◌++◌, [], ◌∷◌, ◌↔◌, IsTrue, length, filter, find, map};
ghost use Rattle.rb_verifier.specs.References.{AreEarlier, IsAscending, is_full, is_empty, has_id, other_than, tested_in};

use smallvec::SmallVec;
use std::alloc::Global;
use std::marker::Model;

/// A reference to a record that was reserved and must be submitted or discarded.
#[derive(Clone, Copy, Debug, PartialEq, Eq, Default)]
pub struct Reference {
    /// The unit of the CALL that reserved the record.
    pub id: u32,
    /// The ring's number.
    pub ring: u32,
    /// The record's length in bytes.
    pub size: u32,
    /// Whether the reservation was tested against null.
    pub sure: bool,
}

/// The references that are held: at most four, in ascending order of their ids.
#[derive(Debug, Drop)]
pub struct Held {
    items: SmallVec<Reference, 4>,
}

impl Model for Held {
    ghost use Rattle.std.specs.Prelude.{◌≡◌, ◌≤◌, List, length};
    ghost use Rattle.rb_verifier.specs.declared.references.Reference.{Reference};

    ghost Value = { List Reference };

    ghost use Rattle.rb_verifier.specs.References.{IsAscending};

    ghost view = { λ h. h.items.items };

    ghost invariant = { λ h. (h.items.capacity ≡ 4) × (length h.items.items ≤ 4) × IsAscending h.items.items };
}

impl Reference {
    /// Returns the reference, marked as tested against null if it has this id.
    fn tested(self, id: u32) -> Reference
        ensures { result ≡ tested_in id self }
    {
        if self.id == id {
            Reference { sure: true, ..self }
        } else {
            self
        }
    }
}

impl Held {
    /// Returns an empty set of references.
    pub fn new(alloc: Global) -> Self
        ensures { result ≡ [] }
    {
        Held {
            items: SmallVec::new(alloc),
        }
    }

    /// Returns a copy of the references. Allocates nothing, because they are stored inline.
    pub(crate) fn copy(&self) -> Self
        ensures { result ≡ self.now }
    {
        if self.is_empty() {
            return Held::new(*self.items.allocator());
        }
        let Ok(items) = SmallVec::from_slice(*self.items.allocator(), self.as_slice()) else {
            unreachable!()
        };
        Held { items }
    }

    /// Returns the references in ascending order of their ids.
    pub fn as_slice(&self) -> &[Reference]
        ensures items { result.now ≡ self.now }
        ensures few { length result.now ≤ 4 }
        ensures ascending { IsAscending result.now }
    {
        self.items.as_slice()
    }

    /// Returns the reference with this id, if it is held.
    pub fn get(&self, id: u32) -> Option<Reference>
        ensures { result ≡ find (has_id id) self.now }
    {
        for reference in self.as_slice() {
            if reference.id == id {
                return Some(*reference);
            }
        }
        None
    }

    /// Returns whether four references are held.
    pub(crate) fn is_full(&self) -> bool
        ensures { result ≡ is_full self.now }
    {
        self.items.len() >= 4
    }

    /// Returns whether no reference is held.
    pub(crate) fn is_empty(&self) -> bool
        ensures { result ≡ is_empty self.now }
    {
        self.items.is_empty()
    }

    /// Returns whether both hold the same references.
    pub(crate) fn is_same(&self, other: &Held) -> bool
        ensures { IsTrue result ↔ (self.now ≡ other.now) }
    {
        self.as_slice() == other.as_slice()
    }

    /// Returns a copy with `reference` appended; its id must be the greatest.
    pub fn added(&self, reference: Reference) -> Held
        requires room { length self.now < 4 }
        requires later { AreEarlier reference.id self.now }
        ensures { result ≡ self.now ++ reference ∷ [] }
    {
        let mut held = self.copy();
        held.items.push_reserved(reference);
        held
    }

    /// Returns a copy without the reference with this id.
    pub(crate) fn without(&self, id: u32) -> Held
        ensures { result ≡ filter (other_than id) self.now }
    {
        let mut items = SmallVec::new(*self.items.allocator());
        for reference in self.as_slice() {
            if reference.id != id {
                items.push_reserved(*reference);
            }
        }
        Held { items }
    }

    /// Returns a copy in which the reference with this id is marked as tested against null.
    pub(crate) fn tested(&self, id: u32) -> Held
        ensures { result ≡ map (tested_in id) self.now }
    {
        let mut items = SmallVec::new(*self.items.allocator());
        for reference in self.as_slice() {
            items.push_reserved(reference.tested(id));
        }
        Held { items }
    }
}
