//! The stack of slots from the root's to that of the place at which a builder works.
ghost use Rattle.fr_store.specs.Common.{IsLast, OnErr, OnOk, [], length, numbers, ℕ};
ghost use Rattle.std.specs.Prelude.{List, IsTrue, IfSome, IfNone, IsNone, ◌++◌, ◌<◌, ◌↔◌, ◌∷◌, ◌≡◌};

use fr_frame::SlotId;
use fr_shape::OutOfMemory;
use std::alloc::Global;
use std::marker::Model;

/// The slots of the places that are open, the root's first. Contracts see the list of their
/// numbers.
#[derive(Drop)]
pub struct Stack {
    places: Vec<SlotId>,
}

impl Model for Stack {
    ghost use Rattle.std.specs.Prelude.{List, ℕ};
    ghost use Rattle.std.specs.Coded.{coded_list, coded_ℕ};
    ghost use Rattle.fr_store.specs.Numbers.{numbers};

    ghost Value = { List ℕ };

    ghost coded = { coded_list coded_ℕ };

    ghost view = { λ stack. numbers stack.places.items };
}

impl Stack {
    /// No places. Takes no memory.
    pub fn new(alloc: Global) -> Stack
        ensures empty { result ≡ [] }
    {
        Stack {
            places: Vec::new(alloc),
        }
    }

    /// All places, the root's first.
    pub(crate) fn places(&self) -> &[SlotId]
        ensures places { numbers result.now ≡ self.now }
    {
        self.places.as_slice()
    }

    /// How many places there are.
    pub fn len(&self) -> usize
        ensures count { result ≡ length self.now }
    {
        self.places.len()
    }

    /// Whether there is no place.
    pub fn is_empty(&self) -> bool
        ensures empty { IsTrue result ↔ (self.now ≡ []) }
    {
        self.places.is_empty()
    }

    /// The place that came last.
    pub fn top(&self) -> Option<SlotId>
        ensures last { IfSome result (λ place. IsLast self.now place.0) }
        ensures none { IsNone result ↔ (self.now ≡ []) }
    {
        self.places.as_slice().last().copied()
    }

    /// Puts a place behind the others.
    pub fn push(&mut self, place: SlotId) -> Result<(), OutOfMemory>
        ensures appended { OnOk result (self.new ≡ self.old ++ place.0 ∷ []) }
        ensures refused { OnErr result (self.new ≡ self.old) }
    {
        self.places.push(place)?;
        Ok(())
    }

    /// Puts a place in the stead of the one that came last.
    pub(crate) fn put_top(&mut self, place: SlotId)
        requires { 0 < length self.old }
        ensures { (above : List ℕ) (n : ℕ) → self.old ≡ above ++ n ∷ []
            → self.new ≡ above ++ place.0 ∷ [] }
    {
        let last = self.places.len() - 1;
        self.places[last] = place;
    }

    /// Takes the place off that came last.
    pub fn pop(&mut self) -> Option<SlotId>
        ensures last { IfSome result (λ place. self.old ≡ self.new ++ place.0 ∷ []) }
        ensures unchanged { IfNone result (self.new ≡ self.old) }
        ensures none { IsNone result ↔ (self.old ≡ []) }
    {
        self.places.pop()
    }
}
