//! A list that contracts see as the list of its items, and the two errors of being out of memory.
ghost use Rattle.std.specs.Prelude.{◌≡◌, [], ◌∷◌, ◌++◌, ◌<◌, ◌≤◌, ◌↔◌, length, slice_get, OnOk, IfErr, OnErr, IsNone, IsTrue};
ghost use Rattle.std.specs.Option.{option_copied};

use std::alloc::{AllocError, AllocFailed, Global};
use std::marker::Model;

/// No memory was left. What was asked for did not happen.
#[derive(Drop)]
pub struct OutOfMemory;

/// The item that found no room, handed back.
#[derive(Drop)]
pub struct NotPushed<T>(pub T);

impl From<AllocError> for OutOfMemory {
    fn from(_refused: AllocError) -> OutOfMemory {
        OutOfMemory
    }
}

impl<T: Drop> From<AllocFailed<T>> for OutOfMemory {
    fn from(_refused: AllocFailed<T>) -> OutOfMemory {
        OutOfMemory
    }
}

impl<T: Drop> From<NotPushed<T>> for OutOfMemory {
    fn from(_refused: NotPushed<T>) -> OutOfMemory {
        OutOfMemory
    }
}

/// A growing list, as `Vec`, seen by contracts as the list of its items alone.
#[derive(Drop)]
pub struct Items<T> {
    items: Vec<T>,
}

impl<T> Model for Items<T> {
    ghost use Rattle.std.specs.Prelude.{List};
    ghost use Rattle.std.specs.Coded.{coded_list};

    ghost Value = { List T };

    ghost coded = { coded_list T.code };

    ghost view = { λ it. it.items.items };
}

impl<T> Items<T> {
    /// The empty list. Takes no memory.
    pub fn new(alloc: Global) -> Items<T>
        ensures empty { result ≡ [] }
    {
        Items {
            items: Vec::new(alloc),
        }
    }

    /// Appends an item, or hands it back where there is no memory.
    pub fn push(&mut self, item: T) -> Result<(), NotPushed<T>>
        ensures ok { OnOk result (self.new ≡ self.old ++ item ∷ []) }
        ensures unchanged { OnErr result (self.new ≡ self.old) }
        ensures handed_back { IfErr result (λ e. e.0 ≡ item) }
    {
        match self.items.push(item) {
            Ok(()) => Ok(()),
            Err(refused) => Err(NotPushed(refused.value)),
        }
    }

    /// How many items there are.
    pub fn len(&self) -> usize
        ensures count { result ≡ length self.now }
    {
        self.items.len()
    }

    /// Whether there is none.
    pub fn is_empty(&self) -> bool
        ensures empty { IsTrue result ↔ (self.now ≡ []) }
    {
        self.items.is_empty()
    }

    /// The item at an index, counted from 0.
    pub fn get(&self, i: usize) -> Option<&T>
        ensures value { option_copied result ≡ slice_get self.now i }
        ensures none { IsNone result ↔ (length self.now ≤ i) }
    {
        self.items.get(i)
    }

    /// The same list; takes no memory.
    pub fn from_vec(v: Vec<T>) -> Items<T>
        ensures items { result ≡ v.items }
    {
        Items { items: v }
    }

    /// The same list; takes no memory.
    pub fn into_vec(self) -> Vec<T>
        ensures items { result.items ≡ self }
    {
        let Items { items } = self;
        items
    }

    /// The same list; takes no memory.
    pub fn as_slice(&self) -> &[T]
        ensures items { result.now ≡ self.now }
    {
        self.items.as_slice()
    }

    /// What the list takes its memory from.
    pub(crate) fn alloc(&self) -> Global {
        *self.items.allocator()
    }
}
