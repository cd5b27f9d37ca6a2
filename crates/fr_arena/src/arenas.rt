//! An arena: values of one type, each under the index at which it was put.
ghost use Rattle.std.specs.Prelude.{◌≡◌, ◌+◌, ◌-◌, ◌<◌, ◌≤◌, ◌==◌, [], ◌∷◌, ◌++◌, length, IfOk, IfErr, IfSome, OnOk, OnErr, slice_index_or, slice_range, slice_set};
ghost use Rattle.std.specs.Borrow.{Lends, sem};
ghost use Rattle.std.specs.Iterator.SizeHint.{IsWithinCount};
ghost use Rattle.std.specs.Iterator.{YieldsFirstRef, UpTo, at_most, item_count, IsFiniteIterable};
ghost use Rattle.fr_arena.specs.Arenas.{GivesAtMost, ForAllItems};
ghost use Rattle.fr_arena.specs.Ranges.{indices_from};

use crate::indices::{Idx, SliceRange};
use crate::refusals::{NotPushed, OutOfMemory};
use std::alloc::Global;
use std::marker::Model;
use std::ops::Index;

/// Values of one type, each of which keeps the index under which it was put.
///
/// Contracts see the list of the values, at most `u32::MAX` of them. How much memory is taken ahead
/// of need is only code.
#[derive(Drop)]
pub struct Arena<T> {
    values: Vec<T>,
}

impl<T> Model for Arena<T> {
    ghost use Rattle.std.specs.Prelude.{List, length, ◌≤◌};

    ghost Value = { List T };

    ghost view = { λ arena. arena.values.items };

    ghost invariant = { λ arena. length arena.values.items ≤ 4294967295 };
}

impl<T> Arena<T> {
    ghost use Rattle.fr_arena.specs.contracts.arenas.Arena.{the_row};

    /// An arena of no values, which takes no memory.
    pub fn new(alloc: Global) -> Self
        ensures empty { result ≡ [] }
    {
        Arena {
            values: Vec::new(alloc),
        }
    }

    /// An arena of no values, with memory for `capacity` of them.
    pub fn with_capacity(alloc: Global, capacity: usize) -> Result<Self, OutOfMemory>
        ensures empty { IfOk result (λ arena. arena ≡ []) }
    {
        Ok(Arena {
            values: Vec::with_capacity(alloc, capacity)?,
        })
    }

    /// Puts `value` behind the others and returns its index. A refusal returns the value.
    pub fn alloc(&mut self, value: T) -> Result<Idx<T>, NotPushed<T>>
        requires fits { length self.old < u32.MAX }
        ensures index { IfOk result (λ idx. idx ≡ length self.old) }
        ensures appended { OnOk result (self.new ≡ self.old ++ value ∷ []) }
        ensures refused { OnErr result (self.new ≡ self.old) }
        ensures handed_back { IfErr result (λ refusal. refusal.0 ≡ value) }
    {
        let raw = self.values.len() as u32;
        self.values.push(value)?;
        Ok(Idx::new(raw))
    }

    /// Puts all `values` behind the others, side by side, and returns their indices.
    ///
    /// A refusal drops those that were already taken.
    pub fn alloc_extend<I: IntoIterator<Item = T>>(
        &mut self,
        values: I,
    ) -> Result<SliceRange<T>, OutOfMemory>
    where
        T: Drop,
        requires ends { IsFiniteIterable I.into_iter_gives
            I.IntoIter.can_next I.IntoIter.remaining values }
        requires fits { GivesAtMost I.into_iter_gives
            I.IntoIter.next_gives values (u32.MAX - length self.old) }
        ensures range { IfOk result (λ range. ForAllItems I.into_iter_gives
            I.IntoIter.next_gives values (λ xs. (self.new ≡ self.old ++ xs)
            × (range ≡ indices_from (length self.old) (length xs)))) }
        ensures refused { OnErr result (self.new ≡ self.old) }
    {
        let start = self.values.len();
        append_all(&mut self.values, values)?;
        let len = self.values.len() - start;
        Ok(SliceRange::new(start as u32, len as u32))
    }

    /// The value at `idx`.
    pub fn get(&self, idx: Idx<T>) -> &T
        requires inside { idx < length self.now }
        ensures value { result.now ≡ slice_index_or self.now idx result.now }
    {
        &self.values[idx.raw() as usize]
    }

    /// The value at `idx`, for writing.
    pub fn get_mut(&mut self, idx: Idx<T>) -> &mut T
        requires inside { idx < length self.old }
        ensures* writes_back { sem 𝓛 (Lends (the_row T.row) T.row self.entry result
            (slice_set self.entry.now idx)) }
        ensures value { result.now ≡ slice_index_or self.old idx result.now }
    {
        &mut self.values[idx.raw() as usize]
    }

    /// The values of `range`.
    pub fn get_slice(&self, range: SliceRange<T>) -> &[T]
        requires inside { range.start + range.len ≤ length self.now }
        ensures values { result.now ≡ slice_range self.now range.start (range.start + range.len) }
    {
        let (start, end) = range.bounds();
        &self.values[start..end]
    }

    /// How many values there are.
    pub fn len(&self) -> usize
        ensures count { result ≡ length self.now }
        ensures bound { result ≤ u32.MAX }
    {
        self.values.len()
    }

    /// Whether there is no value.
    pub fn is_empty(&self) -> bool
        ensures empty { result ≡ (length self.now == 0) }
    {
        self.values.is_empty()
    }

    /// The values, in the order in which they were put.
    pub fn iter(&self) -> ArenaIter<'_, T>
        ensures values { result ≡ self.now }
    {
        ArenaIter {
            values: self.values.as_slice(),
        }
    }
}

// Puts all of `more` behind the others, or none of them.
fn append_all<T: Drop, I: IntoIterator<Item = T>>(
    values: &mut Vec<T>,
    more: I,
) -> Result<(), OutOfMemory>
    requires { IsFiniteIterable I.into_iter_gives I.IntoIter.can_next I.IntoIter.remaining more }
    ensures appended { OnOk result (ForAllItems I.into_iter_gives I.IntoIter.next_gives more
        (λ xs. values.new.items ≡ values.old.items ++ xs)) }
    ensures refused { OnErr result (values.new.items ≡ values.old.items) }
{
    let len = values.len();
    if values.extend(more).is_err() {
        values.truncate(len);
        return Err(OutOfMemory);
    }
    Ok(())
}

impl<T> Index<Idx<T>> for Arena<T> {
    type Output = T;

    ghost can_index = { λ values idx. idx < length values };

    ghost index_gives = { λ values idx value. value ≡ slice_index_or values idx value };

    fn index(&self, idx: Idx<T>) -> &T {
        self.get(idx)
    }
}

/// The values of an arena that are still to come. Contracts see them as a list.
#[derive(Drop)]
pub struct ArenaIter<'a, T> {
    values: &'a [T],
}

impl<'a, T> Model for ArenaIter<'a, T> {
    ghost use Rattle.std.specs.Prelude.{List};

    ghost Value = { List T };

    ghost view = { λ iter. iter.values.now };
}

impl<'a, T> Iterator for ArenaIter<'a, T> {
    type Item = &'a T;

    ghost next_gives = { YieldsFirstRef (λ left. left) };

    ghost remaining = { item_count (λ left. left) };

    fn next(&mut self) -> Option<&'a T> {
        let (first, others) = self.values.split_first()?;
        self.values = others;
        Some(first)
    }

    fn size_hint(&self) -> (usize, Option<usize>)
        ensures lower { IsWithinCount result.0 (at_most (length self.now)) }
        ensures upper { IfSome result.1 (UpTo (at_most (length self.now))) }
        ensures exact { result ≡ (length self.now, Some (length self.now)) }
    {
        (self.values.len(), Some(self.values.len()))
    }
}
