//! A rope: a list that grows by chunks, so that no item moves before the rope is drained.
ghost use Rattle.std.specs.Prelude.{◌≡◌, ◌+◌, ◌<◌, ◌≤◌, ◌==◌, ◌++◌, length, take, slice_get, Some, IfErr, IfSome, OnOk, OnErr};
ghost use Rattle.std.specs.Int.{div_ceil};
ghost use Rattle.std.specs.Iterator.SizeHint.{IsWithinCount};
ghost use Rattle.std.specs.Iterator.{YieldsFirst, YieldsFirstRef, UpTo, at_most, item_count};
ghost use Rattle.std.specs.List.{FoldsTo};
ghost use Rattle.fr_arena.specs.Ropes.{Rope, empty_rope, with_item};
ghost use Rattle.fr_arena.specs.Chunks.{is_open, EndsWithChunk};

use crate::refusals::NotPushed;
use std::alloc::Global;
use std::marker::Model;
use std::{mem, vec};

/// A list of items that grows by chunks of a fixed size, with a count of those that are marked.
///
/// Contracts see the items, the count, the chunk size and with these the number of chunks. Where
/// the items lie is only code: each chunk is a vector that is made with room for the chunk size and
/// never grows, so an item stays where it was pushed until the rope is drained.
#[derive(Drop)]
pub struct ListRope<T> {
    chunks: Vec<Vec<T>>,
    len: usize,
    initialized: usize,
    chunk_capacity: usize,
    alloc: Global,
}

impl<T> Model for ListRope<T> {
    ghost use Rattle.std.specs.Prelude.{◌≡◌, ◌<◌, ◌≤◌, length};
    ghost use Rattle.fr_arena.specs.Ropes.{Rope, rope_code, rope_of};
    ghost use Rattle.fr_arena.specs.Chunks.{items_of, AreFilled};

    ghost Value = { Rope T };

    ghost coded = { rope_code T.code };

    ghost view = { λ rope. rope_of (items_of rope.chunks.items) rope.initialized rope.chunk_capacity };

    ghost invariant = { λ rope. record {
      chunked : 0 < rope.chunk_capacity;
      filled : AreFilled rope.chunk_capacity rope.len rope.chunks.items;
      counted : rope.len ≡ length (items_of rope.chunks.items);
      marked : rope.initialized ≤ rope.len;
    } };
}

impl<T> ListRope<T> {
    /// A rope of no items, whose chunks take 16 items each. Takes no memory.
    pub fn new(alloc: Global) -> Self
        ensures empty { result ≡ empty_rope 16 }
    {
        ListRope::with_chunk_capacity(alloc, 16)
    }

    /// A rope of no items, whose chunks take `n` items each. Takes no memory.
    pub fn with_chunk_capacity(alloc: Global, n: usize) -> Self
        requires positive { 0 < n }
        ensures empty { result ≡ empty_rope n }
    {
        ListRope {
            chunks: Vec::new(alloc),
            len: 0,
            initialized: 0,
            chunk_capacity: n,
            alloc,
        }
    }

    /// Puts `item` behind the others. A refusal returns the item.
    pub fn push(&mut self, item: T) -> Result<(), NotPushed<T>>
        ensures appended { OnOk result (self.new ≡ with_item self.old item) }
        ensures refused { OnErr result (self.new ≡ self.old) }
        ensures handed_back { IfErr result (λ refusal. refusal.0 ≡ item) }
    {
        if self.len == usize::MAX {
            return Err(NotPushed(item));
        }
        if has_room(self.chunks.as_slice(), self.chunk_capacity) {
            let last = self.chunks.len() - 1;
            self.chunks[last].push_reserved(item);
            self.len += 1;
            return Ok(());
        }
        push_chunk(self.alloc, &mut self.chunks, self.chunk_capacity, item)?;
        self.len += 1;
        Ok(())
    }

    /// Marks one more item: the first that isn't marked yet, so the last one where each is marked
    /// as it comes.
    pub fn mark_last_initialized(&mut self)
        requires unmarked { self.old.marked < length self.old.items }
        ensures marked { self.new ≡ record self.old { marked = self.old.marked + 1 } }
    {
        self.initialized += 1;
    }

    /// How many items there are.
    pub fn len(&self) -> usize
        ensures count { result ≡ length self.now.items }
    {
        self.len
    }

    /// Whether there is no item.
    pub fn is_empty(&self) -> bool
        ensures empty { result ≡ (length self.now.items == 0) }
    {
        self.len == 0
    }

    /// How many of the first items are marked.
    pub fn initialized_count(&self) -> usize
        ensures value { result ≡ self.now.marked }
        ensures bound { result ≤ length self.now.items }
    {
        self.initialized
    }

    /// How many chunks hold the items.
    pub fn chunk_count(&self) -> usize
        ensures chunks { result ≡ div_ceil (length self.now.items) self.now.chunk_size }
    {
        self.chunks.len()
    }

    /// The item of this number, found in constant time.
    pub fn get(&self, i: usize) -> &T
        requires inside { i < length self.now.items }
        ensures item { slice_get self.now.items i ≡ Some result.now }
    {
        &self.chunks[i / self.chunk_capacity][i % self.chunk_capacity]
    }

    /// The marked items, in order.
    pub fn iter_initialized(&self) -> RopeIter<'_, T>
        ensures items { result ≡ take self.now.marked self.now.items }
    {
        RopeIter {
            chunk: &[],
            chunks: self.chunks.as_slice(),
            left: self.initialized,
        }
    }

    /// Hands all items to `f`, in order, and frees the chunks.
    ///
    /// A caller whose own contract says what became of the items goes over `take_items` instead: no
    /// clause says what a closure that is passed on did to the values that it borrows.
    pub fn drain_into<F: FnMut(T)>(&mut self, mut f: F)
        requires callable { F.IsAlwaysCallable f }
        requires whole { self.old.marked ≡ length self.old.items }
        ensures handed_over { (last : F)
            × FoldsTo (λ before item after. F.step before item tt after) f self.old.items last }
        ensures emptied { self.new ≡ empty_rope self.old.chunk_size }
    {
        let mut chunks = mem::replace(&mut self.chunks, Vec::new(self.alloc)).into_iter();
        self.len = 0;
        self.initialized = 0;
        while let Some(chunk) = chunks.next() {
            hand_over(chunk, &mut f);
        }
        chunks.destroy_empty();
    }
}

impl<T> ListRope<T> {
    /// Takes all items out, marked or not, for a caller that goes over them by itself.
    pub fn take_items(&mut self) -> RopeItems<T>
        ensures items { result ≡ self.old.items }
        ensures emptied { self.new ≡ empty_rope self.old.chunk_size }
    {
        let chunks = mem::replace(&mut self.chunks, Vec::new(self.alloc));
        self.len = 0;
        self.initialized = 0;
        RopeItems {
            chunk: Vec::new(self.alloc).into_iter(),
            chunks: chunks.into_iter(),
        }
    }
}

// Hands the items of a chunk to `f`, in order.
fn hand_over<T, F: FnMut(T)>(chunk: Vec<T>, f: &mut F)
    requires { F.IsAlwaysCallable f.old }
    ensures handed_over { FoldsTo (λ before item after. F.step before item tt after)
        f.old chunk.items f.new }
    ensures callable { F.IsAlwaysCallable f.new }
{
    let mut items = chunk.into_iter();
    while let Some(item) = items.next() {
        f(item);
    }
    items.destroy_empty();
}

/// The marked items of a rope that are still to come. Contracts see them as a list.
#[derive(Drop)]
pub struct RopeIter<'a, T> {
    // What is left of the chunk at hand, the chunks behind it, and how many items are to come.
    chunk: &'a [T],
    chunks: &'a [Vec<T>],
    left: usize,
}

impl<'a, T> Model for RopeIter<'a, T> {
    ghost use Rattle.std.specs.Prelude.{List, ◌≤◌, ◌++◌, length, take};
    ghost use Rattle.fr_arena.specs.Chunks.{items_of};

    ghost Value = { List T };

    ghost view = { λ iter. take iter.left (iter.chunk.now ++ items_of iter.chunks.now) };

    ghost invariant = { λ iter. iter.left ≤ length (iter.chunk.now ++ items_of iter.chunks.now) };
}

impl<'a, T> Iterator for RopeIter<'a, T> {
    type Item = &'a T;

    ghost next_gives = { YieldsFirstRef (λ left. left) };

    ghost remaining = { item_count (λ left. left) };

    fn next(&mut self) -> Option<&'a T> {
        if self.left == 0 {
            return None;
        }
        while self.chunk.is_empty() {
            let (chunk, chunks) = self.chunks.split_first()?;
            self.chunk = chunk.as_slice();
            self.chunks = chunks;
        }
        let (first, others) = self.chunk.split_first()?;
        self.chunk = others;
        self.left -= 1;
        Some(first)
    }

    fn size_hint(&self) -> (usize, Option<usize>)
        ensures lower { IsWithinCount result.0 (at_most (length self.now)) }
        ensures upper { IfSome result.1 (UpTo (at_most (length self.now))) }
        ensures exact { result ≡ (length self.now, Some (length self.now)) }
    {
        (self.left, Some(self.left))
    }
}

// Whether the last chunk takes one more item.
fn has_room<T>(chunks: &[Vec<T>], size: usize) -> bool
    ensures { result ≡ is_open size chunks.now }
{
    match chunks {
        [] => false,
        [.., last] => last.len() < size,
    }
}

// Puts `item` into a new chunk of this capacity.
fn push_chunk<T>(
    alloc: Global,
    chunks: &mut Vec<Vec<T>>,
    capacity: usize,
    item: T,
) -> Result<(), NotPushed<T>>
    requires { 0 < capacity }
    ensures appended { OnOk result (EndsWithChunk chunks.old.items chunks.new.items capacity item) }
    ensures refused { OnErr result (chunks.new.items ≡ chunks.old.items) }
    ensures handed_back { IfErr result (λ refusal. refusal.0 ≡ item) }
{
    if chunks.reserve(1).is_err() {
        return Err(NotPushed(item));
    }
    let Ok(mut chunk) = Vec::with_capacity(alloc, capacity) else {
        return Err(NotPushed(item));
    };
    chunk.push_reserved(item);
    chunks.push_reserved(chunk);
    Ok(())
}

/// The items taken out of a rope that are still to come. Contracts see them as a list.
#[derive(Drop)]
pub struct RopeItems<T> {
    // What is left of the chunk at hand, and the chunks behind it.
    chunk: vec::IntoIter<T>,
    chunks: vec::IntoIter<Vec<T>>,
}

impl<T> Model for RopeItems<T> {
    ghost use Rattle.std.specs.Prelude.{List, ◌++◌};
    ghost use Rattle.std.specs.Vec.Iter.{into_iter_items};
    ghost use Rattle.fr_arena.specs.Chunks.{items_of};

    ghost Value = { List T };

    ghost view = { λ iter. into_iter_items iter.chunk ++ items_of (into_iter_items iter.chunks) };
}

impl<T: Drop> Iterator for RopeItems<T> {
    type Item = T;

    ghost next_gives = { YieldsFirst (λ left. left) };

    ghost remaining = { item_count (λ left. left) };

    fn next(&mut self) -> Option<T> {
        loop {
            if let Some(item) = self.chunk.next() {
                return Some(item);
            }
            self.chunk = self.chunks.next()?.into_iter();
        }
    }
}
