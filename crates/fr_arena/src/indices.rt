//! Typed indices into an arena, and runs of them.
ghost use Rattle.std.specs.Prelude.{◌≡◌, ◌+◌, ◌<◌, ◌≤◌, ◌==◌, ◌&&◌, ◌↔◌, ℕ, IsTrue, SomeIff};
ghost use Rattle.std.proofs.Common.{rules};
ghost use Rattle.std.specs.Cmp.Rules.{comparing, hashing};
ghost use Rattle.std.specs.Hash as fed;
ghost use Rattle.fr_arena.specs.Ranges.{Range, indices_from};

use std::hash::{Hash, Hasher};
use std::marker::{Model, PhantomData};

/// The index of a `T` in an arena, a number of 32 bits.
///
/// Contracts see the number. The largest stands for no index at all.
#[derive_where(Clone, Copy)]
pub struct Idx<T> {
    raw: u32,
    of: PhantomData<T>,
}

impl<T> Model for Idx<T> {
    ghost Value = { ℕ };

    ghost view = { λ idx. idx.raw };

    ghost inverse = { λ raw. record { raw = raw; of = record {} } };
}

impl<T> PartialEq for Idx<T> {
    ghost eq = { ◌==◌ };

    ghost laws = { Prim.search (comparing, rules) };

    fn eq(&self, other: &Idx<T>) -> bool {
        self.raw == other.raw
    }
}

impl<T> Eq for Idx<T> {
    ghost laws = { Prim.search (comparing, rules) };
}

impl<T> Hash for Idx<T> {
    ghost hash_input = { fed.u32 };

    ghost respects_eq = { Prim.search (hashing, rules) };

    fn hash<H: Hasher>(&self, state: &mut H) {
        self.raw.hash(state);
    }
}

impl<T> Idx<T> {
    /// The index with this number, also one that no arena holds yet.
    pub fn new(raw: u32) -> Self
        ensures number { result ≡ raw }
    {
        Idx {
            raw,
            of: PhantomData,
        }
    }

    /// The number.
    pub fn raw(self) -> u32
        ensures number { result ≡ self }
    {
        self.raw
    }

    /// The index that stands for none.
    pub fn invalid() -> Self
        ensures number { result ≡ u32.MAX }
    {
        Idx::new(u32::MAX)
    }

    /// Whether this is any index but `invalid`.
    pub fn is_valid(self) -> bool
        ensures valid { IsTrue result ↔ ¬ (self ≡ u32.MAX) }
    {
        self.raw != u32::MAX
    }
}

/// A run of indices of `T`s that lie side by side in an arena.
///
/// Contracts see the first index and the number of indices. No range has the index `u32::MAX`.
#[derive_where(Clone, Copy)]
pub struct SliceRange<T> {
    start: u32,
    len: u32,
    of: PhantomData<T>,
}

impl<T> Model for SliceRange<T> {
    ghost Value = { Range };

    ghost view = { λ range. record { start = range.start; len = range.len } };

    ghost invariant = { λ range. range.start + range.len ≤ 4294967295 };

    ghost inverse = { λ range. record { start = range.start; len = range.len; of = record {} } };
}

impl<T> PartialEq for SliceRange<T> {
    ghost eq = { λ a b. (a.start == b.start) && (a.len == b.len) };

    ghost laws = { Prim.search (comparing, rules) };

    fn eq(&self, other: &SliceRange<T>) -> bool {
        self.start == other.start && self.len == other.len
    }
}

impl<T> Eq for SliceRange<T> {
    ghost laws = { Prim.search (comparing, rules) };
}

impl<T> SliceRange<T> {
    /// The `len` indices from `start` on.
    pub fn new(start: u32, len: u32) -> Self
        requires within { start + len ≤ u32.MAX }
        ensures indices { result ≡ indices_from start len }
    {
        SliceRange {
            start,
            len,
            of: PhantomData,
        }
    }

    /// The range of no index, at 0.
    pub fn empty() -> Self
        ensures indices { result ≡ indices_from 0 0 }
    {
        SliceRange::new(0, 0)
    }

    /// The first index, or where it would be.
    pub fn start(self) -> u32
        ensures start { result ≡ self.start }
    {
        self.start
    }

    /// How many indices there are.
    pub fn len(self) -> u32
        ensures value { result ≡ self.len }
        ensures bound { self.start + self.len ≤ u32.MAX }
    {
        self.len
    }

    /// Whether there is no index.
    pub fn is_empty(self) -> bool
        ensures empty { result ≡ (self.len == 0) }
    {
        self.len == 0
    }

    /// The index at place `n` of the range, counted from 0, if it has one.
    pub fn get(self, n: usize) -> Option<Idx<T>>
        ensures index { SomeIff result (n < self.len) (self.start + n) }
    {
        if n < self.len as usize {
            Some(Idx::new(self.start + n as u32))
        } else {
            None
        }
    }
    // The first index and the one behind the last, as places of a list.
    pub(crate) fn bounds(self) -> (usize, usize)
        ensures { result ≡ (self.start, self.start + self.len) }
    {
        let start = self.start as usize;
        (start, start + self.len as usize)
    }
}
