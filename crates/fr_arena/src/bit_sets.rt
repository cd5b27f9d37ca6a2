//! A set of small numbers, one bit for each.
ghost use Rattle.std.specs.Prelude.{◌≡◌, ◌-◌, ◌*◌, ◌^◌, ◌<◌, ◌≤◌, ◌↔◌, length, min, max, IsTrue, IsOk, IfOk, slice_index, slice_set, ℕ, nat_lt, ◌==◌, ◌||◌, ◌&&◌, not, false};
ghost use Rattle.std.specs.Int.{div_ceil};
ghost use Rattle.std.specs.FinSet as set;
ghost use Rattle.fr_arena.specs.BitSets.{all_below, HasAllBelow, IsWithinCapacity};

use crate::refusals::OutOfMemory;
use std::alloc::Global;
use std::default::Default;
use std::marker::Model;

/// A set of numbers below a capacity that is fixed when it is made.
///
/// Contracts see the capacity and the finite set of the numbers. How they lie in memory is only
/// code: up to a capacity of 64 in one word of the value itself, above it in a vector of words.
#[derive(Drop)]
pub struct ISet {
    words: Words,
}

// The bits by words of 64, the lowest first.
#[derive(Drop)]
enum Words {
    One(u64),
    Many(Vec<u64>),
}

impl Model for ISet {
    ghost use Rattle.std.specs.Prelude.{ℕ, ◌<◌, ◌^◌};
    ghost use Rattle.fr_arena.specs.BitSets.{BitSet, bit_set_code};

    ghost Value = { BitSet };

    ghost coded = { bit_set_code };

    ghost use Rattle.fr_arena.specs.Words.{words_of, capacity_of, bit_set_of};

    ghost view = { λ it. bit_set_of (words_of it.words) };

    ghost invariant = { λ it. capacity_of (words_of it.words) < 2 ^ 64 };
}

impl Words {
    ghost use Rattle.fr_arena.specs.Words.{words_of};

    fn len(&self) -> usize
        ensures { result ≡ length (words_of self.now) }
    {
        match self {
            Words::One(_) => 1,
            Words::Many(words) => words.len(),
        }
    }

    fn get(&self, at: usize) -> u64
        requires { at < length (words_of self.now) }
        ensures { result ≡ slice_index (words_of self.now) at }
    {
        match self {
            Words::One(word) => *word,
            Words::Many(words) => words[at],
        }
    }

    fn put(&mut self, at: usize, new: u64)
        requires { at < length (words_of self.old) }
        ensures { words_of self.new ≡ slice_set (words_of self.old) at new }
    {
        match self {
            Words::One(word) => *word = new,
            Words::Many(words) => words[at] = new,
        }
    }
}

impl ISet {
    /// The empty set with room for at least `count` numbers: the capacity is the next multiple of
    /// 64, and 64 at least.
    pub fn new(alloc: Global, count: usize) -> Result<Self, OutOfMemory>
        ensures empty { IfOk result (λ it. it.members ≡ set.empty) }
        ensures by_index { IfOk result (λ it. (index : ℕ) → set.contains it.members index ≡ false) }
        ensures capacity { IfOk result (λ it. it.capacity ≡ max 64 (64 * div_ceil count 64)) }
        ensures room { IfOk result (λ it. count ≤ it.capacity) }
        ensures small { count ≤ 64 → IsOk result }
    {
        if count <= 64 {
            return Ok(ISet::default());
        }
        if count > usize::MAX - 63 {
            return Err(OutOfMemory);
        }
        let words = vec![in alloc; 0; count.div_ceil(64)]?;
        Ok(ISet {
            words: Words::Many(words),
        })
    }

    /// How many numbers there is room for: the least number that can't be in the set.
    pub fn capacity(&self) -> usize
        ensures value { result ≡ self.now.capacity }
        ensures within { IsWithinCapacity self.now }
    {
        64 * self.words.len()
    }

    /// Puts `index` into the set.
    pub fn set(&mut self, index: usize)
        requires inside { index < self.old.capacity }
        ensures value { self.new ≡ record self.old { members = set.insert self.old.members index } }
        ensures by_index { (other : ℕ) → set.contains self.new.members other
            ≡ (other == index || set.contains self.old.members other) }
    {
        let word = self.words.get(index / 64);
        self.words.put(index / 64, word | (1 << (index % 64)));
    }

    /// Takes `index` out of the set.
    pub fn unset(&mut self, index: usize)
        requires inside { index < self.old.capacity }
        ensures value { self.new ≡ record self.old { members = set.remove self.old.members index } }
        ensures by_index { (other : ℕ) → set.contains self.new.members other
            ≡ (not (other == index) && set.contains self.old.members other) }
    {
        let word = self.words.get(index / 64);
        self.words.put(index / 64, word & !(1 << (index % 64)));
    }

    /// Whether `index` is in the set.
    pub fn get(&self, index: usize) -> bool
        requires inside { index < self.now.capacity }
        ensures member { result ≡ set.contains self.now.members index }
    {
        (self.words.get(index / 64) >> (index % 64)) & 1 == 1
    }

    /// Whether each number below `count` is in the set.
    pub fn all_set(&self, count: usize) -> bool
        requires inside { count ≤ self.now.capacity }
        ensures all { IsTrue result ↔ HasAllBelow count self.now }
    {
        for at in 0..count.div_ceil(64) {
            let wanted = word_of_all_below(count, at);
            if self.words.get(at) & wanted != wanted {
                return false;
            }
        }
        true
    }

    /// Puts each number below `count` into the set.
    pub fn set_all(&mut self, count: usize)
        requires inside { count ≤ self.old.capacity }
        ensures value { self.new
            ≡ record self.old { members = set.union self.old.members (all_below count) } }
        ensures by_index { (other : ℕ) → set.contains self.new.members other
            ≡ (nat_lt other count || set.contains self.old.members other) }
    {
        for at in 0..count.div_ceil(64) {
            let word = self.words.get(at);
            self.words.put(at, word | word_of_all_below(count, at));
        }
    }
}

impl Default for ISet {
    ghost is_default = { λ it. it ≡ record { capacity = 64; members = set.empty } };

    fn default() -> ISet {
        ISet {
            words: Words::One(0),
        }
    }
}

// The word at place `at` of a set of all numbers below `count`.
fn word_of_all_below(count: usize, at: usize) -> u64
    requires { at < 2 ^ 58 }
    ensures { result ≡ 2 ^ (min (count - 64 * at) 64) - 1 }
{
    let bits = count.saturating_sub(64 * at);
    if bits < 64 { (1 << bits) - 1 } else { u64::MAX }
}
