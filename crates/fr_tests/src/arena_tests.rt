//! Worked examples, and each call that takes memory once with ample memory. A helper ends the test
//! where a call would not be met or finds no memory.
use fr_arena::{Arena, ISet, Idx, ListRope, SliceRange};
use std::alloc::Global;
use std::process::Abort;

#[test]
fn indices_are_their_numbers(rt: HostRuntime) {
    let five: Idx<u8> = Idx::new(5);
    assert!(rt; five == Idx::new(5) && five != Idx::new(10) && five.is_valid());
    let first: Idx<u8> = Idx::new(0);
    let none: Idx<u8> = Idx::invalid();
    assert!(rt; first.is_valid() && !none.is_valid());
    let range: SliceRange<u8> = SliceRange::new(10, 5);
    assert!(rt; range.get(0) == Some(Idx::new(10)) && range.get(4) == Some(Idx::new(14)));
    assert!(rt; range.get(5) == None);
}

fn put(rt: &impl Abort, arena: &mut Arena<u32>, value: u32) -> Idx<u32> {
    assert!(rt; arena.len() < 10);
    match arena.alloc(value) {
        Ok(index) => index,
        Err(_) => panic!(rt; "no memory"),
    }
}

/// The value at an index, by either way to it.
fn at(rt: &impl Abort, arena: &Arena<u32>, index: Idx<u32>) -> u32 {
    assert!(rt; (index.raw() as usize) < arena.len());
    assert!(rt; arena[index] == *arena.get(index));
    arena[index]
}

#[test]
fn an_arena_gives_back_what_was_put(rt: HostRuntime) {
    let Ok(mut arena) = Arena::with_capacity(rt.alloc(), 2) else {
        panic!(rt; "no memory");
    };
    let first = put(&rt, &mut arena, 42);
    let second = put(&rt, &mut arena, 100);
    assert!(rt; at(&rt, &arena, first) == 42);
    assert!(rt; at(&rt, &arena, second) == 100);
    assert!(rt; arena.len() == 2);
}

/// Puts five values at once.
fn put_five(rt: &impl Abort, arena: &mut Arena<u32>) -> SliceRange<u32> {
    assert!(rt; arena.len() < 10);
    match arena.alloc_extend([1, 2, 3, 4, 5]) {
        Ok(range) => range,
        Err(_) => panic!(rt; "no memory"),
    }
}

/// Whether the slice of a range has these values.
fn has_at(rt: &impl Abort, arena: &Arena<u32>, range: SliceRange<u32>, want: &[u32]) -> bool {
    assert!(rt; (range.start() as usize) + (range.len() as usize) <= arena.len());
    arena.get_slice(range) == want
}

#[test]
fn an_arena_takes_many_values(rt: HostRuntime) {
    let mut arena = Arena::new(rt.alloc());
    let range = put_five(&rt, &mut arena);
    assert!(rt; range.len() == 5);
    assert!(rt; has_at(&rt, &arena, range, &[1, 2, 3, 4, 5]));
}

fn bits(rt: &impl Abort, alloc: Global, count: usize) -> ISet {
    match ISet::new(alloc, count) {
        Ok(bits) => bits,
        Err(_) => panic!(rt; "no memory"),
    }
}

fn set(rt: &impl Abort, bits: &mut ISet, index: usize) {
    assert!(rt; index < bits.capacity());
    bits.set(index);
}

fn has(rt: &impl Abort, bits: &ISet, index: usize) -> bool {
    assert!(rt; index < bits.capacity());
    bits.get(index)
}

fn has_all(rt: &impl Abort, bits: &ISet, count: usize) -> bool {
    assert!(rt; count <= bits.capacity());
    bits.all_set(count)
}

/// Forgets an index, and then takes all below the count.
fn forget_and_set_all(rt: &impl Abort, bits: &mut ISet, index: usize, count: usize) {
    assert!(rt; index < bits.capacity() && count <= bits.capacity());
    bits.unset(index);
    assert!(rt; !bits.get(index));
    bits.set_all(count);
}

#[test]
fn bit_sets_cross_their_words(rt: HostRuntime) {
    let mut all = bits(&rt, rt.alloc(), 65);
    for index in 0..65usize {
        assert!(rt; !has(&rt, &all, index));
        set(&rt, &mut all, index);
    }
    assert!(rt; has_all(&rt, &all, 65) && !has_all(&rt, &all, 66));
    let mut three = bits(&rt, rt.alloc(), 100);
    for index in [0, 64, 99] {
        set(&rt, &mut three, index);
    }
    assert!(rt; has(&rt, &three, 0) && has(&rt, &three, 64) && has(&rt, &three, 99));
    forget_and_set_all(&rt, &mut three, 0, 100);
    assert!(rt; has_all(&rt, &three, 100) && !has(&rt, &three, 100));
}

fn add(rt: &impl Abort, rope: &mut ListRope<u32>, item: u32) {
    let pushed = rope.push(item);
    assert!(rt; pushed.is_ok());
}

fn mark(rt: &impl Abort, rope: &mut ListRope<u32>) {
    assert!(rt; rope.initialized_count() < rope.len());
    rope.mark_last_initialized();
}

/// Drains a rope whose items are all marked, and returns how many came, each one more than the one
/// before.
fn drain(rt: &impl Abort, rope: &mut ListRope<u32>) -> u32 {
    assert!(rt; rope.initialized_count() == rope.len());
    let mut next = 0u32;
    rope.drain_into(|item| {
        if item == next {
            next = next.wrapping_add(1);
        }
    });
    next
}

#[test]
fn a_rope_drains_in_order(rt: HostRuntime) {
    let mut rope = ListRope::with_chunk_capacity(rt.alloc(), 4);
    for item in 0..10u32 {
        add(&rt, &mut rope, item);
        mark(&rt, &mut rope);
    }
    assert!(rt; rope.chunk_count() == 3);
    assert!(rt; drain(&rt, &mut rope) == 10);
    assert!(rt; rope.is_empty() && rope.chunk_count() == 0);
}

/// How many items a rope shows, and their sum.
fn shown(rope: &ListRope<u32>) -> (u32, u32) {
    let (mut count, mut sum) = (0u32, 0u32);
    for item in rope.iter_initialized() {
        count = count.wrapping_add(1);
        sum = sum.wrapping_add(*item);
    }
    (count, sum)
}

#[test]
fn a_rope_shows_its_marked_items(rt: HostRuntime) {
    let mut rope = ListRope::new(rt.alloc());
    add(&rt, &mut rope, 7);
    add(&rt, &mut rope, 8);
    add(&rt, &mut rope, 9);
    assert!(rt; rope.len() == 3 && rope.initialized_count() == 0);
    mark(&rt, &mut rope);
    mark(&rt, &mut rope);
    assert!(rt; shown(&rope) == (2, 15));
    assert!(rt; rope.len() == 3);
}
