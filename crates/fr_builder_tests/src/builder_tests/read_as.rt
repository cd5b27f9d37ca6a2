//! Reading what is at a place as an element of a Rust type.
use super::bench::{check_counts, give_up, ledger, start};
use super::calls::after;
use super::grounds::{Ground, ground_of};
use fr_own_hooks::OwnHooks;
use fr_partial::{Facet, Partial};
use std::alloc::Global;
use std::process::Abort;

/// A number; an option of a number; a list of numbers; and the root, with a field of each.
const SHAPES: &str = r#"{"shapes":[
    {"name":"u32","def":"u32"},
    {"name":"Opt","def":{"option":0}},
    {"name":"Nums","def":{"list":0}},
    {"name":"Root","def":{"struct":[
        {"name":"n","shape":0},
        {"name":"o","shape":1},
        {"name":"l","shape":2}
    ]}}
],"root":3,"commands":[]}"#;

/// What is read as an element of the type, into a ledger that stays as it is.
fn read<T: Facet>(rt: &impl Abort, alloc: Global, partial: &Partial<'_, OwnHooks>) -> Option<T> {
    let mut counts = ledger(rt, alloc, 1);
    match partial.read_as::<T>(&mut counts) {
        Ok(read) => {
            check_counts(rt, &counts, &[0]);
            read
        }
        Err(_) => panic!(rt; "no memory"),
    }
}

/// A field is read once it is set, as its own type alone, in the mode that these calls bring about.
fn check_field(rt: &(impl Abort + AllocGlobal), ground: &Ground, mode: &str) {
    let alloc = rt.alloc();
    let root = after(rt, start(rt, alloc, ground, 3), mode);
    let at_n = after(rt, root, "f:n");
    assert!(rt; read::<u32>(rt, alloc, &at_n.partial).is_none());
    let set = after(rt, at_n, "num:7");
    assert!(rt; matches!(read::<u32>(rt, alloc, &set.partial), Some(7)));
    assert!(rt; read::<u64>(rt, alloc, &set.partial).is_none());
    let at_o = after(rt, set, "e f:o");
    assert!(rt; read::<u32>(rt, alloc, &at_o.partial).is_none());
    give_up(rt, at_o);
}

#[test]
fn a_whole_place_is_read(rt: HostRuntime) {
    let ground = ground_of(&rt, SHAPES);
    check_field(&rt, &ground, "");
    check_field(&rt, &ground, "bd");
    let root = start(&rt, rt.alloc(), &ground, 3);
    let list = after(&rt, root, "f:l list item num:1 e item num:2 e e f:l");
    match read::<Vec<u32>>(&rt, rt.alloc(), &list.partial) {
        Some(numbers) => assert!(rt; matches!(numbers.as_slice(), [1, 2])),
        None => panic!(rt; "not read"),
    }
    give_up(&rt, list);
}
