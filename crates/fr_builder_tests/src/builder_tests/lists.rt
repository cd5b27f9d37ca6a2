//! Long lists, item by item.
use super::bench::{built, start};
use super::calls::{after, repeated};
use super::grounds::{Ground, ground_of};
use fr_shape::Value;
use std::process::Abort;

/// A byte, and a list of bytes.
const LIST: &str = r#"{"shapes":[
    {"name":"u8","def":"u8"},
    {"name":"bytes","def":{"list":0}}
],"root":1,"commands":[]}"#;

/// A list that is begun and ended by these calls is built, with 100,000 items between them, the last
/// of which is 7.
fn check_list(rt: &(impl Abort + AllocGlobal), ground: &Ground, begin: &str, end: &str) {
    let list = after(rt, start(rt, rt.alloc(), ground, 1), begin);
    let list = repeated(rt, list, "item num:7 e", 100_000);
    let built = built(rt, after(rt, list, end));
    let Value::List(items) = built.value() else {
        panic!(rt; "no list");
    };
    assert!(rt; items.len() == 100_000);
    assert!(rt; matches!(items.get(99_999), Some(Value::Nat(7))));
}

#[test]
fn a_list_takes_100_000_items_in_either_mode(rt: HostRuntime) {
    let ground = ground_of(&rt, LIST);
    check_list(&rt, &ground, "list", "");
    check_list(&rt, &ground, "bd list", "fd");
}
