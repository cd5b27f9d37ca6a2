//! Options and pointers, one in another.
use super::bench::{built, start};
use super::calls::{after, repeated};
use super::grounds::ground_of;
use fr_shape::Value;
use std::process::Abort;

/// A number; an option of pointers to itself; and the pointer.
const CONTENTS: &str = r#"{"shapes":[
    {"name":"u32","def":"u32"},
    {"name":"Link","def":{"option":2},"preset":null},
    {"name":"Boxed","def":{"pointer":{"known":"Box","pointee":1}}}
],"root":1,"commands":[]}"#;

/// So many options in one another, each a pointer to the next, and the last of them empty.
fn check_depth(rt: &impl Abort, value: &Value, depth: u32) {
    let mut here = value;
    for level in 0..depth {
        let Value::Some(pointer) = here else {
            panic!(rt; "no option at {level}");
        };
        let Value::Ptr(content) = &**pointer else {
            panic!(rt; "no pointer at {level}");
        };
        here = &**content;
    }
    assert!(rt; matches!(here, Value::None));
}

/// An option in a pointer in an option, 1,000 levels deep.
#[test]
fn builds_a_deep_value(rt: HostRuntime) {
    let ground = ground_of(&rt, CONTENTS);
    let bench = start(&rt, rt.alloc(), &ground, 1);
    let bench = after(&rt, repeated(&rt, bench, "some ptr", 500), "def");
    let built = built(&rt, repeated(&rt, bench, "e e", 500));
    assert!(rt; built.calls() == 2001);
    check_depth(&rt, built.value(), 500);
}
