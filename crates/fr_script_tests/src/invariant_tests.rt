//! Invariants in large documents: far down in a value, and far along in a list.
use crate::documents::check_parts;
use std::alloc::Global;
use std::process::Abort;

/// A list of structs none of which may hold 0, up to its items.
const MANY: &str = r#"{"shapes":[
    {"name":"u32","def":"u32"},
    {"name":"NonZero","def":{"struct":[{"name":"n","shape":0}]},"invariant":0},
    {"name":"Many","def":{"list":1}}
],"root":2,"commands":[["set",2,{"l":["#;

/// What is reported where an invariant doesn't hold, but for the number of the commands.
const BROKEN: &str =
    r#","detail":"a type invariant does not hold","kind":"InvariantViolation","path":""},"released":[]}"#;

/// A number, and a thousand structs, each the only field of the next, none of which may hold one
/// below 0.
fn thousand_shapes(rt: &impl Abort, alloc: Global) -> String {
    let Ok(mut shapes) = String::from_str(alloc, r#"{"shapes":[{"name":"i32","def":"i32"}"#) else {
        panic!(rt; "no memory");
    };
    for i in 0..1_000 {
        let Ok(shape) = format!(in alloc;
            ",{{\"name\":\"S{i}\",\"def\":{{\"struct\":[{{\"name\":\"f\",\"shape\":{i}}}]}},\"invariant\":3}}"
        ) else {
            panic!(rt; "no memory");
        };
        if shapes.push_str(shape.as_str()).is_err() {
            panic!(rt; "no memory");
        }
    }
    shapes
}

/// Puts a number into the innermost of these shapes, by this command.
fn check_levels<'a>(
    rt: &(impl Abort + AllocGlobal),
    name: &str,
    (shapes, set): (&'a str, &'a str),
    status: u8,
    want: &[(&str, usize)],
) {
    let document = [
        (shapes, 1),
        (r#"],"root":1000,"commands":["#, 1),
        (r#"["begin_nth_field",0],"#, 1_000),
        (set, 1),
        (r#",["end"]"#, 1_000),
        ("]}", 1),
    ];
    check_parts(rt, name, &document, status, want);
}

#[test]
fn invariants_are_asked_far_down_and_far_along(rt: HostRuntime) {
    let shapes = thousand_shapes(&rt, rt.alloc());
    let above = (shapes.as_str(), r#"["set",0,{"i":7}]"#);
    let below = (shapes.as_str(), r#"["set",0,{"i":-7}]"#);
    let kept = [
        (r#"{"ok":"#, 1),
        ("[", 1_000),
        (r#"{"i":7}"#, 1),
        ("]", 1_000),
        (r#","released":[]}"#, 1),
    ];
    check_levels(&rt, "a number that is kept", above, 0, &kept);
    let broken = [(r#"{"error":{"command":2001"#, 1), (BROKEN, 1)];
    check_levels(&rt, "one below 0", below, 1, &broken);
    let items = [(MANY, 1), ("[1],", 60_000), ("[0]]}]]}", 1)];
    let broken = [(r#"{"error":{"command":1"#, 1), (BROKEN, 1)];
    check_parts(&rt, "the last of many items", &items, 1, &broken);
}
