//! Whether the structs in a value keep their invariants.
use crate::texts::{table_of, value_of};
use fr_doc::DocHooks;
use fr_shape::{ShapeId, keeps_invariants};

/// A number, a point of which no number may be below 0, a wrapper of points, and shapes around
/// them. No value passes what the option and the enum name, and nothing asks it.
const SHAPES: &str = r#"[
    {"name":"0","def":"i32"},
    {"name":"1","def":{"struct":[{"name":"x","shape":0},{"name":"y","shape":0}]},"invariant":3},
    {"name":"2","def":"other","inner":1},
    {"name":"3","def":{"struct":[{"name":"point","shape":1}]}},
    {"name":"4","def":{"option":1},"invariant":2},
    {"name":"5","def":{"map":[1,2]}},
    {"name":"6","def":{"enum":{"repr":"U8","variants":[
        {"name":"A","kind":"tuple","fields":[{"name":"0","shape":1}]}
    ]}},"invariant":2},
    {"name":"7","def":{"array":[1,2]}}
]"#;

#[test]
fn each_struct_is_asked_and_nothing_else(rt: HostRuntime) {
    let table = table_of(&rt, rt.alloc(), SHAPES);
    for (id, text, want) in [
        (1, r#"[{"i":10},{"i":20}]"#, true),
        (1, r#"[{"i":-10},{"i":20}]"#, false),
        (2, r#"[{"i":10},{"i":-20}]"#, false),
        (3, r#"[[{"i":10},{"i":20}]]"#, true),
        (3, r#"[[{"i":10},{"i":-20}]]"#, false),
        (4, "null", true),
        (4, r#"{"s":[{"i":1},{"i":2}]}"#, true),
        (4, r#"{"s":[{"i":1},{"i":-2}]}"#, false),
        (5, r#"{"m":[[[{"i":1},{"i":0}],[{"i":0},{"i":1}]]]}"#, true),
        (
            5,
            r#"{"m":[[[{"i":-1},{"i":0}],[{"i":0},{"i":1}]]]}"#,
            false,
        ),
        (
            5,
            r#"{"m":[[[{"i":1},{"i":0}],[{"i":0},{"i":-1}]]]}"#,
            false,
        ),
        (6, r#"{"v":[0,[[{"i":1},{"i":2}]]]}"#, true),
        (7, r#"[[{"i":1},{"i":2}],[{"i":3},{"i":-4}]]"#, false),
    ] {
        let value = value_of(&rt, rt.alloc(), text);
        assert!(rt;
            keeps_invariants(&table, &DocHooks, ShapeId(id), &value) == want,
            "{text}"
        );
    }
}
