//! Wrappers and proxies by hooks of one's own: whole scripts in both modes.
use super::own_scripts::check_counted;
use std::alloc::Global;
use std::process::Abort;

/// A number; an opaque; two of these; and shapes that hooks of each number make of such a pair,
/// through proxies and as wrappers.
const SHAPES: &str = r#"{"shapes":[
    {"name":"u32","def":"u32"},
    {"name":"Res","def":"opaque"},
    {"name":"Two","def":{"struct":[{"name":"a","shape":1},{"name":"b","shape":1}]}},
    {"name":"Kept","def":"opaque","proxy":{"source":2,"convert":0}},
    {"name":"Refused","def":"opaque","proxy":{"source":2,"convert":1}},
    {"name":"Starved","def":"opaque","proxy":{"source":2,"convert":2}},
    {"name":"Unconverted","def":"opaque","proxy":{"source":2,"convert":3}},
    {"name":"KeptInner","def":"opaque","builder":2,"convert":0},
    {"name":"RefusedInner","def":"opaque","builder":2,"convert":1},
    {"name":"StarvedInner","def":"opaque","builder":2,"convert":2},
    {"name":"UnconvertedInner","def":"opaque","builder":2,"convert":3}
],"#;

const FROM_SHAPE: &str = "begin_custom_deserialization_from_shape";

/// What is made of two tokens at a shape by a call, after how many calls in strict mode, and how
/// often each of the two was released.
const CONVERTED: [(u32, &str, u32, &str, (u32, u32)); 8] = [
    (3, FROM_SHAPE, 3, r#"{"t":1}"#, (1, 0)),
    (4, FROM_SHAPE, 2, "CustomDeserializationError", (1, 1)),
    (5, FROM_SHAPE, 2, "OutOfMemory", (1, 1)),
    (6, FROM_SHAPE, 2, "CustomDeserializationError", (1, 1)),
    (7, "begin_inner", 3, r#"{"t":1}"#, (1, 0)),
    (8, "begin_inner", 2, "Generic", (1, 1)),
    (9, "begin_inner", 2, "OutOfMemory", (1, 1)),
    (10, "begin_inner", 2, "UnsupportedSourceType", (1, 1)),
];

/// A script over a root of this shape that enters its source by a call, puts two tokens there and
/// leaves it, with these commands around.
fn script(
    rt: &impl Abort,
    alloc: Global,
    (root, call): (u32, &str),
    (before, after): (&str, &str),
) -> String {
    match format!(in alloc;
        "\"root\":{root},\"tokens\":2,\"commands\":[{before}[\"{call}\"],[\"set\",2,[{{\"t\":0}},{{\"t\":1}}]],[\"end\"]{after}]}}"
    ) {
        Ok(script) => script,
        Err(_) => panic!(rt; "no memory"),
    }
}

/// In strict mode as the source ends, in deferred mode as that mode does.
#[test]
fn scripts_convert_by_hooks(rt: HostRuntime) {
    for (root, call, calls, want, (first, second)) in CONVERTED {
        let strict = script(&rt, rt.alloc(), (root, call), ("", ""));
        check_counted(&rt, SHAPES, strict.as_str(), calls, want, &[first, second]);
        let modes = (r#"["begin_deferred"],"#, r#",["finish_deferred"]"#);
        let deferred = script(&rt, rt.alloc(), (root, call), modes);
        let calls = calls.saturating_add(2);
        check_counted(
            &rt,
            SHAPES,
            deferred.as_str(),
            calls,
            want,
            &[first, second],
        );
    }
}
