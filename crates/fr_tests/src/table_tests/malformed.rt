//! Tables that break one rule each, and where `check` finds it.
use crate::texts::table_of;
use std::alloc::Global;
use std::process::Abort;

/// What is wrong with a table, its shapes, and the number of the rule and of the shape.
const BROKEN: [(&str, &str, u32, u32); 9] = [
    ("names no shape", r#"[{"name":"a","def":{"list":5}}]"#, 1, 0),
    (
        "has a name twice",
        r#"[{"name":"u32","def":"u32"},{"name":"u32","def":"u32"}]"#,
        2,
        1,
    ),
    (
        "lists what is unsized",
        r#"[{"name":"s","def":"str"},{"name":"l","def":{"list":0}}]"#,
        3,
        1,
    ),
    (
        "renames to a name",
        r#"[{"name":"e","def":{"enum":{"repr":"U8","variants":[
            {"name":"A","kind":"tuple","fields":[]},
            {"name":"B","rename":"A","kind":"tuple","fields":[]}
        ]}}}]"#,
        4,
        0,
    ),
    (
        "bounds a bool",
        r#"[{"name":"b","def":"bool"},{"name":"s","def":{"struct":[
            {"name":"field","shape":0,"validators":[{"min":1}]}
        ]}}]"#,
        5,
        1,
    ),
    (
        "presets too large a number",
        r#"[{"name":"u8","def":"u8","preset":256}]"#,
        6,
        0,
    ),
    (
        "converts from nothing",
        r#"[{"name":"u8","def":"u8","convert":0}]"#,
        7,
        0,
    ),
    (
        "names no hook",
        r#"[{"name":"u8","def":"u8","parse":65536}]"#,
        8,
        0,
    ),
    (
        "presets something",
        r#"[{"name":"u8","def":"u8"},{"name":"o","def":{"option":0},"preset":{"s":1}}]"#,
        9,
        1,
    ),
];

/// The number of the rule that a table breaks, and of the shape; of a table in order both are 0.
fn fault(rt: &impl Abort, alloc: Global, shapes: &str) -> (u32, u32) {
    let table = table_of(rt, alloc, shapes);
    assert!(rt; table.len() < 1000);
    match table.check() {
        Ok(()) => (0, 0),
        Err(fault) => (fault.rule as u32, fault.entry as u32),
    }
}

#[test]
fn finds_the_broken_rule(rt: HostRuntime) {
    for (name, shapes, rule, entry) in BROKEN {
        assert!(rt; fault(&rt, rt.alloc(), shapes) == (rule, entry), "{name}");
    }
}
