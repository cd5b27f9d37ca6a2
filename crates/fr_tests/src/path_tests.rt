//! The text of paths over one table of shapes. What finds no memory ends the test.
use crate::texts::{cut, number, table_of};
use fr_path::{Path, PathStep};
use fr_shape::{ShapeId, ShapeTable, Text};
use std::alloc::Global;
use std::process::Abort;

/// The shapes 0 to 4: the struct of `id` and `xs`, u8, a list of options, an option of the struct,
/// an enum whose variant has one field, a struct again. The shapes 5 to 14: an array, a result, a
/// map, a set, a box, a boxed slice, the slice, a dynamic value, a pointer that can't be built, and
/// a pointer of no known kind to the slice; each leads to the struct. The shapes 15 to 18: an opaque
/// shape whose builder is the struct and that wraps a u8, and around the struct a wrapper that
/// converts, an option that converts, and a wrapper that doesn't. The shapes 19 to 22: arrays of the
/// struct with no element, with one, with as many as can be entered, and with one more.
const SHAPES: &str = r#"[
    {"name":"0","def":{"struct":[
        {"name":"id","rename":"renamed","shape":1},{"name":"xs","rename":"again","shape":2}
    ]}},
    {"name":"1","def":"u8"},
    {"name":"2","def":{"list":3}},
    {"name":"3","def":{"option":0}},
    {"name":"4","def":{"enum":{"repr":"U8","variants":[
        {"name":"variant","fields":[{"name":"part","rename":"renamed","shape":0}]}
    ]}}},
    {"name":"5","def":{"array":[0,8]}},
    {"name":"6","def":{"result":[0,3]}},
    {"name":"7","def":{"map":[0,3]}},
    {"name":"8","def":{"set":0}},
    {"name":"9","def":{"pointer":{"known":"Box","pointee":0}}},
    {"name":"10","def":{"pointer":{"known":"Box","pointee":11}}},
    {"name":"11","def":{"slice":0}},
    {"name":"12","def":"dynamic"},
    {"name":"13","def":{"pointer":{"known":"Box","pointee":0,"constructible":false}}},
    {"name":"14","def":{"pointer":{"pointee":11}}},
    {"name":"15","def":"opaque","convert":0,"inner":1,"builder":0},
    {"name":"16","def":"other","convert":0,"inner":0},
    {"name":"17","def":{"option":0},"convert":0,"inner":0},
    {"name":"18","def":"other","inner":0},
    {"name":"19","def":{"array":[0,0]}},
    {"name":"20","def":{"array":[0,1]}},
    {"name":"21","def":{"array":[0,4096]}},
    {"name":"22","def":{"array":[0,4097]}}
]"#;

/// Of each row the root, the steps, and the path's text. The letters f, i, k and v lead to a field, an
/// index, a map's key and its value of a number, and `entry` to that of the key `a b`. First each kind
/// of step, from a place that can have it: the shape after it shows in the field's name. Then a
/// variant's field, a field that isn't there, a proxy, and steps that the place can't have, after which
/// fields are numbered.
const ROWS: &str = r#"
    0; ;
    0; f:1 i:2 some; xs[2]::some
    3; some f:1; ::some.xs
    5; i:3 f:0; [3].id
    6; ok f:0; ::ok.id
    6; err some f:0; ::err::some.id
    7; k:4 f:1; [key 4].xs
    7; v:5 some f:1; [value 5]::some.xs
    8; item f:0; [item].id
    9; deref f:1; ::deref.xs
    10; i:7 f:1; [7].xs
    12; entry i:0; [a b][0]
    15; inner f:1; ::inner.xs
    16; inner f:1; ::inner.xs
    17; some f:1; ::some.xs
    20; i:1 f:1; [1].xs
    21; i:4096 f:1; [4096].xs
    4; f:0 f:1; 0.1
    0; f:2 f:1; 2.1
    0; f:0 f:1 f:0; id.1.0
    0; proxy f:1; ::proxy.1
    0; deref f:1; ::deref.1
    5; item f:1; [item].1
    9; i:0 f:1; [0].1
    10; deref i:0 f:1; ::deref[0].1
    13; deref f:1; ::deref.1
    14; i:0 f:1; [0].1
    17; inner f:1; ::inner.1
    18; inner f:1; ::inner.1
    19; i:0 f:1; [0].1
    22; i:0 f:1; [0].1
"#;

const ROW_COUNT: usize = 31;

/// The step that a word tells.
fn step_of(rt: &impl Abort, alloc: Global, word: &str) -> PathStep {
    match word {
        "some" => return PathStep::OptionSome,
        "ok" => return PathStep::ResultOk,
        "err" => return PathStep::ResultErr,
        "item" => return PathStep::SetItem,
        "deref" => return PathStep::Deref,
        "inner" => return PathStep::Inner,
        "proxy" => return PathStep::Proxy,
        "entry" => match Text::new(alloc, "a b") {
            Ok(key) => return PathStep::Entry(key),
            Err(_) => panic!(rt; "no memory"),
        },
        _ => (),
    }
    let (letter, given) = cut(rt, word, ":");
    let number = number(rt, given);
    match letter {
        "f" => PathStep::Field(number),
        "i" => PathStep::Index(number),
        "k" => PathStep::MapKey(number),
        "v" => PathStep::MapValue(number),
        _ => panic!(rt; "no step: {word}"),
    }
}

fn push(rt: &impl Abort, path: &mut Path, step: PathStep) {
    let pushed = path.push(step);
    assert!(rt; pushed.is_ok());
}

/// Ends the test where the path of a row has another text than is wanted.
fn check_row(rt: &impl Abort, alloc: Global, table: &ShapeTable, row: &str) {
    let (root, row) = cut(rt, row, ";");
    let (steps, want) = cut(rt, row, ";");
    let mut path = Path::new(alloc);
    for word in steps.split(' ') {
        if !word.is_empty() {
            push(rt, &mut path, step_of(rt, alloc, word));
        }
    }
    match path.format_with_shape(alloc, table, ShapeId(number(rt, root))) {
        Ok(text) => assert!(rt; text.as_str() == want, "{want} at shape {root}"),
        Err(_) => panic!(rt; "no memory"),
    }
}

#[test]
fn fields_have_names_while_shapes_are_known(rt: HostRuntime) {
    let table = table_of(&rt, rt.alloc(), SHAPES);
    assert!(rt; table.len() == 23);
    let mut found = 0usize;
    for row in ROWS.trim().lines() {
        check_row(&rt, rt.alloc(), &table, row.trim());
        found = found.saturating_add(1);
    }
    assert!(rt; found == ROW_COUNT);
}
