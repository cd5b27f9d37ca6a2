//! For each definition values that fit it and values that don't.
use crate::texts::{cut, number, table_of, value_of};
use fr_shape::{ShapeId, ShapeTable, Value, fits};
use std::alloc::Global;
use std::process::Abort;

/// The shapes 0 to 13: the scalars, what holds a text or a token, and three wrappers, of which one
/// leads to u8, one ends and one comes round. The shapes 14 to 23: a struct of u8 and bool, an enum
/// with and without a u8, and each other kind over u8.
const SHAPES: &str = r#"[
    {"name":"0","def":"bool"},
    {"name":"1","def":"i8"},
    {"name":"2","def":"u8"},
    {"name":"3","def":"String"},
    {"name":"4","def":"str"},
    {"name":"5","def":"opaque"},
    {"name":"6","def":{"pointer":{}}},
    {"name":"7","def":"other","inner":2},
    {"name":"8","def":"other"},
    {"name":"9","def":"other","inner":9},
    {"name":"10","def":"char"},
    {"name":"11","def":"CowStr"},
    {"name":"12","def":"undefined"},
    {"name":"13","def":"dynamic"},
    {"name":"14","def":{"tuple":[{"name":"0","shape":2},{"name":"1","shape":0}]}},
    {"name":"15","def":{"enum":{"repr":"U8","variants":[
        {"name":"A","kind":"tuple","fields":[]},
        {"name":"B","kind":"tuple","fields":[{"name":"0","shape":2}]}
    ]}}},
    {"name":"16","def":{"option":2}},
    {"name":"17","def":{"result":[2,0]}},
    {"name":"18","def":{"list":2}},
    {"name":"19","def":{"slice":2}},
    {"name":"20","def":{"set":2}},
    {"name":"21","def":{"map":[2,0]}},
    {"name":"22","def":{"array":[2,2]}},
    {"name":"23","def":{"pointer":{"pointee":2}}}
]"#;

/// Of each row a shape's number, and a value that fits it or doesn't.
const ROWS: &str = r#"
    0 is true
    0 not 1
    1 not {"i":-129}
    1 is {"i":-128}
    1 is {"i":127}
    1 not {"i":128}
    1 not 0
    2 is 0
    2 is 255
    2 not 256
    2 not {"i":0}
    3 is "word"
    3 not {"c":"a"}
    4 is "word"
    4 not true
    5 is {"t":1}
    5 not 0
    6 is {"t":1}
    6 not {"p":7}
    7 is 0
    7 is 255
    7 not 256
    8 not 0
    8 not {"t":1}
    9 not 0
    10 is {"c":"a"}
    10 not "a"
    11 is "word"
    11 not null
    12 is {"t":1}
    12 not 0
    13 is {"d":{"o":[["a",null],["b",null]]}}
    13 not {"d":{"o":[["a",null],["b",null],["a",null]]}}
    13 not null
    14 is [7,true]
    14 not [7,7]
    14 not [7]
    15 is {"v":[0,[]]}
    15 is {"v":[1,[7]]}
    15 not {"v":[0,[7]]}
    15 not {"v":[2,[]]}
    16 is null
    16 is {"s":7}
    16 not {"s":256}
    16 not {"ok":7}
    17 is {"ok":7}
    17 not {"ok":true}
    17 is {"err":true}
    17 not {"err":7}
    17 not null
    18 is {"l":[7,7]}
    18 not {"l":[7,256]}
    18 not {"e":[7]}
    19 is {"l":[7,7]}
    19 not {"l":[256]}
    20 is {"e":[7,8]}
    20 not {"e":[7,8,7]}
    21 is {"m":[[7,true],[8,true]]}
    21 not {"m":[[7,true],[7,true]]}
    21 not {"m":[[256,true]]}
    22 is [7,8]
    22 not [7,8,9]
    22 not [7,256]
    23 is {"p":7}
    23 not {"p":256}
    23 not {"t":1}
    24 not 0
    24 not true
    24 not "word"
    24 not {"t":1}
    24 not null
"#;

const ROW_COUNT: usize = 71;

/// Ends the test where the value of a row fits the shape otherwise than is wanted.
fn check_row(rt: &impl Abort, alloc: Global, table: &ShapeTable, row: &str) {
    let (id, row) = cut(rt, row, " ");
    let (is, text) = cut(rt, row, " ");
    let fit = fits(table, ShapeId(number(rt, id)), &value_of(rt, alloc, text));
    assert!(rt; fit == (is == "is"), "{text} at shape {id}");
}

/// The placeholder fits none.
#[test]
fn values_fit_their_shapes(rt: HostRuntime) {
    let table = table_of(&rt, rt.alloc(), SHAPES);
    assert!(rt; table.len() == 24 && !fits(&table, ShapeId(0), &Value::Unit));
    let mut found = 0usize;
    for row in ROWS.trim().lines() {
        check_row(&rt, rt.alloc(), &table, row.trim());
        found = found.saturating_add(1);
    }
    assert!(rt; found == ROW_COUNT);
}
