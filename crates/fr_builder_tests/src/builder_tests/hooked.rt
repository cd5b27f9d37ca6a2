//! Parsing, validators and invariants by hooks of one's own, call by call.
use super::bench::{holding, start};
use super::calls::{check_calls, cut, number};
use super::grounds::{Ground, ground_of};
use std::process::Abort;

/// A byte; an opaque; a text; shapes that hooks of each number parse; a struct of a number that is
/// at most 9; a struct of an opaque, such a struct and such a number; a struct that never holds; and
/// one that holds.
const HOOKED: &str = r#"{"shapes":[
    {"name":"u8","def":"u8"},
    {"name":"Res","def":"opaque"},
    {"name":"String","def":"String"},
    {"name":"Given","def":{"option":1},"parse":0,"parse_bytes":0},
    {"name":"Refused","def":"u8","parse":1,"parse_bytes":1},
    {"name":"Starved","def":"u8","parse":2,"parse_bytes":2},
    {"name":"Unparsed","def":"u8","parse":3,"parse_bytes":3},
    {"name":"Digit","def":{"struct":[{"name":"n","shape":0,"validators":[{"custom":2}]}]}},
    {"name":"Digits","def":{"struct":[
        {"name":"r","shape":1},
        {"name":"digit","shape":7},
        {"name":"n","shape":0,"default":{"custom":1},"validators":[{"custom":0},{"custom":2}]}
    ]}},
    {"name":"Broken","def":{"struct":[{"name":"r","shape":1}]},"invariant":1},
    {"name":"Sound","def":{"struct":[{"name":"r","shape":1}]},"invariant":0}
],"root":0,"commands":[]}"#;

/// In each row: the field into which the builder has put its token before the calls, if any, and the
/// root's shape; the calls; how often the token is released; and the value that is built, or the
/// refusal. A field is checked as it ends, of what was left and of the place at which the builder
/// works as deferred mode ends, and of the root as it is built.
const ROWS: &str = r#"
    - 0; parse:+0255; 0; 255
    - 0; parse:256; 0; ParseFailed
    - 0; bytes:7; 0; Type does not support parsing from bytes
    - 1; parse:256; 0; Type does not support parsing from string
    - 1; bytes:7; 0; Type does not support parsing from bytes
    - 2; parse:é; 0; "é"
    - 3; parse:é; 0; null
    - 3; bytes:é; 0; null
    - 4; parse:256; 0; ParseFailed
    - 4; bytes:7; 0; Failed to parse bytes value
    - 5; parse:256; 0; OutOfMemory
    - 5; bytes:7; 0; OutOfMemory
    - 6; parse:256; 0; Type does not support parsing from string
    - 6; bytes:7; 0; Type does not support parsing from bytes
    r 8; e f:digit f:n num:9 e e; 0; [{"t":0},[9],1]
    r 8; e f:digit f:n num:10 e e; 1; custom validation failed
    r 8; e bd f:digit f:n num:10 e e f:n num:9 e fd; 1; custom validation failed
    r 8; e bd f:digit f:n num:9 e e f:n num:10 e fd; 1; custom validation failed
    r 8; e f:digit f:n num:9 e e f:n num:10 e; 1; custom validation failed
    r 9; e; 1; a type invariant does not hold
    r 10; e; 0; [{"t":0}]
"#;

/// How many rows there are.
const ROW_COUNT: usize = 21;

/// Makes a row's calls, and checks what they come to.
fn check_row(rt: &(impl Abort + AllocGlobal), ground: &Ground, row: &str) {
    let (start_at, row) = cut(rt, row, ";");
    let (calls, row) = cut(rt, row, ";");
    let (released, want) = cut(rt, row, ";");
    let (field, root) = cut(rt, start_at, " ");
    let root = number(rt, root);
    let bench = if field == "-" {
        start(rt, rt.alloc(), ground, root)
    } else {
        holding(rt, ground, root, field)
    };
    check_calls(rt, bench, calls, want, number(rt, released));
}

#[test]
fn hooks_give_values_and_refuse_them(rt: HostRuntime) {
    let ground = ground_of(&rt, HOOKED);
    let mut found = 0usize;
    for row in ROWS.lines() {
        if !row.is_empty() {
            check_row(&rt, &ground, row);
            found = found.saturating_add(1);
        }
    }
    assert!(rt; found == ROW_COUNT);
}
