//! Whole runs over documents in memory.
use crate::documents::{PIECE, check_run, check_tables};

/// A struct of a text and a struct of two numbers, built in the order of its fields.
const NESTED: &str = r#"{"shapes":[
    {"name":"u32","def":"u32"},
    {"name":"String","def":"String"},
    {"name":"Inner","def":{"struct":[{"name":"x","shape":0},{"name":"b","shape":0}]}},
    {"name":"Outer","def":{"struct":[{"name":"name","shape":1},{"name":"inner","shape":2}]}}
],"root":3,"commands":[
    ["begin_nth_field",0],["set",1,"Hello, world!"],["end"],
    ["begin_nth_field",1],["begin_nth_field",0],["set",0,42],["end"],
    ["begin_nth_field",1],["set",0,43],["end"],["end"]
]}"#;

const NESTED_BUILT: &str = r#"
    # a nested struct is built

    = 0 {"ok":["Hello, world!",[42,43]],"released":[]}
"#;

/// The shapes u32, Res (opaque), Cell (a Res and a u32) and Pair (two Cells), before the root.
pub(crate) const CELLS: &str = r#"{"shapes":[
    {"name":"u32","def":"u32"},
    {"name":"Res","def":"opaque"},
    {"name":"Cell","def":{"struct":[{"name":"a","shape":1},{"name":"k","shape":0}]}},
    {"name":"Pair","def":{"struct":[{"name":"p","shape":2},{"name":"q","shape":2}]}}
],"#;

/// Scripts over the cells, from the root on, with what is reported on each.
const SCRIPTS: &str = r#"
    # a cell that is set twice keeps the second value and releases the first token
    "root":2,"tokens":2,"commands":[["set",2,[{"t":0},1]],["set",2,[{"t":1},2]]]}
    = 0 {"ok":[{"t":1},2],"released":[0]}
    # a builder that is left open is refused at build
    "root":3,"tokens":1,"commands":[
        ["begin_nth_field",0],["begin_nth_field",0],["set",1,{"t":0}],["end"],
        ["begin_nth_field",1],["set",0,5],["end"]
    ]}
    = 1 {"error":{"command":7,"detail":"build() called but more than one frame is on the stack",
        "kind":"InvariantViolation","path":"p"},"released":[0]}
    # a field that is entered again keeps what it holds
    "root":2,"tokens":1,"commands":[
        ["set",2,[{"t":0},1]],["begin_nth_field",1],["set",0,9],["end"],
        ["begin_nth_field",0],["end"]
    ]}
    = 0 {"ok":[{"t":0},9],"released":[]}
    # a value of another shape
    "root":3,"tokens":2,"commands":[
        ["begin_nth_field",0],["set",1,{"t":0}],["begin_nth_field",0],["set",1,{"t":1}]
    ]}
    = 1 {"error":{"command":1,"detail":"expected Cell, got Res","kind":"WrongShape","path":"p"},"released":[0,1]}
    # a refusal far down releases what stands above and what was to come
    "root":3,"tokens":3,"commands":[
        ["begin_nth_field",0],["begin_nth_field",0],["set",1,{"t":0}],["end"],["end"],
        ["begin_nth_field",1],["set",2,[{"t":2},7]],["set",1,{"t":1}]
    ]}
    = 1 {"error":{"command":4,"detail":"k","kind":"UninitializedField","path":"p"},"released":[0,1,2]}
    # an end at the root
    "root":2,"tokens":1,"commands":[["set",2,[{"t":0},1]],["end"]]}
    = 1 {"error":{"command":1,"detail":"Partial::end() called with only one frame on the stack",
        "kind":"InvariantViolation","path":""},"released":[0]}
    # a field past the last
    "root":2,"tokens":1,"commands":[["set",2,[{"t":0},1]],["begin_nth_field",2]]}
    = 1 {"error":{"command":1,"detail":"field index out of bounds","kind":"OperationFailed","path":""},"released":[0]}
    # a field of an opaque value
    "root":2,"tokens":1,"commands":[["begin_nth_field",0],["set",1,{"t":0}],["begin_nth_field",0]]}
    = 1 {"error":{"command":2,"detail":"cannot select a field from an opaque type",
        "kind":"OperationFailed","path":"a"},"released":[0]}
    # a field of a number
    "root":2,"tokens":1,"commands":[
        ["begin_nth_field",0],["set",1,{"t":0}],["end"],["begin_nth_field",1],["begin_nth_field",0]
    ]}
    = 1 {"error":{"command":4,"detail":"cannot select a field from this type",
        "kind":"OperationFailed","path":"k"},"released":[0]}
    # a value that was only entered
    "root":2,"tokens":1,"commands":[
        ["begin_nth_field",0],["set",1,{"t":0}],["end"],["begin_nth_field",1],["end"]
    ]}
    = 1 {"error":{"command":4,"detail":"u32","kind":"UninitializedValue","path":"k"},"released":[0]}
    # a root of which a field is missing
    "root":2,"tokens":1,"commands":[["begin_nth_field",0],["set",1,{"t":0}],["end"]]}
    = 1 {"error":{"command":3,"detail":"k","kind":"UninitializedField","path":""},"released":[0]}
    # no commands
    "root":2,"commands":[]}
    = 1 {"error":{"command":0,"detail":"a","kind":"UninitializedField","path":""},"released":[]}
    # a token that comes twice
    "root":2,"tokens":1,"commands":[["set",2,[{"t":0},1]],["set",2,[{"t":0},2]]]}
    = 2 {"command":1,"fault":"Invalid"}
    # a value that doesn't fit its shape
    "root":2,"tokens":0,"commands":[["set",2,[1,1]]]}
    = 2 {"command":0,"fault":"Invalid"}
"#;

/// Documents at fault, with what is reported on each; and one that is at a limit.
const FAULTS: &str = r#"
    # no bytes

    = 2 {"fault":"NotJson"}
    # a float
    {"shapes":[],"root":1.5,"commands":[]}
    = 2 {"fault":"HasFloat"}
    # no object
    []
    = 2 {"fault":"BadForm","place":"document"}
    # an unknown key
    {"shapes":[],"root":0,"commands":[],"x":0}
    = 2 {"fault":"BadForm","place":"document"}
    # shapes that are no array
    {"shapes":0,"root":0,"commands":[]}
    = 2 {"fault":"BadForm","place":"shapes"}
    # a shape that is broken, behind one that breaks a rule
    {"shapes":[{"name":"a","def":"u32","convert":0},{"name":"b","def":0}],"root":0,"commands":[]}
    = 2 {"fault":"BadForm","place":"shape 1"}
    # a root past the shapes
    {"shapes":[],"root":0,"commands":[]}
    = 2 {"fault":"BadForm","place":"root"}
    # a negative number of tokens
    {"shapes":[{"name":"a","def":"u32"}],"root":0,"tokens":-1,"commands":[]}
    = 2 {"fault":"BadForm","place":"tokens"}
    # commands that are no array
    {"shapes":[{"name":"a","def":"u32"}],"root":0,"commands":{}}
    = 2 {"fault":"BadForm","place":"commands"}
    # the first of three broken commands
    {"shapes":[
        {"name":"a","def":"u32"}
    ],"root":0,"commands":[["end"],["init_list_with_capacity",-1],["ends"],["end",0]]}
    = 2 {"fault":"BadForm","place":"command 1"}
    # a byte beyond 255
    {"shapes":[
        {"name":"a","def":"u32"}
    ],"root":0,"commands":[["parse_from_bytes",[0,255]],["parse_from_bytes",[0,256]]]}
    = 2 {"fault":"BadForm","place":"command 1"}
    # as many tokens as there may be
    {"shapes":[{"name":"b","def":"u32"}],"root":0,"tokens":1000000,"commands":[]}
    = 1 {"error":{"command":0,"detail":"b","kind":"UninitializedValue","path":""},"released":[]}
    # too many tokens
    {"shapes":[{"name":"a","def":"u32"}],"root":0,"tokens":1000001,"commands":[]}
    = 2 {"fault":"TooLarge","what":"tokens"}
    # an id past the shapes
    {"shapes":[{"name":"a","def":{"list":5}}],"root":0,"commands":[]}
    = 2 {"entry":0,"fault":"Unchecked","rule":1}
    # two shapes of one name
    {"shapes":[{"name":"a","def":"u32"},{"name":"a","def":"u32"}],"root":0,"commands":[]}
    = 2 {"entry":1,"fault":"Unchecked","rule":2}
    # a default that doesn't fit its shape
    {"shapes":[{"name":"u","def":"u8","preset":256}],"root":0,"commands":[]}
    = 2 {"entry":0,"fault":"Unchecked","rule":6}
    # an option whose default is something
    {"shapes":[
        {"name":"u","def":"u8"},
        {"name":"o","def":{"option":0},"preset":{"s":1}}
    ],"root":0,"commands":[]}
    = 2 {"entry":1,"fault":"Unchecked","rule":9}
    # an id past the shapes in a set
    {"shapes":[{"name":"a","def":"u32"}],"root":0,"commands":[["end"],["set",1,0]]}
    = 2 {"command":1,"fault":"Invalid"}
"#;

#[test]
fn scripts_and_faults_of_documents_are_reported(rt: HostRuntime) {
    let tables = [
        (NESTED, 1, NESTED_BUILT),
        (CELLS, 14, SCRIPTS),
        ("", 18, FAULTS),
    ];
    check_tables(&rt, &tables);
}

#[test]
fn other_words_cut_texts_and_failing_devices_are_told(rt: HostRuntime) {
    let usage = "usage: build | plan | gen N\n";
    check_run(&rt, ("other words", "bild"), b"", (0, PIECE, 0), (3, usage));
    let input = NESTED.as_bytes();
    let Some((_, front)) = input.split_last() else {
        panic!(rt; "no bytes");
    };
    let cut = "{\"fault\":\"NotJson\"}\n";
    check_run(
        &rt,
        ("a text that is cut", "build"),
        front,
        (0, PIECE, 0),
        (2, cut),
    );
    check_run(
        &rt,
        ("a sink that fails", "build"),
        input,
        (0, 4, 2),
        (5, "{\"ok"),
    );
    check_run(
        &rt,
        ("a source that fails", "build"),
        input,
        (1, PIECE, 0),
        (4, ""),
    );
}
