//! Deferred mode in documents: places are left half done, entered again, overwritten and completed
//! at the end.
use crate::documents::check_tables;
use crate::row_tests::{ARRAYS, DEFAULTS, MARKED};
use crate::run_tests::CELLS;

/// The shapes u32, String, Inner (x and b) and Outer (name and inner), with Outer as the root.
const NESTED: &str = r#"{"shapes":[
    {"name":"u32","def":"u32"},
    {"name":"String","def":"String"},
    {"name":"Inner","def":{"struct":[{"name":"x","shape":0},{"name":"b","shape":0}]}},
    {"name":"Outer","def":{"struct":[{"name":"name","shape":1},{"name":"inner","shape":2}]}}
],"#;

const COMING_BACK: &str = r#"
    # a field that is left half done and entered again keeps what it has
    "root":3,"commands":[
        ["begin_deferred"],["begin_nth_field",1],["begin_nth_field",0],["set",0,42],["end"],
        ["end"],["begin_nth_field",0],["set",1,"Hello, world!"],["end"],
        ["begin_nth_field",1],["begin_nth_field",1],["set",0,43],["end"],["end"],
        ["finish_deferred"]
    ]}
    = 0 {"ok":["Hello, world!",[42,43]],"released":[]}
    # deferred mode has to end before the value is built
    "root":3,"commands":[
        ["begin_deferred"],["begin_nth_field",1],["begin_nth_field",0],["set",0,42],["end"],
        ["end"],["begin_nth_field",0],["set",1,"Hello, world!"],["end"],
        ["begin_nth_field",1],["begin_nth_field",1],["set",0,43],["end"],["end"]
    ]}
    = 1 {"error":{"command":14,"detail":"build() called but deferred mode is enabled",
        "kind":"InvariantViolation","path":""},"released":[]}
    # the deepest failing place is told, though a shallower one comes first
    "root":3,"commands":[
        ["begin_deferred"],["begin_nth_field",0],["end"],
        ["begin_nth_field",1],["begin_nth_field",1],["end"],["end"],["finish_deferred"]
    ]}
    = 1 {"error":{"command":7,"detail":"u32","kind":"UninitializedValue","path":""},"released":[]}
    # deferred mode ends where the builder works, and strict mode goes on
    "root":3,"commands":[
        ["begin_nth_field",1],["begin_deferred"],["begin_nth_field",0],["set",0,1],["end"],
        ["begin_nth_field",1],["set",0,2],["end"],["finish_deferred"],["end"],
        ["begin_nth_field",0],["set",1,"s"],["end"]
    ]}
    = 0 {"ok":["s",[1,2]],"released":[]}
    # it needn't have come back, and what is above stays open
    "root":3,"commands":[
        ["begin_deferred"],["begin_nth_field",1],["begin_nth_field",0],["set",0,1],["end"],
        ["begin_nth_field",1],["set",0,2],["finish_deferred"],["end"],["end"],
        ["begin_nth_field",0],["set",1,"s"],["end"]
    ]}
    = 0 {"ok":["s",[1,2]],"released":[]}
    # no place is left above the one at which deferred mode began
    "root":3,"commands":[["begin_nth_field",1],["begin_deferred"],["end"]]}
    = 1 {"error":{"command":2,
        "detail":"Partial::end() called but would pop below deferred start depth",
        "kind":"InvariantViolation","path":"inner"},"released":[]}
    # a hole is found at the end
    "root":3,"commands":[
        ["begin_deferred"],["begin_nth_field",1],["begin_nth_field",0],["set",0,1],["end"],
        ["end"],["finish_deferred"]
    ]}
    = 1 {"error":{"command":6,"detail":"b","kind":"UninitializedField","path":""},"released":[]}
"#;

const OVERWRITTEN: &str = r#"
    # a whole value releases what was left beneath it
    "root":3,"tokens":3,"commands":[
        ["begin_deferred"],["begin_nth_field",0],["begin_nth_field",0],["set",1,{"t":0}],
        ["end"],["end"],["set",3,[[{"t":1},1],[{"t":2},2]]],["finish_deferred"]
    ]}
    = 0 {"ok":[[{"t":1},1],[{"t":2},2]],"released":[0]}
    # a refusal releases what was left
    "root":3,"tokens":2,"commands":[
        ["begin_deferred"],["begin_nth_field",0],["begin_nth_field",0],["set",1,{"t":0}],
        ["end"],["end"],
        ["begin_nth_field",1],["begin_nth_field",0],["set",1,{"t":1}],["end"],["end"],
        ["begin_nth_field",2]
    ]}
    = 1 {"error":{"command":11,"detail":"field index out of bounds","kind":"OperationFailed","path":""},"released":[0,1]}
    # the end that fails releases all
    "root":3,"tokens":2,"commands":[
        ["begin_deferred"],["begin_nth_field",1],["set",2,[{"t":0},1]],["end"],
        ["begin_nth_field",0],["begin_nth_field",0],["set",1,{"t":1}],["end"],["end"],
        ["finish_deferred"]
    ]}
    = 1 {"error":{"command":9,"detail":"k","kind":"UninitializedField","path":""},"released":[0,1]}
"#;

const FILLED_AT_THE_END: &str = r#"
    # the end fills a list that has a default
    "root":3,"commands":[["begin_deferred"],["finish_deferred"]]}
    = 0 {"ok":[{"l":[]}],"released":[]}
    # it doesn't fill a struct without fields
    "root":4,"commands":[["begin_deferred"],["begin_nth_field",1],["set",0,1],["end"],["finish_deferred"]]}
    = 1 {"error":{"command":4,"detail":"e","kind":"UninitializedField","path":""},"released":[]}
    # which is whole as soon as it is entered
    "root":4,"commands":[
        ["begin_deferred"],["begin_nth_field",0],["end"],
        ["begin_nth_field",1],["set",0,1],["end"],["finish_deferred"]
    ]}
    = 0 {"ok":[[],1],"released":[]}
"#;

const MARKED_AT_THE_END: &str = r#"
    # a field that was entered takes no default at the end either
    "root":1,"commands":[["begin_deferred"],["begin_nth_field",0],["end"],["finish_deferred"]]}
    = 1 {"error":{"command":3,"detail":"u32","kind":"UninitializedValue","path":""},"released":[]}
    # a marked field is filled at the end
    "root":1,"commands":[["begin_deferred"],["finish_deferred"]]}
    = 0 {"ok":[5],"released":[]}
    # the default of the struct doesn't fill its fields at the end
    "root":2,"commands":[["begin_deferred"],["begin_nth_field",0],["set",0,9],["end"],["finish_deferred"]]}
    = 1 {"error":{"command":4,"detail":"y","kind":"UninitializedField","path":""},"released":[]}
"#;

const ELEMENTS: &str = r#"
    # an element that was only entered is set later
    "root":2,"commands":[
        ["begin_deferred"],["begin_nth_field",0],["set",0,1],["end"],
        ["begin_nth_field",1],["end"],["begin_nth_field",2],["set",0,3],["end"],
        ["begin_nth_field",1],["set",0,2],["end"],["finish_deferred"]
    ]}
    = 0 {"ok":[1,2,3],"released":[]}
    # a missing element is found at the end
    "root":2,"commands":[["begin_deferred"],["begin_nth_field",0],["set",0,1],["end"],["finish_deferred"]]}
    = 1 {"error":{"command":4,"detail":"A3","kind":"UninitializedValue","path":""},"released":[]}
"#;

/// The settings of a program, as examples/groups.json has them: the lines of its groups come in
/// turn.
const SETTINGS: &str = r#"{"shapes":[
    {"name":"u16","def":"u16"},
    {"name":"String","def":"String"},
    {"name":"Server","def":{"struct":[{"name":"host","shape":1},{"name":"port","shape":0}]}},
    {"name":"Log","def":{"struct":[{"name":"level","shape":1},{"name":"file","shape":1}]}},
    {"name":"Limits","def":{"array":[0,3]}},
    {"name":"Settings","def":{"struct":[
        {"name":"name","shape":1},{"name":"server","shape":2},{"name":"log","shape":3},
        {"name":"limits","shape":4}
    ]}}
],"#;

const SETTINGS_READ: &str = r#"
    # a loader reads settings whose groups are interleaved
    "root":5,"commands":[
        ["begin_deferred"],["begin_field","server"],["begin_field","host"],["set",1,"localhost"],
        ["end"],["end"],["begin_field","log"],["begin_field","level"],["set",1,"info"],["end"],["end"],
        ["begin_field","server"],["begin_field","port"],["set",0,8080],["end"],["end"],
        ["begin_field","limits"],["begin_nth_field",2],["set",0,30],["end"],["end"],
        ["begin_field","log"],["begin_field","file"],["set",1,"demo.log"],["end"],["end"],
        ["begin_field","limits"],["begin_nth_field",0],["set",0,10],["end"],
        ["begin_nth_field",1],["set",0,20],["end"],["end"],
        ["begin_field","server"],["set",2,["example.org",443]],["end"],
        ["begin_field","name"],["set",1,"demo"],["end"],["finish_deferred"]
    ]}
    = 0 {"ok":["demo",["example.org",443],["info","demo.log"],[10,20,30]],"released":[]}
"#;

#[test]
fn places_that_were_left_are_entered_again_and_completed_at_the_end(rt: HostRuntime) {
    let tables = [
        (NESTED, 7, COMING_BACK),
        (CELLS, 3, OVERWRITTEN),
        (DEFAULTS, 3, FILLED_AT_THE_END),
        (MARKED, 3, MARKED_AT_THE_END),
        (ARRAYS, 2, ELEMENTS),
        (SETTINGS, 1, SETTINGS_READ),
    ];
    check_tables(&rt, &tables);
}
