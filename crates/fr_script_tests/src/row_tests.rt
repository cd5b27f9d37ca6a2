//! Worked examples of fills, presets, arrays and named fields, each as a whole run.
use crate::documents::check_tables;

/// The shapes u32, Nums (a list with a default), Empty (a struct without fields, with a default),
/// HasList and HasEmpty, before the root.
pub(crate) const DEFAULTS: &str = r#"{"shapes":[
    {"name":"u32","def":"u32"},
    {"name":"Nums","def":{"list":0},"preset":{"l":[]}},
    {"name":"Empty","def":{"unit":[]},"preset":[]},
    {"name":"HasList","def":{"struct":[{"name":"l","shape":1}]}},
    {"name":"HasEmpty","def":{"struct":[{"name":"e","shape":2},{"name":"k","shape":0}]}}
],"#;

const DEFAULTS_TAKEN: &str = r#"
    # a list isn't filled though its shape has a default
    "root":3,"commands":[]}
    = 1 {"error":{"command":0,"detail":"l","kind":"UninitializedField","path":""},"released":[]}
    # a struct without fields that has a default is filled
    "root":4,"commands":[["begin_nth_field",1],["set",0,1],["end"]]}
    = 0 {"ok":[[],1],"released":[]}
    # a list that is set to its default is there
    "root":3,"commands":[["begin_field","l"],["set_default"],["end"]]}
    = 0 {"ok":[{"l":[]}],"released":[]}
"#;

/// The shapes u32, A64, A3 and A5000 (arrays of so many), before the root.
pub(crate) const ARRAYS: &str = r#"{"shapes":[
    {"name":"u32","def":"u32"},
    {"name":"A64","def":{"array":[0,64]}},
    {"name":"A3","def":{"array":[0,3]}},
    {"name":"A5000","def":{"array":[0,5000]}}
],"#;

const ARRAYS_BUILT: &str = r#"
    # an element past the end of an array
    "root":1,"commands":[["begin_nth_field",64]]}
    = 1 {"error":{"command":0,"detail":"array index out of bounds","kind":"OperationFailed","path":""},"released":[]}
    # an array that is left open
    "root":1,"commands":[["begin_nth_field",0]]}
    = 1 {"error":{"command":1,"detail":"build() called but more than one frame is on the stack",
        "kind":"InvariantViolation","path":"[0]"},"released":[]}
    # an element past the end of a large array
    "root":3,"commands":[["begin_nth_field",5000]]}
    = 1 {"error":{"command":0,"detail":"array index out of bounds","kind":"OperationFailed","path":""},"released":[]}
    # an array that is too large to be entered
    "root":3,"commands":[["begin_nth_field",0]]}
    = 1 {"error":{"command":0,"detail":"arrays larger than 4096 elements are not yet supported",
        "kind":"OperationFailed","path":""},"released":[]}
    # an array of which only the last element is there
    "root":1,"commands":[["begin_nth_field",63],["set",0,7],["end"]]}
    = 1 {"error":{"command":3,"detail":"A64","kind":"UninitializedValue","path":""},"released":[]}
    # an element of an array has no name
    "root":2,"commands":[["begin_field","x"]]}
    = 1 {"error":{"command":0,"detail":"cannot select a field from a sequence type","kind":"OperationFailed","path":""},"released":[]}
    # an array that is set whole
    "root":2,"commands":[["set",2,[1,2,3]]]}
    = 0 {"ok":[1,2,3],"released":[]}
    # a shape without a default
    "root":2,"commands":[["set_default"]]}
    = 1 {"error":{"command":0,"detail":"type does not implement Default","kind":"OperationFailed","path":""},"released":[]}
"#;

/// The elements of an A64 from the last to the first, in both modes.
const DESCENDING: &str = r#"
    # elements that come backwards
    "root":1,"commands":[
        ["begin_nth_field",63],["set",0,63],["end"],["begin_nth_field",62],["set",0,62],["end"],["begin_nth_field",61],["set",0,61],["end"],
        ["begin_nth_field",60],["set",0,60],["end"],["begin_nth_field",59],["set",0,59],["end"],["begin_nth_field",58],["set",0,58],["end"],
        ["begin_nth_field",57],["set",0,57],["end"],["begin_nth_field",56],["set",0,56],["end"],["begin_nth_field",55],["set",0,55],["end"],
        ["begin_nth_field",54],["set",0,54],["end"],["begin_nth_field",53],["set",0,53],["end"],["begin_nth_field",52],["set",0,52],["end"],
        ["begin_nth_field",51],["set",0,51],["end"],["begin_nth_field",50],["set",0,50],["end"],["begin_nth_field",49],["set",0,49],["end"],
        ["begin_nth_field",48],["set",0,48],["end"],["begin_nth_field",47],["set",0,47],["end"],["begin_nth_field",46],["set",0,46],["end"],
        ["begin_nth_field",45],["set",0,45],["end"],["begin_nth_field",44],["set",0,44],["end"],["begin_nth_field",43],["set",0,43],["end"],
        ["begin_nth_field",42],["set",0,42],["end"],["begin_nth_field",41],["set",0,41],["end"],["begin_nth_field",40],["set",0,40],["end"],
        ["begin_nth_field",39],["set",0,39],["end"],["begin_nth_field",38],["set",0,38],["end"],["begin_nth_field",37],["set",0,37],["end"],
        ["begin_nth_field",36],["set",0,36],["end"],["begin_nth_field",35],["set",0,35],["end"],["begin_nth_field",34],["set",0,34],["end"],
        ["begin_nth_field",33],["set",0,33],["end"],["begin_nth_field",32],["set",0,32],["end"],["begin_nth_field",31],["set",0,31],["end"],
        ["begin_nth_field",30],["set",0,30],["end"],["begin_nth_field",29],["set",0,29],["end"],["begin_nth_field",28],["set",0,28],["end"],
        ["begin_nth_field",27],["set",0,27],["end"],["begin_nth_field",26],["set",0,26],["end"],["begin_nth_field",25],["set",0,25],["end"],
        ["begin_nth_field",24],["set",0,24],["end"],["begin_nth_field",23],["set",0,23],["end"],["begin_nth_field",22],["set",0,22],["end"],
        ["begin_nth_field",21],["set",0,21],["end"],["begin_nth_field",20],["set",0,20],["end"],["begin_nth_field",19],["set",0,19],["end"],
        ["begin_nth_field",18],["set",0,18],["end"],["begin_nth_field",17],["set",0,17],["end"],["begin_nth_field",16],["set",0,16],["end"],
        ["begin_nth_field",15],["set",0,15],["end"],["begin_nth_field",14],["set",0,14],["end"],["begin_nth_field",13],["set",0,13],["end"],
        ["begin_nth_field",12],["set",0,12],["end"],["begin_nth_field",11],["set",0,11],["end"],["begin_nth_field",10],["set",0,10],["end"],
        ["begin_nth_field",9],["set",0,9],["end"],["begin_nth_field",8],["set",0,8],["end"],["begin_nth_field",7],["set",0,7],["end"],
        ["begin_nth_field",6],["set",0,6],["end"],["begin_nth_field",5],["set",0,5],["end"],["begin_nth_field",4],["set",0,4],["end"],
        ["begin_nth_field",3],["set",0,3],["end"],["begin_nth_field",2],["set",0,2],["end"],["begin_nth_field",1],["set",0,1],["end"],
        ["begin_nth_field",0],["set",0,0],["end"]
    ]}
    = 0 {"ok":[
        0,1,2,3,4,5,6,7,8,9,10,11,12,13,14,15,16,17,18,19,20,21,22,23,24,25,26,27,28,29,30,31,
        32,33,34,35,36,37,38,39,40,41,42,43,44,45,46,47,48,49,50,51,52,53,54,55,56,57,58,59,60,61,62,63
    ],"released":[]}
    # elements that come backwards in deferred mode
    "root":1,"commands":[
        ["begin_deferred"],
        ["begin_nth_field",63],["set",0,63],["end"],["begin_nth_field",62],["set",0,62],["end"],["begin_nth_field",61],["set",0,61],["end"],
        ["begin_nth_field",60],["set",0,60],["end"],["begin_nth_field",59],["set",0,59],["end"],["begin_nth_field",58],["set",0,58],["end"],
        ["begin_nth_field",57],["set",0,57],["end"],["begin_nth_field",56],["set",0,56],["end"],["begin_nth_field",55],["set",0,55],["end"],
        ["begin_nth_field",54],["set",0,54],["end"],["begin_nth_field",53],["set",0,53],["end"],["begin_nth_field",52],["set",0,52],["end"],
        ["begin_nth_field",51],["set",0,51],["end"],["begin_nth_field",50],["set",0,50],["end"],["begin_nth_field",49],["set",0,49],["end"],
        ["begin_nth_field",48],["set",0,48],["end"],["begin_nth_field",47],["set",0,47],["end"],["begin_nth_field",46],["set",0,46],["end"],
        ["begin_nth_field",45],["set",0,45],["end"],["begin_nth_field",44],["set",0,44],["end"],["begin_nth_field",43],["set",0,43],["end"],
        ["begin_nth_field",42],["set",0,42],["end"],["begin_nth_field",41],["set",0,41],["end"],["begin_nth_field",40],["set",0,40],["end"],
        ["begin_nth_field",39],["set",0,39],["end"],["begin_nth_field",38],["set",0,38],["end"],["begin_nth_field",37],["set",0,37],["end"],
        ["begin_nth_field",36],["set",0,36],["end"],["begin_nth_field",35],["set",0,35],["end"],["begin_nth_field",34],["set",0,34],["end"],
        ["begin_nth_field",33],["set",0,33],["end"],["begin_nth_field",32],["set",0,32],["end"],["begin_nth_field",31],["set",0,31],["end"],
        ["begin_nth_field",30],["set",0,30],["end"],["begin_nth_field",29],["set",0,29],["end"],["begin_nth_field",28],["set",0,28],["end"],
        ["begin_nth_field",27],["set",0,27],["end"],["begin_nth_field",26],["set",0,26],["end"],["begin_nth_field",25],["set",0,25],["end"],
        ["begin_nth_field",24],["set",0,24],["end"],["begin_nth_field",23],["set",0,23],["end"],["begin_nth_field",22],["set",0,22],["end"],
        ["begin_nth_field",21],["set",0,21],["end"],["begin_nth_field",20],["set",0,20],["end"],["begin_nth_field",19],["set",0,19],["end"],
        ["begin_nth_field",18],["set",0,18],["end"],["begin_nth_field",17],["set",0,17],["end"],["begin_nth_field",16],["set",0,16],["end"],
        ["begin_nth_field",15],["set",0,15],["end"],["begin_nth_field",14],["set",0,14],["end"],["begin_nth_field",13],["set",0,13],["end"],
        ["begin_nth_field",12],["set",0,12],["end"],["begin_nth_field",11],["set",0,11],["end"],["begin_nth_field",10],["set",0,10],["end"],
        ["begin_nth_field",9],["set",0,9],["end"],["begin_nth_field",8],["set",0,8],["end"],["begin_nth_field",7],["set",0,7],["end"],
        ["begin_nth_field",6],["set",0,6],["end"],["begin_nth_field",5],["set",0,5],["end"],["begin_nth_field",4],["set",0,4],["end"],
        ["begin_nth_field",3],["set",0,3],["end"],["begin_nth_field",2],["set",0,2],["end"],["begin_nth_field",1],["set",0,1],["end"],
        ["begin_nth_field",0],["set",0,0],["end"],
        ["finish_deferred"]
    ]}
    = 0 {"ok":[
        0,1,2,3,4,5,6,7,8,9,10,11,12,13,14,15,16,17,18,19,20,21,22,23,24,25,26,27,28,29,30,31,
        32,33,34,35,36,37,38,39,40,41,42,43,44,45,46,47,48,49,50,51,52,53,54,55,56,57,58,59,60,61,62,63
    ],"released":[]}
"#;

/// The shapes u32 (with the default 0), Dd (a field that is marked with 5) and Ss (two fields, with
/// a default), before the root.
pub(crate) const MARKED: &str = r#"{"shapes":[
    {"name":"u32","def":"u32","preset":0},
    {"name":"Dd","def":{"struct":[{"name":"a","shape":0,"default":{"custom":5}}]}},
    {"name":"Ss","def":{"struct":[{"name":"x","shape":0},{"name":"y","shape":0}]},"preset":[1,2]}
],"#;

const MARKS_TAKEN: &str = r#"
    # a field that was only entered takes no default
    "root":1,"commands":[["begin_nth_field",0],["end"]]}
    = 1 {"error":{"command":1,"detail":"u32","kind":"UninitializedValue","path":"a"},"released":[]}
    # a field takes the value that it is marked with
    "root":1,"commands":[]}
    = 0 {"ok":[5],"released":[]}
    # a struct that has a default is that
    "root":2,"commands":[]}
    = 0 {"ok":[1,2],"released":[]}
    # a struct of which a field is set takes its other fields' defaults
    "root":2,"commands":[["begin_nth_field",0],["set",0,9],["end"]]}
    = 0 {"ok":[9,0],"released":[]}
    # fields are found by their names
    "root":2,"commands":[["begin_field","y"],["set",0,7],["end"]]}
    = 0 {"ok":[0,7],"released":[]}
    # no field has the name
    "root":2,"commands":[["begin_field","z"]]}
    = 1 {"error":{"command":0,"detail":"no such field","kind":"FieldError","path":""},"released":[]}
    # a default takes the place of what was set
    "root":2,"commands":[["set",2,[3,4]],["set_default"]]}
    = 0 {"ok":[1,2],"released":[]}
"#;

/// The shapes u32, Kind (an enum), Count (a map), Link (a pointer to a Kind) and All (a struct of
/// these), before the root.
const WHOLES: &str = r#"{"shapes":[
    {"name":"u32","def":"u32"},
    {"name":"Kind","def":{"enum":{"repr":"U8","variants":[
        {"name":"A","fields":[],"discriminant":0},
        {"name":"B","fields":[{"name":"x","shape":0}],"discriminant":1}
    ]}}},
    {"name":"Count","def":{"map":[0,0]}},
    {"name":"Link","def":{"pointer":{"known":"Box","pointee":1}}},
    {"name":"All","def":{"struct":[
        {"name":"kind","shape":1},{"name":"count","shape":2},{"name":"link","shape":3}
    ]}}
],"#;

const WHOLES_SET: &str = r#"
    # values of all definitions are set whole
    "root":4,"commands":[
        ["begin_field","kind"],["set",1,{"v":[1,[7]]}],["end"],
        ["begin_field","count"],["set",2,{"m":[[1,2]]}],["end"],
        ["begin_field","link"],["set",3,{"p":{"v":[0,[]]}}],["end"]
    ]}
    = 0 {"ok":[{"v":[1,[7]]},{"m":[[1,2]]},{"p":{"v":[0,[]]}}],"released":[]}
    # a field of an enum whose variant isn't selected
    "root":4,"commands":[["begin_field","kind"],["begin_nth_field",0]]}
    = 1 {"error":{"command":1,"detail":"must call select_variant before selecting enum fields",
        "kind":"OperationFailed","path":"kind"},"released":[]}
    # a field of such an enum by its name
    "root":4,"commands":[["begin_field","kind"],["begin_field","x"]]}
    = 1 {"error":{"command":1,"detail":"must select variant before selecting enum fields",
        "kind":"OperationFailed","path":"kind"},"released":[]}
    # a field of a pointer by its name
    "root":4,"commands":[["begin_nth_field",2],["begin_field","x"]]}
    = 1 {"error":{"command":1,"detail":"cannot select a field from a pointer type",
        "kind":"OperationFailed","path":"link"},"released":[]}
"#;

/// Whole documents: what a hole is filled with by `skip`, by `default_attr` and as a unit, and keys
/// that decide nothing here.
const FILLS: &str = r#"
    # a field that is skipped takes its shape's default
    {"shapes":[
        {"name":"u8","def":"u8","preset":2},
        {"name":"S","def":{"struct":[{"name":"a","shape":0},{"name":"b","shape":0,"skip":true}]}}
    ],"root":1,"commands":[["begin_field","a"],["set",0,1],["end"]]}
    = 0 {"ok":[1,2],"released":[]}
    # and is missing where that has none
    {"shapes":[
        {"name":"u8","def":"u8"},
        {"name":"S","def":{"struct":[{"name":"a","shape":0},{"name":"b","shape":0,"skip":true}]}}
    ],"root":1,"commands":[["begin_field","a"],["set",0,1],["end"]]}
    = 1 {"error":{"command":3,"detail":"b","kind":"UninitializedField","path":""},"released":[]}
    # the mark of a struct fills as deferred mode ends
    {"shapes":[
        {"name":"u8","def":"u8","preset":2},
        {"name":"S","def":{"struct":[{"name":"a","shape":0},{"name":"b","shape":0}]},"default_attr":true}
    ],"root":1,"commands":[["begin_deferred"],["begin_field","a"],["set",0,1],["end"],["finish_deferred"]]}
    = 0 {"ok":[1,2],"released":[]}
    # and not in strict mode
    {"shapes":[
        {"name":"u8","def":"u8","preset":2},
        {"name":"S","def":{"struct":[{"name":"a","shape":0},{"name":"b","shape":0}]},"default_attr":true}
    ],"root":1,"commands":[["begin_field","a"],["set",0,1],["end"]]}
    = 1 {"error":{"command":3,"detail":"b","kind":"UninitializedField","path":""},"released":[]}
    # a unit that has a default is filled as deferred mode ends
    {"shapes":[
        {"name":"u8","def":"u8"},
        {"name":"()","def":{"tuple":[]},"preset":[]},
        {"name":"S","def":{"struct":[{"name":"a","shape":0},{"name":"b","shape":1}]}}
    ],"root":2,"commands":[["begin_deferred"],["begin_field","a"],["set",0,1],["end"],["finish_deferred"]]}
    = 0 {"ok":[1,[]],"released":[]}
    # keys that decide nothing here
    {"shapes":[
        {"name":"u8","def":"u8"},
        {"name":"S","def":{"struct":[{"name":"x","shape":0,"flatten":true}]},
            "metadata":true,"deny_unknown":true,"transparent":true}
    ],"root":1,"commands":[["begin_field","x"],["set",0,7],["end"]]}
    = 0 {"ok":[7],"released":[]}
"#;

#[test]
fn what_is_missing_is_filled_and_elements_come_in_any_order(rt: HostRuntime) {
    let tables = [
        (DEFAULTS, 3, DEFAULTS_TAKEN),
        (MARKED, 7, MARKS_TAKEN),
        (ARRAYS, 8, ARRAYS_BUILT),
        (ARRAYS, 2, DESCENDING),
        (WHOLES, 4, WHOLES_SET),
        ("", 6, FILLS),
    ];
    check_tables(&rt, &tables);
}
