//! Validators and invariants in documents: which values are asked, when, and what is told of one
//! that doesn't pass.
use super::documents::check_tables;

/// The shapes u64, i32, String, CowStr, Levels (a list of i32), Res (opaque), Site (a validator of
/// each kind), Checked (validators that ask hooks) and Never (one that nothing passes), before the
/// root.
const VALIDATED: &str = r#"{"shapes":[
    {"name":"u64","def":"u64"},
    {"name":"i32","def":"i32"},
    {"name":"String","def":"String"},
    {"name":"CowStr","def":"CowStr"},
    {"name":"Levels","def":{"list":1}},
    {"name":"Res","def":"opaque"},
    {"name":"Site","def":{"struct":[
        {"name":"port","shape":0,"validators":[{"min":1024},{"max":65535}]},
        {"name":"shift","shape":1,"validators":[{"min":-12},{"max":14}]},
        {"name":"name","shape":2,"validators":[{"min_length":2},{"max_length":8}]},
        {"name":"url","shape":3,"validators":["url"]},
        {"name":"version","shape":2,"validators":[{"regex":"v1."},{"contains":"-"}]},
        {"name":"levels","shape":4,"validators":[{"custom":1}]}
    ]}},
    {"name":"Checked","def":{"struct":[
        {"name":"r","shape":5,"validators":[{"custom":9}]},
        {"name":"n","shape":1,"validators":[{"custom":0},{"custom":3}]}
    ]}},
    {"name":"Never","def":{"struct":[{"name":"r","shape":5,"validators":[{"custom":2}]}]}}
],"#;

/// A value that is set whole is asked as soon as one of its fields is entered.
const EACH_VALIDATOR: &str = r#"
    # all pass, at the lower ends
    "root":6,"commands":[
        ["set",6,[1024,{"i":-12},"é","http://","v1.-",{"l":[]}]],["begin_nth_field",0],["end"]
    ]}
    = 0 {"ok":[1024,{"i":-12},"é","http://","v1.-",{"l":[]}],"released":[]}
    # all pass, at the upper ends
    "root":6,"commands":[
        ["set",6,[65535,{"i":14},"12345678","https://a","x-v1.x",{"l":[{"i":1},{"i":1},{"i":2}]}]],
        ["begin_nth_field",0],["end"]
    ]}
    = 0 {"ok":[65535,{"i":14},"12345678","https://a","x-v1.x",{"l":[{"i":1},{"i":1},{"i":2}]}],"released":[]}
    # too small, as is the next field
    "root":6,"commands":[
        ["set",6,[1023,{"i":-13},"site","http://","v1.-",{"l":[]}]],["begin_nth_field",0],["end"]
    ]}
    = 1 {"error":{"command":3,"detail":"must be >= 1024, got 1023","kind":"ValidationFailed","path":""},"released":[]}
    # too large
    "root":6,"commands":[
        ["set",6,[65536,{"i":0},"site","http://","v1.-",{"l":[]}]],["begin_nth_field",5],["end"]
    ]}
    = 1 {"error":{"command":3,"detail":"must be <= 65535, got 65536","kind":"ValidationFailed","path":""},"released":[]}
    # too small, with a sign
    "root":6,"commands":[
        ["set",6,[8080,{"i":-13},"site","http://","v1.-",{"l":[]}]],["begin_nth_field",0],["end"]
    ]}
    = 1 {"error":{"command":3,"detail":"must be >= -12, got -13","kind":"ValidationFailed","path":""},"released":[]}
    # too large, of a signed kind
    "root":6,"commands":[
        ["set",6,[8080,{"i":15},"site","http://","v1.-",{"l":[]}]],["begin_nth_field",0],["end"]
    ]}
    = 1 {"error":{"command":3,"detail":"must be <= 14, got 15","kind":"ValidationFailed","path":""},"released":[]}
    # too short
    "root":6,"commands":[
        ["set",6,[8080,{"i":0},"s","http://","v1.-",{"l":[]}]],["begin_nth_field",0],["end"]
    ]}
    = 1 {"error":{"command":3,"detail":"length must be >= 2, got 1","kind":"ValidationFailed","path":""},"released":[]}
    # too long in bytes
    "root":6,"commands":[
        ["set",6,[8080,{"i":0},"éééé!","http://","v1.-",{"l":[]}]],["begin_nth_field",0],["end"]
    ]}
    = 1 {"error":{"command":3,"detail":"length must be <= 8, got 9","kind":"ValidationFailed","path":""},"released":[]}
    # no URL
    "root":6,"commands":[
        ["set",6,[8080,{"i":0},"site","ftp://","v1.-",{"l":[]}]],["begin_nth_field",0],["end"]
    ]}
    = 1 {"error":{"command":3,"detail":"'ftp://' is not a valid URL","kind":"ValidationFailed","path":""},"released":[]}
    # the pattern doesn't stand there, nor what the next one wants
    "root":6,"commands":[
        ["set",6,[8080,{"i":0},"site","http://","v12",{"l":[]}]],["begin_nth_field",0],["end"]
    ]}
    = 1 {"error":{"command":3,"detail":"'v12' does not match pattern 'v1.'","kind":"ValidationFailed","path":""},"released":[]}
    # the pattern stands there, what the next one wants doesn't
    "root":6,"commands":[
        ["set",6,[8080,{"i":0},"site","http://","v1.2",{"l":[]}]],["begin_nth_field",0],["end"]
    ]}
    = 1 {"error":{"command":3,"detail":"'v1.2' does not contain '-'","kind":"ValidationFailed","path":""},"released":[]}
    # out of order
    "root":6,"commands":[
        ["set",6,[8080,{"i":0},"site","http://","v1.-",{"l":[{"i":2},{"i":1}]}]],
        ["begin_nth_field",0],["end"]
    ]}
    = 1 {"error":{"command":3,"detail":"custom validation failed","kind":"ValidationFailed","path":""},"released":[]}
    # hooks of which one passes everything
    "root":7,"tokens":1,"commands":[["set",7,[{"t":0},{"i":1}]],["begin_nth_field",0],["end"]]}
    = 0 {"ok":[{"t":0},{"i":1}],"released":[]}
    # zero
    "root":7,"tokens":1,"commands":[["set",7,[{"t":0},{"i":0}]],["begin_nth_field",0],["end"]]}
    = 1 {"error":{"command":3,"detail":"custom validation failed","kind":"ValidationFailed","path":""},"released":[0]}
    # below zero
    "root":7,"tokens":1,"commands":[["set",7,[{"t":0},{"i":-1}]],["begin_nth_field",0],["end"]]}
    = 1 {"error":{"command":3,"detail":"custom validation failed","kind":"ValidationFailed","path":""},"released":[0]}
    # a hook that nothing passes
    "root":8,"tokens":1,"commands":[["begin_nth_field",0],["set",5,{"t":0}],["end"]]}
    = 1 {"error":{"command":3,"detail":"custom validation failed","kind":"ValidationFailed","path":""},"released":[0]}
"#;

/// The shapes u64, Vmin and Vmax (a bounded number each), Pair (a bounded number and a free one),
/// Outer (a Vmin and a number), Nested (an Outer and a Vmin), lists and sets of Vmin, maps from
/// them, Kind (a variant with a bounded number), Marked (a field whose own default is out of
/// bounds) and Whole (a default that is), before the root.
const BOUNDED: &str = r#"{"shapes":[
    {"name":"u64","def":"u64"},
    {"name":"Vmin","def":{"struct":[{"name":"a","shape":0,"validators":[{"min":5}]}]}},
    {"name":"Vmax","def":{"struct":[
        {"name":"a","shape":0,"validators":[{"max":9223372036854775807}]}
    ]}},
    {"name":"Pair","def":{"struct":[
        {"name":"a","shape":0,"validators":[{"min":5}]},{"name":"b","shape":0}
    ]}},
    {"name":"Outer","def":{"struct":[{"name":"v","shape":1},{"name":"b","shape":0}]}},
    {"name":"Nested","def":{"struct":[{"name":"o","shape":4},{"name":"v","shape":1}]}},
    {"name":"Vmins","def":{"list":1}},
    {"name":"VminSet","def":{"set":1}},
    {"name":"ByVmin","def":{"map":[1,0]}},
    {"name":"Kind","def":{"enum":{"repr":"U8","variants":[
        {"name":"A","fields":[{"name":"x","shape":0,"validators":[{"min":5}]}],"discriminant":0}
    ]}}},
    {"name":"Marked","def":{"struct":[
        {"name":"a","shape":0,"default":{"custom":1},"validators":[{"min":5}]}
    ]}},
    {"name":"Whole","def":{"struct":[
        {"name":"a","shape":0,"validators":[{"min":5}]}
    ]},"preset":[1]}
],"#;

const ASKED_AT_ENDS: &str = r#"
    # a number beyond the signed ones is in every lower bound
    "root":1,"commands":[["begin_nth_field",0],["set",0,9223372036854775808],["end"]]}
    = 0 {"ok":[9223372036854775808],"released":[]}
    # and in no upper one, which the build of the struct around it asks
    "root":2,"commands":[["begin_nth_field",0],["set",0,9223372036854775808],["end"]]}
    = 1 {"error":{"command":3,"detail":"must be <= 9223372036854775807, got 9223372036854775808",
        "kind":"ValidationFailed","path":""},"released":[]}
    # the end of the struct around it asks, not its own end
    "root":4,"commands":[["begin_nth_field",0],["begin_nth_field",0],["set",0,1],["end"],["end"]]}
    = 1 {"error":{"command":4,"detail":"must be >= 5, got 1","kind":"ValidationFailed","path":"v"},"released":[]}
    # nothing is asked inside what is set whole
    "root":4,"commands":[["set",4,[[1],2]],["begin_nth_field",0],["end"]]}
    = 0 {"ok":[[1],2],"released":[]}
    # a field of which is entered
    "root":4,"commands":[
        ["set",4,[[1],2]],["begin_nth_field",0],["begin_nth_field",0],["end"],["end"]
    ]}
    = 1 {"error":{"command":4,"detail":"must be >= 5, got 1","kind":"ValidationFailed","path":"v"},"released":[]}
    # a field is asked before the next one is missing
    "root":3,"commands":[["begin_nth_field",0],["set",0,1],["end"]]}
    = 1 {"error":{"command":3,"detail":"must be >= 5, got 1","kind":"ValidationFailed","path":""},"released":[]}
    # a field that takes its own default is asked
    "root":10,"commands":[]}
    = 1 {"error":{"command":0,"detail":"must be >= 5, got 1","kind":"ValidationFailed","path":""},"released":[]}
    # a struct that takes its default isn't
    "root":11,"commands":[]}
    = 0 {"ok":[1],"released":[]}
    # a field of a variant
    "root":9,"commands":[["select_nth_variant",0],["begin_nth_field",0],["set",0,1],["end"]]}
    = 1 {"error":{"command":4,"detail":"must be >= 5, got 1","kind":"ValidationFailed","path":""},"released":[]}
    # an item of a list
    "root":6,"commands":[
        ["init_list"],["begin_list_item"],["begin_nth_field",0],["set",0,1],["end"],["end"]
    ]}
    = 1 {"error":{"command":5,"detail":"must be >= 5, got 1","kind":"ValidationFailed","path":"[0]"},"released":[]}
    # an item of a set
    "root":7,"commands":[
        ["init_set"],["begin_set_item"],["begin_nth_field",0],["set",0,1],["end"],["end"]
    ]}
    = 1 {"error":{"command":5,"detail":"must be >= 5, got 1","kind":"ValidationFailed","path":"[item]"},"released":[]}
    # a key of a map
    "root":8,"commands":[
        ["init_map"],["begin_key"],["begin_nth_field",0],["set",0,1],["end"],["end"]
    ]}
    = 1 {"error":{"command":5,"detail":"must be >= 5, got 1","kind":"ValidationFailed","path":"[key 0]"},"released":[]}
"#;

const ASKED_AT_THE_END: &str = r#"
    # the end of deferred mode asks at the root
    "root":1,"commands":[["begin_deferred"],["begin_nth_field",0],["set",0,1],["end"],["finish_deferred"]]}
    = 1 {"error":{"command":4,"detail":"must be >= 5, got 1","kind":"ValidationFailed","path":""},"released":[]}
    # it asks beneath, where the end of the struct asked nothing
    "root":4,"commands":[
        ["begin_deferred"],["begin_nth_field",0],["begin_nth_field",0],["set",0,1],["end"],["end"],
        ["begin_nth_field",1],["set",0,2],["end"],["finish_deferred"]
    ]}
    = 1 {"error":{"command":9,"detail":"must be >= 5, got 1","kind":"ValidationFailed","path":""},"released":[]}
    # so that it could be put right before
    "root":4,"commands":[
        ["begin_deferred"],["begin_nth_field",0],["begin_nth_field",0],["set",0,1],["end"],["end"],
        ["begin_nth_field",1],["set",0,2],["end"],
        ["begin_nth_field",0],["begin_nth_field",0],["set",0,5],["end"],["end"],["finish_deferred"]
    ]}
    = 0 {"ok":[[5],2],"released":[]}
    # it asks where the builder stands
    "root":4,"commands":[
        ["begin_deferred"],["begin_nth_field",0],["begin_nth_field",0],["set",0,1],["end"],
        ["finish_deferred"]
    ]}
    = 1 {"error":{"command":5,"detail":"must be >= 5, got 1","kind":"ValidationFailed","path":"v"},"released":[]}
    # a missing field comes before one that doesn't pass
    "root":3,"commands":[["begin_deferred"],["begin_nth_field",0],["set",0,1],["end"],["finish_deferred"]]}
    = 1 {"error":{"command":4,"detail":"b","kind":"UninitializedField","path":""},"released":[]}
    # the deeper of two that don't pass is told
    "root":5,"commands":[
        ["begin_deferred"],["begin_nth_field",1],["begin_nth_field",0],["set",0,1],["end"],["end"],
        ["begin_nth_field",0],["begin_nth_field",0],["begin_nth_field",0],["set",0,2],["end"],
        ["end"],["begin_nth_field",1],["set",0,3],["end"],["end"],["finish_deferred"]
    ]}
    = 1 {"error":{"command":16,"detail":"must be >= 5, got 2","kind":"ValidationFailed","path":""},"released":[]}
    # a field that takes its own default is asked
    "root":10,"commands":[["begin_deferred"],["finish_deferred"]]}
    = 1 {"error":{"command":1,"detail":"must be >= 5, got 1","kind":"ValidationFailed","path":""},"released":[]}
    # an item of a set is asked as it ends
    "root":7,"commands":[
        ["begin_deferred"],["init_set"],["begin_set_item"],["begin_nth_field",0],["set",0,1],
        ["end"],["end"]
    ]}
    = 1 {"error":{"command":6,"detail":"must be >= 5, got 1","kind":"ValidationFailed","path":"[item]"},"released":[]}
    # an item of a list isn't
    "root":6,"commands":[
        ["begin_deferred"],["init_list"],["begin_list_item"],["begin_nth_field",0],["set",0,1],
        ["end"],["end"],["begin_list_item"],["begin_nth_field",0],["set",0,5],["end"],["end"],
        ["finish_deferred"]
    ]}
    = 1 {"error":{"command":12,"detail":"must be >= 5, got 1","kind":"ValidationFailed","path":""},"released":[]}
    # what is changed behind deferred mode is asked again
    "root":1,"commands":[
        ["begin_deferred"],["begin_nth_field",0],["set",0,5],["end"],["finish_deferred"],
        ["begin_nth_field",0],["set",0,1],["end"]
    ]}
    = 1 {"error":{"command":8,"detail":"must be >= 5, got 1","kind":"ValidationFailed","path":""},"released":[]}
"#;

/// The shapes i32, Point (two numbers, none below 0), what holds Points (an option, a list, a set,
/// maps from and to them, a result of either side, a pointer, an array, a pointer to a slice, an
/// enum), All (one of each), Range (two numbers in order), Outer (a Point and a number, none 0),
/// Res (opaque), Cell (a Res and a number, none 0), Any (dynamic), Loose (an Any, no number below
/// 0) and Unit (no fields, never), before the root.
const KEPT: &str = r#"{"shapes":[
    {"name":"i32","def":"i32"},
    {"name":"Point","def":{"struct":[{"name":"x","shape":0},{"name":"y","shape":0}]},"invariant":3},
    {"name":"Maybe","def":{"option":1}},
    {"name":"Points","def":{"list":1}},
    {"name":"PointSet","def":{"set":1}},
    {"name":"From","def":{"map":[1,0]}},
    {"name":"To","def":{"map":[0,1]}},
    {"name":"Either","def":{"result":[1,1]}},
    {"name":"Link","def":{"pointer":{"known":"Box","pointee":1}}},
    {"name":"Two","def":{"array":[1,2]}},
    {"name":"Slice","def":{"slice":1}},
    {"name":"Shared","def":{"pointer":{"known":"Arc","pointee":10}}},
    {"name":"Kind","def":{"enum":{"repr":"U8","variants":[
        {"name":"None","fields":[],"discriminant":0},
        {"name":"Dot","fields":[{"name":"n","shape":0},{"name":"p","shape":1}],"discriminant":1}
    ]}}},
    {"name":"All","def":{"struct":[
        {"name":"maybe","shape":2},{"name":"points","shape":3},{"name":"set","shape":4},
        {"name":"from","shape":5},{"name":"to","shape":6},{"name":"ok","shape":7},
        {"name":"err","shape":7},{"name":"link","shape":8},{"name":"two","shape":9},
        {"name":"shared","shape":11},{"name":"kind","shape":12}
    ]}},
    {"name":"Range","def":{"tuple":[{"name":"0","shape":0},{"name":"1","shape":0}]},"invariant":1},
    {"name":"Outer","def":{"struct":[{"name":"p","shape":1},{"name":"z","shape":0}]},"invariant":0},
    {"name":"Res","def":"opaque"},
    {"name":"Cell","def":{"struct":[{"name":"r","shape":16},{"name":"n","shape":0}]},"invariant":0},
    {"name":"Any","def":"dynamic"},
    {"name":"Loose","def":{"struct":[{"name":"any","shape":18}]},"invariant":3},
    {"name":"Unit","def":{"unit":[]},"invariant":2}
],"#;

const ASKED_AT_BUILD: &str = r#"
    # points that are kept, wherever they stand
    "root":13,"commands":[["set",13,[
        {"s":[{"i":0},{"i":0}]},{"l":[[{"i":1},{"i":0}]]},{"e":[[{"i":2},{"i":0}]]},
        {"m":[[[{"i":3},{"i":0}],{"i":-1}]]},{"m":[[{"i":-1},[{"i":4},{"i":0}]]]},
        {"ok":[{"i":5},{"i":0}]},{"err":[{"i":6},{"i":0}]},{"p":[{"i":7},{"i":0}]},
        [[{"i":8},{"i":0}],[{"i":9},{"i":0}]],{"p":{"l":[[{"i":10},{"i":0}]]}},
        {"v":[1,[{"i":-1},[{"i":11},{"i":0}]]]}
    ]]]}
    = 0 {"ok":[
        {"s":[{"i":0},{"i":0}]},{"l":[[{"i":1},{"i":0}]]},{"e":[[{"i":2},{"i":0}]]},
        {"m":[[[{"i":3},{"i":0}],{"i":-1}]]},{"m":[[{"i":-1},[{"i":4},{"i":0}]]]},
        {"ok":[{"i":5},{"i":0}]},{"err":[{"i":6},{"i":0}]},{"p":[{"i":7},{"i":0}]},
        [[{"i":8},{"i":0}],[{"i":9},{"i":0}]],{"p":{"l":[[{"i":10},{"i":0}]]}},
        {"v":[1,[{"i":-1},[{"i":11},{"i":0}]]]}
    ],"released":[]}
    # an option's content
    "root":2,"commands":[["set",2,{"s":[{"i":-1},{"i":0}]}]]}
    = 1 {"error":{"command":1,"detail":"a type invariant does not hold","kind":"InvariantViolation","path":""},"released":[]}
    # the last item of a list
    "root":3,"commands":[["set",3,{"l":[[{"i":0},{"i":0}],[{"i":0},{"i":-1}]]}]]}
    = 1 {"error":{"command":1,"detail":"a type invariant does not hold","kind":"InvariantViolation","path":""},"released":[]}
    # an item of a set
    "root":4,"commands":[["set",4,{"e":[[{"i":-1},{"i":0}]]}]]}
    = 1 {"error":{"command":1,"detail":"a type invariant does not hold","kind":"InvariantViolation","path":""},"released":[]}
    # the key of a map's last entry
    "root":5,"commands":[["set",5,{"m":[[[{"i":0},{"i":0}],{"i":0}],[[{"i":-1},{"i":0}],{"i":0}]]}]]}
    = 1 {"error":{"command":1,"detail":"a type invariant does not hold","kind":"InvariantViolation","path":""},"released":[]}
    # a value of a map
    "root":6,"commands":[["set",6,{"m":[[{"i":0},[{"i":-1},{"i":0}]]]}]]}
    = 1 {"error":{"command":1,"detail":"a type invariant does not hold","kind":"InvariantViolation","path":""},"released":[]}
    # one side of a result
    "root":7,"commands":[["set",7,{"ok":[{"i":-1},{"i":0}]}]]}
    = 1 {"error":{"command":1,"detail":"a type invariant does not hold","kind":"InvariantViolation","path":""},"released":[]}
    # the other
    "root":7,"commands":[["set",7,{"err":[{"i":-1},{"i":0}]}]]}
    = 1 {"error":{"command":1,"detail":"a type invariant does not hold","kind":"InvariantViolation","path":""},"released":[]}
    # what a pointer points to
    "root":8,"commands":[["set",8,{"p":[{"i":-1},{"i":0}]}]]}
    = 1 {"error":{"command":1,"detail":"a type invariant does not hold","kind":"InvariantViolation","path":""},"released":[]}
    # an element of an array
    "root":9,"commands":[["set",9,[[{"i":0},{"i":0}],[{"i":-1},{"i":0}]]]]}
    = 1 {"error":{"command":1,"detail":"a type invariant does not hold","kind":"InvariantViolation","path":""},"released":[]}
    # an item behind a pointer
    "root":11,"commands":[["set",11,{"p":{"l":[[{"i":-1},{"i":0}]]}}]]}
    = 1 {"error":{"command":1,"detail":"a type invariant does not hold","kind":"InvariantViolation","path":""},"released":[]}
    # a field of a variant
    "root":12,"commands":[["set",12,{"v":[1,[{"i":0},[{"i":-1},{"i":0}]]]}]]}
    = 1 {"error":{"command":1,"detail":"a type invariant does not hold","kind":"InvariantViolation","path":""},"released":[]}
    # far down in a value, by parts and in deferred mode, which asks nothing itself
    "root":13,"commands":[
        ["set",13,[
            null,{"l":[]},{"e":[]},{"m":[]},{"m":[]},{"ok":[{"i":5},{"i":0}]},
            {"err":[{"i":6},{"i":0}]},{"p":[{"i":7},{"i":0}]},
            [[{"i":8},{"i":0}],[{"i":9},{"i":0}]],{"p":{"l":[]}},{"v":[0,[]]}
        ]],
        ["begin_deferred"],["begin_field","from"],["init_map"],["begin_key"],["begin_field","x"],
        ["set",0,{"i":-1}],["end"],["begin_field","y"],["set",0,{"i":0}],["end"],["end"],
        ["begin_value"],["set",0,{"i":0}],["end"],["end"],["finish_deferred"]
    ]}
    = 1 {"error":{"command":17,"detail":"a type invariant does not hold","kind":"InvariantViolation","path":""},"released":[]}
    # numbers in order
    "root":14,"commands":[["set",14,[{"i":-1},{"i":-1}]]]}
    = 0 {"ok":[{"i":-1},{"i":-1}],"released":[]}
    # numbers out of order
    "root":14,"commands":[["set",14,[{"i":2},{"i":1}]]]}
    = 1 {"error":{"command":1,"detail":"a type invariant does not hold","kind":"InvariantViolation","path":""},"released":[]}
    # only the outer of two structs passes
    "root":15,"commands":[["set",15,[[{"i":-1},{"i":1}],{"i":1}]]]}
    = 1 {"error":{"command":1,"detail":"a type invariant does not hold","kind":"InvariantViolation","path":""},"released":[]}
    # only the inner one
    "root":15,"commands":[["set",15,[[{"i":1},{"i":1}],{"i":0}]]]}
    = 1 {"error":{"command":1,"detail":"a type invariant does not hold","kind":"InvariantViolation","path":""},"released":[]}
    # what is refused is released
    "root":17,"tokens":2,"commands":[
        ["set",17,[{"t":0},{"i":1}]],["set",17,[{"t":1},{"i":0}]]
    ]}
    = 1 {"error":{"command":2,"detail":"a type invariant does not hold","kind":"InvariantViolation","path":""},"released":[0,1]}
    # what is replaced before isn't asked
    "root":17,"tokens":2,"commands":[
        ["set",17,[{"t":0},{"i":0}]],["set",17,[{"t":1},{"i":1}]]
    ]}
    = 0 {"ok":[{"t":1},{"i":1}],"released":[0]}
    # the numbers in a dynamic value don't count
    "root":19,"commands":[["set",19,[{"d":{"i":-1}}]]]}
    = 0 {"ok":[{"d":{"i":-1}}],"released":[]}
    # a struct without fields
    "root":20,"commands":[]}
    = 1 {"error":{"command":0,"detail":"a type invariant does not hold","kind":"InvariantViolation","path":""},"released":[]}
"#;

/// Shapes that name as their invariant what nothing passes, and are no structs, before the root.
const UNASKED: &str = r#"{"shapes":[
    {"name":"u32","def":"u32","invariant":2},
    {"name":"String","def":"String","invariant":2},
    {"name":"Res","def":"opaque","invariant":2},
    {"name":"Kind","def":{"enum":{"repr":"U8","variants":[
        {"name":"A","fields":[{"name":"x","shape":0}],"discriminant":0}
    ]}},"invariant":2},
    {"name":"Maybe","def":{"option":0},"invariant":2},
    {"name":"List","def":{"list":0},"invariant":2},
    {"name":"Set","def":{"set":0},"invariant":2},
    {"name":"Map","def":{"map":[0,0]},"invariant":2},
    {"name":"Either","def":{"result":[0,0]},"invariant":2},
    {"name":"Link","def":{"pointer":{"known":"Box","pointee":0}},"invariant":2},
    {"name":"Two","def":{"array":[0,2]},"invariant":2},
    {"name":"Any","def":"dynamic","invariant":2},
    {"name":"All","def":{"struct":[
        {"name":"string","shape":1},{"name":"res","shape":2},{"name":"kind","shape":3},
        {"name":"maybe","shape":4},{"name":"list","shape":5},{"name":"set","shape":6},
        {"name":"map","shape":7},{"name":"either","shape":8},{"name":"link","shape":9},
        {"name":"two","shape":10},{"name":"any","shape":11}
    ]}}
],"#;

const NOT_ASKED: &str = r#"
    # each of them
    "root":12,"tokens":1,"commands":[["set",12,[
        "x",{"t":0},{"v":[0,[1]]},{"s":2},{"l":[3]},{"e":[4]},{"m":[[5,6]]},{"ok":7},{"p":8},
        [9,10],{"d":11}
    ]]]}
    = 0 {"ok":[
        "x",{"t":0},{"v":[0,[1]]},{"s":2},{"l":[3]},{"e":[4]},{"m":[[5,6]]},{"ok":7},{"p":8},
        [9,10],{"d":11}
    ],"released":[]}
"#;

/// Documents that are refused for what their hooks and validators are, from the shapes on.
const REFUSED: &str = r#"
    # a bound of what is no number
    {"name":"b","def":"bool"},
    {"name":"s","def":{"struct":[{"name":"x","shape":0,"validators":[{"min":1}]}]}}
    ],"root":0,"commands":[]}
    = 2 {"entry":1,"fault":"Unchecked","rule":5}
    # a parse of too large a number
    {"name":"u","def":"u8","parse":65536}],"root":0,"commands":[]}
    = 2 {"entry":0,"fault":"Unchecked","rule":8}
    # a check of too large a number
    {"name":"u","def":"u8"},
    {"name":"s","def":{"struct":[{"name":"x","shape":0,"validators":[{"custom":65536}]}]}}
    ],"root":0,"commands":[]}
    = 2 {"entry":1,"fault":"Unchecked","rule":8}
"#;

#[test]
fn validators_and_invariants_are_asked_and_hooks_checked(rt: HostRuntime) {
    let tables = [
        (VALIDATED, 16, EACH_VALIDATOR),
        (BOUNDED, 12, ASKED_AT_ENDS),
        (BOUNDED, 10, ASKED_AT_THE_END),
        (KEPT, 21, ASKED_AT_BUILD),
        (UNASKED, 1, NOT_ASKED),
        (r#"{"shapes":["#, 3, REFUSED),
    ];
    check_tables(&rt, &tables);
}
