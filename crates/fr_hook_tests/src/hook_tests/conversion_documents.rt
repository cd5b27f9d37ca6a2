//! Documents in which a place is converted: by which proxy of a field or of a shape, what is entered
//! again as it is and what afresh, where a mode may end, which of several failures is told, and what
//! is then begun as something else.
use super::documents::check_tables;

/// The shapes u32, Pair (two of them), First (the first number of a Pair), Record, Kind (a variant
/// with a proxied field) and Firsts (a list of First), before the root. Of a Record's fields a to d
/// have a proxy for all formats and one for json, e that for json alone, and f and g none; e and f
/// are a First.
const FIELDS: &str = r#"{"shapes":[
    {"name":"u32","def":"u32"},
    {"name":"Pair","def":{"struct":[{"name":"x","shape":0},{"name":"y","shape":0}]}},
    {"name":"First","def":"u32","proxy":{"source":1,"convert":0}},
    {"name":"Record","def":{"struct":[
        {"name":"a","shape":0,"proxy":{"source":1,"convert":0},"format_proxies":[{"format":"json","source":0,"convert":3}]},
        {"name":"b","shape":0,"proxy":{"source":1,"convert":0},"format_proxies":[{"format":"json","source":0,"convert":3}]},
        {"name":"c","shape":0,"proxy":{"source":1,"convert":0},"format_proxies":[{"format":"json","source":0,"convert":3}]},
        {"name":"d","shape":0,"proxy":{"source":1,"convert":0},"format_proxies":[{"format":"json","source":0,"convert":3}]},
        {"name":"e","shape":2,"format_proxies":[{"format":"json","source":0,"convert":3}]},
        {"name":"f","shape":2},
        {"name":"g","shape":0}
    ]}},
    {"name":"Kind","def":{"enum":{"repr":"U8","variants":[
        {"name":"A","fields":[{"name":"x","shape":0,"proxy":{"source":1,"convert":0}}],"discriminant":0}
    ]}}},
    {"name":"Firsts","def":{"list":2}}
],"#;

const BY_FORMAT: &str = r#"
    # each field by what it has
    "root":3,"commands":[
        ["begin_field","a"],["begin_custom_deserialization"],["set",1,[1,9]],["end"],["end"],
        ["begin_field","b"],["begin_custom_deserialization_with_format"],["set",1,[2,9]],["end"],["end"],
        ["begin_field","c"],["begin_custom_deserialization_with_format","json"],["set",0,3],["end"],["end"],
        ["begin_field","d"],["begin_custom_deserialization_with_format","toml"],["set",1,[4,9]],["end"],["end"],
        ["begin_field","e"],["begin_custom_deserialization_from_shape"],
        ["begin_custom_deserialization_with_format","json"],["set",0,5],["end"],["end"],
        ["begin_field","f"],["begin_custom_deserialization_from_shape_with_format","json"],["set",1,[6,9]],["end"],["end"],
        ["begin_field","g"],["begin_custom_deserialization_from_shape_with_format"],["set",0,7],["end"]
    ]}
    = 0 {"ok":[1,2,3,4,5,6,7],"released":[]}
    # in deferred mode, and two of them again
    "root":3,"commands":[
        ["begin_deferred"],["begin_field","a"],["begin_custom_deserialization"],["begin_field","x"],["set",0,1],["end"],
        ["end"],["end"],["begin_field","c"],["begin_custom_deserialization_with_format","json"],["set",0,0],["end"],["end"],
        ["begin_field","b"],["set",0,2],["end"],["begin_field","d"],["set",0,4],["end"],
        ["begin_field","e"],["set",2,5],["end"],["begin_field","f"],["set",2,6],["end"],
        ["begin_field","g"],["set",0,7],["end"],["begin_field","a"],["begin_custom_deserialization_with_format","toml"],
        ["begin_field","y"],["set",0,9],["end"],["end"],["end"],
        ["begin_field","c"],["begin_custom_deserialization_with_format","json"],["set",0,3],["end"],["end"],["finish_deferred"]
    ]}
    = 0 {"ok":[1,2,3,4,5,6,7],"released":[]}
    # a proxy for one format refuses
    "root":3,"commands":[
        ["begin_field","c"],["begin_custom_deserialization_with_format","json"],["set",0,0],["end"]
    ]}
    = 1 {"error":{"command":3,"detail":"must not be zero","kind":"CustomDeserializationError","path":"c::proxy"},"released":[]}
    # behind a proxy a field is told by its number
    "root":3,"commands":[
        ["begin_field","a"],["begin_custom_deserialization"],["begin_field","y"],["begin_field","y"]
    ]}
    = 1 {"error":{"command":3,"detail":"cannot select a field from a primitive type",
        "kind":"OperationFailed","path":"a::proxy.1"},"released":[]}
    # a variant's field
    "root":4,"commands":[
        ["select_nth_variant",0],["begin_nth_field",0],["begin_custom_deserialization"],["set",1,[8,9]],["end"],["end"]
    ]}
    = 0 {"ok":{"v":[0,[8]]},"released":[]}
    # whose source is half done
    "root":4,"commands":[
        ["select_nth_variant",0],["begin_nth_field",0],["begin_custom_deserialization"],
        ["begin_field","x"],["set",0,8],["end"],["end"]
    ]}
    = 1 {"error":{"command":6,"detail":"y","kind":"UninitializedField","path":"0::proxy"},"released":[]}
    # a field whose proxy is for a format, without one
    "root":3,"commands":[["begin_field","e"],["begin_custom_deserialization"]]}
    = 1 {"error":{"command":1,"detail":"no proxy node found for format","kind":"OperationFailed","path":"e"},"released":[]}
    # for another format
    "root":3,"commands":[["begin_field","e"],["begin_custom_deserialization_with_format","toml"]]}
    = 1 {"error":{"command":1,"detail":"no proxy node found for format","kind":"OperationFailed","path":"e"},"released":[]}
    # a field whose shape alone has a proxy
    "root":3,"commands":[["begin_field","f"],["begin_custom_deserialization"]]}
    = 1 {"error":{"command":1,"detail":"field does not have a proxy","kind":"OperationFailed","path":"f"},"released":[]}
    # the root, which is no field
    "root":2,"commands":[["begin_custom_deserialization_with_format","json"]]}
    = 1 {"error":{"command":0,"detail":"not currently processing a field","kind":"OperationFailed","path":""},"released":[]}
    # nor is an item
    "root":5,"commands":[["init_list"],["begin_list_item"],["begin_custom_deserialization"]]}
    = 1 {"error":{"command":2,"detail":"not currently processing a field","kind":"OperationFailed","path":"[0]"},"released":[]}
    # a format is a text
    "root":2,"commands":[["begin_custom_deserialization_with_format",1]]}
    = 2 {"fault":"BadForm","place":"command 0"}
    # and none is left out
    "root":2,"commands":[["end"],["begin_custom_deserialization_from_shape_with_format",null]]}
    = 2 {"fault":"BadForm","place":"command 1"}
    # the other calls have no argument
    "root":2,"commands":[["begin_inner",0]]}
    = 2 {"fault":"BadForm","place":"command 0"}
"#;

/// The shapes Res (opaque), Src and Twin (two of them each) and P, before the root. P is made of a
/// Src's first field, as a wrapper and through proxies: so is it for the format same; for twin it
/// is made of a Twin, and for other by another hook.
const WAYS: &str = r#"{"shapes":[
    {"name":"Res","def":"opaque"},
    {"name":"Src","def":{"struct":[{"name":"a","shape":0},{"name":"b","shape":0}]}},
    {"name":"Twin","def":{"struct":[{"name":"a","shape":0},{"name":"b","shape":0}]}},
    {"name":"P","def":"opaque","builder":1,"convert":0,"proxy":{"source":1,"convert":0},
        "format_proxies":[
            {"format":"same","source":1,"convert":0},{"format":"twin","source":2,"convert":0},
            {"format":"other","source":1,"convert":1}
        ]}
],"root":3,"#;

const BEGUN_AGAIN: &str = r#"
    # by a proxy of the same source and hook
    "tokens":2,"commands":[
        ["begin_deferred"],["begin_custom_deserialization_from_shape"],
        ["begin_nth_field",0],["set",0,{"t":0}],["end"],["end"],
        ["begin_custom_deserialization_from_shape_with_format","same"],
        ["begin_nth_field",1],["set",0,{"t":1}],["end"],["end"],["finish_deferred"]
    ]}
    = 0 {"ok":{"t":0},"released":[1]}
    # by one of another source
    "tokens":2,"commands":[
        ["begin_deferred"],["begin_custom_deserialization_from_shape"],
        ["begin_nth_field",0],["set",0,{"t":0}],["end"],["end"],
        ["begin_custom_deserialization_from_shape_with_format","twin"],
        ["begin_nth_field",1],["set",0,{"t":1}],["end"],["end"],["finish_deferred"]
    ]}
    = 1 {"error":{"command":11,"detail":"a","kind":"UninitializedField","path":""},"released":[0,1]}
    # by one of another hook
    "tokens":2,"commands":[
        ["begin_deferred"],["begin_custom_deserialization_from_shape"],
        ["begin_nth_field",0],["set",0,{"t":0}],["end"],["end"],
        ["begin_custom_deserialization_from_shape_with_format","other"],
        ["begin_nth_field",1],["set",0,{"t":1}],["end"],["end"],["finish_deferred"]
    ]}
    = 1 {"error":{"command":11,"detail":"a","kind":"UninitializedField","path":""},"released":[0,1]}
    # as a wrapper again
    "tokens":2,"commands":[
        ["begin_deferred"],["begin_inner"],["begin_nth_field",0],["set",0,{"t":0}],["end"],["end"],
        ["begin_inner"],["begin_nth_field",1],["set",0,{"t":1}],["end"],["end"],["finish_deferred"]
    ]}
    = 0 {"ok":{"t":0},"released":[1]}
    # as a wrapper after a proxy
    "tokens":2,"commands":[
        ["begin_deferred"],["begin_custom_deserialization_from_shape"],
        ["begin_nth_field",0],["set",0,{"t":0}],["end"],["end"],
        ["begin_inner"],["begin_nth_field",1],["set",0,{"t":1}],["end"],["end"],["finish_deferred"]
    ]}
    = 1 {"error":{"command":11,"detail":"a","kind":"UninitializedField","path":""},"released":[0,1]}
    # in strict mode afresh
    "tokens":3,"commands":[
        ["begin_custom_deserialization_from_shape"],["set",1,[{"t":0},{"t":1}]],["end"],
        ["begin_custom_deserialization_from_shape"],
        ["begin_nth_field",1],["set",0,{"t":2}],["end"],["end"]
    ]}
    = 1 {"error":{"command":7,"detail":"a","kind":"UninitializedField","path":"::proxy"},"released":[0,1,2]}
    # so too as a wrapper
    "tokens":4,"commands":[
        ["begin_inner"],["set",1,[{"t":0},{"t":1}]],["end"],
        ["begin_inner"],["set",1,[{"t":2},{"t":3}]],["end"]
    ]}
    = 0 {"ok":{"t":2},"released":[0,1,3]}
    # what is put at the place itself takes the place of the source
    "tokens":3,"commands":[
        ["begin_deferred"],["begin_custom_deserialization_from_shape"],
        ["set",1,[{"t":0},{"t":1}]],["end"],["set",3,{"t":2}],["finish_deferred"]
    ]}
    = 0 {"ok":{"t":2},"released":[0,1]}
"#;

const MODES_ENDED: &str = r#"
    # deferred mode ends at the place
    "tokens":2,"commands":[
        ["begin_deferred"],["begin_inner"],["set",1,[{"t":0},{"t":1}]],["end"],["finish_deferred"]
    ]}
    = 0 {"ok":{"t":0},"released":[1]}
    # at its source, which then ends in strict mode
    "tokens":2,"commands":[
        ["begin_deferred"],["begin_inner"],["set",1,[{"t":0},{"t":1}]],["finish_deferred"],["end"]
    ]}
    = 0 {"ok":{"t":0},"released":[1]}
    # beneath its source
    "tokens":2,"commands":[
        ["begin_deferred"],["begin_custom_deserialization_from_shape"],
        ["begin_nth_field",0],["set",0,{"t":0}],["finish_deferred"],["end"],
        ["begin_nth_field",1],["set",0,{"t":1}],["end"],["end"]
    ]}
    = 0 {"ok":{"t":0},"released":[1]}
    # deferred mode at the source alone
    "tokens":2,"commands":[
        ["begin_custom_deserialization_from_shape"],["begin_deferred"],
        ["begin_nth_field",0],["set",0,{"t":0}],["end"],["begin_nth_field",1],["set",0,{"t":1}],
        ["end"],["finish_deferred"],["end"]
    ]}
    = 0 {"ok":{"t":0},"released":[1]}
    # which doesn't end there
    "commands":[["begin_inner"],["begin_deferred"],["end"]]}
    = 1 {"error":{"command":2,"detail":"Partial::end() called but would pop below deferred start depth",
        "kind":"InvariantViolation","path":"::inner"},"released":[]}
    # nothing is built at a source
    "commands":[["begin_custom_deserialization_from_shape"]]}
    = 1 {"error":{"command":1,"detail":"build() called but more than one frame is on the stack",
        "kind":"InvariantViolation","path":"::proxy"},"released":[]}
"#;

/// The shapes u32, Res (opaque), Src (two of them), Q (which refuses every Src), Inner (a number)
/// and All (a number, an Inner and a Q), before the root.
const FAILING: &str = r#"{"shapes":[
    {"name":"u32","def":"u32"},
    {"name":"Res","def":"opaque"},
    {"name":"Src","def":{"struct":[{"name":"a","shape":1},{"name":"b","shape":1}]}},
    {"name":"Q","def":"opaque","proxy":{"source":2,"convert":2}},
    {"name":"Inner","def":{"struct":[{"name":"i","shape":0}]}},
    {"name":"All","def":{"struct":[
        {"name":"n","shape":0},{"name":"inner","shape":4},{"name":"q","shape":3}
    ]}}
],"root":5,"#;

const TOLD_FIRST: &str = r#"
    # in strict mode the source as it ends
    "tokens":2,"commands":[
        ["begin_field","n"],["set",0,1],["end"],["begin_field","q"],
        ["begin_custom_deserialization_from_shape"],["set",2,[{"t":0},{"t":1}]],["end"]
    ]}
    = 1 {"error":{"command":6,"detail":"refused","kind":"CustomDeserializationError","path":"q::proxy"},"released":[0,1]}
    # a refused source before a place that is less deep
    "tokens":2,"commands":[
        ["begin_deferred"],["begin_field","n"],["end"],["begin_field","q"],
        ["begin_custom_deserialization_from_shape"],["set",2,[{"t":0},{"t":1}]],["end"],["end"],
        ["finish_deferred"]
    ]}
    = 1 {"error":{"command":8,"detail":"refused","kind":"CustomDeserializationError","path":""},"released":[0,1]}
    # a place that is as deep, and comes first, before a refused source
    "tokens":2,"commands":[
        ["begin_deferred"],["begin_field","inner"],["begin_field","i"],["end"],["end"],
        ["begin_field","q"],["begin_custom_deserialization_from_shape"],
        ["set",2,[{"t":0},{"t":1}]],["end"],["end"],["finish_deferred"]
    ]}
    = 1 {"error":{"command":10,"detail":"u32","kind":"UninitializedValue","path":""},"released":[0,1]}
    # a source that is half done isn't converted
    "tokens":1,"commands":[
        ["begin_deferred"],["begin_field","q"],["begin_custom_deserialization_from_shape"],
        ["begin_field","a"],["set",1,{"t":0}],["end"],["end"],["end"],["finish_deferred"]
    ]}
    = 1 {"error":{"command":8,"detail":"b","kind":"UninitializedField","path":""},"released":[0]}
    # nor one in which a place fails, which is deeper than the other
    "commands":[
        ["begin_deferred"],["begin_field","inner"],["begin_field","i"],["end"],["end"],
        ["begin_field","q"],["begin_custom_deserialization_from_shape"],
        ["begin_field","a"],["end"],["end"],["end"],["finish_deferred"]
    ]}
    = 1 {"error":{"command":11,"detail":"Res","kind":"UninitializedValue","path":""},"released":[]}
"#;

/// The shapes u32, Pair (two of them), and the same, an array, a list, a map, a set, an enum and an
/// option, for each of which the one before it, or the first, stands in; before the root.
const REBEGUN: &str = r#"{"shapes":[
    {"name":"u32","def":"u32"},
    {"name":"Pair","def":{"struct":[{"name":"x","shape":0},{"name":"y","shape":0}]}},
    {"name":"Same","def":{"struct":[
        {"name":"x","shape":0,"default":{"custom":5}},{"name":"y","shape":0}
    ]},"proxy":{"source":1,"convert":1}},
    {"name":"Two","def":{"array":[0,2]}},
    {"name":"SameTwo","def":{"array":[0,2]},"proxy":{"source":3,"convert":1}},
    {"name":"List","def":{"list":0},"proxy":{"source":0,"convert":1}},
    {"name":"Map","def":{"map":[0,0]},"proxy":{"source":0,"convert":1}},
    {"name":"Set","def":{"set":0},"proxy":{"source":0,"convert":1}},
    {"name":"Kind","def":{"enum":{"repr":"U8","variants":[
        {"name":"A","fields":[{"name":"x","shape":0}],"discriminant":0}
    ]}},"proxy":{"source":0,"convert":1}},
    {"name":"Maybe","def":{"option":0},"proxy":{"source":0,"convert":1}}
],"root":"#;

/// A place at which deferred mode begins and a source was entered and left.
const BEGUN_OTHERWISE: &str = r#"
    # as a struct, with the default of the field that was in the source
    2,"commands":[
        ["begin_deferred"],["begin_custom_deserialization_from_shape"],["set",1,[1,2]],["end"],
        ["begin_field","y"],["set",0,9],["end"],["finish_deferred"]
    ]}
    = 0 {"ok":[5,9],"released":[]}
    # with a field that has none
    2,"commands":[
        ["begin_deferred"],["begin_custom_deserialization_from_shape"],["set",1,[1,2]],["end"],
        ["begin_nth_field",0],["set",0,9],["end"],["finish_deferred"]
    ]}
    = 1 {"error":{"command":7,"detail":"y","kind":"UninitializedField","path":""},"released":[]}
    # by a default alone
    2,"commands":[
        ["begin_deferred"],["begin_custom_deserialization_from_shape"],["set",1,[1,2]],["end"],
        ["set_nth_field_to_default",0],["finish_deferred"]
    ]}
    = 1 {"error":{"command":5,"detail":"y","kind":"UninitializedField","path":""},"released":[]}
    # a field that there isn't
    2,"commands":[
        ["begin_deferred"],["begin_custom_deserialization_from_shape"],["end"],["begin_nth_field",2]
    ]}
    = 1 {"error":{"command":3,"detail":"field index out of bounds","kind":"OperationFailed","path":""},"released":[]}
    # as an array
    4,"commands":[
        ["begin_deferred"],["begin_custom_deserialization_from_shape"],["set",3,[1,2]],["end"],
        ["begin_nth_field",1],["set",0,4],["end"],["begin_nth_field",0],["set",0,3],["end"],["finish_deferred"]
    ]}
    = 0 {"ok":[3,4],"released":[]}
    # none of whose elements is there
    4,"commands":[
        ["begin_deferred"],["begin_custom_deserialization_from_shape"],["set",3,[1,2]],["end"],
        ["init_array"],["begin_nth_field",0],["set",0,3],["end"],["finish_deferred"]
    ]}
    = 1 {"error":{"command":8,"detail":"SameTwo","kind":"UninitializedValue","path":""},"released":[]}
    # as a list
    5,"commands":[["begin_deferred"],["begin_custom_deserialization_from_shape"],["end"],["init_list"]]}
    = 1 {"error":{"command":3,"detail":"init_list called but tracker isn't something list-like",
        "kind":"UnexpectedTracker","path":""},"released":[]}
    # with an item
    5,"commands":[["begin_deferred"],["begin_custom_deserialization_from_shape"],["end"],["begin_list_item"]]}
    = 1 {"error":{"command":3,"detail":"must call init_list() before push()","kind":"OperationFailed","path":""},"released":[]}
    # as a map
    6,"commands":[["begin_deferred"],["begin_custom_deserialization_from_shape"],["end"],["init_map"]]}
    = 1 {"error":{"command":3,"detail":"init_map called but tracker isn't Scalar, Map, or DynamicValue",
        "kind":"UnexpectedTracker","path":""},"released":[]}
    # as a set
    7,"commands":[["begin_deferred"],["begin_custom_deserialization_from_shape"],["end"],["init_set"]]}
    = 1 {"error":{"command":3,"detail":"init_set called but tracker isn't something set-like",
        "kind":"UnexpectedTracker","path":""},"released":[]}
    # as an enum without a variant
    8,"commands":[["begin_deferred"],["begin_custom_deserialization_from_shape"],["end"],["begin_nth_field",0]]}
    = 1 {"error":{"command":3,"detail":"must call select_variant before selecting enum fields",
        "kind":"OperationFailed","path":""},"released":[]}
    # as an enum
    8,"commands":[
        ["begin_deferred"],["begin_custom_deserialization_from_shape"],["end"],["select_nth_variant",0],
        ["begin_nth_field",0],["set",0,2],["end"],["finish_deferred"]
    ]}
    = 0 {"ok":{"v":[0,[2]]},"released":[]}
    # as an option
    9,"commands":[
        ["begin_deferred"],["begin_custom_deserialization_from_shape"],["set",0,1],["end"],
        ["begin_some"],["set",0,2],["end"],["finish_deferred"]
    ]}
    = 0 {"ok":{"s":2},"released":[]}
"#;

/// The shapes u32, Pair (two of them), and three that are made of a value of these: by its first
/// child, by itself, and by itself where it isn't zero.
const MADE: &str = r#"{"shapes":[
    {"name":"u32","def":"u32"},
    {"name":"Pair","def":{"struct":[{"name":"x","shape":0},{"name":"y","shape":0}]}},
    {"name":"First","def":"u8","proxy":{"source":1,"convert":0}},
    {"name":"Same","def":"u8","proxy":{"source":0,"convert":1}},
    {"name":"NotZero","def":"u8","proxy":{"source":0,"convert":3}}
],"#;

const MISFITS: &str = r#"
    # the first child doesn't fit
    "root":2,"commands":[["begin_custom_deserialization_from_shape"],["set",1,[256,9]],["end"]]}
    = 1 {"error":{"command":2,"detail":"","kind":"CustomDeserializationError","path":"::proxy"},"released":[]}
    # the value itself doesn't
    "root":3,"commands":[["begin_custom_deserialization_from_shape"],["set",0,256],["end"]]}
    = 1 {"error":{"command":2,"detail":"","kind":"CustomDeserializationError","path":"::proxy"},"released":[]}
    # nor does one that isn't zero
    "root":4,"commands":[["begin_custom_deserialization_from_shape"],["set",0,256],["end"]]}
    = 1 {"error":{"command":2,"detail":"","kind":"CustomDeserializationError","path":"::proxy"},"released":[]}
"#;

#[test]
fn places_are_converted_and_begun_again_and_refusals_told(rt: HostRuntime) {
    let tables = [
        (FIELDS, 14, BY_FORMAT),
        (WAYS, 8, BEGUN_AGAIN),
        (WAYS, 6, MODES_ENDED),
        (FAILING, 5, TOLD_FIRST),
        (REBEGUN, 13, BEGUN_OTHERWISE),
        (MADE, 3, MISFITS),
    ];
    check_tables(&rt, &tables);
}
