//! Documents over two tables of samples: a shape for which another stands in, and one that is
//! refused so; and a table with a slice, texts, a wrapper, a dynamic value, results and a shape
//! that can't be planned.
use super::documents::check_tables;

/// The shapes Res (opaque), Src (two of them), P (the first field of a Src) and Q (which refuses
/// every Src), before the root.
const PROXIED: &str = r#"{"shapes":[
    {"name":"Res","def":"opaque"},
    {"name":"Src","def":{"struct":[{"name":"a","shape":0},{"name":"b","shape":0}]}},
    {"name":"P","def":"opaque","proxy":{"source":1,"convert":0}},
    {"name":"Q","def":"opaque","proxy":{"source":1,"convert":2}}
],"#;

const CONVERTED: &str = r#"
    # what the value doesn't keep of its source is released
    "root":2,"tokens":2,"commands":[
        ["begin_custom_deserialization_from_shape"],["set",1,[{"t":0},{"t":1}]],["end"]
    ]}
    = 0 {"ok":{"t":0},"released":[1]}
    # a source that is refused is released, and is where the builder was
    "root":3,"tokens":2,"commands":[
        ["begin_custom_deserialization_from_shape"],["set",1,[{"t":0},{"t":1}]],["end"]
    ]}
    = 1 {"error":{"command":2,"detail":"refused","kind":"CustomDeserializationError","path":"::proxy"},"released":[0,1]}
    # in deferred mode it is refused at the end
    "root":3,"tokens":2,"commands":[
        ["begin_deferred"],["begin_custom_deserialization_from_shape"],
        ["set",1,[{"t":0},{"t":1}]],["end"],["finish_deferred"]
    ]}
    = 1 {"error":{"command":4,"detail":"refused","kind":"CustomDeserializationError","path":""},"released":[0,1]}
"#;

const ENTERED_AGAIN: &str = r#"
    # each half of the source by itself
    "root":2,"tokens":2,"commands":[
        ["begin_deferred"],["begin_custom_deserialization_from_shape"],
        ["begin_nth_field",0],["set",0,{"t":0}],["end"],["end"],
        ["begin_custom_deserialization_from_shape"],
        ["begin_nth_field",1],["set",0,{"t":1}],["end"],["end"],["finish_deferred"]
    ]}
    = 0 {"ok":{"t":0},"released":[1]}
"#;

/// The shapes u32, String, Sl (a slice), ArcSlice, str, BoxStr, NonZero (which wraps a u32), Any
/// (dynamic), R (a result), Res2 (two of them), Odd (which stands for nothing), Res (opaque) and
/// Bad (of both), before the root.
const MIXED: &str = r#"{"shapes":[
    {"name":"u32","def":"u32"},
    {"name":"String","def":"String"},
    {"name":"Sl","def":{"slice":0}},
    {"name":"ArcSlice","def":{"pointer":{"known":"Arc","pointee":2}}},
    {"name":"str","def":"str"},
    {"name":"BoxStr","def":{"pointer":{"known":"Box","pointee":4}}},
    {"name":"NonZero","def":"u32","inner":0,"convert":3},
    {"name":"Any","def":"dynamic"},
    {"name":"R","def":{"result":[1,0]}},
    {"name":"Res2","def":{"struct":[{"name":"success","shape":8},{"name":"failure","shape":8}]}},
    {"name":"Odd","def":"other"},
    {"name":"Res","def":"opaque"},
    {"name":"Bad","def":{"struct":[{"name":"o","shape":10},{"name":"r","shape":11}]}}
],"#;

const WRAPPED: &str = r#"
    # a slice behind a pointer
    "root":3,"commands":[
        ["begin_smart_ptr"],["init_list"],["begin_list_item"],["set",0,1],["end"],
        ["begin_list_item"],["set",0,2],["end"],["end"]
    ]}
    = 0 {"ok":{"p":{"l":[1,2]}},"released":[]}
    # the same in deferred mode
    "root":3,"commands":[
        ["begin_deferred"],["begin_smart_ptr"],["init_list"],["begin_list_item"],["set",0,1],["end"],
        ["begin_list_item"],["set",0,2],["end"],["end"],["finish_deferred"]
    ]}
    = 0 {"ok":{"p":{"l":[1,2]}},"released":[]}
    # a text behind a pointer
    "root":5,"commands":[["begin_smart_ptr"],["set",1,"hi"],["end"]]}
    = 0 {"ok":{"p":"hi"},"released":[]}
    # a number in a wrapper
    "root":6,"commands":[["begin_inner"],["set",0,5],["end"]]}
    = 0 {"ok":5,"released":[]}
    # one that the wrapper refuses
    "root":6,"commands":[["begin_inner"],["set",0,0],["end"]]}
    = 1 {"error":{"command":2,"detail":"must not be zero","kind":"TryFromError","path":"::inner"},"released":[]}
    # a text that is a number
    "root":0,"commands":[["parse_from_str","+5"]]}
    = 0 {"ok":5,"released":[]}
    # one that is none
    "root":0,"commands":[["parse_from_str","-1"]]}
    = 1 {"error":{"command":0,"detail":"u32","kind":"ParseFailed","path":""},"released":[]}
"#;

const DYNAMIC_AND_EITHER: &str = r#"
    # an object with a number and an array
    "root":7,"commands":[
        ["init_map"],["begin_object_entry","a"],["set",0,5],["end"],
        ["begin_object_entry","b"],["init_list"],["begin_list_item"],["set",1,"x"],["end"],["end"]
    ]}
    = 0 {"ok":{"d":{"o":[["a",5],["b",["x"]]]}},"released":[]}
    # a result of each side
    "root":9,"commands":[
        ["begin_nth_field",0],["begin_ok"],["set",1,"success"],["end"],["end"],
        ["begin_nth_field",1],["begin_err"],["set",0,404],["end"],["end"]
    ]}
    = 0 {"ok":[{"ok":"success"},{"err":404}],"released":[]}
"#;

const UNPLANNED: &str = r#"
    # a field stands for nothing
    "root":12,"tokens":1,"commands":[["begin_nth_field",1],["set",11,{"t":0}]]}
    = 1 {"error":{"command":0,"detail":"unsupported type for deserialization","kind":"Alloc","path":""},"released":[0]}
    # a text has no size
    "root":4,"commands":[]}
    = 1 {"error":{"command":0,"detail":"type is not sized","kind":"Alloc","path":""},"released":[]}
"#;

const SIDES: &str = r#"
    # with what was left in it
    "root":9,"commands":[
        ["begin_deferred"],["begin_nth_field",0],["begin_ok"],["set",1,"a"],["end"],["end"],
        ["begin_nth_field",1],["begin_err"],["set",0,1],["end"],["end"],
        ["begin_nth_field",0],["begin_ok"],["end"],["end"],["finish_deferred"]
    ]}
    = 0 {"ok":[{"ok":"a"},{"err":1}],"released":[]}
"#;

#[test]
fn documents_over_the_samples_are_reported(rt: HostRuntime) {
    let tables = [
        (PROXIED, 3, CONVERTED),
        (PROXIED, 1, ENTERED_AGAIN),
        (MIXED, 7, WRAPPED),
        (MIXED, 2, DYNAMIC_AND_EITHER),
        (MIXED, 2, UNPLANNED),
        (MIXED, 1, SIDES),
    ];
    check_tables(&rt, &tables);
}
