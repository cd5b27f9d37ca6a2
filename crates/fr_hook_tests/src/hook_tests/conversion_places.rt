//! Wrappers and proxies wherever a place may stand, and one in another.
use super::documents::{check_report, check_tables};
use std::process::Abort;

/// The shapes u32, Res (opaque), Src (two of them), P (the first field of a Src), what holds Ps (a
/// list, maps to and from them, a set, a struct, a set of these, an option, a pointer, an array),
/// Plain and Any (dynamic, the latter the former), All (one of each), Q (which refuses every Src),
/// a list and a set of Qs, before the root.
const PLACES: &str = r#"{"shapes":[
    {"name":"u32","def":"u32"},
    {"name":"Res","def":"opaque"},
    {"name":"Src","def":{"struct":[{"name":"a","shape":1},{"name":"b","shape":1}]}},
    {"name":"P","def":"opaque","proxy":{"source":2,"convert":0}},
    {"name":"List","def":{"list":3}},
    {"name":"Values","def":{"map":[0,3]}},
    {"name":"Keys","def":{"map":[3,0]}},
    {"name":"Set","def":{"set":3}},
    {"name":"Holder","def":{"struct":[{"name":"p","shape":3}]}},
    {"name":"Holders","def":{"set":8}},
    {"name":"Maybe","def":{"option":3}},
    {"name":"Boxed","def":{"pointer":{"known":"Box","pointee":3}}},
    {"name":"Two","def":{"array":[3,2]}},
    {"name":"Plain","def":"dynamic"},
    {"name":"Any","def":"dynamic","proxy":{"source":13,"convert":1}},
    {"name":"All","def":{"struct":[
        {"name":"list","shape":4},{"name":"values","shape":5},{"name":"keys","shape":6},
        {"name":"set","shape":7},{"name":"holders","shape":9},{"name":"maybe","shape":10},
        {"name":"boxed","shape":11},{"name":"two","shape":12},{"name":"any","shape":14}
    ]}},
    {"name":"Q","def":"opaque","proxy":{"source":2,"convert":2}},
    {"name":"QList","def":{"list":16}},
    {"name":"QSet","def":{"set":16}}
],"#;

/// The second item of the set is the same as the first.
const EVERYWHERE: &str = r#"
    ["begin_field","list"],["init_list"],["begin_list_item"],["begin_custom_deserialization_from_shape"],
    ["set",2,[{"t":0},{"t":1}]],["end"],["end"],["end"],
    ["begin_field","values"],["init_map"],["begin_key"],["set",0,7],["end"],["begin_value"],
    ["begin_custom_deserialization_from_shape"],["set",2,[{"t":2},{"t":3}]],["end"],["end"],["end"],
    ["begin_field","keys"],["init_map"],["begin_key"],["begin_custom_deserialization_from_shape"],
    ["set",2,[{"t":4},{"t":5}]],["end"],["end"],["begin_value"],["set",0,8],["end"],["end"],
    ["begin_field","set"],["init_set"],["begin_set_item"],["begin_custom_deserialization_from_shape"],
    ["set",2,[{"t":6},{"t":7}]],["end"],["end"],["begin_set_item"],["begin_custom_deserialization_from_shape"],
    ["set",2,[{"t":8},{"t":9}]],["end"],["end"],["end"],
    ["begin_field","holders"],["init_set"],["begin_set_item"],["begin_field","p"],
    ["begin_custom_deserialization_from_shape"],["set",2,[{"t":10},{"t":11}]],["end"],["end"],["end"],["end"],
    ["begin_field","maybe"],["begin_some"],["begin_custom_deserialization_from_shape"],
    ["set",2,[{"t":12},{"t":13}]],["end"],["end"],["end"],
    ["begin_field","boxed"],["begin_smart_ptr"],["begin_custom_deserialization_from_shape"],
    ["set",2,[{"t":14},{"t":15}]],["end"],["end"],["end"],
    ["begin_field","two"],["begin_nth_field",1],["begin_custom_deserialization_from_shape"],
    ["set",2,[{"t":16},{"t":17}]],["end"],["end"],["begin_nth_field",0],["set",3,{"t":18}],["end"],["end"],
    ["begin_field","any"],["init_map"],["begin_object_entry","x"],["begin_custom_deserialization_from_shape"],
    ["set",13,{"d":5}],["end"],["end"],["end"]"#;

const ALL_OF_THEM: &str = r#"{"ok":[
    {"l":[{"t":0}]},{"m":[[7,{"t":2}]]},{"m":[[{"t":4},8]]},{"e":[{"t":6}]},{"e":[[{"t":10}]]},
    {"s":{"t":12}},{"p":{"t":14}},[{"t":18},{"t":16}],{"d":{"o":[["x",5]]}}
],"released":[1,3,5,7,8,9,11,13,15,17]}"#;

const REFUSED_THERE: &str = r#"
    # an item of a list
    "root":17,"tokens":2,"commands":[
        ["init_list"],["begin_list_item"],["begin_custom_deserialization_from_shape"],
        ["set",2,[{"t":0},{"t":1}]],["end"]
    ]}
    = 1 {"error":{"command":4,"detail":"refused","kind":"CustomDeserializationError","path":"[0]::proxy"},"released":[0,1]}
    # an item of a set in deferred mode, as it ends
    "root":18,"tokens":2,"commands":[
        ["begin_deferred"],["init_set"],["begin_set_item"],["begin_custom_deserialization_from_shape"],
        ["set",2,[{"t":0},{"t":1}]],["end"],["end"]
    ]}
    = 1 {"error":{"command":6,"detail":"refused","kind":"CustomDeserializationError","path":"[item]"},"released":[0,1]}
    # the source of an entry is left open
    "root":14,"commands":[
        ["init_map"],["begin_object_entry","x"],["begin_custom_deserialization_from_shape"]
    ]}
    = 1 {"error":{"command":3,"detail":"build() called but more than one frame is on the stack",
        "kind":"InvariantViolation","path":"[x]::proxy"},"released":[]}
"#;

/// The shapes u32, NonZero (which wraps it) and Outer (which wraps a NonZero), Res (opaque), Src (two
/// of them), P (the first field of a Src), Again (for which a P stands in), Made and Both (made of a
/// Src and of a P), Meters (a field and no hook), Opt (an option), Stand (another's stand-in), All
/// (these), an enum and a number without hooks, and what no hook makes, before the root.
const NESTED: &str = r#"{"shapes":[
    {"name":"u32","def":"u32"},
    {"name":"NonZero","def":"u32","inner":0,"convert":3},
    {"name":"Outer","def":"u32","inner":1,"convert":1},
    {"name":"Res","def":"opaque"},
    {"name":"Src","def":{"struct":[{"name":"a","shape":3},{"name":"b","shape":3}]}},
    {"name":"P","def":"opaque","proxy":{"source":4,"convert":0}},
    {"name":"Again","def":"opaque","proxy":{"source":5,"convert":1}},
    {"name":"Made","def":"opaque","inner":0,"builder":4,"convert":0},
    {"name":"Both","def":"opaque","builder":5,"convert":1},
    {"name":"Meters","def":{"tuple_struct":[{"name":"0","shape":0}]},"inner":0},
    {"name":"Opt","def":{"option":0},"inner":0,"convert":2},
    {"name":"Stand","def":"other","inner":0,"convert":3},
    {"name":"All","def":{"struct":[
        {"name":"outer","shape":2},{"name":"again","shape":6},{"name":"made","shape":7},
        {"name":"both","shape":8},{"name":"meters","shape":9},{"name":"opt","shape":10},
        {"name":"stand","shape":11}
    ]}},
    {"name":"Kind","def":{"enum":{"repr":"U8","variants":[
        {"name":"A","fields":[{"name":"x","shape":0}],"discriminant":0}
    ]}},"inner":0},
    {"name":"Bare","def":"u32","inner":0},
    {"name":"Never","def":"u32","inner":0,"convert":9},
    {"name":"Lost","def":"u32","proxy":{"source":0,"convert":9}}
],"#;

/// An option is begun as one, and its hook isn't asked.
const IN_ONE_ANOTHER: &str = r#"
    ["begin_field","outer"],["begin_inner"],["begin_inner"],["set",0,5],["end"],["end"],["end"],
    ["begin_field","again"],["begin_custom_deserialization_from_shape"],
    ["begin_custom_deserialization_from_shape"],["set",4,[{"t":0},{"t":1}]],["end"],["end"],["end"],
    ["begin_field","made"],["begin_inner"],["set",4,[{"t":2},{"t":3}]],["end"],["end"],
    ["begin_field","both"],["begin_inner"],["begin_custom_deserialization_from_shape"],
    ["set",4,[{"t":4},{"t":5}]],["end"],["end"],["end"],
    ["begin_field","meters"],["begin_inner"],["set",0,6],["end"],["end"],
    ["begin_field","opt"],["begin_inner"],["set",0,0],["end"],["end"],
    ["begin_field","stand"],["begin_inner"],["set",0,7],["end"],["end"]"#;

const ALL_NESTED: &str = r#"{"ok":[5,{"t":0},{"t":2},{"t":4},[6],{"s":0},7],"released":[1,3,5]}"#;

const NOT_WRAPPED: &str = r#"
    # the wrapper in a wrapper refuses
    "root":2,"commands":[["begin_inner"],["begin_inner"],["set",0,0],["end"]]}
    = 1 {"error":{"command":3,"detail":"must not be zero","kind":"TryFromError","path":"::inner::inner"},"released":[]}
    # in deferred mode at its end
    "root":2,"commands":[
        ["begin_deferred"],["begin_inner"],["begin_inner"],["set",0,0],["end"],["end"],["finish_deferred"]
    ]}
    = 1 {"error":{"command":6,"detail":"must not be zero","kind":"TryFromError","path":""},"released":[]}
    # the source of a source is half done
    "root":6,"tokens":1,"commands":[
        ["begin_custom_deserialization_from_shape"],["begin_custom_deserialization_from_shape"],
        ["begin_nth_field",0],["set",3,{"t":0}],["end"],["end"]
    ]}
    = 1 {"error":{"command":5,"detail":"b","kind":"UninitializedField","path":"::proxy::proxy"},"released":[0]}
    # a wrapper without a hook is entered as it is without one
    "root":9,"commands":[["begin_inner"],["begin_inner"]]}
    = 1 {"error":{"command":1,"detail":"type does not have an inner value","kind":"OperationFailed","path":"0"},"released":[]}
    # where a variant has to be selected
    "root":13,"commands":[["select_nth_variant",0],["begin_inner"]]}
    = 1 {"error":{"command":1,"detail":"must call select_variant before selecting enum fields",
        "kind":"OperationFailed","path":""},"released":[]}
    # where there is no field
    "root":14,"commands":[["begin_inner"]]}
    = 1 {"error":{"command":0,"detail":"cannot select a field from this type","kind":"OperationFailed","path":""},"released":[]}
    # a hook that makes nothing
    "root":15,"commands":[["begin_inner"],["set",0,5],["end"]]}
    = 1 {"error":{"command":2,"detail":"","kind":"TryFromError","path":"::inner"},"released":[]}
    # of a proxy
    "root":16,"commands":[["begin_custom_deserialization_from_shape"],["set",0,5],["end"]]}
    = 1 {"error":{"command":2,"detail":"","kind":"CustomDeserializationError","path":"::proxy"},"released":[]}
"#;

/// Runs a script in strict mode, and then all of it in deferred mode.
fn check_in_both_modes<'a>(
    rt: &(impl Abort + AllocGlobal),
    (shapes, front, commands): (&'a str, &'a str, &'a str),
    want: &str,
) {
    let strict = [shapes, front, commands, "]}"];
    check_report(rt, "strict", &strict, 0, want);
    let (begin, finish) = (r#"["begin_deferred"],"#, r#",["finish_deferred"]]}"#);
    let deferred = [shapes, front, begin, commands, finish];
    check_report(rt, "deferred", &deferred, 0, want);
}

#[test]
fn a_place_is_converted_wherever_it_stands_and_in_another(rt: HostRuntime) {
    let front = r#""root":15,"tokens":19,"commands":["#;
    check_in_both_modes(&rt, (PLACES, front, EVERYWHERE), ALL_OF_THEM);
    let front = r#""root":12,"tokens":6,"commands":["#;
    check_in_both_modes(&rt, (NESTED, front, IN_ONE_ANOTHER), ALL_NESTED);
    let tables = [(PLACES, 3, REFUSED_THERE), (NESTED, 8, NOT_WRAPPED)];
    check_tables(&rt, &tables);
}
