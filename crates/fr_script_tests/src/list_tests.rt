//! Lists, arrays and pointers to slices in documents: they are begun, take items or elements one
//! behind the other, and are left half done and gone on with.
use crate::documents::{check_parts, check_tables};
use std::process::Abort;

/// The shapes u32, Nums and Items (lists of u32 and of Res, which is opaque), A3 and A5000 (arrays
/// of so many), the slices Sl and ResSl, pointers to these (ArcSlice, BoxRes, RefRes, LooseSlice)
/// and to others (RefU32, RefAny), Pair (a list and a pointer to a slice) and Pairs, before the
/// root.
const LISTS: &str = r#"{"shapes":[
    {"name":"u32","def":"u32"},
    {"name":"Nums","def":{"list":0}},
    {"name":"Res","def":"opaque"},
    {"name":"Items","def":{"list":2}},
    {"name":"A3","def":{"array":[0,3]}},
    {"name":"A5000","def":{"array":[0,5000]}},
    {"name":"Sl","def":{"slice":0}},
    {"name":"ArcSlice","def":{"pointer":{"known":"Arc","pointee":6}}},
    {"name":"ResSl","def":{"slice":2}},
    {"name":"BoxRes","def":{"pointer":{"known":"Box","pointee":8}}},
    {"name":"RefRes","def":{"pointer":{"known":"SharedReference","pointee":8}}},
    {"name":"LooseSlice","def":{"pointer":{"pointee":6}}},
    {"name":"RefU32","def":{"pointer":{"known":"SharedReference","pointee":0}}},
    {"name":"RefAny","def":{"pointer":{"known":"SharedReference"}}},
    {"name":"Pair","def":{"struct":[{"name":"nums","shape":1},{"name":"slice","shape":7}]}},
    {"name":"Pairs","def":{"list":14}}
],"#;

const BUILT: &str = r#"
    # items come behind those of a whole list
    "root":1,"commands":[
        ["set",1,{"l":[1,2]}],["init_list_with_capacity",4294967295],["begin_list_item"],
        ["set",0,3],["end"]
    ]}
    = 0 {"ok":{"l":[1,2,3]},"released":[]}
    # an item is numbered by the whole list
    "root":1,"commands":[["set",1,{"l":[1,2]}],["init_list"],["begin_list_item"],["end"]]}
    = 1 {"error":{"command":3,"detail":"u32","kind":"UninitializedValue","path":"[2]"},"released":[]}
    # a list that is begun twice keeps its items
    "root":1,"commands":[
        ["init_list"],["begin_list_item"],["set",0,1],["end"],
        ["init_list"],["begin_list_item"],["set",0,2],["end"],["init_list"]
    ]}
    = 0 {"ok":{"l":[1,2]},"released":[]}
    # a list that is set releases its items
    "root":3,"tokens":3,"commands":[
        ["init_list"],["begin_list_item"],["set",2,{"t":0}],["end"],
        ["set",3,{"l":[{"t":1}]}],["init_list"],["begin_list_item"],["set",2,{"t":2}],["end"]
    ]}
    = 0 {"ok":{"l":[{"t":1},{"t":2}]},"released":[0]}
    # a refusal far down releases the items above it
    "root":3,"tokens":1,"commands":[
        ["init_list"],["begin_list_item"],["set",2,{"t":0}],["end"],
        ["begin_list_item"],["init_list"]
    ]}
    = 1 {"error":{"command":5,"detail":"init_list can only be called on List or DynamicValue types",
        "kind":"OperationFailed","path":"[1]"},"released":[0]}
    # an array that is begun twice keeps its elements
    "root":4,"commands":[
        ["init_array"],["begin_nth_field",2],["set",0,3],["end"],
        ["init_array"],["begin_nth_field",0],["set",0,1],["end"],
        ["begin_nth_field",1],["set",0,2],["end"]
    ]}
    = 0 {"ok":[1,2,3],"released":[]}
    # an array that is begun and no more
    "root":4,"commands":[["init_array"]]}
    = 1 {"error":{"command":1,"detail":"A3","kind":"UninitializedValue","path":""},"released":[]}
    # a pointer to a slice starts anew in strict mode
    "root":9,"tokens":2,"commands":[
        ["begin_smart_ptr"],["begin_list_item"],["set",2,{"t":0}],["end"],
        ["begin_smart_ptr"],["begin_list_item"],["set",2,{"t":1}],["end"],["end"]
    ]}
    = 0 {"ok":{"p":{"l":[{"t":1}]}},"released":[0]}
    # a pointer to a slice needs no end
    "root":7,"commands":[
        ["begin_smart_ptr"],["begin_list_item"],["set",0,1],["end"],
        ["begin_list_item"],["set",0,2],["end"]
    ]}
    = 0 {"ok":{"p":{"l":[1,2]}},"released":[]}
    # its end leaves the builder where it is
    "root":14,"commands":[
        ["begin_nth_field",1],["begin_smart_ptr"],["end"],["end"],
        ["begin_field","nums"],["init_list"],["end"]
    ]}
    = 0 {"ok":[{"l":[]},{"p":{"l":[]}}],"released":[]}
    # at the root a second end is one too many
    "root":7,"commands":[["begin_smart_ptr"],["end"],["end"]]}
    = 1 {"error":{"command":2,"detail":"Partial::end() called with only one frame on the stack",
        "kind":"InvariantViolation","path":""},"released":[]}
    # an empty borrowed slice takes the place of what was there
    "root":10,"tokens":1,"commands":[["set",10,{"p":{"l":[{"t":0}]}}],["set_empty_shared_slice"]]}
    = 0 {"ok":{"p":{"l":[]}},"released":[0]}
"#;

const LEFT: &str = r#"
    # one that is closed is opened again with its items
    "root":9,"tokens":2,"commands":[
        ["begin_deferred"],["begin_smart_ptr"],["begin_list_item"],["set",2,{"t":0}],["end"],
        ["end"],["begin_smart_ptr"],["begin_list_item"],["set",2,{"t":1}],["end"],
        ["finish_deferred"]
    ]}
    = 0 {"ok":{"p":{"l":[{"t":0},{"t":1}]}},"released":[]}
    # its next item is numbered behind them
    "root":9,"tokens":2,"commands":[
        ["begin_deferred"],["begin_smart_ptr"],["begin_list_item"],["set",2,{"t":0}],["end"],
        ["begin_list_item"],["set",2,{"t":1}],["end"],["end"],
        ["begin_smart_ptr"],["begin_list_item"],["init_list"]
    ]}
    = 1 {"error":{"command":11,
        "detail":"init_list can only be called on List or DynamicValue types",
        "kind":"OperationFailed","path":"[2]"},"released":[0,1]}
    # a list that was left goes on behind its items
    "root":14,"commands":[
        ["begin_deferred"],["begin_field","nums"],["init_list"],["begin_list_item"],["set",0,1],
        ["end"],["begin_list_item"],["set",0,2],["end"],["end"],
        ["begin_field","slice"],["begin_smart_ptr"],["end"],["end"],
        ["begin_field","nums"],["init_list"],["begin_list_item"],["set",0,3],["end"],["end"],
        ["finish_deferred"]
    ]}
    = 0 {"ok":[{"l":[1,2,3]},{"p":{"l":[]}}],"released":[]}
    # items that were left half done are completed at the end
    "root":15,"commands":[
        ["begin_deferred"],["init_list"],["begin_list_item"],["begin_field","slice"],
        ["begin_smart_ptr"],["begin_list_item"],["set",0,7],["end"],["end"],["end"],
        ["begin_field","nums"],["init_list"],["begin_list_item"],["set",0,8],["end"],["end"],
        ["end"],["finish_deferred"]
    ]}
    = 0 {"ok":{"l":[[{"l":[8]},{"p":{"l":[7]}}]]},"released":[]}
    # an item that is only entered is found at the end
    "root":1,"commands":[
        ["begin_deferred"],["init_list"],["begin_list_item"],["set",0,1],["end"],
        ["begin_list_item"],["end"],["finish_deferred"]
    ]}
    = 1 {"error":{"command":7,"detail":"u32","kind":"UninitializedValue","path":""},"released":[]}
    # an array that is begun lacks an element at the end
    "root":4,"commands":[
        ["begin_deferred"],["init_array"],["begin_nth_field",1],["set",0,5],["end"],
        ["finish_deferred"]
    ]}
    = 1 {"error":{"command":5,"detail":"A3","kind":"UninitializedValue","path":""},"released":[]}
    # what is set releases the items that were left
    "root":3,"tokens":2,"commands":[
        ["begin_deferred"],["init_list"],["begin_list_item"],["set",2,{"t":0}],["end"],
        ["begin_list_item"],["set",2,{"t":1}],["end"],["set",3,{"l":[]}],["finish_deferred"]
    ]}
    = 0 {"ok":{"l":[]},"released":[0,1]}
    # items come before, in and behind deferred mode
    "root":3,"tokens":4,"commands":[
        ["init_list"],["begin_list_item"],["set",2,{"t":0}],["end"],
        ["begin_deferred"],["begin_list_item"],["set",2,{"t":1}],["end"],
        ["begin_list_item"],["set",2,{"t":2}],["end"],
        ["finish_deferred"],["begin_list_item"],["set",2,{"t":3}],["end"]
    ]}
    = 0 {"ok":{"l":[{"t":0},{"t":1},{"t":2},{"t":3}]},"released":[]}
    # what is set releases an item that had completed and one that was left
    "root":3,"tokens":3,"commands":[
        ["init_list"],["begin_list_item"],["set",2,{"t":0}],["end"],
        ["begin_deferred"],["begin_list_item"],["set",2,{"t":1}],["end"],
        ["set",3,{"l":[{"t":2}]}],["finish_deferred"]
    ]}
    = 0 {"ok":{"l":[{"t":2}]},"released":[0,1]}
    # a refusal releases items that had completed and those that were left
    "root":3,"tokens":3,"commands":[
        ["init_list"],["begin_list_item"],["set",2,{"t":0}],["end"],
        ["begin_deferred"],["begin_list_item"],["set",2,{"t":1}],["end"],
        ["begin_list_item"],["set",2,{"t":2}],["init_list"]
    ]}
    = 1 {"error":{"command":10,
        "detail":"init_list can only be called on List types or DynamicValue",
        "kind":"OperationFailed","path":"[2]"},"released":[0,1,2]}
"#;

const REFUSED: &str = r#"
    # a list where none is
    "root":0,"commands":[["init_list"]]}
    = 1 {"error":{"command":0,"detail":"init_list can only be called on List or DynamicValue types",
        "kind":"OperationFailed","path":""},"released":[]}
    # a list of what is whole
    "root":0,"commands":[["set",0,5],["init_list_with_capacity",0]]}
    = 1 {"error":{"command":1,"detail":"init_list can only be called on List types or DynamicValue",
        "kind":"OperationFailed","path":""},"released":[]}
    # a list of what is begun otherwise
    "root":15,"commands":[
        ["init_list"],["begin_list_item"],["begin_field","nums"],["init_list"],["end"],
        ["init_list"]
    ]}
    = 1 {"error":{"command":5,"detail":"init_list called but tracker isn't something list-like",
        "kind":"UnexpectedTracker","path":"[0]"},"released":[]}
    # an array where none is
    "root":14,"commands":[["begin_field","nums"],["init_array"]]}
    = 1 {"error":{"command":1,"detail":"init_array can only be called on Array types",
        "kind":"OperationFailed","path":"nums"},"released":[]}
    # an array that is too large
    "root":5,"commands":[["init_array"]]}
    = 1 {"error":{"command":0,"detail":"arrays larger than 4096 elements are not yet supported",
        "kind":"OperationFailed","path":""},"released":[]}
    # an array that is whole
    "root":4,"commands":[["set",4,[1,2,3]],["init_array"]]}
    = 1 {"error":{"command":1,"detail":"init_array: unexpected tracker state","kind":"OperationFailed","path":""},"released":[]}
    # an item of a pointer to a slice that is closed
    "root":9,"tokens":1,"commands":[
        ["begin_deferred"],["begin_smart_ptr"],["begin_list_item"],["set",2,{"t":0}],["end"],
        ["end"],["begin_list_item"]
    ]}
    = 1 {"error":{"command":6,"detail":"already building an item, call end() first",
        "kind":"OperationFailed","path":""},"released":[0]}
    # an item where no list is
    "root":0,"commands":[["begin_list_item"]]}
    = 1 {"error":{"command":0,"detail":"push can only be called on List or DynamicValue types",
        "kind":"OperationFailed","path":""},"released":[]}
    # an item of a pointer to a slice that is whole
    "root":14,"commands":[["begin_field","slice"],["begin_smart_ptr"],["end"],["begin_list_item"]]}
    = 1 {"error":{"command":3,"detail":"push can only be called on List or DynamicValue types",
        "kind":"OperationFailed","path":"slice"},"released":[]}
    # an item of a list that is not begun
    "root":1,"commands":[["set",1,{"l":[1]}],["begin_list_item"]]}
    = 1 {"error":{"command":1,"detail":"must call init_list() before push()","kind":"OperationFailed","path":""},"released":[]}
    # a slice that its pointer does not own
    "root":10,"commands":[["begin_smart_ptr"]]}
    = 1 {"error":{"command":0,"detail":"smart pointer does not support slice building",
        "kind":"OperationFailed","path":""},"released":[]}
    # a slice behind a pointer that is not known
    "root":11,"commands":[["begin_smart_ptr"]]}
    = 1 {"error":{"command":0,"detail":"smart pointer does not support slice building",
        "kind":"OperationFailed","path":""},"released":[]}
    # an empty slice that would be owned
    "root":7,"commands":[["set_empty_shared_slice"]]}
    = 1 {"error":{"command":0,"detail":"set_empty_shared_slice requires a shared slice reference",
        "kind":"OperationFailed","path":""},"released":[]}
    # an empty slice behind a pointer to what is not known
    "root":13,"commands":[["set_empty_shared_slice"]]}
    = 1 {"error":{"command":0,"detail":"shared reference pointer missing pointee shape",
        "kind":"OperationFailed","path":""},"released":[]}
    # an empty slice in the place of something else
    "root":12,"commands":[["set_empty_shared_slice"]]}
    = 1 {"error":{"command":0,"detail":"set_empty_shared_slice requires a slice pointee",
        "kind":"OperationFailed","path":""},"released":[]}
"#;

/// The shapes String (empty by default), u16, Names (a list of texts, empty by default), Server
/// (host; port, 80 by default; aliases; and weight), Servers (a list of them) and Config (name and
/// servers), before the root.
const CONFIG: &str = r#"{"shapes":[
    {"name":"String","def":"String","preset":""},
    {"name":"u16","def":"u16"},
    {"name":"Names","def":{"list":0},"preset":{"l":[]}},
    {"name":"Server","def":{"struct":[
        {"name":"host","shape":0},{"name":"port","shape":1,"default":{"custom":80}},
        {"name":"aliases","shape":2},{"name":"weight","shape":1}
    ]}},
    {"name":"Servers","def":{"list":3}},
    {"name":"Config","def":{"struct":[{"name":"name","shape":0},{"name":"servers","shape":4}]}}
],"#;

const SERVERS: &str = r#"
    # servers, as examples/servers.json has them
    "root":5,"commands":[
        ["begin_deferred"],["begin_field","servers"],["init_list"],["begin_list_item"],
        ["begin_field","host"],["set",0,"alpha.example.org"],["end"],["begin_field","aliases"],
        ["init_list"],["begin_list_item"],["set",0,"www"],["end"],["end"],
        ["begin_field","port"],["set",1,443],["end"],
        ["begin_field","aliases"],["begin_list_item"],["set",0,"static"],["end"],["end"],
        ["begin_field","weight"],["set",1,3],["end"],["end"],
        ["begin_list_item"],["begin_field","host"],["set",0,"beta.example.org"],["end"],
        ["begin_field","weight"],["set",1,1],["end"],["end"],["end"],
        ["begin_field","name"],["set",0,"demo"],["end"],["begin_field","servers"],
        ["begin_list_item"],["begin_field","host"],["set",0,"gamma.example.org"],["end"],
        ["begin_field","weight"],["set",1,1],["end"],["end"],["end"],["finish_deferred"]
    ]}
    = 0 {"ok":[
            "demo",
            {"l":[
                ["alpha.example.org",443,{"l":["www","static"]},3],
                ["beta.example.org",80,{"l":[]},1],["gamma.example.org",80,{"l":[]},1]
            ]}
        ],"released":[]}
    # the builder is at the item that lacks a field
    "root":5,"commands":[
        ["begin_deferred"],["begin_field","servers"],["init_list"],["begin_list_item"],
        ["begin_field","host"],["set",0,"alpha.example.org"],["end"],["begin_field","aliases"],
        ["init_list"],["begin_list_item"],["set",0,"www"],["end"],["end"],
        ["begin_field","port"],["set",1,443],["end"],
        ["begin_field","aliases"],["begin_list_item"],["set",0,"static"],["end"],["end"],
        ["begin_field","weight"],["set",1,3],["end"],["end"],
        ["begin_list_item"],["begin_field","host"],["set",0,"beta.example.org"],["end"],
        ["finish_deferred"]
    ]}
    = 1 {"error":{"command":29,"detail":"weight","kind":"UninitializedField","path":"servers[1]"},"released":[]}
    # it has come back from the item that lacks a field
    "root":5,"commands":[
        ["begin_deferred"],["begin_field","servers"],["init_list"],["begin_list_item"],
        ["begin_field","host"],["set",0,"alpha.example.org"],["end"],["begin_field","aliases"],
        ["init_list"],["begin_list_item"],["set",0,"www"],["end"],["end"],
        ["begin_field","port"],["set",1,443],["end"],
        ["begin_field","aliases"],["begin_list_item"],["set",0,"static"],["end"],["end"],
        ["begin_field","weight"],["set",1,3],["end"],["end"],["begin_list_item"],
        ["begin_field","host"],["set",0,"beta.example.org"],["end"],["end"],["end"],
        ["begin_field","name"],["set",0,"demo"],["end"],["finish_deferred"]
    ]}
    = 1 {"error":{"command":34,"detail":"weight","kind":"UninitializedField","path":""},"released":[]}
    # the item that lacks a field is left in strict mode
    "root":5,"commands":[["begin_field","servers"],["init_list"],["begin_list_item"],["end"]]}
    = 1 {"error":{"command":3,"detail":"host","kind":"UninitializedField","path":"servers[0]"},"released":[]}
"#;

/// Lists of themselves, up to the commands.
const NEST: &str = r#"{"shapes":[{"name":"Nest","def":{"list":0}}],"root":0,"commands":["#;

/// Begins a list and an item of it so many times, each in the one before, and leaves them all, with
/// these commands around.
fn check_lists_down<'a>(
    rt: &(impl Abort + AllocGlobal),
    name: &str,
    (before, depth, after): (&'a str, usize, &'a str),
    status: u8,
    want: &[(&str, usize)],
) {
    let document = [
        (NEST, 1),
        (before, 1),
        (r#"["init_list"],["begin_list_item"],"#, depth),
        (r#"["init_list"]"#, 1),
        (r#",["end"]"#, depth),
        (after, 1),
    ];
    check_parts(rt, name, &document, status, want);
}

#[test]
fn lists_nest_as_deep_as_a_script_may_begin(rt: HostRuntime) {
    let built = [
        (r#"{"ok":"#, 1),
        (r#"{"l":["#, 1_000),
        (r#"{"l":[]}"#, 1),
        ("]}", 1_000),
        (r#","released":[]}"#, 1),
    ];
    let deferred = (r#"["begin_deferred"],"#, 1_000, r#",["finish_deferred"]]}"#);
    check_lists_down(&rt, "strict", ("", 1_000, "]}"), 0, &built);
    check_lists_down(&rt, "deferred", deferred, 0, &built);
    let past = [(r#"{"fault":"TooLarge","what":"depth"}"#, 1)];
    check_lists_down(&rt, "past it", ("", 1_001, "]}"), 2, &past);
}

#[test]
fn lists_arrays_and_slices_are_built_and_left(rt: HostRuntime) {
    let tables = [
        (LISTS, 12, BUILT),
        (LISTS, 10, LEFT),
        (LISTS, 15, REFUSED),
        (CONFIG, 4, SERVERS),
    ];
    check_tables(&rt, &tables);
}
