//! Maps and sets in documents: they are begun, take entries and items, leave out what is there
//! twice, and are left half done and gone on with. The last two tables are the original's own tests
//! of them, under the names that they have there.
use crate::documents::check_tables;

/// The shapes u32, String, Res (opaque), Item (a number and a Res) with a set of them and a map
/// from them to Res, Names (a map from String to u32), Nums (a set of u32), Inner (two numbers),
/// maps and sets of these, a set of lists, and structs of them, before the root.
const SHAPES: &str = r#"{"shapes":[
    {"name":"u32","def":"u32"},
    {"name":"String","def":"String"},
    {"name":"Res","def":"opaque"},
    {"name":"Item","def":{"struct":[{"name":"id","shape":0},{"name":"r","shape":2}]}},
    {"name":"Items","def":{"set":3}},
    {"name":"M","def":{"map":[3,2]}},
    {"name":"Names","def":{"map":[1,0]}},
    {"name":"Nums","def":{"set":0}},
    {"name":"Inner","def":{"struct":[{"name":"a","shape":0},{"name":"b","shape":0}]}},
    {"name":"ByName","def":{"map":[1,8]}},
    {"name":"Both","def":{"struct":[{"name":"names","shape":6},{"name":"nums","shape":7}]}},
    {"name":"Inners","def":{"set":8}},
    {"name":"List","def":{"list":0}},
    {"name":"Lists","def":{"set":12}},
    {"name":"Outer","def":{"struct":[{"name":"inners","shape":11},{"name":"x","shape":0}]}},
    {"name":"Pairs","def":{"map":[8,8]}},
    {"name":"Resources","def":{"map":[1,2]}}
],"#;

const MAPS: &str = r#"
    # a repeated key keeps the old key and takes the new value
    "root":5,"tokens":4,"commands":[
        ["init_map"],["begin_key"],["set",3,[1,{"t":0}]],["end"],
        ["begin_value"],["set",2,{"t":1}],["end"],["begin_key"],["set",3,[1,{"t":2}]],["end"],
        ["begin_value"],["set",2,{"t":3}],["end"]
    ]}
    = 0 {"ok":{"m":[[[1,{"t":0}],{"t":3}]]},"released":[1,2]}
    # entries stand in the order in which they came
    "root":6,"commands":[
        ["init_map"],["begin_key"],["set",1,"b"],["end"],["begin_value"],["set",0,1],["end"],
        ["begin_key"],["set",1,"a"],["end"],["begin_value"],["set",0,2],["end"],
        ["begin_key"],["set",1,"b"],["end"],["begin_value"],["set",0,3],["end"]
    ]}
    = 0 {"ok":{"m":[["b",3],["a",2]]},"released":[]}
    # a whole map keeps its entries in front
    "root":6,"commands":[
        ["set",6,{"m":[["a",1],["b",2]]}],["init_map"],["begin_key"],["set",1,"c"],["end"],
        ["begin_value"],["set",0,3],["end"],["begin_key"],["set",1,"a"],["end"],
        ["begin_value"],["set",0,4],["end"]
    ]}
    = 0 {"ok":{"m":[["a",4],["b",2],["c",3]]},"released":[]}
    # a map that is begun twice keeps its entries
    "root":6,"commands":[
        ["init_map"],["begin_key"],["set",1,"a"],["end"],["begin_value"],["set",0,1],["end"],
        ["init_map"],["begin_key"],["set",1,"b"],["end"],["begin_value"],["set",0,2],["end"]
    ]}
    = 0 {"ok":{"m":[["a",1],["b",2]]},"released":[]}
    # an empty map
    "root":6,"commands":[["init_map"]]}
    = 0 {"ok":{"m":[]},"released":[]}
    # a whole map that is begun and no more
    "root":6,"commands":[["set",6,{"m":[["a",1]]}],["init_map"]]}
    = 0 {"ok":{"m":[["a",1]]},"released":[]}
    # a key that isn't given
    "root":6,"commands":[["init_map"],["begin_key"],["end"]]}
    = 1 {"error":{"command":2,"detail":"String","kind":"UninitializedValue","path":"[key 0]"},"released":[]}
    # its number doesn't count the entries that were there
    "root":6,"commands":[["set",6,{"m":[["a",1],["b",2]]}],["init_map"],["begin_key"],["end"]]}
    = 1 {"error":{"command":3,"detail":"String","kind":"UninitializedValue","path":"[key 0]"},"released":[]}
    # a value that isn't given
    "root":6,"commands":[
        ["init_map"],["begin_key"],["set",1,"a"],["end"],["begin_value"],["set",0,1],["end"],
        ["begin_key"],["set",1,"b"],["end"],["begin_value"],["end"]
    ]}
    = 1 {"error":{"command":11,"detail":"u32","kind":"UninitializedValue","path":"[value 1]"},"released":[]}
    # a half entry fails as the map is completed
    "root":6,"commands":[["init_map"],["begin_key"],["set",1,"a"],["end"]]}
    = 1 {"error":{"command":4,"detail":"Names","kind":"UninitializedValue","path":""},"released":[]}
    # a second key before the value
    "root":16,"commands":[["init_map"],["begin_key"],["set",1,"a"],["end"],["begin_key"]]}
    = 1 {"error":{"command":4,"detail":"must complete current operation before begin_key()",
        "kind":"OperationFailed","path":""},"released":[]}
    # a key before the map is begun
    "root":6,"commands":[["begin_key"]]}
    = 1 {"error":{"command":0,"detail":"must call init_map() before begin_key()","kind":"OperationFailed","path":""},"released":[]}
    # a value without a key
    "root":6,"commands":[["init_map"],["begin_value"]]}
    = 1 {"error":{"command":1,"detail":"must complete key before begin_value()","kind":"OperationFailed","path":""},"released":[]}
    # a value twice
    "root":6,"commands":[
        ["init_map"],["begin_key"],["set",1,"a"],["end"],["begin_value"],["set",0,1],["end"],
        ["begin_value"]
    ]}
    = 1 {"error":{"command":7,"detail":"must complete key before begin_value()","kind":"OperationFailed","path":""},"released":[]}
    # a map at another place
    "root":7,"commands":[["init_map"]]}
    = 1 {"error":{"command":0,"detail":"init_map can only be called on Map or DynamicValue types",
        "kind":"OperationFailed","path":""},"released":[]}
    # a map where a set is begun
    "root":7,"commands":[["init_set"],["init_map"]]}
    = 1 {"error":{"command":1,
        "detail":"init_map called but tracker isn't Scalar, Map, or DynamicValue",
        "kind":"UnexpectedTracker","path":""},"released":[]}
    # what is given up of a map is released
    "root":16,"tokens":1,"commands":[
        ["init_map"],["begin_key"],["set",1,"first"],["end"],
        ["begin_value"],["set",2,{"t":0}],["end"],["begin_key"],["set",1,"second"],["end"],
        ["begin_key"]
    ]}
    = 1 {"error":{"command":10,"detail":"must complete current operation before begin_key()",
        "kind":"OperationFailed","path":""},"released":[0]}
    # a map that is set anew releases its entries
    "root":5,"tokens":4,"commands":[
        ["init_map"],["begin_key"],["set",3,[1,{"t":0}]],["end"],
        ["begin_value"],["set",2,{"t":1}],["end"],["set",5,{"m":[[[2,{"t":2}],{"t":3}]]}]
    ]}
    = 0 {"ok":{"m":[[[2,{"t":2}],{"t":3}]]},"released":[0,1]}
"#;

const SETS: &str = r#"
    # an item that is there already is released
    "root":4,"tokens":5,"commands":[
        ["init_set"],["begin_set_item"],["set",3,[1,{"t":0}]],["end"],
        ["begin_set_item"],["set",3,[2,{"t":1}]],["end"],
        ["begin_set_item"],["set",3,[1,{"t":2}]],["end"],
        ["begin_set_item"],["set",3,[3,{"t":3}]],["end"],
        ["begin_set_item"],["set",3,[2,{"t":4}]],["end"]
    ]}
    = 0 {"ok":{"e":[[1,{"t":0}],[2,{"t":1}],[3,{"t":3}]]},"released":[2,4]}
    # so it is in deferred mode
    "root":4,"tokens":5,"commands":[
        ["begin_deferred"],["init_set"],["begin_set_item"],["set",3,[1,{"t":0}]],["end"],
        ["begin_set_item"],["set",3,[2,{"t":1}]],["end"],
        ["begin_set_item"],["set",3,[1,{"t":2}]],["end"],
        ["begin_set_item"],["set",3,[3,{"t":3}]],["end"],
        ["begin_set_item"],["set",3,[2,{"t":4}]],["end"],["finish_deferred"]
    ]}
    = 0 {"ok":{"e":[[1,{"t":0}],[2,{"t":1}],[3,{"t":3}]]},"released":[2,4]}
    # items come behind those of a whole set
    "root":7,"commands":[
        ["set",7,{"e":[1,2]}],["init_set"],["begin_set_item"],["set",0,3],["end"],
        ["begin_set_item"],["set",0,1],["end"]
    ]}
    = 0 {"ok":{"e":[1,2,3]},"released":[]}
    # a set that is begun twice keeps its items
    "root":7,"commands":[
        ["init_set"],["begin_set_item"],["set",0,1],["end"],
        ["init_set"],["begin_set_item"],["set",0,2],["end"],["init_set"]
    ]}
    = 0 {"ok":{"e":[1,2]},"released":[]}
    # an empty set
    "root":7,"commands":[["init_set"]]}
    = 0 {"ok":{"e":[]},"released":[]}
    # an item that isn't given
    "root":7,"commands":[["init_set"],["begin_set_item"],["end"]]}
    = 1 {"error":{"command":2,"detail":"u32","kind":"UninitializedValue","path":"[item]"},"released":[]}
    # an item that isn't given fails at its end in deferred mode
    "root":7,"commands":[["begin_deferred"],["init_set"],["begin_set_item"],["end"]]}
    = 1 {"error":{"command":3,"detail":"u32","kind":"UninitializedValue","path":"[item]"},"released":[]}
    # an item of which a field isn't given
    "root":11,"commands":[
        ["begin_deferred"],["init_set"],["begin_set_item"],["begin_field","a"],["set",0,1],
        ["end"],["end"]
    ]}
    = 1 {"error":{"command":6,"detail":"b","kind":"UninitializedField","path":"[item]"},"released":[]}
    # an item is put together field by field
    "root":11,"commands":[
        ["init_set"],["begin_set_item"],["begin_field","a"],["set",0,1],["end"],
        ["begin_field","b"],["set",0,2],["end"],["end"],
        ["begin_set_item"],["begin_field","b"],["set",0,2],["end"],
        ["begin_field","a"],["set",0,1],["end"],["end"]
    ]}
    = 0 {"ok":{"e":[[1,2]]},"released":[]}
    # and in deferred mode
    "root":11,"commands":[
        ["begin_deferred"],["init_set"],["begin_set_item"],["begin_field","a"],["set",0,1],
        ["end"],["begin_field","b"],["set",0,2],["end"],["end"],
        ["begin_set_item"],["begin_field","b"],["set",0,2],["end"],
        ["begin_field","a"],["set",0,1],["end"],["end"],["finish_deferred"]
    ]}
    = 0 {"ok":{"e":[[1,2]]},"released":[]}
    # what lies beneath an item is completed with it
    "root":13,"commands":[
        ["begin_deferred"],["init_set"],["begin_set_item"],["init_list"],["begin_list_item"],
        ["set",0,1],["end"],["begin_list_item"],["set",0,2],["end"],["end"],
        ["begin_set_item"],["init_list"],["begin_list_item"],["set",0,1],["end"],
        ["begin_list_item"],["set",0,2],["end"],["end"],["finish_deferred"]
    ]}
    = 0 {"ok":{"e":[{"l":[1,2]}]},"released":[]}
    # what lies beside the set isn't
    "root":14,"commands":[
        ["begin_deferred"],["begin_field","x"],["end"],["begin_field","inners"],["init_set"],
        ["begin_set_item"],["begin_field","a"],["set",0,1],["end"],
        ["begin_field","b"],["set",0,2],["end"],["end"],["end"],
        ["begin_field","x"],["set",0,7],["end"],["finish_deferred"]
    ]}
    = 0 {"ok":[{"e":[[1,2]]},7],"released":[]}
    # what is given up of a set is released
    "root":4,"tokens":2,"commands":[
        ["init_set"],["begin_set_item"],["set",3,[1,{"t":0}]],["end"],
        ["begin_set_item"],["set",3,[2,{"t":1}]],["end"],["init_map"]
    ]}
    = 1 {"error":{"command":7,
        "detail":"init_map called but tracker isn't Scalar, Map, or DynamicValue",
        "kind":"UnexpectedTracker","path":""},"released":[0,1]}
    # an item before the set is begun
    "root":7,"commands":[["begin_set_item"]]}
    = 1 {"error":{"command":0,"detail":"must call init_set() before begin_set_item()",
        "kind":"OperationFailed","path":""},"released":[]}
    # an item of another place
    "root":6,"commands":[["begin_set_item"]]}
    = 1 {"error":{"command":0,"detail":"init_set_item can only be called on Set types",
        "kind":"OperationFailed","path":""},"released":[]}
    # a set at another place
    "root":6,"commands":[["init_set"]]}
    = 1 {"error":{"command":0,"detail":"init_set can only be called on Set types","kind":"OperationFailed","path":""},"released":[]}
    # a set where a map is begun
    "root":6,"commands":[["init_map"],["init_set"]]}
    = 1 {"error":{"command":1,"detail":"init_set called but tracker isn't something set-like",
        "kind":"UnexpectedTracker","path":""},"released":[]}
"#;

const LEFT: &str = r#"
    # a value that is left half done is asked for at the end
    "root":9,"commands":[
        ["begin_deferred"],["init_map"],["begin_key"],["set",1,"ZeroOperand"],["end"],
        ["begin_value"],["begin_field","a"],["set",0,1],["end"],["end"],["finish_deferred"]
    ]}
    = 1 {"error":{"command":10,"detail":"b","kind":"UninitializedField","path":""},"released":[]}
    # a map that was left goes on behind its entries
    "root":10,"commands":[
        ["begin_deferred"],["begin_field","names"],["init_map"],["begin_key"],["set",1,"a"],
        ["end"],["begin_value"],["set",0,1],["end"],["end"],
        ["begin_field","nums"],["init_set"],["begin_set_item"],["set",0,1],["end"],["end"],
        ["begin_field","names"],["init_map"],["begin_key"],["set",1,"b"],["end"],
        ["begin_value"],["set",0,2],["end"],["end"],["finish_deferred"]
    ]}
    = 0 {"ok":[{"m":[["a",1],["b",2]]},{"e":[1]}],"released":[]}
    # a repeated key is found at the end
    "root":5,"tokens":4,"commands":[
        ["begin_deferred"],["init_map"],["begin_key"],["set",3,[1,{"t":0}]],["end"],
        ["begin_value"],["set",2,{"t":1}],["end"],["begin_key"],["set",3,[1,{"t":2}]],["end"],
        ["begin_value"],["set",2,{"t":3}],["end"],["finish_deferred"]
    ]}
    = 0 {"ok":{"m":[[[1,{"t":0}],{"t":3}]]},"released":[1,2]}
    # all keys are asked before all values
    "root":15,"commands":[
        ["begin_deferred"],["init_map"],["begin_key"],["set",8,[1,1]],["end"],
        ["begin_value"],["begin_field","a"],["set",0,1],["end"],["end"],
        ["begin_key"],["begin_field","b"],["set",0,2],["end"],["end"],
        ["begin_value"],["set",8,[2,2]],["end"],["finish_deferred"]
    ]}
    = 1 {"error":{"command":18,"detail":"a","kind":"UninitializedField","path":""},"released":[]}
    # the first key is asked first
    "root":15,"commands":[
        ["begin_deferred"],["init_map"],["begin_key"],["begin_field","b"],["set",0,2],["end"],
        ["end"],["begin_value"],["set",8,[2,2]],["end"],
        ["begin_key"],["begin_field","a"],["set",0,2],["end"],["end"],["finish_deferred"]
    ]}
    = 1 {"error":{"command":15,"detail":"a","kind":"UninitializedField","path":""},"released":[]}
    # a half entry fails at the end
    "root":6,"commands":[
        ["begin_deferred"],["init_map"],["begin_key"],["set",1,"a"],["end"],["finish_deferred"]
    ]}
    = 1 {"error":{"command":5,"detail":"Names","kind":"UninitializedValue","path":""},"released":[]}
    # a map above the place where deferred mode began stays begun
    "root":6,"commands":[
        ["init_map"],["begin_key"],["begin_deferred"],["set",1,"a"],["finish_deferred"],["end"],
        ["begin_value"],["set",0,1],["end"]
    ]}
    = 0 {"ok":{"m":[["a",1]]},"released":[]}
"#;

/// The shapes String, Res (opaque), RuleValue (a text), Key (a name and a Res), Rules (a map of
/// these) and Container, before the root.
const RULES: &str = r#"{"shapes":[
    {"name":"String","def":"String"},
    {"name":"Res","def":"opaque"},
    {"name":"RuleValue","def":{"struct":[{"name":"required","shape":0}]}},
    {"name":"Key","def":{"struct":[{"name":"name","shape":0},{"name":"r","shape":1}]}},
    {"name":"Rules","def":{"map":[3,2]}},
    {"name":"Container","def":{"struct":[{"name":"rules","shape":4}]}}
],"#;

/// The key holds a token, and its value lacks a field.
const RULES_LEFT: &str = r#"
    # a key is released whose value is refused
    "root":5,"tokens":1,"commands":[
        ["begin_deferred"],["begin_field","rules"],["init_map"],
        ["begin_key"],["set",3,["ZeroOperand",{"t":0}]],["end"],
        ["begin_value"],["end"],["end"],["finish_deferred"]
    ]}
    = 1 {"error":{"command":9,"detail":"required","kind":"UninitializedField","path":""},"released":[0]}
"#;

const ORIGINAL_MAPS: &str = r#"
    # wip_map_trivial
    "root":6,"commands":[
        ["init_map"],["begin_key"],["set",1,"key"],["end"],["begin_value"],["set",0,1],["end"]
    ]}
    = 0 {"ok":{"m":[["key",1]]},"released":[]}
    # map_hashmap_simple
    "root":6,"commands":[
        ["init_map"],["begin_key"],["set",1,"foo"],["end"],["begin_value"],["set",0,42],["end"],
        ["begin_key"],["set",1,"bar"],["end"],["begin_value"],["set",0,123],["end"]
    ]}
    = 0 {"ok":{"m":[["foo",42],["bar",123]]},"released":[]}
    # map_hashmap_empty
    "root":6,"commands":[["init_map"]]}
    = 0 {"ok":{"m":[]},"released":[]}
    # map_uninit
    "root":6,"commands":[]}
    = 1 {"error":{"command":0,"detail":"Names","kind":"UninitializedValue","path":""},"released":[]}
    # map_hashmap_complex_values
    "root":9,"commands":[
        ["init_map"],["begin_key"],["set",1,"alice"],["end"],
        ["begin_value"],["begin_field","a"],["set",0,1],["end"],
        ["begin_field","b"],["set",0,30],["end"],["end"],["begin_key"],["set",1,"bob"],["end"],
        ["begin_value"],["begin_field","b"],["set",0,25],["end"],
        ["begin_field","a"],["set",0,2],["end"],["end"]
    ]}
    = 0 {"ok":{"m":[["alice",[1,30]],["bob",[2,25]]]},"released":[]}
    # map_partial_initialization_drop
    "root":16,"tokens":1,"commands":[
        ["init_map"],["begin_key"],["set",1,"first"],["end"],
        ["begin_value"],["set",2,{"t":0}],["end"],["begin_key"],["set",1,"second"],["end"],
        ["begin_value"]
    ]}
    = 1 {"error":{"command":11,"detail":"build() called but more than one frame is on the stack",
        "kind":"InvariantViolation","path":"[value 1]"},"released":[0]}
    # deferred_map_value_missing_required_field
    "root":9,"commands":[
        ["begin_deferred"],["init_map"],["begin_key"],["set",1,"ZeroOperand"],["end"],
        ["begin_value"],["end"],["finish_deferred"]
    ]}
    = 1 {"error":{"command":7,"detail":"a","kind":"UninitializedField","path":""},"released":[]}
"#;

const ORIGINAL_SETS: &str = r#"
    # set_using_begin_set_item
    "root":7,"commands":[
        ["init_set"],["begin_set_item"],["set",0,100],["end"],
        ["begin_set_item"],["set",0,200],["end"]
    ]}
    = 0 {"ok":{"e":[100,200]},"released":[]}
    # set_hashset_empty
    "root":7,"commands":[["init_set"]]}
    = 0 {"ok":{"e":[]},"released":[]}
    # set_hashset_basic
    "root":7,"commands":[
        ["init_set"],["begin_set_item"],["set",0,42],["end"],
        ["begin_set_item"],["set",0,84],["end"],["begin_set_item"],["set",0,126],["end"]
    ]}
    = 0 {"ok":{"e":[42,84,126]},"released":[]}
    # set_hashset_duplicates
    "root":7,"commands":[
        ["init_set"],["begin_set_item"],["set",0,42],["end"],
        ["begin_set_item"],["set",0,42],["end"],["begin_set_item"],["set",0,42],["end"]
    ]}
    = 0 {"ok":{"e":[42]},"released":[]}
    # set_btreeset_basic
    "root":7,"commands":[
        ["init_set"],["begin_set_item"],["set",0,3],["end"],
        ["begin_set_item"],["set",0,1],["end"],["begin_set_item"],["set",0,2],["end"]
    ]}
    = 0 {"ok":{"e":[3,1,2]},"released":[]}
    # set_duplicate_drops_new_value
    "root":4,"tokens":5,"commands":[
        ["init_set"],["begin_set_item"],["set",3,[1,{"t":0}]],["end"],
        ["begin_set_item"],["set",3,[2,{"t":1}]],["end"],
        ["begin_set_item"],["set",3,[1,{"t":2}]],["end"],
        ["begin_set_item"],["set",3,[3,{"t":3}]],["end"],
        ["begin_set_item"],["set",3,[2,{"t":4}]],["end"]
    ]}
    = 0 {"ok":{"e":[[1,{"t":0}],[2,{"t":1}],[3,{"t":3}]]},"released":[2,4]}
    # set_partial_initialization_drop
    "root":4,"tokens":2,"commands":[
        ["init_set"],["begin_set_item"],["set",3,[1,{"t":0}]],["end"],
        ["begin_set_item"],["set",3,[2,{"t":1}]],["end"],["begin_set_item"]
    ]}
    = 1 {"error":{"command":8,"detail":"build() called but more than one frame is on the stack",
        "kind":"InvariantViolation","path":"[item]"},"released":[0,1]}
"#;

#[test]
fn maps_and_sets_are_built_and_left(rt: HostRuntime) {
    let tables = [
        (SHAPES, 18, MAPS),
        (SHAPES, 17, SETS),
        (SHAPES, 7, LEFT),
        (RULES, 1, RULES_LEFT),
        (SHAPES, 7, ORIGINAL_MAPS),
        (SHAPES, 7, ORIGINAL_SETS),
    ];
    check_tables(&rt, &tables);
}
