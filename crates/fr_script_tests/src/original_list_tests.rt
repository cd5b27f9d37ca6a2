//! The original's own tests of lists, arrays and slices, under the names that they have there, as
//! documents.
use crate::documents::check_tables;

/// The shapes i32, String, u8, u32, lists of these (Ints, Strings, Bytes), IntLists, Aged (name and
/// age), AgedList, Held (a list of i32), a map, the unit shape and a list of it, before the root.
const LISTS: &str = r#"{"shapes":[
    {"name":"i32","def":"i32"},
    {"name":"String","def":"String"},
    {"name":"u8","def":"u8"},
    {"name":"u32","def":"u32"},
    {"name":"Ints","def":{"list":0}},
    {"name":"Strings","def":{"list":1}},
    {"name":"Bytes","def":{"list":2}},
    {"name":"IntLists","def":{"list":4}},
    {"name":"Aged","def":{"struct":[{"name":"name","shape":1},{"name":"age","shape":3}]}},
    {"name":"AgedList","def":{"list":8}},
    {"name":"Held","def":{"struct":[{"name":"s","shape":4}]}},
    {"name":"TextsToInts","def":{"map":[1,0]}},
    {"name":"Unit","def":{"tuple":[]}},
    {"name":"Units","def":{"list":12}}
],"#;

const LISTS_BUILT: &str = r#"
    # list_vec_basic
    "root":4,"commands":[
        ["init_list"],["begin_list_item"],["set",0,{"i":42}],["end"],
        ["begin_list_item"],["set",0,{"i":84}],["end"],
        ["begin_list_item"],["set",0,{"i":126}],["end"]
    ]}
    = 0 {"ok":{"l":[{"i":42},{"i":84},{"i":126}]},"released":[]}
    # list_vec_complex
    "root":9,"commands":[
        ["init_list"],["begin_list_item"],["begin_field","name"],["set",1,"Alice"],["end"],
        ["begin_field","age"],["set",3,30],["end"],["end"],
        ["begin_list_item"],["begin_field","name"],["set",1,"Bob"],["end"],
        ["begin_field","age"],["set",3,25],["end"],["end"]
    ]}
    = 0 {"ok":{"l":[["Alice",30],["Bob",25]]},"released":[]}
    # list_vec_empty
    "root":5,"commands":[["init_list"]]}
    = 0 {"ok":{"l":[]},"released":[]}
    # list_vec_nested
    "root":7,"commands":[
        ["init_list"],["begin_list_item"],["init_list"],["begin_list_item"],["set",0,{"i":1}],
        ["end"],["begin_list_item"],["set",0,{"i":2}],["end"],["end"],
        ["begin_list_item"],["init_list"],["begin_list_item"],["set",0,{"i":3}],["end"],
        ["begin_list_item"],["set",0,{"i":4}],["end"],
        ["begin_list_item"],["set",0,{"i":5}],["end"],["end"]
    ]}
    = 0 {"ok":{"l":[{"l":[{"i":1},{"i":2}]},{"l":[{"i":3},{"i":4},{"i":5}]}]},"released":[]}
    # list_vec_reinit
    "root":4,"commands":[
        ["init_list"],["begin_list_item"],["set",0,{"i":1}],["end"],
        ["begin_list_item"],["set",0,{"i":2}],["end"],
        ["init_list"],["begin_list_item"],["set",0,{"i":3}],["end"],
        ["begin_list_item"],["set",0,{"i":4}],["end"]
    ]}
    = 0 {"ok":{"l":[{"i":1},{"i":2},{"i":3},{"i":4}]},"released":[]}
    # list_vec_field_reinit
    "root":10,"commands":[
        ["begin_field","s"],["init_list"],["begin_list_item"],["set",0,{"i":1}],["end"],
        ["begin_list_item"],["set",0,{"i":2}],["end"],["end"],
        ["begin_field","s"],["init_list"],["begin_list_item"],["set",0,{"i":3}],["end"],
        ["begin_list_item"],["set",0,{"i":4}],["end"],["end"]
    ]}
    = 0 {"ok":[{"l":[{"i":1},{"i":2},{"i":3},{"i":4}]}],"released":[]}
    # list_wrong_begin_list
    "root":11,"commands":[["init_list"]]}
    = 1 {"error":{"command":0,"detail":"init_list can only be called on List or DynamicValue types",
        "kind":"OperationFailed","path":""},"released":[]}
    # list_uninit
    "root":6,"commands":[]}
    = 1 {"error":{"command":0,"detail":"Bytes","kind":"UninitializedValue","path":""},"released":[]}
    # put_vec_leaktest3
    "root":5,"commands":[["set",5,{"l":["a"]}]]}
    = 0 {"ok":{"l":["a"]},"released":[]}
    # test_build_vec_of_unit
    "root":13,"commands":[["init_list"],["begin_list_item"],["end"],["begin_list_item"],["end"]]}
    = 0 {"ok":{"l":[[],[]]},"released":[]}
"#;

/// The shapes u32, u8, String, i32, Noisy (opaque), arrays of these, Rows (three Rows of two i32),
/// WithArrays and NestedArrays (a name and an array), before the root.
const ARRAYS: &str = r#"{"shapes":[
    {"name":"u32","def":"u32"},
    {"name":"u8","def":"u8"},
    {"name":"String","def":"String"},
    {"name":"i32","def":"i32"},
    {"name":"Noisy","def":"opaque"},
    {"name":"Three","def":{"array":[0,3]}},
    {"name":"FourBytes","def":{"array":[1,4]}},
    {"name":"TwoBytes","def":{"array":[1,2]}},
    {"name":"ThreeBytes","def":{"array":[1,3]}},
    {"name":"Row","def":{"array":[3,2]}},
    {"name":"Rows","def":{"array":[9,3]}},
    {"name":"WithArrays","def":{"struct":[{"name":"name","shape":2},{"name":"values","shape":5}]}},
    {"name":"NestedArrays","def":{"struct":[
        {"name":"name","shape":2},{"name":"matrix","shape":10}
    ]}},
    {"name":"FourNoisy","def":{"array":[4,4]}},
    {"name":"ThreeNoisy","def":{"array":[4,3]}}
],"#;

const ARRAYS_BUILT: &str = r#"
    # test_building_array_f32_3_pushback
    "root":5,"commands":[
        ["begin_nth_field",0],["set",0,1],["end"],["begin_nth_field",1],["set",0,2],["end"],
        ["begin_nth_field",2],["set",0,3],["end"]
    ]}
    = 0 {"ok":[1,2,3],"released":[]}
    # test_building_array_u8_4_pushback
    "root":6,"commands":[
        ["begin_nth_field",0],["set",1,1],["end"],["begin_nth_field",1],["set",1,2],["end"],
        ["begin_nth_field",2],["set",1,3],["end"],["begin_nth_field",3],["set",1,4],["end"]
    ]}
    = 0 {"ok":[1,2,3,4],"released":[]}
    # test_building_array_in_struct
    "root":11,"commands":[
        ["begin_field","name"],["set",2,"test array"],["end"],
        ["begin_field","values"],["begin_nth_field",0],["set",0,11],["end"],
        ["begin_nth_field",1],["set",0,22],["end"],
        ["begin_nth_field",2],["set",0,33],["end"],["end"]
    ]}
    = 0 {"ok":["test array",[11,22,33]],"released":[]}
    # test_too_many_items_in_array
    "root":7,"commands":[
        ["begin_nth_field",0],["set",1,1],["end"],["begin_nth_field",1],["set",1,2],["end"],
        ["begin_nth_field",2]
    ]}
    = 1 {"error":{"command":6,"detail":"array index out of bounds","kind":"OperationFailed","path":""},"released":[]}
    # test_too_few_items_in_array
    "root":8,"commands":[["begin_nth_field",0],["set",1,1],["end"],["begin_nth_field",1],["set",1,2],["end"]]}
    = 1 {"error":{"command":6,"detail":"ThreeBytes","kind":"UninitializedValue","path":""},"released":[]}
    # test_nested_array_building
    "root":12,"commands":[
        ["begin_field","name"],["set",2,"test matrix"],["end"],["begin_field","matrix"],
        ["begin_nth_field",0],["begin_nth_field",0],["set",3,{"i":1}],["end"],
        ["begin_nth_field",1],["set",3,{"i":2}],["end"],["end"],
        ["begin_nth_field",1],["begin_nth_field",0],["set",3,{"i":3}],["end"],
        ["begin_nth_field",1],["set",3,{"i":4}],["end"],["end"],
        ["begin_nth_field",2],["begin_nth_field",0],["set",3,{"i":5}],["end"],
        ["begin_nth_field",1],["set",3,{"i":6}],["end"],["end"],["end"]
    ]}
    = 0 {"ok":["test matrix",[[{"i":1},{"i":2}],[{"i":3},{"i":4}],[{"i":5},{"i":6}]]],"released":[]}
    # array_uninit
    "root":5,"commands":[]}
    = 1 {"error":{"command":0,"detail":"Three","kind":"UninitializedValue","path":""},"released":[]}
    # array_init
    "root":5,"commands":[
        ["begin_nth_field",0],["set",0,42],["end"],["begin_nth_field",1],["set",0,43],["end"],
        ["begin_nth_field",2],["set",0,44],["end"]
    ]}
    = 0 {"ok":[42,43,44],"released":[]}
    # array_init_out_of_order
    "root":5,"commands":[
        ["begin_nth_field",2],["set",0,44],["end"],["begin_nth_field",0],["set",0,42],["end"],
        ["begin_nth_field",1],["set",0,43],["end"]
    ]}
    = 0 {"ok":[42,43,44],"released":[]}
    # array_partial_init
    "root":5,"commands":[
        ["begin_nth_field",0],["set",0,42],["end"],["begin_nth_field",2],["set",0,44],["end"]
    ]}
    = 1 {"error":{"command":6,"detail":"Three","kind":"UninitializedValue","path":""},"released":[]}
    # drop_array_partially_initialized
    "root":13,"tokens":2,"commands":[
        ["begin_nth_field",0],["set",4,{"t":0}],["end"],
        ["begin_nth_field",2],["set",4,{"t":1}],["end"]
    ]}
    = 1 {"error":{"command":6,"detail":"FourNoisy","kind":"UninitializedValue","path":""},"released":[0,1]}
    # array_element_set_twice
    "root":14,"tokens":4,"commands":[
        ["begin_nth_field",0],["set",4,{"t":0}],["end"],
        ["begin_nth_field",0],["set",4,{"t":1}],["end"],
        ["begin_nth_field",1],["set",4,{"t":2}],["end"],
        ["begin_nth_field",2],["set",4,{"t":3}],["end"]
    ]}
    = 0 {"ok":[{"t":1},{"t":2},{"t":3}],"released":[0]}
"#;

/// The shapes String, u32, u64, i32, OptString, Person (name, age and email), Nested (id, person
/// and tags) and Copyable (x and y), with slices of these and pointers to them, before the root.
const SLICES: &str = r#"{"shapes":[
    {"name":"String","def":"String"},
    {"name":"u32","def":"u32"},
    {"name":"u64","def":"u64"},
    {"name":"i32","def":"i32"},
    {"name":"OptString","def":{"option":0},"preset":null},
    {"name":"Person","def":{"struct":[
        {"name":"name","shape":0},{"name":"age","shape":1},{"name":"email","shape":4}
    ]}},
    {"name":"People","def":{"slice":5}},
    {"name":"ArcPeople","def":{"pointer":{"known":"Arc","pointee":6}}},
    {"name":"Strings","def":{"list":0}},
    {"name":"Nested","def":{"struct":[
        {"name":"id","shape":2},{"name":"person","shape":5},{"name":"tags","shape":8}
    ]}},
    {"name":"NestedSlice","def":{"slice":9}},
    {"name":"ArcNested","def":{"pointer":{"known":"Arc","pointee":10}}},
    {"name":"Copyable","def":{"struct":[{"name":"x","shape":3},{"name":"y","shape":3}]}},
    {"name":"CopyableSlice","def":{"slice":12}},
    {"name":"ArcCopyable","def":{"pointer":{"known":"Arc","pointee":13}}},
    {"name":"Numbers","def":{"slice":1}},
    {"name":"RefNumbers","def":{"pointer":{"known":"SharedReference","pointee":15}}}
],"#;

const SLICES_BUILT: &str = r#"
    # arc_slice_complex_struct
    "root":7,"commands":[
        ["begin_smart_ptr"],["init_list"],["begin_list_item"],["begin_field","name"],
        ["set",0,"Alice"],["end"],["begin_field","age"],["set",1,30],["end"],
        ["begin_field","email"],["set",4,{"s":"alice@example.com"}],["end"],["end"],
        ["begin_list_item"],["begin_field","name"],["set",0,"Bob"],["end"],
        ["begin_field","age"],["set",1,25],["end"],
        ["begin_field","email"],["set",4,null],["end"],["end"],
        ["begin_list_item"],["begin_field","name"],["set",0,"Charlie"],["end"],
        ["begin_field","age"],["set",1,35],["end"],
        ["begin_field","email"],["set",4,{"s":"charlie@example.com"}],["end"],["end"],["end"]
    ]}
    = 0 {"ok":{"p":{"l":[
            ["Alice",30,{"s":"alice@example.com"}],["Bob",25,null],
            ["Charlie",35,{"s":"charlie@example.com"}]
        ]}},"released":[]}
    # arc_slice_nested_struct
    "root":11,"commands":[
        ["begin_smart_ptr"],["init_list"],["begin_list_item"],["begin_field","id"],
        ["set",2,1001],["end"],
        ["begin_field","person"],["begin_field","name"],["set",0,"David"],["end"],
        ["begin_field","age"],["set",1,40],["end"],
        ["begin_field","email"],["set",4,{"s":"david@example.com"}],["end"],["end"],
        ["begin_field","tags"],["init_list"],["begin_list_item"],["set",0,"developer"],["end"],
        ["begin_list_item"],["set",0,"rust"],["end"],
        ["begin_list_item"],["set",0,"senior"],["end"],["end"],["end"],
        ["begin_list_item"],["begin_field","id"],["set",2,1002],["end"],
        ["begin_field","person"],["begin_field","name"],["set",0,"Eve"],["end"],
        ["begin_field","age"],["set",1,28],["end"],
        ["begin_field","email"],["set",4,null],["end"],["end"],
        ["begin_field","tags"],["init_list"],["begin_list_item"],["set",0,"designer"],["end"],
        ["begin_list_item"],["set",0,"ui/ux"],["end"],["end"],["end"],["end"]
    ]}
    = 0 {"ok":{"p":{"l":[
            [1001,["David",40,{"s":"david@example.com"}],{"l":["developer","rust","senior"]}],
            [1002,["Eve",28,null],{"l":["designer","ui/ux"]}]
        ]}},"released":[]}
    # arc_slice_empty
    "root":7,"commands":[["begin_smart_ptr"],["init_list"],["end"]]}
    = 0 {"ok":{"p":{"l":[]}},"released":[]}
    # arc_slice_single_element
    "root":7,"commands":[
        ["begin_smart_ptr"],["init_list"],["begin_list_item"],["begin_field","name"],
        ["set",0,"Solo"],["end"],["begin_field","age"],["set",1,42],["end"],
        ["begin_field","email"],["set",4,{"s":"solo@example.com"}],["end"],["end"],["end"]
    ]}
    = 0 {"ok":{"p":{"l":[["Solo",42,{"s":"solo@example.com"}]]}},"released":[]}
    # arc_slice_copyable_struct
    "root":14,"commands":[
        ["begin_smart_ptr"],["init_list"],["begin_list_item"],["begin_field","x"],
        ["set",3,{"i":0}],["end"],["begin_field","y"],["set",3,{"i":0}],["end"],["end"],
        ["begin_list_item"],["begin_field","x"],["set",3,{"i":10}],["end"],
        ["begin_field","y"],["set",3,{"i":20}],["end"],["end"],
        ["begin_list_item"],["begin_field","x"],["set",3,{"i":20}],["end"],
        ["begin_field","y"],["set",3,{"i":40}],["end"],["end"],
        ["begin_list_item"],["begin_field","x"],["set",3,{"i":30}],["end"],
        ["begin_field","y"],["set",3,{"i":60}],["end"],["end"],
        ["begin_list_item"],["begin_field","x"],["set",3,{"i":40}],["end"],
        ["begin_field","y"],["set",3,{"i":80}],["end"],["end"],["end"]
    ]}
    = 0 {"ok":{"p":{"l":[
            [{"i":0},{"i":0}],[{"i":10},{"i":20}],[{"i":20},{"i":40}],[{"i":30},{"i":60}],
            [{"i":40},{"i":80}]
        ]}},"released":[]}
    # slice_uninit
    "root":16,"commands":[]}
    = 1 {"error":{"command":0,"detail":"RefNumbers","kind":"UninitializedValue","path":""},"released":[]}
"#;

#[test]
fn lists_arrays_and_slices_come_out_as_in_the_original(rt: HostRuntime) {
    let tables = [
        (LISTS, 10, LISTS_BUILT),
        (ARRAYS, 12, ARRAYS_BUILT),
        (SLICES, 6, SLICES_BUILT),
    ];
    check_tables(&rt, &tables);
}
