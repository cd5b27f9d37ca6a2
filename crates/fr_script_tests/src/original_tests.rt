//! The original's own tests of options, results, pointers, enums and invariants, under the names
//! that they have there, as documents.
use crate::documents::check_tables;

/// The shapes u32, String, options of either and of an option, and structs of options, before the
/// root.
const OPTIONS: &str = r#"{"shapes":[
    {"name":"u32","def":"u32"},
    {"name":"String","def":"String"},
    {"name":"OptString","def":{"option":1},"preset":null},
    {"name":"OptU32","def":{"option":0},"preset":null},
    {"name":"OptOpt","def":{"option":2},"preset":null},
    {"name":"Named","def":{"struct":[{"name":"name","shape":2},{"name":"age","shape":3}]}},
    {"name":"Valued","def":{"struct":[{"name":"value","shape":2}]}}
],"#;

const OPTIONS_BUILT: &str = r#"
    # test_option_building_manual
    "root":2,"commands":[["set",2,{"s":"hello"}]]}
    = 0 {"ok":{"s":"hello"},"released":[]}
    # test_option_building_none
    "root":2,"commands":[["set",2,null]]}
    = 0 {"ok":null,"released":[]}
    # test_option_building_with_begin_some
    "root":2,"commands":[["begin_some"],["set",1,"hello"],["end"]]}
    = 0 {"ok":{"s":"hello"},"released":[]}
    # test_option_building_set_default
    "root":2,"commands":[["set_default"]]}
    = 0 {"ok":null,"released":[]}
    # test_nested_option_building
    "root":4,"commands":[["set",4,{"s":{"s":"hello"}}]]}
    = 0 {"ok":{"s":{"s":"hello"}},"released":[]}
    # test_option_in_struct
    "root":5,"commands":[
        ["begin_nth_field",0],["set",2,{"s":"Alice"}],["end"],
        ["begin_nth_field",1],["set",3,null],["end"]
    ]}
    = 0 {"ok":[{"s":"Alice"},null],"released":[]}
    # test_option_field_manual_building
    "root":6,"commands":[["begin_nth_field",0],["set",2,{"s":"test"}],["end"]]}
    = 0 {"ok":[{"s":"test"}],"released":[]}
    # option_uninit_defaults_to_none
    "root":3,"commands":[]}
    = 0 {"ok":null,"released":[]}
    # option_init
    "root":3,"commands":[["set",3,{"s":6241}]]}
    = 0 {"ok":{"s":6241},"released":[]}
"#;

/// The shapes i32, String, u32, lists, results of these, and a struct of results, before the root.
const RESULTS: &str = r#"{"shapes":[
    {"name":"i32","def":"i32"},
    {"name":"String","def":"String"},
    {"name":"u32","def":"u32"},
    {"name":"Ints","def":{"list":0}},
    {"name":"Strings","def":{"list":1}},
    {"name":"TextOrInt","def":{"result":[1,0]}},
    {"name":"IntsOrText","def":{"result":[3,1]}},
    {"name":"IntOrTexts","def":{"result":[0,4]}},
    {"name":"Both","def":{"struct":[{"name":"success","shape":5},{"name":"failure","shape":5}]}},
    {"name":"NumberOrText","def":{"result":[2,1]}}
],"#;

const RESULTS_BUILT: &str = r#"
    # test_result_building_ok
    "root":5,"commands":[["begin_ok"],["set",1,"hello"],["end"]]}
    = 0 {"ok":{"ok":"hello"},"released":[]}
    # test_result_building_err
    "root":5,"commands":[["begin_err"],["set",0,{"i":42}],["end"]]}
    = 0 {"ok":{"err":{"i":42}},"released":[]}
    # test_result_building_ok_complex_type
    "root":6,"commands":[["begin_ok"],["set",3,{"l":[{"i":1},{"i":2},{"i":3}]}],["end"]]}
    = 0 {"ok":{"ok":{"l":[{"i":1},{"i":2},{"i":3}]}},"released":[]}
    # test_result_building_err_complex_type
    "root":7,"commands":[["begin_err"],["set",4,{"l":["error1","error2"]}],["end"]]}
    = 0 {"ok":{"err":{"l":["error1","error2"]}},"released":[]}
    # test_result_in_struct
    "root":8,"commands":[
        ["begin_nth_field",0],["begin_ok"],["set",1,"success"],["end"],["end"],
        ["begin_nth_field",1],["begin_err"],["set",0,{"i":404}],["end"],["end"]
    ]}
    = 0 {"ok":[{"ok":"success"},{"err":{"i":404}}],"released":[]}
    # result_uninit
    "root":9,"commands":[]}
    = 1 {"error":{"command":0,"detail":"NumberOrText","kind":"UninitializedValue","path":""},"released":[]}
"#;

/// The shapes i32, String, u8, str, Inner (a struct of an i32), pointers to these, structs of Inner
/// and of a pointer to one, and a pointer to a struct of two fields, before the root.
const POINTERS: &str = r#"{"shapes":[
    {"name":"i32","def":"i32"},
    {"name":"String","def":"String"},
    {"name":"u8","def":"u8"},
    {"name":"str","def":"str"},
    {"name":"Inner","def":{"struct":[{"name":"value","shape":0}]}},
    {"name":"ArcInner","def":{"pointer":{"known":"Arc","pointee":4}}},
    {"name":"OuterNoArc","def":{"struct":[{"name":"inner","shape":4}]}},
    {"name":"OuterYesArc","def":{"struct":[{"name":"inner","shape":5}]}},
    {"name":"ArcStr","def":{"pointer":{"known":"Arc","pointee":3}}},
    {"name":"RcStr","def":{"pointer":{"known":"Rc","pointee":3}}},
    {"name":"ArcU8","def":{"pointer":{"known":"Arc","pointee":2}}},
    {"name":"u32","def":"u32"},
    {"name":"Pair","def":{"struct":[{"name":"x","shape":11},{"name":"y","shape":1}]}},
    {"name":"ArcPair","def":{"pointer":{"known":"Arc","pointee":12}}}
],"#;

const POINTERS_BUILT: &str = r#"
    # outer_no_arc
    "root":6,"commands":[
        ["begin_field","inner"],["begin_field","value"],["set",0,{"i":1234}],["end"],["end"]
    ]}
    = 0 {"ok":[[{"i":1234}]],"released":[]}
    # outer_yes_arc_put
    "root":7,"commands":[["begin_field","inner"],["set",5,{"p":[{"i":5678}]}],["end"]]}
    = 0 {"ok":[{"p":[{"i":5678}]}],"released":[]}
    # outer_yes_arc_pointee
    "root":7,"commands":[
        ["begin_field","inner"],["begin_smart_ptr"],["begin_field","value"],
        ["set",0,{"i":4321}],["end"],["end"],["end"]
    ]}
    = 0 {"ok":[{"p":[{"i":4321}]}],"released":[]}
    # arc_str_begin_smart_ptr_good
    "root":8,"commands":[["begin_smart_ptr"],["set",1,"foobar"],["end"]]}
    = 0 {"ok":{"p":"foobar"},"released":[]}
    # arc_str_begin_smart_ptr_bad_1
    "root":8,"commands":[]}
    = 1 {"error":{"command":0,"detail":"ArcStr","kind":"UninitializedValue","path":""},"released":[]}
    # arc_str_begin_smart_ptr_bad_2a
    "root":8,"commands":[["begin_smart_ptr"]]}
    = 1 {"error":{"command":1,"detail":"build() called but more than one frame is on the stack",
        "kind":"InvariantViolation","path":"::deref"},"released":[]}
    # arc_str_begin_smart_ptr_bad_2b
    "root":8,"commands":[["begin_smart_ptr"],["end"]]}
    = 1 {"error":{"command":1,"detail":"str","kind":"UninitializedValue","path":"::deref"},"released":[]}
    # arc_str_begin_smart_ptr_bad_3
    "root":8,"commands":[["begin_smart_ptr"],["set",1,"foobar"]]}
    = 1 {"error":{"command":2,"detail":"build() called but more than one frame is on the stack",
        "kind":"InvariantViolation","path":"::deref"},"released":[]}
    # rc_str_begin_smart_ptr_once
    "root":9,"commands":[["begin_smart_ptr"],["set",1,"foobar"],["end"]]}
    = 0 {"ok":{"p":"foobar"},"released":[]}
    # rc_str_begin_smart_ptr_twice
    "root":9,"commands":[
        ["begin_smart_ptr"],["set",1,"foobar"],["end"],
        ["begin_smart_ptr"],["set",1,"barbaz"],["end"]
    ]}
    = 0 {"ok":{"p":"barbaz"},"released":[]}
    # smartptr_inner_frame_deferred
    "root":13,"commands":[
        ["begin_deferred"],["begin_smart_ptr"],["begin_field","x"],["set",11,42],["end"],
        ["begin_field","y"],["set",1,"hello"],["end"],["end"],["finish_deferred"]
    ]}
    = 0 {"ok":{"p":[42,"hello"]},"released":[]}
    # smart_pointer_uninit
    "root":10,"commands":[]}
    = 1 {"error":{"command":0,"detail":"ArcU8","kind":"UninitializedValue","path":""},"released":[]}
"#;

/// The shapes u32 and FooBar (an enum of Foo, without fields, and Bar), before the root.
const ENUMS: &str = r#"{"shapes":[
    {"name":"u32","def":"u32"},
    {"name":"FooBar","def":{"enum":{"repr":"U8","variants":[
        {"name":"Foo","fields":[],"discriminant":0},
        {"name":"Bar","fields":[{"name":"x","shape":0}],"discriminant":1}
    ]}}}
],"#;

const ENUMS_BUILT: &str = r#"
    # enum_uninit
    "root":1,"commands":[]}
    = 1 {"error":{"command":0,"detail":"FooBar","kind":"UninitializedValue","path":""},"released":[]}
    # enum_uninit, a variant without fields
    "root":1,"commands":[["select_variant_named","Foo"]]}
    = 0 {"ok":{"v":[0,[]]},"released":[]}
    # enum_uninit, a variant with a field
    "root":1,"commands":[["select_variant_named","Bar"]]}
    = 1 {"error":{"command":1,"detail":"x","kind":"UninitializedField","path":""},"released":[]}
"#;

/// The shapes u8, i32, MyNonZeroU8 (a u8 that isn't 0), Point (two numbers, none below 0) and
/// Container (a Point), before the root.
const INVARIANTS: &str = r#"{"shapes":[
    {"name":"u8","def":"u8"},
    {"name":"i32","def":"i32"},
    {"name":"MyNonZeroU8","def":{"tuple_struct":[{"name":"0","shape":0}]},"invariant":0},
    {"name":"Point","def":{"struct":[{"name":"x","shape":1},{"name":"y","shape":1}]},"invariant":3},
    {"name":"Container","def":{"struct":[{"name":"point","shape":3}]}}
],"#;

const INVARIANTS_BUILT: &str = r#"
    # build_with_invariants
    "root":2,"commands":[["begin_nth_field",0],["set",0,42],["end"]]}
    = 0 {"ok":[42],"released":[]}
    # build_with_invariants, zero
    "root":2,"commands":[["begin_nth_field",0],["set",0,0],["end"]]}
    = 1 {"error":{"command":3,"detail":"a type invariant does not hold","kind":"InvariantViolation","path":""},"released":[]}
    # build_nested_with_invariants
    "root":4,"commands":[
        ["begin_field","point"],["begin_field","x"],["set",1,{"i":10}],["end"],
        ["begin_field","y"],["set",1,{"i":20}],["end"],["end"]
    ]}
    = 0 {"ok":[[{"i":10},{"i":20}]],"released":[]}
    # build_nested_with_invariants, a number below zero
    "root":4,"commands":[
        ["begin_field","point"],["begin_field","x"],["set",1,{"i":-10}],["end"],
        ["begin_field","y"],["set",1,{"i":20}],["end"],["end"]
    ]}
    = 1 {"error":{"command":8,"detail":"a type invariant does not hold","kind":"InvariantViolation","path":""},"released":[]}
"#;

#[test]
fn contents_enums_and_invariants_come_out_as_in_the_original(rt: HostRuntime) {
    let tables = [
        (OPTIONS, 9, OPTIONS_BUILT),
        (RESULTS, 6, RESULTS_BUILT),
        (POINTERS, 12, POINTERS_BUILT),
        (ENUMS, 3, ENUMS_BUILT),
        (INVARIANTS, 4, INVARIANTS_BUILT),
    ];
    check_tables(&rt, &tables);
}
