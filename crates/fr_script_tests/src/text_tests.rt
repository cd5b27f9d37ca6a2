//! Each text that an error can have today, printed once.
use crate::documents::check_tables;

/// The shapes 0 u32, 1 String, 2 opaque, 3 an enum, 4 undefined, 5 a pointer, 6 an array of three,
/// 7 an option, 8 a struct of an array and a u32, 9 a shape that can't be planned, 10 one without a
/// size, 11 an array that can't be entered, 12 a struct whose field is marked to take a default
/// that there isn't, 13 a pointer to nothing known, 14 an enum whose layout has a niche, 15 a
/// wrapper without a hook.
const SHAPES: &str = r#"{"shapes":[
    {"name":"u32","def":"u32"},
    {"name":"String","def":"String"},
    {"name":"Res","def":"opaque"},
    {"name":"Choice","def":{"enum":{"repr":"U8","variants":[
        {"name":"A","fields":[],"discriminant":0}
    ]}}},
    {"name":"Nothing","def":"undefined"},
    {"name":"Link","def":{"pointer":{"known":"Box","pointee":0}}},
    {"name":"Three","def":{"array":[0,3]}},
    {"name":"Maybe","def":{"option":0}},
    {"name":"Pair","def":{"struct":[{"name":"first","shape":6},{"name":"second","shape":0}]}},
    {"name":"Odd","def":"other"},
    {"name":"str","def":"str"},
    {"name":"Many","def":{"array":[0,4097]}},
    {"name":"Marked","def":{"struct":[{"name":"a","shape":0,"default":"trait"}]}},
    {"name":"Loose","def":{"pointer":{"known":"Box"}}},
    {"name":"Niche","def":{"enum":{"repr":"RustNPO","variants":[
        {"name":"A","fields":[],"discriminant":0}
    ]}}},
    {"name":"Wrapper","def":"other","inner":0}
],"#;

const REFUSED: &str = r#"
    # a field past the last
    "root":8,"commands":[["begin_nth_field",2]]}
    = 1 {"error":{"command":0,"detail":"field index out of bounds","kind":"OperationFailed","path":""},"released":[]}
    # a field of an enum whose variant isn't selected, by its number
    "root":3,"commands":[["begin_nth_field",0]]}
    = 1 {"error":{"command":0,"detail":"must call select_variant before selecting enum fields",
        "kind":"OperationFailed","path":""},"released":[]}
    # an element past the last
    "root":8,"commands":[["begin_nth_field",0],["begin_nth_field",3]]}
    = 1 {"error":{"command":1,"detail":"array index out of bounds","kind":"OperationFailed","path":"first"},"released":[]}
    # an element of a large array
    "root":11,"commands":[["begin_nth_field",0]]}
    = 1 {"error":{"command":0,"detail":"arrays larger than 4096 elements are not yet supported",
        "kind":"OperationFailed","path":""},"released":[]}
    # an element of a whole array
    "root":6,"commands":[["set",6,[1,2,3]],["begin_nth_field",0]]}
    = 1 {"error":{"command":1,"detail":"unexpected tracker state: expected uninitialized Scalar or Array",
        "kind":"OperationFailed","path":""},"released":[]}
    # a field of an opaque value, by its number
    "root":2,"commands":[["begin_nth_field",0]]}
    = 1 {"error":{"command":0,"detail":"cannot select a field from an opaque type",
        "kind":"OperationFailed","path":""},"released":[]}
    # a field of an option
    "root":7,"commands":[["begin_field","x"]]}
    = 1 {"error":{"command":0,"detail":"cannot select a field from this type",
        "kind":"OperationFailed","path":""},"released":[]}
    # a field of an enum whose variant isn't selected, by its name
    "root":3,"commands":[["begin_field","x"]]}
    = 1 {"error":{"command":0,"detail":"must select variant before selecting enum fields",
        "kind":"OperationFailed","path":""},"released":[]}
    # a field of an undefined type
    "root":4,"commands":[["begin_field","x"]]}
    = 1 {"error":{"command":0,"detail":"shape type is undefined - shape was not properly configured",
        "kind":"OperationFailed","path":""},"released":[]}
    # a field of a number
    "root":8,"commands":[["begin_field","second"],["begin_field","x"]]}
    = 1 {"error":{"command":1,"detail":"cannot select a field from a primitive type",
        "kind":"OperationFailed","path":"second"},"released":[]}
    # a field of an array
    "root":6,"commands":[["begin_field","x"]]}
    = 1 {"error":{"command":0,"detail":"cannot select a field from a sequence type",
        "kind":"OperationFailed","path":""},"released":[]}
    # a field of an opaque value, by its name
    "root":2,"commands":[["begin_field","x"]]}
    = 1 {"error":{"command":0,"detail":"opaque types cannot be reflected upon",
        "kind":"OperationFailed","path":""},"released":[]}
    # a field of a pointer
    "root":5,"commands":[["begin_field","x"]]}
    = 1 {"error":{"command":0,"detail":"cannot select a field from a pointer type",
        "kind":"OperationFailed","path":""},"released":[]}
    # a default that there isn't
    "root":0,"commands":[["set_default"]]}
    = 1 {"error":{"command":0,"detail":"type does not implement Default","kind":"OperationFailed","path":""},"released":[]}
    # a name that no field has
    "root":8,"commands":[["begin_field","third"]]}
    = 1 {"error":{"command":0,"detail":"no such field","kind":"FieldError","path":""},"released":[]}
    # a text where a number is
    "root":8,"commands":[["begin_nth_field",0],["begin_nth_field",1],["set",1,"x"]]}
    = 1 {"error":{"command":2,"detail":"expected u32, got String","kind":"WrongShape","path":"first[1]"},"released":[]}
    # a struct that lacks a field
    "root":8,"commands":[["begin_nth_field",0],["set",6,[1,2,3]],["end"]]}
    = 1 {"error":{"command":3,"detail":"second","kind":"UninitializedField","path":""},"released":[]}
    # an array that lacks elements
    "root":8,"commands":[["begin_nth_field",0],["begin_nth_field",1],["set",0,1],["end"],["end"]]}
    = 1 {"error":{"command":4,"detail":"Three","kind":"UninitializedValue","path":"first"},"released":[]}
    # an end at the root
    "root":0,"commands":[["set",0,1],["end"]]}
    = 1 {"error":{"command":1,"detail":"Partial::end() called with only one frame on the stack",
        "kind":"InvariantViolation","path":""},"released":[]}
    # a build while a field is open
    "root":8,"commands":[["begin_nth_field",1]]}
    = 1 {"error":{"command":1,"detail":"build() called but more than one frame is on the stack",
        "kind":"InvariantViolation","path":"second"},"released":[]}
    # deferred mode that begins twice
    "root":8,"commands":[["begin_deferred"],["begin_deferred"]]}
    = 1 {"error":{"command":1,"detail":"begin_deferred() called but already in deferred mode",
        "kind":"InvariantViolation","path":""},"released":[]}
    # deferred mode that ends before it began
    "root":8,"commands":[["begin_nth_field",1],["finish_deferred"]]}
    = 1 {"error":{"command":1,"detail":"finish_deferred() called but deferred mode is not enabled",
        "kind":"InvariantViolation","path":"second"},"released":[]}
    # an end of the place at which deferred mode began
    "root":8,"commands":[["begin_nth_field",1],["begin_deferred"],["end"]]}
    = 1 {"error":{"command":2,"detail":"Partial::end() called but would pop below deferred start depth",
        "kind":"InvariantViolation","path":"second"},"released":[]}
    # a build in deferred mode
    "root":8,"commands":[["begin_nth_field",1],["begin_deferred"]]}
    = 1 {"error":{"command":2,"detail":"build() called but deferred mode is enabled",
        "kind":"InvariantViolation","path":"second"},"released":[]}
    # a mark without a default
    "root":12,"commands":[["begin_deferred"],["finish_deferred"]]}
    = 1 {"error":{"command":1,"detail":"u32","kind":"DefaultAttrButNoDefaultImpl","path":""},"released":[]}
    # a shape that can't be planned
    "root":9,"commands":[]}
    = 1 {"error":{"command":0,"detail":"unsupported type for deserialization","kind":"Alloc","path":""},"released":[]}
    # a shape without a size
    "root":10,"commands":[]}
    = 1 {"error":{"command":0,"detail":"type is not sized","kind":"Alloc","path":""},"released":[]}
    # a wrapper that nothing converts to
    "root":15,"commands":[]}
    = 1 {"error":{"command":0,"detail":"transparent wrapper requires try_from for deserialization",
        "kind":"Alloc","path":""},"released":[]}
    # what a pointer to nothing known points to
    "root":13,"commands":[["begin_smart_ptr"]]}
    = 1 {"error":{"command":0,"detail":"Smart pointer must have a pointee shape",
        "kind":"OperationFailed","path":""},"released":[]}
    # a variant of an enum whose layout has a niche
    "root":14,"commands":[["select_nth_variant",0]]}
    = 1 {"error":{"command":0,"detail":"RustNPO enums are not supported for incremental building",
        "kind":"OperationFailed","path":""},"released":[]}
    # a number that isn't set
    "root":0,"commands":[]}
    = 1 {"error":{"command":0,"detail":"u32","kind":"UninitializedValue","path":""},"released":[]}
    # an option that isn't set
    "root":7,"commands":[]}
    = 1 {"error":{"command":0,"detail":"Maybe","kind":"UninitializedValue","path":""},"released":[]}
    # an enum that isn't set
    "root":3,"commands":[]}
    = 1 {"error":{"command":0,"detail":"Choice","kind":"UninitializedValue","path":""},"released":[]}
"#;

#[test]
fn each_text_is_printed(rt: HostRuntime) {
    let tables = [(SHAPES, 33, REFUSED)];
    check_tables(&rt, &tables);
}
