//! Dynamic values in documents: values of other shapes that they take, and arrays and objects that
//! they are begun as.
use crate::documents::check_tables;

/// The shapes u32, String, Any (dynamic) and Blob (dynamic, and takes bytes), the other scalars, a
/// shape or two of each other definition, and places with dynamic values in them, before the root.
pub(crate) const SHAPES: &str = r#"{"shapes":[
    {"name":"u32","def":"u32"},
    {"name":"String","def":"String"},
    {"name":"Any","def":"dynamic"},
    {"name":"Blob","def":"dynamic","bytes_ok":true},
    {"name":"bool","def":"bool"},
    {"name":"char","def":"char"},
    {"name":"i8","def":"i8"},
    {"name":"i16","def":"i16"},
    {"name":"i32","def":"i32"},
    {"name":"i64","def":"i64"},
    {"name":"isize","def":"isize"},
    {"name":"i128","def":"i128"},
    {"name":"u8","def":"u8"},
    {"name":"u16","def":"u16"},
    {"name":"u64","def":"u64"},
    {"name":"usize","def":"usize"},
    {"name":"u128","def":"u128"},
    {"name":"str","def":"str"},
    {"name":"CowStr","def":"CowStr"},
    {"name":"Bytes","def":{"list":12}},
    {"name":"Numbers","def":{"list":0}},
    {"name":"Res","def":"opaque"},
    {"name":"Nothing","def":{"unit":[]}},
    {"name":"Pick","def":{"enum":{"repr":"U8","variants":[
        {"name":"A","fields":[],"discriminant":0}
    ]}}},
    {"name":"Maybe","def":{"option":0}},
    {"name":"Either","def":{"result":[0,1]}},
    {"name":"Names","def":{"map":[1,0]}},
    {"name":"Nums","def":{"set":0}},
    {"name":"Pair","def":{"array":[0,2]}},
    {"name":"Link","def":{"pointer":{"known":"Box","pointee":0}}},
    {"name":"Slice","def":{"slice":12}},
    {"name":"Unknown","def":"undefined"},
    {"name":"Holder","def":{"struct":[{"name":"n","shape":0},{"name":"d","shape":2}]}},
    {"name":"MaybeAny","def":{"option":2}},
    {"name":"Anys","def":{"list":2}},
    {"name":"Kept","def":{"struct":[{"name":"r","shape":21},{"name":"d","shape":2}]}},
    {"name":"AnySet","def":{"set":2}}
],"#;

/// What is put at an Any, and the dynamic value that comes of it.
const CONVERTED: &str = r#"
    # its own shape
    "root":2,"commands":[["set",2,{"d":{"b":[1]}}]]}
    = 0 {"ok":{"d":{"b":[1]}},"released":[]}
    # a truth
    "root":2,"commands":[["set",4,true]]}
    = 0 {"ok":{"d":true},"released":[]}
    # a character
    "root":2,"commands":[["set",5,{"c":"é"}]]}
    = 0 {"ok":{"d":"é"},"released":[]}
    # an i8
    "root":2,"commands":[["set",6,{"i":-7}]]}
    = 0 {"ok":{"d":{"i":-7}},"released":[]}
    # an i16
    "root":2,"commands":[["set",7,{"i":7}]]}
    = 0 {"ok":{"d":{"i":7}},"released":[]}
    # an i32
    "root":2,"commands":[["set",8,{"i":-7}]]}
    = 0 {"ok":{"d":{"i":-7}},"released":[]}
    # the smallest i64
    "root":2,"commands":[["set",9,{"i":-9223372036854775808}]]}
    = 0 {"ok":{"d":{"i":-9223372036854775808}},"released":[]}
    # an isize
    "root":2,"commands":[["set",10,{"i":7}]]}
    = 0 {"ok":{"d":{"i":7}},"released":[]}
    # a u8
    "root":2,"commands":[["set",12,7]]}
    = 0 {"ok":{"d":7},"released":[]}
    # a u16
    "root":2,"commands":[["set",13,7]]}
    = 0 {"ok":{"d":7},"released":[]}
    # a u32
    "root":2,"commands":[["set",0,7]]}
    = 0 {"ok":{"d":7},"released":[]}
    # the largest u64
    "root":2,"commands":[["set",14,18446744073709551615]]}
    = 0 {"ok":{"d":18446744073709551615},"released":[]}
    # a usize
    "root":2,"commands":[["set",15,7]]}
    = 0 {"ok":{"d":7},"released":[]}
    # an owned text
    "root":2,"commands":[["set",1,"hi"]]}
    = 0 {"ok":{"d":"hi"},"released":[]}
    # a text without a size
    "root":2,"commands":[["set",17,"hi"]]}
    = 0 {"ok":{"d":"hi"},"released":[]}
"#;

/// What is put at an Any, and why it isn't taken.
const NOT_CONVERTED: &str = r#"
    # an i128
    "root":2,"commands":[["set",11,{"i":7}]]}
    = 1 {"error":{"command":0,"detail":"unsupported signed integer size for dynamic value","kind":"OperationFailed","path":""},"released":[]}
    # a u128
    "root":2,"commands":[["set",16,7]]}
    = 1 {"error":{"command":0,"detail":"unsupported unsigned integer size for dynamic value","kind":"OperationFailed","path":""},"released":[]}
    # a text that may be borrowed
    "root":2,"commands":[["set",18,"hi"]]}
    = 1 {"error":{"command":0,"detail":"cannot convert this type to dynamic value","kind":"OperationFailed","path":""},"released":[]}
    # another dynamic shape
    "root":2,"commands":[["set",3,{"d":null}]]}
    = 1 {"error":{"command":0,"detail":"cannot convert this type to dynamic value","kind":"OperationFailed","path":""},"released":[]}
    # bytes where none are taken
    "root":2,"commands":[["set",19,{"l":[1]}]]}
    = 1 {"error":{"command":0,"detail":"cannot convert this type to dynamic value","kind":"OperationFailed","path":""},"released":[]}
    # a struct
    "root":2,"commands":[["set",22,[]]]}
    = 1 {"error":{"command":0,"detail":"cannot convert this type to dynamic value","kind":"OperationFailed","path":""},"released":[]}
    # an enum
    "root":2,"commands":[["set",23,{"v":[0,[]]}]]}
    = 1 {"error":{"command":0,"detail":"cannot convert this type to dynamic value","kind":"OperationFailed","path":""},"released":[]}
    # an option
    "root":2,"commands":[["set",24,null]]}
    = 1 {"error":{"command":0,"detail":"cannot convert this type to dynamic value","kind":"OperationFailed","path":""},"released":[]}
    # a result
    "root":2,"commands":[["set",25,{"ok":1}]]}
    = 1 {"error":{"command":0,"detail":"cannot convert this type to dynamic value","kind":"OperationFailed","path":""},"released":[]}
    # a map
    "root":2,"commands":[["set",26,{"m":[]}]]}
    = 1 {"error":{"command":0,"detail":"cannot convert this type to dynamic value","kind":"OperationFailed","path":""},"released":[]}
    # a set of numbers
    "root":2,"commands":[["set",27,{"e":[]}]]}
    = 1 {"error":{"command":0,"detail":"cannot convert this type to dynamic value","kind":"OperationFailed","path":""},"released":[]}
    # an array of two
    "root":2,"commands":[["set",28,[1,2]]]}
    = 1 {"error":{"command":0,"detail":"cannot convert this type to dynamic value","kind":"OperationFailed","path":""},"released":[]}
    # a pointer
    "root":2,"commands":[["set",29,{"p":1}]]}
    = 1 {"error":{"command":0,"detail":"cannot convert this type to dynamic value","kind":"OperationFailed","path":""},"released":[]}
    # a slice
    "root":2,"commands":[["set",30,{"l":[]}]]}
    = 1 {"error":{"command":0,"detail":"cannot convert this type to dynamic value","kind":"OperationFailed","path":""},"released":[]}
"#;

const BUILT: &str = r#"
    # an object of a number and an array, in deferred mode
    "root":2,"commands":[
        ["begin_deferred"],["init_map"],["begin_object_entry","a"],["set",0,5],["end"],
        ["begin_object_entry","b"],["init_list"],["begin_list_item"],["set",1,"x"],["end"],
        ["end"],["finish_deferred"]
    ]}
    = 0 {"ok":{"d":{"o":[["a",5],["b",["x"]]]}},"released":[]}
    # an empty array
    "root":2,"commands":[["init_list"]]}
    = 0 {"ok":{"d":[]},"released":[]}
    # an empty object
    "root":2,"commands":[["init_map"]]}
    = 0 {"ok":{"d":{"o":[]}},"released":[]}
    # an array keeps its elements, whole or begun
    "root":2,"commands":[
        ["set",2,{"d":[1]}],["init_list"],["begin_list_item"],["set",0,2],["end"],
        ["init_list"],["begin_list_item"],["set",0,3],["end"]
    ]}
    = 0 {"ok":{"d":[1,2,3]},"released":[]}
    # an object keeps its entries, whole or begun
    "root":2,"commands":[
        ["set",2,{"d":{"o":[["a",true]]}}],["init_map"],["begin_object_entry","b"],["set",0,2],
        ["end"],["init_map"],["begin_object_entry","a"],["set",0,3],["end"]
    ]}
    = 0 {"ok":{"d":{"o":[["a",3],["b",2]]}},"released":[]}
    # a capacity changes nothing
    "root":2,"commands":[["init_list_with_capacity",9],["begin_list_item"],["set",0,1],["end"]]}
    = 0 {"ok":{"d":[1]},"released":[]}
    # an entry that is begun again goes on
    "root":2,"commands":[
        ["init_map"],["begin_object_entry","a"],["init_list"],["begin_list_item"],["set",0,1],
        ["end"],["end"],["begin_object_entry","b"],["set",0,5],["end"],
        ["begin_object_entry","a"],["init_list"],["begin_list_item"],["set",0,2],["end"],["end"]
    ]}
    = 0 {"ok":{"d":{"o":[["a",[1,2]],["b",5]]}},"released":[]}
    # the same in deferred mode
    "root":2,"commands":[
        ["begin_deferred"],["init_map"],["begin_object_entry","a"],["init_list"],
        ["begin_list_item"],["set",0,1],["end"],["end"],
        ["begin_object_entry","b"],["set",0,5],["end"],["begin_object_entry","a"],["init_list"],
        ["begin_list_item"],["set",0,2],["end"],["end"],["finish_deferred"]
    ]}
    = 0 {"ok":{"d":{"o":[["a",[1,2]],["b",5]]}},"released":[]}
    # an entry that is begun again keeps its value
    "root":2,"commands":[
        ["init_map"],["begin_object_entry","a"],["set",0,1],["end"],
        ["begin_object_entry","a"],["end"]
    ]}
    = 0 {"ok":{"d":{"o":[["a",1]]}},"released":[]}
    # an entry that is begun again takes another value
    "root":2,"commands":[
        ["begin_deferred"],["init_map"],["begin_object_entry","a"],["set",0,1],["end"],
        ["begin_object_entry","a"],["set",1,"x"],["end"],["finish_deferred"]
    ]}
    = 0 {"ok":{"d":{"o":[["a","x"]]}},"released":[]}
    # a number starts anew as an array
    "root":2,"commands":[["set",0,1],["init_list"],["begin_list_item"],["set",0,2],["end"]]}
    = 0 {"ok":{"d":[2]},"released":[]}
    # an object starts anew as an array
    "root":2,"commands":[["init_map"],["begin_object_entry","a"],["set",0,1],["end"],["init_list"]]}
    = 0 {"ok":{"d":[]},"released":[]}
    # a whole object starts anew as an array
    "root":2,"commands":[["set",2,{"d":{"o":[["a",null]]}}],["init_list"]]}
    = 0 {"ok":{"d":[]},"released":[]}
    # a number starts anew as an object
    "root":2,"commands":[["set",0,1],["init_map"],["begin_object_entry","a"],["set",0,2],["end"]]}
    = 0 {"ok":{"d":{"o":[["a",2]]}},"released":[]}
    # an array starts anew as an object
    "root":2,"commands":[
        ["begin_deferred"],["init_list"],["begin_list_item"],["set",0,1],["end"],
        ["init_map"],["finish_deferred"]
    ]}
    = 0 {"ok":{"d":{"o":[]}},"released":[]}
    # a whole array starts anew as an object
    "root":2,"commands":[["set",2,{"d":[1]}],["init_map"]]}
    = 0 {"ok":{"d":{"o":[]}},"released":[]}
    # an array gives way to a value
    "root":2,"commands":[["init_list"],["begin_list_item"],["set",0,1],["end"],["set",0,2]]}
    = 0 {"ok":{"d":2},"released":[]}
    # objects in an array in an object
    "root":2,"commands":[
        ["begin_deferred"],["init_map"],["begin_object_entry","a"],["init_list"],
        ["begin_list_item"],["init_map"],["begin_object_entry",""],["set",0,1],["end"],["end"],
        ["begin_list_item"],["init_map"],["begin_object_entry","b"],["set",4,false],["end"],
        ["end"],["end"],["finish_deferred"]
    ]}
    = 0 {"ok":{"d":{"o":[["a",[{"o":[["",1]]},{"o":[["b",false]]}]]]}},"released":[]}
    # a dynamic value in an option goes on
    "root":33,"commands":[
        ["set",33,{"s":{"d":[1]}}],["begin_some"],["init_list"],["begin_list_item"],["set",0,2],
        ["end"],["end"]
    ]}
    = 0 {"ok":{"s":{"d":[1,2]}},"released":[]}
    # dynamic values in a list
    "root":34,"commands":[
        ["init_list"],["begin_list_item"],["set",4,true],["end"],
        ["begin_list_item"],["init_map"],["end"]
    ]}
    = 0 {"ok":{"l":[{"d":true},{"d":{"o":[]}}]},"released":[]}
    # a field that was left goes on
    "root":32,"commands":[
        ["begin_deferred"],["begin_field","d"],["init_map"],["begin_object_entry","a"],
        ["set",0,1],["end"],["end"],["begin_field","n"],["set",0,7],["end"],
        ["begin_field","d"],["begin_object_entry","b"],["set",0,2],["end"],["end"],
        ["finish_deferred"]
    ]}
    = 0 {"ok":[7,{"d":{"o":[["a",1],["b",2]]}}],"released":[]}
    # deferred mode ends inside an entry
    "root":2,"commands":[
        ["begin_deferred"],["init_map"],["begin_object_entry","a"],["set",0,1],
        ["finish_deferred"],["end"],["begin_object_entry","b"],["set",0,2],["end"]
    ]}
    = 0 {"ok":{"d":{"o":[["a",1],["b",2]]}},"released":[]}
    # bytes where they are taken
    "root":3,"commands":[["set",19,{"l":[1,255]}]]}
    = 0 {"ok":{"d":{"b":[1,255]}},"released":[]}
    # no bytes
    "root":3,"commands":[["set",19,{"l":[]}]]}
    = 0 {"ok":{"d":{"b":[]}},"released":[]}
    # bytes in an entry
    "root":3,"commands":[
        ["begin_deferred"],["init_map"],["begin_object_entry","a"],["set",19,{"l":[0]}],["end"],
        ["finish_deferred"]
    ]}
    = 0 {"ok":{"d":{"o":[["a",{"b":[0]}]]}},"released":[]}
    # a set keeps equal arrays once
    "root":36,"commands":[
        ["begin_deferred"],["init_set"],["begin_set_item"],["init_list"],["begin_list_item"],
        ["set",0,1],["end"],["end"],["begin_set_item"],["set",2,{"d":[1]}],["end"],
        ["finish_deferred"]
    ]}
    = 0 {"ok":{"e":[{"d":[1]}]},"released":[]}
    # an object in a list
    "root":34,"commands":[
        ["init_list"],["begin_list_item"],["init_map"],["begin_object_entry","k"],["set",1,"x"],
        ["end"],["end"]
    ]}
    = 0 {"ok":{"l":[{"d":{"o":[["k","x"]]}}]},"released":[]}
    # an object that becomes an array in deferred mode
    "root":2,"commands":[
        ["begin_deferred"],["init_map"],["begin_object_entry","a"],["set",0,5],["end"],
        ["init_list"],["begin_list_item"],["set",0,1],["end"],["finish_deferred"]
    ]}
    = 0 {"ok":{"d":[1]},"released":[]}
    # deferred mode that ends at an element
    "root":2,"commands":[
        ["begin_deferred"],["init_list"],["begin_list_item"],["set",0,1],["finish_deferred"],
        ["end"]
    ]}
    = 0 {"ok":{"d":[1]},"released":[]}
"#;

#[test]
fn dynamic_values_are_converted_or_built_part_by_part(rt: HostRuntime) {
    let tables = [
        (SHAPES, 15, CONVERTED),
        (SHAPES, 14, NOT_CONVERTED),
        (SHAPES, 29, BUILT),
    ];
    check_tables(&rt, &tables);
}
