//! What is refused at dynamic values in documents.
use crate::documents::check_tables;
use crate::dynamic_tests::SHAPES;

const REFUSED: &str = r#"
    # nothing is put there
    "root":2,"commands":[]}
    = 1 {"error":{"command":0,"detail":"Any","kind":"UninitializedValue","path":""},"released":[]}
    # an element without a value
    "root":2,"commands":[["init_list"],["begin_list_item"],["end"]]}
    = 1 {"error":{"command":2,"detail":"Any","kind":"UninitializedValue","path":"[0]"},"released":[]}
    # in deferred mode as it ends
    "root":2,"commands":[["begin_deferred"],["init_list"],["begin_list_item"],["end"],["finish_deferred"]]}
    = 1 {"error":{"command":3,"detail":"Any","kind":"UninitializedValue","path":"[0]"},"released":[]}
    # an entry without a value
    "root":2,"commands":[["init_map"],["begin_object_entry","a"],["end"]]}
    = 1 {"error":{"command":2,"detail":"Any","kind":"UninitializedValue","path":"[a]"},"released":[]}
    # an entry in deferred mode as it ends
    "root":2,"commands":[
        ["begin_deferred"],["init_map"],["begin_object_entry","a"],["set",0,1],["end"],
        ["begin_object_entry","b"],["end"],["finish_deferred"]
    ]}
    = 1 {"error":{"command":6,"detail":"Any","kind":"UninitializedValue","path":"[b]"},"released":[]}
    # an element behind others
    "root":2,"commands":[
        ["set",2,{"d":[1,2]}],["init_list"],["begin_list_item"],["set",0,3],["end"],
        ["begin_list_item"],["end"]
    ]}
    = 1 {"error":{"command":6,"detail":"Any","kind":"UninitializedValue","path":"[3]"},"released":[]}
    # an element in an entry
    "root":2,"commands":[
        ["begin_deferred"],["init_map"],["begin_object_entry","a"],["set",0,1],["end"],
        ["begin_object_entry","b"],["init_list"],["begin_list_item"],["end"],["end"],
        ["finish_deferred"]
    ]}
    = 1 {"error":{"command":8,"detail":"Any","kind":"UninitializedValue","path":"[b][0]"},"released":[]}
    # an element of a field
    "root":32,"commands":[
        ["begin_deferred"],["begin_field","d"],["init_list"],["begin_list_item"],["set",0,1],
        ["end"],["begin_list_item"],["end"],["end"],["finish_deferred"]
    ]}
    = 1 {"error":{"command":7,"detail":"Any","kind":"UninitializedValue","path":"d[1]"},"released":[]}
    # deferred mode that ends too early
    "root":2,"commands":[["begin_deferred"],["init_map"],["begin_object_entry","a"],["finish_deferred"]]}
    = 1 {"error":{"command":3,"detail":"Any","kind":"UninitializedValue","path":"[a]"},"released":[]}
    # an entry that is left open
    "root":2,"commands":[["init_map"],["begin_object_entry","a"],["set",0,1]]}
    = 1 {"error":{"command":3,"detail":"build() called but more than one frame is on the stack",
        "kind":"InvariantViolation","path":"[a]"},"released":[]}
    # an entry of a number
    "root":0,"commands":[["begin_object_entry","a"]]}
    = 1 {"error":{"command":0,
        "detail":"begin_object_entry can only be called on DynamicValue types",
        "kind":"OperationFailed","path":""},"released":[]}
    # an entry of a map
    "root":26,"commands":[["init_map"],["begin_object_entry","a"]]}
    = 1 {"error":{"command":1,
        "detail":"begin_object_entry can only be called on DynamicValue types",
        "kind":"OperationFailed","path":""},"released":[]}
    # an entry before its object
    "root":2,"commands":[["begin_object_entry","a"]]}
    = 1 {"error":{"command":0,"detail":"must call init_map() before begin_object_entry()",
        "kind":"OperationFailed","path":""},"released":[]}
    # an entry of an array
    "root":2,"commands":[["init_list"],["begin_object_entry","a"]]}
    = 1 {"error":{"command":1,"detail":"must call init_map() before begin_object_entry()",
        "kind":"OperationFailed","path":""},"released":[]}
    # an entry of a whole object
    "root":2,"commands":[["set",2,{"d":{"o":[]}}],["begin_object_entry","a"]]}
    = 1 {"error":{"command":1,"detail":"must call init_map() before begin_object_entry()",
        "kind":"OperationFailed","path":""},"released":[]}
    # an entry of an object that was ended
    "root":2,"commands":[
        ["begin_deferred"],["init_map"],["begin_object_entry","a"],["init_map"],
        ["begin_object_entry","x"],["set",0,1],["end"],["end"],
        ["begin_object_entry","a"],["begin_object_entry","y"],["finish_deferred"]
    ]}
    = 1 {"error":{"command":9,"detail":"must call init_map() before begin_object_entry()",
        "kind":"OperationFailed","path":"[a]"},"released":[]}
    # an element before its array
    "root":2,"commands":[["begin_list_item"]]}
    = 1 {"error":{"command":0,"detail":"push can only be called on List or DynamicValue types",
        "kind":"OperationFailed","path":""},"released":[]}
    # an element of an object
    "root":2,"commands":[["init_map"],["begin_list_item"]]}
    = 1 {"error":{"command":1,"detail":"push can only be called on List or DynamicValue types",
        "kind":"OperationFailed","path":""},"released":[]}
    # an element of an object beside a token
    "root":35,"tokens":1,"commands":[
        ["begin_field","r"],["set",21,{"t":0}],["end"],
        ["begin_field","d"],["init_map"],["begin_list_item"]
    ]}
    = 1 {"error":{"command":5,"detail":"push can only be called on List or DynamicValue types",
        "kind":"OperationFailed","path":"d"},"released":[0]}
    # a key of an object
    "root":2,"commands":[["init_map"],["begin_key"]]}
    = 1 {"error":{"command":1,"detail":"must call init_map() before begin_key()","kind":"OperationFailed","path":""},"released":[]}
    # a value of an object
    "root":2,"commands":[["init_map"],["begin_value"]]}
    = 1 {"error":{"command":1,"detail":"must complete key before begin_value()","kind":"OperationFailed","path":""},"released":[]}
    # a set
    "root":2,"commands":[["init_set"]]}
    = 1 {"error":{"command":0,"detail":"init_set can only be called on Set types","kind":"OperationFailed","path":""},"released":[]}
    # a set of an array
    "root":2,"commands":[["init_list"],["init_set"]]}
    = 1 {"error":{"command":1,"detail":"init_set called but tracker isn't something set-like",
        "kind":"UnexpectedTracker","path":""},"released":[]}
    # an item of a set
    "root":2,"commands":[["begin_set_item"]]}
    = 1 {"error":{"command":0,"detail":"init_set_item can only be called on Set types",
        "kind":"OperationFailed","path":""},"released":[]}
    # an array of fixed length
    "root":2,"commands":[["init_array"]]}
    = 1 {"error":{"command":0,"detail":"init_array can only be called on Array types",
        "kind":"OperationFailed","path":""},"released":[]}
    # a field
    "root":2,"commands":[["begin_field","a"]]}
    = 1 {"error":{"command":0,"detail":"cannot select a field from this type","kind":"OperationFailed","path":""},"released":[]}
    # a list of numbers where bytes are taken
    "root":3,"commands":[["set",20,{"l":[1]}]]}
    = 1 {"error":{"command":0,"detail":"cannot convert this type to dynamic value","kind":"OperationFailed","path":""},"released":[]}
    # a token
    "root":35,"tokens":2,"commands":[
        ["begin_field","r"],["set",21,{"t":0}],["end"],["begin_field","d"],["set",21,{"t":1}]
    ]}
    = 1 {"error":{"command":4,"detail":"cannot convert this type to dynamic value",
        "kind":"OperationFailed","path":"d"},"released":[0,1]}
    # a token of an undefined shape
    "root":2,"tokens":1,"commands":[["set",31,{"t":0}]]}
    = 1 {"error":{"command":0,"detail":"cannot convert this type to dynamic value","kind":"OperationFailed","path":""},"released":[0]}
    # an element of an array that is whole
    "root":2,"commands":[["set",2,{"d":[1]}],["begin_list_item"]]}
    = 1 {"error":{"command":1,"detail":"push can only be called on List or DynamicValue types",
        "kind":"OperationFailed","path":""},"released":[]}
    # a field of a dynamic value
    "root":2,"commands":[["begin_nth_field",0]]}
    = 1 {"error":{"command":0,"detail":"cannot select a field from this type","kind":"OperationFailed","path":""},"released":[]}
    # too wide a number in an entry
    "root":2,"commands":[["init_map"],["begin_object_entry","a"],["set",11,{"i":1}]]}
    = 1 {"error":{"command":2,"detail":"unsupported signed integer size for dynamic value",
        "kind":"OperationFailed","path":"[a]"},"released":[]}
    # the end of the entry at which deferred mode began
    "root":2,"commands":[["init_map"],["begin_object_entry","a"],["begin_deferred"],["set",0,1],["end"]]}
    = 1 {"error":{"command":4,
        "detail":"Partial::end() called but would pop below deferred start depth",
        "kind":"InvariantViolation","path":"[a]"},"released":[]}
"#;

const BROKEN: &str = r#"
    # an entry without a key
    "root":2,"commands":[["begin_object_entry"]]}
    = 2 {"fault":"BadForm","place":"command 0"}
    # an entry whose key is a number
    "root":2,"commands":[["begin_object_entry",1]]}
    = 2 {"fault":"BadForm","place":"command 0"}
    # an entry of two keys
    "root":2,"commands":[["begin_object_entry","a","b"]]}
    = 2 {"fault":"BadForm","place":"command 0"}
"#;

#[test]
fn dynamic_values_are_refused(rt: HostRuntime) {
    let tables = [(SHAPES, 33, REFUSED), (SHAPES, 3, BROKEN)];
    check_tables(&rt, &tables);
}
