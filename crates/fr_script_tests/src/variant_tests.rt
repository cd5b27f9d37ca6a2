//! Enums in documents: variants are selected, switched and gone on with; and fields that are set to
//! their defaults.
use crate::documents::check_tables;

/// The shapes u32, Res (opaque) and FooBar (an enum of Foo, which has no fields, and of Bar),
/// before the root.
const FOO_BAR: &str = r#"{"shapes":[
    {"name":"u32","def":"u32"},
    {"name":"Res","def":"opaque"},
    {"name":"FooBar","def":{"enum":{"repr":"U8","variants":[
        {"name":"Foo","fields":[],"discriminant":0},
        {"name":"Bar","fields":[{"name":"x","shape":0},{"name":"r","shape":1}],"discriminant":1}
    ]}}}
],"#;

const SELECTED: &str = r#"
    # an enum of which no variant is selected
    "root":2,"commands":[]}
    = 1 {"error":{"command":0,"detail":"FooBar","kind":"UninitializedValue","path":""},"released":[]}
    # a variant without fields is whole as soon as it is selected
    "root":2,"commands":[["select_variant_named","Foo"]]}
    = 0 {"ok":{"v":[0,[]]},"released":[]}
    # a variant of which a field is missing
    "root":2,"commands":[["select_variant_named","Bar"]]}
    = 1 {"error":{"command":1,"detail":"x","kind":"UninitializedField","path":""},"released":[]}
    # another variant releases the fields of the one before
    "root":2,"tokens":1,"commands":[
        ["select_variant_named","Bar"],["begin_nth_field",1],["set",1,{"t":0}],["end"],
        ["select_variant_named","Foo"]
    ]}
    = 0 {"ok":{"v":[0,[]]},"released":[0]}
    # a variant that is selected again keeps its fields
    "root":2,"tokens":1,"commands":[
        ["select_variant_named","Bar"],["begin_nth_field",1],["set",1,{"t":0}],["end"],
        ["select_variant_named","Bar"],["begin_field","x"],["set",0,5],["end"]
    ]}
    = 0 {"ok":{"v":[1,[5,{"t":0}]]},"released":[]}
    # a field of a variant is told by its number
    "root":2,"commands":[["select_variant_named","Bar"],["begin_field","r"],["end"]]}
    = 1 {"error":{"command":2,"detail":"Res","kind":"UninitializedValue","path":"1"},"released":[]}
    # a field past the last of a variant
    "root":2,"commands":[["select_variant_named","Bar"],["begin_nth_field",2]]}
    = 1 {"error":{"command":1,"detail":"enum field index out of bounds","kind":"OperationFailed","path":""},"released":[]}
    # a name that no field of the variant has
    "root":2,"commands":[["select_variant_named","Foo"],["begin_field","x"]]}
    = 1 {"error":{"command":1,"detail":"no such field","kind":"FieldError","path":""},"released":[]}
    # a variant over a whole value starts anew
    "root":2,"tokens":1,"commands":[
        ["set",2,{"v":[1,[5,{"t":0}]]}],["select_variant_named","Bar"],["begin_nth_field",0],
        ["set",0,6],["end"]
    ]}
    = 1 {"error":{"command":5,"detail":"r","kind":"UninitializedField","path":""},"released":[0]}
    # half a variant is left in deferred mode and gone on with
    "root":2,"tokens":1,"commands":[
        ["begin_deferred"],["select_variant_named","Bar"],["begin_nth_field",0],["set",0,5],
        ["end"],["select_variant_named","Bar"],["begin_nth_field",1],["set",1,{"t":0}],["end"],
        ["finish_deferred"]
    ]}
    = 0 {"ok":{"v":[1,[5,{"t":0}]]},"released":[]}
    # a variant is switched in deferred mode
    "root":2,"tokens":1,"commands":[
        ["begin_deferred"],["select_variant_named","Bar"],["begin_nth_field",1],
        ["set",1,{"t":0}],["end"],["select_variant_named","Foo"],["finish_deferred"]
    ]}
    = 0 {"ok":{"v":[0,[]]},"released":[0]}
"#;

/// The shapes u32, Level (an enum of four variants) and Loose (one without a layout of its own),
/// before the root.
const LEVELS: &str = r#"{"shapes":[
    {"name":"u32","def":"u32"},
    {"name":"Level","def":{"enum":{"repr":"I8","variants":[
        {"name":"Low","fields":[],"discriminant":-1},
        {"name":"High","rename":"high","fields":[
            {"name":"x","shape":0,"default":{"custom":7}}
        ],"discriminant":1},
        {"name":"Same","fields":[],"discriminant":1},{"name":"Else","fields":[]}
    ]}}},
    {"name":"Loose","def":{"enum":{"repr":"Rust","variants":[
        {"name":"A","fields":[],"discriminant":0}
    ]}}}
],"#;

const TOLD: &str = r#"
    # a variant by its number
    "root":1,"commands":[["select_nth_variant",0]]}
    = 0 {"ok":{"v":[0,[]]},"released":[]}
    # no variant has the number
    "root":1,"commands":[["select_nth_variant",4]]}
    = 1 {"error":{"command":0,"detail":"variant index out of bounds","kind":"OperationFailed","path":""},"released":[]}
    # a variant by its discriminant
    "root":1,"commands":[["select_variant",-1]]}
    = 0 {"ok":{"v":[0,[]]},"released":[]}
    # the first of two with one discriminant
    "root":1,"commands":[["select_variant",1],["begin_nth_field",0],["set",0,3],["end"]]}
    = 0 {"ok":{"v":[1,[3]]},"released":[]}
    # no variant has the discriminant
    "root":1,"commands":[["select_variant",9]]}
    = 1 {"error":{"command":0,"detail":"No variant found with the given discriminant",
        "kind":"OperationFailed","path":""},"released":[]}
    # a variant by the name that it goes by
    "root":1,"commands":[["select_variant_named","high"]]}
    = 0 {"ok":{"v":[1,[7]]},"released":[]}
    # no variant goes by the name
    "root":1,"commands":[["select_variant_named","High"]]}
    = 1 {"error":{"command":0,"detail":"No variant found with the given name","kind":"OperationFailed","path":""},"released":[]}
    # a variant without a discriminant
    "root":1,"commands":[["select_nth_variant",3]]}
    = 1 {"error":{"command":0,"detail":"trying to select an enum variant without a discriminant",
        "kind":"OperationFailed","path":""},"released":[]}
    # an enum whose layout is left to the compiler
    "root":2,"commands":[["select_nth_variant",0]]}
    = 1 {"error":{"command":0,
        "detail":"Rust enums with unspecified discriminant layout are not supported for incremental building",
        "kind":"OperationFailed","path":""},"released":[]}
    # a place that is no enum
    "root":0,"commands":[["select_nth_variant",0]]}
    = 1 {"error":{"command":0,"detail":"expected enum, got u32","kind":"WasNotA","path":""},"released":[]}
    # a discriminant beyond 64 bits
    "root":0,"commands":[["select_variant",9223372036854775808]]}
    = 2 {"fault":"BadForm","place":"command 0"}
"#;

/// The shapes u32 and Wide, which has more variants than are searched one by one: one goes by
/// another name, one takes unknown names, and two have the discriminants of others before them. The
/// root is Wide.
const WIDE: &str = r#"{"shapes":[
    {"name":"u32","def":"u32"},
    {"name":"Wide","def":{"enum":{"repr":"U8","variants":[
        {"name":"Nine","fields":[],"discriminant":9},
        {"name":"Eight","fields":[{"name":"x","shape":0}],"discriminant":8},
        {"name":"Seven","rename":"seven","fields":[],"discriminant":7},
        {"name":"Six","fields":[],"discriminant":6},
        {"name":"Five","fields":[],"discriminant":5},
        {"name":"Rest","fields":[],"discriminant":4,"other":true},
        {"name":"Three","fields":[],"discriminant":8},
        {"name":"Two","fields":[],"discriminant":2},
        {"name":"One","fields":[],"discriminant":9},
        {"name":"Zero","fields":[],"discriminant":0},
        {"name":"Bare","fields":[]}
    ]}}}
],"root":1,"commands":["#;

const AMONG_MANY: &str = r#"
    # the first name
    ["select_variant_named","Nine"]]}
    = 0 {"ok":{"v":[0,[]]},"released":[]}
    # a name far down
    ["select_variant_named","Zero"]]}
    = 0 {"ok":{"v":[9,[]]},"released":[]}
    # the name of a variant whose discriminant another has too
    ["select_variant_named","Three"]]}
    = 0 {"ok":{"v":[6,[]]},"released":[]}
    # the name that a variant goes by
    ["select_variant_named","seven"]]}
    = 0 {"ok":{"v":[2,[]]},"released":[]}
    # the name that it is declared under
    ["select_variant_named","Seven"]]}
    = 1 {"error":{"command":0,"detail":"No variant found with the given name",
        "kind":"OperationFailed","path":""},"released":[]}
    # the name of the variant that takes unknown names
    ["select_variant_named","Rest"]]}
    = 1 {"error":{"command":0,"detail":"No variant found with the given name",
        "kind":"OperationFailed","path":""},"released":[]}
    # a name between others
    ["select_variant_named","Thr"]]}
    = 1 {"error":{"command":0,"detail":"No variant found with the given name",
        "kind":"OperationFailed","path":""},"released":[]}
    # the name of a variant without a discriminant
    ["select_variant_named","Bare"]]}
    = 1 {"error":{"command":0,"detail":"trying to select an enum variant without a discriminant",
        "kind":"OperationFailed","path":""},"released":[]}
    # the first of two with one discriminant has a field
    ["select_variant",8],["begin_nth_field",0],["set",0,3],["end"]]}
    = 0 {"ok":{"v":[1,[3]]},"released":[]}
    # the first of two with another
    ["select_variant",9]]}
    = 0 {"ok":{"v":[0,[]]},"released":[]}
    # the last discriminant
    ["select_variant",0]]}
    = 0 {"ok":{"v":[9,[]]},"released":[]}
    # the discriminant of the variant that takes unknown names
    ["select_variant",4]]}
    = 0 {"ok":{"v":[5,[]]},"released":[]}
    # a discriminant between others
    ["select_variant",3]]}
    = 1 {"error":{"command":0,
        "detail":"No variant found with the given discriminant","kind":"OperationFailed","path":""},"released":[]}
"#;

/// The shapes u32 (with the default 0), Res, Conf (of two marked fields, one whose shape has a
/// default, and a Res) and Mode (an enum whose variant has a marked field), before the root.
const DEFAULTS: &str = r#"{"shapes":[
    {"name":"u32","def":"u32","preset":0},
    {"name":"Res","def":"opaque"},
    {"name":"Conf","def":{"struct":[
        {"name":"a","shape":0,"default":{"custom":5}},{"name":"b","shape":0,"default":"trait"},
        {"name":"c","shape":0},{"name":"r","shape":1}
    ]}},
    {"name":"Mode","def":{"enum":{"repr":"U8","variants":[
        {"name":"Fast","fields":[{"name":"n","shape":0,"default":{"custom":9}}],"discriminant":0}
    ]}}}
],"#;

const DEFAULTED: &str = r#"
    # fields are set to their defaults
    "root":2,"tokens":1,"commands":[
        ["begin_nth_field",0],["set",0,1],["end"],["set_nth_field_to_default",0],
        ["set_nth_field_to_default",1],["set_nth_field_to_default",2],["begin_nth_field",3],
        ["set",1,{"t":0}],["end"]
    ]}
    = 0 {"ok":[5,0,0,{"t":0}],"released":[]}
    # a field whose shape has no default
    "root":2,"commands":[["set_nth_field_to_default",3]]}
    = 1 {"error":{"command":0,"detail":"Res","kind":"DefaultAttrButNoDefaultImpl","path":""},"released":[]}
    # a field that isn't there
    "root":2,"commands":[["set_nth_field_to_default",4]]}
    = 1 {"error":{"command":0,"detail":"field index out of bounds","kind":"OperationFailed","path":""},"released":[]}
    # a default of a variant's field
    "root":3,"commands":[["select_nth_variant",0],["set_nth_field_to_default",0]]}
    = 0 {"ok":{"v":[0,[9]]},"released":[]}
    # a field of an enum of which no variant is selected
    "root":3,"commands":[["set_nth_field_to_default",0]]}
    = 1 {"error":{"command":0,"detail":"must select variant before selecting enum fields",
        "kind":"OperationFailed","path":""},"released":[]}
"#;

#[test]
fn variants_are_selected_and_fields_set_to_defaults(rt: HostRuntime) {
    let tables = [
        (FOO_BAR, 11, SELECTED),
        (LEVELS, 11, TOLD),
        (WIDE, 13, AMONG_MANY),
        (DEFAULTS, 5, DEFAULTED),
    ];
    check_tables(&rt, &tables);
}
