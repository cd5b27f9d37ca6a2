//! Options, results and pointers in documents: what they hold is entered, left and entered again.
use crate::documents::{check_parts, check_tables};
use std::process::Abort;

/// The shapes u32, String, Inner (x and b), ArcInner, str, BoxStr, R (a result), Res2 (two of
/// them), OptInner, Res (opaque), OptRes, Sides (a result of two Res), Fixed (a pointer that isn't
/// made from what it points to) and RefStr, before the root.
const HOLDERS: &str = r#"{"shapes":[
    {"name":"u32","def":"u32"},
    {"name":"String","def":"String"},
    {"name":"Inner","def":{"struct":[{"name":"x","shape":0},{"name":"b","shape":0}]}},
    {"name":"ArcInner","def":{"pointer":{"known":"Arc","pointee":2}}},
    {"name":"str","def":"str"},
    {"name":"BoxStr","def":{"pointer":{"known":"Box","pointee":4}}},
    {"name":"R","def":{"result":[1,0]}},
    {"name":"Res2","def":{"struct":[{"name":"success","shape":6},{"name":"failure","shape":6}]}},
    {"name":"OptInner","def":{"option":2},"preset":null},
    {"name":"Res","def":"opaque"},
    {"name":"OptRes","def":{"option":9},"preset":null},
    {"name":"Sides","def":{"result":[9,9]}},
    {"name":"Fixed","def":{"pointer":{"known":"Box","pointee":0,"constructible":false}}},
    {"name":"RefStr","def":{"pointer":{"known":"SharedReference","pointee":4}}}
],"#;

const BUILT: &str = r#"
    # the other side takes the place of the one before
    "root":11,"tokens":2,"commands":[
        ["begin_ok"],["set",9,{"t":0}],["end"],["begin_err"],["set",9,{"t":1}],["end"]
    ]}
    = 0 {"ok":{"err":{"t":1}},"released":[0]}
    # the same side starts anew in strict mode
    "root":11,"tokens":2,"commands":[
        ["begin_ok"],["set",9,{"t":0}],["end"],["begin_ok"],["set",9,{"t":1}],["end"]
    ]}
    = 0 {"ok":{"ok":{"t":1}},"released":[0]}
    # an option starts anew in strict mode
    "root":10,"tokens":2,"commands":[
        ["begin_some"],["set",9,{"t":0}],["end"],["begin_some"],["set",9,{"t":1}],["end"]
    ]}
    = 0 {"ok":{"s":{"t":1}},"released":[0]}
    # an option that is only entered is none
    "root":10,"commands":[]}
    = 0 {"ok":null,"released":[]}
    # a pointer starts anew in strict mode
    "root":3,"commands":[
        ["begin_smart_ptr"],["begin_field","x"],["set",0,1],["end"],
        ["begin_field","b"],["set",0,2],["end"],["end"],
        ["begin_smart_ptr"],["begin_field","x"],["set",0,3],["end"],["end"]
    ]}
    = 1 {"error":{"command":12,"detail":"b","kind":"UninitializedField","path":"::deref"},"released":[]}
    # a content that is missing
    "root":10,"commands":[["begin_some"],["end"]]}
    = 1 {"error":{"command":1,"detail":"Res","kind":"UninitializedValue","path":"::some"},"released":[]}
    # a side that is left open
    "root":7,"commands":[["begin_nth_field",1],["begin_err"]]}
    = 1 {"error":{"command":2,"detail":"build() called but more than one frame is on the stack",
        "kind":"InvariantViolation","path":"failure::err"},"released":[]}
"#;

const LEFT: &str = r#"
    # what a pointer points to is completed at the end
    "root":3,"commands":[
        ["begin_deferred"],["begin_smart_ptr"],["begin_field","x"],["set",0,42],["end"],
        ["begin_field","b"],["set",0,43],["end"],["end"],["finish_deferred"]
    ]}
    = 0 {"ok":{"p":[42,43]},"released":[]}
    # the other side doesn't keep it
    "root":11,"tokens":2,"commands":[
        ["begin_deferred"],["begin_ok"],["set",9,{"t":0}],["end"],
        ["begin_err"],["set",9,{"t":1}],["end"],["finish_deferred"]
    ]}
    = 0 {"ok":{"err":{"t":1}},"released":[0]}
    # half a content is left and gone on with
    "root":8,"commands":[
        ["begin_deferred"],["begin_some"],["begin_field","x"],["set",0,1],["end"],["end"],
        ["begin_some"],["begin_field","b"],["set",0,2],["end"],["end"],["finish_deferred"]
    ]}
    = 0 {"ok":{"s":[1,2]},"released":[]}
    # half of what a pointer points to is left and gone on with
    "root":3,"commands":[
        ["begin_deferred"],["begin_smart_ptr"],["begin_field","x"],["set",0,1],["end"],["end"],
        ["begin_smart_ptr"],["begin_field","b"],["set",0,2],["end"],["end"],["finish_deferred"]
    ]}
    = 0 {"ok":{"p":[1,2]},"released":[]}
    # a struct in a whole option is entered in place
    "root":8,"commands":[
        ["set",8,{"s":[1,2]}],["begin_deferred"],["begin_some"],["begin_field","b"],["set",0,5],
        ["end"],["end"],["finish_deferred"]
    ]}
    = 0 {"ok":{"s":[1,5]},"released":[]}
    # what isn't there is found at the end
    "root":8,"commands":[
        ["begin_deferred"],["begin_some"],["begin_field","x"],["set",0,1],["end"],["end"],
        ["finish_deferred"]
    ]}
    = 1 {"error":{"command":6,"detail":"b","kind":"UninitializedField","path":""},"released":[]}
"#;

const REFUSED: &str = r#"
    # a content of no option
    "root":0,"commands":[["begin_some"]]}
    = 1 {"error":{"command":0,"detail":"expected Option, got u32","kind":"WasNotA","path":""},"released":[]}
    # a side of no result
    "root":0,"commands":[["begin_ok"]]}
    = 1 {"error":{"command":0,"detail":"expected Result, got u32","kind":"WasNotA","path":""},"released":[]}
    # what no pointer points to
    "root":0,"commands":[["begin_smart_ptr"]]}
    = 1 {"error":{"command":0,"detail":"push_smart_ptr can only be called on compatible types",
        "kind":"OperationFailed","path":""},"released":[]}
    # a pointer that isn't made from what it points to
    "root":12,"commands":[["begin_smart_ptr"]]}
    = 1 {"error":{"command":0,"detail":"push_smart_ptr can only be called on compatible types",
        "kind":"OperationFailed","path":""},"released":[]}
    # a text that its pointer doesn't own
    "root":13,"commands":[["begin_smart_ptr"]]}
    = 1 {"error":{"command":0,
        "detail":"push_smart_ptr can only be called on pointers to supported pointee types",
        "kind":"OperationFailed","path":""},"released":[]}
    # a content that comes twice
    "root":8,"commands":[["begin_some"],["begin_some"]]}
    = 1 {"error":{"command":1,"detail":"expected Option, got Inner","kind":"WasNotA","path":"::some"},"released":[]}
"#;

/// The shapes Res, Link (an option of a Box, none by default), Box (a pointer to a Step) and Step
/// (a result of a Link or a Res), with a Link as the root, up to the commands.
const LINKS: &str = r#"{"shapes":[
    {"name":"Res","def":"opaque"},
    {"name":"Link","def":{"option":2},"preset":null},
    {"name":"Box","def":{"pointer":{"known":"Box","pointee":3}}},
    {"name":"Step","def":{"result":[1,0]}}
],"root":1,"tokens":1,"commands":["#;

/// How often a link in a box in a step is begun.
const STEPS: usize = 332;

/// Tasks in a list, as examples/tasks.json has them: half of a task is left behind pointers and
/// options, gone on with, and the state of the first is switched.
const TASKS: &str = r#"{"shapes":[
    {"name":"String","def":"String"},
    {"name":"u16","def":"u16"},
    {"name":"State","def":{"enum":{"repr":"U8","variants":[
        {"name":"Open","fields":[],"discriminant":0},
        {"name":"Done","fields":[
            {"name":"by","shape":0},{"name":"hours","shape":1}
        ],"discriminant":1}
    ]}}},
    {"name":"Task","def":{"struct":[
        {"name":"title","shape":0},{"name":"state","shape":2},{"name":"next","shape":4}
    ]}},
    {"name":"NextTask","def":{"option":5},"preset":null},
    {"name":"BoxedTask","def":{"pointer":{"known":"Box","pointee":3}}}
],"#;

const TASKS_BUILT: &str = r#"
    # a list of tasks is built through pointers
    "root":3,"commands":[
        ["begin_deferred"],["begin_field","title"],["set",0,"buy paint"],["end"],
        ["begin_field","state"],["select_variant_named","Open"],["end"],["begin_field","next"],
        ["begin_some"],["begin_smart_ptr"],["begin_field","title"],["set",0,"paint the fence"],["end"],
        ["begin_field","state"],["select_variant_named","Done"],["begin_field","by"],["set",0,"Ana"],
        ["end"],["end"],["end"],["end"],["end"],["begin_field","state"],["select_variant_named","Done"],
        ["begin_field","by"],["set",0,"Rui"],["end"],
        ["begin_field","hours"],["set",1,1],["end"],["end"],["begin_field","next"],["begin_some"],
        ["begin_smart_ptr"],["begin_field","state"],["begin_field","hours"],["set",1,3],["end"],["end"],
        ["begin_field","next"],["begin_some"],["begin_smart_ptr"],["begin_field","title"],
        ["set",0,"rest"],["end"],["begin_field","state"],["select_nth_variant",0],["end"],["end"],
        ["end"],["end"],["end"],["end"],["end"],["finish_deferred"]
    ]}
    = 0 {"ok":[
        "buy paint",{"v":[1,["Rui",1]]},
        {"s":{"p":[
            "paint the fence",{"v":[1,["Ana",3]]},{"s":{"p":["rest",{"v":[0,[]]},null]}}
        ]}}
    ],"released":[]}
"#;

/// Begins 999 places, each in the one before, puts a token into the last, and leaves them all, with
/// these commands around.
fn check_steps_down<'a>(
    rt: &(impl Abort + AllocGlobal),
    name: &str,
    (before, after): (&'a str, &'a str),
    want: &[(&str, usize)],
) {
    let document = [
        (LINKS, 1),
        (before, 1),
        (r#"["begin_some"],["begin_smart_ptr"],["begin_ok"],"#, STEPS),
        (
            r#"["begin_some"],["begin_smart_ptr"],["begin_err"],["set",0,{"t":0}]"#,
            1,
        ),
        (r#",["end"]"#, 999),
        (after, 1),
    ];
    check_parts(rt, name, &document, 0, want);
}

#[test]
fn contents_nest_as_deep_as_a_script_may_begin(rt: HostRuntime) {
    let built = [
        (r#"{"ok":"#, 1),
        (r#"{"s":{"p":{"ok":"#, STEPS),
        (r#"{"s":{"p":{"err":{"t":0}}}}"#, 1),
        ("}}}", STEPS),
        (r#","released":[]}"#, 1),
    ];
    let modes = (r#"["begin_deferred"],"#, r#",["finish_deferred"]]}"#);
    check_steps_down(&rt, "strict", ("", "]}"), &built);
    check_steps_down(&rt, "deferred", modes, &built);
    let dropped = [(r#"{"ok":null,"released":[0]}"#, 1)];
    let modes = (
        r#"["begin_deferred"],"#,
        r#",["set_default"],["finish_deferred"]]}"#,
    );
    check_steps_down(&rt, "replaced", ("", r#",["set_default"]]}"#), &dropped);
    check_steps_down(&rt, "forgotten", modes, &dropped);
}

#[test]
fn options_results_and_pointers_are_built_and_left(rt: HostRuntime) {
    let tables = [
        (HOLDERS, 7, BUILT),
        (HOLDERS, 6, LEFT),
        (HOLDERS, 6, REFUSED),
        (TASKS, 1, TASKS_BUILT),
    ];
    check_tables(&rt, &tables);
}
