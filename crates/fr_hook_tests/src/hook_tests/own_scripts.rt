//! Scripts by hooks of one's own: what they come to, and how often each token is released.
ghost use Rattle.fr_script.specs.DocumentFacts.{IsInOrder};
ghost use Rattle.fr_script.specs.Reading.{document_view};

use super::documents::joined;
use fr_doc::json_of;
use fr_own_hooks::OwnHooks;
use fr_partial::Built;
use fr_script::{Document, ScriptError, build_script, law_documents_in_order, read_document};
use fr_shape::{Ledger, ReflectErrorKind, TryFromFault, Value};
use std::alloc::Global;
use std::process::Abort;

/// A byte; an opaque; a text; shapes that hooks of each number parse; and a struct with an opaque
/// and those that give nothing.
const PARSED: &str = r#"{"shapes":[
    {"name":"u8","def":"u8"},
    {"name":"Res","def":"opaque"},
    {"name":"String","def":"String"},
    {"name":"Given","def":{"option":1},"parse":0,"parse_bytes":0},
    {"name":"Refused","def":"u8","parse":1,"parse_bytes":1},
    {"name":"Starved","def":"u8","parse":2,"parse_bytes":2},
    {"name":"Unparsed","def":"u8","parse":3,"parse_bytes":3},
    {"name":"Record","def":{"struct":[
        {"name":"r","shape":1},
        {"name":"refused","shape":4},
        {"name":"starved","shape":5},
        {"name":"unparsed","shape":6}
    ]}}
],"#;

/// A number; an opaque; a struct of a number that is at most 9; a struct of an opaque, such a
/// struct and such a number; a set of such structs; a struct that never holds, an option of it, and
/// a map from it; a struct that holds; and a number with an invariant, which isn't asked.
const CHECKED: &str = r#"{"shapes":[
    {"name":"u32","def":"u32"},
    {"name":"Res","def":"opaque"},
    {"name":"Digit","def":{"struct":[{"name":"n","shape":0,"validators":[{"custom":2}]}]}},
    {"name":"Digits","def":{"struct":[
        {"name":"r","shape":1},
        {"name":"digit","shape":2},
        {"name":"n","shape":0,"default":{"custom":1},"validators":[{"custom":0},{"custom":2}]}
    ]}},
    {"name":"Set","def":{"set":2}},
    {"name":"Broken","def":{"struct":[{"name":"r","shape":1}]},"invariant":1},
    {"name":"Option","def":{"option":5}},
    {"name":"Map","def":{"map":[5,0]}},
    {"name":"Sound","def":{"struct":[{"name":"r","shape":1}]},"invariant":0},
    {"name":"Number","def":"u32","invariant":1}
],"#;

const NO_PARSING: &str = "Type does not support parsing from string";

const NO_PARSING_OF_BYTES: &str = "Type does not support parsing from bytes";

const BYTES_NOT_PARSED: &str = "Failed to parse bytes value";

const TYPE_INVARIANT: &str = "a type invariant does not hold";

/// A refusal in a word, or as its text says it.
fn name_of(kind: &ReflectErrorKind) -> &'static str {
    match kind {
        ReflectErrorKind::OperationFailed { operation, .. } => operation.text(),
        ReflectErrorKind::InvariantViolation { invariant } => invariant.text(),
        ReflectErrorKind::ValidationFailed { .. } => "ValidationFailed",
        ReflectErrorKind::ParseFailed { .. } => "ParseFailed",
        ReflectErrorKind::CustomDeserializationError { .. } => "CustomDeserializationError",
        ReflectErrorKind::TryFromError {
            inner: TryFromFault::Generic(_),
            ..
        } => "Generic",
        ReflectErrorKind::TryFromError {
            inner: TryFromFault::UnsupportedSourceType,
            ..
        } => "UnsupportedSourceType",
        ReflectErrorKind::OutOfMemory => "OutOfMemory",
        _ => "another refusal",
    }
}

/// Ends the test where a token of these was not released so often, or there are others.
fn check_counts(rt: &impl Abort, ledger: &Ledger, want: &[u32]) {
    assert!(rt; ledger.len() as usize == want.len());
    let mut token = 0u32;
    for count in want {
        assert!(rt; token < ledger.len() && ledger.count(token) == *count);
        token = token.saturating_add(1);
    }
}

/// Ends the test where a value is printed otherwise.
fn check_value(rt: &impl Abort, alloc: Global, value: &Value, want: &str) {
    let Ok(json) = json_of(alloc, value) else {
        panic!(rt; "no memory");
    };
    match json.to_string(alloc) {
        Ok(text) => assert!(rt; text.as_str() == want, "{text}"),
        Err(_) => panic!(rt; "no memory"),
    }
}

/// What a document's script comes to, and the ledger after that.
fn run(rt: &impl Abort, alloc: Global, document: Document) -> (Result<Built, ScriptError>, Ledger)
    requires { IsInOrder (document_view document) }
{
    let Document {
        table,
        root,
        tokens,
        script,
    } = document;
    let Ok(mut ledger) = Ledger::new(alloc, tokens) else {
        panic!(rt; "no memory");
    };
    let outcome = build_script(alloc, &table, root, &OwnHooks, script, &mut ledger);
    (outcome, ledger)
}

/// The same of a document's bytes.
fn run_bytes(
    rt: &impl Abort,
    alloc: Global,
    document: &[u8],
) -> (Result<Built, ScriptError>, Ledger) {
    match read_document(alloc, document) {
        Ok(document) => {
            law_documents_in_order();
            run(rt, alloc, document)
        }
        Err(_) => panic!(rt; "not read"),
    }
}

/// Ends the test where a script is refused, or built, after another number of calls, comes to
/// something else, or leaves one of its tokens released another number of times.
pub fn check_counted(
    rt: &(impl Abort + AllocGlobal),
    shapes: &str,
    rest: &str,
    calls: u32,
    want: &str,
    released: &[u32],
) {
    let document = joined(rt, rt.alloc(), &[shapes, rest]);
    let (outcome, ledger) = run_bytes(rt, rt.alloc(), document.as_bytes());
    match outcome {
        Ok(built) => {
            assert!(rt; built.calls() == calls, "{rest}");
            check_value(rt, rt.alloc(), built.value(), want);
        }
        Err(error) => {
            assert!(rt; name_of(&error.kind) == want, "{rest}");
            assert!(rt; error.number == calls, "{rest}");
        }
    }
    check_counts(rt, &ledger, released);
}

/// Scripts of one token: the shapes and the rest of the document, how many calls there are up to the
/// end or to the refusal, what comes of them, and how often the token is released.
///
/// A script with ample memory isn't out of memory. A parse that is refused, or gives an empty
/// option, lets go of the token. A struct that is set whole isn't validated; an item of a set is as
/// it ends, in either mode.
const SCRIPTS: [(&str, &str, u32, &str, u32); 20] = [
    // A script is built.
    (
        CHECKED,
        r#""root":3,"tokens":1,"commands":[
            ["begin_field","r"],["set",1,{"t":0}],["end"],
            ["begin_field","digit"],["begin_field","n"],["set",0,9],["end"],["end"],
            ["begin_field","n"],["set",0,8],["end"]
        ]}"#,
        11,
        r#"[{"t":0},[9],8]"#,
        0,
    ),
    // Texts and bytes are parsed.
    (
        PARSED,
        r#""root":3,"tokens":1,"commands":[
            ["begin_some"],["set",1,{"t":0}],["end"],["parse_from_str","x"]
        ]}"#,
        4,
        "null",
        1,
    ),
    (
        PARSED,
        r#""root":3,"tokens":1,"commands":[
            ["begin_some"],["set",1,{"t":0}],["end"],["parse_from_bytes",[0,255]]
        ]}"#,
        4,
        "null",
        1,
    ),
    (
        PARSED,
        r#""root":7,"tokens":1,"commands":[
            ["begin_field","r"],["set",1,{"t":0}],["end"],
            ["begin_field","refused"],["parse_from_str","7"]
        ]}"#,
        4,
        "ParseFailed",
        1,
    ),
    (
        PARSED,
        r#""root":7,"tokens":1,"commands":[
            ["begin_field","refused"],["parse_from_bytes",[]],["set",1,{"t":0}]
        ]}"#,
        1,
        BYTES_NOT_PARSED,
        1,
    ),
    (
        PARSED,
        r#""root":7,"tokens":1,"commands":[
            ["begin_field","starved"],["parse_from_str","7"],["set",1,{"t":0}]
        ]}"#,
        1,
        "OutOfMemory",
        1,
    ),
    (
        PARSED,
        r#""root":7,"tokens":1,"commands":[
            ["begin_field","r"],["set",1,{"t":0}],["end"],
            ["begin_field","starved"],["parse_from_bytes",[7]]
        ]}"#,
        4,
        "OutOfMemory",
        1,
    ),
    (
        PARSED,
        r#""root":7,"tokens":1,"commands":[
            ["begin_field","unparsed"],["parse_from_str","7"],["set",1,{"t":0}]
        ]}"#,
        1,
        NO_PARSING,
        1,
    ),
    (
        PARSED,
        r#""root":1,"tokens":1,"commands":[["set",1,{"t":0}],["parse_from_bytes",[7]]]}"#,
        1,
        NO_PARSING_OF_BYTES,
        1,
    ),
    // Values are validated.
    (
        CHECKED,
        r#""root":3,"tokens":1,"commands":[
            ["begin_field","r"],["set",1,{"t":0}],["end"],
            ["begin_field","digit"],["begin_field","n"],["set",0,10],["end"],["end"]
        ]}"#,
        7,
        "ValidationFailed",
        1,
    ),
    (
        CHECKED,
        r#""root":3,"tokens":1,"commands":[
            ["begin_field","r"],["set",1,{"t":0}],["end"],
            ["begin_field","digit"],["set",2,[10]],["end"],
            ["begin_field","n"],["set",0,10],["end"]
        ]}"#,
        9,
        "ValidationFailed",
        1,
    ),
    (
        CHECKED,
        r#""root":3,"tokens":1,"commands":[
            ["begin_deferred"],["begin_field","r"],["set",1,{"t":0}],["end"],
            ["begin_field","digit"],["begin_field","n"],["set",0,10],["end"],["end"],
            ["finish_deferred"]
        ]}"#,
        9,
        "ValidationFailed",
        1,
    ),
    (
        CHECKED,
        r#""root":3,"tokens":1,"commands":[
            ["begin_deferred"],["begin_field","r"],["set",1,{"t":0}],["end"],
            ["begin_field","digit"],["set",2,[10]],["end"],["finish_deferred"]
        ]}"#,
        8,
        r#"[{"t":0},[10],1]"#,
        0,
    ),
    (
        CHECKED,
        r#""root":4,"tokens":1,"commands":[
            ["init_set"],["begin_set_item"],["begin_field","n"],["set",0,10],["end"],
            ["end"],["set",1,{"t":0}]
        ]}"#,
        5,
        "ValidationFailed",
        1,
    ),
    (
        CHECKED,
        r#""root":4,"tokens":1,"commands":[
            ["begin_deferred"],["init_set"],["begin_set_item"],["begin_field","n"],
            ["set",0,10],["end"],["end"],["finish_deferred"],["set",1,{"t":0}]
        ]}"#,
        6,
        "ValidationFailed",
        1,
    ),
    // Invariants are kept.
    (
        CHECKED,
        r#""root":6,"tokens":1,"commands":[
            ["begin_some"],["begin_field","r"],["set",1,{"t":0}],["end"],["end"]
        ]}"#,
        5,
        TYPE_INVARIANT,
        1,
    ),
    (
        CHECKED,
        r#""root":6,"tokens":1,"commands":[["set",6,null]]}"#,
        1,
        "null",
        0,
    ),
    (
        CHECKED,
        r#""root":7,"tokens":1,"commands":[
            ["init_map"],["begin_key"],["set",5,[{"t":0}]],["end"],
            ["begin_value"],["set",0,7],["end"]
        ]}"#,
        7,
        TYPE_INVARIANT,
        1,
    ),
    (
        CHECKED,
        r#""root":8,"tokens":1,"commands":[["set",8,[{"t":0}]]]}"#,
        1,
        r#"[{"t":0}]"#,
        0,
    ),
    (
        CHECKED,
        r#""root":9,"tokens":1,"commands":[["set",9,7]]}"#,
        1,
        "7",
        0,
    ),
];

#[test]
fn scripts_are_built_by_hooks(rt: HostRuntime) {
    for (shapes, rest, calls, want, released) in SCRIPTS {
        check_counted(&rt, shapes, rest, calls, want, &[released]);
    }
}
