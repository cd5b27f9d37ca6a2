//! The example's form: a server with a host, a port that isn't a reserved one, and a number of
//! workers that has a default.
use super::records::pairs_of;
use super::texts::{check_text, check_value, no_tokens, table_of};
use fr_example::submit;
use fr_shape::{NoHooks, ShapeId};
use std::process::Abort;

const SERVER: &str = r#"[
    {"name":"String","def":"String"},
    {"name":"u16","def":"u16"},
    {"name":"u8","def":"u8"},
    {"name":"Server","def":{"struct":[
        {"name":"host","shape":0},
        {"name":"port","shape":1,"validators":[{"min":1024}]},
        {"name":"workers","shape":2,"default":{"custom":4}}
    ]}}
]"#;

/// What is filled in at a form, and what its user sees.
const FORMS: [(&str, &str); 5] = [
    ("port=8080 host=example.org", r#"["example.org",8080,4]"#),
    // The last of a name wins.
    ("port=80 host=a workers=9 port=8080", r#"["a",8080,9]"#),
    // Each bad field is named.
    (
        "port=70000 host=a colour=red workers=many",
        "port: not a u16\ncolour: no such field\nworkers: not a u8",
    ),
    ("port=8080", "host is missing"),
    ("port=80 host=a", "port: must be >= 1024, got 80"),
];

/// Ends the test where a user of the form sees something else.
fn check_form(rt: &(impl Abort + AllocGlobal), fields: &str, want: &str) {
    let table = table_of(rt, SERVER);
    let mut ledger = no_tokens(rt, rt.alloc());
    let fields = pairs_of(rt, rt.alloc(), fields);
    assert!(rt; table.len() > 3);
    let submitted = submit(
        rt.alloc(),
        &table,
        ShapeId(3),
        &NoHooks,
        fields.as_slice(),
        &mut ledger,
    );
    match submitted {
        Ok(built) => check_value(rt, built.value(), want),
        Err(error) => match error.in_words(rt.alloc(), &table) {
            Ok(words) => check_text(rt, words.as_str(), want),
            Err(_) => panic!(rt; "no memory"),
        },
    }
}

#[test]
fn a_form_builds_or_says_what_is_wrong(rt: HostRuntime) {
    for (fields, want) in FORMS {
        check_form(&rt, fields, want);
    }
}
