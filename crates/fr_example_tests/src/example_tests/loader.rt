//! The loader of lines, and what whoever wrote the lines is told.
use super::texts::{check_text, check_value, no_tokens, table_of};
use fr_example::load;
use fr_shape::{NoHooks, ShapeId};
use std::process::Abort;

/// A service: a name, a database in a group, and a listener with a group for certificates.
const SERVICE: &str = r#"[
    {"name":"String","def":"String"},
    {"name":"u16","def":"u16"},
    {"name":"bool","def":"bool"},
    {"name":"Db","def":{"struct":[
        {"name":"url","shape":0},
        {"name":"pool","shape":1,"default":{"custom":4}}
    ]}},
    {"name":"Tls","def":{"struct":[
        {"name":"cert","shape":0,"validators":[{"min_length":1}]},
        {"name":"strict","shape":2,"default":{"custom":true}}
    ]}},
    {"name":"Listen","def":{"struct":[
        {"name":"port","shape":1},
        {"name":"tls","shape":4}
    ]}},
    {"name":"Service","def":{"struct":[
        {"name":"name","shape":0},
        {"name":"db","shape":3},
        {"name":"listen","shape":5}
    ]}}
]"#;

/// Lines, and the service that they make or what is told of them.
const LINES: [(&str, &str); 8] = [
    // Groups are come back to.
    (
        "\
# where it listens
listen.port = 443
db.url = postgres://db/main
listen.tls.cert = /etc/cert.pem

name = search
   # and again
db.pool=8
",
        r#"["search",["postgres://db/main",8],[443,["/etc/cert.pem",true]]]"#,
    ),
    // A later line takes the place of an earlier one.
    (
        "name = a\r\nname = b = c\r\ndb.url = \r\nlisten.port = 80\r\nlisten.tls.cert = x",
        r#"["b = c",["",4],[80,["x",true]]]"#,
    ),
    // A missing field is told.
    (
        "name = search\ndb.url = u\nlisten.port = 443\nlisten.tls.strict = false",
        "missing: listen.tls.cert",
    ),
    ("name = search", "missing: db"),
    // A line that is refused is told.
    ("name = search\ndb.uri = u", "line 2: db: no such field"),
    ("\n\nlisten.port = many", "line 3: listen.port: not a u16"),
    (
        "name.first = a",
        "line 1: name: cannot select a field from a primitive type",
    ),
    // A line that is none is told first.
    ("nmae = search\nname", "line 2: no `key = value`"),
];

/// Ends the test where the service of these lines is printed otherwise, or the error is told in
/// other words.
fn check_load(rt: &(impl Abort + AllocGlobal), text: &str, want: &str) {
    let table = table_of(rt, SERVICE);
    let mut ledger = no_tokens(rt, rt.alloc());
    assert!(rt; 6 < table.len());
    match load(rt.alloc(), &table, ShapeId(6), &NoHooks, text, &mut ledger) {
        Ok(built) => check_value(rt, built.value(), want),
        Err(error) => match error.in_words(rt.alloc(), &table, ShapeId(6), text) {
            Ok(words) => check_text(rt, words.as_str(), want),
            Err(_) => panic!(rt; "no memory"),
        },
    }
}

#[test]
fn lines_are_loaded_or_it_is_told_what_is_wrong(rt: HostRuntime) {
    for (text, want) in LINES {
        check_load(&rt, text, want);
    }
}
