//! The forms of values, read and printed, and the details of errors that no document prints.
use crate::texts::{check_printed, check_text, table_of};
use fr_doc::{detail_of, value_of};
use fr_shape::{Reason, ReflectErrorKind, ShapeTable};
use serde_json::Value as Json;
use std::alloc::{AllocGlobal, Global};
use std::process::Abort;

/// Texts of values, each with that in which the value is printed, where that is another; or with the
/// word that there is none.
const FORMS: &str = r#"
    true
    "text"
    null
    0
    18446744073709551615
    {"n":"18446744073709551616"}
    {"n":"340282366920938463463374607431768211455"}
    {"i":-9223372036854775808}
    {"i":9223372036854775807}
    {"i":"9223372036854775808"}
    {"i":"-170141183460469231731687303715884105728"}
    {"c":"é"}
    {"t":4294967295}
    [1,[true],{"s":2}]
    {"v":[3,[null,"a"]]}
    {"ok":{"err":{"p":false}}}
    {"l":[1,2,3]}
    {"e":["b","a"]}
    {"m":[[1,"a"],[2,"b"]]}
    {"d":[null,true,7,"x",{"i":-3},{"b":[0,255]}]}
    {"d":{"o":[["k",1],["j",[]]]}}
    {"n":"007"} => 7
    {"i":"-5"} => {"i":-5}
    {"i":"-0"} => {"i":0}
    {"i":18446744073709551615} => {"i":"18446744073709551615"}
    -1 => none
    1.5 => none
    {} => none
    {"x":1} => none
    {"l":[],"e":[]} => none
    {"n":1} => none
    {"n":""} => none
    {"n":"+1"} => none
    {"n":"340282366920938463463374607431768211456"} => none
    {"i":"170141183460469231731687303715884105728"} => none
    {"c":"ab"} => none
    {"c":""} => none
    {"t":4294967296} => none
    {"v":[1]} => none
    {"v":[1,[],[]]} => none
    {"m":[[1]]} => none
    {"l":[1,-1]} => none
    {"d":-1} => none
    {"d":{"i":"5"}} => none
    {"d":{"b":[256]}} => none
"#;

const FORM_COUNT: usize = 45;

/// Ends the test where a text stands for another value than is wanted.
fn check_form(rt: &impl Abort, alloc: Global, text: &str, want: &str) {
    let Ok(json) = Json::from_str(alloc, text) else {
        panic!(rt; "no JSON");
    };
    match value_of(alloc, &json) {
        Ok(Some(value)) => check_printed(rt, alloc, &value, want),
        Ok(None) => check_text(rt, "", want),
        Err(_) => panic!(rt; "no memory"),
    }
}

/// Ends the test where the text of a row stands for another value than is wanted.
fn check_row(rt: &impl Abort, alloc: Global, row: &str) {
    match row.split_once(" => ") {
        Some((text, "none")) => check_form(rt, alloc, text, ""),
        Some((text, want)) => check_form(rt, alloc, text, want),
        None => check_form(rt, alloc, row, row),
    }
}

#[test]
fn values_are_printed_as_they_are_read(rt: HostRuntime) {
    let mut found = 0usize;
    for row in FORMS.trim().lines() {
        check_row(&rt, rt.alloc(), row.trim());
        found = found.saturating_add(1);
    }
    assert!(rt; found == FORM_COUNT);
}

/// Compares the detail of an error of this kind, over that table.
fn check_detail(
    rt: &(impl Abort + AllocGlobal),
    table: &ShapeTable,
    kind: ReflectErrorKind,
    want: &str,
) {
    match detail_of(rt.alloc(), table, &kind) {
        Ok(detail) => check_text(rt, detail.as_str(), want),
        Err(_) => panic!(rt; "no memory"),
    }
}

#[test]
fn details_tell_what_was_wrong(rt: HostRuntime) {
    let table = table_of(&rt, rt.alloc(), "[]");
    let reason = Reason::NoSuchField;
    check_detail(
        &rt,
        &table,
        ReflectErrorKind::InvalidOperation { reason },
        "no such field",
    );
    let reason = Reason::NotAProduct;
    check_detail(
        &rt,
        &table,
        ReflectErrorKind::InvalidOperation { reason },
        "not a struct, enum, option or result",
    );
    check_detail(&rt, &table, ReflectErrorKind::OutOfMemory, "out of memory");
}
