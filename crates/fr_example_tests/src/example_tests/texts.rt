//! Tables that tests give as texts, and values as they are printed. A text that is none ends the
//! test.
ghost use Rattle.fr_shape.specs.Checked.{IsChecked};
ghost use Rattle.fr_shape.specs.Numbered.{IsNumbered};

use fr_doc::{json_of, shapes_of};
use fr_example::write_kind;
use fr_shape::{Ledger, ReflectErrorKind, ShapeTable, Value};
use serde_json::Value as Json;
use std::alloc::Global;
use std::process::Abort;

/// The table of these shapes, which keeps the rules.
pub fn table_of(rt: &(impl Abort + AllocGlobal), shapes: &str) -> ShapeTable
    ensures checked { IsChecked result }
    ensures numbered { IsNumbered result }
{
    let Ok(json) = Json::from_str(rt.alloc(), shapes) else {
        panic!(rt; "no JSON");
    };
    let Ok(shapes) = shapes_of(rt.alloc(), &json) else {
        panic!(rt; "no shapes");
    };
    let table = ShapeTable::new(rt.alloc(), shapes);
    assert!(rt; table.is_numbered());
    match table.check() {
        Ok(()) => table,
        Err(_) => panic!(rt; "a rule is broken"),
    }
}

/// A ledger of no tokens.
pub fn no_tokens(rt: &impl Abort, alloc: Global) -> Ledger {
    match Ledger::new(alloc, 0) {
        Ok(ledger) => ledger,
        Err(_) => panic!(rt; "no memory"),
    }
}

/// Ends the test where a value is printed otherwise.
pub fn check_value(rt: &(impl Abort + AllocGlobal), value: &Value, want: &str) {
    let Ok(json) = json_of(rt.alloc(), value) else {
        panic!(rt; "no memory");
    };
    match json.to_string(rt.alloc()) {
        Ok(text) => check_text(rt, text.as_str(), want),
        Err(_) => panic!(rt; "no memory"),
    }
}

/// Ends the test where a text is another than is wanted.
pub fn check_text(rt: &impl Abort, text: &str, want: &str) {
    assert!(rt; text == want, "{text}");
}

/// Ends the test where a refusal is told in other words.
pub fn check_kind(
    rt: &(impl Abort + AllocGlobal),
    table: &ShapeTable,
    kind: &ReflectErrorKind,
    want: &str,
) {
    let mut words = String::new(rt.alloc());
    match write_kind(&mut words, table, kind) {
        Ok(()) => check_text(rt, words.as_str(), want),
        Err(_) => panic!(rt; "no memory"),
    }
}
