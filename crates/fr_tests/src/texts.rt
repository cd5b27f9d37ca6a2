//! Tables, their plans, and values that tests give as texts, and ledgers. A text that is none ends
//! the test.
ghost use Rattle.fr_shape.specs.Checked.{IsChecked};
ghost use Rattle.fr_frame.specs.Completing.{IsPlanFor};

use fr_plan::TypePlanCore;
use fr_shape::{Ledger, ShapeId, ShapeTable, Value, fits};
use serde_json::Value as Json;
use std::alloc::Global;
use std::process::Abort;

/// The table of these shapes, which may break rules.
pub fn table_of(rt: &impl Abort, alloc: Global, shapes: &str) -> ShapeTable {
    let Ok(json) = Json::from_str(alloc, shapes) else {
        panic!(rt; "no JSON");
    };
    match fr_doc::shapes_of(alloc, &json) {
        Ok(shapes) => ShapeTable::new(alloc, shapes),
        Err(_) => panic!(rt; "no shapes"),
    }
}

fn push(rt: &impl Abort, text: &mut String, part: &str) {
    let pushed = text.push_str(part);
    assert!(rt; pushed.is_ok());
}

/// These parts so many times between a front and a back: each time with a number between them, 1
/// at first and then one more.
pub fn repeated(
    rt: &impl Abort,
    alloc: Global,
    (front, back): (&str, &str),
    parts: &[&str],
    count: u32,
) -> String {
    let mut text = String::new(alloc);
    push(rt, &mut text, front);
    for i in 0..count {
        let Ok(number) = format!(in alloc; "{}", i.saturating_add(1)) else {
            panic!(rt; "no memory");
        };
        for (k, part) in parts.iter().enumerate() {
            if 0 < k {
                push(rt, &mut text, number.as_str());
            }
            push(rt, &mut text, *part);
        }
    }
    push(rt, &mut text, back);
    text
}

/// The plan of the second shape.
pub fn planned(rt: &impl Abort, alloc: Global, table: &ShapeTable) -> TypePlanCore
    ensures checked { IsChecked table.now }
    ensures plan { IsPlanFor table.now result }
{
    assert!(rt; table.len() <= u32::MAX as usize && 1 < table.len());
    let Ok(()) = table.check() else {
        panic!(rt; "a rule is broken");
    };
    match TypePlanCore::from_shape(alloc, table, ShapeId(1)) {
        Ok(plan) => plan,
        Err(_) => panic!(rt; "not planned"),
    }
}

/// The value of this form.
pub fn value_of(rt: &impl Abort, alloc: Global, text: &str) -> Value {
    let Ok(json) = Json::from_str(alloc, text) else {
        panic!(rt; "no JSON");
    };
    match fr_doc::value_of(alloc, &json) {
        Ok(Some(value)) => value,
        Ok(None) => panic!(rt; "no value"),
        Err(_) => panic!(rt; "no memory"),
    }
}

/// A ledger of so many tokens.
pub fn ledger(rt: &impl Abort, alloc: Global, tokens: u32) -> Ledger {
    match Ledger::new(alloc, tokens) {
        Ok(ledger) => ledger,
        Err(_) => panic!(rt; "no memory"),
    }
}

/// Ends the test where a text is another than is wanted.
pub fn check_text(rt: &impl Abort, text: &str, want: &str) {
    assert_eq!(rt; text, want);
}

/// Ends the test where a value is printed otherwise than is wanted.
pub fn check_printed(rt: &impl Abort, alloc: Global, value: &Value, want: &str) {
    let Ok(json) = fr_doc::json_of(alloc, value) else {
        panic!(rt; "no memory");
    };
    match json.to_string(alloc) {
        Ok(text) => check_text(rt, text.as_str(), want),
        Err(_) => panic!(rt; "no memory"),
    }
}

/// Ends the test where the value of a text fits the shape of this number otherwise than is wanted.
pub fn check_fit(
    rt: &impl Abort,
    alloc: Global,
    table: &ShapeTable,
    (id, text, want): (u32, &str, bool),
) {
    assert!(rt;
        fits(table, ShapeId(id), &value_of(rt, alloc, text)) == want,
        "{text} at shape {id}"
    );
}

/// What a row has before this and behind it.
pub fn cut<'a>(rt: &impl Abort, row: &'a str, at: &str) -> (&'a str, &'a str) {
    match row.split_once(at) {
        Some((before, behind)) => (before.trim(), behind.trim()),
        None => panic!(rt; "a row that ends early: {row}"),
    }
}

/// The number that is given in a row.
pub fn number(rt: &impl Abort, given: &str) -> u32 {
    match given.parse::<u32>() {
        Ok(number) => number,
        Err(_) => panic!(rt; "no number: {given}"),
    }
}
