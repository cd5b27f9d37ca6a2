//! Values that pass and values that fail, with what is said of them. What finds no memory ends the
//! test.
use crate::texts::{cut, number, value_of};
use fr_doc::DocHooks;
use fr_rules::*;
use fr_shape::{FieldRef, HookId, ReflectErrorKind, ScalarKind, ShapeId, Text};
use std::alloc::Global;
use std::process::Abort;

/// Runs the validator: the value passes where nothing is said.
fn check(rt: &impl Abort, alloc: Global, kind: ValidatorKind, value: &str, said: Option<&str>) {
    let validator = PrecomputedValidator { kind };
    let place = FieldRef {
        shape: ShapeId(3),
        variant: Some(1),
        index: 2,
    };
    match validator.run(alloc, &DocHooks, &value_of(rt, alloc, value), place) {
        Ok(()) => assert!(rt; said.is_none(), "{value}"),
        Err(ReflectErrorKind::ValidationFailed { field, message }) => {
            assert!(rt; field == place && Some(message.as_str()) == said, "{value}");
        }
        Err(_) => panic!(rt; "no memory for the message"),
    }
}

/// Of each row the validator, the kind that it tests, what it asks, and a value; and behind a bar what
/// is said where the value fails. Numbers stand at their kind's edge and beyond: a U64 above the
/// greatest I64 passes every least bound and fails every greatest, and numbers of the machine's width
/// and of 128 bits pass all. Of the hooks of documents 2 refuses each value, and 4 is none.
const ROWS: &str = r#"
    min I8 -128 {"i":-128}
    min I8 -127 {"i":-128} | must be >= -127, got -128
    min I16 -32768 {"i":-32768}
    min I16 -32767 {"i":-32768} | must be >= -32767, got -32768
    min I32 -2147483648 {"i":-2147483648}
    min I32 -2147483647 {"i":-2147483648} | must be >= -2147483647, got -2147483648
    min I64 -9223372036854775808 {"i":-9223372036854775808}
    min I64 -9223372036854775807 {"i":-9223372036854775808} | must be >= -9223372036854775807, got -9223372036854775808
    max I8 127 {"i":127}
    max I8 126 {"i":127} | must be <= 126, got 127
    max I16 32767 {"i":32767}
    max I16 32766 {"i":32767} | must be <= 32766, got 32767
    max I32 2147483647 {"i":2147483647}
    max I32 2147483646 {"i":2147483647} | must be <= 2147483646, got 2147483647
    max I64 9223372036854775807 {"i":9223372036854775807}
    max I64 9223372036854775806 {"i":9223372036854775807} | must be <= 9223372036854775806, got 9223372036854775807
    min U8 0 0
    min U8 1 0 | must be >= 1, got 0
    min U8 -1 0
    min U8 256 255 | must be >= 256, got 255
    min U16 0 0
    min U16 1 0 | must be >= 1, got 0
    min U32 0 0
    min U32 1 0 | must be >= 1, got 0
    min U64 0 0
    min U64 1 0 | must be >= 1, got 0
    min U64 9223372036854775807 9223372036854775808
    min U64 9223372036854775807 18446744073709551615
    max U8 255 255
    max U8 254 255 | must be <= 254, got 255
    max U8 -1 0 | must be <= -1, got 0
    max U16 65535 65535
    max U16 65534 65535 | must be <= 65534, got 65535
    max U32 4294967295 4294967295
    max U32 4294967294 4294967295 | must be <= 4294967294, got 4294967295
    max U64 9223372036854775807 9223372036854775807
    max U64 9223372036854775807 9223372036854775808 | must be <= 9223372036854775807, got 9223372036854775808
    max U64 9223372036854775807 18446744073709551615 | must be <= 9223372036854775807, got 18446744073709551615
    min ISize 5 {"i":4}
    max ISize 5 {"i":6}
    min I128 5 {"i":4}
    max I128 5 {"i":6}
    min USize 5 4
    max USize 5 6
    min U128 5 4
    max U128 5 6
    min_length String 6 "héllo"
    min_length String 7 "héllo" | length must be >= 7, got 6
    max_length CowStr 6 "héllo"
    max_length CowStr 5 "héllo" | length must be <= 5, got 6
    url String - "http://"
    url String - "https://a.b"
    url String - "ftp://a.b" | 'ftp://a.b' is not a valid URL
    regex String ab "aab"
    contains CowStr ab "aab"
    regex String '' ""
    contains CowStr '' ""
    regex String a.b "aab" | 'aab' does not match pattern 'a.b'
    contains CowStr a.b "aab" | 'aab' does not contain 'a.b'
    custom String 4 true
    custom String 2 true | custom validation failed
"#;

const ROW_COUNT: usize = 61;

fn scalar_of(rt: &impl Abort, name: &str) -> ScalarKind {
    match name {
        "I8" => ScalarKind::I8,
        "I16" => ScalarKind::I16,
        "I32" => ScalarKind::I32,
        "I64" => ScalarKind::I64,
        "ISize" => ScalarKind::ISize,
        "I128" => ScalarKind::I128,
        "U8" => ScalarKind::U8,
        "U16" => ScalarKind::U16,
        "U32" => ScalarKind::U32,
        "U64" => ScalarKind::U64,
        "USize" => ScalarKind::USize,
        "U128" => ScalarKind::U128,
        "String" => ScalarKind::String,
        "CowStr" => ScalarKind::CowStr,
        _ => panic!(rt; "no kind: {name}"),
    }
}

/// The bound that is given in a row.
fn bound(rt: &impl Abort, given: &str) -> i64 {
    match given.parse::<i64>() {
        Ok(bound) => bound,
        Err(_) => panic!(rt; "no bound: {given}"),
    }
}

/// The part of a text that is given in a row: nothing, if it is a pair of quotes.
fn part(rt: &impl Abort, alloc: Global, given: &str) -> Text {
    let part = if given == "''" { "" } else { given };
    match Text::new(alloc, part) {
        Ok(text) => text,
        Err(_) => panic!(rt; "no memory"),
    }
}

/// The validator that asks this of values of this kind.
fn validator(
    rt: &impl Abort,
    alloc: Global,
    name: &str,
    kind: ScalarKind,
    given: &str,
) -> ValidatorKind {
    match name {
        "min" => ValidatorKind::Min(bound(rt, given), kind),
        "max" => ValidatorKind::Max(bound(rt, given), kind),
        "min_length" => ValidatorKind::MinLength(u64::from(number(rt, given)), kind),
        "max_length" => ValidatorKind::MaxLength(u64::from(number(rt, given)), kind),
        "url" => ValidatorKind::Url(kind),
        "regex" => ValidatorKind::Regex(part(rt, alloc, given), kind),
        "contains" => ValidatorKind::Contains(part(rt, alloc, given), kind),
        "custom" => ValidatorKind::Custom(HookId(number(rt, given))),
        _ => panic!(rt; "no validator: {name}"),
    }
}

/// Runs the validator of a row over its value.
fn check_row(rt: &impl Abort, alloc: Global, row: &str) {
    let (name, row) = cut(rt, row, " ");
    let (kind, row) = cut(rt, row, " ");
    let (given, row) = cut(rt, row, " ");
    let kind = validator(rt, alloc, name, scalar_of(rt, kind), given);
    match row.split_once(" | ") {
        Some((value, said)) => check(rt, alloc, kind, value, Some(said)),
        None => check(rt, alloc, kind, row, None),
    }
}

#[test]
fn values_pass_or_fail(rt: HostRuntime) {
    let mut found = 0usize;
    for row in ROWS.trim().lines() {
        check_row(&rt, rt.alloc(), row.trim());
        found = found.saturating_add(1);
    }
    assert!(rt; found == ROW_COUNT);
}
